//! The faults for which appenders and filters are left out.

ghost use Rattle.std.specs.Prelude.{◌≡◌, ◌↔◌, ◌++◌, [], IfOk, IsTrue, OnOk, length, map};
ghost use Rattle.std.specs.Prelude.{option_map, string_bytes};
ghost use Rattle.std.specs.List.{list_any};
ghost use Rattle.log4rs_plans.specs.Outcomes.{error_of, errors_of, filter_errors, good, leaves_out};
ghost use Rattle.log4rs_plans.specs.Outcomes.{IsLeftOut, LeavesOut, refused_name, refused_names};
ghost use Rattle.log4rs_plans.specs.View.{told};

use log4rs_base::print::print_fault;
use log4rs_base::{FaultList, LogError, OutOfMemory};
use log4rs_settings::{ConfigFault, FaultAt, FilterPlan, PartFault, Shown};
use std::alloc::Global;
use std::fmt::{self, Display, Formatter};
use std::marker::Model;
use thiserror::Error;

/// A fault for which an appender, or one of its filters, was left out, with the appender's name.
#[derive(Debug, Drop, Error)]
pub enum DeserializingConfigError {
    /// The appender has this fault.
    #[error("error deserializing appender {0}: {1}")]
    Appender(String, ConfigFault),
    /// A filter of the appender has this fault.
    #[error("error deserializing filter attached to appender {0}: {1}")]
    Filter(String, ConfigFault),
}

/// A fault as it is printed: for a filter, with what its absence means.
#[derive(Drop)]
pub struct WithMeaning<'a>(pub &'a DeserializingConfigError);

impl Display for WithMeaning<'_> {
    fn fmt<W: fmt::Write>(&self, f: &mut Formatter<W>) -> fmt::Result {
        write!(f, "{}", self.0)?;
        write_meaning(self.0, f)
    }
}

/// Writes what the absence of a filter means.
fn write_meaning<W: fmt::Write>(
    error: &DeserializingConfigError,
    f: &mut Formatter<W>,
) -> fmt::Result {
    match error {
        DeserializingConfigError::Appender(_, _) => Ok(()),
        DeserializingConfigError::Filter(name, _) => write!(
            f,
            "; appender {name} passes every record that its other filters pass"
        ),
    }
}

/// The place of a fault in a configuration.
#[derive(Debug, Drop)]
struct Place {
    /// The path of names to it, joined by dots.
    path: String,
    /// The bad value as it is shown, if there is one.
    value: Option<String>,
}

/// A fault with its place, as it is printed: behind the path of its file, if there is one.
#[derive(Clone, Copy)]
struct Placed<'a> {
    file: Option<&'a String>,
    error: &'a DeserializingConfigError,
    place: &'a Place,
}

impl Display for Placed<'_> {
    fn fmt<W: fmt::Write>(&self, f: &mut Formatter<W>) -> fmt::Result {
        if let Some(file) = self.file {
            write!(f, "{file}: ")?;
        }
        let fault = match self.error {
            DeserializingConfigError::Appender(name, ConfigFault::Log(LogError::Store)) => {
                return write!(f, "appender {name} is left out: its file cannot be opened");
            }
            DeserializingConfigError::Appender(_, fault) => fault,
            DeserializingConfigError::Filter(_, fault) => fault,
        };
        let place = self.place.path.as_str();
        let value = self.place.value.as_ref();
        write!(
            f,
            "{}",
            FaultAt {
                place,
                value,
                fault
            }
        )?;
        if let DeserializingConfigError::Appender(name, _) = self.error {
            write!(f, "; appender {name} is left out")?;
        }
        write_meaning(self.error, f)
    }
}

/// The faults of appenders and their filters, in the order in which they are found.
#[derive(Debug, Drop)]
pub struct AppenderErrors {
    errors: Vec<DeserializingConfigError>,
    // The place of each of them.
    places: Vec<Place>,
    // The path of the file in whose text they are.
    file: Option<String>,
    ghost placed: { length places.items ≡ length errors.items },
}

impl Model for AppenderErrors {
    ghost use Rattle.std.specs.Prelude.{List};
    ghost use Rattle.log4rs_plans.specs.Outcomes.{Error, errors_of};

    ghost Value = { List Error };

    ghost view = { λ e. errors_of e.errors.items };
}

/// Returns whether a fault leaves an appender out. That of a filter leaves out the filter alone.
fn leaves_out(error: &DeserializingConfigError) -> bool
    ensures { result ≡ leaves_out (error_of error.now) }
{
    matches!(error, DeserializingConfigError::Appender(..))
}

/// Returns whether one of these faults leaves an appender out.
fn any_leaves_out(errors: &[DeserializingConfigError]) -> bool
    ensures { result ≡ list_any (λ error. leaves_out (error_of error)) errors.now }
{
    errors.iter().any(|error| leaves_out(error))
}

/// Returns whether a fault leaves the appender of a name out.
fn leaves_out_named(error: &DeserializingConfigError, name: &str) -> bool
    ensures { IsTrue result ↔ LeavesOut name.now (error_of error.now) }
{
    match error {
        DeserializingConfigError::Appender(other, _) => other.as_str() == name,
        DeserializingConfigError::Filter(..) => false,
    }
}

/// Returns whether one of these faults leaves the appender of a name out.
fn any_leaves_out_named(errors: &[DeserializingConfigError], name: &str) -> bool
    ensures { IsTrue result ↔ IsLeftOut name.now (errors_of errors.now) }
{
    for error in errors {
        if leaves_out_named(error, name) {
            return true;
        }
    }
    false
}

/// Returns the name of the appender whose file could not be opened, if that is the fault.
fn refused_name(error: &DeserializingConfigError) -> Option<&str>
    ensures { option_map (λ name. name.now) result ≡ refused_name (error_of error.now) }
{
    match error {
        DeserializingConfigError::Appender(name, ConfigFault::Log(LogError::Store)) => {
            Some(name.as_str())
        }
        _ => None,
    }
}

/// Returns the names of the appenders whose files could not be opened, in order.
fn refused_among(
    alloc: Global,
    errors: &[DeserializingConfigError],
) -> Result<Vec<String>, OutOfMemory>
    ensures { IfOk result (λ names. map (λ s. string_bytes s) names.items
        ≡ refused_names (errors_of errors.now)) }
{
    let mut names = Vec::new(alloc);
    for error in errors {
        if let Some(name) = refused_name(error) {
            names.push(String::from_str(alloc, name)?)?;
        }
    }
    Ok(names)
}

impl AppenderErrors {
    ghost use Rattle.std.specs.Prelude.{◌∷◌, ◌++◌, OnErr, OnOk};
    ghost use Rattle.log4rs_settings.specs.Fault.{fault_of};
    ghost use Rattle.log4rs_plans.specs.Outcomes.{errors_of, in_appender, in_filter};

    /// Returns no faults. They are printed with the path of a file, if one is given.
    pub fn new(alloc: Global, file: Option<String>) -> AppenderErrors
        ensures { result ≡ [] }
    {
        AppenderErrors {
            errors: Vec::new(alloc),
            places: Vec::new(alloc),
            file,
        }
    }

    /// Adds a fault with its place. If an allocation fails, nothing changes.
    fn push(&mut self, error: DeserializingConfigError, place: Place) -> Result<(), OutOfMemory>
        ensures ok { OnOk result (self.new ≡ self.old ++ error_of error ∷ []) }
        ensures err { OnErr result (self.new ≡ self.old) }
    {
        self.places.reserve(1)?;
        self.errors.reserve(1)?;
        self.places.push_reserved(place);
        self.errors.push_reserved(error);
        Ok(())
    }

    /// Adds the fault of an appender. The place of the fault is one in the appender's settings. If
    /// an allocation fails, nothing changes.
    pub fn note_appender(&mut self, name: &str, told: PartFault) -> Result<(), OutOfMemory>
        ensures err { OnErr result (self.new ≡ self.old) }
        ensures ok { OnOk result
            (self.new ≡ self.old ++ in_appender name.now (fault_of told.fault) ∷ []) }
    {
        let alloc = *self.errors.allocator();
        let place = place_of(alloc, format!(in alloc; "appenders.{name}")?, &told)?;
        let name = String::from_str(alloc, name)?;
        let PartFault { fault, .. } = told;
        self.push(DeserializingConfigError::Appender(name, fault), place)
    }

    /// Adds the fault of the filter of an appender at an index. The place of the fault is one in the
    /// filter's settings. If an allocation fails, nothing changes.
    pub fn note_filter(
        &mut self,
        name: &str,
        index: usize,
        told: PartFault,
    ) -> Result<(), OutOfMemory>
        ensures err { OnErr result (self.new ≡ self.old) }
        ensures ok { OnOk result
            (self.new ≡ self.old ++ in_filter name.now (fault_of told.fault) ∷ []) }
    {
        let alloc = *self.errors.allocator();
        let path = format!(in alloc; "appenders.{name}.filters.{index}")?;
        let place = place_of(alloc, path, &told)?;
        let name = String::from_str(alloc, name)?;
        let PartFault { fault, .. } = told;
        self.push(DeserializingConfigError::Filter(name, fault), place)
    }

    /// Returns whether there is no fault.
    pub fn is_empty(&self) -> bool
        ensures { IsTrue result ↔ (self.now ≡ []) }
    {
        self.errors.is_empty()
    }

    /// Returns the faults, in the order in which they were found.
    pub fn errors(&self) -> &[DeserializingConfigError]
        ensures { errors_of result.now ≡ self.now }
    {
        self.errors.as_slice()
    }

    /// Returns whether an appender was left out for one of the faults.
    pub fn leave_out(&self) -> bool
        ensures { result ≡ list_any leaves_out self.now }
    {
        any_leaves_out(self.errors())
    }

    /// Returns whether the appender of a name was left out for one of the faults.
    pub fn leave_out_named(&self, name: &str) -> bool
        ensures { IsTrue result ↔ IsLeftOut name.now self.now }
    {
        any_leaves_out_named(self.errors(), name)
    }

    /// Returns the names of the appenders whose files could not be opened, in order.
    pub fn refused(&self) -> Result<Vec<String>, OutOfMemory>
        ensures { IfOk result (λ names. map (λ s. string_bytes s) names.items
            ≡ refused_names self.now) }
    {
        refused_among(*self.errors.allocator(), self.errors())
    }

    /// Prints each fault to standard error, as `log4rs: ` and its text with its place in the
    /// configuration and the consequence. Errors of printing are ignored.
    pub fn print(&self, rt: &impl Eprint) {
        let file = self.file.as_ref();
        for (error, place) in self.errors.iter().zip(self.places.iter()) {
            print_fault(rt, &Placed { file, error, place });
        }
    }

    /// Prints each fault as `print` does, and removes them.
    pub fn handle(&mut self, rt: &impl Eprint)
        ensures { self.new ≡ [] }
    {
        self.print(rt);
        self.places.clear();
        self.errors.clear();
    }
}

/// Returns the place of a fault that is below an object at a path.
fn place_of(alloc: Global, mut path: String, told: &PartFault) -> Result<Place, OutOfMemory> {
    if !told.place.is_empty() {
        path.push('.')?;
        path.push_str(&told.place)?;
    }
    let value = match &told.value {
        Some(value) => Some(format!(in alloc; "{}", Shown(value))?),
        None => None,
    };
    Ok(Place { path, value })
}

/// Returns the plans of the good filters of an appender, in order, and notes the faults of the bad
/// ones. Fails only if an allocation fails; the faults of the first filters may be noted then.
pub fn good_filters(
    alloc: Global,
    name: &str,
    filters: Vec<Result<FilterPlan, PartFault>>,
    errors: &mut AppenderErrors,
) -> Result<Vec<FilterPlan>, OutOfMemory>
    ensures plans { IfOk result (λ plans. plans.items
        ≡ good (map (told (λ plan. plan)) filters.items)) }
    ensures errors { OnOk result (errors.new ≡ errors.old
        ++ filter_errors name.now (map (told (λ plan. plan)) filters.items)) }
{
    let mut plans = Vec::new(alloc);
    let mut index = 0usize;
    for filter in filters {
        match filter {
            Ok(plan) => plans.push(plan)?,
            Err(fault) => errors.note_filter(name, index, fault)?,
        }
        index = index.saturating_add(1);
    }
    Ok(plans)
}

impl FaultList for AppenderErrors {
    fn handle<W: Eprint>(&mut self, rt: &W) {
        AppenderErrors::handle(self, rt);
    }
}

impl Display for AppenderErrors {
    fn fmt<W: fmt::Write>(&self, f: &mut Formatter<W>) -> fmt::Result {
        f.write_str("errors in the appenders:")?;
        for (at, error) in self.errors.iter().enumerate() {
            f.write_str(if at == 0 { " " } else { "; " })?;
            write!(f, "{error}")?;
        }
        Ok(())
    }
}

impl std::error::Error for AppenderErrors {}
