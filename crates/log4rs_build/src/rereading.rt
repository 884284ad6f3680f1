//! Reading a file's configuration again while the program runs, beside the one in force.

ghost use Rattle.std.specs.Prelude.{◌≡◌, List, [], IfErr, IfOk, None, Ok, OnErr, Some};
ghost use Rattle.log4rs_build.specs.Again.{TriesAgain};
ghost use Rattle.log4rs_build.specs.Deserializers.{handed_of, KeepsMakers};
ghost use Rattle.log4rs_build.specs.Kept.{IsLoadedBeside, GivesBeside};
ghost use Rattle.log4rs_build.specs.Raw.{settings_in};
ghost use Rattle.log4rs_config.specs.Holder.{EndsBy, Happened, HolderEvent, OnlyRetires};
ghost use Rattle.log4rs_build.specs.Rebuilt.{Ends, LeavesHolder, LeavesOrSwaps, leaving_in};
ghost use Rattle.log4rs_plans.specs.View.{plans_view};
ghost use Rattle.log4rs_settings.specs.Reload.{answer_of, state_of, Reloads};

use crate::AppenderErrors;
use crate::config_file::{ConfigFile, Unheard, has_lost_all, tell_faults, warn};
use crate::create::{Built, build};
use crate::deserializers::DeserializersWith;
use crate::in_force::{
    InForce, Keeping, Leaver, Retired, end_all, in_force_of, kept, resume_all, retire, retry_all,
};
use crate::raw::{Prepared, RawConfig};
use jiff::Timestamp;
use log4rs_append::Locked;
use log4rs_base::OutOfMemory;
use log4rs_base::print::print_fault;
use log4rs_config::runtime::config::ConfigOf;
use log4rs_config::runtime::{ConfigErrors, HoldsConfig, Rereads, SharesAppenders};
use log4rs_parts::{BuildAppender, Parts, Refill};
use log4rs_plans::{Devices, OfFile, PlannedAppender, Plans, Surroundings};
use log4rs_rolling::StoreMaker;
use log4rs_settings::{
    ConfigSource, Format, LoadError, LoadedText, ReloadError, ReloadOf, Reloader,
};
use std::alloc::AllocError;
use std::fmt::{self, Display, Formatter};
use std::rt::Clock;

/// Reads a file again whose appenders are built of components `P` of the caller's, which `R` makes
/// anew.
pub type RereadingBy<X, S, M, P, R> = Rereading<
    X,
    S,
    M,
    DeserializersWith<P, R>,
    <P as BuildAppender<M>>::Appender,
>;

/// Reads the configuration of a file again. The times in paths are those of the reading. An error
/// of reading or parsing is printed to standard error once, until it changes or the file is read
/// again; so are the faults and warnings of each configuration that is put in force.
///
/// An appender whose file could not be opened is tried again at each reading that finds the same
/// text. Where stores print what is refused, a `TellOnceMaker` below them prints it once.
#[derive(Drop)]
pub struct Rereading<X, S, M, D, B> {
    rt: X,
    file: ConfigFile<S, M, D>,
    reloader: Reloader,
    /// What the appenders of the first reading are.
    planned: Vec<PlannedAppender>,
    /// The appenders of the configuration that was put in force last.
    in_force: Vec<InForce<B>>,
    /// The appenders that left with unfinished work, and whose files no other appender has.
    left: Vec<Leaver<B>>,
    /// The names of those that it lacks since their files could not be opened.
    refused: Vec<String>,
    /// The moment at which its text was read.
    moment: Timestamp,
    /// The refresh rate of the current text, in milliseconds.
    rate: Option<u64>,
    /// The error that was printed last.
    told: Option<String>,
}

impl<X, S, M: StoreMaker, P: Parts<M>, R> RereadingBy<X, S, M, P, R> {
    ghost use Rattle.std.specs.Prelude.{◌≡◌};
    ghost use Rattle.log4rs_build.specs.Rereading.{rate_of, reader_of};
    ghost use Rattle.log4rs_settings.specs.Reload.{state_of};

    /// Reads a file again with the reloader of its first reading, whose appenders are planned so;
    /// the files of those of these names could not be opened.
    pub fn new(
        rt: X,
        file: ConfigFile<S, M, DeserializersWith<P, R>>,
        reloader: Reloader,
        planned: Vec<PlannedAppender>,
        refused: Vec<String>,
    ) -> RereadingBy<X, S, M, P, R>
        ensures rate { rate_of result ≡ (state_of reloader).rate }
        ensures reader { reader_of result ≡ state_of reloader }
    {
        let alloc = file.deserializers.alloc;
        let rate = reloader.rate();
        let moment = moment_of(&file.surroundings);
        Rereading {
            rt,
            file,
            reloader,
            planned,
            in_force: Vec::new(alloc),
            left: Vec::new(alloc),
            refused,
            moment,
            rate,
            told: None,
        }
    }
}

impl<X, S, M, P, R> RereadingBy<X, S, M, P, R>
where
    X: Eprint,
    S: ConfigSource,
    M: StoreMaker,
    P: Parts<M>,
{
    ghost use Rattle.std.specs.Prelude.{◌≡◌};
    ghost use Rattle.log4rs_build.specs.Rereading.{reader_of};

    /// Returns the error of the last reading, with the path of the file and the cause.
    fn refusal(&self, error: ReloadError) -> Result<String, AllocError> {
        let (alloc, path) = (self.file.deserializers.alloc, self.file.path.as_str());
        match (error, self.file.source.last_fault()) {
            (ReloadError::Parse, _) => {
                match RawConfig::from_text(alloc, self.reloader.format(), self.reloader.text()) {
                    Ok(_) => format!(in alloc; "{path}: {error}"),
                    Err(fault) => format!(in alloc; "{path}: {fault}"),
                }
            }
            (ReloadError::Modified | ReloadError::Read, Some(fault)) => {
                format!(in alloc; "{path}: {fault}")
            }
            _ => format!(in alloc; "{path}: {error}"),
        }
    }

    /// Prints the error of the last reading, unless it is the one printed before.
    fn tell(&mut self, error: ReloadError)
        ensures { reader_of self.new ≡ reader_of self.old }
    {
        let Ok(refusal) = self.refusal(error) else {
            return print_fault(&self.rt, &OutOfMemory);
        };
        if let Some(told) = &self.told {
            if told.as_str() == refusal.as_str() {
                return;
            }
        }
        print_fault(&self.rt, &refusal);
        self.told = Some(refusal);
    }

    /// Prints that a changed text was put in force.
    fn tell_read_again(&self) {
        let (path, said) = (self.file.path.as_str(), "read again");
        print_fault(&self.rt, &OfFile { path, said });
    }

    /// Prints the warnings about a configuration that was put in force.
    fn warn(&self, has_lost_all: bool, warnings: &[String]) {
        let path = self.file.path.as_str();
        warn(&self.rt, path, has_lost_all, warnings);
        if self.rate.is_none() {
            let said = "there is no refresh_rate, so it is not read again";
            print_fault(&self.rt, &OfFile { path, said });
        }
    }

    /// Returns the warnings about archives on another device than their file, for these appenders
    /// as far as they are not in force yet.
    fn far_archives(&self, appenders: &[InForce<P::Appender>]) -> Result<Vec<String>, OutOfMemory> {
        let alloc = self.file.deserializers.alloc;
        let source = &self.file.source;
        let env = &self.file.surroundings.env;
        let devices = Devices { alloc, source, env };
        let mut lines = Vec::new(alloc);
        for appender in appenders {
            let (name, plan) = (appender.name.as_str(), &appender.plan);
            if kept(&self.in_force, name, plan).is_none() {
                devices.add_line(&mut lines, name, plan)?;
            }
        }
        Ok(lines)
    }

    /// Hands over a changed configuration, and prints the faults and warnings about it. If it is
    /// refused, resumes what was retired for it.
    fn put_in_force<H: HoldsConfig<P::Appender, P::Filter, AppenderErrors>>(
        &mut self,
        found: ReloadOf<RebuiltBy<P, M>, AppenderErrors, ConfigErrors>,
        holder: &mut H,
    )
        ensures { Ends (H.history holder.old) (H.history holder.new) (answer_of (Ok found)) }
    {
        self.told = None;
        let ReloadOf::Swap {
            config: rebuilt,
            mut appender_errors,
            mut config_errors,
            rate,
        } = found
        else {
            return;
        };
        let Rebuilt {
            config,
            in_force,
            leaving,
            warnings,
        } = rebuilt;
        let has_lost_all = has_lost_all(&config, &appender_errors);
        self.note_refused(&appender_errors);
        tell_faults(&self.rt, &mut appender_errors, &mut config_errors);
        if let Err(fault) = holder.replace(config, appender_errors, config_errors) {
            self.refused.clear();
            resume_all(&self.rt, &leaving, holder);
            return print_fault(&self.rt, &fault);
        }
        let far = self.note_in_force(in_force, leaving);
        self.moment = moment_of(&self.file.surroundings);
        self.rate = rate;
        self.tell_read_again();
        self.warn(has_lost_all, &warnings);
        self.tell_far(far);
    }

    /// Notes which appenders a new configuration lacks since their files could not be opened.
    fn note_refused(&mut self, errors: &AppenderErrors) {
        match errors.refused() {
            Ok(names) => self.refused = names,
            Err(fault) => {
                self.refused.clear();
                print_fault(&self.rt, &fault);
            }
        }
    }

    /// Notes which appenders are in force, and which left. Returns the warnings about the archives
    /// of those that were not in force before.
    fn note_in_force(
        &mut self,
        in_force: Vec<InForce<P::Appender>>,
        leaving: Vec<Leaver<P::Appender>>,
    ) -> Result<Vec<String>, OutOfMemory>
        ensures { reader_of self.new ≡ reader_of self.old }
    {
        let far = self.far_archives(&in_force);
        self.leave(leaving, &in_force);
        self.in_force = in_force;
        far
    }

    /// Prints warnings about archives.
    fn tell_far(&self, far: Result<Vec<String>, OutOfMemory>) {
        match far {
            Ok(lines) => warn(&self.rt, self.file.path.as_str(), false, &lines),
            Err(fault) => print_fault(&self.rt, &fault),
        }
    }

    /// Hands over a configuration of the same text, whose faults are told, and prints which
    /// appenders work again.
    fn put_again<H: HoldsConfig<P::Appender, P::Filter, AppenderErrors>>(
        &mut self,
        built: Built<KeptBy<P, M>>,
        in_force: Vec<InForce<P::Appender>>,
        holder: &mut H,
    )
        ensures ends { (end : List (HolderEvent P.Appender)) × EndsBy [] end
            × Happened (H.history holder.old) (H.history holder.new) end }
        ensures reader { reader_of self.new ≡ reader_of self.old }
    {
        let alloc = self.file.deserializers.alloc;
        let LoadedText {
            config,
            appender_errors,
            mut config_errors,
            ..
        } = built;
        config_errors.handle(&Unheard);
        let none = AppenderErrors::new(alloc, None);
        if let Err(fault) = holder.replace(config, none, config_errors) {
            return print_fault(&self.rt, &fault);
        }
        let far = self.note_in_force(in_force, Vec::new(alloc));
        self.tell_working(&appender_errors);
        self.refused
            .retain(|name| appender_errors.leave_out_named(name.as_str()));
        self.tell_far(far);
    }

    /// Prints which of the appenders whose files could not be opened are left out no longer.
    fn tell_working(&self, errors: &AppenderErrors) {
        let path = self.file.path.as_str();
        for name in &self.refused {
            if !errors.leave_out_named(name.as_str()) {
                let name = name.as_str();
                print_fault(&self.rt, &WorksAgain { path, name });
            }
        }
    }

    /// Notes that appenders left, and that others are in force. Reports what failed, and drops it
    /// if one in force has its files.
    fn leave(&mut self, leaving: Vec<Leaver<P::Appender>>, in_force: &[InForce<P::Appender>])
        ensures { reader_of self.new ≡ reader_of self.old }
    {
        for leaver in leaving {
            if leaver.is_unfinished(&self.rt) {
                if self.left.push(leaver).is_err() {
                    print_fault(&self.rt, &OutOfMemory);
                }
            }
        }
        let around = &self.file.surroundings;
        self.left
            .retain(|leaver| !leaver.is_taken_over(around, in_force));
    }
}

impl<X, S, M, P, R> RereadingBy<X, S, M, P, R>
where
    X: Eprint,
    S: ConfigSource,
    M: StoreMaker,
    P: Parts<M> + Drop,
    R: Refill<P>,
{
    ghost use Rattle.std.specs.Prelude.{◌≡◌};
    ghost use Rattle.log4rs_build.specs.Rereading.{reader_of};

    /// Builds the configuration of the same text again if it lacks appenders whose files could not
    /// be opened, as at the moment at which the text was read, and hands it over if one of them
    /// works now. All others stay in force.
    fn retry<H: HoldsConfig<P::Appender, P::Filter, AppenderErrors>>(&mut self, holder: &mut H)
        ensures tries { TriesAgain (H.history holder.old) (H.history holder.new) }
        ensures reader { reader_of self.new ≡ reader_of self.old }
    {
        if self.refused.is_empty() {
            return;
        }
        self.file.surroundings.moment = self.moment;
        let (in_force, refused) = (&self.in_force, &self.refused);
        match self
            .file
            .build_again(&self.reloader, in_force, refused, holder)
        {
            Ok(Some((built, in_force))) => self.put_again(built, in_force, holder),
            Ok(None) | Err(LoadError::Refused) => (),
            Err(LoadError::Memory) => self.tell(ReloadError::Memory),
        }
    }
}

/// Told of an appender whose file is open now.
#[derive(Drop)]
struct WorksAgain<'a> {
    /// The path of the configuration.
    path: &'a str,
    name: &'a str,
}

impl Display for WorksAgain<'_> {
    fn fmt<W: fmt::Write>(&self, f: &mut Formatter<W>) -> fmt::Result {
        write!(f, "{}: appender {} works again", self.path, self.name)
    }
}

impl<X, S, M, P, R> Rereads<P::Appender, P::Filter>
    for Rereading<X, S, M, DeserializersWith<P, R>, P::Appender>
where
    X: Eprint + Clock,
    S: ConfigSource,
    M: StoreMaker,
    P: Parts<M> + Drop,
    R: Refill<P>,
{
    ghost use Rattle.std.specs.Prelude.{map};
    ghost use Rattle.log4rs_build.specs.Retiring.{leaving_appender};

    ghost left = { λ r. map leaving_appender r.left.items };

    ghost stores = { λ r. M.stores r.file.maker };

    type Faults = AppenderErrors;

    fn begin<H: SharesAppenders<P::Appender>>(
        &mut self,
        holder: &mut H,
    ) -> Result<(), OutOfMemory> {
        let alloc = self.file.deserializers.alloc;
        self.in_force = in_force_of(alloc, &self.planned, &holder.shared_appenders()?)?;
        Ok(())
    }

    fn rate(&self) -> Option<u64> {
        self.rate
    }

    fn reread<H: HoldsConfig<P::Appender, P::Filter, AppenderErrors>>(&mut self, holder: &mut H) {
        retry_all(&mut self.left, holder, &self.file.maker);
        let (reloader, in_force) = (&mut self.reloader, &self.in_force);
        match self.file.reread(&self.rt, reloader, in_force, holder) {
            Ok(ReloadOf::Same) => {
                self.told = None;
                self.retry(holder);
            }
            Ok(found) => self.put_in_force(found, holder),
            Err(error) => self.tell(error),
        }
    }

    fn end<H: SharesAppenders<P::Appender>>(&mut self, holder: &mut H) {
        end_all(&self.rt, &self.left, holder, &self.file.maker);
    }
}

/// The configuration of what a `P` builds over stores that an `M` makes, with each appender behind
/// a lock.
pub type KeptBy<P, M> = ConfigOf<
    Locked<<P as BuildAppender<M>>::Appender>,
    <P as BuildAppender<M>>::Filter,
>;

/// A configuration that was built beside the one in force, which it is to replace.
#[derive(Drop)]
pub struct Rebuilt<C, B> {
    /// The configuration.
    pub config: C,
    /// Its appenders, with their plans.
    pub(crate) in_force: Vec<InForce<B>>,
    /// The appenders that were retired, since it has them no longer.
    pub(crate) leaving: Vec<Leaver<B>>,
    /// The warnings about it, one line each.
    pub(crate) warnings: Vec<String>,
}

/// Such a configuration of what a `P` builds over stores that an `M` makes.
pub type RebuiltBy<P, M> = Rebuilt<KeptBy<P, M>, <P as BuildAppender<M>>::Appender>;

impl<S, M, P, R> ConfigFile<S, M, DeserializersWith<P, R>>
where
    M: StoreMaker,
    P: Parts<M> + Drop,
    R: Refill<P>,
{
    /// Builds what plans ask for, and keeps what is in force still. Returns the configuration with
    /// its appenders and their plans.
    pub(crate) fn build_beside(
        &mut self,
        plans: Plans,
        planned: &[PlannedAppender],
        still: Vec<InForce<P::Appender>>,
    ) -> Result<(Built<KeptBy<P, M>>, Vec<InForce<P::Appender>>), OutOfMemory>
        ensures loaded { IfOk result (λ made. IsLoadedBeside
            (P.Builds (M.starts self.old.maker) self.old.surroundings) P.BuildsFilters
            self.old.surroundings (plans_view plans) (plans_view plans).appenders still.items
            made.0.config made.0.appender_errors made.0.config_errors
            (handed_of self.old.deserializers) (handed_of self.new.deserializers)) }
        ensures rate { IfOk result (λ made. made.0.rate ≡ (plans_view plans).rate) }
        ensures makers { KeepsMakers self.old.deserializers self.new.deserializers }
        ensures starts { M.starts self.new.maker ≡ M.starts self.old.maker }
        ensures rest { self.new ≡ record self.old {
          deserializers = self.new.deserializers;
          maker = self.new.maker;
        } }
    {
        let alloc = self.deserializers.alloc;
        let path = self.path.clone()?;
        let mut builder = Keeping {
            parts: self.deserializers.parts.take(),
            in_force: still,
        };
        let built = build(
            alloc,
            Some(path),
            plans,
            &mut builder,
            &mut self.maker,
            &self.surroundings,
        );
        self.deserializers.parts = builder.parts;
        let built = built?;
        let in_force = in_force_of(alloc, planned, &built.config.shared_appenders(alloc)?)?;
        Ok((built, in_force))
    }

    /// Loads the configuration of a text beside the one in force, with components that are made anew
    /// where there are makers of them. Retires what is not kept before anything is built; if an
    /// allocation fails, resumes all that was retired.
    fn load_beside<X: Eprint, H: SharesAppenders<P::Appender>>(
        &mut self,
        rt: &X,
        format: Format,
        text: &str,
        in_force: &[InForce<P::Appender>],
        holder: &mut H,
    ) -> Result<Built<RebuiltBy<P, M>>, LoadError>
        ensures ok { IfOk result (λ built. GivesBeside
            (P.Builds (M.starts self.old.maker) self.old.surroundings) P.BuildsFilters
            self.old.surroundings R.Refills P.waiting_for (M.stores self.old.maker) in_force.now
            (H.history holder.old) (H.history holder.new) self.old.deserializers
            self.new.deserializers
            (settings_in format text.now) (Some built)) }
        ensures err { IfErr result (λ error. error ≡ LoadError.Refused → GivesBeside
            (P.Builds (M.starts self.old.maker) self.old.surroundings) P.BuildsFilters
            self.old.surroundings R.Refills P.waiting_for (M.stores self.old.maker) in_force.now
            (H.history holder.old) (H.history holder.new) self.old.deserializers
            self.new.deserializers
            (settings_in format text.now) None) }
        ensures retired { IfOk result (λ built. OnlyRetires (M.stores self.old.maker)
            (H.history holder.old) (H.history holder.new) (leaving_in built.config)) }
        ensures undone { IfErr result (LeavesHolder (M.stores self.old.maker)
            (H.history holder.old) (H.history holder.new)) }
        ensures makers { KeepsMakers self.old.deserializers self.new.deserializers }
        ensures starts { M.starts self.new.maker ≡ M.starts self.old.maker }
        ensures rest { self.new ≡ record self.old {
          deserializers = self.new.deserializers;
          maker = self.new.maker;
        } }
    {
        let alloc = self.deserializers.alloc;
        let asked = RawConfig::from_text(alloc, format, text)?;
        self.deserializers.refill()?;
        let path = self.path.as_str();
        let prepared = asked.prepared(path, &self.deserializers, &self.surroundings)?;
        let retired = retire(alloc, &prepared.planned, in_force, holder, &self.maker)?;
        let Prepared {
            plans,
            planned,
            warnings,
        } = prepared;
        let Retired { still, leaving } = retired;
        match self.build_beside(plans, &planned, still) {
            Ok(made) => {
                let (built, in_force) = made;
                Ok(LoadedText {
                    config: Rebuilt {
                        config: built.config,
                        in_force,
                        leaving,
                        warnings,
                    },
                    appender_errors: built.appender_errors,
                    config_errors: built.config_errors,
                    rate: built.rate,
                })
            }
            Err(OutOfMemory) => {
                resume_all(rt, &leaving, holder);
                Err(LoadError::Memory)
            }
        }
    }
}

impl<S, M, P, R> ConfigFile<S, M, DeserializersWith<P, R>>
where
    S: ConfigSource,
    M: StoreMaker,
    P: Parts<M> + Drop,
    R: Refill<P>,
{
    /// Builds the configuration again if its text may have changed, as `Reloader::run_once` does,
    /// at the moment of the clock; if the clock cannot be read, at that of the last reading.
    ///
    /// Keeps the appenders in force that the new text asks for again: those with the same name and
    /// the same effective plan that the holder has not retired. They are neither built nor opened
    /// again. Of the appenders that the holder has, retires those that are not kept, but for
    /// consoles, before it makes a store. After an error, all that were retired have been resumed;
    /// faults of that are printed to standard error.
    pub fn reread<X: Clock + Eprint, H: SharesAppenders<P::Appender>>(
        &mut self,
        rt: &X,
        reloader: &mut Reloader,
        in_force: &[InForce<P::Appender>],
        holder: &mut H,
    ) -> Result<ReloadOf<RebuiltBy<P, M>, AppenderErrors, ConfigErrors>, ReloadError>
        ensures step { Reloads (λ text given before after. GivesBeside
            (P.Builds (M.starts self.old.maker) self.new.surroundings) P.BuildsFilters
            self.new.surroundings R.Refills P.waiting_for (M.stores self.old.maker) in_force.now
            (H.history holder.old) (H.history holder.new) before after
            (settings_in (state_of reloader.old).format text) given)
            (S.answers self.old.source) (S.answers self.new.source) (state_of reloader.old)
            self.old.deserializers (answer_of result) (state_of reloader.new)
            self.new.deserializers }
        ensures undone { LeavesOrSwaps (M.stores self.old.maker) (H.history holder.old)
            (H.history holder.new) (answer_of result) }
        ensures rate { OnErr result ((state_of reloader.new).rate ≡ (state_of reloader.old).rate) }
        ensures makers { KeepsMakers self.old.deserializers self.new.deserializers }
        ensures starts { M.starts self.new.maker ≡ M.starts self.old.maker }
        ensures moment { self.new.surroundings
            ≡ record self.old.surroundings { moment = self.new.surroundings.moment } }
    {
        set_moment(&mut self.surroundings, rt);
        match reloader.look(&mut self.source)? {
            None => Ok(ReloadOf::Same),
            Some(changed) => {
                let text = changed.text.as_str();
                let loaded = self.load_beside(rt, reloader.format(), text, in_force, holder);
                reloader.settle(changed, loaded)
            }
        }
    }
}

/// Returns the moment of surroundings.
fn moment_of(surroundings: &Surroundings<'_>) -> Timestamp
    ensures { result ≡ surroundings.now.moment }
{
    surroundings.moment
}

/// Reads the moment from a clock. If that fails, the moment stays.
fn set_moment<X: Clock>(surroundings: &mut Surroundings<'_>, clock: &X)
    ensures { surroundings.new
        ≡ record surroundings.old { moment = surroundings.new.moment } }
{
    if let Ok(moment) = Timestamp::now(clock) {
        surroundings.moment = moment;
    }
}
