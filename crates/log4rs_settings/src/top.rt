//! The top part of a configuration: its root, its appenders and its loggers.
ghost use Rattle.std.specs.Prelude.{option_map, string_bytes};
ghost use Rattle.log4rs_settings.specs.View.{view, items_view, members_view};
ghost use Rattle.log4rs_settings.specs.Component.{read_appender};
ghost use Rattle.log4rs_settings.specs.Loggers.{read_name, names_found, names_view, read_root, root_found, root_view, read_logger, logger_view, loggers_view};
ghost use Rattle.log4rs_settings.specs.Part.{each_item};
ghost use Rattle.log4rs_settings.specs.Reading.{IsPartRead};
ghost use Rattle.log4rs_settings.specs.Top.{each_member, named_view, appenders_found, loggers_found, read_top, top_view};

use crate::component::AppenderConfig;
use crate::fields::{self, Object};
use crate::part::{PartError, Read};
use crate::{Tree, values};
use log::LevelFilter;
use std::alloc::Global;

/// The root's level, and the names of its appenders.
#[derive(Clone, Debug, Drop)]
pub struct RootConfig {
    /// The level.
    pub level: LevelFilter,
    /// The names of the appenders.
    pub appenders: Vec<String>,
}

/// A logger's level, the names of its appenders, and whether it also uses those of its parent.
#[derive(Clone, Debug, Drop)]
pub struct LoggerConfig {
    /// The level.
    pub level: LevelFilter,
    /// The names of the appenders.
    pub appenders: Vec<String>,
    /// Whether it also uses the appenders of its parent.
    pub additive: bool,
}

/// A logger's name and its settings.
#[derive(Clone, Debug, Drop)]
pub struct NamedLogger {
    /// The name, such as `app::x`.
    pub name: String,
    /// The settings.
    pub config: LoggerConfig,
}

impl RootConfig {
    /// Reads the root. Its level is `Debug` if it is absent or null.
    pub fn read(alloc: Global, tree: Tree) -> Read<RootConfig>
        ensures { IsPartRead root_view (read_root (view tree)) result }
    {
        let mut object = fields::object_of(alloc, tree, "root")?;
        fields::only(alloc, &object, &["level", "appenders"])?;
        let level = fields::optional(alloc, &object, "level", LevelFilter::Debug)?;
        let appenders = names_found(alloc, fields::take(&mut object, "appenders"))?;
        Ok(RootConfig { level, appenders })
    }
}

impl LoggerConfig {
    /// Reads a logger. Fails if its level is missing. It is additive if `additive` is absent or
    /// null.
    #[tactic(auto, using(crate::proofs::Others::additive_stays))]
    pub fn read(alloc: Global, tree: Tree) -> Read<LoggerConfig>
        ensures { IsPartRead logger_view (read_logger (view tree)) result }
    {
        let mut object = fields::object_of(alloc, tree, "logger")?;
        fields::only(alloc, &object, &["level", "appenders", "additive"])?;
        let level = fields::required_value(alloc, &object, "level")?;
        let appenders = names_found(alloc, fields::take(&mut object, "appenders"))?;
        let additive = fields::optional(alloc, &object, "additive", true)?;
        Ok(LoggerConfig {
            level,
            appenders,
            additive,
        })
    }
}

/// Reads the loggers in the order of their names. Fails with the first fault.
fn read_loggers(alloc: Global, object: Object) -> Read<Vec<NamedLogger>>
    ensures { IsPartRead loggers_view
        (each_member read_logger (members_view object.entries)) result }
{
    let mut loggers = Vec::new(alloc);
    for (name, tree) in object {
        let config = fields::within(alloc, name.as_str(), LoggerConfig::read(alloc, tree))?;
        loggers.push(NamedLogger { name, config })?;
    }
    Ok(loggers)
}

/// Returns the names of appenders that were found: none if they are absent or null.
#[tactic(auto, using(crate::proofs::Below::read_within))]
fn names_found(alloc: Global, found: Option<Tree>) -> Read<Vec<String>>
    ensures { IsPartRead names_view (names_found (option_map view found)) result }
{
    let trees = fields::list_of(alloc, "appenders", found)?;
    fields::within(alloc, "appenders", names_in(alloc, trees))
}

/// Reads the names of appenders in a list.
fn names_in(alloc: Global, trees: Vec<Tree>) -> Read<Vec<String>>
    ensures { IsPartRead names_view (each_item read_name 0 (items_view trees.items)) result }
{
    let mut names = Vec::new(alloc);
    for tree in trees {
        let name = fields::at_item(alloc, names.len(), name_of(alloc, tree))?;
        names.push(name)?;
    }
    Ok(names)
}

/// Reads the name of an appender. Fails if it is no text.
fn name_of(alloc: Global, tree: Tree) -> Read<String>
    ensures { IsPartRead string_bytes (read_name (view tree)) result }
{
    match tree {
        Tree::Text(name) => Ok(name),
        other => Err(PartError::Fault(fields::bad(alloc, "appenders", other))),
    }
}

/// An appender's name and its settings.
#[derive(Clone, Debug, Drop)]
pub struct NamedAppender {
    /// The name.
    pub name: String,
    /// The settings.
    pub config: AppenderConfig,
}

/// A configuration: its refresh rate in milliseconds, if given, the root, and the appenders and
/// loggers in the order of their names.
#[derive(Clone, Debug, Drop)]
pub struct TopConfig {
    /// The refresh rate in milliseconds, if given.
    pub refresh_rate: Option<u64>,
    /// The root.
    pub root: RootConfig,
    /// The appenders in the order of their names.
    pub appenders: Vec<NamedAppender>,
    /// The loggers in the order of their names.
    pub loggers: Vec<NamedLogger>,
}

impl TopConfig {
    /// Reads a configuration. Checks its parts in the order of its fields.
    #[tactic(auto, using(crate::proofs::Others::appenders_stay, crate::proofs::Others::loggers_stay, crate::proofs::Others::loggers_are_left,))]
    pub fn read(alloc: Global, tree: Tree) -> Read<TopConfig>
        ensures { IsPartRead top_view (read_top (view tree)) result }
    {
        let mut object = fields::object_of(alloc, tree, "configuration")?;
        let known = ["refresh_rate", "root", "appenders", "loggers"];
        fields::only(alloc, &object, &known)?;
        let refresh_rate = match fields::given(&object, "refresh_rate") {
            None => None,
            Some(tree) => fields::or_bad(alloc, "refresh_rate", tree, values::rate(tree))?,
        };
        let root = root_found(alloc, fields::take(&mut object, "root"))?;
        let appenders = appenders_found(alloc, fields::take(&mut object, "appenders"))?;
        let loggers = loggers_found(alloc, fields::take(&mut object, "loggers"))?;
        Ok(TopConfig {
            refresh_rate,
            root,
            appenders,
            loggers,
        })
    }
}

/// Reads the appenders in the order of their names. Fails with the first fault.
fn read_appenders(alloc: Global, object: Object) -> Read<Vec<NamedAppender>>
    ensures { IsPartRead named_view
        (each_member read_appender (members_view object.entries)) result }
{
    let mut appenders = Vec::new(alloc);
    for (name, tree) in object {
        let config = AppenderConfig::read_placed(alloc, tree);
        let config = fields::within(alloc, name.as_str(), config)?;
        appenders.push(NamedAppender { name, config })?;
    }
    Ok(appenders)
}

/// Returns the root that was found: `Debug` and no appenders if it is absent or null.
#[tactic(auto, using(crate::proofs::Below::read_within))]
fn root_found(alloc: Global, found: Option<Tree>) -> Read<RootConfig>
    ensures { IsPartRead root_view (root_found (option_map view found)) result }
{
    match found {
        None | Some(Tree::Null) => Ok(RootConfig {
            level: LevelFilter::Debug,
            appenders: Vec::new(alloc),
        }),
        Some(root) => fields::within(alloc, "root", RootConfig::read(alloc, root)),
    }
}

/// Returns the appenders that were found: none if they are absent or null.
#[tactic(auto, using(crate::proofs::Below::read_within))]
fn appenders_found(alloc: Global, found: Option<Tree>) -> Read<Vec<NamedAppender>>
    ensures { IsPartRead named_view (appenders_found (option_map view found)) result }
{
    match found {
        None | Some(Tree::Null) => Ok(Vec::new(alloc)),
        Some(Tree::Map(named)) => fields::within(alloc, "appenders", read_appenders(alloc, named)),
        Some(other) => Err(PartError::Fault(fields::bad_field(alloc, "appenders", other)?)),
    }
}

/// Returns the loggers that were found: none if they are absent or null.
#[tactic(auto, using(crate::proofs::Below::read_within))]
fn loggers_found(alloc: Global, found: Option<Tree>) -> Read<Vec<NamedLogger>>
    ensures { IsPartRead loggers_view (loggers_found (option_map view found)) result }
{
    match found {
        None | Some(Tree::Null) => Ok(Vec::new(alloc)),
        Some(Tree::Map(named)) => fields::within(alloc, "loggers", read_loggers(alloc, named)),
        Some(other) => Err(PartError::Fault(fields::bad_field(alloc, "loggers", other)?)),
    }
}
