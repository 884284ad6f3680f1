//! A component's kind, and the rest of its settings.
ghost use Rattle.std.specs.Prelude.{option_map};
ghost use Rattle.log4rs_settings.specs.View.{view, items_view, members_view};
ghost use Rattle.log4rs_settings.specs.Reading.{IsReadAs, IsPartRead, bytes_now, without_place};
ghost use Rattle.log4rs_settings.specs.Part.{each_item};
ghost use Rattle.log4rs_settings.specs.Component.{component_view, read_component, component_at, read_filter, read_appender, read_encoder, filter_view, filters_view, appender_view, encoder_view};

use crate::Tree;
use crate::fields::{self, Name, Object};
use crate::part::{PartError, Read, TreeError};
use std::alloc::Global;

/// The kind of a component of some class, and its other settings.
#[derive(Drop)]
pub struct Component {
    /// The kind.
    pub kind: String,
    /// The other settings.
    pub config: Tree,
}

impl Component {
    /// Reads a component of a class, whose kind may have a default. Fails if it has none and is
    /// missing.
    pub fn read(alloc: Global, tree: Tree, class: Name, default: Option<&str>) -> Read<Component>
        ensures { IsPartRead component_view
            (read_component (option_map bytes_now default.entry) class.now (view tree)) result }
    {
        let mut object = fields::object_of(alloc, tree, class)?;
        let kind = fields::take_kind(alloc, &mut object, default)?;
        Ok(Component {
            kind,
            config: Tree::Map(object),
        })
    }

    /// Reads the component at a field of an object in the same way. Fails if the field is missing.
    #[tactic(auto, using(crate::proofs::Below::read_within))]
    pub fn at(alloc: Global, object: &Object, name: Name, default: Option<&str>) -> Read<Component>
        ensures { IsPartRead component_view
            (component_at (option_map bytes_now default.entry) name.now
            (members_view object.now.entries)) result }
    {
        let tree = fields::required(alloc, object, name)?.clone()?;
        fields::within(alloc, name, Component::read(alloc, tree, name, default))
    }
}

/// A filter's kind, and its other settings.
#[derive(Clone, Debug, Drop)]
pub struct FilterConfig {
    /// The kind.
    pub kind: String,
    /// The other settings.
    pub config: Tree,
}

/// An appender's kind, its filters, and its other settings.
#[derive(Clone, Debug, Drop)]
pub struct AppenderConfig {
    /// The kind.
    pub kind: String,
    /// The filters, in order.
    pub filters: Vec<FilterConfig>,
    /// The other settings.
    pub config: Tree,
}

/// An encoder's kind, and its other settings.
#[derive(Clone, Debug, Drop)]
pub struct EncoderConfig {
    /// The kind.
    pub kind: String,
    /// The other settings.
    pub config: Tree,
}

impl FilterConfig {
    /// Reads a filter. Fails if its kind is missing.
    pub fn read(alloc: Global, tree: Tree) -> Result<FilterConfig, TreeError>
        ensures { IsReadAs filter_view (without_place (read_filter (view tree))) result }
    {
        Ok(FilterConfig::read_placed(alloc, tree)?)
    }

    /// Reads a filter in the same way. A fault has its place.
    pub fn read_placed(alloc: Global, tree: Tree) -> Read<FilterConfig>
        ensures { IsPartRead filter_view (read_filter (view tree)) result }
    {
        let Component { kind, config } = Component::read(alloc, tree, "filter", None)?;
        Ok(FilterConfig { kind, config })
    }
}

impl EncoderConfig {
    /// Reads an encoder. Its kind is `pattern` if it is absent or null.
    pub fn read(alloc: Global, tree: Tree) -> Result<EncoderConfig, TreeError>
        ensures { IsReadAs encoder_view (without_place (read_encoder (view tree))) result }
    {
        let Component { kind, config } = Component::read(alloc, tree, "encoder", Some("pattern"))?;
        Ok(EncoderConfig { kind, config })
    }
}

impl AppenderConfig {
    /// Reads an appender. Fails if its kind is missing. It has no filters if they are absent or
    /// null. A fault of the kind comes before one of the filters.
    pub fn read(alloc: Global, tree: Tree) -> Result<AppenderConfig, TreeError>
        ensures { IsReadAs appender_view (without_place (read_appender (view tree))) result }
    {
        Ok(AppenderConfig::read_placed(alloc, tree)?)
    }

    /// Reads an appender in the same way. A fault has its place.
    #[tactic(auto, using(crate::proofs::Below::read_within))]
    pub fn read_placed(alloc: Global, tree: Tree) -> Read<AppenderConfig>
        ensures { IsPartRead appender_view (read_appender (view tree)) result }
    {
        let mut object = fields::object_of(alloc, tree, "appender")?;
        let kind = fields::take_kind(alloc, &mut object, None)?;
        let trees = fields::list_of(alloc, "filters", fields::take(&mut object, "filters"))?;
        let filters = fields::within(alloc, "filters", read_each(alloc, trees))?;
        Ok(AppenderConfig {
            kind,
            filters,
            config: Tree::Map(object),
        })
    }
}

/// Reads the filters in order. Fails with the fault of the first bad one.
fn read_each(alloc: Global, trees: Vec<Tree>) -> Read<Vec<FilterConfig>>
    ensures { IsPartRead filters_view (each_item read_filter 0 (items_view trees.items)) result }
{
    let mut filters = Vec::new(alloc);
    for tree in trees {
        let filter = FilterConfig::read_placed(alloc, tree);
        let filter = fields::at_item(alloc, filters.len(), filter)?;
        filters.push(filter)?;
    }
    Ok(filters)
}
