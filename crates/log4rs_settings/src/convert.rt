//! Trees from JSON and TOML.
ghost use Rattle.std.specs.Prelude.{◌≡◌, ◌≢◌, IfOk, IfErr, Ok, Err};
ghost use Rattle.log4rs_settings.specs.View.{view, items_view, members_view};
ghost use Rattle.log4rs_settings.specs.FromJson.{of_json, of_json_items, of_json_members};
ghost use Rattle.log4rs_settings.specs.FromToml.{of_toml, of_toml_items, of_toml_members};
ghost use Rattle.log4rs_settings.specs.Placeless.{placeless};
ghost use Rattle.serde_json.specs.View.{view as json_view, items_view as json_items_view, members_view as json_members_view};
ghost use Rattle.toml.specs.View.{view as toml_view, items_view as toml_items_view, members_view as toml_members_view};

use crate::text::TextError;
use crate::tree::Tree;
use serde_json::Value as JsonValue;
use std::alloc::Global;
use std::collections::BTreeMap;
use toml::Value as TomlValue;

/// Returns the tree of a value of JSON. Fails with the first floating-point number in the order of
/// the walk.
#[cycle(json)]
pub(crate) fn json_tree(alloc: Global, value: &JsonValue) -> Result<Tree, TextError>
    ensures ok { IfOk result (λ t. of_json (json_view value.now) ≡ Ok (view t)) }
    ensures err { IfErr result
        (λ e. e ≢ TextError.Memory → of_json (json_view value.now) ≡ Err (placeless e)) }
{
    match value {
        JsonValue::Null => Ok(Tree::Null),
        JsonValue::Bool(b) => Ok(Tree::Bool(*b)),
        JsonValue::Number(n) => match n.as_i128() {
            Some(n) => Ok(Tree::Number(n)),
            None => Err(TextError::FloatRefused),
        },
        JsonValue::String(text) => Ok(Tree::Text(text.clone()?)),
        JsonValue::Array(items) => Ok(Tree::List(json_list(alloc, items)?)),
        JsonValue::Object(members) => Ok(Tree::Map(json_map(alloc, members)?)),
    }
}

#[cycle(json)]
fn json_list(alloc: Global, items: &Vec<JsonValue>) -> Result<Vec<Tree>, TextError>
    ensures ok { IfOk result
        (λ v. of_json_items (json_items_view items.now.items) ≡ Ok (items_view v.items)) }
    ensures err { IfErr result
        (λ e. e ≢ TextError.Memory →
        of_json_items (json_items_view items.now.items) ≡ Err (placeless e)) }
{
    let mut trees = Vec::with_capacity(alloc, items.len())?;
    for item in items {
        trees.push(json_tree(alloc, item)?)?;
    }
    Ok(trees)
}

#[cycle(json)]
fn json_map(
    alloc: Global,
    members: &BTreeMap<String, JsonValue>,
) -> Result<BTreeMap<String, Tree>, TextError>
    ensures ok { IfOk result
        (λ m. of_json_members (json_members_view members.now.entries)
        ≡ Ok (members_view m.entries)) }
    ensures err { IfErr result
        (λ e. e ≢ TextError.Memory →
        of_json_members (json_members_view members.now.entries) ≡ Err (placeless e)) }
{
    let mut trees = BTreeMap::new(alloc);
    for (key, member) in members.iter() {
        let tree = json_tree(alloc, member)?;
        drop(trees.insert(key.clone()?, tree)?);
    }
    Ok(trees)
}

/// Returns the tree of a value of TOML. Fails with the first floating-point number or date-time in the
/// order of the walk.
#[cycle(toml)]
pub(crate) fn toml_tree(alloc: Global, value: &TomlValue) -> Result<Tree, TextError>
    ensures ok { IfOk result (λ t. of_toml (toml_view value.now) ≡ Ok (view t)) }
    ensures err { IfErr result
        (λ e. e ≢ TextError.Memory → of_toml (toml_view value.now) ≡ Err (placeless e)) }
{
    match value {
        TomlValue::String(text) => Ok(Tree::Text(text.clone()?)),
        TomlValue::Integer(n) => Ok(Tree::Number(i128::from(*n))),
        TomlValue::Float(_) => Err(TextError::FloatRefused),
        TomlValue::Boolean(b) => Ok(Tree::Bool(*b)),
        TomlValue::Datetime(_) => Err(TextError::DateTimeRefused),
        TomlValue::Array(items) => Ok(Tree::List(toml_list(alloc, items)?)),
        TomlValue::Table(members) => Ok(Tree::Map(toml_map(alloc, members)?)),
    }
}

#[cycle(toml)]
fn toml_list(alloc: Global, items: &Vec<TomlValue>) -> Result<Vec<Tree>, TextError>
    ensures ok { IfOk result
        (λ v. of_toml_items (toml_items_view items.now.items) ≡ Ok (items_view v.items)) }
    ensures err { IfErr result
        (λ e. e ≢ TextError.Memory →
        of_toml_items (toml_items_view items.now.items) ≡ Err (placeless e)) }
{
    let mut trees = Vec::with_capacity(alloc, items.len())?;
    for item in items {
        trees.push(toml_tree(alloc, item)?)?;
    }
    Ok(trees)
}

#[cycle(toml)]
pub(crate) fn toml_map(
    alloc: Global,
    members: &BTreeMap<String, TomlValue>,
) -> Result<BTreeMap<String, Tree>, TextError>
    ensures ok { IfOk result
        (λ m. of_toml_members (toml_members_view members.now.entries)
        ≡ Ok (members_view m.entries)) }
    ensures err { IfErr result
        (λ e. e ≢ TextError.Memory →
        of_toml_members (toml_members_view members.now.entries) ≡ Err (placeless e)) }
{
    let mut trees = BTreeMap::new(alloc);
    for (key, member) in members.iter() {
        let tree = toml_tree(alloc, member)?;
        drop(trees.insert(key.clone()?, tree)?);
    }
    Ok(trees)
}
