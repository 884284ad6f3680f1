//! Trees as texts.

use log4rs_settings::Tree;
use std::alloc::{AllocError, Global};
use std::collections::BTreeMap;

/// Returns the text of a tree, with its texts in quotes and its members in the order of their keys.
pub(crate) fn shown(alloc: Global, tree: &Tree) -> Result<String, AllocError> {
    let mut text = String::new(alloc);
    show(&mut text, tree)?;
    Ok(text)
}

#[cycle(shown)]
fn show(text: &mut String, tree: &Tree) -> Result<(), AllocError> {
    match tree {
        Tree::Null => text.push_str("null"),
        Tree::Bool(value) => write!(text, "{value}"),
        Tree::Number(number) => write!(text, "{number}"),
        Tree::Text(inside) => write!(text, "\"{inside}\""),
        Tree::List(items) => show_list(text, items),
        Tree::Map(members) => show_map(text, members),
    }
}

#[cycle(shown)]
fn show_list(text: &mut String, items: &Vec<Tree>) -> Result<(), AllocError> {
    text.push('[')?;
    let mut several = false;
    for item in items {
        if several {
            text.push(' ')?;
        }
        several = true;
        show(text, item)?;
    }
    text.push(']')
}

#[cycle(shown)]
fn show_map(text: &mut String, members: &BTreeMap<String, Tree>) -> Result<(), AllocError> {
    text.push('{')?;
    let mut several = false;
    for (key, member) in members.iter() {
        if several {
            text.push(' ')?;
        }
        several = true;
        text.push_str(key)?;
        text.push('=')?;
        show(text, member)?;
    }
    text.push('}')
}
