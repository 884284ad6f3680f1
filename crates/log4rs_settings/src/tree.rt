//! Trees of configurations.
ghost use Rattle.std.specs.Prelude.{◌≡◌, IfOk};
ghost use Rattle.log4rs_settings.specs.View.{view, items_view, members_view};

use std::alloc::AllocError;
use std::collections::BTreeMap;
use std::default::Emptied;

/// A value that both JSON and TOML have: no floating-point number and no date-time. TOML has no
/// null.
#[derive(Debug, Drop)]
pub enum Tree {
    /// JSON's `null`.
    Null,
    /// A truth value.
    Bool(bool),
    /// An integer.
    Number(i128),
    /// A text.
    Text(String),
    /// A list.
    List(Vec<Tree>),
    /// An object or a table.
    Map(BTreeMap<String, Tree>),
}

// Written out because a derived `Clone` has no contract for a recursive type.
impl Clone for Tree {
    ghost is_clone = { λ v w. view w ≡ view v };

    fn clone(&self) -> Result<Tree, AllocError> {
        copy(self)
    }
}

#[cycle(copy)]
fn copy(tree: &Tree) -> Result<Tree, AllocError>
    ensures { IfOk result (λ t. view t ≡ view tree.now) }
{
    match tree {
        Tree::Null => Ok(Tree::Null),
        Tree::Bool(b) => Ok(Tree::Bool(*b)),
        Tree::Number(n) => Ok(Tree::Number(*n)),
        Tree::Text(text) => Ok(Tree::Text(text.clone()?)),
        Tree::List(items) => Ok(Tree::List(copy_items(items)?)),
        Tree::Map(members) => Ok(Tree::Map(copy_members(members)?)),
    }
}

#[cycle(copy)]
fn copy_items(items: &Vec<Tree>) -> Result<Vec<Tree>, AllocError>
    ensures { IfOk result (λ v. items_view v.items ≡ items_view items.now.items) }
{
    let mut copies = Vec::with_capacity(*items.allocator(), items.len())?;
    for item in items {
        copies.push(copy(item)?)?;
    }
    Ok(copies)
}

#[cycle(copy)]
fn copy_members(members: &BTreeMap<String, Tree>) -> Result<BTreeMap<String, Tree>, AllocError>
    ensures { IfOk result (λ m. members_view m.entries ≡ members_view members.now.entries) }
{
    let mut copies = BTreeMap::emptied(members)?;
    for (key, member) in members.iter() {
        let name = key.clone()?;
        drop(copies.insert(name, copy(member)?)?);
    }
    Ok(copies)
}
