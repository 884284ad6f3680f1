//! The fields of an object, read by name. A fault has its place in the object, and a bad value.
ghost use Rattle.std.specs.Prelude.{◌≡◌, codes, decimal, map, option_map, string_bytes, IfOk};
ghost use Rattle.std.specs.List.{list_any};
ghost use Rattle.std.specs.Str.{bytes_eq};
ghost use Rattle.log4rs_settings.specs.View.{view, members_view};
ghost use Rattle.log4rs_settings.specs.Members.{get_member, without};
ghost use Rattle.log4rs_settings.specs.Values.{as_list, as_members};
ghost use Rattle.log4rs_settings.specs.Data.{no_items};
ghost use Rattle.log4rs_settings.specs.Fault.{fault_of};
ghost use Rattle.log4rs_settings.specs.Fields.{only_known, present, given, list_view, object_view};
ghost use Rattle.log4rs_settings.specs.Part.{part_of, under, of_object, in_object, bad, or_bad, within, required, found_or, optional, text_at, fields_of};
ghost use Rattle.log4rs_settings.specs.Reading.{IsBelow, IsWithin, IsPartRead, as_it_is, bytes_now, members_now, tree_now};

use crate::Tree;
use crate::part::{ConfigFault, PartError, PartFault, Read};
use crate::values::FromTree;
use std::alloc::{AllocError, Global};
use std::collections::BTreeMap;

/// The members of an object.
pub type Object = BTreeMap<String, Tree>;

/// The name of a field or a class.
pub type Name = &'static str;

/// Returns a fault of an object as a whole.
pub fn of_object(alloc: Global, fault: ConfigFault) -> PartFault
    ensures { part_of result ≡ of_object (fault_of fault) }
{
    PartFault {
        place: String::new(alloc),
        value: None,
        fault,
    }
}

/// Returns the fault of a bad value of a field or a class.
pub fn bad(alloc: Global, name: Name, value: Tree) -> PartFault
    ensures { part_of result ≡ bad name.now (view value) }
{
    PartFault {
        place: String::new(alloc),
        value: Some(value),
        fault: ConfigFault::BadValue(name),
    }
}

/// Returns the fault of a bad value of a field of an object.
pub fn bad_field(alloc: Global, name: Name, value: Tree) -> Result<PartFault, AllocError>
    ensures { IfOk result (λ fault. part_of fault ≡ under name.now (bad name.now (view value))) }
{
    under(alloc, name, bad(alloc, name, value))
}

/// Puts a name in front of the place of a fault.
pub fn under(alloc: Global, name: &str, fault: PartFault) -> Result<PartFault, AllocError>
    ensures { IfOk result (λ longer. part_of longer ≡ under name.now (part_of fault)) }
{
    let PartFault {
        place: rest,
        value,
        fault,
    } = fault;
    let mut place = String::from_str(alloc, name)?;
    if !rest.is_empty() {
        place.push('.')?;
        place.push_str(&rest)?;
    }
    Ok(PartFault {
        place,
        value,
        fault,
    })
}

/// Puts a name in front of the place of an error.
fn below(alloc: Global, name: &str, error: PartError) -> PartError
    ensures { IsBelow name.now error result }
{
    match error {
        PartError::Fault(fault) => match under(alloc, name, fault) {
            Ok(fault) => PartError::Fault(fault),
            Err(_) => PartError::Memory,
        },
        PartError::Memory => PartError::Memory,
    }
}

/// Returns what was read below a name: the name stands in front of the place of a fault.
pub fn within<T>(alloc: Global, name: &str, read: Read<T>) -> Read<T>
    ensures { IsWithin name.now read result }
{
    match read {
        Ok(value) => Ok(value),
        Err(error) => Err(below(alloc, name, error)),
    }
}

/// Returns what a list's item was read as: its index stands in front of the place of a fault.
pub fn at_item<T>(alloc: Global, index: usize, read: Read<T>) -> Read<T>
    ensures { IsWithin (decimal index) read result }
{
    match read {
        Ok(value) => Ok(value),
        Err(error) => {
            let name = index.to_string(alloc)?;
            Err(below(alloc, name.as_str(), error))
        }
    }
}

/// Fails with the least field that is not among the known ones.
pub fn only(alloc: Global, object: &Object, known: &[Name]) -> Read<()>
    ensures { IsPartRead as_it_is
        (in_object (only_known (map bytes_now known.now) (members_view object.now.entries)))
        result }
{
    for (key, _) in object.iter() {
        if !is_known(key.as_str(), known) {
            let unknown = ConfigFault::UnknownField(key.clone()?);
            return Err(PartError::Fault(of_object(alloc, unknown)));
        }
    }
    Ok(())
}

/// Returns whether the key is one of the known ones.
fn is_known(key: &str, known: &[Name]) -> bool
    ensures { result ≡ list_any (λ name. bytes_eq name.now key.now) known.now }
{
    known.iter().any(|name| *name == key)
}

/// Returns the value of a field, if it is present.
fn field<'a>(object: &'a Object, name: &str) -> Option<&'a Tree>
    ensures { option_map tree_now result ≡ get_member name.now (members_view object.now.entries) }
{
    object.get(name)
}

/// Takes the value of a field out, if it is present.
pub fn take(object: &mut Object, name: &str) -> Option<Tree>
    ensures found { option_map view result ≡ get_member name.now (members_view object.old.entries) }
    ensures left { members_view object.new.entries
        ≡ without name.now (members_view object.old.entries) }
{
    object.remove(name)
}

/// Returns the items of a list that was found at a field: none if it is absent or null. Fails if it
/// is no list.
pub fn list_of(alloc: Global, name: Name, found: Option<Tree>) -> Read<Vec<Tree>>
    ensures { IsPartRead list_view
        (found_or name.now as_list no_items (option_map view found)) result }
{
    match found {
        None | Some(Tree::Null) => Ok(Vec::new(alloc)),
        Some(Tree::List(trees)) => Ok(trees),
        Some(other) => Err(PartError::Fault(bad_field(alloc, name, other)?)),
    }
}

/// Returns the members of a tree. Fails if it is no object.
pub fn object_of(alloc: Global, tree: Tree, class: Name) -> Read<Object>
    ensures { IsPartRead object_view
        (or_bad class.now (view tree) (as_members (view tree))) result }
{
    match tree {
        Tree::Map(object) => Ok(object),
        other => Err(PartError::Fault(bad(alloc, class, other))),
    }
}

/// Returns the members of a borrowed tree. Fails if it is no object.
pub fn object_in<'a>(alloc: Global, tree: &'a Tree, class: Name) -> Read<&'a Object>
    ensures { IsPartRead members_now
        (or_bad class.now (view tree.now) (as_members (view tree.now))) result }
{
    match tree {
        Tree::Map(object) => Ok(object),
        other => Err(PartError::Fault(bad(alloc, class, other.clone()?))),
    }
}

/// Returns the members of a borrowed tree. Fails if it is no object or has other fields than these.
pub fn fields_of<'a>(alloc: Global, tree: &'a Tree, class: Name, known: &[Name]) -> Read<&'a Object>
    ensures { IsPartRead members_now
        (fields_of class.now (map bytes_now known.now) (view tree.now)) result }
{
    let object = object_in(alloc, tree, class)?;
    only(alloc, object, known)?;
    Ok(object)
}

/// Takes out the kind, or returns its default if it is absent or null. Fails if it is no text, or
/// has no default and is missing.
pub fn take_kind(alloc: Global, object: &mut Object, default: Option<&str>) -> Read<String>
    ensures kind { IsPartRead string_bytes
        (text_at (option_map bytes_now default.entry) (codes "kind")
        (members_view object.old.entries)) result }
    ensures left { members_view object.new.entries
        ≡ without (codes "kind") (members_view object.old.entries) }
{
    match (take(object, "kind"), default) {
        (Some(Tree::Text(kind)), _) => Ok(kind),
        (None | Some(Tree::Null), Some(default)) => Ok(String::from_str(alloc, default)?),
        (None, None) => Err(PartError::Fault(of_object(alloc, ConfigFault::MissingField("kind")))),
        (Some(other), _) => Err(PartError::Fault(bad_field(alloc, "kind", other)?)),
    }
}

/// Returns the value of a field. Fails if it is missing.
pub fn required<'a>(alloc: Global, object: &'a Object, name: Name) -> Read<&'a Tree>
    ensures { IsPartRead tree_now
        (in_object (present name.now (get_member name.now (members_view object.now.entries))))
        result }
{
    match field(object, name) {
        Some(tree) => Ok(tree),
        None => Err(PartError::Fault(of_object(alloc, ConfigFault::MissingField(name)))),
    }
}

/// Returns the value of a field, if it is present and not null.
pub fn given<'a>(object: &'a Object, name: &str) -> Option<&'a Tree>
    ensures { option_map tree_now result
        ≡ given (get_member name.now (members_view object.now.entries)) }
{
    match field(object, name) {
        Some(Tree::Null) => None,
        found => found,
    }
}

/// Returns what a field's value is read as. Fails if it is bad.
pub fn or_bad<T: Copy>(alloc: Global, name: Name, tree: &Tree, read: Option<T>) -> Read<T>
    ensures { IsPartRead as_it_is (within name.now (or_bad name.now (view tree.now) read)) result }
{
    match read {
        Some(value) => Ok(value),
        None => Err(PartError::Fault(bad_field(alloc, name, tree.clone()?)?)),
    }
}

/// Returns a text, or its default if it is absent or null. Fails if it is no text, or has no
/// default and is missing.
pub fn text_at<'a>(
    alloc: Global,
    object: &'a Object,
    name: Name,
    default: Option<&'a str>,
) -> Read<&'a str>
    ensures { IsPartRead bytes_now
        (text_at (option_map bytes_now default.entry) name.now (members_view object.now.entries))
        result }
{
    match (field(object, name), default) {
        (Some(Tree::Text(text)), _) => Ok(text.as_str()),
        (None | Some(Tree::Null), Some(default)) => Ok(default),
        (None, None) => Err(PartError::Fault(of_object(alloc, ConfigFault::MissingField(name)))),
        (Some(other), _) => Err(PartError::Fault(bad_field(alloc, name, other.clone()?)?)),
    }
}

/// Returns the value of a field. Fails if it is missing or bad.
pub fn required_value<T: FromTree>(alloc: Global, object: &Object, name: Name) -> Read<T>
    ensures { IsPartRead as_it_is
        (required name.now T.reads (members_view object.now.entries)) result }
{
    let tree = required(alloc, object, name)?;
    or_bad(alloc, name, tree, T::from_tree(tree))
}

/// Returns the value of a field, or its default if it is absent or null. Fails if it is bad.
pub fn optional<T: FromTree>(alloc: Global, object: &Object, name: Name, default: T) -> Read<T>
    ensures { IsPartRead as_it_is
        (optional name.now T.reads default (members_view object.now.entries)) result }
{
    match given(object, name) {
        None => Ok(default),
        Some(tree) => or_bad(alloc, name, tree, T::from_tree(tree)),
    }
}
