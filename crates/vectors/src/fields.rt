//! Fields of a case.

use crate::fault::Fault;
use log::{Level, LevelFilter};
use serde_json::Value;
use std::alloc::Global;
use std::collections::BTreeMap;

/// Returns the field with this name.
pub fn field<'a>(case: &'a Value, name: &str) -> Result<&'a Value, Fault> {
    case.get(name).ok_or(Fault::Malformed)
}

/// Returns the text of a value.
pub fn text(value: &Value) -> Result<&str, Fault> {
    value.as_str().ok_or(Fault::Malformed)
}

/// Returns a copy of the text of a field.
pub fn string_field(alloc: Global, case: &Value, name: &str) -> Result<String, Fault> {
    Ok(String::from_str(alloc, text(field(case, name)?)?)?)
}

/// Returns a copy of the text of a field, or `None` if it is null.
pub fn optional_string(alloc: Global, case: &Value, name: &str) -> Result<Option<String>, Fault> {
    let value = field(case, name)?;
    if value.is_null() {
        return Ok(None);
    }
    Ok(Some(String::from_str(alloc, text(value)?)?))
}

/// Returns the number of a field, or `None` if it is null.
pub fn optional_number(case: &Value, name: &str) -> Result<Option<u32>, Fault> {
    let value = field(case, name)?;
    if value.is_null() {
        return Ok(None);
    }
    let number = value.as_u64().ok_or(Fault::Malformed)?;
    match u32::try_from(number) {
        Ok(number) => Ok(Some(number)),
        Err(_) => Err(Fault::Malformed),
    }
}

/// Returns the integer of a field, or `None` if the case does not have it.
pub fn integer(case: &Value, name: &str) -> Result<Option<i64>, Fault> {
    match case.get(name) {
        Some(value) => Ok(Some(value.as_i64().ok_or(Fault::Malformed)?)),
        None => Ok(None),
    }
}

/// Returns the natural number of a field, or 0 if the case does not have it.
pub fn natural(case: &Value, name: &str) -> Result<u64, Fault> {
    match case.get(name) {
        Some(value) => value.as_u64().ok_or(Fault::Malformed),
        None => Ok(0),
    }
}

/// Returns the boolean of a field.
pub fn flag(case: &Value, name: &str) -> Result<bool, Fault> {
    field(case, name)?.as_bool().ok_or(Fault::Malformed)
}

/// The truth of a field, `false` where the case has none.
pub fn optional_flag(case: &Value, name: &str) -> Result<bool, Fault> {
    match case.get(name) {
        Some(value) => value.as_bool().ok_or(Fault::Malformed),
        None => Ok(false),
    }
}

/// Returns the items of a field's list.
pub fn list<'a>(case: &'a Value, name: &str) -> Result<&'a [Value], Fault> {
    items(field(case, name)?)
}

/// Returns copies of the texts of a field's list.
pub fn strings(alloc: Global, case: &Value, name: &str) -> Result<Vec<String>, Fault> {
    texts_of(alloc, field(case, name)?)
}

/// Returns copies of the texts of a list.
pub fn texts_of(alloc: Global, value: &Value) -> Result<Vec<String>, Fault> {
    let mut strings = Vec::new(alloc);
    for value in items(value)? {
        strings.push(String::from_str(alloc, text(value)?)?)?;
    }
    Ok(strings)
}

/// Returns copies of the texts of a field's object, or none if the case does not have it.
pub fn texts(alloc: Global, case: &Value, name: &str) -> Result<BTreeMap<String, String>, Fault> {
    let mut texts = BTreeMap::new(alloc);
    let Some(object) = case.get(name) else {
        return Ok(texts);
    };
    let Some(members) = object.as_object() else {
        return Err(Fault::Malformed);
    };
    for (key, value) in members {
        let value = String::from_str(alloc, text(value)?)?;
        texts.insert(key.clone()?, value)?;
    }
    Ok(texts)
}

/// Returns the items of a list.
pub fn items(value: &Value) -> Result<&[Value], Fault> {
    match value.as_array() {
        Some(list) => Ok(list.as_slice()),
        None => Err(Fault::Malformed),
    }
}

/// Returns the level that a field names.
pub fn level(case: &Value, name: &str) -> Result<Level, Fault> {
    match text(field(case, name)?)?.parse::<Level>() {
        Ok(level) => Ok(level),
        Err(_) => Err(Fault::Malformed),
    }
}

/// Returns the level filter that a value names.
pub fn level_filter(value: &Value) -> Result<LevelFilter, Fault> {
    match text(value)?.parse::<LevelFilter>() {
        Ok(level) => Ok(level),
        Err(_) => Err(Fault::Malformed),
    }
}
