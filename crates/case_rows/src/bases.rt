// Texts that several rows of a table begin with: a line with the member `base` isn't a case, but gives its `file` this
// name. A later row with this name as its member `of` has this text as its `file`, with each pair of texts of its
// `changes` made in turn: the first of the pair stands in the text once, and the second is put in its place.
use crate::notation::text;
use crate::row::{items, word};
use crate::trouble::Trouble;
use serde_json::Value;
use std::alloc::Global;
use std::collections::BTreeMap;

/// The texts by their names.
pub type Bases = BTreeMap<String, String>;

/// Keeps the text of a row.
pub fn keep_base(alloc: Global, bases: &mut Bases, row: &Value) -> Result<(), Trouble> {
    let name = String::from_str(alloc, word(row, "base")?)?;
    let text = text(alloc, row, "file")?;
    match bases.insert(name, text) {
        Ok(_former) => Ok(()),
        Err(_refused) => Err(Trouble::Memory),
    }
}

/// The text with another one in the place of one that stands in it once.
fn changed(alloc: Global, text: &str, old: &str, new: &str) -> Result<String, Trouble> {
    let Some((before, after)) = text.split_once(old) else {
        return Err(Trouble::Member("changes"));
    };
    if after.contains(old) {
        return Err(Trouble::Member("changes"));
    }
    let mut changed = String::from_str(alloc, before)?;
    changed.push_str(new)?;
    changed.push_str(after)?;
    Ok(changed)
}

/// The text of a row's base, with the row's changes.
fn file_of(alloc: Global, bases: &Bases, name: &str, row: &Value) -> Result<String, Trouble> {
    let Some(base) = bases.get(name) else {
        return Err(Trouble::Member("of"));
    };
    let mut file = base.clone()?;
    for change in items(row, "changes")? {
        let (Some(Value::String(old)), Some(Value::String(new))) = (
            change.get(0usize),
            change.get(1usize),
        ) else {
            return Err(Trouble::Member("changes"));
        };
        file = changed(alloc, file.as_str(), old.as_str(), new.as_str())?;
    }
    Ok(file)
}

/// Gives a row with a base its `file`.
pub fn with_base(alloc: Global, bases: &Bases, row: &mut Value) -> Result<(), Trouble> {
    let Some(Value::String(name)) = row.get("of") else {
        return Ok(());
    };
    let file = file_of(alloc, bases, name.as_str(), row)?;
    let member = String::from_str(alloc, "file")?;
    let Some(members) = row.as_object_mut() else {
        return Err(Trouble::Member("of"));
    };
    match members.insert(member, Value::from(file)) {
        Ok(_former) => Ok(()),
        Err(_refused) => Err(Trouble::Memory),
    }
}
