//! A document without the fault that was found in it, so that the next one is found.

use crate::hints::stations::{has_number, stations};
use crate::places::Spot;
use std::alloc::{AllocError, Global};
use std::mem;
use toml::{Table, Value};

/// Drops the key at this spot.
pub(crate) fn drop_key(alloc: Global, root: &mut Table, spot: &Spot<'_>) -> Result<(), AllocError> {
    match spot.table {
        Some(table) => change_under(alloc, root, table, spot, None),
        None => {
            let _value = root.remove(spot.key);
            Ok(())
        }
    }
}

/// Gives the key at this spot, which has this dotted path, a value that fits, or drops it if it may
/// be missing.
pub(crate) fn mend(
    alloc: Global,
    root: &mut Table,
    spot: &Spot<'_>,
    path: &str,
) -> Result<(), AllocError> {
    match spot.table {
        Some(table) if table != "line" || root.contains_key(table) => {
            let value = fitting(alloc, root, path, spot.key)?;
            change_under(alloc, root, table, spot, value)
        }
        Some(table) => put_whole(alloc, root, table),
        None => put_whole(alloc, root, spot.key),
    }
}

/// Puts a whole table of the document in the place of what is there, or nothing if it may be
/// missing.
fn put_whole(alloc: Global, root: &mut Table, name: &str) -> Result<(), AllocError> {
    let _value = root.remove(name);
    let keys: &[&str] = match name {
        "line" => &["link", "cause", "ca", "ioa"],
        "station" => &["address", "ca"],
        _ => return Ok(()),
    };
    let mut table = Table::new(alloc);
    for key in keys {
        table.insert(String::from_str(alloc, *key)?, Value::Integer(1))?;
    }
    let table = Value::Table(table);
    let whole = if name == "station" {
        let mut items = Vec::new(alloc);
        items.push(table)?;
        Value::Array(items)
    } else {
        table
    };
    root.insert(String::from_str(alloc, name)?, whole)?;
    Ok(())
}

/// A value that fits the key with this dotted path. None, if it may be missing.
fn fitting(
    alloc: Global,
    root: &Table,
    path: &str,
    key: &str,
) -> Result<Option<Value>, AllocError> {
    let value = match path {
        // The widest: what stations have is judged by it.
        "line.link" | "line.cause" | "line.ca" => Value::Integer(2),
        "line.ioa" => Value::Integer(3),
        "tcp.t1_ms" => Value::Integer(255_000),
        "tcp.t2_ms" => Value::Integer(1),
        "station.address" | "station.ca" | "station.link" => Value::Integer(free(root, key)),
        "station.name" => Value::string(alloc, "x")?,
        "live.line" => Value::string(alloc, "unix:x")?,
        "live.listen" => Value::string(alloc, "x:1")?,
        _ => return Ok(None),
    };
    Ok(Some(value))
}

/// A number that no station has under this key.
fn free(root: &Table, key: &str) -> i64 {
    let stations = stations(root);
    for number in 1..255 {
        if !has_number(stations, number, key) {
            return number;
        }
    }
    1
}

/// Gives the key at this spot, below a table of the document, this value, or drops it.
fn change_under(
    alloc: Global,
    root: &mut Table,
    table: &str,
    spot: &Spot<'_>,
    value: Option<Value>,
) -> Result<(), AllocError> {
    let changed = match root.remove(table) {
        Some(Value::Array(items)) => changed_item(alloc, items, spot, value)?,
        Some(before) => changed(alloc, before, spot.key, value)?,
        None => changed(alloc, Value::Boolean(false), spot.key, value)?,
    };
    root.insert(String::from_str(alloc, table)?, changed)?;
    Ok(())
}

/// An array in which the item of a spot is so changed.
fn changed_item(
    alloc: Global,
    items: Vec<Value>,
    spot: &Spot<'_>,
    value: Option<Value>,
) -> Result<Value, AllocError> {
    let mut items = items;
    if let Some(item) = spot.item {
        if item < items.len() {
            let before = mem::replace(&mut items[item], Value::Boolean(false));
            items[item] = changed(alloc, before, spot.key, value)?;
        }
    }
    Ok(Value::Array(items))
}

/// A table with this value under a key, or without the key. What is no table becomes one.
fn changed(
    alloc: Global,
    before: Value,
    key: &str,
    value: Option<Value>,
) -> Result<Value, AllocError> {
    let mut table = match before {
        Value::Table(table) => table,
        _ => Table::new(alloc),
    };
    match value {
        Some(value) => {
            table.insert(String::from_str(alloc, key)?, value)?;
        }
        None => {
            let _value = table.remove(key);
        }
    }
    Ok(Value::Table(table))
}
