//! A text that is changed at one place, and what its document has then.
ghost use Rattle.std.specs.Prelude.{◌≤◌, length, IfOk};
ghost use Rattle.settings.specs.Spans.{IsWithin};

use crate::places::spans::{Span, gap_at, value_at};
use std::alloc::{AllocError, Global};
use toml::{Table, Value};

/// The longest text in which a place is looked for, in octets: each place that may be the one costs
/// a reading of the whole text.
pub const MOST_OCTETS: usize = 16384;

/// The text of a value that no file of settings has: the character U+0001.
const MARK: &[u8] = b"\"\\u0001\"";

/// A key, by its table.
#[derive(Clone, Copy)]
pub struct Spot<'a> {
    /// The key of the table; none, if the document itself is meant.
    pub table: Option<&'a str>,
    /// Which item of an array of tables is meant, from 0, if it is one.
    pub item: Option<usize>,
    pub key: &'a str,
}

/// What is looked for.
#[derive(Clone, Copy)]
enum Sought {
    /// The value of a key.
    Value,
    /// The end of a header below which a key belongs.
    Gap,
}

/// The octets of a text that write the value of a key. None, if the text is longer than
/// [`MOST_OCTETS`], and if the key isn't written as this crate looks for it.
pub fn find_value(alloc: Global, text: &[u8], spot: &Spot<'_>) -> Result<Option<Span>, AllocError>
    ensures { IfOk result (IsWithin text.now) }
{
    first(alloc, text, spot, Sought::Value)
}

/// The place behind the header below which a key belongs that isn't there. None, if the text is
/// longer than [`MOST_OCTETS`], and if there is no such header.
pub fn find_gap(alloc: Global, text: &[u8], spot: &Spot<'_>) -> Result<Option<Span>, AllocError>
    ensures { IfOk result (IsWithin text.now) }
{
    first(alloc, text, spot, Sought::Gap)
}

/// The first place of a text at which the mark can be written for the value of a key.
fn first(
    alloc: Global,
    text: &[u8],
    spot: &Spot<'_>,
    kind: Sought,
) -> Result<Option<Span>, AllocError>
    ensures { IfOk result (IsWithin text.now) }
{
    if text.len() > MOST_OCTETS {
        return Ok(None);
    }
    if is_marked(alloc, text, spot)? {
        return Ok(None);
    }
    for at in 0..text.len() {
        let Some(span) = span_at(kind, text, spot.key.as_bytes(), at) else {
            continue;
        };
        let changed = edited(alloc, text, span, kind, spot.key)?;
        if is_marked(alloc, changed.as_slice(), spot)? {
            return Ok(Some(span));
        }
    }
    Ok(None)
}

/// What may be the place, by what stands at `at`.
fn span_at(kind: Sought, text: &[u8], key: &[u8], at: usize) -> Option<Span>
    requires { at ≤ length text.now }
    ensures { IsWithin text.now result }
{
    match kind {
        Sought::Value => value_at(text, key, at),
        Sought::Gap => gap_at(text, at),
    }
}

/// The text with the mark at a place.
fn edited(
    alloc: Global,
    text: &[u8],
    span: Span,
    kind: Sought,
    key: &str,
) -> Result<Vec<u8>, AllocError>
    requires order { span.from ≤ span.to }
    requires within { span.to ≤ length text.now }
{
    let mut changed = text[..span.from].to_vec(alloc)?;
    match kind {
        Sought::Value => {}
        Sought::Gap => {
            changed.push(b'\n')?;
            changed.extend_from_slice(key.as_bytes())?;
            changed.push(b'=')?;
        }
    }
    changed.extend_from_slice(MARK)?;
    changed.extend_from_slice(&text[span.to..])?;
    Ok(changed)
}

/// Whether the text is a document with the mark's value under a key.
fn is_marked(alloc: Global, text: &[u8], spot: &Spot<'_>) -> Result<bool, AllocError> {
    match toml::table_from_slice(alloc, text) {
        Ok(root) => match value_under(&root, spot) {
            Some(value) => Ok(value.as_str() == Some("\u{1}")),
            None => Ok(false),
        },
        Err(fault) if fault.is_memory() => Err(AllocError),
        Err(_) => Ok(false),
    }
}

/// The value at a key of a table.
fn member<'a>(table: &'a Table, key: &str) -> Option<&'a Value> {
    table.get(key)
}

/// The value under a key.
fn value_under<'a>(root: &'a Table, spot: &Spot<'_>) -> Option<&'a Value> {
    match spot.table {
        None => member(root, spot.key),
        Some(name) => match member(root, name) {
            Some(table) => value_in(table, spot.item, spot.key),
            None => None,
        },
    }
}

/// The value under a key of a table, or of an item of an array of tables.
fn value_in<'a>(table: &'a Value, item: Option<usize>, key: &str) -> Option<&'a Value> {
    match item {
        None => table.get(key),
        Some(item) => match table.get(item) {
            Some(table) => table.get(key),
            None => None,
        },
    }
}
