//! The lines of a hint.
ghost use Rattle.std.specs.Prelude.{◌≤◌, length};
ghost use Rattle.settings.specs.Spans.{IsInside, IsWithin};

use crate::hints::file::File;
use crate::hints::finding::KeyPlace;
use crate::places::{Span, place_at};
use std::alloc::{AllocError, Global};

/// The place of the octet behind the first `at`, in words.
pub(crate) fn place_words(alloc: Global, text: &[u8], at: usize) -> Result<String, AllocError>
    requires { at ≤ length text.now }
{
    let place = place_at(text, at);
    let words = format!(in alloc; "line {}, column {}", place.line, place.column)?;
    Ok(words)
}

/// Where a value stands, with the value as it is written, or where it belongs.
pub(crate) fn found_line(alloc: Global, text: &[u8], found: KeyPlace) -> Result<Vec<u8>, AllocError>
    requires { IsInside text.now found }
{
    match found {
        KeyPlace::Value(span) => value_line(alloc, text, span),
        KeyPlace::Gap(span) => gap_line(alloc, text, span.from),
        KeyPlace::Nowhere => Ok(Vec::new(alloc)),
    }
}

fn value_line(alloc: Global, text: &[u8], span: Span) -> Result<Vec<u8>, AllocError>
    requires order { span.from ≤ span.to }
    requires within { span.to ≤ length text.now }
{
    let mut line = place_words(alloc, text, span.from)?.into_bytes();
    line.extend_from_slice(b": ")?;
    line.extend_from_slice(&text[span.from..span.to])?;
    line.push(b'\n')?;
    Ok(line)
}

fn gap_line(alloc: Global, text: &[u8], at: usize) -> Result<Vec<u8>, AllocError>
    requires { at ≤ length text.now }
{
    let place = place_at(text, at);
    let line = format!(in alloc; "no value: it belongs below line {}\n", place.line)?;
    Ok(line.into_bytes())
}

/// What is wanted of a key, or, if there is no such key, the page that lists the keys.
pub(crate) fn wanted_line(alloc: Global, file: File, path: &str) -> Result<String, AllocError> {
    match file.values(path) {
        Some(values) => format!(in alloc; "wanted: {values}\n"),
        None => {
            let page = file.page();
            format!(in alloc; "wanted: a key of the table in {page}\n")
        }
    }
}

/// Where another station has the number, if one has.
pub(crate) fn twin_line(
    alloc: Global,
    text: &[u8],
    twin: Option<Span>,
) -> Result<String, AllocError>
    requires { IsWithin text.now twin }
{
    match twin {
        Some(span) => {
            let words = place_words(alloc, text, span.from)?;
            let line = format!(in alloc; "taken at {words}\n")?;
            Ok(line)
        }
        None => Ok(String::new(alloc)),
    }
}
