//! A fault of settings, or of a site's file, explained.
ghost use Rattle.std.specs.Prelude.{IfOk};
ghost use Rattle.settings.specs.Spans.{IsWithin};

use crate::fault::ConfigFault;
use crate::hints::file::File;
use crate::hints::finding::find;
use crate::hints::lines::{found_line, place_words, twin_line, wanted_line};
use crate::hints::stations::{station_with, twin_station};
use crate::keys::given;
use crate::places::{Span, Spot, find_value};
use crate::site::SiteFault;
use std::alloc::{AllocError, Global};
use toml::{Table, Value};

/// The lines behind a fault of the settings that these octets are. They say where the value stands,
/// or the key belongs, what is wanted, and where another station has the number. Of octets that are
/// no document they say where reading stopped, and why. There are none if memory was refused to the
/// reader.
pub fn explain(alloc: Global, text: &[u8], fault: &ConfigFault) -> Result<Vec<u8>, AllocError> {
    match fault {
        ConfigFault::NotToml => explain_text(alloc, text),
        ConfigFault::Key(path) => explain_key(alloc, File::Settings, text, *path),
        ConfigFault::Unknown(path) => explain_key(alloc, File::Settings, text, path.as_str()),
        ConfigFault::NoMemory => Ok(Vec::new(alloc)),
    }
}

/// The same lines behind a fault of the site's file that these octets are.
pub fn explain_site(alloc: Global, text: &[u8], fault: &SiteFault) -> Result<Vec<u8>, AllocError> {
    match fault {
        SiteFault::NotToml => explain_text(alloc, text),
        SiteFault::Key(path) => explain_key(alloc, File::Site, text, *path),
        SiteFault::Unknown(path) => explain_key(alloc, File::Site, text, path.as_str()),
        SiteFault::NoMemory => Ok(Vec::new(alloc)),
    }
}

/// Where octets are no document, and why.
fn explain_text(alloc: Global, text: &[u8]) -> Result<Vec<u8>, AllocError> {
    let Err(fault) = toml::table_from_slice(alloc, text) else {
        return Ok(Vec::new(alloc));
    };
    let Some(span) = fault.span() else {
        return Err(AllocError);
    };
    let mut line = place_words(alloc, text, span.start)?;
    line.push_str(": ")?;
    line.push_str(fault.message())?;
    line.push_str("\n")?;
    Ok(line.into_bytes())
}

/// Where the value of a key stands, or the key belongs, and what is wanted.
fn explain_key(alloc: Global, file: File, text: &[u8], path: &str) -> Result<Vec<u8>, AllocError> {
    match toml::table_from_slice(alloc, text) {
        Ok(root) => explain_under(alloc, file, text, &root, path),
        Err(fault) if fault.is_memory() => Err(AllocError),
        Err(_) => Ok(Vec::new(alloc)),
    }
}

fn explain_under(
    alloc: Global,
    file: File,
    text: &[u8],
    root: &Table,
    path: &str,
) -> Result<Vec<u8>, AllocError> {
    let item = item_of(alloc, file, root, path)?;
    let spot = spot_of(root, path, item);
    let found = find(alloc, text, &spot)?;
    let twin = twin_of(alloc, text, root, &spot)?;
    let mut lines = found_line(alloc, text, found)?;
    let wanted = wanted_line(alloc, file, path)?;
    lines.extend_from_slice(wanted.as_bytes())?;
    let taken = twin_line(alloc, text, twin)?;
    lines.extend_from_slice(taken.as_bytes())?;
    Ok(lines)
}

/// Which station is meant, counted from 0, if one is.
pub(crate) fn item_of(
    alloc: Global,
    file: File,
    root: &Table,
    path: &str,
) -> Result<Option<usize>, AllocError> {
    match file {
        File::Settings | File::LiveSettings => match path {
            "station.address" | "station.ca" | "station.select" => {
                crate::config::wrong_station(alloc, root)
            }
            _ => Ok(station_with(root, path)),
        },
        File::Site => match path {
            "station.link" | "station.name" => crate::site::wrong_station(alloc, root),
            _ => Ok(station_with(root, path)),
        },
    }
}

/// The key of a dotted path, of this station. If its table is none, the key of that.
pub(crate) fn spot_of<'a>(root: &Table, path: &'a str, item: Option<usize>) -> Spot<'a> {
    let Some((table, key)) = path.split_once('.') else {
        return Spot {
            table: None,
            item,
            key: path,
        };
    };
    if is_scalar(root, table) {
        return Spot {
            table: None,
            item,
            key: table,
        };
    }
    Spot {
        table: Some(table),
        item,
        key,
    }
}

/// Whether there is such a key, whose value is neither a table nor an array.
fn is_scalar(root: &Table, key: &str) -> bool {
    match given(Some(root), key) {
        Some(value) => is_single(value),
        None => false,
    }
}

fn is_single(value: &Value) -> bool {
    !value.is_table() && !value.is_array()
}

/// Where another station has the number of this one, if one has.
pub(crate) fn twin_of(
    alloc: Global,
    text: &[u8],
    root: &Table,
    spot: &Spot<'_>,
) -> Result<Option<Span>, AllocError>
    ensures { IfOk result (IsWithin text.now) }
{
    let Some(item) = spot.item else {
        return Ok(None);
    };
    match twin_station(root, item, spot.key) {
        Some(other) => {
            let twin = Spot {
                table: spot.table,
                item: Some(other),
                key: spot.key,
            };
            find_value(alloc, text, &twin)
        }
        None => Ok(None),
    }
}
