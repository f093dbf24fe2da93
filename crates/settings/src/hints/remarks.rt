//! All that is wrong with a file, as lines for a person and for an editor.
ghost use Rattle.std.specs.Prelude.{◌≤◌, length};
ghost use Rattle.settings.specs.Spans.{IsInside, IsWithin};

use crate::fault::ConfigFault;
use crate::hints::explaining::{item_of, spot_of, twin_of};
use crate::hints::file::File;
use crate::hints::finding::{KeyPlace, find};
use crate::hints::mending::{drop_key, mend};
use crate::hints::stations::station_with;
use crate::live::is_here;
use crate::places::{Place, Span, Spot, place_at};
use crate::site::{Site, SiteFault};
use crate::wanted::WantedRow;
use gateway::Config;
use std::alloc::{AllocError, Global};
use strsim::osa_distance;
use toml::Table;

/// So many faults of one file are told at the most.
const MOST_REMARKS: usize = 40;

/// By so many letters a misspelt key differs from the one that is meant, at the most.
const MOST_EDITS: usize = 2;

/// Something that is wrong with a file.
#[derive(Drop)]
pub struct Remark {
    pub place: Place,
    /// What is wrong, in words.
    pub words: String,
}

/// What is wrong with the key of a document that a fault names.
#[derive(Drop)]
pub(crate) enum KeyFault {
    /// It is missing, or its value is wrong.
    Wrong(String),
    Unknown(String),
}

/// All that is wrong with the settings that these octets are, of which this is the first fault. As
/// for a live run, if that is asked for.
pub fn config_remarks(
    alloc: Global,
    text: &[u8],
    live: bool,
    fault: &ConfigFault,
) -> Result<Vec<Remark>, AllocError> {
    let first = match fault {
        ConfigFault::NotToml => return document_remarks(alloc, text),
        ConfigFault::Key(path) => KeyFault::Wrong(String::from_str(alloc, *path)?),
        ConfigFault::Unknown(path) => KeyFault::Unknown(String::from_str(alloc, path.as_str())?),
        ConfigFault::NoMemory => return Err(AllocError),
    };
    let file = if live {
        File::LiveSettings
    } else {
        File::Settings
    };
    key_remarks(alloc, file, text, first)
}

/// All that is wrong with the file of a site that these octets are, of which this is the first
/// fault.
pub fn site_remarks(
    alloc: Global,
    text: &[u8],
    fault: &SiteFault,
) -> Result<Vec<Remark>, AllocError> {
    let first = match fault {
        SiteFault::NotToml => return document_remarks(alloc, text),
        SiteFault::Key(path) => KeyFault::Wrong(String::from_str(alloc, *path)?),
        SiteFault::Unknown(path) => KeyFault::Unknown(String::from_str(alloc, path.as_str())?),
        SiteFault::NoMemory => return Err(AllocError),
    };
    key_remarks(alloc, File::Site, text, first)
}

/// Where octets are no document, and why.
fn document_remarks(alloc: Global, text: &[u8]) -> Result<Vec<Remark>, AllocError> {
    let mut remarks = Vec::new(alloc);
    let Err(fault) = toml::table_from_slice(alloc, text) else {
        return Ok(remarks);
    };
    let Some(span) = fault.span() else {
        return Err(AllocError);
    };
    remarks.push(Remark {
        place: place_at(text, span.start),
        words: String::from_str(alloc, fault.message())?,
    })?;
    Ok(remarks)
}

/// What is wrong with the keys of a document, from this fault on. Each is found by the judgement of
/// the document in which those before it are mended.
fn key_remarks(
    alloc: Global,
    file: File,
    text: &[u8],
    first: KeyFault,
) -> Result<Vec<Remark>, AllocError> {
    let mut root = root_of(alloc, text)?;
    let mut wrong = Vec::new(alloc);
    // A misspelt key comes before the one that is missing for that.
    let mut remarks = Vec::new(alloc);
    let mut fault = Some(first);
    for _ in 0..MOST_REMARKS {
        let Some(found) = &fault else {
            break;
        };
        let is_new = match found {
            KeyFault::Wrong(path) => {
                let remark = remark_wrong(alloc, file, text, &mut root, path.as_str())?;
                put_new(&mut wrong, remark)?
            }
            KeyFault::Unknown(path) => {
                let remark = remark_unknown(alloc, file, text, &mut root, path.as_str())?;
                put_new(&mut remarks, remark)?
            }
        };
        if !is_new {
            break;
        }
        fault = file.fault_in(alloc, &root)?;
    }
    for remark in wrong {
        remarks.push(remark)?;
    }
    Ok(remarks)
}

/// Appends a remark, unless the latest one says the same: then it can't be mended here. Answers
/// whether it is new.
fn put_new(remarks: &mut Vec<Remark>, remark: Remark) -> Result<bool, AllocError> {
    if let Some(last) = remarks.last() {
        if last.place == remark.place && last.words == remark.words {
            return Ok(false);
        }
    }
    remarks.push(remark)?;
    Ok(true)
}

/// What is wrong with the place of a run's ends, which all commands but `run` leave unjudged.
pub fn live_remarks(alloc: Global, text: &[u8]) -> Result<Vec<Remark>, AllocError> {
    let root = root_of(alloc, text)?;
    if root.contains_key("live") {
        match File::LiveSettings.fault_in(alloc, &root)? {
            Some(fault) => key_remarks(alloc, File::LiveSettings, text, fault),
            None => Ok(Vec::new(alloc)),
        }
    } else {
        Ok(Vec::new(alloc))
    }
}

/// That no other machine can connect to the listener of these settings, if that is so.
pub fn listen_remarks(alloc: Global, text: &[u8], listen: &str) -> Result<Vec<Remark>, AllocError> {
    let mut remarks = Vec::new(alloc);
    let place = format!(in alloc; "tcp:{listen}")?;
    if is_here(place.as_bytes()) {
        let spot = Spot {
            table: Some("live"),
            item: None,
            key: "listen",
        };
        let found = find(alloc, text, &spot)?;
        remarks.push(Remark {
            place: place_of(text, found),
            words: format!(in alloc; "live.listen = \"{listen}\": no other machine can connect")?,
        })?;
    }
    Ok(remarks)
}

/// The names of a site's file, for stations that the settings don't have.
pub fn stranger_remarks(
    alloc: Global,
    text: &[u8],
    site: &Site,
    config: &Config,
) -> Result<Vec<Remark>, AllocError> {
    let mut remarks = Vec::new(alloc);
    for (item, station) in site.names.stations.iter().enumerate() {
        let link = station.link;
        if config.stations().iter().any(|one| one.address == link) {
            continue;
        }
        let spot = Spot {
            table: Some("station"),
            item: Some(item),
            key: "link",
        };
        let found = find(alloc, text, &spot)?;
        remarks.push(Remark {
            place: place_of(text, found),
            words: format!(in alloc; "station.link = {link}: the settings have no such station")?,
        })?;
    }
    Ok(remarks)
}

/// The document that octets are.
fn root_of(alloc: Global, text: &[u8]) -> Result<Table, AllocError> {
    match toml::table_from_slice(alloc, text) {
        Ok(root) => Ok(root),
        Err(_) => Err(AllocError),
    }
}

/// What is wrong with a key that is missing, or whose value is wrong, which is mended then.
fn remark_wrong(
    alloc: Global,
    file: File,
    text: &[u8],
    root: &mut Table,
    path: &str,
) -> Result<Remark, AllocError> {
    let item = item_of(alloc, file, root, path)?;
    let spot = spot_of(root, path, item);
    let found = find(alloc, text, &spot)?;
    // What is no table is wrong itself.
    let meant = if spot.table.is_none() { spot.key } else { path };
    let words = match found {
        KeyPlace::Value(span) => {
            let twin = twin_of(alloc, text, root, &spot)?;
            value_words(alloc, file, text, meant, span, twin)?
        }
        _ => missing_words(alloc, file, meant)?,
    };
    mend(alloc, root, &spot, path)?;
    Ok(Remark {
        place: place_of(text, found),
        words,
    })
}

/// What is wrong with a key that isn't known, which is dropped then.
fn remark_unknown(
    alloc: Global,
    file: File,
    text: &[u8],
    root: &mut Table,
    path: &str,
) -> Result<Remark, AllocError> {
    let spot = match path.split_once('.') {
        Some((table, _)) if !root.contains_key(table) => Spot {
            table: None,
            item: None,
            key: path,
        },
        _ => spot_of(root, path, station_with(root, path)),
    };
    let place = match find(alloc, text, &spot)? {
        KeyPlace::Value(span) => place_at(text, line_start(text, span.from)),
        _ => place_at(text, header_start(text, path.as_bytes())),
    };
    drop_key(alloc, root, &spot)?;
    let words = match nearest(alloc, file.rows(), path)? {
        Some(near) => format!(in alloc; "no such key: {path}; is {near} meant?")?,
        None => format!(in alloc; "no such key: {path}")?,
    };
    Ok(Remark { place, words })
}

/// Where a value stands, or the header below which it belongs; else the beginning.
fn place_of(text: &[u8], found: KeyPlace) -> Place
    requires { IsInside text.now found }
{
    match found {
        KeyPlace::Value(span) => place_at(text, span.from),
        KeyPlace::Gap(span) => place_at(text, span.from),
        KeyPlace::Nowhere => Place { line: 1, column: 1 },
    }
}

/// What is wrong with a value that stands there.
fn value_words(
    alloc: Global,
    file: File,
    text: &[u8],
    path: &str,
    span: Span,
    twin: Option<Span>,
) -> Result<String, AllocError>
    requires order { span.from ≤ span.to }
    requires within { span.to ≤ length text.now }
    requires twin { IsWithin text.now twin }
{
    let Ok(value) = std::str::from_utf8(&text[span.from..span.to]) else {
        return missing_words(alloc, file, path);
    };
    if let Some(twin) = twin {
        let line = place_at(text, twin.from).line;
        return format!(in alloc; "{path} = {value}: the station at line {line} has this number");
    }
    let wanted = wanted(file, path);
    match unquoted(value) {
        Some(bare) if !wanted.starts_with('"') && is_plain(bare) => {
            format!(in alloc; "{path} = {value} is a text: write {bare} without quotation marks")
        }
        _ => format!(in alloc; "{path} = {value}: wanted {wanted}"),
    }
}

/// What is wrong with a key that isn't there.
fn missing_words(alloc: Global, file: File, path: &str) -> Result<String, AllocError> {
    let wanted = wanted(file, path);
    if path == "tcp.t2_ms" {
        format!(in alloc; "{path} is 10000 by default: wanted {wanted}")
    } else {
        format!(in alloc; "{path} is missing: wanted {wanted}")
    }
}

fn wanted(file: File, path: &str) -> &'static str {
    match file.values(path) {
        Some(values) => values,
        None => "another value",
    }
}

/// What stands between quotation marks.
fn unquoted(value: &str) -> Option<&str> {
    let inner = value.strip_prefix('"')?;
    inner.strip_suffix('"')
}

/// Whether a word would be a number or a truth value without quotation marks.
fn is_plain(word: &str) -> bool {
    word == "true" || word == "false" || word.parse::<u32>().is_ok()
}

/// The key that a misspelt one may be meant to be, or the same key of another table.
fn nearest(
    alloc: Global,
    rows: &'static [WantedRow],
    path: &str,
) -> Result<Option<&'static str>, AllocError> {
    // A key of which nothing is left is no longer the same.
    let mut best = last_part(path).len().min(MOST_EDITS + 1);
    let mut near = None;
    for (key, _) in rows {
        let edits = osa_distance(alloc, path, *key)?;
        if edits < best && key.contains('.') == path.contains('.') {
            best = edits;
            near = Some(*key);
        }
    }
    if near.is_some() {
        return Ok(near);
    }
    for (key, _) in rows {
        if last_part(*key) == last_part(path) {
            return Ok(Some(*key));
        }
    }
    Ok(None)
}

/// The key alone of a dotted path.
fn last_part(path: &str) -> &str {
    match path.split_once('.') {
        Some((_, key)) => key,
        None => path,
    }
}

/// Where the line of this octet begins.
fn line_start(text: &[u8], at: usize) -> usize
    requires { at ≤ length text.now }
    ensures { result ≤ length text.now }
{
    match text[..at].iter().rposition(|octet| *octet == b'\n') {
        Some(feed) => feed + 1,
        None => 0,
    }
}

/// Where the header of a table stands that has this name, or one below it; else the beginning.
fn header_start(text: &[u8], name: &[u8]) -> usize
    ensures { result ≤ length text.now }
{
    for at in 0..text.len() {
        if is_header(&text[at..], name) {
            return at;
        }
    }
    0
}

fn is_header(text: &[u8], name: &[u8]) -> bool {
    match text {
        [b'[', b'[', rest @ ..] | [b'[', rest @ ..] => {
            rest.starts_with(name) && matches!(rest.get(name.len()), Some(b']' | b'.'))
        }
        _ => false,
    }
}
