//! What belongs to a site: a TOML file beside the settings, with the names of the line and of its
//! stations, and what the words of a live run may say too (this gateway's own profile).
//!
//! [`read_site`] reads a file's octets, or answers the first fault. Proved: each value is that of
//! its key; a wrong key is the first wrong one in the definition's order (`specs/Site.antt`); an
//! unknown key is reported only if no key is wrong; a file without fault is never refused but for
//! want of memory. [`site_values`] says in words what is wanted of a key, and [`wrong_station`]
//! which of several stations is meant.
ghost use Rattle.std.specs.Prelude.{◌≡◌, [], IfOk, MatchResult, map, option_map, string_bytes};
ghost use Rattle.toml.specs.View.{view, items_view, table_view};
ghost use Rattle.settings.specs.Faults.{seen};
ghost use Rattle.settings.specs.Settings.{IsDocument};
ghost use Rattle.settings.specs.Site.{AreTexts, IsKnownOf, IsReadOf, IsRootFault, IsSiteRead};
ghost use Rattle.settings.specs.Site.{allow_of, empty_site, flags_of, known_names, known_places};
ghost use Rattle.settings.specs.Site.{known_site, names_of, places_of, site_of, texts_from};

mod fault;
mod keys;
mod names;
mod unknown;
mod wanted;

pub use self::fault::SiteFault;
pub use self::names::{Names, StationName, wrong_station};
pub(crate) use self::wanted::SITE_ROWS;
pub use self::wanted::site_values;
use crate::fault::WrongKey;
use crate::keys::{Flag, given, section};
use crate::site::keys::{TextForm, text};
use crate::site::names::read_stations;
use crate::site::unknown::unknown_key;
use std::alloc::{AllocError, Global};
use toml::{Table, Value};

/// What belongs to a site.
#[derive(PartialEq, Eq, Drop)]
pub struct Site {
    pub places: Places,
    pub flags: Flags,
    pub names: Names,
}

/// What a site says of a live run's places.
#[derive(PartialEq, Eq, Drop)]
pub struct Places {
    /// The addresses of the control centres that may connect, as they are written, if not all may.
    pub allow: Option<Vec<String>>,
    /// Where the state now is shown: `HOST:PORT`.
    pub status: Option<String>,
    /// The directory in which the state is kept.
    pub state: Option<String>,
}

/// What a live run is to do.
#[derive(Clone, Copy, PartialEq, Eq)]
pub struct Flags {
    /// It ends when its state can't be kept any more.
    pub state_or_stop: bool,
    /// It logs what happens.
    pub log: bool,
    /// Each line of that begins with how severe it is.
    pub log_severity: bool,
    /// It reaches the line again when that ends.
    pub redial: bool,
    /// It prints each event and each action.
    pub record: bool,
}

const STATE_OR_STOP: &Flag = &Flag {
    key: "state_or_stop",
    path: "state_or_stop",
};

const LOG: &Flag = &Flag {
    key: "log",
    path: "log",
};

const LOG_SEVERITY: &Flag = &Flag {
    key: "log_severity",
    path: "log_severity",
};

const REDIAL: &Flag = &Flag {
    key: "redial",
    path: "redial",
};

const RECORD: &Flag = &Flag {
    key: "record",
    path: "record",
};

impl Site {
    /// That of which nothing is said.
    pub fn empty(alloc: Global) -> Site
        ensures { site_of result ≡ empty_site }
    {
        Site {
            places: Places {
                allow: None,
                status: None,
                state: None,
            },
            flags: Flags {
                state_or_stop: false,
                log: false,
                log_severity: false,
                redial: false,
                record: false,
            },
            names: Names {
                line: None,
                stations: Vec::new(alloc),
            },
        }
    }
}

/// Reads the file of a site. The first fault is answered: octets that are no TOML document, then
/// the first key that is wrong, then the first key that isn't known; `NoMemory` can come at any
/// step.
#[tactic(auto, using(crate::proofs::SiteLemmas::read_text, crate::proofs::SiteLemmas::no_root))]
pub fn read_site(alloc: Global, text: &[u8]) -> Result<Site, SiteFault>
    ensures { IsSiteRead text.now result }
{
    match root_of(alloc, text) {
        Ok(root) => read_site_table(alloc, &root),
        Err(fault) => Err(fault),
    }
}

/// The document that octets are.
fn root_of(alloc: Global, text: &[u8]) -> Result<Table, SiteFault>
    ensures { MatchResult result (λ root. IsDocument text.now (table_view root))
        (IsRootFault text.now) }
{
    match toml::table_from_slice(alloc, text) {
        Ok(root) => Ok(root),
        Err(fault) if fault.is_memory() => Err(SiteFault::NoMemory),
        Err(_) => Err(SiteFault::NotToml),
    }
}

/// Reads each key in its order, and then looks for unknown ones.
pub(crate) fn read_site_table(alloc: Global, root: &Table) -> Result<Site, SiteFault>
    ensures { IsReadOf (table_view root.now) result }
{
    let site = read_known(alloc, root)?;
    match unknown_key(alloc, root)? {
        None => Ok(site),
        Some(path) => Err(SiteFault::Unknown(path)),
    }
}

/// Reads each key in its order.
#[tactic(auto, using(crate::proofs::SiteLemmas::wrong_before))]
fn read_known(alloc: Global, root: &Table) -> Result<Site, SiteFault>
    ensures { IsKnownOf (known_site (table_view root.now)) site_of result }
{
    let places = read_places(alloc, root)?;
    let flags = read_flags(root)?;
    let names = read_names(alloc, root)?;
    Ok(Site {
        places,
        flags,
        names,
    })
}

/// Reads what is said of places.
#[tactic(auto, using(crate::proofs::SiteLemmas::wrong_before))]
fn read_places(alloc: Global, root: &Table) -> Result<Places, SiteFault>
    ensures { IsKnownOf (known_places (table_view root.now)) places_of result }
{
    let allow = read_allow(alloc, given(Some(root), "allow"))?;
    let status = text(Some(root), "status", "status", TextForm::Address)?;
    let state = text(Some(root), "state", "state", TextForm::Directory)?;
    Ok(Places {
        allow,
        status: owned(alloc, status)?,
        state: owned(alloc, state)?,
    })
}

/// A text with memory of its own.
fn owned(alloc: Global, text: Option<&str>) -> Result<Option<String>, AllocError>
    ensures { IfOk result (λ s. option_map string_bytes s ≡ option_map (λ t. t.now) text.entry) }
{
    match text {
        Some(text) => Ok(Some(String::from_str(alloc, text)?)),
        None => Ok(None),
    }
}

/// Reads the list of addresses, which may be missing.
fn read_allow(alloc: Global, value: Option<&Value>) -> Result<Option<Vec<String>>, SiteFault>
    ensures { AreTexts (allow_of (option_map (λ v. view v.now) value.entry)) result }
{
    let Some(value) = value else {
        return Ok(None);
    };
    match value.as_array() {
        Some(items) => Ok(Some(read_texts(alloc, items.as_slice())?)),
        None => Err(SiteFault::Key("allow")),
    }
}

/// Reads the texts of a list, one after the other.
#[tactic(auto, using(crate::proofs::SiteLemmas::texts_from_wrong, crate::proofs::SiteLemmas::texts_from_end))]
fn read_texts(alloc: Global, items: &[Value]) -> Result<Vec<String>, SiteFault>
    ensures { IsKnownOf (texts_from [] (items_view items.now)) (λ v. map string_bytes v.items)
        result }
{
    let mut texts = Vec::new(alloc);
    for item in items {
        match item.as_str() {
            Some(text) => texts.push(String::from_str(alloc, text)?)?,
            None => return Err(SiteFault::Key("allow")),
        }
    }
    Ok(texts)
}

/// Reads what a run is to do.
fn read_flags(root: &Table) -> Result<Flags, WrongKey>
    ensures { seen result ≡ flags_of (table_view root.now) }
{
    let state_or_stop = STATE_OR_STOP.read(Some(root))?;
    let log = LOG.read(Some(root))?;
    let log_severity = LOG_SEVERITY.read(Some(root))?;
    let redial = REDIAL.read(Some(root))?;
    let record = RECORD.read(Some(root))?;
    Ok(Flags {
        state_or_stop,
        log,
        log_severity,
        redial,
        record,
    })
}

/// Reads the names.
#[tactic(auto, using(crate::proofs::SiteLemmas::wrong_before))]
fn read_names(alloc: Global, root: &Table) -> Result<Names, SiteFault>
    ensures { IsKnownOf (known_names (table_view root.now)) names_of result }
{
    let line = section(root, "line", "line.name")?;
    let line = text(line, "name", "line.name", TextForm::Name)?;
    let stations = read_stations(alloc, given(Some(root), "station"))?;
    Ok(Names {
        line: owned(alloc, line)?,
        stations,
    })
}
