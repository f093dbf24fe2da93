//! The names of a line and of its stations.
ghost use Rattle.std.specs.List.{find, list_any};
ghost use Rattle.std.specs.Prelude.{◌==◌, ◌≡◌, [], map, option_map, string_bytes};
ghost use Rattle.toml.specs.View.{view, items_view, table_view};
ghost use Rattle.settings.specs.Faults.{seen, seen_by};
ghost use Rattle.settings.specs.SiteNames.{AreStations, IsNamed, link_of, name_of, named, named_of};
ghost use Rattle.settings.specs.SiteNames.{stations_from, stations_of};

use crate::fault::WrongKey;
use crate::keys::{Whole, given};
use crate::site::fault::SiteFault;
use crate::site::keys::{TextForm, text};
use std::alloc::{AllocError, Global};
use toml::{Table, Value};

/// The names that a site gives.
#[derive(PartialEq, Eq, Drop)]
pub struct Names {
    /// The line's, if it has one.
    pub line: Option<String>,
    /// Those of its stations, in the order of the file. No two have one link address.
    pub stations: Vec<StationName>,
}

/// The name of the station with this link address: 1 to 40 characters.
#[derive(PartialEq, Eq, Drop)]
pub struct StationName {
    pub link: u16,
    pub name: String,
}

impl Names {
    /// The name of the station with this link address, if it has one.
    pub fn station(&self, link: u16) -> Option<&str>
        ensures { option_map (λ s. s.now) result ≡ option_map (λ s. string_bytes s.name)
            (find (λ s. s.link == link) self.now.stations.items) }
    {
        match self.stations.iter().find(|station| station.link == link) {
            Some(station) => Some(station.name.as_str()),
            None => None,
        }
    }
}

const LINK: &Whole = &Whole {
    key: "link",
    path: "station.link",
    low: 1,
    high: 65534,
    default: None,
};

/// Reads the names of stations, which may be missing.
pub(crate) fn read_stations(
    alloc: Global,
    value: Option<&Value>,
) -> Result<Vec<StationName>, SiteFault>
    ensures { AreStations (stations_of (option_map (λ v. view v.now) value.entry)) result }
{
    let Some(value) = value else {
        return Ok(Vec::new(alloc));
    };
    match value.as_array() {
        Some(tables) => read_each(alloc, tables.as_slice()),
        None => Err(SiteFault::Key("station")),
    }
}

/// Which station of a file is the first that is wrong, counted from 0, if one is.
pub fn wrong_station(alloc: Global, root: &Table) -> Result<Option<usize>, AllocError> {
    let Some(value) = given(Some(root), "station") else {
        return Ok(None);
    };
    match value.as_array() {
        Some(tables) => first_wrong(alloc, tables.as_slice()),
        None => Ok(None),
    }
}

/// Which of these is the first that is wrong.
fn first_wrong(alloc: Global, tables: &[Value]) -> Result<Option<usize>, AllocError> {
    let mut stations = Vec::new(alloc);
    for (item, table) in tables.iter().enumerate() {
        match read_station(alloc, table, stations.as_slice()) {
            Ok(station) => stations.push(station)?,
            Err(SiteFault::Key(_)) => return Ok(Some(item)),
            // A station can only be wrong, or memory be refused.
            Err(_) => return Err(AllocError),
        }
    }
    Ok(None)
}

/// Reads the names, one after the other.
#[tactic(auto, using(crate::proofs::SiteNameLemmas::stations_from_wrong, crate::proofs::SiteNameLemmas::stations_from_end))]
fn read_each(alloc: Global, tables: &[Value]) -> Result<Vec<StationName>, SiteFault>
    ensures { AreStations (stations_from [] (items_view tables.now)) result }
{
    let mut stations = Vec::new(alloc);
    for table in tables {
        let station = read_station(alloc, table, stations.as_slice())?;
        stations.push(station)?;
    }
    Ok(stations)
}

/// Reads the name of one station; `others` are those before it.
fn read_station(
    alloc: Global,
    value: &Value,
    others: &[StationName],
) -> Result<StationName, SiteFault>
    ensures { IsNamed (named_of (map named others.now) (view value.now)) result }
{
    let Some(table) = value.as_table() else {
        return Err(SiteFault::Key("station.link"));
    };
    let link = read_link(table, others)?;
    let name = read_name(table)?;
    Ok(StationName {
        link,
        name: String::from_str(alloc, name)?,
    })
}

/// A link address that none of the others has.
#[tactic(auto, using(crate::proofs::SiteNameLemmas::any_named))]
fn read_link(table: &Table, others: &[StationName]) -> Result<u16, WrongKey>
    ensures { seen result ≡ link_of (map named others.now) (table_view table.now) }
{
    let link = LINK.read(Some(table))? as u16;
    if has_link(others, link) {
        return Err(WrongKey {
            path: "station.link",
        });
    }
    Ok(link)
}

fn has_link(stations: &[StationName], link: u16) -> bool
    ensures { result ≡ list_any (λ s. s.link == link) stations.now }
{
    stations.iter().any(|station| station.link == link)
}

/// The name, which has to be there.
fn read_name(table: &Table) -> Result<&str, WrongKey>
    ensures { seen_by (λ s. s.now) result ≡ name_of (table_view table.now) }
{
    match text(Some(table), "name", "station.name", TextForm::Name)? {
        Some(name) => Ok(name),
        None => Err(WrongKey {
            path: "station.name",
        }),
    }
}
