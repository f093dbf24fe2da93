//! The list of stations.
ghost use Rattle.std.specs.List.{list_any};
ghost use Rattle.std.specs.Prelude.{◌==◌, ◌≡◌, ◌≤◌, false, [], length, None, Some, IfOk};
ghost use Rattle.std.specs.Prelude.{option_map};
ghost use Rattle.toml.specs.View.{view, items_view, table_view};
ghost use Rattle.settings.specs.Faults.{seen};
ghost use Rattle.settings.specs.Keys.{row, whole_of};
ghost use Rattle.gateway.specs.Config.{AreStations};
ghost use Rattle.gateway.specs.Settings.{IsLinkAddress, IsCommonAddress};
ghost use Rattle.settings.specs.Stations.{greatest_address, greatest_ca, address_of, ca_of};
ghost use Rattle.settings.specs.Stations.{distinct_number, station_of, stations_from, stations_of};
ghost use Rattle.settings.specs.Stations.{IsAsExpected, IsNext};

use crate::ConfigFault;
use crate::fault::WrongKey;
use crate::keys::{Flag, Whole};
use asdu::CaSize;
use ft12::LinkSize;
use gateway::StationSettings;
use std::alloc::{AllocError, Global};
use toml::{Table, Value};

const SELECT: &Flag = &Flag {
    key: "select",
    path: "station.select",
};

/// How many stations a line has at most.
const MOST_STATIONS: usize = 32;

/// The greatest link address: the broadcast address is none.
fn greatest_link_address(size: LinkSize) -> u16
    ensures value { result ≡ greatest_address size }
    ensures range { result ≤ 65534 }
{
    match size {
        LinkSize::One => 254,
        LinkSize::Two => 65534,
    }
}

/// The greatest common address: the global address is none.
fn greatest_common_address(size: CaSize) -> u16
    ensures value { result ≡ greatest_ca size }
    ensures range { result ≤ 65534 }
{
    match size {
        CaSize::One => 254,
        CaSize::Two => 65534,
    }
}

/// Reads the array of stations.
#[tactic(auto, using(crate::proofs::StationLemmas::count_of_view))]
pub(crate) fn read_stations(
    alloc: Global,
    value: Option<&Value>,
    link: LinkSize,
    ca: CaSize,
) -> Result<Vec<StationSettings>, ConfigFault>
    ensures value { IsAsExpected
        (stations_of link ca (option_map (λ v. view v.now) value.entry)) result }
    ensures limits { IfOk result (λ stations. AreStations link ca stations.items) }
{
    let Some(value) = value else {
        return Err(ConfigFault::Key("station"));
    };
    let Some(tables) = value.as_array() else {
        return Err(ConfigFault::Key("station"));
    };
    // Looked at before memory is asked for: a file can name any number of them.
    if tables.is_empty() || tables.len() > MOST_STATIONS {
        return Err(ConfigFault::Key("station"));
    }
    read_each(alloc, tables.as_slice(), link, ca)
}

/// Reads the stations, one after the other.
#[tactic(auto, using(crate::proofs::StationLemmas::stations_from_wrong, crate::proofs::StationLemmas::stations_from_end, crate::proofs::StationLemmas::none_good))]
fn read_each(
    alloc: Global,
    tables: &[Value],
    link: LinkSize,
    ca: CaSize,
) -> Result<Vec<StationSettings>, ConfigFault>
    requires some { 1 ≤ length tables.now }
    requires most { length tables.now ≤ 32 }
    ensures value { IsAsExpected (stations_from link ca [] (items_view tables.now)) result }
    ensures limits { IfOk result (λ stations. AreStations link ca stations.items) }
{
    let mut stations = Vec::with_capacity(alloc, tables.len())?;
    for table in tables {
        // Each is compared with those before it, so the fault is at the second of two alike.
        let station = read_station(table, link, ca, stations.as_slice())?;
        stations.push(station)?;
    }
    Ok(stations)
}

/// Which station is the first that is wrong, counted from 0, if one is.
pub(crate) fn first_wrong(
    alloc: Global,
    value: Option<&Value>,
    link: LinkSize,
    ca: CaSize,
) -> Result<Option<usize>, AllocError> {
    let Some(value) = value else {
        return Ok(None);
    };
    match value.as_array() {
        Some(tables) => first_of(alloc, tables.as_slice(), link, ca),
        None => Ok(None),
    }
}

/// Which of these is the first that is wrong.
fn first_of(
    alloc: Global,
    tables: &[Value],
    link: LinkSize,
    ca: CaSize,
) -> Result<Option<usize>, AllocError> {
    let mut stations = Vec::new(alloc);
    for (item, table) in tables.iter().enumerate() {
        match read_station(table, link, ca, stations.as_slice()) {
            Ok(station) => stations.push(station)?,
            Err(_) => return Ok(Some(item)),
        }
    }
    Ok(None)
}

fn has_address(stations: &[StationSettings], address: u16) -> bool
    ensures { result ≡ list_any (λ s. s.address == address) stations.now }
{
    stations.iter().any(|station| station.address == address)
}

fn has_common_address(stations: &[StationSettings], ca: u16) -> bool
    ensures { result ≡ list_any (λ s. s.ca == ca) stations.now }
{
    stations.iter().any(|station| station.ca == ca)
}

/// The number, if no other station has it.
fn distinct(n: u16, taken: bool, path: &'static str) -> Result<u16, WrongKey>
    ensures value { seen result ≡ distinct_number n taken path.entry.now }
    ensures same { IfOk result (λ m. m ≡ n) }
    ensures free { IfOk result (λ _. taken ≡ false) }
{
    if taken {
        return Err(WrongKey { path });
    }
    Ok(n)
}

/// Reads one station; `others` are those before it.
fn read_station(
    value: &Value,
    link: LinkSize,
    ca: CaSize,
    others: &[StationSettings],
) -> Result<StationSettings, WrongKey>
    ensures value { seen result ≡ station_of link ca others.now (view value.now) }
    ensures next { IfOk result (IsNext link ca others.now) }
{
    let Some(table) = value.as_table() else {
        return Err(WrongKey {
            path: "station.address",
        });
    };
    let address = read_address(table, link, others)?;
    let ca = read_common_address(table, ca, others)?;
    let select = SELECT.read(Some(table))?;
    Ok(StationSettings {
        address,
        ca,
        select,
    })
}

/// A link address that none of the others has.
fn read_address(table: &Table, size: LinkSize, others: &[StationSettings]) -> Result<u16, WrongKey>
    ensures value { seen result ≡ address_of size others.now (table_view table.now) }
    ensures range { IfOk result (IsLinkAddress size) }
    ensures new { IfOk result (λ a. list_any (λ s. s.address == a) others.now ≡ false) }
{
    let address = number_to(
        table,
        "address",
        "station.address",
        greatest_link_address(size),
    )?;
    distinct(address, has_address(others, address), "station.address")
}

/// A common address that none of the others has.
fn read_common_address(
    table: &Table,
    size: CaSize,
    others: &[StationSettings],
) -> Result<u16, WrongKey>
    ensures value { seen result ≡ ca_of size others.now (table_view table.now) }
    ensures range { IfOk result (IsCommonAddress size) }
    ensures new { IfOk result (λ c. list_any (λ s. s.ca == c) others.now ≡ false) }
{
    let ca = number_to(table, "ca", "station.ca", greatest_common_address(size))?;
    distinct(ca, has_common_address(others, ca), "station.ca")
}

/// A number from 1 to `high`, which has to be there.
fn number_to(
    table: &Table,
    key: &'static str,
    path: &'static str,
    high: u16,
) -> Result<u16, WrongKey>
    ensures value { seen result
        ≡ whole_of (row key.entry.now path.entry.now 1 high None) (Some (table_view table.now)) }
    ensures range { IfOk result (λ n. (1 ≤ n) × (n ≤ high)) }
{
    let row = Whole {
        key,
        path,
        low: 1,
        high: u32::from(high),
        default: None,
    };
    Ok(row.read(Some(table))? as u16)
}
