//! Which station a fault means.
ghost use Rattle.std.specs.Prelude.{◌<◌, length};

use crate::keys::given;
use toml::{Table, Value};

/// What stands before the key of a station in its dotted path.
const STATION: &str = "station.";

/// The first station that has the key with this path, counted from 0.
pub(crate) fn station_with(root: &Table, path: &str) -> Option<usize> {
    let key = path.strip_prefix(STATION)?;
    first_with(stations(root), key)
}

/// The first station before this one with the same number under this key.
pub(crate) fn twin_station(root: &Table, item: usize, key: &str) -> Option<usize> {
    let stations = stations(root);
    if item < stations.len() {
        twin(stations, item, key)
    } else {
        None
    }
}

/// The stations of a document.
pub(crate) fn stations(root: &Table) -> &[Value] {
    let Some(value) = given(Some(root), "station") else {
        return &[];
    };
    match value.as_array() {
        Some(stations) => stations.as_slice(),
        None => &[],
    }
}

/// The first of these stations that has this key.
fn first_with(stations: &[Value], key: &str) -> Option<usize> {
    for place in 0..stations.len() {
        if has_key(&stations[place], key) {
            return Some(place);
        }
    }
    None
}

fn has_key(station: &Value, key: &str) -> bool {
    station.get(key).is_some()
}

fn number(table: &Value, key: &str) -> Option<i64> {
    match table.get(key) {
        Some(value) => value.as_integer(),
        None => None,
    }
}

/// The first station before this one with the same number under this key.
fn twin(stations: &[Value], item: usize, key: &str) -> Option<usize>
    requires { item < length stations.now }
{
    for other in 0..item {
        if are_same(&stations[item], &stations[other], key) {
            return Some(other);
        }
    }
    None
}

/// Whether one of these stations has this number under this key.
pub(crate) fn has_number(stations: &[Value], wanted: i64, key: &str) -> bool {
    stations
        .iter()
        .any(|station| number(station, key) == Some(wanted))
}

/// Whether both stations have the same number under this key.
fn are_same(one: &Value, other: &Value, key: &str) -> bool {
    match (number(one, key), number(other, key)) {
        (Some(own), Some(number)) => own == number,
        _ => false,
    }
}
