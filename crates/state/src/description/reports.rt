//! What is queued for the control centre, in words.
ghost use Rattle.std.specs.Prelude.{◌≡◌, ◌++◌, OnOk, string_bytes};
ghost use Rattle.std.specs.List.{flat_map};
ghost use Rattle.events.specs.Queue.{kept};
ghost use Rattle.state.specs.QueuedReports as spec;

use asdu::{Sizes, head};
use gateway::{Gateway, StationSettings};
use std::alloc::{AllocError, Global};
use words::push_data;

/// The station with this common address, if the settings have it.
fn station_of(ca: u16, stations: &[StationSettings]) -> Option<u16>
    ensures { result ≡ spec.station_of ca stations.now }
{
    let mut left = stations;
    while let [station, more @ ..] = left {
        if station.ca == ca {
            return Some(station.address);
        }
        left = more;
    }
    None
}

/// Names the station whose common address a piece has.
fn push_station(
    text: &mut String,
    stations: &[StationSettings],
    piece: &[u8],
) -> Result<(), AllocError>
    ensures { OnOk result (string_bytes text.new ≡ string_bytes text.old
        ++ spec.station_words stations.now piece.now) }
{
    let Some(head) = head(Sizes::TCP, piece) else {
        return Ok(());
    };
    match station_of(head.ca, stations) {
        Some(address) => write!(text, " of station {address}"),
        None => Ok(()),
    }
}

/// A line for a piece.
fn push_piece(
    alloc: Global,
    text: &mut String,
    stations: &[StationSettings],
    piece: &[u8],
) -> Result<(), AllocError>
    ensures { OnOk result (string_bytes text.new ≡ string_bytes text.old
        ++ spec.report_line stations.now piece.now) }
{
    text.push_str("queued")?;
    push_station(text, stations, piece)?;
    let _condition = push_data(alloc, text, Sizes::TCP, piece)?;
    text.push_str("\n")
}

/// A line for each piece that no connection has acknowledged, oldest first.
pub(crate) fn push_reports(
    alloc: Global,
    text: &mut String,
    stations: &[StationSettings],
    gateway: &Gateway,
) -> Result<(), AllocError>
    ensures { OnOk result (string_bytes text.new ≡ string_bytes text.old
        ++ spec.report_lines stations.now (kept gateway.now.centre.queue)) }
{
    for piece in gateway.kept() {
        push_piece(alloc, text, stations, piece)?;
    }
    Ok(())
}
