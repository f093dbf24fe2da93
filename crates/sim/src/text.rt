//! The closing lines of a run.
ghost use Rattle.std.specs.Prelude.{◌≡◌, ◌+◌, ◌++◌, ◌<◌, ◌^◌, IfOk, OnOk, string_bytes, count_by};
ghost use Rattle.sim.specs.Texts.{reports_for, line_of_station, station_lines, connection_line};
ghost use Rattle.sim.specs.Texts.{connection_lines};
ghost use Rattle.sim.specs.Texts.{line_of_sessions, session_lines, closing_lines};

use crate::directive::Directive;
use crate::tally::StationTally;
use link::Station;
use std::alloc::{AllocError, Global};

/// How many reports the script gives the station with this index.
fn reports(directives: &[Directive], index: usize) -> usize
    ensures { result ≡ count_by (reports_for index) directives.now }
{
    directives
        .iter()
        .filter(|directive| directive.reports_for(index))
        .count()
}

/// Appends the closing line of the station with this index.
fn push_station(
    lines: &mut String,
    directives: &[Directive],
    index: usize,
    station: &Station,
) -> Result<(), AllocError>
    requires { index + 1 < 2 ^ 64 }
    ensures { OnOk result (string_bytes lines.new ≡ string_bytes lines.old
        ++ line_of_station directives.now index station.now) }
{
    let number = index + 1;
    let reports = reports(directives, index);
    let given = station.given();
    let accepted = station.accepted().len();
    writeln!(
        lines,
        "station {number} reports {reports} given {given} accepted {accepted}"
    )
}

#[tactic(auto, using(crate::proofs::TextLemmas::station_more, crate::proofs::TextLemmas::station_end))]
/// Appends the closing lines of the stations.
fn push_stations(
    lines: &mut String,
    directives: &[Directive],
    stations: &[Station],
) -> Result<(), AllocError>
    ensures { OnOk result (string_bytes lines.new ≡ string_bytes lines.old
        ++ station_lines directives.now 0 stations.now) }
{
    for (index, station) in stations.iter().enumerate() {
        push_station(lines, directives, index, station)?;
    }
    Ok(())
}

/// Appends the closing line of the connection with this index.
fn push_connection(lines: &mut String, index: usize, count: u64) -> Result<(), AllocError>
    requires { index + 1 < 2 ^ 64 }
    ensures { OnOk result (string_bytes lines.new ≡ string_bytes lines.old
        ++ connection_line (index + 1) count) }
{
    let number = index + 1;
    writeln!(lines, "connection {number} objects {count}")
}

/// Appends the closing lines of the connections, of which so much is counted.
#[tactic(auto, using(crate::proofs::TextLemmas::connection_more, crate::proofs::TextLemmas::connection_end))]
fn push_connections(lines: &mut String, counts: &[u64]) -> Result<(), AllocError>
    ensures { OnOk result (string_bytes lines.new ≡ string_bytes lines.old
        ++ connection_lines 1 counts.now) }
{
    for (index, count) in counts.iter().enumerate() {
        push_connection(lines, index, *count)?;
    }
    Ok(())
}

/// Appends the closing line of the sessions of the station with this index, if there was more than
/// one.
fn push_tally(lines: &mut String, index: usize, tally: StationTally) -> Result<(), AllocError>
    requires { index + 1 < 2 ^ 64 }
    ensures { OnOk result (string_bytes lines.new ≡ string_bytes lines.old
        ++ line_of_sessions index tally) }
{
    if tally.sessions <= 1 {
        return Ok(());
    }
    let number = index + 1;
    let sessions = tally.sessions;
    let gaps = tally.gaps;
    let lost = tally.lost;
    writeln!(
        lines,
        "sessions {number} {sessions} gaps {gaps} lost {lost}"
    )
}

#[tactic(auto, using(crate::proofs::TextLemmas::session_more, crate::proofs::TextLemmas::session_end))]
/// Appends the closing lines of sessions.
fn push_tallies(lines: &mut String, tallies: &[StationTally]) -> Result<(), AllocError>
    ensures { OnOk result (string_bytes lines.new ≡ string_bytes lines.old
        ++ session_lines 0 tallies.now) }
{
    for (index, tally) in tallies.iter().enumerate() {
        push_tally(lines, index, *tally)?;
    }
    Ok(())
}

/// The closing lines of a run: one for each station, one for each connection, and one for each
/// station whose link had more than one session.
pub(crate) fn closing_lines(
    alloc: Global,
    directives: &[Directive],
    stations: &[Station],
    counts: &[u64],
    tallies: &[StationTally],
) -> Result<String, AllocError>
    ensures { IfOk result (λ text. string_bytes text
        ≡ closing_lines directives.now stations.now (connection_lines 1 counts.now) tallies.now) }
{
    let mut lines = String::new(alloc);
    push_stations(&mut lines, directives, stations)?;
    push_connections(&mut lines, counts)?;
    push_tallies(&mut lines, tallies)?;
    Ok(lines)
}
