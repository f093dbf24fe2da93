//! How the links to the stations stand, in words.
ghost use Rattle.std.specs.Prelude.{◌≡◌, ◌++◌, ◌<◌, OnOk, false, length, option_map, string_bytes};
ghost use Rattle.link.specs.Procedure.{after_silence};
ghost use Rattle.link.specs.declared.settings.LinkSettings.{LinkSettings as Chosen};
ghost use Rattle.state.specs.StationLines as spec;

use link::{Asked, Link, Master, Service, StationState};
use std::alloc::AllocError;

/// What is said of a service without an answer.
fn unanswered_words(service: &Service) -> &'static str
    ensures { result.now ≡ spec.unanswered_words service.now }
{
    match service {
        Service::Class1 => ", poll of class 1 without an answer",
        Service::Class2 => ", poll of class 2 without an answer",
        Service::Command(_) => ", command without an answer",
    }
}

/// What is said of a link that is up.
fn up_words(fcb: bool) -> &'static str
    ensures { result.now ≡ spec.up_words fcb }
{
    if fcb {
        " up, frame count bit 1"
    } else {
        " up, frame count bit 0"
    }
}

fn push_held(text: &mut String, fcb: bool, service: &Service) -> Result<(), AllocError>
    ensures { OnOk result (string_bytes text.new ≡ string_bytes text.old
        ++ spec.held_words fcb service.now) }
{
    text.push_str(up_words(fcb))?;
    text.push_str(unanswered_words(service))
}

fn push_link(text: &mut String, link: &Link) -> Result<(), AllocError>
    ensures { OnOk result (string_bytes text.new ≡ string_bytes text.old
        ++ spec.link_words link.now) }
{
    match link {
        Link::Down => text.push_str(" down"),
        Link::Available => text.push_str(" down, its status is known"),
        Link::Next(fcb) => text.push_str(up_words(*fcb)),
        Link::Held(fcb, service, _) => push_held(text, *fcb, service),
    }
}

/// The link as this request leaves it, to which no answer came so far. A station that holds a
/// service may be asked for its status behind a restart, and is up then.
fn push_asked(text: &mut String, asked: &Asked, link: &Link) -> Result<(), AllocError>
    ensures { OnOk result ((settings : Chosen) → string_bytes text.new ≡ string_bytes text.old
        ++ spec.link_words (after_silence settings asked.now false link.now)) }
{
    match (asked, link) {
        (Asked::Status, Link::Held(fcb, service, _)) | (Asked::Counted(fcb, service), _) => {
            push_held(text, *fcb, service)
        }
        (Asked::Status | Asked::Reset, _) => text.push_str(" down"),
    }
}

/// The request to this station whose answer is awaited.
fn awaited_at(line: &Master, station: usize) -> Option<&Asked>
    ensures { option_map (λ a. a.now) result ≡ spec.awaited_at line.now station }
{
    if line.turn() == station {
        line.awaited()
    } else {
        None
    }
}

/// The link as it stands.
fn push_left(
    text: &mut String,
    line: &Master,
    station: usize,
    link: &Link,
) -> Result<(), AllocError>
    ensures { OnOk result (string_bytes text.new ≡ string_bytes text.old ++ spec.link_words
        (spec.left_by line.now.settings (spec.awaited_at line.now station) link.now)) }
{
    match awaited_at(line, station) {
        Some(asked) => push_asked(text, asked, link),
        None => push_link(text, link),
    }
}

/// What a start makes of the latest service.
fn given_up_words(awaits_command: bool) -> &'static str
    ensures { result.now ≡ spec.given_up_words awaits_command }
{
    if awaits_command {
        ", given up at a start"
    } else {
        ""
    }
}

/// What a reset of the link would lose.
fn gap_words(has_gap: bool) -> &'static str
    ensures { result.now ≡ spec.gap_words has_gap }
{
    if has_gap { ", gap if it is reset" } else { "" }
}

/// The rest of a station's line, behind its link.
fn push_rest(
    text: &mut String,
    given_up: bool,
    number: u64,
    has_gap: bool,
) -> Result<(), AllocError>
    ensures { OnOk result (string_bytes text.new ≡ string_bytes text.old
        ++ spec.rest_of_line given_up number has_gap) }
{
    text.push_str(given_up_words(given_up))?;
    write!(text, ", session {number}")?;
    let gap = gap_words(has_gap);
    writeln!(text, "{gap}")
}

fn push_station(
    text: &mut String,
    line: &Master,
    station: usize,
    state: &StationState,
) -> Result<(), AllocError>
    requires { station < length line.now.stations }
    ensures { OnOk result (string_bytes text.new ≡ string_bytes text.old
        ++ spec.station_line line.now station state.now) }
{
    let address = state.address;
    write!(text, "station {address}")?;
    push_left(text, line, station, &state.link)?;
    push_rest(
        text,
        line.awaits_command(station),
        state.session.number,
        state.session.has_gap,
    )
}

/// Appends a line for each station.
pub(crate) fn push_stations(text: &mut String, line: &Master) -> Result<(), AllocError>
    ensures { OnOk result (string_bytes text.new ≡ string_bytes text.old
        ++ spec.station_lines line.now 0 line.now.stations) }
{
    let mut left = line.stations();
    let mut station = 0;
    while let [state, more @ ..] = left {
        push_station(text, line, station, state)?;
        left = more;
        station += 1;
    }
    Ok(())
}
