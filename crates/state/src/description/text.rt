//! What a directory of a state has, in lines.
ghost use Rattle.std.specs.Prelude.{◌≡◌, ◌++◌, IfOk, OnOk, Some, false, option_map};
ghost use Rattle.std.specs.Prelude.{string_bytes};
ghost use Rattle.std.specs.Prelude.{true};
ghost use Rattle.state.specs.StateText as spec;

use super::changes::push_changes;
use super::dates::dates_of;
use super::notes::{note_of, note_of_damage, note_of_given_up, note_of_queue, note_of_settings};
use super::reports::push_reports;
use super::stations::push_stations;
use crate::given_up::GivenUp;
use crate::looking::{Seen, Sight, are_changed, settings_said};
use gateway::{Config, Gateway, StationSettings, Wall};
use runlog::{Note, Trouble};
use segments::Side;
use std::alloc::{AllocError, Global};

/// Appends the words of the log, if there is anything to say.
fn push_note(text: &mut String, note: Option<Note>) -> Result<(), AllocError>
    ensures { OnOk result (string_bytes text.new ≡ string_bytes text.old ++ spec.note_line note) }
{
    match note {
        Some(note) => writeln!(text, "{note}"),
        None => Ok(()),
    }
}

/// The note that says that a run has the directory, if one has.
fn held_note(is_held: bool) -> Option<Note>
    ensures { result ≡ spec.held_note is_held }
{
    if is_held {
        Some(Note::Trouble(Trouble::StateInUse))
    } else {
        None
    }
}

fn push_mark(text: &mut String, is_stale: bool) -> Result<(), AllocError>
    ensures { OnOk result (string_bytes text.new ≡ string_bytes text.old
        ++ spec.mark_line is_stale) }
{
    if is_stale {
        writeln!(text, "the directory is marked as stale")
    } else {
        Ok(())
    }
}

/// The name of a file in the directory.
fn file_name(side: Side) -> &'static str
    ensures { result.now ≡ spec.file_name side }
{
    match side {
        Side::Log => "segments-wal",
        Side::Db => "segments",
    }
}

fn push_number(text: &mut String, number: u64) -> Result<(), AllocError>
    ensures { OnOk result (string_bytes text.new ≡ string_bytes text.old
        ++ spec.segment_words number) }
{
    write!(text, "segment {number} in ")
}

fn push_events(text: &mut String, events: u64) -> Result<(), AllocError>
    ensures { OnOk result (string_bytes text.new ≡ string_bytes text.old
        ++ spec.events_words events) }
{
    writeln!(text, ", events behind its head: {events}")
}

fn push_segment(text: &mut String, seen: &Seen) -> Result<(), AllocError>
    ensures { OnOk result (string_bytes text.new ≡ string_bytes text.old
        ++ spec.segment_line seen.now) }
{
    push_number(text, seen.number)?;
    text.push_str(file_name(seen.side))?;
    push_events(text, seen.events)
}

/// Two numbers, each behind its words, to the end of a line.
fn push_both(
    text: &mut String,
    words: &str,
    number: u64,
    more: &str,
    other: u64,
) -> Result<(), AllocError>
    ensures { OnOk result (string_bytes text.new ≡ string_bytes text.old
        ++ spec.both words.now number more.now other) }
{
    text.push_str(words)?;
    write!(text, "{number}")?;
    text.push_str(more)?;
    writeln!(text, "{other}")
}

fn push_unread(text: &mut String, is_cut: bool, events: u64, lines: u64) -> Result<(), AllocError>
    ensures { OnOk result (string_bytes text.new ≡ string_bytes text.old
        ++ spec.unread_line is_cut events lines) }
{
    if is_cut {
        push_both(
            text,
            "lines there that can be read: ",
            events,
            " of ",
            lines,
        )
    } else {
        Ok(())
    }
}

fn push_wall(text: &mut String, wall: Option<Wall>) -> Result<(), AllocError>
    ensures { OnOk result (string_bytes text.new ≡ string_bytes text.old
        ++ spec.wall_words wall) }
{
    match wall {
        Some(wall) => push_both(
            text,
            ", wall clock in ms ",
            wall.number,
            " at moment ",
            wall.moment,
        ),
        None => writeln!(text, ", wall clock not told yet"),
    }
}

/// The moments of a gateway.
fn push_moments(text: &mut String, gateway: &Gateway) -> Result<(), AllocError>
    ensures { OnOk result (string_bytes text.new ≡ string_bytes text.old
        ++ spec.moments gateway.now) }
{
    let moment = gateway.moment();
    write!(text, "moment in ms {moment}")?;
    push_wall(text, gateway.last_wall())
}

/// A gateway, with the line of these dates behind its moments.
fn push_gateway(text: &mut String, gateway: &Gateway, dates: &str) -> Result<(), AllocError>
    ensures { OnOk result (string_bytes text.new ≡ string_bytes text.old
        ++ spec.gateway_lines dates.now gateway.now) }
{
    push_moments(text, gateway)?;
    text.push_str(dates)?;
    push_stations(text, gateway.line())
}

/// A line for each of what a start would give up.
fn push_given_up(text: &mut String, given_up: &[GivenUp]) -> Result<(), AllocError>
    ensures { OnOk result (string_bytes text.new ≡ string_bytes text.old
        ++ spec.given_up_lines given_up.now) }
{
    let mut left = given_up;
    while let [first, more @ ..] = left {
        push_note(text, Some(note_of_given_up(first)))?;
        left = more;
    }
    Ok(())
}

/// The gateway, and what a start would give up of the connection.
fn push_standing(text: &mut String, seen: &Seen, dates: &str) -> Result<(), AllocError>
    ensures { OnOk result (string_bytes text.new ≡ string_bytes text.old
        ++ spec.standing_lines dates.now seen.now) }
{
    push_gateway(text, &seen.gateway, dates)?;
    push_given_up(text, &seen.given_up)
}

/// What a run that goes on with a log would report.
fn push_notes(text: &mut String, seen: &Seen, is_moved: bool) -> Result<(), AllocError>
    ensures { OnOk result (string_bytes text.new ≡ string_bytes text.old
        ++ spec.notes_lines is_moved seen.now) }
{
    push_note(text, note_of_settings(is_moved))?;
    push_note(text, Some(note_of_queue(&seen.gateway)))
}

/// Where a log stands, and how far it can be read.
fn push_place(text: &mut String, seen: &Seen) -> Result<(), AllocError>
    ensures { OnOk result (string_bytes text.new ≡ string_bytes text.old
        ++ spec.place_lines seen.now) }
{
    push_segment(text, seen)?;
    push_unread(text, seen.events < seen.lines, seen.events, seen.lines)?;
    push_note(text, note_of_damage(seen.damage))
}

/// The pieces that are queued, if they are wanted, with the stations of these settings.
fn push_wanted(
    alloc: Global,
    text: &mut String,
    are_wanted: bool,
    stations: &[StationSettings],
    gateway: &Gateway,
) -> Result<(), AllocError>
    ensures { OnOk result (string_bytes text.new ≡ string_bytes text.old
        ++ spec.reports_of are_wanted stations.now gateway.now) }
{
    if are_wanted {
        push_reports(alloc, text, stations, gateway)
    } else {
        Ok(())
    }
}

/// What stands before the settings that were kept: what is queued, and the settings that differ.
fn push_compared(
    alloc: Global,
    text: &mut String,
    are_wanted: bool,
    kept: &Option<Config>,
    now: &Option<Config>,
    gateway: &Gateway,
) -> Result<(), AllocError>
    ensures { OnOk result (string_bytes text.new ≡ string_bytes text.old
        ++ spec.compared_lines are_wanted kept.now now.now gateway.now) }
{
    match (kept, now) {
        (Some(kept), Some(now)) => {
            push_wanted(alloc, text, are_wanted, kept.stations(), gateway)?;
            push_changes(text, kept, now)
        }
        (Some(kept), None) => push_wanted(alloc, text, are_wanted, kept.stations(), gateway),
        (None, _) => push_wanted(alloc, text, are_wanted, &[], gateway),
    }
}

/// The settings that a text says, if it says any.
fn said_by(alloc: Global, text: &[u8]) -> Result<Option<Config>, AllocError>
    ensures { IfOk result (spec.IsSaidBy text.now) }
{
    settings_said(alloc, text)
}

/// The settings that are given, if any are.
fn settings_given(alloc: Global, given: Option<&[u8]>) -> Result<Option<Config>, AllocError>
    ensures { IfOk result (spec.AreGiven (option_map (λ t. t.now) given.entry)) }
{
    match given {
        Some(text) => said_by(alloc, text),
        None => Ok(None),
    }
}

/// What is told beside the log of a state, as a text.
fn compared(
    alloc: Global,
    are_wanted: bool,
    given: Option<&[u8]>,
    seen: &Seen,
) -> Result<String, AllocError>
    ensures { IfOk result (λ text. spec.IsCompared are_wanted
        (option_map (λ t. t.now) given.entry) seen.now (string_bytes text)) }
{
    let kept = said_by(alloc, &seen.settings)?;
    let now = settings_given(alloc, given)?;
    let mut text = String::new(alloc);
    push_compared(alloc, &mut text, are_wanted, &kept, &now, &seen.gateway)?;
    Ok(text)
}

/// What a log that counts has, with these dates.
fn push_found(text: &mut String, seen: &Seen, is_moved: bool, dates: &str) -> Result<(), AllocError>
    ensures { OnOk result (string_bytes text.new ≡ string_bytes text.old
        ++ spec.found_lines is_moved dates.now seen.now) }
{
    push_notes(text, seen, is_moved)?;
    push_place(text, seen)?;
    push_standing(text, seen, dates)
}

/// What stands between that and the settings: this text.
fn push_end(text: &mut String, compared: &str) -> Result<(), AllocError>
    ensures { OnOk result (string_bytes text.new ≡ string_bytes text.old
        ++ spec.end_lines compared.now) }
{
    text.push_str(compared)?;
    text.push_str("kept under these settings:\n")
}

/// The lines of a log that counts, before the settings, with these dates and with this text.
fn push_seen(
    text: &mut String,
    seen: &Seen,
    is_moved: bool,
    dates: &str,
    compared: &str,
) -> Result<(), AllocError>
    ensures { OnOk result (string_bytes text.new ≡ string_bytes text.old
        ++ spec.shown_log is_moved dates.now compared.now seen.now) }
{
    push_found(text, seen, is_moved, dates)?;
    push_end(text, compared)
}

/// The lines before those of a log.
fn push_beginning(
    text: &mut String,
    is_held: bool,
    is_stale: bool,
    sight: &Sight,
) -> Result<(), AllocError>
    ensures { OnOk result (string_bytes text.new ≡ string_bytes text.old
        ++ spec.beginning_lines is_held is_stale sight.now.beginning) }
{
    push_note(text, held_note(is_held))?;
    push_mark(text, is_stale)?;
    push_note(text, note_of(sight.beginning))
}

/// Whether the log was kept under other settings than these, if any are given.
fn is_moved(alloc: Global, given: Option<&[u8]>, seen: &Seen) -> Result<bool, AllocError>
    ensures { IfOk result (spec.IsMovedFrom (option_map (λ t. t.now) given.entry)
        (Some seen.now)) }
{
    match given {
        Some(text) => are_changed(alloc, &seen.settings, text),
        None => Ok(false),
    }
}

/// The lines for who looks at a directory in which this was found, with whether a run has it,
/// whether it is marked as stale, whether what is queued is wanted, and the file of settings that a
/// run is to have, if one is given. Only want of memory is answered by an `Err`.
pub fn describe_state(
    alloc: Global,
    is_held: bool,
    is_stale: bool,
    are_wanted: bool,
    given: Option<&[u8]>,
    sight: &Sight,
) -> Result<Vec<u8>, AllocError>
    ensures { IfOk result (λ text. spec.IsStateText is_held is_stale are_wanted
        (option_map (λ t. t.now) given.entry) sight.now text.items) }
{
    let mut text = String::new(alloc);
    push_beginning(&mut text, is_held, is_stale, sight)?;
    match &sight.seen {
        Some(seen) => {
            let is_moved = is_moved(alloc, given, seen)?;
            let dates = dates_of(alloc, &seen.gateway)?;
            let compared = compared(alloc, are_wanted, given, seen)?;
            push_seen(&mut text, seen, is_moved, &dates, &compared)?;
            let mut lines = text.into_bytes();
            lines.extend_from_slice(&seen.settings)?;
            Ok(lines)
        }
        None => Ok(text.into_bytes()),
    }
}
