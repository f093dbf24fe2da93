//! Lists of what is kept: waiting commands, lines and selections.
ghost use Rattle.std.specs.Prelude.{◌≡◌, ◌≤◌, ◌<◌, ◌+◌, ◌++◌, [], ◌∷◌, length, map, remove, get_or};
ghost use Rattle.std.specs.Prelude.{count_by, slice_index, slice_index_or, IfOk, IfSome, IfNone};
ghost use Rattle.std.specs.Prelude.{Some, None, option_map, vec_len, vec_capacity};
ghost use Rattle.std.specs.List.{filter_map, list_any};
ghost use Rattle.arrayvec.specs.ArrayVec.{array_vec_len};
ghost use Rattle.command.specs.Command.{command_len, command_at};
ghost use Rattle.command.specs.Selection.{heeds, advanced as next_of};
ghost use Rattle.command.specs.Stations.{is_addressed, station_number as number_of};
ghost use Rattle.command.specs.State.{cut_off, free_line, oldest, without_oldest, is_used};
ghost use Rattle.command.specs.State.{refusal_of};
ghost use Rattle.command.specs.Judging.{copies, waiting_count};
ghost use Rattle.command.specs.declared.waiting.Waiting.{Waiting};
ghost use Rattle.command.specs.declared.waiting.Line.TheVariants.{Free};
ghost use Rattle.command.specs.declared.selection.Sign.TheVariants.{Over as OverSign};

use crate::act::OwnAnswer;
use crate::commands::NoMemory;
use crate::content::{Target, read_command, refuse, write_command};
use crate::judging::{is_for, negative_cause};
use crate::selection::{Selection, Sign};
use crate::station::StationInfo;
use crate::waiting::{CommandAsdu, Line, LineOctets, Waiting};
use arrayvec::ArrayVec;
use asdu::Sizes;
use std::alloc::Global;

/// Whether the sign concerns a selection.
pub(crate) fn is_heeded(selections: &[Selection], select_ms: u64, sign: &Sign) -> bool
    ensures { result ≡ list_any (heeds select_ms sign.now) selections.now }
{
    selections
        .iter()
        .any(|selection| selection.heeds(select_ms, sign))
}

/// Each selection becomes what the sign leaves of it, where it stands.
pub(crate) fn advance_all(selections: &mut ArrayVec<Selection, 16>, select_ms: u64, sign: &Sign)
    ensures { selections.new.items
        ≡ filter_map (next_of select_ms sign.now) selections.old.items }
{
    let mut place = 0;
    'selections: while place < selections.len() {
        // Most stay as they are, and aren't moved.
        if !selections[place].heeds(select_ms, sign) {
            place += 1;
            continue;
        }
        match selections[place].advanced(select_ms, *sign) {
            Some(selection) => {
                selections[place] = selection;
                place += 1;
            }
            None => {
                selections.remove(place);
            }
        }
    }
}

/// How many selections are of other targets.
pub(crate) fn count_others(selections: &[Selection], select_ms: u64, target: Target) -> usize
    ensures { result
        ≡ length (filter_map (next_of select_ms (OverSign target)) selections.now) }
{
    let ends = Sign::Over(target);
    let mut count = 0;
    for selection in selections {
        if !selection.heeds(select_ms, &ends) {
            count += 1;
        }
    }
    count
}

/// The stations, kept.
pub(crate) fn kept_stations(
    alloc: Global,
    stations: &[StationInfo],
) -> Result<Vec<StationInfo>, NoMemory>
    ensures { IfOk result (λ kept. kept.items ≡ stations.now) }
{
    stations.to_vec(alloc).map_err(|_| NoMemory)
}

/// A free line for each station.
pub(crate) fn free_lines(alloc: Global, stations: &[StationInfo]) -> Result<Vec<Line>, NoMemory>
    ensures { IfOk result (λ lines. lines.items ≡ map free_line stations.now) }
{
    let mut lines = Vec::with_capacity(alloc, stations.len()).map_err(|_| NoMemory)?;
    for _i in 0..stations.len() {
        lines.push_reserved(Line::Free);
    }
    Ok(lines)
}

/// The connection of the commands on the lines has ended.
pub(crate) fn cut_all(lines: &mut [Line])
    ensures { lines.new ≡ map cut_off lines.old }
{
    for line in lines.iter_mut() {
        cut(line);
    }
}

fn cut(line: &mut Line)
    ensures { line.new ≡ cut_off line.old }
{
    if let Line::Holds(_) = line {
        *line = Line::CutOff;
    }
}

/// The negative answer to the command on the station's line, if its connection is open.
pub(crate) fn refusal_at(lines: &[Line], station: usize) -> Option<OwnAnswer>
    ensures answer { option_map (λ answer. answer.items) result ≡
        refusal_of (get_or lines.now station Free) }
    ensures fits { IfSome result
        (λ answer. (9 ≤ array_vec_len answer) × (array_vec_len answer ≤ 249)) }
{
    if station < lines.len() {
        refusal(&lines[station])
    } else {
        None
    }
}

fn refusal(line: &Line) -> Option<OwnAnswer>
    ensures answer { option_map (λ answer. answer.items) result ≡ refusal_of line.now }
    ensures fits { IfSome result
        (λ answer. (9 ≤ array_vec_len answer) × (array_vec_len answer ≤ 249)) }
{
    match line {
        Line::Holds(received) => {
            let octets = received.as_slice();
            Some(refuse(negative_cause(octets), octets))
        }
        Line::Free | Line::CutOff => None,
    }
}

/// Whether a command was put on the station's line and isn't done.
pub(crate) fn is_used_at(lines: &[Line], station: usize) -> bool
    ensures { result ≡ is_used (get_or lines.now station Free) }
{
    station < lines.len() && !matches!(lines[station], Line::Free)
}

/// The place of the oldest command that waits for the station.
pub(crate) fn place_of(waiting: &[Waiting], station: usize) -> Option<usize>
    ensures within { IfSome result (λ i. i < length waiting.now) }
    ensures rest { IfSome result (λ i. remove waiting.now i ≡ without_oldest station waiting.now) }
    ensures found { IfSome result (λ i. (w : Waiting) →
        oldest station waiting.now ≡ Some (slice_index_or waiting.now i w)) }
    ensures none { IfNone result (oldest station waiting.now ≡ None) }
{
    // By place, since the caller takes it out of the list.
    for i in 0..waiting.len() {
        if waiting[i].station == station {
            return Some(i);
        }
    }
    None
}

/// How many commands wait for the station.
pub(crate) fn count_waiting(waiting: &[Waiting], station: usize) -> usize
    ensures { result ≡ waiting_count station waiting.now }
{
    let mut count = 0;
    for command in waiting {
        if command.station == station {
            count += 1;
        }
    }
    count
}

/// The first station with this common address, or how many there are.
pub(crate) fn station_number(stations: &[StationInfo], ca: u16) -> usize
    ensures { result ≡ number_of ca stations.now }
{
    for i in 0..stations.len() {
        if stations[i].ca == ca {
            return i;
        }
    }
    stations.len()
}

/// The command waits for each station that it is for.
pub(crate) fn push_copies(
    waiting: &mut Vec<Waiting>,
    stations: &[StationInfo],
    sizes: Sizes,
    octets: &[u8],
)
    requires long { 9 ≤ length octets.now }
    requires whole { length octets.now ≡ command_len (slice_index octets.now 0) }
    requires room { vec_len waiting.old
        + count_by (is_addressed (command_at octets.now)) stations.now ≤ vec_capacity waiting.old }
    ensures items { waiting.new.items ≡
        waiting.old.items ++ copies sizes octets.now 0 stations.now }
    ensures capacity { vec_capacity waiting.new ≡ vec_capacity waiting.old }
{
    for i in 0..stations.len() {
        push_copy(waiting, i, stations[i], sizes, octets);
    }
}

/// The command waits for the station with this number, if it is for it.
fn push_copy(
    waiting: &mut Vec<Waiting>,
    number: usize,
    station: StationInfo,
    sizes: Sizes,
    octets: &[u8],
)
    requires long { 9 ≤ length octets.now }
    requires whole { length octets.now ≡ command_len (slice_index octets.now 0) }
    requires room { vec_len waiting.old
        + count_by (is_addressed (command_at octets.now)) (station ∷ [])
        ≤ vec_capacity waiting.old }
    ensures items { waiting.new.items ≡
        waiting.old.items ++ copies sizes octets.now number (station ∷ []) }
    ensures count { vec_len waiting.new ≡ vec_len waiting.old
        + count_by (is_addressed (command_at octets.now)) (station ∷ []) }
    ensures capacity { vec_capacity waiting.new ≡ vec_capacity waiting.old }
{
    let command = read_command(octets);
    if is_for(command, station) {
        waiting.push_reserved(Waiting {
            station: number,
            // As it came: the answer mirrors it, and its tag is wanted when it goes out.
            received: CommandAsdu::copied(octets),
            octets: LineOctets::new(write_command(sizes, station.ca, command)),
        });
    }
}
