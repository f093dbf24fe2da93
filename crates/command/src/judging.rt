//! The tests by which an ASDU from the control centre is judged.
ghost use Rattle.std.specs.Prelude.{◌≡◌, ◌≤◌, ◌<◌, ◌%◌, ◌||◌, ◌&&◌, ◌==◌, not, length, IfSome};
ghost use Rattle.std.specs.Prelude.{IfNone, slice_index, count_by};
ghost use Rattle.std.specs.List.{list_any};
ghost use Rattle.command.specs.Octets.{negative};
ghost use Rattle.command.specs.Command.{command_len};
ghost use Rattle.command.specs.Selection.{lets_through};
ghost use Rattle.command.specs.Stations.{is_addressed, is_global as global, is_known as known};
ghost use Rattle.command.specs.Stations.{is_guarded as guarded};
ghost use Rattle.command.specs.Judging.{form_fault as fault_of_form, is_object as object};

use crate::content::{Command, command_octets_of, read_command};
use crate::selection::Selection;
use crate::station::StationInfo;
use crate::tags::is_stale;
use asdu::Sizes;

/// The common address of each station, to which an interrogation may be (IEC 60870-5-101, 7.2.4).
const GLOBAL: u16 = 65535;

/// The cause of a negative answer: 7 to an activation, 9 to a deactivation.
pub(crate) fn negative_cause(octets: &[u8]) -> u8
    requires { 3 ≤ length octets.now }
    ensures value { result ≡ negative octets.now }
    ensures known { result < 64 }
{
    if octets[2] & 0x3F == 6 { 7 } else { 9 }
}

/// Whether it is the cause octet of neither an activation nor a deactivation.
pub(crate) fn is_other_cause(octet: u8) -> bool
    ensures { result ≡ (not (octet % 64 == 6) && not (octet % 64 == 8)) }
{
    // Bits 5 to 0 alone: test and P/N change nothing of what is asked (docs/DECISIONS.md, "A cause
    // octet with P/N set").
    octet & 0x3F != 6 && octet & 0x3F != 8
}

/// Whether the common address is of a station, or for all of them.
pub(crate) fn is_addressee(stations: &[StationInfo], kind: u8, ca: u16) -> bool
    ensures { result ≡ (global kind ca || known stations.now ca) }
{
    (kind == 100 && ca == GLOBAL) || is_known(stations, ca)
}

fn is_known(stations: &[StationInfo], ca: u16) -> bool
    ensures { result ≡ known stations.now ca }
{
    stations.iter().any(|station| station.ca == ca)
}

/// Whether the object is 0 with an interrogation, and else one that the line can name.
pub(crate) fn is_object(sizes: Sizes, kind: u8, address: u32) -> bool
    ensures { result ≡ object sizes kind address }
{
    // An interrogation is for the station as a whole, which is what object 0 means.
    if kind == 100 {
        address == 0
    } else {
        address != 0 && address < sizes.ioa.limit()
    }
}

/// What is wrong with the form of the command, not one object or one that it may not have, or with
/// its age.
pub(crate) fn form_fault(octets: &[u8], max_age_ms: u64, wall: Option<u64>) -> Option<u8>
    requires long { 9 ≤ length octets.now }
    ensures value { result ≡ fault_of_form max_age_ms wall octets.now }
    ensures known { IfSome result (λ cause. cause < 64) }
    ensures whole { IfNone result (length octets.now ≡ command_len (slice_index octets.now 0)) }
{
    // One object: with two, half of a command could be refused and half of it executed.
    if octets[1] != 1 || octets.len() != command_octets_of(octets[0]) {
        return Some(negative_cause(octets));
    }
    if !read_command(octets).is_permitted() {
        return Some(negative_cause(octets));
    }
    // Before the selection is sought, so a refusal for the tag leaves it (docs/DECISIONS.md, "A
    // tag is judged before the selection").
    if is_stale(max_age_ms, wall, octets) {
        return Some(negative_cause(octets));
    }
    None
}

/// Whether the command is for a station that executes nothing without a select.
pub(crate) fn is_guarded(stations: &[StationInfo], command: Command) -> bool
    ensures { result ≡ guarded stations.now command }
{
    stations
        .iter()
        .any(|station| station.ca == command.ca && station.select)
}

/// Whether a live selection lets the execute through.
pub(crate) fn is_selected(
    selections: &[Selection],
    select_ms: u64,
    command: Command,
    now: u64,
) -> bool
    ensures { result ≡ list_any (lets_through select_ms command now) selections.now }
{
    selections.iter().any(|selection| selection.lets_through(select_ms, command, now))
}

/// For how many stations the command is.
pub(crate) fn count_addressed(stations: &[StationInfo], command: Command) -> usize
    ensures value { result ≡ count_by (is_addressed command) stations.now }
    ensures few { result ≤ length stations.now }
{
    let mut count = 0;
    for station in stations {
        if is_for(command, *station) {
            count += 1;
        }
    }
    count
}

/// Whether the command is for the station.
pub(crate) fn is_for(command: Command, station: StationInfo) -> bool
    ensures { result ≡ is_addressed command station }
{
    (command.kind == 100 && command.ca == GLOBAL) || station.ca == command.ca
}
