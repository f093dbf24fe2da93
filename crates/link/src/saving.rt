//! A station's state as lines of numbers, and back.
//!
//! A station has three lines: its address, flags and session, and whether it may have been
//! restarted; its link; and one that says that no command of it is kept here. The part of a line
//! whose length varies ends the line, so that no reader hands on a rest.
ghost use Rattle.std.specs.Prelude.{◌≡◌, ◌++◌, ◌∷◌, ◌<◌, [], List, ℕ, length, OnOk, IfOk};
ghost use Rattle.std.specs.Prelude.{MatchResult};
ghost use Rattle.std.specs.List.{AllByRecursion};
ghost use Rattle.checkpoint.specs.declared.StateFault.TheVariants.{Wrong};
ghost use Rattle.link.specs.Saved.{bit_number, bit_from, service_numbers, service_by, service_from};
ghost use Rattle.link.specs.Saved.{link_numbers, link_by, link_from, next_from, held_from};
ghost use Rattle.link.specs.Saved.{held_missed, held_number, held_of, unsure_from};
ghost use Rattle.link.specs.Saved.{flags_numbers, flags_from, no_command_numbers};
ghost use Rattle.link.specs.Saved.{command_from, lines_of};
ghost use Rattle.link.specs.Saved.{FitsSavedService, FitsSavedLink};
ghost use Rattle.link.specs.Saved.{FitsSavedStation, StandBefore};
ghost use Rattle.link.specs.Turns.{StationState};

use crate::asdu::{CommandOctets, LONGEST_COMMAND};
use crate::procedure::{Link, Probed, Silence};
use crate::service::Service;
use crate::session::SessionState;
use crate::turn::StationState;
use arrayvec::ArrayVec;
use checkpoint::{Lines, Sheet, StateFault};
use std::alloc::{AllocError, Global};

/// A bit as a number.
pub(crate) fn bit_number(bit: bool) -> u64
    ensures { result ≡ bit_number bit }
{
    if bit { 1 } else { 0 }
}

/// The bit that a number is: none but for 0 and 1.
pub(crate) fn bit_from(number: u64) -> Option<bool>
    ensures { result ≡ bit_from number }
{
    match number {
        0 => Some(false),
        1 => Some(true),
        _ => None,
    }
}

/// Puts octets behind a line of numbers.
fn put_octets(octets: &[u8], line: &mut Vec<u64>) -> Result<(), AllocError>
    ensures { OnOk result (line.new.items ≡ line.old.items ++ octets.now) }
{
    for octet in octets {
        line.push(u64::from(*octet))?;
    }
    Ok(())
}

/// Puts a service behind a line of numbers.
pub(crate) fn put_service(service: &Service, line: &mut Vec<u64>) -> Result<(), AllocError>
    ensures line { OnOk result (line.new.items ≡ line.old.items ++ service_numbers service.now) }
    ensures fits { OnOk result (FitsSavedService service.now) }
{
    match service {
        Service::Class1 => line.push(1)?,
        Service::Class2 => line.push(2)?,
        Service::Command(command) => {
            line.push(3)?;
            put_octets(command.octets(), line)?;
        }
    }
    Ok(())
}

/// The kind of a line that says a held service.
fn held_number(spent: bool, probed: Probed) -> u64
    ensures { result ≡ held_number spent probed }
{
    match (probed, spent) {
        (Probed::Never, false) => 3,
        (Probed::Never, true) => 4,
        (Probed::Once, false) => 5,
        (Probed::Once, true) => 6,
        (Probed::Twice, false) => 7,
        (Probed::Twice, true) => 8,
    }
}

/// Puts a station's second line: its link.
fn put_link(link: &Link, line: &mut Vec<u64>) -> Result<(), AllocError>
    ensures line { OnOk result (line.new.items ≡ line.old.items ++ link_numbers link.now) }
    ensures fits { OnOk result (FitsSavedLink link.now) }
{
    match link {
        Link::Down => line.push(0)?,
        Link::Available => line.push(1)?,
        Link::Next(fcb) => {
            line.push(2)?;
            line.push(bit_number(*fcb))?;
        }
        Link::Held(fcb, service, silence) => {
            line.push(held_number(silence.spent, silence.probed))?;
            line.push(bit_number(*fcb))?;
            line.push(u64::from(silence.missed))?;
            put_service(service, line)?;
        }
    }
    Ok(())
}

/// The command that numbers are: at most [`LONGEST_COMMAND`], each below 256.
fn command_from(numbers: &[u64]) -> Option<CommandOctets>
    ensures { result ≡ command_from numbers.now }
{
    if numbers.len() > LONGEST_COMMAND {
        return None;
    }
    let mut octets: ArrayVec<u8, LONGEST_COMMAND> = ArrayVec::new();
    for number in numbers {
        if *number > 255 {
            return None;
        }
        octets.push(*number as u8);
    }
    Some(CommandOctets::new(octets.as_slice()))
}

/// The service of this kind, with these numbers behind it.
fn service_by(kind: u64, numbers: &[u64]) -> Option<Service>
    ensures { result ≡ service_by kind numbers.now }
{
    match (kind, numbers) {
        (1, []) => Some(Service::Class1),
        (2, []) => Some(Service::Class2),
        (3, octets) => Some(Service::Command(command_from(octets)?)),
        _ => None,
    }
}

/// The service that the rest of a line says.
pub(crate) fn service_from(numbers: &[u64]) -> Option<Service>
    ensures { result ≡ service_from numbers.now }
{
    let (kind, others) = numbers.split_first()?;
    service_by(*kind, others)
}

/// A link that is up: the frame count bit of the next service.
fn next_from(numbers: &[u64]) -> Option<Link>
    ensures { result ≡ next_from numbers.now }
{
    match numbers {
        [bit] => Some(Link::Next(bit_from(*bit)?)),
        _ => None,
    }
}

/// A held service with this frame count bit: how often it was missed, and the service.
fn held_missed(spent: bool, probed: Probed, fcb: bool, numbers: &[u64]) -> Option<Link>
    ensures { result ≡ held_missed spent probed fcb numbers.now }
{
    let (missed, others) = numbers.split_first()?;
    if *missed > 65535 {
        return None;
    }
    let service = service_from(others)?;
    let silence = Silence {
        missed: *missed as u16,
        spent,
        probed,
    };
    Some(Link::Held(fcb, service, silence))
}

/// A link that holds a service.
fn held_from(spent: bool, probed: Probed, numbers: &[u64]) -> Option<Link>
    ensures { result ≡ held_from spent probed numbers.now }
{
    let (bit, others) = numbers.split_first()?;
    let fcb = bit_from(*bit)?;
    held_missed(spent, probed, fcb, others)
}

/// Of a held service of this kind, whether no repeat is left, and how often its station has
/// answered a status.
fn held_of(kind: u64) -> Option<(bool, Probed)>
    ensures { result ≡ held_of kind }
{
    match kind {
        3 => Some((false, Probed::Never)),
        4 => Some((true, Probed::Never)),
        5 => Some((false, Probed::Once)),
        6 => Some((true, Probed::Once)),
        7 => Some((false, Probed::Twice)),
        8 => Some((true, Probed::Twice)),
        _ => None,
    }
}

/// The link of this kind, with these numbers behind it.
fn link_by(kind: u64, numbers: &[u64]) -> Option<Link>
    ensures { result ≡ link_by kind numbers.now }
{
    match (kind, numbers) {
        (0, []) => Some(Link::Down),
        (1, []) => Some(Link::Available),
        (2, others) => next_from(others),
        (0 | 1, _) => None,
        (kind, others) => {
            let (spent, probed) = held_of(kind)?;
            held_from(spent, probed, others)
        }
    }
}

/// The link that a line of numbers says.
fn link_from(numbers: &[u64]) -> Option<Link>
    ensures { result ≡ link_from numbers.now }
{
    let (kind, others) = numbers.split_first()?;
    link_by(*kind, others)
}

/// Puts a station's first line: its address, ACD, DFC and session.
fn put_flags(station: &StationState, line: &mut Vec<u64>) -> Result<(), AllocError>
    ensures line { OnOk result (line.new.items ≡ line.old.items ++ flags_numbers station.now) }
    ensures fits { OnOk result (station.now.address < 65536) }
{
    line.push(u64::from(station.address))?;
    line.push(bit_number(station.acd))?;
    line.push(bit_number(station.dfc))?;
    line.push(station.session.number)?;
    line.push(bit_number(station.session.has_gap))?;
    // Earlier versions had nothing here, and their lines still say what they said.
    if station.unsure {
        line.push(1)?;
    }
    Ok(())
}

/// Puts a station's third line.
fn put_no_command(line: &mut Vec<u64>) -> Result<(), AllocError>
    ensures { OnOk result (line.new.items ≡ line.old.items ++ no_command_numbers) }
{
    // Earlier versions had a command here that was handed to the line, and they still want the line
    // (docs/DECISIONS.md, "What waits for a station").
    line.push(0)?;
    Ok(())
}

/// Whether a station may have been restarted, by the end of its first line.
fn unsure_from(numbers: &[u64]) -> Option<bool>
    ensures { result ≡ unsure_from numbers.now }
{
    match numbers {
        [] => Some(false),
        [1] => Some(true),
        _ => None,
    }
}

/// A station that is down, with what its first line says.
fn flags_from(numbers: &[u64]) -> Option<StationState>
    ensures { result ≡ flags_from numbers.now }
{
    match numbers {
        [address, acd, dfc, number, gap, others @ ..] => {
            let acd = bit_from(*acd)?;
            let dfc = bit_from(*dfc)?;
            let has_gap = bit_from(*gap)?;
            let unsure = unsure_from(others)?;
            if *address > 65535 {
                return None;
            }
            Some(StationState {
                address: *address as u16,
                link: Link::Down,
                acd,
                dfc,
                session: SessionState {
                    number: *number,
                    has_gap,
                },
                unsure,
            })
        }
        _ => None,
    }
}

/// Puts a station's three lines.
fn put_station<S: Sheet>(
    station: &StationState,
    sheet: &mut S,
    line: &mut Vec<u64>,
) -> Result<(), StateFault>
    ensures lines { OnOk result (S.written sheet.new
        ≡ S.written sheet.old ++ lines_of (station.now ∷ [])) }
    ensures fits { OnOk result (FitsSavedStation station.now) }
{
    line.clear();
    put_flags(station, line)?;
    sheet.put(line.as_slice())?;
    line.clear();
    put_link(&station.link, line)?;
    sheet.put(line.as_slice())?;
    line.clear();
    put_no_command(line)?;
    sheet.put(line.as_slice())?;
    Ok(())
}

/// Reads a station's three lines, whatever the third one says.
fn read_station<L: Lines>(lines: &mut L, line: &mut Vec<u64>) -> Result<StationState, StateFault>
    ensures back { (s : StationState) (third : List ℕ) (rest : List (List ℕ)) → FitsSavedStation s →
        L.coming lines.old ≡ flags_numbers s ∷ link_numbers s.link ∷ third ∷ rest →
        MatchResult result (λ t. (t ≡ s) × (L.coming lines.new ≡ rest)) (λ e. e ≡ Wrong → ⊥) }
    ensures exact { IfOk result (λ t. (third : List ℕ) × (L.coming lines.old
        ≡ flags_numbers t ∷ link_numbers t.link ∷ third ∷ L.coming lines.new)) }
{
    lines.next(line)?;
    let Some(bare) = flags_from(line.as_slice()) else {
        return Err(StateFault::Wrong);
    };
    lines.next(line)?;
    let Some(link) = link_from(line.as_slice()) else {
        return Err(StateFault::Wrong);
    };
    // The command that an earlier version had handed to the line stands with those that wait, too.
    lines.next(line)?;
    Ok(StationState {
        address: bare.address,
        link,
        acd: bare.acd,
        dfc: bare.dfc,
        session: bare.session,
        unsure: bare.unsure,
    })
}

/// Puts the lines of stations.
pub(crate) fn put_stations<S: Sheet>(
    stations: &[StationState],
    sheet: &mut S,
    line: &mut Vec<u64>,
) -> Result<(), StateFault>
    ensures lines { OnOk result (S.written sheet.new
        ≡ S.written sheet.old ++ lines_of stations.now) }
    ensures fits { OnOk result (AllByRecursion FitsSavedStation stations.now) }
{
    for station in stations {
        put_station(station, sheet, line)?;
    }
    Ok(())
}

/// Reads so many stations.
pub(crate) fn read_stations<L: Lines>(
    alloc: Global,
    count: usize,
    lines: &mut L,
    line: &mut Vec<u64>,
) -> Result<Vec<StationState>, StateFault>
    ensures back { (ss : List StationState) (rest : List (List ℕ)) → length ss ≡ count →
        AllByRecursion FitsSavedStation ss → L.coming lines.old ≡ lines_of ss ++ rest →
        MatchResult result (λ v. (v.items ≡ ss) × (L.coming lines.new ≡ rest))
        (λ e. e ≡ Wrong → ⊥) }
    ensures exact { IfOk result (λ v.
        StandBefore v.items (L.coming lines.old) (L.coming lines.new)) }
{
    let mut stations = Vec::new(alloc);
    for _i in 0..count {
        match read_station(lines, line) {
            Ok(station) => {
                if stations.push(station).is_err() {
                    return Err(StateFault::NoMemory);
                }
            }
            Err(fault) => return Err(fault),
        }
    }
    Ok(stations)
}
