//! A primary station is made again from the lines of its state.
ghost use Rattle.std.specs.Prelude.{◌≡◌, ◌++◌, ◌↔◌, ◌⊎◌, ℕ, [], List, All, Option, Some, length};
ghost use Rattle.std.specs.Prelude.{IsTrue, IsSome, IfSome, IfOk, MatchResult, option_map};
ghost use Rattle.checkpoint.specs.declared.StateFault.TheVariants.{Wrong};
ghost use Rattle.ft12.specs.Reading.{IsProperBeginning};
ghost use Rattle.link.specs.Requests.{IsUserData, FitsAddress, FitsService};
ghost use Rattle.link.specs.Primary.{Primary};
ghost use Rattle.link.specs.Holding.{IsFitting, FitsStation, FitsLink, FitsOutstanding};
ghost use Rattle.link.specs.Holding.{outstanding_from};
ghost use Rattle.link.specs.Restored.{phase_by, phase_from, head_from, asked_by, asked_from};
ghost use Rattle.link.specs.Restored.{counted_from, awaited_from, awaited_by, some_awaited};
ghost use Rattle.link.specs.Restored.{octets_from, received_by, answered_with as received_in};
ghost use Rattle.link.specs.Restored.{primary_with, primary_lines, IsSavable, IsStateOf};

use super::Master;
use crate::asdu::CommandOctets;
use crate::awaited::Awaited;
use crate::procedure::Link;
use crate::saving::{bit_from, read_stations, service_from};
use crate::service::{Asked, Service};
use crate::settings::LinkSettings;
use crate::turn::{Phase, StationState};
use checkpoint::{Lines, StateFault};
use ft12::{Assembler, LinkSize};
use std::alloc::{AllocError, Global};

/// The phase of this kind, with these numbers behind it.
fn phase_by(kind: u64, numbers: &[u64]) -> Option<Phase>
    ensures { result ≡ phase_by kind numbers.now }
{
    match (kind, numbers) {
        (0, []) => Some(Phase::Starting),
        (1, []) => Some(Phase::Commanding),
        (2, []) => Some(Phase::Polling),
        (4, []) => Some(Phase::Over),
        (3, [sent]) if *sent < 256 => Some(Phase::Class1Polling(*sent as u8)),
        _ => None,
    }
}

/// The phase that the rest of the first line says.
fn phase_from(numbers: &[u64]) -> Option<Phase>
    ensures { result ≡ phase_from numbers.now }
{
    let (kind, others) = numbers.split_first()?;
    phase_by(*kind, others)
}

/// Whether a command's octets fit the line.
fn command_fits(size: LinkSize, command: &CommandOctets) -> bool
    ensures { IsTrue result ↔ IsUserData size command.now }
{
    !command.octets().is_empty()
}

/// Whether the service fits the line.
fn service_fits(size: LinkSize, service: &Service) -> bool
    ensures { IsTrue result ↔ FitsService size service.now }
{
    match service {
        Service::Class1 | Service::Class2 => true,
        Service::Command(command) => command_fits(size, command),
    }
}

/// Whether the service that the link holds, if it does, fits the line.
fn link_fits(size: LinkSize, link: &Link) -> bool
    ensures { IsTrue result ↔ FitsLink size link.now }
{
    match link {
        Link::Held(_, service, _) => service_fits(size, service),
        _ => true,
    }
}

/// Whether a link address has its size.
fn address_fits(size: LinkSize, address: u16) -> bool
    ensures { IsTrue result ↔ FitsAddress size address }
{
    match size {
        LinkSize::One => address < 256,
        LinkSize::Two => true,
    }
}

/// Whether the address of the station and the command that it holds fit the line.
fn station_fits(size: LinkSize, station: &StationState) -> bool
    ensures { IsTrue result ↔ FitsStation size station.now }
{
    address_fits(size, station.address) && link_fits(size, &station.link)
}

/// Whether the request that is outstanding, if one is, fits the line.
fn outstanding_fits(size: LinkSize, outstanding: &Option<Awaited>) -> bool
    ensures { (arrived : Option (List ℕ)) →
        IsTrue result ↔ FitsOutstanding size (outstanding_from outstanding.now arrived) }
{
    match outstanding {
        Some(awaited) => match &awaited.request {
            Asked::Status | Asked::Reset => true,
            Asked::Counted(_, service) => service_fits(size, service),
        },
        None => true,
    }
}

/// Whether all stations fit the line.
fn stations_fit(size: LinkSize, stations: &[StationState]) -> bool
    ensures { IsTrue result ↔ All (FitsStation size) stations.now }
{
    for station in stations {
        if !station_fits(size, station) {
            return false;
        }
    }
    true
}

/// What the first line of a state says: whose turn it is and how far, whether a service is sent
/// again at once, and how many exchanges were spoilt.
#[derive(Drop)]
struct TurnLine {
    turn: usize,
    again: bool,
    spoilt: u64,
    phase: Phase,
}

/// What the first line says.
fn head_from(numbers: &[u64]) -> Option<TurnLine>
    ensures { result ≡ head_from numbers.now }
{
    match numbers {
        [turn, again, spoilt, others @ ..] => {
            let again = bit_from(*again)?;
            let phase = phase_from(others)?;
            Some(TurnLine {
                turn: *turn as usize,
                again,
                spoilt: *spoilt,
                phase,
            })
        }
        _ => None,
    }
}

/// A counted service: its frame count bit, and the service.
fn counted_from(numbers: &[u64]) -> Option<Asked>
    ensures { result ≡ counted_from numbers.now }
{
    let (bit, others) = numbers.split_first()?;
    let fcb = bit_from(*bit)?;
    let service = service_from(others)?;
    Some(Asked::Counted(fcb, service))
}

/// The request of this kind, with these numbers behind it.
fn asked_by(kind: u64, numbers: &[u64]) -> Option<Asked>
    ensures { result ≡ asked_by kind numbers.now }
{
    match (kind, numbers) {
        (0, []) => Some(Asked::Status),
        (1, []) => Some(Asked::Reset),
        (2, others) => counted_from(others),
        _ => None,
    }
}

/// The request that the rest of a line says.
fn asked_from(numbers: &[u64]) -> Option<Asked>
    ensures { result ≡ asked_from numbers.now }
{
    let (kind, others) = numbers.split_first()?;
    asked_by(*kind, others)
}

/// A request that is outstanding: since when, whether octets came, and what it asks for.
fn some_awaited(deaf: bool, numbers: &[u64]) -> Option<Option<Awaited>>
    ensures { result ≡ some_awaited deaf numbers.now }
{
    match numbers {
        [since, bit, others @ ..] => {
            let has_octets = bit_from(*bit)?;
            let request = asked_from(others)?;
            Some(Some(Awaited {
                request,
                since: *since,
                deaf,
                has_octets,
            }))
        }
        _ => None,
    }
}

/// The outstanding request, or that there is none, by the kind of the line.
fn awaited_by(deaf: bool, kind: u64, numbers: &[u64]) -> Option<Option<Awaited>>
    ensures { result ≡ awaited_by deaf kind numbers.now }
{
    match (kind, numbers) {
        (0, []) => Some(None),
        (1, others) => some_awaited(deaf, others),
        _ => None,
    }
}

/// The outstanding request that the third line says, or that there is none. Whether it is deaf
/// stands in the second line.
fn awaited_from(deaf: bool, numbers: &[u64]) -> Option<Option<Awaited>>
    ensures { result ≡ awaited_from deaf numbers.now }
{
    let (kind, others) = numbers.split_first()?;
    awaited_by(deaf, *kind, others)
}

/// The octets that numbers are: none if one of them is above 255.
fn octets_from(alloc: Global, numbers: &[u64]) -> Result<Option<Vec<u8>>, AllocError>
    ensures { IfOk result (λ o. option_map (λ v. v.items) o ≡ octets_from numbers.now) }
{
    let mut octets = Vec::new(alloc);
    for number in numbers {
        if *number > 255 {
            return Ok(None);
        }
        octets.push(*number as u8)?;
    }
    Ok(Some(octets))
}

/// Whether nothing can be received any more, and the octets that came of the answer.
fn received_by(
    alloc: Global,
    kind: u64,
    numbers: &[u64],
) -> Result<Option<(bool, Vec<u8>)>, AllocError>
    ensures { IfOk result (λ o. option_map (λ h. (h.0, h.1.items)) o
        ≡ received_by kind numbers.now) }
{
    match (kind, numbers) {
        (0, []) => Ok(Some((true, Vec::new(alloc)))),
        (1, others) => match octets_from(alloc, others)? {
            Some(octets) => Ok(Some((false, octets))),
            None => Ok(None),
        },
        _ => Ok(None),
    }
}

/// What the second line says of the answer: whether nothing can be received any more, and the
/// octets that came.
fn answered_with(alloc: Global, numbers: &[u64]) -> Result<Option<(bool, Vec<u8>)>, AllocError>
    ensures { IfOk result (λ o. option_map (λ h. (h.0, h.1.items)) o ≡ received_in numbers.now) }
{
    match numbers.split_first() {
        Some((kind, others)) => received_by(alloc, *kind, others),
        None => Ok(None),
    }
}

impl Master {
    /// A primary station with these parts, if they fit the line, and if what arrived of an answer
    /// is the beginning of a frame.
    fn restored(
        settings: LinkSettings,
        head: TurnLine,
        outstanding: Option<Awaited>,
        arrived: &[u8],
        stations: Vec<StationState>,
    ) -> Option<Master>
        ensures made { IfSome result (λ m. m ≡ primary_with settings head
            (outstanding_from outstanding (Some arrived.now)) stations.items) }
        ensures taken { IsFitting (primary_with settings head
            (outstanding_from outstanding (Some arrived.now)) stations.items) →
            IsProperBeginning settings.size arrived.now ⊎ (arrived.now ≡ []) → IsSome result }
    {
        // Fed once more, so no line makes an assembler that no octets make (docs/DECISIONS.md,
        // "The state that was put, or nothing").
        let assembler = Assembler::resumed(settings.size, arrived)?;
        // The size of addresses is a setting and stands in no line, so the lines are judged by it
        // (docs/DECISIONS.md, "Settings stand apart").
        let fits = head.turn < stations.len()
            && stations_fit(settings.size, stations.as_slice())
            && outstanding_fits(settings.size, &outstanding);
        if !fits {
            return None;
        }
        Some(Master {
            settings,
            stations,
            turn: head.turn,
            phase: head.phase,
            again: head.again,
            outstanding,
            assembler,
            spoilt: head.spoilt,
        })
    }

    /// A primary station of these settings and of so many stations, made again from the lines that
    /// `put_state` put: it is in the same state, and the lines behind these are left. The lines of
    /// a state are never refused as `Wrong`. `line` is a place for one line. Memory is taken for
    /// the stations, and for a moment for half an answer of at most 260 octets.
    pub fn read_state<L: Lines>(
        alloc: Global,
        settings: LinkSettings,
        count: usize,
        lines: &mut L,
        line: &mut Vec<u64>,
    ) -> Result<Master, StateFault>
        ensures back { (p : Primary) (rest : List (List ℕ)) → IsSavable p → p.settings ≡ settings →
            length p.stations ≡ count → L.coming lines.old ≡ primary_lines p ++ rest →
            MatchResult result (λ m. (m ≡ p) × (L.coming lines.new ≡ rest))
            (λ e. e ≡ Wrong → ⊥) }
        // So lines that say no state are refused.
        ensures exact { IfOk result (λ m. IsStateOf m (L.coming lines.old) (L.coming lines.new)) }
    {
        lines.next(line)?;
        let Some(head) = head_from(line.as_slice()) else {
            return Err(StateFault::Wrong);
        };
        lines.next(line)?;
        let found = match answered_with(alloc, line.as_slice()) {
            Ok(found) => found,
            Err(_) => return Err(StateFault::NoMemory),
        };
        let Some((deaf, octets)) = found else {
            return Err(StateFault::Wrong);
        };
        lines.next(line)?;
        let Some(outstanding) = awaited_from(deaf, line.as_slice()) else {
            return Err(StateFault::Wrong);
        };
        let stations = match read_stations(alloc, count, lines, line) {
            Ok(stations) => stations,
            Err(fault) => return Err(fault),
        };
        match Master::restored(settings, head, outstanding, octets.as_slice(), stations) {
            Some(master) => Ok(master),
            None => Err(StateFault::Wrong),
        }
    }
}
