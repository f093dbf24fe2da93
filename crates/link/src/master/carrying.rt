//! What a restart makes of a primary station.
ghost use Rattle.std.specs.Prelude.{◌≡◌, ◌<◌, ◌≤◌, All, false, length, map, IfOk};
ghost use Rattle.ft12.specs.declared.frame.LinkSize.{LinkSize};
ghost use Rattle.link.specs.Requests.{IsUserData, FitsAddress, FitsService};
ghost use Rattle.link.specs.Holding.{FitsLink, FitsStation};
ghost use Rattle.link.specs.Procedure.{after_silence};
ghost use Rattle.link.specs.Primary.{station_down as down_at};
ghost use Rattle.link.specs.Carried.{awaits_command, given_up, station_left, released, gap_marked};
ghost use Rattle.link.specs.Carried.{doubted, station_doubted};
ghost use Rattle.link.specs.Carried.{link_carried, station_carried, seated, reseated};
ghost use Rattle.link.specs.declared.seat.ResumedStation.{ResumedStation as SeatOf};

use super::{Master, sends_command};
use crate::asdu::CommandOctets;
use crate::no_memory::NoMemory;
use crate::procedure::{Link, Probed, Silence};
use crate::seat::ResumedStation;
use crate::service::{Asked, Service};
use crate::session::SessionState;
use crate::settings::LinkSettings;
use crate::turn::{Phase, StationState, nth_station};
use ft12::Assembler;
use std::alloc::Global;

/// That a command fits each line that it fits at all. It does nothing.
fn fits_any_line(command: &CommandOctets)
    ensures { (size other : LinkSize) → IsUserData size command.now → IsUserData other command.now }
{
    let _octets = command.octets();
}

impl Service {
    /// The same service, which fits any line.
    fn carried(&self) -> Service
        ensures same { result ≡ self.now }
        ensures fits { (size other : LinkSize) → FitsService size self.now →
            FitsService other result }
    {
        match self {
            Service::Class1 => Service::Class1,
            Service::Class2 => Service::Class2,
            Service::Command(command) => {
                fits_any_line(command);
                Service::Command(command.copied())
            }
        }
    }
}

impl Link {
    /// The link after a request whose exchange is broken off: its service is held.
    fn leave(&mut self, settings: LinkSettings, request: &Asked)
        ensures { self.new ≡ after_silence settings request.now false self.old }
    {
        match request {
            Asked::Status => self.status_missed(settings),
            Asked::Reset => *self = Link::Down,
            Asked::Counted(fcb, service) => {
                // As it was counted: a request that was broken off isn't one without an answer.
                *self = Link::Held(*fcb, service.copied(), self.silence());
            }
        }
    }

    /// The link that goes on, if a service is sent again at once so often.
    fn carried(&self, retries: u8) -> Link
        ensures same { result ≡ link_carried retries self.now }
        ensures fits { (size other : LinkSize) → FitsLink size self.now → FitsLink other result }
    {
        match self {
            Link::Down => Link::Down,
            Link::Available => Link::Available,
            Link::Next(fcb) => Link::Next(*fcb),
            Link::Held(fcb, service, silence) => {
                let missed = u16::from(retries).min(silence.missed);
                Link::Held(
                    *fcb,
                    service.carried(),
                    Silence::short(missed, Probed::Never),
                )
            }
        }
    }
}

impl StationState {
    /// The station goes on, with this address.
    fn carried(&self, retries: u8, address: u16) -> StationState
        ensures same { result ≡ station_carried retries address self.now }
        ensures fits { (size other : LinkSize) → FitsStation size self.now →
            FitsAddress other address → FitsStation other result }
    {
        StationState {
            address,
            link: self.link.carried(retries),
            acd: self.acd,
            dfc: self.dfc,
            session: self.session,
            unsure: self.unsure,
        }
    }
}

fn doubt(station: &mut StationState)
    ensures { station.new ≡ station_doubted station.old }
{
    station.unsure = true;
}

/// It isn't known of these stations whether they were restarted.
fn doubt_all(stations: &mut [StationState])
    ensures { stations.new ≡ map station_doubted stations.old }
{
    for station in stations.iter_mut() {
        doubt(station);
    }
}

/// A station whose link is down, without a session.
fn station_down(address: u16) -> StationState
    ensures { result ≡ down_at address }
{
    StationState {
        address,
        link: Link::Down,
        acd: false,
        dfc: false,
        session: SessionState {
            number: 0,
            has_gap: false,
        },
        unsure: false,
    }
}

/// The station of a seat.
fn seated(retries: u8, stations: &[StationState], seat: ResumedStation) -> StationState
    ensures same { result ≡ seated retries seat.address stations.now seat.before }
    ensures fits { (size other : LinkSize) → All (FitsStation size) stations.now →
        FitsAddress other seat.address → FitsStation other result }
{
    match seat.before {
        Some(place) if place < stations.len() => {
            nth_station(stations, place).carried(retries, seat.address)
        }
        _ => station_down(seat.address),
    }
}

impl Master {
    /// Whether the latest service to the station with this index is a command without an answer: it
    /// is on the line, or it is held.
    pub fn awaits_command(&self, station: usize) -> bool
        requires { station < length self.now.stations }
        ensures { result ≡ awaits_command self.now station }
    {
        nth_station(&self.stations, station).link.holds_command()
            || (self.turn == station && sends_command(&self.outstanding))
    }

    /// Gives up the link to the station with this index: it is down, so that it is reset before its
    /// next service. An exchange with the station is over, and so is its turn; no exchange is
    /// counted as spoilt by it.
    pub fn give_up(&mut self, station: usize)
        requires { station < length self.old.stations }
        ensures { self.new ≡ given_up station self.old }
    {
        // Whether the station took the service isn't known, so its bit isn't either. A reset
        // settles it (docs/DECISIONS.md, "A restart gives up a command").
        self.stations[station].link = Link::Down;
        if self.turn == station {
            self.phase = Phase::Over;
            self.again = false;
            self.outstanding = None;
        }
    }

    /// At a restart: of no station is it known whether it was restarted, too, until it answers a
    /// service. One that stays silent to it is asked for its status; if it answers that before the
    /// silence and behind it, and then stays silent once more, its link is given up.
    pub fn doubt(&mut self)
        ensures { self.new ≡ doubted self.old }
    {
        doubt_all(&mut self.stations);
    }

    /// Marks that of the latest session of the station with this index a report may be lost: that
    /// is reported when its link is reset.
    pub fn mark_gap(&mut self, station: usize)
        requires { station < length self.old.stations }
        ensures { self.new ≡ gap_marked station self.old }
    {
        self.stations[station].session.has_gap = true;
    }

    /// Breaks off an exchange that is outstanding: its service is held, and is sent again with its
    /// frame count bit at the station's turn. If it was to start the link, the link is down.
    pub fn release(&mut self)
        ensures { self.new ≡ released self.old }
    {
        if let Some(awaited) = self.outstanding.take() {
            let settings = self.settings;
            let place = self.turn;
            self.stations[place].link.leave(settings, &awaited.request);
        }
    }

    /// A primary station with these settings and stations, in the order of their turns. Each that
    /// was one of this one's goes on, and no service counts as unanswered more often than it is
    /// repeated. The link to every other is down. Nothing is outstanding, and the first turn is the
    /// first station's. Spoilt exchanges stay counted. It asks for what [`Master::new`] asks for,
    /// and takes memory for the stations.
    pub fn reseated(
        &self,
        alloc: Global,
        settings: LinkSettings,
        seats: &[ResumedStation],
    ) -> Result<Master, NoMemory>
        requires some { 0 < length seats.now }
        requires fit { All (λ (s : SeatOf). FitsAddress settings.size s.address) seats.now }
        ensures { IfOk result (λ m. m ≡ reseated settings seats.now self.now) }
    {
        let mut stations = Vec::new(alloc);
        for seat in seats {
            let station = seated(settings.retries, &self.stations, *seat);
            stations.push(station).map_err(|_| NoMemory)?;
        }
        Ok(Master {
            settings,
            stations,
            turn: 0,
            phase: Phase::Starting,
            again: false,
            outstanding: None,
            assembler: Assembler::new(settings.size),
            spoilt: self.spoilt,
        })
    }
}
