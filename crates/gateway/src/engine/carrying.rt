//! A gateway goes on with other settings.
ghost use Rattle.std.specs.Prelude.{◌≡◌, ◌<◌, All, length, map, IfOk};
ghost use Rattle.link.specs.declared.seat.ResumedStation.{ResumedStation as SeatOf};
ghost use Rattle.link.specs.Requests.{FitsAddress};
ghost use Rattle.link.specs.Carried.{reseated};
ghost use Rattle.command.specs.Carried as tasks;
ghost use Rattle.events.specs.Queue.{kept};
ghost use Rattle.gateway.specs.Setups.{link_of, info_of};
ghost use Rattle.gateway.specs.State.{IsBetweenSteps};
ghost use Rattle.gateway.specs.Restored.{HasSettings};
ghost use Rattle.gateway.specs.Carried.{place_of, station_with, start_of, link_started};
ghost use Rattle.gateway.specs.Carried.{links_started, seats, places, newcomers_marked};
ghost use Rattle.gateway.specs.Carried.{serial_carried, centre_carried, carried};

use super::centre::CentreSide;
use super::serial::SerialSide;
use super::{Gateway, NoMemory, closed_session, link_settings, station_infos};
use crate::config::Config;
use crate::settings::StationSettings;
use crate::starting_links::{LinkStart, have_same_sizes, link_start};
use apci::Assembler;
use command::Commands;
use link::{Master, ResumedStation, giving_up_is_for_one_station, seats_have_their_addresses};
use std::alloc::Global;

/// The place of the station with this link address, in the order of the turns.
fn place_of(address: u16, stations: &[StationSettings]) -> Option<usize>
    ensures { result ≡ place_of address stations.now }
{
    stations.iter().position(|s| s.address == address)
}

/// The station with this link address.
fn station_with(address: u16, stations: &[StationSettings]) -> Option<StationSettings>
    ensures { result ≡ station_with address stations.now }
{
    match place_of(address, stations) {
        Some(place) => stations.get(place).copied(),
        None => None,
    }
}

/// What becomes of the link to the station that had this place.
fn start_of(goes_on: bool, before: &Config, now: &Config, place: usize) -> LinkStart
    ensures { result ≡ start_of goes_on before.now now.now place }
{
    let station = before.stations().get(place).copied();
    let next = match station {
        Some(station) => station_with(station.address, now.stations()),
        None => None,
    };
    let same_sizes = have_same_sizes(before.line(), now.line());
    link_start(goes_on, same_sizes, station, next)
}

/// The stations of the line, each with the place that it had before, if it had one.
fn seats(alloc: Global, before: &Config, now: &Config) -> Result<Vec<ResumedStation>, NoMemory>
    ensures all { IfOk result (λ found. found.items ≡ seats before.now now.now) }
    ensures some { IfOk result (λ found. 0 < length found.items) }
    ensures fit { IfOk result (λ found.
        All (λ (s : SeatOf). FitsAddress now.now.line.link s.address) found.items) }
{
    let mut found = Vec::new(alloc);
    for station in now.stations() {
        let seat = ResumedStation {
            address: station.address,
            before: place_of(station.address, before.stations()),
        };
        found.push(seat).map_err(|_| NoMemory)?;
    }
    Ok(found)
}

/// Marks a gap of each station that had no place before. It may have been a station earlier, and
/// left in the middle of a poll: what that brought may be lost.
fn mark_newcomers(seats: &[ResumedStation], line: &mut Master)
    requires { length seats.now ≡ length line.old.stations }
    ensures { line.new ≡ newcomers_marked seats.now line.old }
{
    for station in 0..seats.len() {
        if seats[station].before.is_none() {
            line.mark_gap(station);
        }
    }
}

/// The line with these settings and stations.
fn line_carried(
    alloc: Global,
    now: &Config,
    seats: &[ResumedStation],
    line: &Master,
) -> Result<Master, NoMemory>
    requires some { 0 < length seats.now }
    requires fit { All (λ (s : SeatOf). FitsAddress now.now.line.link s.address) seats.now }
    ensures { IfOk result (λ m. m
        ≡ newcomers_marked seats.now (reseated (link_of now.now.line) seats.now line.now)) }
{
    seats_have_their_addresses();
    let settings = link_settings(now.line());
    let mut carried = line.reseated(alloc, settings, seats).map_err(|_| NoMemory)?;
    mark_newcomers(seats, &mut carried);
    Ok(carried)
}

/// Of each station the place that it had before.
fn places(alloc: Global, seats: &[ResumedStation]) -> Result<Vec<Option<usize>>, NoMemory>
    ensures { IfOk result (λ found. found.items ≡ places seats.now) }
{
    let mut found = Vec::new(alloc);
    for seat in seats {
        found.push(seat.before).map_err(|_| NoMemory)?;
    }
    Ok(found)
}

/// Commands with these settings and stations.
fn commands_carried(
    alloc: Global,
    now: &Config,
    seats: &[ResumedStation],
    commands: &Commands,
) -> Result<Commands, NoMemory>
    requires { length seats.now ≡ length now.now.stations }
    ensures { IfOk result (λ c. c ≡ tasks.carried (map info_of now.now.stations)
        now.now.line.sizes now.now.tcp.select_ms now.now.tcp.max_age_ms
        (places seats.now) commands.now) }
{
    let stations = station_infos(alloc, now)?;
    let before = places(alloc, seats)?;
    let sizes = now.line().sizes;
    let tcp = now.tcp();
    commands
        .carried(
            alloc,
            &stations,
            sizes,
            tcp.select_ms,
            tcp.max_age_ms,
            &before,
        )
        .map_err(|_| NoMemory)
}

impl SerialSide {
    /// The link to a station goes on, or is given up.
    fn start_link(&mut self, station: usize, start: LinkStart)
        requires { station < length self.old.line.stations }
        ensures state { self.new ≡ link_started start station self.old }
        ensures number { length self.new.line.stations ≡ length self.old.line.stations }
    {
        giving_up_is_for_one_station();
        match start {
            LinkStart::Down | LinkStart::GoesOn => {}
            LinkStart::Dropped | LinkStart::Reset => self.give_up_link(station),
            // A poll may have gone out of which no line of the state is left (docs/DECISIONS.md,
            // "A line that can't be read").
            LinkStart::ResetAfterGap => {
                self.give_up_link(station);
                self.line.mark_gap(station);
            }
        }
    }

    /// Each link goes on or is given up, and an exchange that is outstanding is broken off.
    fn start_links(&mut self, goes_on: bool, before: &Config, now: &Config)
        ensures { self.new ≡ links_started goes_on before.now now.now self.old }
    {
        // Its answer came to a process that is gone.
        self.line.release();
        for station in 0..self.line.count() {
            let start = start_of(goes_on, before, now, station);
            self.start_link(station, start);
        }
    }

    /// The line's side with these settings.
    fn carried(
        self,
        alloc: Global,
        before: &Config,
        now: &Config,
        goes_on: bool,
    ) -> Result<SerialSide, NoMemory>
        ensures { IfOk result (λ s. s ≡ serial_carried goes_on before.now now.now self) }
    {
        let mut side = self;
        side.start_links(goes_on, before, now);
        let seats = seats(alloc, before, now)?;
        let line = line_carried(alloc, now, &seats, &side.line)?;
        let commands = commands_carried(alloc, now, &seats, &side.commands)?;
        Ok(SerialSide {
            line,
            commands,
            counts: side.counts,
            silent: None,
            gap: None,
        })
    }
}

impl CentreSide {
    /// The control centre's side with these settings.
    fn carried(self, alloc: Global, now: &Config) -> Result<CentreSide, NoMemory>
        ensures { IfOk result (λ s. s ≡ centre_carried now.now self) }
    {
        let CentreSide {
            // The connection ended with its process. Its pieces stay.
            session: _,
            assembler: _,
            mut queue,
        } = self;
        let places = usize::from(now.line().queue);
        queue.carry(places).map_err(|_| NoMemory)?;
        Ok(CentreSide {
            session: closed_session(alloc, now)?,
            assembler: Assembler::new(),
            queue,
        })
    }
}

impl Gateway {
    /// The gateway with the settings `now` that goes on with what this one, whose settings were
    /// `before`, has. `goes_on` is false if frame count bits and held services hold no more, as
    /// past an end of the state that was lost.
    ///
    /// Each piece that is kept stays, in its order, and is unsent again: if there are more than
    /// places are set, nothing is polled until enough have gone. Stations are known by their link
    /// addresses, and [`link_start`] says what becomes of their links. A command is counted as lost
    /// if it is held for a station that is gone, or whose link doesn't go on. The first answered
    /// reset of a new station reports a gap, since it may have been a station earlier. There is no
    /// connection, and no exchange: a service without an answer is held, and is sent again at its
    /// station's turn. Counts, the moment and the wall clock stay. `Err` if there is no memory.
    pub fn carried(
        self,
        alloc: Global,
        before: &Config,
        now: &Config,
        goes_on: bool,
    ) -> Result<Gateway, NoMemory>
        ensures state { IfOk result (λ g. g ≡ carried goes_on before.now now.now self) }
        ensures pieces { IfOk result (λ g. kept g.centre.queue ≡ kept self.centre.queue) }
        ensures settings { IfOk result (HasSettings now.now) }
        ensures between { IfOk result IsBetweenSteps }
    {
        let Gateway {
            serial,
            centre,
            sizes: _,
            moment,
            wall,
        } = self;
        let _stations = now.stations();
        Ok(Gateway {
            serial: serial.carried(alloc, before, now, goes_on)?,
            centre: centre.carried(alloc, now)?,
            sizes: now.line().sizes,
            moment,
            wall,
        })
    }
}
