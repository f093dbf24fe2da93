//! The gateway's two sides, and what each part of a step makes of them.
ghost use Rattle.std.specs.Prelude.{◌≡◌, ◌≤◌, [], length, map, IfOk, Some};
ghost use Rattle.link.specs.Primary.{start};
ghost use Rattle.session.specs.Session.{new_session};
ghost use Rattle.command.specs.State as tasks;
ghost use Rattle.events.specs.Queue.{empty, kept};
ghost use Rattle.gateway.specs.Agrees.{Follows};
ghost use Rattle.gateway.specs.Serial.{first_serial};
ghost use Rattle.gateway.specs.Centre.{first_centre};
ghost use Rattle.gateway.specs.Setups.{link_of, info_of, session_of, setup_of};
ghost use Rattle.gateway.specs.declared.settings.StationSettings.{StationSettings};
ghost use Rattle.gateway.specs.State.{counts_of, first_state, at_moment, with_wall, wall_now};

mod carrying;
mod centre;
mod giving_up;
mod refusing;
mod restoring;
mod saving;
mod serial;
mod tagging;

use self::centre::CentreSide;
use self::serial::SerialSide;
use crate::config::Config;
use crate::counts::{Counts, Tally};
use crate::settings::{LineSettings, Silence};
use crate::walls::Wall;
use apci::Assembler;
use asdu::Sizes;
use command::{Commands, StationInfo, commands_keep_the_rules, faultless_commands_pass};
use events::{Events, Kept};
use link::{LinkSettings, Master, line_keeps_the_procedures, master_matches_the_log};
use session::{Session, session_keeps_the_standard};
use std::alloc::Global;
use std::marker::Model;
use thiserror::Error;

/// Memory was refused.
#[derive(Clone, Copy, Debug, PartialEq, Eq, Error)]
#[error("no memory")]
pub struct NoMemory;

/// The greatest moment, in milliseconds. One past it counts as this one.
pub const LAST_MOMENT: u64 = 999_999_999_999_999;

/// What octets of a connection bring.
#[derive(Clone, Copy)]
pub(crate) enum Arrival {
    /// A whole APDU, which is to be taken, and how many of the octets are its.
    Whole(usize),
    /// The beginning of an APDU.
    More,
    /// No APDU and no beginning of one.
    Refused,
}

/// The gateway between a line and one connection at a time: what it keeps of the line, what it
/// keeps of the control centre, and the greatest moment so far.
#[derive(Drop)]
pub struct Gateway {
    serial: SerialSide,
    centre: CentreSide,
    // The sizes and the moment stand beside the two sides, since both read them (docs/DECISIONS.md,
    // "The gateway's two sides").
    sizes: Sizes,
    moment: u64,
    /// What the wall clock showed last.
    wall: Option<Wall>,
}

impl Model for Gateway {
    ghost use Rattle.gateway.specs.State.{State, HasPlaces};

    ghost Value = { State };

    ghost view = { λ a. record {
      serial = a.serial;
      centre = a.centre;
      sizes = a.sizes;
      moment = a.moment;
      wall = a.wall;
    } };

    // While a poll is out, or is sent again at once, three places are free.
    ghost invariant = { λ a. HasPlaces a.serial.line a.centre.queue };
}

/// What the line is set to.
fn link_settings(line: &LineSettings) -> LinkSettings
    ensures { result ≡ link_of line.now }
{
    LinkSettings {
        size: line.link,
        answer_ms: line.answer_ms,
        retries: line.retries,
        hold: line.silence == Silence::Hold,
        burst: line.burst,
    }
}

/// The primary station of the line.
fn master(alloc: Global, config: &Config) -> Result<Master, NoMemory>
    ensures { IfOk result (λ m. m ≡ start (link_of config.now.line)
        (map (λ (s : StationSettings). s.address) config.now.stations)) }
{
    let addresses: Vec<u16> = config
        .stations()
        .iter()
        .map(|s| s.address)
        .collect(alloc)
        .map_err(|_| NoMemory)?;
    Master::new(alloc, link_settings(config.line()), &addresses).map_err(|_| NoMemory)
}

/// What is known of the stations to which commands go.
fn station_infos(alloc: Global, config: &Config) -> Result<Vec<StationInfo>, NoMemory>
    ensures all { IfOk result (λ infos. infos.items ≡ map info_of config.now.stations) }
    ensures few { IfOk result (λ infos. length infos.items ≤ 32) }
{
    let mut infos = Vec::new(alloc);
    for station in config.stations() {
        let info = StationInfo {
            ca: station.ca,
            select: station.select,
        };
        infos.push(info).map_err(|_| NoMemory)?;
    }
    Ok(infos)
}

/// The commands to the stations.
fn commands(alloc: Global, config: &Config) -> Result<Commands, NoMemory>
    ensures { IfOk result (λ c. c ≡ tasks.new_state (map info_of config.now.stations)
        config.now.line.sizes config.now.tcp.select_ms
        config.now.tcp.max_age_ms) }
{
    let stations = station_infos(alloc, config)?;
    Commands::new(
        alloc,
        &stations,
        config.line().sizes,
        config.tcp().select_ms,
        config.tcp().max_age_ms,
    )
    .map_err(|_| NoMemory)
}

/// An empty queue.
fn empty_queue(alloc: Global, config: &Config) -> Result<Events, NoMemory>
    ensures { IfOk result (λ e. e ≡ empty config.now.line.queue) }
{
    Events::new(alloc, usize::from(config.line().queue)).map_err(|_| NoMemory)
}

/// The session without a connection.
fn closed_session(alloc: Global, config: &Config) -> Result<Session, NoMemory>
    ensures { IfOk result (λ s. s ≡ new_session config.now.tcp.k config.now.tcp.w
        config.now.tcp.t1_ms config.now.tcp.t2_ms config.now.tcp.t3_ms) }
{
    let tcp = config.tcp();
    Session::new(alloc, tcp.k, tcp.w, tcp.t1_ms, tcp.t2_ms, tcp.t3_ms).map_err(|_| NoMemory)
}

/// The line's side of a new gateway.
fn serial_side(alloc: Global, config: &Config) -> Result<SerialSide, NoMemory>
    ensures { IfOk result (λ s. s ≡ first_serial (setup_of config.now)) }
{
    Ok(SerialSide {
        line: master(alloc, config)?,
        commands: commands(alloc, config)?,
        counts: Tally {
            skipped: 0,
            mirrors: 0,
            lost: 0,
        },
        silent: None,
        gap: None,
    })
}

/// The control centre's side of a new gateway.
fn centre_side(alloc: Global, config: &Config) -> Result<CentreSide, NoMemory>
    ensures { IfOk result (λ s.
        s ≡ first_centre (session_of config.now.tcp) config.now.line.queue) }
{
    Ok(CentreSide {
        session: closed_session(alloc, config)?,
        assembler: Assembler::new(),
        queue: empty_queue(alloc, config)?,
    })
}

impl Gateway {
    /// A gateway at moment 0, without a connection. Only want of memory is answered by an `Err`.
    pub fn new(alloc: Global, config: &Config) -> Result<Gateway, NoMemory>
        ensures first { IfOk result (λ s. s ≡ first_state config.now) }
        // It may begin with any port that gives an empty log.
        ensures begins { IfOk result (λ s. Follows (setup_of config.now) s (Some [])) }
    {
        master_matches_the_log();
        line_keeps_the_procedures();
        session_keeps_the_standard();
        commands_keep_the_rules();
        faultless_commands_pass();
        let _stations = config.stations();
        let gateway = Gateway::at_first(alloc, config)?;
        Ok(gateway)
    }

    /// The parts of a new gateway.
    fn at_first(alloc: Global, config: &Config) -> Result<Gateway, NoMemory>
        ensures { IfOk result (λ s. s ≡ first_state config.now) }
    {
        Ok(Gateway {
            serial: serial_side(alloc, config)?,
            centre: centre_side(alloc, config)?,
            sizes: config.line().sizes,
            moment: 0,
            wall: None,
        })
    }

    /// What was dropped, given up or spoilt since the gateway was made.
    pub fn counts(&self) -> Counts
        ensures { result ≡ counts_of self.now }
    {
        let Tally {
            skipped,
            mirrors,
            lost,
        } = self.serial.counts;
        Counts {
            skipped,
            mirrors,
            lost,
            spoilt: self.serial.line.spoilt(),
        }
    }

    /// The pieces that no connection has acknowledged, oldest first: ASDUs in the sizes of the
    /// connection.
    pub fn kept(&self) -> Kept<'_>
        ensures { result ≡ kept self.now.centre.queue }
    {
        self.centre.queue.kept()
    }

    /// Moments that go back count as the greatest so far, and one past the last as the last.
    pub(crate) fn advance_to(&mut self, now: u64)
        ensures { self.new ≡ at_moment self.old now }
    {
        // The bound keeps each sum of a moment and a setting far below 64 bits.
        self.moment = self.moment.max(now.min(LAST_MOMENT));
    }

    /// The wall clock shows this now.
    pub(crate) fn set_wall(&mut self, number: u64)
        ensures { self.new ≡ with_wall number self.old }
    {
        let moment = self.moment;
        self.wall = Some(Wall { moment, number });
    }

    /// What the wall clock shows at the moment of the step, if that is known.
    fn wall(&self) -> Option<u64>
        ensures { result ≡ wall_now self.now }
    {
        match self.wall {
            None => None,
            Some(wall) => Some(wall.at(self.moment)),
        }
    }

    /// What the wall clock showed last, if that is known.
    pub fn last_wall(&self) -> Option<Wall>
        ensures { result ≡ self.now.wall }
    {
        self.wall
    }

    /// What is kept of commands: those that wait, selections, and own answers that weren't sent. A
    /// restart gives up all of these.
    pub fn commands(&self) -> &Commands
        ensures { result.now ≡ self.now.serial.commands }
    {
        &self.serial.commands
    }

    /// The primary station of the line.
    pub fn line(&self) -> &Master
        ensures { result.now ≡ self.now.serial.line }
    {
        &self.serial.line
    }

    /// The greatest moment so far, in milliseconds: that of the step. The clock of a run that goes
    /// on begins there.
    pub fn moment(&self) -> u64
        ensures { result ≡ self.now.moment }
    {
        self.moment
    }
}
