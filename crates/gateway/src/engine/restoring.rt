//! A gateway out of the lines of a state.
ghost use Rattle.std.specs.Prelude.{◌≡◌, ℕ, List, ◌∷◌, ◌++◌, length, map, Option, Some, None, All};
ghost use Rattle.std.specs.Prelude.{is_some, true, IfSome, IfOk, OnOk, MatchOption, MatchResult};
ghost use Rattle.checkpoint.specs.declared.StateFault.TheVariants.{Wrong};
ghost use Rattle.apci.specs.Assembly.{IsResumable, so_far_numbers};
ghost use Rattle.apci.specs.Reading.{IsMore};
ghost use Rattle.apci.specs.Spelling.{IsOctet};
ghost use Rattle.link.specs.Primary.{Primary};
ghost use Rattle.link.specs.Restored.{primary_lines, IsStateOf, IsSavable as IsSavableLine};
ghost use Rattle.session.specs.Session.{from_queue, Session as Machine};
ghost use Rattle.session.specs.Restored.{session_lines, IsSavable as IsSavableSession};
ghost use Rattle.session.specs.Restored.{HasSettings as HasSessionSettings};
ghost use Rattle.command.specs.State.{State as Tasks};
ghost use Rattle.command.specs.Restored.{commands_lines, IsSavable as AreSavableCommands};
ghost use Rattle.command.specs.Restored.{HasSettings as HaveCommandSettings};
ghost use Rattle.gateway.specs.declared.counts.Tally.{Tally as Counted};
ghost use Rattle.gateway.specs.Setups.{link_of, info_of, setup_of};
ghost use Rattle.gateway.specs.Serial.{Serial};
ghost use Rattle.gateway.specs.Centre.{Centre};
ghost use Rattle.gateway.specs.State.{State, HasPlaces, IsBetweenSteps};
ghost use Rattle.gateway.specs.Log.{Log};
ghost use Rattle.gateway.specs.Agrees.{Follows};
ghost use Rattle.gateway.specs.Restored.{clock_line, tally_line, serial_lines, centre_lines};
ghost use Rattle.gateway.specs.Restored.{state_lines};
ghost use Rattle.gateway.specs.Restored.{clock_of, clock_from, clock_numbers, tally_from};
ghost use Rattle.gateway.specs.Restored.{IsSaid, IsSavableSerial, IsSavableCentre, IsSavable};
ghost use Rattle.gateway.specs.Restored.{IsSerialSaid};
ghost use Rattle.gateway.specs.Restored.{HasSerialSettings, HasCentreSettings, HasSettings};

use super::centre::CentreSide;
use super::serial::SerialSide;
use super::{Gateway, link_settings, station_infos};
use crate::config::Config;
use crate::counts::Tally;
use crate::laws::settings_are_kept;
use crate::walls::Wall;
use apci::Assembler;
use asdu::Sizes;
use checkpoint::{Lines, StateFault};
use command::Commands;
use events::Events;
use link::Master;
use session::Session;
use std::alloc::Global;

/// What the first line of a state says.
#[derive(Clone, Copy)]
pub(crate) struct ClockLine {
    pub(crate) moment: u64,
    pub(crate) wall: Option<Wall>,
}

fn clock_from(numbers: &[u64]) -> Option<ClockLine>
    ensures { result ≡ clock_from numbers.now }
{
    match numbers {
        [moment] => Some(ClockLine {
            moment: *moment,
            wall: None,
        }),
        [moment, since, number] => Some(ClockLine {
            moment: *moment,
            wall: Some(Wall {
                moment: *since,
                number: *number,
            }),
        }),
        _ => None,
    }
}

fn tally_from(numbers: &[u64]) -> Option<Tally>
    ensures { result ≡ tally_from numbers.now }
{
    match numbers {
        [skipped, mirrors, lost] => Some(Tally {
            skipped: *skipped,
            mirrors: *mirrors,
            lost: *lost,
        }),
        _ => None,
    }
}

fn read_clock<L: Lines>(lines: &mut L, line: &mut Vec<u64>) -> Result<ClockLine, StateFault>
    ensures back { (s : State) (rest : List (List ℕ)) → L.coming lines.old ≡ clock_line s ∷ rest →
        MatchResult result (λ c. (c ≡ clock_of s) × (L.coming lines.new ≡ rest))
        (λ fault. fault ≡ Wrong → ⊥) }
    ensures exact { IfOk result (λ c. L.coming lines.old ≡ clock_numbers c ∷ L.coming lines.new) }
{
    lines.next(line)?;
    match clock_from(line.as_slice()) {
        Some(clock) => Ok(clock),
        None => Err(StateFault::Wrong),
    }
}

fn read_tally<L: Lines>(lines: &mut L, line: &mut Vec<u64>) -> Result<Tally, StateFault>
    ensures back { (t : Counted) (rest : List (List ℕ)) → L.coming lines.old ≡ tally_line t ∷ rest →
        MatchResult result (λ r. (r ≡ t) × (L.coming lines.new ≡ rest))
        (λ fault. fault ≡ Wrong → ⊥) }
    ensures exact { IfOk result (λ r. L.coming lines.old ≡ tally_line r ∷ L.coming lines.new) }
{
    lines.next(line)?;
    match tally_from(line.as_slice()) {
        Some(tally) => Ok(tally),
        None => Err(StateFault::Wrong),
    }
}

/// Puts the octets that numbers are in place of these. `Wrong` says that one is above 255.
fn octets_from(numbers: &[u64], octets: &mut Vec<u8>) -> Result<(), StateFault>
    ensures back { All IsOctet numbers.now → MatchResult result
        (λ _. octets.new.items ≡ numbers.now) (λ fault. fault ≡ Wrong → ⊥) }
    ensures exact { OnOk result (octets.new.items ≡ numbers.now) }
{
    octets.clear();
    for number in numbers {
        if *number > 255 {
            return Err(StateFault::Wrong);
        }
        let Ok(()) = octets.push(*number as u8) else {
            return Err(StateFault::NoMemory);
        };
    }
    Ok(())
}

/// An assembler that has these octets of an APDU, and is still to receive more.
fn resumed(octets: &[u8]) -> Option<Assembler>
    ensures back { IsMore octets.now → MatchOption result ⊥
        (λ a. (a.so_far ≡ Some octets.now) × (a.whole ≡ None)) }
    ensures exact { IfSome result (λ a. a.so_far ≡ Some octets.now) }
    ensures listens { IfSome result (λ a. is_some a.so_far ≡ true) }
    ensures taken { IfSome result (λ a. a.whole ≡ None) }
{
    let mut assembler = Assembler::resumed(octets);
    // A step takes what is whole, and begins afresh after a refusal. So neither stands between two
    // steps.
    if assembler.take().is_some() || assembler.is_deaf() {
        return None;
    }
    Some(assembler)
}

/// Reads the octets of an APDU that isn't whole. `octets` is a place for them.
fn read_assembler<L: Lines>(
    lines: &mut L,
    line: &mut Vec<u64>,
    octets: &mut Vec<u8>,
) -> Result<Assembler, StateFault>
    ensures back { (octets : List ℕ) (rest : List (List ℕ)) → IsResumable octets →
        L.coming lines.old ≡ so_far_numbers (Some octets) ∷ rest →
        MatchResult result (λ a. (a.so_far ≡ Some octets) × (a.whole ≡ None)
        × (L.coming lines.new ≡ rest)) (λ fault. fault ≡ Wrong → ⊥) }
    ensures exact { IfOk result (λ a.
        L.coming lines.old ≡ so_far_numbers a.so_far ∷ L.coming lines.new) }
    ensures listens { IfOk result (λ a. is_some a.so_far ≡ true) }
    ensures taken { IfOk result (λ a. a.whole ≡ None) }
{
    lines.next(line)?;
    let [1, numbers @ ..] = line.as_slice() else {
        return Err(StateFault::Wrong);
    };
    octets_from(numbers, octets)?;
    match resumed(octets.as_slice()) {
        Some(assembler) => Ok(assembler),
        None => Err(StateFault::Wrong),
    }
}

/// Reads what became of commands.
fn read_commands<L: Lines>(
    alloc: Global,
    config: &Config,
    lines: &mut L,
    line: &mut Vec<u64>,
) -> Result<Commands, StateFault>
    ensures back { (s : Tasks) (rest : List (List ℕ)) → AreSavableCommands s →
        HaveCommandSettings (map info_of config.now.stations) config.now.line.sizes
        config.now.tcp.select_ms config.now.tcp.max_age_ms s →
        L.coming lines.old ≡ commands_lines s ++ rest →
        MatchResult result (λ c. (c ≡ s) × (L.coming lines.new ≡ rest))
        (λ fault. fault ≡ Wrong → ⊥) }
    ensures exact { IfOk result (λ c.
        L.coming lines.old ≡ commands_lines c ++ L.coming lines.new) }
{
    let stations = station_infos(alloc, config).map_err(|_| StateFault::NoMemory)?;
    let tcp = config.tcp();
    Commands::read_state(
        alloc,
        stations.as_slice(),
        config.line().sizes,
        tcp.select_ms,
        tcp.max_age_ms,
        lines,
        line,
    )
}

/// Reads the line's primary station.
fn read_master<L: Lines>(
    alloc: Global,
    config: &Config,
    lines: &mut L,
    line: &mut Vec<u64>,
) -> Result<Master, StateFault>
    ensures back { (p : Primary) (rest : List (List ℕ)) → IsSavableLine p →
        p.settings ≡ link_of config.now.line →
        length p.stations ≡ length config.now.stations →
        L.coming lines.old ≡ primary_lines p ++ rest →
        MatchResult result (λ m. (m ≡ p) × (L.coming lines.new ≡ rest))
        (λ fault. fault ≡ Wrong → ⊥) }
    ensures exact { IfOk result (λ m. IsStateOf m (L.coming lines.old) (L.coming lines.new)) }
{
    let count = config.stations().len();
    Master::read_state(alloc, link_settings(config.line()), count, lines, line)
}

/// Reads the session of the connection.
fn read_session<L: Lines>(
    alloc: Global,
    config: &Config,
    lines: &mut L,
    line: &mut Vec<u64>,
) -> Result<Session, StateFault>
    ensures back { (s : Machine) (rest : List (List ℕ)) → IsSavableSession s →
        HasSessionSettings s config.now.tcp.k config.now.tcp.w config.now.tcp.t1_ms
        config.now.tcp.t2_ms config.now.tcp.t3_ms →
        L.coming lines.old ≡ session_lines s ++ rest →
        MatchResult result (λ r. (r ≡ s) × (L.coming lines.new ≡ rest))
        (λ fault. fault ≡ Wrong → ⊥) }
    ensures exact { IfOk result (λ r.
        L.coming lines.old ≡ session_lines r ++ L.coming lines.new) }
{
    let tcp = config.tcp();
    Session::read_state(
        alloc, tcp.k, tcp.w, tcp.t1_ms, tcp.t2_ms, tcp.t3_ms, lines, line,
    )
}

impl SerialSide {
    /// Reads what is counted, the line and what became of commands.
    fn read_state<L: Lines>(
        alloc: Global,
        config: &Config,
        lines: &mut L,
        line: &mut Vec<u64>,
    ) -> Result<SerialSide, StateFault>
        ensures back { (s : Serial) (rest : List (List ℕ)) → IsSavableSerial s →
            HasSerialSettings config.now s → (s.silent ≡ None) × (s.gap ≡ None) →
            L.coming lines.old ≡ serial_lines s ++ rest →
            MatchResult result (λ r. (r ≡ s) × (L.coming lines.new ≡ rest))
            (λ fault. fault ≡ Wrong → ⊥) }
        ensures exact { IfOk result (λ s.
            IsSerialSaid s (L.coming lines.old) (L.coming lines.new)) }
        ensures logged { IfOk result (λ s. (s.silent ≡ None) × (s.gap ≡ None)) }
    {
        let counts = read_tally(lines, line)?;
        let master = read_master(alloc, config, lines, line)?;
        let commands = read_commands(alloc, config, lines, line)?;
        Ok(SerialSide {
            line: master,
            commands,
            counts,
            silent: None,
            gap: None,
        })
    }
}

impl CentreSide {
    /// These parts, if the queue's pieces that are sent are those that the session counts.
    fn joined(
        session: Session,
        assembler: Assembler,
        queue: Events,
    ) -> Result<CentreSide, StateFault>
        requires { is_some assembler.so_far ≡ true }
        ensures { MatchResult result
            (λ s. s ≡ record {
              session = session;
              so_far = assembler.so_far;
              arrived = assembler.whole;
              queue = queue;
            })
            (λ fault. from_queue session.unacknowledged ≡ length queue.sent → ⊥) }
    {
        // What the session acknowledges leaves the queue, so both count the same pieces.
        if session.queue_frames() != queue.sent() {
            return Err(StateFault::Wrong);
        }
        Ok(CentreSide {
            session,
            assembler,
            queue,
        })
    }

    /// Reads the octets of an APDU that isn't whole, the session and the queue.
    fn read_state<L: Lines>(
        alloc: Global,
        config: &Config,
        lines: &mut L,
        line: &mut Vec<u64>,
        octets: &mut Vec<u8>,
    ) -> Result<CentreSide, StateFault>
        ensures back { (s : Centre) (rest : List (List ℕ)) → IsSavableCentre s →
            HasCentreSettings config.now s → s.arrived ≡ None →
            L.coming lines.old ≡ centre_lines s ++ rest →
            MatchResult result (λ r. (r ≡ s) × (L.coming lines.new ≡ rest))
            (λ fault. fault ≡ Wrong → ⊥) }
        ensures exact { IfOk result (λ s.
            L.coming lines.old ≡ centre_lines s ++ L.coming lines.new) }
        ensures taken { IfOk result (λ s. s.arrived ≡ None) }
    {
        let assembler = read_assembler(lines, line, octets)?;
        let session = read_session(alloc, config, lines, line)?;
        let places = usize::from(config.line().queue);
        let queue = Events::read_state(alloc, places, lines, line, octets)?;
        CentreSide::joined(session, assembler, queue)
    }
}

impl Gateway {
    /// These parts, if three places are free while a poll is out.
    fn joined(
        sizes: Sizes,
        clock: ClockLine,
        serial: SerialSide,
        centre: CentreSide,
    ) -> Result<Gateway, StateFault>
        ensures { MatchResult result
            (λ s. s ≡ record {
              serial = serial;
              centre = centre;
              sizes = sizes;
              moment = clock.moment;
              wall = clock.wall;
            })
            (λ fault. HasPlaces serial.line centre.queue → ⊥) }
    {
        // A poll goes out only if its report has room, so no gateway is in such a state.
        if serial.line.is_polling() && !centre.has_room() {
            return Err(StateFault::Wrong);
        }
        Ok(Gateway {
            serial,
            centre,
            sizes,
            moment: clock.moment,
            wall: clock.wall,
        })
    }

    /// Reads all that is kept but the settings.
    fn read_parts<L: Lines>(
        alloc: Global,
        config: &Config,
        lines: &mut L,
        line: &mut Vec<u64>,
        octets: &mut Vec<u8>,
    ) -> Result<Gateway, StateFault>
        ensures back { (s : State) (rest : List (List ℕ)) → IsSavable s →
            HasSettings config.now s → L.coming lines.old ≡ state_lines s ++ rest →
            MatchResult result (λ g. (g ≡ s) × (L.coming lines.new ≡ rest))
            (λ fault. fault ≡ Wrong → ⊥) }
        ensures exact { IfOk result (λ g. IsSaid g (L.coming lines.old) (L.coming lines.new)) }
        ensures between { IfOk result IsBetweenSteps }
    {
        let clock = read_clock(lines, line)?;
        let serial = SerialSide::read_state(alloc, config, lines, line)?;
        let centre = CentreSide::read_state(alloc, config, lines, line, octets)?;
        Gateway::joined(config.line().sizes, clock, serial, centre)
    }

    /// A gateway with these settings, out of the lines of a state that [`Gateway::put_state`] has
    /// put: it is in the same state, and so it follows what the one that was put has followed. What
    /// comes behind the lines is left. The lines of a state of a gateway with these settings are
    /// never refused as `Wrong`. `line` and `octets` are places for one line.
    pub fn read_state<L: Lines>(
        alloc: Global,
        config: &Config,
        lines: &mut L,
        line: &mut Vec<u64>,
        octets: &mut Vec<u8>,
    ) -> Result<Gateway, StateFault>
        ensures back { (s : State) (rest : List (List ℕ)) → IsSavable s →
            HasSettings config.now s → L.coming lines.old ≡ state_lines s ++ rest →
            MatchResult result (λ g. (g ≡ s) × (L.coming lines.new ≡ rest))
            (λ fault. fault ≡ Wrong → ⊥) }
        // The lineage: what is read follows the log that the one that was put has followed.
        ensures follows { (s : State) (rest : List (List ℕ)) (log : Log) → IsSavable s →
            Follows (setup_of config.now) s (Some log) →
            L.coming lines.old ≡ state_lines s ++ rest →
            MatchResult result
            (λ g. Follows (setup_of config.now) g (Some log) × (L.coming lines.new ≡ rest))
            (λ fault. fault ≡ Wrong → ⊥) }
        // So what isn't the lines of a state is refused.
        ensures exact { IfOk result (λ g. IsSaid g (L.coming lines.old) (L.coming lines.new)) }
        ensures between { IfOk result IsBetweenSteps }
    {
        settings_are_kept();
        Gateway::read_parts(alloc, config, lines, line, octets)
    }
}
