//! A whole run over a simulated line, printed while it goes on.
ghost use Rattle.std.specs.Prelude.{◌≡◌, ℕ, List, Option};
ghost use Rattle.gateway.specs.Config.{Settings, AreStations};
ghost use Rattle.gateway.specs.Setups.{setup_of};
ghost use Rattle.gateway.specs.Traffic.{IsFaithful, HasRested};
ghost use Rattle.traces.specs.Pouring.{IsPoured};
ghost use Rattle.traces.specs.Actions.{lines_of_actions};
ghost use Rattle.sim.specs.declared.directive.Directive.{Directive};
ghost use Rattle.sim.specs.Calls.{calls_in};
ghost use Rattle.sim.specs.Lives.{plan_of};
ghost use Rattle.sim.specs.Losses.{turns_of};
ghost use Rattle.sim.specs.Scripts.{FitsSettings};
ghost use Rattle.sim.specs.Simulations.{IsClosedBy, IsSimulation};

use crate::fault::SimFault;
use crate::script::Script;
use crate::sim::Sim;
use gateway::{Config, End, Gateway};
use std::alloc::Global;
use std::io;
use std::io::Write;
use traces::{drive_printed, print};

/// Runs a gateway with these settings as a script for them says, and prints a line for each action
/// as it is made, and then the closing lines: one for each station, one for each connection, and
/// one for each station whose link had more than one session.
///
/// The run is that of a gateway that keeps every promise, over honest stations: whatever the script
/// loses or spoils, what went to the control centre on each connection is a contiguous run of a
/// merge of what was taken from the stations, and with `silence` held what was taken from each is
/// what it gave, or all but its last report. The closing lines have the numbers of that run.
///
/// `Write` is answered if the output takes no octet or fails. The run goes on to its end and prints
/// nothing more, so that what was printed is a beginning of the whole text. After `NoMemory`
/// nothing was printed, or a beginning of the lines of a run's actions.
pub fn simulate<W: Write>(
    alloc: Global,
    config: &Config,
    script: &Script,
    out: &mut W,
) -> Result<(), SimFault>
    requires { FitsSettings config.now script.now }
    ensures { IsSimulation config.now script.now (W.contents out.old) (W.contents out.new) result }
{
    run(alloc, config, script, false, out, &mut io::sink())
}

/// The same as [`simulate`], and a long run writes to `err` how far it has come; whether that takes
/// it changes nothing.
pub fn simulate_watched<W: Write, E: Write>(
    alloc: Global,
    config: &Config,
    script: &Script,
    out: &mut W,
    err: &mut E,
) -> Result<(), SimFault>
    requires { FitsSettings config.now script.now }
    ensures { IsSimulation config.now script.now (W.contents out.old) (W.contents out.new) result }
{
    // One run with one contract (docs/DECISIONS.md, "`simulate_watched`").
    run(alloc, config, script, true, out, err)
}

/// Runs the gateway as a script says, watched or not.
fn run<W: Write, E: Write>(
    alloc: Global,
    config: &Config,
    script: &Script,
    is_watched: bool,
    out: &mut W,
    err: &mut E,
) -> Result<(), SimFault>
    requires { FitsSettings config.now script.now }
    ensures { IsSimulation config.now script.now (W.contents out.old) (W.contents out.new) result }
{
    let _stations = config.stations();
    let mut gateway = Gateway::new(alloc, config)?;
    let mut sim = Sim::new(alloc, config, script)?;
    let turns = script.turns();
    let (end, is_whole) = drive_printed(&mut gateway, &mut sim, turns, true, is_watched, out, err);
    let _page_is_clear = sim.page();
    match end {
        End::Turns => close(alloc, &sim, is_whole, out),
        End::Finished => close(alloc, &sim, is_whole, out),
        // The page wanted memory.
        End::Device => Err(SimFault::NoMemory),
    }
}

/// Prints the closing lines of a run, when all others were printed.
fn close<W: Write>(
    alloc: Global,
    sim: &Sim<'_>,
    is_whole: bool,
    out: &mut W,
) -> Result<(), SimFault>
    ensures { (c : Settings) (ds : List Directive) (before : Option (List ℕ)) →
        sim.now.plan ≡ plan_of c ds →
        AreStations c.line.link c.line.sizes.ca c.stations →
        calls_in sim.now.log ≡ turns_of ds → IsFaithful (setup_of c) sim.now.log →
        HasRested (setup_of c) sim.now.log →
        IsPoured is_whole before (W.contents out.old) (lines_of_actions sim.now.log) →
        IsSimulation c ds before (W.contents out.new) result }
{
    let _page_is_clear = sim.page();
    match sim.closing(alloc) {
        Ok(lines) => print_closing(lines.as_bytes(), is_whole, out),
        Err(_) => Err(SimFault::NoMemory),
    }
}

/// Prints the lines with which a run ends, when all others were printed.
fn print_closing<W: Write>(lines: &[u8], is_whole: bool, out: &mut W) -> Result<(), SimFault>
    ensures { (before : Option (List ℕ)) (text : List ℕ) →
        IsPoured is_whole before (W.contents out.old) text →
        IsClosedBy before (W.contents out.new) text lines.now result }
{
    // Closing lines behind lines that are missing would pass for a whole run's.
    if !is_whole {
        return Err(SimFault::Write);
    }
    match print(lines, out) {
        Ok(()) => Ok(()),
        Err(_) => Err(SimFault::Write),
    }
}
