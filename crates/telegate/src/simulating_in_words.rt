//! Runs over simulated stations that are printed in words.
ghost use Rattle.std.specs.Prelude.{◌≡◌, ℕ, Bool, List, Option};
ghost use Rattle.gateway.specs.Config.{AreStations, Settings};
ghost use Rattle.gateway.specs.Setups.{setup_of};
ghost use Rattle.gateway.specs.Traffic.{HasRested, IsFaithful};
ghost use Rattle.words.specs.Ladders.{IsLadder};
ghost use Rattle.sim.specs.Calls.{calls_in};
ghost use Rattle.sim.specs.Lives.{plan_of};
ghost use Rattle.sim.specs.Losses.{turns_of};
ghost use Rattle.sim.specs.Scripts.{FitsSettings};
ghost use Rattle.sim.specs.declared.directive.Directive.{Directive};
ghost use Rattle.telegate.specs.Answers.{IsSimulationOf};
ghost use Rattle.telegate.specs.Manners.{style_of as style_for};
ghost use Rattle.telegate.specs.Printed.{IsPoured};
ghost use Rattle.telegate.specs.declared.manner.Manner.TheVariants.{Words};

use crate::fault::Fault;
use crate::manner::style_of;
use crate::printed::print_closing;
use gateway::{Config, End, Gateway};
use sim::{Script, Sim};
use std::alloc::Global;
use std::io::Write;
use words::{Ladder, Scribe, drive_in_words};

/// Runs the gateway as a script says, and prints its events and actions in words, and then the
/// closing lines.
pub(crate) fn simulate_in_words<W: Write>(
    alloc: Global,
    config: &Config,
    script: &Script,
    is_coloured: bool,
    out: &mut W,
) -> Result<(), Fault>
    requires { FitsSettings config.now script.now }
    ensures { IsSimulationOf (Words is_coloured) config.now script.now
        (W.contents out.old) (W.contents out.new) result }
{
    let _stations = config.stations();
    let mut gateway = Gateway::new(alloc, config)?;
    let Ok(sim) = Sim::new(alloc, config, script) else {
        return Err(Fault::NoMemory);
    };
    let scribe = Scribe::new(alloc, style_of(config, is_coloured));
    let mut ladder = Ladder::new(sim, scribe);
    let turns = script.turns();
    let (end, is_whole) = drive_in_words(&mut gateway, &mut ladder, turns, true, out);
    let _page_is_clear = ladder.page();
    let _line_stands = ladder.port().page();
    match end {
        End::Turns => close(alloc, ladder.port(), is_whole, out),
        End::Finished => close(alloc, ladder.port(), is_whole, out),
        // Memory was refused.
        End::Device => Err(Fault::NoMemory),
    }
}

/// Prints the lines with which a run ends, when all others were printed.
fn close<W: Write>(alloc: Global, sim: &Sim<'_>, is_whole: bool, out: &mut W) -> Result<(), Fault>
    ensures { (c : Settings) (ds : List Directive) (is_coloured : Bool) (before : Option (List ℕ))
        (words : List ℕ) → sim.now.plan ≡ plan_of c ds →
        AreStations c.line.link c.line.sizes.ca c.stations →
        calls_in sim.now.log ≡ turns_of ds → IsFaithful (setup_of c) sim.now.log →
        HasRested (setup_of c) sim.now.log →
        IsLadder (style_for c is_coloured) sim.now.log words →
        IsPoured is_whole before (W.contents out.old) words →
        IsSimulationOf (Words is_coloured) c ds before (W.contents out.new) result }
{
    let _line_stands = sim.page();
    match sim.closing(alloc) {
        Ok(lines) => print_closing(lines.as_bytes(), is_whole, out),
        Err(_) => Err(Fault::NoMemory),
    }
}
