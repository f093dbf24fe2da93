//! The command that plays the outstations of a script, to try a control centre with.
ghost use Rattle.std.specs.Prelude.{◌≡◌, IfErr, IfOk};
ghost use Rattle.gateway.specs.Config.{Settings};
ghost use Rattle.sim.specs.Scenarios.{FitsScenario};
ghost use Rattle.telegate.specs.Playing.{IsRead};
ghost use Rattle.telegate.specs.declared.fault.Fault.TheVariants.{NoMemory};

use crate::fault::Fault;
use gateway::Config;
use live::{Listener, RunClock};
use sim::{Scenario, TextFault, read_scenario, serve};
use std::alloc::{AllocError, Global};

/// What a text says to stations of these settings.
pub(crate) fn scenario_of(alloc: Global, config: &Config, text: &[u8]) -> Result<Scenario, Fault>
    ensures scenario { IsRead result }
    ensures fits { IfOk result (FitsScenario config.now) }
{
    match read_scenario(alloc, config, text) {
        Ok(scenario) => Ok(scenario),
        Err(TextFault::Line(n)) => Err(Fault::Script(n)),
        Err(TextFault::NoMemory) => Err(Fault::NoMemory),
    }
}

/// Plays the outstations of a text behind a listener, as long as rounds can be counted. An `Err` is
/// want of memory.
// It bears no text: the kit's borrow checker takes none from a call with such a listener.
pub(crate) fn play_behind<R: std::rt::Clock, C: RunClock, L: Listener + Drop>(
    rt: &R,
    alloc: Global,
    config: &Config,
    scenario: Scenario,
    clock: &mut C,
    listener: L,
) -> Result<(), AllocError>
    requires { FitsScenario config.now scenario }
{
    let Ok(_ended) = serve(rt, alloc, config, scenario, clock, listener, u64::MAX) else {
        return Err(AllocError);
    };
    Ok(())
}
