//! The outstations, played on.
ghost use Rattle.sim.specs.Scenarios.{FitsScenario};

use crate::stations::outstations::Outstations;
use crate::stations::place::OutstationServer;
use crate::stations::scenario::Scenario;
use crate::stations::timed_server::TimedServer;
use gateway::Config;
use link::NoMemory;
use live::{Listener, RunClock};
use std::alloc::Global;
use std::thread;
use std::time::Duration;

/// How long it is from one look to the next, in ms. Far below the time that an answer may take.
const LOOK_MS: u64 = 1;

/// Does so many rounds, each at the moment that the clock gives then, with a pause behind each.
pub fn play<R: std::rt::Clock, C: RunClock, L: Listener + Drop>(
    rt: &R,
    clock: &mut C,
    server: &mut TimedServer<L>,
    rounds: u64,
) {
    for _ in 0..rounds {
        let now = clock.now_ms();
        server.round(now);
        thread::sleep(rt, Duration::from_millis(LOOK_MS));
    }
}

/// Plays the outstations of a text behind a listener, so many rounds. An `Err` is want of memory;
/// then nobody was accepted.
pub fn serve<R: std::rt::Clock, C: RunClock, L: Listener + Drop>(
    rt: &R,
    alloc: Global,
    config: &Config,
    scenario: Scenario,
    clock: &mut C,
    listener: L,
    rounds: u64,
) -> Result<TimedServer<L>, NoMemory>
    requires { FitsScenario config.now scenario }
{
    let outstations = Outstations::new(alloc, config, scenario)?;
    let mut server = TimedServer::new(OutstationServer::new(outstations, listener));
    play(rt, clock, &mut server, rounds);
    Ok(server)
}
