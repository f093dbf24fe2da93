//! What has a clock, and what reads the system's clocks.

use std::io;
use std::rt::Clock;
use std::time::{Instant, SystemTime};

/// What has a clock that can be looked at.
pub trait Timed {
    /// What the clock shows, in milliseconds. It never goes back. Nobody notes that it was asked.
    fn shown_ms(&self) -> u64;
}

/// What reads the system's clock that never goes back, and the wall clock. One that notes its calls
/// adds the answer of each.
pub trait SystemInstants {
    ghost use Rattle.std.specs.Prelude.{◌≡◌};
    ghost use Rattle.live.specs.Clocks.{Instants, WallTimes, instant_noted, wall_noted};

    /// What the system answered so far, the newest first, if it notes that.
    ghost instants: { Self → Instants };

    /// The same of the wall clock.
    ghost wall_times: { Self → WallTimes };

    /// What the clock that never goes back shows now.
    fn now<R: Clock>(&mut self, rt: &R) -> io::Result<Instant>
        ensures asked { instants self.new ≡ instant_noted result (instants self.old) }
        ensures others { wall_times self.new ≡ wall_times self.old };

    /// What the wall clock shows now.
    fn wall_time<R: Clock>(&mut self, rt: &R) -> io::Result<SystemTime>
        ensures asked { wall_times self.new ≡ wall_noted result (wall_times self.old) }
        ensures others { instants self.new ≡ instants self.old };
}

/// The system itself.
#[derive(Drop)]
pub struct HostInstants {}

// What the system's clocks show no clause of the kit's calls says.
impl SystemInstants for HostInstants {
    ghost use Rattle.std.specs.Prelude.{None};

    ghost instants = { λ _. None };

    ghost wall_times = { λ _. None };

    fn now<R: Clock>(&mut self, rt: &R) -> io::Result<Instant> {
        Instant::now(rt)
    }

    fn wall_time<R: Clock>(&mut self, rt: &R) -> io::Result<SystemTime> {
        SystemTime::now(rt)
    }
}
