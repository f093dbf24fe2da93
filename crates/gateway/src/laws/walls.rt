//! The wall clock, on logs.
ghost use Rattle.std.specs.Prelude.{◌≡◌, ℕ, Some, None};
ghost use Rattle.gateway.specs.Log.{Log};
ghost use Rattle.gateway.specs.Walls.{wall_on, HasNoWall, ShowsAt};

/// The wall clock is known from the first event on that gives it: at each later moment it is what
/// the latest of these gave and the milliseconds since, however many they are. Before it isn't
/// known. So a command with a time tag is judged by it, whenever it comes.
pub fn the_wall_clock_is_known()
    ensures shown { (log : Log) (at clock : ℕ) → ShowsAt log at clock →
        wall_on log at ≡ Some clock }
    ensures unknown { (log : Log) (at : ℕ) → HasNoWall log → wall_on log at ≡ None }
{}
