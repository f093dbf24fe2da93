//! Commands go before polls.
ghost use Rattle.std.specs.Prelude.{◌≡◌, ◌≢◌, ◌<◌, ◌≤◌, ℕ, suc, List, ◌∷◌, length};
ghost use Rattle.link.specs.Primary.{Primary};
ghost use Rattle.link.specs.Runs.{Call};
ghost use Rattle.link.specs.Precedence.{CommandsGoFirst};

/// A command that waits for a station goes out before any new poll of the station, also behind a
/// service that was held, unless DFC stood in the station's latest answer: whatever is called, it
/// is passed only by what was left of a visit that had begun before it waited, at most one poll of
/// class 2 and `burst` of class 1, and by none once a request went to another station or nothing
/// went out. Behind a command that goes out for the first time what waits is the next one: that is
/// passed by no more polls than a whole visit has.
pub fn commands_go_before_polls()
    ensures { (p : Primary) (station : ℕ) (calls : List Call) →
        CommandsGoFirst p station (suc p.settings.burst) calls }
{}
