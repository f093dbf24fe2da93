//! Polls go on: behind a command, and while data of class 1 wait.
ghost use Rattle.std.specs.Prelude.{◌≡◌, ℕ, List};
ghost use Rattle.link.specs.Bursts.{BurstsGoOn, Other};
ghost use Rattle.link.specs.Procedure.{LinkSettings};
ghost use Rattle.link.specs.Primary.{start};
ghost use Rattle.link.specs.Runs.{Call};

/// Whatever is called: if a poll of a station was answered with ACD set, at its first sending or
/// when it was repeated, and fewer than `burst` polls of class 1 went to the station in a row, the
/// next request is one more, if the caller has leave. So a turn has no fewer of them than `burst`,
/// while class 1 data wait. (`turns_end` says that it has no more.) If a new command was answered
/// so, the next request is the poll that ACD asks for, whatever else waits. (Behind a command that
/// was held before the turn `turns_go_on_behind_held_services` says what is next.) If nothing went
/// out meanwhile, for want of leave, the turn is over.
pub fn polls_go_on()
    ensures { (settings : LinkSettings) (addresses : List ℕ) (calls : List Call) →
        BurstsGoOn (start settings addresses) Other calls }
{}
