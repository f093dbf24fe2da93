//! What a station is asked for first in its turn, and what may go out at all.
ghost use Rattle.std.specs.Prelude.{◌≡◌, ◌⊎◌, ℕ, List, Option, None};
ghost use Rattle.std.specs.Prelude.{if◌then◌else◌};
ghost use Rattle.link.specs.AtOnce.{RepeatsComeAtOnce, TurnsGoOn};
ghost use Rattle.link.specs.Bursts.{BurstsGoOn, Other};
ghost use Rattle.link.specs.Carried.{reseated};
ghost use Rattle.link.specs.Primary.{Primary};
ghost use Rattle.link.specs.Procedure.{LinkSettings};
ghost use Rattle.link.specs.Runs.{Call};
ghost use Rattle.link.specs.Timing.{AnswersHaveTheirTime};
ghost use Rattle.link.specs.declared.seat.ResumedStation.{ResumedStation};

/// Behind new settings the procedures go on as behind a start, whatever the stations brought with
/// them, and whatever is called: an answer has its time, a service without one is sent again at
/// once, and a turn goes on behind a held service and while data of class 1 wait.
pub fn new_settings_keep_the_procedures()
    ensures time { (settings : LinkSettings) (seats : List ResumedStation) (p : Primary)
        (calls : List Call) → AnswersHaveTheirTime (reseated settings seats p) None calls }
    ensures repeats { (settings : LinkSettings) (seats : List ResumedStation) (p : Primary)
        (calls : List Call) → RepeatsComeAtOnce (reseated settings seats p) None calls }
    ensures held { (settings : LinkSettings) (seats : List ResumedStation) (p : Primary)
        (calls : List Call) → TurnsGoOn (reseated settings seats p) None calls }
    ensures bursts { (settings : LinkSettings) (seats : List ResumedStation) (p : Primary)
        (calls : List Call) → BurstsGoOn (reseated settings seats p) Other calls }
{}
