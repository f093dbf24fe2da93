//! What I frames wait for, and what they bear.
ghost use Rattle.std.specs.Prelude.{◌≡◌, ◌∷◌, ℕ};
ghost use Rattle.gateway.specs.Log.{Log};
ghost use Rattle.gateway.specs.Reports.{Setup, taken_pieces};
ghost use Rattle.gateway.specs.Course.{Course, here_of, Runs};
ghost use Rattle.gateway.specs.GoingOut.{AnswersGoOut, BearWholePieces};

use command::commands_keep_the_rules;
use ft12::front_is_computed;
use link::{giving_up_is_logged, line_keeps_the_procedures};

/// Each frame with monitor objects bears one piece of one report. On the open connection of a log,
/// and on each before it, the ASDUs of these frames are, octet by octet, the pieces of the reports
/// taken: in order, none left out, merged or cut, from the first on that no connection before
/// acknowledged.
pub fn frames_bear_whole_pieces()
    ensures { (p : Setup) (log : Log) (c : Course) → Runs p log c →
        BearWholePieces (taken_pieces p log) (here_of c ∷ c.earlier) }
{
    front_is_computed();
    line_keeps_the_procedures();
    giving_up_is_logged();
}

/// Each own answer goes out. Of those that were kept on the open connection the oldest are, octet
/// by octet and in order, the I frames that went out without monitor objects. All others wait. So
/// none is dropped, none goes out twice, and none that wasn't kept. A log that ends earlier shows
/// the same of the connections before.
pub fn own_answers_go_out()
    ensures { (p : Setup) (log : Log) (c : Course) → Runs p log c → AnswersGoOut c }
{
    commands_keep_the_rules();
}
