//! What holds of requests, exchanges and stations.
pub(crate) mod asking;
pub(crate) mod at_once;
pub(crate) mod beginnings;
pub(crate) mod bursts;
pub(crate) mod carrying;
pub(crate) mod commands;
pub(crate) mod flags;
pub(crate) mod gaps;
pub(crate) mod hearing;
pub(crate) mod leave;
pub(crate) mod life;
pub(crate) mod logging;
pub(crate) mod precedence;
pub(crate) mod refinement;
pub(crate) mod restarts;
pub(crate) mod runs;
pub(crate) mod tables;
pub(crate) mod visits;

ghost use Rattle.std.specs.Prelude.{◌≡◌, ◌<◌, ◌++◌, [], ◌∷◌, ℕ, Bool, List, All};
ghost use Rattle.std.specs.Prelude.{length, slice_index, Option, Some, option_and_then};
ghost use Rattle.ft12.specs.declared.frame.LinkSize.{LinkSize};
ghost use Rattle.ft12.specs.Fronts.{front_of};
ghost use Rattle.ft12.specs.Spelling.{spelling};
ghost use Rattle.link.specs.Answers.{Asked};
ghost use Rattle.link.specs.Exchanges.{Exchanges, OpenExchange, Sending, IsOutstanding};
ghost use Rattle.link.specs.Exchanges.{no_exchanges, received_current, timed_current, begun_by};
ghost use Rattle.link.specs.Exchanges.{whole_of, view, reports_of_exchanges};
ghost use Rattle.link.specs.LineLaws.{LineLaws};
ghost use Rattle.link.specs.Procedure.{LinkSettings};
ghost use Rattle.link.specs.Requests.{request_frame, FitsAddress, FitsAsked, asked_in};
ghost use Rattle.link.specs.Requests.{request_in};
ghost use Rattle.link.specs.Primary.{Primary, start, asked, sending, request_of, received};
ghost use Rattle.link.specs.Primary.{received_outcome, timed_out};
ghost use Rattle.link.specs.Runs.{AreUserData, FitsLine};
ghost use Rattle.link.specs.Turns.{CommandsWaiting};
ghost use Rattle.link.specs.Matching.{Matches, report_in, IsFittingSending};

use crate::laws::asking::next_changes_nothing;
use crate::laws::commands::commands_are_those_that_wait;
use crate::laws::gaps::gaps_are_reported;
use crate::laws::leave::rests_mean;
use crate::laws::runs::outcomes_are_answers;
use ft12::front_is_computed;

/// What a request's octets ask for, and of whom, is the request.
pub fn requests_are_read_back()
    ensures whole { (size : LinkSize) (address : ℕ) (request : Asked) → FitsAddress size address →
        FitsAsked size request →
        request_in size (spelling size (request_frame address request)) ≡ Some (address, request) }
    ensures front { (size : LinkSize) (address : ℕ) (request : Asked) → FitsAddress size address →
        FitsAsked size request →
        option_and_then asked_in (whole_of
        (front_of size (spelling size (request_frame address request)))) ≡ Some (address, request) }
{
    front_is_computed();
}

/// A primary station's state says of the exchanges of its line what they are: from the start on,
/// and through each call. So its requests keep the frame count bit of each station.
pub fn master_matches_the_log()
    ensures start { (settings : LinkSettings) (addresses : List ℕ) → 0 < length addresses →
        All (FitsAddress settings.size) addresses →
        Matches settings addresses (start settings addresses) no_exchanges }
    ensures octets { (settings : LinkSettings) (addresses : List ℕ) (p : Primary) (e : Exchanges)
        (octets : List ℕ) → Matches settings addresses p e →
        Matches settings addresses (received (front_of p.settings.size) p octets) (record {
          ended = e.ended;
          current = received_current octets e.current;
        }) }
    ensures due { (settings : LinkSettings) (addresses : List ℕ) (p : Primary) (e : Exchanges)
        (at : ℕ) → Matches settings addresses p e →
        Matches settings addresses (timed_out p at) (record {
          ended = e.ended;
          current = timed_current settings.answer_ms at e.current;
        }) }
    ensures next { (settings : LinkSettings) (addresses : List ℕ) (p : Primary) (e : Exchanges)
        (now : ℕ) (may_poll : Bool) (waiting : CommandsWaiting) → FitsLine p may_poll waiting →
        Matches settings addresses p e →
        Matches settings addresses (asked p now may_poll waiting)
        (begun_by now (sending p may_poll waiting) e) }
{
    front_is_computed();
}

/// Through the calls of a primary station, the reports of the exchanges grow by exactly those that
/// the outcomes bear.
pub fn outcomes_bear_the_reports()
    ensures octets { (settings : LinkSettings) (addresses : List ℕ) (p : Primary) (e : Exchanges)
        (octets : List ℕ) → Matches settings addresses p e →
        reports_of_exchanges (front_of settings.size) (λ i. slice_index addresses i) (record {
          ended = e.ended;
          current = received_current octets e.current;
        })
        ≡ reports_of_exchanges (front_of settings.size) (λ i. slice_index addresses i) e
        ++ report_in (received_outcome (front_of p.settings.size) p octets) }
    ensures due { (size : LinkSize) (address : ℕ → ℕ) (answer_ms at : ℕ) (e : Exchanges) →
        reports_of_exchanges (front_of size) address (record {
          ended = e.ended;
          current = timed_current answer_ms at e.current;
        })
        ≡ reports_of_exchanges (front_of size) address e }
    ensures next { (size : LinkSize) (address : ℕ → ℕ) (now : ℕ) (s : Option Sending)
        (e : Exchanges) →
        reports_of_exchanges (front_of size) address (begun_by now s e)
        ≡ reports_of_exchanges (front_of size) address e }
{
    front_is_computed();
}

/// A request of a primary station is a station's, and fits the line if what waits does. It goes out
/// only while no exchange is outstanding.
pub fn requests_wait_their_turn()
    ensures fit { (settings : LinkSettings) (addresses : List ℕ) (p : Primary) (e : Exchanges)
        (may_poll : Bool) (waiting : CommandsWaiting) (s : Sending) →
        FitsLine p may_poll waiting → Matches settings addresses p e →
        sending p may_poll waiting ≡ Some s → IsFittingSending settings addresses s }
    ensures carried { (settings : LinkSettings) (addresses : List ℕ) (p : Primary)
        (e : Exchanges) (may_poll : Bool) (waiting : CommandsWaiting) →
        AreUserData settings.size waiting → Matches settings addresses p e →
        FitsLine p may_poll waiting }
    ensures octets { (settings : LinkSettings) (addresses : List ℕ) (p : Primary) (e : Exchanges)
        (s : Sending) → Matches settings addresses p e →
        (request_of p s).octets.items
        ≡ spelling settings.size (request_frame (slice_index addresses s.station) s.request) }
    ensures alone { (settings : LinkSettings) (addresses : List ℕ) (p : Primary) (e : Exchanges)
        (may_poll : Bool) (waiting : CommandsWaiting) (s : Sending) (x : OpenExchange) →
        Matches settings addresses p e → sending p may_poll waiting ≡ Some s →
        e.current ≡ Some x →
        IsOutstanding (slice_index addresses x.station) (view (front_of settings.size) x).exchange →
        ⊥ }
{}

/// What holds of a primary station and of the exchanges of its line, call by call: what the laws
/// above and those of commands, rests, outcomes and gaps say, in one record.
pub fn line_keeps_the_procedures()
    ensures { LineLaws }
{
    master_matches_the_log();
    outcomes_bear_the_reports();
    gaps_are_reported();
    outcomes_are_answers();
    requests_wait_their_turn();
    requests_are_read_back();
    rests_mean();
    next_changes_nothing();
    commands_are_those_that_wait();
}
