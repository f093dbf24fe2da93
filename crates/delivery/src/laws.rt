//! The laws.
ghost use Rattle.std.specs.Prelude.{◌≡◌, ◌≢◌, ◌<◌, ◌≤◌, ◌++◌, ℕ, true, false, List, length, Some};
ghost use Rattle.std.specs.Prelude.{flat_map, [], ◌∷◌};
ghost use Rattle.std.specs.List.{AllByRecursion};
ghost use Rattle.ft12.specs.Fronts.{front_of};
ghost use Rattle.link.specs.declared.answer.Answer.TheVariants.{Unable};
ghost use Rattle.link.specs.Exchanges.{answer_to};
ghost use Rattle.link.specs.Outstation.{Turn, all_done};
ghost use Rattle.link.specs.Delivery.{learnt, reports, HasReports, AcceptsSendings};
ghost use Rattle.link.specs.Delivery.{AcceptsAllSendings};
ghost use Rattle.link.specs.Gaps.{ended_with_gap, gaps_at};
ghost use Rattle.gateway.specs.Log.{Log, Went, LineOut, GapOut};
ghost use Rattle.gateway.specs.Reports.{Setup, address_at, exchanges_of, exchanges_with};
ghost use Rattle.gateway.specs.Config.{Settings, AreStations};
ghost use Rattle.gateway.specs.Gaps.{gaps_reported};
ghost use Rattle.gateway.specs.Setups.{setup_of};
ghost use Rattle.link.specs.Procedure.{AskNoneThatIsUp};
ghost use Rattle.link.specs.declared.procedure.Link.TheVariants.{Down};
ghost use Rattle.gateway.specs.Traffic.{IsFaithful, HasRested};
ghost use Rattle.delivery.specs.Delivery.{IsHonest, IsSteady, reports_from, Delivers};
ghost use Rattle.delivery.specs.Delivery.{before_sessions, sessions_of, IsIdle, IsOneLife};
ghost use Rattle.delivery.specs.Sessions.{ended, given_in, taken_in, session_counts};
ghost use Rattle.delivery.specs.Sessions.{LoseAsReported, gaps_on};
ghost use Rattle.delivery.specs.Joined.{IsSetUp};
ghost use Rattle.delivery.specs.Merges.{values_of};

use crate::commands::each_command_is_given_once;
use crate::exchanges::the_line_is_its_exchanges;
use command::waiting_commands_stay;
use gateway::logs_keep_turns;
use link::{
    commands_are_accepted, each_service_acts_once, gaps_are_ended_sessions, giving_up_is_logged,
    reports_are_learnt, sessions_are_known,
};

/// Whatever serial frames are lost or refused by their check, whatever answers time out, however
/// TCP is cut and reopened: if serial answers are neither late nor altered unseen and no link reset
/// is caused, the monitor objects sent on each connection are a contiguous run, equal in all parts,
/// of a merge of the outstations' reports, beginning at the first unacknowledged. Each command that
/// is put on the line for the first time, and each that an honest outstation accepted, is one of
/// the control centre's, given once; an activation with a time tag came while that was fresh.
pub fn nothing_is_lost()
    ensures { (p : Setup) (log : Log) → IsFaithful p log → Delivers p log }
{
    each_service_acts_once();
    commands_are_accepted();
    each_command_is_given_once();
}

/// Without the premise on resets: in each session of the link, from one confirmed reset to the
/// next, the same holds. What was taken, and what the outstation gave and accepted, is what the
/// sessions' exchanges bore, joined: of each session all reports, or all but the last. Before the
/// first session there was nothing.
pub fn each_session_is_known()
    ensures reports { (p : Setup) (log : Log) (i : ℕ) (turns : List Turn) → IsFaithful p log →
        i < length p.addresses → IsHonest p log i turns →
        AllByRecursion (λ s. HasReports (address_at p.addresses i) s) (sessions_of p log i turns) }
    ensures joined { (p : Setup) (log : Log) (i : ℕ) (turns : List Turn) → IsFaithful p log →
        i < length p.addresses → IsHonest p log i turns →
        flat_map (λ s. reports (learnt (address_at p.addresses i) s.exchanges))
        (sessions_of p log i turns) ≡ reports_from p log i }
    ensures commands { (p : Setup) (log : Log) (i : ℕ) (turns : List Turn) → IsFaithful p log →
        i < length p.addresses → IsHonest p log i turns →
        AllByRecursion (λ s. AcceptsSendings (address_at p.addresses i) s)
        (sessions_of p log i turns) }
    ensures all_commands { (p : Setup) (log : Log) (i : ℕ) (turns : List Turn) → IsFaithful p log →
        i < length p.addresses → IsHonest p log i turns →
        AllByRecursion (λ s. AcceptsAllSendings (address_at p.addresses i) s)
        (sessions_of p log i turns) }
    ensures done { (p : Setup) (log : Log) (i : ℕ) (turns : List Turn) → IsFaithful p log →
        i < length p.addresses → IsHonest p log i turns →
        flat_map (λ s. all_done s.turns) (sessions_of p log i turns) ≡ all_done turns }
    ensures before { (p : Setup) (log : Log) (i : ℕ) (turns : List Turn) → IsFaithful p log →
        i < length p.addresses → IsHonest p log i turns →
        IsIdle (address_at p.addresses i) (before_sessions p log i turns) }
    ensures whole { (p : Setup) (log : Log) (i : ℕ) (turns : List Turn) → IsHonest p log i turns →
        (before_sessions p log i turns).exchanges
        ++ flat_map (λ s. s.exchanges) (sessions_of p log i turns) ≡ exchanges_with p i log }
{
    sessions_are_known();
    reports_are_learnt();
    commands_are_accepted();
}

/// If reports may be lost the log says so: between steps, each session of an honest outstation's
/// link that ended lost no report, or is reported as a gap, by its number from 1, and lost its last
/// report at most. Nothing else is reported as a gap. Of each station, honest or not, those
/// sessions are reported that ended while a poll had no outcome. So no gap is told if nothing can
/// be lost.
pub fn losses_are_reported()
    ensures lost { (p : Setup) (log : Log) (i : ℕ) (turns : List Turn) → IsFaithful p log →
        HasRested p log → i < length p.addresses → IsHonest p log i turns →
        LoseAsReported (address_at p.addresses i) 1 (sessions_of p log i turns)
        (gaps_reported i log) }
    ensures told { (p : Setup) (log : Log) (i : ℕ) (turns : List Turn) → IsFaithful p log →
        HasRested p log → i < length p.addresses →
        length (exchanges_with p i log) ≡ length turns →
        gaps_reported i log
        ≡ ended_with_gap (address_at p.addresses i) 1 (sessions_of p log i turns) }
{
    each_session_is_known();
    gaps_are_ended_sessions();
    giving_up_is_logged();
}

/// Each gap is reported under the number of its own station: what is reported of a station are, of
/// all gaps of the log, those with its number, in their order, each by the number of its session.
pub fn gaps_are_reported_by_their_station()
    ensures { (i : ℕ) (log : Log) → gaps_reported i log ≡ values_of i (gaps_on log) }
{}

/// A gap is told at once. When it is told, it is the next of its station's sessions that ended with
/// one, and no other station has a gap that is untold. Before a request goes to the line each gap
/// is told. So the control centre knows of a loss before the line goes on (profile).
pub fn gaps_are_told_before_the_next_request()
    ensures told { (p : Setup) (newer log : Log) (now station session : ℕ) →
        IsFaithful p (newer ++ Went now (GapOut station session) ∷ log) →
        gaps_at (front_of p.link.size) p.addresses station (exchanges_of p log)
        ≡ gaps_reported station log ++ session ∷ [] }
    ensures others { (p : Setup) (newer log : Log) (now station session other : ℕ) →
        IsFaithful p (newer ++ Went now (GapOut station session) ∷ log) → station ≢ other →
        gaps_at (front_of p.link.size) p.addresses other (exchanges_of p log)
        ≡ gaps_reported other log }
    ensures asked { (p : Setup) (newer log : Log) (now : ℕ) (octets : List ℕ) (station : ℕ) →
        IsFaithful p (newer ++ Went now (LineOut octets) ∷ log) →
        gaps_at (front_of p.link.size) p.addresses station (exchanges_of p log)
        ≡ gaps_reported station log }
{}

/// Of the reports that the outstation gave in sessions that ended, at most as many were not taken
/// as there are gaps: a session without a gap loses none, and one with a gap at most its last.
pub fn losses_have_gaps()
    ensures lost { (p : Setup) (log : Log) (i : ℕ) (turns : List Turn) → IsFaithful p log →
        i < length p.addresses → IsHonest p log i turns →
        (session_counts p log i turns).lost ≤ (session_counts p log i turns).gaps }
    ensures taken { (p : Setup) (log : Log) (i : ℕ) (turns : List Turn) → IsFaithful p log →
        i < length p.addresses → IsHonest p log i turns →
        taken_in (address_at p.addresses i) (ended (sessions_of p log i turns))
        ≤ given_in (ended (sessions_of p log i turns)) }
{
    each_session_is_known();
}

/// If unanswered services are held, a link stays up as long as its station never answers that it
/// can't serve (14 or 15), no restart gives up a command to it, and it isn't asked for its status
/// while it is up. In one life of a gateway there is no restart, and none that is up is asked.
pub fn silence_is_no_reset()
    ensures held { (p : Setup) (log : Log) (i : ℕ) → IsFaithful p log → i < length p.addresses →
        p.link.hold ≡ true →
        AllByRecursion (λ x. answer_to (address_at p.addresses i) x ≢ Some Unable)
        (exchanges_with p i log) →
        AllByRecursion (λ x. x.given_up ≡ false) (exchanges_with p i log) →
        AskNoneThatIsUp p.link (address_at p.addresses i) Down (exchanges_with p i log) →
        IsSteady p log i }
    ensures one_life { (p : Setup) (log : Log) (i : ℕ) → IsOneLife log →
        AllByRecursion (λ x. x.given_up ≡ false) (exchanges_with p i log) }
    ensures none_asked { (c : Settings) (log : Log) (i : ℕ) →
        AreStations c.line.link c.line.sizes.ca c.stations → IsFaithful (setup_of c) log →
        IsOneLife log → AskNoneThatIsUp (setup_of c).link (address_at (setup_of c).addresses i)
        Down (exchanges_with (setup_of c) i log) }
{
    logs_keep_turns();
    link::silence_is_no_reset();
}

/// What keeps every promise has kept it at each moment: each beginning of its log keeps them all,
/// between two steps and in the middle of one. So they hold while a run goes on, and of a run that
/// was cut off, and not at its end alone. (The log has its newest entry first.)
pub fn promises_hold_at_each_moment()
    ensures { (p : Setup) (newer log : Log) → IsSetUp p → IsFaithful p (newer ++ log) →
        IsFaithful p log }
{
    the_line_is_its_exchanges();
    waiting_commands_stay();
}
