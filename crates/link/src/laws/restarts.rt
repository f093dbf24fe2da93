//! What a restart makes of a station that may have been restarted, too.
ghost use Rattle.std.specs.Prelude.{◌≡◌, ◌<◌, ◌≤◌, ◌++◌, ◌∷◌, [], ℕ, Bool, None, true};
ghost use Rattle.std.specs.Prelude.{false, List, length, All, slice_index};
ghost use Rattle.link.specs.Carried.{awaits_command, doubted, station_doubted};
ghost use Rattle.link.specs.Leave.{is_polling};
ghost use Rattle.link.specs.Turns.{station_at};
ghost use Rattle.ft12.specs.Fronts.{front_of};
ghost use Rattle.link.specs.Doubts.{HaveNoRestart, StatusesFollowRestarts};
ghost use Rattle.link.specs.Answers.{Service, Counted};
ghost use Rattle.link.specs.Exchanges.{Exchange, answer_to};
ghost use Rattle.link.specs.Exchanges.{all_of, no_exchanges, views, with_station};
ghost use Rattle.link.specs.Probes.{answered_probes};
ghost use Rattle.link.specs.Primary.{Primary, start};
ghost use Rattle.link.specs.Procedure.{LinkSettings, Down, AskNoneThatIsUp, is_up, link_after};
ghost use Rattle.link.specs.Requests.{FitsAddress};
ghost use Rattle.link.specs.Runs.{Call, MayCallAll, exchanged_all};

use ft12::front_is_computed;

/// Whatever is called: a station that is up is asked for its status only behind a restart, and if
/// it has answered no service since, and is silent to one that has no repeat left. So without a
/// restart none that is up is asked for it.
pub fn statuses_follow_restarts()
    ensures unsure { (settings : LinkSettings) (addresses : List ℕ) (calls : List Call)
        (station : ℕ) → StatusesFollowRestarts (start settings addresses) station false calls }
    ensures none { (settings : LinkSettings) (addresses : List ℕ) (calls : List Call)
        (station : ℕ) → 0 < length addresses → All (FitsAddress settings.size) addresses →
        MayCallAll (start settings addresses) calls → HaveNoRestart calls →
        AskNoneThatIsUp settings (slice_index addresses station) Down
        (with_station station (views (front_of settings.size)
        (all_of (exchanged_all (start settings addresses) calls no_exchanges)))) }
{
    front_is_computed();
}

/// A restart changes of a station only that it isn't known whether it was restarted, too: it keeps
/// its link, and awaits what it awaited; and no poll is begun. Each station is unsure then.
pub fn restarts_change_no_link()
    ensures number { (p : Primary) → length (doubted p).stations ≡ length p.stations }
    ensures station { (p : Primary) (k : ℕ) → k < length p.stations →
        station_at (doubted p).stations k ≡ station_doubted (station_at p.stations k) }
    ensures unsure { (p : Primary) (k : ℕ) → k < length p.stations →
        (station_at (doubted p).stations k).unsure ≡ true }
    ensures link { (p : Primary) (k : ℕ) →
        (station_at (doubted p).stations k).link ≡ (station_at p.stations k).link }
    ensures awaited { (p : Primary) (k : ℕ) →
        awaits_command (doubted p) k ≡ awaits_command p k }
    ensures polls { (p : Primary) → is_polling (doubted p) ≡ is_polling p }
{}

/// If unanswered services are held, silence takes a link down only if its station has answered two
/// statuses since its latest service that was answered, and none was unanswered behind the first of
/// them. Each of the two goes out behind sendings of which no repeat is left
/// (`frame_count_bits_are_kept`), and behind a restart (`statuses_follow_restarts`). So a line that
/// is away, for however long, takes no link down.
pub fn silence_ends_a_link_behind_two_statuses()
    ensures { (settings : LinkSettings) (station : ℕ) (before : List Exchange) (x : Exchange)
        (fcb : Bool) (service : Service) → settings.hold ≡ true →
        x.request ≡ Counted fcb service → answer_to station x ≡ None → x.given_up ≡ false →
        is_up (link_after settings station Down before) ≡ true →
        is_up (link_after settings station Down (before ++ x ∷ [])) ≡ false →
        2 ≤ answered_probes station 0 before }
{}
