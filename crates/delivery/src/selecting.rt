//! Select before operate, on each log.
ghost use Rattle.std.specs.Prelude.{◌≡◌, ◌<◌, ◌≤◌, ◌+◌, ◌++◌, ◌∷◌, ℕ, true, List, Option, None};
ghost use Rattle.asdu.specs.Asdu.{AsduValue};
ghost use Rattle.command.specs.History.{History, HistoryEntry, Judged, Sent, Accepted, Mirrored};
ghost use Rattle.command.specs.Passing.{FindsPlaces};
ghost use Rattle.command.specs.Standard.{cause_of_fault, executes, have_one_target};
ghost use Rattle.command.specs.Standard.{must_be_selected, selects, station_of};
ghost use Rattle.gateway.specs.Course.{Course, Runs};
ghost use Rattle.gateway.specs.Log.{Log};
ghost use Rattle.gateway.specs.Reports.{Setup};
ghost use Rattle.delivery.specs.Selecting.{EndsSelection, IsSelectedBy, IsThrough, SelectsNothing};

use gateway::courses_keep_commands;

/// Each execute to a station that asks for selects has a select of its own (IEC 60870-5-101, 6.8
/// and 7.2.6). None is forwarded before one, nor behind what ends its selection, until a select of
/// its object is forwarded again. Such ends are that of the connection, an execute and a
/// deactivation of that object with which nothing is wrong, and a station's refusal of it. So no
/// select lets two executes through. The latest select of the object counts and no other. It went
/// out in its turn, its station accepted it, and it was confirmed in time.
pub fn each_execute_has_a_select_of_its_own()
    ensures before { (p : Setup) (log : Log) (c : Course) (newer older : History) (now : ℕ)
        (wall : Option ℕ) (xs : List ℕ) → Runs p log c →
        c.works.history ≡ newer ++ Judged now wall xs None ∷ older →
        must_be_selected p.stations xs ≡ true → executes xs ≡ true →
        SelectsNothing xs older → ⊥ }
    ensures behind { (p : Setup) (log : Log) (c : Course) (newer since earlier : History)
        (end : HistoryEntry) (now : ℕ) (wall : Option ℕ) (xs : List ℕ) → Runs p log c →
        c.works.history ≡ newer ++ Judged now wall xs None ∷ (since ++ end ∷ earlier) →
        must_be_selected p.stations xs ≡ true → executes xs ≡ true →
        EndsSelection p xs end → SelectsNothing xs since → ⊥ }
    ensures latest { (p : Setup) (log : Log) (c : Course) (newer since earlier : History)
        (now came : ℕ) (wall clock : Option ℕ) (xs ys : List ℕ) → Runs p log c →
        c.works.history ≡ newer ++ Judged now wall xs None
        ∷ (since ++ Judged came clock ys None ∷ earlier) →
        must_be_selected p.stations xs ≡ true → executes xs ≡ true →
        selects ys ≡ true → have_one_target xs ys ≡ true → SelectsNothing xs since →
        IsSelectedBy p ys came (Judged came clock ys None ∷ earlier) since earlier xs now }
{
    courses_keep_commands();
}

/// What `each_execute_has_a_select_of_its_own` asks for is enough. A select was forwarded, went out
/// in its turn, was accepted by its station and confirmed in time. Then an execute comes in time,
/// of its type, its addresses, its element and its test bit. It is forwarded if nothing else is
/// wrong with it and there are places for it. Originators and time tags may differ. Commands to
/// other objects, other stations' answers and what stands on other lines don't matter, and
/// neither does what came before the select (IEC 60870-5-101, 6.8 and 7.2.6).
pub fn selects_let_their_execute_through()
    ensures { (p : Setup) (log : Log) (c : Course)
        (newer later between stood waited earlier : History) (now came con : ℕ)
        (wall clock : Option ℕ) (xs ys octets : List ℕ) (answer : Option (List ℕ))
        (confirmation : AsduValue) → Runs p log c →
        c.works.history ≡ newer ++ Judged now wall xs answer
        ∷ (later ++ Mirrored con confirmation
        ∷ (between ++ Accepted (station_of p.stations ys)
        ∷ (stood ++ Sent (station_of p.stations ys) octets
        ∷ (waited ++ Judged came clock ys None ∷ earlier)))) →
        IsThrough p ys xs came con now confirmation later between stood waited
        (Judged came clock ys None ∷ earlier) earlier →
        executes xs ≡ true → cause_of_fault p.sizes p.stations p.max_age_ms wall xs ≡ None →
        must_be_selected p.stations xs ≡ true →
        FindsPlaces p.stations xs (later ++ Mirrored con confirmation
        ∷ (between ++ Accepted (station_of p.stations ys)
        ∷ (stood ++ Sent (station_of p.stations ys) octets
        ∷ (waited ++ Judged came clock ys None ∷ earlier)))) → answer ≡ None }
{
    courses_keep_commands();
}
