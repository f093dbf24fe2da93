//! Turns end: what goes out to a station in one turn, and how long the others wait.
ghost use Rattle.std.specs.Prelude.{◌≡◌, ◌≢◌, ◌≤◌, ◌<◌, ◌+◌, ◌*◌, ◌-◌, ◌∷◌, ◌++◌, ℕ, List, All};
ghost use Rattle.std.specs.Prelude.{length};
ghost use Rattle.ft12.specs.Fronts.{front_of};
ghost use Rattle.link.specs.Answers.{Reset};
ghost use Rattle.link.specs.Exchanges.{Exchange, all_of, no_exchanges, views};
ghost use Rattle.link.specs.Procedure.{LinkSettings, Link, Down};
ghost use Rattle.link.specs.Requests.{FitsAddress};
ghost use Rattle.link.specs.Primary.{start};
ghost use Rattle.link.specs.Runs.{Call, MayCallAll, called_all, exchanged_all};
ghost use Rattle.link.specs.Visits.{AreInVisits, EndsReady, IsVisit, most_of_visit, whole_visit};
ghost use Rattle.link.specs.OneVisit.{TurnsAreVisits};
ghost use Rattle.link.specs.Waits.{AlwaysWants, stations_asked, waited};

use ft12::front_is_computed;

/// Whatever is called, the exchanges of the line are visits, one after another, each of one
/// station. A station that is down is asked its status and then reset; what is answered that it
/// can't be served, or not at all, ends the visit. One that is up is sent the service that it
/// holds, then at most one new command, one class 2 poll and `burst` class 1 polls, each repeated
/// at most `retries` times, and only while it has no answer. A status to a station that is up takes
/// the place of the service that it holds. So a visit has an end. A reset goes
/// out directly after a status of its own visit that was answered: no visit begins with one.
pub fn turns_end()
    ensures visits { (settings : LinkSettings) (addresses : List ℕ) (calls : List Call) →
        0 < length addresses → All (FitsAddress settings.size) addresses → 0 < settings.burst →
        MayCallAll (start settings addresses) calls →
        AreInVisits settings addresses
        (views (front_of settings.size)
        (all_of (exchanged_all (start settings addresses) calls no_exchanges))) }
    ensures most { (settings : LinkSettings) (station : ℕ) (link : Link) (xs : List Exchange) →
        IsVisit settings station link xs →
        length xs ≤ most_of_visit settings }
    ensures resets { (settings : LinkSettings) (station : ℕ) (link : Link)
        (before later : List Exchange) (x : Exchange) →
        IsVisit settings station link (before ++ x ∷ later) → x.request ≡ Reset →
        EndsReady station before }
{
    front_is_computed();
}

/// From any moment on, a station of which something is left to be asked each time that a request
/// goes out is asked before more requests have gone to the others than they have in one visit each:
/// between two of its visits each other station has at most one. Calls at which nothing goes out,
/// as for want of leave, may come between, and change nothing of it.
pub fn no_station_starves()
    ensures { (settings : LinkSettings) (addresses : List ℕ) (first later : List Call)
        (station : ℕ) →
        0 < length addresses → All (FitsAddress settings.size) addresses → 0 < settings.burst →
        station < length addresses →
        MayCallAll (start settings addresses) first →
        MayCallAll (called_all (start settings addresses) first) later →
        AlwaysWants (called_all (start settings addresses) first) station later →
        waited station 0 (stations_asked
        (called_all (start settings addresses) first) later) ≤ most_of_visit settings *
        (length addresses - 1) }
{
    front_is_computed();
}

/// Whatever is called, a turn is one visit. The first is the first station's. A request goes on
/// with the visit only as far as that still has it, and a held service only while it has repeats.
/// The visit is over, too, when nothing went out when something might have. Then the first station
/// has its visit, round from the one behind it, that has a request. It is the same station again
/// only if no other has one. So `burst` and the one new command are limits while others wait.
pub fn a_turn_is_one_visit()
    ensures { (settings : LinkSettings) (addresses : List ℕ) (calls : List Call) →
        0 < length addresses → All (FitsAddress settings.size) addresses → 0 < settings.burst →
        MayCallAll (start settings addresses) calls →
        TurnsAreVisits (start settings addresses)
        (record { station = 0; left = whole_visit settings Down }) calls }
{
    front_is_computed();
}
