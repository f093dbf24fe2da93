//! What waits for the line: commands, requests and polls. What a line at rest leaves.
ghost use Rattle.std.specs.Prelude.{◌≡◌, ◌⊎◌, ◌↔◌, ◌<◌, ◌≤◌, ◌+◌, ℕ, Bool, true, false, List, []};
ghost use Rattle.std.specs.Prelude.{◌∷◌, ◌++◌, length, Some, None};
ghost use Rattle.link.specs.Delivery.{pending_after};
ghost use Rattle.link.specs.Exchanges.{Exchange};
ghost use Rattle.link.specs.Flags.{clear, flags_after};
ghost use Rattle.link.specs.Leave.{holds_poll};
ghost use Rattle.link.specs.Procedure.{holds_command, link_after, IsUp};
ghost use Rattle.link.specs.Runs.{Call, Next};
ghost use Rattle.link.specs.Turns.{CommandsWaiting};
ghost use Rattle.link.specs.declared.procedure.Link.TheVariants.{Down};
ghost use Rattle.link.specs.declared.service.Service.TheVariants.{Class1, Class2};
ghost use Rattle.link.specs.declared.settings.LinkSettings.{LinkSettings};
ghost use Rattle.command.specs.History.{next_octets};
ghost use Rattle.command.specs.State.{octets_waiting};
ghost use Rattle.gateway.specs.Calling.{Asks, EndsStep};
ghost use Rattle.gateway.specs.Course.{Course, here_of, Runs};
ghost use Rattle.gateway.specs.Frames.{Connection, acknowledged_reports};
ghost use Rattle.gateway.specs.Line.{IsLineAtRest, IsWaiting, done_in};
ghost use Rattle.gateway.specs.Log.{Log, LogEntry, Input, Came, Restarted};
ghost use Rattle.gateway.specs.Log.{latest};
ghost use Rattle.gateway.specs.Reports.{Setup, address_at, exchanges_with, parts_of_all};
ghost use Rattle.gateway.specs.Reports.{reports_in};
ghost use Rattle.gateway.specs.Traffic.{IsAtRest, IsFaithful};
ghost use Rattle.delivery.specs.Closing.{AreTaken};

use gateway::polls_need_three_places;

/// Whichever station a command was forwarded to, it waits for that station's turn until it goes
/// out: each request is asked for with the oldest one that waits for each station. So is one in a
/// step without a request. If the line rests and no exchange is outstanding, no station holds a
/// command. None waits for a station then, unless DFC stood in its latest answer, or a poll of it
/// is held that had no answer (IEC 60870-5-2): a poll that the exchanges show without an outcome.
/// What waits is told once all that came is taken, and leave to poll is given exactly while three
/// places are free.
pub fn commands_wait_for_each_station()
    ensures asked { (p : Setup) (log : Log) (calls : List Call) → Asks p log calls →
        (course : Course) × Runs p log course × (room : Bool) × (waiting : CommandsWaiting)
        × (calls ≡ Next (latest log) room waiting ∷ []) × ((station : ℕ) → waiting station
        ≡ next_octets p.sizes p.stations p.select_ms p.max_age_ms station course.works.history) }
    ensures unasked { (p : Setup) (log : Log) (calls : List Call) → EndsStep p log true calls →
        Asks p log calls }
    ensures holds { (p : Setup) (log : Log) (c : Course) (connections : List Connection)
        (station : ℕ) → IsLineAtRest p log c connections → (IsWaiting p log → ⊥) →
        station < length p.addresses → holds_command (link_after p.link
        (address_at p.addresses station) Down (exchanges_with p station log)) ≡ false }
    ensures rests { (p : Setup) (log : Log) (c : Course) (connections : List Connection)
        (station : ℕ) → IsLineAtRest p log c connections → (IsWaiting p log → ⊥) →
        station < length p.addresses →
        (octets_waiting station (done_in p log c).serial.commands ≡ None)
        ⊎ ((flags_after (address_at p.addresses station) clear
        (exchanges_with p station log)).dfc ≡ true)
        ⊎ (holds_poll (link_after p.link (address_at p.addresses station) Down
        (exchanges_with p station log)) ≡ true) }
    ensures held { (settings : LinkSettings) (station : ℕ) (xs : List Exchange) →
        holds_poll (link_after settings station Down xs) ≡ true →
        (pending_after station None xs ≡ Some Class1)
        ⊎ (pending_after station None xs ≡ Some Class2) }
    ensures all { (p : Setup) (log : Log) (calls : List Call) → Asks p log calls →
        (course : Course) × Runs p log course × AreTaken log course.talk × (room : Bool)
        × (waiting : CommandsWaiting) × (calls ≡ Next (latest log) room waiting ∷ [])
        × ((station : ℕ) → waiting station
        ≡ next_octets p.sizes p.stations p.select_ms p.max_age_ms station course.works.history)
        × ((room ≡ true) ↔ (parts_of_all p.sizes (reports_in p log) + 3
        ≤ p.places + acknowledged_reports (here_of course ∷ course.earlier))) }
{
    polls_need_three_places();
}

/// A line rests only for want of room. If a step leaves no exchange outstanding, each link is up,
/// and fewer than three places of the queue are free. Each piece of a report taken has a place
/// until it is acknowledged. So the gateway starts each link, and polls while there is room
/// (profile). So it is whenever the next event comes, and by all that had come until then.
pub fn a_line_rests_only_for_want_of_room()
    ensures full { (p : Setup) (log : Log) → IsAtRest p log → (IsWaiting p log → ⊥) →
        (c : Course) × Runs p log c
        × (p.places + acknowledged_reports (here_of c ∷ c.earlier)
        < parts_of_all p.sizes (reports_in p log) + 3) }
    ensures up { (p : Setup) (log : Log) (station : ℕ) → IsAtRest p log →
        (IsWaiting p log → ⊥) → station < length p.addresses →
        IsUp p.link (address_at p.addresses station) (exchanges_with p station log) }
    ensures between { (p : Setup) (newer older : Log) (at : ℕ) (event : Input)
        (entry : LogEntry) → IsFaithful p (newer ++ Came at event ∷ entry ∷ older) →
        ((moment : ℕ) → entry ≡ Came moment Restarted → ⊥) → (IsWaiting p (entry ∷ older) → ⊥) →
        (c : Course) × Runs p (entry ∷ older) c × AreTaken (entry ∷ older) c.talk
        × (p.places + acknowledged_reports (here_of c ∷ c.earlier)
        < parts_of_all p.sizes (reports_in p (entry ∷ older)) + 3)
        × ((station : ℕ) → station < length p.addresses →
        IsUp p.link (address_at p.addresses station) (exchanges_with p station (entry ∷ older))) }
{}
