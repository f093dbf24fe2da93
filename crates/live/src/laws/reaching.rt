//! Laws of how a line is reached, how streams are set, and how a clock begins.
ghost use Rattle.std.specs.Prelude.{◌≡◌, ◌⊎◌, ◌↔◌, ℕ, ◌+◌, ◌*◌, ◌-◌, ◌^◌, ◌<◌, ◌≤◌, List, [], ◌∷◌};
ghost use Rattle.std.specs.Prelude.{◌++◌, ◌≢◌};
ghost use Rattle.std.specs.Prelude.{Option, Some, Result, Ok, true, false};
ghost use Rattle.std.specs.Time.{instant_nanos};
ghost use Rattle.std.specs.declared.io.Error.{Error};
ghost use Rattle.std.specs.declared.time.Instant.{Instant};
ghost use Rattle.live.specs.Clocks.{BeginsAt, StartsNow, moment_by};
ghost use Rattle.live.specs.OctetStreams.{StreamHistory};
ghost use Rattle.live.specs.Reaching.{AsksOn, AtPath, DialsAt};
ghost use Rattle.live.specs.Reaching.{Opened, ReachStep};
ghost use Rattle.live.specs.Reaching.{Showed, Stood};
ghost use Rattle.live.specs.Reaching.{is_in_time};
ghost use Rattle.live.specs.Redial.{is_reached};
ghost use Rattle.live.specs.Streams.{Sets, SystemCall, Waits, as_centre, as_line};
ghost use Rattle.live.specs.declared.stream.Setting.TheVariants.{ReadsWithin, SendsAtOnce};
ghost use Rattle.live.specs.declared.stream.Setting.TheVariants.{WritesWithin};
ghost use Rattle.live.specs.declared.reach.Connecting.{Connecting};
ghost use Rattle.live.specs.declared.reach.ReachedStream.{ReachedStream};
ghost use Rattle.live.specs.declared.reach.Standing.TheVariants.{Through, UnderWay};
ghost use Rattle.live.specs.declared.redial.Dialled.{Dialled};
ghost use Rattle.live.specs.declared.redial.Dialled.TheVariants.{Pending};

/// A try reaches a line exactly if its connect came through and the stream can be used. So it is at
/// the socket of a path. A connect that is under way to an address goes on for 5 s and is kept.
/// Behind that, or if the clock can't be read, it doesn't: then more is asked for.
pub fn a_try_ends_as_its_connect_does()
    ensures reached { (connecting : Connecting) (steps after : List ReachStep)
        (answer : Dialled StreamHistory) (new : Option Connecting) →
        AsksOn (Some connecting) (Some steps) answer new (Some after) →
        (is_reached answer ≡ true)
        ↔ (after ≡ Opened connecting.stream true ∷ Stood connecting.stream Through ∷ steps) }
    ensures goes_on { (connecting : Connecting) (steps : List ReachStep) (now : Instant)
        (answer : Dialled StreamHistory) (new : Option Connecting) →
        AsksOn (Some connecting) (Some steps) answer new
        (Some (Showed (Ok now) ∷ Stood connecting.stream UnderWay ∷ steps)) →
        instant_nanos now - instant_nanos connecting.since ≤ 5000 * 1000000 →
        (answer ≡ Pending) × (new ≡ Some connecting) }
    ensures no_longer { (connecting : Connecting) (steps : List ReachStep)
        (shown : Result Instant Error) (answer : Dialled StreamHistory)
        (new : Option Connecting) →
        AsksOn (Some connecting) (Some steps) answer new
        (Some (Showed shown ∷ Stood connecting.stream UnderWay ∷ steps)) →
        (now : Instant) × (shown ≡ Ok now)
        × (instant_nanos now - instant_nanos connecting.since ≤ 5000 * 1000000) }
    ensures within { (since now : Instant) → (is_in_time since (Ok now) ≡ true)
        ↔ (instant_nanos now - instant_nanos since ≤ 5000 * 1000000) }
    ensures kept { (old new : Option Connecting) (steps after : List ReachStep)
        (answer : Dialled StreamHistory) → AsksOn old (Some steps) answer new (Some after) →
        answer ≡ Pending → (connecting : Connecting) × (new ≡ Some connecting) }
    ensures path { (path : List ℕ) (steps after : List ReachStep)
        (answer : Dialled StreamHistory) → DialsAt path answer (Some steps) (Some after) →
        (is_reached answer ≡ true) ↔ (stream : ReachedStream)
        × (after ≡ Opened stream true ∷ AtPath path (Ok stream) ∷ steps) }
{}

/// How long calls of a stream wait. At the line a look waits for 1 ms, a write for 20. Of a control
/// centre's connection no call waits but a write that is tried again, for 20 ms. What is written
/// goes out at once.
pub fn calls_of_streams_wait_so_long()
    ensures line { (calls : List SystemCall) → as_line (Some calls)
        ≡ Some (Sets (WritesWithin 20) true ∷ Sets (ReadsWithin 1) true ∷ Sets SendsAtOnce true
        ∷ calls) }
    ensures centre { (calls : List SystemCall) → as_centre (Some calls)
        ≡ Some (Waits false true ∷ Sets (ReadsWithin 1) true ∷ Sets (WritesWithin 20) true
        ∷ Sets SendsAtOnce true ∷ calls) }
{}

/// A clock begins at the moment that it is given. So many ms later by the system's clock it shows
/// so many ms more.
pub fn a_clock_begins_at_its_moment()
    ensures { (moment first now ms : ℕ) (before : List (Result Instant Error))
        (start shown later : Instant) → BeginsAt moment first now →
        StartsNow (Some before) start (Some (Ok shown ∷ before)) →
        instant_nanos shown + ms * 1000000 ≤ instant_nanos later →
        instant_nanos later < instant_nanos shown + (ms + 1) * 1000000 → moment + ms < 2 ^ 64 →
        moment_by first start now (Ok later) ≡ moment + ms }
{}
