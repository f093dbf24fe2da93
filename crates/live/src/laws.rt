//! Laws of the port over live ends, in the terms of the clock, the requests and the looks at the
//! line.
pub(crate) mod arriving;
pub(crate) mod reaching;
pub(crate) mod showing;
pub(crate) mod tries;

ghost use Rattle.std.specs.Prelude.{◌⊎◌, ◌≡◌, ◌≢◌, All, IfSome, None, ◌+◌, ◌-◌, ◌<◌, ◌≤◌, ℕ, List};
ghost use Rattle.std.specs.Prelude.{[], ◌∷◌, Some, true, false};
ghost use Rattle.std.specs.Prelude.{◌*◌, ◌^◌, Ok, Err, Result};
ghost use Rattle.std.specs.Time.{instant_nanos, system_time_nanos};
ghost use Rattle.std.specs.declared.io.Error.{Error};
ghost use Rattle.std.specs.declared.time.Instant.{Instant};
ghost use Rattle.std.specs.declared.time.SystemTime.{SystemTime};
ghost use Rattle.gateway.specs.declared.ports.Next.{Next};
ghost use Rattle.live.specs.Ends.{LiveEnds, LogsTurn, LogsPut};
ghost use Rattle.live.specs.Law.{AtMoment, AtBytes, AtClock, AtBegun, AtRounds};
ghost use Rattle.live.specs.Law.{first_of, IsOneOf};
ghost use Rattle.live.specs.Law.{IsFoundGone, IsLost, is_cut};
ghost use Rattle.live.specs.Law.{is_frame};
ghost use Rattle.live.specs.Law.{notes_of};
ghost use Rattle.live.specs.Clocks.{GoesOn, ShowsWall, moment_by, wall_by};
ghost use Rattle.live.specs.Cuts.{CutsFirst, is_wall_in, shuts_nothing};
ghost use Rattle.live.specs.Runs.{HasPassed, IsInRun, WallFirst, is_action};
ghost use Rattle.live.specs.declared.ends.CutCause.TheVariants.{Gone, NotTaken};
ghost use Rattle.gateway.specs.Log.{Closed, GapOut, Input, LineOut, Output, TcpOut, WallIs, Went};
ghost use Rattle.session.specs.declared.kinds.Close.{Close};
ghost use Rattle.session.specs.declared.kinds.Close.TheVariants.{Replaced};
ghost use Rattle.live.specs.Passed.{IsFreshRun, LiveRun, LogsEnds, NotesStill, line_in, line_out};
ghost use Rattle.live.specs.Passed.{centre_in, centre_out, opened_in, accepted_in, given, handed};
ghost use Rattle.live.specs.Passed.{taken_of, example_log, example_line};
ghost use Rattle.live.specs.Late.{dropped_of, gone_of};
ghost use Rattle.live.specs.Walls.{is_wall, is_wall_due};
ghost use Rattle.live.specs.OctetStreams.{WasGone, WasQuiet, looked};
ghost use Rattle.live.specs.declared.timing.WrittenRequest.{WrittenRequest};
ghost use Rattle.live.specs.declared.walled.Walled.{Walled};

/// If an event's moment lets an exchange end (`answer_ms` or more after its request's), a look at
/// the line has begun `answer_ms` or more after that request was written, or the event brings
/// octets of the line that end as a frame does, which a gateway takes before it ends the exchange.
/// So a stall of the gateway ends no exchange whose answer waits.
#[tactic(auto, using(crate::proofs::Law::waited_out))]
pub fn no_exchange_ends_unread()
    ensures { (old new : LiveEnds) (event : Next) (buf : List ℕ) (r : WrittenRequest) →
        LogsTurn old event buf new → new.timing.request ≡ Some r → 0 < new.timing.answer_ms →
        AtMoment event (λ moment. r.moment + new.timing.answer_ms ≤ moment →
        (new.timing.answer_ms ≤ new.timing.looked - r.written)
        ⊎ (is_frame event buf ≡ true)) }
{}

/// The rounds of looks for an event begin less than 100 ms after the first of them: so between two
/// events the ends aren't looked at for longer than that and one round more.
pub fn looks_for_an_event_begin_within_100_ms()
    ensures { (old new : LiveEnds) (event : Next) (buf : List ℕ) → LogsTurn old event buf new →
        is_wall event ≡ false → AtRounds old.clock new.clock (λ begun quiet now.
        All (λ moment. moment < first_of begun quiet + 100) (begun ∷ quiet)) }
{}

/// Once the time of an exchange is over an event is given at once: no round of looks begins
/// `answer_ms` or more after the latest request was written, but the last one before an event.
pub fn an_exchange_that_is_over_gives_an_event_at_once()
    ensures { (old new : LiveEnds) (event : Next) (buf : List ℕ) (r : WrittenRequest) →
        LogsTurn old event buf new → is_wall event ≡ false → old.timing.request ≡ Some r →
        old.timing.looked - r.written < old.timing.answer_ms →
        AtRounds old.clock new.clock (λ begun quiet now.
        All (λ moment. moment - r.written < old.timing.answer_ms) quiet) }
{}

/// Behind a close no connection is open, no octets of it are held and no cut of it is due, unless
/// another has replaced the one that was.
pub fn a_close_shuts_the_connection()
    ensures { (old new : LiveEnds) (moment : ℕ) (cause : Close) →
        LogsPut old moment (Closed cause) new → cause ≢ Replaced →
        (new.connection ≡ None) × (new.held ≡ []) × (new.is_cut_due ≡ false) }
{}

/// A cut that is due is the next event but for the wall clock, also if no connection is open. Until
/// it is given it stays due, whatever is put out, unless the connection is shut. A request, an APDU
/// and a gap shut none, nor does the close of one that another has replaced. So a write that failed
/// is always followed by a cut.
pub fn a_cut_that_is_due_comes_next()
    ensures next { (old new : LiveEnds) (event : Next) (buf : List ℕ) →
        LogsTurn old event buf new → old.is_cut_due ≡ true → is_wall event ≡ false →
        is_cut event ≡ true }
    ensures wall { (old new : LiveEnds) (event : Next) (buf : List ℕ) →
        LogsTurn old event buf new → is_wall event ≡ true → new.is_cut_due ≡ old.is_cut_due }
    ensures put { (old new : LiveEnds) (moment : ℕ) (action : Output) →
        LogsPut old moment action new → old.is_cut_due ≡ true → shuts_nothing action ≡ true →
        new.is_cut_due ≡ true }
    ensures words { (octets : List ℕ) (station session : ℕ) →
        (shuts_nothing (LineOut octets) ≡ true) × (shuts_nothing (TcpOut octets) ≡ true)
        × (shuts_nothing (GapOut station session) ≡ true)
        × (shuts_nothing (Closed Replaced) ≡ true) }
{}

/// A run that goes on after a restart begins with the cut of the connection of then. The first
/// event of its log, but for the wall clock, is a cut, if no connection was shut before.
pub fn a_run_that_goes_on_begins_with_a_cut()
    ensures due { (start end : LiveEnds) → start.log ≡ [] → start.is_cut_due ≡ true →
        LiveRun start end → CutsFirst end.log }
    ensures run { (ends : LiveEnds) → IsInRun ends → ends.goes_on ≡ true →
        CutsFirst ends.log }
{}

/// Each run begins with the wall clock: so the gateway knows it before anything else has come. That
/// is the event that says what the wall clock shows, and no other one.
pub fn a_run_begins_with_the_wall_clock()
    ensures run { (ends : LiveEnds) → IsInRun ends → WallFirst ends.log }
    ensures words { (now number : ℕ) (event : Input) (action : Output) →
        (is_wall_in (WallIs number) ≡ true) × (is_action (Went now action) ≡ true)
        × (is_wall_in event ≡ true → (shown : ℕ) × (event ≡ WallIs shown)) }
{}

/// Why a connection was cut. A cut that wasn't due is that of an open connection whose stream was
/// found gone: none that is quiet is cut. A cut comes to be due by a write that failed, and then
/// that is its reason: octets were put on the open connection, whose stream didn't take them. By no
/// event does one come to be due. No other event and no other action changes the reason: so a cut
/// that is due has the one for which it came to be due.
pub fn a_cut_has_its_reason()
    ensures gone { (old new : LiveEnds) (event : Next) (buf : List ℕ) →
        LogsTurn old event buf new →
        is_cut event ≡ true → old.is_cut_due ≡ false →
        (new.why_cut ≡ Gone) × IsFoundGone (notes_of old.connection) new.gone }
    ensures due { (old new : LiveEnds) (event : Next) (buf : List ℕ) →
        LogsTurn old event buf new →
        is_cut event ≡ true → old.is_cut_due ≡ true → new.why_cut ≡ old.why_cut }
    ensures others { (old new : LiveEnds) (event : Next) (buf : List ℕ) →
        LogsTurn old event buf new → is_cut event ≡ false → new.why_cut ≡ old.why_cut }
    ensures written { (old new : LiveEnds) (moment : ℕ) (action : Output) →
        LogsPut old moment action new → old.is_cut_due ≡ false → new.is_cut_due ≡ true →
        new.why_cut ≡ NotTaken }
    ensures put { (old new : LiveEnds) (moment : ℕ) (action : Output) →
        LogsPut old moment action new → new.is_cut_due ≡ old.is_cut_due →
        new.why_cut ≡ old.why_cut }
    ensures lost { (old new : LiveEnds) (moment : ℕ) (action : Output) →
        LogsPut old moment action new → old.is_cut_due ≡ false → new.is_cut_due ≡ true →
        IsLost old.connection action new.connection }
    ensures events { (old new : LiveEnds) (event : Next) (buf : List ℕ) →
        LogsTurn old event buf new → new.is_cut_due ≡ true → old.is_cut_due ≡ true }
{}

/// Of two events that follow each other, neither of which is the wall clock, the looks for the
/// second begin less than a second after the wall clock was given: so it is given each second. It
/// isn't given again within a second, nor is it due, so that no tick is given for it: each of
/// these is a line of the log on disk.
pub fn the_wall_clock_is_given_each_second()
    ensures second { (a b c : LiveEnds) (first second : Next) (buf more : List ℕ) →
        LogsTurn a first buf b → LogsTurn b second more c → is_wall first ≡ false →
        is_wall second ≡ false →
        AtBegun c.clock (λ begun. IfSome b.walled.given (λ given. begun < given + 1000)) }
    ensures given { (a b c : LiveEnds) (first second : Next) (buf more : List ℕ) →
        LogsTurn a first buf b → LogsTurn b second more c → is_wall first ≡ false →
        is_wall second ≡ false → b.walled.given ≢ None }
    ensures apart { (old new : LiveEnds) (event : Next) (buf : List ℕ) →
        LogsTurn old event buf new → is_wall event ≡ true → AtClock new.clock (λ now.
        IfSome old.walled.given (λ given. given + 1000 ≤ now)) }
    ensures due { (walled : Walled) (now : ℕ) → is_wall_due walled now ≡ true →
        IfSome walled.given (λ given. given + 1000 ≤ now) }
{}

/// An event that bears what a control centre sent bears a moment at most 50 ms before the one that
/// the clock gave last: no stall makes a selection longer than that.
#[tactic(auto, using(crate::proofs::Law::in_time))]
pub fn what_the_centre_sent_is_given_in_time()
    ensures { (old new : LiveEnds) (event : Next) (buf : List ℕ) → LogsTurn old event buf new →
        AtClock new.clock (λ now. AtBytes event (λ moment. now ≤ moment + 50)) }
{}

/// Octets of the line that end as a frame does bear a moment at most 50 ms before the one that the
/// clock gave last. So the first answer behind a stall, or behind a jump of the clock, ends it: the
/// next request goes out at the clock's moment, and a control centre is looked at again.
#[tactic(auto, using(crate::proofs::Law::caught_up))]
pub fn a_frame_catches_the_clock_up()
    ensures { (old new : LiveEnds) (event : Next) (buf : List ℕ) → LogsTurn old event buf new →
        is_frame event buf ≡ true →
        AtClock new.clock (λ now. AtMoment event (λ moment. now ≤ moment + 50)) }
{}

/// Looks at the ends leave the latest request and `answer_ms` as they were.
pub fn looks_ask_nothing()
    ensures { (old new : LiveEnds) (event : Next) (buf : List ℕ) → LogsTurn old event buf new →
        (new.timing.request ≡ old.timing.request) × (new.timing.answer_ms ≡ old.timing.answer_ms) }
{}

/// By how long the line has been looked at is counted from moments that the clock gave: the latest
/// look at it is as it was, or began when a round of looks for this event did.
pub fn looks_at_the_line_are_timed_by_the_clock()
    ensures looked { (old new : LiveEnds) (event : Next) (buf : List ℕ) →
        LogsTurn old event buf new → is_wall event ≡ false →
        AtRounds old.clock new.clock (λ begun quiet now.
        (new.timing.looked ≡ old.timing.looked) ⊎ IsOneOf (begun ∷ quiet) new.timing.looked) }
    ensures wall { (old new : LiveEnds) (event : Next) (buf : List ℕ) →
        LogsTurn old event buf new → is_wall event ≡ true → new.timing ≡ old.timing }
{}

/// The log has what passed at the streams. That is so after any run in which nothing had been
/// logged before, if the line and the connection note what happens at them. The octets that came
/// from the line, by the log, are those that its stream gave, and each request that went there was
/// handed to it, whole and in that order. The octets that came on the open connection are those
/// that its stream gave, and, while no cut is due, each APDU that went there was handed to it and
/// taken. Since a write failed, so that a cut is due, each before it was taken, and none behind it
/// was handed over: so the octets that the connection took are a beginning of those that the log
/// has. And if the listener notes what it accepted, as many connections were opened.
pub fn the_log_has_what_passed()
    ensures { (start end : LiveEnds) → IsFreshRun start → LiveRun start end → LogsEnds end.log end }
{}

/// So it is of each run from its beginning on, at any moment of it: nothing has happened at the
/// line and at the listener before it. So many octets were late as the line dropped in the run, and
/// it failed as often as its stream was found gone.
pub fn a_run_logs_what_passed()
    ensures { (ends : LiveEnds) → IsInRun ends → HasPassed ends }
{}

/// A line, a listener, a clock and a wall clock that note what happens at them do so to the end of
/// a run: so no law over what they note is about nothing from then on.
pub fn what_is_noted_is_noted_to_the_end()
    ensures { (start end : LiveEnds) → LiveRun start end → NotesStill start end }
{}

/// The system's clock has gone on by so many ms if the system's own has, since the start. If that
/// can't be read, the moment before is given again. The wall clock shows as many ms as the system's
/// own does since 1970, and 0 if that can't be read. Each reading asks the system once, and what it
/// gives follows from that very answer.
pub fn a_clock_goes_on_with_the_systems()
    ensures goes_on { (first ms last : ℕ) (start now : Instant) →
        instant_nanos start + ms * 1000000 ≤ instant_nanos now →
        instant_nanos now < instant_nanos start + (ms + 1) * 1000000 → first + ms < 2 ^ 64 →
        moment_by first start last (Ok now) ≡ first + ms }
    ensures unread { (first last : ℕ) (start : Instant) (fault : Error) →
        moment_by first start last (Err fault) ≡ last }
    ensures wall { (ms : ℕ) (shown : SystemTime) → ms * 1000000 ≤ system_time_nanos shown →
        system_time_nanos shown < (ms + 1) * 1000000 → ms < 2 ^ 64 → wall_by (Ok shown) ≡ ms }
    ensures no_wall { (fault : Error) → wall_by (Err fault) ≡ 0 }
    ensures read { (first last moment : ℕ) (start : Instant)
        (before after : List (Result Instant Error)) →
        GoesOn first start (Some before) last (Some after) moment →
        (answer : Result Instant Error) × (after ≡ answer ∷ before)
        × (moment ≡ moment_by first start last answer) }
    ensures wall_read { (before after : List (Result SystemTime Error)) (shown : ℕ) →
        ShowsWall (Some before) (Some after) shown →
        (answer : Result SystemTime Error) × (after ≡ answer ∷ before)
        × (shown ≡ wall_by answer) }
{}

/// What the words of these laws count, by worked examples: the octets and requests of a log, those
/// of a line that didn't take its last request, those of a log whose second connection is open, and
/// how many octets that line dropped.
pub fn what_passed_by_example()
    ensures line { (line_in example_log ≡ 1 ∷ 2 ∷ 3 ∷ [])
        × (line_out example_log ≡ (16 ∷ 4 ∷ []) ∷ (16 ∷ []) ∷ []) }
    ensures centre { (centre_in example_log ≡ 8 ∷ 9 ∷ [])
        × (centre_out example_log ≡ (104 ∷ []) ∷ []) × (opened_in example_log ≡ 2) }
    ensures stream { (given example_line ≡ 1 ∷ 2 ∷ 3 ∷ [])
        × (handed example_line ≡ (16 ∷ 4 ∷ []) ∷ (16 ∷ []) ∷ [])
        × (taken_of example_line ≡ (16 ∷ []) ∷ []) }
    ensures listener { accepted_in (true ∷ false ∷ true ∷ []) ≡ 2 }
    ensures dropped { dropped_of example_line ≡ 5 }
    ensures gone { gone_of (WasGone ∷ WasQuiet ∷ WasGone ∷ []) ≡ 2 }
{}
