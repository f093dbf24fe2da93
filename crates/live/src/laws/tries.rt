//! Laws of a stream that is reached again when it has gone.
ghost use Rattle.std.specs.Prelude.{◌≡◌, ◌≢◌, IfSome, None, ◌+◌, ◌-◌, ◌<◌, ◌≤◌, ℕ, List, ◌∷◌, Some};
ghost use Rattle.std.specs.Prelude.{Bool, true, false, is_some};
ghost use Rattle.live.specs.Law.{AtClock};
ghost use Rattle.live.specs.Redial.{Redial, clock_read_at, IsPut, HasDropped, BeginsTry, Asked};
ghost use Rattle.live.specs.Redial.{IsRedialled, waited};
ghost use Rattle.live.specs.Silence.{asked_at, borne_longer, is_over, no_silence};
ghost use Rattle.live.specs.Timing.{read_at};
ghost use Rattle.live.specs.declared.silence.Silence.{Silence};
ghost use Rattle.live.specs.declared.ends.Got.{Got};
ghost use Rattle.live.specs.declared.ends.Got.TheVariants.{Octets, Quiet};
ghost use Rattle.live.specs.declared.ends.Presence.TheVariants.{Silent};
ghost use Rattle.live.specs.OctetStreams.{IsNew, StreamHistory, looked, noted, Dropped, WasQuiet};
ghost use Rattle.live.specs.OctetStreams.{Wrote};

/// A stream that is away is tried at once, and then as soon as its wait has passed since the last
/// try began, but never before. For each try the dialler is called once. At each look it is asked
/// about a try that goes on, and no other begins. Meanwhile the stream is quiet, and takes and
/// drops nothing. Each look waits once, so that who looks doesn't spin. One that is there gives,
/// takes and drops what its stream does. Then nothing is asked of the dialler, so that no second
/// stream is reached beside it, and no look waits. One that has gone is kept no longer, and one
/// that is reached begins with nothing in it.
pub fn a_stream_that_is_away_is_tried_when_due()
    ensures first { (old new : Redial) (got : Got) (buf : List ℕ) → IsRedialled old got buf new →
        old.stream ≡ None → old.is_trying ≡ false → old.tried ≡ None →
        AtClock new.clock (λ now. BeginsTry now old new) }
    ensures later { (old new : Redial) (got : Got) (buf : List ℕ) (last : ℕ) →
        IsRedialled old got buf new → old.stream ≡ None → old.is_trying ≡ false →
        old.tried ≡ Some last → AtClock new.clock (λ now. old.wait ≤ now - last →
        BeginsTry now old new) }
    ensures undue { (old new : Redial) (got : Got) (buf : List ℕ) (last : ℕ) →
        IsRedialled old got buf new → old.stream ≡ None → old.is_trying ≡ false →
        old.tried ≡ Some last → AtClock new.clock (λ now. now - last < old.wait →
        new ≡ waited (clock_read_at now old)) }
    ensures asked { (old new : Redial) (got : Got) (buf : List ℕ) → IsRedialled old got buf new →
        old.stream ≡ None → old.is_trying ≡ true → (new.tried ≡ old.tried)
        × IfSome old.calls (λ before. new.calls ≡ Some (Asked (is_some new.stream) ∷ before)) }
    ensures quiet { (old new : Redial) (got : Got) (buf : List ℕ) → IsRedialled old got buf new →
        old.stream ≡ None → got ≡ Quiet }
    ensures paused { (old new : Redial) (got : Got) (buf : List ℕ) → IsRedialled old got buf new →
        old.stream ≡ None → IfSome old.pauses (λ count. new.pauses ≡ Some (count + 1)) }
    ensures put { (old new : Redial) (octets : List ℕ) (is_taken : Bool) →
        IsPut old octets is_taken new → old.stream ≡ None → (is_taken ≡ false) × (new ≡ old) }
    ensures dropped { (old new : Redial) (count : ℕ) → HasDropped old count new →
        old.stream ≡ None → (count ≡ 0) × (new ≡ old) }
    ensures there { (old new : Redial) (got : Got) (buf : List ℕ) (history : StreamHistory) →
        IsRedialled old got buf new → old.stream ≡ Some history →
        IfSome new.stream (λ now. now ≡ noted history (looked got buf)) }
    ensures alone { (old new : Redial) (got : Got) (buf : List ℕ) (history : StreamHistory) →
        IsRedialled old got buf new → old.stream ≡ Some history → (new.calls ≡ old.calls)
        × (new.tries ≡ old.tries) × (new.pauses ≡ old.pauses) × (new.tried ≡ old.tried)
        × (new.is_trying ≡ old.is_trying) }
    ensures written { (old new : Redial) (octets : List ℕ) (is_taken : Bool)
        (history : StreamHistory) → (put : IsPut old octets is_taken new) →
        old.stream ≡ Some history → new ≡ record old {
          clock = read_at old.clock put.now;
          stream = Some (noted history (Wrote octets is_taken));
          silence = asked_at put.now old.silence;
        } }
    ensures waiting { (old new : Redial) (count : ℕ) (history : StreamHistory) →
        HasDropped old count new → old.stream ≡ Some history →
        new ≡ record old { stream = Some (noted history (Dropped count)) } }
    ensures fresh { (old new : Redial) (got : Got) (buf : List ℕ) → IsRedialled old got buf new →
        old.stream ≡ None → IfSome new.stream IsNew }
{}

/// Behind each stream that was reached the wait for the next try is twice as long, up to 30 s. By
/// octets that come it is a second again. Nothing else changes it.
pub fn tries_lie_farther_apart_while_nothing_comes()
    ensures reached { (old new : Redial) (got : Got) (buf : List ℕ) → IsRedialled old got buf new →
        old.stream ≡ None → IfSome new.stream (λ _.
        (old.wait ≤ 15000 → new.wait ≡ old.wait + old.wait)
        × (15000 ≤ old.wait → new.wait ≡ 30000)) }
    ensures away { (old new : Redial) (got : Got) (buf : List ℕ) → IsRedialled old got buf new →
        old.stream ≡ None → new.stream ≡ None → new.wait ≡ old.wait }
    ensures octets { (old new : Redial) (len : ℕ) (buf : List ℕ) →
        IsRedialled old (Octets len) buf new → new.wait ≡ 1000 }
    ensures quiet { (old new : Redial) (buf : List ℕ) (history : StreamHistory) →
        IsRedialled old Quiet buf new → old.stream ≡ Some history → new.wait ≡ old.wait }
    ensures put { (old new : Redial) (octets : List ℕ) (is_taken : Bool) →
        IsPut old octets is_taken new → new.wait ≡ old.wait }
    ensures dropped { (old new : Redial) (count : ℕ) → HasDropped old count new →
        new.wait ≡ old.wait }
{}

/// A stream that gives nothing while requests go out to it is closed at the next look once they
/// have for as long as it is borne, and never before. That is 30 s behind octets, and twice as long
/// behind each that was closed, up to 240 s. Between two requests the time counts that lies between
/// them, but no more than 5 s: so a gateway that sends none, as with a full queue, closes nothing.
/// Behind octets, and when a stream is reached, it begins anew.
pub fn a_stream_that_gives_nothing_is_closed()
    ensures over { (old new : Redial) (buf : List ℕ) (history : StreamHistory) →
        IsRedialled old Quiet buf new → old.stream ≡ Some history → is_over old.silence ≡ true →
        new.stream ≡ None }
    ensures closed { (old new : Redial) (got : Got) (buf : List ℕ) (history : StreamHistory) →
        IsRedialled old got buf new → old.stream ≡ Some history → new.stream ≡ None →
        new.presence ≡ Silent → (is_over old.silence ≡ true)
        × (new.gone ≡ Some (noted history WasQuiet)) × (new.silence ≡ borne_longer old.silence) }
    ensures octets { (old new : Redial) (len : ℕ) (buf : List ℕ) →
        IsRedialled old (Octets len) buf new → new.silence ≡ no_silence }
    ensures first { (silence : Silence) (now : ℕ) → silence.asked ≡ None →
        silence.counted ≤ 240000 → (asked_at now silence).counted ≡ silence.counted }
    ensures counted { (silence : Silence) (now last : ℕ) → silence.asked ≡ Some last →
        ((asked_at now silence).counted ≤ silence.counted + 5000)
        × ((asked_at now silence).counted ≤ silence.counted + (now - last)) }
{}
