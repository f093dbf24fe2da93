//! An answer is heard, however it comes.
ghost use Rattle.std.specs.Prelude.{◌≡◌, ◌++◌, [], ℕ, Bool, false, List, Some, None};
ghost use Rattle.ft12.specs.declared.frame.Front.{Front};
ghost use Rattle.ft12.specs.declared.frame.Front.TheVariants.{Whole, More, Never};
ghost use Rattle.ft12.specs.declared.frame.Why.{Why};
ghost use Rattle.link.specs.Answers.{Frame, Answer, answer_of};
ghost use Rattle.link.specs.Exchanges.{Sending};
ghost use Rattle.link.specs.Hearing.{received_all};
ghost use Rattle.link.specs.Turns.{CommandsWaiting, station_at};
ghost use Rattle.link.specs.Primary.{Primary, Outstanding, asked, sending, received};
ghost use Rattle.link.specs.Primary.{received_outcome, outcome_of, turn_gap, with_gap};
ghost use Rattle.link.specs.declared.outcome.Outcome.TheVariants as outcome;

/// An answer is heard, however long it is, and in whatever pieces it comes. If the octets of an
/// exchange begin with a whole frame, the caller learns what that says to the request. If it
/// answers the request, the exchange is over. Octets that aren't a whole frame yet say nothing.
/// With those that follow they say what all of them say at once. A request that goes out is awaited
/// from that moment on, whichever station it is to. The first octets that come are the first of its
/// answer.
pub fn answers_are_heard()
    ensures asked { (p : Primary) (now : ℕ) (may_poll : Bool) (waiting : CommandsWaiting)
        (s : Sending) → sending p may_poll waiting ≡ Some s →
        ((asked p now may_poll waiting).turn ≡ s.station)
        × ((asked p now may_poll waiting).outstanding ≡ Some (record {
          request = s.request;
          since = now;
          arrived = Some [];
          has_octets = false;
        })) }
    ensures whole { (front : List ℕ → Front) (p : Primary) (o : Outstanding) (octets : List ℕ)
        (frame : Frame) (n : ℕ) →
        p.outstanding ≡ Some o → o.arrived ≡ Some [] → front octets ≡ Whole frame n →
        received_outcome front p octets
        ≡ with_gap (turn_gap p) (outcome_of p.turn o.request
        (answer_of (station_at p.stations p.turn).address o.request frame)) }
    ensures over { (front : List ℕ → Front) (p : Primary) (o : Outstanding) (octets : List ℕ)
        (frame : Frame) (n : ℕ) (answer : Answer) →
        p.outstanding ≡ Some o → o.arrived ≡ Some [] → front octets ≡ Whole frame n →
        answer_of (station_at p.stations p.turn).address o.request frame ≡ Some answer →
        (received front p octets).outstanding ≡ None }
    ensures part { (front : List ℕ → Front) (p : Primary) (o : Outstanding)
        (before octets : List ℕ) →
        p.outstanding ≡ Some o → o.arrived ≡ Some before → front (before ++ octets) ≡ More →
        received_outcome front p octets ≡ outcome.None }
    ensures pieces { (front : List ℕ → Front) (p : Primary) (o : Outstanding)
        (before first second : List ℕ) →
        p.outstanding ≡ Some o → o.arrived ≡ Some before → front (before ++ first) ≡ More →
        received_outcome front (received front p first) second
        ≡ received_outcome front p (first ++ second) }
{}

/// Only what stands first is heard. Behind octets that begin no frame, or a whole frame that
/// doesn't answer the request, nothing is heard any more of its answer, in whatever pieces that
/// comes. So no answer is picked out of what comes behind noise, or behind another station's frame.
pub fn only_the_first_frame_is_heard()
    ensures noise { (front : List ℕ → Front) (p : Primary) (o : Outstanding)
        (before first last : List ℕ) (later : List (List ℕ)) (place : ℕ) (why : Why) →
        p.outstanding ≡ Some o → o.arrived ≡ Some before →
        front (before ++ first) ≡ Never place why →
        (received_outcome front p first ≡ outcome.None)
        × (received_outcome front (received_all front (received front p first) later) last
        ≡ outcome.None) }
    ensures other { (front : List ℕ → Front) (p : Primary) (o : Outstanding)
        (before first last : List ℕ) (later : List (List ℕ)) (frame : Frame) (n : ℕ) →
        p.outstanding ≡ Some o → o.arrived ≡ Some before →
        front (before ++ first) ≡ Whole frame n →
        answer_of (station_at p.stations p.turn).address o.request frame ≡ None →
        (received_outcome front p first ≡ outcome.None)
        × (received_outcome front (received_all front (received front p first) later) last
        ≡ outcome.None) }
{}
