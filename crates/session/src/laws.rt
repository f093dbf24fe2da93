//! What IEC 60870-5-104, clause 5, says of a connection, for every list of calls of a session.
//!
//! The history of a connection has what came and what went out. Each law says what a session's
//! calls answer by what the standard makes of that history.

ghost use Rattle.std.specs.Prelude.{◌≡◌, ℕ, ◌%◌, ◌<◌, ◌≤◌, ◌&&◌, ◌++◌, List, [], true, None};
ghost use Rattle.std.specs.Prelude.{◌⊎◌, nat_lt, length, option_to_list, ◌∷◌, ◌+◌};
ghost use Rattle.apci.specs.declared.apdu.Apdu.{Apdu};
ghost use Rattle.session.specs.declared.kinds.FrameOrigin.{FrameOrigin};
ghost use Rattle.session.specs.declared.kinds.Unacknowledged.{Unacknowledged};
ghost use Rattle.session.specs.Session.{Session, is_transferring, may_send, refuses};
ghost use Rattle.session.specs.Session.{outcome_of, timed_out, confirmed, pulled, sent, taken};
ghost use Rattle.session.specs.Session.{opened, closed};
ghost use Rattle.session.specs.History.{IsNumbered, sent_frames, received_count};
ghost use Rattle.session.specs.History.{still_unacknowledged, is_started, verdict_on};
ghost use Rattle.session.specs.History.{confirmation_of, confirmation_owed, confirmations_due};
ghost use Rattle.session.specs.History.{confirmations_sent, has_timed_out, frame_due};
ghost use Rattle.session.specs.History.{History};
ghost use Rattle.session.specs.History.{acknowledgement_of};
ghost use Rattle.apci.specs.declared.apdu.Apdu.TheVariants.{S};
ghost use Rattle.session.specs.Laws.{AfterEachRun, Acknowledges, MatchesAcknowledged};
ghost use Rattle.session.specs.Rules.{KeepsRules};
ghost use Rattle.session.specs.SessionLaws.{SessionLaws};
ghost use Rattle.session.specs.Ends.{after_confirm, after_pull, IsConfirmed, IsInTime};
ghost use Rattle.session.specs.Ends.{AreInOrder};
ghost use Rattle.session.specs.Examples.{IsRight, number_examples, transfer_examples};
ghost use Rattle.session.specs.Examples.{timer_examples};
ghost use Rattle.std.specs.List.{AllByRecursion};
ghost use Rattle.std.specs.Prelude.{◌-◌};

/// The frames that go out bear the counts of the I frames sent and received, modulo 32768; so does
/// the S frame that is due (5.1).
pub fn frames_are_numbered()
    ensures gone { AfterEachRun (λ p s h. IsNumbered h) }
    ensures next_sent { AfterEachRun (λ p s h. s.next_sent ≡ length (sent_frames h) % 32768) }
    ensures next_received { AfterEachRun (λ p s h. s.next_received ≡ received_count h % 32768) }
    ensures supervisory { (h : History) → acknowledgement_of h ≡ S (received_count h % 32768) }
{}

/// At most k I frames are unacknowledged, and one may go out exactly if data transfer runs and
/// fewer are (5.5).
pub fn window_is_kept()
    ensures at_most_k { AfterEachRun (λ p s h. length (still_unacknowledged h) ≤ p.k) }
    ensures may_send { AfterEachRun (λ p s h.
        may_send s ≡ (is_started h && nat_lt (length (still_unacknowledged h)) p.k)) }
{}

/// A frame closes the connection by the first of its faults, and else acknowledges what its N(R)
/// counts (5.1, 5.3). What it acknowledged is told until the next frame comes, whatever goes out.
/// A connection that begins or ends has acknowledged nothing.
pub fn frames_are_judged()
    ensures verdict { AfterEachRun (λ p s h.
        (frame : Apdu) → outcome_of s frame ≡ verdict_on frame h) }
    ensures acknowledged { AfterEachRun (λ p s h. Acknowledges s h) }
    ensures refused { (frame : Apdu) (now : ℕ) (s : Session) → refuses s frame ≡ true →
        MatchesAcknowledged [] (taken frame now s) }
    ensures lasts { (frames : List Unacknowledged) (kind : FrameOrigin) (now : ℕ)
        (s : Session) → MatchesAcknowledged frames s →
        AllByRecursion (MatchesAcknowledged frames)
        (sent kind now s ∷ after_confirm s ∷ after_pull now s ∷ []) }
    ensures none { (now : ℕ) (s : Session) →
        AllByRecursion (MatchesAcknowledged []) (opened now s ∷ closed s ∷ []) }
{}

/// Data transfer runs if the latest of STARTDT act and STOPDT act is a STARTDT act. Each STARTDT
/// act and TESTFR act is confirmed once, and a STOPDT act once no sent frame is unacknowledged
/// (5.3).
pub fn transfer_is_controlled()
    ensures transferring { AfterEachRun (λ p s h. is_transferring s ≡ is_started h) }
    ensures confirm { AfterEachRun (λ p s h. (confirmed s).0 ≡ confirmation_of h) }
    ensures once { AfterEachRun (λ p s h.
        confirmations_due h ≡ option_to_list (confirmation_owed h) ++ confirmations_sent h) }
{}

/// S frames, tests and the close by t1 come exactly when they are due (5.2, 5.5).
pub fn timers_are_kept()
    ensures t1 { AfterEachRun (λ p s h. (now : ℕ) → timed_out now s ≡ has_timed_out p.t1 now h) }
    ensures w_t2_t3 { AfterEachRun (λ p s h.
        (now : ℕ) → (pulled now s).0 ≡ frame_due p.w p.t2 p.t3 now h) }
{}

/// Each entry of a history keeps the rules with what came before it: a frame is received once all
/// confirmations are out, an I frame goes out if it may, and another frame if it was due (5.1 to
/// 5.5).
pub fn histories_keep_the_rules()
    ensures rules { AfterEachRun (λ p s h. KeepsRules p h) }
{}

/// Calls that are made until they answer nothing come to an end: three confirmations and two frames
/// of `pull` are the most that are due at a moment. What goes out makes no confirmation due, and
/// lets no time run out.
pub fn calls_come_to_an_end()
    ensures confirmations { (s : Session) →
        IsConfirmed (after_confirm (after_confirm (after_confirm s))) }
    ensures pulls { (now : ℕ) (s : Session) →
        (pulled now (after_pull now (after_pull now s))).0 ≡ None }
    ensures confirmed_sent { (kind : FrameOrigin) (now : ℕ) (s : Session) → may_send s ≡ true →
        IsConfirmed s → IsConfirmed (sent kind now s) }
    ensures confirmed_pull { (now : ℕ) (s : Session) → IsConfirmed s →
        IsConfirmed (after_pull now s) }
    ensures in_time_sent { (kind : FrameOrigin) (now : ℕ) (s : Session) → 0 < s.t1 →
        IsInTime now s →
        IsInTime now (sent kind now s) }
    ensures in_time_confirm { (now : ℕ) (s : Session) → IsInTime now s →
        IsInTime now (after_confirm s) }
    ensures in_time_pull { (now : ℕ) (s : Session) → 0 < s.t1 → IsInTime now s →
        IsInTime now (after_pull now s) }
    ensures in_time_take { (frame : Apdu) (now : ℕ) (s : Session) →
        AreInOrder 0 s.unacknowledged now → IsInTime now s → IsInTime now (taken frame now s) }
    ensures may_send { (now : ℕ) (s : Session) → may_send (after_pull now s) ≡ may_send s }
{}

/// Connections worked by hand: which numbers frames bear and when they may go out, what a frame
/// leads to and acknowledges, which confirmations are due, and when t1, t2 and t3 have run out.
pub fn worked_examples_hold()
    ensures numbers { AllByRecursion IsRight number_examples }
    ensures transfer { AllByRecursion IsRight transfer_examples }
    ensures timers { AllByRecursion IsRight timer_examples }
{}

/// What a crate that keeps a session needs of it, in one: the rules of clause 5, and what each call
/// answers by the frames that came and went out.
pub fn session_keeps_the_standard()
    ensures { SessionLaws }
{
    histories_keep_the_rules();
    transfer_is_controlled();
    window_is_kept();
    timers_are_kept();
}
