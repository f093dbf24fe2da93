//! What the frame count bit is for: each service acts once at the outstation, and its answer is
//! taken once.
ghost use Rattle.std.specs.Prelude.{◌≡◌, ◌≢◌, ℕ, true, false, Some, List, None, flat_map};
ghost use Rattle.std.specs.List.{AllByRecursion};
ghost use Rattle.link.specs.Answers.{Unable};
ghost use Rattle.link.specs.Exchanges.{Exchange, answer_to};
ghost use Rattle.link.specs.Procedure.{LinkSettings, KeepsFrameCountBit, IsSteady, Down};
ghost use Rattle.link.specs.Procedure.{AskNoneThatIsUp};
ghost use Rattle.link.specs.Outstation.{Turn, all_done};
ghost use Rattle.link.specs.Delivery.{learnt, IsHonest, IsKnown, IsSessionKnown, sessions};
ghost use Rattle.link.specs.Delivery.{pending_after, IsAllOrButLast, IsLatestAnswered, reports};
ghost use Rattle.link.specs.Delivery.{HasReports, AcceptsSendings, AcceptsAllSendings};
ghost use Rattle.link.specs.Delivery.{sendings_not_busy, is_command_pending, commands};
ghost use Rattle.link.specs.Bits.{BitsFollow};

/// From one exchange with a station to the next the frame count bit is as the standard has it: 1
/// behind a reset that was confirmed, the other one behind a service that was served, and the same
/// behind one that had no answer, which is sent again as it was. No service comes first, nor behind
/// a service that couldn't be served. A status changes nothing of it.
pub fn frame_count_bits_alternate()
    ensures { (settings : LinkSettings) (station : ℕ) (xs : List Exchange) →
        KeepsFrameCountBit settings station Down xs → BitsFollow station None xs }
{}

/// In each session of the link an honest outstation has done what the primary learnt, and then at
/// most what the session's last service asks for. What is learnt and done is learnt and done in the
/// sessions.
pub fn sessions_are_known()
    ensures each { (settings : LinkSettings) (station : ℕ) (xs : List Exchange)
        (turns : List Turn) →
        KeepsFrameCountBit settings station Down xs → IsHonest station xs turns →
        AllByRecursion (λ s. IsSessionKnown station s) (sessions station xs turns) }
    ensures learnt_there { (settings : LinkSettings) (station : ℕ) (xs : List Exchange)
        (turns : List Turn) →
        KeepsFrameCountBit settings station Down xs → IsHonest station xs turns →
        flat_map (λ s. learnt station s.exchanges) (sessions station xs turns) ≡ learnt station xs }
    ensures done_there { (settings : LinkSettings) (station : ℕ) (xs : List Exchange)
        (turns : List Turn) →
        KeepsFrameCountBit settings station Down xs → IsHonest station xs turns →
        flat_map (λ s. all_done s.turns) (sessions station xs turns) ≡ all_done turns }
{}

/// If the link stays up once it is, the same holds of the whole run. All is known if the latest
/// exchange was answered.
pub fn each_service_acts_once()
    ensures known { (settings : LinkSettings) (station : ℕ) (xs : List Exchange)
        (turns : List Turn) →
        KeepsFrameCountBit settings station Down xs → IsSteady settings station Down xs →
        IsHonest station xs turns →
        IsKnown (learnt station xs) (pending_after station None xs) (all_done turns) }
    ensures reports { (settings : LinkSettings) (station : ℕ) (xs : List Exchange)
        (turns : List Turn) →
        KeepsFrameCountBit settings station Down xs → IsSteady settings station Down xs →
        IsHonest station xs turns →
        IsAllOrButLast (reports (all_done turns)) (reports (learnt station xs)) }
    ensures all { (settings : LinkSettings) (station : ℕ) (xs : List Exchange) (turns : List Turn) →
        KeepsFrameCountBit settings station Down xs → IsSteady settings station Down xs →
        IsHonest station xs turns →
        IsLatestAnswered station xs → learnt station xs ≡ all_done turns }
{}

/// The commands that an honest outstation accepted are the first sendings that weren't answered
/// busy, or all of them but the last. They are all of them if the latest service isn't a command
/// without an outcome.
pub fn commands_are_accepted()
    ensures each { (settings : LinkSettings) (station : ℕ) (xs : List Exchange)
        (turns : List Turn) →
        KeepsFrameCountBit settings station Down xs → IsHonest station xs turns →
        AllByRecursion (λ s. AcceptsSendings station s) (sessions station xs turns) }
    ensures steady { (settings : LinkSettings) (station : ℕ) (xs : List Exchange)
        (turns : List Turn) →
        KeepsFrameCountBit settings station Down xs → IsSteady settings station Down xs →
        IsHonest station xs turns →
        IsAllOrButLast (sendings_not_busy station None xs) (commands (all_done turns)) }
    ensures each_all { (settings : LinkSettings) (station : ℕ) (xs : List Exchange)
        (turns : List Turn) →
        KeepsFrameCountBit settings station Down xs → IsHonest station xs turns →
        AllByRecursion (λ s. AcceptsAllSendings station s) (sessions station xs turns) }
    ensures steady_all { (settings : LinkSettings) (station : ℕ) (xs : List Exchange)
        (turns : List Turn) →
        KeepsFrameCountBit settings station Down xs → IsSteady settings station Down xs →
        IsHonest station xs turns →
        is_command_pending (pending_after station None xs) ≡ false →
        sendings_not_busy station None xs ≡ commands (all_done turns) }
    ensures answered { (settings : LinkSettings) (station : ℕ) (xs : List Exchange)
        (turns : List Turn) →
        KeepsFrameCountBit settings station Down xs → IsSteady settings station Down xs →
        IsHonest station xs turns →
        IsLatestAnswered station xs → commands (learnt station xs) ≡ commands (all_done turns) }
{}

/// Of each session of the link the primary has all reports, or all but the last. It has all of them
/// if there is no gap.
pub fn reports_are_learnt()
    ensures { (settings : LinkSettings) (station : ℕ) (xs : List Exchange) (turns : List Turn) →
        KeepsFrameCountBit settings station Down xs → IsHonest station xs turns →
        AllByRecursion (λ s. HasReports station s) (sessions station xs turns) }
{}

/// If unanswered services are held, a link stays up as long as its station refuses nothing, it
/// isn't given up at a restart, and no status is asked of a station that is up.
pub fn silence_is_no_reset()
    ensures { (settings : LinkSettings) (station : ℕ) (xs : List Exchange) → settings.hold ≡ true →
        KeepsFrameCountBit settings station Down xs →
        AllByRecursion (λ x. answer_to station x ≢ Some Unable) xs →
        AllByRecursion (λ x. x.given_up ≡ false) xs →
        AskNoneThatIsUp settings station Down xs →
        IsSteady settings station Down xs }
{}
