//! Laws of what is shown of the ends of a run.
ghost use Rattle.std.specs.Prelude.{◌≡◌, ◌≢◌, ◌<◌, ℕ, List, Some, None, IfSome, true, false};
ghost use Rattle.gateway.specs.Log.{Closed, Output};
ghost use Rattle.gateway.specs.declared.ports.Next.{Next};
ghost use Rattle.session.specs.declared.kinds.Close.{Close};
ghost use Rattle.session.specs.declared.kinds.Close.TheVariants.{Replaced};
ghost use Rattle.live.specs.Ends.{LiveEnds, LogsPut, LogsTurn, failure_of};
ghost use Rattle.live.specs.Late.{dropped_of};
ghost use Rattle.live.specs.Law.{is_cut, peer_of};
ghost use Rattle.live.specs.Runs.{IsInRun};
ghost use Rattle.live.specs.Sights.{ShowsEnds};
ghost use Rattle.live.specs.declared.ends.CutCause.TheVariants.{Gone, NotTaken};
ghost use Rattle.live.specs.declared.ends.Presence.{Presence};
ghost use Rattle.live.specs.declared.watched.EndsSight.{EndsSight};
ghost use Rattle.live.specs.declared.watched.Failure.TheVariants.{Line};

use crate::laws::a_cut_has_its_reason;

/// The ends are shown as they are. Of the line that is what it says itself, and how many of its
/// octets were dropped before requests. Of the connection it is whose is open, and none behind a
/// cut and a close; and why the latest was cut: its stream was gone, or didn't take what was
/// written. What has failed is the line, if it has failed.
pub fn the_ends_are_shown_as_they_are()
    ensures line { (ends : LiveEnds) (sight : EndsSight) (presence : Presence) →
        ShowsEnds ends sight → ends.presence ≡ Some presence → sight.line ≡ presence }
    ensures late { (ends : LiveEnds) (sight : EndsSight) → IsInRun ends → ShowsEnds ends sight →
        IfSome ends.line (λ happened. sight.late_octets ≡ dropped_of happened) }
    ensures peer { (ends : LiveEnds) (sight : EndsSight) → ShowsEnds ends sight →
        sight.peer ≡ peer_of ends }
    ensures cut { (old new : LiveEnds) (event : Next) (buf : List ℕ) (sight : EndsSight) →
        LogsTurn old event buf new → is_cut event ≡ true → ShowsEnds new sight →
        sight.peer ≡ None }
    ensures shut { (old new : LiveEnds) (moment : ℕ) (cause : Close) (sight : EndsSight) →
        LogsPut old moment (Closed cause) new → cause ≢ Replaced → ShowsEnds new sight →
        sight.peer ≡ None }
    ensures gone { (old new : LiveEnds) (event : Next) (buf : List ℕ) (sight : EndsSight) →
        LogsTurn old event buf new → is_cut event ≡ true → old.is_cut_due ≡ false →
        ShowsEnds new sight → sight.why_cut ≡ Gone }
    ensures due { (old new : LiveEnds) (event : Next) (buf : List ℕ) (before sight : EndsSight) →
        LogsTurn old event buf new → is_cut event ≡ true → old.is_cut_due ≡ true →
        ShowsEnds old before → ShowsEnds new sight → sight.why_cut ≡ before.why_cut }
    ensures written { (old new : LiveEnds) (moment : ℕ) (action : Output) (sight : EndsSight) →
        LogsPut old moment action new → old.is_cut_due ≡ false → new.is_cut_due ≡ true →
        ShowsEnds new sight → sight.why_cut ≡ NotTaken }
    ensures failed { (failed : ℕ) → 0 < failed → failure_of failed ≡ Some Line }
    ensures sound { failure_of 0 ≡ None }
{
    a_cut_has_its_reason();
}
