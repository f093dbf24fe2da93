//! What a keeper stands between: a port, and a store for the events that it receives.

use crate::loss::{Loss, StoreFault};
use gateway::{Action, Gateway, Next};
use live::EndsSight;
use std::io::ErrorKind;

/// A port and a store, with one history of what is done at both.
pub trait Ends {
    ghost use Rattle.gateway.specs.Log.{LogEntry, Went, with_news};
    ghost use Rattle.gateway.specs.Ports.{FitsBuffer, faults_of, output_of, logged_by};
    ghost use Rattle.gateway.specs.Restored.{IsSavable};
    ghost use Rattle.gateway.specs.State.{IsBetweenSteps};
    ghost use Rattle.gateway.specs.declared.ports.Next.TheVariants.{Done};
    ghost use Rattle.live.specs.declared.watched.EndsSight.{EndsSight};
    ghost use Rattle.live.specs.declared.watched.Failure.{Failure};
    ghost use Rattle.state.specs.Deeds.{Appended, Begun, Deed, GivenUp, Received, IsSafe, PutOut};
    ghost use Rattle.state.specs.Deeds.{Synced, grown, is_kept};
    ghost use Rattle.state.specs.Lines.{is_renewal_due};
    ghost use Rattle.state.specs.Standings.{HasFailed, IsPortLeft};
    ghost use Rattle.std.specs.Prelude.{◌≡◌, ℕ, ◌+◌, ◌<◌, Bool, true, List, [], ◌∷◌, ◌++◌, map};
    ghost use Rattle.std.specs.Prelude.{Option, nat_lt, if◌then◌else◌, MatchResult, OnOk};
    ghost use Rattle.std.specs.Option.{is_some};

    /// The log of the port, as the port gives it.
    ghost log: { Self → Option (List LogEntry) };

    ghost failed: { Self → ℕ };

    ghost ended: { Self → Bool };

    ghost Fixed: { Type 0 } = { List LogEntry };

    ghost script: { Self → Fixed };

    /// What was done, the newest first.
    ghost deeds: { Self → List Deed };

    /// The next event of the port.
    fn next(&mut self, buf: &mut [u8; 1024]) -> Next
        requires { failed self.old < u64.MAX }
        ensures arrived { deeds self.new
            ≡ map Received (logged_by result buf.new) ++ deeds self.old }
        ensures logged { log self.new ≡ with_news (log self.old) (logged_by result buf.new) }
        ensures fits { FitsBuffer result }
        ensures done { result ≡ Done → ended self.new ≡ true }
        ensures script { script self.new ≡ script self.old }
        ensures cause { failed self.new ≡ failed self.old + faults_of result };

    /// Puts an action out at the port, at a moment. `false` says that its device failed.
    fn put(&mut self, now: u64, action: &Action<'_>) -> bool
        requires few { failed self.old < u64.MAX }
        requires safe { IsSafe (deeds self.old) }
        ensures put { deeds self.new
            ≡ (if result then PutOut (Went now (output_of action.now)) ∷ [] else [])
            ++ deeds self.old }
        ensures logged { log self.new
            ≡ (if result then with_news (log self.old) (Went now (output_of action.now) ∷ [])
            else log self.old) }
        ensures script { script self.new ≡ script self.old }
        ensures cause { failed self.new ≡ failed self.old + (if result then 0 else 1) };

    /// How often the port's device failed.
    fn failures(&self) -> u64
        ensures { result ≡ failed self.now };

    /// What has failed of the port's device, as a port says it.
    ghost failure: { Self → Option Failure };

    /// Such a sight shows the port's ends.
    ghost shows: { Self → EndsSight → Type 0 };

    /// Looks at the port's ends, and asks nothing of them.
    fn sight(&self) -> EndsSight
        ensures shows { shows self.now result }
        ensures failure { result.failure ≡ failure self.now }
        ensures failed { is_some result.failure ≡ nat_lt 0 (failed self.now) };

    /// Appends the line of an event to the log, whose octets are the front of the buffer. An `Err`
    /// says that the store has failed, and whether the state on the disk is marked as stale. It
    /// doesn't fail for want of room while no new log is due.
    fn append(&mut self, next: Next, buf: &[u8; 1024]) -> Result<(), Loss>
        requires kept { is_kept (deeds self.old) ≡ true }
        requires fits { FitsBuffer next }
        ensures appended { MatchResult result
            (λ _. deeds self.new ≡ map Appended (logged_by next buf.now) ++ deeds self.old)
            (λ loss. HasFailed (logged_by next buf.now) loss (deeds self.old) (deeds self.new)) }
        ensures port { IsPortLeft log failed ended script self.old self.new };

    /// Syncs the log. An `Err` as of `append`: what is on the disk isn't known then.
    fn sync(&mut self) -> Result<(), Loss>
        requires { is_kept (deeds self.old) ≡ true }
        ensures synced { MatchResult result
            (λ _. deeds self.new ≡ Synced ∷ deeds self.old)
            (λ loss. deeds self.new ≡ GivenUp StoreFault.Failed loss ∷ deeds self.old) }
        ensures port { IsPortLeft log failed ended script self.old self.new };

    /// A new log is due, as the present one has grown.
    fn is_full(&self) -> bool
        ensures { is_kept (deeds self.now) ≡ true →
            result ≡ is_renewal_due (grown (deeds self.now)) };

    /// Begins a new log, with the state of the gateway at its head, which is the state that all
    /// events so far have led to. If `Ok` is answered it stands on the disk. An `Err` as of
    /// `append`.
    fn begin(&mut self, gateway: &Gateway) -> Result<(), Loss>
        ensures begun { MatchResult result
            (λ _. deeds self.new ≡ Begun gateway.now ∷ deeds self.old)
            (λ loss. deeds self.new ≡ GivenUp StoreFault.Failed loss ∷ deeds self.old) }
        ensures savable { IsBetweenSteps gateway.now → OnOk result (IsSavable gateway.now) }
        ensures port { IsPortLeft log failed ended script self.old self.new };

    /// Why the store has failed, as far as the system said it.
    fn cause(&self) -> Option<ErrorKind>;
}
