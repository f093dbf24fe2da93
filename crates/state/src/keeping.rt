//! What is appended and when it is synced.
ghost use Rattle.std.specs.Prelude.{◌≡◌, ℕ, Bool, false, List, []};
ghost use Rattle.gateway.specs.Ports.{FitsBuffer, logged_by};
ghost use Rattle.state.specs.Deeds.{AreRight, IsSafe, heads, passed};
ghost use Rattle.state.specs.Keeping.{IsOrderly};
ghost use Rattle.state.specs.Standings.{HasReceived, IsMomentOf, IsPortLeft, IsSettled, IsStanding};
ghost use Rattle.state.specs.Standings.{is_stopped};

use crate::ends::Ends;
use crate::loss::Loss;
use crate::standing::Standing;
use gateway::Next;

/// How long an event may wait for the disk while others are received, in ms.
const LONGEST_WAIT_MS: u64 = 1_000;

/// The moment of an event, if a port has one.
fn moment_of(next: Next) -> Option<u64>
    ensures { (buf : List ℕ) → IsMomentOf result (logged_by next buf) }
{
    match next {
        Next::Line(now, _) | Next::Bytes(now, _) | Next::Wall(now, _) => Some(now),
        Next::Open(now) | Next::Cut(now) | Next::Tick(now) => Some(now),
        Next::Done | Next::Fault => None,
    }
}

/// Syncs the log, if an event waits for that.
pub(crate) fn settle<E: Ends>(ends: &mut E, standing: Standing) -> Standing
    requires { IsStanding standing (E.deeds ends.old) }
    ensures orderly { (bears : Bool) → AreRight bears (E.deeds ends.old) →
        IsOrderly bears result (E.deeds ends.new) }
    ensures settled { IsSettled result }
    ensures safe { (bears : Bool) → is_stopped result bears ≡ false → IsSafe (E.deeds ends.new) }
    ensures passed { passed (E.deeds ends.new) ≡ passed (E.deeds ends.old) }
    ensures heads { heads (E.deeds ends.new) ≡ heads (E.deeds ends.old) }
    ensures port { IsPortLeft E.log E.failed E.ended E.script ends.old ends.new }
{
    match standing {
        Standing::Waiting(_) => match ends.sync() {
            Ok(()) => Standing::Synced,
            Err(loss) => Standing::Lost(loss),
        },
        Standing::Synced => Standing::Synced,
        Standing::Lost(loss) => Standing::Lost(loss),
    }
}

/// Keeps the event that was just received, whose octets are the front of the buffer. Its line is
/// appended, and the log is synced if an event waits for that too long, or if none comes any more.
pub(crate) fn keep<E: Ends>(
    ends: &mut E,
    standing: Standing,
    next: Next,
    buf: &[u8; 1024],
) -> Standing
    requires arrived { HasReceived standing (logged_by next buf.now) (E.deeds ends.old) }
    requires fits { FitsBuffer next }
    ensures orderly { (bears : Bool) → AreRight bears (E.deeds ends.old) →
        IsOrderly bears result (E.deeds ends.new) }
    ensures passed { passed (E.deeds ends.new) ≡ passed (E.deeds ends.old) }
    ensures heads { heads (E.deeds ends.new) ≡ heads (E.deeds ends.old) }
    ensures port { IsPortLeft E.log E.failed E.ended E.script ends.old ends.new }
    ensures settled { logged_by next buf.now ≡ [] → IsSettled result }
{
    let Some(now) = moment_of(next) else {
        return settle(ends, standing);
    };
    let since = match standing {
        Standing::Synced => now,
        Standing::Waiting(since) => since,
        Standing::Lost(loss) => return Standing::Lost(loss),
    };
    if let Err(loss) = ends.append(next, buf) {
        return Standing::Lost(loss);
    }
    if now.saturating_sub(since) < LONGEST_WAIT_MS {
        return Standing::Waiting(since);
    }
    match ends.sync() {
        Ok(()) => Standing::Synced,
        Err(loss) => Standing::Lost(loss),
    }
}

/// The store has failed, and that isn't borne: the run is to end. It is never borne if the state on
/// the disk couldn't be marked as stale.
pub(crate) fn is_stopped(standing: Standing, bears_loss: bool) -> bool
    ensures { result ≡ is_stopped standing bears_loss }
{
    match standing {
        Standing::Lost(Loss::Marked) => !bears_loss,
        // Else the next start would trust an old state (docs/DECISIONS.md, "A disk that fails").
        Standing::Lost(Loss::Unmarked) => true,
        Standing::Synced | Standing::Waiting(_) => false,
    }
}
