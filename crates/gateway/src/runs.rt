//! Whole runs of a gateway over a port.
ghost use Rattle.std.specs.Prelude.{◌≡◌, ℕ, ◌+◌, ◌<◌, true, false, List, [], ◌∷◌, Some, IfSome};
ghost use Rattle.std.specs.Prelude.{IfOk, IfErr, OnOk, OnErr};
ghost use Rattle.gateway.specs.Config.{Settings};
ghost use Rattle.gateway.specs.Log.{Came};
ghost use Rattle.gateway.specs.Ports.{logged_by, input_of, FitsBuffer, faults_of};
ghost use Rattle.gateway.specs.Reports.{Setup};
ghost use Rattle.gateway.specs.Traffic.{IsFaithful, HasRested};
ghost use Rattle.gateway.specs.Accounts.{IsAccounted};
ghost use Rattle.gateway.specs.Order.{KeepsOrder};
ghost use Rattle.gateway.specs.Agrees.{Follows, Rests};
ghost use Rattle.gateway.specs.Runs.{AtMostEvents, MoreEvents, UnlessDevice, faults_at};
ghost use Rattle.gateway.specs.Setups.{setup_of};

use crate::config::Config;
use crate::engine::{Gateway, NoMemory};
use crate::laws::ordering::steps_keep_their_order;
use crate::ports::{Event, Next, Port};
use std::alloc::Global;

/// How a run ended: the port had no more events, the turns were used up, or the device failed.
#[derive(Clone, Copy, PartialEq, Eq)]
pub enum End {
    Finished,
    Turns,
    Device,
}

/// Takes events from the port one after another, at most so many, and puts out what follows from
/// each. After `Device` the gateway is given up.
pub fn drive_on<P: Port>(gateway: &mut Gateway, port: &mut P, turns: u64) -> End
    requires { P.failed port.old < u64.MAX }
    ensures faithful { (p : Setup) → Follows p gateway.old (P.log port.old) →
        Rests p (P.log port.old) → IfSome (P.log port.new) (IsFaithful p) }
    // If the device failed in mid-step, only a beginning of the open connection's received frames
    // is claimed (docs/DECISIONS.md, "A device that fails in mid-step").
    ensures rests { (p : Setup) → Follows p gateway.old (P.log port.old) →
        Rests p (P.log port.old) → UnlessDevice result (IfSome (P.log port.new) (HasRested p)) }
    ensures kept { (p : Setup) → Follows p gateway.old (P.log port.old) →
        Rests p (P.log port.old) → UnlessDevice result (Follows p gateway.new (P.log port.new)) }
    // What it then keeps is what was taken and not acknowledged, and what it has counted is what
    // the log shows. `drive` gives no gateway back (docs/DECISIONS.md, "What `drive_on` promises").
    ensures accounts { (p : Setup) → Follows p gateway.old (P.log port.old) →
        Rests p (P.log port.old) →
        UnlessDevice result (IfSome (P.log port.new) (IsAccounted p gateway.new)) }
    // A step puts out at most one request and at most one close, and nothing to TCP after a close.
    ensures order { (c : Settings) → Follows (setup_of c) gateway.old (P.log port.old) →
        Rests (setup_of c) (P.log port.old) → IfSome (P.log port.new) KeepsOrder }
    ensures turns { result ≡ End.Turns → MoreEvents turns (P.log port.old) (P.log port.new) }
    // However it ends, no more events than that have been taken.
    ensures most { AtMostEvents turns (P.log port.old) (P.log port.new) }
    ensures finished { result ≡ End.Finished → P.ended port.new ≡ true }
    ensures script { P.script port.new ≡ P.script port.old }
    ensures device { P.failed port.new ≡ P.failed port.old + faults_at result }
{
    steps_keep_their_order();
    // Long enough for what a peer sends in a burst (docs/ARCHITECTURE.md, "Values that we chose").
    let mut buf = [0; 1024];
    for _ in 0..turns {
        let next = port.next(&mut buf);
        match event_of(next, &buf) {
            Ok((now, event)) => {
                if !gateway.step(now, event, port) {
                    return End::Device;
                }
            }
            Err(end) => return end,
        }
    }
    End::Turns
}

/// A whole run of a gateway with these settings: takes events from the port one after another, at
/// most so many, and puts out what follows from each. Only want of memory is answered by an `Err`,
/// and then nothing was asked of the port.
pub fn drive<P: Port>(
    alloc: Global,
    config: &Config,
    port: &mut P,
    turns: u64,
) -> Result<End, NoMemory>
    requires ready { P.failed port.old < u64.MAX }
    // What the log shows of the line and of each connection keeps every promise of a gateway with
    // these settings.
    ensures faithful { P.log port.old ≡ Some [] →
        OnOk result (IfSome (P.log port.new) (IsFaithful (setup_of config.now))) }
    // After the last step nothing that may be sent is left.
    ensures rests { P.log port.old ≡ Some [] →
        IfOk result (λ end. UnlessDevice end (IfSome (P.log port.new)
        (HasRested (setup_of config.now)))) }
    // A step puts out at most one request and at most one close, and nothing to TCP after a close.
    ensures order { P.log port.old ≡ Some [] → OnOk result (IfSome (P.log port.new) KeepsOrder) }
    ensures turns { IfOk result (λ end. end ≡ End.Turns →
        MoreEvents turns (P.log port.old) (P.log port.new)) }
    ensures most { OnOk result (AtMostEvents turns (P.log port.old) (P.log port.new)) }
    ensures finished { IfOk result (λ end. end ≡ End.Finished → P.ended port.new ≡ true) }
    ensures device { IfOk result (λ end. P.failed port.new ≡ P.failed port.old + faults_at end) }
    ensures script { P.script port.new ≡ P.script port.old }
    ensures unasked { OnErr result (port.new ≡ port.old) }
{
    let mut gateway = Gateway::new(alloc, config)?;
    Ok(drive_on(&mut gateway, port, turns))
}

/// The event that a port's answer stands for, or the end of the run.
fn event_of(next: Next, buf: &[u8; 1024]) -> Result<(u64, Event<'_>), End>
    requires { FitsBuffer next }
    ensures came { IfOk result (λ come. logged_by next buf.now
        ≡ Came come.0 (input_of come.1) ∷ []) }
    ensures healthy { OnOk result (faults_of next ≡ 0) }
    ensures none { OnErr result (logged_by next buf.now ≡ []) }
    ensures end { IfErr result (λ end. (faults_of next ≡ faults_at end)
        × (end ≡ End.Finished → next ≡ Next.Done) × (end ≡ End.Turns → ⊥)) }
{
    match next {
        Next::Line(now, len) => Ok((now, Event::Line(&buf[..len]))),
        Next::Open(now) => Ok((now, Event::Open)),
        Next::Bytes(now, len) => Ok((now, Event::Bytes(&buf[..len]))),
        Next::Cut(now) => Ok((now, Event::Cut)),
        Next::Tick(now) => Ok((now, Event::Tick)),
        Next::Wall(now, number) => Ok((now, Event::Wall(number))),
        Next::Done => Err(End::Finished),
        Next::Fault => Err(End::Device),
    }
}
