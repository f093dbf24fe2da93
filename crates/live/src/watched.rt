//! What can be seen of a port's ends from outside.
ghost use Rattle.std.specs.Option.{is_some};
ghost use Rattle.std.specs.Prelude.{◌≡◌, nat_lt};

use crate::ends::{CutCause, Presence, RefusedPeers};
use crate::syncs::SyncTimes;
use gateway::{Gateway, Port};
use std::io::ErrorKind;
use std::net::IpAddr;

/// What is seen of a port's ends.
#[derive(Clone, Copy, PartialEq, Eq)]
pub struct EndsSight {
    /// Whether the line is there.
    pub line: Presence,
    /// Whose connection is open.
    pub peer: Option<IpAddr>,
    /// Why the latest connection that was cut was cut.
    pub why_cut: CutCause,
    /// Who was refused.
    pub refused: RefusedPeers,
    /// How many octets of the line were dropped before requests so far, at most `u64::MAX`: they
    /// came behind the time of the exchange before.
    pub late_octets: u64,
    /// What has failed, if the device has.
    pub failure: Option<Failure>,
    /// How long syncs of the state on the disk took, if a state is kept.
    pub syncs: SyncTimes,
}

/// What of a device has failed, so that the run ends.
#[derive(Clone, Copy, PartialEq, Eq)]
pub enum Failure {
    /// The line is at its end, or broken.
    Line,
    /// The state isn't kept on the disk, and the run isn't to go on without it.
    State,
}

/// What is reported of the state on the disk.
#[derive(Clone, Copy, PartialEq, Eq)]
pub enum Notice {
    /// It isn't kept: what is polled now is lost if the gateway stops. The cause is what the system
    /// said of the call that failed, if it said anything.
    NotKept(Option<ErrorKind>),
    /// It is kept again.
    KeptAgain,
}

/// A port whose ends can be seen, and that may keep the gateway's state.
pub trait Watched: Port {
    ghost use Rattle.std.specs.Prelude.{Option, nat_lt};
    ghost use Rattle.std.specs.Option.{is_some};
    ghost use Rattle.gateway.specs.State.{State};
    ghost use Rattle.live.specs.declared.watched.EndsSight.{EndsSight};
    ghost use Rattle.live.specs.declared.watched.Failure.{Failure};
    ghost use Rattle.live.specs.declared.watched.Notice.{Notice};

    /// By a look at a gateway in this state it came from the one to the other, and had that to
    /// report.
    ghost tends: { Self → State → Self → Option Notice → Type 0 } = { λ _ _ _ _. Unit {0} };

    /// Such a sight shows its ends.
    ghost shows: { Self → EndsSight → Type 0 } = { λ _ _. Unit {0} };

    ghost Lasting: { Type 0 };

    /// What is fixed at looks too.
    ghost lasting: { Self → Lasting };

    /// What has failed, if its device has.
    ghost failure: { Self → Option Failure };

    /// Looks at its ends, and asks nothing of them.
    fn sight(&self) -> EndsSight
        ensures shows { shows self.now result }
        ensures failure { result.failure ≡ failure self.now }
        ensures failed { is_some result.failure ≡ nat_lt 0 (Self.failed self.now) };

    /// Looks at the gateway between two steps, when its state is that to which all events so far
    /// have led. Answers what is to be reported of the state on the disk, if anything.
    fn tend(&mut self, gateway: &Gateway) -> Option<Notice>
        ensures tends { tends self.old gateway.now self.new result }
        ensures log { Self.log self.new ≡ Self.log self.old }
        ensures failed { Self.failed self.new ≡ Self.failed self.old }
        ensures ended { Self.ended self.new ≡ Self.ended self.old }
        ensures lasting { lasting self.new ≡ lasting self.old };

    /// What is fixed at looks too is fixed at events and actions.
    ghost lasts: { (one other : Self) → Self.Port.script one ≡ Self.Port.script other →
        lasting one ≡ lasting other };
}
