//! Scripts of a simulated line.
ghost use Rattle.std.specs.Prelude.{◌≡◌, ◌≤◌, IfSome, length};
ghost use Rattle.std.specs.Option.{option_copied};
ghost use Rattle.sim.specs.Scripts.{IsScript};
ghost use Rattle.sim.specs.Losses.{turns_of, ack_of, wall_at, is_cut_at, sent_at, fate_of};

use crate::directive::{Directive, RequestFate};
use crate::numbered::Numbered;
use link::UserData;
use std::marker::Model;

/// What is to happen on a simulated line: how many calls of its port there are, what its stations
/// report, which requests and answers are lost or spoilt, when the connection is cut and what the
/// control centre sends. Contracts see it as the list of its lines. Of `turns`, `ack` and `wall` it
/// has one at most, `turns` it has; no answer is spoilt twice, and no call sends twice.
#[derive(Drop)]
pub struct Script {
    lines: Numbered,
}

impl Model for Script {
    ghost use Rattle.std.specs.Prelude.{List};
    ghost use Rattle.sim.specs.declared.directive.Directive.{Directive};
    ghost use Rattle.sim.specs.Scripts.{IsScript};

    ghost Value = { List Directive };

    ghost view = { λ s. s.lines };

    ghost invariant = { λ s. IsScript s.lines };
}

impl Script {
    /// The script with these lines. A reader of scripts makes sure of the rules before it calls.
    pub(crate) fn new(lines: Numbered) -> Script
        requires { IsScript lines }
        ensures { result ≡ lines }
    {
        Script { lines }
    }

    /// What its lines say, in their order.
    pub fn directives(&self) -> &[Directive]
        ensures said { result.now ≡ self.now }
        ensures rules { IsScript self.now }
    {
        self.lines.directives()
    }
}

impl Script {
    /// How many calls of the port there are.
    pub fn turns(&self) -> u64
        ensures { result ≡ turns_of self.now }
    {
        self.lines.turns()
    }

    /// From how many unacknowledged I frames on the control centre acknowledges.
    pub fn ack(&self) -> u64
        ensures { result ≡ ack_of self.now }
    {
        self.lines.ack()
    }

    /// What the wall clock shows at the call with this number, in milliseconds since 1970-01-01
    /// UTC; it is given at the first call alone.
    pub fn wall_at(&self, call: u64) -> Option<u64>
        ensures { result ≡ wall_at self.now call }
    {
        if call == 1 { self.lines.wall() } else { None }
    }

    /// What becomes of the request with this number.
    pub fn fate(&self, request: u64) -> RequestFate
        ensures { result ≡ fate_of self.now request }
    {
        self.lines.fate(request)
    }

    /// Whether the connection is cut at the call with this number.
    pub fn is_cut_at(&self, call: u64) -> bool
        ensures { result ≡ is_cut_at self.now call }
    {
        self.lines.is_cut_at(call)
    }

    /// The ASDU that is sent at the call with this number, if there is one: 9 to 249 octets.
    pub fn sent_at(&self, call: u64) -> Option<&UserData>
        ensures asdu { option_copied result ≡ sent_at self.now call }
        ensures least { IfSome result (λ asdu. 9 ≤ length asdu.now) }
        ensures most { IfSome result (λ asdu. length asdu.now ≤ 249) }
    {
        self.lines.sent_at(call)
    }
}
