//! What the script and the control centre give at a call.
ghost use Rattle.std.specs.Prelude.{◌≡◌, List, ℕ, Option};
ghost use Rattle.sim.specs.Calls.{event_at};

use crate::centre::{Centre, start};
use crate::script::Script;
use arrayvec::ArrayVec;

/// What is due at a call before the line has its turn.
#[derive(Drop)]
pub enum Due {
    /// The wall clock shows so many milliseconds since 1970-01-01 UTC.
    Wall(u64),
    /// The connection is cut.
    Cut,
    /// A connection is opened.
    Open,
    /// An APDU goes to the gateway.
    Apdu(ArrayVec<u8, 255>),
    /// Nothing: the line has its turn.
    Line,
}

impl Due {
    ghost use Rattle.sim.specs.Dues.{due_input};

    /// What is due at the call with this number.
    pub(crate) fn at(script: &Script, call: u64, centre: &Centre) -> Due
        ensures { (waiting : Option (List ℕ))
            → due_input result waiting ≡ event_at script.now call centre.now waiting }
    {
        // First of all: the tags of commands are judged by it.
        if let Some(number) = script.wall_at(call) {
            return Due::Wall(number);
        }
        if !centre.is_open {
            return Due::Open;
        }
        // Only an open one is cut. A cut for a call without one is passed over.
        if script.is_cut_at(call) {
            return Due::Cut;
        }
        if !centre.is_started {
            return Due::Apdu(start());
        }
        if let Some(asdu) = script.sent_at(call) {
            return Due::Apdu(centre.data(asdu.octets()));
        }
        if centre.received.saturating_sub(centre.acknowledged) >= script.ack() {
            return Due::Apdu(centre.acknowledgement());
        }
        Due::Line
    }
}
