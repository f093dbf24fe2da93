//! The log of a run, for who can't keep it.
ghost use Rattle.std.specs.Prelude.{◌≡◌, List, [], ◌∷◌, ◌++◌};
ghost use Rattle.std.specs.Borrow.{ftrue};
ghost use Rattle.gateway.specs.Log.{Came, LogEntry, Restarted, Went};

use crate::ports::{Action, Next};
use std::marker::Model;

/// The log of a run, the newest entry first, which only proofs read. It takes no memory, and its
/// methods do nothing at run time. A port that has one gives its log, though it stores none of it.
#[derive(Drop)]
pub struct History {
    pub ghost entries: { List LogEntry },
}

impl Model for History {
    ghost also_owns = { λ _. ftrue };
}

impl History {
    ghost use Rattle.gateway.specs.Ports.{logged_by, output_of};

    /// A log without entries.
    pub fn new() -> History
        ensures { result.entries ≡ [] }
    {
        History {}
    }

    /// A log that begins with what has passed, in whatever lives before: which entries these are is
    /// known to proofs alone.
    pub fn before() -> History
        ghost log: { List LogEntry }
        ensures { result.entries ≡ log }
    {
        History {}
    }

    /// The log as it stands, beside one that goes on.
    pub fn again(&self) -> History
        ensures { result.entries ≡ self.now.entries }
    {
        History {}
    }

    /// The log with the event that a port's answer gives, if it gives one: its octets are the front
    /// of the buffer.
    pub fn came(&self, _next: &Next, _buf: &[u8; 1024]) -> History
        ensures { result.entries ≡ logged_by _next.now _buf.now ++ self.now.entries }
    {
        History {}
    }

    /// The log with the restart behind it, at the moment of its latest step, in ms.
    pub fn restarted(&self, _moment: &u64) -> History
        ensures { result.entries ≡ Came _moment.now Restarted ∷ self.now.entries }
    {
        History {}
    }

    /// The log with an action that goes out at a moment, in ms.
    pub fn went(&self, _now: &u64, _action: &Action<'_>) -> History
        ensures { result.entries ≡ Went _now.now (output_of _action.now) ∷ self.now.entries }
    {
        History {}
    }
}
