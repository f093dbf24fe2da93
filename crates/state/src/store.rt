//! What keeps the events of a run.

use crate::loss::{Loss, StoreFault};
use gateway::Gateway;
use std::io::ErrorKind;

/// A log of lines behind the state of a gateway. It says what it has, and what of it is on the
/// disk.
pub trait Store {
    ghost use Rattle.gateway.specs.Restored.{IsSavable, state_lines};
    ghost use Rattle.gateway.specs.State.{IsBetweenSteps};
    ghost use Rattle.state.specs.Lines.{IsRefusedBy, longest_line, seal_octets};
    ghost use Rattle.state.specs.Stores.{Stored};
    ghost use Rattle.std.specs.Io.Iter.{u64_saturate};
    ghost use Rattle.std.specs.Prelude.{◌≡◌, ◌⊎◌, ℕ, ◌+◌, ◌≤◌, length, List, [], ◌∷◌, ◌++◌};
    ghost use Rattle.std.specs.Prelude.{Option, Some, Bool, true, false, IfErr, OnOk};

    ghost stored: { Self → Stored };

    /// The file of settings that stands at the head of each log.
    ghost settings: { Self → List ℕ };

    /// Whether the state on the disk is marked as stale, if that is known.
    ghost mark: { Self → Option Bool };

    /// The mark that says so was asked for, and couldn't be made.
    ghost refused: { Self → Type 0 };

    /// The number of the next log. A start takes the log with the highest one.
    ghost next: { Self → ℕ };

    /// The log that takes lines bears this number.
    ghost bears: { Self → ℕ → Type 0 };

    /// Appends the line of an event, with its line feed. An `Err` says why it failed.
    fn append(&mut self, lines: &[u8]) -> Result<(), StoreFault>
        requires short { length lines.now ≤ longest_line }
        ensures appended { OnOk result (stored self.new ≡ record (stored self.old) {
          held = (stored self.old).held ++ lines.now;
          octets = (stored self.old).octets + length lines.now;
        }) }
        // While no new log is due, there is room for each line.
        ensures refused { IfErr result
            (λ fault. IsRefusedBy fault [] (stored self.old).octets) }
        ensures mark { mark self.new ≡ mark self.old }
        ensures next { next self.new ≡ next self.old }
        ensures settings { settings self.new ≡ settings self.old };

    /// Seals what was appended, and syncs it. `false` says that it failed: what is on the disk
    /// isn't known then.
    fn sync(&mut self) -> bool
        ensures synced { result ≡ true → stored self.new ≡ record (stored self.old) {
          safe = (stored self.old).safe ++ (stored self.old).held;
          held = [];
          octets = (stored self.old).octets + seal_octets;
        } }
        ensures mark { mark self.new ≡ mark self.old }
        ensures next { next self.new ≡ next self.old }
        ensures settings { settings self.new ≡ settings self.old };

    /// Begins a new log behind the settings and this gateway's state. If `true` is answered it
    /// stands on the disk, takes the place of the one before, and isn't marked as stale. It has the
    /// next number, and no number is left out.
    fn begin(&mut self, gateway: &Gateway) -> bool
        ensures begun { result ≡ true → stored self.new
            ≡ record {
              head = settings self.old ∷ state_lines gateway.now;
              safe = [];
              held = [];
              octets = 0;
            } }
        // A start can read the state there again, if the gateway is between two steps.
        ensures savable { result ≡ true → IsBetweenSteps gateway.now → IsSavable gateway.now }
        ensures mark { result ≡ true → mark self.new ≡ Some false }
        ensures bears { result ≡ true → bears self.new (next self.old) }
        ensures above { result ≡ true → next self.new ≡ u64_saturate (next self.old + 1) }
        ensures next { (next self.new ≡ next self.old)
            ⊎ (next self.new ≡ u64_saturate (next self.old + 1)) }
        ensures settings { settings self.new ≡ settings self.old };

    /// How many octets the lines behind the head of the log have, with their seals.
    fn event_octets(&self) -> u64
        ensures { result ≡ (stored self.now).octets };

    /// It has failed, and marks the state on the disk as stale. Neither line nor sync comes until a
    /// new log is begun.
    fn give_up(&mut self) -> Loss
        ensures mark { result ≡ Loss.Marked → mark self.new ≡ Some true }
        ensures refused { result ≡ Loss.Unmarked → refused self.new }
        ensures next { next self.new ≡ next self.old }
        ensures settings { settings self.new ≡ settings self.old };

    /// What the system said of the latest call that failed, since a log was begun last, if it said
    /// anything.
    fn cause(&self) -> Option<ErrorKind>;
}
