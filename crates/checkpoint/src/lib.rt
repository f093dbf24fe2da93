//! What the state of a part is written to and read from: lines of numbers, and lines of octets.
//!
//! Each part of the gateway puts its state as lines onto a [`Sheet`], and is made again from the
//! [`Lines`] that come. A part's contract says that what it reads is what was put; which text
//! stands for a line is the affair of those that implement the two traits.
#![tactic(auto)]

ghost use Rattle.std.specs.Prelude.{◌≡◌, ℕ, List, [], ◌∷◌, ◌++◌, OnOk, Err};
ghost use Rattle.checkpoint.specs.Octets.{IsOctetLine};
ghost use Rattle.checkpoint.specs.declared.StateFault.TheVariants.{Wrong};

use std::alloc::AllocError;
use thiserror::Error;

/// Why a state isn't put or isn't read.
#[derive(Clone, Copy, Debug, PartialEq, Eq, Error)]
pub enum StateFault {
    /// What was read is no state.
    #[error("this is no state")]
    Wrong,
    /// Memory was refused.
    #[error("no memory")]
    NoMemory,
    /// The device failed.
    #[error("the device failed")]
    Device,
}

impl From<AllocError> for StateFault {
    fn from(_: AllocError) -> StateFault
        ensures { result ≡ StateFault.NoMemory }
    {
        StateFault::NoMemory
    }
}

/// Where lines go. A line of octets is the same line as one of these numbers.
pub trait Sheet {
    /// The lines that were put, the first one first.
    ghost written: { Self → List (List ℕ) };

    /// Puts a line of numbers.
    // Numbers and no text, so that no part's proof deals with digits (docs/DECISIONS.md, "Lines of
    // numbers").
    fn put(&mut self, line: &[u64]) -> Result<(), StateFault>
        ensures { OnOk result (written self.new ≡ written self.old ++ line.now ∷ []) };

    /// Puts a line of octets.
    fn put_octets(&mut self, line: &[u8]) -> Result<(), StateFault>
        ensures { OnOk result (written self.new ≡ written self.old ++ line.now ∷ []) };
}

/// Lines that come one after another.
pub trait Lines {
    /// The lines that are still to come, the next one first.
    ghost coming: { Self → List (List ℕ) };

    /// Puts the next line in place of this one. `Wrong` says that none comes.
    fn next(&mut self, line: &mut Vec<u64>) -> Result<(), StateFault>
        ensures some { OnOk result (coming self.old ≡ line.new.items ∷ coming self.new) }
        ensures none { result ≡ Err Wrong → coming self.old ≡ [] };

    /// Puts the next line, if it is one of octets, in place of this one. `Wrong` says that none
    /// comes, or that the next one has a number above 255.
    fn next_octets(&mut self, line: &mut Vec<u8>) -> Result<(), StateFault>
        ensures some { OnOk result (coming self.old ≡ line.new.items ∷ coming self.new) }
        ensures none { result ≡ Err Wrong → (octets : List ℕ) (rest : List (List ℕ)) →
            IsOctetLine octets → coming self.old ≡ octets ∷ rest → ⊥ };
}
