//! The page of a scribe, and the text that was taken off it, for who doesn't keep that.
ghost use Rattle.std.specs.Prelude.{◌≡◌, ◌++◌, ℕ, List, [], string_bytes};
ghost use Rattle.std.specs.Borrow.{ftrue};

use std::marker::Model;

/// Lines that weren't taken off yet.
#[derive(Drop)]
pub(crate) struct OpenLines {
    pub(crate) text: String,
}

/// Octets that only proofs read. It takes no memory, and its methods do nothing at run time.
#[derive(Drop)]
pub(crate) struct TakenOctets {
    pub(crate) ghost octets: { List ℕ },
}

impl Model for TakenOctets {
    ghost also_owns = { λ _. ftrue };
}

impl TakenOctets {
    pub(crate) fn new() -> TakenOctets
        ensures { result.octets ≡ [] }
    {
        TakenOctets {}
    }

    /// These, and a page behind them.
    pub(crate) fn with(&self, _page: &OpenLines) -> TakenOctets
        ensures { result.octets ≡ self.now.octets ++ string_bytes _page.now.text }
    {
        TakenOctets {}
    }
}
