//! Texts that can be read more than once.
ghost use Rattle.std.specs.Prelude.{◌≡◌, ℕ, List, IfOk};
ghost use Rattle.telegate.specs.Source.{Gives};

use crate::host::Unread;
use std::io::Read;

/// A text that can be read from its beginning on more than once.
pub(crate) trait Source {
    type Text: Read + Drop;

    // These octets may be the text: a file may have others each time.
    ghost has: { Self → List ℕ → Type 0 };

    /// The text, from its beginning on.
    fn open(&self) -> Result<Self::Text, Unread>
        ensures { IfOk result (λ text. (octets : List ℕ) →
            Gives (Self.Text.remaining text) octets → has self.now octets) };
}

/// A text that stands in memory.
#[derive(Clone, Copy)]
pub(crate) struct HeldText<'a> {
    pub(crate) octets: &'a [u8],
}

impl<'a> Source for HeldText<'a> {
    type Text = &'a [u8];

    ghost has = { λ s octets. s.octets.now ≡ octets };

    fn open(&self) -> Result<&'a [u8], Unread> {
        Ok(self.octets)
    }
}
