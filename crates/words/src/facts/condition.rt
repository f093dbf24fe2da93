//! What octets in words are, and whether they were as they should be.
ghost use Rattle.std.specs.Prelude.{◌≡◌, ◌++◌, OnOk, string_bytes};
ghost use Rattle.words.specs.Condition.{rest_line, with_rest};

use std::alloc::AllocError;

/// Whether octets are as they should be.
#[derive(Clone, Copy, PartialEq, Eq)]
pub enum Condition {
    /// One whole frame, with no data or an ASDU that could be read, and nothing after it.
    Good,
    /// No whole frame, an ASDU that was refused, or octets after the frame.
    Faulty,
}

/// Octets in words.
#[derive(PartialEq, Eq, Drop)]
pub struct Shown {
    /// One fact a line, each ended by a line feed.
    pub lines: String,
    pub condition: Condition,
}

impl Condition {
    /// The condition if so many octets follow the frame.
    pub(crate) fn with_rest(self, rest: usize) -> Condition
        ensures { result ≡ with_rest rest self }
    {
        if rest == 0 { self } else { Condition::Faulty }
    }
}

/// Appends the line for the octets after a frame, if there are any.
pub(crate) fn push_rest(lines: &mut String, rest: usize) -> Result<(), AllocError>
    ensures { OnOk result (string_bytes lines.new ≡ string_bytes lines.old ++ rest_line rest) }
{
    if rest > 0 {
        writeln!(lines, "rest {rest}")?;
    }
    Ok(())
}
