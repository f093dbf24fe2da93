//! Quality descriptors in words.
ghost use Rattle.std.specs.Prelude.{◌≡◌, ◌++◌, OnOk, string_bytes};
ghost use Rattle.words.specs.Quality.{origin, point_quality, quality, validity};

use crate::numbers::push_mark;
use std::alloc::AllocError;

/// Appends what the quality of a single or a double point says.
#[tactic(auto, unfolding(crate::specs::Quality::point_quality))]
pub(crate) fn push_point_quality(line: &mut String, octet: u8) -> Result<(), AllocError>
    ensures { OnOk result (string_bytes line.new ≡ string_bytes line.old ++ point_quality octet) }
{
    push_validity(line, octet)?;
    push_origin(line, octet)
}

/// Appends what is said of whether a value counts.
#[tactic(auto, unfolding(crate::specs::Quality::validity))]
fn push_validity(line: &mut String, octet: u8) -> Result<(), AllocError>
    ensures { OnOk result (string_bytes line.new ≡ string_bytes line.old ++ validity octet) }
{
    push_mark(line, octet, 7, ", invalid")?;
    push_mark(line, octet, 6, ", not topical")
}

/// Appends what is said of where a value came from.
#[tactic(auto, unfolding(crate::specs::Quality::origin))]
fn push_origin(line: &mut String, octet: u8) -> Result<(), AllocError>
    ensures { OnOk result (string_bytes line.new ≡ string_bytes line.old ++ origin octet) }
{
    push_mark(line, octet, 5, ", substituted")?;
    push_mark(line, octet, 4, ", blocked")
}

/// Appends what a quality descriptor (QDS) says.
#[tactic(auto, unfolding(crate::specs::Quality::quality))]
pub(crate) fn push_quality(line: &mut String, octet: u8) -> Result<(), AllocError>
    ensures { OnOk result (string_bytes line.new ≡ string_bytes line.old ++ quality octet) }
{
    push_point_quality(line, octet)?;
    push_mark(line, octet, 0, ", overflow")
}
