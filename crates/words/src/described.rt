//! Octets described frame by frame, in words or with a fact a line.
ghost use Rattle.std.specs.Prelude.{◌≡◌, IfOk, string_bytes};
ghost use Rattle.words.specs.Described.{AreApdusDescribed, AreLineFramesDescribed, both as both_of};
ghost use Rattle.words.specs.Described.{IsLineDescribed};
ghost use Rattle.words.specs.Described.{IsTcpDescribed};

use crate::connections::words_of_connection;
use crate::facts::{Condition, LineSizes, Shown, show_line, show_tcp};
use crate::lines::words_of_line;
use crate::pipes::{apdu_end, line_end};
use std::alloc::{AllocError, Global};

/// What stands at the front of octets of the line, in one line of words or with a fact a line.
pub fn describe_line(
    alloc: Global,
    sizes: LineSizes,
    octets: &[u8],
    words: bool,
) -> Result<Shown, AllocError>
    ensures { IfOk result (λ shown.
        IsLineDescribed words sizes octets.now (string_bytes shown.lines) shown.condition) }
{
    if words {
        words_of_line(alloc, sizes, octets)
    } else {
        show_line(alloc, sizes, octets)
    }
}

/// What stands at the front of octets of the connection, described so.
pub fn describe_apdu(alloc: Global, octets: &[u8], words: bool) -> Result<Shown, AllocError>
    ensures { IfOk result (λ shown.
        IsTcpDescribed words octets.now (string_bytes shown.lines) shown.condition) }
{
    if words {
        words_of_connection(alloc, octets)
    } else {
        show_tcp(alloc, octets)
    }
}

/// Describes octets of the line frame by frame, and those at whose front no frame is whole
/// together. They are as they should be if each frame is.
pub fn describe_line_frames(
    alloc: Global,
    sizes: LineSizes,
    octets: &[u8],
    words: bool,
) -> Result<Shown, AllocError>
    ensures { IfOk result (λ shown.
        AreLineFramesDescribed words sizes octets.now (string_bytes shown.lines) shown.condition) }
{
    let mut lines = String::new(alloc);
    let mut condition = Condition::Good;
    let mut left = octets;
    'frames: while !left.is_empty() {
        let end = line_end(sizes.link, left);
        let shown = describe_line(alloc, sizes, &left[..end], words)?;
        lines.push_str(shown.lines.as_str())?;
        condition = both(condition, shown.condition);
        left = &left[end..];
    }
    Ok(Shown { lines, condition })
}

/// Describes octets of the connection APDU by APDU, and those at whose front none is whole
/// together.
pub fn describe_apdus(alloc: Global, octets: &[u8], words: bool) -> Result<Shown, AllocError>
    ensures { IfOk result (λ shown.
        AreApdusDescribed words octets.now (string_bytes shown.lines) shown.condition) }
{
    let mut lines = String::new(alloc);
    let mut condition = Condition::Good;
    let mut left = octets;
    'apdus: while !left.is_empty() {
        let end = apdu_end(left);
        let shown = describe_apdu(alloc, &left[..end], words)?;
        lines.push_str(shown.lines.as_str())?;
        condition = both(condition, shown.condition);
        left = &left[end..];
    }
    Ok(Shown { lines, condition })
}

/// Two are as they should be, if both are.
pub fn both(one: Condition, other: Condition) -> Condition
    ensures { result ≡ both_of one other }
{
    match one {
        Condition::Good => other,
        Condition::Faulty => Condition::Faulty,
    }
}
