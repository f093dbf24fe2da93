//! Octets of the line in words.
ghost use Rattle.std.specs.Prelude.{◌≡◌, ◌++◌, IfOk, OnOk, string_bytes};
ghost use Rattle.ft12.specs.Borrowed.{owned, owned_front};
ghost use Rattle.words.specs.LineFacts.{frame_lines, frame_condition, front_lines};
ghost use Rattle.words.specs.LineFacts.{front_condition, number_of, IsLineShown};

use crate::facts::condition::push_rest;
use crate::facts::control::control_text;
use crate::facts::units::push_unit;
use crate::facts::{Condition, LineSizes, Shown};
use ft12::{FrameRef, FrontRef, Why, front_ref};
use std::alloc::{AllocError, Global};

/// Shows what stands at the front of octets of the line: the frame and its ASDU, and how many
/// octets follow; or that they begin a frame, or why they begin none.
pub fn show_line(alloc: Global, sizes: LineSizes, octets: &[u8]) -> Result<Shown, AllocError>
    ensures { IfOk result (λ shown.
        IsLineShown sizes octets.now (string_bytes shown.lines) shown.condition) }
{
    let front = front_ref(sizes.link, octets);
    let mut lines = String::new(alloc);
    let condition = push_front(alloc, &mut lines, sizes, octets.len(), front)?;
    Ok(Shown { lines, condition })
}

/// Appends the lines of what stands at the front of so many octets.
fn push_front(
    alloc: Global,
    lines: &mut String,
    sizes: LineSizes,
    count: usize,
    front: FrontRef<'_>,
) -> Result<Condition, AllocError>
    ensures lines { OnOk result (string_bytes lines.new
        ≡ string_bytes lines.old ++ front_lines sizes count (owned_front front.entry)) }
    ensures condition { IfOk result (λ condition.
        condition ≡ front_condition sizes count (owned_front front.entry)) }
{
    match front {
        FrontRef::Whole(frame, len) => {
            let condition = push_frame(alloc, lines, sizes, frame)?;
            // A frame is never longer than what it was read from; said so that it needs no proof.
            let rest = count.saturating_sub(len);
            push_rest(lines, rest)?;
            Ok(condition.with_rest(rest))
        }
        FrontRef::More => {
            writeln!(lines, "truncated")?;
            Ok(Condition::Faulty)
        }
        FrontRef::Never(place, why) => {
            let number = number_of(why);
            writeln!(lines, "refused {number} at {place}")?;
            Ok(Condition::Faulty)
        }
    }
}

/// Appends the lines of a frame and of its data.
fn push_frame(
    alloc: Global,
    lines: &mut String,
    sizes: LineSizes,
    frame: FrameRef<'_>,
) -> Result<Condition, AllocError>
    ensures lines { OnOk result (string_bytes lines.new
        ≡ string_bytes lines.old ++ frame_lines sizes (owned frame.entry)) }
    ensures condition { IfOk result (λ condition.
        condition ≡ frame_condition sizes (owned frame.entry)) }
{
    match frame {
        FrameRef::Single => writeln!(lines, "single")?,
        FrameRef::Fixed { c, a } => {
            let control = control_text(alloc, c)?;
            writeln!(lines, "fixed {control} address={a}")?;
        }
        FrameRef::Data { c, a, body } => {
            let control = control_text(alloc, c)?;
            let octets = body.len();
            writeln!(lines, "data {control} address={a} octets={octets}")?;
            // Its verdict is the frame's: what an ASDU lacks is said where it stands.
            return push_unit(alloc, lines, sizes.asdu, body);
        }
    }
    Ok(Condition::Good)
}

/// The number of a refusal.
fn number_of(why: Why) -> u8
    ensures { result ≡ number_of why }
{
    why as u8
}
