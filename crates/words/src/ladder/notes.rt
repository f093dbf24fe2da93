//! The lines of events and actions.
ghost use Rattle.std.specs.Prelude.{◌≡◌, ◌++◌, ◌∷◌, [], IfOk, OnOk, string_bytes};
ghost use Rattle.gateway.specs.Log.{Went};
ghost use Rattle.gateway.specs.Ports.{FitsBuffer, output_of, logged_by};
ghost use Rattle.words.specs.Ladders.{apdu_received_line, apdu_received_words, centre_line};
ghost use Rattle.words.specs.Ladders.{wall_line};
ghost use Rattle.words.specs.Ladders.{whole_words, Adds, AreApdusReceived, AreFramesReceived};
ghost use Rattle.words.specs.Ladders.{IsRemembered};
ghost use Rattle.words.specs.Ladders.{LogsNews};
ghost use Rattle.words.specs.Rungs.{repeat_remark as repeat_words};

use crate::connections::{push_apdu, push_apdu_refusal};
use crate::faults::push_cut_off;
use crate::ladder::memory::Memory;
use crate::ladder::rungs::{Style, Way, push_action as push_action_line, push_head, push_received};
use apci::{Apdu, Received as ApduReceived};
use gateway::{Action, Next};
use std::alloc::{AllocError, Global};

/// Appends the lines of an event, whose octets are the front of the buffer. If only time passes
/// there is none.
pub(crate) fn push_event(
    alloc: Global,
    text: &mut String,
    style: &Style,
    memory: &mut Memory,
    next: Next,
    buf: &[u8; 1024],
) -> Result<(), AllocError>
    requires { FitsBuffer next }
    ensures { OnOk result (LogsNews style.now memory.old (logged_by next buf.now) memory.new
        (string_bytes text.old) (string_bytes text.new)) }
{
    match next {
        Next::Line(now, len) => push_line(alloc, text, style, memory, now, &buf[..len]),
        Next::Bytes(now, len) => push_bytes(alloc, text, style, memory, now, &buf[..len]),
        Next::Open(now) => {
            memory.forget_connection();
            push_centre(text, style.is_coloured, now, "connects")
        }
        Next::Cut(now) => {
            memory.forget_connection();
            push_centre(text, style.is_coloured, now, "the connection is cut")
        }
        Next::Wall(now, wall) => push_wall(text, style.is_coloured, now, wall),
        Next::Tick(_) | Next::Done | Next::Fault => Ok(()),
    }
}

/// Appends the lines of a piece of the line.
fn push_line(
    alloc: Global,
    text: &mut String,
    style: &Style,
    memory: &mut Memory,
    now: u64,
    octets: &[u8],
) -> Result<(), AllocError>
    ensures { OnOk result (Adds (AreFramesReceived style.now now memory.old octets.now memory.new)
        (string_bytes text.old) (string_bytes text.new)) }
{
    let mut left = octets;
    'frames: while !left.is_empty() {
        let is_late = memory.is_late();
        let (taken, arrived) = memory.receive_line(left);
        push_received(alloc, text, style, is_late, now, taken, &arrived)?;
        left = &left[taken..];
    }
    Ok(())
}

/// Appends the lines of a piece of the connection.
fn push_bytes(
    alloc: Global,
    text: &mut String,
    style: &Style,
    memory: &mut Memory,
    now: u64,
    octets: &[u8],
) -> Result<(), AllocError>
    ensures { OnOk result (Adds (AreApdusReceived style.now now memory.old octets.now memory.new)
        (string_bytes text.old) (string_bytes text.new)) }
{
    let mut left = octets;
    'apdus: while !left.is_empty() {
        let (taken, arrived, whole) = memory.receive_connection(left);
        push_apdu_received(alloc, text, style.is_coloured, now, taken, arrived, &whole)?;
        left = &left[taken..];
    }
    Ok(())
}

/// Appends the line of what so many octets of a piece of the connection bring.
#[tactic(auto, unfolding(crate::specs::Ladders::apdu_received_line))]
fn push_apdu_received(
    alloc: Global,
    text: &mut String,
    is_coloured: bool,
    now: u64,
    octets: usize,
    arrived: ApduReceived,
    whole: &Option<Apdu>,
) -> Result<(), AllocError>
    ensures { OnOk result (string_bytes text.new ≡ string_bytes text.old
        ++ apdu_received_line is_coloured now octets arrived whole.now) }
{
    push_head(text, is_coloured, now, Way::FromCentre, "")?;
    push_apdu_words(alloc, text, octets, arrived, whole)?;
    text.push_str("\n")
}

#[tactic(auto, unfolding(crate::specs::Ladders::apdu_received_words))]
fn push_apdu_words(
    alloc: Global,
    text: &mut String,
    octets: usize,
    arrived: ApduReceived,
    whole: &Option<Apdu>,
) -> Result<(), AllocError>
    ensures { OnOk result (string_bytes text.new ≡ string_bytes text.old
        ++ apdu_received_words octets arrived whole.now) }
{
    match arrived {
        ApduReceived::Whole => push_whole(alloc, text, whole),
        ApduReceived::Never(place, why) => push_apdu_refusal(text, place, why),
        ApduReceived::More | ApduReceived::Deaf => push_cut_off(text, octets),
    }
}

/// Appends an APDU, if one is whole.
fn push_whole(alloc: Global, text: &mut String, whole: &Option<Apdu>) -> Result<(), AllocError>
    ensures { OnOk result (string_bytes text.new
        ≡ string_bytes text.old ++ whole_words whole.now) }
{
    if let Some(apdu) = whole {
        push_apdu(alloc, text, apdu.as_ref())?;
    }
    Ok(())
}

/// Appends the line of a connection that is opened or cut.
#[tactic(auto, unfolding(crate::specs::Ladders::centre_line))]
fn push_centre(
    text: &mut String,
    is_coloured: bool,
    now: u64,
    words: &str,
) -> Result<(), AllocError>
    ensures { OnOk result (string_bytes text.new
        ≡ string_bytes text.old ++ centre_line is_coloured now words.now) }
{
    push_head(text, is_coloured, now, Way::FromCentre, "")?;
    text.push_str(words)?;
    text.push_str("\n")
}

/// Appends the line of the wall clock.
#[tactic(auto, unfolding(crate::specs::Ladders::wall_line))]
fn push_wall(text: &mut String, is_coloured: bool, now: u64, wall: u64) -> Result<(), AllocError>
    ensures { OnOk result (string_bytes text.new
        ≡ string_bytes text.old ++ wall_line is_coloured now wall) }
{
    push_head(text, is_coloured, now, Way::Inside, "")?;
    text.push_str("the wall clock shows ")?;
    write!(text, "{wall}")?;
    text.push_str("\n")
}

/// Appends the line of an action.
pub(crate) fn push_action(
    alloc: Global,
    text: &mut String,
    style: &Style,
    memory: &mut Memory,
    now: u64,
    action: &Action<'_>,
) -> Result<(), AllocError>
    ensures { OnOk result (LogsNews style.now memory.old
        (Went now (output_of action.now) ∷ []) memory.new
        (string_bytes text.old) (string_bytes text.new)) }
{
    let remark = remember(memory, action)?;
    push_action_line(alloc, text, style, now, action, remark)
}

/// Remembers an action, and gives the remark on it.
fn remember(memory: &mut Memory, action: &Action<'_>) -> Result<&'static str, AllocError>
    ensures { IfOk result (λ remark.
        IsRemembered memory.old (output_of action.now) memory.new remark.now) }
{
    match action {
        Action::Line(octets) => {
            let is_repeat = memory.is_repeat(octets);
            memory.ask(octets)?;
            Ok(repeat_remark(is_repeat))
        }
        Action::Close(_) => {
            memory.forget_connection();
            Ok("")
        }
        Action::Tcp(_) | Action::Gap { .. } => Ok(""),
    }
}

/// A remark on a request that is the latest one again.
fn repeat_remark(is_repeat: bool) -> &'static str
    ensures { result.now ≡ repeat_words is_repeat }
{
    if is_repeat { ", repeat" } else { "" }
}
