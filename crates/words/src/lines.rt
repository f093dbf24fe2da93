//! Frames of the serial line in words.
ghost use Rattle.std.specs.Prelude.{◌≡◌, ◌++◌, IfOk, OnOk, length, string_bytes};
ghost use Rattle.ft12.specs.Borrowed.{owned, owned_front};
ghost use Rattle.link.specs.Control.{primary_code, secondary_code};
ghost use Rattle.words.specs.LineFacts.{frame_condition, front_condition};
ghost use Rattle.words.specs.Faults.{no_frame};
ghost use Rattle.words.specs.Lines.{answered_words, asked_words, control_words};
ghost use Rattle.words.specs.Lines.{demand_text as demand_words, fault_of as fault_in};
ghost use Rattle.words.specs.Lines.{fcb_text as fcb_words, frame_words, front_words};
ghost use Rattle.words.specs.Lines.{primary_name as primary_name_of};
ghost use Rattle.words.specs.Lines.{secondary_name as secondary_name_of, AreLineWords};

use crate::facts::{Condition, LineSizes, Shown};
use crate::faults::{push_cut_off, push_no_frame, push_rest, with_rest};
use crate::units::push_data;
use ft12::{FrameRef, FrontRef, Why, front_ref};
use link::{Control, PrimaryFunction, SecondaryFunction};
use std::alloc::{AllocError, Global};

/// Says in words, on one line, what stands at the front of octets of the line: the frame and its
/// ASDU, and how many octets follow; or that they begin a frame, or why they begin none. The
/// condition is that of `show_line`.
pub fn words_of_line(alloc: Global, sizes: LineSizes, octets: &[u8]) -> Result<Shown, AllocError>
    ensures { IfOk result (λ shown.
        AreLineWords sizes octets.now (string_bytes shown.lines) shown.condition) }
{
    let front = front_ref(sizes.link, octets);
    let mut lines = String::new(alloc);
    let condition = push_front(alloc, &mut lines, sizes, octets.len(), front)?;
    lines.push_str("\n")?;
    Ok(Shown { lines, condition })
}

/// Appends what stands at the front of so many octets.
#[tactic(auto, unfolding(crate::specs::Lines::front_words))]
fn push_front(
    alloc: Global,
    line: &mut String,
    sizes: LineSizes,
    count: usize,
    front: FrontRef<'_>,
) -> Result<Condition, AllocError>
    ensures words { OnOk result (string_bytes line.new
        ≡ string_bytes line.old ++ front_words sizes count (owned_front front.entry)) }
    ensures condition { IfOk result (λ condition.
        condition ≡ front_condition sizes count (owned_front front.entry)) }
{
    match front {
        FrontRef::Whole(frame, len) => {
            let condition = push_line_frame(alloc, line, sizes, frame)?;
            // A frame is never longer than what it was read from; said so that it needs no proof.
            let rest = count.saturating_sub(len);
            push_rest(line, rest)?;
            Ok(with_rest(condition, rest))
        }
        FrontRef::More => {
            push_cut_off(line, count)?;
            Ok(Condition::Faulty)
        }
        FrontRef::Never(place, why) => {
            push_line_refusal(line, place, why)?;
            Ok(Condition::Faulty)
        }
    }
}

/// Appends a frame of the line in words, and says whether its data are as they should be.
#[tactic(auto, unfolding(crate::specs::Lines::frame_words))]
pub fn push_line_frame(
    alloc: Global,
    line: &mut String,
    sizes: LineSizes,
    frame: FrameRef<'_>,
) -> Result<Condition, AllocError>
    ensures words { OnOk result (string_bytes line.new
        ≡ string_bytes line.old ++ frame_words sizes (owned frame.entry)) }
    ensures condition { IfOk result (λ condition.
        condition ≡ frame_condition sizes (owned frame.entry)) }
{
    match frame {
        FrameRef::Single => line.push_str("ACK (E5)")?,
        FrameRef::Fixed { c, a } => push_control(line, c, a)?,
        FrameRef::Data { c, a, body } => {
            push_control(line, c, a)?;
            return push_data(alloc, line, sizes.asdu, body);
        }
    }
    Ok(Condition::Good)
}

/// Appends control octet and address.
#[tactic(auto, unfolding(crate::specs::Lines::control_words))]
fn push_control(line: &mut String, c: u8, a: u16) -> Result<(), AllocError>
    ensures { OnOk result (string_bytes line.new ≡ string_bytes line.old ++ control_words c a) }
{
    match Control::from_octet(c) {
        Control::Primary {
            fcb,
            fcv,
            function,
            ..
        } => push_asked(line, function, a, fcb, fcv),
        Control::Secondary {
            acd,
            dfc,
            function,
            ..
        } => push_answered(line, function, a, acd, dfc),
    }
}

/// Appends what a primary station asks of an address.
#[tactic(auto, unfolding(crate::specs::Lines::asked_words))]
fn push_asked(
    line: &mut String,
    function: PrimaryFunction,
    a: u16,
    fcb: bool,
    fcv: bool,
) -> Result<(), AllocError>
    ensures { OnOk result (string_bytes line.new
        ≡ string_bytes line.old ++ asked_words (primary_code function) a fcb fcv) }
{
    line.push_str(primary_name(function))?;
    line.push_str(" to ")?;
    write!(line, "{a}")?;
    line.push_str(fcb_text(fcb, fcv))
}

/// Appends what a secondary station answers from an address.
#[tactic(auto, unfolding(crate::specs::Lines::answered_words))]
fn push_answered(
    line: &mut String,
    function: SecondaryFunction,
    a: u16,
    acd: bool,
    dfc: bool,
) -> Result<(), AllocError>
    ensures { OnOk result (string_bytes line.new
        ≡ string_bytes line.old ++ answered_words (secondary_code function) a acd dfc) }
{
    line.push_str(secondary_name(function))?;
    line.push_str(" from ")?;
    write!(line, "{a}")?;
    line.push_str(demand_text(acd, dfc))
}

#[tactic(auto, unfolding(crate::specs::Lines::primary_name))]
fn primary_name(function: PrimaryFunction) -> &'static str
    ensures { result.now ≡ primary_name_of (primary_code function) }
{
    match function {
        PrimaryFunction::ResetLink => "reset link",
        PrimaryFunction::ResetProcess => "reset process",
        PrimaryFunction::UserData => "user data",
        PrimaryFunction::UserDataUnconfirmed => "user data, no reply",
        PrimaryFunction::AccessDemand => "access demand",
        PrimaryFunction::LinkStatus => "link status",
        PrimaryFunction::Class1 => "poll class 1",
        PrimaryFunction::Class2 => "poll class 2",
        _ => "reserved function",
    }
}

#[tactic(auto, unfolding(crate::specs::Lines::secondary_name))]
fn secondary_name(function: SecondaryFunction) -> &'static str
    ensures { result.now ≡ secondary_name_of (secondary_code function) }
{
    match function {
        SecondaryFunction::Confirm => "ACK",
        SecondaryFunction::Busy => "NACK",
        SecondaryFunction::UserData => "user data",
        SecondaryFunction::NoData => "no data",
        SecondaryFunction::LinkStatus => "link status",
        SecondaryFunction::NotFunctioning => "not functioning",
        SecondaryFunction::NotImplemented => "not implemented",
        _ => "reserved function",
    }
}

/// The frame count bit, if it is valid.
#[tactic(auto, unfolding(crate::specs::Lines::fcb_text))]
fn fcb_text(fcb: bool, fcv: bool) -> &'static str
    ensures { result.now ≡ fcb_words fcb fcv }
{
    match (fcv, fcb) {
        (true, true) => " (FCB 1)",
        (true, false) => " (FCB 0)",
        _ => "",
    }
}

/// Access demand, and data flow control.
#[tactic(auto, unfolding(crate::specs::Lines::demand_text))]
fn demand_text(acd: bool, dfc: bool) -> &'static str
    ensures { result.now ≡ demand_words acd dfc }
{
    match (acd, dfc) {
        (true, true) => ", ACD, DFC",
        (true, false) => ", ACD",
        (false, true) => ", DFC",
        (false, false) => "",
    }
}

/// Appends why octets begin no frame of the line, and the first wrong place, from 0.
pub fn push_line_refusal(line: &mut String, place: usize, why: Why) -> Result<(), AllocError>
    ensures { OnOk result (string_bytes line.new
        ≡ string_bytes line.old ++ no_frame (fault_in why) place) }
{
    push_no_frame(line, fault_of(why), place)
}

/// What is wrong at the first wrong place.
#[tactic(auto, unfolding(crate::specs::Lines::fault_of))]
fn fault_of(why: Why) -> &'static str
    ensures { result.now ≡ fault_in why }
{
    match why {
        Why::Start => "no start octet",
        Why::LengthsDiffer => "unlike lengths",
        Why::SecondStart => "no second start octet",
        Why::LengthSmall => "too small a length",
        Why::Sum => "a wrong sum",
        Why::End => "no end octet",
    }
}
