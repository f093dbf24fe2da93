//! Monitored values in words.
ghost use Rattle.std.specs.Prelude.{◌≡◌, ◌++◌, length, OnOk, string_bytes};
ghost use Rattle.words.specs.Values.{bits_words, counter_marks, counter_words, double_state};
ghost use Rattle.words.specs.Values.{double_words, float_words, initialisation, initialised_words};
ghost use Rattle.words.specs.Values.{normalised_words, on_or_off, position_words, scaled_words};
ghost use Rattle.words.specs.Values.{sequence_text, single_words, step_words};

use crate::floats::push_float_number;
use crate::numbers::{push_mark, push_normalised_number, push_signed};
use crate::quality::{push_point_quality, push_quality};
use elements::{Bsi, Element, Nva};
use std::alloc::{AllocError, Global};

/// `off` for 0, and else `on`.
pub(crate) fn on_or_off(state: u8) -> &'static str
    ensures { result.now ≡ on_or_off state }
{
    if state == 0 { "off" } else { "on" }
}

/// A double point's state: 0 to 3.
fn double_state(state: u8) -> &'static str
    ensures { result.now ≡ double_state state }
{
    match state {
        0 => "intermediate",
        1 => "off",
        2 => "on",
        _ => "bad",
    }
}

/// Appends a single point.
#[tactic(auto, unfolding(crate::specs::Values::single_words))]
pub(crate) fn push_single(line: &mut String, octets: &[u8]) -> Result<(), AllocError>
    requires { length octets.now ≡ 1 }
    ensures { OnOk result (string_bytes line.new
        ≡ string_bytes line.old ++ single_words octets.now) }
{
    line.push_str(on_or_off(octets[0] & 1))?;
    push_point_quality(line, octets[0])
}

/// Appends a double point.
#[tactic(auto, unfolding(crate::specs::Values::double_words))]
pub(crate) fn push_double(line: &mut String, octets: &[u8]) -> Result<(), AllocError>
    requires { length octets.now ≡ 1 }
    ensures { OnOk result (string_bytes line.new
        ≡ string_bytes line.old ++ double_words octets.now) }
{
    line.push_str(double_state(octets[0] & 3))?;
    push_point_quality(line, octets[0])
}

/// Appends a step position.
#[tactic(auto, unfolding(crate::specs::Values::step_words))]
pub(crate) fn push_step(line: &mut String, value: i64, octets: &[u8]) -> Result<(), AllocError>
    requires { length octets.now ≡ 2 }
    ensures { OnOk result (string_bytes line.new
        ≡ string_bytes line.old ++ step_words value octets.now) }
{
    push_position(line, value, octets[0])?;
    push_quality(line, octets[1])
}

#[tactic(auto, unfolding(crate::specs::Values::position_words))]
fn push_position(line: &mut String, value: i64, octet: u8) -> Result<(), AllocError>
    ensures { OnOk result (string_bytes line.new
        ≡ string_bytes line.old ++ position_words value octet) }
{
    line.push_str("position ")?;
    push_signed(line, value)?;
    push_mark(line, octet, 7, ", transient")
}

/// Appends a bitstring.
#[tactic(auto, unfolding(crate::specs::Values::bits_words))]
pub(crate) fn push_bits(alloc: Global, line: &mut String, octets: &[u8]) -> Result<(), AllocError>
    requires { length octets.now ≡ 5 }
    ensures { OnOk result (string_bytes line.new ≡ string_bytes line.old ++ bits_words octets.now) }
{
    let digits = hex::encode_upper(alloc, &[octets[3], octets[2], octets[1], octets[0]][..])?;
    line.push_str("0x")?;
    line.push_str(digits.as_str())?;
    push_quality(line, octets[4])
}

/// Appends a normalised value.
#[tactic(auto, unfolding(crate::specs::Values::normalised_words))]
pub(crate) fn push_normalised(line: &mut String, octets: &[u8]) -> Result<(), AllocError>
    requires { length octets.now ≡ 3 }
    ensures { OnOk result (string_bytes line.new
        ≡ string_bytes line.old ++ normalised_words octets.now) }
{
    push_normalised_number(line, Nva::get(octets).value)?;
    push_quality(line, octets[2])
}

/// Appends a scaled value.
#[tactic(auto, unfolding(crate::specs::Values::scaled_words))]
pub(crate) fn push_scaled(line: &mut String, value: i64, octets: &[u8]) -> Result<(), AllocError>
    requires { length octets.now ≡ 3 }
    ensures { OnOk result (string_bytes line.new
        ≡ string_bytes line.old ++ scaled_words value octets.now) }
{
    push_signed(line, value)?;
    push_quality(line, octets[2])
}

/// Appends a short float.
#[tactic(auto, unfolding(crate::specs::Values::float_words))]
pub(crate) fn push_float(line: &mut String, octets: &[u8]) -> Result<(), AllocError>
    requires { length octets.now ≡ 5 }
    ensures { OnOk result (string_bytes line.new
        ≡ string_bytes line.old ++ float_words octets.now) }
{
    push_float_number(line, Bsi::get(octets).bits)?;
    push_quality(line, octets[4])
}

/// Appends an integrated total.
#[tactic(auto, unfolding(crate::specs::Values::counter_words))]
pub(crate) fn push_counter(line: &mut String, value: i64, octets: &[u8]) -> Result<(), AllocError>
    requires { length octets.now ≡ 5 }
    ensures { OnOk result (string_bytes line.new
        ≡ string_bytes line.old ++ counter_words value octets.now) }
{
    push_signed(line, value)?;
    push_sequence(line, octets[4])?;
    push_counter_marks(line, octets[4])
}

#[tactic(auto, unfolding(crate::specs::Values::sequence_text))]
fn push_sequence(line: &mut String, octet: u8) -> Result<(), AllocError>
    ensures { OnOk result (string_bytes line.new ≡ string_bytes line.old ++ sequence_text octet) }
{
    write!(line, ", sequence {}", octet & 0x1F)
}

#[tactic(auto, unfolding(crate::specs::Values::counter_marks))]
fn push_counter_marks(line: &mut String, octet: u8) -> Result<(), AllocError>
    ensures { OnOk result (string_bytes line.new ≡ string_bytes line.old ++ counter_marks octet) }
{
    push_mark(line, octet, 5, ", carry")?;
    push_mark(line, octet, 6, ", adjusted")?;
    push_mark(line, octet, 7, ", invalid")
}

/// Appends why a station began anew.
#[tactic(auto, unfolding(crate::specs::Values::initialised_words))]
pub(crate) fn push_initialised(line: &mut String, octets: &[u8]) -> Result<(), AllocError>
    requires { length octets.now ≡ 1 }
    ensures { OnOk result (string_bytes line.new
        ≡ string_bytes line.old ++ initialised_words octets.now) }
{
    push_initialisation(line, octets[0] & 0x7F)?;
    push_mark(line, octets[0], 7, ", parameters changed")
}

#[tactic(auto, unfolding(crate::specs::Values::initialisation))]
fn push_initialisation(line: &mut String, cause: u8) -> Result<(), AllocError>
    ensures { OnOk result (string_bytes line.new ≡ string_bytes line.old ++ initialisation cause) }
{
    match cause {
        0 => line.push_str("local power on"),
        1 => line.push_str("local manual reset"),
        2 => line.push_str("remote reset"),
        _ => write!(line, "COI {cause}"),
    }
}
