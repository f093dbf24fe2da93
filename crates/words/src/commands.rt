//! Commands in words.
ghost use Rattle.std.specs.Prelude.{◌≡◌, ◌++◌, length, OnOk, string_bytes};
ghost use Rattle.words.specs.Values.{double_command, double_command_state, interrogation};
ghost use Rattle.words.specs.Values.{interrogation_words, normalised_set_point, ql_text, qu_text};
ghost use Rattle.words.specs.Values.{qualifier, scaled_set_point, select_text, set_point_qualifier};
ghost use Rattle.words.specs.Values.{single_command, step_command, step_command_state};

use crate::monitored::on_or_off;
use crate::numbers::{push_normalised_number, push_signed};
use elements::{Element, SeNva};
use std::alloc::AllocError;

/// Whether a qualifier selects or executes (S/E).
fn select_text(octet: u8) -> &'static str
    ensures { result.now ≡ select_text octet }
{
    if octet >= 0x80 {
        ", select"
    } else {
        ", execute"
    }
}

/// Appends the qualifier of a command: S/E and QU.
#[tactic(auto, unfolding(crate::specs::Values::qualifier))]
fn push_qualifier(line: &mut String, octet: u8) -> Result<(), AllocError>
    ensures { OnOk result (string_bytes line.new ≡ string_bytes line.old ++ qualifier octet) }
{
    line.push_str(select_text(octet))?;
    push_qu(line, (octet >> 2) & 0x1F)
}

/// Appends QU (IEC 60870-5-101, 7.2.6.26): 0 says nothing.
#[tactic(auto, unfolding(crate::specs::Values::qu_text))]
fn push_qu(line: &mut String, number: u8) -> Result<(), AllocError>
    ensures { OnOk result (string_bytes line.new ≡ string_bytes line.old ++ qu_text number) }
{
    match number {
        0 => Ok(()),
        1 => line.push_str(", short pulse"),
        2 => line.push_str(", long pulse"),
        3 => line.push_str(", persistent"),
        _ => write!(line, ", QU {number}"),
    }
}

/// Appends a single command (SCO).
#[tactic(auto, unfolding(crate::specs::Values::single_command))]
pub(crate) fn push_single_command(line: &mut String, octets: &[u8]) -> Result<(), AllocError>
    requires { length octets.now ≡ 1 }
    ensures { OnOk result (string_bytes line.new
        ≡ string_bytes line.old ++ single_command octets.now) }
{
    line.push_str(on_or_off(octets[0] & 1))?;
    push_qualifier(line, octets[0])
}

/// Appends a double command (DCO).
#[tactic(auto, unfolding(crate::specs::Values::double_command))]
pub(crate) fn push_double_command(line: &mut String, octets: &[u8]) -> Result<(), AllocError>
    requires { length octets.now ≡ 1 }
    ensures { OnOk result (string_bytes line.new
        ≡ string_bytes line.old ++ double_command octets.now) }
{
    line.push_str(double_command_state(octets[0] & 3))?;
    push_qualifier(line, octets[0])
}

fn double_command_state(state: u8) -> &'static str
    ensures { result.now ≡ double_command_state state }
{
    match state {
        1 => "off",
        2 => "on",
        _ => "not permitted",
    }
}

/// Appends a regulating step command (RCO).
#[tactic(auto, unfolding(crate::specs::Values::step_command))]
pub(crate) fn push_step_command(line: &mut String, octets: &[u8]) -> Result<(), AllocError>
    requires { length octets.now ≡ 1 }
    ensures { OnOk result (string_bytes line.new
        ≡ string_bytes line.old ++ step_command octets.now) }
{
    line.push_str(step_command_state(octets[0] & 3))?;
    push_qualifier(line, octets[0])
}

fn step_command_state(state: u8) -> &'static str
    ensures { result.now ≡ step_command_state state }
{
    match state {
        1 => "lower",
        2 => "higher",
        _ => "not permitted",
    }
}

/// Appends the qualifier of a set point (QOS): S/E and QL, of which 0 says nothing.
#[tactic(auto, unfolding(crate::specs::Values::set_point_qualifier))]
fn push_set_point_qualifier(line: &mut String, octet: u8) -> Result<(), AllocError>
    ensures { OnOk result (string_bytes line.new
        ≡ string_bytes line.old ++ set_point_qualifier octet) }
{
    line.push_str(select_text(octet))?;
    push_ql(line, octet & 0x7F)
}

#[tactic(auto, unfolding(crate::specs::Values::ql_text))]
fn push_ql(line: &mut String, number: u8) -> Result<(), AllocError>
    ensures { OnOk result (string_bytes line.new ≡ string_bytes line.old ++ ql_text number) }
{
    if number == 0 {
        return Ok(());
    }
    write!(line, ", QL {number}")
}

/// Appends a normalised set point.
#[tactic(auto, unfolding(crate::specs::Values::normalised_set_point))]
pub(crate) fn push_normalised_set_point(line: &mut String, octets: &[u8]) -> Result<(), AllocError>
    requires { length octets.now ≡ 3 }
    ensures { OnOk result (string_bytes line.new
        ≡ string_bytes line.old ++ normalised_set_point octets.now) }
{
    push_normalised_number(line, SeNva::get(octets).value)?;
    push_set_point_qualifier(line, octets[2])
}

/// Appends a scaled set point.
#[tactic(auto, unfolding(crate::specs::Values::scaled_set_point))]
pub(crate) fn push_scaled_set_point(
    line: &mut String,
    value: i64,
    octets: &[u8],
) -> Result<(), AllocError>
    requires { length octets.now ≡ 3 }
    ensures { OnOk result (string_bytes line.new
        ≡ string_bytes line.old ++ scaled_set_point value octets.now) }
{
    push_signed(line, value)?;
    push_set_point_qualifier(line, octets[2])
}

/// Appends what an interrogation asks for (QOI).
pub(crate) fn push_interrogation(line: &mut String, octets: &[u8]) -> Result<(), AllocError>
    requires { length octets.now ≡ 1 }
    ensures { OnOk result (string_bytes line.new
        ≡ string_bytes line.old ++ interrogation_words octets.now) }
{
    push_qoi(line, octets[0])
}

#[tactic(auto, unfolding(crate::specs::Values::interrogation))]
fn push_qoi(line: &mut String, number: u8) -> Result<(), AllocError>
    ensures { OnOk result (string_bytes line.new ≡ string_bytes line.old ++ interrogation number) }
{
    match number {
        20 => line.push_str("station"),
        21..=36 => write!(line, "group {}", number - 20),
        _ => write!(line, "QOI {number}"),
    }
}
