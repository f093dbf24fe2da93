//! What octets are that are no whole frame, or more than one.
ghost use Rattle.std.specs.Prelude.{◌≡◌, ◌++◌, OnOk, string_bytes};
ghost use Rattle.words.specs.Condition.{with_rest as condition_with};
ghost use Rattle.words.specs.Faults.{cut_off, no_frame, rest_words};

use crate::facts::Condition;
use std::alloc::AllocError;

/// Appends how many octets follow a frame, if there are any.
#[tactic(auto, unfolding(crate::specs::Faults::rest_words))]
pub(crate) fn push_rest(line: &mut String, rest: usize) -> Result<(), AllocError>
    ensures { OnOk result (string_bytes line.new ≡ string_bytes line.old ++ rest_words rest) }
{
    if rest == 0 {
        return Ok(());
    }
    write!(line, "  rest {rest}")
}

/// Appends that so many octets begin a frame.
#[tactic(auto, unfolding(crate::specs::Faults::cut_off))]
pub fn push_cut_off(line: &mut String, octets: usize) -> Result<(), AllocError>
    ensures { OnOk result (string_bytes line.new ≡ string_bytes line.old ++ cut_off octets) }
{
    write!(line, "octets of a frame ({octets})")
}

/// Appends what is wrong in octets that begin no frame, and the first wrong place, from 0.
#[tactic(auto, unfolding(crate::specs::Faults::no_frame))]
pub(crate) fn push_no_frame(line: &mut String, fault: &str, place: usize) -> Result<(), AllocError>
    ensures { OnOk result (string_bytes line.new
        ≡ string_bytes line.old ++ no_frame fault.now place) }
{
    write!(line, "no frame: {fault} at {place}")
}

/// A condition if so many octets follow the frame.
pub(crate) fn with_rest(condition: Condition, rest: usize) -> Condition
    ensures { result ≡ condition_with rest condition }
{
    if rest == 0 {
        condition
    } else {
        Condition::Faulty
    }
}
