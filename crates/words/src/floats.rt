//! Short floats as text.
ghost use Rattle.std.specs.Prelude.{◌≡◌, ◌+◌, ◌*◌, ◌-◌, ◌++◌, ◌<◌, ◌≤◌, ◌^◌, OnOk, string_bytes};
ghost use Rattle.words.specs.Values.{float_text, no_number, size_text};

use crate::numbers::{millionths, minus, push_pointed};
use std::alloc::AllocError;

/// Appends a short float (IEEE 754, 32 bits) in decimal: a whole number from 2^24 on, and else the
/// nearest number with six digits behind the point.
#[tactic(auto, unfolding(crate::specs::Values::float_text))]
pub(crate) fn push_float_number(line: &mut String, bits: u32) -> Result<(), AllocError>
    ensures { OnOk result (string_bytes line.new ≡ string_bytes line.old ++ float_text bits) }
{
    line.push_str(minus(bits >= 0x8000_0000))?;
    push_size(line, (bits >> 23) % 256, bits % 0x80_0000)
}

/// Appends the size of a number with this exponent and fraction.
#[tactic(auto, unfolding(crate::specs::Values::size_text))]
fn push_size(line: &mut String, exponent: u32, fraction: u32) -> Result<(), AllocError>
    requires exponent { exponent < 256 }
    requires fraction { fraction < 2 ^ 23 }
    ensures { OnOk result (string_bytes line.new
        ≡ string_bytes line.old ++ size_text exponent fraction) }
{
    let leading = fraction + 0x80_0000;
    match exponent {
        255 => line.push_str(no_number(fraction)),
        150.. => {
            let whole = shifted(leading, exponent - 150);
            write!(line, "{whole}")
        }
        0..100 => push_pointed(line, 0),
        _ => push_pointed(line, millionths(leading, 150 - exponent)),
    }
}

/// A number times a power of two.
fn shifted(number: u32, places: u32) -> u128
    requires number { number < 2 ^ 24 }
    requires places { places ≤ 104 }
    ensures { result ≡ number * 2 ^ places }
{
    u128::from(number) << places
}

/// What an exponent of 255 says: infinite, or no number.
fn no_number(fraction: u32) -> &'static str
    ensures { result.now ≡ no_number fraction }
{
    if fraction == 0 {
        "infinite"
    } else {
        "not a number"
    }
}
