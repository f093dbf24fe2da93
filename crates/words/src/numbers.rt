//! Numbers as text.
ghost use Rattle.std.specs.Prelude.{◌≡◌, ◌+◌, ◌*◌, ◌/◌, ◌%◌, ◌<◌, ◌^◌, ◌++◌, OnOk};
ghost use Rattle.std.specs.Prelude.{string_bytes};
ghost use Rattle.std.specs.Fmt.{signed_decimal};
ghost use Rattle.words.specs.Values.{fraction_text, normalised_text};
ghost use Rattle.words.specs.Numbers.{mark, minus as minus_of, millionths as millionths_of};
ghost use Rattle.words.specs.Numbers.{pointed, three_digits, two_digits};

use std::alloc::AllocError;

/// Appends a text if a bit of an octet is set. Bit 0 is the lowest.
#[tactic(auto, unfolding(crate::specs::Numbers::mark))]
pub(crate) fn push_mark(
    line: &mut String,
    octet: u8,
    place: u32,
    text: &str,
) -> Result<(), AllocError>
    requires { place < 8 }
    ensures { OnOk result (string_bytes line.new
        ≡ string_bytes line.old ++ mark place octet text.now) }
{
    if (octet >> place) & 1 == 1 {
        line.push_str(text)?;
    }
    Ok(())
}

/// A minus if there is one.
pub(crate) fn minus(is_negative: bool) -> &'static str
    ensures { result.now ≡ minus_of is_negative }
{
    if is_negative { "-" } else { "" }
}

/// Appends the last two decimal digits of a number.
#[tactic(auto, unfolding(crate::specs::Numbers::two_digits))]
pub(crate) fn push_two_digits(line: &mut String, number: u64) -> Result<(), AllocError>
    ensures { OnOk result (string_bytes line.new ≡ string_bytes line.old ++ two_digits number) }
{
    write!(line, "{}{}", number / 10 % 10, number % 10)
}

/// Appends the last three decimal digits of a number.
#[tactic(auto, unfolding(crate::specs::Numbers::three_digits))]
pub(crate) fn push_three_digits(line: &mut String, number: u64) -> Result<(), AllocError>
    ensures { OnOk result (string_bytes line.new ≡ string_bytes line.old ++ three_digits number) }
{
    write!(line, "{}", number / 100 % 10)?;
    push_two_digits(line, number)
}

/// A number over a power of two, in millionths: the nearest one.
pub(crate) fn millionths(number: u32, places: u32) -> u64
    requires number { number < 2 ^ 24 }
    requires places { places < 64 }
    ensures value { result ≡ millionths_of number places }
    ensures fits { result < 2 ^ 46 }
{
    ((u64::from(number) * 2_000_000 >> places) + 1) / 2
}

/// Appends so many millionths, with a point.
#[tactic(auto, unfolding(crate::specs::Numbers::pointed, crate::specs::Numbers::six_digits))]
pub(crate) fn push_pointed(line: &mut String, millionths: u64) -> Result<(), AllocError>
    ensures { OnOk result (string_bytes line.new ≡ string_bytes line.old ++ pointed millionths) }
{
    write!(line, "{}.", millionths / 1_000_000)?;
    push_three_digits(line, millionths / 1000)?;
    push_three_digits(line, millionths)
}

/// Appends a signed number.
pub(crate) fn push_signed(line: &mut String, number: i64) -> Result<(), AllocError>
    ensures { OnOk result (string_bytes line.new ≡ string_bytes line.old ++ signed_decimal number) }
{
    write!(line, "{number}")
}

/// Appends a number in units of 1/32768: as a fraction, and as so many units.
#[tactic(auto, unfolding(crate::specs::Values::normalised_text))]
pub(crate) fn push_normalised_number(line: &mut String, number: i16) -> Result<(), AllocError>
    ensures { OnOk result (string_bytes line.new
        ≡ string_bytes line.old ++ normalised_text number) }
{
    push_fraction(line, number < 0, u32::from(number.unsigned_abs()), 15)?;
    line.push_str(" (")?;
    push_signed(line, i64::from(number))?;
    line.push_str(")")
}

/// Appends a number over a power of two, with six digits behind the point.
#[tactic(auto, unfolding(crate::specs::Values::fraction_text))]
fn push_fraction(
    line: &mut String,
    is_negative: bool,
    number: u32,
    places: u32,
) -> Result<(), AllocError>
    requires number { number < 2 ^ 24 }
    requires places { places < 64 }
    ensures { OnOk result (string_bytes line.new
        ≡ string_bytes line.old ++ fraction_text is_negative number places) }
{
    line.push_str(minus(is_negative))?;
    push_pointed(line, millionths(number, places))
}
