//! Numbers in decimal.
ghost use Rattle.std.specs.Char.{is_ascii_digit};
ghost use Rattle.std.specs.Prelude.{◌≡◌, ◌-◌, ◌<◌, ◌≤◌, ◌&&◌, length, nat_le, Some, None};
ghost use Rattle.std.specs.Prelude.{if◌then◌else◌};
ghost use Rattle.traces.specs.Fields.{decimal_of};
ghost use Rattle.traces.specs.FirstLines.{IsFrontNumber};

/// The most digits of a number.
const MOST_DIGITS: usize = 15;

/// A number of 1 to 15 decimal digits.
pub fn decimal(digits: &[u8]) -> Option<u64>
    ensures { result ≡ decimal_of digits.now }
{
    let (value, end) = front_number(digits)?;
    if end == digits.len() {
        Some(value)
    } else {
        None
    }
}

/// The number of 1 to 15 decimal digits at the front of a text, and where it ends. Each octet is
/// looked at once: where the number ends is seen as its digits are read.
#[inline(always)]
pub(crate) fn front_number(text: &[u8]) -> Option<(u64, usize)>
    ensures { IsFrontNumber text.now result }
{
    // One more than it may have shows that there are too many. If that many octets stand there, as
    // they do but at the end of a text, the compiler knows how far it may go, and counts nothing.
    if text.len() > MOST_DIGITS {
        number_within(text, MOST_DIGITS + 1)
    } else {
        number_within(text, text.len())
    }
}

/// The same, by a look at so many octets at most.
#[inline(always)]
fn number_within(text: &[u8], near: usize) -> Option<(u64, usize)>
    requires within { near ≤ length text.now }
    requires most { near ≤ 16 }
    requires all { near < 16 → near ≡ length text.now }
    ensures { IsFrontNumber text.now result }
{
    let mut value = 0u64;
    for i in 0..near {
        let digit = digit_of(text[i]);
        if digit > 9 {
            return ended(value, i);
        }
        value = value * 10 + digit as u64;
    }
    ended(value, near)
}

/// The value of a decimal digit. That of another octet is above 9.
fn digit_of(octet: u8) -> u8
    ensures digit { is_ascii_digit octet ≡ nat_le result 9 }
    ensures value { result ≤ 9 → result ≡ octet - 48 }
{
    // Wrapping, so one comparison distinguishes the digits from all other octets.
    octet.wrapping_sub(b'0')
}

/// A number of so many digits, if a number may have them.
fn ended(value: u64, digits: usize) -> Option<(u64, usize)>
    ensures { result
        ≡ (if nat_le 1 digits && nat_le digits 15 then Some (value, digits) else None) }
{
    if 1 <= digits && digits <= MOST_DIGITS {
        Some((value, digits))
    } else {
        None
    }
}
