//! Octets in hexadecimal.
ghost use Rattle.std.specs.Prelude.{◌≡◌, ◌+◌, ◌<◌, false, slice_index, ◌==◌, ◌*◌, ◌%◌, ◌≤◌, ◌&&◌};
ghost use Rattle.std.specs.Prelude.{nat_le, nat_lt, true, Some, None, Ok, IfOk, IfSome};
ghost use Rattle.std.specs.Prelude.{if◌then◌else◌, is_some, length, option_map, string_bytes, take};
ghost use Rattle.hex.specs.Hex.{IsBytes, encode_upper, hex_digit_value, is_hex_digit};
ghost use Rattle.std.specs.List.{list_all};
ghost use Rattle.std.specs.Option.{option_copied};
ghost use Rattle.traces.specs.Fields.{octets_of, parts_after};
ghost use Rattle.traces.specs.FirstLines.{AreDigitsTo, ArePairs, DigitsEnd, IsDigitsLine};
ghost use Rattle.traces.specs.FirstLines.{IsOctetsLine, IsPair, Paired, first_line, later_lines};

use crate::reading::LINE_FEED;
use hex::FromHexError;
use std::alloc::{AllocError, Global};

/// The most octets of one event.
const MOST_OCTETS: usize = 1024;

/// The value of each octet as a digit in hexadecimal, and 256 if it is none.
#[rattlefmt::skip]
static VALUES: [u16; 256] = [
    256, 256, 256, 256, 256, 256, 256, 256, 256, 256, 256, 256, 256, 256, 256, 256,
    256, 256, 256, 256, 256, 256, 256, 256, 256, 256, 256, 256, 256, 256, 256, 256,
    256, 256, 256, 256, 256, 256, 256, 256, 256, 256, 256, 256, 256, 256, 256, 256,
      0,   1,   2,   3,   4,   5,   6,   7,   8,   9, 256, 256, 256, 256, 256, 256, // `0` to `9`
    256,  10,  11,  12,  13,  14,  15, 256, 256, 256, 256, 256, 256, 256, 256, 256, // `A` to `F`
    256, 256, 256, 256, 256, 256, 256, 256, 256, 256, 256, 256, 256, 256, 256, 256,
    256,  10,  11,  12,  13,  14,  15, 256, 256, 256, 256, 256, 256, 256, 256, 256, // `a` to `f`
    256, 256, 256, 256, 256, 256, 256, 256, 256, 256, 256, 256, 256, 256, 256, 256,
    256, 256, 256, 256, 256, 256, 256, 256, 256, 256, 256, 256, 256, 256, 256, 256,
    256, 256, 256, 256, 256, 256, 256, 256, 256, 256, 256, 256, 256, 256, 256, 256,
    256, 256, 256, 256, 256, 256, 256, 256, 256, 256, 256, 256, 256, 256, 256, 256,
    256, 256, 256, 256, 256, 256, 256, 256, 256, 256, 256, 256, 256, 256, 256, 256,
    256, 256, 256, 256, 256, 256, 256, 256, 256, 256, 256, 256, 256, 256, 256, 256,
    256, 256, 256, 256, 256, 256, 256, 256, 256, 256, 256, 256, 256, 256, 256, 256,
    256, 256, 256, 256, 256, 256, 256, 256, 256, 256, 256, 256, 256, 256, 256, 256,
    256, 256, 256, 256, 256, 256, 256, 256, 256, 256, 256, 256, 256, 256, 256, 256,
];

/// Sixteen times that value, and 256 if the octet is no digit.
#[rattlefmt::skip]
static HIGH_VALUES: [u16; 256] = [
    256, 256, 256, 256, 256, 256, 256, 256, 256, 256, 256, 256, 256, 256, 256, 256,
    256, 256, 256, 256, 256, 256, 256, 256, 256, 256, 256, 256, 256, 256, 256, 256,
    256, 256, 256, 256, 256, 256, 256, 256, 256, 256, 256, 256, 256, 256, 256, 256,
      0,  16,  32,  48,  64,  80,  96, 112, 128, 144, 256, 256, 256, 256, 256, 256, // `0` to `9`
    256, 160, 176, 192, 208, 224, 240, 256, 256, 256, 256, 256, 256, 256, 256, 256, // `A` to `F`
    256, 256, 256, 256, 256, 256, 256, 256, 256, 256, 256, 256, 256, 256, 256, 256,
    256, 160, 176, 192, 208, 224, 240, 256, 256, 256, 256, 256, 256, 256, 256, 256, // `a` to `f`
    256, 256, 256, 256, 256, 256, 256, 256, 256, 256, 256, 256, 256, 256, 256, 256,
    256, 256, 256, 256, 256, 256, 256, 256, 256, 256, 256, 256, 256, 256, 256, 256,
    256, 256, 256, 256, 256, 256, 256, 256, 256, 256, 256, 256, 256, 256, 256, 256,
    256, 256, 256, 256, 256, 256, 256, 256, 256, 256, 256, 256, 256, 256, 256, 256,
    256, 256, 256, 256, 256, 256, 256, 256, 256, 256, 256, 256, 256, 256, 256, 256,
    256, 256, 256, 256, 256, 256, 256, 256, 256, 256, 256, 256, 256, 256, 256, 256,
    256, 256, 256, 256, 256, 256, 256, 256, 256, 256, 256, 256, 256, 256, 256, 256,
    256, 256, 256, 256, 256, 256, 256, 256, 256, 256, 256, 256, 256, 256, 256, 256,
    256, 256, 256, 256, 256, 256, 256, 256, 256, 256, 256, 256, 256, 256, 256, 256,
];

/// 1 to 1,024 octets in hexadecimal, each as two digits of either case. `None` if the text is
/// anything else; an `Err` is want of memory.
pub fn read_octets(alloc: Global, text: &[u8]) -> Result<Option<Vec<u8>>, AllocError>
    ensures octets { IfOk result (λ octets. option_map (λ v. v.items) octets ≡ octets_of text.now) }
    ensures most { IfOk result (λ octets. IfSome octets (λ v. length v.items ≤ 1024)) }
{
    match hex::decode(alloc, text) {
        Ok(octets) if 1 <= octets.len() && octets.len() <= MOST_OCTETS => Ok(Some(octets)),
        Ok(_) => Ok(None),
        Err(FromHexError::OutOfMemory) => Err(AllocError),
        Err(_) => Ok(None),
    }
}

/// Octets in hexadecimal, in upper case. An `Err` is want of memory.
pub fn hex_digits(alloc: Global, octets: &[u8]) -> Result<String, AllocError>
    ensures digits { IfOk result (λ digits. string_bytes digits ≡ encode_upper octets.now) }
    ensures octets { IsBytes octets.now }
{
    hex::encode_upper(alloc, octets)
}

/// Whether so many digits may be 1 to 1,024 octets.
fn may_be_octets(digits: usize) -> bool
    ensures { result ≡ (digits % 2 == 0 && nat_le 2 digits && nat_le digits 2048) }
{
    digits % 2 == 0 && 2 <= digits && digits <= 2 * MOST_OCTETS
}

/// The octets in hexadecimal that are the whole first line of a text, and the lines behind it.
/// `None` if the line is anything else. Its end is found where its digits end, so that each octet
/// is looked at once.
pub(crate) fn octets_line(text: &[u8]) -> Option<(&[u8], Option<&[u8]>)>
    ensures { IsOctetsLine text.entry.now result }
{
    let (digits, rest) = digits_line(text, digits_end(text))?;
    if may_be_octets(digits.len()) {
        Some((digits, rest))
    } else {
        None
    }
}

/// The first line of a text whose digits end here, if these are all of it, and the lines behind it.
fn digits_line(text: &[u8], end: usize) -> Option<(&[u8], Option<&[u8]>)>
    requires { DigitsEnd text.now end }
    ensures { IsDigitsLine text.entry.now result }
{
    if end == text.len() {
        return Some((text, None));
    }
    if text[end] == LINE_FEED {
        return Some((&text[..end], Some(&text[end + 1..])));
    }
    None
}

/// Where the digits at the front of a text end. The first are looked at one by one, since a value
/// of one octet ends there, as most are in pieces; the others a block at a time.
fn digits_end(text: &[u8]) -> usize
    ensures { DigitsEnd text.now result }
{
    let near = run_end(text, 0, text.len().min(NEAR));
    if near < NEAR {
        return near;
    }
    run_end(text, blocks_end(text, near), text.len())
}

/// As far as there are digits, and on to the first other octet or to the limit.
fn run_end(text: &[u8], from: usize, limit: usize) -> usize
    requires digits { AreDigitsTo text.now from }
    requires within { limit ≤ length text.now }
    requires forward { from ≤ limit }
    ensures digits { AreDigitsTo text.now result }
    ensures within { result ≤ limit }
    ensures over { result < limit → is_hex_digit (slice_index text.now result) ≡ false }
{
    let mut end = from;
    'digits: while end < limit {
        if value_of(text[end]) >= NO_DIGIT {
            return end;
        }
        end += 1;
    }
    end
}

/// So many octets are looked at one by one.
const NEAR: usize = 4;

/// So many octets are judged at a time.
const BLOCK: usize = 16;

/// As far as there are digits, and on for as many whole blocks of them as follow.
fn blocks_end(text: &[u8], from: usize) -> usize
    requires { AreDigitsTo text.now from }
    ensures { AreDigitsTo text.now result }
{
    let mut end = from;
    'blocks: while BLOCK <= text.len() - end {
        if !is_each_digit(&text[end..end + BLOCK]) {
            return end;
        }
        end += BLOCK;
    }
    end
}

/// Whether each octet is a digit: of a block the compiler judges all at once.
fn is_each_digit(text: &[u8]) -> bool
    ensures { result ≡ list_all is_hex_digit text.now }
{
    let mut are = true;
    for octet in text {
        are = are & is_digit(*octet);
    }
    are
}

/// Whether an octet is a digit. No look at the table, so that many octets are judged at a time.
fn is_digit(octet: u8) -> bool
    ensures { result ≡ is_hex_digit octet }
{
    (octet.wrapping_sub(b'0') < 10)
        | (octet.wrapping_sub(b'A') < 6)
        | (octet.wrapping_sub(b'a') < 6)
}

/// Puts the octets in hexadecimal that are the whole first line of a text at the front of the
/// buffer, and answers their number and the lines behind it. `None` if the line is anything else;
/// then the buffer may hold anything. The line's end is found where its digits end.
#[inline(always)]
pub(crate) fn write_line<'a>(
    text: &'a [u8],
    buf: &mut [u8; 1024],
) -> Option<(usize, Option<&'a [u8]>)>
    ensures octets { option_map (λ found. take found.0 buf.new) result
        ≡ octets_of (first_line text.entry.now) }
    ensures rest { IfSome result (λ found.
        later_lines text.entry.now ≡ parts_after 10 (option_copied found.1)) }
    ensures most { IfSome result (λ found. found.0 ≤ 1024) }
{
    let len = write_pairs(text, buf);
    let end = 2 * len;
    if end == 0 {
        return None;
    }
    if end == text.len() {
        return Some((len, None));
    }
    if text[end] == LINE_FEED {
        return Some((len, Some(&text[end + 1..])));
    }
    None
}

/// Decodes the pairs of digits at the front of a text, and says how many they are. The first are
/// looked at one by one, since a value of one octet ends there; the others four at a time.
#[inline(always)]
fn write_pairs(text: &[u8], buf: &mut [u8; 1024]) -> usize
    ensures { ArePairs text.now buf.new result }
{
    let most = (text.len() / 2).min(MOST_OCTETS);
    let near = write_each(text, buf, 0, most.min(NEAR_PAIRS));
    if near < NEAR_PAIRS {
        return near;
    }
    let far = write_blocks(text, buf, near, most);
    write_each(text, buf, far, most)
}

/// So many pairs are looked at one by one.
const NEAR_PAIRS: usize = 2;

/// So many pairs are decoded at a time.
const PAIRS_AT_ONCE: usize = 4;

/// Decodes on, pair by pair, as far as the limit. It looks at none behind the first pair that isn't
/// of digits.
#[inline(always)]
fn write_each(text: &[u8], buf: &mut [u8; 1024], from: usize, limit: usize) -> usize
    requires so_far { Paired text.now buf.old from }
    requires forward { from ≤ limit }
    requires most { limit ≤ 1024 }
    requires within { 2 * limit ≤ length text.now }
    ensures pairs { Paired text.now buf.new result }
    ensures within { result ≤ limit }
    ensures over { result < limit →
        (is_hex_digit (slice_index text.now (2 * result))
        && is_hex_digit (slice_index text.now (2 * result + 1))) ≡ false }
{
    'octets: for i in from..limit {
        let octet = pair(text[2 * i], text[2 * i + 1]);
        if octet >= NO_DIGIT {
            return i;
        }
        buf[i] = octet as u8;
    }
    limit
}

/// So many pairs are decoded by arithmetic at a time, if there are so many.
const WIDE_PAIRS: usize = 16;

/// Decodes on, for as many wide blocks of pairs of digits as follow, as far as the limit.
fn write_wide(text: &[u8], buf: &mut [u8; 1024], from: usize, limit: usize) -> usize
    requires so_far { Paired text.now buf.old from }
    requires forward { from ≤ limit }
    requires most { limit ≤ 1024 }
    requires within { 2 * limit ≤ length text.now }
    ensures pairs { Paired text.now buf.new result }
    ensures within { result ≤ limit }
{
    let mut end = from;
    'blocks: while WIDE_PAIRS <= limit - end {
        if !write_wide_block(text, buf, end) {
            return end;
        }
        end += WIDE_PAIRS;
    }
    end
}

/// Decodes one wide block of pairs more, and says whether all were of digits: else what it writes
/// means nothing. The compiler takes the digits all at once.
fn write_wide_block(text: &[u8], buf: &mut [u8; 1024], from: usize) -> bool
    requires so_far { Paired text.now buf.old from }
    requires most { from + 16 ≤ 1024 }
    requires within { 2 * (from + 16) ≤ length text.now }
    ensures { Paired text.now buf.new (if result then from + 16 else from) }
{
    let mut values = [0; 2 * WIDE_PAIRS];
    let mut are = true;
    'digits: for i in 0..2 * WIDE_PAIRS {
        let digit = text[2 * from + i];
        are = are & is_digit(digit);
        values[i] = digit_value(digit);
    }
    'pairs: for i in 0..WIDE_PAIRS {
        buf[from + i] = 16 * values[2 * i] + values[2 * i + 1];
    }
    are
}

/// The value of a digit; of another octet it means nothing. No look at the table, so that many
/// digits are decoded at a time.
fn digit_value(octet: u8) -> u8
    ensures value { is_hex_digit octet ≡ true → hex_digit_value octet ≡ Some result }
    ensures small { result < 16 }
{
    // A letter's low digit is 1 to 6, and bit 6 distinguishes letters from decimal digits.
    (octet % 16 + octet / 64 * 9) % 16
}

/// Decodes on, for as many whole blocks of pairs of digits as follow, as far as the limit.
fn write_blocks(text: &[u8], buf: &mut [u8; 1024], from: usize, limit: usize) -> usize
    requires so_far { Paired text.now buf.old from }
    requires forward { from ≤ limit }
    requires most { limit ≤ 1024 }
    requires within { 2 * limit ≤ length text.now }
    ensures pairs { Paired text.now buf.new result }
    ensures within { result ≤ limit }
{
    // Short values, as most are, end before a wide block would.
    let first = limit.min(from + WIDE_PAIRS);
    let near = write_narrow(text, buf, from, first);
    if near < from + WIDE_PAIRS {
        return near;
    }
    let far = write_wide(text, buf, near, limit);
    write_narrow(text, buf, far, limit)
}

/// Decodes on, for as many blocks of pairs of digits as follow, as far as the limit.
fn write_narrow(text: &[u8], buf: &mut [u8; 1024], from: usize, limit: usize) -> usize
    requires so_far { Paired text.now buf.old from }
    requires forward { from ≤ limit }
    requires most { limit ≤ 1024 }
    requires within { 2 * limit ≤ length text.now }
    ensures pairs { Paired text.now buf.new result }
    ensures within { result ≤ limit }
{
    let mut end = from;
    'blocks: while PAIRS_AT_ONCE <= limit - end {
        if !write_block(text, buf, end) {
            return end;
        }
        end += PAIRS_AT_ONCE;
    }
    end
}

/// Decodes one block of pairs more, and says whether all were of digits. That is seen at its end:
/// what it writes if they weren't means nothing.
fn write_block(text: &[u8], buf: &mut [u8; 1024], from: usize) -> bool
    requires so_far { Paired text.now buf.old from }
    requires most { from + 4 ≤ 1024 }
    requires within { 2 * (from + 4) ≤ length text.now }
    ensures { Paired text.now buf.new (if result then from + 4 else from) }
{
    let mut bits = 0u16;
    'pairs: for i in 0..PAIRS_AT_ONCE {
        let octet = pair(text[2 * (from + i)], text[2 * (from + i) + 1]);
        bits |= octet;
        buf[from + i] = (octet % NO_DIGIT) as u8;
    }
    bits < NO_DIGIT
}

/// No octet, and what has no value as a digit.
const NO_DIGIT: u16 = 256;

/// The octet of two digits. It is none if one of these is no digit.
fn pair(high: u8, low: u8) -> u16
    ensures { IsPair high low result }
{
    high_value_of(high) | value_of(low)
}

/// The value of a digit. Another octet has a value that is no octet.
fn value_of(octet: u8) -> u16
    ensures { hex_digit_value octet ≡ (if nat_lt result 256 then Some result else None) }
{
    VALUES[octet as usize]
}

/// Sixteen times the value of a digit. Another octet has a value that is no octet.
fn high_value_of(octet: u8) -> u16
    ensures { option_map (λ v. 16 * v) (hex_digit_value octet)
        ≡ (if nat_lt result 256 then Some result else None) }
{
    HIGH_VALUES[octet as usize]
}
