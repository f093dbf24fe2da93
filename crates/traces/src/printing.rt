//! The line of an action with octets, put where room was made before.
ghost use Rattle.std.specs.Prelude.{◌≡◌, ◌+◌, ◌*◌, ◌/◌, ◌%◌, ◌≤◌, length, slice_index, take};
ghost use Rattle.std.specs.Prelude.{IfSome};
ghost use Rattle.hex.specs.Hex.{IsBytes, encode_upper, upper_digits};
ghost use Rattle.traces.specs.Actions.{octets_line};
ghost use Rattle.traces.specs.Printed.{event_line};
ghost use Rattle.traces.specs.Spelling.{IsSpelledTo};

use crate::moments::Moment;

/// Each octet in hexadecimal, in upper case, from 0 on. A look at a table takes less time than two
/// digits by arithmetic, if the octets are few.
static PAIRS: [u8; 512] = *b"\
000102030405060708090A0B0C0D0E0F\
101112131415161718191A1B1C1D1E1F\
202122232425262728292A2B2C2D2E2F\
303132333435363738393A3B3C3D3E3F\
404142434445464748494A4B4C4D4E4F\
505152535455565758595A5B5C5D5E5F\
606162636465666768696A6B6C6D6E6F\
707172737475767778797A7B7C7D7E7F\
808182838485868788898A8B8C8D8E8F\
909192939495969798999A9B9C9D9E9F\
A0A1A2A3A4A5A6A7A8A9AAABACADAEAF\
B0B1B2B3B4B5B6B7B8B9BABBBCBDBEBF\
C0C1C2C3C4C5C6C7C8C9CACBCCCDCECF\
D0D1D2D3D4D5D6D7D8D9DADBDCDDDEDF\
E0E1E2E3E4E5E6E7E8E9EAEBECEDEEEF\
F0F1F2F3F4F5F6F7F8F9FAFBFCFDFEFF";

/// Most octets of a line of an action beside its octets in hexadecimal: a moment of 20 digits, the
/// letter with what surrounds it, and the line's end.
const MOST_BESIDE: usize = 26;

/// The room that the line of an action with so many octets needs at most.
pub(crate) fn room_for(octets: usize) -> Option<usize>
    ensures { IfSome result (λ room. room ≡ 2 * octets + 26) }
{
    octets.checked_mul(2)?.checked_add(MOST_BESIDE)
}

/// Puts the line of an action with octets at the front of a row, and says how many octets it has.
#[inline(always)]
pub(crate) fn put_line(row: &mut [u8], moment: &Moment, letter: u8, octets: &[u8]) -> usize
    requires { 2 * length octets.now + 26 ≤ length row.old }
    ensures line { take result row.new ≡ octets_line moment.now letter octets.now }
    ensures within { result ≤ length row.new }
    ensures octets { IsBytes octets.now }
{
    // As many octets as the longest moment has: what isn't of this one is written over.
    let (digits, letter_at) = moment.spelled();
    let octets_at = letter_at + 5;
    let end = octets_at + 2 * octets.len();
    row[..digits.len()].copy_from_slice(&digits);
    row[letter_at..octets_at].copy_from_slice(&[b' ', b'>', b' ', letter, b' ']);
    spell(octets, &mut row[octets_at..end]);
    row[end] = b'\n';
    end + 1
}

/// Puts the line of an event with octets at the front of a row, and says how many octets it has.
#[inline(always)]
pub(crate) fn put_event(row: &mut [u8], moment: &Moment, letter: u8, octets: &[u8]) -> usize
    requires { 2 * length octets.now + 26 ≤ length row.old }
    ensures line { take result row.new ≡ event_line moment.now letter octets.now }
    ensures within { result ≤ length row.new }
    ensures octets { IsBytes octets.now }
{
    let (digits, letter_at) = moment.spelled();
    let octets_at = letter_at + 3;
    let end = octets_at + 2 * octets.len();
    row[..digits.len()].copy_from_slice(&digits);
    row[letter_at..octets_at].copy_from_slice(&[b' ', letter, b' ']);
    spell(octets, &mut row[octets_at..end]);
    row[end] = b'\n';
    end + 1
}

/// Spells octets in hexadecimal, in upper case.
#[inline(always)]
fn spell(octets: &[u8], out: &mut [u8])
    requires { length out.old ≡ 2 * length octets.now }
    ensures { out.new ≡ encode_upper octets.now }
{
    let done = spell_blocks(octets, out);
    'octets: for i in done..octets.len() {
        let (high, low) = pair_of(octets[i]);
        out[2 * i] = high;
        out[2 * i + 1] = low;
    }
}

/// So many octets are spelled by arithmetic at a time, if there are so many.
const BLOCK: usize = 16;

/// Spells whole blocks of octets, and says how many octets these are.
#[inline(always)]
fn spell_blocks(octets: &[u8], out: &mut [u8]) -> usize
    requires { length out.old ≡ 2 * length octets.now }
    ensures spelled { IsSpelledTo octets.now out.new result }
    ensures within { result ≤ length octets.now }
    ensures same { length out.new ≡ length out.old }
{
    let mut done = 0;
    'blocks: while BLOCK <= octets.len() - done {
        spell_block(octets, out, done);
        done += BLOCK;
    }
    done
}

/// Spells one block of octets more. The compiler takes the octets all at once.
#[inline(always)]
fn spell_block(octets: &[u8], out: &mut [u8], from: usize)
    requires so_far { IsSpelledTo octets.now out.old from }
    requires within { from + 16 ≤ length octets.now }
    requires room { length out.old ≡ 2 * length octets.now }
    ensures spelled { IsSpelledTo octets.now out.new (from + 16) }
    ensures same { length out.new ≡ length out.old }
{
    let mut pairs = [0; BLOCK];
    'octets: for i in 0..BLOCK {
        pairs[i] = both_digits(octets[from + i]);
    }
    'pairs: for i in 0..BLOCK {
        out[2 * (from + i)] = (pairs[i] % 256) as u8;
        out[2 * (from + i) + 1] = (pairs[i] / 256) as u8;
    }
}

/// The two digits of an octet, of which the first is the low octet. No look at the table, so that
/// many octets are spelled at a time.
#[inline(always)]
fn both_digits(octet: u8) -> u16
    ensures high { result % 256 ≡ slice_index upper_digits (octet / 16) }
    ensures low { result / 256 ≡ slice_index upper_digits (octet % 16) }
{
    let values = u16::from(octet / 16) + 256 * u16::from(octet % 16);
    // With 6 more a value from 10 on reaches the next digit, and letters stand 7 behind `9`.
    let letters = (values + 0x0606) / 16 & 0x0101;
    values + 0x3030 + 7 * letters
}

/// The two digits of an octet.
fn pair_of(octet: u8) -> (u8, u8)
    ensures high { result.0 ≡ slice_index upper_digits (octet / 16) }
    ensures low { result.1 ≡ slice_index upper_digits (octet % 16) }
{
    let place = 2 * octet as usize;
    (PAIRS[place], PAIRS[place + 1])
}
