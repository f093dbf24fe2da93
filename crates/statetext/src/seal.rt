//! Writes that bear their seals, so that a text shows where it has rotted or was cut.
ghost use Rattle.std.specs.Prelude.{◌≡◌, ◌==◌, ◌+◌, ◌*◌, ◌≤◌, ℕ, List, length, take, drop, position, IfOk};
ghost use Rattle.std.specs.List.{concat, list_any, starts_with};
ghost use Rattle.hex.specs.Hex.{encode_lower};
ghost use Rattle.statetext.specs.Sealed.{end_in, front_in, is_damaged, is_damaged_in, is_left};
ghost use Rattle.statetext.specs.Sealed.{mark_of, may_be, seal_of, torn_if, writes_in};
ghost use Rattle.statetext.specs.Sum.{remainder_after};

use crate::Sum;
use hex::encode_to_slice;
use std::alloc::{AllocError, Global};

/// How many octets a seal has.
pub const SEAL: usize = 27;

/// How many of them come before the sum.
const MARK: usize = 18;

/// How a text begins at a place where a write may begin.
#[derive(Clone, Copy)]
pub enum Front {
    /// With a whole write, whose lines have so many octets.
    Whole(usize),
    /// With what a crash leaves of one, or with none.
    Torn,
    /// With something else.
    Damaged,
}

/// What is read of a text of writes.
#[derive(Drop)]
pub struct SealedLines {
    /// The lines of its whole beginning, without the seals.
    pub lines: Vec<u8>,
    /// Where that ends.
    pub end: usize,
    /// What follows isn't what a crash leaves of a write.
    pub is_damaged: bool,
}

/// Puts octets in hexadecimal in place of a row.
fn put_digits(octets: &[u8], row: &mut [u8])
    requires { length row.old ≡ 2 * length octets.now }
    ensures { row.new ≡ encode_lower octets.now }
{
    let _ = encode_to_slice(octets, row);
}

/// How the seal of a write begins that begins at this place.
fn mark_of(place: u64) -> [u8; MARK]
    ensures { result ≡ mark_of place }
{
    let mut mark = *b"!0000000000000000 ";
    put_digits(&place.to_be_bytes(), &mut mark[1..17]);
    mark
}

/// The seal of a write that begins at this place of the text behind a first line. The sum is that
/// of the first line and the write's lines.
pub fn seal_of(sum: Sum, place: u64) -> [u8; SEAL]
    ensures { (head lines : List ℕ) →
        sum.remainder ≡ remainder_after (remainder_after 0xffffffff head) lines →
        result ≡ seal_of head place lines }
{
    let mut seal = *b"!0000000000000000 00000000\n";
    seal[..MARK].copy_from_slice(&mark_of(place));
    let mut sum = sum;
    sum.add(&seal[..MARK]);
    put_digits(&sum.value().to_be_bytes(), &mut seal[MARK..26]);
    seal
}

/// Whether each octet of a text is 0, or that of the other text at its place.
fn is_left(of: &[u8], text: &[u8]) -> bool
    ensures { result ≡ is_left of.now text.now }
{
    let (mut of, mut text) = (of, text);
    while let [octet, others @ ..] = of {
        let [left, rest @ ..] = text else {
            return true;
        };
        if *left != 0 && left != octet {
            return false;
        }
        (of, text) = (others, rest);
    }
    true
}

/// Whether this may be a seal, of which a part may be lost.
fn may_be(seal: &[u8], text: &[u8]) -> bool
    ensures { result ≡ may_be seal.now text.now }
{
    is_left(seal, text) && !(text.len() > 1 && text[1..].contains(&b'!'))
}

fn torn_if(is_torn: bool) -> Front
    ensures { result ≡ torn_if is_torn }
{
    if is_torn { Front::Torn } else { Front::Damaged }
}

/// The place of the first `!`.
fn place_of_mark(text: &[u8]) -> Option<usize>
    ensures first { result ≡ position (λ c. c == 33) text.now }
{
    text.iter().position(|octet| *octet == b'!')
}

/// How a text begins. The sum is that of the first line before it.
fn front_in(sum: Sum, place: u64, text: &[u8]) -> Front
    ensures front { (head : List ℕ) → sum.remainder ≡ remainder_after 0xffffffff head →
        result ≡ front_in head place text.now }
    ensures fits { (n : ℕ) → result ≡ Front.Whole n → n + 27 ≤ length text.now }
{
    let Some(n) = place_of_mark(text) else {
        return Front::Torn;
    };
    let (lines, behind) = (&text[..n], &text[n..]);
    if lines.contains(&0) {
        return torn_if(may_be(&mark_of(place), behind));
    }
    let mut sum = sum;
    sum.add(lines);
    let seal = seal_of(sum, place);
    if behind.starts_with(&seal) {
        return Front::Whole(n);
    }
    torn_if(may_be(&seal, behind))
}

/// Reads a text of writes. The sum is that of the first line before it.
pub fn read_sealed(alloc: Global, sum: Sum, text: &[u8]) -> Result<SealedLines, AllocError>
    ensures lines { (head : List ℕ) → sum.remainder ≡ remainder_after 0xffffffff head →
        IfOk result (λ r. r.lines.items ≡ concat (writes_in head text.now)) }
    ensures end { (head : List ℕ) → sum.remainder ≡ remainder_after 0xffffffff head →
        IfOk result (λ r. r.end ≡ end_in head text.now) }
    ensures within { IfOk result (λ r. r.end ≤ length text.now) }
    ensures damaged { (head : List ℕ) → sum.remainder ≡ remainder_after 0xffffffff head →
        IfOk result (λ r. r.is_damaged ≡ is_damaged_in head text.now) }
{
    let mut lines = Vec::new(alloc);
    let mut end = 0;
    loop {
        let rest = &text[end..];
        let is_damaged = match front_in(sum, end as u64, rest) {
            Front::Whole(n) => {
                lines.extend_from_slice(&rest[..n])?;
                end += n + SEAL;
                continue;
            }
            Front::Torn => false,
            Front::Damaged => true,
        };
        return Ok(SealedLines {
            lines,
            end,
            is_damaged,
        });
    }
}
