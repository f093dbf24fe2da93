//! The first line of a segment.
ghost use Rattle.std.specs.Prelude.{◌≡◌, ℕ, ◌<◌, ◌^◌, true, false, Some, length, slice_index, IfOk};
ghost use Rattle.std.specs.Prelude.{IfSome};
ghost use Rattle.hex.specs.Hex.{encode_lower};
ghost use Rattle.std.specs.Int.{w32, w64, to_be_bytes};
ghost use Rattle.segments.specs.Head.{Fits, head_of, rules_of};
ghost use Rattle.segments.specs.declared.head.SegmentHead.{SegmentHead};

use crate::gate::HEAD;
use hex::decode_to_slice;
use statetext::put_hexadecimal;
use std::alloc::{AllocError, Global};

/// What the first line of a segment says.
#[derive(Clone, Copy, PartialEq, Eq)]
pub struct SegmentHead {
    /// Which segment it is: they count up.
    pub number: u64,
    /// How many octets the checkpoint behind the line has.
    pub octets: u64,
    /// The sum CRC-32 of these.
    pub sum: u32,
    /// Each write behind the checkpoint has its seal. Those of older versions have none.
    pub is_sealed: bool,
}

/// The text of the line, and how long it is.
pub(crate) fn print(alloc: Global, head: &SegmentHead) -> Result<Vec<u8>, AllocError>
    ensures text { IfOk result (λ row. row.items ≡ head_of head.now) }
    ensures octets { IfOk result (λ row. length row.items ≡ 87) }
    ensures first { IfOk result (λ row. slice_index row.items 0 ≡ 116) }
{
    let row = spell(alloc, head)?;
    Ok(row)
}

/// By which rules a segment was written.
fn rules_of(is_sealed: bool) -> u8
    ensures { result ≡ rules_of is_sealed }
{
    if is_sealed { b'2' } else { b'1' }
}

/// The text of the line.
fn spell(alloc: Global, head: &SegmentHead) -> Result<Vec<u8>, AllocError>
    ensures { IfOk result (λ row. row.items ≡ head_of head.now) }
{
    let mut row = Vec::from_slice(alloc, b"telegate state 1 rules ")?;
    row.push(rules_of(head.is_sealed))?;
    row.extend_from_slice(b" segment ")?;
    put_hexadecimal(&mut row, &head.number.to_be_bytes())?;
    row.extend_from_slice(b" octets ")?;
    put_hexadecimal(&mut row, &head.octets.to_be_bytes())?;
    row.extend_from_slice(b" sum ")?;
    put_hexadecimal(&mut row, &head.sum.to_be_bytes())?;
    row.push(b'\n')?;
    Ok(row)
}

/// Eight octets as a number, which is spelled in 16 digits in hexadecimal.
fn number_of(digits: &[u8]) -> Option<u64>
    ensures { (number : ℕ) → number < 2 ^ 64 →
        digits.now ≡ encode_lower (to_be_bytes w64 number) → result ≡ Some number }
{
    let mut octets = [0; 8];
    match decode_to_slice(digits, &mut octets) {
        Ok(()) => Some(u64::from_be_bytes(octets)),
        Err(_) => None,
    }
}

/// Four octets as a number, which is spelled in 8 digits in hexadecimal.
fn sum_of(digits: &[u8]) -> Option<u32>
    ensures { (sum : ℕ) → sum < 2 ^ 32 →
        digits.now ≡ encode_lower (to_be_bytes w32 sum) → result ≡ Some sum }
{
    let mut octets = [0; 4];
    match decode_to_slice(digits, &mut octets) {
        Ok(()) => Some(u32::from_be_bytes(octets)),
        Err(_) => None,
    }
}

/// Whether both are the same octets.
fn are_same(first: &[u8], second: &[u8]) -> bool
    ensures same { result ≡ true → first.now ≡ second.now }
    ensures others { result ≡ false → first.now ≡ second.now → ⊥ }
{
    first == second
}

/// What a line says, if it is the first one of a segment: then it is printed anew as it was.
pub(crate) fn parse(alloc: Global, text: &[u8]) -> Result<Option<SegmentHead>, AllocError>
    ensures is { IfOk result (λ found. IfSome found (λ head. text.now ≡ head_of head)) }
    ensures all { (head : SegmentHead) → Fits head → text.now ≡ head_of head →
        IfOk result (λ found. found ≡ Some head) }
    ensures fits { IfOk result (λ found. IfSome found Fits) }
{
    if text.len() != HEAD {
        return Ok(None);
    }
    let (Some(number), Some(octets), Some(sum)) = (
        number_of(&text[33..49]),
        number_of(&text[57..73]),
        sum_of(&text[78..86]),
    ) else {
        return Ok(None);
    };
    let head = SegmentHead {
        number,
        octets,
        sum,
        is_sealed: text[23] == b'2',
    };
    // Printed anew, since the digits are read in either case and a head has one text.
    let row = print(alloc, &head)?;
    if are_same(row.as_slice(), text) {
        Ok(Some(head))
    } else {
        Ok(None)
    }
}
