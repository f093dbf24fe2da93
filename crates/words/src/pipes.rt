//! Octets that come as lines of text.
ghost use Rattle.std.specs.Prelude.{◌≡◌, ◌<◌, ◌≤◌, IfOk, filter, length, option_map};
ghost use Rattle.words.specs.Pipes.{is_mark, octets_in, IsApduEnd, IsLineEnd};

use ft12::LinkSize;
use hex::FromHexError;
use std::alloc::{AllocError, Global};

/// The octets that a line of text spells, two hexadecimal digits of either case each. Blanks (what
/// is at most 32, as spaces) stand anywhere, and count for nothing. `None` if anything else stands
/// there, or half an octet.
pub fn read_line_of_octets(alloc: Global, text: &[u8]) -> Result<Option<Vec<u8>>, AllocError>
    ensures { IfOk result (λ found. option_map (λ v. v.items) found ≡ octets_in text.now) }
{
    let digits = without_blanks(alloc, text)?;
    match hex::decode(alloc, digits.as_slice()) {
        Ok(octets) => Ok(Some(octets)),
        Err(FromHexError::OutOfMemory) => Err(AllocError),
        Err(_) => Ok(None),
    }
}

/// A text without its blanks.
fn without_blanks(alloc: Global, text: &[u8]) -> Result<Vec<u8>, AllocError>
    ensures { IfOk result (λ marks. marks.items ≡ filter is_mark text.now) }
{
    let mut marks = Vec::new(alloc);
    for mark in text {
        if *mark > 32 {
            marks.push(*mark)?;
        }
    }
    Ok(marks)
}

/// Where the frame at the front of octets of the line ends. They all go together if no frame is
/// whole there: `words_of_line` says why.
#[tactic(auto, using(crate::proofs::Ends::line_moves))]
pub fn line_end(size: LinkSize, octets: &[u8]) -> usize
    requires { 0 < length octets.now }
    ensures end { IsLineEnd size octets.now result }
    ensures some { 0 < result }
    ensures within { result ≤ length octets.now }
{
    match ft12::front_ref(size, octets) {
        ft12::FrontRef::Whole(_, len) => len,
        _ => octets.len(),
    }
}

/// Where the APDU at the front of octets of the connection ends. They all go together if no APDU is
/// whole there: `words_of_connection` says why.
#[tactic(auto, using(crate::proofs::Ends::apdu_moves))]
pub fn apdu_end(octets: &[u8]) -> usize
    requires { 0 < length octets.now }
    ensures end { IsApduEnd octets.now result }
    ensures some { 0 < result }
    ensures within { result ≤ length octets.now }
{
    match apci::front_ref(octets) {
        apci::FrontRef::Whole(_, len) => len,
        _ => octets.len(),
    }
}
