//! Lines and their fields.
ghost use Rattle.std.specs.List.{slice_split};
ghost use Rattle.std.specs.Option.{option_copied};
ghost use Rattle.std.specs.Prelude.{◌≡◌, ◌==◌, ◌∷◌, ◌<◌, length, position, map, IfOk, IfSome};
ghost use Rattle.traces.specs.Fields.{parts_after};
ghost use Rattle.traces.specs.Trace.{is_skipped};

use memchr::memchr;
use std::alloc::{AllocError, Global};

/// The parts of a text between its separators.
pub fn parts<'a>(alloc: Global, text: &'a [u8], separator: u8) -> Result<Vec<&'a [u8]>, AllocError>
    ensures { IfOk result (λ v. map (λ part. part.now) v.items
        ≡ slice_split (λ b. b == separator) text.entry.now) }
{
    text.split(|b| *b == separator).collect(alloc)
}

/// How many octets are looked at one by one: a value of one octet ends here, as most are in pieces.
const NEAR: usize = 4;

/// The place of the first separator. The call of the search behind the first octets takes longer
/// than a look at each of these.
fn place(text: &[u8], separator: u8) -> Option<usize>
    ensures first { result ≡ position (λ b. b == separator) text.now }
    ensures within { IfSome result (λ i. i < length text.now) }
{
    let near = text.len().min(NEAR);
    match near_place(&text[..near], separator) {
        Some(i) => Some(i),
        None => match far_place(&text[near..], separator) {
            Some(i) => Some(near + i),
            None => None,
        },
    }
}

/// The place of the first separator, octet by octet.
fn near_place(text: &[u8], separator: u8) -> Option<usize>
    ensures first { result ≡ position (λ b. b == separator) text.now }
    ensures within { IfSome result (λ i. i < length text.now) }
{
    text.iter().position(|b| *b == separator)
}

/// The same, many octets at a time.
fn far_place(text: &[u8], separator: u8) -> Option<usize>
    ensures first { result ≡ position (λ b. b == separator) text.now }
    ensures within { IfSome result (λ i. i < length text.now) }
{
    memchr(separator, text)
}

/// The part of a text before its first separator, and what follows that, if there is one.
#[tactic(auto, using(crate::proofs::LineLemmas::cut_here, crate::proofs::LineLemmas::cut_nowhere))]
#[inline(always)]
pub fn cut(text: &[u8], separator: u8) -> (&[u8], Option<&[u8]>)
    ensures { slice_split (λ b. b == separator) text.entry.now
        ≡ result.0.now ∷ parts_after separator (option_copied result.1) }
{
    match place(text, separator) {
        Some(i) => (&text[..i], Some(&text[i + 1..])),
        None => (text, None),
    }
}

/// Whether a line is empty or a comment.
pub fn is_skipped(line: &[u8]) -> bool
    ensures { result ≡ is_skipped line.now }
{
    match line {
        [] => true,
        [first, ..] => *first == b'#',
    }
}
