//! Octets to frames.

ghost use Rattle.std.specs.Prelude.{◌≡◌, ◌+◌, ◌^◌, ◌<◌, ◌≤◌, [], ◌∷◌, ◌++◌, List, length};
ghost use Rattle.ft12.specs.declared.frame.Front.{Front};
ghost use Rattle.ft12.specs.Spelling.{address_len, user, header};
ghost use Rattle.ft12.specs.Borrowed.{owned_front};
ghost use Rattle.ft12.specs.Reading.{IsFront};
ghost use Rattle.ft12.specs.Tail.{IsTail};

use crate::frame::{FrameRef, Front, FrontRef, LinkSize, Why};
use crate::writing::{END, SINGLE, START_DATA, START_FIXED, sum_of};
use byteorder::{ByteOrder, LittleEndian};

/// What stands where some octets, their sum and the end octet are due.
enum Tail {
    Complete,
    Incomplete,
    WrongSum,
    WrongEnd,
}

#[inline(always)]
fn tail_of(len: usize, octets: &[u8]) -> Tail
    ensures { IsTail len octets.now result }
{
    let Some(sum) = octets.get(len) else {
        return Tail::Incomplete;
    };
    // The sum before the end octet: the lowest wrong place counts (docs/DECISIONS.md, "The place
    // of a refusal").
    if *sum != sum_of(&octets[..len]) {
        return Tail::WrongSum;
    }
    match octets.get(len + 1) {
        None => Tail::Incomplete,
        Some(end) if *end == END => Tail::Complete,
        Some(_) => Tail::WrongEnd,
    }
}

/// Control octet, address and data.
fn parts(size: LinkSize, octets: &[u8]) -> (u8, u16, &[u8])
    requires { 1 + address_len size ≤ length octets.now }
    ensures parts { octets.now ≡ user size result.0 result.1 result.2.now }
    ensures address { result.1 < 256 ^ address_len size }
{
    match size {
        LinkSize::One => (octets[0], u16::from(octets[1]), &octets[2..]),
        LinkSize::Two => (
            octets[0],
            LittleEndian::read_u16(&[octets[1], octets[2]]),
            &octets[3..],
        ),
    }
}

/// The front of octets that begin with the start octet of a fixed frame.
fn fixed(size: LinkSize, rest: &[u8]) -> FrontRef<'_>
    ensures { IsFront size (0x10 ∷ rest.now) (owned_front result) }
{
    let len = 1 + size.octets();
    match tail_of(len, rest) {
        Tail::Incomplete => FrontRef::More,
        Tail::WrongSum => FrontRef::Never(1 + len, Why::Sum),
        Tail::WrongEnd => FrontRef::Never(2 + len, Why::End),
        Tail::Complete => {
            let (c, a, _) = parts(size, &rest[..len]);
            FrontRef::Whole(FrameRef::Fixed { c, a }, 3 + len)
        }
    }
}

/// The front of octets that begin with the header of a variable frame.
#[inline(always)]
fn after_header(size: LinkSize, len: u8, rest: &[u8]) -> FrontRef<'_>
    requires { 1 + address_len size ≤ len }
    ensures { IsFront size (header len ++ rest.now) (owned_front result) }
{
    let len = usize::from(len);
    match tail_of(len, rest) {
        Tail::Incomplete => FrontRef::More,
        Tail::WrongSum => FrontRef::Never(4 + len, Why::Sum),
        Tail::WrongEnd => FrontRef::Never(5 + len, Why::End),
        Tail::Complete => {
            let (c, a, body) = parts(size, &rest[..len]);
            FrontRef::Whole(FrameRef::Data { c, a, body }, 6 + len)
        }
    }
}

/// The front of octets that begin with the start octet of a variable frame.
#[inline(always)]
fn variable(size: LinkSize, rest: &[u8]) -> FrontRef<'_>
    ensures { IsFront size (0x68 ∷ rest.now) (owned_front result) }
{
    let Some((len, rest)) = rest.split_first() else {
        return FrontRef::More;
    };
    // Before the second length has come: a refusal comes as soon as the octets decide it.
    if usize::from(*len) < 1 + size.octets() {
        return FrontRef::Never(1, Why::LengthSmall);
    }
    let Some((again, rest)) = rest.split_first() else {
        return FrontRef::More;
    };
    if again != len {
        return FrontRef::Never(2, Why::LengthsDiffer);
    }
    let Some((start, rest)) = rest.split_first() else {
        return FrontRef::More;
    };
    if *start != START_DATA {
        return FrontRef::Never(3, Why::SecondStart);
    }
    after_header(size, *len, rest)
}

/// What stands at the front of the octets, with the data where they stand. The answer of `front`,
/// with nothing copied.
#[inline(always)]
pub fn front_ref(size: LinkSize, octets: &[u8]) -> FrontRef<'_>
    ensures { IsFront size octets.now (owned_front result) }
{
    // No octets are a proper beginning (docs/DECISIONS.md, "No octets at all").
    let Some((start, rest)) = octets.split_first() else {
        return FrontRef::More;
    };
    match *start {
        SINGLE => FrontRef::Whole(FrameRef::Single, 1),
        START_FIXED => fixed(size, rest),
        START_DATA => variable(size, rest),
        _ => FrontRef::Never(0, Why::Start),
    }
}

/// What stands at the front of the octets: a whole frame, the beginning of one, or neither.
///
/// A refusal is given as soon as the octets decide it, and names the lowest place at which they
/// begin no frame. No octets are the beginning of a frame.
pub fn front(size: LinkSize, octets: &[u8]) -> Front
    ensures right { IsFront size octets.now result }
    // No other answer is right: so it is this one exactly if `IsFront` holds of it.
    ensures only { (other : Front) → IsFront size octets.now other → other ≡ result }
{
    match front_ref(size, octets) {
        FrontRef::Whole(frame, len) => Front::Whole(frame.to_frame(), len),
        FrontRef::More => Front::More,
        FrontRef::Never(place, why) => Front::Never(place, why),
    }
}
