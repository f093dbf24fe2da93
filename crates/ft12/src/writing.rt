//! Frames to octets.

ghost use Rattle.std.specs.Prelude.{◌≡◌, ◌+◌, ◌%◌, ◌^◌, ◌<◌, ◌≤◌, [], ◌∷◌, ◌++◌, List, length, sum};
ghost use Rattle.arrayvec.specs.ArrayVec.{array_vec_len};
ghost use Rattle.ft12.specs.Borrowed.{owned};
ghost use Rattle.ft12.specs.Spelling.{address_len, checked, user, spelling, spelling_len, Fits};

use crate::frame::{Frame, FrameRef, LinkSize};
use arrayvec::ArrayVec;
use byteorder::{ByteOrder, LittleEndian};

/// The single character: a short confirmation.
pub(crate) const SINGLE: u8 = 0xE5;

/// The start octet of a fixed frame.
pub(crate) const START_FIXED: u8 = 0x10;

/// The start octet of a variable frame, before and after its lengths.
pub(crate) const START_DATA: u8 = 0x68;

/// The end octet of fixed and variable frames.
pub(crate) const END: u8 = 0x16;

/// The most octets that a frame has.
const LONGEST: usize = 261;

/// The sum of octets, modulo 256.
pub(crate) fn sum_of(octets: &[u8]) -> u8
    ensures { result ≡ sum octets.now % 256 }
{
    let mut sum: u8 = 0;
    for octet in octets {
        sum = sum.wrapping_add(*octet);
    }
    sum
}

/// Appends control octet, address and data.
fn push_user<const CAP: usize>(
    out: &mut ArrayVec<u8, CAP>,
    size: LinkSize,
    c: u8,
    a: u16,
    body: &[u8],
)
    requires address { a < 256 ^ address_len size }
    requires room { array_vec_len out.old + length (user size c a body.now) ≤ CAP }
    ensures { out.new.items ≡ out.old.items ++ user size c a body.now }
{
    out.push(c);
    match size {
        LinkSize::One => out.push(a as u8),
        LinkSize::Two => {
            let mut low_first = [0; 2];
            LittleEndian::write_u16(&mut low_first, a);
            out.push(low_first[0]);
            out.push(low_first[1]);
        }
    }
    out.try_extend_from_slice(body).unwrap();
}

/// Appends control octet, address and data, their sum and the end octet.
fn push_checked<const CAP: usize>(
    out: &mut ArrayVec<u8, CAP>,
    size: LinkSize,
    c: u8,
    a: u16,
    body: &[u8],
)
    requires address { a < 256 ^ address_len size }
    requires room { array_vec_len out.old + length (user size c a body.now) + 2 ≤ CAP }
    ensures { out.new.items ≡ out.old.items ++ checked (user size c a body.now) }
{
    let start = out.len();
    push_user(out, size, c, a, body);
    let sum = sum_of(&out[start..]);
    out.push(sum);
    out.push(END);
}

/// The octets of a frame whose data stand elsewhere, in a vector that has room for them.
///
/// Asks that the address fits its size, and that the control octet, the address and the data are at
/// most 255 octets.
#[inline(always)]
pub fn encode_ref<const CAP: usize>(size: LinkSize, f: FrameRef<'_>) -> ArrayVec<u8, CAP>
    requires fits { Fits size (owned f) }
    requires room { spelling_len size (owned f) ≤ CAP }
    ensures { result.items ≡ spelling size (owned f.entry) }
{
    let mut out = ArrayVec::new();
    match f {
        FrameRef::Single => out.push(SINGLE),
        FrameRef::Fixed { c, a } => {
            out.push(START_FIXED);
            push_checked(&mut out, size, c, a, &[]);
        }
        FrameRef::Data { c, a, body } => {
            let len = (1 + size.octets() + body.len()) as u8;
            out.push(START_DATA);
            out.push(len);
            out.push(len);
            out.push(START_DATA);
            push_checked(&mut out, size, c, a, body);
        }
    }
    out
}

/// The octets of a frame, at most 261.
///
/// Asks that the address fits its size, and that the control octet, the address and the data are at
/// most 255 octets.
pub fn encode(size: LinkSize, f: &Frame) -> ArrayVec<u8, LONGEST>
    requires { Fits size f.now }
    ensures { result.items ≡ spelling size f.now }
{
    encode_ref(size, f.lent())
}
