//! Octets of the line to the data of a frame.
ghost use Rattle.std.specs.Prelude.{ℕ, List, IsSome, IfSome};
ghost use Rattle.library_example.specs.Receiving.{IsFrameOf};

use arrayvec::ArrayVec;
use ft12::{Frame, Front, LinkSize, front};

/// The data of a frame of variable length, if the octets are one and nothing more.
pub fn data_of(octets: &[u8]) -> Option<ArrayVec<u8, 253>>
    ensures found { IfSome result (λ body. IsFrameOf body.items octets.now) }
    // If they are such a frame, it is found.
    ensures only { (body : List ℕ) → IsFrameOf body octets.now → IsSome result }
{
    match front(LinkSize::One, octets) {
        Front::Whole(Frame::Data { body, .. }, len) if len == octets.len() => Some(body),
        _ => None,
    }
}
