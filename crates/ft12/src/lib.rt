//! Frames of a telecontrol line: octets to frames and back.
//!
//! The frames are those of format class FT1.2 of IEC 60870-5-1 (6.2.4.2), with a link address of
//! one or two octets as IEC 60870-5-2 has it: the single character `E5`, frames of fixed and of
//! variable length. A `Frame` is a value; `encode` writes it, and `front` says what stands at the
//! front of octets. An `Assembler` makes frames out of the pieces of a stream.
//!
//! What a control octet says, who sends when, and what a frame answers is the link layer's part,
//! and so are line speed, parity and idle times. Nothing here takes memory or waits.
//!
//! What holds of every call: a frame and its octets are one relation. Each frame that fits has one
//! spelling, `encode` writes it, and no spelling begins another. `front` answers `Whole` exactly if
//! a frame's spelling stands at the front, `More` exactly if the octets properly begin a frame, and
//! else `Never` with the least place at which they begin none. `feed` receives, over pieces cut
//! anywhere, what `front` finds in the joined octets, takes exactly the frame's, and looks at each
//! octet at most once. A frame with one octet changed in all its bits is never taken for a frame.
#![tactic(auto)]

mod assembling;
mod frame;
mod laws;
mod reading;
mod stage;
mod writing;

pub use assembling::{Assembler, Received};
pub use frame::{Frame, FrameRef, Front, FrontRef, LinkSize, Why};
pub use laws::{
    frames_are_received_one_after_another, front_is_computed, no_spelling_begins_another,
    one_front, spellings_cancel, spoilt_lines_are_no_lines, worked_examples_hold,
};
pub use reading::{front, front_ref};
pub use writing::{encode, encode_ref};
