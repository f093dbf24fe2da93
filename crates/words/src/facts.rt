//! Octets with a fact a line: what stands at the front of octets of the line (IEC 60870-5-1,
//! 6.2.4.2) or of the connection (IEC 60870-5-104, 5.1), and the ASDU in it (IEC 60870-5-101, 7).
//!
//! `show_line` and `show_tcp` answer a `Shown`: the lines, and whether the octets are one whole
//! frame as it should be. Frames are read where they stand, and no data of them is copied.
//! `read_sizes` reads the sizes of a line's addresses. Nothing is printed here, and octets in
//! hexadecimal are read elsewhere.
//!
//! Proved: the lines and the condition are those of the frame that stands at the front
//! (`IsLineShown`, `IsTcpShown`), every field, object, value and time tag with its verdict; an
//! `Err` is want of memory alone. Octets that are an ASDU are shown as that, object by object
//! (`asdus_are_shown`), and each field is shown by its name, whatever it is.
//! What is no frame is a fault (`octets_that_are_no_frame_are_a_fault`).
mod bits;
mod condition;
mod control;
mod laws;
mod line;
mod objects;
mod sizes;
mod tcp;
mod units;

pub use condition::{Condition, Shown};
pub use laws::{asdus_are_shown, octets_that_are_no_frame_are_a_fault};
pub use line::show_line;
pub use sizes::{LineSizes, read_sizes};
pub use tcp::show_tcp;
