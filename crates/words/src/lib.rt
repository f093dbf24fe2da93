//! Frames in words: one line for a frame in the field's words, as a protocol analyser has them, or
//! a fact a line (`facts`); and a run in these words, line by line (`ladder`).
//!
//! `words_of_line` and `words_of_connection` answer a `Shown` for what stands at the front of
//! octets: the frame and its ASDU with the standard's names, values with their units, quality and
//! time tags in words; or why the octets are no such frame, and the first wrong place. The
//! condition is that of `show_line` and `show_tcp`. `push_line_frame` and `push_apdu` append a
//! frame that was read. The standard's names are those of `elements`. `read_line_of_octets` reads
//! octets in hexadecimal with blanks, of which `line_end` and `apdu_end` give the first frame's
//! end.
//!
//! Proved: each text is an exact function of the frame (`AreLineWords`, `AreConnectionWords`), for
//! every type, value, quality and tag; an `Err` is want of memory alone. Laws say it bit by bit and
//! field by field, whatever the octets are ([`commands_are_told_bit_by_bit`] and its neighbours).
#![tactic(auto)]

mod commands;
mod connections;
mod described;
mod facts;
mod faults;
mod floats;
mod forms;
mod ladder;
mod laws;
mod lines;
mod monitored;
mod numbers;
mod objects;
mod pipes;
mod quality;
mod tags;
mod units;

pub use connections::{push_apdu, push_apdu_refusal, words_of_connection};
pub use described::{both, describe_apdu, describe_apdus, describe_line, describe_line_frames};
pub use facts::{
    Condition, LineSizes, Shown, asdus_are_shown, octets_that_are_no_frame_are_a_fault, read_sizes,
    show_line, show_tcp,
};
pub use faults::push_cut_off;
pub use ladder::{Ladder, Scribe, Style, drive_in_words};
pub use laws::{
    asdus_are_told_field_by_field, commands_are_told_bit_by_bit, frames_are_told_field_by_field,
};
pub use lines::{push_line_frame, push_line_refusal, words_of_line};
pub use pipes::{apdu_end, line_end, read_line_of_octets};
pub use units::push_data;
