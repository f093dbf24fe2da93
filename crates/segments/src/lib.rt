//! A log of lines on disk in two files, which are written in turn.
//!
//! A segment is a first line ([`SegmentHead`]: its number, how many octets its checkpoint has, and
//! their sum), the checkpoint, lines that are appended, and zeros to the file's end. What is
//! appended between two syncs is a write, and has a seal behind its lines: where it begins, and a
//! sum.
//!
//! - A start looks at both files ([`Start`]): the segment of the higher number counts, if it is
//!   whole. It isn't appended to: behind a torn line older ones may stand.
//! - The next segment goes into the other file ([`Writer`]). That file is shut first: its first
//!   octet is `-`, and that is synced. Then come the checkpoint, the zeros and the first line
//!   without its first octet; that is synced; then the first octet, and a sync again. So a crash
//!   leaves no segment there, or the whole one, and the segment of the other file as it is.
//! - Lines are appended, sealed and synced ([`Segment`]). Whatever a crash leaves begins with what
//!   was synced ([`Segment::survives`]).
//! - A start reads the writes that are whole ([`Start::log`]), and tells what a crash left of the
//!   last one ([`a_torn_write_is_no_damage`]) from damage
//!   ([`what_is_read_of_a_log_bears_its_seals`]).
//! - So over any crash a start finds the segment that took lines, and all that was synced
//!   ([`a_start_finds_what_was_synced`]), while the next segment is begun in the other file too
//!   ([`the_other_file_has_older_segments`]).
//!
//! A file whose sync failed is used no more: each later call fails. It must be opened anew.
#![tactic(auto)]

mod fault;
mod gate;
mod head;
mod laws;
mod room;
mod segment;
mod start;
mod writer;
mod written;

pub use fault::SegmentFault;
pub use gate::shut;
pub use head::SegmentHead;
pub use laws::{
    a_start_finds_what_was_synced, a_torn_write_is_no_damage, first_lines_by_example,
    no_crash_takes_both_files, no_file_is_written_over_but_beside_one_as_new,
    only_a_newer_segment_is_in_the_way, the_next_number_is_new, the_other_file_has_older_segments,
    what_is_read_of_a_log_bears_its_seals,
};
pub use room::row_with_room;
pub use segment::Segment;
pub use start::{FoundHead, FoundLog, Side, Start, is_below, is_sound, newest_side, shut_blank};
pub use writer::{Failed, Writer};
