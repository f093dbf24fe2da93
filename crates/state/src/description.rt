//! What is said of a state that is kept: the notes of a start, and lines for who looks at its
//! directory.
//!
//! [`describe_state`] puts into lines what [`crate::look`] has found: how a run would begin, in the
//! words that it would log then; the segment that counts; the date of its latest event; how the
//! links stand behind its events, with what a start would give up; what is queued; and the settings
//! that differ. Proved: the text is this function of what was found ([`describe_state`]'s
//! contract), and the link of a station is shown as a request without an answer so far leaves it.

mod changes;
mod dates;
mod laws;
mod notes;
mod reports;
mod stations;
mod text;

pub use laws::{each_station_has_its_line, the_first_lines_say_how_a_run_begins};
pub use notes::{note_of, note_of_damage, note_of_given_up, note_of_queue, note_of_settings};
pub use text::describe_state;
