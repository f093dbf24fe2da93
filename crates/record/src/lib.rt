//! What a live run did, as text (this gateway's own profile).
//!
//! [`Recorder`] is a port around any port: it passes each event and each action on unchanged, so
//! what is proved of a run over a port holds of a run over it, and writes them down: an event as a
//! trace has it, an action as a run over a trace prints it. The line of an event goes to a
//! [`RecordSheet`] before the gateway receives the event, with the lines of the step before it.
//!
//! Proved, for any port and any sheet that says what it took: what was taken and what is held are
//! the lines of all that passed, in their order, until the record is over. It is over if the sheet
//! takes no more or memory ran out. The text stays as it is from then on, at the end of a line,
//! while events and actions pass as before. The recorder's log is what this text logs, line by
//! line, and behind it what the sheet learned that it missed. So what is proved of a run's log is
//! proved of its record. If the sheet doesn't say these, the log is that of the port inside.
//!
//! [`audit_text`] compares a recorded run with the run over its events. [`capture_text`] writes a
//! record as a capture.
#![tactic(auto)]

mod audit;
mod capture;
mod examples;
mod laws;
mod pen;
mod record_sheet;
mod recorder;

pub use audit::examples::record_lines_by_example;
pub use audit::passing::{event_line, is_action, part_of};
pub use audit::{Comparison, RecordFault, audit_text};
pub use capture::capturing::Capture;
pub use capture::examples::comments_by_example;
pub use capture::pcapng::put_file_header;
pub use capture::whole::{CaptureFault, capture_text};
pub use examples::texts_are_read_by_example;
pub use laws::a_record_is_the_text_of_what_passed;
pub use pen::Pen;
pub use record_sheet::{RecordSheet, StandardOutput};
pub use recorder::Recorder;
