//! The text of a trace: the events of a run and its actions, one a line (this gateway's own
//! profile).
//!
//! `read_trace` reads a whole trace into the gateway's `Entry`s, or names its first wrong line
//! (`TextFault`); `read_octets` reads octets in hexadecimal alone, and `hex_digits` writes them.
//! `Trace` is the gateway's port over entries: it gives a tick at moment 0 and then these, stores
//! the log of the run, and writes the line of each action (`append_line`) to a writer. `TextPort`
//! is the port over the text itself, or over one part of it after another (`Pause`): it stores no
//! log, and prints the actions (`Printout`), their `Moment` spelled once for all actions of a step
//! (`print_action_at`). `judge` gives the first wrong line of a part. What the gateway does with
//! the events, and with moments that go back, is its own matter. Proved: the entries are the events
//! that the lines log, in their order, and no line is wrong; a line that is refused is the first
//! that is neither empty, nor a comment, nor an event; an entry's octets fit what a port gives at
//! once; `read_octets` answers the octets that the digits spell, and nothing for any other text;
//! the events of `Trace`'s log and those still to come are always the tick and all entries; and
//! unless a write failed, its writer has got the lines of the log's actions in their order, and
//! nothing else; and each line that is printed, of an event or an action, reads back as that very
//! entry ([`printed_lines_read_back`]). Literal examples show what the lines of a trace log
//! ([`trace_lines_by_example`]).
//!
//! `Blocks` reads a text on, block by block, each of whole lines: the blocks are the text, and one
//! line feed parts two of them.
//!
//! A [`Paged`] port puts the lines of a run's actions on a page. [`drive_printed`] drives a gateway
//! over one, as `gateway::drive_on` does, and takes the lines off the page from time to time and
//! prints them, so that a run of any length takes the room of a part of its lines. If it is
//! watched, it shows how far it has come. [`print`] writes one text whole, and [`print_behind`] one
//! behind others. Proved: what `drive_on` promises of the run; that what was printed is the lines
//! of all actions of the log, in their order, and nothing else, or, if the output failed, a
//! beginning of them. That the percent are shown isn't proved, nor what a terminal makes of them.
#![tactic(auto)]

mod actions;
mod blocks;
mod decimal;
mod driving;
mod event;
mod flaws;
mod health;
mod judging;
mod laws;
mod lines;
mod moments;
mod octets;
mod page;
mod paged;
mod port;
mod printing;
mod printout;
mod progress;
mod reading;
mod readings;
mod recorded;
mod text_port;
mod writing;

pub use actions::{append_line, print_action, print_action_at};
pub use blocks::{BlockFault, Blocks};
pub use decimal::decimal as read_decimal;
pub use driving::drive_printed;
pub use flaws::{Flaw, ending_flaw, flaw_at, number_flaw, octets_flaw, record_flaw, trace_flaw};
pub use judging::judge;
pub use laws::{printed_lines_read_back, texts_are_read_line_by_line};
pub use lines::{cut, is_skipped, parts};
pub use moments::Moment;
pub use octets::{hex_digits, read_octets};
pub use page::Page;
pub use paged::Paged;
pub use port::{HeldBefore, Trace};
pub use printout::Printout;
pub use progress::{blank_if, show_percent};
pub use reading::{TextFault, read_trace};
pub use readings::trace_lines_by_example;
pub use recorded::{append_event, print_event};
pub use text_port::{Pause, TextPort, first_event};
pub use writing::{print, print_behind};
