//! A control centre to try a gateway with: the controlling station of one IEC 60870-5-104
//! connection, and what it is to do there.
//!
//! `read_wish` reads words, and `errand_of` makes their requests, which an [`Errand`] sends one
//! after another and waits for. A [`Centre`] is the machine: APDUs and moments in, APDUs out
//! (`next_of`). A [`Desk`] has it over a stream of octets, with a line for each APDU that passes,
//! and [`converse`] goes on with that until all is done.
//!
//! Proved: what goes out is `next_of`, and what comes leads to `took`; octets, lines, and the words
//! and status at the end are those of these functions, and what passes is printed. Numbers, windows
//! and timers are `session`'s. What words ask for is tested, and so is what sockets do.
#![tactic(auto)]

mod centre;
mod desk;
mod ending;
mod errand;
mod examples;
mod planning;
mod reading;
mod request;
mod serving;
mod tags;
mod telling;

pub use centre::Centre;
pub use desk::Desk;
pub use errand::{Errand, Loss, Outcome, Step, Until};
pub use examples::exchanges_by_example;
pub use planning::{Terms, errand_of};
pub use reading::{Manner, Order, Wish, is_wish_word, read_wish};
pub use request::{ACTIVATION, DEACTIVATION, GLOBAL, Request, Value};
pub use serving::{Untold, converse, pursue};
pub use tags::tag_of;
pub use telling::{Style, Way, end_line, push_line, silent_line};
