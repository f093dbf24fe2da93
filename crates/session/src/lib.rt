//! One IEC 60870-5-104 connection at a time, as the controlled station keeps it (clause 5):
//! counters, windows, timers, and start and stop of data transfer.
//!
//! A [`Session`] takes each [`Apdu`](apci::Apdu) that came, or a lent one where it stands, and says
//! what it leads to ([`Taken`]); it says which frames are due, and gives sent I frames their
//! numbers. Time is handed in, in ms. Octets, ASDUs and sockets are no matter of this crate, and it
//! closes nothing: it says why ([`Close`]).
//!
//! Proved: each call is one small function on a record of plain fields. Above it, for every list of
//! calls, what a session answers is what the standard makes of the frames that came and went out.
//! N(S) and N(R) are the counts of I frames sent and received, modulo 32768. At most k are
//! unacknowledged. An N(R) is valid if the least number that isn't below the acknowledged count and
//! equals it modulo 32768 is at most the sent count. S frames, TESTFR act and the close by t1 come
//! exactly when due. Data transfer runs if the latest of STARTDT act and STOPDT act is a STARTDT
//! act. Each entry of a history keeps these rules with what came before it, and calls that are made
//! until they answer nothing come to an end. `put_state` puts a session as lines of numbers, and
//! `read_state` makes the same session of them, and none of any others. Only `new` and `read_state`
//! take memory for the session, and `put_state` and `read_state` for a line.
#![tactic(auto)]

mod connection;
mod kinds;
mod laws;
mod saving;

pub use connection::{NoMemory, Session};
pub use kinds::{Close, FrameOrigin, Taken, Transfer, Unacknowledged};
pub use laws::{
    calls_come_to_an_end, frames_are_judged, frames_are_numbered, histories_keep_the_rules,
    session_keeps_the_standard, timers_are_kept, transfer_is_controlled, window_is_kept,
    worked_examples_hold,
};
