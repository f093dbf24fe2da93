//! Ends in memory that note what passes at them, so that what is asked of such ends can be met.
//!
//! The contracts on ends speak of what passed at them, if an end notes it. The system's own note
//! nothing. Here one of each kind does: where visitors come from, a visitor's stream (`status`), a
//! sink of the log (`runlog`), and a sheet of a record (`record`). Those of `live` stand in that
//! crate. No program uses them, and tests do.
#![tactic(auto)]

mod lines;
mod sheets;
mod visitors;

pub use lines::{NotedLines, note_line};
pub use sheets::{NotedSheet, Ticks, noted_in_memory};
pub use visitors::{NotedStream, OneVisitor};
