//! Information elements, types of ASDU and time tags of IEC 60870-5-101, 7.2.6 and 7.3 (also those
//! of IEC 60870-5-104).
//!
//! `Element` is an information element and its octets, `TypeId` a type of ASDU: which element it
//! has, whether a time tag follows each, whether it goes in monitor direction, and the value that
//! an element shows. `judge` says what a time tag `Cp56` is worth. `type_name` and `cause_name` are
//! the one table of the standard's names of types and causes, also of those that aren't carried.
//! Nothing here takes memory. The crate knows no addresses or ASDUs, and changes no bit: what is
//! reserved or marked invalid is carried as it came.
//!
//! What its public calls carry: each element keeps two laws, that reading what was written gives
//! the value and that writing what was read gives the octets; `kind`, `size`, `tagged`, `monitor`
//! and `value` answer one table of types (`specs/Types.antt`); and `judge` answers the first
//! verdict that applies, by the count of days since 1970-01-01 (`faults_are_told_apart`).
#![tactic(auto)]

mod commands;
mod element;
mod laws;
mod layout;
mod monitored;
mod names;
mod tag;
mod types;

pub use commands::{Dco, Qoi, Rco, Sco, SeNva, SeSva};
pub use element::Element;
pub use laws::{faults_are_told_apart, tags_of_moments_are_good, worked_examples_hold};
pub use monitored::{Bcr, Bsi, Coi, Diq, Nva, Siq, Sva, Vti};
pub use names::{cause_name, type_name};
pub use tag::{Cp56, Verdict, judge};
pub use types::{TypeId, kind};
