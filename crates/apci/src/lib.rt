//! Application protocol data units (APDUs) of IEC 60870-5-104, clause 5: values to octets and back.
//!
//! An [`Apdu`] is an I, S or U format, a [`Short`] one is an S or U format. [`encode`],
//! [`write_information`] and [`Short::to_octets`] write octets, [`front`] and [`front_ref`] say
//! what stands at the front of octets, and an [`Assembler`] makes APDUs out of pieces of a stream,
//! however it is cut. Counters, windows and timers are no matter of this crate, nor what an ASDU
//! says.
//!
//! Proved: an APDU and its octets are one relation, `IsApdu`. What is written is the one spelling.
//! `front` answers the whole APDU exactly if one stands there, and that more is due exactly if the
//! octets begin one. Else it answers the refusal of the least place that decides. `feed` receives
//! what `front` finds in the joined octets, takes exactly the APDU's, and looks at no octet twice.
//! What an assembler has so far can be put as numbers, and an assembler that is fed them goes on
//! alike. No call but `put_so_far` takes memory.
#![tactic(auto)]

mod apdu;
mod assembling;
mod control;
mod laws;
mod reading;
mod writing;

pub use apdu::{Apdu, ApduRef, Front, FrontRef, Short, Uf, Why};
pub use assembling::{Assembler, Received};
pub use laws::{
    apdus_are_received_one_after_another, no_spelling_begins_another, one_front, spellings_cancel,
    worked_examples_hold,
};
pub use reading::{front, front_ref};
pub use writing::{encode, write_information};
