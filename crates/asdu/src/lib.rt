//! Application service data units (ASDUs) of IEC 60870-5-101, 7.1 and 7.2, and IEC 60870-5-104, 7:
//! reading them in given sizes, going over their information objects, and writing them in other
//! sizes.
//!
//! `read` answers an `Asdu`, borrowed from its octets; `Asdu::objects` goes over its objects,
//! borrowed too; `Translation` writes a report of a serial line as ASDUs of a connection, one after
//! another, and `translate` answers them all; `write` spells an ASDU in other sizes. Nothing here
//! takes memory. The crate knows no frames and no links, and judges neither causes, values nor time
//! tags.
//!
//! What its public calls carry: `read` accepts exactly the octets that are an ASDU (`IsAsdu`), and
//! else names the first fault. The pieces of a report are `report_pieces`: their objects, joined,
//! are the objects of the source, in all their parts, and so are those that are passed on; there
//! are at most three pieces, as many as `parts` says (`pieces_carry_the_report`). What `write`
//! makes is the same ASDU in the other sizes.
#![tactic(auto)]

mod examples;
mod header;
mod laws;
mod layout;
mod objects;
mod reading;
mod sizes;
mod tagging;
mod translation;
mod unit;
mod writing;

pub use examples::resized_asdus_by_example;
pub use header::Head;
pub use laws::{
    monitor_reports_are_passed_on, objects_are_those_of_the_asdu, one_asdu_one_spelling,
    pieces_carry_the_report, tagged_types_are_thirteen_above, worked_examples_hold,
};
pub use layout::{objects_have_all_their_parts, octets_stand_where_the_standard_has_them};
pub use objects::{Object, Objects};
pub use reading::{head, read};
pub use sizes::{CaSize, CauseSize, IoaSize, Sizes};
pub use tagging::{
    is_plain_command, is_tagged_command, retag, tags_stand_behind_the_element, untag,
};
pub use translation::{Piece, Pieces, Translation, translate};
pub use unit::{Asdu, Refused};
pub use writing::{can_write, write};
