//! The state as it is now, for who looks: pages for a person, JSON, Prometheus' text format and a
//! table for a terminal, over HTTP/1.0 and HTTP/1.1 (RFC 9110, RFC 9112).
//!
//! [`Visitors`] come from a [`StreamSource`]: four at once at the most, each for two seconds at
//! the most. [`Visitors::turn`] is called between two events. At most one visitor comes then, and
//! each gets one read or one write, which never waits. What is shown is a [`Snapshot`], plain data
//! that the caller fills in and lends: visitors and pages don't know the gateway. A [`Lookout`]
//! fills it in from a live run, which it is lent for reading alone, so who looks changes nothing.
//! All memory is taken by [`Visitors::new`]. [`VisitorListener`] is the source on the system's
//! sockets.
//!
//! Proved: the body of each page is a small function of the snapshot, text for text, with what is
//! written in place of octets that would mean something else. The status, the fields and the body
//! of an answer are functions of what is asked. What is asked is read by the grammar of `httparse`:
//! it distinguishes a request that isn't whole, one that is too long, and what is none. Who comes
//! has a seat if one is free. A visitor is sent the page that he asked for, whole and once,
//! whatever others do ([`visitors_are_sent_what_they_asked_for`]). After a turn nobody has been
//! there for two seconds. A page goes out whole or not at all
//! ([`a_text_stands_whole_or_not_at_all`]). What stands in place of an octet that would mean
//! something else is read back as that octet ([`texts_are_read_back`]). Pages have literal examples
//! ([`pages_by_example`]).
//!
//! Tested alone: that the largest pages find room, that streams are read and written at all, and
//! what browsers and monitors make of a page (checks/status.py).
#![tactic(auto)]

mod answer;
mod examples;
mod hour;
mod html;
mod json;
mod judging;
mod labels;
mod latest;
mod laws;
mod lists;
mod lookout;
mod metrics;
mod page;
mod reading_laws;
mod reply;
mod reply_laws;
mod request;
mod seat;
mod snapshot;
mod sockets;
mod streams;
mod table;
mod texts;
mod visitors;
mod words;

pub use examples::pages_by_example;
pub use hour::Hour;
pub use judging::{Judgement, judge};
pub use laws::{
    a_text_stands_whole_or_not_at_all, judgements_mean_what_they_say,
    visitors_are_sent_what_they_asked_for,
};
pub use lookout::{
    Lookout, each_station_has_its_row, line_state_and_settings_are_shown_as_they_are,
    the_centre_is_shown_as_it_is, the_queue_is_shown_as_it_is,
};
pub use reading_laws::texts_are_read_back;
pub use reply::{UNKNOWN, body_of, exit_status};
pub use reply_laws::{each_path_has_its_page, each_request_has_its_answer};
pub use snapshot::{
    CentreView, EventView, Keeping, LineView, LinkState, Queue, Setting, Snapshot, StationView,
};
pub use sockets::{VisitorListener, VisitorSocket};
pub use streams::{Stream, StreamLook, StreamSource, Took};
pub use visitors::Visitors;
