//! Records as captures (pcapng) that Wireshark reads.
//!
//! [`Capture`] is given the lines of a record, one after another, and appends packets to a page:
//! [`Capture::begin`] first, [`Capture::add_line`] for each line, [`Capture::end`] at last. A line
//! may be one of a trace too. The connection of the control centre is TCP between two addresses for
//! documentation, the line the octets of a serial line, each frame in a packet of its own. A packet
//! of the line may have a comment: `repeat` (a request with the octets of the latest one), `late`
//! (a frame, if one came since the latest request), `spoilt` (octets that begin no frame), or `no
//! whole frame` (the beginning of one, when a request goes out or the record ends). A gap has a
//! packet of the line without octets, whose comment says the station and the session.
//!
//! Proved: what each call appends are the octets of one definition (`specs/Captures.antt`), and a
//! line that is neither an event nor an action, nor empty or a comment, is reported, and appends
//! nothing. The definition has the data of each segment and of each packet of the line, their time
//! by the wall clock, and the numbers of the segments, from SYN to FIN or RST. Comments have worked
//! examples ([`comments_by_example`]).
//!
//! [`capture_text`] writes the capture of a whole record, which is read block by block, and which
//! lines of it were cut short it knows as `audit` does. Proved: what it writes is the file of the
//! events and actions that the record's lines log. At the first line that logs neither, it is that
//! of those before it. If a read, the output or memory fails, it is a beginning of it.
//!
//! An action stands at the moment of the event before it, which in a record is its own. Before the
//! first event of the wall clock, moments count from 1970-01-01 UTC. That Wireshark reads what the
//! formats say is only tested.
pub(crate) mod capturing;
mod clock;
mod connection;
mod entry;
pub(crate) mod examples;
mod octets;
mod passing;
pub(crate) mod pcapng;
mod segment;
pub(crate) mod whole;
mod wire;
