//! Where a value stands in the text of a TOML document, or where it would have to stand.
//!
//! [`find_value`] gives the octets of a text that write the value of a key. [`find_gap`] gives the
//! header behind which a key belongs that isn't there. [`place_at`] gives the line and the column
//! of an octet. A place is the first at which a mark, written in place of those octets or behind
//! that header, is the key's value in the document. It looks for keys as they are mostly written:
//! spelt out, the value on one line and without brackets in brackets.
mod changes;
mod place;
mod spans;

pub use self::changes::{MOST_OCTETS, Spot, find_gap, find_value};
pub use self::place::{Place, place_at};
pub use self::spans::Span;
