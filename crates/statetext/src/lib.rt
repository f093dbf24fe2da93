//! Lines of numbers and of octets, as text.
//!
//! A line of numbers is these in decimal with one space between two; a line of octets is `x` and
//! these in hexadecimal. Each line ends in a line feed. Proved: the lines that are read of a text
//! are those that were put, whatever stands behind it ([`TextSheet::is_read_back`]). No other text
//! is read as a line of numbers ([`a_line_of_numbers_has_one_text`]). A text in which one octet has
//! rotted has another sum ([`no_sum_hides_a_rotten_octet`]).
#![tactic(auto)]

mod laws;
mod lines;
mod seal;
mod sheet;
mod sum;

pub use laws::{a_line_of_numbers_has_one_text, no_sum_hides_a_rotten_octet, sums_by_example};
pub use lines::TextLines;
pub use seal::{Front, SEAL, SealedLines, read_sealed, seal_of};
pub use sheet::{Octets, TextSheet, put_hexadecimal};
pub use sum::Sum;
