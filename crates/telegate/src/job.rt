//! The work of a command.

use crate::manner::Manner;

/// A command whose files are read whole, with their octets in place of their names.
#[derive(Clone, Copy)]
pub enum Job<'a> {
    /// The frame at the front of octets of the line: the sizes of its addresses, the octets in
    /// hexadecimal, and whether it is shown in one line of words.
    Show101(&'a str, &'a str, bool),
    /// The APDU at the front of octets of the connection, in hexadecimal, and whether it is shown
    /// in one line of words.
    Show104(&'a str, bool),
    /// A run of the gateway over simulated stations and a simulated control centre: the settings,
    /// the script, and how it is printed.
    Sim(&'a [u8], &'a [u8], Manner),
}
