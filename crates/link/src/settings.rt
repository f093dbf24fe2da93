//! What a line is set to.

use ft12::LinkSize;

/// What a line and its primary station are set to.
#[derive(Clone, Copy, Debug, PartialEq, Eq)]
pub struct LinkSettings {
    /// How many octets a link address has.
    pub size: LinkSize,
    /// How long an answer is awaited, in milliseconds.
    pub answer_ms: u64,
    /// How often in a row an unanswered request that bears a valid frame count bit is sent again at
    /// once.
    pub retries: u8,
    /// A service that stays unanswered after its repeats is held, with its frame count bit, and its
    /// station stays up: at each later turn it is sent once. Else the station is down then.
    pub hold: bool,
    /// How many class 1 polls a station's turn has at most.
    pub burst: u8,
}
