//! What a gateway counts.

/// What didn't go as it should since the gateway was made. Each number stays at the greatest of its
/// type once it is there.
#[derive(Clone, Copy, PartialEq, Eq)]
pub struct Counts {
    /// ASDUs of the line that can't be read, and monitor ASDUs with a negative 'unknown type'
    /// (cause octet 6C or EC): they are dropped.
    pub skipped: u64,
    /// ASDUs of command types that came from a station while data transfer wasn't running: they are
    /// dropped.
    pub mirrors: u64,
    /// Commands that were put on the line and given up.
    pub lost: u64,
    /// Exchanges of the line that ended with octets, none of which were an answer.
    pub spoilt: u64,
}

/// The numbers that a step counts.
#[derive(Clone, Copy)]
pub(crate) struct Tally {
    pub(crate) skipped: u64,
    pub(crate) mirrors: u64,
    pub(crate) lost: u64,
}
