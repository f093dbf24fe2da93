//! What is known when a store has failed.

/// Why a store has failed.
#[derive(Clone, Copy, PartialEq, Eq)]
pub enum StoreFault {
    /// No line can hold the event.
    Unwritable,
    /// The log has no room for the line.
    Full,
    /// The disk failed, or memory was refused.
    Failed,
}

/// What is known of the state on the disk, if a store has failed.
#[derive(Clone, Copy, PartialEq, Eq)]
pub enum Loss {
    /// It is marked as stale.
    Marked,
    /// It couldn't be marked: the next start would take it for whole.
    Unmarked,
}
