//! How far the received events are on the disk.

use crate::loss::Loss;

/// How far the received events are on the disk.
#[derive(Clone, Copy, PartialEq, Eq)]
pub enum Standing {
    /// All of them are.
    Synced,
    /// The log has them, but since this moment, in ms, some wait for the disk.
    Waiting(u64),
    /// The store has failed.
    Lost(Loss),
}
