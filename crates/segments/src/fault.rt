//! Why a call isn't done.
use std::io::ErrorKind;
use thiserror::Error;

/// Why a call isn't done.
#[derive(Clone, Copy, Debug, PartialEq, Eq, Error)]
pub enum SegmentFault {
    /// The segment has no room for the line. The next one must begin.
    #[error("the segment is full")]
    Full,
    /// The disk failed, and the system said this of it; or it failed at an earlier call on this
    /// file. That must be opened anew.
    #[error("the disk failed: {0}")]
    Device(ErrorKind),
    /// Memory was refused.
    #[error("no memory")]
    NoMemory,
}
