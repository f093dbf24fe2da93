//! Why a port gave up.

/// How a port over stored entries is.
#[derive(Clone, Copy, PartialEq, Eq)]
pub(crate) enum Health {
    Good,
    /// Memory was refused.
    Refused,
    /// A write failed.
    Broken,
}
