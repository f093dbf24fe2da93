//! Stations of a line that goes on with other settings.

/// A station of a line that goes on.
#[derive(Clone, Copy, Debug, PartialEq, Eq)]
pub struct ResumedStation {
    /// Its link address.
    pub address: u16,
    /// Its index among the stations that there were, if it was one of them.
    pub before: Option<usize>,
}
