//! A gap in what an outstation reported.

/// A session of a station's link that ended so that its last report may be lost.
#[derive(Clone, Copy)]
pub(crate) struct Gap {
    /// The station, by its place among the settings, from 0.
    pub(crate) station: usize,
    /// The session, numbered from 1.
    pub(crate) session: u64,
}
