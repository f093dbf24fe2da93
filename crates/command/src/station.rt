//! Stations, as commands see them.

/// A station of the line.
#[derive(Clone, Copy, Debug, PartialEq, Eq)]
pub struct StationInfo {
    /// Its common address (IEC 60870-5-101, 7.2.4).
    pub ca: u16,
    /// Whether it executes types 45 to 49 only after a select.
    pub select: bool,
}
