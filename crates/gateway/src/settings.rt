//! The settings of a gateway.
ghost use Rattle.std.specs.Prelude.{◌≡◌, ◌+◌, ◌<◌, ◌≤◌};
ghost use Rattle.gateway.specs.Settings.{IsWithin};

use asdu::Sizes;
use ft12::LinkSize;

/// What silence of a station does after its repeats.
#[derive(Clone, Copy, PartialEq, Eq)]
pub enum Silence {
    /// The service is held, with its frame count bit, and the station stays up.
    Hold,
    /// The station is down, and its link is reset before the next service.
    Reset,
}

/// A secondary station of the line.
#[derive(Clone, Copy, PartialEq, Eq)]
pub struct StationSettings {
    /// Its link address.
    pub address: u16,
    /// Its common address of ASDUs.
    pub ca: u16,
    /// Whether commands to it are selected before they are executed.
    pub select: bool,
}

/// The settings of the line.
#[derive(Clone, Copy, PartialEq, Eq)]
pub struct LineSettings {
    /// How many octets a link address has.
    pub link: LinkSize,
    /// The sizes of the numbers in the line's ASDUs.
    pub sizes: Sizes,
    /// How long an answer is awaited, in milliseconds: 1 to 60000.
    pub answer_ms: u64,
    /// How often an unanswered service is sent again at once: 0 to 10.
    pub retries: u8,
    /// What silence does after the repeats.
    pub silence: Silence,
    /// How many class 1 polls a station's turn has at most: 1 to 255.
    pub burst: u8,
    /// How many ASDU pieces are kept for the control centre: 3 to 65535.
    pub queue: u16,
    pub ghost answer_in_range: { IsWithin 1 60000 answer_ms },
    pub ghost retries_in_range: { retries ≤ 10 },
    pub ghost burst_in_range: { 1 ≤ burst },
    pub ghost queue_in_range: { 3 ≤ queue },
}

/// The settings of the connection (IEC 60870-5-104, 5.2, 5.5 and 9.6). Times are in milliseconds.
#[derive(Clone, Copy, PartialEq, Eq)]
pub struct TcpSettings {
    /// How many sent I frames may be unacknowledged: 1 to 32767.
    pub k: u16,
    /// After how many received I frames an acknowledgement is due: 1 to 32767.
    pub w: u16,
    /// How long an I frame or a test may wait for its answer: 2 to 255000.
    pub t1_ms: u64,
    /// After how long a received I frame is acknowledged: 1 to `t1_ms` - 1.
    pub t2_ms: u64,
    /// After how long without a frame the connection is tested: 1 to 86400000.
    pub t3_ms: u64,
    /// How long a selection is live: 1 to 600000.
    pub select_ms: u64,
    /// How far the time tag of a command may be from the wall clock, before or behind it: 1 to
    /// 3600000.
    pub max_age_ms: u64,
    pub ghost k_in_range: { IsWithin 1 32767 k },
    pub ghost w_in_range: { IsWithin 1 32767 w },
    pub ghost t1_in_range: { IsWithin 2 255000 t1_ms },
    pub ghost t2_in_range: { (1 ≤ t2_ms) × (t2_ms < t1_ms) },
    pub ghost t3_in_range: { IsWithin 1 86400000 t3_ms },
    pub ghost select_in_range: { IsWithin 1 600000 select_ms },
    pub ghost age_in_range: { IsWithin 1 3600000 max_age_ms },
}
