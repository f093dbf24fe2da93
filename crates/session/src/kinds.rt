//! The small types of a session.

/// Where a sent I frame came from.
#[derive(Clone, Copy, Debug, PartialEq, Eq)]
pub enum FrameOrigin {
    /// From the queue of pieces of reports.
    Queue,
    /// An answer of the gateway's own.
    Own,
}

/// A sent I frame that isn't acknowledged.
#[derive(Clone, Copy, Debug, PartialEq, Eq)]
pub struct Unacknowledged {
    /// Where it came from.
    pub kind: FrameOrigin,
    /// When it was sent, in ms.
    pub moment: u64,
}

/// How far data transfer is on a connection (IEC 60870-5-104, 5.3).
#[derive(Clone, Copy, Debug, PartialEq, Eq)]
pub enum Transfer {
    /// There is no connection.
    Closed,
    /// A connection is open: no STARTDT act came yet, or the latest STOPDT act is confirmed.
    Stopped,
    /// The latest STARTDT act or STOPDT act is a STARTDT act.
    Started,
    /// A STOPDT act isn't confirmed yet, whether or not data transfer was started before it.
    Stopping,
}

/// Why a connection is closed. The numbers are those that the program prints.
#[derive(Clone, Copy, Debug, PartialEq, Eq)]
pub enum Close {
    /// The octets received begin no APDU.
    Grammar = 1,
    /// The N(S) of an I frame isn't the next one (IEC 60870-5-104, 5.1).
    SendNumber = 2,
    /// An N(R) counts no frame that could be acknowledged (IEC 60870-5-104, 5.1).
    ReceiveNumber = 3,
    /// An I frame came while data transfer was stopped, or was to stop (IEC 60870-5-104, 5.3).
    Stopped = 4,
    /// An I frame or a TESTFR act waited for t1 (IEC 60870-5-104, 5.2).
    Timeout = 5,
    /// An answer of the gateway's own found no place (this gateway's own profile).
    OwnAnswers = 6,
    /// A new connection takes the place of this one (this gateway's own profile).
    Replaced = 7,
}

/// What a received frame leads to.
#[derive(Clone, Copy, Debug, PartialEq, Eq)]
pub enum Taken {
    /// No more than what the session itself keeps.
    Nothing,
    /// The ASDU of an I frame is to be judged.
    Asdu,
    /// The connection is to be closed.
    Close(Close),
}
