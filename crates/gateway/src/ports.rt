//! What the gateway asks of the outside: events in, actions out.
ghost use Rattle.std.specs.Prelude.{◌≡◌, ℕ, ◌+◌, ◌<◌, List, [], ◌∷◌, Option, Bool, true};
ghost use Rattle.std.specs.Prelude.{if◌then◌else◌};
ghost use Rattle.gateway.specs.Log.{LogEntry, Came, Went, with_news};

use session::Close;

/// One event.
#[derive(Clone, Copy)]
pub enum Event<'a> {
    /// Octets came from the line, in any piece.
    Line(&'a [u8]),
    /// The control centre opened a connection.
    Open,
    /// Octets came on the connection, in any piece.
    Bytes(&'a [u8]),
    /// The connection is cut.
    Cut,
    /// Only time passed.
    Tick,
    /// The wall clock shows so many milliseconds since 1970-01-01 UTC.
    Wall(u64),
}

/// One action.
#[derive(Clone, Copy)]
pub enum Action<'a> {
    /// A request, for the line.
    Line(&'a [u8]),
    /// An APDU, for the connection.
    Tcp(&'a [u8]),
    /// The connection is closed.
    Close(Close),
    /// A session of a station's link has ended, and its last report may be lost: the station by its
    /// place among the settings, from 0, and the session numbered from 1.
    Gap { station: usize, session: u64 },
}

/// What a port has next: an event with its moment in milliseconds, whose octets are the front of
/// the buffer, or none.
#[derive(Clone, Copy)]
pub enum Next {
    /// So many octets came from the line.
    Line(u64, usize),
    /// A connection was opened.
    Open(u64),
    /// So many octets came on the connection.
    Bytes(u64, usize),
    /// The connection is cut.
    Cut(u64),
    /// Only time passed.
    Tick(u64),
    /// The wall clock shows so many milliseconds since 1970-01-01 UTC (the second number).
    Wall(u64, u64),
    /// No event comes any more.
    Done,
    /// The device failed.
    Fault,
}

/// Where events come from and actions go. A port that gives its log adds each event and each action
/// to it; a call that fails adds nothing.
pub trait Port {
    // Ports over a text stand in crates of their own: the gateway knows no text (docs/DECISIONS.md,
    // "Ports in crates of their own").
    ghost use Rattle.gateway.specs.Ports.{logged_by, output_of, FitsBuffer, faults_of};

    /// The log so far, the newest first, if the port gives it.
    ghost log: { Self → Option (List LogEntry) };

    /// How often the device failed.
    ghost failed: { Self → ℕ };

    /// No event comes any more.
    // Without it no clause could say that a run ends when nothing comes (docs/DECISIONS.md, "When a
    // run is finished").
    ghost ended: { Self → Bool };

    /// What is fixed from the start: if it is a list of events, those of a whole run, the oldest
    /// first.
    ghost Fixed: { Type 0 } = { List LogEntry };

    // Each port chooses what that is (docs/DECISIONS.md, "A port's `script`").
    ghost script: { Self → Fixed };

    /// The next event. Its octets, at most 1,024, are put at the front of the buffer.
    fn next(&mut self, buf: &mut [u8; 1024]) -> Next
        requires { failed self.old < u64.MAX }
        ensures logged { log self.new ≡ with_news (log self.old) (logged_by result buf.new) }
        ensures fits { FitsBuffer result }
        ensures done { result ≡ Next.Done → ended self.new ≡ true }
        ensures script { script self.new ≡ script self.old }
        ensures cause { failed self.new ≡ failed self.old + faults_of result };

    /// Puts an action out at a moment. `false` says that the device failed.
    fn put(&mut self, now: u64, action: &Action<'_>) -> bool
        requires { failed self.old < u64.MAX }
        ensures logged { log self.new
            ≡ (if result then with_news (log self.old) (Went now (output_of action.now) ∷ [])
            else log self.old) }
        ensures script { script self.new ≡ script self.old }
        ensures cause { failed self.new ≡ failed self.old + (if result then 0 else 1) };

    /// How often the device failed.
    fn failures(&self) -> u64
        ensures { result ≡ failed self.now };
}
