//! Whoever uses the primary station of a line.
ghost use Rattle.std.specs.Prelude.{◌≡◌, ◌≤◌, ℕ, List, Option, Some, None, IfSome, IfNone, length};

/// The user of the link layer: it has the commands that wait for the stations.
// The link looks at what waits where it is, and keeps none of it, so that a command stands in one
// place until it goes out (docs/DECISIONS.md, "What waits for a station").
pub trait LinkUser {
    /// The command that waits for the station with this index, the oldest, if there is one.
    ghost waiting: { Self → ℕ → Option (List ℕ) };

    /// The user data of that command: 1 to [`LONGEST_COMMAND`](crate::asdu::LONGEST_COMMAND)
    /// octets.
    fn command(&self, station: usize) -> Option<&[u8]>
        ensures some { IfSome result (λ octets. waiting self.now station ≡ Some octets.now) }
        ensures none { IfNone result (waiting self.now station ≡ None) }
        ensures fits { IfSome result
            (λ octets. (1 ≤ length octets.now) × (length octets.now ≤ 12)) };
}

/// A user without commands.
#[derive(Clone, Copy)]
pub struct NoCommands;

impl LinkUser for NoCommands {
    ghost waiting = { λ user. λ station. None };

    fn command(&self, _station: usize) -> Option<&[u8]> {
        None
    }
}
