//! The places where events come from.
ghost use Rattle.std.specs.Prelude.{◌≡◌};
ghost use Rattle.live.specs.Ends.{after};

/// Where an event can come from.
#[derive(Clone, Copy, PartialEq, Eq)]
pub(crate) enum EventSource {
    Listener,
    Connection,
    Line,
}

impl EventSource {
    /// The next one in the round.
    pub(crate) fn after(self) -> EventSource
        ensures { result ≡ after self }
    {
        match self {
            EventSource::Listener => EventSource::Connection,
            EventSource::Connection => EventSource::Line,
            EventSource::Line => EventSource::Listener,
        }
    }
}
