//! What a start makes of a state that was kept.
ghost use Rattle.std.specs.Prelude.{◌≡◌};
ghost use Rattle.state.specs.Starts.{beginning_of};

/// What a start finds in the directory of the state.
#[derive(Clone, Copy, PartialEq, Eq)]
pub enum Found {
    /// No log was ever begun there.
    Nothing,
    /// What is there can't be read.
    Unread,
    /// The log was marked as stale, or it comes from a backup.
    Stale,
    /// The log was written by a gateway of other rules; whether events stand behind its head.
    OtherRules(bool),
    /// A log, which has all that anything had gone out on.
    Whole,
}

/// How a run begins.
#[derive(Clone, Copy, PartialEq, Eq)]
pub enum Beginning {
    /// With a new gateway.
    Anew,
    /// With a new gateway. What is there is put aside, and this is reported.
    PutAside,
    /// With the state that was kept. What is queued is delivered, each link is reset, and the gap
    /// is reported.
    LinksReset,
    /// With the state that was kept.
    GoesOn,
}

/// How a run begins, by what was found.
pub fn beginning_of(found: Found) -> Beginning
    ensures { result ≡ beginning_of found }
{
    match found {
        Found::Nothing => Beginning::Anew,
        Found::Unread => Beginning::PutAside,
        Found::Stale | Found::OtherRules(true) => Beginning::LinksReset,
        Found::Whole | Found::OtherRules(false) => Beginning::GoesOn,
    }
}
