//! The words for how things stand.
ghost use Rattle.std.specs.Prelude.{◌≡◌};
ghost use Rattle.status.specs.Labels as spec;

use crate::judging::Judgement;
use crate::snapshot::{Keeping, LinkState};
use runlog::Severity;

/// How a station stands.
pub(crate) fn standing_text(standing: LinkState) -> &'static str
    ensures { result.now ≡ spec.standing_text standing }
{
    match standing {
        LinkState::NotAsked => "not requested",
        LinkState::Asked => "requested",
        LinkState::Up => "up",
        LinkState::Silent => "no reply",
        LinkState::Down => "down",
    }
}

/// The same with spaces behind it up to the longest text.
pub(crate) fn wide_text(standing: LinkState) -> &'static str
    ensures { result.now ≡ spec.wide_text standing }
{
    match standing {
        LinkState::NotAsked => "not requested",
        LinkState::Asked => "requested    ",
        LinkState::Up => "up           ",
        LinkState::Silent => "no reply     ",
        LinkState::Down => "down         ",
    }
}

/// How severe a line is.
pub(crate) fn severity_text(severity: Severity) -> &'static str
    ensures { result.now ≡ spec.severity_text severity }
{
    match severity {
        Severity::Error => "error",
        Severity::Warning => "warning",
        Severity::Notice => "notice",
        Severity::Info => "info",
    }
}

/// Whether the state is kept.
pub(crate) fn keeping_text(keeping: Keeping) -> &'static str
    ensures { result.now ≡ spec.keeping_text keeping }
{
    match keeping {
        Keeping::Off => "none",
        Keeping::Kept => "kept",
        Keeping::NotKept => "not kept",
    }
}

/// The first word of a plugin's line (Nagios).
pub(crate) fn judgement_text(judgement: Judgement) -> &'static str
    ensures { result.now ≡ spec.judgement_text judgement }
{
    match judgement {
        Judgement::Ok => "OK",
        Judgement::Warning => "WARNING",
        Judgement::Critical => "CRITICAL",
    }
}
