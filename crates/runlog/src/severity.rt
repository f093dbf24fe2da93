//! How severe a line is.
ghost use Rattle.std.specs.Prelude.{◌≡◌};
ghost use Rattle.runlog.specs.Severities as spec;

use crate::fate::CommandFate;
use crate::note::Note;
use live::Notice;

/// How severe a line is.
#[derive(Clone, Copy, PartialEq, Eq)]
pub enum Severity {
    /// It wants somebody now: nothing is polled, or reports are lost or will be.
    Error,
    /// It wants somebody soon.
    Warning,
    /// It seldom happens.
    Notice,
    /// It is of the daily round.
    Info,
}

impl Severity {
    /// Its number of syslog (RFC 5424, 6.2.1): 3 to 6.
    pub fn number(self) -> u8
        ensures { result ≡ spec.number_of self }
    {
        match self {
            Severity::Error => 3,
            Severity::Warning => 4,
            Severity::Notice => 5,
            Severity::Info => 6,
        }
    }
}

fn notice_severity(notice: Notice) -> Severity
    ensures { result ≡ spec.notice_severity notice }
{
    match notice {
        Notice::NotKept(_) => Severity::Error,
        Notice::KeptAgain => Severity::Notice,
    }
}

fn fate_severity(fate: CommandFate) -> Severity
    ensures { result ≡ spec.fate_severity fate }
{
    match fate {
        CommandFate::Sent | CommandFate::Confirmed | CommandFate::Terminated => Severity::Info,
        CommandFate::Denied | CommandFate::Busy | CommandFate::GivenUp => Severity::Warning,
    }
}

impl Note {
    /// How severe a line of it is.
    pub fn severity(&self) -> Severity
        ensures { result ≡ spec.severity_of self.now }
    {
        match self {
            Note::LineLost(_) | Note::LineNotThere(_) | Note::LineSilent => Severity::Error,
            Note::Gap(_) | Note::QueueFull | Note::StatePutAside => Severity::Error,
            Note::Trouble(_) | Note::StateRefused(_) | Note::StateUnkept(_) => Severity::Error,
            Note::Cut(_) | Note::Closed(_) | Note::RefusedPeers(_, _) => Severity::Warning,
            Note::Silent(_) | Note::Down(_) | Note::StateStale => Severity::Warning,
            Note::StillSilent(_) | Note::LeftOut(_) => Severity::Warning,
            Note::GivenUp(_, _, _, _) | Note::StateOnBtrfs => Severity::Warning,
            Note::StateDamaged(_) | Note::SlowSync(_, _) => Severity::Warning,
            Note::Refused(_, _, _) | Note::Unsent(_) => Severity::Warning,
            Note::Skipped(_, _, _) => Severity::Warning,
            Note::MirrorDropped(_) | Note::Spoilt(_, _) | Note::Late(_, _) => Severity::Warning,
            Note::LineReached | Note::LineReachedAgain | Note::QueueFree => Severity::Notice,
            Note::Up(_) | Note::Again(_) | Note::SettingsChanged => Severity::Notice,
            Note::StateBegins | Note::StateGoesOn(_) => Severity::Notice,
            Note::Listening(_) | Note::Opened(_) | Note::Started | Note::Stopped => Severity::Info,
            Note::Asked(_) | Note::Counts(_) | Note::Ordered(_, _) => Severity::Info,
            Note::State(notice) => notice_severity(*notice),
            Note::Fate(_, _, fate) => fate_severity(*fate),
        }
    }
}
