//! The link to one station, as its exchanges leave it.
ghost use Rattle.std.specs.Prelude.{◌≡◌, true, false};
ghost use Rattle.link.specs.Leave.{holds_poll};
ghost use Rattle.link.specs.Procedure.{after_answer, after_silence, silence_so_far, has_repeats};
ghost use Rattle.link.specs.Procedure.{goes_down, is_held, holds_command, once_more, is_kept};
ghost use Rattle.link.specs.Procedure.{short_silence, spent_silence};
ghost use Rattle.link.specs.Answers.{Status, Ready};

use crate::answer::Answer;
use crate::service::{Asked, Service};
use crate::settings::LinkSettings;

/// How often a station has answered its status since the service that it holds went unanswered.
#[derive(Clone, Copy)]
pub enum Probed {
    Never,
    Once,
    Twice,
}

impl Probed {
    /// It has answered one more.
    fn once_more(self) -> Probed
        ensures { result ≡ once_more self }
    {
        match self {
            Probed::Never => Probed::Once,
            Probed::Once | Probed::Twice => Probed::Twice,
        }
    }

    /// Whether a service that has no repeat left stays held.
    fn is_kept(self, settings: LinkSettings) -> bool
        ensures { result ≡ is_kept settings self }
    {
        settings.hold && !matches!(self, Probed::Twice)
    }
}

/// How a service went unanswered.
#[derive(Clone, Copy)]
pub struct Silence {
    /// So many sendings in a row, counted up to one more than the repeats.
    pub missed: u16,
    /// No repeat is left.
    pub spent: bool,
    pub probed: Probed,
}

/// The link to a station: down, down with its status known, or up. Up, either the next service has
/// this frame count bit, or the one that isn't answered is due again.
#[derive(Drop)]
pub enum Link {
    Down,
    Available,
    Next(bool),
    Held(bool, Service, Silence),
}

impl Silence {
    /// Repeats are left.
    pub(crate) fn short(missed: u16, probed: Probed) -> Silence
        ensures { result ≡ short_silence missed probed }
    {
        Silence {
            missed,
            spent: false,
            probed,
        }
    }

    /// No repeat is left.
    fn spent(settings: LinkSettings, probed: Probed) -> Silence
        ensures { result ≡ spent_silence settings probed }
    {
        Silence {
            // In 16 bits, in which one more than any `retries` fits (docs/DECISIONS.md, "Unanswered
            // transmissions in 16 bits"). Nothing more is counted, however long the silence.
            missed: u16::from(settings.retries) + 1,
            spent: true,
            probed,
        }
    }
}

impl Link {
    /// A request was answered.
    pub(crate) fn answer(&mut self, request: &Asked, answer: &Answer<'_>)
        ensures { self.new ≡ after_answer request.now answer.now self.old }
    {
        match (request, answer) {
            (Asked::Status, Answer::Ready) => self.ready(),
            // A service that goes with it is given up: the station says that it can't be served.
            (Asked::Status | Asked::Counted(_, _), Answer::Unable) => *self = Link::Down,
            // The reset has set the station's bit to 0, so 1 marks a new service (IEC 60870-5-2,
            // 5.1.2).
            (Asked::Reset, Answer::Confirmed) => *self = Link::Next(true),
            // The station has this bit now, so the other one marks a new service.
            (Asked::Counted(fcb, _), _) => *self = Link::Next(!*fcb),
            (_, _) => {}
        }
    }

    /// A status was answered.
    fn ready(&mut self)
        ensures { self.new ≡ after_answer Status Ready self.old }
    {
        if let Link::Held(_, _, silence) = self {
            // The station is there, so its service is sent anew: the silence behind it tells
            // whether it has lost its link (docs/DECISIONS.md, "A station that was restarted,
            // too").
            *silence = Silence::short(0, silence.probed.once_more());
        } else {
            *self = Link::Available;
        }
    }

    pub(crate) fn silence(&self) -> Silence
        ensures { result ≡ silence_so_far self.now }
    {
        match self {
            Link::Held(_, _, silence) => *silence,
            _ => Silence::short(0, Probed::Never),
        }
    }

    /// A status had no answer. A station that holds a service is away, and goes on holding it.
    pub(crate) fn status_missed(&mut self, settings: LinkSettings)
        ensures missed { self.new ≡ after_silence settings Status true self.old }
        ensures left { self.new ≡ after_silence settings Status false self.old }
    {
        if let Link::Held(_, _, silence) = self {
            *silence = Silence::spent(settings, Probed::Never);
        } else {
            *self = Link::Down;
        }
    }

    /// A request had no answer in time.
    pub(crate) fn miss(&mut self, settings: LinkSettings, request: &Asked)
        ensures { self.new ≡ after_silence settings request.now true self.old }
    {
        match request {
            Asked::Status => self.status_missed(settings),
            // The status first (docs/DECISIONS.md, "A reset needs a status").
            Asked::Reset => *self = Link::Down,
            Asked::Counted(fcb, service) => {
                let Silence { missed, probed, .. } = self.silence();
                let most = u16::from(settings.retries);
                if missed < most {
                    // The same bit: the station may have acted, and only its answer was lost.
                    *self = Link::Held(*fcb, service.copied(), Silence::short(missed + 1, probed));
                } else if probed.is_kept(settings) {
                    *self = Link::Held(*fcb, service.copied(), Silence::spent(settings, probed));
                } else {
                    // It may have restarted, and then it answers no service before a reset.
                    *self = Link::Down;
                }
            }
        }
    }

    /// Whether an unanswered service is to be sent again at once.
    pub(crate) fn has_repeats(&self, settings: LinkSettings) -> bool
        ensures { result ≡ has_repeats settings self.now }
    {
        match self {
            Link::Held(_, _, silence) => {
                !silence.spent && silence.missed <= u16::from(settings.retries)
            }
            _ => false,
        }
    }

    /// Whether the request was a service, and the link is down now.
    pub(crate) fn is_lost(&self, request: &Asked) -> bool
        ensures { result ≡ goes_down request.now self.now }
    {
        matches!((request, self), (Asked::Counted(_, _), Link::Down))
    }

    pub(crate) fn holds_command(&self) -> bool
        ensures { result ≡ holds_command self.now }
    {
        matches!(self, Link::Held(_, Service::Command(_), _))
    }

    /// Whether a poll was sent, and isn't answered.
    pub(crate) fn holds_poll(&self) -> bool
        ensures { result ≡ holds_poll self.now }
    {
        matches!(self, Link::Held(_, Service::Class1 | Service::Class2, _))
    }

    pub(crate) fn is_held(&self) -> bool
        ensures { result ≡ is_held self.now }
    {
        matches!(self, Link::Held(_, _, _))
    }
}
