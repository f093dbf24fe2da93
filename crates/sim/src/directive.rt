//! The lines of a script.
ghost use Rattle.std.specs.Prelude.{◌≡◌, ◌≤◌, IfSome, length};
ghost use Rattle.std.specs.Option.{option_copied};
ghost use Rattle.sim.specs.Directives.{IsWithinRanges};
ghost use Rattle.sim.specs.Texts.{reports_for};
ghost use Rattle.sim.specs.Losses.{turns_said, ack_said, wall_said, send_said};

use link::UserData;

/// A class of user data (IEC 60870-5-2): what a station gives at requests of class 1, or of class
/// 2.
#[derive(Clone, Copy, PartialEq, Eq)]
pub enum Class {
    One,
    Two,
}

/// What becomes of a request.
#[derive(Clone, Copy, PartialEq, Eq)]
pub enum RequestFate {
    /// No station receives it.
    RequestLost,
    /// It is received, and its answer is lost.
    AnswerLost,
    /// In its answer the octet at this place, modulo its length, is changed in all eight bits.
    AnswerSpoilt(u64),
    /// Its answer comes.
    Answered,
}

/// What a line of a script says. Requests on the line and calls of the port are counted from 1;
/// there is none with number 0.
#[derive(Drop)]
pub enum Directive {
    /// So many calls of the port.
    Turns(u64),
    /// The control centre acknowledges once so many I frames are unacknowledged, 1 to 32767.
    Ack(u64),
    /// At the first call the wall clock shows so many milliseconds since 1970-01-01 UTC.
    Wall(u64),
    /// The station with this index, from 0, has this report from the start: 1 to 253 octets, or 252
    /// with two-octet link addresses.
    Report(usize, Class, UserData),
    /// The request with this number isn't received.
    LoseRequest(u64),
    /// The answer to the request with this number is lost.
    LoseAnswer(u64),
    /// In the answer to the request with the first number the octet at this place, modulo its
    /// length, is changed in all eight bits.
    SpoilAnswer(u64, u64),
    /// At the call with this number the connection is cut.
    Cut(u64),
    /// At the call with this number an I frame with this ASDU, of 9 to 249 octets, goes to the
    /// gateway.
    Send(u64, UserData),
}

impl Directive {
    /// How many calls there are, if it says so.
    pub(crate) fn turns(&self) -> Option<u64>
        ensures { result ≡ turns_said self.now }
    {
        match self {
            Directive::Turns(n) => Some(*n),
            _ => None,
        }
    }

    pub(crate) fn ack(&self) -> Option<u64>
        ensures { result ≡ ack_said self.now }
    {
        match self {
            Directive::Ack(n) => Some(*n),
            _ => None,
        }
    }

    /// What the wall clock shows, if it says so.
    pub(crate) fn wall(&self) -> Option<u64>
        ensures { result ≡ wall_said self.now }
    {
        match self {
            Directive::Wall(number) => Some(*number),
            _ => None,
        }
    }

    /// The ASDU that it has sent at this call.
    pub(crate) fn sends(&self, call: u64) -> Option<&UserData>
        ensures said { option_copied result ≡ send_said call self.now }
        ensures least { IsWithinRanges self.now → IfSome result (λ asdu. 9 ≤ length asdu.now) }
        ensures most { IsWithinRanges self.now → IfSome result (λ asdu. length asdu.now ≤ 249) }
    {
        match self {
            Directive::Send(n, asdu) if *n == call => Some(asdu),
            _ => None,
        }
    }

    /// Whether it gives the station with this index a report.
    pub(crate) fn reports_for(&self, station: usize) -> bool
        ensures { result ≡ reports_for station self.now }
    {
        match self {
            Directive::Report(i, _, _) => *i == station,
            _ => false,
        }
    }
}
