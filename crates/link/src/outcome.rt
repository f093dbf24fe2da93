//! What the caller of a primary station learns of an exchange.
ghost use Rattle.std.specs.Prelude.{◌≡◌, ◌≤◌, length};
ghost use Rattle.link.specs.Primary.{outcome_by, with_gap};

use crate::answer::Answer;
use crate::asdu::AsduRef;
use crate::service::Asked;
use std::marker::Model;

/// The octets of a report, if its frame has them: at most 253.
#[derive(Drop)]
pub struct ReportRef<'a> {
    octets: &'a [u8],
}

impl<'a> Model for ReportRef<'a> {
    ghost use Rattle.std.specs.Prelude.{◌≤◌, length, ℕ};
    ghost use Rattle.std.specs.Coded.{coded_ℕ};
    ghost use Rattle.arrayvec.specs.ArrayVec.{ArrayVec, array_vec_code};

    ghost Value = { ArrayVec ℕ };

    ghost coded = { array_vec_code coded_ℕ };

    ghost view = { λ r. record { items = r.octets.now } };

    ghost invariant = { λ r. length r.octets.now ≤ 253 };
}

impl<'a> ReportRef<'a> {
    /// The octets of user data.
    fn new(asdu: AsduRef<'a>) -> ReportRef<'a>
        ensures { result.items ≡ asdu.entry }
    {
        ReportRef {
            octets: asdu.octets(),
        }
    }

    /// The octets.
    pub fn octets(&self) -> &'a [u8]
        ensures octets { result.now ≡ self.now.items }
        ensures small { length result.now ≤ 253 }
    {
        self.octets
    }
}

/// What came of an exchange. Stations are named by their index.
// Its report isn't copied (docs/DECISIONS.md, "`Outcome` lends its report").
#[derive(Drop)]
pub enum Outcome<'a> {
    /// Nothing that the caller has to know.
    None,
    /// The link to the station was reset: it is up. No report is lost.
    Started(usize),
    /// The link to the station was reset: it is up. The session with this number (from 1, at most
    /// `u64::MAX`) ended with a poll that wasn't answered by data or that there are none: its last
    /// report may be lost.
    StartedGap(usize, u64),
    /// A poll was answered with these data.
    Report(usize, ReportRef<'a>),
    /// A poll was answered that there are no data.
    Empty(usize),
    /// A command was confirmed.
    Accepted(usize),
    /// A command wasn't taken: the link is busy.
    Busy(usize),
    /// The station is down: it answered that the service isn't functioning or not implemented, or
    /// it stayed silent.
    Down(usize),
}

/// The outcome of an answer to the request, if the station's session has this gap.
pub(crate) fn outcome_for<'a>(
    station: usize,
    gap: Option<u64>,
    request: &Asked,
    answer: Answer<'a>,
) -> Outcome<'a>
    ensures { result ≡ with_gap gap (outcome_by station request.now answer.entry) }
{
    match (request, answer) {
        (Asked::Reset, Answer::Confirmed) => match gap {
            Some(session) => Outcome::StartedGap(station, session),
            None => Outcome::Started(station),
        },
        (Asked::Counted(_, _), Answer::Confirmed) => Outcome::Accepted(station),
        (_, Answer::Busy) => Outcome::Busy(station),
        (_, Answer::Report(asdu)) => Outcome::Report(station, ReportRef::new(asdu)),
        (_, Answer::NoData) => Outcome::Empty(station),
        // Also of a station that was down already (docs/DECISIONS.md, "What is an outcome").
        (_, Answer::Unable) => Outcome::Down(station),
        // The status was answered. The reset follows, and its answer is what is reported.
        (_, _) => Outcome::None,
    }
}
