//! The request that went out last, and what is received in answer to it.
ghost use Rattle.std.specs.Prelude.{◌≡◌, ◌++◌, ◌-◌, length, take};
ghost use Rattle.ft12.specs.Borrowed.{FitsMemory, owned};
ghost use Rattle.ft12.specs.Fronts.{front_of};
ghost use Rattle.runlog.specs.Exchange as spec;
ghost use Rattle.runlog.specs.Spoilings.{first_of};
ghost use Rattle.runlog.specs.declared.spoiling.Spoiling.TheVariants.{Octets};

use crate::order::octet;
use crate::spoiling::{FirstOctets, Spoiling};
use crate::stations::{address_of, control_place};
use crate::traffic::Traffic;
use arrayvec::ArrayVec;
use ft12::{FrameRef, FrontRef, LinkSize, front_is_computed, front_ref};
use link::{Answer, Asked, CommandOctets, Control, PrimaryFunction, Service};
use std::marker::Model;

/// What is awaited of a station.
#[derive(Clone, Copy, PartialEq, Eq)]
pub(crate) enum AwaitedAnswer {
    /// Nothing.
    Nothing,
    /// The status of its link.
    Status,
    /// That it has reset its link.
    Reset,
    /// The answer to a poll.
    Poll,
    /// The answer to a command.
    Command,
}

/// The request before the latest one.
#[derive(Clone, Copy, PartialEq, Eq)]
pub(crate) struct EarlierRequest {
    /// The link address of its station.
    station: u16,
    /// What was awaited.
    what: AwaitedAnswer,
    /// When it went out, in ms.
    since: u64,
}

/// The request that went out last.
#[derive(Drop)]
pub(crate) struct RequestWatch {
    /// The place of its station.
    place: Option<usize>,
    /// When it went out, in ms.
    since: u64,
    /// The place of the station that was asked last before the latest event.
    before: Option<usize>,
    /// How long an answer is awaited, in ms.
    answer_ms: u64,
    /// The place of the station that was asked before that request, if that exchange had lasted so
    /// long.
    overdue: Option<usize>,
    awaited: AwaitedAnswer,
    /// The request itself.
    request: ArrayVec<u8, 261>,
    earlier: EarlierRequest,
    /// What came since it went out: no frame has more octets.
    octets: ArrayVec<u8, 261>,
    /// What stands in the place of an answer, if the latest octets that came bring none.
    spoiling: Spoiling,
}

impl Model for RequestWatch {
    ghost use Rattle.runlog.specs.Exchange.{RequestWatch as Seen};

    ghost Value = { Seen };

    ghost view = { λ e. record {
      place = e.place;
      before = e.before;
      since = e.since;
      answer_ms = e.answer_ms;
      overdue = e.overdue;
      awaited = e.awaited;
      request = e.request.items;
      earlier = e.earlier;
      octets = e.octets.items;
      spoiling = e.spoiling;
    } };
}

/// What is awaited after a request.
pub(crate) fn awaited_of(request: &[u8]) -> AwaitedAnswer
    ensures { result ≡ spec.awaited_of request.now }
{
    match Control::from_octet(octet(request, control_place(request))) {
        Control::Primary {
            function: PrimaryFunction::Class1 | PrimaryFunction::Class2,
            ..
        } => AwaitedAnswer::Poll,
        Control::Primary {
            function: PrimaryFunction::UserData,
            ..
        } => AwaitedAnswer::Command,
        Control::Primary {
            function: PrimaryFunction::LinkStatus,
            ..
        } => AwaitedAnswer::Status,
        Control::Primary {
            function: PrimaryFunction::ResetLink,
            ..
        } => AwaitedAnswer::Reset,
        _ => AwaitedAnswer::Nothing,
    }
}

/// More octets come behind these. No frame is longer: what finds no room isn't of it.
fn add(octets: &mut ArrayVec<u8, 261>, more: &[u8])
    ensures { octets.new.items
        ≡ octets.old.items ++ take (261 - length octets.old.items) more.now }
{
    let count = more.len().min(octets.remaining_capacity());
    let _ = octets.try_extend_from_slice(&more[..count]);
}

/// The octets of a request.
fn kept_of(request: &[u8]) -> ArrayVec<u8, 261>
    ensures { result.items ≡ take 261 request.now }
{
    let mut octets = ArrayVec::new();
    add(&mut octets, request);
    octets
}

/// A request of which this is awaited.
fn request_for(what: AwaitedAnswer) -> Option<Asked>
    ensures { result ≡ spec.request_for what }
{
    match what {
        AwaitedAnswer::Nothing => None,
        AwaitedAnswer::Status => Some(Asked::Status),
        AwaitedAnswer::Reset => Some(Asked::Reset),
        // Neither the bit nor the class changes which answers fit.
        AwaitedAnswer::Poll => Some(Asked::Counted(false, Service::Class2)),
        AwaitedAnswer::Command => Some(Asked::Counted(
            false,
            Service::Command(CommandOctets::new(&[])),
        )),
    }
}

/// The place of the station with this link address.
pub(crate) fn place_of(traffic: &[Traffic], address: u16) -> Option<usize>
    ensures { result ≡ spec.place_of address traffic.now }
{
    traffic
        .iter()
        .position(|station| station.address() == address)
}

/// The user data of a request.
pub(crate) fn user_data(size: LinkSize, request: &[u8]) -> &[u8]
    ensures { result.now ≡ spec.user_data size request.now }
{
    let address = match size {
        LinkSize::One => 1,
        LinkSize::Two => 2,
    };
    let end = (4 + usize::from(octet(request, 1))).min(request.len());
    &request[(5 + address).min(end)..end]
}

/// What these octets say in answer to a request, once they are whole, or can't be an answer.
fn answered<'a>(
    size: LinkSize,
    station: u16,
    request: &Asked,
    octets: &'a [u8],
) -> Option<Option<Answer<'a>>>
    ensures { result ≡ spec.answered_by station request.now (front_of size octets.now) }
{
    front_is_computed();
    match front_ref(size, octets) {
        FrontRef::Whole(frame, _) => Some(request.answered_by(station, frame)),
        FrontRef::More => None,
        FrontRef::Never(_, _) => Some(None),
    }
}

impl EarlierRequest {
    /// A frame that comes at this moment answers it, but too late for an answer that is awaited for
    /// so long, in ms.
    fn is_late(&self, frame: FrameRef<'_>, answer_ms: u64, now: u64) -> bool
        requires { FitsMemory frame }
        ensures { result ≡ spec.is_late self.now (owned frame.entry) answer_ms now }
    {
        match request_for(self.what) {
            None => false,
            Some(request) => {
                request.answered_by(self.station, frame).is_some()
                    && answer_ms <= now.saturating_sub(self.since)
            }
        }
    }
}

impl RequestWatch {
    /// That of a line whose answers are awaited for so long, in ms, before the first request.
    pub(crate) fn new(answer_ms: u64) -> RequestWatch
        ensures { result ≡ spec.new_exchange answer_ms }
    {
        RequestWatch {
            place: None,
            before: None,
            since: 0,
            answer_ms,
            overdue: None,
            awaited: AwaitedAnswer::Nothing,
            request: ArrayVec::new(),
            earlier: EarlierRequest {
                station: 0,
                what: AwaitedAnswer::Nothing,
                since: 0,
            },
            octets: ArrayVec::new(),
            spoiling: Spoiling::Echo,
        }
    }

    /// The place of the station that was asked last.
    pub(crate) fn place(&self) -> Option<usize>
        ensures { result ≡ self.now.place }
    {
        self.place
    }

    /// The place of the station that was asked last before the latest event.
    pub(crate) fn before(&self) -> Option<usize>
        ensures { result ≡ self.now.before }
    {
        self.before
    }

    /// The place of the station that was asked before the latest request, if that exchange had
    /// lasted for as long as an answer is awaited: whose octets were late that were dropped then.
    pub(crate) fn overdue(&self) -> Option<usize>
        ensures { result ≡ self.now.overdue }
    {
        self.overdue
    }

    /// How long after the request before it the latest one went out, in ms.
    pub(crate) fn lag(&self) -> u64
        ensures { result ≡ spec.lag self.now }
    {
        self.since.saturating_sub(self.earlier.since)
    }

    /// What stands in the place of an answer, if the latest octets that came bring none.
    pub(crate) fn spoiling(&self) -> Spoiling
        ensures { result ≡ self.now.spoiling }
    {
        self.spoiling
    }

    /// An event begins.
    pub(crate) fn begin(&mut self)
        ensures { self.new ≡ spec.begun self.old }
    {
        self.before = self.place;
    }

    /// The latest exchange has lasted for as long as an answer is awaited.
    fn is_over(&self, now: u64) -> bool
        ensures { result ≡ spec.is_over now self.now }
    {
        self.answer_ms <= now.saturating_sub(self.since)
    }

    /// A request goes out to the station at this place.
    pub(crate) fn ask(
        &mut self,
        size: LinkSize,
        request: &[u8],
        place: Option<usize>,
        awaited: AwaitedAnswer,
        now: u64,
    )
        ensures { self.new ≡ spec.asked size request.now place awaited now self.old }
    {
        self.earlier = EarlierRequest {
            station: address_of(size, self.request.as_slice()),
            what: awaited_of(self.request.as_slice()),
            since: self.since,
        };
        self.request = kept_of(request);
        self.overdue = if self.is_over(now) { self.place } else { None };
        self.since = now;
        self.place = place;
        self.awaited = awaited;
        self.octets.clear();
    }

    /// Octets came from the line.
    pub(crate) fn receive(&mut self, size: LinkSize, octets: &[u8], now: u64)
        ensures { self.new ≡ spec.received size octets.now now self.old }
    {
        self.hear(octets);
        self.spoiling = self.spoiling_at(size, now);
    }

    /// They are of this exchange.
    fn hear(&mut self, octets: &[u8])
        ensures { self.new ≡ spec.heard octets.now self.old }
    {
        add(&mut self.octets, octets);
    }

    /// What stands in the place of an answer, if what came up to this moment isn't one.
    fn spoiling_at(&self, size: LinkSize, now: u64) -> Spoiling
        ensures { result ≡ spec.spoiling_at size now self.now }
    {
        if self.octets.starts_with(self.request.as_slice()) {
            return Spoiling::Echo;
        }
        front_is_computed();
        match front_ref(size, self.octets.as_slice()) {
            FrontRef::Whole(frame, _) => self.spoiling_by(frame, now),
            FrontRef::More | FrontRef::Never(_, _) => self.octets_alone(),
        }
    }

    /// That, if a frame stands at the front.
    fn spoiling_by(&self, frame: FrameRef<'_>, now: u64) -> Spoiling
        requires { FitsMemory frame }
        ensures { result ≡ spec.spoiling_by (owned frame.entry) now self.now }
    {
        if self.earlier.is_late(frame, self.answer_ms, now) {
            return Spoiling::Late(self.earlier.station, now.saturating_sub(self.earlier.since));
        }
        match frame {
            FrameRef::Single => self.octets_alone(),
            FrameRef::Fixed { a, .. } | FrameRef::Data { a, .. } => Spoiling::Frame(a),
        }
    }

    fn octets_alone(&self) -> Spoiling
        ensures { result ≡ Octets (first_of self.now.octets) }
    {
        Spoiling::Octets(FirstOctets::of(self.octets.as_slice()))
    }

    /// What the station has answered, once that is received.
    pub(crate) fn answer(&self, size: LinkSize, station: u16) -> Option<Option<Answer<'_>>>
        ensures { result ≡ spec.answer_in size station self.now }
    {
        let request = request_for(self.awaited)?;
        answered(size, station, &request, self.octets.as_slice())
    }

    /// The exchange is over.
    pub(crate) fn end(&mut self)
        ensures { self.new ≡ spec.over self.old }
    {
        self.awaited = AwaitedAnswer::Nothing;
    }
}
