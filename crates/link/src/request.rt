//! Requests as frames and octets.
ghost use Rattle.std.specs.Prelude.{◌≡◌, ◌≤◌, ◌<◌, [], length};
ghost use Rattle.ft12.specs.declared.frame.LinkSize.TheVariants.{Two};
ghost use Rattle.ft12.specs.Borrowed.{owned};
ghost use Rattle.ft12.specs.Spelling.{spelling, spelling_len};
ghost use Rattle.link.specs.Control.{primary_code};
ghost use Rattle.link.specs.declared.request.Reading.TheVariants as reading;
ghost use Rattle.link.specs.Received.{with_data as joined};
ghost use Rattle.link.specs.Requests.{counted_control, plain_control, request_frame, FitsAddress};
ghost use Rattle.link.specs.Requests.{FitsAsked, service_kind, kind_of, counted_reading};
ghost use Rattle.link.specs.Requests.{plain_reading, short_by, data_by, reading_of};

use crate::control::{Control, PrimaryFunction};
use crate::received_request::ReceivedRequest;
use crate::service::{Asked, Service};
use arrayvec::ArrayVec;
use ft12::{Frame, FrameRef, LinkSize, encode_ref};

/// How many octets a request has at most: those of a command between four before the control octet,
/// the control octet, two of an address, and two behind the data.
const LONGEST_REQUEST: usize = 21;

/// What a request asks for.
#[derive(Clone, Copy, Debug, PartialEq, Eq)]
pub enum RequestKind {
    /// The status of the link.
    Status,
    /// To reset the link.
    Reset,
    /// Data of class 1.
    Class1,
    /// Data of class 2.
    Class2,
    /// To take a command.
    Command,
}

/// A request that is put on the line.
#[derive(Drop)]
pub struct Request {
    /// Its octets.
    pub octets: ArrayVec<u8, LONGEST_REQUEST>,
    /// The index of its station.
    pub station: usize,
    /// What it asks for.
    pub kind: RequestKind,
    /// It is the repeat of an unanswered request with a valid frame count bit.
    pub again: bool,
}

/// What a frame asks of a station.
#[derive(Drop)]
pub enum Reading {
    /// It is no request to the station.
    Foreign,
    /// A request that the station doesn't know.
    Unknown,
    /// A request.
    Asks(ReceivedRequest),
}

impl Service {
    fn kind(&self) -> RequestKind
        ensures { result ≡ service_kind self.now }
    {
        match self {
            Service::Class1 => RequestKind::Class1,
            Service::Class2 => RequestKind::Class2,
            Service::Command(_) => RequestKind::Command,
        }
    }
}

/// The control octet of a request whose frame count bit is valid.
fn counted_control(fcb: bool, function: PrimaryFunction) -> u8
    ensures { result ≡ counted_control fcb function }
{
    let control = Control::Primary {
        reserved: false,
        fcb,
        fcv: true,
        function,
    };
    control.octet()
}

/// The control octet of a request without a frame count bit.
fn plain_control(function: PrimaryFunction) -> u8
    ensures { result ≡ plain_control function }
{
    let control = Control::Primary {
        reserved: false,
        // A bit that isn't valid is sent as 0 (IEC 60870-5-2, 5.1.2).
        fcb: false,
        fcv: false,
        function,
    };
    control.octet()
}

impl Asked {
    /// What it asks for, in one word.
    pub fn kind(&self) -> RequestKind
        ensures { result ≡ kind_of self.now }
    {
        match self {
            Asked::Status => RequestKind::Status,
            Asked::Reset => RequestKind::Reset,
            Asked::Counted(_, service) => service.kind(),
        }
    }

    /// Its frame, with the octets of its command lent.
    fn frame(&self, address: u16) -> FrameRef<'_>
        ensures frame { owned result ≡ request_frame address self.now }
        ensures short { spelling_len Two (owned result) ≤ 21 }
    {
        match self {
            Asked::Status => FrameRef::Fixed {
                c: plain_control(PrimaryFunction::LinkStatus),
                a: address,
            },
            Asked::Reset => FrameRef::Fixed {
                c: plain_control(PrimaryFunction::ResetLink),
                a: address,
            },
            Asked::Counted(fcb, Service::Class1) => FrameRef::Fixed {
                c: counted_control(*fcb, PrimaryFunction::Class1),
                a: address,
            },
            Asked::Counted(fcb, Service::Class2) => FrameRef::Fixed {
                c: counted_control(*fcb, PrimaryFunction::Class2),
                a: address,
            },
            Asked::Counted(fcb, Service::Command(command)) => FrameRef::Data {
                c: counted_control(*fcb, PrimaryFunction::UserData),
                a: address,
                body: command.octets(),
            },
        }
    }

    /// The octets of this request to the station with this address.
    #[inline(always)]
    pub fn octets(&self, size: LinkSize, address: u16) -> ArrayVec<u8, LONGEST_REQUEST>
        requires address { FitsAddress size address }
        requires fits { FitsAsked size self.now }
        ensures { result.items ≡ spelling size (request_frame address self.now) }
    {
        encode_ref(size, self.frame(address))
    }
}

/// A request without user data.
fn asks(request: Asked) -> Reading
    ensures { result ≡ reading.Asks (joined [] request) }
{
    Reading::Asks(ReceivedRequest::bare(request))
}

fn counted(fcb: bool, function: PrimaryFunction) -> Reading
    ensures { result ≡ counted_reading fcb (primary_code function) }
{
    match function {
        PrimaryFunction::Class1 => asks(Asked::Counted(fcb, Service::Class1)),
        PrimaryFunction::Class2 => asks(Asked::Counted(fcb, Service::Class2)),
        _ => Reading::Unknown,
    }
}

fn plain(function: PrimaryFunction) -> Reading
    ensures { result ≡ plain_reading (primary_code function) }
{
    match function {
        PrimaryFunction::LinkStatus => asks(Asked::Status),
        PrimaryFunction::ResetLink => asks(Asked::Reset),
        _ => Reading::Unknown,
    }
}

fn short(fcb: bool, fcv: bool, function: PrimaryFunction) -> Reading
    ensures { result ≡ short_by fcb fcv (primary_code function) }
{
    if fcv {
        counted(fcb, function)
    } else {
        plain(function)
    }
}

fn with_data(fcb: bool, fcv: bool, function: PrimaryFunction, octets: &[u8]) -> Reading
    requires { length octets.now ≤ 253 }
    ensures { result ≡ data_by fcb fcv (primary_code function) octets.now }
{
    // A command without octets is none that could be taken (docs/DECISIONS.md, "What `Station`
    // doesn't take").
    if octets.is_empty() {
        return Reading::Unknown;
    }
    match function {
        PrimaryFunction::UserData if fcv => Reading::Asks(ReceivedRequest::command(fcb, octets)),
        _ => Reading::Unknown,
    }
}

/// What the frame asks of the station with this address.
pub fn read_request(station: u16, frame: &Frame) -> Reading
    ensures { result ≡ reading_of station frame.now }
{
    match frame {
        // It has no address, and no request is one.
        Frame::Single => Reading::Foreign,
        Frame::Fixed { c, a } => match Control::from_octet(*c) {
            Control::Primary {
                fcb,
                fcv,
                function,
                ..
            } if *a == station => short(fcb, fcv, function),
            _ => Reading::Foreign,
        },
        Frame::Data { c, a, body } => match Control::from_octet(*c) {
            Control::Primary {
                fcb,
                fcv,
                function,
                ..
            } if *a == station => with_data(fcb, fcv, function, body.as_slice()),
            _ => Reading::Foreign,
        },
    }
}
