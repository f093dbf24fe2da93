//! A secondary station of unbalanced transmission (IEC 60870-5-2).
ghost use Rattle.std.specs.Prelude.{◌≡◌, ◌<◌, ◌≤◌, ◌+◌, ◌^◌, ◌∷◌, ◌++◌, [], List, ℕ, length, map};
ghost use Rattle.std.specs.Prelude.{true, IfSome, OnOk, OnErr};
ghost use Rattle.std.specs.Bool.{OnTrue, OnFalse};
ghost use Rattle.ft12.specs.Spelling.{Fits};
ghost use Rattle.link.specs.declared.service.Asked.TheVariants as Asked;
ghost use Rattle.link.specs.Requests.{FitsAddress, FitsFrame};
ghost use Rattle.link.specs.Received.{service_with};
ghost use Rattle.link.specs.Control.{secondary_code as number};
ghost use Rattle.link.specs.declared.control.SecondaryFunction.TheVariants as function;
ghost use Rattle.link.specs.Life.{Report1, Report2, called};
ghost use Rattle.link.specs.Secondary.{served_class1, served_class2, served_command, control_of};
ghost use Rattle.link.specs.Secondary.{short_of, data_frame, one_more_given, is_same, IsServed};
ghost use Rattle.link.specs.Secondary.{IsCommandServed, IsReadingReceived, with_frame};
ghost use Rattle.link.specs.Secondary.{ReceivesOctets};
ghost use Rattle.link.specs.Secondary.{fresh_station};

use crate::asdu::UserData;
use crate::control::{Control, SecondaryFunction};
use crate::no_memory::NoMemory;
use crate::received_request::ReceivedRequest;
use crate::request::{Reading, read_request};
use crate::service::{Asked, Service};
use arrayvec::ArrayVec;
use ft12::{Frame, Front, LinkSize, front};
use std::alloc::Global;
use std::collections::VecDeque;
use std::marker::Model;

/// A secondary station: the link to its primary, the reports of each class that wait, and the
/// commands that it accepted.
#[derive(Drop)]
pub struct Station {
    alloc: Global,
    size: LinkSize,
    address: u16,
    bit: Option<bool>,
    last: Option<Frame>,
    class1: VecDeque<UserData>,
    class2: VecDeque<UserData>,
    accepted: Vec<Vec<u8>>,
    given: u64,
}

impl Model for Station {
    ghost use Rattle.std.specs.Prelude.{◌<◌, ◌^◌, map, IfSome};
    ghost use Rattle.std.specs.List.{AllByRecursion};
    ghost use Rattle.ft12.specs.Spelling.{Fits};
    ghost use Rattle.link.specs.Requests.{FitsAddress, FitsFrame};
    ghost use Rattle.link.specs.Secondary.{Secondary};

    ghost Value = { Secondary };

    ghost view = { λ s. record {
      size = s.size;
      address = s.address;
      bit = s.bit;
      last = s.last;
      class1 = s.class1.items;
      class2 = s.class2.items;
      accepted = map (λ v. v.items) s.accepted.items;
      given = s.given;
    } };

    ghost invariant = { λ s. record {
      address : FitsAddress s.size s.address;
      last : IfSome s.last (Fits s.size);
      class1 : AllByRecursion (FitsFrame s.size) s.class1.items;
      class2 : AllByRecursion (FitsFrame s.size) s.class2.items;
    } };
}

fn same(a: bool, b: bool) -> bool
    ensures { result ≡ is_same a b }
{
    a == b
}

fn copy_of(frame: &Frame) -> Frame
    ensures { result ≡ frame.now }
{
    match frame {
        Frame::Single => Frame::Single,
        Frame::Fixed { c, a } => Frame::Fixed { c: *c, a: *a },
        Frame::Data { c, a, body } => Frame::Data {
            c: *c,
            a: *a,
            body: ArrayVec::try_from(body.as_slice()).unwrap(),
        },
    }
}

impl Station {
    /// A station that was never reset and has nothing to report. Its address is to fit the size. It
    /// takes memory as reports and commands come.
    pub fn new(alloc: Global, size: LinkSize, address: u16) -> Station
        requires { FitsAddress size address }
        ensures { result ≡ fresh_station size address }
    {
        Station {
            alloc,
            size,
            address,
            bit: None,
            last: None,
            class1: VecDeque::new(alloc),
            class2: VecDeque::new(alloc),
            accepted: Vec::new(alloc),
            given: 0,
        }
    }

    /// The control octet of an answer.
    fn control(&self, by: SecondaryFunction) -> u8
        ensures { result ≡ control_of (number by) self.now.class1 }
    {
        let control = Control::Secondary {
            reserved: false,
            // As it is behind this answer: the report that goes with it waits no more.
            acd: !self.class1.is_empty(),
            dfc: false,
            function: by,
        };
        control.octet()
    }

    fn short(&self, by: SecondaryFunction) -> Frame
        ensures frame { result ≡ short_of (number by) self.now.address self.now.class1 }
        ensures fits { Fits self.now.size result }
    {
        // The single character can't show ACD.
        if self.class1.is_empty() {
            Frame::Single
        } else {
            Frame::Fixed {
                c: self.control(by),
                a: self.address,
            }
        }
    }

    /// Keeps an answer to a new service, and gives it.
    fn keep(&mut self, fcb: bool, frame: Frame) -> Option<Frame>
        requires { Fits self.old.size frame }
        ensures state { self.new ≡ with_frame self.old fcb frame }
        ensures answer { result ≡ Some frame }
        ensures fits { IfSome result (Fits self.old.size) }
    {
        self.bit = Some(fcb);
        // For a repeat with the same bit, which gets this very answer (IEC 60870-5-2, 5.1.2).
        self.last = Some(copy_of(&frame));
        Some(frame)
    }

    fn give(&mut self, fcb: bool, report: UserData) -> Option<Frame>
        requires { FitsFrame self.old.size report }
        ensures state { self.new ≡ record
            (with_frame self.old fcb (data_frame
            (control_of (number function.UserData) self.old.class1) self.old.address report)) {
              given =
                  one_more_given self.old.given;
            } }
        ensures answer { result ≡ Some (data_frame
            (control_of (number function.UserData) self.old.class1) self.old.address report) }
        ensures fits { IfSome result (Fits self.old.size) }
    {
        self.given = self.given.saturating_add(1);
        let frame = Frame::Data {
            c: self.control(SecondaryFunction::UserData),
            a: self.address,
            body: report.into_octets(),
        };
        self.keep(fcb, frame)
    }

    fn serve_class1(&mut self, fcb: bool) -> Option<Frame>
        ensures state { self.new ≡ (served_class1 self.old fcb self.old.class1).state }
        ensures answer { result ≡ (served_class1 self.old fcb self.old.class1).turn.answer }
        ensures fits { IfSome result (Fits self.old.size) }
    {
        match self.class1.pop_front() {
            Some(report) => self.give(fcb, report),
            None => {
                let frame = self.short(SecondaryFunction::NoData);
                self.keep(fcb, frame)
            }
        }
    }

    fn serve_class2(&mut self, fcb: bool) -> Option<Frame>
        ensures state { self.new ≡ (served_class2 self.old fcb self.old.class2).state }
        ensures answer { result ≡ (served_class2 self.old fcb self.old.class2).turn.answer }
        ensures fits { IfSome result (Fits self.old.size) }
    {
        match self.class2.pop_front() {
            Some(report) => self.give(fcb, report),
            None => {
                let frame = self.short(SecondaryFunction::NoData);
                self.keep(fcb, frame)
            }
        }
    }

    fn accept(&mut self, asdu: &UserData) -> bool
        ensures taken { OnTrue result
            (self.new ≡ record self.old { accepted = self.old.accepted ++ asdu.now ∷ [] }) }
        ensures refused { OnFalse result (self.new ≡ self.old) }
    {
        match Vec::from_slice(self.alloc, asdu.octets()) {
            Ok(octets) => self.accepted.push(octets).is_ok(),
            Err(_) => false,
        }
    }

    fn serve_command(&mut self, fcb: bool, asdu: &UserData) -> Option<Frame>
        ensures served { IsCommandServed self.old fcb asdu.now result self.new }
        ensures fits { IfSome result (Fits self.old.size) }
    {
        if self.accept(asdu) {
            let frame = self.short(SecondaryFunction::Confirm);
            self.keep(fcb, frame)
        } else {
            // Busy says that the command wasn't taken, which is what want of memory means here.
            let frame = Frame::Fixed {
                c: self.control(SecondaryFunction::Busy),
                a: self.address,
            };
            self.keep(fcb, frame)
        }
    }

    fn again(&self) -> Option<Frame>
        ensures same { result ≡ self.now.last }
        ensures fits { IfSome result (Fits self.now.size) }
    {
        match &self.last {
            Some(frame) => Some(copy_of(frame)),
            None => None,
        }
    }

    /// Serves a service with these octets, which count if it is a command.
    fn serve_counted(&mut self, fcb: bool, service: &Service, asdu: &UserData) -> Option<Frame>
        ensures served { IsServed self.old
            (Asked.Counted fcb (service_with asdu.now service.now)) result self.new }
        ensures fits { IfSome result (Fits self.old.size) }
    {
        match self.bit {
            // There is no bit to compare with before the first reset.
            None => None,
            Some(bit) if same(fcb, bit) => self.again(),
            Some(_) => match service {
                Service::Class1 => self.serve_class1(fcb),
                Service::Class2 => self.serve_class2(fcb),
                Service::Command(_) => self.serve_command(fcb, asdu),
            },
        }
    }

    /// Answers a request to this station.
    fn serve(&mut self, request: &ReceivedRequest) -> Option<Frame>
        ensures served { IsServed self.old request.now result self.new }
        ensures fits { IfSome result (Fits self.old.size) }
    {
        match &request.bare {
            Asked::Status => Some(Frame::Fixed {
                c: self.control(SecondaryFunction::LinkStatus),
                a: self.address,
            }),
            Asked::Reset => {
                self.bit = Some(false);
                // An answer from before the reset belongs to no service behind it.
                self.last = None;
                Some(self.short(SecondaryFunction::Confirm))
            }
            Asked::Counted(fcb, service) => self.serve_counted(*fcb, service, &request.asdu),
        }
    }

    fn answer(&mut self, reading: &Reading) -> Option<Frame>
        ensures served { IsReadingReceived self.old reading.now result self.new }
        ensures fits { IfSome result (Fits self.old.size) }
    {
        match reading {
            // Silence: an answer would collide with that of the station which was asked.
            Reading::Foreign => None,
            Reading::Unknown => Some(Frame::Fixed {
                c: self.control(SecondaryFunction::NotImplemented),
                a: self.address,
            }),
            Reading::Asks(request) => self.serve(request),
        }
    }

    /// Receives octets: answers a whole frame with PRM 1 to its own address, and nothing else. An
    /// unchanged frame count bit gives the last answer again. With a new one a poll gives the
    /// oldest report of its class, and a command is accepted, or answered that the station is busy
    /// if memory is refused. Requests that it doesn't know are answered that they aren't
    /// implemented.
    pub fn receive(&mut self, octets: &[u8]) -> Option<Frame>
        ensures arrived { ReceivesOctets self.old octets.now result self.new }
        ensures fits { IfSome result (Fits self.old.size) }
    {
        let Front::Whole(frame, len) = front(self.size, octets) else {
            return None;
        };
        // More than one frame is no request (docs/DECISIONS.md, "What `Station` doesn't take").
        if len != octets.len() {
            return None;
        }
        let reading = read_request(self.address, &frame);
        self.answer(&reading)
    }

    /// The size of addresses on its line.
    pub fn size(&self) -> LinkSize
        ensures { result ≡ self.now.size }
    {
        self.size
    }

    /// Has a report of class 1, after those that it has: at most 253 octets (252 with two-octet
    /// addresses). If there is no memory, nothing changes.
    pub fn report1(&mut self, report: &[u8]) -> Result<(), NoMemory>
        requires { FitsFrame self.old.size report.now }
        ensures ok { OnOk result (self.new ≡ called self.old (Report1 true report.now)) }
        ensures err { OnErr result (self.new ≡ self.old) }
    {
        match self.class1.push_back(UserData::new(report)) {
            Ok(()) => Ok(()),
            Err(_) => Err(NoMemory),
        }
    }

    /// Has a report of class 2, after those that it has: at most 253 octets (252 with two-octet
    /// addresses). If there is no memory, nothing changes.
    pub fn report2(&mut self, report: &[u8]) -> Result<(), NoMemory>
        requires { FitsFrame self.old.size report.now }
        ensures ok { OnOk result (self.new ≡ called self.old (Report2 true report.now)) }
        ensures err { OnErr result (self.new ≡ self.old) }
    {
        match self.class2.push_back(UserData::new(report)) {
            Ok(()) => Ok(()),
            Err(_) => Err(NoMemory),
        }
    }

    /// The data of the commands that it accepted, the oldest first.
    pub fn accepted(&self) -> &[Vec<u8>]
        ensures { map (λ v. v.items) result.now ≡ self.now.accepted }
    {
        self.accepted.as_slice()
    }

    /// How many reports it gave so far, repeats not counted, at most `u64::MAX`.
    pub fn given(&self) -> u64
        ensures { result ≡ self.now.given }
    {
        self.given
    }
}
