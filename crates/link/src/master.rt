//! The primary station of unbalanced transmission (IEC 60870-5-2).
ghost use Rattle.std.specs.Prelude.{◌≡◌, ◌<◌, ◌≤◌, ◌+◌, List, [], All, length, map, take, drop};
ghost use Rattle.std.specs.Prelude.{slice_index, ◌++◌, true, false, None, Some, IfSome, IfNone};
ghost use Rattle.std.specs.Prelude.{IfOk, is_some, option_map, if◌then◌else◌};
ghost use Rattle.std.specs.Io.Iter.{u64_saturate};
ghost use Rattle.link.specs.Turns.{IsPossible, Over, station_at, wished, picked};
ghost use Rattle.ft12.specs.Borrowed.{owned, FitsMemory};
ghost use Rattle.ft12.specs.Fronts.{front_of};
ghost use Rattle.link.specs.Requests.{IsUserData, FitsAddress, FitsAsked};
ghost use Rattle.link.specs.Primary.{start, choice, station_asked, after_choice, asked, sending};
ghost use Rattle.link.specs.Primary.{request_of, acd_of, dfc_of, phase_after, station_answered};
ghost use Rattle.link.specs.Primary.{answered_with, answer_outcome, received, received_outcome};
ghost use Rattle.link.specs.Primary.{station_unanswered, unanswered, miss_outcome, timed_out};
ghost use Rattle.link.specs.Primary.{due_outcome, is_sending_command};
ghost use Rattle.link.specs.Exchanges.{Sending};
ghost use Rattle.link.specs.Runs.{FitsLine};
ghost use Rattle.link.specs.Leave.{is_polling};
ghost use Rattle.link.specs.declared.outcome.Outcome.TheVariants as outcome;
ghost use Rattle.link.specs.Holding.{outstanding_of, IsFittingChoice, frame_after, so_far_after};
ghost use Rattle.link.specs.Holding.{is_at_front, noted, completed, gathered, MayEnd, MayComplete};

mod carrying;
mod restoring;
mod saving;

use crate::answer::Answer;
use crate::awaited::Awaited;
use crate::control::{shows_acd, shows_dfc};
use crate::no_memory::NoMemory;
use crate::outcome::{Outcome, outcome_for};
use crate::procedure::Link;
use crate::request::Request;
use crate::service::{Asked, Service};
use crate::session::SessionState;
use crate::settings::LinkSettings;
use crate::turn::{Chosen, Phase, Pick, StationState, Wanted, Wish, first_wanted, nth_station};
use crate::user::LinkUser;
use ft12::{Assembler, Frame, FrameRef, FrontRef, Received, front_is_computed, front_ref};
use std::alloc::Global;
use std::marker::Model;

/// The primary station of a line: whose turn it is, the request whose answer is awaited, and what
/// is sent next.
#[derive(Drop)]
pub struct Master {
    settings: LinkSettings,
    stations: Vec<StationState>,
    turn: usize,
    phase: Phase,
    again: bool,
    outstanding: Option<Awaited>,
    assembler: Assembler,
    /// How many exchanges were spoilt.
    spoilt: u64,
}

impl Model for Master {
    ghost use Rattle.std.specs.Prelude.{◌≡◌};
    ghost use Rattle.link.specs.Primary.{Primary};
    ghost use Rattle.link.specs.Holding.{outstanding_from, IsFitting};

    ghost Value = { Primary };

    ghost view = { λ m. record {
      settings = m.settings;
      stations = m.stations.items;
      turn = m.turn;
      phase = m.phase;
      again = m.again;
      outstanding = outstanding_from m.outstanding m.assembler.so_far;
      spoilt = m.spoilt;
    } };

    ghost invariant = { λ m. record {
      size : m.assembler.size ≡ m.settings.size;
      fits : IsFitting (record {
        settings = m.settings;
        stations = m.stations.items;
        turn = m.turn;
        phase = m.phase;
        again = m.again;
        outstanding = outstanding_from m.outstanding m.assembler.so_far;
        spoilt = m.spoilt;
      });
    } };
}

impl StationState {
    /// A request goes out to it.
    fn ask(&mut self, request: &Asked)
        ensures { self.new ≡ station_asked self.old request.now }
    {
        self.session.ask(request);
    }

    fn answer(&mut self, request: &Asked, frame: FrameRef<'_>, answer: &Answer<'_>)
        ensures { self.new
            ≡ station_answered self.old request.now (owned frame.entry) answer.now }
    {
        self.link.answer(request, answer);
        // It has its link, or said itself that it hasn't.
        if matches!(request, Asked::Counted(_, _)) {
            self.unsure = false;
        }
        // Each answer counts, whatever it answers: the flags are those of the latest
        // (docs/DECISIONS.md, "ACD when the polls begin").
        self.acd = acd_in(frame);
        self.dfc = dfc_in(frame);
        self.session.answer(request, answer);
    }

    fn miss(&mut self, settings: LinkSettings, request: &Asked)
        ensures { self.new ≡ station_unanswered settings self.old request.now }
    {
        self.link.miss(settings, request);
    }
}

#[tactic(auto, unfolding(crate::specs::Primary::acd_of))]
fn acd_in(frame: FrameRef<'_>) -> bool
    ensures { result ≡ acd_of (owned frame.entry) }
{
    match frame {
        // It has no bits. If class 1 data wait, the next answer with a control octet says so.
        FrameRef::Single => false,
        FrameRef::Fixed { c, .. } | FrameRef::Data { c, .. } => shows_acd(c),
    }
}

#[tactic(auto, unfolding(crate::specs::Primary::dfc_of))]
fn dfc_in(frame: FrameRef<'_>) -> bool
    ensures { result ≡ dfc_of (owned frame.entry) }
{
    match frame {
        FrameRef::Single => false,
        FrameRef::Fixed { c, .. } | FrameRef::Data { c, .. } => shows_dfc(c),
    }
}

fn phase_of(answer: &Answer<'_>, phase: Phase) -> Phase
    ensures { result ≡ phase_after answer.now phase }
{
    match answer {
        // The next station follows (docs/DECISIONS.md, "A station that goes down in mid-turn").
        Answer::Unable => Phase::Over,
        _ => phase,
    }
}

fn phase_missed(again: bool, phase: Phase) -> Phase
    ensures { result ≡ if again then phase else Over }
{
    // A silent station with no repeat left would only hold up the others.
    if again { phase } else { Phase::Over }
}

fn sends_command(outstanding: &Option<Awaited>) -> bool
    ensures { result ≡ is_sending_command
        (option_map (λ a. outstanding_of a None) outstanding.now) }
{
    match outstanding {
        Some(awaited) => matches!(&awaited.request, Asked::Counted(_, Service::Command(_))),
        None => false,
    }
}

fn spoilt_after(spoilt: u64, awaited: &Awaited) -> u64
    ensures { result ≡ if awaited.now.has_octets then u64_saturate (spoilt + 1) else spoilt }
{
    // Silence spoils nothing: the request was lost, or the station isn't there.
    if awaited.has_octets {
        spoilt.saturating_add(1)
    } else {
        spoilt
    }
}

/// The frame that a piece completes, if it does.
fn frame_in(assembler: &mut Assembler, piece: &[u8]) -> Option<Frame>
    ensures frame { result ≡ frame_after
        (front_of assembler.old.size) assembler.old.so_far piece.now }
    ensures so_far { assembler.new.so_far
        ≡ so_far_after (front_of assembler.old.size) assembler.old.so_far piece.now }
    ensures size { assembler.new.size ≡ assembler.old.size }
{
    front_is_computed();
    match assembler.feed(piece).1 {
        Received::Frame(frame) => Some(frame),
        Received::More | Received::Never(_, _) | Received::Deaf => None,
    }
}

/// The single character (IEC 60870-5-1, 6.2.4.2): the one frame that is whole by its first octet.
const SINGLE: u8 = 0xE5;

/// Whether the single character is the first octet.
fn is_single(octets: &[u8]) -> bool
    ensures other { result ≡ false → slice_index octets.now 0 ≡ 0xE5 → ⊥ }
    ensures some { result ≡ true → 0 < length octets.now }
{
    match octets.first() {
        Some(octet) => *octet == SINGLE,
        None => false,
    }
}

/// How many octets of a piece come before one that may end a frame: these are taken.
fn inner_in(assembler: &mut Assembler, piece: &[u8]) -> usize
    ensures within { result ≤ length piece.now }
    ensures all { result ≡ length piece.now →
        (frame_after (front_of assembler.old.size) assembler.old.so_far piece.now ≡ None)
        × (assembler.new.so_far
        ≡ so_far_after (front_of assembler.old.size) assembler.old.so_far piece.now) }
    ensures rest { result < length piece.now → assembler.new.so_far
        ≡ option_map (λ before. before ++ take result piece.now) assembler.old.so_far }
    ensures due { result < length piece.now →
        MayEnd (front_of assembler.old.size) assembler.new.so_far }
    ensures size { assembler.new.size ≡ assembler.old.size }
{
    front_is_computed();
    if assembler.is_empty() && is_single(piece) {
        return 0;
    }
    assembler.feed_inner(piece)
}

impl Master {
    /// A primary station of the stations with these link addresses, in the order of their turns.
    /// Their links are down. It asks for at least one, and for addresses that fit their size. Only
    /// this call and [`Master::reseated`] take memory: `Err` if there is none.
    pub fn new(alloc: Global, settings: LinkSettings, addresses: &[u16]) -> Result<Master, NoMemory>
        requires some { 0 < length addresses.now }
        requires fit { All (FitsAddress settings.size) addresses.now }
        ensures { IfOk result (λ m. m ≡ start settings addresses.now) }
    {
        let mut stations = Vec::new(alloc);
        for address in addresses {
            let station = StationState {
                address: *address,
                // Until a reset is confirmed nobody knows which frame count bit the station has.
                link: Link::Down,
                acd: false,
                dfc: false,
                session: SessionState {
                    number: 0,
                    has_gap: false,
                },
                unsure: false,
            };
            stations.push(station).map_err(|_| NoMemory)?;
        }
        Ok(Master {
            settings,
            stations,
            turn: 0,
            phase: Phase::Starting,
            again: false,
            outstanding: None,
            assembler: Assembler::new(settings.size),
            spoilt: 0,
        })
    }

    /// How many stations the line has.
    pub fn count(&self) -> usize
        ensures { result ≡ length self.now.stations }
    {
        self.stations.len()
    }

    /// What is kept of each station, in the order of the turns.
    pub fn stations(&self) -> &[StationState]
        ensures { result.now ≡ self.now.stations }
    {
        &self.stations
    }

    /// The index of the station whose turn it is.
    pub fn turn(&self) -> usize
        ensures { result ≡ self.now.turn }
    {
        self.turn
    }

    /// The request to that station whose answer is awaited, if there is one.
    pub fn awaited(&self) -> Option<&Asked>
        ensures { option_map (λ a. a.now) result
            ≡ option_map (λ o. o.request) self.now.outstanding }
    {
        match &self.outstanding {
            Some(awaited) => Some(&awaited.request),
            None => None,
        }
    }

    /// How many exchanges were spoilt so far, at most `u64::MAX`: octets came in them, but no
    /// answer before `due` ended them.
    pub fn spoilt(&self) -> u64
        ensures { result ≡ self.now.spoilt }
    {
        self.spoilt
    }

    fn choose<U: LinkUser>(&self, may_poll: bool, user: &U) -> Option<Pick>
        ensures chosen { option_map (picked self.now.stations (U.waiting user.now)) result
            ≡ choice self.now may_poll (U.waiting user.now) }
        ensures in_range { IfSome result (λ pick. pick.station < length self.now.stations) }
        ensures possible { IfSome result (λ pick.
            IsPossible (station_at self.now.stations pick.station)
            (U.waiting user.now pick.station) pick.wish) }
    {
        let station = nth_station(&self.stations, self.turn);
        let burst = self.settings.burst;
        match station.wish(burst, may_poll, self.again, self.phase, user, self.turn) {
            Some(wish) => Some(Pick {
                station: self.turn,
                wish,
            }),
            None => first_wanted(&self.stations, burst, may_poll, self.turn, user),
        }
    }

    /// Whether a request is outstanding, so that there is no next one.
    pub fn is_awaiting(&self) -> bool
        ensures { result ≡ is_some self.now.outstanding }
    {
        self.outstanding.is_some()
    }

    /// Whether the outstanding request is a poll, or an unanswered poll is to be sent again at
    /// once.
    pub fn is_polling(&self) -> bool
        ensures { result ≡ is_polling self.now }
    {
        match &self.outstanding {
            Some(awaited) => matches!(
                awaited.request,
                Asked::Counted(_, Service::Class1 | Service::Class2)
            ),
            // The repeat needs no new leave: nothing else filled the queue while its poll was out.
            None => self.again && self.stations[self.turn].link.holds_poll(),
        }
    }

    /// The next request, at this moment in milliseconds: none if one is outstanding, or no station
    /// has any. With `may_poll` false no data are asked for, save by a poll that is unanswered and
    /// sent again at once. The request is to be put on the line: its exchange begins now. A command
    /// that goes out for the first time is the one that waits for its station. Its user has to see
    /// to it that it waits no more.
    pub fn next<U: LinkUser>(&mut self, now: u64, may_poll: bool, user: &U) -> Option<Request>
        ensures state { self.new ≡ asked self.old now may_poll (U.waiting user.now) }
        ensures request { result ≡ option_map (request_of self.old)
            (sending self.old may_poll (U.waiting user.now)) }
        ensures fits { FitsLine self.old may_poll (U.waiting user.now) }
    {
        if self.is_awaiting() {
            return None;
        }
        self.begin_next(now, may_poll, user)
    }

    /// As `next`, while no request is outstanding.
    fn begin_next<U: LinkUser>(&mut self, now: u64, may_poll: bool, user: &U) -> Option<Request>
        requires { self.old.outstanding ≡ None }
        ensures state { self.new ≡ asked self.old now may_poll (U.waiting user.now) }
        ensures request { result ≡ option_map (request_of self.old)
            (sending self.old may_poll (U.waiting user.now)) }
        ensures fits { FitsLine self.old may_poll (U.waiting user.now) }
    {
        let Some(Pick { station, wish }) = self.choose(may_poll, user) else {
            // The turn has ended, though no request shows it (docs/DECISIONS.md, "A call that
            // finds no request").
            self.phase = Phase::Over;
            self.again = false;
            return None;
        };
        let wanted = match wish {
            Wish::PollClass1(fcb, sent) => Wanted {
                request: Asked::Counted(fcb, Service::Class1),
                following: Phase::Class1Polling(sent),
            },
            Wish::PollClass2(fcb) => Wanted {
                request: Asked::Counted(fcb, Service::Class2),
                following: Phase::Class1Polling(0),
            },
            _ => return Some(self.begin_other(now, station, wish, user)),
        };
        Some(self.begin(now, Chosen { station, wanted }))
    }

    /// As `begin`, for any wish.
    fn begin_other<U: LinkUser>(
        &mut self,
        now: u64,
        station: usize,
        wish: Wish,
        user: &U,
    ) -> Request
        requires in_range { station < length self.old.stations }
        requires possible { IsPossible (station_at self.old.stations station)
            (U.waiting user.now station) wish }
        ensures state { self.new ≡ after_choice self.old now (Some (record {
          station = station;
          wanted =
              wished (station_at self.old.stations station) (U.waiting user.now station) wish;
        })) }
        ensures request { result ≡ request_of self.old (record {
          station = station;
          request = (wished (station_at self.old.stations station)
              (U.waiting user.now station) wish).request;
        }) }
        ensures fits { FitsAsked self.old.settings.size (wished
            (station_at self.old.stations station) (U.waiting user.now station) wish).request }
    {
        let wanted = nth_station(&self.stations, station).wanted(wish, user, station);
        self.begin(now, Chosen { station, wanted })
    }

    #[inline(always)]
    fn begin(&mut self, now: u64, chosen: Chosen) -> Request
        requires { IsFittingChoice self.old (Some chosen) }
        ensures state { self.new ≡ after_choice self.old now (Some chosen) }
        ensures request { result ≡ request_of self.old (record {
          station = chosen.station;
          request = chosen.wanted.request;
        }) }
    {
        let Chosen { station, wanted } = chosen;
        let there = nth_station(&self.stations, station);
        let request = Request {
            octets: wanted.request.octets(self.settings.size, there.address),
            station,
            kind: wanted.request.kind(),
            again: there.link.is_held(),
        };
        self.stations[station].ask(&wanted.request);
        self.turn = station;
        self.phase = wanted.following;
        self.again = false;
        self.outstanding = Some(Awaited {
            request: wanted.request,
            since: now,
            deaf: false,
            has_octets: false,
        });
        // Half an answer to an earlier request is no beginning of the answer to this one.
        self.assembler.clear();
        request
    }

    /// Whether a request is outstanding, and no octet of its answer has come.
    fn is_at_front(&self) -> bool
        ensures { result ≡ is_at_front self.now }
    {
        match &self.outstanding {
            Some(awaited) => !awaited.deaf && self.assembler.is_empty(),
            None => false,
        }
    }

    /// Receives octets of the line, in any pieces, and says what came of the exchange: its answer
    /// is the frame at the front of its octets. Those that come while no request is outstanding are
    /// dropped, and so are those after an answer or after what can't be one. A report is lent: from
    /// the octets if the whole answer stands there, and else from `room`, into which an answer is
    /// put that came in pieces. Whoever has no room to give for each piece calls the parts of this
    /// one: `receive_whole`, `gather_inner`, `gather` and `receive`, in this order.
    pub fn octets<'a>(&mut self, octets: &'a [u8], room: &'a mut Option<Frame>) -> Outcome<'a>
        ensures state { self.new ≡ received (front_of self.old.settings.size) self.old octets.now }
        ensures outcome { result
            ≡ received_outcome (front_of self.old.settings.size) self.old octets.now }
    {
        // A place is filled only by the octet that ends an answer (docs/DECISIONS.md, "A place for
        // an answer").
        if let Some(outcome) = self.receive_whole(octets) {
            return outcome;
        }
        let inner = self.gather_inner(octets);
        if inner == octets.len() {
            return Outcome::None;
        }
        *room = self.gather(&octets[inner..]);
        match room {
            Some(frame) => self.receive(frame.lent()),
            None => Outcome::None,
        }
    }

    /// A part of `octets`. Receives octets of the line with a whole frame at their front, if a
    /// request is outstanding and these are the first octets that come: that is its answer. Else
    /// nothing is received, and nothing changes.
    pub fn receive_whole<'a>(&mut self, octets: &'a [u8]) -> Option<Outcome<'a>>
        ensures whole { IfSome result (λ outcome.
            (self.new ≡ received (front_of self.old.settings.size) self.old octets.now)
            × (outcome
            ≡ received_outcome (front_of self.old.settings.size) self.old octets.now)) }
        ensures none { IfNone result (self.new ≡ self.old) }
    {
        front_is_computed();
        if !self.is_at_front() {
            return None;
        }
        let FrontRef::Whole(frame, _) = front_ref(self.settings.size, octets) else {
            return None;
        };
        self.note(octets);
        Some(self.receive(frame))
    }

    /// Octets come in the exchange.
    fn note(&mut self, octets: &[u8])
        ensures { self.new ≡ noted octets.now self.old }
    {
        if let Some(awaited) = &mut self.outstanding {
            awaited.note(octets);
        }
    }

    /// A part of `octets`. Gathers octets of the line up to one that may be the last of the answer,
    /// and says how many: all if none may. The others are to be gathered as well
    /// ([`Master::gather`]), and then what is received is what all of them say. It makes no place
    /// for a frame, so it is the first call for octets that aren't a whole answer.
    pub fn gather_inner(&mut self, octets: &[u8]) -> usize
        ensures within { result ≤ length octets.now }
        ensures all { result ≡ length octets.now → (self.new
            ≡ received (front_of self.old.settings.size) self.old octets.now)
            × (received_outcome (front_of self.old.settings.size) self.old octets.now
            ≡ outcome.None) }
        ensures state { result < length octets.now →
            self.new ≡ gathered result octets.now self.old }
        ensures rest { result < length octets.now →
            (received (front_of self.old.settings.size) self.new (drop result octets.now)
            ≡ received (front_of self.old.settings.size) self.old octets.now)
            × (received_outcome (front_of self.old.settings.size) self.new (drop result octets.now)
            ≡ received_outcome (front_of self.old.settings.size) self.old octets.now) }
        ensures due { result < length octets.now →
            MayComplete (front_of self.old.settings.size) self.new }
    {
        self.note(octets);
        match &self.outstanding {
            Some(awaited) if !awaited.deaf => inner_in(&mut self.assembler, octets),
            _ => octets.len(),
        }
    }

    /// A part of `octets`. Gathers octets of the line, in any pieces, up to the frame that is the
    /// answer: the one at the front of the octets of the exchange. Those that come while no request
    /// is outstanding, and those after an answer or after what can't be one, are dropped. The frame
    /// is to be received ([`Master::receive`]).
    #[inline(never)]
    pub fn gather(&mut self, octets: &[u8]) -> Option<Frame>
        ensures frame { result ≡ completed (front_of self.old.settings.size) self.old octets.now }
        ensures whole { IfSome result (λ frame. (answered_with self.new self.new.outstanding frame
            ≡ received (front_of self.old.settings.size) self.old octets.now)
            × (answer_outcome self.new self.new.outstanding frame
            ≡ received_outcome (front_of self.old.settings.size) self.old octets.now)) }
        ensures none { IfNone result ((self.new
            ≡ received (front_of self.old.settings.size) self.old octets.now)
            × (received_outcome (front_of self.old.settings.size) self.old octets.now
            ≡ outcome.None)) }
    {
        self.note(octets);
        match &self.outstanding {
            Some(awaited) if !awaited.deaf => frame_in(&mut self.assembler, octets),
            _ => None,
        }
    }

    /// A part of `octets`. Receives the frame that is the answer to the outstanding request, and
    /// says what came of the exchange. Asks for at most 253 octets of data.
    #[inline(always)]
    pub fn receive<'a>(&mut self, frame: FrameRef<'a>) -> Outcome<'a>
        requires { FitsMemory frame }
        ensures state { self.new ≡ answered_with self.old self.old.outstanding (owned frame.entry) }
        ensures outcome { result
            ≡ answer_outcome self.old self.old.outstanding (owned frame.entry) }
    {
        match self.outstanding.take() {
            None => Outcome::None,
            Some(awaited) => self.receive_for(awaited, frame),
        }
    }

    #[inline(always)]
    fn receive_for<'a>(&mut self, awaited: Awaited, frame: FrameRef<'a>) -> Outcome<'a>
        requires none { self.old.outstanding ≡ None }
        requires fits { FitsAsked self.old.settings.size awaited.request }
        requires short { FitsMemory frame }
        ensures state { answered_with self.old (Some (outstanding_of awaited None))
            (owned frame.entry) ≡ self.new }
        ensures outcome { result ≡ answer_outcome self.old
            (Some (outstanding_of awaited None)) (owned frame.entry) }
    {
        let place = self.turn;
        let there = nth_station(&self.stations, place);
        // Asked for first: with the answer to a reset the next session begins, and the gap is of
        // the one before.
        let gap = there.session.gap();
        match awaited.request.answered_by(there.address, frame) {
            // Deaf until the timeout: behind a frame that doesn't fit, nothing says which request
            // the next one answers.
            None => {
                self.outstanding = Some(Awaited {
                    request: awaited.request,
                    since: awaited.since,
                    deaf: true,
                    has_octets: awaited.has_octets,
                });
                Outcome::None
            }
            Some(answer) => {
                self.stations[place].answer(&awaited.request, frame, &answer);
                self.phase = phase_of(&answer, self.phase);
                self.again = false;
                outcome_for(place, gap, &awaited.request, answer)
            }
        }
    }

    /// Ends, as unanswered, an exchange that is outstanding if this moment, in milliseconds, is at
    /// least `answer_ms` past its request. `Down` if the station's link is given up: with `hold`
    /// false, after one sending and its repeats.
    pub fn due(&mut self, now: u64) -> Outcome<'static>
        ensures state { self.new ≡ timed_out self.old now }
        ensures outcome { result ≡ due_outcome self.old now }
    {
        let Some(late) = &self.outstanding else {
            return Outcome::None;
        };
        if now < late.since || now - late.since < self.settings.answer_ms {
            return Outcome::None;
        }
        match self.outstanding.take() {
            None => Outcome::None,
            Some(awaited) => {
                if self.miss(&awaited) {
                    Outcome::Down(self.turn)
                } else {
                    Outcome::None
                }
            }
        }
    }

    /// The request has no answer in time. Whether the station's link is given up. It stands apart,
    /// so that a look at the clock makes no place for it.
    #[inline(never)]
    fn miss(&mut self, awaited: &Awaited) -> bool
        requires none { self.old.outstanding ≡ None }
        requires fits { FitsAsked self.old.settings.size awaited.now.request }
        ensures state { self.new ≡ unanswered self.old (outstanding_of awaited.now None) }
        ensures outcome { miss_outcome self.old awaited.now.request
            ≡ if result then outcome.Down self.new.turn else outcome.None }
    {
        let place = self.turn;
        let settings = self.settings;
        self.stations[place].miss(settings, &awaited.request);
        let station = nth_station(&self.stations, place);
        let again = station.link.has_repeats(settings);
        let down = station.link.is_lost(&awaited.request);
        self.spoilt = spoilt_after(self.spoilt, awaited);
        self.phase = phase_missed(again, self.phase);
        self.again = again;
        down
    }
}
