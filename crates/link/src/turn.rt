//! Turns: what is sent next, and to which station.
ghost use Rattle.std.specs.Prelude.{◌≡◌, ◌<◌, List, length, option_map, IfSome, is_some, true};
ghost use Rattle.link.specs.Procedure.{is_held};
ghost use Rattle.link.specs.Turns.{is_poll, wanted_poll, polls_from, commands_from, next_of};
ghost use Rattle.link.specs.Turns.{wanted, wished, command_request, held_request, picked};
ghost use Rattle.link.specs.Turns.{station_at, IsPossible, place_after, first_after};
ghost use Rattle.link.specs.Requests.{FitsAsked};
ghost use Rattle.link.specs.Holding.{FitsLink};
ghost use Rattle.ft12.specs.declared.frame.LinkSize.{LinkSize};

use crate::asdu::CommandOctets;
use crate::procedure::Link;
use crate::service::{Asked, Service};
use crate::session::SessionState;
use crate::user::LinkUser;

/// How far the present turn is.
#[derive(Clone, Copy)]
pub enum Phase {
    /// Nothing was sent in it, or the station is being started.
    Starting,
    /// A command is next.
    Commanding,
    /// Polls are next.
    Polling,
    /// So many class 1 polls were sent.
    Class1Polling(u8),
    /// It is over.
    Over,
}

/// What the primary keeps of a station.
#[derive(Drop)]
pub struct StationState {
    pub address: u16,
    pub link: Link,
    /// ACD of its latest answer: class 1 data wait there.
    pub acd: bool,
    /// DFC of its latest answer: it takes no more user data.
    pub dfc: bool,
    /// Its latest session.
    pub session: SessionState,
    /// It may have been restarted: a restart stands behind it, and it has answered no service
    /// since.
    pub unsure: bool,
}

/// What is wanted next of a station, and the phase that follows once it is answered.
#[derive(Drop)]
pub struct Wanted {
    pub request: Asked,
    pub following: Phase,
}

/// A station, by its index, and what is wanted of it.
#[derive(Drop)]
pub struct Chosen {
    pub station: usize,
    pub wanted: Wanted,
}

/// What is wanted next of a station, in a word. The octets of a command stay with whoever has them,
/// so that it is handed on in registers until it is known which request is to be made.
#[derive(Clone, Copy)]
pub enum Wish {
    AskStatus,
    /// The status of a station that holds a service.
    Probe,
    AskReset,
    /// A poll, with its frame count bit, and how many of class 1 the turn has sent with it.
    PollClass1(bool, u8),
    PollClass2(bool),
    /// The command that waits for the station.
    SendCommand(bool),
    /// The unanswered service once more, and the phase that follows.
    SendHeld(Phase),
}

/// A station, by its index, and what is wanted of it, in a word.
#[derive(Clone, Copy)]
pub struct Pick {
    pub station: usize,
    pub wish: Wish,
}

/// Whether the service is a poll.
pub(crate) fn poll_service(service: &Service) -> bool
    ensures { result ≡ is_poll service.now }
{
    match service {
        Service::Class1 | Service::Class2 => true,
        Service::Command(_) => false,
    }
}

impl StationState {
    fn poll_wish(&self, burst: u8, fcb: bool, phase: Phase) -> Option<Wish>
        ensures wish { option_map (wished self.now None) result
            ≡ wanted_poll burst fcb self.now.acd phase }
        ensures possible { IfSome result (λ wish. IsPossible self.now None wish) }
    {
        match phase {
            // As ACD is now, behind the command (docs/DECISIONS.md, "ACD when the polls begin").
            Phase::Polling if self.acd => Some(Wish::PollClass1(fcb, 1)),
            Phase::Polling => Some(Wish::PollClass2(fcb)),
            // At most `burst`, so a station with much to report doesn't keep the line from the
            // others.
            Phase::Class1Polling(sent) if self.acd && sent < burst => {
                Some(Wish::PollClass1(fcb, sent + 1))
            }
            _ => None,
        }
    }

    fn polls_wish(&self, burst: u8, may_poll: bool, fcb: bool, phase: Phase) -> Option<Wish>
        ensures wish { option_map (wished self.now None) result
            ≡ polls_from burst may_poll fcb self.now phase }
        ensures possible { IfSome result (λ wish. IsPossible self.now None wish) }
    {
        // A report that finds no room would be lost, since the station has given it.
        if may_poll {
            self.poll_wish(burst, fcb, phase)
        } else {
            None
        }
    }

    fn commands_wish<U: LinkUser>(
        &self,
        burst: u8,
        may_poll: bool,
        fcb: bool,
        user: &U,
        place: usize,
    ) -> Option<Wish>
        ensures wish { option_map (wished self.now (U.waiting user.now place)) result
            ≡ commands_from burst may_poll fcb self.now (U.waiting user.now place) }
        ensures possible { IfSome result (λ wish.
            IsPossible self.now (U.waiting user.now place) wish) }
    {
        match user.command(place) {
            // DFC asks for no more user data. A poll brings the station none.
            Some(_) if !self.dfc => Some(Wish::SendCommand(fcb)),
            _ => self.polls_wish(burst, may_poll, fcb, Phase::Polling),
        }
    }

    fn next_wish<U: LinkUser>(
        &self,
        burst: u8,
        may_poll: bool,
        fcb: bool,
        phase: Phase,
        user: &U,
        place: usize,
    ) -> Option<Wish>
        ensures wish { option_map (wished self.now (U.waiting user.now place)) result
            ≡ next_of burst may_poll fcb self.now (U.waiting user.now place) phase }
        ensures possible { IfSome result (λ wish.
            IsPossible self.now (U.waiting user.now place) wish) }
    {
        match phase {
            Phase::Starting | Phase::Commanding => {
                self.commands_wish(burst, may_poll, fcb, user, place)
            }
            Phase::Polling | Phase::Class1Polling(_) => {
                self.polls_wish(burst, may_poll, fcb, phase)
            }
            Phase::Over => None,
        }
    }

    /// What the turn of the station, which has this place, has next.
    pub(crate) fn wish<U: LinkUser>(
        &self,
        burst: u8,
        may_poll: bool,
        again: bool,
        phase: Phase,
        user: &U,
        place: usize,
    ) -> Option<Wish>
        ensures wish { option_map (wished self.now (U.waiting user.now place)) result
            ≡ wanted burst may_poll again self.now (U.waiting user.now place) phase }
        ensures possible { IfSome result (λ wish.
            IsPossible self.now (U.waiting user.now place) wish) }
    {
        match (&self.link, phase) {
            (Link::Down, Phase::Starting) => Some(Wish::AskStatus),
            (Link::Available, Phase::Starting) => Some(Wish::AskReset),
            (Link::Next(fcb), phase) => {
                self.next_wish(burst, may_poll, *fcb, phase, user, place)
            }
            // Is it there? It is asked alone, so that its answer keeps no other station waiting.
            (Link::Held(_, _, silence), Phase::Starting) if self.unsure && silence.spent => {
                Some(Wish::Probe)
            }
            // A held service counts as no step of the turn: all of them follow (docs/DECISIONS.md,
            // "A held service").
            (Link::Held(_, service, _), Phase::Starting) if may_poll || !poll_service(service) => {
                Some(Wish::SendHeld(Phase::Commanding))
            }
            // Nothing passes it: a new bit would show the station that its answer came
            // (docs/DECISIONS.md, "A held service").
            (Link::Held(_, _, _), Phase::Starting) => None,
            (Link::Held(_, _, _), phase) if again => Some(Wish::SendHeld(phase)),
            _ => None,
        }
    }

    /// The request for the held service.
    fn held_request(&self) -> Asked
        requires { is_held self.now.link ≡ true }
        ensures value { result ≡ held_request self.now.link }
        ensures fits { (size : LinkSize) → FitsLink size self.now.link → FitsAsked size result }
    {
        let Link::Held(fcb, service, _) = &self.link else {
            unreachable!();
        };
        Asked::Counted(*fcb, service.copied())
    }

    /// The request that a wish of the station, which has this place, stands for, and the phase that
    /// follows.
    pub(crate) fn wanted<U: LinkUser>(&self, wish: Wish, user: &U, place: usize) -> Wanted
        requires { IsPossible self.now (U.waiting user.now place) wish }
        ensures value { result ≡ wished self.now (U.waiting user.now place) wish }
        ensures fits { (size : LinkSize) → FitsLink size self.now.link →
            FitsAsked size result.request }
    {
        match wish {
            // The reset belongs to the same turn.
            Wish::AskStatus => Wanted {
                request: Asked::Status,
                following: Phase::Starting,
            },
            Wish::Probe => Wanted {
                request: Asked::Status,
                following: Phase::Over,
            },
            // Its services wait for the next turn: the other stations are to be up before any is
            // polled (docs/DECISIONS.md, "A reset ends the turn").
            Wish::AskReset => Wanted {
                request: Asked::Reset,
                following: Phase::Over,
            },
            Wish::PollClass1(fcb, sent) => Wanted {
                request: Asked::Counted(fcb, Service::Class1),
                following: Phase::Class1Polling(sent),
            },
            // Its answer may show ACD, and class 1 polls then follow.
            Wish::PollClass2(fcb) => Wanted {
                request: Asked::Counted(fcb, Service::Class2),
                following: Phase::Class1Polling(0),
            },
            Wish::SendCommand(fcb) => Wanted {
                request: command_request(fcb, user, place),
                following: Phase::Polling,
            },
            Wish::SendHeld(following) => Wanted {
                request: self.held_request(),
                following,
            },
        }
    }
}

/// The request for the command that waits for the station with this index.
fn command_request<U: LinkUser>(fcb: bool, user: &U, place: usize) -> Asked
    requires { is_some (U.waiting user.now place) ≡ true }
    ensures value { result ≡ command_request fcb (U.waiting user.now place) }
    ensures fits { (size : LinkSize) → FitsAsked size result }
{
    let Some(octets) = user.command(place) else {
        unreachable!();
    };
    Asked::Counted(fcb, Service::Command(CommandOctets::new(octets)))
}

/// The station with this index.
pub(crate) fn nth_station(stations: &[StationState], place: usize) -> &StationState
    requires { place < length stations.now }
    ensures { result.now ≡ station_at stations.now place }
{
    &stations[place]
}

fn next_place(count: usize, place: usize) -> usize
    requires { place < count }
    ensures next { result ≡ place_after count place }
    ensures in_range { result < count }
{
    if place + 1 < count { place + 1 } else { 0 }
}

/// The first of the stations, once round from the one after this place, that has a request to begin
/// a turn with.
pub(crate) fn first_wanted<U: LinkUser>(
    stations: &[StationState],
    burst: u8,
    may_poll: bool,
    turn: usize,
    user: &U,
) -> Option<Pick>
    requires { turn < length stations.now }
    ensures first { option_map (picked stations.now (U.waiting user.now)) result
        ≡ first_after burst may_poll stations.now (U.waiting user.now) (length stations.now) turn }
    ensures in_range { IfSome result (λ pick. pick.station < length stations.now) }
    ensures possible { IfSome result (λ pick. IsPossible (station_at stations.now pick.station)
        (U.waiting user.now pick.station) pick.wish) }
{
    let mut place = turn;
    // All of them, and last the one that was served last: it may be the only one with a request.
    for _seen in 0..stations.len() {
        place = next_place(stations.len(), place);
        let station = nth_station(stations, place);
        let wish = station.wish(burst, may_poll, false, Phase::Starting, user, place);
        if let Some(wish) = wish {
            return Some(Pick {
                station: place,
                wish,
            });
        }
    }
    None
}
