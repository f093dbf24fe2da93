//! What is watched of the line: requests, and what is answered to them.
ghost use Rattle.std.specs.Prelude.{◌≡◌};
ghost use Rattle.runlog.specs.Watching as spec;

use super::Watch;
use crate::exchange::{AwaitedAnswer, awaited_of, place_of, user_data};
use crate::fate::Mishap;
use crate::note::LogLine;
use crate::order::Order;
use crate::stations::{address_of, ask, asking_of};
use gateway::Counts;

impl Watch {
    /// Octets came from the line.
    pub(super) fn receive_line(&mut self, octets: &[u8])
        ensures { self.new ≡ spec.line_received octets.now self.old }
    {
        self.exchange.receive(self.link, octets, self.moment);
        if let Some(place) = self.exchange.place() {
            self.note_answer(place);
        }
    }

    /// The station at this place may have answered.
    fn note_answer(&mut self, place: usize)
        ensures { self.new ≡ spec.answer_noted place self.old }
    {
        if place >= self.traffic.len() {
            return;
        }
        let traffic = &mut self.traffic[place];
        if let Some(answer) = self.exchange.answer(self.link, traffic.address()) {
            traffic.note_answer(self.sizes, self.moment, answer, &mut self.trail);
            // The front decides: what comes behind it is no answer.
            self.exchange.end();
        }
    }

    /// A request goes out.
    pub(super) fn ask(&mut self, octets: &[u8], now: u64) -> Option<LogLine>
        ensures { (self.new, result) ≡ spec.asked octets.now now self.old }
    {
        let is_away = self.line.is_away();
        let place = place_of(&self.traffic, address_of(self.link, octets));
        let awaited = awaited_of(octets);
        self.exchange.ask(self.link, octets, place, awaited, now);
        // Before the stations count the request: a repeat shows by the bit of the one before.
        if let (Some(place), AwaitedAnswer::Command) = (place, awaited) {
            self.send(place, octets, now);
        }
        // It reaches no station: that the line is away says it all.
        if is_away {
            return None;
        }
        ask(&mut self.stations, self.link, octets, now)
    }

    /// A command goes out to the station at this place, for the first time or again.
    fn send(&mut self, place: usize, octets: &[u8], now: u64)
        ensures { self.new ≡ spec.command_sent place octets.now now self.old }
    {
        if place >= self.traffic.len() || self.is_repeat(place, octets) {
            return;
        }
        let order = Order::read(self.sizes, user_data(self.link, octets));
        self.inbox.go(order);
        self.traffic[place].send(order, now, &mut self.gone);
    }

    /// Whether the request has gone out to the station at this place already.
    fn is_repeat(&self, place: usize, octets: &[u8]) -> bool
        ensures { result ≡ spec.is_repeat place octets.now self.now }
    {
        match self.stations.get(place) {
            None => false,
            Some(station) => station.is_repeat(asking_of(octets)),
        }
    }

    /// The gateway has counted this: what is new of it befell the station that was asked last
    /// before the latest event.
    #[tactic(auto, unfolding(crate::specs::Watching::counts_noted))]
    pub(super) fn note_counts(&mut self, counts: Counts)
        ensures { self.new ≡ spec.counts_noted counts self.old }
    {
        let seen = self.seen;
        // Nothing has come yet in the exchange of a request that went out in this event.
        let spoiling = self.exchange.spoiling();
        self.suffer_if(seen.lost < counts.lost, Mishap::GivenUp);
        self.suffer_if(seen.mirrors < counts.mirrors, Mishap::MirrorDropped);
        self.suffer_if(seen.spoilt < counts.spoilt, Mishap::Spoilt(spoiling));
        self.seen = counts;
    }

    /// This befell the station that was asked last before the latest event, if it did.
    fn suffer_if(&mut self, is_so: bool, mishap: Mishap)
        ensures { self.new ≡ spec.suffered_if is_so mishap self.old }
    {
        if is_so {
            // What was counted came before the event's own request.
            let place = self.exchange.before();
            self.suffer(place, mishap);
        }
    }

    /// So many octets of the line were dropped before requests: those that are new came late from
    /// the station that was asked before the latest one.
    pub(super) fn note_late(&mut self, late: u64)
        ensures { self.new ≡ spec.late_noted late self.old }
    {
        if self.late < late {
            let place = self.exchange.overdue();
            let ms = self.exchange.lag();
            self.suffer(place, Mishap::Late(ms));
        }
        self.late = late;
    }

    /// This befell the station at this place, if there is one.
    fn suffer(&mut self, place: Option<usize>, mishap: Mishap)
        ensures { self.new ≡ spec.suffered_at place mishap self.old }
    {
        if let Some(place) = place {
            self.suffer_at(place, mishap);
        }
    }

    /// This befell the station at this place.
    fn suffer_at(&mut self, place: usize, mishap: Mishap)
        ensures { self.new ≡ spec.suffered place mishap self.old }
    {
        if place < self.traffic.len() {
            self.traffic[place].suffer(mishap, self.moment, &mut self.trail);
        }
    }
}
