//! What is counted of the sessions of all stations' links.
ghost use Rattle.std.specs.Prelude.{◌≡◌, IfOk, map, option_map, replicate, slice_set, None};
ghost use Rattle.link.specs.Requests.{asked_in, request_in};
ghost use Rattle.gateway.specs.Entries.{event_of};
ghost use Rattle.gateway.specs.Reports.{address_at, index_of, sending_in};
ghost use Rattle.gateway.specs.Setups.{setup_of};
ghost use Rattle.sim.specs.Tallies.{fresh_tally, tally_at, given_at, sending_of, answer_in};
ghost use Rattle.sim.specs.Tallies.{awaited_timed, tallied_received, tallied_after, tallied_asked};

use crate::sim::moment_at;
use crate::tally::StationTally;
use ft12::{Frame, Front, FrontRef, LinkSize, front, front_is_computed, front_ref};
use gateway::{Config, Entry};
use link::{Answer, NoMemory, Reading, ReceivedRequest, Station, read_request};
use std::alloc::Global;
use std::marker::Model;

/// The latest request, while it may still be answered: it isn't `answer_ms` old, and nothing came.
#[derive(Drop)]
pub struct LatestRequest {
    /// The index of its station.
    pub station: usize,
    /// What it asks for.
    pub request: ReceivedRequest,
    /// When it went out, in milliseconds.
    pub since: u64,
}

/// What is counted of each station, and the request that may still be answered.
#[derive(Drop)]
pub(crate) struct Tallies {
    awaited: Option<LatestRequest>,
    each: Vec<StationTally>,
}

impl Model for Tallies {
    ghost use Rattle.sim.specs.Tallies.{Tallied};

    ghost Value = { Tallied };

    ghost view = { λ t. record { awaited = t.awaited; each = t.each.items } };
}

/// The address in a request's frame, and what it asks for.
fn asked_in(frame: &Frame) -> Option<(u16, ReceivedRequest)>
    ensures { result ≡ asked_in frame.now }
{
    let address = match frame {
        Frame::Single => return None,
        Frame::Fixed { a, .. } | Frame::Data { a, .. } => *a,
    };
    match read_request(address, frame) {
        Reading::Asks(request) => Some((address, request)),
        _ => None,
    }
}

/// The address and the request of the frame that the octets are.
fn request_in(size: LinkSize, octets: &[u8]) -> Option<(u16, ReceivedRequest)>
    ensures { result ≡ request_in size octets.now }
{
    front_is_computed();
    match front(size, octets) {
        Front::Whole(frame, len) if len == octets.len() => asked_in(&frame),
        _ => None,
    }
}

#[tactic(auto, using(crate::proofs::Places::place_here, crate::proofs::Places::place_more, crate::proofs::Places::place_none))]
/// The place of the station with this link address.
fn index_of(address: u16, stations: &[gateway::StationSettings]) -> Option<usize>
    ensures { result ≡ index_of address (map (λ s. s.address) stations.now) }
{
    for (index, station) in stations.iter().enumerate() {
        if station.address == address {
            return Some(index);
        }
    }
    None
}

/// The index of the station that octets ask, and what they ask for.
fn sending_in(config: &Config, octets: &[u8]) -> Option<(usize, ReceivedRequest)>
    ensures { option_map sending_of result ≡ sending_in (setup_of config.now) octets.now }
{
    let (address, request) = request_in(config.line().link, octets)?;
    let index = index_of(address, config.stations())?;
    Some((index, request))
}

/// The link address of the station at this place, or 0.
fn address_at(stations: &[gateway::StationSettings], index: usize) -> u16
    ensures { result ≡ address_at (map (λ s. s.address) stations.now) index }
{
    match stations.get(index) {
        Some(station) => station.address,
        None => 0,
    }
}

/// How many reports the station at this place gave.
fn given_at(stations: &[Station], index: usize) -> u64
    ensures { result ≡ given_at stations.now index }
{
    match stations.get(index) {
        Some(station) => station.given(),
        None => 0,
    }
}

fn tally_at(each: &[StationTally], index: usize) -> StationTally
    ensures { result ≡ tally_at each.now index }
{
    match each.get(index) {
        Some(tally) => *tally,
        None => StationTally::fresh(),
    }
}

fn set_tally(each: &mut [StationTally], index: usize, tally: StationTally)
    ensures { each.new ≡ slice_set each.old index tally }
{
    if index < each.len() {
        each[index] = tally;
    }
}

/// What the frame at the front of octets says in answer to the request that is awaited.
fn answer_in<'a>(config: &Config, awaited: &LatestRequest, octets: &'a [u8]) -> Option<Answer<'a>>
    ensures { result ≡ answer_in (setup_of config.now) awaited.now octets.now }
{
    front_is_computed();
    match front_ref(config.line().link, octets) {
        FrontRef::Whole(frame, _) => {
            let address = address_at(config.stations(), awaited.station);
            awaited.request.answered_by(address, frame)
        }
        _ => None,
    }
}

impl Tallies {
    /// Nothing is counted yet of any of so many stations.
    pub(crate) fn new(alloc: Global, stations: usize) -> Result<Tallies, NoMemory>
        ensures { IfOk result (λ t. t ≡ record {
          awaited = None;
          each = replicate stations fresh_tally;
        }) }
    {
        match vec![in alloc; StationTally::fresh(); stations] {
            Ok(each) => Ok(Tallies {
                awaited: None,
                each,
            }),
            Err(_) => Err(NoMemory),
        }
    }

    /// What is counted of each station.
    pub(crate) fn each(&self) -> &[StationTally]
        ensures { result.now ≡ self.now.each }
    {
        &self.each
    }

    /// A request goes out, to stations that stand so.
    pub(crate) fn ask(&mut self, config: &Config, stations: &[Station], now: u64, octets: &[u8])
        ensures { self.new ≡ tallied_asked (setup_of config.now) now octets.now stations.now
            self.old }
    {
        if let Some((station, request)) = sending_in(config, octets) {
            let tally = tally_at(&self.each, station).asked(&request, given_at(stations, station));
            set_tally(&mut self.each, station, tally);
            self.awaited = Some(LatestRequest {
                station,
                request,
                since: now,
            });
        }
    }

    /// Octets come from the line.
    fn receive(&mut self, config: &Config, octets: &[u8])
        ensures { self.new ≡ tallied_received (setup_of config.now) octets.now self.old }
    {
        if let Some(awaited) = &self.awaited {
            if let Some(answer) = answer_in(config, awaited, octets) {
                let station = awaited.station;
                let tally = tally_at(&self.each, station).answered(&awaited.request, &answer);
                set_tally(&mut self.each, station, tally);
            }
        }
        // The front decides: nothing behind these octets is an answer any more.
        if !octets.is_empty() {
            self.awaited = None;
        }
    }

    /// A moment comes: what is awaited is over when the time to answer is.
    fn wait(&mut self, answer_ms: u64, now: u64)
        ensures { self.new ≡ record self.old {
          awaited = awaited_timed answer_ms now self.old.awaited;
        } }
    {
        if let Some(awaited) = &self.awaited {
            if awaited.since <= now && answer_ms <= now - awaited.since {
                self.awaited = None;
            }
        }
    }

    /// An event comes.
    pub(crate) fn come(&mut self, config: &Config, entry: &Entry)
        ensures { self.new ≡ tallied_after (setup_of config.now) (event_of entry.now) self.old }
    {
        if let Entry::Line(_, octets) = entry {
            self.receive(config, octets);
        }
        self.wait(config.line().answer_ms, moment_at(entry));
    }
}
