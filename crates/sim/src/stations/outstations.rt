//! The outstations of a script at their line.
ghost use Rattle.std.specs.Prelude.{◌≡◌, ◌||◌, ◌≤◌, [], ℕ, List, Option, None, IfOk, length};
ghost use Rattle.std.specs.Prelude.{option_map};
ghost use Rattle.std.specs.Prelude.{count_by};
ghost use Rattle.std.specs.Option.{is_none};
ghost use Rattle.ft12.specs.Spelling.{Fits};
ghost use Rattle.sim.specs.Texts.{reports_for};
ghost use Rattle.sim.specs.Scenarios.{FitsScenario};
ghost use Rattle.sim.specs.Exchanges.{ComesBack, HasReceived, IsRequestAnswered};
ghost use Rattle.sim.specs.Exchanges.{IsFrontReceived};
ghost use Rattle.sim.specs.Exchanges.{answer_written, first_counts, first_standing};
ghost use Rattle.sim.specs.Exchanges.{latest_delay};
ghost use Rattle.sim.specs.Late.{at_once, late_after, late_behind, late_now};

mod replying;
mod reporting;
mod restarting;

use self::replying::{ReplyProgress, none_replied};
use self::restarting::addresses_of;
use crate::beginning::begin;
use crate::directive::Directive;
use crate::receiving::{arriving, put_out};
use crate::script::Script;
use crate::stations::cue::Cue;
use crate::stations::late::{Late, delay_of};
use crate::stations::scenario::Scenario;
use arrayvec::ArrayVec;
use asdu::Sizes;
use ft12::{Assembler, Frame, LinkSize, encode};
use gateway::Config;
use link::{NoMemory, Station, station_is_an_outstation};
use live::OctetStream;
use std::alloc::Global;
use std::marker::Model;

/// The outstations of a line, with the reports that a script gives them. They receive requests, of
/// which the script loses some, and some of whose answers it loses or spoils.
#[derive(Drop)]
pub struct Outstations {
    alloc: Global,
    size: LinkSize,
    /// The link addresses of the stations.
    addresses: Vec<u16>,
    /// The sizes of the numbers in ASDUs.
    sizes: Sizes,
    script: Script,
    /// The lines of the script for the outstations alone.
    cues: Vec<Cue>,
    stations: Vec<Station>,
    /// How many reports each station had, with those that it gave.
    had: Vec<u64>,
    /// How far each station's replies to commands are.
    progress: Vec<ReplyProgress>,
    /// How many requests came.
    requests: u64,
    /// The answer that goes out late, if one waits.
    late: Option<Late>,
    /// What came since the last frame.
    line: Assembler,
}

/// What the front of octets that came was.
#[derive(Clone, Copy)]
enum ReceivedFront {
    /// A frame that ends behind so many of them, which was answered.
    Answered(usize),
    /// A frame whose answer the stream didn't take.
    NotTaken,
    /// No whole frame.
    Rest,
}

impl Model for Outstations {
    ghost use Rattle.std.specs.Prelude.{◌≡◌, [], Some, unwrap_or};
    ghost use Rattle.std.specs.List.{AllByRecursion};
    ghost use Rattle.link.specs.Requests.{FitsAddress};
    ghost use Rattle.sim.specs.Cues.{FitsLine};
    ghost use Rattle.sim.specs.Exchanges.{OutstationsState};

    ghost Value = { OutstationsState };

    ghost view = { λ o. record {
      size = o.size;
      sizes = o.sizes;
      directives = o.script;
      cues = o.cues.items;
      stations = o.stations.items;
      had = o.had.items;
      progress = o.progress.items;
      requests = o.requests;
      late = o.late;
      so_far = unwrap_or o.line.so_far [];
    } };

    ghost invariant = { λ o. record {
      addresses : AllByRecursion (FitsAddress o.size) o.addresses.items;
      sizes : AllByRecursion (λ s. s.size ≡ o.size) o.stations.items;
      lines : AllByRecursion (FitsLine o.size) o.cues.items;
      line : o.line.size ≡ o.size;
      listening : o.line.so_far ≡ Some (unwrap_or o.line.so_far []);
    } };
}

/// Whether a line gives a station a report from the start.
fn reports_for(station: usize, directive: &Directive) -> bool
    ensures { result ≡ reports_for station directive.now }
{
    match directive {
        Directive::Report(index, _, _) => *index == station,
        _ => false,
    }
}

/// How many reports a station has from the start.
fn count_of(script: &Script, station: usize) -> u64
    ensures { result ≡ count_by (reports_for station) script.now }
{
    script
        .directives()
        .iter()
        .filter(|one| reports_for(station, *one))
        .count() as u64
}

/// The same of each of so many stations.
fn counts_of(alloc: Global, script: &Script, stations: usize) -> Result<Vec<u64>, NoMemory>
    ensures { IfOk result (λ counts. counts.items ≡ first_counts stations script.now) }
{
    let mut counts = Vec::new(alloc);
    for station in 0..stations {
        counts
            .push(count_of(script, station))
            .map_err(|_| NoMemory)?;
    }
    Ok(counts)
}

impl Outstations {
    /// Those of these settings, which were never reset, with the reports that the script gives
    /// them. An `Err` is want of memory.
    pub fn new(alloc: Global, config: &Config, scenario: Scenario) -> Result<Outstations, NoMemory>
        requires { FitsScenario config.now scenario }
        ensures { IfOk result (λ o. o ≡ first_standing config.now scenario) }
    {
        let Scenario { script, cues } = scenario;
        let stations = begin(alloc, config, &script)?;
        let had = counts_of(alloc, &script, config.stations().len())?;
        let progress = none_replied(alloc, config.stations().len())?;
        let addresses = addresses_of(alloc, config)?;
        let size = config.line().link;
        Ok(Outstations {
            alloc,
            size,
            addresses,
            sizes: config.line().sizes,
            script,
            cues,
            stations,
            had,
            progress,
            requests: 0,
            late: None,
            line: Assembler::new(size),
        })
    }

    /// The stations receive a request, unless the script loses it. What comes back is what the
    /// script leaves of the answer.
    fn ask(&mut self, request: &Frame) -> Option<ArrayVec<u8, 261>>
        requires { Fits self.old.size request.now }
        ensures { ComesBack self.old request.now (option_map (λ v. v.items) result) self.new }
    {
        station_is_an_outstation();
        self.requests = self.requests.saturating_add(1);
        let fate = self.script.fate(self.requests);
        let octets = encode(self.size, request);
        let reply = put_out(self.stations.as_mut_slice(), fate, octets.as_slice());
        arriving(self.size, fate, reply)
    }

    /// What came back to the latest request goes out at once, unless the script delays it: then it
    /// waits.
    fn hold(&mut self, back: Option<ArrayVec<u8, 261>>) -> Option<ArrayVec<u8, 261>>
        ensures once { option_map (λ v. v.items) result
            ≡ at_once (latest_delay self.old) (option_map (λ v. v.items) back) }
        ensures late { self.new ≡ record self.old {
          late = late_behind (latest_delay self.old) (option_map (λ v. v.items) back) self.old.late;
        } }
    {
        let Some(ms) = delay_of(self.requests, self.cues.as_slice()) else {
            return back;
        };
        if let Some(octets) = back {
            // In the place of one that waits: a secondary station keeps its latest answer alone
            // (docs/DECISIONS.md, "One late answer").
            self.late = Some(Late::new(octets, ms));
        }
        None
    }

    /// The stations receive a request. What comes back is the answer at once, unless the script
    /// delays it.
    fn answer(&mut self, request: &Frame) -> Option<ArrayVec<u8, 261>>
        requires { Fits self.old.size request.now }
        ensures { IsRequestAnswered self.old request.now (option_map (λ v. v.items) result)
            self.new }
    {
        let back = self.ask(request);
        // First lost or spoilt, then late: so the lines of `sim` keep their meaning
        // (docs/DECISIONS.md, "`delay` beside `lose` and `spoil`").
        self.hold(back)
    }

    /// The stations answer a request, and the stream is given what goes out at once. `false` says
    /// that it didn't take that.
    fn reply<S: OctetStream>(&mut self, request: &Frame, stream: &mut S) -> bool
        requires { Fits self.old.size request.now }
        ensures { (answer : Option (List ℕ))
            × IsRequestAnswered self.old request.now answer self.new
            × (S.history stream.new ≡ answer_written (S.history stream.old) answer result)
            × (result ≡ (is_none answer || result)) }
    {
        match self.answer(request) {
            Some(octets) => stream.write(octets.as_slice()),
            None => true,
        }
    }

    /// Receives the front of octets that came, up to the end of a frame.
    fn receive_front<S: OctetStream>(&mut self, octets: &[u8], stream: &mut S) -> ReceivedFront
        requires { 1 ≤ length octets.now }
        ensures { IsFrontReceived self.old octets.now (S.history stream.old) (S.history stream.new)
            result self.new }
    {
        let (taken, received) = self.line.feed(octets);
        match received {
            ft12::Received::Frame(request) => {
                if self.reply(&request, stream) {
                    ReceivedFront::Answered(taken)
                } else {
                    ReceivedFront::NotTaken
                }
            }
            ft12::Received::More => ReceivedFront::Rest,
            ft12::Received::Never(..) | ft12::Received::Deaf => {
                self.line.clear();
                ReceivedFront::Rest
            }
        }
    }

    /// Octets came over the line, in any piece. The stations answer each whole frame among them,
    /// and each answer that the script doesn't delay is written at once. Octets that begin no frame
    /// are dropped, with those behind them in the piece. `false` says that the stream didn't take
    /// an answer; what is behind that request isn't read.
    pub fn receive<S: OctetStream>(&mut self, octets: &[u8], stream: &mut S) -> bool
        ensures { HasReceived self.old octets.now (S.history stream.old) (S.history stream.new)
            result self.new }
    {
        let mut left = octets;
        'frames: while !left.is_empty() {
            match self.receive_front(left, stream) {
                ReceivedFront::Answered(taken) => left = &left[taken..],
                ReceivedFront::NotTaken => return false,
                ReceivedFront::Rest => return true,
            }
        }
        true
    }

    /// A connection begins: what came over the one before is forgotten, and an answer that would go
    /// out to it late.
    pub fn begin(&mut self)
        ensures { self.new ≡ record self.old { late = None; so_far = [] } }
    {
        self.line.clear();
        // Lost, as octets on a broken way are (docs/DECISIONS.md, "A late answer over a cut
        // connection").
        self.late = None;
    }

    /// The answer that goes out late in a round at this moment, in ms. One whose request was
    /// received in this round waits from the moment on.
    pub(crate) fn take_late(&mut self, now: u64) -> Option<ArrayVec<u8, 261>>
        ensures octets { option_map (λ v. v.items) result ≡ late_now now self.old.late }
        ensures late { self.new ≡ record self.old { late = late_after now self.old.late } }
    {
        let mut late = self.late.take()?;
        if late.is_due(now) {
            return Some(late.into_octets());
        }
        // With the look that found its request: no clock is read between two answers
        // (docs/DECISIONS.md, "When a late answer's time begins").
        late.begin(now);
        self.late = Some(late);
        None
    }
}
