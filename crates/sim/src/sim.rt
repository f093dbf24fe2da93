//! The port of a simulated line.
ghost use Rattle.std.specs.Prelude.{◌≡◌, ◌+◌, ◌<◌, ◌≤◌, ◌^◌, min, true, false, []};
ghost use Rattle.std.specs.Prelude.{◌∷◌, ◌++◌, IfOk, IfSome, OnOk, OnErr, Option, Some, None};
ghost use Rattle.std.specs.Prelude.{if◌then◌else◌, option_map};
ghost use Rattle.gateway.specs.Log.{Log, Went, LineOut, TcpOut, Closed, GapOut};
ghost use Rattle.gateway.specs.Log.{last_moment};
ghost use Rattle.gateway.specs.Ports.{logged_by, FitsBuffer, faults_of};
ghost use Rattle.gateway.specs.Entries.{FitsPort, event_of};
ghost use Rattle.traces.specs.Actions.{lines_of_actions};
ghost use Rattle.sim.specs.Lives.{Plan, plan_of};
ghost use Rattle.sim.specs.Losses.{turns_of};
ghost use Rattle.sim.specs.Scripts.{FitsSettings};
ghost use Rattle.sim.specs.Played.{centre_after, moment_at, is_given, coming};
ghost use Rattle.sim.specs.declared.tally.StationTally.{StationTally};

use crate::beginning::begin;
use crate::centre::Centre;
use crate::connections::Connections;
use crate::directive::Directive;
use crate::due::Due;
use crate::receiving::{arriving, put_out};
use crate::script::Script;
use crate::tallies::Tallies;
use crate::tally::StationTally;
use arrayvec::ArrayVec;
use gateway::{Action, Config, Entry, LAST_MOMENT, Next, Port, announce};
use link::{NoMemory, Station, station_is_an_outstation};
use session::Close;
use std::alloc::{AllocError, Global};
use std::marker::Model;
use traces::Printout;

/// A line whose stations and control centre do as a script says, as the port of a gateway. The
/// lines of actions stand on a page, until they are taken off it; its log is stored nowhere.
#[derive(Drop)]
pub struct Sim<'a> {
    alloc: Global,
    config: &'a Config,
    script: &'a Script,
    turns: u64,
    stations: Vec<Station>,
    waiting: Option<ArrayVec<u8, 261>>,
    centre: Centre,
    call: u64,
    moment: u64,
    requests: u64,
    connections: Connections,
    tallies: Tallies,
    page: Printout,
    failures: u64,
}

impl<'a> Model for Sim<'a> {
    ghost use Rattle.std.specs.Prelude.{◌≡◌, option_map};
    ghost use Rattle.sim.specs.Lives.{plan_of};
    ghost use Rattle.sim.specs.Losses.{turns_of};
    ghost use Rattle.sim.specs.Played.{Simulated, Stands};

    ghost Value = { Simulated };

    ghost view = { λ a. record {
      plan = plan_of a.config.now a.script.now;
      log = a.page.log;
      poured = a.page.poured;
      page = a.page.lines;
      failed = a.failures;
      stations = a.stations.items;
      standing = record {
        waiting = option_map (λ v. v.items) a.waiting;
        centre = a.centre;
        call = a.call;
        moment = a.moment;
        requests = a.requests;
        counts = a.connections;
        tallied = a.tallies;
      };
    } };

    // The log is a run of the plan, and the rest is as it stands after the log.
    ghost invariant = { λ a. (a.turns ≡ turns_of a.script.now)
        × Stands (plan_of a.config.now a.script.now) a.page.log a.stations.items
        (record {
          waiting = option_map (λ v. v.items) a.waiting;
          centre = a.centre;
          call = a.call;
          moment = a.moment;
          requests = a.requests;
          counts = a.connections;
          tallied = a.tallies;
        }) };
}

/// What the control centre knows after an event.
fn centre_after(entry: &Entry, centre: Centre) -> Centre
    requires { centre.sent + 1 < 2 ^ 64 }
    ensures { result ≡ centre_after (event_of entry.now) centre }
{
    match entry {
        Entry::Open(_) => Centre::opened(),
        Entry::Cut(_) => Centre::shut(),
        Entry::Bytes(_, octets) => centre.after_sending(octets),
        Entry::Line(_, _) | Entry::Tick(_) | Entry::Wall(_, _) => centre,
    }
}

/// The moment of an event.
pub(crate) fn moment_at(entry: &Entry) -> u64
    ensures { result ≡ moment_at (event_of entry.now) }
{
    match entry {
        Entry::Line(now, _)
        | Entry::Open(now)
        | Entry::Bytes(now, _)
        | Entry::Cut(now)
        | Entry::Tick(now)
        | Entry::Wall(now, _) => *now,
    }
}

fn is_given(entry: &Entry) -> bool
    ensures { result ≡ is_given (event_of entry.now) }
{
    matches!(entry, Entry::Line(_, _))
}

/// One more than so many, if that is a number.
fn one_more(count: u64) -> Option<u64>
    ensures next { IfSome result (λ next. next ≡ count + 1) }
    ensures small { IfSome result (λ next. next < 2 ^ 64) }
{
    count.checked_add(1)
}

/// Takes away what waits, if it is given.
fn forget(waiting: &mut Option<ArrayVec<u8, 261>>, is_given: bool)
    ensures { option_map (λ v. v.items) waiting.new
        ≡ (if is_given then None else option_map (λ v. v.items) waiting.old) }
{
    if is_given {
        *waiting = None;
    }
}

impl<'a> Sim<'a> {
    ghost use Rattle.sim.specs.Played.{Simulated, Stands, fresh_run, has_ended};

    /// The port of a run with these settings and this script, which is to be one for them.
    pub fn new(alloc: Global, config: &'a Config, script: &'a Script) -> Result<Sim<'a>, NoMemory>
        requires { FitsSettings config.now script.now }
        ensures { IfOk result (λ sim. sim ≡ fresh_run (plan_of config.now script.now)) }
    {
        let stations = begin(alloc, config, script)?;
        let tallies = Tallies::new(alloc, stations.len())?;
        Ok(Sim {
            alloc,
            config,
            script,
            // Counted once: the script is asked for it at each call else.
            turns: script.turns(),
            stations,
            waiting: None,
            centre: Centre::shut(),
            call: 0,
            moment: 0,
            requests: 0,
            connections: Connections::new(alloc),
            tallies,
            page: Printout::new(alloc),
            failures: 0,
        })
    }

    /// The page: lines of the log's actions, behind those that were taken off it.
    pub fn page(&self) -> &[u8]
        ensures page { result.now ≡ self.now.page }
        ensures lines { lines_of_actions self.now.poured ++ result.now
            ≡ lines_of_actions self.now.log }
        ensures stands { Stands self.now.plan self.now.log self.now.stations self.now.standing }
    {
        self.page.lines()
    }

    /// Takes all lines off the page, which keeps its room.
    pub fn clear_page(&mut self)
        ensures { self.new ≡ record self.old { poured = self.old.log; page = [] } }
    {
        self.page.clear();
    }

    /// What its script says.
    pub fn directives(&self) -> &[Directive]
        ensures { result.now ≡ self.now.plan.directives }
    {
        self.script.directives()
    }

    /// The stations, as they stand.
    pub fn stations(&self) -> &[Station]
        ensures { result.now ≡ self.now.stations }
    {
        &self.stations
    }

    /// How many monitor objects went to the control centre on each connection.
    pub fn counts(&self) -> &[u64]
        ensures { result.now ≡ self.now.standing.counts }
    {
        self.connections.counts()
    }

    /// What is counted of the sessions of each station's link.
    pub fn tallies(&self) -> &[StationTally]
        ensures { result.now ≡ self.now.standing.tallied.each }
    {
        self.tallies.each()
    }

    /// The moment of an event that lasts so long.
    fn after(&self, lasting: u64) -> u64
        requires { lasting ≤ 60000 }
        ensures { result ≡ min (self.now.standing.moment + lasting) last_moment }
    {
        (self.moment + lasting).min(LAST_MOMENT)
    }

    /// The next event.
    fn next_entry(&self) -> Result<Entry, AllocError>
        requires { self.now.standing.call < u64.MAX }
        ensures event { IfOk result (λ entry. event_of entry
            ≡ coming self.now.plan self.now.standing) }
        ensures fits { IfOk result FitsPort }
    {
        let answer_ms = self.config.line().answer_ms;
        match Due::at(self.script, self.call + 1, &self.centre) {
            Due::Wall(number) => Ok(Entry::Wall(self.after(1), number)),
            Due::Cut => Ok(Entry::Cut(self.after(1))),
            Due::Open => Ok(Entry::Open(self.after(1))),
            Due::Apdu(octets) => {
                let octets = Vec::from_slice(self.alloc, &octets)?;
                Ok(Entry::Bytes(self.after(1), octets))
            }
            Due::Line => match &self.waiting {
                Some(piece) => {
                    let octets = Vec::from_slice(self.alloc, piece)?;
                    Ok(Entry::Line(self.after(1), octets))
                }
                // As long as the gateway would wait: what is silent is given up at this event.
                None => Ok(Entry::Tick(self.after(answer_ms))),
            },
        }
    }

    /// The next event comes, which an answer gives.
    fn come(&mut self, entry: &Entry, next: &Next, buf: &[u8; 1024]) -> Result<(), AllocError>
        requires open { self.old.standing.call < turns_of self.old.plan.directives }
        requires few { self.old.standing.call < u64.MAX }
        requires event { event_of entry.now ≡ coming self.old.plan self.old.standing }
        requires logged { logged_by next.now buf.now ≡ event_of entry.now ∷ [] }
        ensures ok { OnOk result (self.new.log ≡ logged_by next.now buf.now ++ self.old.log) }
        ensures err { OnErr result (self.new.log ≡ self.old.log) }
        ensures plan { self.new.plan ≡ self.old.plan }
        ensures poured { self.new.poured ≡ self.old.poured }
        ensures failed { self.new.failed ≡ self.old.failed }
    {
        // First: an event that finds no memory has changed nothing.
        self.connections.come(entry)?;
        self.tallies.come(self.config, entry);
        self.page.came(next, buf);
        forget(&mut self.waiting, is_given(entry));
        self.centre = centre_after(entry, self.centre);
        self.moment = moment_at(entry);
        self.call += 1;
        Ok(())
    }

    /// A request goes out: the stations receive it, or it is lost. What waits is gone.
    fn ask(&mut self, now: u64, octets: &[u8]) -> Result<(), AllocError>
        ensures ok { OnOk result (self.new.log ≡ Went now (LineOut octets.now) ∷ self.old.log) }
        ensures err { OnErr result (self.new.log ≡ self.old.log) }
        ensures plan { self.new.plan ≡ self.old.plan }
        ensures poured { self.new.poured ≡ self.old.poured }
        ensures failed { self.new.failed ≡ self.old.failed }
    {
        station_is_an_outstation();
        let Some(requests) = one_more(self.requests) else {
            // No run is as long.
            return Err(AllocError);
        };
        // Printed first: if memory is refused, no station has received the request.
        self.page.went(now, &Action::Line(octets))?;
        self.requests = requests;
        self.tallies
            .ask(self.config, self.stations.as_slice(), now, octets);
        let fate = self.script.fate(requests);
        let answer = put_out(self.stations.as_mut_slice(), fate, octets);
        // In place of an answer that still waits: so none is late.
        self.waiting = arriving(self.config.line().link, fate, answer);
        Ok(())
    }

    /// An APDU goes to the control centre.
    fn hand(&mut self, now: u64, octets: &[u8]) -> Result<(), AllocError>
        ensures ok { OnOk result (self.new.log ≡ Went now (TcpOut octets.now) ∷ self.old.log) }
        ensures err { OnErr result (self.new.log ≡ self.old.log) }
        ensures plan { self.new.plan ≡ self.old.plan }
        ensures poured { self.new.poured ≡ self.old.poured }
        ensures failed { self.new.failed ≡ self.old.failed }
    {
        let Some(centre) = self.centre.after_receiving(octets) else {
            // No run is as long.
            return Err(AllocError);
        };
        self.page.went(now, &Action::Tcp(octets))?;
        self.connections.hand(octets);
        self.centre = centre;
        Ok(())
    }

    /// The gateway closes the connection.
    fn close(&mut self, now: u64, cause: Close) -> Result<(), AllocError>
        ensures ok { OnOk result (self.new.log ≡ Went now (Closed cause) ∷ self.old.log) }
        ensures err { OnErr result (self.new.log ≡ self.old.log) }
        ensures plan { self.new.plan ≡ self.old.plan }
        ensures poured { self.new.poured ≡ self.old.poured }
        ensures failed { self.new.failed ≡ self.old.failed }
    {
        self.page.went(now, &Action::Close(cause))?;
        self.centre = Centre::shut();
        Ok(())
    }

    /// A gap is reported: nobody on the line or at the control centre gets it.
    fn put_gap(&mut self, now: u64, station: usize, session: u64) -> Result<(), AllocError>
        ensures ok { OnOk result (self.new.log ≡ Went now (GapOut station session) ∷ self.old.log) }
        ensures err { OnErr result (self.new.log ≡ self.old.log) }
        ensures plan { self.new.plan ≡ self.old.plan }
        ensures poured { self.new.poured ≡ self.old.poured }
        ensures failed { self.new.failed ≡ self.old.failed }
    {
        self.page.went(now, &Action::Gap { station, session })?;
        Ok(())
    }

    /// The next event has come and stands at the front of the buffer.
    fn give(&mut self, buf: &mut [u8; 1024]) -> Result<Next, AllocError>
        requires open { self.old.standing.call < turns_of self.old.plan.directives }
        requires few { self.old.standing.call < u64.MAX }
        ensures logged { IfOk result (λ next.
            self.new.log ≡ logged_by next buf.new ++ self.old.log) }
        ensures fits { IfOk result FitsBuffer }
        ensures healthy { IfOk result (λ next. faults_of next ≡ 0) }
        ensures some { IfOk result (λ next. next ≡ Next.Done → ⊥) }
        ensures err { OnErr result (self.new.log ≡ self.old.log) }
        ensures plan { self.new.plan ≡ self.old.plan }
        ensures poured { self.new.poured ≡ self.old.poured }
        ensures failed { self.new.failed ≡ self.old.failed }
    {
        let entry = self.next_entry()?;
        let next = announce(&entry, buf);
        self.come(&entry, &next, buf)?;
        Ok(next)
    }

    fn fail(&mut self)
        requires { self.old.failed < u64.MAX }
        ensures { self.new ≡ record self.old { failed = self.old.failed + 1 } }
    {
        self.failures += 1;
    }
}

impl<'a> Port for Sim<'a> {
    ghost use Rattle.sim.specs.Played.{has_ended};

    /// The plan, and what was taken off the page.
    ghost Fixed = { Plan × Log };

    ghost log = { λ s. Some s.log };

    ghost failed = { λ s. s.failed };

    ghost ended = { has_ended };

    ghost script = { λ s. (s.plan, s.poured) };

    fn next(&mut self, buf: &mut [u8; 1024]) -> Next {
        if self.call >= self.turns {
            return Next::Done;
        }
        match self.give(buf) {
            Ok(next) => next,
            Err(_) => {
                self.fail();
                Next::Fault
            }
        }
    }

    fn put(&mut self, now: u64, action: &Action<'_>) -> bool {
        let logged = match action {
            Action::Line(octets) => self.ask(now, octets),
            Action::Tcp(octets) => self.hand(now, octets),
            Action::Close(cause) => self.close(now, *cause),
            Action::Gap { station, session } => self.put_gap(now, *station, *session),
        };
        match logged {
            Ok(()) => true,
            Err(_) => {
                self.fail();
                false
            }
        }
    }

    fn failures(&self) -> u64 {
        self.failures
    }
}
