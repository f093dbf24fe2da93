//! The port over live ends.
ghost use Rattle.std.specs.Option.{is_some};
ghost use Rattle.std.specs.Prelude.{◌≡◌, ◌≢◌, ℕ, ◌+◌, ◌<◌, ◌≤◌, true, false, List, [], ◌∷◌, ◌++◌};
ghost use Rattle.std.specs.Prelude.{length, take, Some, None, IfSome, nat_lt};
ghost use Rattle.gateway.specs.Ports.{FitsBuffer, faults_of, output_of, logged_by};
ghost use Rattle.live.specs.Ends.{after, begun_with, clock_read_at, IsTurn};
ghost use Rattle.live.specs.Ends.{GivesEvent, GivesWall, Turns};
ghost use Rattle.live.specs.Ends.{PutsOut, LogsTurn, LogsPut, as_logged, FitsFound, IsWritten};
ghost use Rattle.live.specs.Ends.{LooksOn, failure_of, faults_in, is_tick_due};
ghost use Rattle.live.specs.OctetStreams.{IsNew};
ghost use Rattle.live.specs.Passed.{HasNoAttempts};
ghost use Rattle.live.specs.Runs.{IsStart, ShowsRun};
ghost use Rattle.live.specs.Sights.{ShowsEnds};
ghost use Rattle.live.specs.Syncs.{no_sync};
ghost use Rattle.live.specs.Timing.{is_behind, moment_at};
ghost use Rattle.live.specs.Looks.{LooksInRound, LooksAt};
ghost use Rattle.gateway.specs.Log.{with_news, Went};
ghost use Rattle.gateway.specs.declared.ports.Next.TheVariants.{Done};
ghost use Rattle.live.specs.declared.ends.CutCause.TheVariants.{Restarted};

use crate::allow_list::AllowList;
use crate::clock::Timed;
use crate::ends::{Accepted, CutCause, Got, Listener, OctetStream, Reached, RunClock};
use crate::found::{SourceEvent, brings_frame, event_at};
use crate::held::HeldOctets;
use crate::source::EventSource;
use crate::syncs::SyncTimes;
use crate::timing::Timing;
use crate::walled::Walled;
use crate::watched::{EndsSight, Failure, Notice, Watched};
use gateway::{Action, Config, Gateway, History, Next, Port};
use session::Close;
use std::marker::Model;

/// How long after an event a tick is given, in ms, if nothing happens.
// All timers but that of an answer, which has ticks of its own, are whole seconds; and each tick is
// a line of the log that is kept on disk.
const TICK_MS: u64 = 100;

/// After so many rounds of looks that found nothing the next one is an event, whatever the clock
/// shows.
// An end that stands still: a round waits for 1 ms at the line.
const QUIET_ROUNDS: u32 = 200;

/// The port over a line, a listener and a clock, at which nothing has happened but by its events
/// and actions since the run began. It has a log: each event that it gave and each action that it
/// put out, of which it stores none.
#[derive(Drop)]
pub struct Live<S: OctetStream, L: Listener + Drop, C: RunClock + Drop> {
    ends: Ends<S, L, C>,
}

impl<S: OctetStream, L: Listener + Drop, C: RunClock + Drop> Model for Live<S, L, C> {
    ghost use Rattle.live.specs.Ends.{LiveEnds};
    ghost use Rattle.live.specs.Runs.{IsInRun};

    ghost Value = { LiveEnds };

    ghost view = { λ a. a.ends };

    ghost invariant = { λ a. IsInRun a.ends };
}

impl<S: OctetStream, L: Listener + Drop, C: RunClock + Drop> Live<S, L, C> {
    /// A port over these ends, with no connection yet. Only addresses of this list may connect. An
    /// answer of the line is awaited as long as by a gateway with these settings.
    pub fn new(
        line: S,
        listener: L,
        clock: C,
        allow_list: AllowList,
        config: &Config,
    ) -> Live<S, L, C>
        requires new { IsNew (S.history line) }
        requires unasked { HasNoAttempts (L.attempts listener) }
        ensures begun { result ≡ begun_with allow_list (S.history line) (S.presence line)
            (L.attempts listener) (L.refusals listener) (C.moments clock) (C.walls clock)
            config.now.line.answer_ms }
        ensures start { IsStart result }
    {
        // Of the settings it needs how long an answer is awaited (docs/DECISIONS.md, "What
        // `Live::new` takes").
        Live::awaiting(line, listener, clock, allow_list, config.line().answer_ms)
    }

    /// The same, if an answer is awaited for so long, in ms.
    #[tactic(auto, using(crate::proofs::Runs::start_anew, crate::proofs::Runs::started))]
    fn awaiting(
        line: S,
        listener: L,
        clock: C,
        allow_list: AllowList,
        answer_ms: u64,
    ) -> Live<S, L, C>
        requires new { IsNew (S.history line) }
        requires unasked { HasNoAttempts (L.attempts listener) }
        ensures begun { result ≡ begun_with allow_list (S.history line) (S.presence line)
            (L.attempts listener) (L.refusals listener) (C.moments clock) (C.walls clock)
            answer_ms }
        ensures start { IsStart result }
    {
        let ends = Ends {
            allow_list,
            line,
            listener,
            clock,
            connection: None,
            held: HeldOctets::new(),
            gone: None,
            first: EventSource::Listener,
            is_cut_due: false,
            goes_on: false,
            why_cut: CutCause::Gone,
            failures: 0,
            late_octets: 0,
            timing: Timing {
                answer_ms,
                looked: 0,
                request: None,
            },
            walled: Walled::new(),
            history: History::new(),
        };
        Live { ends }
    }

    /// The same port, of a run that goes on after a restart: the connection that was open then is
    /// cut, which is its first event but the wall clock.
    #[tactic(auto, using(crate::proofs::Runs::start_on, crate::proofs::Runs::started))]
    pub fn cut_first(mut self) -> Live<S, L, C>
        requires start { IsStart self }
        ensures { result
            ≡ record self { is_cut_due = true; goes_on = true; why_cut = Restarted } }
    {
        self.ends.is_cut_due = true;
        self.ends.goes_on = true;
        self.ends.why_cut = CutCause::Restarted;
        self
    }
}

impl<S: OctetStream, L: Listener + Drop, C: RunClock + Drop> Timed for Live<S, L, C> {
    fn shown_ms(&self) -> u64 {
        self.ends.clock.shown_ms()
    }
}

impl<S: OctetStream, L: Listener + Drop, C: RunClock + Drop> Port for Live<S, L, C> {
    // Sockets say nothing, so the port says what passed (docs/DECISIONS.md, "A live port says its
    // log").
    ghost log = { λ ends. Some ends.log };

    ghost failed = { λ ends. ends.failed };

    ghost ended = { λ _. false };

    ghost use Rattle.live.specs.Ends.{Fixture, fixed_of};

    ghost Fixed = { Fixture };

    ghost script = { λ ends. fixed_of ends };

    /// Gives the wall clock if it is due. Else it looks at the ends round by round, until one has
    /// something or a tick is due.
    #[tactic(auto, using(crate::proofs::Logs::turn_noted))]
    fn next(&mut self, buf: &mut [u8; 1024]) -> Next
        requires { self.old.failed < u64.MAX }
        ensures logged { Some self.new.log
            ≡ with_news (Some self.old.log) (logged_by result buf.new) }
        ensures fits { FitsBuffer result }
        ensures done { result ≡ Done → false ≡ true }
        ensures cause { self.new.failed ≡ self.old.failed + faults_of result }
        ensures script { fixed_of self.new ≡ fixed_of self.old }
        ensures turns { LogsTurn self.old result buf.new self.new }
    {
        self.ends.turn_on(buf)
    }

    /// It never fails: what an end doesn't take is lost.
    #[tactic(auto, using(crate::proofs::Logs::put_noted, crate::proofs::Runs::placed_fixed))]
    fn put(&mut self, now: u64, action: &Action<'_>) -> bool
        ensures done { result ≡ true }
        ensures logged { Some self.new.log
            ≡ with_news (Some self.old.log) (Went now (output_of action.now) ∷ []) }
        ensures script { fixed_of self.new ≡ fixed_of self.old }
        ensures puts { LogsPut self.old now (output_of action.now) self.new }
    {
        self.ends.put_on(now, action);
        true
    }

    fn failures(&self) -> u64 {
        self.ends.failures
    }
}

impl<S: OctetStream + Reached, L: Listener + Drop, C: RunClock + Drop> Watched for Live<S, L, C> {
    ghost use Rattle.live.specs.Ends.{Fixture, fixed_of};
    ghost use Rattle.live.specs.Runs.{ShowsRun};

    ghost tends = { λ old _ new notice. (new ≡ old) × (notice ≡ None) };

    ghost Lasting = { Fixture };

    ghost lasting = { λ ends. fixed_of ends };

    ghost lasts = { λ one other same. same };

    ghost shows = { λ ends sight. ShowsRun ends sight };

    ghost failure = { λ ends. failure_of ends.failed };

    fn sight(&self) -> EndsSight
        ensures shows { ShowsRun self.now result }
        ensures failure { result.failure ≡ failure_of self.now.failed }
        ensures failed { is_some result.failure ≡ nat_lt 0 self.now.failed }
        ensures syncs { result.syncs ≡ no_sync }
    {
        self.ends.sight()
    }

    fn tend(&mut self, _gateway: &Gateway) -> Option<Notice> {
        None
    }
}

/// The ends of a run, how far they have been looked at, and what is known of them.
#[derive(Drop)]
struct Ends<S: OctetStream, L: Listener + Drop, C: RunClock + Drop> {
    line: S,
    listener: L,
    clock: C,
    allow_list: AllowList,
    connection: Option<Accepted<L::Stream>>,
    /// Octets of that connection that came and haven't been given.
    held: HeldOctets,
    /// A connection that was found gone, until the ends are looked at again.
    gone: Option<Accepted<L::Stream>>,
    /// The source that is looked at first.
    first: EventSource,
    /// A write to the connection failed, so that the next event is a cut.
    is_cut_due: bool,
    /// The run goes on after a restart.
    goes_on: bool,
    /// Why the latest connection that was cut was cut.
    why_cut: CutCause,
    failures: u64,
    /// How many octets of the line were dropped before requests.
    late_octets: u64,
    timing: Timing,
    walled: Walled,
    /// What was given and put out, for proofs alone.
    history: History,
}

impl<S: OctetStream, L: Listener + Drop, C: RunClock + Drop> Model for Ends<S, L, C> {
    ghost use Rattle.std.specs.Prelude.{option_map};
    ghost use Rattle.live.specs.Ends.{LiveEnds, Peer};

    ghost Value = { LiveEnds };

    ghost view = { λ a. record {
      allow_list = a.allow_list;
      line = S.history a.line;
      presence = S.presence a.line;
      connection = option_map (λ v. record {
        address = v.address;
        stream = L.Stream.history v.stream;
      }) a.connection;
      held = a.held;
      gone = option_map (λ v. L.Stream.history v.stream) a.gone;
      listener = L.attempts a.listener;
      refusals = L.refusals a.listener;
      clock = C.moments a.clock;
      first = a.first;
      is_cut_due = a.is_cut_due;
      goes_on = a.goes_on;
      why_cut = a.why_cut;
      failed = a.failures;
      late = a.late_octets;
      timing = a.timing;
      walls = C.walls a.clock;
      walled = a.walled;
      log = a.history.entries;
    } };
}

impl<S: OctetStream, L: Listener + Drop, C: RunClock + Drop> Ends<S, L, C> {
    ghost use Rattle.live.specs.declared.source.EventSource.TheVariants as sources;
    ghost use Rattle.live.specs.declared.found.SourceEvent.TheVariants as found;

    /// What is next, which the log gets.
    fn turn_on(&mut self, buf: &mut [u8; 1024]) -> Next
        requires { self.old.failed < u64.MAX }
        ensures fits { FitsBuffer result }
        ensures done { result ≢ Done }
        ensures cause { self.new.failed ≡ self.old.failed + faults_of result }
        ensures turns { LogsTurn self.old result buf.new self.new }
    {
        let next = self.find(buf);
        self.log_event(&next, buf);
        next
    }

    /// Puts an action out, which the log gets.
    #[tactic(auto, using(crate::proofs::Logs::put_logged))]
    fn put_on(&mut self, now: u64, action: &Action<'_>)
        ensures puts { LogsPut self.old now (output_of action.now) self.new }
    {
        self.put_out(now, action);
        self.log_action(now, action);
    }

    fn read_clock(&mut self) -> u64
        ensures { self.new ≡ clock_read_at result self.old }
    {
        self.clock.now_ms()
    }

    /// What a turn finds, which the clock begins at this moment. It is the cut that is due, else
    /// the first thing in one round over the sources. If the moment of an event would be too far
    /// behind the clock, it is the first thing on the line alone.
    #[tactic(auto, using(crate::proofs::Turns::due_turn, crate::proofs::Turns::line_turn, crate::proofs::Turns::held_turn, crate::proofs::Turns::first_turn, crate::proofs::Turns::second_turn, crate::proofs::Turns::third_turn))]
    fn turn(&mut self, begun: u64, buf: &mut [u8; 1024]) -> Option<SourceEvent>
        requires { self.old.failed < u64.MAX }
        ensures fits { IfSome result FitsFound }
        ensures failed { self.new.failed ≡ self.old.failed + faults_in result }
        ensures turn { IsTurn begun self.old result buf.new self.new }
    {
        if self.is_cut_due {
            self.is_cut_due = false;
            self.end_connection();
            // A cut is an event of the connection: the round goes on behind that
            // (docs/DECISIONS.md, "A cut that is due").
            self.first = EventSource::Connection.after();
            return Some(SourceEvent::Cut);
        }
        if self.timing.is_behind(begun) {
            return self.look(EventSource::Line, begun, buf);
        }
        if !self.held.is_empty() {
            return Some(self.take_held(buf));
        }
        // From where the last round ended: no source that always has something hides another.
        let first = self.first;
        if let Some(found) = self.look(first, begun, buf) {
            return Some(found);
        }
        let second = first.after();
        if let Some(found) = self.look(second, begun, buf) {
            return Some(found);
        }
        self.look(second.after(), begun, buf)
    }

    /// The connection is no more, and with it its octets.
    fn end_connection(&mut self)
        ensures { self.new ≡ record self.old { connection = None; held = [] } }
    {
        self.connection = None;
        self.held.clear();
    }

    /// The octets that are held, as what was found on the connection.
    fn take_held(&mut self, buf: &mut [u8; 1024]) -> SourceEvent
        requires { 1 ≤ length self.old.held }
        ensures fits { FitsFound result }
        ensures value { result ≡ found.Bytes (length self.old.held) }
        ensures front { take (length self.old.held) buf.new ≡ self.old.held }
        ensures ends { self.new ≡ record self.old { held = []; first = after sources.Connection } }
    {
        let len = self.held.put(buf);
        self.held.clear();
        self.first = EventSource::Connection.after();
        SourceEvent::Bytes(len)
    }

    /// Looks once at a source. If something is found, the next round begins with the source after
    /// it.
    fn look(&mut self, source: EventSource, begun: u64, buf: &mut [u8; 1024]) -> Option<SourceEvent>
        requires { self.old.failed < u64.MAX }
        ensures fits { IfSome result FitsFound }
        ensures failed { self.new.failed ≡ self.old.failed + faults_in result }
        ensures looks { LooksInRound source begun self.old result buf.new self.new }
    {
        let found = match source {
            EventSource::Listener => self.look_at_listener(),
            EventSource::Connection => self.look_at_connection(buf),
            EventSource::Line => self.look_at_line(begun, buf),
        };
        if found.is_some() {
            self.first = source.after();
        }
        found
    }

    /// Who connects takes the place of the connection, with its octets.
    fn look_at_listener(&mut self) -> Option<SourceEvent>
        ensures fits { IfSome result FitsFound }
        ensures failed { self.new.failed ≡ self.old.failed + faults_in result }
        ensures looks { LooksAt sources.Listener 0 self.old result [] self.new }
    {
        match self.listener.accept(&self.allow_list) {
            Some(accepted) => {
                self.connection = Some(accepted);
                self.held.clear();
                Some(SourceEvent::Open)
            }
            None => None,
        }
    }

    #[tactic(auto, using(crate::proofs::Octets::octets_came, crate::proofs::Octets::nothing_came))]
    fn look_at_connection(&mut self, buf: &mut [u8; 1024]) -> Option<SourceEvent>
        ensures fits { IfSome result FitsFound }
        ensures failed { self.new.failed ≡ self.old.failed + faults_in result }
        ensures looks { LooksAt sources.Connection 0 self.old result buf.new self.new }
    {
        let Some(connection) = self.connection.as_mut() else {
            return None;
        };
        match connection.stream.read(buf) {
            Got::Octets(len) => Some(SourceEvent::Bytes(len)),
            Got::Quiet => None,
            Got::Gone => {
                // Kept until the next looks, so that a clause can say what this one found
                // (docs/DECISIONS.md, "A stream that was found gone").
                self.gone = self.connection.take();
                self.why_cut = CutCause::Gone;
                Some(SourceEvent::Cut)
            }
        }
    }

    fn look_at_line(&mut self, begun: u64, buf: &mut [u8; 1024]) -> Option<SourceEvent>
        requires { self.old.failed < u64.MAX }
        ensures fits { IfSome result FitsFound }
        ensures failed { self.new.failed ≡ self.old.failed + faults_in result }
        ensures looks { LooksAt sources.Line begun self.old result buf.new self.new }
    {
        self.timing.look(begun);
        match self.line.read(buf) {
            Got::Octets(len) => Some(SourceEvent::Line(len)),
            Got::Quiet => None,
            Got::Gone => {
                self.failures += 1;
                Some(SourceEvent::Fault)
            }
        }
    }

    /// What was found, as an event of the moment that is due now. Octets of the connection whose
    /// moment would be too far behind the clock are held, since an execute among them could come in
    /// time by that moment alone: they are given once no moment is that far behind. A frame of the
    /// line bears none that is.
    #[tactic(auto, using(crate::proofs::Turns::given_held, crate::proofs::Turns::given_level))]
    fn give(&mut self, now: u64, found: Option<SourceEvent>, buf: &[u8; 1024]) -> Next
        requires { IfSome found FitsFound }
        ensures fits { FitsBuffer result }
        ensures failed { faults_of result ≡ faults_in found }
        ensures same { self.new.failed ≡ self.old.failed }
        ensures given { GivesEvent now self.old found result buf.now self.new }
    {
        let mut taken = found;
        // To cut the connection, the simpler rule, lost one in six stalls (docs/DECISIONS.md, "Late
        // octets of a control centre").
        if self.timing.is_behind(now) {
            if let Some(SourceEvent::Bytes(len)) = found {
                self.held.hold(&buf[..len]);
                taken = None;
            }
        }
        event_at(self.timing.told(brings_frame(taken, buf), now), taken)
    }

    /// The wall clock, as it stood at the moment that is due now.
    fn give_wall(&mut self, now: u64) -> Next
        ensures fits { FitsBuffer result }
        ensures failed { faults_of result ≡ 0 }
        ensures same { self.new.failed ≡ self.old.failed }
        ensures given { GivesWall now self.old result self.new }
    {
        let shown = self.clock.wall_ms();
        self.walled.give(now);
        let moment = self.timing.moment(now);
        Next::Wall(moment, shown.saturating_sub(now.saturating_sub(moment)))
    }

    /// Octets for the connection are dropped if there is none, and if a cut is due.
    #[tactic(auto, using(crate::proofs::Puts::dropped_due, crate::proofs::Puts::dropped_none, crate::proofs::Puts::written))]
    fn put_on_connection(&mut self, octets: &[u8])
        ensures { IsWritten self.old octets.now self.new }
    {
        if self.is_cut_due {
            return;
        }
        if let Some(connection) = self.connection.as_mut() {
            self.is_cut_due = !connection.stream.write(octets);
            if self.is_cut_due {
                self.why_cut = CutCause::NotTaken;
            }
        }
    }

    /// What is next: the wall clock, if it is due, else what rounds of looks find. The clock is
    /// read before the first round and after each.
    #[tactic(auto, using(crate::proofs::Turns::turned, crate::proofs::Turns::turned_to_wall))]
    fn find(&mut self, buf: &mut [u8; 1024]) -> Next
        requires { self.old.failed < u64.MAX }
        ensures fits { FitsBuffer result }
        ensures done { result ≢ Done }
        ensures cause { self.new.failed ≡ self.old.failed + faults_of result }
        ensures turns { Turns self.old result buf.new self.new }
    {
        // Before the looks: the line has been waited out only up to the moment at which a look
        // begins.
        let first = self.read_clock();
        if self.walled.is_due(first) {
            return self.give_wall(first);
        }
        self.walled.look();
        self.gone = None;
        let (now, found) = self.look_on(first, buf);
        self.give(now, found, buf)
    }

    /// Rounds of looks, the first of which begins at this moment, until one finds something or a
    /// tick is due behind it. Answers when the last ended, and what it found.
    fn look_on(&mut self, first: u64, buf: &mut [u8; 1024]) -> (u64, Option<SourceEvent>)
        requires { self.old.failed < u64.MAX }
        ensures fits { IfSome result.1 FitsFound }
        ensures failed { self.new.failed ≡ self.old.failed + faults_in result.1 }
        ensures looks { LooksOn first self.old result.0 result.1 buf.new self.new }
    {
        let was_awaited = self.timing.is_awaited();
        let mut begun = first;
        for _ in 0..QUIET_ROUNDS {
            let found = self.turn(begun, buf);
            let now = self.read_clock();
            if found.is_some() || self.is_tick_due(first, was_awaited, now) {
                return (now, found);
            }
            begun = now;
        }
        let found = self.turn(begun, buf);
        (self.read_clock(), found)
    }

    /// A tick is due at this moment, behind a round that found nothing: enough time has passed
    /// since the first round began, or the answer that was awaited then has come too late, or the
    /// wall clock is due.
    fn is_tick_due(&self, first: u64, was_awaited: bool, now: u64) -> bool
        ensures { result ≡ is_tick_due first was_awaited now self.now }
    {
        TICK_MS <= now.saturating_sub(first)
            || was_awaited && !self.timing.is_awaited()
            || self.walled.is_due(now)
    }

    /// Puts an action out. What an end doesn't take is lost.
    #[tactic(auto, using(crate::proofs::Puts::put_line, crate::proofs::Puts::put_tcp, crate::proofs::Puts::put_close, crate::proofs::Puts::put_gap))]
    fn put_out(&mut self, now: u64, action: &Action<'_>)
        ensures { PutsOut self.old now (output_of action.now) self.new }
    {
        match action {
            Action::Line(octets) => {
                // What came before is no answer to it: the exchange before is over, and what is
                // late of it the station gives again, since a request that wasn't answered is
                // repeated with its frame count bit (docs/DECISIONS.md, "Octets that wait before a
                // request").
                let late = self.line.drop_waiting();
                self.late_octets = self.late_octets.saturating_add(late);
                // A request that the line doesn't take is lost.
                let _taken = self.line.write(*octets);
                // Read behind the write, which may have waited.
                self.timing.ask(now, self.clock.now_ms());
            }
            Action::Tcp(octets) => self.put_on_connection(*octets),
            // Its stream went when another took its place.
            Action::Close(Close::Replaced) => {}
            Action::Close(_) => {
                self.end_connection();
                self.is_cut_due = false;
            }
            // Nobody at the ends learns of a gap.
            Action::Gap { .. } => {}
        }
    }

    /// The log gets what an event brings. Its octets are the front of the buffer.
    fn log_event(&mut self, event: &Next, buf: &[u8; 1024])
        ensures { self.new ≡ as_logged (logged_by event.now buf.now ++ self.old.log) self.old }
    {
        self.history = self.history.came(event, buf);
    }

    /// The log gets an action of this moment.
    fn log_action(&mut self, now: u64, action: &Action<'_>)
        ensures { self.new
            ≡ as_logged (Went now (output_of action.now) ∷ self.old.log) self.old }
    {
        self.history = self.history.went(&now, action);
    }
}

impl<S: OctetStream + Reached, L: Listener + Drop, C: RunClock + Drop> Ends<S, L, C> {
    /// What is seen of them. What can fail is the line alone.
    fn sight(&self) -> EndsSight
        ensures shows { ShowsEnds self.now result }
        ensures failure { result.failure ≡ failure_of self.now.failed }
        ensures syncs { result.syncs ≡ no_sync }
    {
        EndsSight {
            line: self.line.presence(),
            peer: match &self.connection {
                Some(connection) => Some(connection.address),
                None => None,
            },
            why_cut: self.why_cut,
            refused: self.listener.refused(),
            late_octets: self.late_octets,
            failure: if self.failures == 0 {
                None
            } else {
                Some(Failure::Line)
            },
            syncs: SyncTimes::none(),
        }
    }
}

mod noted;
