//! What the program needs of the system that it runs on.
ghost use Rattle.std.specs.IoError.{error_kind};
ghost use Rattle.std.specs.declared.io.ErrorKind.TheVariants.{OutOfMemory};
ghost use Rattle.std.specs.Prelude.{◌≡◌, ◌↔◌, ℕ, Bool, List, Result, IfOk, IfErr, map, option_map};
ghost use Rattle.std.specs.Prelude.{string_bytes};
ghost use Rattle.sim.specs.Scenarios.{FitsScenario};
ghost use Rattle.settings.specs.Live.{places_of};
ghost use Rattle.telegate.specs.Asked.{asked_by};
ghost use Rattle.telegate.specs.Controlled.{HasPrinted};
ghost use Rattle.telegate.specs.Playing.{ArePlayed, ArePlayedBy};
ghost use Rattle.telegate.specs.Ran.{HasComeAt, HasRunBy};
ghost use Rattle.state.specs.declared.files.reading.Stood.{Stood};
ghost use Rattle.telegate.specs.Source.{Gives};
ghost use Rattle.telegate.specs.Starts.{StartsIn};
ghost use Rattle.telegate.specs.declared.fault.Fault.{Fault};
ghost use Rattle.telegate.specs.declared.host.Unread.TheVariants as unread;
ghost use Rattle.telegate.specs.declared.host.Wishes.{Wishes};

use crate::controlling::{Errands, Uncontrolled, control_at};
use crate::fault::{Fault, RunFault};
use crate::inquiry::ask_at;
use crate::living::{read_live, run_out};
use crate::playing::{play_behind, scenario_of};
use crate::site::{Notes, Process, tell_refused};
use crate::source::Source;
use crate::telling::{Teller, ToldListener};
use centre::Outcome;
use gateway::{Config, History};
use live::{AllowList, SystemClock};
use runlog::{LogNames, NamedStation};
use settings::{LiveSettings, Names as SiteNames};
use sim::{LineListener, Scenario};
use sqlite_disk::Disk;
use sqlite_std_file::FileFrom;
use state::{Directory, Folder, Starts, Stood, stood_in};
use std::alloc::{AllocError, Global};
use std::fs::File;
use std::io::{Read, Write};
use std::rt::Files;
use std::{io, mem};

/// The name of standard input.
pub(crate) const INPUT: &str = "-";

/// A file that has nothing, which each system has.
const NOWHERE: &str = "/dev/null";

/// Why the octets of a file, or of an answer, aren't had.
#[derive(Clone, Copy)]
pub(crate) enum Unread {
    /// There is no such file, or it can't be read; or nobody answers.
    Unreadable,
    NoMemory,
}

/// What a live run is to do beside its settings.
#[derive(Drop)]
pub(crate) struct Wishes<'a> {
    /// A line that isn't there, or ends, is reached again.
    pub(crate) redial: bool,
    /// What happens is logged on standard error.
    pub(crate) log: bool,
    /// Each line of that begins with how severe it is.
    pub(crate) log_severity: bool,
    /// Each event and each action is printed.
    pub(crate) record: bool,
    /// The name of the directory in which the state is kept, if it is to be.
    pub(crate) state: Option<&'a str>,
    /// If the state can't be kept the run goes on without it.
    pub(crate) bears_loss: bool,
    /// Who may connect.
    pub(crate) allow_list: AllowList,
    /// Where the run can be looked at, as HOST:PORT, if it can.
    pub(crate) status: Option<&'a str>,
    /// What the line and the stations are called.
    pub(crate) names: &'a SiteNames,
}

/// A system with files, on which the gateway can run live.
pub(crate) trait Host {
    // The file of this name has these octets.
    ghost has: { Self → List ℕ → List ℕ → Type 0 };

    // The file of this name can't be read.
    ghost lacks: { Self → List ℕ → Type 0 };

    // The gateway ran live, once, by settings of these octets and these wishes, and this is how
    // that ended. The system came from the one to the other by that.
    ghost ran: { Self → Self → List ℕ → Wishes → Result (Unit {0}) Fault → Type 0 };

    // The outstations of a script of these octets were played, by settings of these, and this is
    // how that ended.
    ghost played: { Self → List ℕ → List ℕ → Result (Unit {0}) Fault → Type 0 };

    // The directory of this name has this.
    ghost stands: { Self → List ℕ → Stood → Type 0 };

    // At this place this was answered to this request.
    ghost answered: { Self → List ℕ → List ℕ → List ℕ → Type 0 };

    // Nobody answers at this place.
    ghost silent: { Self → List ℕ → Type 0 };

    // Whether standard output shows colours of itself.
    ghost colours: { Self → Bool };

    /// What the text of a file is read from.
    type Text: Read + Drop;

    /// The octets of a file.
    fn read(&self, name: &str) -> Result<Vec<u8>, Unread>
        ensures octets { IfOk result (λ octets. has self.now name.now octets.items) }
        ensures none { IfErr result (λ why. why ≡ unread.Unreadable → lacks self.now name.now) };

    /// The text of a file, from its beginning on.
    fn open(&self, name: &str) -> Result<Self::Text, Unread>
        ensures octets { IfOk result (λ text. (octets : List ℕ) →
            Gives (Self.Text.remaining text) octets → has self.now name.now octets) };

    /// Whether a file can be opened again from its beginning: a pipe can't.
    fn can_reopen(&self, name: &str) -> bool;

    /// Whether somebody looks on at standard error.
    fn is_watched(&self) -> bool;

    /// Whether standard output shows colours of itself.
    fn shows_colours(&self) -> bool
        ensures { result ≡ colours self.now };

    /// Runs the gateway live, by settings of these octets, until it ends.
    fn run(&mut self, config: &[u8], wishes: Wishes<'_>) -> Result<(), Fault>
        ensures { ran self.old self.new config.now wishes.entry result };

    /// Plays the outstations of a script, at the place where a live run with settings of these
    /// octets looks for its line.
    /// What passes there is printed, with each frame in words if that is asked for.
    fn play(&self, config: &[u8], script: &[u8], words: bool) -> Result<(), Fault>
        ensures { played self.now config.now script.now result };

    /// Is a control centre of a gateway, and prints what passes. Answers what became of its errand.
    fn control<W: Write>(
        &self,
        errands: &Errands<'_>,
        addresses: &[u16],
        out: &mut W,
    ) -> Result<Outcome, Uncontrolled>
        ensures { IfOk result (λ _. HasPrinted (W.contents out.old) (W.contents out.new)) };

    /// What stands in a directory, in which nothing is changed.
    fn look(&self, directory: &str) -> Result<Stood, Unread>
        ensures stood { IfOk result (stands self.now directory.now) }
        ensures none { IfErr result (λ why. why ≡ unread.Unreadable →
            lacks self.now directory.now) };

    /// What is answered to a request at a place, as HOST:PORT, within some seconds.
    fn ask(&self, place: &str, request: &[u8]) -> Result<Vec<u8>, Unread>
        ensures answer { IfOk result (λ octets.
            answered self.now place.now request.now octets.items) }
        ensures none { IfErr result (λ why. why ≡ unread.Unreadable → silent self.now place.now) };
}

/// The system of a process, in whose directory this stands. What led to the state that a run may
/// find there only proofs know.
#[derive(Drop)]
pub(crate) struct System<'r, S: Starts, N: Notes + Default + Drop> {
    pub(crate) rt: &'r HostRuntime,
    /// Whether its standard error is a terminal, and its standard output isn't.
    pub(crate) is_watched: bool,
    /// Whether standard output shows colours of itself.
    pub(crate) has_colours: bool,
    /// What stands in the files of the directory that a run is told.
    pub(crate) starts: S,
    /// What led to the state at the head of the newest log there.
    pub(crate) lineage: History,
    /// What live runs asked it for.
    pub(crate) notes: N,
}

impl<S: Starts, N: Notes + Default + Drop> Host for System<'_, S, N> {
    ghost has = { λ _ _ _. Unit {0} };

    ghost lacks = { λ _ _. Unit {0} };

    ghost use Rattle.telegate.specs.Asked.{asked_by};
    ghost use Rattle.telegate.specs.Ran.{HasRunBy};

    ghost ran = { λ old new text wishes ended. HasRunBy (λ settings. StartsIn
        ⟦<FileFrom<S::Found> as Disk>⟧ wishes settings old.lineage.entries)
        (asked_by old.lineage.entries (N.calls old.notes) (N.clocks old.notes))
        (asked_by old.lineage.entries (N.calls new.notes) (N.clocks new.notes)) text wishes ended };

    ghost use Rattle.telegate.specs.Playing.{ArePlayedBy};

    ghost played = { λ _ config script answer. ArePlayedBy config script answer };

    ghost stands = { λ _ _ _. Unit {0} };

    ghost answered = { λ _ _ _ _. Unit {0} };

    ghost silent = { λ _ _. Unit {0} };

    ghost colours = { λ s. s.has_colours };

    type Text = File;

    fn read(&self, name: &str) -> Result<Vec<u8>, Unread> {
        match std::fs::read(self.rt, path_of(name)) {
            Ok(octets) => Ok(octets),
            Err(fault) => Err(told_unread(self.rt, "file", name, &fault)),
        }
    }

    fn open(&self, name: &str) -> Result<File, Unread> {
        match File::open(self.rt, path_of(name)) {
            Ok(file) => Ok(file),
            Err(fault) => Err(told_unread(self.rt, "file", name, &fault)),
        }
    }

    fn can_reopen(&self, name: &str) -> bool {
        match std::fs::metadata(self.rt, path_of(name)) {
            Ok(metadata) => metadata.is_file(),
            Err(_) => false,
        }
    }

    fn is_watched(&self) -> bool
        ensures { result ≡ self.now.is_watched }
    {
        self.is_watched
    }

    fn shows_colours(&self) -> bool
        ensures { result ≡ self.now.has_colours }
    {
        self.has_colours
    }

    fn run(&mut self, config: &[u8], wishes: Wishes<'_>) -> Result<(), Fault>
        // It asked for what this one run asks for, once, and for nothing else.
        ensures { HasRunBy (λ settings. StartsIn ⟦<FileFrom<S::Found> as Disk>⟧ wishes.entry
            settings self.old.lineage.entries) (asked_by self.old.lineage.entries
            (N.calls self.old.notes) (N.clocks self.old.notes)) (asked_by self.old.lineage.entries
            (N.calls self.new.notes) (N.clocks self.new.notes)) config.now wishes.entry result }
    {
        let (settings, places) = read_live(self.rt.alloc(), config)?;
        Ok(run_process(self, &settings, &places, config, wishes)?)
    }

    fn play(&self, config: &[u8], script: &[u8], words: bool) -> Result<(), Fault>
        ensures { ArePlayedBy config.now script.now result }
    {
        let (settings, places) = read_live(self.rt.alloc(), config)?;
        let scenario = scenario_of(self.rt.alloc(), &settings, script)?;
        play_at(self.rt, &settings, scenario, places.line.as_str(), words)
    }

    fn control<W: Write>(
        &self,
        errands: &Errands<'_>,
        addresses: &[u16],
        out: &mut W,
    ) -> Result<Outcome, Uncontrolled>
        ensures { IfOk result (λ _. HasPrinted (W.contents out.old) (W.contents out.new)) }
    {
        control_at(self.rt, errands, addresses, out)
    }

    fn look(&self, directory: &str) -> Result<Stood, Unread> {
        match stood_in(self.rt, directory) {
            Ok(stood) => Ok(stood),
            Err(fault) => Err(told_unread(self.rt, "directory", directory, &fault)),
        }
    }

    fn ask(&self, place: &str, request: &[u8]) -> Result<Vec<u8>, Unread> {
        match ask_at(self.rt, self.rt.alloc(), place, request) {
            Ok(answer) => Ok(answer),
            Err(fault) => Err(told_unread(self.rt, "status", place, &fault)),
        }
    }
}

/// Why a file, a directory or an answer isn't had. What the system says of it is told.
fn told_unread(rt: &HostRuntime, what: &str, place: &str, fault: &io::Error) -> Unread
    ensures { (result ≡ unread.NoMemory) ↔ (error_kind fault.now ≡ OutOfMemory) }
{
    if fault.kind() == io::ErrorKind::OutOfMemory {
        return Unread::NoMemory;
    }
    tell_refused(rt, what, place, fault);
    Unread::Unreadable
}

/// Plays the outstations of a script at a place: `tcp:HOST:PORT` or `unix:PATH`.
fn play_at(
    rt: &HostRuntime,
    settings: &Config,
    scenario: Scenario,
    place: &str,
    words: bool,
) -> Result<(), Fault>
    requires { FitsScenario settings.now scenario }
    ensures { ArePlayed result }
{
    // Held until the play is over.
    let Ok(_held) = standard_descriptors(rt) else {
        return Err(Fault::Device);
    };
    let Ok(mut clock) = SystemClock::start(rt) else {
        return Err(Fault::Device);
    };
    match LineListener::listen(rt, place) {
        Ok(listener) => {
            let teller = Teller::new(rt, rt.alloc(), settings, words);
            teller.tell_listening(place);
            let listener = ToldListener::new(teller, listener);
            match play_behind(rt, rt.alloc(), settings, scenario, &mut clock, listener) {
                Ok(()) => Ok(()),
                Err(_) => Err(Fault::NoMemory),
            }
        }
        Err(fault) if fault.kind() == io::ErrorKind::OutOfMemory => Err(Fault::NoMemory),
        Err(fault) => {
            tell_refused(rt, "line", place, &fault);
            Err(Fault::Device)
        }
    }
}

/// Runs the gateway live with these settings and places, which were read from this text, in a
/// process of this system. The process notes for the system what it is asked for.
#[tactic(auto, using(crate::proofs::RanLemmas::never_at))]
fn run_process<S: Starts, N: Notes + Default + Drop>(
    system: &mut System<'_, S, N>,
    settings: &Config,
    places: &LiveSettings,
    text: &[u8],
    wishes: Wishes<'_>,
) -> Result<(), RunFault>
    ensures { HasComeAt (StartsIn ⟦<FileFrom<S::Found> as Disk>⟧ wishes.entry settings.now
        system.old.lineage.entries) settings.now wishes.entry (asked_by system.old.lineage.entries
        (N.calls system.old.notes) (N.clocks system.old.notes) (places_of places.now))
        (asked_by system.old.lineage.entries (N.calls system.new.notes)
        (N.clocks system.new.notes) (places_of places.now)) result }
{
    let rt = system.rt;
    let Ok(stations) = names_of(rt.alloc(), wishes.names) else {
        return Err(RunFault::NoMemory);
    };
    // Held until the run is over.
    let Ok(_held) = standard_descriptors(rt) else {
        return Err(RunFault::EndUnusable);
    };
    let names = named_by(wishes.names, stations.as_slice());
    let (starts, notes) = (system.starts, mem::take(&mut system.notes));
    let mut site = process_of(rt, places, names, &wishes, starts, &system.lineage, notes);
    let answer = run_out(&mut site, settings, text, wishes);
    system.notes = site.notes;
    answer
}

/// A process of a system with these settings and names, and a log as it is wished. This led to the
/// state in its directory.
fn process_of<'r, S: Starts, N: Notes + Drop>(
    rt: &'r HostRuntime,
    places: &'r LiveSettings,
    names: LogNames<'r>,
    wishes: &Wishes<'_>,
    starts: S,
    lineage: &History,
    notes: N,
) -> Process<'r, S, N>
    ensures severity { result.has_severity ≡ wishes.now.log_severity }
    ensures asked { asked_by result.lineage.entries (N.calls result.notes) (N.clocks result.notes)
        (places_of result.places.now) ≡ asked_by lineage.now.entries (N.calls notes)
        (N.clocks notes) (places_of places.now) }
{
    Process {
        rt,
        places,
        names,
        has_severity: wishes.log_severity,
        starts,
        lineage: lineage.again(),
        notes,
    }
}

/// What the line and these stations are called.
fn named_by<'a>(names: &'a SiteNames, stations: &'a [NamedStation<'a>]) -> LogNames<'a>
    ensures line { option_map (λ s. s.now) result.line ≡ option_map string_bytes names.now.line }
    ensures stations { result.stations ≡ stations.entry }
{
    let line = match &names.line {
        Some(line) => Some(line.as_str()),
        None => None,
    };
    LogNames { line, stations }
}

/// What stations are called, for the log and for who looks: each by its own name, in their order.
fn names_of<'a>(alloc: Global, names: &'a SiteNames) -> Result<Vec<NamedStation<'a>>, AllocError>
    ensures { IfOk result (λ called. map {B = ℕ × List ℕ} (λ s. (s.link, s.name.now)) called.items
        ≡ map (λ s. (s.link, string_bytes s.name)) names.now.stations.items) }
{
    let mut called = Vec::new(alloc);
    let stations = names.stations.as_slice();
    for station in stations {
        called.push(NamedStation {
            link: station.link,
            name: station.name.as_str(),
        })?;
    }
    Ok(called)
}

/// Where the file of a name is: `-` is standard input.
fn path_of(name: &str) -> &str {
    if name == INPUT { "/dev/stdin" } else { name }
}

/// Files at those of the descriptors 0, 1 and 2 that were closed when the process began, since the
/// system gives the lowest numbers that are free. Else an end of the run would get one of them, and
/// the text of the log or of the record would go out on it. They are opened for reading alone, so
/// that what is written there fails, as it does if they are closed.
fn standard_descriptors<R: Files>(rt: &R) -> io::Result<(R::File, R::File, R::File)> {
    // For reading alone: a record or a log that goes there ends as one that can't be written
    // (docs/DECISIONS.md, "Closed standard descriptors").
    let first = File::open(rt, NOWHERE)?;
    let second = File::open(rt, NOWHERE)?;
    Ok((first, second, File::open(rt, NOWHERE)?))
}

/// A file of a host, as a text that is opened anew each time.
#[derive(Clone, Copy)]
pub(crate) struct HostFile<'a, H> {
    pub(crate) host: &'a H,
    pub(crate) name: &'a str,
}

impl<H: Host> Source for HostFile<'_, H> {
    type Text = H::Text;

    ghost has = { λ s octets. H.has s.host.now s.name.now octets };

    fn open(&self) -> Result<H::Text, Unread> {
        self.host.open(self.name)
    }
}
