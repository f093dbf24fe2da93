//! What passes between the gateway and a station, as it is logged.
ghost use Rattle.std.specs.Prelude.{◌≡◌, Some};
ghost use Rattle.runlog.specs.Exchange.{traffic_after};
ghost use Rattle.runlog.specs.Orders.{octet as octet_of, order_of};
ghost use Rattle.runlog.specs.Traffic as spec;
ghost use Rattle.runlog.specs.Trails.{fate_told};
ghost use Rattle.runlog.specs.declared.fate.CommandFate.TheVariants.{Sent};

use crate::content::{Content, Skip, content_of, reply_of};
use crate::fate::{CommandFate, Mishap};
use crate::gathered::Gathered;
use crate::note::{LogLine, Note};
use crate::order::{Order, octet};
use crate::trail::Trail;
use asdu::Sizes;
use link::Answer;

/// What has passed between the gateway and a station.
#[derive(Clone, Copy, PartialEq, Eq)]
pub struct Traffic {
    /// Its link address.
    address: u16,
    reports: u64,
    last_report: Option<u64>,
    skipped: u64,
    commands: u64,
    /// The latest command that went out to it.
    order: Option<Order>,
    /// How many of its answers were spoilt, and how many came late.
    spoilings: u64,
    late_answers: u64,
    skips: Gathered,
    mirrors: Gathered,
    spoilt: Gathered,
    late: Gathered,
}

impl Traffic {
    /// That with the station with this link address, before anything has passed.
    pub(crate) fn new(address: u16) -> Traffic
        ensures { result ≡ spec.new_traffic address }
    {
        Traffic {
            address,
            reports: 0,
            last_report: None,
            skipped: 0,
            commands: 0,
            order: None,
            spoilings: 0,
            late_answers: 0,
            skips: Gathered::new(),
            mirrors: Gathered::new(),
            spoilt: Gathered::new(),
            late: Gathered::new(),
        }
    }

    /// The station's link address.
    pub fn address(&self) -> u16
        ensures { result ≡ self.now.address }
    {
        self.address
    }

    /// How many polls it has answered with user data.
    pub fn reports(&self) -> u64
        ensures { result ≡ self.now.reports }
    {
        self.reports
    }

    /// When it last did, in ms.
    pub fn last_report(&self) -> Option<u64>
        ensures { result ≡ self.now.last_report }
    {
        self.last_report
    }

    /// How many of these reports weren't passed on, but for answers to commands.
    pub fn skipped(&self) -> u64
        ensures { result ≡ self.now.skipped }
    {
        self.skipped
    }

    /// How many commands went out to it.
    pub fn commands(&self) -> u64
        ensures { result ≡ self.now.commands }
    {
        self.commands
    }

    /// How often something else than an answer came in answer to a request to it.
    pub fn spoilings(&self) -> u64
        ensures { result ≡ self.now.spoilings }
    {
        self.spoilings
    }

    /// How often octets came from it when its exchange was over.
    pub fn late_answers(&self) -> u64
        ensures { result ≡ self.now.late_answers }
    {
        self.late_answers
    }

    /// This became of a command at the station.
    fn tell(&self, fate: Option<CommandFate>, order: Option<Order>, now: u64, trail: &mut Trail)
        ensures { trail.new ≡ fate_told fate order self.now.address now trail.old }
    {
        if let (Some(fate), Some(order)) = (fate, order) {
            trail.add(Note::Fate(order, self.address, fate), now);
        }
    }

    /// A command went out for the first time.
    pub(crate) fn send(&mut self, order: Option<Order>, now: u64, trail: &mut Trail)
        ensures sent { self.new ≡ spec.sent order self.old }
        ensures told { trail.new ≡ fate_told (Some Sent) order self.old.address now trail.old }
    {
        self.commands = self.commands.saturating_add(1);
        self.order = order;
        self.tell(Some(CommandFate::Sent), order, now, trail);
    }

    /// This befell the station.
    pub(crate) fn suffer(&mut self, mishap: Mishap, now: u64, trail: &mut Trail)
        ensures noted { self.new ≡ spec.suffered mishap now self.old }
        ensures told { trail.new ≡ spec.mishap_told mishap now self.old trail.old }
    {
        let address = self.address;
        match mishap {
            // The latest command that went out is the one on its line.
            Mishap::GivenUp => self.tell(Some(CommandFate::GivenUp), self.order, now, trail),
            Mishap::MirrorDropped => self.mirrors.add(Note::MirrorDropped(address), now),
            Mishap::Spoilt(spoiling) => {
                self.spoilings = self.spoilings.saturating_add(1);
                self.spoilt.add(Note::Spoilt(address, spoiling), now);
            }
            Mishap::Late(ms) => {
                self.late_answers = self.late_answers.saturating_add(1);
                self.late.add(Note::Late(address, ms), now);
            }
        }
    }

    /// A report isn't passed on.
    fn skip(&mut self, why: Skip, kind: u8, now: u64)
        ensures { self.new ≡ spec.skip_noted why kind now self.old }
    {
        self.skipped = self.skipped.saturating_add(1);
        self.skips.add(Note::Skipped(self.address, kind, why), now);
    }

    /// The station answered a poll with these user data.
    pub(crate) fn report(&mut self, sizes: Sizes, now: u64, report: &[u8], trail: &mut Trail)
        ensures noted { self.new ≡ spec.reported sizes now report.now self.old }
        ensures told { trail.new ≡ spec.content_told (spec.content_of sizes report.now) sizes now
            report.now self.old trail.old }
    {
        self.reports = self.reports.saturating_add(1);
        self.last_report = Some(now);
        match content_of(sizes, report) {
            Content::Report => {}
            Content::Reply => self.reply(sizes, now, report, trail),
            Content::Skipped(why) => self.skip(why, octet(report, 0), now),
        }
    }

    /// The station answered so, or not.
    pub(crate) fn note_answer(
        &mut self,
        sizes: Sizes,
        now: u64,
        answer: Option<Answer<'_>>,
        trail: &mut Trail,
    )
        ensures noted { self.new ≡ traffic_after answer.entry sizes now self.old }
        ensures told { trail.new ≡ spec.answer_told answer.entry sizes now self.old trail.old }
    {
        match answer {
            Some(Answer::Report(asdu)) => self.report(sizes, now, asdu.octets(), trail),
            // What else an answer says shows in the station's ASDU, if at all (docs/DECISIONS.md,
            // "What became of a command").
            Some(Answer::Busy) => self.tell(Some(CommandFate::Busy), self.order, now, trail),
            _ => {}
        }
    }

    /// The station answered a command so.
    fn reply(&self, sizes: Sizes, now: u64, report: &[u8], trail: &mut Trail)
        ensures { trail.new ≡ fate_told (spec.reply_of (octet_of report.now 2))
            (order_of sizes report.now) self.now.address now trail.old }
    {
        self.tell(
            reply_of(octet(report, 2)),
            Order::read(sizes, report),
            now,
            trail,
        );
    }

    /// The line of the first of its kinds that has one to be logged now, at most once a minute.
    pub(crate) fn line(&mut self, now: u64) -> Option<LogLine>
        ensures { (self.new, result) ≡ spec.traffic_line now self.old }
    {
        // A wrong setting brings one of these with each answer, so once a minute is enough.
        if let Some(line) = self.skips.minute_line(now) {
            return Some(line);
        }
        if let Some(line) = self.mirrors.minute_line(now) {
            return Some(line);
        }
        if let Some(line) = self.spoilt.minute_line(now) {
            return Some(line);
        }
        self.late.minute_line(now)
    }
}

/// The line of the first station that has one to be logged now.
pub(crate) fn traffic_line(traffic: &mut [Traffic], now: u64) -> Option<LogLine>
    ensures { (traffic.new, result) ≡ spec.first_line now traffic.old }
{
    for station in traffic.iter_mut() {
        if let Some(line) = station.line(now) {
            return Some(line);
        }
    }
    None
}
