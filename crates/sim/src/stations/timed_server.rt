//! The outstations in time.

use crate::stations::cue::LAST_MS;
use crate::stations::place::OutstationServer;
use live::Listener;

/// The outstations behind a listener, in time, which begins when a gateway is there for the first
/// time.
#[derive(Drop)]
pub struct TimedServer<L: Listener + Drop> {
    place: OutstationServer<L>,
    /// The clock's moment at the start, in ms.
    start: Option<u64>,
}

impl<L: Listener + Drop> TimedServer<L> {
    /// These outstations, before the first round.
    pub fn new(place: OutstationServer<L>) -> TimedServer<L> {
        TimedServer { place, start: None }
    }

    /// Looks at each end once, and then gives the gateway the answer that goes out late at this
    /// moment of the clock, in ms. Then stations restart whose lines say so, and each line of the
    /// script gives its station the report that it has due. At last each station gives its next
    /// reply to the commands that it accepted.
    pub fn round(&mut self, now: u64) {
        self.place.look();
        self.begin(now);
        self.place.give_late(now);
        self.give_reports(now);
        // Behind the looks: no answer to a command says that its confirmation waits
        // (docs/DECISIONS.md, "A round for a reply").
        self.place.reply_all();
    }

    /// The time begins, if a gateway is there.
    fn begin(&mut self, now: u64) {
        // If it began with the listening, reports would be due before anybody is there
        // (docs/DECISIONS.md, "When time begins").
        if self.start.is_none() && self.place.is_met() {
            self.start = Some(now);
        }
    }

    /// What is due is given, once the time has begun.
    fn give_reports(&mut self, now: u64) {
        if let Some(start) = self.start {
            let passed = now.saturating_sub(start).min(LAST_MS);
            self.place.restart_all(passed);
            self.place.give_reports(passed);
        }
    }
}
