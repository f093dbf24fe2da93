//! A queue goes on with another number of places.
ghost use Rattle.std.specs.Prelude.{◌≡◌, OnOk, OnErr};
ghost use Rattle.events.specs.Carried.{carried};

use crate::{Events, NoMemory};

impl Events {
    /// Has so many places from now on. All pieces are kept, in their order, and are unsent again.
    /// If there are more of them than places, the queue is full until enough have left. Memory is
    /// taken if the places become more; if there is none nothing changes.
    pub fn carry(&mut self, places: usize) -> Result<(), NoMemory>
        ensures ok { OnOk result (self.new ≡ carried places self.old) }
        ensures err { OnErr result (self.new ≡ self.old) }
    {
        // Never smaller: each piece that is kept stays (docs/DECISIONS.md, "The queue's places").
        if self.ring.capacity() < places {
            self.ring.widen(places).map_err(|_| NoMemory)?;
        }
        self.places = places;
        self.sent = 0;
        Ok(())
    }
}
