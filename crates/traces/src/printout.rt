//! What a run prints of its actions.
ghost use Rattle.std.specs.Prelude.{◌≡◌, ◌++◌, ◌∷◌, [], OnOk, OnErr};
ghost use Rattle.gateway.specs.Log.{Went};
ghost use Rattle.gateway.specs.Ports.{logged_by, output_of};
ghost use Rattle.traces.specs.Actions.{line_of, lines_of_actions};

use crate::actions::print_action_at;
use crate::moments::Moment;
use crate::page::Page;
use gateway::{Action, History, Next};
use std::alloc::{AllocError, Global};
use std::marker::Model;

/// The lines of a run's actions, of which those alone are stored that weren't taken off. The log of
/// the run is stored nowhere: only proofs know it.
#[derive(Drop)]
pub struct Printout {
    alloc: Global,
    history: History,
    /// The log as it was when the lines were taken off.
    poured: History,
    lines: Page,
    /// That of the latest action.
    moment: Moment,
}

impl Model for Printout {
    ghost use Rattle.std.specs.Prelude.{◌≡◌, ◌++◌};
    ghost use Rattle.traces.specs.Actions.{lines_of_actions};
    ghost use Rattle.traces.specs.Printout.{Printed};

    ghost Value = { Printed };

    ghost view = { λ p. record {
      log = p.history.entries;
      poured = p.poured.entries;
      lines = p.lines;
    } };

    ghost invariant = { λ p. lines_of_actions p.poured.entries ++ p.lines
        ≡ lines_of_actions p.history.entries };
}

impl Printout {
    /// An empty one, of a run in which nothing came yet.
    pub fn new(alloc: Global) -> Printout
        ensures { result ≡ record { log = []; poured = []; lines = [] } }
    {
        Printout {
            alloc,
            history: History::new(),
            poured: History::new(),
            lines: Page::new(alloc),
            moment: Moment::new(0),
        }
    }

    /// The log so far.
    pub(crate) fn log(&self) -> History
        ensures { result.entries ≡ self.now.log }
    {
        self.history.again()
    }

    /// An event has come, which an answer gives.
    pub fn came(&mut self, next: &Next, buf: &[u8; 1024])
        ensures { self.new ≡ record self.old { log = logged_by next.now buf.now ++ self.old.log } }
    {
        self.history = self.history.came(next, buf);
    }

    /// An action goes out at a moment: its line is printed. An `Err` is want of memory, and changes
    /// nothing.
    pub fn went(&mut self, now: u64, action: &Action<'_>) -> Result<(), AllocError>
        ensures ok { OnOk result (self.new ≡ record self.old {
          log = Went now (output_of action.now) ∷ self.old.log;
          lines = self.old.lines ++ line_of now (output_of action.now);
        }) }
        ensures err { OnErr result (self.new ≡ self.old) }
    {
        self.moment.renew(now);
        print_action_at(self.alloc, &mut self.lines, &self.moment, action)?;
        self.history = self.history.went(&now, action);
        Ok(())
    }

    /// The lines: those of the log's actions, behind those that were taken off.
    pub fn lines(&self) -> &[u8]
        ensures value { result.now ≡ self.now.lines }
        ensures lines { lines_of_actions self.now.poured ++ self.now.lines
            ≡ lines_of_actions self.now.log }
    {
        self.lines.octets()
    }

    /// Takes all lines off, and keeps their room.
    pub fn clear(&mut self)
        ensures { self.new ≡ record self.old { poured = self.old.log; lines = [] } }
    {
        self.lines.clear();
        self.poured = self.history.again();
    }
}
