//! What puts events and actions into words.
ghost use Rattle.std.specs.Prelude.{◌≡◌, ◌++◌, ◌∷◌, [], true, string_bytes};
ghost use Rattle.gateway.specs.Log.{Log, Went};
ghost use Rattle.gateway.specs.Ports.{FitsBuffer, output_of, logged_by};
ghost use Rattle.words.specs.Ladders.{first_remembered, IsLadder};

use crate::ladder::memory::Memory;
use crate::ladder::notes::{push_action, push_event};
use crate::ladder::rungs::Style;
use crate::ladder::taken::{OpenLines, TakenOctets};
use gateway::{Action, History, Next};
use std::alloc::Global;
use std::marker::Model;

/// Puts the events and actions of a run into words, a line each, on a page.
#[derive(Drop)]
pub struct Scribe {
    alloc: Global,
    style: Style,
    memory: Memory,
    history: History,
    /// The log as it was when the page was cleared, and its text.
    poured: History,
    taken: TakenOctets,
    page: OpenLines,
    /// No memory was refused to a line so far.
    is_noted: bool,
}

impl Model for Scribe {
    ghost use Rattle.std.specs.Prelude.{string_bytes};
    ghost use Rattle.words.specs.Scribing.{Scribing, IsScribing};

    ghost Value = { Scribing };

    ghost view = { λ s. record {
      style = s.style;
      remembered = s.memory;
      log = s.history.entries;
      poured = s.poured.entries;
      logged = s.taken.octets;
      page = string_bytes s.page.text;
      is_noted = s.is_noted;
    } };

    ghost invariant = { λ s. IsScribing (record {
      style = s.style;
      remembered = s.memory;
      log = s.history.entries;
      poured = s.poured.entries;
      logged = s.taken.octets;
      page = string_bytes s.page.text;
      is_noted = s.is_noted;
    }) };
}

impl Scribe {
    /// One before the first event, on whose line addresses have these sizes. The lines show colours
    /// if it is said so: that they go to a terminal is the caller's to know.
    pub fn new(alloc: Global, style: Style) -> Scribe
        ensures { result ≡ record {
          style = style;
          remembered = first_remembered style.sizes.link;
          log = [];
          poured = [];
          logged = [];
          page = [];
          is_noted = true;
        } }
    {
        Scribe {
            alloc,
            style,
            memory: Memory::new(alloc, style.sizes.link),
            history: History::new(),
            poured: History::new(),
            taken: TakenOctets::new(),
            page: OpenLines {
                text: String::new(alloc),
            },
            is_noted: true,
        }
    }

    /// Whether all of the log is on the page, or was. Else memory was refused.
    pub fn is_noted(&self) -> bool
        ensures { result ≡ self.now.is_noted }
    {
        self.is_noted
    }

    /// The lines since they were taken off.
    pub fn page(&self) -> &[u8]
        ensures page { result.now ≡ self.now.page }
        ensures poured { IsLadder self.now.style self.now.poured self.now.logged }
        ensures behind { (news : Log) × (self.now.log ≡ news ++ self.now.poured) }
    {
        self.page.text.as_bytes()
    }

    /// Takes the lines off the page, which keeps its room.
    pub fn clear_page(&mut self)
        requires { self.old.is_noted ≡ true }
        ensures { self.new ≡ record self.old {
          poured = self.old.log;
          logged = self.old.logged ++ self.old.page;
          page = [];
        } }
    {
        self.taken = self.taken.with(&self.page);
        self.poured = self.history.again();
        self.page.text.clear();
    }

    /// Puts an event into words, whose octets are the front of the buffer.
    pub(crate) fn note_event(&mut self, next: Next, buf: &[u8; 1024])
        requires { FitsBuffer next }
        ensures log { self.new.log ≡ logged_by next buf.now ++ self.old.log }
        ensures style { self.new.style ≡ self.old.style }
        ensures poured { self.new.poured ≡ self.old.poured }
        ensures logged { self.new.logged ≡ self.old.logged }
    {
        self.history = self.history.came(&next, buf);
        let alloc = self.alloc;
        let noted = push_event(
            alloc,
            &mut self.page.text,
            &self.style,
            &mut self.memory,
            next,
            buf,
        );
        self.is_noted = self.is_noted && noted.is_ok();
    }

    /// Puts an action into words.
    pub(crate) fn note_action(&mut self, now: u64, action: &Action<'_>)
        ensures log { self.new.log ≡ Went now (output_of action.now) ∷ self.old.log }
        ensures style { self.new.style ≡ self.old.style }
        ensures poured { self.new.poured ≡ self.old.poured }
        ensures logged { self.new.logged ≡ self.old.logged }
    {
        self.history = self.history.went(&now, action);
        let alloc = self.alloc;
        let noted = push_action(
            alloc,
            &mut self.page.text,
            &self.style,
            &mut self.memory,
            now,
            action,
        );
        self.is_noted = self.is_noted && noted.is_ok();
    }
}
