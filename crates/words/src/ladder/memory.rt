//! What is remembered of a run to put it into words.
ghost use Rattle.std.specs.Prelude.{◌≡◌, ◌<◌, ◌≤◌, ◌↔◌, [], false, true, not, length, Some, IsTrue};
ghost use Rattle.std.specs.Prelude.{OnOk};
ghost use Rattle.words.specs.Ladders.{first_remembered, still_awaited, Listens, ListensTo};

use apci::{Apdu, Received as ApduReceived};
use ft12::{LinkSize, Received};
use std::alloc::{AllocError, Global};
use std::marker::Model;

/// What is remembered of a run to put it into words.
#[derive(Drop)]
pub(crate) struct Memory {
    /// What came of the line since its last frame.
    line: ft12::Assembler,
    /// What came of the connection since its last APDU.
    connection: apci::Assembler,
    /// The octets of the latest request.
    request: Vec<u8>,
    /// No frame came since the latest request.
    is_awaited: bool,
}

impl Model for Memory {
    ghost use Rattle.words.specs.Ladders.{Remembered};

    ghost Value = { Remembered };

    ghost view = { λ m. record {
      size = m.line.size;
      line = m.line.so_far;
      centre = m.connection.so_far;
      request = m.request.items;
      is_awaited = m.is_awaited;
    } };
}

impl Memory {
    /// What is remembered before the first event.
    pub(crate) fn new(alloc: Global, size: LinkSize) -> Memory
        ensures { result ≡ first_remembered size }
    {
        Memory {
            line: ft12::Assembler::new(size),
            connection: apci::Assembler::new(),
            request: Vec::new(alloc),
            is_awaited: false,
        }
    }

    /// Whether nobody waits for an answer.
    pub(crate) fn is_late(&self) -> bool
        ensures { result ≡ not self.now.is_awaited }
    {
        !self.is_awaited
    }

    /// Whether these are the octets of the latest request.
    pub(crate) fn is_repeat(&self, octets: &[u8]) -> bool
        ensures { IsTrue result ↔ (self.now.request ≡ octets.now) }
    {
        self.request.as_slice() == octets
    }

    /// A request goes out: what came of the line before it is no beginning of its answer.
    pub(crate) fn ask(&mut self, octets: &[u8]) -> Result<(), AllocError>
        ensures { OnOk result (self.new ≡ record self.old {
          line = Some [];
          request = octets.now;
          is_awaited = true;
        }) }
    {
        self.line.clear();
        self.is_awaited = true;
        self.request.clear();
        self.request.extend_from_slice(octets)
    }

    /// A connection begins or ends.
    pub(crate) fn forget_connection(&mut self)
        ensures { self.new ≡ record self.old { centre = Some [] } }
    {
        self.connection.clear();
    }

    /// Takes octets of a piece of the line, up to the end of a frame, and says how many and what
    /// was received.
    pub(crate) fn receive_line(&mut self, piece: &[u8]) -> (usize, Received)
        ensures arrived { Listens self.old.size self.old.line piece.now result.0 result.1
            self.new.line }
        ensures remembered { self.new ≡ record self.old {
          line = self.new.line;
          is_awaited = still_awaited self.old.is_awaited result.1;
        } }
        ensures within { result.0 ≤ length piece.now }
        ensures progress { 0 < length piece.now → 0 < result.0 }
    {
        let (taken, arrived) = self.line.feed(piece);
        if let Received::Frame(_) = arrived {
            self.is_awaited = false;
        }
        (taken, arrived)
    }

    /// The same of the connection; an APDU that is whole comes with it.
    pub(crate) fn receive_connection(&mut self, piece: &[u8]) -> (usize, ApduReceived, Option<Apdu>)
        ensures arrived { ListensTo self.old.centre piece.now result.0 result.1 result.2
            self.new.centre }
        ensures remembered { self.new ≡ record self.old { centre = self.new.centre } }
        ensures within { result.0 ≤ length piece.now }
        ensures progress { 0 < length piece.now → 0 < result.0 }
    {
        let (taken, arrived) = self.connection.feed(piece);
        (taken, arrived, self.connection.take())
    }
}
