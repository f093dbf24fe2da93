//! The queue of ASDUs that wait for the control centre: the pieces of reports, from `push_report`
//! or `push` until a connection acknowledged them (this gateway's own profile; IEC 60870-5-104,
//! 5.1, for what acknowledging is).
//!
//! [`Events`] is a list with two marks, its oldest piece and its first unsent one, in a ring of
//! fixed places. Pieces go behind the newest, are lent to be sent from the mark on, and leave from
//! the oldest. What is sent and not acknowledged when a connection ends is unsent again
//! ([`Events::rewind`]). What pieces say, and which frames acknowledge them, is no matter of this
//! crate.
//!
//! A place has room for the longest piece, some 264 octets. A report is written where it will
//! stand, over a piece that has left. A place that was never used is never touched.
//!
//! Proved: each call is one small function on the two lists. Above it, after every list of calls
//! the queue keeps what was pushed and isn't acknowledged, in its order: nothing is overwritten or
//! lost. Only a new queue, one that is read and one that gets more places ([`Events::carry`]) take
//! memory, and no other call can fail. The lines that a queue puts give the same queue again
//! ([`Events::put_state`], [`Events::read_state`]).
#![tactic(auto)]

ghost use Rattle.std.specs.Map.Iter.{TakesFirst, deref};
ghost use Rattle.std.specs.Iterator.{at_most};
ghost use Rattle.std.specs.Prelude.{◌≡◌, ◌<◌, ◌≤◌, ◌↔◌, [], ◌∷◌, length, take, drop, IfOk, IfSome};
ghost use Rattle.std.specs.Prelude.{IfNone, IsTrue};
ghost use Rattle.asdu.specs.Reading.{value_of};
ghost use Rattle.asdu.specs.Translation.{report_pieces};
ghost use Rattle.events.specs.Pieces.{IsSendable, AreAsdus, AreSendable};

mod carrying;
mod laws;
mod restoring;
mod ring;

use asdu::{Asdu, Piece, Pieces, Translation};
use circular_buffer::HeapCircularBuffer;
pub use laws::{pieces_are_kept_in_order, pieces_outlive_other_places};
use ring::PieceRing;
use std::alloc::Global;
use std::marker::Model;
use thiserror::Error;

/// Memory was refused.
#[derive(Clone, Copy, Debug, PartialEq, Eq, Error)]
#[error("no memory")]
pub struct NoMemory;

/// The most pieces of one report.
const MOST_PIECES: usize = 3;

/// The kept pieces, oldest first. The first ones were sent on the open connection.
#[derive(Drop)]
pub struct Events {
    ring: PieceRing,
    /// How many of the pieces were sent.
    sent: usize,
    /// For how many pieces there are places. The ring has more if it kept more pieces when their
    /// number was set anew.
    places: usize,
}

impl Model for Events {
    ghost use Rattle.events.specs.Queue.{Queue, queue_of};
    ghost use Rattle.events.specs.Pieces.{IsSound};

    ghost Value = { Queue };

    ghost view = { λ e. queue_of e.ring.items e.sent e.places };

    ghost invariant = { λ e. IsSound e.ring.items e.sent e.places e.ring.capacity };
}

impl Events {
    ghost use Rattle.events.specs.Queue.{empty, kept, free_places, pushed, marked_sent};
    ghost use Rattle.events.specs.Queue.{acknowledged, rewound, octets_of};

    /// An empty queue of so many places. This takes memory for them.
    pub fn new(alloc: Global, places: usize) -> Result<Events, NoMemory>
        ensures { IfOk result (λ e. e ≡ empty places) }
    {
        // All its room now, since nothing takes memory later (docs/DECISIONS.md, "Rings from the
        // start").
        let ring = PieceRing::with_capacity(alloc, places).map_err(|_| NoMemory)?;
        Ok(Events {
            ring,
            sent: 0,
            places,
        })
    }

    /// How many more pieces fit.
    pub fn free(&self) -> usize
        ensures { result ≡ free_places self.now }
    {
        // After settings with a smaller queue there may be more pieces than places.
        self.places.saturating_sub(self.ring.len())
    }

    /// Whether fewer than three places are free, so that the pieces of a report may not fit.
    pub fn is_full(&self) -> bool
        ensures { IsTrue result ↔ (free_places self.now < 3) }
    {
        self.free() < MOST_PIECES
    }

    /// Appends the pieces of a report, unsent. The queue may not be full, and each piece has 9 to
    /// 249 octets.
    pub fn push(&mut self, pieces: Pieces)
        requires room { 3 ≤ free_places self.old }
        requires asdus { AreAsdus pieces.items }
        ensures { self.new ≡ pushed (octets_of pieces.items) self.old }
    {
        // I frames have no shorter ASDU (docs/DECISIONS.md, "Pieces of 9 octets at least").
        for piece in pieces {
            self.keep(piece);
        }
    }

    /// Appends a piece, unsent.
    fn keep(&mut self, piece: Piece)
        requires room { 1 ≤ free_places self.old }
        requires asdu { IsSendable piece.items }
        ensures { self.new ≡ pushed (piece.items ∷ []) self.old }
    {
        self.ring.push(piece);
    }

    /// Appends the pieces of a report of at most 253 octets, unsent, each written in its place. The
    /// queue may not be full.
    pub fn push_report(&mut self, asdu: &Asdu)
        requires room { 3 ≤ free_places self.old }
        requires short { length asdu.now.octets.now ≤ 253 }
        ensures { self.new ≡ pushed (report_pieces (value_of asdu.now)) self.old }
    {
        let mut left = Translation::new(asdu);
        while !left.is_over() {
            self.append_next(&mut left);
        }
    }

    /// Writes a report's next piece where it will stand, unsent.
    #[inline(always)]
    fn append_next(&mut self, left: &mut Translation)
        requires room { 1 ≤ free_places self.old }
        requires some { 1 ≤ length left.old }
        requires lengths { AreSendable left.old }
        ensures queue { self.new ≡ pushed (take 1 left.old) self.old }
        ensures others { left.new ≡ drop 1 left.old }
    {
        self.ring.push_next(left);
    }

    /// The oldest piece that isn't sent, of 9 to 249 octets.
    pub fn unsent(&self) -> Option<&[u8]>
        ensures some { IfSome result (λ piece.
            self.now.unsent ≡ piece.now ∷ drop 1 self.now.unsent) }
        ensures none { IfNone result (self.now.unsent ≡ []) }
        ensures fits { IfSome result (λ piece. (9 ≤ length piece.now) × (length piece.now ≤ 249)) }
    {
        let piece = self.ring.get(self.sent)?;
        Some(piece.as_slice())
    }

    /// The oldest unsent piece was sent.
    pub fn mark_sent(&mut self)
        requires { 0 < length self.old.unsent }
        ensures { self.new ≡ marked_sent self.old }
    {
        prove!(self.sent < self.ring.len());
        self.sent += 1;
    }

    /// Removes the `count` oldest pieces, which were sent.
    pub fn acknowledge(&mut self, count: usize)
        requires { count ≤ length self.old.sent }
        ensures { self.new ≡ acknowledged count self.old }
    {
        self.ring.remove_oldest(count);
        self.sent -= count;
    }

    /// All kept pieces are unsent again.
    pub fn rewind(&mut self)
        ensures { self.new ≡ rewound self.old }
    {
        self.sent = 0;
    }

    /// How many pieces were sent on the open connection.
    pub fn sent(&self) -> usize
        ensures { result ≡ length self.now.sent }
    {
        self.sent
    }

    /// The ring itself with the kept pieces, oldest first. It has as many places as the queue, or
    /// more.
    pub fn into_ring(self) -> HeapCircularBuffer<Piece>
        ensures pieces { octets_of result.items ≡ kept self }
        ensures capacity { self.places ≤ result.capacity }
    {
        let Events {
            ring,
            sent: _,
            places: _,
        } = self;
        ring.into_buffer()
    }

    /// The kept pieces, oldest first.
    pub fn kept(&self) -> Kept<'_>
        ensures { result ≡ kept self.now }
    {
        Kept {
            ring: &self.ring,
            next: 0,
        }
    }
}

/// An iterator that lends the kept pieces, oldest first. Contracts see it as the list of those to
/// come.
#[derive(Drop)]
pub struct Kept<'a> {
    ring: &'a PieceRing,
    /// How many pieces were lent.
    next: usize,
}

impl<'a> Model for Kept<'a> {
    ghost use Rattle.std.specs.Prelude.{List, ℕ, drop};
    ghost use Rattle.events.specs.Queue.{octets_of};

    ghost Value = { List (List ℕ) };

    ghost view = { λ k. octets_of (drop k.next k.ring.now.items) };
}

impl<'a> Iterator for Kept<'a> {
    type Item = &'a [u8];

    ghost next_gives = { TakesFirst deref };

    ghost remaining = { λ s. at_most (length s) };

    fn next(&mut self) -> Option<&'a [u8]> {
        let piece = self.ring.get(self.next)?;
        prove!(self.next < self.ring.len());
        self.next += 1;
        Some(piece.as_slice())
    }
}
