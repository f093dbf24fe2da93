//! The ring that the pieces stand in: the toolchain's, whose cells are used again.
//!
//! A piece is written over one that has left, so only its own octets are written. Once all pieces
//! have left, the next one goes to the first of their cells. So a queue that is nearly empty stays
//! in the processor's cache (docs/DECISIONS.md, "Cells that are used again").
ghost use Rattle.std.specs.Prelude.{◌≡◌, ◌<◌, ◌≤◌, ℕ, List, [], ◌∷◌, ◌++◌, length};
ghost use Rattle.std.specs.Prelude.{slice_get, option_copied, take, IfOk, OnOk, OnErr};
ghost use Rattle.circular_buffer.specs.Buffer.{buffer};
ghost use Rattle.events.specs.Ring.{ring_of, appended, without_oldest};

use asdu::{Piece, Translation};
use circular_buffer::HeapCircularBuffer;
use std::alloc::{AllocError, Global};
use std::marker::Model;

/// How many cells stay once all pieces have left. So many are in the processor's cache. To look at
/// what one more held would wait for memory, and a cell that is made anew isn't looked at.
const USED_AGAIN: usize = 1024;

/// The pieces, oldest first, in a ring of cells.
#[derive(Drop)]
pub(crate) struct PieceRing {
    /// The cells of the pieces, then cells to be written over.
    cells: HeapCircularBuffer<Piece>,
    /// How many pieces there are.
    count: usize,
}

impl Model for PieceRing {
    ghost use Rattle.std.specs.Prelude.{◌≤◌, length, take};
    ghost use Rattle.events.specs.Ring.{Ring, ring_of};

    ghost Value = { Ring };

    ghost view = { λ r. ring_of (take r.count r.cells.items) r.cells.capacity };

    ghost invariant = { λ r. r.count ≤ length r.cells.items };
}

impl PieceRing {
    /// A ring without pieces. This takes memory for so many.
    pub(crate) fn with_capacity(alloc: Global, capacity: usize) -> Result<PieceRing, AllocError>
        ensures { IfOk result (λ r. r ≡ ring_of [] capacity) }
    {
        let cells = HeapCircularBuffer::with_capacity(alloc, capacity)?;
        Ok(PieceRing { cells, count: 0 })
    }

    /// How many pieces there are.
    pub(crate) fn len(&self) -> usize
        ensures len { result ≡ length self.now.items }
        ensures within { result ≤ self.now.capacity }
    {
        prove!(self.count <= self.cells.capacity());
        self.count
    }

    /// How many pieces there may be.
    pub(crate) fn capacity(&self) -> usize
        ensures { result ≡ self.now.capacity }
    {
        self.cells.capacity()
    }

    /// The piece that is so many behind the oldest.
    pub(crate) fn get(&self, index: usize) -> Option<&Piece>
        ensures { option_copied result ≡ slice_get self.now.items index }
    {
        if index >= self.count {
            return None;
        }
        self.cells.get(index)
    }

    /// Appends a piece. There must be a place for it.
    pub(crate) fn push(&mut self, piece: Piece)
        requires { length self.old.items < self.old.capacity }
        ensures { self.new ≡ appended piece.items self.old }
    {
        reach(&mut self.cells, self.count);
        prove!(self.count < self.cells.len());
        let Some(cell) = self.cells.get_mut(self.count) else {
            unreachable!();
        };
        *cell = piece;
        self.count += 1;
    }

    /// Appends a report's next piece. There must be a place for it.
    #[inline(always)]
    pub(crate) fn push_next(&mut self, left: &mut Translation)
        requires room { length self.old.items < self.old.capacity }
        requires some { 1 ≤ length left.old }
        ensures { (octets : List ℕ) × (self.new ≡ appended octets self.old)
            × (left.old ≡ octets ∷ left.new) }
    {
        reach(&mut self.cells, self.count);
        prove!(self.count < self.cells.len());
        let Some(cell) = self.cells.get_mut(self.count) else {
            unreachable!();
        };
        left.write_next(cell);
        self.count += 1;
    }

    /// Removes so many of the oldest pieces. If all leave, their cells stay.
    pub(crate) fn remove_oldest(&mut self, count: usize)
        requires { count ≤ length self.old.items }
        ensures { self.new ≡ without_oldest count self.old }
    {
        if count < self.count {
            let others = self.cells.len() - count;
            self.cells.truncate_front(others);
        } else {
            self.cells.truncate_back(USED_AGAIN);
        }
        self.count -= count;
    }

    /// Has so many places from now on, no fewer than before. Memory is taken for them; if there is
    /// none nothing changes.
    pub(crate) fn widen(&mut self, capacity: usize) -> Result<(), AllocError>
        requires { self.old.capacity ≤ capacity }
        ensures ok { OnOk result (self.new ≡ ring_of self.old.items capacity) }
        ensures err { OnErr result (self.new ≡ self.old) }
    {
        prove!(self.cells.len() <= capacity);
        self.cells.resize(capacity)
    }

    /// The toolchain's ring with the pieces and no other cell.
    pub(crate) fn into_buffer(self) -> HeapCircularBuffer<Piece>
        ensures { result ≡ buffer self.items self.capacity }
    {
        let PieceRing { mut cells, count } = self;
        cells.truncate_back(count);
        cells
    }
}

/// Has a cell behind the so many pieces, for which there must be a place.
#[inline(always)]
fn reach(cells: &mut HeapCircularBuffer<Piece>, count: usize)
    requires pieces { count ≤ length cells.old.items }
    requires room { count < cells.old.capacity }
    ensures pieces { take count cells.new.items ≡ take count cells.old.items }
    ensures cell { count < length cells.new.items }
    ensures capacity { cells.new.capacity ≡ cells.old.capacity }
{
    if count == cells.len() {
        add_cell(cells);
    }
}

/// Adds an empty cell, for which there must be a place.
#[inline(never)]
fn add_cell(cells: &mut HeapCircularBuffer<Piece>)
    requires { length cells.old.items < cells.old.capacity }
    ensures { cells.new
        ≡ buffer (cells.old.items ++ record { items = [] } ∷ []) cells.old.capacity }
{
    let _ = cells.try_push_back(Piece::new());
}
