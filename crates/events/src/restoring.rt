//! A queue as lines, and back: how many pieces are kept and how many of them are sent, and then a
//! line of octets for each piece, the oldest first.
ghost use Rattle.std.specs.Prelude.{◌≡◌, ◌≤◌, ◌<◌, ℕ, List, [], ◌∷◌, ◌++◌, length, IfSome, IfNone};
ghost use Rattle.std.specs.Prelude.{IfOk, OnOk, MatchResult, Err};
ghost use Rattle.std.specs.List.{AllByRecursion};
ghost use Rattle.checkpoint.specs.Octets.{IsOctetLine};
ghost use Rattle.checkpoint.specs.declared.StateFault.TheVariants.{Wrong};
ghost use Rattle.events.specs.Pieces.{IsSendable, AreSendable};
ghost use Rattle.events.specs.Queue.{Queue, empty, kept};
ghost use Rattle.events.specs.Restored.{queue_lines, IsSavable, in_places, marked};

use crate::Events;
use asdu::Piece;
use checkpoint::{Lines, Sheet, StateFault};
use std::alloc::Global;

impl Events {
    /// Puts the queue's lines. `line` is room for one of them.
    pub fn put_state<S: Sheet>(&self, sheet: &mut S, line: &mut Vec<u64>) -> Result<(), StateFault>
        ensures lines { OnOk result
            (S.written sheet.new ≡ S.written sheet.old ++ queue_lines self.now) }
        ensures savable { OnOk result (IsSavable self.now) }
    {
        line.clear();
        line.extend_from_slice(&[self.ring.len() as u64, self.sent as u64])?;
        sheet.put(line)?;
        self.put_pieces(sheet)
    }

    /// Puts a line for each piece, the oldest first.
    fn put_pieces<S: Sheet>(&self, sheet: &mut S) -> Result<(), StateFault>
        ensures lines { OnOk result
            (S.written sheet.new ≡ S.written sheet.old ++ kept self.now) }
        ensures octets { OnOk result (AllByRecursion IsOctetLine (kept self.now)) }
    {
        let mut left = self.kept();
        while let Some(piece) = left.next() {
            are_octets(piece);
            sheet.put_octets(piece)?;
        }
        Ok(())
    }

    /// Reads a queue from its lines. It has so many places. If there are more pieces nothing is
    /// lost, and it is full until enough have left. `line` and `octets` are room for one line.
    /// `Wrong` says that what comes are no queue's lines, `NoMemory` that there is none for the
    /// places.
    pub fn read_state<L: Lines>(
        alloc: Global,
        places: usize,
        lines: &mut L,
        line: &mut Vec<u64>,
        octets: &mut Vec<u8>,
    ) -> Result<Events, StateFault>
        // What is read is the queue whose lines came.
        ensures read { IfOk result (λ e. IsSavable e
            × (e ≡ in_places places e)
            × (L.coming lines.old ≡ queue_lines e ++ L.coming lines.new)) }
        // The lines of a queue give its pieces with their mark, and are never refused as wrong.
        ensures back { (q : Queue) (rest : List (List ℕ)) → IsSavable q →
            L.coming lines.old ≡ queue_lines q ++ rest →
            MatchResult result (λ e. (e ≡ in_places places q) × (L.coming lines.new ≡ rest))
            (λ fault. fault ≡ Wrong → ⊥) }
        // They give that very queue if it had so many places.
        ensures same { (q : Queue) (rest : List (List ℕ)) → IsSavable q → q.places ≡ places →
            L.coming lines.old ≡ queue_lines q ++ rest →
            MatchResult result (λ e. (e ≡ q) × (L.coming lines.new ≡ rest))
            (λ fault. fault ≡ Wrong → ⊥) }
    {
        lines.next(line)?;
        let &[kept, sent] = line.as_slice() else {
            return Err(StateFault::Wrong);
        };
        if kept < sent {
            return Err(StateFault::Wrong);
        }
        let count = kept as usize;
        // All pieces stay, even if there are fewer places now (docs/DECISIONS.md, "The queue's
        // places").
        let Ok(mut events) = Events::new(alloc, places.max(count)) else {
            return Err(StateFault::NoMemory);
        };
        events.read_pieces(count, lines, octets)?;
        events.mark_first(sent as usize);
        events.narrow(places);
        Ok(events)
    }

    /// Appends so many pieces of the lines that come.
    fn read_pieces<L: Lines>(
        &mut self,
        count: usize,
        lines: &mut L,
        octets: &mut Vec<u8>,
    ) -> Result<(), StateFault>
        requires empty { self.old ≡ empty self.old.places }
        requires room { count ≤ self.old.places }
        // Of the lines that came so many are the queue's pieces.
        ensures sent { OnOk result (self.new.sent ≡ []) }
        ensures places { OnOk result (self.new.places ≡ self.old.places) }
        ensures number { OnOk result (length self.new.unsent ≡ count) }
        ensures pieces { OnOk result (AreSendable self.new.unsent
            × AllByRecursion IsOctetLine self.new.unsent) }
        ensures lines { OnOk result
            (L.coming lines.old ≡ self.new.unsent ++ L.coming lines.new) }
        ensures back { (pieces : List (List ℕ)) (rest : List (List ℕ)) → length pieces ≡ count →
            AreSendable pieces → AllByRecursion IsOctetLine pieces →
            L.coming lines.old ≡ pieces ++ rest → result ≡ Err Wrong → ⊥ }
    {
        for _piece in 0..count {
            lines.next_octets(octets)?;
            let piece = sendable(octets).ok_or(StateFault::Wrong)?;
            self.keep(piece);
        }
        Ok(())
    }

    /// Has so many places, and no more than before.
    fn narrow(&mut self, places: usize)
        requires { places ≤ self.old.places }
        ensures { self.new ≡ in_places places self.old }
    {
        self.places = places;
    }

    /// The so many oldest unsent pieces were sent.
    fn mark_first(&mut self, count: usize)
        requires { count ≤ length self.old.unsent }
        ensures { self.new ≡ marked count self.old }
    {
        prove!(count <= self.ring.len() - self.sent);
        self.sent += count;
    }
}

/// What octets are, for a proof. It does nothing.
fn are_octets(piece: &[u8])
    ensures { IsOctetLine piece.now }
{}

/// The piece of these octets, if they are 9 to 249.
fn sendable(octets: &[u8]) -> Option<Piece>
    ensures some { IfSome result (λ piece. (piece.items ≡ octets.now) × IsSendable octets.now) }
    ensures none { IfNone result (IsSendable octets.now → ⊥) }
{
    let piece = Piece::try_from(octets).ok()?;
    (piece.len() >= 9).then_some(piece)
}
