//! Frames out of pieces of a stream.

ghost use Rattle.std.specs.Prelude.{◌≡◌, ◌+◌, ◌-◌, ◌^◌, ◌≤◌, ◌<◌, ◌↔◌, ◌++◌, [], length, min};
ghost use Rattle.std.specs.Prelude.{slice_index, Some, None, All};
ghost use Rattle.std.specs.Prelude.{IfSome, IfNone, IsSome, OnOk, IsTrue, true, false};
ghost use Rattle.ft12.specs.declared.assembling.Received.TheVariants.{Deaf};
ghost use Rattle.ft12.specs.Assembly.{Receives, ReceivesInner, looked_at, so_far_numbers};
ghost use Rattle.ft12.specs.Reading.{IsProperBeginning};
ghost use Rattle.ft12.specs.Spelling.{IsOctet};

use crate::frame::{Frame, LinkSize, Why};
use crate::stage::{Data, DueOctet, NextStage};
use arrayvec::ArrayVec;
use std::alloc::AllocError;
use std::marker::Model;

/// What an assembler receives in a piece.
// The frame is in it, as `apci` has none in its own (docs/DECISIONS.md, "What `Received` has in
// it").
#[derive(Debug, PartialEq, Eq, Drop)]
pub enum Received {
    /// A whole frame.
    Frame(Frame),
    /// The beginning of a frame, or nothing.
    More,
    /// No frame and no beginning of one: the first wrong place, counted from the first octet after
    /// the last frame, and what is wrong there.
    Never(usize, Why),
    /// Nothing, since octets before began no frame.
    Deaf,
}

/// Makes frames out of pieces of a stream, and looks at each octet once.
///
/// Clauses see it as the octets that came since the last frame. They aren't kept: only the place,
/// the length, the sum and the fields so far are.
#[derive(Drop)]
pub struct Assembler {
    size: LinkSize,
    /// None: octets began no frame, and all are dropped until `clear`.
    stage: Option<DueOctet>,
    /// The data of the frame that is coming.
    kept: Data,
    looked: u64,
}

impl Model for Assembler {
    ghost use Rattle.std.specs.Option.{option_map, ForSome};
    ghost use Rattle.ft12.specs.Assembly.{Assembly};
    ghost use Rattle.ft12.specs.DueOctet.{IsStage, so_far};

    ghost Value = { Assembly };

    ghost view = { λ a.
        record {
          size = a.size;
          so_far = option_map (λ s.
              so_far a.size s a.kept.items) a.stage;
          looked = a.looked;
        } };

    ghost invariant = { λ a. ForSome a.stage (λ s. IsStage a.size s a.kept.items) };
}

/// The octet, counted. No octet of a piece is read but here.
fn look(looked: &mut u64, octet: &u8) -> u8
    ensures value { result ≡ octet.now }
    ensures counted { looked.new ≡ min (looked.old + 1) (2 ^ 64 - 1) }
{
    // At its limit the count stays: one that wrapped would say too little (docs/DECISIONS.md,
    // "Octets looked at").
    *looked = looked.saturating_add(1);
    *octet
}

impl Assembler {
    /// An assembler of a line with addresses of this size, before the first octet.
    pub fn new(size: LinkSize) -> Self
        ensures size { result.size ≡ size }
        ensures so_far { result.so_far ≡ Some [] }
        ensures looked { result.looked ≡ 0 }
    {
        Assembler {
            size,
            stage: Some(DueOctet::Start),
            kept: ArrayVec::new(),
            looked: 0,
        }
    }

    /// Puts what it has of the next frame behind a line of numbers: 0 if it is deaf, or else 1 and
    /// the octets, which `resumed` takes.
    pub fn put_so_far(&self, line: &mut Vec<u64>) -> Result<(), AllocError>
        ensures { OnOk result (line.new.items ≡ line.old.items ++ so_far_numbers self.now.so_far) }
    {
        // The octets are put and not the stage: they are read back by feeding them, so no line
        // makes a stage that no octets make (docs/DECISIONS.md, "The state that was put, or
        // nothing").
        match self.stage {
            None => line.push(0)?,
            Some(stage) => {
                line.push(1)?;
                stage.put(self.size, self.kept.as_slice(), line)?;
            }
        }
        Ok(())
    }

    /// A law: what it has of the next frame is the beginning of one, so that `resumed` takes it.
    pub fn is_resumable(&self)
        ensures beginning { IfSome self.now.so_far (IsProperBeginning self.now.size) }
        ensures octets { IfSome self.now.so_far (λ octets. All IsOctet octets) }
    {
        let _ = &self.stage;
    }

    /// An assembler to which these octets came since the last frame, if they are the beginning of
    /// one.
    pub fn resumed(size: LinkSize, octets: &[u8]) -> Option<Assembler>
        ensures size { IfSome result (λ a. a.size ≡ size) }
        ensures so_far { IfSome result (λ a. a.so_far ≡ Some octets.now) }
        ensures taken { IsProperBeginning size octets.now → IsSome result }
        ensures fresh { octets.now ≡ [] → IsSome result }
    {
        let mut assembler = Assembler::new(size);
        // A whole frame would have been given out, so no assembler that was put has one.
        match assembler.feed(octets).1 {
            Received::More => Some(assembler),
            _ => None,
        }
    }

    /// Whether no octet has come since the last frame, so that it has kept nothing of the next one.
    pub fn is_empty(&self) -> bool
        ensures { IsTrue result ↔ (self.now.so_far ≡ Some []) }
    {
        matches!(self.stage, Some(DueOctet::Start))
    }

    /// How many octets it has looked at since it was made, at most `u64::MAX`.
    pub fn looked(&self) -> u64
        ensures { result ≡ self.now.looked }
    {
        self.looked
    }

    /// Takes octets of a piece, up to the end of a frame, and says how many and what arrived.
    ///
    /// If a frame ends in the piece, the octets after it are left to be fed again. Else all are
    /// taken. After `Never` all octets are taken and none is looked at, until `clear`.
    pub fn feed(&mut self, piece: &[u8]) -> (usize, Received)
        ensures listening { IfSome self.old.so_far (λ so_far.
            Receives self.old.size so_far piece.now result.0 result.1 self.new.so_far) }
        ensures deaf { IfNone self.old.so_far
            ((result.0 ≡ length piece.now) × (result.1 ≡ Deaf) × (self.new.so_far ≡ None)) }
        ensures size { self.new.size ≡ self.old.size }

        ensures within { result.0 ≤ length piece.now }
        ensures progress { 0 < length piece.now → 0 < result.0 }

        ensures looked { self.new.looked ≤ self.old.looked + result.0 }
        ensures counted { self.new.looked
            ≡ min (self.old.looked + looked_at self.old.so_far result.0 result.1) (2 ^ 64 - 1) }
    {
        // No frame is sought behind a fault: a station sends its next one only when it is asked
        // again, and the caller then clears.
        let Some(mut stage) = self.stage else {
            return (piece.len(), Received::Deaf);
        };
        for (i, octet) in piece.iter().enumerate() {
            let octet = look(&mut self.looked, octet);
            match stage.with_octet(self.size, &mut self.kept, octet) {
                NextStage::More(next) => stage = next,
                NextStage::Whole(bare) => {
                    self.stage = Some(DueOctet::Start);
                    return (i + 1, Received::Frame(bare.with_data(&mut self.kept)));
                }
                NextStage::Never(place, why) => {
                    self.stage = None;
                    return (piece.len(), Received::Never(place, why));
                }
            }
        }
        self.stage = Some(stage);
        (piece.len(), Received::More)
    }

    /// Takes octets of a piece up to the one at which the end of a frame is due, and says how many:
    /// all if it isn't due within the piece. The others are left to be fed. No frame ends in those
    /// that it takes, so that it makes no place for one. If they begin none, all are taken and none
    /// is looked at, until `clear`.
    ///
    /// Asks that the single character isn't next: `feed` receives that.
    pub fn feed_inner(&mut self, piece: &[u8]) -> usize
        requires { self.old.so_far ≡ Some [] → slice_index piece.now 0 ≡ 0xE5 → ⊥ }
        ensures listening { IfSome self.old.so_far (λ so_far. ReceivesInner self.old.size so_far
            piece.now result self.old.looked self.new.looked self.new.so_far) }
        ensures deaf { IfNone self.old.so_far
            ((result ≡ length piece.now) × (self.new.so_far ≡ None)
            × (self.new.looked ≡ self.old.looked)) }
        ensures size { self.new.size ≡ self.old.size }
        ensures within { result ≤ length piece.now }
    {
        if self.take_data(piece) {
            return 1;
        }
        self.feed_stages(piece)
    }

    /// Takes a piece of one octet, if one of data is due that isn't the last one: the commonest
    /// piece of a line that is read octet by octet. Else nothing changes.
    fn take_data(&mut self, piece: &[u8]) -> bool
        ensures taken { result ≡ true →
            IfSome self.old.so_far (λ so_far. ReceivesInner self.old.size
            so_far piece.now 1 self.old.looked self.new.looked self.new.so_far) }
        ensures one { result ≡ true → length piece.now ≡ 1 }
        ensures listens { result ≡ true → self.old.so_far ≡ None → ⊥ }
        ensures size { self.new.size ≡ self.old.size }
        ensures left { result ≡ false → self.new ≡ self.old }
    {
        if piece.len() != 1 {
            return false;
        }
        match &mut self.stage {
            Some(DueOctet::User(summing)) => {
                if !summing.has_more_data(self.size, &self.kept) {
                    return false;
                }
                let octet = look(&mut self.looked, &piece[0]);
                summing.push_data(self.size, &mut self.kept, octet);
                true
            }
            _ => false,
        }
    }

    /// As `feed_inner`, by the stage after each octet.
    #[inline(always)]
    fn feed_stages(&mut self, piece: &[u8]) -> usize
        requires { self.old.so_far ≡ Some [] → slice_index piece.now 0 ≡ 0xE5 → ⊥ }
        ensures listening { IfSome self.old.so_far (λ so_far. ReceivesInner self.old.size so_far
            piece.now result self.old.looked self.new.looked self.new.so_far) }
        ensures deaf { IfNone self.old.so_far
            ((result ≡ length piece.now) × (self.new.so_far ≡ None)
            × (self.new.looked ≡ self.old.looked)) }
        ensures size { self.new.size ≡ self.old.size }
        ensures within { result ≤ length piece.now }
    {
        let Some(mut stage) = self.stage else {
            return piece.len();
        };
        for (i, octet) in piece.iter().enumerate() {
            if stage.is_end() {
                self.stage = Some(stage);
                return i;
            }
            let octet = look(&mut self.looked, octet);
            match stage.with_octet(self.size, &mut self.kept, octet) {
                NextStage::More(next) => stage = next,
                NextStage::Never(_, _) => {
                    self.stage = None;
                    return piece.len();
                }
                // A frame ends with its end octet, before which this loop stops, or is the single
                // character, which the caller keeps from it.
                NextStage::Whole(_) => unreachable!(),
            }
        }
        self.stage = Some(stage);
        piece.len()
    }

    /// Begins afresh: what came since the last frame is forgotten.
    pub fn clear(&mut self)
        ensures size { self.new.size ≡ self.old.size }
        ensures so_far { self.new.so_far ≡ Some [] }
        ensures looked { self.new.looked ≡ self.old.looked }
    {
        self.kept.clear();
        self.stage = Some(DueOctet::Start);
    }
}
