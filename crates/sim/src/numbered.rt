//! The lines of a script, and what they say of each request and call by its number.
ghost use Rattle.std.specs.Prelude.{◌≡◌, ◌∷◌, ◌++◌, ◌≤◌, ◌||◌, ℕ, [], Some, IfOk, OnOk, IfSome};
ghost use Rattle.std.specs.Prelude.{false, length, if◌then◌else◌, is_some};
ghost use Rattle.std.specs.List.{list_any, AllByRecursion};
ghost use Rattle.std.specs.Option.{option_copied};
ghost use Rattle.std.specs.Ordering.{nat_cmp};
ghost use Rattle.std.specs.BTreeMap.{get};
ghost use Rattle.std.specs.BTreeSet.{contains};
ghost use Rattle.sim.specs.Directives.{IsWithinRanges};
ghost use Rattle.sim.specs.Losses.{turns_of, ack_of, wall_of, fate_of, is_cut_at, sent_at, or_else};
ghost use Rattle.sim.specs.Losses.{first_said, spoil_said, send_said, loses_request, loses_answer};
ghost use Rattle.sim.specs.Losses.{cuts};
ghost use Rattle.sim.specs.Scripts.{clashes_with, is_turns};

use crate::directive::{Directive, RequestFate};
use link::UserData;
use std::alloc::{AllocError, Global};
use std::collections::{BTreeMap, BTreeSet};
use std::marker::Model;

/// The lines of a script. Contracts see it as their list. What they say of a request or a call is
/// kept by its number, so that a run needn't search them.
#[derive(Drop)]
pub struct Numbered {
    directives: Vec<Directive>,
    turns: Option<u64>,
    ack: Option<u64>,
    wall: Option<u64>,
    unreceived: BTreeSet<u64>,
    lost: BTreeSet<u64>,
    cut: BTreeSet<u64>,
    spoilt: BTreeMap<u64, u64>,
    sends: BTreeMap<u64, usize>,
}

impl Model for Numbered {
    ghost use Rattle.std.specs.Prelude.{List};
    ghost use Rattle.sim.specs.declared.directive.Directive.{Directive};
    ghost use Rattle.sim.specs.Numbered.{IsNumbered};

    ghost Value = { List Directive };

    ghost view = { λ a. a.directives.items };

    ghost invariant = { λ a. IsNumbered a.directives.items a.turns a.ack a.wall
        a.unreceived a.lost a.cut a.spoilt a.sends };
}

/// Keeps the number of a request that isn't received.
fn note_unreceived(unreceived: &mut BTreeSet<u64>, directive: &Directive) -> Result<(), AllocError>
    ensures { OnOk result ((q : ℕ) → contains nat_cmp unreceived.new q
        ≡ (loses_request q directive.now || contains nat_cmp unreceived.old q)) }
{
    if let Directive::LoseRequest(n) = directive {
        unreceived.insert(*n)?;
    }
    Ok(())
}

/// Keeps the number of a request whose answer is lost.
fn note_lost(lost: &mut BTreeSet<u64>, directive: &Directive) -> Result<(), AllocError>
    ensures { OnOk result ((q : ℕ) → contains nat_cmp lost.new q
        ≡ (loses_answer q directive.now || contains nat_cmp lost.old q)) }
{
    if let Directive::LoseAnswer(n) = directive {
        lost.insert(*n)?;
    }
    Ok(())
}

/// Keeps the number of a call at which the connection is cut.
fn note_cut(cut: &mut BTreeSet<u64>, directive: &Directive) -> Result<(), AllocError>
    ensures { OnOk result ((q : ℕ) → contains nat_cmp cut.new q
        ≡ (cuts q directive.now || contains nat_cmp cut.old q)) }
{
    if let Directive::Cut(n) = directive {
        cut.insert(*n)?;
    }
    Ok(())
}

/// Keeps the place at which an answer is spoilt, by the number of its request.
fn note_spoilt(spoilt: &mut BTreeMap<u64, u64>, directive: &Directive) -> Result<(), AllocError>
    ensures { OnOk result ((q : ℕ) → get nat_cmp spoilt.new q
        ≡ or_else (spoil_said q directive.now) (get nat_cmp spoilt.old q)) }
{
    if let Directive::SpoilAnswer(n, place) = directive {
        spoilt.insert(*n, *place)?;
    }
    Ok(())
}

/// Keeps where the line stands that sends at a call, by the call's number.
fn note_sends(
    sends: &mut BTreeMap<u64, usize>,
    directive: &Directive,
    place: usize,
) -> Result<(), AllocError>
    ensures { OnOk result ((q : ℕ) → get nat_cmp sends.new q
        ≡ (if is_some (send_said q directive.now) then Some place else get nat_cmp sends.old q)) }
{
    if let Directive::Send(n, _) = directive {
        sends.insert(*n, place)?;
    }
    Ok(())
}

impl Numbered {
    /// No line.
    pub(crate) fn new(alloc: Global) -> Numbered
        ensures { result ≡ [] }
    {
        Numbered {
            directives: Vec::new(alloc),
            turns: None,
            ack: None,
            wall: None,
            unreceived: BTreeSet::new(alloc),
            lost: BTreeSet::new(alloc),
            cut: BTreeSet::new(alloc),
            spoilt: BTreeMap::new(alloc),
            sends: BTreeMap::new(alloc),
        }
    }

    /// The lines, and then this one.
    pub(crate) fn push(self, directive: Directive) -> Result<Numbered, AllocError>
        requires { clashes_with self directive ≡ false }
        ensures { IfOk result (λ new. new ≡ self ++ directive ∷ []) }
    {
        let Numbered {
            mut directives,
            turns,
            ack,
            wall,
            mut unreceived,
            mut lost,
            mut cut,
            mut spoilt,
            mut sends,
        } = self;
        let turns = turns.or(directive.turns());
        let ack = ack.or(directive.ack());
        let wall = wall.or(directive.wall());
        note_unreceived(&mut unreceived, &directive)?;
        note_lost(&mut lost, &directive)?;
        note_cut(&mut cut, &directive)?;
        note_spoilt(&mut spoilt, &directive)?;
        note_sends(&mut sends, &directive, directives.len())?;
        directives.push(directive)?;
        Ok(Numbered {
            directives,
            turns,
            ack,
            wall,
            unreceived,
            lost,
            cut,
            spoilt,
            sends,
        })
    }

    /// The lines in their order.
    pub(crate) fn directives(&self) -> &[Directive]
        ensures { result.now ≡ self.now }
    {
        &self.directives
    }

    /// Whether a line spoils the answer to this request.
    fn is_spoilt(&self, request: u64) -> bool
        ensures { result ≡ is_some (first_said (spoil_said request) self.now) }
    {
        self.spoilt.contains_key(&request)
    }

    /// Whether a line sends at this call.
    fn is_sent_at(&self, call: u64) -> bool
        ensures { result ≡ is_some (sent_at self.now call) }
    {
        self.sends.contains_key(&call)
    }

    /// Whether one of the lines clashes with this one.
    #[tactic(auto, using(crate::proofs::Numbering::clash_turns, crate::proofs::Numbering::clash_ack, crate::proofs::Numbering::clash_wall))]
    pub(crate) fn clash(&self, directive: &Directive) -> bool
        ensures { result ≡ clashes_with self.now directive.now }
    {
        match directive {
            Directive::Turns(_) => self.turns.is_some(),
            Directive::Ack(_) => self.ack.is_some(),
            Directive::Wall(_) => self.wall.is_some(),
            // Two changes in one answer could pass its checksum.
            Directive::SpoilAnswer(n, _) => self.is_spoilt(*n),
            Directive::Send(n, _) => self.is_sent_at(*n),
            _ => false,
        }
    }

    /// Whether a line says how many calls there are.
    #[tactic(auto, using(crate::proofs::Numbering::has_turns))]
    pub(crate) fn has_turns(&self) -> bool
        ensures { result ≡ list_any is_turns self.now }
    {
        self.turns.is_some()
    }

    /// How many calls of the port there are.
    pub(crate) fn turns(&self) -> u64
        ensures { result ≡ turns_of self.now }
    {
        self.turns.unwrap_or(0)
    }

    /// From how many unacknowledged I frames on the control centre acknowledges.
    pub(crate) fn ack(&self) -> u64
        ensures { result ≡ ack_of self.now }
    {
        self.ack.unwrap_or(1)
    }

    /// What the wall clock shows at the first call.
    pub(crate) fn wall(&self) -> Option<u64>
        ensures { result ≡ wall_of self.now }
    {
        self.wall
    }

    /// What becomes of the request with this number.
    pub(crate) fn fate(&self, request: u64) -> RequestFate
        ensures { result ≡ fate_of self.now request }
    {
        // Lost before spoilt (docs/DECISIONS.md, "A request both lost and spoilt").
        if self.unreceived.contains(&request) {
            RequestFate::RequestLost
        } else if self.lost.contains(&request) {
            RequestFate::AnswerLost
        } else {
            match self.spoilt.get(&request) {
                Some(place) => RequestFate::AnswerSpoilt(*place),
                None => RequestFate::Answered,
            }
        }
    }

    /// Whether the connection is cut at the call with this number.
    pub(crate) fn is_cut_at(&self, call: u64) -> bool
        ensures { result ≡ is_cut_at self.now call }
    {
        self.cut.contains(&call)
    }

    /// The ASDU that is sent at the call with this number, if there is one.
    pub(crate) fn sent_at(&self, call: u64) -> Option<&UserData>
        requires { AllByRecursion IsWithinRanges self.now }
        ensures asdu { option_copied result ≡ sent_at self.now call }
        ensures least { IfSome result (λ asdu. 9 ≤ length asdu.now) }
        ensures most { IfSome result (λ asdu. length asdu.now ≤ 249) }
    {
        match self.sends.get(&call) {
            Some(place) => self.directives[*place].sends(call),
            None => None,
        }
    }
}
