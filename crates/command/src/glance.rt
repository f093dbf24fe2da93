//! What a judgement looks at of all that changes.
ghost use Rattle.std.specs.Prelude.{◌≡◌, ◌≤◌, [], length, map};
ghost use Rattle.command.specs.Refusals.{settled};

use crate::selection::{SelectStage, Selection};
use arrayvec::ArrayVec;
use std::marker::Model;

/// What the judgement of an ASDU looks at besides the settings: how many commands wait, and the
/// selections. Whoever sees what goes by a gateway may take one before commands come, and say
/// afterwards how each was judged ([`crate::Commands::refusal_at`]).
#[derive(Drop)]
pub struct Glance {
    /// How many commands wait.
    pub(crate) waiting: usize,
    /// The selections. Behind how many commands a select waits is left out.
    pub(crate) selections: ArrayVec<Selection, 16>,
}

impl Model for Glance {
    ghost use Rattle.std.specs.Prelude.{◌≤◌};
    ghost use Rattle.command.specs.Refusals.{Seen};

    ghost Value = { Seen };

    ghost view = { λ g. record { waiting = g.waiting; selections = g.selections.items } };

    ghost invariant = { λ g. g.waiting ≤ 64 };
}

impl Glance {
    /// That of no command and no selection.
    pub fn new() -> Glance
        ensures { result ≡ record { waiting = 0; selections = [] } }
    {
        Glance {
            waiting: 0,
            selections: ArrayVec::new(),
        }
    }
}

impl Selection {
    /// The selection as a glance has it.
    fn settled(self) -> Selection
        ensures { result ≡ settled self }
    {
        let stage = match self.stage {
            // The line goes on within the step, and no judgement looks at this number.
            SelectStage::Queued(_) => SelectStage::Queued(0),
            stage => stage,
        };
        Selection { stage, ..self }
    }
}

/// The selections as a glance has them.
pub(crate) fn settled_all(selections: &[Selection]) -> ArrayVec<Selection, 16>
    requires { length selections.now ≤ 16 }
    ensures { result.items ≡ map settled selections.now }
{
    let mut all = ArrayVec::new();
    for selection in selections {
        all.push(selection.settled());
    }
    all
}
