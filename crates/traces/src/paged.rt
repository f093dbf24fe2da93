//! Ports that print their actions on a page.
ghost use Rattle.std.specs.Prelude.{◌≡◌, ◌++◌, IfSome, List, Some};
ghost use Rattle.gateway.specs.Log.{LogEntry, Log};
ghost use Rattle.std.proofs.Common.{ap};
ghost use Rattle.traces.specs.Actions.{lines_of_actions};
ghost use Rattle.traces.specs.Progress.{Part};

use crate::text_port::TextPort;
use gateway::Port;

/// A port that prints the lines of its actions on a page, from which they can be taken between two
/// turns.
pub trait Paged: Port {
    ghost use Rattle.std.specs.Prelude.{◌≡◌, ◌++◌, IfSome, List, Some};
    ghost use Rattle.gateway.specs.Log.{LogEntry};
    ghost use Rattle.traces.specs.Actions.{lines_of_actions};

    /// The log as it was when the page was cleared.
    ghost poured: { Self → List LogEntry };

    /// What it has its events from.
    ghost Course: { Type 0 };

    ghost course: { Self → Course };

    /// The page: lines of the log's actions, behind those that were taken off it.
    fn page(&self) -> &[u8]
        ensures { IfSome (Self.log self.now) (λ log. lines_of_actions (poured self.now)
            ++ result.now ≡ lines_of_actions log) };

    /// Takes all lines off the page.
    fn clear_page(&mut self)
        ensures poured { Some (poured self.new) ≡ Self.log self.old }
        ensures log { Self.log self.new ≡ Self.log self.old }
        ensures failed { Self.failed self.new ≡ Self.failed self.old }
        ensures ended { Self.ended self.new ≡ Self.ended self.old }
        ensures course { course self.new ≡ course self.old };

    /// While it is driven its page isn't cleared.
    ghost poured_stays: { (a b : Self) → Self.script a ≡ Self.script b → poured a ≡ poured b };

    ghost course_stays: { (a b : Self) → Self.script a ≡ Self.script b → course a ≡ course b };
}

impl Paged for TextPort<'_> {
    ghost poured = { λ p. p.poured };

    ghost Course = { Part };

    ghost course = { λ p. p.part };

    fn page(&self) -> &[u8] {
        TextPort::page(self)
    }

    fn clear_page(&mut self) {
        TextPort::clear_page(self);
    }

    ghost poured_stays = { λ a b same. ap (λ (s : Part × Log). s.1) same };

    ghost course_stays = { λ a b same. ap (λ (s : Part × Log). s.0) same };
}
