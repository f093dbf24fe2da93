//! Selections.
ghost use Rattle.std.specs.Prelude.{◌≡◌, ◌&&◌};
ghost use Rattle.command.specs.Selection.{same_target as are_same_targets};
ghost use Rattle.command.specs.Selection.{same_element as are_same_elements, with_stage as staged};
ghost use Rattle.command.specs.Selection.{after_sending as sending, after_acceptance as acceptance};
ghost use Rattle.command.specs.Selection.{after_loss as loss, is_accepted as accepted};
ghost use Rattle.command.specs.Selection.{is_live as live, lasts_from as running_from};
ghost use Rattle.command.specs.Selection.{has_passed as passed, heeds as may_change};
ghost use Rattle.command.specs.Selection.{advanced as next_of, lets_through as through, target_of};
ghost use Rattle.command.specs.declared.selection.Sign.TheVariants.{Con as ConSign};
ghost use Rattle.command.specs.declared.selection.Sign.TheVariants.{Time as TimeSign};

use crate::content::{Command, CommandElement, Target};

/// How far the select of a selection has come.
#[derive(Clone, Copy)]
pub(crate) enum SelectStage {
    /// It waits behind so many commands of its station.
    Queued(usize),
    /// It is on the line.
    Sent,
    /// The station took it.
    Accepted,
    /// The station's latest con came at this moment.
    Live(u64),
}

/// A selection: its select, that select's station and the moment at which it came.
#[derive(Clone, Copy, Default)]
pub(crate) struct Selection {
    pub station: usize,
    pub command: Command,
    pub came: u64,
    pub stage: SelectStage,
}

/// What is selected, and where.
#[derive(Clone, Copy)]
pub struct SelectedObject {
    /// The place of its station among the stations.
    pub station: usize,
    /// The type of the command on the line, which has no time tag.
    pub kind: u8,
    /// The common address.
    pub ca: u16,
    /// The object's address.
    pub address: u32,
}

/// What concerns selections.
#[derive(Clone, Copy)]
pub(crate) enum Sign {
    /// A command goes out to the station for the first time.
    Sending(usize),
    /// The station accepted the command on the line.
    Acceptance(usize),
    /// The station was busy, or the command was given up.
    Loss(usize),
    /// The selection of this target ends.
    Over(Target),
    /// A positive con of this target and element came.
    Con(Target, CommandElement, u64),
    /// It is so late.
    Time(u64),
}

impl Default for SelectStage {
    fn default() -> SelectStage {
        SelectStage::Accepted
    }
}

pub(crate) fn same_target(a: Target, b: Target) -> bool
    ensures { result ≡ are_same_targets a b }
{
    a.kind == b.kind && a.ca == b.ca && a.address == b.address
}

pub(crate) fn same_element(a: CommandElement, b: CommandElement) -> bool
    ensures { result ≡ are_same_elements a b }
{
    match (a, b) {
        (CommandElement::Octet(x), CommandElement::Octet(y)) => x == y,
        (CommandElement::SetPoint(a, b, c), CommandElement::SetPoint(x, y, z)) => a == x
            && b == y
            && c == z,
        (CommandElement::Octet(_), CommandElement::SetPoint(_, _, _)) => false,
        (CommandElement::SetPoint(_, _, _), CommandElement::Octet(_)) => false,
    }
}

impl Selection {
    fn with_stage(self, stage: SelectStage) -> Selection
        ensures { result ≡ staged stage self }
    {
        Selection { stage, ..self }
    }

    fn after_sending(self) -> Option<Selection>
        ensures { result ≡ sending self.stage self }
    {
        match self.stage {
            SelectStage::Queued(ahead) => {
                if ahead == 0 {
                    Some(self.with_stage(SelectStage::Sent))
                } else {
                    Some(self.with_stage(SelectStage::Queued(ahead - 1)))
                }
            }
            // The next command goes out and this one was never accepted: it is lost.
            SelectStage::Sent => None,
            SelectStage::Accepted | SelectStage::Live(_) => Some(self),
        }
    }

    fn after_acceptance(self) -> Option<Selection>
        ensures { result ≡ acceptance self.stage self }
    {
        match self.stage {
            SelectStage::Sent => Some(self.with_stage(SelectStage::Accepted)),
            SelectStage::Queued(_) | SelectStage::Accepted | SelectStage::Live(_) => Some(self),
        }
    }

    fn after_loss(self) -> Option<Selection>
        ensures { result ≡ loss self.stage self }
    {
        match self.stage {
            // Only this one is on the line. What the station accepted before isn't touched.
            SelectStage::Sent => None,
            SelectStage::Queued(_) | SelectStage::Accepted | SelectStage::Live(_) => Some(self),
        }
    }

    fn is_accepted(self) -> bool
        ensures { result ≡ accepted self.stage }
    {
        match self.stage {
            SelectStage::Queued(_) | SelectStage::Sent => false,
            SelectStage::Accepted | SelectStage::Live(_) => true,
        }
    }

    /// The moment from which it lasts.
    fn lasts_from(self) -> u64
        ensures { result ≡ running_from self self.stage }
    {
        match self.stage {
            SelectStage::Queued(_) | SelectStage::Sent | SelectStage::Accepted => self.came,
            SelectStage::Live(since) => since,
        }
    }

    /// Whether its time has passed.
    fn has_passed(self, select_ms: u64, now: u64) -> bool
        ensures { result ≡ passed select_ms now self }
    {
        now.saturating_sub(self.lasts_from()) >= select_ms
    }

    /// Whether the sign may change it.
    pub(crate) fn heeds(&self, select_ms: u64, sign: &Sign) -> bool
        ensures { result ≡ may_change select_ms sign.now self.now }
    {
        match sign {
            Sign::Sending(station) | Sign::Acceptance(station) | Sign::Loss(station) => {
                self.station == *station && !self.is_accepted()
            }
            Sign::Over(target) | Sign::Con(target, _, _) => {
                same_target(self.command.target(), *target)
            }
            Sign::Time(now) => self.has_passed(select_ms, *now),
        }
    }

    /// What becomes of it.
    pub(crate) fn advanced(self, select_ms: u64, sign: Sign) -> Option<Selection>
        ensures { result ≡ next_of select_ms sign self }
    {
        match sign {
            Sign::Sending(station) => {
                if self.station == station {
                    self.after_sending()
                } else {
                    Some(self)
                }
            }
            Sign::Acceptance(station) => {
                if self.station == station {
                    self.after_acceptance()
                } else {
                    Some(self)
                }
            }
            Sign::Loss(station) => {
                if self.station == station {
                    self.after_loss()
                } else {
                    Some(self)
                }
            }
            Sign::Over(target) => {
                if same_target(self.command.target(), target) {
                    None
                } else {
                    Some(self)
                }
            }
            Sign::Con(target, element, now) => self.after_con(select_ms, target, element, now),
            Sign::Time(now) => self.after_time(select_ms, now),
        }
    }

    /// What becomes of it when a positive con of this target and element came.
    fn after_con(
        self,
        select_ms: u64,
        target: Target,
        element: CommandElement,
        now: u64,
    ) -> Option<Selection>
        ensures { result ≡ next_of select_ms (ConSign target element now) self }
    {
        // A con before the acceptance answers an older select, and one past `select_ms` is too late
        // (docs/DECISIONS.md, "An answer to an older select"). A con in time counts also when the
        // select is live already: then its time begins anew (docs/DECISIONS.md, "A second positive
        // confirmation").
        if self.is_named(target, element)
            && self.is_accepted()
            && now.saturating_sub(self.came) < select_ms
        {
            Some(self.with_stage(SelectStage::Live(now)))
        } else {
            Some(self)
        }
    }

    /// What becomes of it with time.
    fn after_time(self, select_ms: u64, now: u64) -> Option<Selection>
        ensures { result ≡ next_of select_ms (TimeSign now) self }
    {
        if self.has_passed(select_ms, now) {
            None
        } else {
            Some(self)
        }
    }

    fn is_named(self, target: Target, element: CommandElement) -> bool
        ensures { result ≡
            are_same_targets (target_of self.command) target
            && are_same_elements self.command.element element }
    {
        same_target(self.command.target(), target) && same_element(self.command.element, element)
    }

    /// Whether it lets this execute through.
    pub(crate) fn lets_through(&self, select_ms: u64, command: Command, now: u64) -> bool
        ensures { result ≡ through select_ms command now self.now }
    {
        same_target(self.command.target(), command.target())
            && same_element(self.command.element.without_select(), command.element)
            && (self.command.cause >= 128) == (command.cause >= 128)
            // Select and execute are of one form: with a tag both, or without.
            && self.command.received == command.received
            && self.is_live(select_ms, now)
    }

    fn is_live(&self, select_ms: u64, now: u64) -> bool
        ensures { result ≡ live select_ms now self.now.stage }
    {
        match self.stage {
            // By the step's moment, before the timers take it off (docs/DECISIONS.md, "A live
            // selection").
            SelectStage::Live(since) => now.saturating_sub(since) < select_ms,
            SelectStage::Queued(_) | SelectStage::Sent | SelectStage::Accepted => false,
        }
    }
}
