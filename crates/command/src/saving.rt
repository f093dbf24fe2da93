//! What is kept of commands, put as lines of numbers.
ghost use Rattle.std.specs.Prelude.{◌≡◌, ◌≤◌, ◌++◌, ◌∷◌, [], ℕ, Bool, true, List, Option, Some};
ghost use Rattle.std.specs.Prelude.{length, map, OnOk};
ghost use Rattle.std.specs.List.{list_all};
ghost use Rattle.command.specs.Command.{element_octets};
ghost use Rattle.command.specs.Restored.{list_lines};
ghost use Rattle.command.specs.Saved.{are_octets, is_received, is_for_line, is_answer};
ghost use Rattle.command.specs.Saved.{waiting_numbers, is_savable_waiting, line_numbers};
ghost use Rattle.command.specs.Saved.{is_savable_line, field_numbers, are_fields, stage_number};
ghost use Rattle.command.specs.Saved.{stage_detail, selection_numbers, is_savable_selection};
ghost use Rattle.command.specs.Saved.{is_savable_element, tag_numbers, is_savable_tag};
ghost use Rattle.command.specs.Saved.{sending_numbers, is_savable_sending, answer_numbers};
ghost use Rattle.command.specs.Saved.{is_savable_answer};

use crate::act::OwnAnswer;
use crate::content::{Command, CommandElement};
use crate::restoring::{line_from, octets_from, selection_from, sending_from, waiting_from};
use crate::selection::{SelectStage, Selection};
use crate::tags::Sending;
use crate::waiting::{Line, Waiting};
use checkpoint::{Sheet, StateFault};
use circular_buffer::HeapCircularBuffer;
use elements::Cp56;
use std::alloc::AllocError;

/// What stands as one line of numbers in a saved state.
pub(crate) trait Saved: Sized {
    /// The line.
    ghost numbers: { Self → List ℕ };

    /// What its type knows, and is needed to read it back.
    ghost is_savable: { Self → Bool };

    /// Puts its numbers behind those of the line.
    fn put(&self, line: &mut Vec<u64>) -> Result<(), AllocError>
        ensures line { OnOk result (line.new.items ≡ line.old.items ++ numbers self.now) }
        ensures savable { OnOk result (is_savable self.now ≡ true) };

    /// What the line says. One that nothing puts says nothing.
    fn read(line: &[u64]) -> Option<Self>
        ensures back { (x : Self) → is_savable x ≡ true → line.now ≡ numbers x → result ≡ Some x }
        ensures exact { (x : Self) → result ≡ Some x → line.now ≡ numbers x };
}

impl Saved for Waiting {
    ghost numbers = { waiting_numbers };

    ghost is_savable = { is_savable_waiting };

    fn put(&self, line: &mut Vec<u64>) -> Result<(), AllocError> {
        let received = self.received.as_slice();
        line.push(self.station as u64)?;
        line.push(received.len() as u64)?;
        put_octets(received, line)?;
        put_octets(self.octets.as_slice(), line)
    }

    fn read(line: &[u64]) -> Option<Waiting> {
        waiting_from(line)
    }
}

impl Saved for Line {
    ghost numbers = { line_numbers };

    ghost is_savable = { is_savable_line };

    fn put(&self, line: &mut Vec<u64>) -> Result<(), AllocError> {
        match self {
            Line::Free => line.push(0)?,
            Line::Holds(received) => {
                line.push(1)?;
                put_octets(received.as_slice(), line)?;
            }
            Line::CutOff => line.push(2)?,
        }
        Ok(())
    }

    fn read(line: &[u64]) -> Option<Line> {
        line_from(line)
    }
}

impl Saved for Selection {
    ghost numbers = { selection_numbers };

    ghost is_savable = { is_savable_selection };

    fn put(&self, line: &mut Vec<u64>) -> Result<(), AllocError> {
        line.push(self.station as u64)?;
        line.push(self.came)?;
        put_fields(self.command, line)?;
        put_stage(self.stage, line)?;
        put_element(self.command.element, line)
    }

    fn read(line: &[u64]) -> Option<Selection> {
        selection_from(line)
    }
}

impl Saved for Sending {
    ghost numbers = { sending_numbers };

    ghost is_savable = { is_savable_sending };

    fn put(&self, line: &mut Vec<u64>) -> Result<(), AllocError> {
        line.push(u64::from(self.target.kind))?;
        line.push(u64::from(self.target.ca))?;
        line.push(u64::from(self.target.address))?;
        put_tag(self.tag, line)
    }

    fn read(line: &[u64]) -> Option<Sending> {
        sending_from(line)
    }
}

impl Saved for OwnAnswer {
    ghost numbers = { answer_numbers };

    ghost is_savable = { is_savable_answer };

    fn put(&self, line: &mut Vec<u64>) -> Result<(), AllocError> {
        put_octets(self.as_slice(), line)
    }

    fn read(line: &[u64]) -> Option<OwnAnswer> {
        octets_from(line)
    }
}

/// Puts octets behind the numbers of the line.
fn put_octets(octets: &[u8], line: &mut Vec<u64>) -> Result<(), AllocError>
    ensures line { OnOk result (line.new.items ≡ line.old.items ++ octets.now) }
    ensures octets { OnOk result (are_octets octets.now ≡ true) }
{
    for octet in octets {
        line.push(u64::from(*octet))?;
    }
    Ok(())
}

fn put_fields(command: Command, line: &mut Vec<u64>) -> Result<(), AllocError>
    ensures line { OnOk result (line.new.items ≡ line.old.items ++ field_numbers command) }
    ensures small { OnOk result (are_fields command.kind command.received command.cause
        command.originator command.ca command.address ≡ true) }
{
    line.push(u64::from(command.kind))?;
    line.push(u64::from(command.received))?;
    line.push(u64::from(command.cause))?;
    line.push(u64::from(command.originator))?;
    line.push(u64::from(command.ca))?;
    line.push(u64::from(command.address))?;
    Ok(())
}

fn put_stage(stage: SelectStage, line: &mut Vec<u64>) -> Result<(), AllocError>
    ensures { OnOk result (line.new.items
        ≡ line.old.items ++ stage_number stage ∷ stage_detail stage ∷ []) }
{
    let (number, detail) = match stage {
        SelectStage::Queued(ahead) => (0, ahead as u64),
        SelectStage::Sent => (1, 0),
        SelectStage::Accepted => (2, 0),
        SelectStage::Live(since) => (3, since),
    };
    line.push(number)?;
    line.push(detail)?;
    Ok(())
}

fn put_element(element: CommandElement, line: &mut Vec<u64>) -> Result<(), AllocError>
    ensures line { OnOk result (line.new.items ≡ line.old.items ++ element_octets element) }
    ensures octets { OnOk result (is_savable_element element ≡ true) }
{
    match element {
        CommandElement::Octet(octet) => line.push(u64::from(octet))?,
        CommandElement::SetPoint(low, high, qos) => {
            line.push(u64::from(low))?;
            line.push(u64::from(high))?;
            line.push(u64::from(qos))?;
        }
    }
    Ok(())
}

fn put_tag(tag: Option<Cp56>, line: &mut Vec<u64>) -> Result<(), AllocError>
    ensures line { OnOk result (line.new.items ≡ line.old.items ++ tag_numbers tag) }
    ensures octets { OnOk result (is_savable_tag tag ≡ true) }
{
    match tag {
        None => Ok(()),
        Some(tag) => put_octets(&tag.0, line),
    }
}

fn put_number(number: u64, line: &mut Vec<u64>) -> Result<(), AllocError>
    ensures { OnOk result (line.new.items ≡ line.old.items ++ number ∷ []) }
{
    line.push(number)?;
    Ok(())
}

/// Puts a line for each.
pub(crate) fn put_items<T: Saved, S: Sheet>(
    items: &[T],
    sheet: &mut S,
    line: &mut Vec<u64>,
) -> Result<(), StateFault>
    ensures lines { OnOk result (S.written sheet.new
        ≡ S.written sheet.old ++ map T.numbers items.now) }
    ensures savable { OnOk result (list_all T.is_savable items.now ≡ true) }
{
    for item in items {
        line.clear();
        item.put(line)?;
        sheet.put(line.as_slice())?;
    }
    Ok(())
}

fn put_count<S: Sheet>(count: usize, sheet: &mut S, line: &mut Vec<u64>) -> Result<(), StateFault>
    ensures { OnOk result (S.written sheet.new ≡ S.written sheet.old ++ (count ∷ []) ∷ []) }
{
    line.clear();
    put_number(count as u64, line)?;
    sheet.put(line.as_slice())
}

/// Puts how many there are, and then a line for each.
pub(crate) fn put_list<T: Saved, S: Sheet>(
    items: &[T],
    sheet: &mut S,
    line: &mut Vec<u64>,
) -> Result<(), StateFault>
    ensures lines { OnOk result (S.written sheet.new
        ≡ S.written sheet.old ++ list_lines (map T.numbers items.now)) }
    ensures savable { OnOk result (list_all T.is_savable items.now ≡ true) }
{
    put_count(items.len(), sheet, line)?;
    put_items(items, sheet, line)
}

/// Puts how many there are, and then a line for each.
pub(crate) fn put_ring<T: Saved, S: Sheet>(
    items: &HeapCircularBuffer<T>,
    sheet: &mut S,
    line: &mut Vec<u64>,
) -> Result<(), StateFault>
    ensures lines { OnOk result (S.written sheet.new
        ≡ S.written sheet.old ++ list_lines (map T.numbers items.now.items)) }
    ensures savable { OnOk result (list_all T.is_savable items.now.items ≡ true) }
    ensures few { OnOk result (length items.now.items ≤ items.now.capacity) }
{
    put_count(items.len(), sheet, line)?;
    let (front, back) = items.as_slices();
    put_items(front, sheet, line)?;
    put_items(back, sheet, line)
}
