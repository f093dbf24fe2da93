//! What is kept of commands, made again of lines of numbers.
ghost use Rattle.std.specs.Prelude.{◌≡◌, ◌≤◌, ◌++◌, ◌∷◌, [], ℕ, true, List, ◌&&◌, nat_le, length};
ghost use Rattle.std.specs.Prelude.{map, option_map, vec_len, vec_capacity, IfOk, MatchResult};
ghost use Rattle.std.specs.List.{list_all};
ghost use Rattle.checkpoint.specs.declared.StateFault.TheVariants.{Wrong, NoMemory};
ghost use Rattle.command.specs.State.{State};
ghost use Rattle.command.specs.Fields.{AreAsdus};
ghost use Rattle.command.specs.Restored.{are_long, list_lines, commands_lines, IsSavable};
ghost use Rattle.command.specs.Restored.{ArePartsOf, HaveRoom, state_with};
ghost use Rattle.command.specs.declared.station.StationInfo.{StationInfo};
ghost use Rattle.asdu.specs.declared.sizes.Sizes.{Sizes};
ghost use Rattle.command.specs.Saved.{octets_in, received_in, for_line_in, waiting_in, line_by};
ghost use Rattle.command.specs.Saved.{line_in, element_in, stage_in, command_with, selection_in};
ghost use Rattle.command.specs.Saved.{tag_in, target_in, sending_in};

use crate::act::OwnAnswer;
use crate::commands::{MOST_ANSWERS, MOST_SELECTIONS, MOST_WAITING};
use crate::content::{Command, CommandElement, Target, command_octets_of};
use crate::saving::Saved;
use crate::selection::{SelectStage, Selection};
use crate::tags::{MOST_SENDINGS, Sending, TAG_OCTETS, read_tag};
use crate::waiting::{CommandAsdu, Line, LineOctets, Waiting};
use arrayvec::ArrayVec;
use checkpoint::{Lines, StateFault};
use circular_buffer::HeapCircularBuffer;
use elements::Cp56;
use std::alloc::Global;

/// The octets that these numbers are, if they are, and fit.
pub(crate) fn octets_from<const N: usize>(numbers: &[u64]) -> Option<ArrayVec<u8, N>>
    ensures { option_map (λ octets. octets.items) result ≡ octets_in N numbers.now }
{
    if numbers.len() > N {
        return None;
    }
    let mut octets = ArrayVec::new();
    for number in numbers {
        if *number > 255 {
            return None;
        }
        octets.push(*number as u8);
    }
    Some(octets)
}

/// A command as it came.
fn received_from(numbers: &[u64]) -> Option<CommandAsdu>
    ensures { result ≡ received_in numbers.now }
{
    let octets: ArrayVec<u8, 19> = octets_from(numbers)?;
    if octets.is_empty() || octets.len() != command_octets_of(octets[0]) {
        return None;
    }
    Some(CommandAsdu::copied(octets.as_slice()))
}

/// A command as it goes to its station.
fn for_line_from(numbers: &[u64]) -> Option<LineOctets>
    ensures { result ≡ for_line_in numbers.now }
{
    let octets: ArrayVec<u8, 12> = octets_from(numbers)?;
    if octets.is_empty() {
        return None;
    }
    Some(LineOctets::new(octets))
}

pub(crate) fn waiting_from(numbers: &[u64]) -> Option<Waiting>
    ensures { result ≡ waiting_in numbers.now }
{
    match numbers {
        [station, count, others @ ..] => {
            let count = *count as usize;
            if count > others.len() {
                return None;
            }
            let received = received_from(&others[..count])?;
            let octets = for_line_from(&others[count..])?;
            Some(Waiting {
                station: *station as usize,
                received,
                octets,
            })
        }
        _ => None,
    }
}

fn line_by(kind: u64, numbers: &[u64]) -> Option<Line>
    ensures { result ≡ line_by kind numbers.now }
{
    match (kind, numbers) {
        (0, []) => Some(Line::Free),
        (1, received) => Some(Line::Holds(received_from(received)?)),
        (2, []) => Some(Line::CutOff),
        _ => None,
    }
}

pub(crate) fn line_from(numbers: &[u64]) -> Option<Line>
    ensures { result ≡ line_in numbers.now }
{
    let (kind, others) = numbers.split_first()?;
    line_by(*kind, others)
}

fn element_from(numbers: &[u64]) -> Option<CommandElement>
    ensures { result ≡ element_in numbers.now }
{
    match numbers {
        [octet] if *octet < 256 => Some(CommandElement::Octet(*octet as u8)),
        [low, high, qos] if *low < 256 && *high < 256 && *qos < 256 => {
            Some(CommandElement::SetPoint(*low as u8, *high as u8, *qos as u8))
        }
        _ => None,
    }
}

fn stage_from(number: u64, detail: u64) -> Option<SelectStage>
    ensures { result ≡ stage_in number detail }
{
    match (number, detail) {
        (0, ahead) => Some(SelectStage::Queued(ahead as usize)),
        (1, 0) => Some(SelectStage::Sent),
        (2, 0) => Some(SelectStage::Accepted),
        (3, since) => Some(SelectStage::Live(since)),
        _ => None,
    }
}

fn command_from(
    kind: u64,
    received: u64,
    cause: u64,
    originator: u64,
    ca: u64,
    address: u64,
    element: &[u64],
) -> Option<Command>
    ensures { result ≡
        command_with kind received cause originator ca address (element_in element.now) }
{
    let element = element_from(element)?;
    if kind < 256
        && received < 256
        && cause < 256
        && originator < 256
        && ca < 65536
        && address < 4_294_967_296
    {
        Some(Command {
            kind: kind as u8,
            received: received as u8,
            cause: cause as u8,
            originator: originator as u8,
            ca: ca as u16,
            address: address as u32,
            element,
        })
    } else {
        None
    }
}

pub(crate) fn selection_from(numbers: &[u64]) -> Option<Selection>
    ensures { result ≡ selection_in numbers.now }
{
    match numbers {
        [
            station,
            came,
            kind,
            received,
            cause,
            originator,
            ca,
            address,
            stage,
            detail,
            element @ ..,
        ] => {
            let command = command_from(
                *kind,
                *received,
                *cause,
                *originator,
                *ca,
                *address,
                element,
            )?;
            let stage = stage_from(*stage, *detail)?;
            Some(Selection {
                station: *station as usize,
                command,
                came: *came,
                stage,
            })
        }
        _ => None,
    }
}

fn tag_from(numbers: &[u64]) -> Option<Option<Cp56>>
    ensures { result ≡ tag_in numbers.now }
{
    if numbers.is_empty() {
        return Some(None);
    }
    let octets: ArrayVec<u8, TAG_OCTETS> = octets_from(numbers)?;
    if octets.len() != TAG_OCTETS {
        return None;
    }
    Some(Some(read_tag(octets.as_slice())))
}

fn target_from(kind: u64, ca: u64, address: u64) -> Option<Target>
    ensures { result ≡ target_in kind ca address }
{
    if kind < 256 && ca < 65536 && address < 4_294_967_296 {
        Some(Target {
            kind: kind as u8,
            ca: ca as u16,
            address: address as u32,
        })
    } else {
        None
    }
}

pub(crate) fn sending_from(numbers: &[u64]) -> Option<Sending>
    ensures { result ≡ sending_in numbers.now }
{
    match numbers {
        [kind, ca, address, tag @ ..] => {
            let target = target_from(*kind, *ca, *address)?;
            let tag = tag_from(tag)?;
            Some(Sending { target, tag })
        }
        _ => None,
    }
}

/// Whether each can be an own answer.
pub(crate) fn are_answers(answers: &[OwnAnswer]) -> bool
    ensures value { result ≡ are_long answers.now }
    ensures asdus { result ≡ true → AreAsdus answers.now }
{
    are_all_long(answers)
}

fn are_all_long(answers: &[OwnAnswer]) -> bool
    ensures { result ≡ are_long answers.now }
{
    answers
        .iter()
        .all(|answer| 9 <= answer.len() && answer.len() <= 249)
}

/// Reads the next line.
fn read_item<T: Saved, L: Lines>(lines: &mut L, line: &mut Vec<u64>) -> Result<T, StateFault>
    ensures back { (x : T) (rest : List (List ℕ)) → T.is_savable x ≡ true →
        L.coming lines.old ≡ T.numbers x ∷ rest →
        MatchResult result (λ y. (y ≡ x) × (L.coming lines.new ≡ rest)) (λ e. e ≡ Wrong → ⊥) }
    ensures exact { IfOk result (λ y. L.coming lines.old ≡ T.numbers y ∷ L.coming lines.new) }
{
    lines.next(line)?;
    match T::read(line.as_slice()) {
        Some(item) => Ok(item),
        None => Err(StateFault::Wrong),
    }
}

/// Reads so many lines, for which, and for `most` in all, there is room then.
fn read_items<T: Saved + Drop, L: Lines>(
    alloc: Global,
    most: usize,
    count: usize,
    lines: &mut L,
    line: &mut Vec<u64>,
) -> Result<Vec<T>, StateFault>
    requires { count ≤ most }
    ensures law { (xs : List T) (rest : List (List ℕ)) → length xs ≡ count →
        list_all T.is_savable xs ≡ true → L.coming lines.old ≡ map T.numbers xs ++ rest →
        MatchResult result (λ v. (v.items ≡ xs) × (L.coming lines.new ≡ rest))
        (λ e. e ≡ Wrong → ⊥) }
    ensures exact { IfOk result (λ v.
        L.coming lines.old ≡ map T.numbers v.items ++ L.coming lines.new) }
    ensures count { IfOk result (λ v. length v.items ≡ count) }
    ensures room { IfOk result (λ v. most ≤ vec_capacity v) }
{
    let mut items = Vec::with_capacity(alloc, most).map_err(|_| StateFault::NoMemory)?;
    for _i in 0..count {
        items.push_reserved(read_item(lines, line)?);
    }
    Ok(items)
}

/// Reads how many lines follow, at most `most`.
fn read_count<L: Lines>(
    most: usize,
    lines: &mut L,
    line: &mut Vec<u64>,
) -> Result<usize, StateFault>
    ensures law { (n : ℕ) (rest : List (List ℕ)) → n ≤ most →
        L.coming lines.old ≡ (n ∷ []) ∷ rest →
        MatchResult result (λ count. (count ≡ n) × (L.coming lines.new ≡ rest))
        (λ e. e ≡ Wrong → ⊥) }
    ensures exact { IfOk result (λ count.
        L.coming lines.old ≡ (count ∷ []) ∷ L.coming lines.new) }
    ensures few { IfOk result (λ count. count ≤ most) }
{
    lines.next(line)?;
    match line.as_slice() {
        [count] if *count <= most as u64 => Ok(*count as usize),
        _ => Err(StateFault::Wrong),
    }
}

/// Reads how many lines follow, at most `most`, and these.
fn read_list<T: Saved + Drop, L: Lines>(
    alloc: Global,
    most: usize,
    lines: &mut L,
    line: &mut Vec<u64>,
) -> Result<Vec<T>, StateFault>
    ensures law { (xs : List T) (rest : List (List ℕ)) → length xs ≤ most →
        list_all T.is_savable xs ≡ true →
        L.coming lines.old ≡ list_lines (map T.numbers xs) ++ rest →
        MatchResult result (λ v. (v.items ≡ xs) × (L.coming lines.new ≡ rest))
        (λ e. e ≡ Wrong → ⊥) }
    ensures exact { IfOk result (λ v.
        L.coming lines.old ≡ list_lines (map T.numbers v.items) ++ L.coming lines.new) }
    ensures few { IfOk result (λ v. length v.items ≤ most) }
    ensures room { IfOk result (λ v. most ≤ vec_capacity v) }
{
    let count = read_count(most, lines, line)?;
    read_items(alloc, most, count, lines, line)
}

/// A ring with `most` places and these items.
pub(crate) fn ring_of<T: Drop>(
    alloc: Global,
    most: usize,
    items: Vec<T>,
) -> Result<HeapCircularBuffer<T>, StateFault>
    requires { length items.items ≤ most }
    ensures { MatchResult result (λ ring. (ring.items ≡ items.items) × (ring.capacity ≡ most))
        (λ e. e ≡ NoMemory) }
{
    let mut left = items;
    let mut ring = HeapCircularBuffer::with_capacity(alloc, most).map_err(
        |_| StateFault::NoMemory,
    )?;
    // From the end, so that each is moved and none is copied.
    while let Some(item) = left.pop() {
        let _ = ring.try_push_front(item);
    }
    Ok(ring)
}

/// What is kept of commands, as it stands in lines.
#[derive(Drop)]
pub(crate) struct Parts {
    pub waiting: Vec<Waiting>,
    pub lines: Vec<Line>,
    pub selections: Vec<Selection>,
    pub sendings: Vec<Sending>,
    pub answers: Vec<OwnAnswer>,
}

/// Reads what is kept of the commands of so many stations.
pub(crate) fn read_parts<L: Lines>(
    alloc: Global,
    stations: usize,
    lines: &mut L,
    line: &mut Vec<u64>,
) -> Result<Parts, StateFault>
    ensures law { (s : State) (rest : List (List ℕ)) → IsSavable s →
        length s.stations ≡ stations → L.coming lines.old ≡ commands_lines s ++ rest →
        MatchResult result (λ parts. ArePartsOf s parts × (L.coming lines.new ≡ rest))
        (λ e. e ≡ Wrong → ⊥) }
    ensures exact { (known : List StationInfo) (sizes : Sizes) (select_ms max_age_ms : ℕ) →
        IfOk result (λ parts. L.coming lines.old
        ≡ commands_lines (state_with known sizes select_ms max_age_ms parts)
        ++ L.coming lines.new) }
    ensures room { IfOk result (HaveRoom stations) }
{
    let waiting = read_list(alloc, MOST_WAITING, lines, line)?;
    let on_lines = read_items(alloc, stations, stations, lines, line)?;
    let selections = read_list(alloc, MOST_SELECTIONS, lines, line)?;
    let sendings = read_list(alloc, MOST_SENDINGS, lines, line)?;
    let answers = read_list(alloc, MOST_ANSWERS, lines, line)?;
    Ok(Parts {
        waiting,
        lines: on_lines,
        selections,
        sendings,
        answers,
    })
}
