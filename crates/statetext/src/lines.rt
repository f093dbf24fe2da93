//! Lines are read of a text.
ghost use Rattle.std.specs.Prelude.{◌≡◌, ◌==◌, ◌<◌, ◌≤◌, IfSome, IsNone, position, slice_index, ℕ};
ghost use Rattle.std.specs.Prelude.{List, [], ◌∷◌, ◌++◌, length, drop, Some, None, OnOk, IfErr};
ghost use Rattle.std.specs.Prelude.{Err};
ghost use Rattle.checkpoint.specs.Octets.{IsOctetLine};
ghost use Rattle.checkpoint.specs.declared.StateFault.TheVariants.{Wrong, NoMemory};
ghost use Rattle.statetext.specs.Text.{lines_in, line_in, before_lines, numbers_behind, with_digit};
ghost use Rattle.statetext.specs.Text.{octets_read};
ghost use Rattle.hex.specs.Hex.{decode_of};

use checkpoint::{Lines, StateFault};
use hex::decode_to_slice;
use std::alloc::Global;

/// The lines of a text that is in memory.
#[derive(Drop)]
pub struct TextLines {
    text: Vec<u8>,
    /// Where the next line begins.
    at: usize,
    /// What a line of the other kind is read into.
    numbers: Vec<u64>,
    octets: Vec<u8>,
    ghost within: { at ≤ length text.items },
}

impl TextLines {
    /// The lines of a text.
    pub fn new(alloc: Global, text: Vec<u8>) -> TextLines
        ensures { drop result.at result.text.items ≡ text.items }
    {
        TextLines {
            text,
            at: 0,
            numbers: Vec::new(alloc),
            octets: Vec::new(alloc),
        }
    }
}

/// A number with one more digit behind it.
fn with_digit(number: Option<u64>, octet: u8) -> Option<u64>
    ensures { result ≡ with_digit number octet }
{
    if !octet.is_ascii_digit() {
        return None;
    }
    let digit = u64::from(octet - b'0');
    match number {
        None => Some(digit),
        Some(0) => None,
        Some(n) => n.checked_mul(10)?.checked_add(digit),
    }
}

/// Puts a number behind others.
fn push(line: &mut Vec<u64>, number: u64) -> Result<(), StateFault>
    ensures put { OnOk result (line.new.items ≡ line.old.items ++ number ∷ []) }
    ensures fault { IfErr result (λ e. e ≡ NoMemory) }
{
    match line.push(number) {
        Ok(()) => Ok(()),
        Err(_) => Err(StateFault::NoMemory),
    }
}

/// Reads a line of numbers in place of a line.
fn read_numbers(text: &[u8], line: &mut Vec<u64>) -> Result<(), StateFault>
    ensures some { OnOk result (numbers_behind None text.now ≡ Some line.new.items) }
    ensures none { result ≡ Err Wrong → numbers_behind None text.now ≡ None }
{
    line.clear();
    let mut number = None;
    for octet in text {
        if *octet == b' ' {
            let Some(n) = number else {
                return Err(StateFault::Wrong);
            };
            push(line, n)?;
            number = None;
        } else {
            let Some(n) = with_digit(number, *octet) else {
                return Err(StateFault::Wrong);
            };
            number = Some(n);
        }
    }
    let Some(n) = number else {
        return Err(StateFault::Wrong);
    };
    push(line, n)?;
    Ok(())
}

/// Reads octets in hexadecimal in place of a line.
fn read_octets(text: &[u8], line: &mut Vec<u8>) -> Result<(), StateFault>
    ensures some { OnOk result (octets_read (decode_of text.now) ≡ Some line.new.items) }
    ensures none { result ≡ Err Wrong → octets_read (decode_of text.now) ≡ None }
{
    line.clear();
    if line.resize(text.len() / 2, 0).is_err() {
        return Err(StateFault::NoMemory);
    }
    match decode_to_slice(text, line.as_mut_slice()) {
        Ok(()) => Ok(()),
        Err(_) => Err(StateFault::Wrong),
    }
}

/// The numbers of octets, in place of a line.
fn widen(octets: &[u8], line: &mut Vec<u64>) -> Result<(), StateFault>
    ensures put { OnOk result (line.new.items ≡ octets.now) }
    ensures fault { IfErr result (λ e. e ≡ NoMemory) }
{
    line.clear();
    for octet in octets {
        push(line, u64::from(*octet))?;
    }
    Ok(())
}

/// The octets that numbers are, in place of a line.
fn narrow(numbers: &[u64], line: &mut Vec<u8>) -> Result<(), StateFault>
    ensures some { OnOk result (line.new.items ≡ numbers.now) }
    ensures none { result ≡ Err Wrong → (k : ℕ) × (k < length numbers.now)
        × (256 ≤ slice_index numbers.now k) }
{
    line.clear();
    for number in numbers {
        let Ok(octet) = u8::try_from(*number) else {
            return Err(StateFault::Wrong);
        };
        if line.push(octet).is_err() {
            return Err(StateFault::NoMemory);
        }
    }
    Ok(())
}

/// The place of the first line feed.
fn place(text: &[u8]) -> Option<usize>
    ensures first { result ≡ position (λ c. c == 10) text.now }
    ensures within { IfSome result (λ i. i < length text.now) }
{
    text.iter().position(|octet| *octet == b'\n')
}

/// The text of the line at a place, and where the line behind it begins, if one is there.
fn row_at(text: &[u8], at: usize) -> Option<(&[u8], usize)>
    requires { at ≤ length text.now }
    ensures some { IfSome result (λ found. lines_in (drop at text.entry.now)
        ≡ before_lines (line_in found.0.now) (lines_in (drop found.1 text.entry.now))) }
    ensures within { IfSome result (λ found. found.1 ≤ length text.entry.now) }
    ensures none { IsNone result → lines_in (drop at text.entry.now) ≡ [] }
{
    let left = &text[at..];
    match place(left) {
        Some(i) => Some((&left[..i], at + i + 1)),
        None => None,
    }
}

impl Lines for TextLines {
    ghost coming = { λ t. lines_in (drop t.at t.text.items) };

    fn next(&mut self, line: &mut Vec<u64>) -> Result<(), StateFault> {
        let Some((row, behind)) = row_at(&self.text, self.at) else {
            return Err(StateFault::Wrong);
        };
        match row {
            [] => line.clear(),
            [b'x', digits @ ..] => {
                read_octets(digits, &mut self.octets)?;
                widen(&self.octets, line)?;
            }
            _ => read_numbers(row, line)?,
        }
        self.at = behind;
        Ok(())
    }

    fn next_octets(&mut self, line: &mut Vec<u8>) -> Result<(), StateFault> {
        let Some((row, behind)) = row_at(&self.text, self.at) else {
            return Err(StateFault::Wrong);
        };
        match row {
            [] => line.clear(),
            [b'x', digits @ ..] => read_octets(digits, line)?,
            _ => {
                read_numbers(row, &mut self.numbers)?;
                narrow(&self.numbers, line)?;
            }
        }
        self.at = behind;
        Ok(())
    }
}
