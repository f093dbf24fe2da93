//! Lines are put as text.
ghost use Rattle.hex.specs.Hex.{encode_lower};
ghost use Rattle.std.specs.Prelude.{◌≡◌, ◌*◌, length, ℕ, List, [], ◌∷◌, ◌++◌, OnOk, OnErr};
ghost use Rattle.std.proofs.Props.{props};
ghost use Rattle.statetext.specs.Text.{text_of_numbers, text_of_octets, text_behind, lines_in};
ghost use Rattle.statetext.specs.Text.{IsWhole};

use checkpoint::{Sheet, StateFault};
use hex::encode_to_slice;
use itoa::Buffer;
use std::alloc::{AllocError, Global};

/// Where octets go, one behind another.
pub trait Octets {
    /// The octets that were appended.
    ghost appended: { Self → List ℕ };

    /// Appends octets.
    fn append(&mut self, octets: &[u8]) -> Result<(), StateFault>
        ensures put { OnOk result (appended self.new ≡ appended self.old ++ octets.now) }
        ensures none { OnErr result (appended self.new ≡ appended self.old) };
}

/// A sheet that puts the text of its lines.
#[derive(Drop)]
pub struct TextSheet<O: Octets> {
    octets: O,
    /// The text of a line.
    row: Vec<u8>,
    ghost whole: { IsWhole (O.Octets.appended octets) } by { Prim.hlevel props },
}

impl<O: Octets> TextSheet<O> {
    /// An empty sheet.
    pub fn new(alloc: Global, octets: O) -> TextSheet<O>
        requires { O.Octets.appended octets ≡ [] }
        ensures { O.Octets.appended result.octets ≡ [] }
    {
        TextSheet {
            octets,
            row: Vec::new(alloc),
        }
    }

    /// What was put is read back: whatever stands behind it, the lines of the sheet are read first.
    pub fn is_read_back(&self)
        ensures { (rest : List ℕ) → lines_in (O.Octets.appended self.now.octets ++ rest)
            ≡ lines_in (O.Octets.appended self.now.octets) ++ lines_in rest }
    {
        let _ = &self.octets;
    }

    /// Where the text went.
    pub fn into_octets(self) -> O
        ensures same { O.Octets.appended result ≡ O.Octets.appended self.octets }
        ensures whole { IsWhole (O.Octets.appended result) }
    {
        let TextSheet { octets, row: _ } = self;
        octets
    }
}

/// Puts the text of numbers in place of a row.
fn spell_numbers(row: &mut Vec<u8>, line: &[u64]) -> Result<(), AllocError>
    ensures { OnOk result (row.new.items ≡ text_of_numbers line.now ++ 10 ∷ []) }
{
    row.clear();
    let mut buffer = Buffer::new();
    if let [first, others @ ..] = line {
        row.extend_from_slice(buffer.format(*first).as_bytes())?;
        spell_others(row, others)?;
    }
    row.push(b'\n')?;
    Ok(())
}

/// Puts the text of the numbers behind the first one.
fn spell_others(row: &mut Vec<u8>, others: &[u64]) -> Result<(), AllocError>
    ensures { OnOk result (row.new.items ≡ row.old.items ++ text_behind others.now) }
{
    let mut buffer = Buffer::new();
    for number in others {
        row.push(b' ')?;
        row.extend_from_slice(buffer.format(*number).as_bytes())?;
    }
    Ok(())
}

/// Puts the text of octets in place of a row.
fn spell_octets(row: &mut Vec<u8>, line: &[u8]) -> Result<(), AllocError>
    ensures { OnOk result (row.new.items ≡ text_of_octets line.now ++ 10 ∷ []) }
{
    row.clear();
    row.push(b'x')?;
    put_hexadecimal(row, line)?;
    row.push(b'\n')?;
    Ok(())
}

/// Puts octets in hexadecimal behind a row.
pub fn put_hexadecimal(row: &mut Vec<u8>, octets: &[u8]) -> Result<(), AllocError>
    ensures { OnOk result (row.new.items ≡ row.old.items ++ encode_lower octets.now) }
{
    let start = row.len();
    let Some(digits) = octets.len().checked_mul(2) else {
        return Err(AllocError);
    };
    let Some(end) = start.checked_add(digits) else {
        return Err(AllocError);
    };
    row.resize(end, 0)?;
    match encode_to_slice(octets, &mut row[start..]) {
        Ok(()) => Ok(()),
        Err(_) => Err(AllocError),
    }
}

impl<O: Octets> Sheet for TextSheet<O> {
    ghost written = { λ s. lines_in (O.Octets.appended s.octets) };

    fn put(&mut self, line: &[u64]) -> Result<(), StateFault> {
        spell_numbers(&mut self.row, line)?;
        self.octets.append(&self.row)
    }

    fn put_octets(&mut self, line: &[u8]) -> Result<(), StateFault> {
        spell_octets(&mut self.row, line)?;
        self.octets.append(&self.row)
    }
}
