//! Lines that are to be printed.
ghost use Rattle.std.specs.Prelude.{◌≡◌, ◌+◌, ◌≤◌, ◌++◌, [], ◌*◌, length, take, OnOk, OnErr};
ghost use Rattle.hex.specs.Hex.{IsBytes};
ghost use Rattle.traces.specs.Actions.{octets_line};
ghost use Rattle.traces.specs.Printed.{event_line};

use crate::moments::Moment;
use crate::printing::{put_event, put_line, room_for};
use std::alloc::{AllocError, Global};
use std::marker::Model;

/// Octets put one after another, into room that is made before.
#[derive(Drop)]
pub struct Page {
    /// The first octets are those that were put. The others mean nothing: they are room, so that
    /// what is put is written where it will stand.
    room: Vec<u8>,
    end: usize,
}

impl Model for Page {
    ghost use Rattle.std.specs.Prelude.{ℕ, List, ◌≤◌, length, take};

    ghost Value = { List ℕ };

    ghost view = { λ p. take p.end p.room.items };

    ghost invariant = { λ p. p.end ≤ length p.room.items };
}

/// The least room that is made at once.
const LEAST_ROOM: usize = 4_096;

/// Makes room for so many octets behind the first ones, unless there is.
fn make_room(room: &mut Vec<u8>, end: usize, more: usize) -> Result<(), AllocError>
    requires { end ≤ length room.old.items }
    ensures same { take end room.new.items ≡ take end room.old.items }
    ensures some { OnOk result (end + more ≤ length room.new.items) }
    ensures grown { length room.old.items ≤ length room.new.items }
{
    if more <= room.len() - end {
        return Ok(());
    }
    let Some(wanted) = end.checked_add(more) else {
        return Err(AllocError);
    };
    // Twice as much each time, so that each octet is moved once at most on the average.
    room.resize(wanted.max(room.len().saturating_mul(2)).max(LEAST_ROOM), 0)
}

/// Puts the line of an action behind the first octets of a row, and answers where it ends.
#[inline(always)]
fn put_behind(row: &mut [u8], end: usize, moment: &Moment, letter: u8, octets: &[u8]) -> usize
    requires { end + (2 * length octets.now + 26) ≤ length row.old }
    ensures line { take result row.new
        ≡ take end row.old ++ octets_line moment.now letter octets.now }
    ensures within { result ≤ length row.new }
    ensures octets { IsBytes octets.now }
{
    end + put_line(&mut row[end..], moment, letter, octets)
}

/// Puts the line of an event with octets behind the first octets of a row, and answers where it
/// ends.
#[inline(always)]
fn put_event_behind(row: &mut [u8], end: usize, moment: &Moment, letter: u8, octets: &[u8]) -> usize
    requires { end + (2 * length octets.now + 26) ≤ length row.old }
    ensures line { take result row.new
        ≡ take end row.old ++ event_line moment.now letter octets.now }
    ensures within { result ≤ length row.new }
    ensures octets { IsBytes octets.now }
{
    end + put_event(&mut row[end..], moment, letter, octets)
}

impl Page {
    /// An empty page, without room.
    pub fn new(alloc: Global) -> Page
        ensures { result ≡ [] }
    {
        Page {
            room: Vec::new(alloc),
            end: 0,
        }
    }

    /// A page that has these octets.
    pub fn holding(octets: Vec<u8>) -> Page
        ensures { result ≡ octets.items }
    {
        let end = octets.len();
        Page { room: octets, end }
    }

    /// What was put on the page, in its order.
    pub fn octets(&self) -> &[u8]
        ensures { result.now ≡ self.now }
    {
        &self.room[..self.end]
    }

    /// Takes all off the page, which keeps its room.
    pub fn clear(&mut self)
        ensures { self.new ≡ [] }
    {
        self.end = 0;
    }

    /// Puts octets. An `Err` is want of memory; then nothing was put.
    pub fn put(&mut self, octets: &[u8]) -> Result<(), AllocError>
        ensures put { OnOk result (self.new ≡ self.old ++ octets.now) }
        ensures none { OnErr result (self.new ≡ self.old) }
    {
        make_room(&mut self.room, self.end, octets.len())?;
        let end = self.end + octets.len();
        self.room[self.end..end].copy_from_slice(octets);
        self.end = end;
        Ok(())
    }

    /// Puts the line of an action with octets. An `Err` is want of memory; then nothing was put.
    pub(crate) fn put_line(
        &mut self,
        moment: &Moment,
        letter: u8,
        octets: &[u8],
    ) -> Result<(), AllocError>
        ensures line { OnOk result (self.new
            ≡ self.old ++ octets_line moment.now letter octets.now) }
        ensures none { OnErr result (self.new ≡ self.old) }
        ensures octets { OnOk result (IsBytes octets.now) }
    {
        let Some(more) = room_for(octets.len()) else {
            return Err(AllocError);
        };
        make_room(&mut self.room, self.end, more)?;
        self.end = put_behind(self.room.as_mut_slice(), self.end, moment, letter, octets);
        Ok(())
    }

    /// Puts the line of an event with octets. An `Err` is want of memory; then nothing was put.
    pub(crate) fn put_event(
        &mut self,
        moment: &Moment,
        letter: u8,
        octets: &[u8],
    ) -> Result<(), AllocError>
        ensures line { OnOk result (self.new
            ≡ self.old ++ event_line moment.now letter octets.now) }
        ensures none { OnErr result (self.new ≡ self.old) }
        ensures octets { OnOk result (IsBytes octets.now) }
    {
        let Some(more) = room_for(octets.len()) else {
            return Err(AllocError);
        };
        make_room(&mut self.room, self.end, more)?;
        self.end = put_event_behind(self.room.as_mut_slice(), self.end, moment, letter, octets);
        Ok(())
    }
}
