//! Octets that are put one behind another into room of a fixed size.
ghost use Rattle.std.specs.Prelude.{◌≡◌, ◌+◌, ◌≤◌, ◌++◌, length, take, IfOk, MatchOption, Some};
ghost use Rattle.std.specs.Prelude.{None};
ghost use Rattle.status.specs.TextPage.{Sheet, put, empty, shown};

use std::alloc::{AllocError, Global};
use std::marker::Model;

/// A text that grows in room of a fixed size. Once something found no room there is no text any
/// more, until the page is cleared: so what stands on it is always whole.
#[derive(Drop)]
pub(crate) struct TextPage {
    /// The first octets are the text. The others mean nothing.
    octets: Vec<u8>,
    end: usize,
    /// Something found no room.
    is_cut: bool,
}

impl Model for TextPage {
    ghost use Rattle.std.specs.Prelude.{◌≤◌, length, take, Some, None, if◌then◌else◌};
    ghost use Rattle.status.specs.TextPage.{Sheet};

    ghost Value = { Sheet };

    ghost view = { λ p. record {
      room = length p.octets.items;
      text = if p.is_cut then None else Some (take p.end p.octets.items);
    } };

    ghost invariant = { λ p. p.end ≤ length p.octets.items };
}

impl TextPage {
    /// An empty page with room for so many octets.
    pub(crate) fn new(alloc: Global, room: usize) -> Result<TextPage, AllocError>
        ensures { IfOk result (λ page. page ≡ empty room) }
    {
        let mut octets = Vec::new(alloc);
        octets.resize(room, 0)?;
        Ok(TextPage {
            octets,
            end: 0,
            is_cut: false,
        })
    }

    /// Takes all off the page.
    pub(crate) fn clear(&mut self)
        ensures { self.new ≡ empty self.old.room }
    {
        self.end = 0;
        self.is_cut = false;
    }

    /// What stands on the page, or nothing, if something found no room.
    pub(crate) fn text(&self) -> Option<&[u8]>
        ensures { MatchOption result (self.now.text ≡ None)
            (λ text. self.now.text ≡ Some text.now) }
    {
        if self.is_cut {
            return None;
        }
        Some(&self.octets[..self.end])
    }

    /// The octets that stand on the page: none if something found no room.
    pub(crate) fn octets(&self) -> &[u8]
        ensures { result.now ≡ shown self.now }
    {
        match self.text() {
            Some(text) => text,
            None => &[],
        }
    }

    /// Puts octets behind what stands on the page.
    pub(crate) fn put(&mut self, octets: &[u8])
        ensures { self.new ≡ put octets.now self.old }
    {
        if self.is_cut {
            return;
        }
        if self.octets.len() - self.end < octets.len() {
            self.is_cut = true;
            return;
        }
        write_behind(&mut self.octets, self.end, octets);
        self.end += octets.len();
    }
}

/// Writes octets behind the first ones.
fn write_behind(room: &mut [u8], end: usize, octets: &[u8])
    requires { end + length octets.now ≤ length room.old }
    ensures { take (end + length octets.now) room.new ≡ take end room.old ++ octets.now }
{
    room[end..end + octets.len()].copy_from_slice(octets);
}
