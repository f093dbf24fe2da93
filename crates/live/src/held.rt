//! Octets that came and haven't been given yet.
ghost use Rattle.std.specs.Prelude.{◌≡◌, ◌≤◌, [], length, take, ◌==◌};

use arrayvec::ArrayVec;
use std::marker::Model;

/// Octets of the connection that came and haven't been given yet: at most 1,024.
#[derive(Drop)]
pub(crate) struct HeldOctets {
    octets: ArrayVec<u8, 1024>,
}

impl Model for HeldOctets {
    ghost use Rattle.std.specs.Prelude.{List, ℕ};

    ghost Value = { List ℕ };

    ghost view = { λ h. h.octets.items };
}

impl HeldOctets {
    /// No octets.
    pub(crate) fn new() -> HeldOctets
        ensures { result ≡ [] }
    {
        HeldOctets {
            octets: ArrayVec::new(),
        }
    }

    /// These octets, and no others.
    pub(crate) fn hold(&mut self, octets: &[u8])
        requires { length octets.now ≤ 1024 }
        ensures { self.new ≡ octets.now }
    {
        self.octets.clear();
        self.octets.try_extend_from_slice(octets).unwrap();
    }

    /// No octets any more.
    pub(crate) fn clear(&mut self)
        ensures { self.new ≡ [] }
    {
        self.octets.clear();
    }

    /// There are none.
    pub(crate) fn is_empty(&self) -> bool
        ensures { result ≡ (length self.now == 0) }
    {
        self.octets.is_empty()
    }

    /// Puts them at the front of the buffer, and answers how many they are.
    pub(crate) fn put(&self, buf: &mut [u8; 1024]) -> usize
        ensures len { result ≡ length self.now }
        ensures most { result ≤ 1024 }
        ensures front { take (length self.now) buf.new ≡ self.now }
    {
        let len = self.octets.len();
        buf[..len].copy_from_slice(&self.octets);
        len
    }
}
