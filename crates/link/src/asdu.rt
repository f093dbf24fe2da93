//! User data of a frame. (The file names no definition that speaks of frames: those stand on this
//! type.)
ghost use Rattle.std.specs.Prelude.{◌≡◌, ◌≤◌, ◌<◌, All, List, ℕ, length};

use arrayvec::ArrayVec;
use std::marker::Model;

/// The octets of an application service data unit, as a frame carries them: at most 253.
#[derive(Drop)]
pub struct UserData {
    octets: ArrayVec<u8, 253>,
}

impl Model for UserData {
    ghost use Rattle.std.specs.Prelude.{All, ◌<◌, List, ℕ};

    ghost Value = { List ℕ };

    ghost view = { λ a. a.octets.items };

    ghost invariant = { λ a. All (λ n. n < 256) a.octets.items };
}

impl UserData {
    /// These octets.
    pub fn new(octets: &[u8]) -> UserData
        requires { length octets.now ≤ 253 }
        ensures { result ≡ octets.now }
    {
        UserData {
            octets: ArrayVec::try_from(octets).unwrap(),
        }
    }

    /// The octets.
    pub fn octets(&self) -> &[u8]
        ensures octets { result.now ≡ self.now }
        ensures small { length result.now ≤ 253 }
    {
        &self.octets
    }

    /// The octets, as a frame's data.
    pub fn into_octets(self) -> ArrayVec<u8, 253>
        ensures octets { result.items ≡ self }
        ensures small { All (λ n. n < 256) result.items }
    {
        let UserData { octets } = self;
        octets
    }

    /// The same octets.
    pub fn copied(&self) -> UserData
        ensures { result ≡ self.now }
    {
        UserData::new(&self.octets)
    }
}

/// How many octets a command has at most: a set point in the largest sizes, with two octets each
/// for the cause and the common address, and three for the object's address.
// The primary keeps a command in two places (docs/DECISIONS.md, "Commands of 12 octets").
pub const LONGEST_COMMAND: usize = 12;

/// The octets of a command to a station: at most [`LONGEST_COMMAND`].
#[derive(Drop)]
pub struct CommandOctets {
    octets: ArrayVec<u8, LONGEST_COMMAND>,
}

impl Model for CommandOctets {
    ghost use Rattle.std.specs.Prelude.{All, ◌<◌, List, ℕ};

    ghost Value = { List ℕ };

    ghost view = { λ a. a.octets.items };

    ghost invariant = { λ a. All (λ n. n < 256) a.octets.items };
}

impl CommandOctets {
    /// These octets.
    pub fn new(octets: &[u8]) -> CommandOctets
        requires { length octets.now ≤ 12 }
        ensures { result ≡ octets.now }
    {
        CommandOctets {
            octets: ArrayVec::try_from(octets).unwrap(),
        }
    }

    /// The octets.
    pub fn octets(&self) -> &[u8]
        ensures octets { result.now ≡ self.now }
        ensures small { length result.now ≤ 12 }
        ensures bytes { All (λ n. n < 256) result.now }
    {
        &self.octets
    }

    /// The same octets.
    pub fn copied(&self) -> CommandOctets
        ensures { result ≡ self.now }
    {
        CommandOctets::new(&self.octets)
    }
}

/// The octets of an application service data unit, if a frame has them: at most 253.
#[derive(Drop)]
pub struct AsduRef<'a> {
    octets: &'a [u8],
}

impl<'a> Model for AsduRef<'a> {
    ghost use Rattle.std.specs.Prelude.{◌≤◌, length, List, ℕ};

    ghost Value = { List ℕ };

    ghost view = { λ a. a.octets.now };

    ghost invariant = { λ a. length a.octets.now ≤ 253 };
}

impl<'a> AsduRef<'a> {
    /// These octets.
    pub fn new(octets: &'a [u8]) -> AsduRef<'a>
        requires { length octets.now ≤ 253 }
        ensures { result ≡ octets.now }
    {
        AsduRef { octets }
    }

    /// The octets.
    pub fn octets(&self) -> &'a [u8]
        ensures octets { result.now ≡ self.now }
        ensures small { length result.now ≤ 253 }
    {
        self.octets
    }
}
