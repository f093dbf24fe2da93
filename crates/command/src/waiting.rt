//! Commands on their way to the line.
ghost use Rattle.std.specs.Prelude.{◌≡◌, ◌≤◌, ℕ, List, length, slice_index};
ghost use Rattle.arrayvec.specs.ArrayVec.{array_vec_len};
ghost use Rattle.command.specs.Command.{command_len};

use arrayvec::ArrayVec;
use std::marker::Model;

/// The ASDU of a command as it came from the control centre.
#[derive(Drop)]
pub(crate) struct CommandAsdu {
    octets: ArrayVec<u8, 19>,
}

impl Model for CommandAsdu {
    ghost Value = { List ℕ };

    ghost view = { λ a. a.octets.items };

    ghost invariant = { λ a. length a.octets.items ≡ command_len (slice_index a.octets.items 0) };
}

impl CommandAsdu {
    /// Keeps a copy of the octets.
    pub(crate) fn copied(octets: &[u8]) -> CommandAsdu
        requires whole { length octets.now ≡ command_len (slice_index octets.now 0) }
        requires fits { length octets.now ≤ 19 }
        ensures { result ≡ octets.now }
    {
        let mut copy = ArrayVec::new();
        let Ok(()) = copy.try_extend_from_slice(octets) else {
            unreachable!();
        };
        CommandAsdu { octets: copy }
    }

    pub(crate) fn as_slice(&self) -> &[u8]
        ensures value { result.now ≡ self.now }
        ensures whole { length result.now ≡ command_len (slice_index result.now 0) }
        ensures fits { length result.now ≤ 19 }
    {
        self.octets.as_slice()
    }
}

/// The ASDU of a command as it goes to its station.
#[derive(Drop)]
pub(crate) struct LineOctets {
    octets: ArrayVec<u8, 12>,
}

impl Model for LineOctets {
    ghost Value = { List ℕ };

    ghost view = { λ a. a.octets.items };

    ghost invariant = { λ a. 1 ≤ array_vec_len a.octets };
}

impl LineOctets {
    pub(crate) fn new(octets: ArrayVec<u8, 12>) -> LineOctets
        requires { 1 ≤ array_vec_len octets }
        ensures { result ≡ octets.items }
    {
        LineOctets { octets }
    }

    pub(crate) fn as_slice(&self) -> &[u8]
        ensures value { result.now ≡ self.now }
        ensures some { 1 ≤ length result.now }
        ensures fits { length result.now ≤ 12 }
    {
        self.octets.as_slice()
    }
}

/// A command that waits for the line of a station, as it came and as it goes out.
#[derive(Drop)]
pub(crate) struct Waiting {
    pub station: usize,
    pub received: CommandAsdu,
    pub octets: LineOctets,
}

/// What was put on the line of a station and isn't done.
#[derive(Drop)]
pub(crate) enum Line {
    Free,
    /// A command of the open connection, as it came.
    Holds(CommandAsdu),
    /// A command whose connection has ended.
    CutOff,
}
