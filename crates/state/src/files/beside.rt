//! The mark in a second place, for if the disk of a state takes none.
ghost use Rattle.std.specs.Prelude.{◌≡◌, IfOk, Some, codes, true};
ghost use Rattle.state.specs.FileNames.{HasNoneBeside, IsMarkedBeside, Sought, noted};

use super::names::Names;
use std::io;

/// A directory that doesn't stand on the disk of a state, with the same mark. It isn't locked: who
/// has the state has it, too.
#[derive(Drop)]
pub(crate) struct Beside<N: Names> {
    names: N,
}

impl<N: Names> Beside<N> {
    /// That with these names.
    pub(crate) fn new(names: N) -> Beside<N>
        ensures { result ≡ record { names = names } }
    {
        Beside { names }
    }

    /// Whether the mark stands there.
    pub(crate) fn is_marked(&mut self) -> io::Result<bool>
        ensures { IfOk result (λ is_marked. N.steps self.new.names
            ≡ noted (N.steps self.old.names) (Sought (codes "stale") (Some is_marked))) }
    {
        self.names.has("stale")
    }

    /// Makes the mark there.
    pub(crate) fn mark(&mut self) -> io::Result<()>
        ensures { IfOk result (λ _.
            IsMarkedBeside (N.steps self.old.names) (N.steps self.new.names)) }
    {
        self.names.make("stale")?;
        self.names.sync()
    }

    /// Takes the mark away there, if it stands.
    pub(crate) fn unmark(&mut self) -> io::Result<()>
        ensures { IfOk result (λ _.
            HasNoneBeside (N.steps self.old.names) (N.steps self.new.names)) }
    {
        if !self.names.has("stale")? {
            return Ok(());
        }
        self.names.rename("stale", "kept")?;
        self.names.sync()
    }
}
