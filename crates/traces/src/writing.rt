//! A text that is written whole.
ghost use Rattle.std.specs.Prelude.{◌++◌, ℕ, List, OnErr, OnOk, Option};
ghost use Rattle.std.specs.Io.KnownBytes.{Appends};
ghost use Rattle.traces.specs.Pouring.{IsBegun, IsPoured};

use std::io;
use std::io::{ErrorKind, Write};

/// Writes a whole text. If that fails, a beginning of it was written.
pub fn print<W: Write>(text: &[u8], out: &mut W) -> io::Result<()>
    ensures all { OnOk result (Appends (W.contents out.old) (W.contents out.new) text.now) }
    ensures begun { OnErr result (IsBegun (W.contents out.old) (W.contents out.new) text.now) }
{
    let mut done = 0;
    'writing: for _ in 0..u64::MAX {
        if done == text.len() {
            return out.flush();
        }
        match out.write(&text[done..]) {
            Ok(0) => return Err(io::Error::from(ErrorKind::WriteZero)),
            Ok(n) => done += n,
            // A signal came first.
            Err(fault) if fault.kind() == ErrorKind::Interrupted => {}
            Err(fault) => return Err(fault),
        }
    }
    Err(io::Error::from(ErrorKind::WriteZero))
}

/// Writes a text behind one of which all was printed, or else nothing, since the output failed.
/// Answers whether the output has taken all.
pub fn print_behind<W: Write>(text: &[u8], is_whole: bool, out: &mut W) -> bool
    ensures { (before : Option (List ℕ)) (earlier : List ℕ) →
        IsPoured is_whole before (W.contents out.old) earlier →
        IsPoured result before (W.contents out.new) (earlier ++ text.now) }
{
    if !is_whole {
        return false;
    }
    print(text, out).is_ok()
}
