//! How far a long run has come, as a terminal shows it.
ghost use Rattle.std.specs.Prelude.{◌≡◌, ◌<◌, ◌≤◌, false, OnOk};
ghost use Rattle.std.specs.Io.KnownBytes.{Appends};
ghost use Rattle.traces.specs.Percent.{percent_of, percent_text, blank_text};

use std::io;
use std::io::Write;

/// Takes what was shown from the terminal, if something was.
pub fn blank_if<E: Write>(is_shown: bool, err: &mut E)
    ensures { is_shown ≡ false → err.new ≡ err.old }
{
    if is_shown {
        let _ = blank(err);
    }
}

/// Shows which part of so many turns, or octets, is done, over what stands on the line.
pub fn show_percent<E: Write>(done: u64, all: u64, err: &mut E) -> io::Result<()>
    requires within { done ≤ all }
    requires some { 0 < all }
    ensures { OnOk result (Appends (E.contents err.old) (E.contents err.new)
        (percent_text (percent_of done all))) }
{
    let percent = percent(done, all);
    write!(err, "\r{percent} %")
}

/// Which part of a number another is, in whole percent.
fn percent(done: u64, all: u64) -> u8
    requires within { done ≤ all }
    requires some { 0 < all }
    ensures { result ≡ percent_of done all }
{
    (u128::from(done) * 100 / u128::from(all)) as u8
}

/// Blanks the line on which percent were shown.
fn blank<E: Write>(err: &mut E) -> io::Result<()>
    ensures { OnOk result (Appends (E.contents err.old) (E.contents err.new) blank_text) }
{
    write!(err, "\r     \r")
}
