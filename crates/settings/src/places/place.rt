//! The line and the column of an octet.
ghost use Rattle.std.specs.Prelude.{◌≤◌, length};

/// A place in a text, as an editor shows it: both numbers begin with 1, and columns count
/// characters.
#[derive(Clone, Copy, PartialEq, Eq)]
pub struct Place {
    pub line: usize,
    pub column: usize,
}

/// The place of the octet behind the first `at` of a text in UTF-8.
pub fn place_at(text: &[u8], at: usize) -> Place
    requires { at ≤ length text.now }
{
    let mut place = Place { line: 1, column: 1 };
    for octet in &text[..at] {
        place = behind(place, *octet);
    }
    place
}

/// The place behind one more octet.
fn behind(place: Place, octet: u8) -> Place {
    if octet == b'\n' {
        Place {
            line: place.line.saturating_add(1),
            column: 1,
        }
    } else if octet & 0xC0 == 0x80 {
        // It goes on with a character that has begun.
        place
    } else {
        Place {
            line: place.line,
            column: place.column.saturating_add(1),
        }
    }
}
