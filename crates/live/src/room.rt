//! Whether there is room in a descriptor of the process.

use libc::net::{POLLOUT, poll};
use libc::types::pollfd;

/// So many octets a descriptor with room takes without a wait.
// A pipe takes so many at once (PIPE_BUF, POSIX), and a socket that is writable more. A file always
// has room.
pub const MOST_AT_ONCE: usize = 4096;

/// The descriptor of standard output.
pub const STANDARD_OUTPUT: i32 = 1;

/// The descriptor of standard error.
pub const STANDARD_ERROR: i32 = 2;

/// Whether [`MOST_AT_ONCE`] octets that are written there now go out without a wait. There is room,
/// too, if a write would fail.
// Asked anew before each write: to make the descriptor itself not wait would do so for each process
// that has it (docs/DECISIONS.md, "Nobody who reads holds a run up").
pub fn has_room(descriptor: i32) -> bool {
    let mut asked = [pollfd {
        fd: descriptor,
        events: POLLOUT,
        revents: 0,
    }];
    poll(&mut asked, 0) != 0
}
