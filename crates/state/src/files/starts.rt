//! What stands in the two files of a log as they are opened.

use sqlite_std_file::Start;

/// What stands in the two files of a log as they are opened. No code can read it: what is proved
/// over each such type holds whatever stands there.
// A run opens its files at its start, and anew behind a sync that failed. Of each of these openings
// a clause says something if `Found` has what stood there then.
pub trait Starts: Copy + Drop {
    type Found: Start;

    /// What stands there as they are opened now.
    fn found(self) -> Self::Found;
}
