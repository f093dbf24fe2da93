//! What of a log's two files is open.
ghost use Rattle.std.specs.Prelude.{◌≡◌, ◌+◌, ◌≤◌, length, IsTrue};
ghost use Rattle.segments.specs.Crashes.{AreOlder, log_text};
ghost use Rattle.segments.specs.Segment.{body_of, open_of, own_number, size_of, writes_of};
ghost use Rattle.state.specs.Doubts.{AreUndoubted};
ghost use Rattle.state.specs.Lines.{longest_line, most_octets, seal_octets};

use segments::Segment;
use sqlite_disk::Disk;

/// A segment that lines are appended to, and the file for the next one.
#[derive(Drop)]
pub(crate) struct Current<D: Disk + Drop> {
    pub(crate) segment: Segment<D>,
    /// Its number.
    pub(crate) number: u64,
    /// How many octets its lines have at most, with a seal for each sync.
    pub(crate) octets: usize,
    pub(crate) spare: D,
    pub(crate) ghost own: { own_number segment ≡ number },
    pub(crate) ghost counted: { length (log_text (own_number segment) (body_of segment)
        (writes_of segment)) + length (open_of segment) ≤ 87 + length (body_of segment) + octets },
    pub(crate) ghost room: { 87 + length (body_of segment) + most_octets + longest_line
        + seal_octets ≤ size_of segment },
    // Whatever a crash leaves of the other file, no start doubts it, and it has no segment as new.
    pub(crate) ghost sound: { IsTrue (D.Disk.is_clean spare) →
        AreUndoubted (D.Disk.may_leave spare) },
    pub(crate) ghost older: { IsTrue (D.Disk.is_clean spare) →
        AreOlder (D.Disk.may_leave spare) number },
}

/// What of the two files is open.
#[derive(Drop)]
pub(crate) enum Opened<D: Disk + Drop> {
    /// Neither: they are opened when the next segment begins.
    Neither,
    /// Both: that of the newest segment, and the one for the next.
    Both(D, D),
    /// The newest segment takes lines.
    Current(Current<D>),
}
