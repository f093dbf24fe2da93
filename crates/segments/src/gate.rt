//! A file counts as a segment only if its first octet is `t`, which is written last. Until then it
//! is `-`.
ghost use Rattle.std.specs.Prelude.{◌≡◌, ◌+◌, ◌*◌, ◌<◌, ◌≤◌, ◌^◌, ◌++◌, ℕ, List, [], drop, length};
ghost use Rattle.std.specs.Prelude.{slice_index, IsTrue, OnOk, is_ok};
ghost use Rattle.sqlite_disk.specs.Disk.{Only};
ghost use Rattle.segments.specs.Crash.{AreMixing, IsShut, IsLong, IsBlankFrom, IsWholeIfOpen};
ghost use Rattle.segments.specs.Crashes.{AreShutOr};
ghost use Rattle.segments.specs.Written.{text_in};

use crate::SegmentFault;
use sqlite_disk::Disk;

/// How many octets the first line of a segment has.
pub(crate) const HEAD: usize = 87;

/// The first octet of a file that is shut. It isn't 0: a disk gives zeros for a block that it lost,
/// and the segment whose beginning is lost isn't taken for none.
pub(crate) const SHUT: u8 = b'-';

/// How many zeros are written at once.
pub(crate) const BLOCK: usize = 4_096;

/// How many blocks of them stand behind a checkpoint, the room for the lines to come: a file that
/// isn't as long was cut. That many have 3,997,696 octets, so two logs have at most 8,000,000.
pub(crate) const BLOCKS: usize = 976;

/// What a call of the disk answered: of its error the kind.
pub(crate) fn done(answer: std::io::Result<()>) -> Result<(), SegmentFault>
    ensures { is_ok result ≡ is_ok answer }
{
    match answer {
        Ok(()) => Ok(()),
        Err(error) => Err(SegmentFault::Device(error.kind())),
    }
}

/// Makes a file one that no start takes for a segment, on the disk too.
pub fn shut<D: Disk>(file: &mut D) -> Result<(), SegmentFault>
    requires { IsTrue (D.Disk.is_usable file.old) }
    ensures usable { OnOk result (IsTrue (D.Disk.is_usable file.new)) }
    ensures long { OnOk result (IsLong (D.Disk.may_leave file.new)) }
    ensures shut { OnOk result (IsShut (D.Disk.may_leave file.new)) }
    ensures sized { OnOk result (length (D.Disk.seen file.new) ≡ 87) }
    ensures clean { IsTrue (D.Disk.is_clean file.new) → IsTrue (D.Disk.is_clean file.old) }
    ensures crash { IsTrue (D.Disk.is_mixing file.old)
        → AreShutOr (D.Disk.may_leave file.new) (D.Disk.may_leave file.old) }
{
    // The first octet goes first, and is synced: a crash behind it leaves nothing that a start
    // takes for a segment.
    done(file.write_at(0, &[SHUT]))?;
    done(file.sync())?;
    done(file.set_len(HEAD))
}

/// Writes octets at the end of a file that is shut.
pub(crate) fn write_behind<D: Disk>(
    file: &mut D,
    at: usize,
    page: &[u8],
) -> Result<(), SegmentFault>
    requires usable { IsTrue (D.Disk.is_usable file.old) }
    requires end { length (D.Disk.seen file.old) ≡ at }
    requires later { 0 < at }
    requires some { 0 < length page.now }
    requires long { IsLong (D.Disk.may_leave file.old) }
    requires shut { IsShut (D.Disk.may_leave file.old) }
    ensures written { OnOk result (D.Disk.seen file.new ≡ D.Disk.seen file.old ++ page.now) }
    ensures before { (held : List ℕ) → text_in at (D.Disk.seen file.new) held
        ≡ text_in at (D.Disk.seen file.old) held }
    ensures usable { IsTrue (D.Disk.is_usable file.new) }
    ensures long { IsLong (D.Disk.may_leave file.new) }
    ensures shut { IsShut (D.Disk.may_leave file.new) }
{
    done(file.write_at(at, page))
}

/// Writes blocks of zeros at the end of a file that is shut.
pub(crate) fn write_zeros<D: Disk>(
    file: &mut D,
    at: usize,
    zeros: &[u8],
    blocks: usize,
) -> Result<(), SegmentFault>
    requires block { length zeros.now ≡ 4096 }
    requires zeros { IsBlankFrom 0 zeros.now }
    requires usable { IsTrue (D.Disk.is_usable file.old) }
    requires end { length (D.Disk.seen file.old) ≡ at }
    requires later { 0 < at }
    requires small { at + blocks * 4096 < 2 ^ 64 }
    requires long { IsLong (D.Disk.may_leave file.old) }
    requires shut { IsShut (D.Disk.may_leave file.old) }
    ensures before { OnOk result (text_in at (D.Disk.seen file.new) []
        ≡ text_in at (D.Disk.seen file.old) []) }
    ensures blank { OnOk result (IsBlankFrom at (D.Disk.seen file.new)) }
    ensures sized { OnOk result (length (D.Disk.seen file.new) ≡ at + blocks * 4096) }
    ensures usable { IsTrue (D.Disk.is_usable file.new) }
    ensures long { IsLong (D.Disk.may_leave file.new) }
    ensures shut { IsShut (D.Disk.may_leave file.new) }
{
    for i in 0..blocks {
        write_behind(file, at + i * BLOCK, zeros)?;
    }
    Ok(())
}

/// Writes the first line of a file that is shut, its first octet last: once all else is synced.
pub(crate) fn publish<D: Disk>(file: &mut D, head: &[u8]) -> Result<(), SegmentFault>
    requires usable { IsTrue (D.Disk.is_usable file.old) }
    requires head { length head.now ≡ 87 }
    requires first { slice_index head.now 0 ≡ 116 }
    requires within { 87 ≤ length (D.Disk.seen file.old) }
    requires long { IsLong (D.Disk.may_leave file.old) }
    requires shut { IsShut (D.Disk.may_leave file.old) }
    ensures written { OnOk result (D.Disk.seen file.new
        ≡ head.now ++ drop 87 (D.Disk.seen file.old)) }
    ensures synced { OnOk result (Only (D.Disk.seen file.new) (D.Disk.may_leave file.new)) }
    ensures usable { OnOk result (IsTrue (D.Disk.is_usable file.new)) }
    ensures crash { IsWholeIfOpen (D.Disk.may_leave file.new)
        (head.now ++ drop 87 (D.Disk.seen file.old)) }
    ensures mixed { AreMixing D.Disk → AreShutOr (D.Disk.may_leave file.new)
        (λ c. c ≡ head.now ++ drop 87 (D.Disk.seen file.old)) }
{
    // The first octet last: until all else is on the disk, no start takes the file for a segment
    // (docs/DECISIONS.md, "Two files, written in turn").
    done(file.write_at(1, &head[1..]))?;
    done(file.sync())?;
    done(file.write_at(0, &head[..1]))?;
    done(file.sync())
}
