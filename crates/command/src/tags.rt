//! The time tags of commands, and the first sendings that are kept with theirs.
ghost use Rattle.std.specs.Prelude.{◌≡◌, ◌≤◌, ◌==◌, ◌&&◌, ◌%◌, length, slice_index, [], IfOk, None};
ghost use Rattle.elements.specs.TimeTag.{verdict_of};
ghost use Rattle.command.specs.Command.{command_len, is_tagged as has_tag};
ghost use Rattle.command.specs.Tags.{tag_octets, tag_at, is_recent as is_near, is_stale as stale};
ghost use Rattle.command.specs.Tags.{sending_of, newest_tag as newest};

use crate::commands::NoMemory;
use crate::content::{Target, is_tagged, read_command};
use crate::selection::same_target;
use circular_buffer::HeapCircularBuffer;
use elements::{Cp56, Verdict, judge};
use std::alloc::Global;

/// How many of the latest first sendings are kept with their time tags: a station answers a command
/// before it gets many more.
pub(crate) const MOST_SENDINGS: usize = 16;

/// How many octets a time tag has (CP56Time2a, IEC 60870-5-101, 7.2.6.18).
pub(crate) const TAG_OCTETS: usize = 7;

/// A command of types 45 to 49 that went out for the first time: what it is of, and the tag that it
/// came with, if it had one.
#[derive(Clone, Copy)]
pub(crate) struct Sending {
    pub target: Target,
    pub tag: Option<Cp56>,
}

impl Sending {
    /// That of the command as it came from the control centre.
    pub(crate) fn of(octets: &[u8]) -> Sending
        requires long { 9 ≤ length octets.now }
        requires whole { length octets.now ≡ command_len (slice_index octets.now 0) }
        ensures { result ≡ sending_of octets.now }
    {
        Sending {
            target: read_command(octets).target(),
            tag: tag_of(octets),
        }
    }
}

/// No sending, and places for the latest.
pub(crate) fn no_sendings(alloc: Global) -> Result<HeapCircularBuffer<Sending>, NoMemory>
    ensures { IfOk result (λ sendings. (sendings.items ≡ []) × (sendings.capacity ≡ 16)) }
{
    HeapCircularBuffer::with_capacity(alloc, MOST_SENDINGS).map_err(|_| NoMemory)
}

/// The seven octets of a tag.
pub(crate) fn read_tag(octets: &[u8]) -> Cp56
    requires { length octets.now ≡ 7 }
    ensures { result.0 ≡ octets.now }
{
    Cp56(<[u8; 7]>::try_from(octets).unwrap())
}

/// The tag of a command, if its type has one.
fn tag_of(octets: &[u8]) -> Option<Cp56>
    requires long { 9 ≤ length octets.now }
    ensures { result ≡ tag_at octets.now }
{
    if is_tagged(octets[0]) {
        Some(read_tag(&octets[octets.len() - TAG_OCTETS..]))
    } else {
        None
    }
}

/// Whether the tag is good and its instant at most `most` ms before or behind the wall moment.
fn is_recent(most: u64, wall: Option<u64>, verdict: Verdict) -> bool
    ensures { result ≡ is_near most wall verdict }
{
    // Here alone, and not before the line takes it (docs/DECISIONS.md, "The age of a tag is judged
    // once").
    match (wall, verdict) {
        (Some(wall), Verdict::Good(instant)) => {
            wall.saturating_sub(instant) <= most && instant.saturating_sub(wall) <= most
        }
        // Without a wall clock, or with a tag that says itself that it is wrong, nobody knows how
        // old the command is: too old.
        _ => false,
    }
}

/// The verdict on the tag of a command whose type has one.
pub(crate) fn tag_verdict(octets: &[u8]) -> Verdict
    requires { 9 ≤ length octets.now }
    ensures { result ≡ verdict_of (tag_octets octets.now) }
{
    judge(&read_tag(&octets[octets.len() - TAG_OCTETS..]))
}

/// Whether it is an activation with a tag.
fn is_tagged_activation(octets: &[u8]) -> bool
    requires { 9 ≤ length octets.now }
    ensures { result ≡ (has_tag (slice_index octets.now 0) && slice_index octets.now 2 % 64 == 6) }
{
    // To call a command off is safe at any age (docs/DECISIONS.md, "A deactivation's tag isn't
    // judged").
    is_tagged(octets[0]) && octets[2] & 0x3F == 6
}

/// Whether it is an activation with a tag that isn't recent.
pub(crate) fn is_stale(most: u64, wall: Option<u64>, octets: &[u8]) -> bool
    requires long { 9 ≤ length octets.now }
    ensures { result ≡ stale most wall octets.now }
{
    is_tagged_activation(octets) && !is_recent(most, wall, tag_verdict(octets))
}

/// The tag of the newest of the sendings with this target, if it has one.
pub(crate) fn newest_tag(sendings: &HeapCircularBuffer<Sending>, target: Target) -> Option<Cp56>
    ensures { result ≡ newest target None sendings.now.items }
{
    // From the newest on, which is most often the one.
    let mut place = sendings.len();
    'sendings: while place > 0 {
        place -= 1;
        let Some(sending) = sendings.get(place) else {
            unreachable!();
        };
        // The newest decides, even if it has no tag (docs/DECISIONS.md, "The newest transmission
        // gives the tag").
        if same_target(sending.target, target) {
            return sending.tag;
        }
    }
    None
}
