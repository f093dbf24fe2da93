//! What a request makes of the stations of a line.
ghost use Rattle.std.specs.Prelude.{◌≡◌, ◌<◌, ◌%◌, IfSome, length, option_map};
ghost use Rattle.std.specs.List.{AllByRecursion};
ghost use Rattle.ft12.specs.declared.frame.LinkSize.{LinkSize};
ghost use Rattle.ft12.specs.Spelling.{Fits, spelling};
ghost use Rattle.ft12.specs.Spoiling.{spoilt};
ghost use Rattle.sim.specs.Lives.{later, ReceivedByAll, IsPutOut, arriving};

use crate::directive::RequestFate;
use arrayvec::ArrayVec;
use ft12::{Frame, LinkSize, encode};
use link::Station;

fn later_of(before: Option<Frame>, frame: Option<Frame>) -> Option<Frame>
    ensures { result ≡ later before frame }
{
    // Nobody can distinguish two that answer at once on a line. Settings give each its own address,
    // so this happens to none of our requests.
    match frame {
        Some(frame) => Some(frame),
        None => before,
    }
}

#[tactic(auto, using(crate::proofs::ReceivingLemmas::received_none, crate::proofs::ReceivingLemmas::received_whole))]
/// Each station receives the octets. The answer is that of the last one that answers.
fn receive_all(stations: &mut [Station], octets: &[u8]) -> Option<Frame>
    ensures arrived { ReceivedByAll octets.now stations.old result stations.new }
    ensures fits { (size : LinkSize) → AllByRecursion (λ s. s.size ≡ size) stations.old
        → IfSome result (Fits size) }
{
    let mut answer = None;
    for station in stations.iter_mut() {
        let frame = station.receive(octets);
        answer = later_of(answer, frame);
    }
    answer
}

/// Puts a request out to the stations, of which each receives it if it isn't lost.
pub fn put_out(stations: &mut [Station], fate: RequestFate, octets: &[u8]) -> Option<Frame>
    ensures out { IsPutOut fate octets.now stations.old result stations.new }
    ensures fits { (size : LinkSize) → AllByRecursion (λ s. s.size ≡ size) stations.old
        → IfSome result (Fits size) }
{
    match fate {
        RequestFate::RequestLost => None,
        _ => receive_all(stations, octets),
    }
}

/// Changes the octet at the place in all eight bits.
fn spoil(octets: &mut ArrayVec<u8, 261>, place: usize)
    requires { place < length octets.old.items }
    ensures { octets.new.items ≡ spoilt place octets.old.items }
{
    // All eight bits: whatever the octet was, it is another one now.
    octets[place] = 255 - octets[place];
}

/// What of an answer comes to wait.
pub fn arriving(
    size: LinkSize,
    fate: RequestFate,
    answer: Option<Frame>,
) -> Option<ArrayVec<u8, 261>>
    requires { IfSome answer (Fits size) }
    ensures { option_map (λ v. v.items) result ≡ arriving size fate answer }
{
    let frame = answer?;
    match fate {
        RequestFate::RequestLost | RequestFate::AnswerLost => None,
        RequestFate::Answered => Some(encode(size, &frame)),
        RequestFate::AnswerSpoilt(place) => Some(spoilt(size, place, &frame)),
    }
}

#[tactic(auto, using(crate::proofs::ReceivingLemmas::some_spelling))]
/// The octets of a frame, with the one at the place, modulo their length, changed.
fn spoilt(size: LinkSize, place: u64, frame: &Frame) -> ArrayVec<u8, 261>
    requires { Fits size frame.now }
    ensures { result.items ≡ spoilt (place % length (spelling size frame.now))
        (spelling size frame.now) }
{
    let mut octets = encode(size, frame);
    let len = octets.len();
    prove!(len > 0);
    spoil(&mut octets, (place % len as u64) as usize);
    octets
}
