//! A run over ends that note what happens at them, and what the laws say of it.
ghost use Rattle.std.specs.Prelude.{◌≡◌, ℕ, ◌+◌, ◌-◌, ◌<◌, ◌≤◌, List, [], ◌∷◌, Bool, false, All};
ghost use Rattle.std.specs.Prelude.{Some, true, ◌⊎◌};
ghost use Rattle.live.specs.Walls.{is_wall};
ghost use Rattle.live.specs.Law.{AtMoment, SomeRounds, first_of, is_frame};
ghost use Rattle.live.specs.Passed.{IsFreshRun, line_in, opened_in, given, handed, accepted_in};
ghost use Rattle.live.specs.OctetStreams.{Happening};

use super::Live;
use crate::allow_list::AllowList;
use crate::ends::{Listener, OctetStream, RunClock};
use crate::laws::{
    looks_ask_nothing, looks_for_an_event_begin_within_100_ms, no_exchange_ends_unread,
    the_log_has_what_passed, what_is_noted_is_noted_to_the_end,
};
use crate::memory::{MemoryClock, MemoryListener, MemoryStream};
use gateway::{Action, Next, Port};

/// The first event of a port, then a request of this moment, and the event behind it.
fn exchange<S: OctetStream, L: Listener + Drop, C: RunClock + Drop>(
    port: &mut Live<S, L, C>,
    moment: u64,
    request: &[u8],
    buf: &mut [u8; 1024],
) -> Next
    requires ready { port.old.failed + 1 < u64.MAX }
    requires fresh { IsFreshRun port.old }
    requires line { port.old.line ≡ Some [] }
    requires listener { port.old.listener ≡ Some [] }
    requires clock { port.old.clock ≡ Some [] }
    requires waits { 0 < port.old.timing.answer_ms }
    // The log's octets are those that the stream gave, and the request alone was handed to it.
    ensures line { (happened : List Happening) × (port.new.line ≡ Some happened)
        × (line_in port.new.log ≡ given happened) × (handed happened ≡ request.now ∷ []) }
    // As many connections were opened as were accepted.
    ensures listener { (attempts : List Bool) × (port.new.listener ≡ Some attempts)
        × (opened_in port.new.log ≡ accepted_in attempts) }
    // The looks for the event began within 100 ms of the clock.
    ensures clock { is_wall result ≡ false → (before after : List ℕ) × (port.new.clock ≡ Some after)
        × SomeRounds before after (λ begun quiet now.
        All (λ moment. moment < first_of begun quiet + 100) (begun ∷ quiet)) }
    // No event lets the exchange end before the line was looked at for its time.
    ensures unread { (written : ℕ) × AtMoment result (λ at.
        moment + port.new.timing.answer_ms ≤ at →
        (port.new.timing.answer_ms ≤ port.new.timing.looked - written)
        ⊎ (is_frame result buf.new ≡ true)) }
{
    the_log_has_what_passed();
    no_exchange_ends_unread();
    looks_ask_nothing();
    looks_for_an_event_begin_within_100_ms();
    what_is_noted_is_noted_to_the_end();
    let _first = port.next(buf);
    let _went = port.put(moment, &Action::Line(request));
    port.next(buf)
}

/// What the laws ask can be met: such a run over ends in memory.
pub(super) fn exchange_in_memory(buf: &mut [u8; 1024]) -> Next {
    let line = MemoryStream::busy();
    let listener = MemoryListener::new(None);
    let mut port = Live::awaiting(line, listener, MemoryClock::new(), AllowList::Anyone, 1000);
    exchange(&mut port, 7, &[0x10, 0x49, 0x01, 0x4A, 0x16], buf)
}
