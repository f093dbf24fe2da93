//! Visitors who look at the state.
ghost use Rattle.std.specs.List.{All, AllZip};
ghost use Rattle.std.specs.Option.{ForSome, is_some};
ghost use Rattle.std.specs.Prelude.{◌≡◌, IfOk, None, Option, Some, map, replicate, vec_len};
ghost use Rattle.status.specs.Seats.{IsYoung, fresh_desk};
ghost use Rattle.status.specs.Streams.{arrived};
ghost use Rattle.status.specs.Visits.{IsNewcomer, IsRound, IsSeatTurn, IsSeated, place};
ghost use Rattle.status.specs.declared.seat.Client.{Client};

use crate::seat::Seat;
use crate::snapshot::Snapshot;
use crate::streams::{Stream, StreamSource};
use std::alloc::{AllocError, Global};

/// How many visitors there are at the most at once.
// Three, and one beside who hangs (docs/DECISIONS.md, "Who looks at the state").
const SEATS: usize = 4;

/// Visitors who look at the state of the gateway, each from a seat of its own.
#[derive(Drop)]
pub struct Visitors<D: StreamSource + Drop> {
    source: D,
    seats: Vec<Seat<D::Stream>>,
}

impl<D: StreamSource + Drop> Visitors<D> {
    /// Visitors whose streams come from this source. All memory is taken here.
    ///
    /// # Errors
    ///
    /// Want of memory.
    pub fn new(alloc: Global, source: D) -> Result<Visitors<D>, AllocError>
        ensures source { IfOk result (λ visitors. visitors.source ≡ source) }
        // Four free seats.
        ensures seats { IfOk result (λ visitors. map (λ seat. place seat.client seat.desk)
            visitors.seats.items ≡ replicate 4 (place None fresh_desk)) }
    {
        let mut seats = Vec::with_capacity(alloc, SEATS)?;
        for _ in 0..SEATS {
            seats.push(Seat::new(alloc)?)?;
        }
        Ok(Visitors { source, seats })
    }

    /// Lets in who has come, if a seat is free; who finds none is sent away at once.
    fn admit(&mut self, now_ms: u64)
        ensures few { vec_len self.new.seats ≡ vec_len self.old.seats }
        ensures seated { (came : Option (Client D.Stream))
            × (D.arrivals self.new.source ≡ arrived (D.arrivals self.old.source) (is_some came))
            × ((g : Client D.Stream) → came ≡ Some g →
            IsNewcomer D.Stream.given D.Stream.taken now_ms g)
            × IsSeated came (map (λ seat. place seat.client seat.desk) self.old.seats.items)
            (map (λ seat. place seat.client seat.desk) self.new.seats.items) }
    {
        // Before a seat is sought: who finds none is sent away, and doesn't wait at the listener.
        let Some(stream) = self.source.accept() else {
            return;
        };
        for seat in self.seats.iter_mut() {
            if seat.is_free() {
                seat.admit(stream, now_ms);
                return;
            }
        }
    }

    /// Gives each visitor a turn: at most one comes, and of each at most one piece is read or
    /// written. It gets what it shows as a value, and gives nothing back but its own state: so who
    /// looks changes nothing.
    pub fn turn(&mut self, now_ms: u64, snapshot: &Snapshot<'_>)
        ensures few { vec_len self.new.seats ≡ vec_len self.old.seats }
        // Nobody has been there for two seconds.
        ensures young { All (λ seat. ForSome seat.client (λ g. IsYoung now_ms g.since_ms))
            self.new.seats.items }
        // The source is asked once. Who has come has a free seat, and each visitor his own turn.
        ensures turned { IsRound D.Stream.given D.Stream.taken D.Stream.calls now_ms snapshot.now
            (D.arrivals self.old.source) (D.arrivals self.new.source)
            (map (λ seat. place seat.client seat.desk) self.old.seats.items)
            (map (λ seat. place seat.client seat.desk) self.new.seats.items) }
    {
        self.admit(now_ms);
        turn_each(&mut self.seats, now_ms, snapshot);
    }
}

/// Gives each visitor a turn.
fn turn_each<S: Stream>(seats: &mut [Seat<S>], now_ms: u64, snapshot: &Snapshot<'_>)
    ensures young { All (λ seat. ForSome seat.client (λ g. IsYoung now_ms g.since_ms)) seats.new }
    ensures turned { AllZip (λ old new. IsSeatTurn S.given S.taken S.calls now_ms snapshot.now
        (place old.client old.desk) (place new.client new.desk)) seats.old seats.new }
{
    for seat in seats.iter_mut() {
        seat.turn(now_ms, snapshot);
    }
}
