//! Where a visitor of the status page comes from, in memory, and his stream.
ghost use Rattle.std.specs.Prelude.{◌≡◌, [], ◌∷◌, ◌++◌, take};
ghost use Rattle.noted_ends.specs.Visits.{arrivals_in, calls_in, given_in, taken_in};
ghost use Rattle.status.specs.Streams.{FitsBuffer, Finished, Handed, Looked, got_of, took_count};

use gateway::{Action, History, Next};
use status::{Stream, StreamLook, StreamSource, Took};

/// What a call that brings no octets is noted with.
const NO_OCTETS: [u8; 1024] = [0; 1024];

/// What has been given, with what a look found.
fn with_given(log: &History, look: StreamLook, buf: &[u8; 1024]) -> History
    ensures { given_in result.entries ≡ given_in log.now.entries ++ got_of look buf.now }
{
    match look {
        StreamLook::Octets(len) => log.came(&Next::Line(0, len), buf),
        StreamLook::Quiet | StreamLook::Gone => log.came(&Next::Tick(0), buf),
    }
}

/// The calls, with a look that found this.
fn with_look(log: &History, look: StreamLook) -> History
    ensures { calls_in result.entries ≡ Looked look ∷ calls_in log.now.entries }
{
    match look {
        StreamLook::Octets(len) => log.came(&Next::Wall(0, len as u64), &NO_OCTETS),
        StreamLook::Quiet => log.came(&Next::Tick(0), &NO_OCTETS),
        StreamLook::Gone => log.came(&Next::Cut(0), &NO_OCTETS),
    }
}

/// The calls, with octets that were handed over.
fn with_write(log: &History, took: Took) -> History
    ensures { calls_in result.entries ≡ Handed took ∷ calls_in log.now.entries }
{
    match took {
        Took::Octets(count) => log.went(&(count as u64), &Action::Line(&[])),
        Took::Nothing => log.came(&Next::Open(0), &NO_OCTETS),
    }
}

/// A visitor's stream, which gives a request, and takes a little at once.
#[derive(Drop)]
pub struct NotedStream<'a> {
    /// What is left of the request.
    request: &'static [u8],
    answer: &'a mut Vec<u8>,
    given: History,
    taken: History,
    calls: History,
}

/// How many octets were taken.
fn count_of(took: Took) -> usize
    ensures { result ≡ took_count took }
{
    match took {
        Took::Octets(count) => count,
        Took::Nothing => 0,
    }
}

impl NotedStream<'_> {
    /// What a look finds: eight octets at the most.
    fn look(&mut self, buf: &mut [u8; 1024]) -> StreamLook
        ensures fits { FitsBuffer result }
        ensures given { self.new.given ≡ self.old.given }
        ensures taken { self.new.taken ≡ self.old.taken }
        ensures calls { self.new.calls ≡ self.old.calls }
    {
        let Some((octets, rest)) = self.request.split_at_checked(8.min(self.request.len())) else {
            return StreamLook::Gone;
        };
        if octets.is_empty() {
            return StreamLook::Quiet;
        }
        for (place, octet) in buf.iter_mut().zip(octets) {
            *place = *octet;
        }
        self.request = rest;
        StreamLook::Octets(octets.len())
    }
}

impl Stream for NotedStream<'_> {
    ghost use Rattle.std.specs.Prelude.{Some};

    ghost given = { λ stream. Some (given_in stream.given.entries) };

    ghost taken = { λ stream. Some (taken_in stream.taken.entries) };

    ghost calls = { λ stream. Some (calls_in stream.calls.entries) };

    fn read(&mut self, buf: &mut [u8; 1024]) -> StreamLook {
        let look = self.look(buf);
        self.given = with_given(&self.given, look, buf);
        self.calls = with_look(&self.calls, look);
        look
    }

    fn write(&mut self, octets: &[u8]) -> Took {
        let len = octets.len().min(100);
        let took = match self.answer.extend_from_slice(&octets[..len]) {
            Ok(()) => Took::Octets(len),
            Err(_) => Took::Nothing,
        };
        self.taken = self
            .taken
            .went(&0, &Action::Line(&octets[..count_of(took)]));
        self.calls = with_write(&self.calls, took);
        took
    }

    fn finish(&mut self) {
        self.calls = self.calls.restarted(&0);
    }
}

/// Where one visitor comes from.
#[derive(Drop)]
pub struct OneVisitor<'a> {
    request: &'static [u8],
    /// Where the answer goes; none once he has come.
    answer: Option<&'a mut Vec<u8>>,
    arrivals: History,
}

impl<'a> OneVisitor<'a> {
    /// One who asks this, and whose answer goes there.
    pub fn new(request: &'static [u8], answer: &'a mut Vec<u8>) -> OneVisitor<'a>
        ensures { result.arrivals.entries ≡ [] }
    {
        OneVisitor {
            request,
            answer: Some(answer),
            arrivals: History::new(),
        }
    }
}

impl<'a> StreamSource for OneVisitor<'a> {
    ghost use Rattle.std.specs.Prelude.{Some};

    type Stream = NotedStream<'a>;

    ghost arrivals = { λ source. Some (arrivals_in source.arrivals.entries) };

    fn accept(&mut self) -> Option<NotedStream<'a>> {
        let answer = self.answer.take();
        match answer {
            Some(answer) => {
                self.arrivals = self.arrivals.came(&Next::Open(0), &NO_OCTETS);
                Some(NotedStream {
                    request: self.request,
                    answer,
                    given: History::new(),
                    taken: History::new(),
                    calls: History::new(),
                })
            }
            None => {
                self.arrivals = self.arrivals.came(&Next::Tick(0), &NO_OCTETS);
                None
            }
        }
    }
}
