//! Where visitors come from.

/// What one look at a stream finds.
#[derive(Clone, Copy, PartialEq, Eq)]
pub enum StreamLook {
    /// So many octets, at the front of the buffer: 1 to 1,024.
    Octets(usize),
    /// Nothing yet.
    Quiet,
    /// The stream is at its end, or broken.
    Gone,
}

/// What a stream did with octets.
#[derive(Clone, Copy, PartialEq, Eq)]
pub enum Took {
    /// It took so many, from the front; 0 if it has no room now.
    Octets(usize),
    /// It is broken.
    Nothing,
}

/// Octets both ways. No call waits. Dropping it closes it.
pub trait Stream: Drop {
    ghost use Rattle.std.specs.Prelude.{◌≡◌, ◌≤◌, length, take};
    ghost use Rattle.status.specs.Streams.{Calls, Finished, FitsBuffer, Handed, Looked, Passed};
    ghost use Rattle.status.specs.Streams.{called, got_of, more_passed, took_count};

    /// The octets that it gave, if it keeps them.
    ghost given: { Self → Passed };

    /// The octets that it took, if it keeps them.
    ghost taken: { Self → Passed };

    /// What it was called for, the newest call first, if it keeps that.
    ghost calls: { Self → Calls };

    /// Looks once. Octets are put at the front of the buffer.
    fn read(&mut self, buf: &mut [u8; 1024]) -> StreamLook
        ensures fits { FitsBuffer result }
        ensures given { given self.new ≡ more_passed (given self.old) (got_of result buf.new) }
        ensures taken { taken self.new ≡ taken self.old }
        ensures calls { calls self.new ≡ called (calls self.old) (Looked result) };

    /// Hands it octets.
    fn write(&mut self, octets: &[u8]) -> Took
        ensures fits { took_count result ≤ length octets.now }
        ensures taken { taken self.new
            ≡ more_passed (taken self.old) (take (took_count result) octets.now) }
        ensures given { given self.new ≡ given self.old }
        ensures calls { calls self.new ≡ called (calls self.old) (Handed result) };

    /// Lets the other end know that nothing more will be written.
    fn finish(&mut self)
        ensures given { given self.new ≡ given self.old }
        ensures taken { taken self.new ≡ taken self.old }
        ensures calls { calls self.new ≡ called (calls self.old) Finished };
}

/// Where streams come from.
pub trait StreamSource {
    ghost use Rattle.std.specs.Option.{is_some};
    ghost use Rattle.std.specs.Prelude.{◌≡◌, IfSome};
    ghost use Rattle.status.specs.Streams.{Arrivals, IsNew, arrived};

    type Stream: Stream;

    /// Whether somebody had come at each look, the newest first, if it keeps that.
    ghost arrivals: { Self → Arrivals };

    /// Looks once for somebody who has come, without a wait. Nothing has been read or written yet.
    fn accept(&mut self) -> Option<Self::Stream>
        ensures given { IfSome result (λ stream. IsNew (Self.Stream.given stream)) }
        ensures taken { IfSome result (λ stream. IsNew (Self.Stream.taken stream)) }
        ensures arrivals { arrivals self.new ≡ arrived (arrivals self.old) (is_some result) };
}
