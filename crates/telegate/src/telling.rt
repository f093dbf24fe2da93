//! What passes at the place of outstations that are played, told on standard output.
//!
//! What these lines say is tested (`checks/stations.py`).

use gateway::Config;
use live::{Accepted, AllowList, Got, Listener, OctetStream, RefusedPeers};
use std::alloc::Global;
use words::{LineSizes, describe_line_frames};

/// Who tells it.
#[derive(Drop)]
pub(crate) struct Teller<'r, R> {
    rt: &'r R,
    alloc: Global,
    sizes: LineSizes,
    /// Each frame is told in words.
    words: bool,
}

/// A listener of which it is told who comes.
#[derive(Drop)]
pub(crate) struct ToldListener<'r, R, L: Listener + Drop> {
    teller: Teller<'r, R>,
    listener: L,
}

/// A stream of which it is told what passes.
#[derive(Drop)]
pub(crate) struct ToldStream<'r, R, S: OctetStream> {
    teller: Teller<'r, R>,
    stream: S,
}

impl<'r, R: Print> Teller<'r, R> {
    /// Who tells it of a line with these settings.
    pub(crate) fn new(rt: &'r R, alloc: Global, config: &Config, words: bool) -> Teller<'r, R> {
        let line = config.line();
        Teller {
            rt,
            alloc,
            sizes: LineSizes {
                link: line.link,
                asdu: line.sizes,
            },
            words,
        }
    }

    /// One that tells the same.
    fn another(&self) -> Teller<'r, R> {
        Teller {
            rt: self.rt,
            alloc: self.alloc,
            sizes: self.sizes,
            words: self.words,
        }
    }

    /// The outstations can be reached at this place.
    pub(crate) fn tell_listening(&self, place: &str) {
        let _ = println!(self.rt; "listening at {place}");
    }

    fn tell(&self, what: &str) {
        let _ = println!(self.rt; "{what}");
    }

    /// These octets passed, in this way.
    fn tell_octets(&self, way: &str, octets: &[u8]) {
        if !self.words {
            return;
        }
        if let Ok(shown) = describe_line_frames(self.alloc, self.sizes, octets, true) {
            for line in shown.lines.lines() {
                let _ = println!(self.rt; "{way}  {line}");
            }
        }
    }
}

impl<'r, R: Print, L: Listener + Drop> ToldListener<'r, R, L> {
    /// This listener, told of by this teller.
    pub(crate) fn new(teller: Teller<'r, R>, listener: L) -> ToldListener<'r, R, L> {
        ToldListener { teller, listener }
    }
}

impl<'r, R: Print, L: Listener + Drop> Listener for ToldListener<'r, R, L> {
    type Stream = ToldStream<'r, R, L::Stream>;

    ghost attempts = { λ told. L.attempts told.listener };

    ghost refusals = { λ told. L.refusals told.listener };

    fn accept(&mut self, allow_list: &AllowList) -> Option<Accepted<ToldStream<'r, R, L::Stream>>> {
        let Accepted { address, stream } = self.listener.accept(allow_list)?;
        let _ = println!(self.teller.rt; "gateway connected: {address}");
        Some(Accepted {
            address,
            stream: ToldStream {
                teller: self.teller.another(),
                stream,
            },
        })
    }

    fn refused(&self) -> RefusedPeers {
        self.listener.refused()
    }
}

impl<R: Print, S: OctetStream> OctetStream for ToldStream<'_, R, S> {
    ghost history = { λ told. S.history told.stream };

    fn read(&mut self, buf: &mut [u8; 1024]) -> Got {
        let got = self.stream.read(buf);
        match got {
            Got::Octets(len) => self.teller.tell_octets("gateway > outstation", &buf[..len]),
            Got::Gone => self.teller.tell("gateway lost"),
            Got::Quiet => {}
        }
        got
    }

    fn drop_waiting(&mut self) -> u64 {
        self.stream.drop_waiting()
    }

    fn write(&mut self, octets: &[u8]) -> bool {
        let is_taken = self.stream.write(octets);
        if is_taken {
            self.teller.tell_octets("outstation > gateway", octets);
        } else {
            self.teller
                .tell("gateway lost: it didn't take what was written");
        }
        is_taken
    }
}
