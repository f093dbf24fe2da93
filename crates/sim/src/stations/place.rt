//! The outstations behind a listener.
ghost use Rattle.std.specs.Prelude.{◌≤◌};

use crate::stations::outstations::Outstations;
use live::{Accepted, AllowList, Got, Listener, OctetStream};

/// The outstations behind a listener, to which a gateway connects as to a serial device server.
#[derive(Drop)]
pub struct OutstationServer<L: Listener + Drop> {
    outstations: Outstations,
    listener: L,
    allow_list: AllowList,
    connection: Option<Accepted<L::Stream>>,
}

impl<L: Listener + Drop> OutstationServer<L> {
    /// These outstations behind this listener, with no gateway yet. Whoever connects is accepted.
    pub fn new(outstations: Outstations, listener: L) -> OutstationServer<L> {
        OutstationServer {
            outstations,
            listener,
            allow_list: AllowList::Anyone,
            connection: None,
        }
    }

    /// Looks at each end once, without a long wait. Who connects takes the place of the gateway
    /// that was there; what came from it is answered. A gateway that is gone, or doesn't take an
    /// answer, is let go.
    pub fn look(&mut self) {
        self.accept();
        self.receive();
    }

    /// Whether a gateway is there.
    pub(crate) fn is_met(&self) -> bool {
        self.connection.is_some()
    }

    /// Gives the gateway the answer that goes out late at this moment of the clock, in ms. If the
    /// gateway doesn't take it, it is let go.
    pub(crate) fn give_late(&mut self, now: u64) {
        if let Some(octets) = self.outstations.take_late(now) {
            self.give(octets.as_slice());
        }
    }

    /// Gives the gateway these octets, if one is there.
    fn give(&mut self, octets: &[u8]) {
        let Some(mut accepted) = self.connection.take() else {
            return;
        };
        if accepted.stream.write(octets) {
            self.connection = Some(accepted);
        }
    }

    /// Each line of the script gives its station the report that it has due, so many ms behind the
    /// start.
    pub(crate) fn give_reports(&mut self, passed: u64)
        requires { passed ≤ 999999999999999 }
    {
        self.outstations.give_reports(passed);
    }

    /// Each line of the script has its station restart if that is due, so many ms behind the start.
    pub(crate) fn restart_all(&mut self, passed: u64)
        requires { passed ≤ 999999999999999 }
    {
        self.outstations.restart_all(passed);
    }

    /// Each station gives its next reply to the commands that it accepted.
    pub(crate) fn reply_all(&mut self) {
        self.outstations.reply_all();
    }

    /// Looks at the listener. Who was let go before is closed.
    fn accept(&mut self) {
        if let Some(accepted) = self.listener.accept(&self.allow_list) {
            self.outstations.begin();
            self.connection = Some(accepted);
        }
    }

    /// Looks at the stream of the gateway.
    fn receive(&mut self) {
        let Some(mut accepted) = self.connection.take() else {
            return;
        };
        let mut buf = [0; 1024];
        match accepted.stream.read(&mut buf) {
            Got::Octets(len) => {
                if self.outstations.receive(&buf[..len], &mut accepted.stream) {
                    self.connection = Some(accepted);
                }
            }
            Got::Quiet => self.connection = Some(accepted),
            Got::Gone => {}
        }
    }
}
