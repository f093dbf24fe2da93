//! The connection as segments of TCP.
ghost use Rattle.std.specs.Prelude.{◌≡◌, ◌++◌, ◌<◌, ◌^◌, IfOk, OnOk, length};
ghost use Rattle.record.specs.Connections.{after, bare, called as called_after, carried_by};
ghost use Rattle.record.specs.Connections.{counted as counted_after, segment_of, sent_at};
ghost use Rattle.record.specs.Connections.{sent_block, sent_blocks, Carries, Closes, Cuts, Opens};

use super::pcapng::{Interface, put_block};
use super::segment::TcpSegment;
use std::alloc::AllocError;
use traces::Page;

const FIN: u8 = 1;

const SYN: u8 = 2;

const RST: u8 = 4;

const PSH: u8 = 8;

const ACK: u8 = 16;

/// The connection between the control centre and the gateway, as its two ends count octets.
#[derive(Clone, Copy)]
pub(crate) struct Connection {
    pub(crate) is_open: bool,
    /// The port of the control centre.
    pub(crate) port: u16,
    /// The number of the gateway's next octet.
    pub(crate) up: u32,
    /// The number of the control centre's next octet.
    pub(crate) down: u32,
}

/// Puts a segment with its data, and a comment.
#[tactic(auto, using(crate::proofs::Lengths::packet_length), unfolding(crate::specs::Connections::sent_block))]
fn put_sent(
    page: &mut Page,
    packet: &mut Page,
    micros: u64,
    segment: TcpSegment,
    payload: &[u8],
    comment: &[u8],
) -> Result<(), AllocError>
    requires payload { length payload.now < 2 ^ 15 }
    requires comment { length comment.now < 2 ^ 16 }
    ensures { OnOk result (page.new ≡ page.old ++ sent_block micros
        (record { segment = segment; payload = payload.now; comment = comment.now })) }
{
    packet.clear();
    segment.put_packet(packet, payload)?;
    put_block(
        page,
        Interface::Connection,
        micros,
        packet.octets(),
        comment,
    )
}

impl Connection {
    /// None yet.
    pub(crate) const NONE: Connection = Connection {
        is_open: false,
        port: 49_151,
        up: 0,
        down: 0,
    };

    /// A segment of one end: its own number, and the other's.
    fn segment(self, is_up: bool, flags: u8) -> TcpSegment
        ensures { result ≡ segment_of self is_up flags }
    {
        TcpSegment {
            is_up,
            port: self.port,
            sequence: if is_up { self.up } else { self.down },
            acknowledged: if is_up { self.down } else { self.up },
            flags,
        }
    }

    /// An end has sent so many octets.
    fn counted(self, is_up: bool, octets: u32) -> Connection
        ensures { result ≡ counted_after self is_up octets }
    {
        if is_up {
            Connection {
                up: self.up.wrapping_add(octets),
                ..self
            }
        } else {
            Connection {
                down: self.down.wrapping_add(octets),
                ..self
            }
        }
    }

    /// Puts a segment of one end without data.
    fn put_bare(
        self,
        page: &mut Page,
        packet: &mut Page,
        micros: u64,
        is_up: bool,
        flags: u8,
    ) -> Result<(), AllocError>
        ensures { OnOk result (page.new ≡ page.old ++ sent_block micros (bare self is_up flags)) }
    {
        put_sent(page, packet, micros, self.segment(is_up, flags), &[], &[])
    }

    /// The connection that the control centre begins: each has a port of its own, from 49152 on.
    fn called(self) -> Connection
        ensures { result ≡ called_after self }
    {
        Connection {
            is_open: true,
            port: if self.port == u16::MAX {
                49_152
            } else {
                self.port + 1
            },
            up: 0,
            down: 0,
        }
    }

    /// The control centre connects: SYN, the gateway's SYN, and the acknowledgement.
    pub(crate) fn open(
        self,
        page: &mut Page,
        packet: &mut Page,
        micros: u64,
    ) -> Result<Connection, AllocError>
        ensures sent { OnOk result (page.new
            ≡ page.old ++ sent_blocks micros (sent_at self Opens)) }
        ensures after { IfOk result (λ c. c ≡ after self Opens) }
    {
        let called = self.called();
        called.put_bare(page, packet, micros, false, SYN)?;
        let arrived = Connection { down: 1, ..called };
        arrived.put_bare(page, packet, micros, true, SYN | ACK)?;
        let opened = Connection { up: 1, ..arrived };
        opened.put_bare(page, packet, micros, false, ACK)?;
        Ok(opened)
    }

    /// Octets go over an open connection from the gateway (up), or come to it.
    fn carry_on(
        self,
        page: &mut Page,
        packet: &mut Page,
        micros: u64,
        is_up: bool,
        octets: &[u8],
    ) -> Result<Connection, AllocError>
        requires { length octets.now < 2 ^ 15 }
        ensures sent { OnOk result (page.new
            ≡ page.old ++ sent_block micros (carried_by self is_up octets.now)) }
        ensures after { IfOk result (λ c. c ≡ counted_after self is_up (length octets.now)) }
    {
        let segment = self.segment(is_up, PSH | ACK);
        put_sent(page, packet, micros, segment, octets, &[])?;
        Ok(self.counted(is_up, octets.len() as u32))
    }

    /// Octets go from the gateway (up), or come to it. A connection that nobody opened is opened
    /// before.
    pub(crate) fn carry(
        self,
        page: &mut Page,
        packet: &mut Page,
        micros: u64,
        is_up: bool,
        octets: &[u8],
    ) -> Result<Connection, AllocError>
        requires { length octets.now < 2 ^ 15 }
        ensures sent { OnOk result (page.new
            ≡ page.old ++ sent_blocks micros (sent_at self (Carries is_up octets.now))) }
        ensures after { IfOk result (λ c. c ≡ after self (Carries is_up octets.now)) }
    {
        if self.is_open {
            self.carry_on(page, packet, micros, is_up, octets)
        } else {
            self.open(page, packet, micros)?
                .carry_on(page, packet, micros, is_up, octets)
        }
    }

    /// The gateway closes: FIN of each end, and the acknowledgement.
    pub(crate) fn close(
        self,
        page: &mut Page,
        packet: &mut Page,
        micros: u64,
        comment: &[u8],
    ) -> Result<Connection, AllocError>
        requires { length comment.now < 2 ^ 16 }
        ensures sent { OnOk result (page.new
            ≡ page.old ++ sent_blocks micros (sent_at self (Closes comment.now))) }
        ensures after { IfOk result (λ c. c ≡ after self (Closes comment.now)) }
    {
        if !self.is_open {
            return Ok(self);
        }
        put_sent(
            page,
            packet,
            micros,
            self.segment(true, FIN | ACK),
            &[],
            comment,
        )?;
        let gone = Connection {
            is_open: false,
            ..self.counted(true, 1)
        };
        gone.put_bare(page, packet, micros, false, FIN | ACK)?;
        let closed = gone.counted(false, 1);
        closed.put_bare(page, packet, micros, true, ACK)?;
        Ok(closed)
    }

    /// The connection is cut: RST of the control centre.
    pub(crate) fn cut(
        self,
        page: &mut Page,
        packet: &mut Page,
        micros: u64,
    ) -> Result<Connection, AllocError>
        ensures sent { OnOk result (page.new ≡ page.old ++ sent_blocks micros (sent_at self Cuts)) }
        ensures after { IfOk result (λ c. c ≡ after self Cuts) }
    {
        if self.is_open {
            self.put_bare(page, packet, micros, false, RST | ACK)?;
        }
        Ok(Connection {
            is_open: false,
            ..self
        })
    }
}
