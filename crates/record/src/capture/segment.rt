//! Segments of TCP in IPv4 packets.
ghost use Rattle.std.specs.Prelude.{◌≡◌, ◌++◌, ◌+◌, ◌*◌, ◌/◌, ◌<◌, ◌≤◌, ◌^◌, OnOk, length, sum};
ghost use Rattle.record.specs.Segments.{checksum as checksum_of, folded as folded_once};
ghost use Rattle.record.specs.Segments.{sum_of_words as words_summed};

use super::octets::put_words;
use std::alloc::AllocError;
use traces::Page;

/// The header of a segment between the control centre and the gateway.
#[derive(Clone, Copy)]
pub(crate) struct TcpSegment {
    /// It goes from the gateway to the control centre.
    pub(crate) is_up: bool,
    /// The port of the control centre.
    pub(crate) port: u16,
    pub(crate) sequence: u32,
    pub(crate) acknowledged: u32,
    /// FIN 1, SYN 2, RST 4, PSH 8, ACK 16.
    pub(crate) flags: u8,
}

/// The sum of octets as words, the high octet first.
fn sum_of_words(octets: &[u8]) -> u64
    requires { length octets.now < 2 ^ 15 }
    ensures value { result ≡ words_summed octets.now }
    ensures bound { result ≤ 65535 * length octets.now }
{
    match octets {
        [] => 0,
        [high] => u64::from(*high) * 256,
        [high, low, rest @ ..] => { u64::from(*high) * 256 + u64::from(*low) + sum_of_words(rest) }
    }
}

/// The sum of words.
fn sum_of(words: &[u16]) -> u32
    requires { length words.now ≤ 16 }
    ensures { result ≡ sum words.now }
{
    words.iter().map(|word| u32::from(*word)).sum()
}

fn folded(sum: u64) -> u64
    requires { sum < 2 ^ 34 }
    ensures value { result ≡ folded_once sum }
    ensures bound { result ≤ 65535 + sum / 65536 }
{
    sum % 65_536 + sum / 65_536
}

/// The complement of a sum of words, with the carries added.
#[tactic(auto, unfolding(crate::specs::Segments::checksum))]
fn checksum(sum: u64) -> u16
    requires { sum < 2 ^ 34 }
    ensures { result ≡ checksum_of sum }
{
    (65_535 - folded(folded(folded(sum)))) as u16
}

impl TcpSegment {
    ghost use Rattle.record.specs.Segments.{destination as destination_of};
    ghost use Rattle.record.specs.Segments.{destination_port as destination_port_of, packet};
    ghost use Rattle.record.specs.Segments.{packet_sum as packet_sum_of};
    ghost use Rattle.record.specs.Segments.{packet_words as packet_words_of};
    ghost use Rattle.record.specs.Segments.{segment_sum as segment_sum_of};
    ghost use Rattle.record.specs.Segments.{segment_words as segment_words_of};
    ghost use Rattle.record.specs.Segments.{source as source_of, source_port as source_port_of};

    fn source(self) -> u16
        ensures { result ≡ source_of self }
    {
        if self.is_up { 0x0202 } else { 0x0201 }
    }

    fn destination(self) -> u16
        ensures { result ≡ destination_of self }
    {
        if self.is_up { 0x0201 } else { 0x0202 }
    }

    fn source_port(self) -> u16
        ensures { result ≡ source_port_of self }
    {
        if self.is_up { 2404 } else { self.port }
    }

    fn destination_port(self) -> u16
        ensures { result ≡ destination_port_of self }
    {
        if self.is_up { self.port } else { 2404 }
    }

    /// The header of its packet, with so many octets of data.
    fn packet_words(self, size: u16, sum: u16) -> [u16; 10]
        requires { size < 2 ^ 15 }
        ensures { result ≡ packet_words_of self size sum }
    {
        [
            0x4500,
            40 + size,
            0,
            0x4000,
            0x4006,
            sum,
            0xC000,
            self.source(),
            0xC000,
            self.destination(),
        ]
    }

    /// Its own header.
    fn segment_words(self, sum: u16) -> [u16; 10]
        ensures { result ≡ segment_words_of self sum }
    {
        [
            self.source_port(),
            self.destination_port(),
            (self.sequence / 65_536) as u16,
            (self.sequence % 65_536) as u16,
            (self.acknowledged / 65_536) as u16,
            (self.acknowledged % 65_536) as u16,
            0x5000 + u16::from(self.flags),
            0xFFFF,
            sum,
            0,
        ]
    }

    fn packet_sum(self, size: u16) -> u16
        requires { size < 2 ^ 15 }
        ensures { result ≡ packet_sum_of self size }
    {
        checksum(u64::from(sum_of(&self.packet_words(size, 0)[..])))
    }

    fn segment_sum(self, payload: &[u8]) -> u16
        requires { length payload.now < 2 ^ 15 }
        ensures { result ≡ segment_sum_of self payload.now }
    {
        let size = payload.len() as u16;
        let pseudo = sum_of(&[0xC000, 0x0201, 0xC000, 0x0202, 6, 20 + size][..]);
        let header = sum_of(&self.segment_words(0)[..]);
        checksum(u64::from(pseudo) + u64::from(header) + sum_of_words(payload))
    }

    /// Puts the packet with this segment and its data.
    #[tactic(auto, unfolding(crate::specs::Segments::packet))]
    pub(crate) fn put_packet(self, page: &mut Page, payload: &[u8]) -> Result<(), AllocError>
        requires { length payload.now < 2 ^ 15 }
        ensures { OnOk result (page.new ≡ page.old ++ packet self payload.now) }
    {
        let size = payload.len() as u16;
        put_words(page, &self.packet_words(size, self.packet_sum(size))[..])?;
        put_words(page, &self.segment_words(self.segment_sum(payload))[..])?;
        page.put(payload)
    }
}
