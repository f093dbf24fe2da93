//! The blocks of a pcapng file.
ghost use Rattle.std.specs.Prelude.{◌≡◌, ◌++◌, ◌+◌, ◌<◌, ◌^◌, OnOk, length};
ghost use Rattle.record.specs.Blocks.{back, block, block_length as length_of_block};
ghost use Rattle.record.specs.Blocks.{comment_option, file_header, front};
ghost use Rattle.record.specs.Blocks.{number_of as interface_number};
ghost use Rattle.record.specs.Blocks.{option_length as length_of_option, padded_octets, sized};
ghost use Rattle.record.specs.Blocks.{stamp};
ghost use Rattle.record.specs.Octets.{padded as padded_length};

use super::octets::{put_low_first, put_padding};
use std::alloc::AllocError;
use traces::Page;

/// Which interface a packet is of.
#[derive(Clone, Copy)]
pub(crate) enum Interface {
    /// That of the connection: IPv4 packets.
    Connection = 0,
    /// That of the line: octets of a serial line.
    Line = 1,
}

/// A section header, an interface of IPv4 packets (link type 228), and one of octets of a serial
/// line (link type 250).
static FILE_HEADER: [u8; 68] = [
    0x0A, 0x0D, 0x0D, 0x0A, 28, 0, 0, 0, 0x4D, 0x3C, 0x2B, 0x1A, 1, 0, 0, 0, 0xFF, 0xFF, 0xFF,
    0xFF, 0xFF, 0xFF, 0xFF, 0xFF, 28, 0, 0, 0, 1, 0, 0, 0, 20, 0, 0, 0, 228, 0, 0, 0, 0, 0, 0, 0,
    20, 0, 0, 0, 1, 0, 0, 0, 20, 0, 0, 0, 250, 0, 0, 0, 0, 0, 0, 0, 20, 0, 0, 0,
];

/// Puts what a file begins with.
pub fn put_file_header(page: &mut Page) -> Result<(), AllocError>
    ensures { OnOk result (page.new ≡ page.old ++ file_header) }
{
    page.put(&FILE_HEADER[..])
}

/// A length with its padding.
fn padded(octets: u32) -> u32
    requires { octets < 2 ^ 16 }
    ensures value { result ≡ padded_length octets }
    ensures bound { result < 2 ^ 17 }
{
    (octets + 3) / 4 * 4
}

fn option_length(comment: &[u8]) -> u32
    requires { length comment.now < 2 ^ 16 }
    ensures value { result ≡ length_of_option comment.now }
    ensures bound { result < 2 ^ 18 }
{
    if comment.is_empty() {
        0
    } else {
        8 + padded(comment.len() as u32)
    }
}

fn block_length(packet: &[u8], comment: &[u8]) -> u32
    requires packet { length packet.now < 2 ^ 16 }
    requires comment { length comment.now < 2 ^ 16 }
    ensures { result ≡ length_of_block packet.now comment.now }
{
    32 + padded(packet.len() as u32) + option_length(comment)
}

#[tactic(auto, unfolding(crate::specs::Blocks::padded_octets))]
fn put_padded(page: &mut Page, octets: &[u8]) -> Result<(), AllocError>
    ensures { OnOk result (page.new ≡ page.old ++ padded_octets octets.now) }
{
    page.put(octets)?;
    put_padding(page, octets.len())
}

/// Puts a comment, if there is one.
#[tactic(auto, unfolding(crate::specs::Blocks::comment_option))]
fn put_comment(page: &mut Page, comment: &[u8]) -> Result<(), AllocError>
    requires { length comment.now < 2 ^ 16 }
    ensures { OnOk result (page.new ≡ page.old ++ comment_option comment.now) }
{
    if comment.is_empty() {
        return Ok(());
    }
    put_low_first(page, 1 + comment.len() as u32 * 65_536)?;
    put_padded(page, comment)?;
    put_low_first(page, 0)
}

#[tactic(auto, unfolding(crate::specs::Blocks::stamp))]
fn put_stamp(page: &mut Page, micros: u64) -> Result<(), AllocError>
    ensures { OnOk result (page.new ≡ page.old ++ stamp micros) }
{
    put_low_first(page, (micros >> 32) as u32)?;
    put_low_first(page, (micros % 4_294_967_296) as u32)
}

#[tactic(auto, unfolding(crate::specs::Blocks::sized))]
fn put_sized(page: &mut Page, packet: &[u8]) -> Result<(), AllocError>
    requires { length packet.now < 2 ^ 16 }
    ensures { OnOk result (page.new ≡ page.old ++ sized packet.now) }
{
    put_low_first(page, packet.len() as u32)?;
    put_low_first(page, packet.len() as u32)?;
    put_padded(page, packet)
}

/// Puts a packet of an interface, at so many microseconds since 1970-01-01 UTC, with a comment if
/// there is one.
#[tactic(auto, unfolding(crate::specs::Blocks::block))]
pub(crate) fn put_block(
    page: &mut Page,
    interface: Interface,
    micros: u64,
    packet: &[u8],
    comment: &[u8],
) -> Result<(), AllocError>
    requires packet { length packet.now < 2 ^ 16 }
    requires comment { length comment.now < 2 ^ 16 }
    ensures { OnOk result (page.new
        ≡ page.old ++ block (interface_number interface) micros packet.now comment.now) }
{
    put_front(page, interface, micros, packet, comment)?;
    put_sized(page, packet)?;
    put_back(page, packet, comment)
}

fn number_of(interface: Interface) -> u32
    ensures { result ≡ interface_number interface }
{
    match interface {
        Interface::Connection => 0,
        Interface::Line => 1,
    }
}

#[tactic(auto, unfolding(crate::specs::Blocks::front))]
fn put_front(
    page: &mut Page,
    interface: Interface,
    micros: u64,
    packet: &[u8],
    comment: &[u8],
) -> Result<(), AllocError>
    requires packet { length packet.now < 2 ^ 16 }
    requires comment { length comment.now < 2 ^ 16 }
    ensures { OnOk result (page.new
        ≡ page.old ++ front (interface_number interface) micros packet.now comment.now) }
{
    put_low_first(page, 6)?;
    put_low_first(page, block_length(packet, comment))?;
    put_low_first(page, number_of(interface))?;
    put_stamp(page, micros)
}

#[tactic(auto, unfolding(crate::specs::Blocks::back))]
fn put_back(page: &mut Page, packet: &[u8], comment: &[u8]) -> Result<(), AllocError>
    requires packet { length packet.now < 2 ^ 16 }
    requires comment { length comment.now < 2 ^ 16 }
    ensures { OnOk result (page.new ≡ page.old ++ back packet.now comment.now) }
{
    put_comment(page, comment)?;
    put_low_first(page, block_length(packet, comment))
}
