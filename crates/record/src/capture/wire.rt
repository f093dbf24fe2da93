//! The line as packets: octets of a serial line, each frame in a packet of its own.
ghost use Rattle.std.specs.Prelude.{◌≡◌, ◌++◌, ◌+◌, ◌<◌, ◌≤◌, ◌^◌, ◌∷◌, [], codes, false, drop};
ghost use Rattle.std.specs.Prelude.{length, string_bytes, IfOk, OnOk};
ghost use Rattle.ft12.specs.Fronts.{front_of};
ghost use Rattle.record.specs.Wires.{after_answer, after_request, answer as answer_of, answers};
ghost use Rattle.record.specs.Wires.{asked, cut_of, gap as gap_of, gap_comment as comment_of_gap};
ghost use Rattle.record.specs.Wires.{arrived, no_frame, request_of, serial_block};
ghost use Rattle.record.specs.Wires.{serial_blocks, serial_octets, spoilt_part, begun_part};
ghost use Rattle.record.specs.Wires.{still_awaited, way_octets};

use super::octets::put_high_first;
use super::pcapng::{Interface, put_block};
use ft12::{FrontRef, LinkSize, front_is_computed, front_ref};
use std::alloc::{AllocError, Global};
use std::marker::Model;
use std::mem;
use traces::Page;

/// Puts octets of the line as those of a serial line are captured: the moment, in seconds and
/// microseconds, and which way they go (1 sent, 2 received) stand before them.
#[tactic(auto, unfolding(crate::specs::Wires::serial_octets))]
fn put_octets(
    packet: &mut Page,
    micros: u64,
    is_request: bool,
    octets: &[u8],
) -> Result<(), AllocError>
    ensures { OnOk result (packet.new
        ≡ packet.old ++ serial_octets micros is_request octets.now) }
{
    put_high_first(packet, (micros / 1_000_000 % 4_294_967_296) as u32)?;
    put_high_first(packet, (micros % 1_000_000) as u32)?;
    put_way(packet, is_request)?;
    packet.put(octets)
}

#[tactic(auto, unfolding(crate::specs::Wires::way_octets))]
fn put_way(packet: &mut Page, is_request: bool) -> Result<(), AllocError>
    ensures { OnOk result (packet.new ≡ packet.old ++ way_octets is_request) }
{
    if is_request {
        packet.put(&[1, 0, 0, 0][..])
    } else {
        packet.put(&[2, 0, 0, 0][..])
    }
}

/// Puts octets of the line in one packet, with a comment.
#[tactic(auto, using(crate::proofs::Lengths::serial_length), unfolding(crate::specs::Wires::serial_block))]
fn put_serial(
    page: &mut Page,
    packet: &mut Page,
    micros: u64,
    is_request: bool,
    octets: &[u8],
    comment: &str,
) -> Result<(), AllocError>
    requires octets { length octets.now < 2 ^ 15 }
    requires comment { length comment.now < 2 ^ 16 }
    ensures { OnOk result (page.new ≡ page.old ++ serial_block micros
        (record { is_request = is_request; octets = octets.now; comment = comment.now })) }
{
    packet.clear();
    put_octets(packet, micros, is_request, octets)?;
    put_block(
        page,
        Interface::Line,
        micros,
        packet.octets(),
        comment.as_bytes(),
    )
}

/// Puts octets that are no whole frame, if there are any.
fn put_no_frame(
    page: &mut Page,
    packet: &mut Page,
    micros: u64,
    octets: &[u8],
    comment: &str,
) -> Result<(), AllocError>
    requires octets { length octets.now < 2 ^ 15 }
    requires comment { length comment.now < 2 ^ 16 }
    ensures { OnOk result (page.new
        ≡ page.old ++ serial_blocks micros (no_frame comment.now octets.now)) }
{
    if octets.is_empty() {
        return Ok(());
    }
    put_serial(page, packet, micros, false, octets, comment)
}

/// Puts a frame from an outstation. It is late if nobody waits for one.
fn put_answer(
    page: &mut Page,
    packet: &mut Page,
    micros: u64,
    is_awaited: bool,
    frame: &[u8],
) -> Result<(), AllocError>
    requires { length frame.now < 2 ^ 15 }
    ensures { OnOk result (page.new
        ≡ page.old ++ serial_block micros (answer_of is_awaited frame.now)) }
{
    let comment = if is_awaited { "" } else { "late" };
    put_serial(page, packet, micros, false, frame, comment)
}

/// Puts each frame at the front of octets, one after another, and answers where they end.
fn put_frames(
    page: &mut Page,
    packet: &mut Page,
    micros: u64,
    size: LinkSize,
    is_awaited: &mut bool,
    octets: &[u8],
) -> Result<usize, AllocError>
    requires { length octets.now < 2 ^ 15 }
    ensures put { OnOk result (page.new ≡ page.old
        ++ serial_blocks micros (answers is_awaited.old (cut_of size octets.now).frames)) }
    ensures rest { IfOk result (λ end. drop end octets.now ≡ (cut_of size octets.now).rest) }
    ensures within { IfOk result (λ end. end ≤ length octets.now) }
    ensures awaited { OnOk result (is_awaited.new
        ≡ still_awaited is_awaited.old (cut_of size octets.now).frames) }
{
    front_is_computed();
    let mut end = 0;
    'frames: while let FrontRef::Whole(_, len) = front_ref(size, &octets[end..]) {
        let frame = &octets[end..end + len];
        put_answer(page, packet, micros, *is_awaited, frame)?;
        *is_awaited = false;
        end += len;
    }
    Ok(end)
}

/// The comment that reports a gap of a station, from 0, at the end of one of its sessions.
#[tactic(auto, using(crate::proofs::Lengths::gap_short))]
fn gap_comment(alloc: Global, station: usize, session: u64) -> Result<String, AllocError>
    ensures text { IfOk result (λ text. string_bytes text ≡ comment_of_gap station session) }
    ensures bound { IfOk result (λ text. length (string_bytes text) < 2 ^ 16) }
{
    let mut text = String::new(alloc);
    // Wide enough for one past the greatest index.
    let number = station as u128 + 1;
    write!(text, "gap: station {number}, session {session}")?;
    Ok(text)
}

/// What the line has of the next frame, and which request is the latest.
#[derive(Drop)]
pub(crate) struct Wire {
    alloc: Global,
    size: LinkSize,
    /// Octets from outstations that begin a frame.
    pending: Vec<u8>,
    /// The octets of the latest request.
    request: Vec<u8>,
    /// No frame came since the latest request.
    is_awaited: bool,
    packet: Page,
}

impl Model for Wire {
    ghost use Rattle.std.specs.Prelude.{◌<◌, length};
    ghost use Rattle.record.specs.Wires.{Line};

    ghost Value = { Line };

    ghost view = { λ w. record {
      size = w.size;
      pending = w.pending.items;
      request = w.request.items;
      is_awaited = w.is_awaited;
    } };

    ghost invariant = { λ w. length w.pending.items < 262 };
}

impl Wire {
    /// Before the first octet.
    pub(crate) fn new(alloc: Global, size: LinkSize) -> Wire
        ensures { result ≡ record { size = size; pending = []; request = []; is_awaited = false } }
    {
        Wire {
            alloc,
            size,
            pending: Vec::new(alloc),
            request: Vec::new(alloc),
            is_awaited: false,
            packet: Page::new(alloc),
        }
    }

    /// A request goes out. What came before it, and is no whole frame, goes as it is.
    pub(crate) fn ask(
        &mut self,
        page: &mut Page,
        micros: u64,
        octets: &[u8],
    ) -> Result<(), AllocError>
        requires { length octets.now ≤ 1024 }
        ensures put { OnOk result (page.new
            ≡ page.old ++ serial_blocks micros (asked self.old octets.now)) }
        ensures after { OnOk result (self.new ≡ after_request self.old octets.now) }
    {
        self.flush(page, micros)?;
        self.put_request(page, micros, octets)?;
        self.is_awaited = true;
        self.request.clear();
        self.request.extend_from_slice(octets)
    }

    /// Puts a request.
    fn put_request(&mut self, page: &mut Page, micros: u64, octets: &[u8]) -> Result<(), AllocError>
        requires { length octets.now ≤ 1024 }
        ensures put { OnOk result (page.new
            ≡ page.old ++ serial_block micros (request_of self.old octets.now)) }
        ensures same { self.new ≡ self.old }
    {
        let is_repeat = self.request.as_slice() == octets;
        let comment = if is_repeat { "repeat" } else { "" };
        put_serial(page, &mut self.packet, micros, true, octets, comment)
    }

    /// Octets came from an outstation, in any piece.
    pub(crate) fn receive_line(
        &mut self,
        page: &mut Page,
        micros: u64,
        octets: &[u8],
    ) -> Result<(), AllocError>
        requires { length octets.now ≤ 1024 }
        ensures put { OnOk result (page.new
            ≡ page.old ++ serial_blocks micros (arrived self.old octets.now)) }
        ensures after { OnOk result (self.new ≡ after_answer self.old octets.now) }
    {
        let mut all = mem::replace(&mut self.pending, Vec::new(self.alloc));
        all.extend_from_slice(octets)?;
        let awaited = &mut self.is_awaited;
        let packet = &mut self.packet;
        let end = put_frames(page, packet, micros, self.size, awaited, all.as_slice())?;
        self.put_rest(page, micros, &all.as_slice()[end..])
    }

    /// Puts what begins no frame as it is, and keeps what begins one.
    #[tactic(auto, using(crate::proofs::Cutting::beginning_short))]
    fn put_rest(&mut self, page: &mut Page, micros: u64, rest: &[u8]) -> Result<(), AllocError>
        requires few { length rest.now < 2 ^ 15 }
        requires none { self.old.pending ≡ [] }
        ensures put { OnOk result (page.new ≡ page.old ++ serial_blocks micros
            (no_frame (codes "spoilt") (spoilt_part (front_of self.old.size rest.now) rest.now))) }
        ensures after { OnOk result (self.new ≡ record self.old {
          pending
              = begun_part (front_of self.old.size rest.now) rest.now;
        }) }
    {
        front_is_computed();
        match front_ref(self.size, rest) {
            FrontRef::More => {
                self.pending = Vec::from_slice(self.alloc, rest)?;
                Ok(())
            }
            FrontRef::Whole(..) | FrontRef::Never(..) => {
                put_no_frame(page, &mut self.packet, micros, rest, "spoilt")
            }
        }
    }

    /// What came and is no whole frame goes as it is.
    pub(crate) fn flush(&mut self, page: &mut Page, micros: u64) -> Result<(), AllocError>
        ensures put { OnOk result (page.new ≡ page.old ++ serial_blocks micros
            (no_frame (codes "no whole frame") self.old.pending)) }
        ensures after { OnOk result (self.new ≡ record self.old { pending = [] }) }
    {
        let pending = self.pending.as_slice();
        put_no_frame(page, &mut self.packet, micros, pending, "no whole frame")?;
        self.pending.clear();
        Ok(())
    }

    /// Puts a gap of a station, from 0, at the end of one of its sessions. The frame that brought
    /// it was put before the gap is reported, so that it has a packet of its own
    /// (docs/DECISIONS.md, "A gap in a capture").
    pub(crate) fn gap(
        &mut self,
        page: &mut Page,
        micros: u64,
        station: usize,
        session: u64,
    ) -> Result<(), AllocError>
        ensures put { OnOk result (page.new
            ≡ page.old ++ serial_blocks micros (gap_of station session ∷ [])) }
        ensures same { self.new ≡ self.old }
    {
        let comment = gap_comment(self.alloc, station, session)?;
        let packet = &mut self.packet;
        let none = b"".as_slice();
        put_serial(page, packet, micros, false, none, comment.as_str())
    }
}
