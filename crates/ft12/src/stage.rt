//! What one octet adds to the beginning of a frame.

ghost use Rattle.std.specs.Prelude.{◌≡◌, ℕ, List, ◌+◌, ◌≤◌, ◌<◌, [], ◌∷◌, ◌++◌, length};
ghost use Rattle.std.specs.Prelude.{◌/◌, ◌%◌, OnOk};
ghost use Rattle.ft12.specs.declared.frame.LinkSize.{LinkSize};
ghost use Rattle.ft12.specs.Spelling.{address_len, user};
ghost use Rattle.ft12.specs.DueOctet.{fields_octets, IsFields, head, IsStage, so_far, Steps};
ghost use Rattle.ft12.specs.DueOctet.{is_end, summed_octets};

use crate::frame::{Frame, LinkSize, Why};
use crate::writing::{END, SINGLE, START_DATA, START_FIXED};
use arrayvec::ArrayVec;
use byteorder::{ByteOrder, LittleEndian};
use std::alloc::AllocError;
use std::mem;

/// The data of a frame, as far as they came.
pub(crate) type Data = ArrayVec<u8, 253>;

/// Which of the two frames with a sum is coming.
#[derive(Clone, Copy)]
pub(crate) enum FrameKind {
    Fixed,
    Variable,
}

/// The control octet and the address, as far as they came.
#[derive(Clone, Copy)]
pub(crate) enum FixedFields {
    Nothing,
    Control { c: u8 },
    /// With the low octet of an address of two.
    LowAddress { c: u8, low: u8 },
    Address { c: u8, a: u16 },
}

/// The len octets from the control octet to the last one of data, as far as they came, and their
/// sum.
#[derive(Clone, Copy)]
pub(crate) struct Summing {
    kind: FrameKind,
    len: u8,
    sum: u8,
    fields: FixedFields,
}

/// All of those octets, and their sum.
#[derive(Clone, Copy)]
pub(crate) struct Summed {
    kind: FrameKind,
    len: u8,
    sum: u8,
    c: u8,
    a: u16,
}

/// Which octet is due, and what is needed of those before it. The data are kept beside it.
#[derive(Clone, Copy)]
pub(crate) enum DueOctet {
    /// The first octet of a frame.
    Start,
    /// The length of a variable frame.
    Length,
    /// The length again.
    LengthAgain { len: u8 },
    /// The second start octet.
    SecondStart { len: u8 },
    /// One of the octets from the control octet to the last one of data.
    User(Summing),
    /// The sum.
    Sum(Summed),
    /// The end octet.
    End(Summed),
}

/// A frame but for its data.
#[derive(Clone, Copy)]
pub(crate) enum BareFrame {
    Single,
    Fixed { c: u8, a: u16 },
    Data { c: u8, a: u16 },
}

/// What the octets are with one more.
#[derive(Clone, Copy)]
pub(crate) enum NextStage {
    /// A frame, whose data are the ones kept.
    Whole(BareFrame),
    /// The beginning of a frame.
    More(DueOctet),
    /// No frame and no beginning of one: the first wrong place, and what is wrong there.
    Never(usize, Why),
}

impl BareFrame {
    ghost use Rattle.ft12.specs.DueOctet.{HasData, frame_with};

    /// The frame, with the data moved out of where they were kept.
    pub(crate) fn with_data(self, kept: &mut Data) -> Frame
        requires { HasData self kept.old.items }
        ensures frame { result ≡ frame_with self kept.old.items }
        ensures kept { kept.new.items ≡ [] }
    {
        match self {
            BareFrame::Single => Frame::Single,
            BareFrame::Fixed { c, a } => Frame::Fixed { c, a },
            BareFrame::Data { c, a } => {
                let body = mem::replace(kept, ArrayVec::new());
                Frame::Data { c, a, body }
            }
        }
    }
}

impl FrameKind {
    /// How many octets come before the control octet.
    fn head_len(self) -> usize
        ensures small { result ≤ 4 }
        ensures all { (len : ℕ) → result ≡ length (head self len) }
    {
        match self {
            FrameKind::Fixed => 1,
            FrameKind::Variable => 4,
        }
    }
}

impl FixedFields {
    /// The fields with one more octet, which is one of data if all fields came.
    #[inline(always)]
    fn with_octet(self, size: LinkSize, kept: &mut Data, octet: u8) -> FixedFields
        requires fields { IsFields size self kept.old.items }
        requires room { length (fields_octets size self kept.old.items) < 255 }
        ensures fields { IsFields size result kept.new.items }
        ensures octets { fields_octets size result kept.new.items
            ≡ fields_octets size self kept.old.items ++ octet ∷ [] }
    {
        match self {
            FixedFields::Nothing => FixedFields::Control { c: octet },
            FixedFields::Control { c } => match size {
                LinkSize::One => FixedFields::Address {
                    c,
                    a: u16::from(octet),
                },
                LinkSize::Two => FixedFields::LowAddress { c, low: octet },
            },
            FixedFields::LowAddress { c, low } => FixedFields::Address {
                c,
                a: LittleEndian::read_u16(&[low, octet]),
            },
            FixedFields::Address { c, a } => {
                kept.push(octet);
                FixedFields::Address { c, a }
            }
        }
    }

    /// How many octets of fields and data came.
    fn octet_count(self, size: LinkSize, kept: &Data) -> usize
        requires { IsFields size self kept.now.items }
        ensures { result ≡ length (fields_octets size self kept.now.items) }
    {
        match self {
            FixedFields::Nothing => 0,
            FixedFields::Control { .. } => 1,
            FixedFields::LowAddress { .. } => 2,
            FixedFields::Address { .. } => 1 + size.octets() + kept.len(),
        }
    }
}

impl Summing {
    ghost use Rattle.std.specs.Prelude.{true};
    ghost use Rattle.ft12.specs.declared.stage.DueOctet.TheVariants.{User};
    ghost use Rattle.ft12.specs.DueOctet.{IsSumming, IsInData};

    /// Whether an octet of data is due that isn't the last one.
    pub(crate) fn has_more_data(&self, size: LinkSize, kept: &Data) -> bool
        ensures { result ≡ true → IsInData size self.now kept.now.items }
    {
        match self.fields {
            FixedFields::Address { .. } => 2 + size.octets() + kept.len() < usize::from(self.len),
            _ => false,
        }
    }

    /// Takes an octet of data that isn't the last one.
    pub(crate) fn push_data(&mut self, size: LinkSize, kept: &mut Data, octet: u8)
        requires summing { IsSumming size self.old kept.old.items }
        requires data { IsInData size self.old kept.old.items }
        ensures summing { IsSumming size self.new kept.new.items }
        ensures octets { so_far size (User self.new) kept.new.items
            ≡ so_far size (User self.old) kept.old.items ++ octet ∷ [] }
    {
        kept.push(octet);
        self.sum = self.sum.wrapping_add(octet);
    }

    /// The stage after one more octet.
    #[inline(always)]
    fn with_octet(self, size: LinkSize, kept: &mut Data, octet: u8) -> DueOctet
        requires { IsSumming size self kept.old.items }
        ensures stage { IsStage size result kept.new.items }
        ensures octets { so_far size result kept.new.items
            ≡ head self.kind self.len
            ++ (fields_octets size self.fields kept.old.items ++ octet ∷ []) }
    {
        let Summing { kind, len, .. } = self;
        let fields = self.fields.with_octet(size, kept, octet);
        let sum = self.sum.wrapping_add(octet);
        if fields.octet_count(size, kept) < usize::from(len) {
            return DueOctet::User(Summing {
                kind,
                len,
                sum,
                fields,
            });
        }
        match fields {
            FixedFields::Address { c, a } => DueOctet::Sum(Summed {
                kind,
                len,
                sum,
                c,
                a,
            }),
            // A length without room for the fields was refused when it came.
            _ => unreachable!(),
        }
    }
}

impl Summed {
    ghost use Rattle.ft12.specs.DueOctet.{IsSummed, summed_octets};

    /// What the octet after those summed gives.
    fn at_sum(self, octet: u8) -> NextStage
        ensures { (size : LinkSize) (kept : List ℕ) → IsSummed size self kept →
            Steps size (summed_octets size self kept ++ octet ∷ []) kept result }
    {
        if octet == self.sum {
            NextStage::More(DueOctet::End(self))
        } else {
            NextStage::Never(self.kind.head_len() + usize::from(self.len), Why::Sum)
        }
    }

    /// What the octet after the right sum gives.
    fn at_end(self, octet: u8) -> NextStage
        ensures { (size : LinkSize) (kept : List ℕ) → IsSummed size self kept →
            Steps size ((summed_octets size self kept ++ self.sum ∷ []) ++ octet ∷ []) kept result }
    {
        let Summed { c, a, .. } = self;
        if octet != END {
            let place = self.kind.head_len() + usize::from(self.len) + 1;
            return NextStage::Never(place, Why::End);
        }
        match self.kind {
            FrameKind::Fixed => NextStage::Whole(BareFrame::Fixed { c, a }),
            FrameKind::Variable => NextStage::Whole(BareFrame::Data { c, a }),
        }
    }
}

impl DueOctet {
    /// Whether the end octet is due.
    pub(crate) fn is_end(self) -> bool
        ensures { result ≡ is_end self }
    {
        matches!(self, DueOctet::End(_))
    }

    /// What one more octet gives.
    #[inline(always)]
    pub(crate) fn with_octet(self, size: LinkSize, kept: &mut Data, octet: u8) -> NextStage
        requires { IsStage size self kept.old.items }
        ensures { Steps size (so_far size self kept.old.items ++ octet ∷ [])
            kept.new.items result }
    {
        match self {
            DueOctet::Start => at_start(size, octet),
            DueOctet::Length => at_length(size, octet),
            DueOctet::LengthAgain { len } => at_length_again(len, octet),
            DueOctet::SecondStart { len } => at_second_start(len, octet),
            DueOctet::User(summing) => NextStage::More(summing.with_octet(size, kept, octet)),
            DueOctet::Sum(summed) => summed.at_sum(octet),
            DueOctet::End(summed) => summed.at_end(octet),
        }
    }
}

fn at_start(size: LinkSize, octet: u8) -> NextStage
    ensures { Steps size (octet ∷ []) [] result }
{
    match octet {
        SINGLE => NextStage::Whole(BareFrame::Single),
        // A fixed frame doesn't say its length: it has no data.
        START_FIXED => NextStage::More(DueOctet::User(Summing {
            kind: FrameKind::Fixed,
            len: 1 + size.octets() as u8,
            sum: 0,
            fields: FixedFields::Nothing,
        })),
        START_DATA => NextStage::More(DueOctet::Length),
        _ => NextStage::Never(0, Why::Start),
    }
}

fn at_length(size: LinkSize, octet: u8) -> NextStage
    ensures { Steps size (0x68 ∷ octet ∷ []) [] result }
{
    if usize::from(octet) < 1 + size.octets() {
        NextStage::Never(1, Why::LengthSmall)
    } else {
        NextStage::More(DueOctet::LengthAgain { len: octet })
    }
}

fn at_length_again(len: u8, octet: u8) -> NextStage
    ensures { (size : LinkSize) → 1 + address_len size ≤ len →
        Steps size (0x68 ∷ len ∷ octet ∷ []) [] result }
{
    if octet == len {
        NextStage::More(DueOctet::SecondStart { len })
    } else {
        NextStage::Never(2, Why::LengthsDiffer)
    }
}

fn at_second_start(len: u8, octet: u8) -> NextStage
    ensures { (size : LinkSize) → 1 + address_len size ≤ len →
        Steps size (0x68 ∷ len ∷ len ∷ octet ∷ []) [] result }
{
    if octet == START_DATA {
        // From 0, since neither start octets nor lengths are in the sum (IEC 60870-5-1, 6.2.4.2).
        NextStage::More(DueOctet::User(Summing {
            kind: FrameKind::Variable,
            len,
            sum: 0,
            fields: FixedFields::Nothing,
        }))
    } else {
        NextStage::Never(3, Why::SecondStart)
    }
}

/// Puts octets behind a line of numbers.
fn put_all(octets: &[u8], line: &mut Vec<u64>) -> Result<(), AllocError>
    ensures { OnOk result (line.new.items ≡ line.old.items ++ octets.now) }
{
    for octet in octets {
        line.push(u64::from(*octet))?;
    }
    Ok(())
}

/// Puts control octet, address and data behind a line of numbers.
fn put_user(
    size: LinkSize,
    c: u8,
    a: u16,
    kept: &[u8],
    line: &mut Vec<u64>,
) -> Result<(), AllocError>
    ensures { OnOk result (line.new.items ≡ line.old.items ++ user size c a kept.now) }
{
    line.push(u64::from(c))?;
    match size {
        LinkSize::One => line.push(u64::from(a))?,
        LinkSize::Two => {
            line.push(u64::from(a % 256))?;
            line.push(u64::from(a / 256))?;
        }
    }
    put_all(kept, line)
}

impl FrameKind {
    /// Puts the octets before the control octet behind a line of numbers.
    fn put(self, len: u8, line: &mut Vec<u64>) -> Result<(), AllocError>
        ensures { OnOk result (line.new.items ≡ line.old.items ++ head self len) }
    {
        match self {
            FrameKind::Fixed => put_all(&[START_FIXED], line),
            FrameKind::Variable => put_all(&[START_DATA, len, len, START_DATA], line),
        }
    }
}

impl FixedFields {
    /// Puts the octets of the fields and of the data, as far as they came, behind a line of
    /// numbers.
    fn put(self, size: LinkSize, kept: &[u8], line: &mut Vec<u64>) -> Result<(), AllocError>
        ensures { OnOk result (line.new.items
            ≡ line.old.items ++ fields_octets size self kept.now) }
    {
        match self {
            FixedFields::Nothing => Ok(()),
            FixedFields::Control { c } => put_all(&[c], line),
            FixedFields::LowAddress { c, low } => put_all(&[c, low], line),
            FixedFields::Address { c, a } => put_user(size, c, a, kept, line),
        }
    }
}

impl Summed {
    /// Puts all octets before the sum behind a line of numbers.
    fn put(self, size: LinkSize, kept: &[u8], line: &mut Vec<u64>) -> Result<(), AllocError>
        ensures { OnOk result (line.new.items
            ≡ line.old.items ++ summed_octets size self kept.now) }
    {
        self.kind.put(self.len, line)?;
        put_user(size, self.c, self.a, kept, line)
    }
}

impl DueOctet {
    /// Puts the octets that it stands for behind a line of numbers.
    pub(crate) fn put(
        self,
        size: LinkSize,
        kept: &[u8],
        line: &mut Vec<u64>,
    ) -> Result<(), AllocError>
        ensures { OnOk result (line.new.items ≡ line.old.items ++ so_far size self kept.now) }
    {
        match self {
            DueOctet::Start => Ok(()),
            DueOctet::Length => put_all(&[START_DATA], line),
            DueOctet::LengthAgain { len } => put_all(&[START_DATA, len], line),
            DueOctet::SecondStart { len } => put_all(&[START_DATA, len, len], line),
            DueOctet::User(summing) => {
                summing.kind.put(summing.len, line)?;
                summing.fields.put(size, kept, line)
            }
            DueOctet::Sum(summed) => summed.put(size, kept, line),
            DueOctet::End(summed) => {
                summed.put(size, kept, line)?;
                put_all(&[summed.sum], line)
            }
        }
    }
}
