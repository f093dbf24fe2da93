//! Writing ASDUs.
ghost use Rattle.std.specs.Prelude.{◌≡◌, ◌+◌, ◌<◌, ◌≤◌, ◌^◌, ◌∷◌, [], ◌++◌, length, is_some, true};
ghost use Rattle.std.specs.Prelude.{false, None, take};
ghost use Rattle.std.specs.List.{AllByRecursion};
ghost use Rattle.byteorder.specs.Endian.{little_bytes};
ghost use Rattle.arrayvec.specs.ArrayVec.{array_vec_len};
ghost use Rattle.asdu.specs.Sizes.{header_len, ca_len, ioa_len};
ghost use Rattle.asdu.specs.Asdu.{vsq, IsInfo, IsAsdu, spelled, content_len, originator_octets};
ghost use Rattle.asdu.specs.Refusals.{body_len};
ghost use Rattle.asdu.specs.Fields.{is_sequence};
ghost use Rattle.asdu.specs.Reading.{value_of};
ghost use Rattle.asdu.specs.Objects.{infos_left};
ghost use Rattle.asdu.specs.Writing.{CanBeWritten, with_infos, carried, header_of, lead, lead_len};
ghost use Rattle.asdu.specs.Writing.{spelled_infos};

use crate::objects::content_octets;
use crate::reading::body_octets;
use crate::{Asdu, CaSize, CauseSize, IoaSize, Objects, Sizes};
use arrayvec::ArrayVec;

/// The same ASDU in other sizes, without its originator if the cause has one octet; in its own
/// sizes its own octets.
pub fn write(sizes: Sizes, asdu: &Asdu) -> ArrayVec<u8, 253>
    requires ca { (value_of asdu.now).ca < 256 ^ ca_len sizes.ca }
    requires addresses { AllByRecursion (λ i.
        i.address < 256 ^ ioa_len sizes.ioa) (value_of asdu.now).infos }
    requires room { length (spelled sizes (carried sizes (value_of asdu.now))) ≤ 253 }
    ensures written { IsAsdu sizes (carried sizes (value_of asdu.now)) result.items }
    ensures again { asdu.now.sizes ≡ sizes → result.items ≡ asdu.now.octets.now }
{
    spell(sizes, asdu, asdu.objects())
}

/// Whether `write` has a spelling for it: its common address and its object addresses fit the
/// sizes, and its octets are at most 253.
pub fn can_write(sizes: Sizes, asdu: &Asdu) -> bool
    ensures ca { result ≡ true → (value_of asdu.now).ca < 256 ^ ca_len sizes.ca }
    ensures addresses { result ≡ true →
        AllByRecursion (λ i. i.address < 256 ^ ioa_len sizes.ioa) (value_of asdu.now).infos }
    ensures room { result ≡ true →
        length (spelled sizes (carried sizes (value_of asdu.now))) ≤ 253 }
    ensures always { CanBeWritten sizes (value_of asdu.now) → result ≡ true }
{
    u32::from(asdu.ca()) < sizes.ca.limit()
        && addresses_fit(sizes.ioa.limit(), asdu.objects())
        && octets_in(sizes, asdu) <= 253
}

/// How many octets it has in these sizes.
fn octets_in(sizes: Sizes, asdu: &Asdu) -> usize
    ensures { AllByRecursion (λ i. i.address < 256 ^ ioa_len sizes.ioa) (value_of asdu.now).infos →
        result ≡ length (spelled sizes (carried sizes (value_of asdu.now))) }
{
    sizes.header() + body_octets(asdu.kind, sizes.ioa, asdu.is_sequence(), asdu.number())
}

/// Whether all addresses are below the limit.
fn addresses_fit(limit: u32, objects: Objects) -> bool
    ensures yes { result ≡ true →
        AllByRecursion (λ i. i.address < limit) (infos_left objects.entry) }
    ensures no { AllByRecursion (λ i. i.address < limit) (infos_left objects.entry) →
        result ≡ true }
{
    for object in objects {
        if object.address >= limit {
            return false;
        }
    }
    true
}

/// The ASDU with these of its objects.
pub(crate) fn spell<const N: usize>(sizes: Sizes, asdu: &Asdu, chunk: Objects) -> ArrayVec<u8, N>
    requires kind { chunk.kind ≡ asdu.now.kind }
    requires mode { is_some chunk.next_address ≡ is_sequence asdu.now.octets.now }
    requires some { 1 ≤ chunk.left }
    requires most { chunk.left ≤ 127 }
    requires ca { (value_of asdu.now).ca < 256 ^ ca_len sizes.ca }
    requires infos { AllByRecursion (IsInfo asdu.now.kind (ioa_len sizes.ioa)) (infos_left chunk) }
    requires room { header_len sizes
        + body_len asdu.now.kind (ioa_len sizes.ioa)
        (is_sequence asdu.now.octets.now) chunk.left ≤ N }
    ensures spells { IsAsdu sizes
        (with_infos (carried sizes (value_of asdu.now)) (infos_left chunk.entry)) result.items }
{
    let mut out = ArrayVec::new();
    spell_into(&mut out, sizes, asdu, chunk);
    out
}

/// Writes the ASDU with these of its objects.
#[inline(always)]
pub(crate) fn spell_into<const N: usize>(
    out: &mut ArrayVec<u8, N>,
    sizes: Sizes,
    asdu: &Asdu,
    chunk: Objects,
)
    requires empty { out.old.items ≡ [] }
    requires kind { chunk.kind ≡ asdu.now.kind }
    requires mode { is_some chunk.next_address ≡ is_sequence asdu.now.octets.now }
    requires some { 1 ≤ chunk.left }
    requires most { chunk.left ≤ 127 }
    requires ca { (value_of asdu.now).ca < 256 ^ ca_len sizes.ca }
    requires infos { AllByRecursion (IsInfo asdu.now.kind (ioa_len sizes.ioa)) (infos_left chunk) }
    requires room { header_len sizes
        + body_len asdu.now.kind (ioa_len sizes.ioa)
        (is_sequence asdu.now.octets.now) chunk.left ≤ N }
    ensures { IsAsdu sizes
        (with_infos (carried sizes (value_of asdu.now)) (infos_left chunk.entry)) out.new.items }
{
    append_header(out, sizes, asdu, chunk.left);
    append_lead(out, sizes.ioa, chunk.next_address);
    append_objects(out, sizes.ioa, chunk);
}

/// Appends type, VSQ, cause, originator and common address.
fn append_header<const N: usize>(
    out: &mut ArrayVec<u8, N>,
    sizes: Sizes,
    asdu: &Asdu,
    number: usize,
)
    requires most { number ≤ 127 }
    requires room { array_vec_len out.old + header_len sizes ≤ N }
    ensures { out.new.items
        ≡ out.old.items ++ header_of sizes (carried sizes (value_of asdu.now)) number }
{
    let head = asdu.head();
    append(
        out,
        &[head.kind, vsq_octet(asdu.is_sequence(), number), head.cause],
    );
    append_originator(out, sizes.cause, head.originator);
    append_ca(out, sizes.ca, head.ca);
}

/// The VSQ of so many objects.
fn vsq_octet(sequence: bool, number: usize) -> u8
    requires { number ≤ 127 }
    ensures { result ≡ vsq sequence number }
{
    (if sequence { 0x80 } else { 0 }) + number as u8
}

fn append_originator<const N: usize>(out: &mut ArrayVec<u8, N>, size: CauseSize, originator: u8)
    requires { array_vec_len out.old + 1 ≤ N }
    ensures { out.new.items ≡ out.old.items ++ originator_octets size originator }
{
    if size == CauseSize::Two {
        append(out, &[originator]);
    }
}

fn append_ca<const N: usize>(out: &mut ArrayVec<u8, N>, size: CaSize, ca: u16)
    requires { array_vec_len out.old + ca_len size ≤ N }
    ensures { out.new.items ≡ out.old.items ++ little_bytes (ca_len size) ca }
{
    let [low, high] = ca.to_le_bytes();
    match size {
        CaSize::One => append(out, &[low]),
        CaSize::Two => append(out, &[low, high]),
    }
}

/// Appends the address that a sequence begins with.
fn append_lead<const N: usize>(out: &mut ArrayVec<u8, N>, size: IoaSize, address: Option<u32>)
    requires { array_vec_len out.old + lead_len (ioa_len size) address ≤ N }
    ensures { out.new.items ≡ out.old.items ++ lead (ioa_len size) address }
{
    if let Some(address) = address {
        append_address(out, size, address);
    }
}

/// Appends objects, in a sequence without their addresses.
#[inline(always)]
fn append_objects<const N: usize>(out: &mut ArrayVec<u8, N>, size: IoaSize, objects: Objects)
    requires { array_vec_len out.old
        + length (spelled_infos (ioa_len size) (is_some objects.next_address) (infos_left objects))
        ≤ N }
    ensures { out.new.items ≡ out.old.items
        ++ spelled_infos (ioa_len size) (is_some objects.entry.next_address)
        (infos_left objects.entry) }
{
    if objects.next_address.is_some() {
        append(out, objects.text());
    } else {
        append_located(out, size, objects);
    }
}

/// Appends objects with their addresses. If these keep their size the octets stay as they are.
#[inline(always)]
fn append_located<const N: usize>(out: &mut ArrayVec<u8, N>, size: IoaSize, objects: Objects)
    requires mode { objects.next_address ≡ None }
    requires room { array_vec_len out.old
        + length (spelled_infos (ioa_len size) false (infos_left objects)) ≤ N }
    ensures { out.new.items ≡ out.old.items
        ++ spelled_infos (ioa_len size) false (infos_left objects.entry) }
{
    if objects.ioa == size {
        append(out, objects.text());
    } else if objects.left == 1 {
        append_one(out, size, objects);
    } else {
        match (objects.ioa, size) {
            (IoaSize::Two, IoaSize::Three) => append_widened(out, objects),
            _ => append_resized(out, size, objects),
        }
    }
}

/// Appends objects whose addresses grow from two octets to three, as those of most lines do.
fn append_widened<const N: usize>(out: &mut ArrayVec<u8, N>, objects: Objects)
    requires mode { objects.next_address ≡ None }
    requires two { ioa_len objects.ioa ≡ 2 }
    requires room { array_vec_len out.old
        + length (spelled_infos 3 false (infos_left objects)) ≤ N }
    ensures { out.new.items ≡ out.old.items
        ++ spelled_infos 3 false (infos_left objects.entry) }
{
    // Each number of octets has a loop of its own, in which no copy is a call.
    match content_octets(objects.kind) {
        1 => append_each::<N, 1>(out, objects),
        2 => append_each::<N, 2>(out, objects),
        3 => append_each::<N, 3>(out, objects),
        5 => append_each::<N, 5>(out, objects),
        8 => append_each::<N, 8>(out, objects),
        9 => append_each::<N, 9>(out, objects),
        10 => append_each::<N, 10>(out, objects),
        12 => append_each::<N, 12>(out, objects),
        _ => append_resized(out, IoaSize::Three, objects),
    }
}

/// Appends objects of so many octets whose addresses grow from two octets to three.
fn append_each<const N: usize, const CONTENT: usize>(out: &mut ArrayVec<u8, N>, objects: Objects)
    requires mode { objects.next_address ≡ None }
    requires two { ioa_len objects.ioa ≡ 2 }
    requires content { content_len objects.kind ≡ CONTENT }
    requires short { CONTENT ≤ 12 }
    requires room { array_vec_len out.old
        + length (spelled_infos 3 false (infos_left objects)) ≤ N }
    ensures { out.new.items ≡ out.old.items
        ++ spelled_infos 3 false (infos_left objects.entry) }
{
    // The objects are appended all at once, so that none looks at what `out` has so far.
    let mut row = [0; N];
    let mut end = 0;
    let mut octets = objects.octets;
    let mut left = objects.left;
    while left > 0 {
        put_address(&mut row, end, IoaSize::Two.read(octets));
        put(&mut row, end + 3, &octets[2..2 + CONTENT]);
        end += 3 + CONTENT;
        octets = &octets[2 + CONTENT..];
        left -= 1;
    }
    append(out, &row[..end]);
}

/// Puts an address of three octets behind the first octets of a row.
#[inline(always)]
fn put_address(row: &mut [u8], end: usize, address: u32)
    requires { end + 3 ≤ length row.old }
    ensures { take (end + 3) row.new ≡ take end row.old ++ little_bytes 3 address }
{
    let [low, middle, high, _] = address.to_le_bytes();
    put(row, end, &[low, middle, high]);
}

/// Puts octets behind the first octets of a row.
#[inline(always)]
fn put(row: &mut [u8], end: usize, octets: &[u8])
    requires { end + length octets.now ≤ length row.old }
    ensures { take (end + length octets.now) row.new ≡ take end row.old ++ octets.now }
{
    row[end..end + octets.len()].copy_from_slice(octets);
}

/// Appends one object whose address changes its size, as most reports have it.
#[inline(always)]
fn append_one<const N: usize>(out: &mut ArrayVec<u8, N>, size: IoaSize, objects: Objects)
    requires mode { objects.next_address ≡ None }
    requires one { objects.left ≡ 1 }
    requires room { array_vec_len out.old
        + length (spelled_infos (ioa_len size) false (infos_left objects)) ≤ N }
    ensures { out.new.items ≡ out.old.items
        ++ spelled_infos (ioa_len size) false (infos_left objects.entry) }
{
    let address = objects.ioa.octets();
    let both = address + content_octets(objects.kind);
    let octets = objects.octets;
    append_address(out, size, objects.ioa.read(octets));
    append_content(out, &octets[address..both]);
}

/// Appends octets that fit. Most often it is one, which is stored and not copied by a call.
#[inline(always)]
fn append_content<const N: usize>(out: &mut ArrayVec<u8, N>, octets: &[u8])
    requires { array_vec_len out.old + length octets.now ≤ N }
    ensures { out.new.items ≡ out.old.items ++ octets.now }
{
    if octets.len() == 1 {
        out.push(octets[0]);
    } else {
        append(out, octets);
    }
}

/// Appends objects whose addresses change their size.
fn append_resized<const N: usize>(out: &mut ArrayVec<u8, N>, size: IoaSize, objects: Objects)
    requires mode { objects.next_address ≡ None }
    requires room { array_vec_len out.old
        + length (spelled_infos (ioa_len size) false (infos_left objects)) ≤ N }
    ensures { out.new.items ≡ out.old.items
        ++ spelled_infos (ioa_len size) false (infos_left objects.entry) }
{
    let address = objects.ioa.octets();
    let both = address + content_octets(objects.kind);
    let mut octets = objects.octets;
    let mut left = objects.left;
    while left > 0 {
        append_address(out, size, objects.ioa.read(octets));
        append(out, &octets[address..both]);
        octets = &octets[both..];
        left -= 1;
    }
}

#[inline(always)]
fn append_address<const N: usize>(out: &mut ArrayVec<u8, N>, size: IoaSize, address: u32)
    requires { array_vec_len out.old + ioa_len size ≤ N }
    ensures { out.new.items ≡ out.old.items ++ little_bytes (ioa_len size) address }
{
    let [low, middle, high, _] = address.to_le_bytes();
    match size {
        IoaSize::One => append(out, &[low]),
        IoaSize::Two => append(out, &[low, middle]),
        IoaSize::Three => append(out, &[low, middle, high]),
    }
}

/// Appends octets that fit.
#[inline(always)]
pub(crate) fn append<const N: usize>(out: &mut ArrayVec<u8, N>, octets: &[u8])
    requires { array_vec_len out.old + length octets.now ≤ N }
    ensures { out.new.items ≡ out.old.items ++ octets.now }
{
    let Ok(()) = out.try_extend_from_slice(octets) else {
        unreachable!();
    };
}
