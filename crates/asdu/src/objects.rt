//! The objects of an ASDU, one after another.
ghost use Rattle.std.specs.Prelude.{◌≡◌, ◌+◌, ◌<◌, ◌≤◌, ◌^◌, length, take, drop};
ghost use Rattle.std.specs.Option.{ForSome, option_copied};
ghost use Rattle.elements.specs.Octets.{AreOctets};
ghost use Rattle.elements.specs.Types.{row};
ghost use Rattle.asdu.specs.Sizes.{ioa_len};
ghost use Rattle.asdu.specs.Rest.{address_len, address_after, following, next_address, rest_len};
ghost use Rattle.asdu.specs.Asdu.{content_len};
ghost use Rattle.asdu.specs.Fields.{tag_at};

use crate::IoaSize;
use elements::TypeId;

/// An information object, borrowed from its ASDU (IEC 60870-5-101, 7.2.5 and 7.2.6).
// A caller can ask one for the value that it shows (docs/DECISIONS.md, "Objects with named
// fields").
#[derive(Clone, Copy, Debug, PartialEq, Eq)]
pub struct Object<'a> {
    /// The type of its ASDU.
    pub kind: TypeId,
    /// The information object address.
    pub address: u32,
    /// The octets of its element, as many as its type has.
    pub element: &'a [u8],
    /// The seven octets of its time tag (CP56Time2a), if its type is tagged.
    pub tag: Option<&'a [u8]>,
    pub ghost sized: { length element.now ≡ (row kind).size },
    pub ghost tagged: { ForSome tag (λ octets. length octets.now ≡ 7) },
}

/// Goes over the objects of an ASDU, in order, without copying them.
#[derive(Clone, Copy, Debug)]
pub struct Objects<'a> {
    pub(crate) kind: TypeId,
    pub(crate) ioa: IoaSize,
    /// The next object's address, if the octets don't have it.
    pub(crate) next_address: Option<u32>,
    pub(crate) left: usize,
    pub(crate) octets: &'a [u8],
    ghost are_octets: { AreOctets octets.now },
    ghost enough: { rest_len kind (ioa_len ioa) next_address left ≤ length octets.now },
    ghost in_range: { ForSome next_address (λ a. a + left ≤ 2 ^ 24) },
}

impl<'a> Iterator for Objects<'a> {
    ghost use Rattle.std.specs.Iterator.{YieldsFirstBy, item_count};
    ghost use Rattle.asdu.specs.Objects.{info_of, infos_left};

    type Item = Object<'a>;

    ghost next_gives = { YieldsFirstBy info_of infos_left };

    ghost remaining = { item_count infos_left };

    fn next(&mut self) -> Option<Object<'a>> {
        if self.left == 0 {
            return None;
        }
        let (address, octets) = split_address(self.ioa, self.next_address, self.octets);
        let (element, tag, rest) = split_content(self.kind, octets);
        self.next_address = next_after(self.next_address);
        self.octets = rest;
        self.left -= 1;
        Some(Object {
            kind: self.kind,
            address,
            element,
            tag,
        })
    }
}

impl<'a> Objects<'a> {
    ghost use Rattle.std.specs.Prelude.{◌-◌, is_some};
    ghost use Rattle.asdu.specs.Objects.{infos_left};

    /// The first objects, and the others.
    pub(crate) fn split_at(self, number: usize) -> (Objects<'a>, Objects<'a>)
        requires { number ≤ self.left }
        ensures first { infos_left result.0 ≡ take number (infos_left self.entry) }
        ensures others { infos_left result.1 ≡ drop number (infos_left self.entry) }
        ensures first_left { result.0.left ≡ number }
        ensures others_left { result.1.left + number ≡ self.entry.left }
        ensures kinds { (result.0.kind ≡ self.entry.kind) × (result.1.kind ≡ self.entry.kind) }
        ensures modes { (is_some result.0.next_address ≡ is_some self.entry.next_address)
            × (is_some result.1.next_address ≡ is_some self.entry.next_address) }
    {
        let (next_address, octets) = self.place_of(number);
        let first = Objects {
            kind: self.kind,
            ioa: self.ioa,
            next_address: self.next_address,
            left: number,
            octets: self.octets,
        };
        let others = Objects {
            kind: self.kind,
            ioa: self.ioa,
            next_address,
            left: self.left - number,
            octets: &self.octets[octets..],
        };
        (first, others)
    }

    /// The octets of all that are left.
    pub(crate) fn text(self) -> &'a [u8]
        ensures { result.now ≡ take
            (rest_len self.entry.kind (ioa_len self.entry.ioa) self.entry.next_address
            self.entry.left)
            self.entry.octets.now }
    {
        let (_, octets) = self.place_of(self.left);
        &self.octets[..octets]
    }

    /// The address to count from after so many objects, and the place of what follows them.
    fn place_of(self, number: usize) -> (Option<u32>, usize)
        requires { number ≤ self.left }
        ensures address { result.0 ≡ address_after number self.entry.next_address }
        ensures place { result.1
            ≡ rest_len self.entry.kind (ioa_len self.entry.ioa) self.entry.next_address number }
        ensures enough { rest_len self.entry.kind (ioa_len self.entry.ioa) result.0
            (self.entry.left - number) + result.1 ≤ length self.entry.octets.now }
        ensures in_range { ForSome result.0 (λ a. a + (self.entry.left - number) ≤ 2 ^ 24) }
    {
        let content = content_octets(self.kind);
        match self.next_address {
            None => (None, number * (self.ioa.octets() + content)),
            Some(first) => (Some(first + number as u32), number * content),
        }
    }
}

/// The octets of an element and its tag.
pub(crate) fn content_octets(kind: TypeId) -> usize
    ensures value { result ≡ content_len kind }
    ensures low { 1 ≤ result }
    ensures high { result ≤ 12 }
{
    kind.size() + if kind.tagged() { 7 } else { 0 }
}

/// The first object's address, and the octets after it.
fn split_address(ioa: IoaSize, next: Option<u32>, octets: &[u8]) -> (u32, &[u8])
    requires { address_len (ioa_len ioa) next ≤ length octets.now }
    ensures address { result.0 ≡ next_address (ioa_len ioa) next octets.now }
    ensures rest { result.1.now ≡ drop (address_len (ioa_len ioa) next) octets.now }
{
    match next {
        None => (ioa.read(octets), &octets[ioa.octets()..]),
        Some(address) => (address, octets),
    }
}

/// The address after it, if addresses are counted.
fn next_after(next: Option<u32>) -> Option<u32>
    requires { ForSome next (λ a. a < 2 ^ 24) }
    ensures { result ≡ following next }
{
    next.map(|address| address + 1)
}

/// The element and the tag at the front, and the octets after them.
fn split_content<'a>(kind: TypeId, octets: &'a [u8]) -> (&'a [u8], Option<&'a [u8]>, &'a [u8])
    requires { content_len kind ≤ length octets.now }
    ensures element { result.0.now ≡ take (row kind).size octets.now }
    ensures sized { length result.0.now ≡ (row kind).size }
    ensures tag { option_copied result.1
        ≡ tag_at (row kind).tagged (drop (row kind).size octets.now) }
    ensures tagged { ForSome result.1 (λ tag. length tag.now ≡ 7) }
    ensures rest { result.2.now ≡ drop (content_len kind) octets.now }
{
    let (element, rest) = octets.split_at(kind.size());
    if kind.tagged() {
        let (tag, rest) = rest.split_at(7);
        (element, Some(tag), rest)
    } else {
        (element, None, rest)
    }
}
