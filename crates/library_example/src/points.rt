//! Information objects as points: what a person reads of them.
ghost use Rattle.std.specs.Prelude.{◌≡◌, IfOk, length, map};
ghost use Rattle.std.specs.Option.{ForSome, option_copied};
ghost use Rattle.elements.specs.Types.{row};
ghost use Rattle.asdu.specs.Asdu.{IsAsdu};
ghost use Rattle.asdu.specs.Objects.{info_of};
ghost use Rattle.asdu.specs.Reading.{value_of};
ghost use Rattle.library_example.specs.Points.{made_by, point_of};

use asdu::{Asdu, Object};
use elements::{Cp56, TypeId, Verdict, judge};
use std::alloc::{AllocError, Global};

/// What an information object shows.
#[derive(Clone, Copy, PartialEq, Eq)]
pub struct Point {
    /// The information object address.
    pub address: u32,
    /// The value, by its type: a state, a position, or a number.
    pub value: i64,
    /// The verdict on its time tag, if it has one.
    pub made: Option<Verdict>,
}

/// A point for each information object of an ASDU that `asdu::read` has read, in order.
pub fn points_of(alloc: Global, asdu: &Asdu<'_>) -> Result<Vec<Point>, AllocError>
    requires { IsAsdu asdu.now.sizes (value_of asdu.now) asdu.now.octets.now }
    ensures { IfOk result (λ points.
        points.items ≡ map (point_of asdu.now.kind) (value_of asdu.now).infos) }
{
    let mut points = Vec::new(alloc);
    for object in asdu.objects() {
        points.push(point_of(asdu.kind, &object))?;
    }
    Ok(points)
}

/// What an object of this type shows.
fn point_of(kind: TypeId, object: &Object<'_>) -> Point
    requires { length object.now.element.now ≡ (row kind).size }
    ensures { result ≡ point_of kind (info_of object.now) }
{
    Point {
        address: object.address,
        value: kind.value(object.element),
        made: made_by(object.tag),
    }
}

/// The verdict on the seven octets of a time tag, if there are any.
fn made_by(tag: Option<&[u8]>) -> Option<Verdict>
    requires { ForSome tag (λ octets. length octets.now ≡ 7) }
    ensures { result ≡ made_by (option_copied tag.entry) }
{
    let octets = tag?;
    Some(judge(&Cp56(<[u8; 7]>::try_from(octets).unwrap())))
}
