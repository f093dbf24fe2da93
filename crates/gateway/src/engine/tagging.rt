//! The time tag of a station's answer to a command.
ghost use Rattle.std.specs.Prelude.{◌≡◌, ◌≤◌, true, false, length, IfSome, IfNone};
ghost use Rattle.std.specs.List.{AllByRecursion};
ghost use Rattle.asdu.specs.Sizes.{tcp};
ghost use Rattle.asdu.specs.Asdu.{AsduValue, IsAsdu};
ghost use Rattle.asdu.specs.Tagging.{tagged};
ghost use Rattle.events.specs.Queue.{octets_of};
ghost use Rattle.gateway.specs.Tags.{bears_tag, AreTagged};

use asdu::{Piece, Pieces, Sizes, is_plain_command, read, retag};
use elements::Cp56;

/// The same ASDU with a tag, if it can bear one.
fn tagged_piece(piece: &[u8], tag: &Cp56) -> Option<Piece>
    ensures bears { (u : AsduValue) → IsAsdu tcp u piece.now →
        IfSome result (λ other. bears_tag u ≡ true) }
    ensures tags { (u : AsduValue) → IsAsdu tcp u piece.now →
        IfSome result (λ other. IsAsdu tcp (tagged tag.now.0 u) other.items) }
    ensures none { (u : AsduValue) → IsAsdu tcp u piece.now →
        IfNone result (bears_tag u ≡ false) }
    ensures most { IfSome result (λ other. length other.items ≤ 249) }
{
    let Ok(asdu) = read(Sizes::TCP, piece) else {
        return None;
    };
    // An answer about several objects belongs to no single command. With SQ 1, too, one object is
    // one (docs/DECISIONS.md, "An answer with SQ 1 and one object").
    if !is_plain_command(asdu.kind) || asdu.number() != 1 {
        return None;
    }
    Some(retag(&asdu, tag))
}

/// The pieces of a station's answer get the tag, if there is one, of the command that it answers.
pub(super) fn tag_pieces(pieces: &mut Pieces, tag: Option<Cp56>)
    requires asdus { AllByRecursion (λ p. (u : AsduValue) × IsAsdu tcp u p.items) pieces.old.items }
    requires long { AllByRecursion (λ p.
        (9 ≤ length p.items) × (length p.items ≤ 249)) pieces.old.items }
    ensures tagged { AreTagged tag (octets_of pieces.old.items) (octets_of pieces.new.items) }
    ensures long { AllByRecursion (λ p.
        (9 ≤ length p.items) × (length p.items ≤ 249)) pieces.new.items }
{
    let Some(tag) = tag else {
        return;
    };
    if pieces.len() != 1 {
        return;
    }
    let Some(piece) = tagged_piece(&pieces[0], &tag) else {
        return;
    };
    pieces.clear();
    pieces.push(piece);
}
