//! What stations answer to commands.
ghost use Rattle.std.specs.Prelude.{◌≡◌};
ghost use Rattle.command.specs.Mirrors.{is_con as con, element_of as element_in};

use crate::content::CommandElement;

/// Whether it is the cause octet of an activation con with this P/N.
pub(crate) fn is_con(negated: bool, cause: u8) -> bool
    ensures { result ≡ con negated cause }
{
    let is_negative = cause & 0x7F >= 64;
    cause & 0x3F == 7 && (if is_negative { negated } else { !negated })
}

/// The element that the octets hold.
pub(crate) fn element_of(octets: &[u8]) -> Option<CommandElement>
    ensures { result ≡ element_in octets.now }
{
    match octets {
        [octet] => Some(CommandElement::Octet(*octet)),
        [low, high, qos] => Some(CommandElement::SetPoint(*low, *high, *qos)),
        _ => None,
    }
}
