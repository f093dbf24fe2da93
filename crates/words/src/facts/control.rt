//! The control octet of a line frame in words.
ghost use Rattle.std.specs.Prelude.{◌≡◌, IfOk, string_bytes};
ghost use Rattle.words.specs.LineFacts.{control_text};

use crate::facts::bits::flag;
use link::Control;
use std::alloc::{AllocError, Global};

/// The octet and its fields, by the direction that its PRM bit names.
pub(crate) fn control_text(alloc: Global, octet: u8) -> Result<String, AllocError>
    ensures { IfOk result (λ text. string_bytes text ≡ control_text octet) }
{
    let digits = hex::encode_upper(alloc, &[octet][..])?;
    match Control::from_octet(octet) {
        Control::Primary {
            fcb,
            fcv,
            function,
            ..
        } => {
            let (fcb, fcv, code) = (flag(fcb), flag(fcv), function.code());
            format!(in alloc; "c={digits} prm=1 fcb={fcb} fcv={fcv} function={code}")
        }
        Control::Secondary {
            acd,
            dfc,
            function,
            ..
        } => {
            let (acd, dfc, code) = (flag(acd), flag(dfc), function.code());
            format!(in alloc; "c={digits} prm=0 acd={acd} dfc={dfc} function={code}")
        }
    }
}
