//! ASDUs in other sizes by worked examples: literal octets beside literal octets.
ghost use Rattle.std.specs.Prelude.{◌≡◌, ◌∷◌, []};
ghost use Rattle.elements.specs.declared.types.TypeId.TheVariants.{MMeNa1, CScNa1};
ghost use Rattle.asdu.specs.Asdu.{spelled};
ghost use Rattle.asdu.specs.Examples.{small, middle};
ghost use Rattle.asdu.specs.Fields.{value_at};
ghost use Rattle.asdu.specs.Sizes.{tcp};
ghost use Rattle.asdu.specs.Writing.{carried};

/// What [`crate::write`] makes of ASDUs in other sizes (IEC 60870-5-101, 7.1): all numbers keep
/// their values, the cause octet its test bit and P/N. An originator is left out if causes have one
/// octet, and is 0 if the ASDU had none.
pub fn resized_asdus_by_example()
    // a negative confirmation, as a test: C7, originator 9, common address 1, object 10
    ensures smaller { spelled small (carried small (value_at tcp CScNa1
        (0x2D ∷ 0x01 ∷ 0xC7 ∷ 0x09 ∷ 0x01 ∷ 0x00 ∷ 0x0A ∷ 0x00 ∷ 0x00 ∷ 0x81 ∷ [])))
        ≡ 0x2D ∷ 0x01 ∷ 0xC7 ∷ 0x01 ∷ 0x0A ∷ 0x81 ∷ [] }
    ensures larger { spelled tcp (carried tcp (value_at small CScNa1
        (0x2D ∷ 0x01 ∷ 0xC7 ∷ 0x01 ∷ 0x0A ∷ 0x81 ∷ [])))
        ≡ 0x2D ∷ 0x01 ∷ 0xC7 ∷ 0x00 ∷ 0x01 ∷ 0x00 ∷ 0x0A ∷ 0x00 ∷ 0x00 ∷ 0x81 ∷ [] }
    // two normalised values with SQ 1 from address 258 on
    ensures sequence { spelled tcp (carried tcp (value_at middle MMeNa1
        (0x09 ∷ 0x82 ∷ 0x03 ∷ 0x34 ∷ 0x12 ∷ 0x02 ∷ 0x01 ∷ 0x00 ∷ 0x80 ∷ 0x00 ∷ 0xFF ∷ 0xFF ∷ 0x80
        ∷ [])))
        ≡ 0x09 ∷ 0x82 ∷ 0x03 ∷ 0x00 ∷ 0x34 ∷ 0x12 ∷ 0x02 ∷ 0x01 ∷ 0x00 ∷ 0x00 ∷ 0x80 ∷ 0x00 ∷ 0xFF
        ∷ 0xFF ∷ 0x80 ∷ [] }
    ensures originator { spelled tcp (carried tcp (value_at tcp CScNa1
        (0x2D ∷ 0x01 ∷ 0x06 ∷ 0x09 ∷ 0x01 ∷ 0x00 ∷ 0x0A ∷ 0x00 ∷ 0x00 ∷ 0x81 ∷ [])))
        ≡ 0x2D ∷ 0x01 ∷ 0x06 ∷ 0x09 ∷ 0x01 ∷ 0x00 ∷ 0x0A ∷ 0x00 ∷ 0x00 ∷ 0x81 ∷ [] }
{}
