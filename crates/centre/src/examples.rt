//! Whole exchanges.
ghost use Rattle.std.specs.Prelude.{[], ◌∷◌, None, Some};
ghost use Rattle.apci.specs.declared.apdu.Apdu.TheVariants.{U};
ghost use Rattle.apci.specs.declared.apdu.Uf.TheVariants.{StartCon, StopCon};
ghost use Rattle.centre.specs.Examples.{EndsBy, information};
ghost use Rattle.centre.specs.declared.errand.Outcome.TheVariants.{Refused, Silent, Terminated};
ghost use Rattle.centre.specs.declared.reading.Manner.TheVariants.{Execute, Operate};

/// An execute that is confirmed and terminated, a select that the station refuses, and a request
/// to which nothing comes, each with all octets that go out (IEC 60870-5-104, 5).
pub fn exchanges_by_example()
    ensures executed { EndsBy Execute ((0, None) ∷ (5, Some (U StartCon))
        ∷ (9, information 0 1 (0x2D ∷ 1 ∷ 7 ∷ 0 ∷ 1 ∷ 0 ∷ 100 ∷ 0 ∷ 0 ∷ 1 ∷ []))
        ∷ (12, information 1 1 (0x2D ∷ 1 ∷ 10 ∷ 0 ∷ 1 ∷ 0 ∷ 100 ∷ 0 ∷ 0 ∷ 1 ∷ []))
        ∷ (14, Some (U StopCon)) ∷ [])
        ((0x68 ∷ 4 ∷ 0x07 ∷ 0 ∷ 0 ∷ 0 ∷ [])
        ∷ (0x68 ∷ 14 ∷ 0 ∷ 0 ∷ 0 ∷ 0 ∷ 0x2D ∷ 1 ∷ 6 ∷ 0 ∷ 1 ∷ 0 ∷ 100 ∷ 0 ∷ 0 ∷ 1 ∷ [])
        ∷ (0x68 ∷ 4 ∷ 0x01 ∷ 0 ∷ 4 ∷ 0 ∷ []) ∷ (0x68 ∷ 4 ∷ 0x13 ∷ 0 ∷ 0 ∷ 0 ∷ []) ∷ [])
        Terminated }
    ensures refused { EndsBy Operate ((0, None) ∷ (5, Some (U StartCon))
        ∷ (9, information 0 1 (0x2D ∷ 1 ∷ 0x47 ∷ 0 ∷ 1 ∷ 0 ∷ 100 ∷ 0 ∷ 0 ∷ 0x81 ∷ [])) ∷ [])
        ((0x68 ∷ 4 ∷ 0x07 ∷ 0 ∷ 0 ∷ 0 ∷ [])
        ∷ (0x68 ∷ 14 ∷ 0 ∷ 0 ∷ 0 ∷ 0 ∷ 0x2D ∷ 1 ∷ 6 ∷ 0 ∷ 1 ∷ 0 ∷ 100 ∷ 0 ∷ 0 ∷ 0x81 ∷ [])
        ∷ (0x68 ∷ 4 ∷ 0x01 ∷ 0 ∷ 2 ∷ 0 ∷ []) ∷ (0x68 ∷ 4 ∷ 0x13 ∷ 0 ∷ 0 ∷ 0 ∷ []) ∷ [])
        (Refused 0x47) }
    ensures silent { EndsBy Execute ((0, None) ∷ (5, Some (U StartCon)) ∷ (10004, None)
        ∷ (10005, None) ∷ [])
        ((0x68 ∷ 4 ∷ 0x07 ∷ 0 ∷ 0 ∷ 0 ∷ [])
        ∷ (0x68 ∷ 14 ∷ 0 ∷ 0 ∷ 0 ∷ 0 ∷ 0x2D ∷ 1 ∷ 6 ∷ 0 ∷ 1 ∷ 0 ∷ 100 ∷ 0 ∷ 0 ∷ 1 ∷ [])
        ∷ (0x68 ∷ 4 ∷ 0x43 ∷ 0 ∷ 0 ∷ 0 ∷ []) ∷ (0x68 ∷ 4 ∷ 0x13 ∷ 0 ∷ 0 ∷ 0 ∷ []) ∷ [])
        Silent }
{}
