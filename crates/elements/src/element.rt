//! What an information element is.
ghost use Rattle.std.specs.Prelude.{◌≡◌, ℕ, List, length};
ghost use Rattle.elements.specs.Octets.{AreOctets};

/// An information element (IEC 60870-5-101, 7.2.6), of `SIZE` octets. Each value has one spelling,
/// and all octets are the spelling of a value: every bit is carried, reserved ones too.
pub trait Element {
    /// The octets that stand for a value.
    ghost octets_of: { Self → List ℕ };

    /// The value that octets stand for.
    ghost value_of: { List ℕ → Self };

    /// What holds of the values of the type: their numbers fit.
    ghost IsValue: { Self → Type 0 };

    /// `SIZE`, as contracts see it.
    ghost SIZE: { ℕ };

    /// How many octets the element has.
    const SIZE: usize;

    /// Writes the octets of the element over `out`, which has exactly `SIZE`.
    fn put(&self, out: &mut [u8])
        requires { length out.old ≡ SIZE }
        ensures octets { out.new ≡ octets_of self.now }
        ensures known { IsValue self.now };

    /// Reads the element from exactly `SIZE` octets.
    fn get(octets: &[u8]) -> Self
        requires { length octets.now ≡ SIZE }
        ensures value { result ≡ value_of octets.now }
        ensures known { IsValue result };

    /// Reading what was written gives the value.
    ghost reads_back: { (v : Self) → IsValue v → value_of (octets_of v) ≡ v };

    /// Writing what was read gives the octets.
    ghost writes_back: { (xs : List ℕ) → length xs ≡ SIZE → AreOctets xs →
        octets_of (value_of xs) ≡ xs };
}
