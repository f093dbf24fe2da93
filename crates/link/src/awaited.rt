//! The request whose answer is awaited.
ghost use Rattle.std.specs.Prelude.{◌≡◌};
ghost use Rattle.link.specs.Holding.{awaited_with};

use crate::service::Asked;

/// A request, since when its answer is awaited (in milliseconds), whether what came can't be the
/// answer any more, and whether any octets came.
#[derive(Drop)]
pub struct Awaited {
    pub request: Asked,
    pub since: u64,
    pub deaf: bool,
    pub has_octets: bool,
}

impl Awaited {
    /// Octets come in its exchange.
    pub(crate) fn note(&mut self, octets: &[u8])
        ensures { self.new ≡ awaited_with octets.now self.old }
    {
        self.has_octets = self.has_octets || !octets.is_empty();
    }
}
