//! What became of an errand, in words and as an exit status.
ghost use Rattle.std.specs.Prelude.{◌≡◌};
ghost use Rattle.centre.specs.Endings.{outcome_words, status_of};

use crate::errand::{Loss, Outcome};
use session::Close;

impl Outcome {
    /// In words.
    pub fn words(self) -> &'static str
        ensures { result.now ≡ outcome_words self }
    {
        match self {
            Outcome::Confirmed => "confirmed",
            Outcome::Terminated => "confirmed and terminated",
            Outcome::Refused(cause) => match cause % 64 {
                44 => "refused: unknown type",
                45 => "refused: unknown cause",
                46 => "refused: unknown common address",
                47 => "refused: unknown object address",
                _ => "refused: negative confirmation",
            },
            Outcome::Silent => "no reply in time",
            Outcome::Lost(Loss::Gone) => "connection lost: the gateway ended it",
            Outcome::Lost(Loss::Untaken) => "connection lost: the gateway takes nothing",
            Outcome::Lost(Loss::Closed(why)) => match why {
                Close::Grammar => "connection lost: octets that begin no APDU",
                Close::SendNumber => "connection lost: a wrong N(S)",
                Close::ReceiveNumber => "connection lost: a wrong N(R)",
                Close::Stopped => "connection lost: an I frame while data transfer is stopped",
                Close::Timeout => "connection lost: no reply within t1",
                Close::OwnAnswers | Close::Replaced => "connection lost",
            },
        }
    }

    /// The exit status: 0 confirmed, 1 refused, 3 no reply or no connection.
    pub fn status(self) -> u8
        ensures { result ≡ status_of self }
    {
        match self {
            Outcome::Confirmed | Outcome::Terminated => 0,
            Outcome::Refused(_) => 1,
            Outcome::Silent | Outcome::Lost(_) => 3,
        }
    }
}
