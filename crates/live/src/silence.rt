//! How long requests have gone out to a stream that gives nothing.
ghost use Rattle.std.specs.Prelude.{◌≡◌};
ghost use Rattle.live.specs.Silence.{asked_at, begun_anew, borne_longer, counted_by, is_over};
ghost use Rattle.live.specs.Silence.{no_silence};

/// For so long requests go out to a stream that gives nothing before it is closed, in ms.
const PATIENCE_MS: u64 = 30_000;

/// The same at the most, if streams are closed again and again.
const LONGEST_PATIENCE_MS: u64 = 240_000;

/// Between two requests so much counts at the most, in ms.
// A gateway whose queue is full sends none, and a quiet line is then no fault of the stream.
const LONGEST_STEP_MS: u64 = 5000;

/// Since octets came from a stream, or since it was reached.
#[derive(Clone, Copy, PartialEq, Eq)]
pub(crate) struct Silence {
    /// When a request went out last, in ms.
    pub(crate) asked: Option<u64>,
    /// For so long requests have gone out, in ms.
    pub(crate) counted: u64,
    /// For so long it is borne, in ms.
    pub(crate) patience: u64,
}

impl Silence {
    /// Octets came.
    pub(crate) fn new() -> Silence
        ensures { result ≡ no_silence }
    {
        Silence {
            asked: None,
            counted: 0,
            patience: PATIENCE_MS,
        }
    }

    /// A request goes out at this moment.
    pub(crate) fn ask(&mut self, now: u64)
        ensures { self.new ≡ asked_at now self.old }
    {
        self.counted = counted_by(self.counted, self.asked, now);
        self.asked = Some(now);
    }

    /// It is borne no longer.
    pub(crate) fn is_over(&self) -> bool
        ensures { result ≡ is_over self.now }
    {
        self.patience <= self.counted
    }

    /// A stream was reached.
    pub(crate) fn begin(&mut self)
        ensures { self.new ≡ begun_anew self.old }
    {
        self.asked = None;
        self.counted = 0;
    }

    /// The stream was closed for it: the next one's is borne for twice as long.
    pub(crate) fn bear_longer(&mut self)
        ensures { self.new ≡ borne_longer self.old }
    {
        self.patience = self.patience.saturating_mul(2).min(LONGEST_PATIENCE_MS);
    }
}

/// What has counted once a request goes out at this moment.
fn counted_by(counted: u64, asked: Option<u64>, now: u64) -> u64
    ensures { result ≡ counted_by counted asked now }
{
    let step = match asked {
        None => 0,
        Some(last) => now.saturating_sub(last).min(LONGEST_STEP_MS),
    };
    counted.saturating_add(step).min(LONGEST_PATIENCE_MS)
}
