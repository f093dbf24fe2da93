//! Repeats come at once, and what a turn has first behind a held service.
ghost use Rattle.std.specs.Prelude.{◌≡◌, ◌<◌, ◌≤◌, ◌||◌, ℕ, suc, nat_le, Bool, true, List, length};
ghost use Rattle.std.specs.Prelude.{None};
ghost use Rattle.std.specs.List.{AllByRecursion};
ghost use Rattle.link.specs.Answers.{Service};
ghost use Rattle.link.specs.AtOnce.{RepeatsComeAtOnce, TurnsGoOn};
ghost use Rattle.link.specs.Exchanges.{Exchange};
ghost use Rattle.link.specs.Procedure.{LinkSettings, Next, link_after, has_repeats, is_up};
ghost use Rattle.link.specs.Repeats.{IsMissed};
ghost use Rattle.link.specs.Primary.{start};
ghost use Rattle.link.specs.Runs.{Call};

/// Whatever is called: if the latest request of the line is a service that had no answer in time,
/// and repeats of it are left, the next request is that one again, to the same station and with the
/// same frame count bit. No other station comes between, and no leave to poll is needed. (If the
/// station's link is given up meanwhile, no repeat is left.)
pub fn repeats_come_at_once()
    ensures { (settings : LinkSettings) (addresses : List ℕ) (calls : List Call) →
        RepeatsComeAtOnce (start settings addresses) None calls }
{}

/// An unanswered service is repeated as often as the settings say. It has a repeat left as long as
/// it was sent no more often than `retries` says, each time without an answer, and then none. Until
/// then its link stays up, and behind the last repeat only if `hold` says so. A service that is
/// held then has no repeat left however often it is sent, so it goes out once a turn.
pub fn repeats_are_as_many_as_set()
    ensures again { (settings : LinkSettings) (station : ℕ) (fcb : Bool) (service : Service)
        (sent : List Exchange) →
        AllByRecursion (IsMissed station fcb service) sent → 0 < length sent →
        length sent ≤ suc settings.retries →
        has_repeats settings (link_after settings station (Next fcb) sent)
        ≡ nat_le (length sent) settings.retries }
    ensures up { (settings : LinkSettings) (station : ℕ) (fcb : Bool) (service : Service)
        (sent : List Exchange) →
        AllByRecursion (IsMissed station fcb service) sent → 0 < length sent →
        length sent ≤ suc settings.retries →
        is_up (link_after settings station (Next fcb) sent)
        ≡ (settings.hold || nat_le (length sent) settings.retries) }
    ensures once { (settings : LinkSettings) (station : ℕ) (fcb : Bool) (service : Service)
        (sent : List Exchange) → settings.hold ≡ true →
        AllByRecursion (IsMissed station fcb service) sent → 0 < length sent →
        has_repeats settings (link_after settings station (Next fcb) sent)
        ≡ nat_le (length sent) settings.retries }
{}

/// Whatever is called: if a turn began with a held service whose repeats were used up, it was
/// answered, and the station's link is up, the next request goes to the same station. It is the
/// command that waits there, if DFC is clear, whether there is leave to poll or not. Else it is the
/// poll that ACD asks for, if there is leave. So a held service takes the place of none of the
/// turn's requests.
pub fn turns_go_on_behind_held_services()
    ensures { (settings : LinkSettings) (addresses : List ℕ) (calls : List Call) →
        TurnsGoOn (start settings addresses) None calls }
{}
