//! In which order the actions of a step go out, and at which moments.
ghost use Rattle.std.specs.Prelude.{◌<◌};
ghost use Rattle.gateway.specs.Config.{Settings};
ghost use Rattle.gateway.specs.Log.{Log, latest};
ghost use Rattle.gateway.specs.Reports.{Setup};
ghost use Rattle.gateway.specs.Traffic.{IsFaithful};
ghost use Rattle.gateway.specs.Order.{KeepsOrder};
ghost use Rattle.gateway.specs.Course.{Course, Runs};
ghost use Rattle.gateway.specs.Moments.{IsGreatest, BearGreatest, IsSaidInSteps};
ghost use Rattle.gateway.specs.Setups.{setup_of};

/// A step puts out at most one request to the line and at most one close, and nothing goes to TCP
/// after a close. A gap, a close and a request go out before octets to TCP, but for those that a
/// frame of the event brings about: they go out behind it, before the next one is taken. The
/// premises, that neither w nor t3 is 0, hold of all settings: with a 0 an S frame or a test would
/// be due at once on a connection that has just replaced another.
pub fn steps_keep_their_order()
    // A law, and no field of `IsFaithful`: it follows from what a gap, a request, a close and a
    // frame need (docs/DECISIONS.md, "The order of actions in a step").
    ensures setups { (p : Setup) (log : Log) → 0 < p.session.w → 0 < p.session.t3 →
        IsFaithful p log → KeepsOrder log }
    ensures settings { (c : Settings) (log : Log) → IsFaithful (setup_of c) log → KeepsOrder log }
{}

/// Moments never fall: a step acts at the greatest moment, in milliseconds, that its events have
/// given so far, so an event whose moment goes back is taken at the greatest before it, and one
/// whose moment is past 999999999999999 at that. Each action bears this moment, and so does all
/// that is said on a connection: t1, t2 and t3 run by the moments of the log.
pub fn moments_never_fall()
    ensures step { (p : Setup) (log : Log) → IsFaithful p log → IsGreatest log (latest log) }
    ensures actions { (p : Setup) (log : Log) → IsFaithful p log → BearGreatest log }
    ensures talk { (p : Setup) (log : Log) (c : Course) → Runs p log c →
        IsSaidInSteps log c.talk }
{}
