//! Laws of failures: when they are logged, and when it is logged that they are over.
ghost use Rattle.std.specs.Prelude.{◌≡◌, ◌⊎◌, ℕ, ◌+◌, ◌<◌, ◌≤◌, Some, None};
ghost use Rattle.live.specs.declared.ends.Presence.TheVariants as presence;
ghost use Rattle.live.specs.declared.watched.Failure.TheVariants as failure;
ghost use Rattle.live.specs.declared.watched.Notice.{Notice};
ghost use Rattle.runlog.specs.Trails.{at};
ghost use Rattle.runlog.specs.Limits.{IsSecondAfter};
ghost use Rattle.runlog.specs.Logging.{line_of_notice};
ghost use Rattle.runlog.specs.Watching.{Watching, failed};
ghost use Rattle.runlog.specs.declared.ends.LineLogged.TheVariants as logged;
ghost use Rattle.runlog.specs.declared.note.Note.TheVariants as note;
ghost use Rattle.runlog.specs.declared.note.Trouble.TheVariants.{StateUnusable};

/// What is logged when a failure has ended a run, at the moment of its latest event: that the line
/// is lost, if it was there, unless that was logged within the minute; or that the state can't be
/// kept. If nothing has failed, that is nothing. What there is to say of the state on the disk is
/// logged each time, as it is given.
pub fn failures_are_logged_at_the_end()
    ensures line { (w : Watching) → w.line.logged ≡ logged.There →
        IsSecondAfter w.line.away.logged w.moment → (failed (Some failure.Line) w).1
        ≡ Some (record {
          moment = w.moment;
          note = note.LineLost None;
          left_out = w.line.away.left_out;
        }) }
    ensures known { (w : Watching) (before : ℕ) → w.line.logged ≡ logged.Lost →
        w.line.away.logged ≡ Some before → w.moment < before + 60000 →
        (failed (Some failure.Line) w).1 ≡ None }
    ensures state { (w : Watching) → failed (Some failure.State) w
        ≡ (w, Some (at w.moment (note.Trouble StateUnusable))) }
    ensures none { (w : Watching) → failed None w ≡ (w, None) }
    ensures notice { (w : Watching) (what : Notice) → line_of_notice (Some what) w
        ≡ Some (at w.moment (note.State what)) }
    ensures no_notice { (w : Watching) → line_of_notice None w ≡ None }
{}
