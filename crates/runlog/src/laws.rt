//! Laws of what is logged, over any calls.
ghost use Rattle.std.specs.Prelude.{◌≡◌, ℕ, ◌+◌, ◌^◌, ◌<◌, List, ◌∷◌};
ghost use Rattle.runlog.specs.Limits.{AreSecondsApart, logged_of};
ghost use Rattle.std.specs.Prelude.{true, Some, ◌++◌};
ghost use Rattle.runlog.specs.Gathering.{GatheringCall, added, line_of, lines_in};
ghost use Rattle.runlog.specs.Gathering.{left_in as gathered_after, added_in, count_of};
ghost use Rattle.runlog.specs.Limits.{is_free};
ghost use Rattle.runlog.specs.Logging.{logged};
ghost use Rattle.runlog.specs.declared.severity.Severity.TheVariants as severity;
ghost use Rattle.runlog.specs.declared.gathered.Gathered.{Gathered};
ghost use Rattle.runlog.specs.declared.note.Note.{Note};

/// Of what is gathered nothing is left out silently: each that came is logged, or counted by the
/// line of a later one, or is still to be logged. Once a second has passed since the line before,
/// the last that came is logged, with its own moment.
pub fn what_is_gathered_is_logged_or_counted()
    ensures apart { (g : Gathered) (calls : List GatheringCall) →
        AreSecondsApart g.limit.logged (lines_in g calls) }
    ensures counted { (g : Gathered) (calls : List GatheringCall) →
        count_of g + added_in calls < 2 ^ 64 →
        logged_of (lines_in g calls) + count_of (gathered_after g calls)
        ≡ count_of g + added_in calls }
    ensures last { (g : Gathered) (what : Note) (at now : ℕ) → is_free g.limit now ≡ true →
        (line_of now (added what at g)).1 ≡ Some (record {
          moment = at;
          note = what;
          left_out = (added what at g).limit.left_out;
        }) }
{}
