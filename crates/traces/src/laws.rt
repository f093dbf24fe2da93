//! What holds of every text of a log.
ghost use Rattle.std.specs.List.{All, AllByRecursion, slice_split};
ghost use Rattle.std.specs.Prelude.{◌≡◌, ◌<◌, ◌≤◌, List, [], ◌∷◌, ◌++◌, ℕ, ◌+◌, ◌*◌, ◌-◌, ◌%◌};
ghost use Rattle.std.specs.Prelude.{◌==◌, Some, Ok, Err, Vec, length, map};
ghost use Rattle.std.specs.Prelude.{reverse};
ghost use Rattle.std.specs.declared.alloc.Global.{Global};
ghost use Rattle.gateway.specs.Entries.{event_of};
ghost use Rattle.gateway.specs.Log.{Log, LogEntry, Came};
ghost use Rattle.gateway.specs.Log.{Ticked};
ghost use Rattle.gateway.specs.declared.entries.Entry.{Entry};
ghost use Rattle.traces.specs.Actions.{lines_of_actions};
ghost use Rattle.traces.specs.Event.{Event};
ghost use Rattle.traces.specs.Printed.{HasNoMark, IsPrintable, FitsTrace, IsFirstOf, line_of_entry};
ghost use Rattle.traces.specs.Printed.{lines_of_log, entries_in, before_those};
ghost use Rattle.traces.specs.Printed.{actions_of};
ghost use Rattle.traces.specs.LineByLine.{AreSaid, IsFirstWrong};
ghost use Rattle.traces.specs.Progress.{came, events_in, script_in, IsJudgement};
ghost use Rattle.traces.specs.Trace.{IsTraceOf};
ghost use Rattle.traces.specs.declared.reading.TextFault.TheVariants.{Line};

/// What is printed reads back: the line of an event or an action, with its line feed, is read as
/// that very entry, whatever text follows it; so a log is read back from its lines, and so are its
/// actions from the lines of the actions alone. The line of an event is one of a trace. No line has
/// a `!`, the mark of one that was cut short, and none an octet 0.
pub fn printed_lines_read_back()
    ensures first { (entry : LogEntry) (text : List ℕ) → IsPrintable entry →
        entries_in (line_of_entry entry ++ text) ≡ before_those (Some entry) (entries_in text) }
    ensures log { (log : Log) → AllByRecursion IsPrintable log →
        entries_in (lines_of_log log) ≡ Some (reverse log) }
    ensures actions { (log : Log) → AllByRecursion IsPrintable log →
        entries_in (lines_of_actions log) ≡ Some (actions_of log) }
    ensures events { (event : Event) (text : List ℕ) → FitsTrace event →
        IsFirstOf event (line_of_entry (came event) ++ text) text }
    ensures marks { (log : Log) → AllByRecursion IsPrintable log → HasNoMark (lines_of_log log) }
    ensures zeros { (log : Log) → AllByRecursion IsPrintable log →
        All (λ b. 0 < b) (lines_of_log log) }
{}

/// A text is read line by line: each line gives the event that it says, in its order, and an empty
/// line or a comment gives none. A text with any other line is refused with the number of the first
/// one. So it is when a text is read part by part, and the lines of each are counted on. A run
/// begins with a tick at moment 0.
pub fn texts_are_read_line_by_line()
    ensures entries { (text : List ℕ) (entries : Vec Entry Global) → IsTraceOf text (Ok entries) →
        AreSaid (slice_split (λ b. b == 10) text) (map event_of entries.items) }
    ensures faults { (text : List ℕ) (number : ℕ) → IsTraceOf text (Err (Line number)) →
        IsFirstWrong 1 (slice_split (λ b. b == 10) text) number }
    ensures right { (first next : ℕ) (text : List ℕ) → IsJudgement first text (Ok next) →
        let lines = slice_split (λ b. b == 10) text in
        (next ≡ first + length lines) × AreSaid lines (events_in lines) }
    ensures wrong { (first number : ℕ) (text : List ℕ) →
        IsJudgement first text (Err (Line number)) →
        IsFirstWrong first (slice_split (λ b. b == 10) text) number }
    ensures run { (text : List ℕ) →
        script_in text ≡ Came 0 Ticked ∷ events_in (slice_split (λ b. b == 10) text) }
{}
