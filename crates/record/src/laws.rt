//! What holds of every record.
ghost use Rattle.std.specs.Prelude.{◌≡◌, ◌+◌, ◌++◌, ℕ, List, None, Option};
ghost use Rattle.std.specs.Prelude.{Some, true};
ghost use Rattle.std.specs.Prelude.{false};
ghost use Rattle.gateway.specs.Log.{Log};
ghost use Rattle.gateway.specs.Ports.{logged_by};
ghost use Rattle.gateway.specs.declared.ports.Next.{Next};
ghost use Rattle.record.specs.Law.{grows_by};
ghost use Rattle.record.specs.Recording.{Recording, Gives, Receives, Notes, Puts, added, passed};
ghost use Rattle.record.specs.Recording.{all_passed, behind, log_of, text_of};
ghost use Rattle.record.specs.Written.{log_in};
ghost use Rattle.traces.specs.Printed.{lines_of_log};

/// The text of a record grows by the line of what passed, and by nothing else. Once the record is
/// over it stays as it is, nothing more is given to the sheet, and what passes is missed. Until
/// then, when an event is passed on, the sheet has taken the text of all that passed before, and
/// the event's line. An action that goes out is written down, whichever it is, and one that doesn't
/// changes nothing. What a sheet says that it took and missed is the log of the port, behind the
/// lives before: what the text logs, and behind that what was missed. If it says neither, the log
/// of the port inside takes that place.
pub fn a_record_is_the_text_of_what_passed()
    ensures notes { (old new : Recording) (news : Log) → Notes old news new →
        grows_by new.is_over old (lines_of_log news) new }
    ensures gives { (old new : Recording) → Gives old new → text_of new ≡ text_of old }
    ensures taken { (old new : Recording) → Gives old new → new.is_over ≡ false →
        new.taken ≡ text_of old }
    ensures ends { (old new : Recording) (news : Log) → Notes old news new →
        old.is_over ≡ true → new ≡ passed news old }
    ensures over { (old new : Recording) → Gives old new → new.is_over ≡ true →
        new ≡ record old { is_over = true } }
    ensures receives { (old new : Recording) (next : Next) (buf : List ℕ) →
        Receives old next buf new →
        new.is_over ≡ false →
        new.taken ≡ added (text_of old) (lines_of_log (logged_by next buf)) }
    ensures puts { (old new : Recording) (news : Log) → Puts true old news new →
        grows_by new.is_over old (lines_of_log news) new }
    ensures stays { (old new : Recording) (news : Log) → Puts false old news new → new ≡ old }
    ensures log { (r : Recording) (taken : List ℕ) (missed : Log) (port : Option Log) →
        r.taken ≡ Some taken → r.missed ≡ Some missed →
        all_passed r port ≡ Some ((missed ++ log_in (taken ++ r.held)) ++ r.before) }
    ensures unsaid { (r : Recording) (port : Option Log) → log_of r ≡ None →
        all_passed r port ≡ behind r.before port }
{}
