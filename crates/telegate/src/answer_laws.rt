//! What a command's answer and its exit status say.
ghost use Rattle.std.specs.Prelude.{◌≡◌, ◌≢◌, ◌⊎◌, ◌↔◌, ℕ, Bool, List, [], ◌∷◌, All, Contains};
ghost use Rattle.std.specs.Prelude.{◌++◌, Option, Some, None, Result, Ok, Err, codes};
ghost use Rattle.std.specs.Io.KnownBytes.{Appends};
ghost use Rattle.std.specs.Borrow.{Bor};
ghost use Rattle.std.specs.List.{AllByRecursion};
ghost use Rattle.clap.specs.Words.{Text};
ghost use Rattle.clap.specs.declared.error.kind.ErrorKind.{ErrorKind};
ghost use Rattle.clap.specs.declared.error.kind.ErrorKind.TheVariants as kind;
ghost use Rattle.std.specs.declared.io.ErrorKind.{ErrorKind as Cause};
ghost use Rattle.record.specs.declared.capture.whole.CaptureFault.{CaptureFault};
ghost use Rattle.record.specs.declared.capture.whole.CaptureFault.TheVariants as captures;
ghost use Rattle.record.specs.declared.audit.RecordFault.{RecordFault};
ghost use Rattle.record.specs.declared.audit.RecordFault.TheVariants as records;
ghost use Rattle.settings.specs.declared.fault.ConfigFault.{ConfigFault};
ghost use Rattle.settings.specs.declared.site.fault.SiteFault.{SiteFault};
ghost use Rattle.traces.specs.Trace.{lines_of};
ghost use Rattle.telegate.specs.Audits.{fault_of_lem};
ghost use Rattle.telegate.specs.Captures.{fault_of_capture};
ghost use Rattle.telegate.specs.CommandLine.{text_of};
ghost use Rattle.telegate.specs.Checks.{IsCheckDone, IsCheckFault, IsGoodFor};
ghost use Rattle.telegate.specs.Faults.{status_of_end};
ghost use Rattle.telegate.specs.Piping.{HasPiped, IsFaultyLine, IsGoodLine};
ghost use Rattle.telegate.specs.Shell.{IsNotRead, files_of, status_of_kind};
ghost use Rattle.telegate.specs.declared.command_line.CommandRequest.TheVariants.{Check, Run};
ghost use Rattle.telegate.specs.declared.check.Checking.{Checking};
ghost use Rattle.telegate.specs.declared.fault.Fault.{Fault};
ghost use Rattle.telegate.specs.declared.fault.Fault.TheVariants as fault;
ghost use Rattle.telegate.specs.declared.piping.Piped.{Piped};
ghost use Rattle.telegate.specs.declared.run_words.RunWords.{RunWords};

/// The exit status says how a command ended. It is 0 exactly if the command is done. It is 4
/// exactly if memory was refused, and 2 exactly if a word is wrong. It is 3 if a file or a device
/// failed, and 1 if the content is wrong. Words that ask for no command end with 0 exactly if they
/// ask for help or the version, with 4 by want of memory, and else with 2.
pub fn exit_statuses_say_how_a_command_ended()
    ensures done { (end : Result (Unit {0}) Fault) → (status_of_end end ≡ 0) ↔ (end ≡ Ok tt) }
    ensures memory { (why : Fault) → (status_of_end (Err why) ≡ 4) ↔ (why ≡ fault.NoMemory) }
    ensures words { (why : Fault) → (status_of_end (Err why) ≡ 2)
        ↔ (why ≡ fault.Address) ⊎ (why ≡ fault.NoState) }
    ensures devices { (cause : Cause) → All (λ why. status_of_end (Err why) ≡ 3)
        (fault.StateInUse ∷ fault.StateUnusable cause ∷ fault.EndUnusable ∷ fault.Device
        ∷ fault.Unread ∷ []) }
    ensures content { (config : ConfigFault) (site : SiteFault) (line : ℕ) →
        All (λ why. status_of_end (Err why) ≡ 1) (fault.Config config ∷ fault.Site site
        ∷ fault.Trace line ∷ fault.Script line ∷ fault.Record line ∷ fault.Unfit line
        ∷ fault.Sizes ∷ fault.Octets ∷ []) }
    ensures help { (why : ErrorKind) → (status_of_kind why ≡ 0)
        ↔ (why ≡ kind.DisplayHelp) ⊎ (why ≡ kind.DisplayVersion) }
    ensures refused { (why : ErrorKind) → (status_of_kind why ≡ 4) ↔ (why ≡ kind.OutOfMemory) }
    ensures usage { (why : ErrorKind) → why ≢ kind.DisplayHelp → why ≢ kind.DisplayVersion →
        why ≢ kind.OutOfMemory → status_of_kind why ≡ 2 }
{}

/// A command over a record stops for the reason that its reader or its writer names. A wrong line
/// keeps its number. A record that can't be read on isn't a file that can't be written, nor want of
/// memory.
pub fn a_stop_over_a_record_keeps_its_reason()
    ensures audits { (why : RecordFault) (line : ℕ) →
        ((fault_of_lem why ≡ fault.Record line) ↔ (why ≡ records.Line line))
        × ((fault_of_lem why ≡ fault.Unfit line) ↔ (why ≡ records.Unfit line))
        × ((fault_of_lem why ≡ fault.Unread) ↔ (why ≡ records.Unread))
        × ((fault_of_lem why ≡ fault.NoMemory) ↔ (why ≡ records.NoMemory)) }
    ensures captures { (why : CaptureFault) (line : ℕ) →
        ((fault_of_capture why ≡ fault.Record line) ↔ (why ≡ captures.Line line))
        × ((fault_of_capture why ≡ fault.Unread) ↔ (why ≡ captures.Unread))
        × ((fault_of_capture why ≡ fault.Device) ↔ (why ≡ captures.Unwritten))
        × ((fault_of_capture why ≡ fault.NoMemory) ↔ (why ≡ captures.NoMemory)) }
{}

/// If a site's file is named, it is read first. So a `check` that ends with 3 before it has judged
/// anything couldn't read that file, and a `run` that one, or its settings.
pub fn the_file_of_a_site_is_read_first()
    ensures site { (files : Text → Option (List ℕ)) (config site : Bor Text)
        (live explain : Bool) →
        IsNotRead (λ name octets. files name ≡ Some octets) (λ name. files name ≡ None)
        (files_of (Check config (Some site) live explain)) 3 → files site.now ≡ None }
    ensures alone { (files : Text → Option (List ℕ)) (config : Bor Text) (live explain : Bool) →
        IsNotRead (λ name octets. files name ≡ Some octets) (λ name. files name ≡ None)
        (files_of (Check config None live explain)) 3 → files config.now ≡ None }
    ensures run { (files : Text → Option (List ℕ)) (config : Bor Text) (words : RunWords)
        (site : Text) → text_of words.site ≡ Some site →
        IsNotRead (λ name octets. files name ≡ Some octets) (λ name. files name ≡ None)
        (files_of (Run config words)) 3 → (files site ≡ None) ⊎ (files config.now ≡ None) }
{}

/// Frames that come by a pipe end with 0 only if each line is octets of frames as they should be.
/// They end with 1 only if some line isn't.
pub fn a_pipe_ends_as_its_lines_are()
    ensures good { (piped : Piped) (in_words : Bool) (text : List ℕ) (old new : Option (List ℕ)) →
        HasPiped piped in_words (λ octets. octets ≡ text) old new 0 →
        AllByRecursion (IsGoodLine piped in_words) (lines_of text) }
    ensures faulty { (piped : Piped) (in_words : Bool) (text : List ℕ)
        (old new : Option (List ℕ)) →
        HasPiped piped in_words (λ octets. octets ≡ text) old new 1 →
        (line : List ℕ) × Contains (lines_of text) line × IsFaultyLine piped in_words line }
{}

/// A check ends with 0 only for settings without a fault, and has printed `ok` then. It ends with 1
/// only for settings that are refused by their first fault.
pub fn a_check_ends_as_the_settings_are()
    ensures good { (config : List ℕ) (how : Checking) (old new : Option (List ℕ)) →
        IsCheckDone config how old new 0 →
        IsGoodFor how.live config × Appends old new (codes "ok" ++ 10 ∷ []) }
    ensures wrong { (config : List ℕ) (how : Checking) (old new : Option (List ℕ)) →
        IsCheckDone config how old new 1 → (why : Fault) × IsCheckFault how.live config why }
{}
