//! In which sizes frames are read.
ghost use Rattle.std.specs.Prelude.{◌≡◌, ◌++◌, ℕ, Bool, List, Option, Ok, Err};
ghost use Rattle.std.specs.Io.KnownBytes.{Appends};
ghost use Rattle.record.specs.Texts.{IsWhole, IsWrongRecord};
ghost use Rattle.gateway.specs.Config.{Settings};
ghost use Rattle.gateway.specs.Log.{Log};
ghost use Rattle.words.specs.Ladders.{IsLadder};
ghost use Rattle.settings.specs.Settings.{IsReadOfText};
ghost use Rattle.telegate.specs.Answers.{IsReplayed, IsSimulatedBy};
ghost use Rattle.telegate.specs.Captures.{IsCapturedBy};
ghost use Rattle.telegate.specs.declared.closing.Closing.{Closing};
ghost use Rattle.telegate.specs.declared.fault.Fault.TheVariants as fault;
ghost use Rattle.telegate.specs.declared.manner.Manner.TheVariants.{Words};

/// Frames are read in the sizes of the very settings that are named. A run in words has its line's
/// addresses in the size of `line.link`, and its ASDUs in those of the line; the words of its log
/// are printed first. A capture has the line's addresses in the size of `line.link`, also if the
/// record has a wrong line.
pub fn frames_are_read_in_the_sizes_of_the_settings()
    ensures replays { (config text : List ℕ) (is_coloured : Bool) (closing : Closing)
        (old new : Option (List ℕ)) →
        IsReplayed config (Words is_coloured) (λ octets. octets ≡ text) closing old new (Ok tt) →
        (c : Settings) × IsReadOfText config (Ok c) × (log : Log) × (words : List ℕ)
        × (rest : List ℕ) × IsLadder (record {
          sizes = record { link = c.line.link; asdu = c.line.sizes };
          is_coloured = is_coloured;
        }) log words × Appends old new (words ++ rest) }
    ensures sims { (config script : List ℕ) (is_coloured : Bool) (old new : Option (List ℕ)) →
        IsSimulatedBy (Words is_coloured) config script old new (Ok tt) →
        (c : Settings) × IsReadOfText config (Ok c) × (log : Log) × (words : List ℕ)
        × (rest : List ℕ) × IsLadder (record {
          sizes = record { link = c.line.link; asdu = c.line.sizes };
          is_coloured = is_coloured;
        }) log words × Appends old new (words ++ rest) }
    ensures captures { (config text : List ℕ) (old new : Option (List ℕ)) →
        IsCapturedBy config (λ octets. octets ≡ text) old new (Ok tt) →
        (c : Settings) × IsReadOfText config (Ok c)
        × IsWhole c.line.link (λ octets. octets ≡ text) old new }
    ensures wrong { (config text : List ℕ) (old new : Option (List ℕ)) (line : ℕ) →
        IsCapturedBy config (λ octets. octets ≡ text) old new (Err (fault.Record line)) →
        (c : Settings) × IsReadOfText config (Ok c)
        × IsWrongRecord c.line.link (λ octets. octets ≡ text) line old new }
{}
