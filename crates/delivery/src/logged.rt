//! What stands in a log: events and actions as they were given, and the time that a request has.
ghost use Rattle.std.specs.Prelude.{◌≡◌, ◌<◌, ◌≤◌, ◌+◌, ℕ, [], ◌∷◌, Option, true};
ghost use Rattle.std.specs.Prelude.{false, IfSome};
ghost use Rattle.gateway.specs.Log.{Log};
ghost use Rattle.gateway.specs.Entries.{logged_of};
ghost use Rattle.gateway.specs.Ports.{input_of, output_of};
ghost use Rattle.gateway.specs.Reports.{Setup};
ghost use Rattle.gateway.specs.Runs.{UnlessDevice, faults_at, faults_unless};
ghost use Rattle.gateway.specs.Traffic.{HasRested};
ghost use Rattle.gateway.specs.declared.entries.StoredEntry.{StoredEntry};
ghost use Rattle.gateway.specs.declared.ports.Action.{Action};
ghost use Rattle.gateway.specs.declared.ports.Event.{Event};
ghost use Rattle.gateway.specs.declared.runs.End.{End};
ghost use Rattle.gateway.specs.declared.runs.End.TheVariants.{Finished, Turns, Device};
ghost use Rattle.delivery.specs.Meanings.{ComesAs, GoesAs, IsStored};

/// What the gateway is given stands in the log under its own name, and what it puts out goes out
/// under the name that the log has: octets for the line and octets for TCP, a close with its cause,
/// and a gap with its station and its session. So a port that does what an action says does what
/// the laws say of the log. What is stored of a log bears these names too, with its moments.
pub fn events_and_actions_stand_under_their_names()
    ensures events { (event : Event) → ComesAs event (input_of event) }
    ensures actions { (action : Action) → GoesAs action (output_of action) }
    ensures stored { (entry : StoredEntry) → IsStored entry (logged_of entry) }
{}

/// What a run promises of its log holds to the end, whether nothing comes any more or its turns are
/// used up. Only a device that failed ends it before, and that is told as one failure. The first
/// clause says it of one promise: that the latest step has done all that it could (`HasRested`).
/// Each other promise that a failed device ends is worded with the same `UnlessDevice`.
pub fn only_a_failed_device_ends_a_promise()
    ensures promised { (end : End) (p : Setup) (log : Option Log) → (end ≡ Device → ⊥) →
        UnlessDevice end (IfSome log (HasRested p)) → IfSome log (HasRested p) }
    ensures told { (faults_at Finished ≡ 0) × (faults_at Turns ≡ 0) × (faults_at Device ≡ 1)
        × (faults_unless true ≡ 0) × (faults_unless false ≡ 1) }
{}
