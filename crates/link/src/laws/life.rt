//! What holds of a station's whole life.
ghost use Rattle.std.specs.Prelude.{◌≡◌, ◌<◌, ◌+◌, ◌^◌, ◌∷◌, ◌++◌, [], ℕ, Bool, List};
ghost use Rattle.std.specs.Prelude.{length, Option, Some, None};
ghost use Rattle.ft12.specs.Spelling.{IsLineFrame};
ghost use Rattle.link.specs.Answers.{Frame};
ghost use Rattle.link.specs.Requests.{reading_of};
ghost use Rattle.link.specs.Outstation.{OutstationRun, all_done};
ghost use Rattle.link.specs.Delivery.{reports, commands};
ghost use Rattle.link.specs.Secondary.{Secondary, outstation_of, received_reading};
ghost use Rattle.link.specs.Secondary.{ReceivesOctets};
ghost use Rattle.link.specs.Life.{Call, Receive, called, after, requests_received, turns_in};
ghost use Rattle.link.specs.Life.{given1, given2};
ghost use Rattle.link.specs.Life.{reported1, reported2, u64_saturate};

use ft12::no_spelling_begins_another;

/// Whatever it is called for, a station runs as the outstation that a primary counts on, and
/// receives each request to it. It gives the reports of each class in order, each once. Its address
/// and its size of addresses stay.
pub fn station_is_an_outstation()
    ensures run { (s : Secondary) (calls : List Call) →
        OutstationRun s.address (outstation_of s) (requests_received s.address calls)
        (turns_in s calls) (outstation_of (after s calls)) }
    ensures class1 { (s : Secondary) (calls : List Call) → s.given < 2 ^ 64 →
        given1 (requests_received s.address calls) (turns_in s calls) ++ (after s calls).class1
        ≡ s.class1 ++ reported1 calls }
    ensures class2 { (s : Secondary) (calls : List Call) → s.given < 2 ^ 64 →
        given2 (requests_received s.address calls) (turns_in s calls) ++ (after s calls).class2
        ≡ s.class2 ++ reported2 calls }
    ensures accepted { (s : Secondary) (calls : List Call) → s.given < 2 ^ 64 →
        s.accepted ++ commands (all_done (turns_in s calls)) ≡ (after s calls).accepted }
    ensures given { (s : Secondary) (calls : List Call) → s.given < 2 ^ 64 →
        (after s calls).given ≡ u64_saturate
        (s.given + length (reports (all_done (turns_in s calls)))) }
    ensures address { (s : Secondary) (calls : List Call) → (after s calls).address ≡ s.address }
    ensures size { (s : Secondary) (calls : List Call) → (after s calls).size ≡ s.size }
{}

/// A station hears each whole frame, however long it is, and whatever its address: octets that are
/// a frame are a call that receives it, with memory or without. Others change nothing, and have no
/// answer.
pub fn stations_hear_whole_frames()
    ensures whole { (s new : Secondary) (frame : Frame) (octets : List ℕ) (answer : Option Frame) →
        IsLineFrame s.size frame octets → ReceivesOctets s octets answer new →
        (granted : Bool) × (new ≡ called s (Receive granted (Some frame)))
        × (answer ≡ (received_reading granted s (reading_of s.address frame)).turn.answer) }
    ensures other { (s new : Secondary) (octets : List ℕ) (answer : Option Frame) →
        ((frame : Frame) → IsLineFrame s.size frame octets → ⊥) →
        ReceivesOctets s octets answer new → (answer ≡ None) × (new ≡ s) }
{
    no_spelling_begins_another();
}
