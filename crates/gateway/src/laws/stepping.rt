//! What stands before what in a step, and what needs places.
ghost use Rattle.std.specs.Prelude.{◌≡◌, ◌∷◌, ◌++◌, ◌+◌, ◌<◌, ◌≤◌, ◌↔◌, ℕ, List, true};
ghost use Rattle.std.specs.Prelude.{length};
ghost use Rattle.apci.specs.declared.apdu.Apdu.{Apdu};
ghost use Rattle.asdu.specs.declared.sizes.Sizes.{Sizes};
ghost use Rattle.asdu.specs.Asdu.{AsduValue, IsAsdu};
ghost use Rattle.session.specs.declared.kinds.Close.TheVariants.{OwnAnswers};
ghost use Rattle.events.specs.Queue.{Queue, free_places};
ghost use Rattle.gateway.specs.Log.{Log, Went, Closed, latest};
ghost use Rattle.gateway.specs.Walls.{wall_on};
ghost use Rattle.gateway.specs.Frames.{acknowledged_reports};
ghost use Rattle.gateway.specs.Connections.{present};
ghost use Rattle.gateway.specs.Objects.{parts_of};
ghost use Rattle.gateway.specs.Polls.{has_room};
ghost use Rattle.gateway.specs.Reports.{Setup, parts_of_all, reports_in};
ghost use Rattle.gateway.specs.Course.{Course, here_of, room_in, with_frames, MayTake, TakesFrames};
ghost use Rattle.gateway.specs.Course.{HandsOver, SendsNext, Runs};
ghost use Rattle.gateway.specs.Traffic.{IsFaithful, IsAtRest};
ghost use Rattle.gateway.specs.Stepping.{HasTakenOne, IsAllOut};
ghost use Rattle.gateway.specs.Stepping.{unplaced};

use asdu::pieces_carry_the_report;

/// Each frame is answered before the next one of its step is taken, and before the step's request
/// goes to the line: what it has made due has gone out then, confirmations, data, S frames and
/// tests. So each frame of a piece is taken as it would be if it came alone.
pub fn each_frame_is_answered_before_the_next()
    ensures next { (p : Setup) (log : Log) (now : ℕ) (before after : Course) (frame : Apdu)
        (newer older : List Apdu) (t : TakesFrames p log now before after) →
        t.frames ≡ newer ++ frame ∷ older →
        HasTakenOne log (with_frames p older now (wall_on log now) before) →
        IsAllOut p log now (with_frames p older now (wall_on log now) before) }
    ensures request { (p : Setup) (log : Log) (octets : List ℕ) (before after : Course) →
        SendsNext p log octets before after → HasTakenOne log before →
        IsAllOut p log (latest log) before }
{}

/// An own answer that finds no place closes the connection, and nothing goes on behind it: no frame
/// is taken and none goes out, and no request does. If all places were found, no connection is
/// closed for want of one. (A place is found exactly if fewer than 16 answers wait:
/// `KeepsOwnAnswers`.)
pub fn own_answers_without_a_place_close()
    ensures closed { (p : Setup) (log : Log) (now : ℕ) →
        IsFaithful p (Went now (Closed OwnAnswers) ∷ log) →
        (c : Course) × Runs p log c × (0 < unplaced c.works.history) }
    ensures rested { (p : Setup) (log : Log) → IsAtRest p log → (present log).is_open ≡ true →
        (c : Course) × Runs p log c × (unplaced c.works.history ≡ 0) }
    ensures taken { (p : Setup) (log : Log) (now : ℕ) (frame : Apdu) (c : Course) →
        MayTake p log now frame c → unplaced c.works.history ≡ 0 }
    ensures handed { (p : Setup) (log : Log) (octets : List ℕ) (now : ℕ) (before after : Course) →
        HandsOver p log octets now before after → unplaced before.works.history ≡ 0 }
    ensures asked { (p : Setup) (log : Log) (octets : List ℕ) (before after : Course) →
        SendsNext p log octets before after → (present log).is_open ≡ true →
        unplaced before.works.history ≡ 0 }
{}

/// Leave to poll is given exactly while three places are free, and no report needs more. By the
/// log, each piece of a report taken has a place until a frame with objects is acknowledged for it.
pub fn polls_need_three_places()
    ensures queue { (q : Queue) → (has_room q ≡ true) ↔ (3 ≤ free_places q) }
    ensures log { (p : Setup) (log : Log) (c : Course) → (room_in p log c ≡ true)
        ↔ (parts_of_all p.sizes (reports_in p log) + 3
        ≤ p.places + acknowledged_reports (here_of c ∷ c.earlier)) }
    ensures enough { (s : Sizes) (v : AsduValue) (report : List ℕ) → IsAsdu s v report →
        length report ≤ 253 → parts_of s report ≤ 3 }
{
    pieces_carry_the_report();
}
