//! What the definitions mean.
ghost use Rattle.std.specs.Prelude.{◌≡◌, ◌≢◌, ◌<◌, ◌≤◌, ℕ, List, [], length, Some, None};
ghost use Rattle.status.specs.Judge.{judgement_of};
ghost use Rattle.status.specs.Law.{IsTrouble, IsWell};
ghost use Rattle.status.specs.TextPage.{empty, put};
ghost use Rattle.status.specs.Visits.{HasRequest, IsSent, IsVisit};
ghost use Rattle.status.specs.declared.judging.Judgement.TheVariants.{Critical, Ok};
ghost use Rattle.status.specs.declared.seat.Client.{Client};
ghost use Rattle.status.specs.declared.seat.Desk.{Desk};
ghost use Rattle.status.specs.declared.seat.VisitStage.TheVariants.{Receiving};
ghost use Rattle.status.specs.declared.snapshot.Snapshot.{Snapshot};

use crate::streams::Stream;

/// What is put on an empty page stands there whole if it finds room, and else nothing does: no page
/// goes out that breaks off.
pub fn a_text_stands_whole_or_not_at_all()
    ensures whole { (room : ℕ) (text : List ℕ) → length text ≤ room →
        (put text (empty room)).text ≡ Some text }
    ensures none { (room : ℕ) (text : List ℕ) → room < length text →
        (put text (empty room)).text ≡ None }
{}

/// What a monitor reads in a judgement, of every snapshot. It is critical exactly if the line has
/// been away for a minute, no control centre is connected, fewer than three places are free, the
/// state is to be kept and can't be, or none of the stations answers. All is well exactly if the
/// line is there, a control centre is connected, at most half of the queue is taken and three
/// places are free, each station that was asked answers, and the state is kept if it is to be.
pub fn judgements_mean_what_they_say()
    ensures critical { (s : Snapshot) → judgement_of s ≡ Critical → IsTrouble s }
    ensures trouble { (s : Snapshot) → IsTrouble s → judgement_of s ≡ Critical }
    ensures ok { (s : Snapshot) → judgement_of s ≡ Ok → IsWell s }
    ensures well { (s : Snapshot) → IsWell s → judgement_of s ≡ Ok }
{}

/// What a visitor is sent is the page that he asked for, whole and once, whatever others do: after
/// any turns at which he stayed, and whatever was shown at each. While his request comes, that is
/// nothing. Then it is a beginning of the answer to what he sent, of one moment at which he was
/// there, and all of it once he is let go.
pub fn visitors_are_sent_what_they_asked_for<S: Stream>()
    ensures nothing { (moments : List Snapshot) (g : Client S) (d : Desk) (octets : List ℕ) →
        IsVisit S.given S.taken S.calls moments g d → S.taken g.stream ≡ Some octets →
        g.stage ≡ Receiving → octets ≡ [] }
    ensures answer { (moments : List Snapshot) (g : Client S) (d : Desk) (octets : List ℕ) →
        IsVisit S.given S.taken S.calls moments g d → S.taken g.stream ≡ Some octets →
        g.stage ≢ Receiving → IsSent moments g.stage d octets }
    ensures request { (moments : List Snapshot) (g : Client S) (d : Desk) (octets : List ℕ) →
        IsVisit S.given S.taken S.calls moments g d → S.given g.stream ≡ Some octets →
        HasRequest g.stage octets d }
{}
