//! What the control centre has received, over closes and new connections.
ghost use Rattle.std.specs.Prelude.{◌≡◌, ◌⊎◌, ◌+◌, ◌%◌, ◌<◌, ◌≤◌, ℕ, List, [], ◌∷◌, ◌++◌, length};
ghost use Rattle.std.specs.Prelude.{take, true, false, None};
ghost use Rattle.std.specs.List.{flat_map};
ghost use Rattle.apci.specs.declared.apdu.Apdu.{Apdu};
ghost use Rattle.apci.specs.Reading.{IsMore};
ghost use Rattle.apci.specs.Spelling.{spelling, Fits};
ghost use Rattle.asdu.specs.declared.sizes.Sizes.{Sizes};
ghost use Rattle.session.specs.History as talk;
ghost use Rattle.session.specs.declared.kinds.Close.{Close};
ghost use Rattle.session.specs.declared.kinds.Close.TheVariants.{Grammar, SendNumber};
ghost use Rattle.session.specs.declared.kinds.Close.TheVariants.{ReceiveNumber, Stopped, Timeout};
ghost use Rattle.session.specs.declared.kinds.Close.TheVariants.{OwnAnswers, Replaced};
ghost use Rattle.session.specs.Rules.{KeepsRules};
ghost use Rattle.command.specs.History.{own_kept};
ghost use Rattle.gateway.specs.Agrees.{pieces_of};
ghost use Rattle.gateway.specs.Connections.{present, past, received_before};
ghost use Rattle.gateway.specs.Course.{Course, came_frames, here_of, Runs};
ghost use Rattle.gateway.specs.Frames.{Connection, Sent, acknowledged_count, acknowledged_reports};
ghost use Rattle.gateway.specs.Frames.{first_unacknowledged, objects_of_frames};
ghost use Rattle.gateway.specs.Frames.{monitor_objects_sent};
ghost use Rattle.gateway.specs.GoingOut.{answers_among};
ghost use Rattle.gateway.specs.Log.{Log, LogEntry, Input, Came, Went, Opened, LineOut};
ghost use Rattle.gateway.specs.Log.{Closed, TcpOut, Restarted, latest};
ghost use Rattle.gateway.specs.Entries.{number_of};
ghost use Rattle.gateway.specs.Objects.{pieces_of_report};
ghost use Rattle.gateway.specs.Reports.{Setup, taken_objects, taken_pieces, reports_in};
ghost use Rattle.gateway.specs.Reports.{parts_of_all};
ghost use Rattle.gateway.specs.Stepping.{unplaced};
ghost use Rattle.gateway.specs.Streams.{spelled};
ghost use Rattle.gateway.specs.Traffic.{IsFaithful, IsAtRest};
ghost use Rattle.delivery.specs.Closing.{IsClosedFor, HasDoneAll, IsOfStep, WaitsForNone};
ghost use Rattle.delivery.specs.Delivery.{Delivers};
ghost use Rattle.delivery.specs.Octets.{Ends, GoesOn, AreActions, is_opening, lacks_place};
ghost use Rattle.delivery.specs.Octets.{octets_in, octets_out};
ghost use Rattle.delivery.specs.Received.{AcknowledgeWhatCame, AreRuns, HaveCome, IsOneRun};
ghost use Rattle.delivery.specs.Received.{BearsCounts, IsLatestSaid};

use apci::spellings_cancel;
use gateway::own_answers_go_out;

/// What comes to the control centre is one run. Of what is handed to TCP on a connection a
/// beginning comes, wherever TCP is cut: the I frames that stand whole in it are numbered from 0,
/// none of them missing, and their monitor objects are a contiguous run of the objects taken, which
/// begins at the same place, the first that no connection before acknowledged. And if the control
/// centre acknowledges only what has come to it, what came on all connections of the log, put
/// together at these places, is a beginning of the objects taken. Over all closes and new
/// connections none is missing, none stands twice, and each that was acknowledged has come.
pub fn what_has_come_is_one_run()
    ensures each { (p : Setup) (log : Log) (came : List (List Sent)) (d : Delivers p log) →
        HaveCome (present log ∷ past log) came →
        AreRuns (taken_objects p log) (here_of d.course ∷ d.course.earlier) came }
    ensures one { (p : Setup) (log : Log) (came : List (List Sent)) (d : Delivers p log) →
        HaveCome (present log ∷ past log) came →
        AcknowledgeWhatCame (here_of d.course ∷ d.course.earlier) came →
        IsOneRun (taken_objects p log) (here_of d.course ∷ d.course.earlier) came }
{
    spellings_cancel();
}

/// A piece is acknowledged with the frame that bears it, and no sooner. Of the I frames of a
/// connection the first are acknowledged, as many as the N(R) that came say: that is the number
/// that the session's history has. Each of these frames that has monitor objects counts as one
/// piece, and its objects count. An own answer counts as none. So a piece has its place until then,
/// and the next connection begins right behind it. Before the first connection nothing is
/// acknowledged: it begins at the first object taken. What needs places are the pieces of the
/// reports taken, each one place. So each place comes back, and leave to poll
/// (`polls_need_three_places`) does too.
pub fn pieces_are_acknowledged_with_their_frames()
    ensures none { (acknowledged_reports [] ≡ 0) × (first_unacknowledged [] ≡ 0) }
    ensures numbers { (h : talk.History) →
        acknowledged_count (came_frames h) ≡ talk.acknowledged_count h }
    ensures pieces { (c : Connection) (before : List Connection) →
        acknowledged_reports (c ∷ before)
        ≡ length (pieces_of (take (acknowledged_count c.received_frames) c.sent_frames))
        + acknowledged_reports before }
    ensures objects { (c : Connection) (before : List Connection) →
        first_unacknowledged (c ∷ before)
        ≡ length (objects_of_frames (take (acknowledged_count c.received_frames) c.sent_frames))
        + first_unacknowledged before }
    ensures taken { (p : Setup) (log : Log) →
        taken_pieces p log ≡ flat_map (λ report. pieces_of_report p.sizes report.1)
        (reports_in p log) }
    ensures places { (sizes : Sizes) (reports : List (ℕ × List ℕ)) →
        parts_of_all sizes reports
        ≡ length (flat_map (λ report. pieces_of_report sizes report.1) reports) }
{}

/// Which octets are a connection's. It begins with its opening. It ends when TCP is cut, when the
/// gateway is started again, when it is closed with a cause from 1 to 6, or when the next one is
/// opened. All octets that came by TCP in between are its own, and all that were handed to TCP, in
/// their order, and no others. So none of one connection is taken for another's, however short it
/// was, and none is taken twice. The octets before the latest event are those that the connection
/// had when it came.
pub fn octets_are_those_of_their_connection()
    ensures begun { (now : ℕ) (since before : Log) → GoesOn since →
        present (since ++ Came now Opened ∷ before) ≡ record {
          is_open = true;
          sent = octets_out since;
          received = octets_in since;
          lacked_place = false;
        } }
    ensures ended { (now : ℕ) (entry : LogEntry) (since before : Log) → GoesOn since → Ends entry →
        past (entry ∷ (since ++ Came now Opened ∷ before)) ≡ record {
          is_open = true;
          sent = octets_out since;
          received = octets_in since;
          lacked_place = lacks_place entry;
        }
        ∷ past (Came now Opened ∷ before) }
    ensures closed { (entry : LogEntry) (since before : Log) → GoesOn since → Ends entry →
        is_opening entry ≡ false → ((present (since ++ entry ∷ before)).is_open ≡ false)
        × ((present (since ++ entry ∷ before)).received ≡ []) }
    ensures none { (since : Log) → GoesOn since →
        ((present since).is_open ≡ false) × ((present since).received ≡ []) × (past since ≡ []) }
    ensures before_event { (now : ℕ) (event : Input) (actions log : Log) → AreActions actions →
        received_before (actions ++ Came now event ∷ log) ≡ (present log).received }
{}

/// Octets go to TCP only while a connection is open, and each time they are one whole APDU. Each
/// frame bears the counts of its connection, in the octets that are handed over (IEC 60870-5-104,
/// 5.1). An I frame has as N(S) how many I frames went out before it, and as N(R) how many came. An
/// S frame has this N(R), too. So the control centre finds no gap, and what it sent is
/// acknowledged. The history of the connection has the frame as its octets have it, and the counts
/// are those of all that came before it: also of the frame that it answers.
pub fn frames_go_out_whole_and_with_their_counts()
    ensures whole { (p : Setup) (newer log : Log) (now : ℕ) (octets : List ℕ) →
        IsFaithful p (newer ++ Went now (TcpOut octets) ∷ log) →
        ((present log).is_open ≡ true)
        × (frame : Apdu) × Fits frame × (octets ≡ spelling frame) }
    ensures counts { (p : Setup) (log : Log) (now : ℕ) (frame : Apdu) (c : Course) →
        Runs p (Went now (TcpOut (spelling frame)) ∷ log) c →
        (before : Course) × Runs p log before × BearsCounts frame before }
    ensures said { (p : Setup) (log : Log) (now : ℕ) (frame : Apdu) (c : Course) →
        Runs p (Went now (TcpOut (spelling frame)) ∷ log) c → IsLatestSaid frame c.talk }
{
    spellings_cancel();
}

/// What is said on a connection keeps the rules of IEC 60870-5-104 (5.1 to 5.5) as `session` states
/// them, with the k, w, t1, t2 and t3 that are set: each frame that came was free of faults, each
/// frame that went out bore the counts, and each S or U frame was due. A request goes to the line
/// only once all that came is taken and no answer is late. So none goes before a close.
///
/// Once a step rests, and so whenever the next event comes, nothing is left to be done. Each whole
/// frame that came is taken, and nothing that closes the connection stands behind it. Neither a
/// confirmation, an S frame nor a test is due, and no answer is late. If data transfer runs and
/// fewer than k I frames are unacknowledged, each own answer that was kept has gone out. So has
/// each object that was taken from the line.
pub fn connections_keep_the_rules_of_the_session()
    ensures rules { (p : Setup) (log : Log) (c : Course) → Runs p log c →
        KeepsRules p.session c.talk }
    ensures asked { (p : Setup) (log : Log) (now : ℕ) (octets : List ℕ) (c : Course) →
        Runs p (Went now (LineOut octets) ∷ log) c → WaitsForNone p log c }
    ensures rested { (p : Setup) (log : Log) → IsAtRest p log →
        (c : Course) × Runs p log c × HasDoneAll p log c }
    ensures between { (p : Setup) (newer older : Log) (at : ℕ) (event : Input)
        (entry : LogEntry) → IsFaithful p (newer ++ Came at event ∷ entry ∷ older) →
        IsOfStep entry →
        (c : Course) × Runs p (entry ∷ older) c × HasDoneAll p (entry ∷ older) c }
{
    own_answers_go_out();
}

/// Each close has the cause that is told, and the connection was open. With cause 1 no APDU begins
/// behind the frames that were taken. With causes 2, 3 and 4 a frame stands there that has this
/// fault, by what came and went before it on the connection: its N(S) isn't the next, its N(R)
/// isn't valid, or it is an I frame while data transfer is stopped. With cause 5 an answer is late,
/// and with cause 6 an own answer found no place. Cause 7 is a replaced connection. With causes 1
/// to 5 each own answer found a place: if one lacks it, too, cause 6 is told. The numbers are those
/// that are told.
pub fn connections_are_closed_for_the_cause_that_is_told()
    ensures cause { (p : Setup) (newer log : Log) (now : ℕ) (cause : Close) →
        IsFaithful p (newer ++ Went now (Closed cause) ∷ log) → (cause ≡ Replaced → ⊥) →
        ((present log).is_open ≡ true)
        × (c : Course) × Runs p log c × IsClosedFor p log c cause }
    ensures placed { (p : Setup) (newer log : Log) (now : ℕ) (cause : Close) →
        IsFaithful p (newer ++ Went now (Closed cause) ∷ log) → (cause ≡ Replaced → ⊥) →
        (cause ≡ OwnAnswers → ⊥) →
        (c : Course) × Runs p log c × (unplaced c.works.history ≡ 0) }
    ensures both { (p : Setup) (newer log : Log) (now : ℕ) (cause : Close) →
        IsFaithful p (newer ++ Went now (Closed cause) ∷ log) → (cause ≡ Replaced → ⊥) →
        (cause ≡ OwnAnswers → ⊥) → (c : Course) × Runs p log c × IsClosedFor p log c cause
        × (unplaced c.works.history ≡ 0) }
    ensures told { (number_of Grammar ≡ 1) × (number_of SendNumber ≡ 2)
        × (number_of ReceiveNumber ≡ 3) × (number_of Stopped ≡ 4) × (number_of Timeout ≡ 5)
        × (number_of OwnAnswers ≡ 6) × (number_of Replaced ≡ 7) }
{}

/// When the next event comes nothing is left to be done on the connection, in the words of its
/// octets and its history alone (IEC 60870-5-104, 5.1 to 5.5). No confirmation, no S frame and no
/// test is due, and no answer is late. Behind the frames that were taken stands at most a part of
/// one. If data transfer runs and fewer than k I frames wait, all own answers and objects have gone
/// out. When a request goes to the line, all whole frames are taken, and no answer is late.
pub fn steps_leave_nothing_due()
    ensures between { (p : Setup) (newer older : Log) (at : ℕ) (event : Input)
        (entry : LogEntry) → IsFaithful p (newer ++ Came at event ∷ entry ∷ older) →
        ((moment : ℕ) → entry ≡ Came moment Restarted → ⊥) → let log : Log = entry ∷ older in
        (c : Course) × Runs p log c × (talk.confirmation_of c.talk ≡ None)
        × (talk.frame_due p.session.w p.session.t2 p.session.t3 (latest log) c.talk ≡ None)
        × (talk.has_timed_out p.session.t1 (latest log) c.talk ≡ false)
        × ((rest : List ℕ) × ((present log).received ≡ spelled (came_frames c.talk) ++ rest)
        × IsMore rest)
        × (talk.is_started c.talk ≡ true →
        length (talk.still_unacknowledged c.talk) < p.session.k →
        (own_kept c.works.history ≡ answers_among c.sent)
        × (first_unacknowledged c.earlier + length (monitor_objects_sent (here_of c))
        ≡ length (taken_objects p log))) }
    ensures asked { (p : Setup) (log : Log) (now : ℕ) (octets : List ℕ) (c : Course) →
        Runs p (Went now (LineOut octets) ∷ log) c →
        (talk.has_timed_out p.session.t1 (latest log) c.talk ≡ false)
        × (rest : List ℕ) × ((present log).received ≡ spelled (came_frames c.talk) ++ rest)
        × IsMore rest }
{
    own_answers_go_out();
}
