//! Laws of what is logged of each station: of its commands, its reports and its mishaps.
ghost use Rattle.std.specs.Prelude.{◌≡◌, ◌≢◌, ◌<◌, ◌≤◌, ◌+◌, ◌%◌, ◌⊎◌, ◌∷◌, ◌++◌, [], ℕ, false};
ghost use Rattle.std.specs.Prelude.{List, Option, Some, None, length, slice_get};
ghost use Rattle.std.specs.declared.net.ip_addr.IpAddr.{IpAddr};
ghost use Rattle.asdu.specs.declared.sizes.Sizes.{Sizes};
ghost use Rattle.command.specs.Refusals.{seen_judged};
ghost use Rattle.gateway.specs.State.{State, counts_of, wall_now};
ghost use Rattle.link.specs.declared.answer.Answer.TheVariants.{Busy, Report};
ghost use Rattle.runlog.specs.Examples.{order};
ghost use Rattle.runlog.specs.Gathering as gathering;
ghost use Rattle.runlog.specs.Inbox as inbox;
ghost use Rattle.runlog.specs.Inbox.{Inbox, Orders, order_noted};
ghost use Rattle.runlog.specs.Logging.{Book, Tells};
ghost use Rattle.runlog.specs.Orders.{octet, order_of};
ghost use Rattle.runlog.specs.Traffic.{answer_told, content_of, mishap_told};
ghost use Rattle.runlog.specs.Traffic.{new_traffic, reply_of, sent, suffered};
ghost use Rattle.runlog.specs.Trails.{added, at, newest_first};
ghost use Rattle.runlog.specs.Waiting.{IsSkippedAs, first_alone};
ghost use Rattle.runlog.specs.Watching.{Watching, command_sent, is_repeat, judged};
ghost use Rattle.runlog.specs.Watching.{lost_at, order_at};
ghost use Rattle.runlog.specs.declared.content.Content.TheVariants.{Reply};
ghost use Rattle.runlog.specs.declared.content.Skip.TheVariants as skip;
ghost use Rattle.runlog.specs.declared.fate.CommandFate.{CommandFate};
ghost use Rattle.runlog.specs.declared.fate.CommandFate.TheVariants as fate;
ghost use Rattle.runlog.specs.declared.fate.Reason.TheVariants as reason;
ghost use Rattle.runlog.specs.declared.fate.Mishap.TheVariants as mishap;
ghost use Rattle.runlog.specs.declared.note.LogLine.{LogLine};
ghost use Rattle.runlog.specs.declared.note.Note.{Note};
ghost use Rattle.runlog.specs.declared.note.Note.TheVariants as note;
ghost use Rattle.runlog.specs.declared.order.Order.{Order};
ghost use Rattle.runlog.specs.declared.spoiling.Spoiling.{Spoiling};
ghost use Rattle.runlog.specs.declared.order.OrderKind.TheVariants as act;
ghost use Rattle.runlog.specs.declared.order.Value.TheVariants as value;
ghost use Rattle.runlog.specs.declared.traffic.Traffic.{Traffic};

/// Whatever becomes of a command that goes on to its station is told for that station, in a line of
/// its own, with the moment of its event: that it came, that it went out, what the station answers,
/// by the cause octet and the command of that very answer, that its link is busy, that the latest
/// command that went out to it was given up, or that it never went out. All that is to be told is
/// handed over behind the step, in its order, and nothing of it is left out. So is each report that
/// isn't passed on, with its type and the reason, and each mishap: these at most once a minute.
pub fn what_becomes_of_commands_is_logged()
    ensures told { (what : Note) (now : ℕ) (lines : List LogLine) → length lines < 128 →
        added what now lines ≡ lines ++ at now what ∷ [] }
    ensures comings { (g : State) (peer : Option IpAddr) (asdu : List ℕ) (o : Order) (c : Orders) →
        (seen_judged g.serial.commands asdu g.moment (wall_now g) c.seen).0 ≡ None →
        (order_noted g false peer asdu o c).ordered
        ≡ added (note.Ordered o peer) g.moment c.ordered }
    ensures sendings { (w : Watching) (place now : ℕ) (octets : List ℕ) (t : Traffic) (o : Order) →
        slice_get w.traffic place ≡ Some t → is_repeat place octets w ≡ false →
        order_at octets w ≡ Some o → (command_sent place octets now w).gone
        ≡ added (note.Fate o t.address fate.Sent) now w.gone }
    ensures answers { (s : Sizes) (now : ℕ) (report : List ℕ) (what : CommandFate) (o : Order)
        (t : Traffic) (lines : List LogLine) → content_of s report ≡ Reply →
        reply_of (octet report 2) ≡ Some what → order_of s report ≡ Some o →
        answer_told (Some (Report report)) s now t lines
        ≡ added (note.Fate o t.address what) now lines }
    ensures ends { (s : Sizes) (now : ℕ) (o : Order) (t : Traffic) (lines : List LogLine) →
        t.order ≡ Some o →
        (answer_told (Some Busy) s now t lines ≡ added (note.Fate o t.address fate.Busy) now lines)
        × (mishap_told mishap.GivenUp now t lines
        ≡ added (note.Fate o t.address fate.GivenUp) now lines) }
    // Of the commands that wait each has its line when their connection ends, the oldest first.
    ensures unsent { (now : ℕ) (o : Order) (os : List Order) (lines : List LogLine) →
        (inbox.unsent_told now [] lines ≡ lines) × (inbox.unsent_told now (o ∷ os) lines
        ≡ inbox.unsent_told now os (added (note.Unsent o) now lines)) }
    ensures waits { (b : Inbox) (now : ℕ) (w : Watching) →
        ((lost_at now b w).trail ≡ inbox.unsent_told now b.orders.waiting w.trail)
        × ((lost_at now b w).inbox.orders.waiting ≡ []) }
    ensures latest { (o : Option Order) (t : Traffic) → (sent o t).order ≡ o }
    // What came in the step stands before what the step made of it, and what went out in it last.
    ensures order { (s : State) (w : Watching) →
        let came = inbox.judged s w.connection.peer w.inbox in
        length w.trail + length came.orders.ordered + length w.gone ≤ 128 →
        w.seen ≡ counts_of s →
        (judged s w).trail ≡ (w.trail ++ came.orders.ordered) ++ w.gone }
    ensures whole { (old new : Book) (before : List LogLine) → Tells old new →
        old.is_over ≡ false → new.is_over ≡ false → old.handed ≡ Some before →
        new.handed ≡ Some (newest_first old.watching.trail before) }
    ensures once { (old new : Book) → Tells old new → old.is_over ≡ false →
        new.watching.trail ≡ [] }
    ensures skips { IsSkippedAs 1 skip.TooShort × IsSkippedAs 2 skip.TypeUnknown
        × IsSkippedAs 3 skip.NoObjects × IsSkippedAs 4 skip.OtherLength
        × IsSkippedAs 5 skip.PastSize }
    ensures mishaps { (address now : ℕ) →
        (first_alone now (suffered mishap.MirrorDropped now (new_traffic address))
        ≡ Some (at now (note.MirrorDropped address)))
        × ((by : Spoiling) →
        first_alone now (suffered (mishap.Spoilt by) now (new_traffic address))
        ≡ Some (at now (note.Spoilt address by)))
        × ((ms : ℕ) → first_alone now (suffered (mishap.Late ms) now (new_traffic address))
        ≡ Some (at now (note.Late address ms))) }
{}
