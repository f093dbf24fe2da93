//! The words of lines, word by word (docs/LOG.md).
ghost use Rattle.std.specs.Prelude.{◌≡◌, ◌++◌, [], ℕ, codes, Option, None, Some};
ghost use Rattle.std.specs.Net.Text.{ip_text, socket_text};
ghost use Rattle.std.specs.declared.io.ErrorKind.TheVariants.{PermissionDenied};
ghost use Rattle.std.specs.declared.net.ip_addr.IpAddr.{IpAddr};
ghost use Rattle.std.specs.declared.net.socket_addr.SocketAddr.{SocketAddr};
ghost use Rattle.live.specs.declared.ends.CutCause.{CutCause};
ghost use Rattle.live.specs.declared.watched.Notice.TheVariants as notices;
ghost use Rattle.session.specs.declared.kinds.Close.{Close};
ghost use Rattle.runlog.specs.Notes.{last_words, peer_words, skip_words, words};
ghost use Rattle.runlog.specs.OrderWords.{act_words, fate_words, reason_words, value_words};
ghost use Rattle.runlog.specs.Severities.{severity_of};
ghost use Rattle.runlog.specs.declared.content.Skip.{Skip};
ghost use Rattle.runlog.specs.declared.content.Skip.TheVariants as skip;
ghost use Rattle.runlog.specs.declared.fate.CommandFate.TheVariants as fate;
ghost use Rattle.runlog.specs.declared.fate.Reason.{Reason};
ghost use Rattle.runlog.specs.declared.fate.Reason.TheVariants as reason;
ghost use Rattle.runlog.specs.declared.note.Note.TheVariants as note;
ghost use Rattle.runlog.specs.declared.note.RunCounts.{RunCounts};
ghost use Rattle.runlog.specs.declared.note.Trouble.{Trouble};
ghost use Rattle.runlog.specs.declared.note.Obstacle.{Obstacle};
ghost use Rattle.runlog.specs.declared.note.Remnant.TheVariants as remnant;
ghost use Rattle.runlog.specs.declared.note.Trouble.TheVariants as trouble;
ghost use Rattle.runlog.specs.declared.order.Order.{Order};
ghost use Rattle.runlog.specs.declared.order.OrderKind.TheVariants as act;
ghost use Rattle.runlog.specs.declared.order.Value.TheVariants as value;
ghost use Rattle.runlog.specs.declared.severity.Severity.TheVariants.{Error, Warning, Notice, Info};

/// The words for what a command wants, for its value and for what becomes of it; why a report isn't
/// passed on; what is said of the state on the disk and of what can't begin; and whose address
/// stands in a line.
pub fn each_word_by_example()
    ensures acts { (act_words act.Select ≡ codes " select")
        × (act_words act.Execute ≡ codes " execute") × (act_words act.Activate ≡ codes " activate")
        × (act_words act.Deactivate ≡ codes " deactivate") × (act_words act.Other ≡ []) }
    ensures values { (value_words value.Off ≡ codes " off") × (value_words value.On ≡ codes " on")
        × (value_words value.Lower ≡ codes " lower") × (value_words value.Higher ≡ codes " higher")
        × (value_words (value.Number 32767) ≡ codes " 32767")
        × (value_words (value.Below 32768) ≡ codes " -32768") × (value_words value.Unknown ≡ []) }
    ensures fates { (fate_words fate.Sent 7 ≡ codes " sent to station 7")
        × (fate_words fate.Confirmed 7 ≡ codes " confirmed by station 7")
        × (fate_words fate.Denied 7 ≡ codes " refused by station 7")
        × (fate_words fate.Terminated 7 ≡ codes " terminated by station 7")
        × (fate_words fate.Busy 7 ≡ codes " not taken: station 7 is busy")
        × (fate_words fate.GivenUp 7 ≡ codes " given up: no reply from station 7")
        × (reason_words reason.Closed ≡ codes "its connection was closed") }
    ensures skips { (skip_words skip.TooShort ≡ codes "too short")
        × (skip_words skip.TypeUnknown ≡ codes "type not known")
        × (skip_words skip.NoObjects ≡ codes "no objects")
        × (skip_words skip.OtherLength ≡ codes "length doesn't fit the sizes in [line]")
        × (skip_words skip.PastSize ≡ codes "object address past its size")
        × (skip_words skip.Negative ≡ codes "it says that a type is unknown") }
    ensures states { (words note.StateBegins ≡ codes "state: begins anew")
        × (words (note.StateGoesOn 12) ≡ codes "state: resumed, 12 queued")
        × (words note.SettingsChanged ≡ codes "state: settings have changed")
        × (words note.StateStale ≡ codes "state is stale: each link is reset")
        × (words note.StatePutAside ≡ codes "state can't be read: put aside")
        × (words (note.StateDamaged 4096)
        ≡ codes "state: damaged, nothing is read from octet 4096 of its log on")
        × ((why : Obstacle) → why.place.now ≡ codes "segments-wal" → why.cause ≡ PermissionDenied →
        words (note.StateRefused why) ≡ codes "state: its directory can't be used, the run goes "
        ++ codes "on without it: segments-wal: permission denied")
        × (words (note.SlowSync 303 305)
        ≡ codes "state: a sync took 303 ms, the longest so far 305 ms")
        × (words (note.GivenUp remnant.Waiting 45 1 100)
        ≡ codes "waiting command of type 45 to 1/100, given up at a start")
        × (words (note.State (notices.NotKept None))
        ≡ codes "state isn't kept: what is polled now is lost if the gateway stops")
        × (words (note.State (notices.NotKept (Some PermissionDenied)))
        ≡ codes "state isn't kept: permission denied: what is polled now is lost if the gateway "
        ++ codes "stops")
        × (words (note.State notices.KeptAgain) ≡ codes "state is kept again") }
    ensures troubles { (words (note.Trouble trouble.StateInUse)
        ≡ codes "state in use by another process")
        × (words (note.Trouble trouble.StateUnusable) ≡ codes "state can't be kept there")
        × (words (note.Trouble trouble.StatusUnusable) ≡ codes "status port can't be used") }
    ensures addresses { (a : IpAddr) (s : SocketAddr) →
        (words (note.Listening s) ≡ codes "listening at " ++ socket_text s)
        × (peer_words (Some a) ≡ codes " by " ++ ip_text a)
        × (words (note.Opened (Some a)) ≡ codes "connected: " ++ ip_text a)
        × (last_words (Some a) ≡ codes ", the last at " ++ ip_text a) }
{}
