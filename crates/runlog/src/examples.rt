//! What is logged, by worked examples: literal octets, moments and lines.
ghost use Rattle.std.specs.Prelude.{◌≡◌, ◌∷◌, ◌++◌, [], codes, true, false, Some, None};
ghost use Rattle.ft12.specs.declared.frame.LinkSize.TheVariants.{One, Two};
ghost use Rattle.gateway.specs.declared.counts.Counts.{Counts};
ghost use Rattle.live.specs.declared.ends.CutCause.TheVariants as cut;
ghost use Rattle.std.specs.declared.io.ErrorKind.TheVariants.{ConnectionRefused, NotFound};
ghost use Rattle.std.specs.declared.io.ErrorKind.TheVariants.{TimedOut};
ghost use Rattle.live.specs.declared.ends.Presence.TheVariants.{Untried, Away, Silent, There};
ghost use Rattle.live.specs.declared.ends.Presence.TheVariants.{Receiving};
ghost use Rattle.session.specs.declared.kinds.Close.TheVariants as close;
ghost use Rattle.runlog.specs.Ends.{new_line, new_listener, new_connection, listener_seen};
ghost use Rattle.runlog.specs.Ends.{connection_sent};
ghost use Rattle.asdu.specs.Sizes.{tcp};
ghost use Rattle.command.specs.declared.refusal.Refusal.TheVariants as refusal;
ghost use Rattle.runlog.specs.Examples.{lines_of_calls, lines_of_looks, lines_of_requests};
ghost use Rattle.runlog.specs.Examples.{asked_before, counting, lines_of_mishaps, order};
ghost use Rattle.runlog.specs.Examples.{standings_of, two_stations};
ghost use Rattle.runlog.specs.Examples.{none_of_7, poll_of_8, polled_at, spoiling_behind};
ghost use Rattle.runlog.specs.Exchange.{asked as request_sent, new_exchange};
ghost use Rattle.runlog.specs.Gathering.{Add, Look};
ghost use Rattle.runlog.specs.Orders.{order_of};
ghost use Rattle.runlog.specs.Trails.{at};
ghost use Rattle.runlog.specs.Traffic.{reply_of};
ghost use Rattle.runlog.specs.declared.content.Skip.TheVariants as skip;
ghost use Rattle.runlog.specs.declared.fate.CommandFate.TheVariants as fate;
ghost use Rattle.runlog.specs.declared.fate.Reason.TheVariants as reason;
ghost use Rattle.runlog.specs.declared.order.OrderKind.TheVariants as act;
ghost use Rattle.runlog.specs.declared.order.Value.TheVariants as value;
ghost use Rattle.runlog.specs.declared.stations.StationStanding.TheVariants as standing;
ghost use Rattle.runlog.specs.Notes.{line_text, words};
ghost use Rattle.runlog.specs.Spoilings.{first_of};
ghost use Rattle.runlog.specs.Stations.{address_of, asking_of, new_station, asked, gap};
ghost use Rattle.runlog.specs.Stations.{standing_of};
ghost use Rattle.runlog.specs.Traffic.{first_line};
ghost use Rattle.runlog.specs.Watching.{Watching, counted, counts_noted, is_full, is_look_due};
ghost use Rattle.runlog.specs.Watching.{late_noted};
ghost use Rattle.runlog.specs.declared.exchange.AwaitedAnswer.TheVariants.{Poll};
ghost use Rattle.runlog.specs.declared.fate.Mishap.TheVariants as mishap;
ghost use Rattle.runlog.specs.declared.note.Note.TheVariants as note;
ghost use Rattle.runlog.specs.declared.note.Trouble.TheVariants as trouble;
ghost use Rattle.runlog.specs.declared.spoiling.Spoiling.TheVariants.{Echo, Late};
ghost use Rattle.runlog.specs.declared.spoiling.Spoiling.TheVariants.{Frame as FrameOf, Octets};
ghost use Rattle.runlog.specs.declared.stations.Asking.TheVariants.{Status, Reset, Counted, Other};

/// What is logged of stations, by the octets of requests to them (IEC 60870-5-2, 5.1.2): whose they
/// are, what they ask for, the lines of a station that is asked, reset, polled, silent, polled
/// again and asked once more, those of one whose run goes on behind a start, and those of one that
/// never answered. Another station's requests say nothing of it.
pub fn stations_by_example()
    ensures addresses { (address_of One (0x10 ∷ 0x49 ∷ 0x07 ∷ 0x50 ∷ 0x16 ∷ []) ≡ 7)
        × (address_of Two (0x10 ∷ 0x49 ∷ 0x02 ∷ 0x01 ∷ 0x4C ∷ 0x16 ∷ []) ≡ 258)
        × (address_of One (0x68 ∷ 0x03 ∷ 0x03 ∷ 0x68 ∷ 0x73 ∷ 0x07 ∷ 0x05 ∷ 0x7F ∷ 0x16 ∷ [])
        ≡ 7) }
    ensures askings { (asking_of (0x10 ∷ 0x49 ∷ 0x07 ∷ []) ≡ Status)
        × (asking_of (0x10 ∷ 0x40 ∷ 0x07 ∷ []) ≡ Reset)
        × (asking_of (0x10 ∷ 0x7A ∷ 0x07 ∷ []) ≡ Counted true)
        × (asking_of (0x10 ∷ 0x5B ∷ 0x07 ∷ []) ≡ Counted false)
        × (asking_of (0x68 ∷ 0x03 ∷ 0x03 ∷ 0x68 ∷ 0x73 ∷ []) ≡ Counted true)
        × (asking_of (0x10 ∷ 0x09 ∷ 0x07 ∷ []) ≡ Other) }
    // `retries` is 1: a third sending is one too many. It is up once another bit shows that it has
    // answered.
    ensures life { lines_of_requests One ((0, 0x10 ∷ 0x49 ∷ 0x07 ∷ [])
        ∷ (1000, 0x10 ∷ 0x40 ∷ 0x07 ∷ []) ∷ (2000, 0x10 ∷ 0x7B ∷ 0x07 ∷ [])
        ∷ (2500, 0x10 ∷ 0x5B ∷ 0x07 ∷ []) ∷ (3000, 0x10 ∷ 0x5B ∷ 0x07 ∷ [])
        ∷ (4000, 0x10 ∷ 0x5B ∷ 0x07 ∷ [])
        ∷ (63999, 0x10 ∷ 0x5B ∷ 0x07 ∷ []) ∷ (64000, 0x10 ∷ 0x5B ∷ 0x07 ∷ [])
        ∷ (65000, 0x10 ∷ 0x7B ∷ 0x07 ∷ []) ∷ (66000, 0x10 ∷ 0x49 ∷ 0x07 ∷ [])
        ∷ (67000, 0x10 ∷ 0x40 ∷ 0x07 ∷ []) ∷ (68000, 0x10 ∷ 0x7B ∷ 0x07 ∷ [])
        ∷ (69000, 0x10 ∷ 0x5B ∷ 0x07 ∷ []) ∷ [])
        (new_station 2 7 ∷ [])
        ≡ at 0 (note.Asked 7) ∷ at 2500 (note.Up 7) ∷ at 4000 (note.Silent 7)
        ∷ at 64000 (note.StillSilent 7) ∷ at 65000 (note.Again 7) ∷ at 66000 (note.Down 7)
        ∷ at 69000 (note.Up 7) ∷ [] }
    // Behind a start a service is sent again, and the status asked in between: nothing is down.
    ensures start { lines_of_requests One ((0, 0x10 ∷ 0x7B ∷ 0x07 ∷ [])
        ∷ (200, 0x10 ∷ 0x7B ∷ 0x07 ∷ []) ∷ (400, 0x10 ∷ 0x49 ∷ 0x07 ∷ [])
        ∷ (600, 0x10 ∷ 0x7B ∷ 0x07 ∷ []) ∷ (800, 0x10 ∷ 0x5B ∷ 0x07 ∷ []) ∷ [])
        (new_station 2 7 ∷ [])
        ≡ at 400 (note.Asked 7) ∷ at 800 (note.Up 7) ∷ [] }
    // Its link is reset then, since it was restarted, too.
    ensures restarted { lines_of_requests One ((0, 0x10 ∷ 0x7B ∷ 0x07 ∷ [])
        ∷ (200, 0x10 ∷ 0x7B ∷ 0x07 ∷ []) ∷ (400, 0x10 ∷ 0x49 ∷ 0x07 ∷ [])
        ∷ (600, 0x10 ∷ 0x7B ∷ 0x07 ∷ []) ∷ (800, 0x10 ∷ 0x7B ∷ 0x07 ∷ [])
        ∷ (1000, 0x10 ∷ 0x49 ∷ 0x07 ∷ []) ∷ (1200, 0x10 ∷ 0x40 ∷ 0x07 ∷ [])
        ∷ (1400, 0x10 ∷ 0x7B ∷ 0x07 ∷ []) ∷ (1600, 0x10 ∷ 0x5B ∷ 0x07 ∷ []) ∷ [])
        (new_station 2 7 ∷ [])
        ≡ at 400 (note.Asked 7) ∷ at 1200 (note.Down 7) ∷ at 1600 (note.Up 7) ∷ [] }
    // One that never answered is logged, and each minute; it may be up then.
    ensures unanswered { lines_of_requests One ((0, 0x10 ∷ 0x49 ∷ 0x07 ∷ [])
        ∷ (200, 0x10 ∷ 0x49 ∷ 0x07 ∷ []) ∷ (400, 0x10 ∷ 0x49 ∷ 0x07 ∷ [])
        ∷ (60399, 0x10 ∷ 0x49 ∷ 0x07 ∷ []) ∷ (60400, 0x10 ∷ 0x49 ∷ 0x07 ∷ [])
        ∷ (60600, 0x10 ∷ 0x40 ∷ 0x07 ∷ []) ∷ (60700, 0x10 ∷ 0x7B ∷ 0x07 ∷ [])
        ∷ (60800, 0x10 ∷ 0x5B ∷ 0x07 ∷ []) ∷ [])
        (new_station 2 7 ∷ [])
        ≡ at 0 (note.Asked 7) ∷ at 400 (note.Silent 7) ∷ at 60400 (note.Silent 7)
        ∷ at 60800 (note.Up 7) ∷ [] }
    ensures others { (asked One (0x10 ∷ 0x49 ∷ 0x08 ∷ []) 0 (new_station 2 7 ∷ [])
        ≡ (new_station 2 7 ∷ [], None))
        × ((gap 1 5 (new_station 2 7 ∷ new_station 2 8 ∷ [])).1 ≡ Some (at 5 (note.Gap 8)))
        × ((gap 2 5 (new_station 2 7 ∷ [])).1 ≡ None) }
{}

/// What is logged of the line, of who is refused, of the connection, of the queue and of the
/// counts, and when.
pub fn moments_by_example()
    ensures line { lines_of_looks
        ((0, Untried) ∷ (100, Away None) ∷ (500, Away None) ∷ (1000, There) ∷ (2000, Away None)
        ∷ (3000, Receiving) ∷ (3500, Away None) ∷ (4000, Away None) ∷ []) new_line
        ≡ at 100 (note.LineNotThere None) ∷ at 1000 note.LineReached
        ∷ at 2000 (note.LineLost None)
        ∷ at 3000 note.LineReachedAgain ∷ at 3500 (note.LineLost None) ∷ [] }
    // For another cause it is said at once, but at most once a second.
    ensures causes { lines_of_looks
        ((100, Away (Some ConnectionRefused)) ∷ (1200, Away (Some ConnectionRefused))
        ∷ (2300, Away (Some TimedOut)) ∷ (2400, Away (Some ConnectionRefused)) ∷ (2500, Away None)
        ∷ (3300, Away (Some ConnectionRefused)) ∷ (3400, There) ∷ []) new_line
        ≡ at 100 (note.LineNotThere (Some ConnectionRefused))
        ∷ at 2300 (note.LineNotThere (Some TimedOut))
        ∷ at 3300 (note.LineNotThere (Some ConnectionRefused)) ∷ at 3400 note.LineReached ∷ [] }
    // A server that accepts and closes: one line a minute.
    ensures flicker { lines_of_looks
        ((0, There) ∷ (10, Away None) ∷ (2000, There) ∷ (2010, Away None) ∷ (6000, There)
        ∷ (6010, Away None) ∷ (60009, Away None) ∷ (60010, Away None) ∷ (120009, There)
        ∷ (120010, There) ∷ []) new_line
        ≡ at 0 note.LineReached ∷ at 10 (note.LineLost None) ∷ at 60010 (note.LineNotThere None)
        ∷ at 120010 note.LineReachedAgain ∷ [] }
    // A device server that hangs: it is closed and reached each time, and gives nothing.
    ensures silent { lines_of_looks
        ((0, Receiving) ∷ (40000, Silent) ∷ (40010, Silent) ∷ (99999, Silent) ∷ (100000, Silent)
        ∷ (160000, Receiving) ∷ []) new_line
        ≡ at 0 note.LineReached ∷ at 40000 note.LineSilent ∷ at 100000 note.LineSilent
        ∷ at 160000 note.LineReachedAgain ∷ [] }
    ensures listener { ((listener_seen (record { count = 3; last = None }) 7 new_listener).1
        ≡ Some (at 7 (note.RefusedPeers 3 None)))
        × ((listener_seen (record { count = 5; last = None }) 1007
        (listener_seen (record { count = 3; last = None }) 7 new_listener).0).1
        ≡ Some (at 1007 (note.RefusedPeers 2 None)))
        × ((listener_seen (record { count = 5; last = None }) 1006
        (listener_seen (record { count = 3; last = None }) 7 new_listener).0).1 ≡ None)
        × ((listener_seen (record { count = 0; last = None }) 7 new_listener).1 ≡ None) }
    // STARTDT con, STOPDT con and TESTFR act (IEC 60870-5-104, 5)
    ensures connection { ((connection_sent (0x68 ∷ 0x04 ∷ 0x0B ∷ 0x00 ∷ 0x00 ∷ 0x00 ∷ []) 5
        new_connection).1 ≡ Some (at 5 note.Started))
        × ((connection_sent (0x68 ∷ 0x04 ∷ 0x23 ∷ 0x00 ∷ 0x00 ∷ 0x00 ∷ []) 5 new_connection).1
        ≡ Some (at 5 note.Stopped))
        × ((connection_sent (0x68 ∷ 0x04 ∷ 0x43 ∷ 0x00 ∷ 0x00 ∷ 0x00 ∷ []) 5 new_connection).1
        ≡ None) }
    ensures queue { (is_full 97 100 ≡ false) × (is_full 98 100 ≡ true) × (is_full 100 100 ≡ true) }
    ensures looks { (w : Watching) →
        (is_look_due (record w { moment = 5999; looked = 5000 }) ≡ false)
        × (is_look_due (record w { moment = 6000; looked = 5000 }) ≡ true) }
    ensures counts { (w : Watching) (c : Counts) →
        ((counted c 5 (record w { moment = 64999; counted = 5000 })).1 ≡ None)
        × ((counted c 5 (record w { moment = 65000; counted = 5000; places = 9 })).1
        ≡ Some (at 65000 (note.Counts (record {
          counts = c;
          taken = 5;
          places = 9;
          connections = w.connection.count;
        })))) }
{}

/// The lines behind their UTC time (docs/LOG.md has them in words).
pub fn log_lines_by_example()
    ensures lines { (line_text (at 10 (note.Up 1)) ≡ codes "10 station 1 up")
        × (line_text (record {
          moment = 10;
          note = note.LineLost None;
          left_out = record { count = 3; since = 7 };
        }) ≡ codes "10 line lost (3 left out since 7)") }
    ensures ends { (words note.LineReached ≡ codes "line reached")
        × (words note.LineReachedAgain ≡ codes "line reached again")
        × (words (note.LineLost (Some ConnectionRefused))
        ≡ codes "line lost: connection refused")
        × (words (note.LineNotThere (Some NotFound)) ≡ codes "line not there: name unknown")
        × (words note.LineSilent
        ≡ codes "line silent: requests went out and nothing came, it is dialled anew")
        × (words (note.Opened None) ≡ codes "connected")
        × (words note.Started ≡ codes "connection started")
        × (words note.Stopped ≡ codes "connection stopped")
        × (words (note.RefusedPeers 2 None) ≡ codes "2 rejected (not in the allow list)")
        × (words (note.LeftOut 12) ≡ codes "12 lines left out: nobody read them in time") }
    ensures stations { (words (note.Asked 7) ≡ codes "station 7 link status requested")
        × (words (note.Silent 7) ≡ codes "station 7 no reply")
        × (words (note.StillSilent 7)
        ≡ codes "station 7 still no reply: if it was restarted, restart telegate too")
        × (words (note.Again 7) ≡ codes "station 7 replies again")
        × (words (note.Down 7) ≡ codes "station 7 down")
        × (words (note.Gap 7) ≡ codes "station 7 gap: reports of it may be lost")
        × (words note.QueueFull ≡ codes "queue full")
        × (words note.QueueFree ≡ codes "queue free again") }
    ensures cuts { (words (note.Cut cut.Gone) ≡ codes "connection lost: peer closed")
        × (words (note.Cut cut.NotTaken)
        ≡ codes "connection lost: it didn't take what was written")
        × (words (note.Cut cut.Restarted)
        ≡ codes "connection lost: the gateway was started again") }
    ensures closes { (words (note.Closed close.Grammar)
        ≡ codes "connection closed: octets that begin no APDU")
        × (words (note.Closed close.SendNumber)
        ≡ codes "connection closed: an N(S) that isn't the next one")
        × (words (note.Closed close.ReceiveNumber)
        ≡ codes "connection closed: an N(R) of frames that weren't sent")
        × (words (note.Closed close.Stopped)
        ≡ codes "connection closed: an I frame while data transfer is stopped")
        × (words (note.Closed close.Timeout)
        ≡ codes "connection closed: no acknowledgement for t1")
        × (words (note.Closed close.OwnAnswers)
        ≡ codes "connection closed: an own answer found no place")
        × (words (note.Closed close.Replaced)
        ≡ codes "connection closed: a new connection takes its place") }
    ensures troubles { (words (note.Trouble trouble.LineRefused) ≡ codes "line refused")
        × (words (note.Trouble trouble.NameUnknown) ≡ codes "name unknown")
        × (words (note.Trouble trouble.LineUnreached) ≡ codes "line not reached")
        × (words (note.Trouble trouble.PortInUse) ≡ codes "port in use")
        × (words (note.Trouble trouble.PortForbidden) ≡ codes "port not allowed")
        × (words (note.Trouble trouble.PortUnusable) ≡ codes "port can't be listened at") }
    ensures counts { words (note.Counts (record {
      counts = record { skipped = 1; mirrors = 2; lost = 3; spoilt = 4 };
      taken = 5;
      places = 6;
      connections = 7;
    })) ≡ codes "counts skipped 1 mirrors 2 lost 3 spoilt 4 queue 5 of 6 connections 7" }
{}

/// What lines say of commands: by the octets of an ASDU (IEC 60870-5-101, 7.2.6 and 7.3.2), and in
/// words; what a station answers a command by its cause octet (7.2.3); and what is gathered within
/// a second.
pub fn commands_by_example()
    ensures orders { (order_of tcp (0x2D ∷ 0x01 ∷ 0x06 ∷ 0x00 ∷ 0xE9 ∷ 0x03 ∷ 0x64 ∷ 0x00 ∷ 0x00
        ∷ 0x81 ∷ []) ≡ Some (order 45 act.Select 1001 100 value.On))
        × (order_of tcp (0x2E ∷ 0x01 ∷ 0x06 ∷ 0x00 ∷ 0x02 ∷ 0x00 ∷ 0x64 ∷ 0x00 ∷ 0x00 ∷ 0x01 ∷ [])
        ≡ Some (order 46 act.Execute 2 100 value.Off))
        × (order_of tcp (0x3C ∷ 0x01 ∷ 0x06 ∷ 0x00 ∷ 0x02 ∷ 0x00 ∷ 0x64 ∷ 0x00 ∷ 0x00 ∷ 0x02 ∷ [])
        ≡ Some (order 60 act.Execute 2 100 value.Higher))
        × (order_of tcp (0x31 ∷ 0x01 ∷ 0x06 ∷ 0x00 ∷ 0x02 ∷ 0x00 ∷ 0x64 ∷ 0x00 ∷ 0x00 ∷ 0xFF ∷ 0xFF
        ∷ 0x80 ∷ []) ≡ Some (order 49 act.Select 2 100 (value.Below 1)))
        × (order_of tcp (0x64 ∷ 0x01 ∷ 0x08 ∷ 0x00 ∷ 0xFF ∷ 0xFF ∷ 0x00 ∷ 0x00 ∷ 0x00 ∷ 0x14 ∷ [])
        ≡ Some (order 100 act.Deactivate 65535 0 (value.Number 20)))
        × (order_of tcp (0x67 ∷ 0x01 ∷ 0x06 ∷ 0x00 ∷ 0x02 ∷ 0x00 ∷ 0x00 ∷ 0x00 ∷ 0x00 ∷ [])
        ≡ Some (order 103 act.Other 2 0 value.Unknown))
        × (order_of tcp (0x2D ∷ 0x01 ∷ 0x06 ∷ 0x00 ∷ 0xE9 ∷ 0x03 ∷ 0x64 ∷ 0x00 ∷ []) ≡ None) }
    ensures replies { (reply_of 0x07 ≡ Some fate.Confirmed) × (reply_of 0x47 ≡ Some fate.Denied)
        × (reply_of 0x87 ≡ Some fate.Confirmed) × (reply_of 0x09 ≡ Some fate.Confirmed)
        × (reply_of 0x0A ≡ Some fate.Terminated) × (reply_of 0x2F ≡ Some fate.Denied)
        × (reply_of 0x14 ≡ None) }
    ensures words { (words (note.Ordered (order 45 act.Select 1001 100 value.On) None)
        ≡ codes "command C_SC_NA_1 select 1001/100 on")
        × (words (note.Refused (order 45 act.Execute 1001 100 value.Off) None
        (reason.Rule refusal.NotSelected))
        ≡ codes "command C_SC_NA_1 execute 1001/100 off refused: not selected")
        × (words (note.Refused (order 103 act.Other 2 0 value.Unknown) None
        (reason.Rule refusal.TypeUnknown))
        ≡ codes "command type 103 2/0 refused: type not known")
        × (words (note.Refused (order 58 act.Execute 1 7 value.On) None
        (reason.Rule (refusal.TagOld 3600500)))
        ≡ codes "command C_SC_TA_1 execute 1/7 on refused: time tag 3600 s old")
        × (words (note.Fate (order 49 act.Execute 1 7 (value.Below 12)) 5 fate.GivenUp)
        ≡ codes "command C_SE_NB_1 execute 1/7 -12 given up: no reply from station 5")
        × (words (note.Fate (order 100 act.Activate 1 0 (value.Number 20)) 5 fate.Confirmed)
        ≡ codes "command C_IC_NA_1 activate 1/0 20 confirmed by station 5")
        × (words (note.Skipped 7 2 skip.TypeUnknown)
        ≡ codes "station 7 report skipped, type 2: type not known")
        × (words (note.Skipped 7 1 skip.OtherLength)
        ≡ codes
        "station 7 report skipped, type 1 M_SP_NA_1: length doesn't fit the sizes in [line]") }
    // The first at once; of three more within the second the last, once that is over, with its own
    // moment, and that of the first of the two others.
    ensures gathered { lines_of_calls (Add (note.Up 1) 5 ∷ Look 5 ∷ Add (note.Up 2) 6 ∷ Look 6
        ∷ Add (note.Up 3) 7 ∷ Add (note.Up 4) 900 ∷ Look 1004 ∷ Look 1005 ∷ Look 3000 ∷ [])
        ≡ at 5 (note.Up 1) ∷ record {
          moment = 900;
          note = note.Up 4;
          left_out = record { count = 2; since = 6 };
        } ∷ [] }
{}

/// How a station stands, by the requests to it, each with its moment; since when; and how many
/// reports of it may have been lost.
pub fn standings_by_example()
    ensures standings { standings_of One ((0, 0x10 ∷ 0x49 ∷ 0x07 ∷ [])
        ∷ (1000, 0x10 ∷ 0x7B ∷ 0x07 ∷ []) ∷ (2000, 0x10 ∷ 0x5B ∷ 0x07 ∷ [])
        ∷ (3000, 0x10 ∷ 0x5B ∷ 0x07 ∷ []) ∷ (4000, 0x10 ∷ 0x5B ∷ 0x07 ∷ [])
        ∷ (5000, 0x10 ∷ 0x7B ∷ 0x07 ∷ []) ∷ (6000, 0x10 ∷ 0x49 ∷ 0x07 ∷ []) ∷ [])
        (new_station 2 7)
        ≡ (standing.Asked, 0) ∷ (standing.Asked, 0) ∷ (standing.Up, 2000) ∷ (standing.Up, 2000)
        ∷ (standing.Silent, 4000) ∷ (standing.Up, 5000) ∷ (standing.Down, 6000) ∷ [] }
    ensures unasked { standing_of (new_station 2 7) ≡ standing.NotAsked }
{}

/// What is logged of octets that were dropped before a request: they came late from the station
/// that was asked before it, if that exchange had lasted for as long as an answer is awaited, here
/// 150 ms. What is logged of the gateway's counts: it befell the station that was asked last before
/// the event. And the lines of what befell a station: at once, and then once a minute for each
/// kind, with how many came before.
pub fn late_answers_by_example()
    ensures late { (polled_at 150 (new_exchange 150)).overdue ≡ Some 0 }
    ensures answered { (polled_at 149 (new_exchange 150)).overdue ≡ None }
    ensures first { (request_sent One poll_of_8 (Some 0) Poll 9000 (new_exchange 150)).overdue
        ≡ None }
    ensures nothing_new { (w : Watching) →
        late_noted 5 (record w { late = 5 }) ≡ record w { late = 5 } }
    ensures whose { (w : Watching) → (first_line 200 (late_noted 6 (record w {
      late = 5;
      exchange = polled_at 150 (new_exchange 150);
      traffic = two_stations;
    })).traffic).1 ≡ Some (at w.moment (note.Late 7 150)) }
    ensures spoilt { (w : Watching) → (first_line 200 (counts_noted (counting 0 1) (record w {
      seen = counting 0 0;
      exchange = asked_before 1;
      traffic = two_stations;
    })).traffic).1 ≡ Some (at w.moment (note.Spoilt 8 (FrameOf 9))) }
    // Octets that come behind a poll of station 8, before which station 7 was polled: the poll
    // itself; an answer to the poll before, once 150 ms are over, and earlier; a frame of station
    // 9; the beginning of a frame; and a device server's own text.
    ensures kinds { (spoiling_behind 212 (poll_of_8 ++ 0xE5 ∷ []) ≡ Echo)
        × (spoiling_behind 212 none_of_7 ≡ Late 7 212)
        × (spoiling_behind 150 none_of_7 ≡ Late 7 150)
        × (spoiling_behind 149 none_of_7 ≡ FrameOf 7)
        × (spoiling_behind 212 (0x10 ∷ 0x09 ∷ 0x09 ∷ 0x12 ∷ 0x16 ∷ []) ≡ FrameOf 9)
        × (spoiling_behind 212 (0x68 ∷ 0x09 ∷ []) ≡ Octets (first_of (0x68 ∷ 0x09 ∷ [])))
        × (spoiling_behind 212 (codes "Device open failure: no such port")
        ≡ Octets (first_of (codes "Device open fail"))) }
    ensures mirrors { (w : Watching) → (first_line 200 (counts_noted (counting 3 1) (record w {
      seen = counting 2 1;
      exchange = asked_before 0;
      traffic = two_stations;
    })).traffic).1 ≡ Some (at w.moment (note.MirrorDropped 7)) }
    ensures logged { lines_of_mishaps ((0, mishap.Late 212) ∷ (100, mishap.Late 213)
        ∷ (200, mishap.Spoilt Echo) ∷ (300, mishap.MirrorDropped) ∷ (60000, mishap.Late 214) ∷ [])
        7 ≡ at 0 (note.Late 7 212) ∷ at 200 (note.Spoilt 7 Echo) ∷ at 300 (note.MirrorDropped 7)
        ∷ record {
          moment = 60000;
          note = note.Late 7 214;
          left_out = record { count = 1; since = 100 };
        } ∷ [] }
    ensures words { (words (note.Late 7 212)
        ≡ codes "answers of station 7 come late, 212 ms behind their request: answer_ms is short")
        × (words (note.Spoilt 7 Echo) ≡ codes "station 7 answer spoilt: its request came back")
        × (words (note.Spoilt 8 (Late 7 212)) ≡ codes "station 8 answer spoilt: an answer of "
        ++ codes "station 7, 212 ms behind its request: answer_ms is short")
        × (words (note.Spoilt 7 (FrameOf 9))
        ≡ codes "station 7 answer spoilt: a frame with link address 9")
        × (words (note.Spoilt 7 (Octets (first_of (0x68 ∷ 0x09 ∷ []))))
        ≡ codes "station 7 answer spoilt: octets 6809")
        × (words (note.Spoilt 7 (Octets (first_of (codes "Device open failure"))))
        ≡ codes "station 7 answer spoilt: octets 446576696365206F70656E206661696C "
        ++ codes "(\"Device open fail\")")
        × (words (note.MirrorDropped 7)
        ≡ codes "station 7 answer to a command dropped: data transfer isn't running") }
{}
