//! What holds of what a start makes of a log, and of what is shown of it.
ghost use Rattle.std.specs.Prelude.{◌≡◌, ◌⊎◌, [], ◌∷◌, ◌++◌, ℕ, ◌+◌, ◌-◌, ◌^◌, ◌<◌, ◌≤◌, List};
ghost use Rattle.std.specs.Prelude.{Bool, IsTrue, None, Ok, Option, Some, length, slice_get};
ghost use Rattle.std.specs.Prelude.{true, false};
ghost use Rattle.gateway.specs.Agrees.{Follows, Rests};
ghost use Rattle.gateway.specs.Carried.{carried, restarted};
ghost use Rattle.gateway.specs.Config.{Settings};
ghost use Rattle.gateway.specs.Log.{Came, Log, Restarted, events_of};
ghost use Rattle.gateway.specs.Restored.{IsSaid, IsSavable, state_lines};
ghost use Rattle.gateway.specs.Setups.{setup_of};
ghost use Rattle.gateway.specs.State.{State};
ghost use Rattle.gateway.specs.declared.settings.StationSettings.{StationSettings};
ghost use Rattle.link.specs.Carried.{awaits_command};
ghost use Rattle.segments.specs.Crashes.{lines_behind};
ghost use Rattle.segments.specs.Head.{Fits, head_of};
ghost use Rattle.segments.specs.Starts.{ArePlaced, IsFoundIn};
ghost use Rattle.segments.specs.declared.head.SegmentHead.{SegmentHead};
ghost use Rattle.settings.specs.Settings.{IsReadOfText};
ghost use Rattle.sqlite_disk.specs.Disk.{Holds};
ghost use Rattle.statetext.specs.Text.{lines_in};
ghost use Rattle.state.specs.Beginnings.{gap_now, has_past, is_trusted};
ghost use Rattle.state.specs.Directories.{BeginsOver};
ghost use Rattle.state.specs.GivenUps.{given_up_by};
ghost use Rattle.state.specs.Origins.{IsNumbered};
ghost use Rattle.state.specs.Replays.{events_in_front, last_gap, whole_lines};
ghost use Rattle.state.specs.Sights.{IsSight};
ghost use Rattle.state.specs.Starts.{beginning_of};
ghost use Rattle.state.specs.declared.beginning.Origin.{Origin};
ghost use Rattle.state.specs.declared.looking.Seen.{Seen};
ghost use Rattle.state.specs.declared.looking.Sight.{Sight};
ghost use Rattle.state.specs.declared.opened.Opened.{Opened};
ghost use Rattle.traces.specs.Event.{Event};
ghost use Rattle.traces.specs.Progress.{came};
ghost use Rattle.traces.specs.Trace.{logged};

use crate::opened::Opened;
use crate::start::{Beginning, Found};
use link::{giving_up_is_for_one_station, restarts_change_no_link};
use segments::the_next_number_is_new;
use sqlite_disk::Disk;

/// What a log has is received again under the settings that wrote it, whether the settings have
/// changed or not, and whether the links go on or not. The gateway has followed the whole log:
/// behind the state at its head each event that a line logs, up to the first line that logs none.
/// Then it has given up its commands, which is the restart in its log. The gap that its last step
/// reported is reported again, of the same station ([`a_gap_is_told_of_its_own_station`]). It goes
/// on so only if that text says these settings; else it is what they make of it. Whether they have
/// changed is said: another text may say the same.
pub fn each_log_is_received_again_under_its_settings<D: Disk + Drop>()
    ensures received { (c : Settings) (log : Log) (mark : Option Bool)
        (newest other : D) (o : Origin) (head : SegmentHead) (body written : List ℕ)
        (first : State) (rest : List (List ℕ)) →
        BeginsOver D.Disk c log mark newest other o → has_past o.beginning ≡ true →
        Fits head → IsFoundIn (D.Disk.seen newest) head body →
        lines_in body ≡ written ∷ (state_lines first ++ rest) → IsSavable first →
        (wrote : Settings) × (left : State) × (last : Option (ℕ × ℕ)) ×
        (((o.beginning ≡ Beginning.GoesOn) × IsReadOfText written (Ok c) × (wrote ≡ c)
        × (o.gateway ≡ left) × (o.gap ≡ last))
        ⊎ (IsReadOfText written (Ok wrote)
        × (o.gateway ≡ carried (is_trusted o.beginning) wrote c left)
        × (o.gap ≡ gap_now wrote.stations c.stations last))) ×
        (Follows (setup_of wrote) first (Some log) → Rests (setup_of wrote) (Some log) →
        Follows (setup_of wrote) left (Some o.before.entries) × (news : Log) ×
        (o.before.entries ≡ Came left.moment Restarted ∷ (news ++ log)) ×
        (events_of (news ++ log) ≡ events_of log
        ++ events_in_front (whole_lines (lines_behind body (D.Disk.seen newest)))) ×
        (last ≡ last_gap news)) }
    ensures moved { (c : Settings) (log : Log) (mark : Option Bool)
        (newest other : D) (o : Origin) (head : SegmentHead) (body written : List ℕ)
        (lines : List (List ℕ)) →
        BeginsOver D.Disk c log mark newest other o → has_past o.beginning ≡ true →
        Fits head → IsFoundIn (D.Disk.seen newest) head body → lines_in body ≡ written ∷ lines →
        (o.is_moved ≡ true → IsReadOfText written (Ok c) → ⊥)
        × (o.is_moved ≡ false → IsReadOfText written (Ok c)) }
{}

/// No command is sent again by a run that goes on: of what it goes on with, each station's command
/// without an answer is given up, whether the settings have changed or not. What the gateway held
/// of the connection is named: all of it, in its order, and nothing else.
pub fn no_command_outlives_a_start<D: Disk + Drop>()
    ensures { (c : Settings) (log : Log) (mark : Option Bool) (newest other : D)
        (o : Origin) → BeginsOver D.Disk c log mark newest other o →
        has_past o.beginning ≡ true → (wrote : Settings) × (left : State) ×
        ((o.gateway ≡ left) ⊎ (o.gateway ≡ carried (is_trusted o.beginning) wrote c left)) ×
        ((held : State) × (left ≡ restarted held)
        × (o.given_up.items ≡ given_up_by wrote.line.sizes held)) ×
        ((place : ℕ) → place < length left.serial.line.stations →
        awaits_command left.serial.line place ≡ false) }
{
    giving_up_is_for_one_station();
    restarts_change_no_link();
}

/// What is shown of a directory is what a start would make of it: a run begins as it is shown, over
/// the same two files and the same mark. Of the log that is shown, the number, the settings and the
/// lines are those of the newest segment. Its gateway has followed the log under these settings, up
/// to the first line that logs no event.
pub fn what_is_shown_is_what_a_start_finds<D: Disk + Drop>()
    ensures begins { (c : Settings) (log : Log) (is_stale : Bool)
        (newest other : D) (o : Origin) (first second : List ℕ) (s : Sight)
        (shown : IsSight log is_stale first second s) →
        BeginsOver D.Disk c log (Some is_stale) newest other o →
        shown.newest ≡ D.Disk.seen newest → shown.other ≡ D.Disk.seen other →
        (s.beginning ≡ Beginning.PutAside → ⊥) → (o.beginning ≡ Beginning.PutAside → ⊥) →
        s.beginning ≡ o.beginning }
    ensures log { (log : Log) (is_stale : Bool) (first second : List ℕ) (s : Sight)
        (shown : IsSight log is_stale first second s) (l : Seen) (head : SegmentHead)
        (body written : List ℕ) (lines : List (List ℕ)) → s.seen ≡ Some l → Fits head →
        IsFoundIn shown.newest head body → lines_in body ≡ written ∷ lines →
        (has_past s.beginning ≡ true) ×
        ArePlaced l.side first second shown.newest shown.other ×
        (l.number ≡ head.number) × (l.settings.items ≡ written) ×
        (l.lines ≡ length (whole_lines (lines_behind body shown.newest))) ×
        (l.events ≡ length (events_in_front (whole_lines (lines_behind body shown.newest)))) }
    ensures gateway { (log : Log) (is_stale : Bool) (first second : List ℕ) (s : Sight)
        (shown : IsSight log is_stale first second s) (l : Seen) (head : SegmentHead)
        (body written : List ℕ) (state : State) (rest : List (List ℕ)) → s.seen ≡ Some l →
        Fits head → IsFoundIn shown.newest head body →
        lines_in body ≡ written ∷ (state_lines state ++ rest) → IsSavable state →
        (wrote : Settings) × IsReadOfText written (Ok wrote) ×
        (Follows (setup_of wrote) state (Some log) → Rests (setup_of wrote) (Some log) →
        (whole : Log) × Follows (setup_of wrote) l.gateway (Some whole) ×
        (events_of whole ≡ events_of log
        ++ events_in_front (whole_lines (lines_behind body shown.newest)))) }
{}

/// What no state stands in is never gone on with: a run that goes on found at the head of the log a
/// file of settings that can be read, and behind it a gateway's state, line by line. Else what is
/// there would be passed over, and what was queued would be lost, with nothing said of it. Of a log
/// that is shown the same holds.
pub fn nothing_is_gone_on_with_but_a_state<D: Disk + Drop>()
    ensures begun { (c : Settings) (log : Log) (mark : Option Bool)
        (newest other : D) (o : Origin) (head : SegmentHead) (body written : List ℕ)
        (lines : List (List ℕ)) →
        BeginsOver D.Disk c log mark newest other o → has_past o.beginning ≡ true →
        Fits head → IsFoundIn (D.Disk.seen newest) head body → lines_in body ≡ written ∷ lines →
        (wrote : Settings) × (state : State) × (rest : List (List ℕ)) ×
        IsReadOfText written (Ok wrote) × IsSaid state lines rest }
    ensures shown { (log : Log) (is_stale : Bool) (first second : List ℕ) (s : Sight)
        (shown : IsSight log is_stale first second s) (l : Seen) (head : SegmentHead)
        (body written : List ℕ) (lines : List (List ℕ)) → s.seen ≡ Some l → Fits head →
        IsFoundIn shown.newest head body → lines_in body ≡ written ∷ lines →
        (wrote : Settings) × (state : State) × (rest : List (List ℕ)) ×
        IsReadOfText written (Ok wrote) × IsSaid state lines rest }
{}

/// The first log of a run has a number of its own. It is above the number of each first line that
/// stands in one of the two files, until the 64 bits of a number are used up: so behind the next
/// crash the newer log counts, and no command is sent again by an older one. None is left out, and
/// the first is 2: so it is behind files that were put aside.
pub fn the_first_log_of_a_run_has_its_own_number<D: Disk + Drop>()
    ensures above { (number : ℕ) (opened : Opened D D.Disk) (newest other file : D)
        (head : SegmentHead) → IsNumbered number opened → opened ≡ Opened.Both newest other →
        IsTrue (D.Disk.is_clean newest) → IsTrue (D.Disk.is_clean other) →
        (file ≡ newest) ⊎ (file ≡ other) → Fits head →
        Holds (D.Disk.seen file) 0 (head_of head) → head.number < 2 ^ 64 - 1 →
        head.number < number }
    ensures next { (number : ℕ) (opened : Opened D D.Disk) (newest other : D) →
        IsNumbered number opened → opened ≡ Opened.Both newest other →
        IsTrue (D.Disk.is_clean newest) → IsTrue (D.Disk.is_clean other) → 2 < number →
        (head : SegmentHead) × Fits head × (Holds (D.Disk.seen newest) 0 (head_of head)
        ⊎ Holds (D.Disk.seen other) 0 (head_of head)) × (number ≤ head.number + 1) }
    ensures aside { (number : ℕ) (opened : Opened D D.Disk) → IsNumbered number opened →
        opened ≡ Opened.Neither → number ≡ 2 }
{
    the_next_number_is_new();
}

/// The events of a log are those that its lines log, in their order, up to the first line that logs
/// none. What stands behind such a line is never taken without it, since nobody knows what it was.
pub fn a_log_ends_before_its_first_unread_line()
    ensures none { events_in_front [] ≡ [] }
    ensures each { (line : List ℕ) (lines : List (List ℕ)) (event : Event) →
        logged line ≡ Some event →
        events_in_front (line ∷ lines) ≡ came event ∷ events_in_front lines }
    ensures unread { (lines behind : List (List ℕ)) (line : List ℕ) → logged line ≡ None →
        events_in_front (lines ++ line ∷ behind) ≡ events_in_front lines }
{}

/// How a run begins by what was found. It begins anew if no log was ever begun, and if what is
/// there can't be read, which is put aside. Each link is reset if the state is stale, and if the
/// log is one of other rules with events behind its head. Else it goes on.
pub fn what_was_found_says_how_a_run_begins()
    ensures { (beginning_of Found.Nothing ≡ Beginning.Anew)
        × (beginning_of Found.Unread ≡ Beginning.PutAside)
        × (beginning_of Found.Stale ≡ Beginning.LinksReset)
        × (beginning_of (Found.OtherRules true) ≡ Beginning.LinksReset)
        × (beginning_of (Found.OtherRules false) ≡ Beginning.GoesOn)
        × (beginning_of Found.Whole ≡ Beginning.GoesOn) }
{}

/// A gap that the last step reported is told of its own station, also if the settings have changed:
/// it is known by its link address, at whatever place it stands now. A station that is gone has
/// none.
pub fn a_gap_is_told_of_its_own_station()
    ensures told { (before now : List StationSettings) (place session k number : ℕ)
        (s t : StationSettings) → slice_get before place ≡ Some s →
        gap_now before now (Some (place, session)) ≡ Some (k, number) →
        slice_get now k ≡ Some t → (t.address ≡ s.address) × (number ≡ session) }
    ensures there { (before now : List StationSettings) (place session k : ℕ)
        (s t : StationSettings) → slice_get before place ≡ Some s → slice_get now k ≡ Some t →
        t.address ≡ s.address → (at : ℕ) × (at < length now)
        × (gap_now before now (Some (place, session)) ≡ Some (at, session)) }
    ensures none { (before now : List StationSettings) → gap_now before now None ≡ None }
{}
