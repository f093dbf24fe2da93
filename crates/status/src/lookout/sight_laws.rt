//! What a visitor sees of a run, in the words of who reads a page.
ghost use Rattle.std.specs.Borrow.{Bor};
ghost use Rattle.std.specs.List.{AllByRecursion};
ghost use Rattle.std.specs.Prelude.{◌≡◌, ◌≢◌, ◌<◌, ◌≤◌, Bool, true, false, List, [], ◌∷◌, ◌++◌};
ghost use Rattle.std.specs.Prelude.{codes, length, take, Option, Some, None, option_map, ℕ};
ghost use Rattle.std.specs.declared.io.ErrorKind.{ErrorKind};
ghost use Rattle.runlog.specs.Causes.{line_cause_words};
ghost use Rattle.gateway.specs.Config.{Settings};
ghost use Rattle.gateway.specs.declared.settings.StationSettings.{StationSettings};
ghost use Rattle.live.specs.declared.ends.Presence.TheVariants as presence;
ghost use Rattle.live.specs.declared.watched.Notice.TheVariants as notice;
ghost use Rattle.status.specs.Looks.{HasCounted, IsClosed, IsSilent, Look};
ghost use Rattle.status.specs.Sights.{IsSight, ShowsSettings, TellsOf, counts_after};
ghost use Rattle.runlog.specs.Watching.{wall_of};
ghost use Rattle.runlog.specs.declared.ends.OpenConnection.{OpenConnection};
ghost use Rattle.runlog.specs.declared.names.LogNames.{LogNames};
ghost use Rattle.runlog.specs.declared.stations.StationWatch.{StationWatch};
ghost use Rattle.runlog.specs.declared.traffic.Traffic.{Traffic};
ghost use Rattle.status.specs.Labels.{keeping_text};
ghost use Rattle.status.specs.Shown.{AreEvents};
ghost use Rattle.status.specs.LastHour.{after};
ghost use Rattle.status.specs.declared.snapshot.Snapshot.{Snapshot};
ghost use Rattle.status.specs.declared.snapshot.StationView.{StationView};

/// The rows stand in the order of the settings. The station with so many before it has the row with
/// so many before it, and that row tells what was watched and counted at this place. That what is
/// watched there is this very station, the run log says (`each_station_has_its_own_watch` of
/// `runlog`). Its name is the one that the site gives to its link address. Of up to 32 stations
/// each has a row, and there is no other row.
pub fn each_station_has_its_row()
    ensures row { (c : Settings) (names : LogNames) (keeps : Bool) (looks : List Look)
        (last : Look) (s : Snapshot) → IsSight c names keeps looks last s →
        (before after : List StationSettings) (setting : StationSettings) →
        c.stations ≡ before ++ setting ∷ after → length before < 32 →
        (earlier later : List StationWatch) (watch : StationWatch) →
        last.watch.stations ≡ earlier ++ watch ∷ later → length earlier ≡ length before →
        (past next : List Traffic) (traffic : Traffic) →
        last.watch.traffic ≡ past ++ traffic ∷ next → length past ≡ length before →
        (above : List StationView) × (below : List StationView) × (row : StationView)
        × (s.stations.now ≡ above ++ row ∷ below) × (length above ≡ length before)
        × TellsOf names setting watch traffic row }
    ensures each { (c : Settings) (names : LogNames) (keeps : Bool) (looks : List Look)
        (last : Look) (s : Snapshot) → IsSight c names keeps looks last s →
        length c.stations ≤ 32 → length last.watch.stations ≡ length c.stations →
        length last.watch.traffic ≡ length c.stations →
        length s.stations.now ≡ length c.stations }
{}

/// If no connection is open, nobody is shown as connected and data transfer isn't shown as started.
/// That is so since the first look that found no connection. If one is open, somebody is shown
/// since it was opened, and data transfer is shown as started just if it is.
pub fn the_centre_is_shown_as_it_is()
    ensures nobody { (c : Settings) (names : LogNames) (keeps : Bool) (looks : List Look)
        (last : Look) (s : Snapshot) → IsSight c names keeps looks last s → IsClosed last →
        (s.centre.peer ≡ None) × (s.centre.is_started ≡ false) }
    ensures somebody { (c : Settings) (names : LogNames) (keeps : Bool) (looks : List Look)
        (last : Look) (s : Snapshot) → IsSight c names keeps looks last s →
        (o : OpenConnection) → last.watch.connection.opening ≡ Some o →
        (s.centre.peer ≢ None) × (s.centre.is_started ≡ o.is_started)
        × (s.centre.since_ms ≡ o.since) }
    ensures never { (c : Settings) (names : LogNames) (keeps : Bool) (looks : List Look)
        (last : Look) (s : Snapshot) → IsSight c names keeps looks last s →
        (first : Look) (later : List Look) → looks ++ last ∷ [] ≡ first ∷ later →
        IsClosed first → AllByRecursion IsClosed later → IsClosed last →
        s.centre.since_ms ≡ first.watch.moment }
    ensures gone { (c : Settings) (names : LogNames) (keeps : Bool) (looks : List Look)
        (last : Look) (s : Snapshot) → IsSight c names keeps looks last s →
        (before later : List Look) (there first : Look) →
        looks ++ last ∷ [] ≡ before ++ there ∷ first ∷ later →
        there.watch.connection.opening ≢ None → IsClosed first →
        AllByRecursion IsClosed later → IsClosed last →
        s.centre.since_ms ≡ first.watch.moment }
{}

/// Of the queue the places of the settings are shown. As many of them are shown as taken, and as
/// not acknowledged, as were taken at one of the looks, less than a second ago. The numbers of the
/// last hour are those after all counts of the queue.
pub fn the_queue_is_shown_as_it_is()
    ensures places { (c : Settings) (names : LogNames) (keeps : Bool) (looks : List Look)
        (last : Look) (s : Snapshot) → IsSight c names keeps looks last s →
        s.queue.places ≡ c.line.queue }
    ensures taken { (c : Settings) (names : LogNames) (keeps : Bool) (looks : List Look)
        (last : Look) (s : Snapshot) → IsSight c names keeps looks last s →
        HasCounted (looks ++ last ∷ []) last.watch.moment s.queue.taken }
    ensures unacknowledged { (c : Settings) (names : LogNames) (keeps : Bool)
        (looks : List Look) (last : Look) (s : Snapshot) →
        IsSight c names keeps looks last s →
        HasCounted (looks ++ last ∷ []) last.watch.moment s.centre.unacknowledged }
    ensures hour { (c : Settings) (names : LogNames) (keeps : Bool) (looks : List Look)
        (last : Look) (s : Snapshot) → IsSight c names keeps looks last s →
        s.queue.hour.now ≡ (after (counts_after
        (record { turned = None; counts = [] }) (looks ++ last ∷ [])).counts).numbers }
{}

/// The line is shown as there just where it is there or receives, since when it is so, under the
/// name that the site gives it, and if it is away with the cause. The moment is that of the look,
/// and the run began at the first one. The state is shown as kept or not by the latest report of
/// it. Before the first report it is shown as kept if it is to be. Its slow syncs are those of the
/// latest sight. Each setting stands under its name. The version is the one that the run was begun
/// with. The latest lines of the log are those of the watch, in their order and in their own words.
pub fn line_state_and_settings_are_shown_as_they_are()
    ensures there { (c : Settings) (names : LogNames) (keeps : Bool) (looks : List Look)
        (last : Look) (s : Snapshot) → IsSight c names keeps looks last s →
        last.watch.line.presence ≡ presence.There → s.line.is_there ≡ true }
    ensures receiving { (c : Settings) (names : LogNames) (keeps : Bool) (looks : List Look)
        (last : Look) (s : Snapshot) → IsSight c names keeps looks last s →
        last.watch.line.presence ≡ presence.Receiving → s.line.is_there ≡ true }
    ensures away { (c : Settings) (names : LogNames) (keeps : Bool) (looks : List Look)
        (last : Look) (s : Snapshot) (cause : Option ErrorKind) →
        IsSight c names keeps looks last s → last.watch.line.presence ≡ presence.Away cause →
        s.line.is_there ≡ false }
    ensures cause { (c : Settings) (names : LogNames) (keeps : Bool) (looks : List Look)
        (last : Look) (s : Snapshot) (cause : ErrorKind) → IsSight c names keeps looks last s →
        last.watch.line.presence ≡ presence.Away (Some cause) →
        option_map (λ c. c.now) s.line.cause ≡ Some (line_cause_words cause) }
    ensures untried { (c : Settings) (names : LogNames) (keeps : Bool) (looks : List Look)
        (last : Look) (s : Snapshot) → IsSight c names keeps looks last s →
        last.watch.line.presence ≡ presence.Untried → s.line.is_there ≡ false }
    ensures since { (c : Settings) (names : LogNames) (keeps : Bool) (looks : List Look)
        (last : Look) (s : Snapshot) → IsSight c names keeps looks last s →
        s.line.since_ms ≡ last.watch.line.since }
    ensures named { (c : Settings) (names : LogNames) (keeps : Bool) (looks : List Look)
        (last : Look) (s : Snapshot) → IsSight c names keeps looks last s →
        (name : Bor (List ℕ)) → names.line ≡ Some name → s.name.now ≡ name.now }
    ensures moment { (c : Settings) (names : LogNames) (keeps : Bool) (looks : List Look)
        (last : Look) (s : Snapshot) → IsSight c names keeps looks last s →
        (s.now_ms ≡ last.watch.moment) × (s.wall_ms ≡ wall_of last.watch) }
    ensures began { (c : Settings) (names : LogNames) (keeps : Bool) (looks : List Look)
        (last : Look) (s : Snapshot) → IsSight c names keeps looks last s →
        (first : Look) (later : List Look) → looks ++ last ∷ [] ≡ first ∷ later →
        s.started_ms ≡ first.watch.moment }
    ensures lost { (c : Settings) (names : LogNames) (keeps : Bool) (looks : List Look)
        (last : Look) (s : Snapshot) → IsSight c names keeps looks last s →
        (before later : List Look) (l : Look) → looks ++ last ∷ [] ≡ before ++ l ∷ later →
        (cause : Option ErrorKind) → l.notice ≡ Some (notice.NotKept cause) →
        AllByRecursion IsSilent later → keeping_text s.keeping ≡ codes "not kept" }
    ensures kept { (c : Settings) (names : LogNames) (keeps : Bool) (looks : List Look)
        (last : Look) (s : Snapshot) → IsSight c names keeps looks last s →
        (before later : List Look) (l : Look) → looks ++ last ∷ [] ≡ before ++ l ∷ later →
        l.notice ≡ Some notice.KeptAgain → AllByRecursion IsSilent later →
        keeping_text s.keeping ≡ codes "kept" }
    ensures to_be_kept { (c : Settings) (names : LogNames) (looks : List Look) (last : Look)
        (s : Snapshot) → IsSight c names true looks last s →
        AllByRecursion IsSilent (looks ++ last ∷ []) → keeping_text s.keeping ≡ codes "kept" }
    ensures not_to_be_kept { (c : Settings) (names : LogNames) (looks : List Look)
        (last : Look) (s : Snapshot) → IsSight c names false looks last s →
        AllByRecursion IsSilent (looks ++ last ∷ []) → keeping_text s.keeping ≡ codes "none" }
    ensures latest { (c : Settings) (names : LogNames) (keeps : Bool) (looks : List Look)
        (last : Look) (s : Snapshot) → IsSight c names keeps looks last s →
        AreEvents (take 20 last.watch.latest) s.latest.now }
    ensures syncs { (c : Settings) (names : LogNames) (keeps : Bool) (looks : List Look)
        (last : Look) (s : Snapshot) → IsSight c names keeps looks last s →
        s.syncs ≡ last.watch.syncs }
    ensures settings { (c : Settings) (names : LogNames) (keeps : Bool) (looks : List Look)
        (last : Look) (s : Snapshot) → IsSight c names keeps looks last s →
        ShowsSettings c s.settings.now }
    ensures version { (c : Settings) (names : LogNames) (keeps : Bool) (looks : List Look)
        (last : Look) (s : Snapshot) → (sight : IsSight c names keeps looks last s) →
        s.version.now ≡ sight.fresh.version.now }
{}
