//! What the calls on the names of a directory say.
ghost use Rattle.std.specs.Prelude.{◌≡◌, ◌≢◌, ◌⊎◌, ◌∷◌, ◌++◌, ◌<◌, ◌≤◌, ℕ, List, Bool, true};
ghost use Rattle.std.specs.Prelude.{false, Some, codes};
ghost use Rattle.std.specs.Fmt.{decimal};
ghost use Rattle.std.specs.IoError.{error_kind};
ghost use Rattle.std.specs.declared.io.Error.{Error};
ghost use Rattle.std.specs.declared.io.ErrorKind.TheVariants.{AlreadyExists, OutOfMemory};
ghost use Rattle.sqlite_disk.specs.Memory.{memory_bytes};
ghost use Rattle.sqlite_disk.specs.declared.memory.Memory.{Memory};
ghost use Rattle.sqlite_std_file.specs.declared.pair.OpenError.TheVariants as openings;
ghost use Rattle.state.specs.declared.folder.FolderFault.{FolderFault};
ghost use Rattle.state.specs.declared.folder.FolderFault.TheVariants.{InUse, NoMemory};
ghost use Rattle.state.specs.Copying.{IsCopied};
ghost use Rattle.state.specs.FileNames.{HasMark, IsLockTaken, IsMarkedAs, IsPutAside, NameStep};
ghost use Rattle.state.specs.FileNames.{Locked, Made, Renamed, Sought, Synced};
ghost use Rattle.state.specs.FolderFaults.{IsRefusal, IsUnusable};

/// A mark counts only if it is on the disk. The file of the other name was renamed, then a file of
/// the mark's name was found, and the latest call is a sync of the names that went well.
pub fn a_mark_is_on_the_disk_where_it_is_told()
    ensures { (from to : List ℕ) (before after : List NameStep) →
        IsMarkedAs from to (Some before) (Some after) → (was_there : Bool) × (after
        ≡ Synced true ∷ Sought to (Some true) ∷ Renamed from to (Some was_there) ∷ before) }
{}

/// Files are put aside as a pair, under one number from 1 to 9, and the names are synced behind
/// that. No pair of before is written over while one of the first eight numbers is free: right
/// before, there was no file of either name.
pub fn files_are_put_aside_in_pairs()
    ensures { (after : List NameStep) → IsPutAside (Some after) → (n : ℕ) × (1 ≤ n) × (n ≤ 9)
        × (first : Bool) × (second : Bool) × (earlier : List NameStep)
        × (after ≡ Synced true
        ∷ Renamed (codes "segments-wal") ((codes "unread-" ++ decimal n) ++ codes "-wal")
        (Some second)
        ∷ Renamed (codes "segments") (codes "unread-" ++ decimal n) (Some first)
        ∷ earlier) × (n < 9 → (front : List NameStep)
        × (earlier ≡ Sought ((codes "unread-" ++ decimal n) ++ codes "-wal") (Some false)
        ∷ Sought (codes "unread-" ++ decimal n) (Some false) ∷ front)) }
{}

/// A directory counts as locked only if it was before, or if the latest call took the lock: not if
/// another process has it, nor if nothing was answered.
pub fn a_lock_is_told_where_it_is_taken()
    ensures { (after : List NameStep) → IsLockTaken false (Some after) →
        (earlier : List NameStep) × (after ≡ Locked (Some true) ∷ earlier) }
{}

/// A directory that is opened has a mark, which was found there or made. It is made as good, only
/// if there is none of either kind, and the names are synced behind that.
pub fn a_mark_is_made_where_there_is_none()
    ensures { (before after : List NameStep) → HasMark (Some before) (Some after) →
        (after ≡ Sought (codes "kept") (Some true) ∷ before)
        ⊎ ((after ≡ Sought (codes "stale") (Some true) ∷ Sought (codes "kept") (Some false)
        ∷ before) ⊎ (after ≡ Synced true ∷ Made (codes "kept") true
        ∷ Sought (codes "stale") (Some false) ∷ Sought (codes "kept") (Some false) ∷ before)) }
{}

/// Who looks at a directory looks at all octets of a file, however many they are.
pub fn a_file_is_looked_at_whole()
    ensures { (octets : List ℕ) (before after : Memory) → IsCopied (Some octets) before after →
        memory_bytes after ≡ memory_bytes before ++ octets }
{}

/// A directory is refused for its reason. It is in use only if another process has its files. If a
/// hot journal stands there, that is named. Want of memory is told as that. For all else the file
/// is named that can't be used, and the system's cause.
pub fn a_directory_is_refused_for_its_reason()
    ensures busy { (name : List ℕ) (why : FolderFault) →
        IsRefusal name openings.Busy why → why ≡ InUse }
    ensures journal { (name : List ℕ) (why : FolderFault) →
        IsRefusal name openings.HotJournal why →
        IsUnusable (codes "segments-journal") AlreadyExists why }
    ensures memory { (name : List ℕ) (why : FolderFault) →
        IsRefusal name openings.OutOfMemory why → why ≡ NoMemory }
    ensures refused { (name : List ℕ) (fault : Error) (why : FolderFault) →
        error_kind fault ≡ OutOfMemory → IsRefusal name (openings.Io fault) why →
        why ≡ NoMemory }
    ensures device { (name : List ℕ) (fault : Error) (why : FolderFault) →
        error_kind fault ≢ OutOfMemory → IsRefusal name (openings.Io fault) why →
        IsUnusable name (error_kind fault) why }
{}
