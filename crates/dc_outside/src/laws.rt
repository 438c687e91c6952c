//! Laws of the disk, over the definitions alone.
ghost use Rattle.std.specs.Prelude.{◌≡◌, ◌↔◌, ℕ, List, Option, Some, Result};
ghost use Rattle.dc_outside.specs.Disk.{Disk, DiskState, File, MayLeave, IsSound, IsDurable, HasLeftMore, Left, moment};
ghost use Rattle.dc_outside.specs.State.{FilesState};
ghost use Rattle.dc_outside.specs.Steps.{Step, Takes, done};
ghost use Rattle.dc_outside.specs.declared.files.FilesError.{FilesError};
ghost use Rattle.std.specs.FinMap as map;

/// What a crash would have left from a moment on, after a call: what it would have left by then, and at most what it may leave now.
pub fn calls_join()
    ensures { (step : Step) (old new : FilesState) (result : Result (Unit {0}) FilesError) (before after : Disk)
        → Takes step old new result → old.view.disk ≡ Some before → new.view.disk ≡ Some after
        → HasLeftMore (MayLeave after.current) before after }
{}

/// From this moment on a crash leaves what it may leave now.
pub fn moments_begin_now()
    ensures { (disk : Disk) (path : List ℕ) (entry : Option File) → Left disk (moment disk) path entry ↔ MayLeave disk.current path entry }
{}

/// A crash may leave what stands, and a call that is done keeps that so.
pub fn what_stands_may_be_left()
    ensures { (step : Step) (current : DiskState) → IsSound current → IsSound (done step current) }
{}

/// Where nothing is kept as pending, nothing is.
pub fn nothing_kept_is_pending()
    ensures { (current : DiskState) → current.pending ≡ map.empty → IsDurable current }
{}
