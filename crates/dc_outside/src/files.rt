// The files, by their paths. Each call is told apart by its place in the order of calls, and may fail.
ghost use Rattle.dc_outside.specs.Disk.{bytes_at, paths_below};
ghost use Rattle.dc_outside.specs.State.{FilesState};
ghost use Rattle.dc_outside.specs.Steps.{Looks, Writing, Syncing, Renaming, SyncingNames, Removing, Takes};

use dc_text::{List, OutOfMemory, Text};

#[derive(Clone, Copy, Debug, PartialEq, Eq)]
pub enum FilesError {
    Failed,
    OutOfMemory,
}

impl From<OutOfMemory> for FilesError {
    ghost use Rattle.std.specs.Prelude.{◌≡◌};
    ghost use Rattle.dc_outside.specs.declared.files.FilesError.TheVariants.{OutOfMemory};

    ghost from_gives = { λ _ e. e ≡ OutOfMemory };

    fn from(_: OutOfMemory) -> Self {
        FilesError::OutOfMemory
    }
}

/// What a call does.
#[derive(Clone, Copy, Debug, PartialEq, Eq)]
pub enum FilesOp {
    Read,
    List,
    Write,
    Sync,
    Rename,
    SyncNames,
    Remove,
}

/// A call that was answered, and not refused for want of memory.
#[derive(Drop)]
pub struct FilesCall {
    pub op: FilesOp,
    /// The path of the file or folder: that of the new name at a rename, and no bytes where names are synced.
    pub path: Text,
    /// Whether it was done. Else it failed.
    pub ok: bool,
}

/// The files that a program works on. A call that is refused for want of memory has done nothing.
pub trait Files {
    ghost files: { Self → FilesState };

    /// The bytes of the file at the path, or `None` where no file stands there.
    fn read(&mut self, path: &Text) -> Result<Option<Text>, FilesError>
        ensures { Looks FilesOp.Read path.now (λ disk. bytes_at disk path.now) (files self.old) (files self.new) result };

    /// The paths of all files at any depth below the folder, relative to it, in byte order. There are none below a
    /// folder that isn't there.
    fn list(&mut self, dir: &Text) -> Result<List<Text>, FilesError>
        ensures { Looks FilesOp.List dir.now (λ disk. paths_below disk dir.now) (files self.old) (files self.new) result };

    /// Makes the file, or replaces its bytes, with exactly these permission bits, and makes missing folders.
    fn write(&mut self, path: &Text, bytes: &[u8], mode: u16) -> Result<(), FilesError>
        ensures { Takes (Writing path.now (record { bytes = bytes.now; mode = mode })) (files self.old) (files self.new) result };

    /// Lets no crash take what was written at the path.
    fn sync(&mut self, path: &Text) -> Result<(), FilesError>
        ensures { Takes (Syncing path.now) (files self.old) (files self.new) result };

    /// Puts the file at `from` in the place of `to`.
    fn rename(&mut self, from: &Text, to: &Text) -> Result<(), FilesError>
        ensures { Takes (Renaming from.now to.now) (files self.old) (files self.new) result };

    /// Lets no crash undo the renames and removals so far.
    fn sync_names(&mut self) -> Result<(), FilesError>
        ensures { Takes SyncingNames (files self.old) (files self.new) result };

    /// Takes the file away. Where none stands nothing is changed.
    fn remove(&mut self, path: &Text) -> Result<(), FilesError>
        ensures { Takes (Removing path.now) (files self.old) (files self.new) result };
}
