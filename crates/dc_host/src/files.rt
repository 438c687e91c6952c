// The files of the host. They tell nothing of what they hold.
ghost use Rattle.std.specs.Prelude.{◌≡◌, ◌≤◌, [], None, length, IfOk, IfSome, OnErr, OnOk, is_some, false};
ghost use Rattle.std.specs.List.Sorted.{IsStrictlySortedBy};
ghost use Rattle.std.specs.FinMap as map;
ghost use Rattle.dc_text.specs.Maps.{text_cmp};
ghost use Rattle.dc_outside.specs.Counts.{Counted};
ghost use Rattle.dc_host.specs.Folders.{IsKept, Keeps};
ghost use Rattle.dc_host.specs.Known.{known_renamed};
ghost use Rattle.dc_host.specs.Locks.{KeepsLocks, KeepsLocksBut};

use crate::counts::CallCounts;
use crate::folders::ChangedFolders;
use crate::guard::Guard;
use crate::paths::{done, failed, is_missing, join, path_of};
use crate::search::files_below;
use crate::system::{Handle, HostSystem, System};
use dc_outside::{Files, FilesError};
use dc_text::{List, Mem, Text, TextMap};
use std::alloc::Global;
use std::fs::File;
use std::io::Read;
use std::rt::Files as SystemFiles;

/// A file with more bytes than these isn't read.
pub const MAX_FILE: usize = 67_108_864;

/// The files of the host. Each error of a call is a fault but for a file that isn't there, and so are a file that is too
/// large, what isn't a file in the place of one, a file or folder that another program has locked, and a path or the name of a file
/// that isn't UTF-8. The folders that are listed, the files that are read elsewhere, and those that take their places stay locked to
/// the end. A folder that is listed is made where it isn't there, and the file `.lock` in it is its lock, and none of its files. Only the file that was
/// written last is renamed.
#[derive(Drop)]
pub struct HostFiles<S: System> {
    alloc: Global,
    system: S,
    changed: ChangedFolders,
    guard: Guard<S::Handle>,
    counts: CallCounts,
}

impl<R: SystemFiles<File = File> + Alloc + Clone + Drop> HostFiles<HostSystem<R>> {
    /// Files of which no call failed and no folder changed. What stands at the paths of `open_to_all` is read without a lock.
    pub fn new(alloc: Global, rt: R, open_to_all: List<Text>) -> HostFiles<HostSystem<R>>
        ensures changed { result.changed ≡ map.empty }
        ensures counts { result.counts ≡ record { faults = 0; refusals = 0 } }
        ensures locks { result.guard.locks ≡ record { read = []; placed = map.empty } }
        ensures open_to_all { result.guard.open_to_all ≡ open_to_all }
    {
        HostFiles::over(alloc, HostSystem::new(rt), open_to_all)
    }
}

impl<S: System> HostFiles<S> {
    /// The same over any system.
    pub fn over(alloc: Global, system: S, open_to_all: List<Text>) -> HostFiles<S>
        ensures changed { result.changed ≡ map.empty }
        ensures counts { result.counts ≡ record { faults = 0; refusals = 0 } }
        ensures locks { result.guard.locks ≡ record { read = []; placed = map.empty } }
        ensures open_to_all { result.guard.open_to_all ≡ open_to_all }
    {
        HostFiles {
            alloc,
            system,
            changed: ChangedFolders::new(alloc),
            guard: Guard::new(alloc, open_to_all),
            counts: CallCounts::new(),
        }
    }

    // A file that is known to be too large isn't read.
    #[tactic(auto, using(crate::proofs::LockLemmas::keeps_locks_same))]
    fn read_file(&mut self, path: &Text) -> Result<Option<Text>, FilesError>
        ensures small { IfOk result (λ found. IfSome found (λ bytes. length bytes ≤ MAX_FILE)) }
        ensures known { IfOk result (λ found. map.contains_key self.new.guard.known path.now ≡ is_some found) }
        ensures changed { self.new.changed ≡ self.old.changed }
        ensures locks { KeepsLocks self.old.guard.locks self.new.guard.locks }
        ensures counts { self.new.counts ≡ self.old.counts }
    {
        let Some(file) = self.guard.open(&mut self.system, path, path_of(path)?)? else {
            return Ok(None);
        };
        let size = done(file.status())?.size;
        if size > MAX_FILE as u64 {
            return Err(FilesError::Failed);
        }
        Ok(Some(read_all(self.alloc, file, size)?))
    }

    #[tactic(auto, using(crate::proofs::FolderLemmas::keeps_same, crate::proofs::FolderLemmas::keeps_on, crate::proofs::FolderLemmas::kept_on, crate::proofs::LockLemmas::keeps_locks_same, crate::proofs::OrderLemmas::keys_rise))]
    fn list_files(&mut self, dir: &Text) -> Result<List<Text>, FilesError>
        ensures order { IfOk result (λ paths. IsStrictlySortedBy text_cmp paths) }
        ensures changed { Keeps self.old.changed self.new.changed }
        ensures locks { KeepsLocks self.old.guard.locks self.new.guard.locks }
        ensures counts { self.new.counts ≡ self.old.counts }
    {
        self.guard.enter(&mut self.system, &mut self.changed, dir)?;
        let found = files_below(self.alloc, &mut self.system, dir)?;
        Ok(known_paths(self.alloc, &mut self.guard, dir, &found)?)
    }

    #[tactic(auto, using(crate::proofs::FolderLemmas::keeps_same, crate::proofs::FolderLemmas::keeps_on, crate::proofs::FolderLemmas::kept_on))]
    fn write_file(&mut self, path: &Text, bytes: &[u8], mode: u16) -> Result<(), FilesError>
        ensures kept { OnOk result (IsKept self.new.changed path.now) }
        ensures changed { Keeps self.old.changed self.new.changed }
        ensures locks { self.new.guard.locks ≡ self.old.guard.locks }
        ensures known { self.new.guard.known ≡ self.old.guard.known }
        ensures counts { self.new.counts ≡ self.old.counts }
    {
        let name = path_of(path)?;
        self.changed.mark(name)?;
        self.guard.write(
            &mut self.system,
            &mut self.changed,
            (path, name),
            bytes,
            mode,
        )
    }

    // The folders are synced too, since the file may be new in its own, and that in another.
    fn sync_file(&mut self, path: &Text) -> Result<(), FilesError>
        ensures changed { self.new.changed ≡ self.old.changed }
        ensures locks { self.new.guard.locks ≡ self.old.guard.locks }
        ensures known { self.new.guard.known ≡ self.old.guard.known }
        ensures counts { self.new.counts ≡ self.old.counts }
    {
        let name = path_of(path)?;
        self.guard.sync(&mut self.system, path, name)?;
        self.changed.sync_with(&mut self.system, name)
    }

    #[tactic(auto, using(crate::proofs::FolderLemmas::keeps_same, crate::proofs::FolderLemmas::keeps_on, crate::proofs::FolderLemmas::kept_on, crate::proofs::LockLemmas::keeps_but_same, crate::proofs::LockLemmas::keeps_locks_same))]
    fn rename_file(&mut self, from: &Text, to: &Text) -> Result<(), FilesError>
        ensures from { OnOk result (IsKept self.new.changed from.now) }
        ensures to { OnOk result (IsKept self.new.changed to.now) }
        ensures known { OnOk result (self.new.guard.known ≡ known_renamed self.old.guard.known from.now to.now) }
        ensures changed { Keeps self.old.changed self.new.changed }
        ensures locks { KeepsLocksBut to.now self.old.guard.locks self.new.guard.locks }
        ensures failed { OnErr result (KeepsLocks self.old.guard.locks self.new.guard.locks) }
        ensures counts { self.new.counts ≡ self.old.counts }
    {
        let old = path_of(from)?;
        let new = path_of(to)?;
        self.changed.mark_both(old, new)?;
        self.guard.rename(&mut self.system, (from, old), (to, new))
    }

    #[tactic(auto, using(crate::proofs::FolderLemmas::keeps_same, crate::proofs::FolderLemmas::keeps_on, crate::proofs::FolderLemmas::kept_on))]
    fn remove_file(&mut self, path: &Text) -> Result<(), FilesError>
        ensures kept { OnOk result (IsKept self.new.changed path.now) }
        ensures known { OnOk result (map.contains_key self.new.guard.known path.now ≡ false) }
        ensures changed { Keeps self.old.changed self.new.changed }
        ensures locks { self.new.guard.locks ≡ self.old.guard.locks }
        ensures counts { self.new.counts ≡ self.old.counts }
    {
        let name = path_of(path)?;
        self.changed.mark(name)?;
        match self.system.remove(name) {
            Err(error) if !is_missing(&error) => Err(failed(&error)),
            _ => {
                self.guard.forget(path);
                Ok(())
            }
        }
    }
}

impl<S: System> Files for HostFiles<S> {
    ghost files = { λ h. record { view = record { disk = None; calls = None }; counts = h.counts } };

    fn read(&mut self, path: &Text) -> Result<Option<Text>, FilesError>
        ensures small { IfOk result (λ found. IfSome found (λ bytes. length bytes ≤ MAX_FILE)) }
        ensures known { IfOk result (λ found. map.contains_key self.new.guard.known path.now ≡ is_some found) }
        ensures changed { self.new.changed ≡ self.old.changed }
        ensures locks { KeepsLocks self.old.guard.locks self.new.guard.locks }
        ensures counts { Counted self.old.counts self.new.counts result }
    {
        let answer = self.read_file(path);
        self.counts.count(answer)
    }

    fn list(&mut self, dir: &Text) -> Result<List<Text>, FilesError>
        ensures order { IfOk result (λ paths. IsStrictlySortedBy text_cmp paths) }
        ensures changed { Keeps self.old.changed self.new.changed }
        ensures locks { KeepsLocks self.old.guard.locks self.new.guard.locks }
        ensures counts { Counted self.old.counts self.new.counts result }
    {
        let answer = self.list_files(dir);
        self.counts.count(answer)
    }

    fn write(&mut self, path: &Text, bytes: &[u8], mode: u16) -> Result<(), FilesError>
        ensures kept { OnOk result (IsKept self.new.changed path.now) }
        ensures changed { Keeps self.old.changed self.new.changed }
        ensures locks { self.new.guard.locks ≡ self.old.guard.locks }
        ensures known { self.new.guard.known ≡ self.old.guard.known }
        ensures counts { Counted self.old.counts self.new.counts result }
    {
        let answer = self.write_file(path, bytes, mode);
        self.counts.count(answer)
    }

    fn sync(&mut self, path: &Text) -> Result<(), FilesError>
        ensures changed { self.new.changed ≡ self.old.changed }
        ensures locks { self.new.guard.locks ≡ self.old.guard.locks }
        ensures known { self.new.guard.known ≡ self.old.guard.known }
        ensures counts { Counted self.old.counts self.new.counts result }
    {
        let answer = self.sync_file(path);
        self.counts.count(answer)
    }

    fn rename(&mut self, from: &Text, to: &Text) -> Result<(), FilesError>
        ensures from { OnOk result (IsKept self.new.changed from.now) }
        ensures to { OnOk result (IsKept self.new.changed to.now) }
        ensures known { OnOk result (self.new.guard.known ≡ known_renamed self.old.guard.known from.now to.now) }
        ensures changed { Keeps self.old.changed self.new.changed }
        ensures locks { KeepsLocksBut to.now self.old.guard.locks self.new.guard.locks }
        ensures failed { OnErr result (KeepsLocks self.old.guard.locks self.new.guard.locks) }
        ensures counts { Counted self.old.counts self.new.counts result }
    {
        let answer = self.rename_file(from, to);
        self.counts.count(answer)
    }

    fn sync_names(&mut self) -> Result<(), FilesError>
        ensures none { OnOk result (self.new.changed ≡ map.empty) }
        ensures err { OnErr result (self.new.changed ≡ self.old.changed) }
        ensures locks { self.new.guard.locks ≡ self.old.guard.locks }
        ensures known { self.new.guard.known ≡ self.old.guard.known }
        ensures counts { Counted self.old.counts self.new.counts result }
    {
        let answer = self.changed.sync(&mut self.system);
        self.counts.count(answer)
    }

    fn remove(&mut self, path: &Text) -> Result<(), FilesError>
        ensures kept { OnOk result (IsKept self.new.changed path.now) }
        ensures known { OnOk result (map.contains_key self.new.guard.known path.now ≡ false) }
        ensures changed { Keeps self.old.changed self.new.changed }
        ensures locks { self.new.guard.locks ≡ self.old.guard.locks }
        ensures counts { Counted self.old.counts self.new.counts result }
    {
        let answer = self.remove_file(path);
        self.counts.count(answer)
    }
}

// The paths that were found below the folder, in byte order. They are known then.
fn known_paths<H: Handle + Drop>(
    alloc: Global,
    guard: &mut Guard<H>,
    dir: &Text,
    found: &TextMap<()>,
) -> Mem<List<Text>>
    ensures paths { IfOk result (λ paths. paths ≡ map.keys found.now) }
    ensures locks { guard.new.locks ≡ guard.old.locks }
    ensures written { guard.new.written ≡ guard.old.written }
{
    let mut paths = List::new(alloc);
    for (path, _) in found.iter() {
        guard.know(join(alloc, dir.bytes(), path)?)?;
        paths.push(Text::from_bytes(alloc, path)?)?;
    }
    Ok(paths)
}

// The bytes of the file, unless there are too many. It is thought to have so many.
fn read_all<F: Read + Drop>(alloc: Global, file: F, size: u64) -> Result<Text, FilesError>
    ensures small { IfOk result (λ bytes. length bytes ≤ MAX_FILE) }
    ensures whole { IfOk result (λ bytes. IfSome (F.remaining file) (λ all. bytes ≡ all)) }
{
    let mut bytes = room_for(alloc, size)?;
    let mut start = file.take(MAX_FILE as u64 + 1);
    match start.read_to_end(&mut bytes) {
        Ok(count) if count <= MAX_FILE => Ok(Text::from_vec(bytes)),
        Ok(_) => Err(FilesError::Failed),
        Err(error) => Err(failed(&error)),
    }
}

// Room for the bytes of a file, and for one more, by which a read finds its end without other room.
fn room_for(alloc: Global, size: u64) -> Mem<Vec<u8>>
    ensures { IfOk result (λ room. room.items ≡ []) }
{
    let most = usize::try_from(size).unwrap_or(MAX_FILE).min(MAX_FILE);
    Ok(Vec::with_capacity(alloc, most + 1)?)
}
