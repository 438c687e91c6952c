// Files in memory: what they hold is known, their faults are chosen, and they keep their calls and all that stood before.
ghost use Rattle.std.specs.Prelude.{◌≡◌, ℕ, List, ◌∷◌, ◌++◌, ◌||◌, [], true, length, IfOk, OnErr, OnOk, Some, option_map, is_none};
ghost use Rattle.std.specs.Option.{option_copied};
ghost use Rattle.std.specs.FinMap as map;
ghost use Rattle.dc_outside.specs.Disk.{file_at, bytes_at, after_front, paths_below, then_stands};
ghost use Rattle.dc_outside.specs.Crash.{IsLeftBy};
ghost use Rattle.dc_outside.specs.Steps.{Looks, Takes, Writing, Syncing, Renaming, SyncingNames, Removing};
ghost use Rattle.dc_outside.specs.Counts.{Counted};
ghost use Rattle.dc_outside.specs.Memory.{files_from, files_of, after_call, fresh, fails_next, FilesFailsWhere, IsLogged};

use crate::crashing::{Pick, left_files};
use crate::disk_state::{DiskState, Stored};
use crate::{Files, FilesCall, FilesError, FilesOp};
use dc_text::{Copied, List, Mem, Text, TextMap};
use std::alloc::Global;
use std::marker::Model;

const PLAIN_MODE: u16 = 0o644;

#[derive(Drop)]
pub struct MemFiles {
    alloc: Global,
    current: DiskState,
    past: List<DiskState>,
    failing: Vec<u64>,
    // The number of a call from which on each fails.
    stopped: Option<u64>,
    calls: List<FilesCall>,
    faults: u64,
    refusals: u64,
}

impl Model for MemFiles {
    ghost use Rattle.std.specs.Coded.{codes};
    ghost use Rattle.dc_outside.specs.Disk.{disk_code};
    ghost use Rattle.dc_outside.specs.Memory.{MemFilesState};

    ghost Value = { MemFilesState };

    ghost coded = { Prim.hlevel (codes, disk_code) };

    ghost view = { λ m. record {
      disk = record { current = m.current; past = m.past };
      failing = m.failing.items;
      stopped = m.stopped;
      calls = m.calls;
      counts = record { faults = m.faults; refusals = m.refusals };
    } };
}

impl MemFiles {
    /// Files with these paths and bytes, of mode 644, on which nothing is pending. A later entry of a path takes the
    /// place of an earlier one. Calls are numbered from 0, and those in `failing` fail, with nothing done.
    pub fn new(alloc: Global, entries: &[(Text, Text)], failing: &[u64]) -> Mem<MemFiles>
        ensures { IfOk result (λ files. files ≡ fresh (files_from entries.now) failing.now None) }
    {
        MemFiles::made(alloc, stored_files(alloc, entries)?, failing, None)
    }

    /// The same over these entries, but the call of that number and every later one fail, with nothing done.
    pub fn stopped_from(alloc: Global, entries: &[(Text, Text)], first: u64) -> Mem<MemFiles>
        ensures { IfOk result (λ files. files ≡ fresh (files_from entries.now) [] (Some first)) }
    {
        MemFiles::made(alloc, stored_files(alloc, entries)?, &[], Some(first))
    }

    fn made(
        alloc: Global,
        files: TextMap<Stored>,
        failing: &[u64],
        stopped: Option<u64>,
    ) -> Mem<MemFiles>
        ensures { IfOk result (λ new. new ≡ fresh files failing.now stopped) }
    {
        Ok(MemFiles {
            alloc,
            current: DiskState {
                files,
                pending: TextMap::new(alloc),
            },
            past: List::new(alloc),
            failing: failing.to_vec(alloc)?,
            stopped,
            calls: List::new(alloc),
            faults: 0,
            refusals: 0,
        })
    }

    /// All calls, in order.
    pub fn calls(&self) -> &List<FilesCall>
        ensures { result.now ≡ self.now.calls }
    {
        &self.calls
    }

    /// The permission bits of the file at the path, or `None` where no file stands there.
    pub fn mode(&self, path: &Text) -> Option<u16>
        ensures { result ≡ option_map (λ file. file.mode) (file_at self.now.disk path.now) }
    {
        match self.current.files.get(path.bytes()) {
            Some(file) => Some(file.mode),
            None => None,
        }
    }

    /// The files after a crash now, on which nothing is pending. No call fails then.
    pub fn after_crash(&self, pick: Pick) -> Mem<MemFiles>
        ensures fresh { IfOk result (λ files. files ≡ fresh files.disk.current.files [] None) }
        ensures left { IfOk result (λ files. (path : List ℕ) → IsLeftBy pick self.now.disk path (file_at files.disk path)) }
    {
        let files = left_files(self.alloc, pick, &self.current, self.past.as_slice())?;
        MemFiles::made(self.alloc, files, &[], None)
    }

    // Whether the next call is one that fails.
    fn is_failing(&self) -> bool
        ensures { result ≡ fails_next self.now }
    {
        let number = self.calls.len() as u64;
        let stopped = match self.stopped {
            Some(first) => first <= number,
            None => false,
        };
        stopped || self.failing.contains(&number)
    }

    // Keeps a call.
    fn log(&mut self, op: FilesOp, path: &Text, ok: bool) -> Mem<()>
        ensures ok { OnOk result (self.new ≡ record self.old { calls = self.old.calls ++ record { op = op; path = path.now; ok = ok } ∷ [] }) }
        ensures err { OnErr result (self.new ≡ self.old) }
    {
        let path = path.copy()?;
        self.calls.push(FilesCall { op, path, ok })
    }

    // Fails a call that is one to fail.
    fn begin(&mut self, op: FilesOp, path: &Text) -> Result<(), FilesError>
        ensures fails { FilesFailsWhere (fails_next self.old) result }
        ensures ok { OnOk result (self.new ≡ self.old) }
        ensures calls { OnErr result (IsLogged op path.now self.old.calls self.new.calls result) }
        ensures rest { self.new ≡ record self.old { calls = self.new.calls } }
    {
        if self.is_failing() {
            self.log(op, path, false)?;
            return Err(FilesError::Failed);
        }
        Ok(())
    }

    // Counts a call by its answer.
    fn count<T>(&mut self, answer: Result<T, FilesError>) -> Result<T, FilesError>
        ensures answer { result ≡ answer }
        ensures rest { self.new ≡ record self.old { counts = self.new.counts } }
        ensures counts { Counted self.old.counts self.new.counts result }
    {
        match &answer {
            Ok(_) => {}
            Err(FilesError::Failed) => self.faults = self.faults.saturating_add(1),
            Err(FilesError::OutOfMemory) => self.refusals = self.refusals.saturating_add(1),
        }
        answer
    }

    // A copy of the bytes at the path.
    fn bytes_at(&self, path: &Text) -> Mem<Option<Text>>
        ensures { IfOk result (λ found. found ≡ bytes_at self.now.disk path.now) }
    {
        match self.current.files.get(path.bytes()) {
            Some(file) => Ok(Some(file.bytes.copy()?)),
            None => Ok(None),
        }
    }

    // A copy of the file at the path.
    fn file_at(&self, path: &Text) -> Mem<Option<Stored>>
        ensures { IfOk result (λ found. found ≡ file_at self.now.disk path.now) }
    {
        match self.current.files.get(path.bytes()) {
            Some(file) => Ok(Some(file.copied()?)),
            None => Ok(None),
        }
    }

    // The paths of the files below the folder.
    fn paths_below(&self, dir: &Text) -> Mem<List<Text>>
        ensures { IfOk result (λ found. found ≡ paths_below self.now.disk dir.now) }
    {
        let mut front = dir.copy()?;
        front.push(b'/')?;
        let mut found = List::new(self.alloc);
        for (path, _) in self.current.files.iter() {
            if let Some(rest) = after_front(path, front.bytes()) {
                found.push(Text::from_bytes(self.alloc, rest)?)?;
            }
        }
        Ok(found)
    }

    // Keeps a call that was done, and what stands after it.
    fn stand(&mut self, op: FilesOp, path: &Text, current: DiskState) -> Mem<()>
        ensures ok { OnOk result (self.new ≡ record self.old {
          disk = then_stands self.old.disk current;
          calls = self.old.calls ++ record { op = op; path = path.now; ok = true } ∷ [];
        }) }
        ensures err { OnErr result (self.new ≡ self.old) }
    {
        let before = self.current.copy()?;
        self.log(op, path, true)?;
        match self.past.push(before) {
            Ok(()) => {}
            Err(error) => {
                let _ = self.calls.pop();
                return Err(error);
            }
        }
        self.current = current;
        Ok(())
    }
}

// What the call adds to the calls and the disk, and to nothing else. `count` adds to the counts.
impl MemFiles {
    fn read_call(&mut self, path: &Text) -> Result<Option<Text>, FilesError>
        ensures value { IfOk result (λ found. found ≡ bytes_at self.old.disk path.now) }
        ensures fails { FilesFailsWhere (fails_next self.old) result }
        ensures calls { IsLogged FilesOp.Read path.now self.old.calls self.new.calls result }
        ensures rest { self.new ≡ record self.old { calls = self.new.calls } }
    {
        self.begin(FilesOp::Read, path)?;
        let found = self.bytes_at(path)?;
        self.log(FilesOp::Read, path, true)?;
        Ok(found)
    }

    fn list_call(&mut self, dir: &Text) -> Result<List<Text>, FilesError>
        ensures value { IfOk result (λ found. found ≡ paths_below self.old.disk dir.now) }
        ensures fails { FilesFailsWhere (fails_next self.old) result }
        ensures calls { IsLogged FilesOp.List dir.now self.old.calls self.new.calls result }
        ensures rest { self.new ≡ record self.old { calls = self.new.calls } }
    {
        self.begin(FilesOp::List, dir)?;
        let found = self.paths_below(dir)?;
        self.log(FilesOp::List, dir, true)?;
        Ok(found)
    }

    fn write_call(&mut self, path: &Text, bytes: &[u8], mode: u16) -> Result<(), FilesError>
        ensures fails { FilesFailsWhere (fails_next self.old) result }
        ensures ok { OnOk result (self.new ≡ after_call self.old (Writing path.now (record { bytes = bytes.now; mode = mode }))) }
        ensures calls { OnErr result (IsLogged FilesOp.Write path.now self.old.calls self.new.calls result) }
        ensures err { OnErr result (self.new ≡ record self.old { calls = self.new.calls }) }
    {
        self.begin(FilesOp::Write, path)?;
        let bytes = Text::from_bytes(self.alloc, bytes)?;
        let now = self.current.copy()?;
        let current = now.written(self.alloc, path, Stored { bytes, mode })?;
        self.stand(FilesOp::Write, path, current)?;
        Ok(())
    }

    fn sync_call(&mut self, path: &Text) -> Result<(), FilesError>
        ensures fails { FilesFailsWhere (fails_next self.old) result }
        ensures ok { OnOk result (self.new ≡ after_call self.old (Syncing path.now)) }
        ensures calls { OnErr result (IsLogged FilesOp.Sync path.now self.old.calls self.new.calls result) }
        ensures err { OnErr result (self.new ≡ record self.old { calls = self.new.calls }) }
    {
        self.begin(FilesOp::Sync, path)?;
        let current = self.current.copy()?.synced(path);
        self.stand(FilesOp::Sync, path, current)?;
        Ok(())
    }

    fn rename_call(&mut self, from: &Text, to: &Text) -> Result<(), FilesError>
        ensures fails { FilesFailsWhere (fails_next self.old || is_none (file_at self.old.disk from.now)) result }
        ensures ok { OnOk result (self.new ≡ after_call self.old (Renaming from.now to.now)) }
        ensures calls { OnErr result (IsLogged FilesOp.Rename to.now self.old.calls self.new.calls result) }
        ensures err { OnErr result (self.new ≡ record self.old { calls = self.new.calls }) }
    {
        self.begin(FilesOp::Rename, to)?;
        match self.file_at(from)? {
            Some(file) => {
                let now = self.current.copy()?;
                let current = now.renamed(self.alloc, from, to, file)?;
                self.stand(FilesOp::Rename, to, current)?;
                Ok(())
            }
            None => {
                self.log(FilesOp::Rename, to, false)?;
                Err(FilesError::Failed)
            }
        }
    }

    fn sync_names_call(&mut self, no_path: &Text) -> Result<(), FilesError>
        requires { no_path.now ≡ [] }
        ensures fails { FilesFailsWhere (fails_next self.old) result }
        ensures ok { OnOk result (self.new ≡ after_call self.old SyncingNames) }
        ensures calls { OnErr result (IsLogged FilesOp.SyncNames no_path.now self.old.calls self.new.calls result) }
        ensures err { OnErr result (self.new ≡ record self.old { calls = self.new.calls }) }
    {
        self.begin(FilesOp::SyncNames, no_path)?;
        let now = self.current.copy()?;
        let current = now.names_synced(self.alloc)?;
        self.stand(FilesOp::SyncNames, no_path, current)?;
        Ok(())
    }

    fn remove_call(&mut self, path: &Text) -> Result<(), FilesError>
        ensures fails { FilesFailsWhere (fails_next self.old) result }
        ensures ok { OnOk result (self.new ≡ after_call self.old (Removing path.now)) }
        ensures calls { OnErr result (IsLogged FilesOp.Remove path.now self.old.calls self.new.calls result) }
        ensures err { OnErr result (self.new ≡ record self.old { calls = self.new.calls }) }
    {
        self.begin(FilesOp::Remove, path)?;
        let now = self.current.copy()?;
        let current = now.removed(self.alloc, path)?;
        self.stand(FilesOp::Remove, path, current)?;
        Ok(())
    }
}

// What follows the front in the text.
fn after_front<'a>(text: &'a [u8], front: &[u8]) -> Option<&'a [u8]>
    ensures { option_copied result ≡ after_front front.now text.now }
{
    text.strip_prefix(front)
}

// The files of the entries.
fn stored_files(alloc: Global, entries: &[(Text, Text)]) -> Mem<TextMap<Stored>>
    ensures { IfOk result (λ files. files ≡ files_from entries.now) }
{
    let mut files = TextMap::new(alloc);
    for (path, bytes) in entries {
        let bytes = bytes.copy()?;
        files.insert(
            path.copy()?,
            Stored {
                bytes,
                mode: PLAIN_MODE,
            },
        )?;
    }
    Ok(files)
}

impl Files for MemFiles {
    ghost files = { files_of };

    fn read(&mut self, path: &Text) -> Result<Option<Text>, FilesError>
        ensures looks { Looks FilesOp.Read path.now (λ disk. bytes_at disk path.now) (files_of self.old) (files_of self.new) result }

        ensures fails { FilesFailsWhere (fails_next self.old) result }
        ensures failing { (self.new.failing ≡ self.old.failing) × (self.new.stopped ≡ self.old.stopped) }
    {
        let answer = self.read_call(path);
        self.count(answer)
    }

    fn list(&mut self, dir: &Text) -> Result<List<Text>, FilesError>
        ensures looks { Looks FilesOp.List dir.now (λ disk. paths_below disk dir.now) (files_of self.old) (files_of self.new) result }

        ensures fails { FilesFailsWhere (fails_next self.old) result }
        ensures failing { (self.new.failing ≡ self.old.failing) × (self.new.stopped ≡ self.old.stopped) }
    {
        let answer = self.list_call(dir);
        self.count(answer)
    }

    fn write(&mut self, path: &Text, bytes: &[u8], mode: u16) -> Result<(), FilesError>
        ensures takes { Takes (Writing path.now (record { bytes = bytes.now; mode = mode })) (files_of self.old) (files_of self.new) result }

        ensures fails { FilesFailsWhere (fails_next self.old) result }
        ensures failing { (self.new.failing ≡ self.old.failing) × (self.new.stopped ≡ self.old.stopped) }
        ensures err { OnErr result (self.new.disk ≡ self.old.disk) }
    {
        let answer = self.write_call(path, bytes, mode);
        self.count(answer)
    }

    fn sync(&mut self, path: &Text) -> Result<(), FilesError>
        ensures takes { Takes (Syncing path.now) (files_of self.old) (files_of self.new) result }

        ensures fails { FilesFailsWhere (fails_next self.old) result }
        ensures failing { (self.new.failing ≡ self.old.failing) × (self.new.stopped ≡ self.old.stopped) }
        ensures err { OnErr result (self.new.disk ≡ self.old.disk) }
    {
        let answer = self.sync_call(path);
        self.count(answer)
    }

    // A file that isn't there can't be renamed.
    fn rename(&mut self, from: &Text, to: &Text) -> Result<(), FilesError>
        ensures takes { Takes (Renaming from.now to.now) (files_of self.old) (files_of self.new) result }

        ensures fails { FilesFailsWhere (fails_next self.old || is_none (file_at self.old.disk from.now)) result }
        ensures failing { (self.new.failing ≡ self.old.failing) × (self.new.stopped ≡ self.old.stopped) }
        ensures err { OnErr result (self.new.disk ≡ self.old.disk) }
    {
        let answer = self.rename_call(from, to);
        self.count(answer)
    }

    fn sync_names(&mut self) -> Result<(), FilesError>
        ensures takes { Takes SyncingNames (files_of self.old) (files_of self.new) result }

        ensures fails { FilesFailsWhere (fails_next self.old) result }
        ensures failing { (self.new.failing ≡ self.old.failing) × (self.new.stopped ≡ self.old.stopped) }
        ensures err { OnErr result (self.new.disk ≡ self.old.disk) }
    {
        let no_path = Text::new(self.alloc);
        let answer = self.sync_names_call(&no_path);
        self.count(answer)
    }

    fn remove(&mut self, path: &Text) -> Result<(), FilesError>
        ensures takes { Takes (Removing path.now) (files_of self.old) (files_of self.new) result }

        ensures fails { FilesFailsWhere (fails_next self.old) result }
        ensures failing { (self.new.failing ≡ self.old.failing) × (self.new.stopped ≡ self.old.stopped) }
        ensures err { OnErr result (self.new.disk ≡ self.old.disk) }
    {
        let answer = self.remove_call(path);
        self.count(answer)
    }
}
