// The locks that a program holds: advisory ones of the system, each on a whole file.
ghost use Rattle.std.specs.Prelude.{◌≡◌, ◌∷◌, ◌++◌, [], IfOk, OnErr, OnOk, Some, true};
ghost use Rattle.std.specs.List.{list_any};
ghost use Rattle.std.specs.FinMap as map;
ghost use Rattle.dc_host.specs.Locks.{holds, is_of, KeepsLocks};

use crate::paths::failed;
use crate::system::{FileId, Handle};
use dc_outside::FilesError;
use dc_text::{List, Mem, Text, TextMap};
use std::alloc::Global;

/// An open file whose lock is held.
#[derive(Drop)]
pub struct Lock<H> {
    pub file: H,
    pub id: FileId,
}

impl<H> Lock<H> {
    // Whether it is the lock of this file.
    fn is_of(&self, id: FileId) -> bool
        ensures { result ≡ is_of id self.now }
    {
        self.id.device == id.device && self.id.number == id.number
    }
}

/// The locks that are held. None is let go before the end of the program, but for that of a file that it put at a path and that made room for
/// another one there: no path leads to that file any more.
#[derive(Drop)]
pub struct Locks<H> {
    // of the files that were read, and of those that lock folders
    read: List<Lock<H>>,
    // of the file that this program put last at each path
    placed: TextMap<Lock<H>>,
}

impl<H: Drop> Locks<H> {
    /// No lock.
    pub fn new(alloc: Global) -> Locks<H>
        ensures { result ≡ record { read = []; placed = map.empty } }
    {
        Locks {
            read: List::new(alloc),
            placed: TextMap::new(alloc),
        }
    }

    /// Whether the lock of the file is held.
    pub fn holds(&self, id: FileId) -> bool
        ensures { result ≡ holds self.now id }
    {
        self.has_read(id) || self.has_placed(id)
    }

    // Whether it is a file that was read, or one that locks a folder.
    fn has_read(&self, id: FileId) -> bool
        ensures { result ≡ list_any (is_of id) self.now.read }
    {
        self.read.as_slice().iter().any(|lock| lock.is_of(id))
    }

    // Whether it is a file that this program put at some path.
    fn has_placed(&self, id: FileId) -> bool
        ensures { result ≡ list_any (is_of id) (map.values self.now.placed) }
    {
        for (_, lock) in self.placed.iter() {
            if lock.is_of(id) {
                return true;
            }
        }
        false
    }

    /// Holds the lock of what was read.
    #[tactic(auto, using(crate::proofs::LockLemmas::keeps_with_read, crate::proofs::LockLemmas::keeps_alike))]
    pub fn keep(&mut self, lock: Lock<H>) -> Mem<()>
        ensures read { OnOk result (self.new.read ≡ self.old.read ++ lock ∷ []) }
        ensures placed { self.new.placed ≡ self.old.placed }
        ensures kept { KeepsLocks self.old self.new }
        ensures err { OnErr result (self.new ≡ self.old) }
    {
        self.read.push(lock)?;
        Ok(())
    }

    /// Holds the lock of the file that is put at the path, and hands out that of the last one.
    #[tactic(auto, using(crate::proofs::LockLemmas::no_lock))]
    pub fn put(&mut self, path: &Text, lock: Lock<H>) -> Mem<Option<Lock<H>>>
        ensures placed { OnOk result (self.new.placed ≡ map.insert self.old.placed path.now lock) }
        ensures last { IfOk result (λ last. last ≡ map.get self.old.placed path.now) }
        ensures read { self.new.read ≡ self.old.read }
        ensures err { OnErr result (self.new ≡ self.old) }
    {
        if self.placed.contains(path.bytes()) {
            return Ok(Some(self.placed.replace(path.bytes(), lock)));
        }
        self.placed.insert(path.copy()?, lock)?;
        Ok(None)
    }

    /// Holds the last lock for the path again, and hands out the one that was put in its place. It takes no memory.
    pub fn give_back(&mut self, path: &Text, last: Lock<H>) -> Lock<H>
        requires { map.contains_key self.old.placed path.now ≡ true }
        ensures put { map.get self.old.placed path.now ≡ Some result }
        ensures last { self.new.placed ≡ map.insert self.old.placed path.now last }
        ensures read { self.new.read ≡ self.old.read }
    {
        self.placed.replace(path.bytes(), last)
    }
}

/// Locks the file without waiting. One that another program has locked is a fault. No clause says which is: what the system does is no
/// value of this program.
pub(crate) fn take_lock<H: Handle>(file: &H) -> Result<(), FilesError> {
    match file.try_lock() {
        Ok(true) => Ok(()),
        Ok(false) => Err(FilesError::Failed),
        Err(error) => Err(failed(&error)),
    }
}
