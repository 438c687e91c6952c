// What keeps two programs apart on one file: advisory locks, and a new file for each write.
ghost use Rattle.std.specs.Prelude.{◌≡◌, [], None, Some, IfErr, IfOk, IfSome, IsSomeAnd, OnErr, OnOk, is_some, false, true};
ghost use Rattle.std.specs.List.{list_any};
ghost use Rattle.std.specs.Str.{bytes_eq};
ghost use Rattle.std.specs.FinMap as map;
ghost use Rattle.dc_host.specs.Folders.{Keeps};
ghost use Rattle.dc_host.specs.Known.{known_renamed};
ghost use Rattle.dc_host.specs.Locks.{as_written, is_below, KeepsLocks, KeepsLocksBut, StaysLocked};

use crate::folders::ChangedFolders;
use crate::locks::{Lock, Locks, take_lock};
use crate::paths::{done, failed, is_denied, is_missing, join, path_of, place_of_new};
use crate::search::LOCK_NAME;
use crate::system::{Access, FileId, Handle, Kind, System};
use dc_outside::FilesError;
use dc_text::{List, Mem, Text, TextMap};
use std::alloc::Global;
use std::io;
use std::io::{ErrorKind, Write};

// How often a path is opened again whose file was replaced meanwhile.
const TRIES: u32 = 100;

/// A file that was written and hasn't taken another's place.
#[derive(Drop)]
struct Written<H> {
    path: Text,
    lock: Lock<H>,
}

/// The locks that a program holds to its end: those of the folders that it listed, and of the files that it read elsewhere, or
/// that took their places. Perl's debconf locks the same files in the same way (flock, exclusive, without waiting), and in a folder
/// the file `.lock`, so the two exclude each other.
#[derive(Drop)]
pub struct Guard<H> {
    alloc: Global,
    // paths of what is read without a lock
    open_to_all: List<Text>,
    locks: Locks<H>,
    // paths of the folders that were listed, with a slash behind them. Their files are locked with them or not at all
    folders: List<Text>,
    // paths at which a file stood when they were read or listed, or that one was put at
    known: TextMap<()>,
    written: Option<Written<H>>,
}

impl<H: Handle + Drop> Guard<H> {
    /// No lock is held yet. What stands at the paths of `open_to_all` will be read without one.
    pub fn new(alloc: Global, open_to_all: List<Text>) -> Guard<H>
        ensures open_to_all { result.open_to_all ≡ open_to_all }
        ensures locks { result.locks ≡ record { read = []; placed = map.empty } }
        ensures folders { result.folders ≡ [] }
        ensures known { result.known ≡ map.empty }
        ensures written { result.written ≡ None }
    {
        Guard {
            alloc,
            open_to_all,
            locks: Locks::new(alloc),
            folders: List::new(alloc),
            known: TextMap::new(alloc),
            written: None,
        }
    }

    /// Locks the folder by the file `.lock` in it, which is made where it isn't there, and so is the folder. The files below it are locked with
    /// it, since a folder may hold more files than a program may have open. One in which this user may not write isn't locked.
    #[tactic(auto, using(crate::proofs::LockLemmas::keeps_locks_same, crate::proofs::LockLemmas::keeps_locks_on, crate::proofs::FolderLemmas::keeps_same, crate::proofs::FolderLemmas::keeps_on))]
    pub fn enter<S: System<Handle = H>>(
        &mut self,
        system: &mut S,
        changed: &mut ChangedFolders,
        folder: &Text,
    ) -> Result<(), FilesError>
        ensures changed { Keeps changed.old changed.new }
        ensures locks { KeepsLocks self.old.locks self.new.locks }
    {
        if !self.is_open_to_all(folder) {
            self.lock_folder(system, changed, folder)?;
        }
        let mut below = folder.copy()?;
        below.push(b'/')?;
        self.folders.push(below)?;
        Ok(())
    }

    // The lock's path may be given another file between the opening and the lock: then it is opened again.
    #[tactic(auto, using(crate::proofs::LockLemmas::keeps_locks_same, crate::proofs::LockLemmas::keeps_locks_on, crate::proofs::FolderLemmas::keeps_same, crate::proofs::FolderLemmas::keeps_on))]
    fn lock_folder<S: System<Handle = H>>(
        &mut self,
        system: &mut S,
        changed: &mut ChangedFolders,
        folder: &Text,
    ) -> Result<(), FilesError>
        ensures changed { Keeps changed.old changed.new }
        ensures locks { KeepsLocks self.old.locks self.new.locks }
    {
        let path = join(self.alloc, folder.bytes(), LOCK_NAME)?;
        let name = path_of(&path)?;
        for _ in 0..TRIES {
            let Some(file) = open_lock(system, changed, name)? else {
                return Ok(());
            };
            if self.takes(system, name, file)? {
                return Ok(());
            }
        }
        Err(FilesError::Failed)
    }

    // Locks the file of a folder and keeps its lock, unless it is held. Whether it still stands at its path then.
    #[tactic(auto, using(crate::proofs::LockLemmas::keeps_locks_same, crate::proofs::LockLemmas::keeps_locks_on))]
    fn takes<S: System<Handle = H>>(
        &mut self,
        system: &mut S,
        name: &str,
        file: H,
    ) -> Result<bool, FilesError>
        ensures locks { KeepsLocks self.old.locks self.new.locks }
    {
        let id = id_of_file(&file)?;
        if self.holds(id) {
            return Ok(true);
        }
        take_lock(&file)?;
        if !leads_to(system, name, id) {
            return Ok(false);
        }
        self.locks.keep(Lock { file, id })?;
        Ok(true)
    }

    // Whether the path lies below a folder that was listed.
    fn is_below_listed(&self, path: &Text) -> bool
        ensures { result ≡ is_below self.now.folders path.now }
    {
        self.folders
            .as_slice()
            .iter()
            .any(|folder| path.bytes().starts_with(folder.bytes()))
    }

    // Whether the path is one of those that are read without a lock.
    fn is_open_to_all(&self, path: &Text) -> bool
        ensures { result ≡ list_any (bytes_eq path.now) self.now.open_to_all }
    {
        self.open_to_all
            .as_slice()
            .iter()
            .any(|other| path.bytes() == other.bytes())
    }

    /// Knows that a file stands at the path.
    pub fn know(&mut self, path: Text) -> Mem<()>
        ensures ok { OnOk result (self.new.known ≡ map.insert self.old.known path tt) }
        ensures err { OnErr result (self.new.known ≡ self.old.known) }
        ensures locks { self.new.locks ≡ self.old.locks }
        ensures written { self.new.written ≡ self.old.written }
    {
        self.known.insert(path, ())
    }

    /// Knows no more that a file stands at the path.
    pub fn forget(&mut self, path: &Text)
        ensures known { self.new.known ≡ map.remove self.old.known path.now }
        ensures gone { map.contains_key self.new.known path.now ≡ false }
        ensures locks { self.new.locks ≡ self.old.locks }
        ensures written { self.new.written ≡ self.old.written }
    {
        self.known.remove(path.bytes());
    }

    /// Opens the file at the path to be read, and locks it if it can be opened for writing and no lock of a folder stands for it.
    /// `None` where nothing stands there. What isn't a file, and a file that another program has locked, is a fault.
    #[tactic(auto, using(crate::proofs::LockLemmas::keeps_locks_same, crate::proofs::LockLemmas::keeps_locks_on, crate::proofs::KnownLemmas::known_with))]
    pub fn open<S: System<Handle = H>>(
        &mut self,
        system: &mut S,
        path: &Text,
        name: &str,
    ) -> Result<Option<H>, FilesError>
        ensures known { IfOk result (λ file. map.contains_key self.new.known path.now ≡ is_some file) }
        ensures locks { KeepsLocks self.old.locks self.new.locks }
    {
        let found = match system.status(name) {
            Ok(found) => found,
            Err(error) if is_missing(&error) => return Ok(self.find_nothing(path)),
            Err(error) => return Err(failed(&error)),
        };
        if found.kind != Kind::File {
            return Err(FilesError::Failed);
        }
        self.know(path.copy()?)?;
        let needs_no_lock = self.is_open_to_all(path)
            || self.is_below_listed(path)
            || self.holds(found.id);
        let opened = if needs_no_lock {
            to_read(system, name)?
        } else {
            self.open_locked(system, name)?
        };
        match opened {
            Some(file) => Ok(Some(file)),
            None => Ok(self.find_nothing(path)),
        }
    }

    // Knows that no file stands at the path.
    fn find_nothing(&mut self, path: &Text) -> Option<H>
        ensures none { result ≡ None }
        ensures known { map.contains_key self.new.known path.now ≡ false }
        ensures locks { self.new.locks ≡ self.old.locks }
    {
        self.forget(path);
        None
    }

    // Whether this program holds the lock of the file.
    pub(crate) fn holds(&self, id: FileId) -> bool {
        let is_written = match &self.written {
            Some(written) => written.lock.id == id,
            None => false,
        };
        is_written || self.locks.holds(id)
    }

    // The path may be given another file between the opening and the lock: then it is opened again.
    #[tactic(auto, using(crate::proofs::LockLemmas::keeps_locks_same, crate::proofs::LockLemmas::keeps_locks_on))]
    fn open_locked<S: System<Handle = H>>(
        &mut self,
        system: &mut S,
        name: &str,
    ) -> Result<Option<H>, FilesError>
        ensures known { self.new.known ≡ self.old.known }
        ensures locks { KeepsLocks self.old.locks self.new.locks }
    {
        for _ in 0..TRIES {
            let file = match system.open(name, Access::Updating) {
                Ok(file) => file,
                Err(error) if is_denied(&error) => return to_read(system, name),
                Err(error) if is_missing(&error) => return Ok(None),
                Err(error) => return Err(failed(&error)),
            };
            let id = id_of_file(&file)?;
            take_lock(&file)?;
            if leads_to(system, name, id) {
                let reader = done(file.again())?;
                self.locks.keep(Lock { file, id })?;
                return Ok(Some(reader));
            }
        }
        Err(FilesError::Failed)
    }

    /// Makes a new file at the path, of which the bytes are written and the mode is set, and locks it. What stood there is
    /// taken away first, so that no link to another file is followed. It is a fault if a folder stands there, or a file that
    /// another program has locked, as it does with a file that it is writing.
    #[tactic(auto, using(crate::proofs::FolderLemmas::keeps_same, crate::proofs::FolderLemmas::keeps_on))]
    pub fn write<S: System<Handle = H>>(
        &mut self,
        system: &mut S,
        changed: &mut ChangedFolders,
        place: (&Text, &str),
        bytes: &[u8],
        mode: u16,
    ) -> Result<(), FilesError>
        ensures written { OnOk result (IsSomeAnd self.new.written (λ written. written.path ≡ place.entry.0.now)) }
        ensures changed { Keeps changed.old changed.new }
        ensures locks { self.new.locks ≡ self.old.locks }
        ensures known { self.new.known ≡ self.old.known }
    {
        let (path, name) = place;
        let path = path.copy()?;
        let mut file = self.make_file(system, changed, name)?;
        take_lock(&file)?;
        let id = id_of_file(&file)?;
        // another program may have taken the file or its name before the lock
        if !stands_at(system, name, id) || self.has_come(system, name) {
            return Err(FilesError::Failed);
        }
        done(fill(&mut file, bytes, mode))?;
        self.written = Some(Written {
            path,
            lock: Lock { file, id },
        });
        Ok(())
    }

    // Makes a new file at the path. Most are made at once. Only where that fails is the folder made that is missing, or what
    // stands at the path taken away, and then it is tried once more.
    #[tactic(auto, using(crate::proofs::FolderLemmas::keeps_same, crate::proofs::FolderLemmas::keeps_on))]
    fn make_file<S: System<Handle = H>>(
        &self,
        system: &mut S,
        changed: &mut ChangedFolders,
        name: &str,
    ) -> Result<H, FilesError>
        ensures { Keeps changed.old changed.new }
    {
        match system.open(name, Access::Creating) {
            Ok(file) => return Ok(file),
            Err(error) if is_missing(&error) => {
                if !changed.make_folder(system, name)? {
                    return Err(FilesError::Failed);
                }
            }
            Err(error) if error.kind() == ErrorKind::AlreadyExists => self.clear(system, name)?,
            Err(error) => return Err(failed(&error)),
        }
        done(system.open(name, Access::Creating))
    }

    // Whether a file stands where the one of this name is to be put, and none was known there. Then another program is at its first run too, and
    // what stands at the name may be its: Perl's debconf makes the file first, and doesn't lock the new one.
    fn has_come<S: System<Handle = H>>(&self, system: &mut S, name: &str) -> bool {
        match place_of_new(name) {
            Some(place) if !self.known.contains(place.as_bytes()) => {
                system.own_status(place).is_ok()
            }
            _ => false,
        }
    }

    // Takes away what stands at the path, if anything does and no other program may be writing it. The lock that shows that none uses the file is
    // held until it is gone.
    fn clear<S: System<Handle = H>>(&self, system: &mut S, name: &str) -> Result<(), FilesError> {
        if self.has_come(system, name) {
            return Err(FilesError::Failed);
        }
        let lock = match self.free(system, name)? {
            Standing::Nothing => return Ok(()),
            Standing::Folder => return Err(FilesError::Failed),
            Standing::Free(lock) => lock,
        };
        let answer = done(system.remove(name));
        drop(lock);
        answer
    }

    // What stands at the path itself, with the lock of a file, unless this program holds it. One that another program has locked
    // is a fault. One that this user may open in no way is taken to be free.
    fn free<S: System<Handle = H>>(
        &self,
        system: &mut S,
        name: &str,
    ) -> Result<Standing<H>, FilesError> {
        let found = match system.own_status(name) {
            Ok(found) => found,
            Err(error) if is_missing(&error) => return Ok(Standing::Nothing),
            Err(error) => return Err(failed(&error)),
        };
        match found.kind {
            Kind::Folder => Ok(Standing::Folder),
            Kind::Other => Ok(Standing::Free(None)),
            Kind::File if self.holds(found.id) => Ok(Standing::Free(None)),
            Kind::File => Ok(Standing::Free(lock_standing(system, name)?)),
        }
    }

    /// Lets no crash take what was written at the path: through the handle that wrote it, if it was the last to. No clause says that
    /// it does: that is the system's.
    pub(crate) fn sync<S: System<Handle = H>>(
        &self,
        system: &mut S,
        path: &Text,
        name: &str,
    ) -> Result<(), FilesError> {
        match &self.written {
            Some(written) if written.path.bytes() == path.bytes() => done(written.lock.file.sync()),
            _ => match system.open(name, Access::Reading) {
                Ok(file) => done(file.sync()),
                Err(error) => Err(failed(&error)),
            },
        }
    }

    /// Puts the file that was written last in the place of the other, and holds its lock for that path, unless a folder's stands for it.
    /// It is a fault if it doesn't stand at its path any more, if a file stands at the other that another program has locked, or anything at
    /// all where no file was known to stand. Where it fails no lock is let go, since the system may have done it;
    /// where memory runs out, that of what was written.
    #[tactic(auto, using(crate::proofs::LockLemmas::keeps_locks_same, crate::proofs::LockLemmas::keeps_but, crate::proofs::LockLemmas::keeps_but_same))]
    pub fn rename<S: System<Handle = H>>(
        &mut self,
        system: &mut S,
        from: (&Text, &str),
        to: (&Text, &str),
    ) -> Result<(), FilesError>
        ensures written { OnOk result (IsSomeAnd self.old.written (λ written. written.path ≡ from.entry.0.now)) }
        ensures lost { OnOk result (self.new.written ≡ None) }
        ensures known { OnOk result (self.new.known ≡ known_renamed self.old.known from.entry.0.now to.entry.0.now) }
        ensures unknown { OnErr result (self.new.known ≡ self.old.known) }
        ensures locks { KeepsLocksBut to.entry.0.now self.old.locks self.new.locks }
        ensures err { OnErr result (KeepsLocks self.old.locks self.new.locks) }
        ensures still { IfErr result (λ error. error ≡ FilesError.Failed → StaysLocked to.entry.0.now self.old.written self.new.written self.new.locks) }
    {
        // what stands there stays locked until it is replaced
        let _standing = if self.known.contains(to.0.bytes()) {
            self.free(system, to.1)?
        } else {
            Standing::Nothing
        };
        let written = self.take_written(system, from)?;
        if self.is_below_listed(to.0) {
            self.put_in_folder(system, from, to, written)
        } else {
            self.put_locked(system, from, to, written)
        }
    }

    // Gives the file that was written the other path, for which a folder's lock stands.
    fn put_in_folder<S: System<Handle = H>>(
        &mut self,
        system: &mut S,
        from: (&Text, &str),
        to: (&Text, &str),
        written: Written<H>,
    ) -> Result<(), FilesError>
        requires { self.old.written ≡ None }
        ensures lost { OnOk result (self.new.written ≡ None) }
        ensures still { OnErr result (self.new.written ≡ Some written) }
        ensures known { OnOk result (self.new.known ≡ known_renamed self.old.known from.entry.0.now to.entry.0.now) }
        ensures unknown { OnErr result (self.new.known ≡ self.old.known) }
        ensures locks { self.new.locks ≡ self.old.locks }
    {
        let answer = self.put(system, from, to);
        if answer.is_err() {
            self.written = Some(written);
        }
        answer
    }

    // The same where its own lock is held for the path. Where it fails the lock of the file that stood there is held too, and its own, unless
    // memory ran out before.
    #[tactic(auto, using(crate::proofs::LockLemmas::keeps_locks_same, crate::proofs::LockLemmas::keeps_but_placed, crate::proofs::LockLemmas::keeps_with_placed, crate::proofs::LockLemmas::placed_back, crate::proofs::LockLemmas::placed_there, crate::proofs::LockLemmas::path_there, crate::proofs::LockLemmas::keeps_but_same, crate::proofs::LockLemmas::placed_over))]
    fn put_locked<S: System<Handle = H>>(
        &mut self,
        system: &mut S,
        from: (&Text, &str),
        to: (&Text, &str),
        written: Written<H>,
    ) -> Result<(), FilesError>
        requires { self.old.written ≡ None }
        ensures lost { OnOk result (self.new.written ≡ None) }
        ensures held { OnOk result (map.get self.new.locks.placed to.entry.0.now ≡ Some written.lock) }
        ensures known { OnOk result (self.new.known ≡ known_renamed self.old.known from.entry.0.now to.entry.0.now) }
        ensures unknown { OnErr result (self.new.known ≡ self.old.known) }
        ensures locks { KeepsLocksBut to.entry.0.now self.old.locks self.new.locks }
        ensures err { OnErr result (KeepsLocks self.old.locks self.new.locks) }
        ensures still { IfErr result (λ error. error ≡ FilesError.Failed → StaysLocked to.entry.0.now (Some written) self.new.written self.new.locks) }
    {
        let Written { path, lock } = written;
        match self.locks.put(to.0, lock)? {
            None => self.put(system, from, to),
            Some(last) => self.put_over(system, from, to, path, last),
        }
    }

    // The same over a file of this program's own, whose lock is held again where it fails.
    #[tactic(auto, using(crate::proofs::LockLemmas::path_there))]
    fn put_over<S: System<Handle = H>>(
        &mut self,
        system: &mut S,
        from: (&Text, &str),
        to: (&Text, &str),
        path: Text,
        last: Lock<H>,
    ) -> Result<(), FilesError>
        requires there { map.contains_key self.old.locks.placed to.0.now ≡ true }
        requires taken { self.old.written ≡ None }
        ensures lost { OnOk result (self.new.written ≡ None) }
        ensures known { OnOk result (self.new.known ≡ known_renamed self.old.known from.entry.0.now to.entry.0.now) }
        ensures unknown { OnErr result (self.new.known ≡ self.old.known) }
        ensures read { self.new.locks.read ≡ self.old.locks.read }
        ensures ok { OnOk result (self.new.locks ≡ self.old.locks) }
        ensures back { OnErr result (self.new.locks.placed ≡ map.insert self.old.locks.placed to.entry.0.now last) }
        ensures still { OnErr result (IfSome (map.get self.old.locks.placed to.entry.0.now) (λ lock. self.new.written ≡ as_written path lock)) }
    {
        let answer = self.put(system, from, to);
        if answer.is_err() {
            let lock = self.locks.give_back(to.0, last);
            self.written = Some(Written { path, lock });
        }
        answer
    }

    // Gives the file the other path: that of the file that is known to stand there, or else one at which nothing stands.
    #[tactic(auto, using(crate::proofs::KnownLemmas::known_still, crate::proofs::KnownLemmas::known_no_more, crate::proofs::KnownLemmas::renamed_apart, crate::proofs::KnownLemmas::renamed_same))]
    fn put<S: System<Handle = H>>(
        &mut self,
        system: &mut S,
        from: (&Text, &str),
        to: (&Text, &str),
    ) -> Result<(), FilesError>
        ensures known { OnOk result (self.new.known ≡ known_renamed self.old.known from.entry.0.now to.entry.0.now) }
        ensures err { OnErr result (self.new.known ≡ self.old.known) }
        ensures locks { self.new.locks ≡ self.old.locks }
        ensures written { self.new.written ≡ self.old.written }
    {
        let is_known = self.known.contains(to.0.bytes());
        self.know(to.0.copy()?)?;
        let answer = if is_known {
            done(system.rename(from.1, to.1))
        } else {
            put_new(system, from.1, to.1)
        };
        match &answer {
            Ok(()) if from.0.bytes() != to.0.bytes() => self.forget(from.0),
            Err(_) if !is_known => self.forget(to.0),
            _ => {}
        }
        answer
    }

    // The file that was written last, which still stands at the path.
    fn take_written<S: System<Handle = H>>(
        &mut self,
        system: &mut S,
        place: (&Text, &str),
    ) -> Result<Written<H>, FilesError>
        ensures ok { IfOk result (λ written. self.old.written ≡ Some written) }
        ensures path { IfOk result (λ written. written.path ≡ place.entry.0.now) }
        ensures taken { OnOk result (self.new.written ≡ None) }
        ensures err { OnErr result (self.new.written ≡ self.old.written) }
        ensures locks { self.new.locks ≡ self.old.locks }
        ensures known { self.new.known ≡ self.old.known }
        ensures folders { self.new.folders ≡ self.old.folders }
    {
        let (path, name) = place;
        match self.written.take() {
            Some(written)
                if written.path.bytes() == path.bytes()
                    && stands_at(system, name, written.lock.id) => { Ok(written) }
            other => {
                self.written = other;
                Err(FilesError::Failed)
            }
        }
    }
}

// What stands at a path.
#[derive(Drop)]
enum Standing<H> {
    Nothing,
    Folder,
    /// What no other program has locked, with its lock where it can be had.
    Free(Option<H>),
}

// The file by which a folder is locked. None where this user may not write there.
#[tactic(auto, using(crate::proofs::FolderLemmas::keeps_same, crate::proofs::FolderLemmas::keeps_on))]
fn open_lock<S: System>(
    system: &mut S,
    changed: &mut ChangedFolders,
    name: &str,
) -> Result<Option<S::Handle>, FilesError>
    ensures { Keeps changed.old changed.new }
{
    for _ in 0..TRIES {
        match system.open(name, Access::Updating) {
            Ok(file) => return Ok(Some(file)),
            Err(error) if is_denied(&error) => return Ok(None),
            Err(error) if error.kind() == ErrorKind::NotFound => {}
            Err(error) => return Err(failed(&error)),
        }
        match system.open(name, Access::Creating) {
            Ok(_) => {}
            Err(error) if is_denied(&error) => return Ok(None),
            Err(error) if error.kind() == ErrorKind::AlreadyExists => {}
            Err(error) if error.kind() == ErrorKind::NotFound => {
                if !changed.make_folder(system, name)? {
                    return Ok(None);
                }
            }
            Err(error) => return Err(failed(&error)),
        }
    }
    Err(FilesError::Failed)
}

// Which file was opened. What isn't a file is a fault.
fn id_of_file<H: Handle>(opened: &H) -> Result<FileId, FilesError> {
    let found = done(opened.status())?;
    if found.kind == Kind::File {
        Ok(found.id)
    } else {
        Err(FilesError::Failed)
    }
}

// The file at the path, to be read without a lock.
fn to_read<S: System>(system: &mut S, name: &str) -> Result<Option<S::Handle>, FilesError> {
    match system.open(name, Access::Reading) {
        Ok(file) => {
            id_of_file(&file)?;
            Ok(Some(file))
        }
        Err(error) if is_missing(&error) => Ok(None),
        Err(error) => Err(failed(&error)),
    }
}

// Whether the path, or the link there, leads to this file.
fn leads_to<S: System>(system: &mut S, name: &str, id: FileId) -> bool {
    match system.status(name) {
        Ok(found) => found.id == id,
        Err(_) => false,
    }
}

// Whether this file stands at the path itself.
fn stands_at<S: System>(system: &mut S, name: &str, id: FileId) -> bool {
    match system.own_status(name) {
        Ok(found) => found.id == id,
        Err(_) => false,
    }
}

// The file at the path with its lock, in whichever way it can be opened. It still stands there then.
fn lock_standing<S: System>(system: &mut S, name: &str) -> Result<Option<S::Handle>, FilesError> {
    for access in [Access::Updating, Access::Writing, Access::Reading] {
        match system.open(name, access) {
            Ok(file) => {
                let id = id_of_file(&file)?;
                take_lock(&file)?;
                return if stands_at(system, name, id) {
                    Ok(Some(file))
                } else {
                    Err(FilesError::Failed)
                };
            }
            Err(error) if is_denied(&error) => {}
            Err(error) => return Err(failed(&error)),
        }
    }
    Ok(None)
}

// Gives the file a path at which nothing stands, and takes its old one. A system without further names for files is asked first
// what stands there.
fn put_new<S: System>(system: &mut S, from: &str, to: &str) -> Result<(), FilesError> {
    match system.link(from, to) {
        Ok(()) => done(system.remove(from)),
        Err(error) if is_denied(&error) || error.kind() == ErrorKind::Unsupported => {
            match system.own_status(to) {
                Err(error) if is_missing(&error) => done(system.rename(from, to)),
                _ => Err(FilesError::Failed),
            }
        }
        Err(error) => Err(failed(&error)),
    }
}

// The mode is set once the file is whole, since the mode of a new file is narrowed by the umask, and a write takes some
// bits away.
fn fill<H: Handle>(file: &mut H, bytes: &[u8], mode: u16) -> io::Result<()> {
    file.write_all(bytes)?;
    file.set_mode(mode)
}
