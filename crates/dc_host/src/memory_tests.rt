// What keeps two programs apart, over a system in memory.
use crate::folders::ChangedFolders;
use crate::guard::Guard;
use crate::system::{Access, FileId, Handle, Kind, Status, System};
use dc_outside::FilesError;
use dc_text::{List, Text, TextMap};
use std::alloc::Global;
use std::io;
use std::io::{Error, ErrorKind, Read, Write};

// An open file without bytes.
#[derive(Drop)]
struct MemHandle {
    number: u64,
    // another program has its lock
    is_taken: bool,
}

fn status_of(number: u64) -> Status {
    Status {
        id: FileId { device: 0, number },
        kind: Kind::File,
        size: 0,
    }
}

impl Read for MemHandle {
    fn read(&mut self, _buf: &mut [u8]) -> io::Result<usize> {
        Ok(0)
    }
}

impl Write for MemHandle {
    fn write(&mut self, buf: &[u8]) -> io::Result<usize> {
        Ok(buf.len())
    }

    fn flush(&mut self) -> io::Result<()> {
        Ok(())
    }
}

impl Handle for MemHandle {
    fn status(&self) -> io::Result<Status> {
        Ok(status_of(self.number))
    }

    fn try_lock(&self) -> io::Result<bool> {
        Ok(!self.is_taken)
    }

    fn set_mode(&self, _mode: u16) -> io::Result<()> {
        Ok(())
    }

    fn sync(&self) -> io::Result<()> {
        Ok(())
    }

    fn again(&self) -> io::Result<MemHandle> {
        Ok(MemHandle {
            number: self.number,
            is_taken: self.is_taken,
        })
    }
}

// The numbers of the files at the paths.
#[derive(Drop)]
struct MemSystem {
    alloc: Global,
    files: TextMap<u64>,
    // another program has the lock of the file of this number
    taken: u64,
    // how each opening fails
    refusal: Option<ErrorKind>,
    // another program takes the place of a file that is made
    is_replaced: bool,
    // of the file that is made next
    next: u64,
    // renames fail
    is_stuck: bool,
}

fn system(alloc: Global) -> MemSystem {
    MemSystem {
        alloc,
        files: TextMap::new(alloc),
        taken: 0,
        refusal: None,
        is_replaced: false,
        next: 7,
        is_stuck: false,
    }
}

impl MemSystem {
    fn number(&self, path: &str) -> io::Result<u64> {
        match self.files.get(path.as_bytes()) {
            Some(number) => Ok(*number),
            None => Err(Error::from(ErrorKind::NotFound)),
        }
    }

    fn put(&mut self, path: &str, number: u64) -> io::Result<()> {
        match Text::from_bytes(self.alloc, path.as_bytes()) {
            Ok(path) => match self.files.insert(path, number) {
                Ok(()) => Ok(()),
                Err(_) => Err(Error::from(ErrorKind::OutOfMemory)),
            },
            Err(_) => Err(Error::from(ErrorKind::OutOfMemory)),
        }
    }

    fn handle(&self, number: u64) -> MemHandle {
        MemHandle {
            number,
            is_taken: number == self.taken,
        }
    }
}

impl System for MemSystem {
    type Handle = MemHandle;

    fn status(&mut self, path: &str) -> io::Result<Status> {
        Ok(status_of(self.number(path)?))
    }

    fn own_status(&mut self, path: &str) -> io::Result<Status> {
        Ok(status_of(self.number(path)?))
    }

    fn open(&mut self, path: &str, access: Access) -> io::Result<MemHandle> {
        if let Some(kind) = self.refusal {
            return Err(Error::from(kind));
        }
        if access != Access::Creating {
            return Ok(self.handle(self.number(path)?));
        }
        if self.files.contains(path.as_bytes()) {
            return Err(Error::from(ErrorKind::AlreadyExists));
        }
        let number = self.next;
        self.put(path, if self.is_replaced { 8 } else { number })?;
        Ok(self.handle(number))
    }

    fn names(&mut self, alloc: Global, _folder: &str) -> io::Result<List<Text>> {
        Ok(List::new(alloc))
    }

    fn make_folder(&mut self, _folder: &str) -> io::Result<()> {
        Ok(())
    }

    fn sync_folder(&mut self, _alloc: Global, _folder: &str) -> io::Result<()> {
        Ok(())
    }

    fn link(&mut self, file: &str, path: &str) -> io::Result<()> {
        if self.files.contains(path.as_bytes()) {
            return Err(Error::from(ErrorKind::AlreadyExists));
        }
        let number = self.number(file)?;
        self.put(path, number)
    }

    fn rename(&mut self, from: &str, to: &str) -> io::Result<()> {
        if self.is_stuck {
            return Err(Error::from(ErrorKind::Uncategorized));
        }
        let number = self.number(from)?;
        self.files.remove(from.as_bytes());
        self.put(to, number)
    }

    fn remove(&mut self, path: &str) -> io::Result<()> {
        self.files.remove(path.as_bytes());
        Ok(())
    }
}

fn text(alloc: Global, bytes: &[u8]) -> Option<Text> {
    Text::from_bytes(alloc, bytes).ok()
}

#[test]
fn only_want_of_permission_is_passed_over(rt: HostRuntime) {
    let folder = text(rt.alloc(), b"d").expect(&rt, "memory");
    for (kind, answer) in [
        (ErrorKind::PermissionDenied, Ok(())),
        (ErrorKind::ReadOnlyFilesystem, Ok(())),
        (ErrorKind::StorageFull, Err(FilesError::Failed)),
        (ErrorKind::Uncategorized, Err(FilesError::Failed)),
    ] {
        let mut host = system(rt.alloc());
        host.refusal = Some(kind);
        let mut guard = Guard::new(rt.alloc(), List::new(rt.alloc()));
        let mut changed = ChangedFolders::new(rt.alloc());
        let given = guard.enter(&mut host, &mut changed, &folder);
        assert_eq!(rt; given, answer, "{kind:?}");
    }
}

// What a save of a path answers, and the number of the file that stands there then. Another file stands there at the start if
// `is_there`, and comes to the path that is written once that is made if `is_replaced`, or before it is renamed if `is_moved`.
fn save(
    alloc: Global,
    is_there: bool,
    is_replaced: bool,
    is_moved: bool,
) -> Result<Option<u64>, FilesError> {
    let path = Text::from_bytes(alloc, b"q")?;
    let new = Text::from_bytes(alloc, b"q-new")?;
    let mut host = system(alloc);
    host.is_replaced = is_replaced;
    let mut guard = Guard::new(alloc, List::new(alloc));
    let mut changed = ChangedFolders::new(alloc);
    if is_there {
        host.files.insert(path.copy()?, 3)?;
    }
    guard.write(&mut host, &mut changed, (&new, "q-new"), b"x", 0o600)?;
    if is_moved {
        host.files.insert(new.copy()?, 9)?;
    }
    guard.rename(&mut host, (&new, "q-new"), (&path, "q"))?;
    Ok(host.files.get(b"q").copied())
}

#[test]
fn only_what_was_written_is_renamed(rt: HostRuntime) {
    for (is_there, is_replaced, is_moved, answer) in [
        (false, false, false, Ok(Some(7))),
        (true, false, false, Err(FilesError::Failed)),
        (false, true, false, Err(FilesError::Failed)),
        (false, false, true, Err(FilesError::Failed)),
    ] {
        let given = save(rt.alloc(), is_there, is_replaced, is_moved);
        assert_eq!(rt; given, answer, "{is_there} {is_replaced} {is_moved}");
    }
}

#[test]
fn a_file_that_is_locked_is_not_replaced(rt: HostRuntime) {
    let path = text(rt.alloc(), b"q").expect(&rt, "memory");
    let new = text(rt.alloc(), b"q-new").expect(&rt, "memory");
    let mut host = system(rt.alloc());
    let mut guard = Guard::new(rt.alloc(), List::new(rt.alloc()));
    let mut changed = ChangedFolders::new(rt.alloc());
    assert_eq!(rt; host.put("q", 3).is_ok(), true);
    assert_eq!(rt; guard.open(&mut host, &path, "q").is_ok(), true);
    // another program puts its own file there, which it has locked
    assert_eq!(rt; host.put("q", 4).is_ok(), true);
    host.taken = 4;
    let written = guard.write(&mut host, &mut changed, (&new, "q-new"), b"x", 0o600);
    assert_eq!(rt; written, Ok(()));
    let renamed = guard.rename(&mut host, (&new, "q-new"), (&path, "q"));
    assert_eq!(rt; renamed, Err(FilesError::Failed));
    assert_eq!(rt; host.number("q").ok(), Some(4));
}

// Which of the files 3, 7 and 9 are locked once 3 was read at a path, and 7 and then 9 were to take its place, each in a rename that fails
// if it is said so.
fn locked(alloc: Global, fails: [bool; 2]) -> Result<[bool; 3], FilesError> {
    let path = Text::from_bytes(alloc, b"q")?;
    let new = Text::from_bytes(alloc, b"q-new")?;
    let mut host = system(alloc);
    let mut guard = Guard::new(alloc, List::new(alloc));
    let mut changed = ChangedFolders::new(alloc);
    host.files.insert(path.copy()?, 3)?;
    guard.open(&mut host, &path, "q")?;
    for (number, is_stuck) in [(7, fails[0]), (9, fails[1])] {
        host.next = number;
        host.is_stuck = is_stuck;
        guard.write(&mut host, &mut changed, (&new, "q-new"), b"x", 0o600)?;
        let renamed = guard.rename(&mut host, (&new, "q-new"), (&path, "q"));
        if renamed.is_ok() == is_stuck {
            return Err(FilesError::Failed);
        }
    }
    Ok([3, 7, 9].map(|number| guard.holds(FileId { device: 0, number })))
}

#[test]
fn a_rename_that_fails_lets_no_lock_go(rt: HostRuntime) {
    for (fails, answer) in [
        ([false, false], [true, false, true]),
        ([false, true], [true, true, true]),
        ([true, false], [true, false, true]),
        ([true, true], [true, true, true]),
    ] {
        let given = locked(rt.alloc(), fails);
        assert_eq!(rt; given, Ok(answer), "{fails:?}");
    }
}

#[test]
fn what_was_read_stays_locked(rt: HostRuntime) {
    let path = text(rt.alloc(), b"q").expect(&rt, "memory");
    let mut host = system(rt.alloc());
    let mut guard = Guard::new(rt.alloc(), List::new(rt.alloc()));
    for number in [3, 4] {
        assert_eq!(rt; host.put("q", number).is_ok(), true);
        assert_eq!(rt; guard.open(&mut host, &path, "q").is_ok(), true);
    }
    for number in [3, 4] {
        let is_held = guard.holds(FileId { device: 0, number });
        assert_eq!(rt; is_held, true, "{number}");
    }
}
