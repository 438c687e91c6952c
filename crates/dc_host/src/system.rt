// What the files need of the system, as a trait, so that order and faults are tried without a host.
ghost use Rattle.std.specs.Prelude.{◌≡◌};

use dc_text::{List, Text};
use std::alloc::Global;
use std::fs::{DirBuilder, File, Metadata, OpenFile, OpenOptions, Permissions, TryLockError};
use std::io::{Error, ErrorKind, Read, Write};
use std::os::unix::fs::{DirBuilderExt, MetadataExt, OpenOptionsExt, PermissionsExt};
use std::rt::Files as SystemFiles;
use std::{fs, io};

// While a file is written, its owner alone may open it.
const WRITING_MODE: u32 = 0o600;

// A folder that is made is open to its owner alone.
const FOLDER_MODE: u32 = 0o700;

/// Which file it is, whatever its names.
#[derive(Clone, Copy, PartialEq, Eq)]
pub struct FileId {
    pub device: u64,
    pub number: u64,
}

/// What kind of file it is.
#[derive(Clone, Copy, PartialEq, Eq)]
pub enum Kind {
    File,
    Folder,
    /// A link that isn't followed, a pipe, a socket or a device.
    Other,
}

/// What stands at a path, or was opened.
#[derive(Clone, Copy)]
pub struct Status {
    pub id: FileId,
    pub kind: Kind,
    pub size: u64,
}

/// For what a file is opened.
#[derive(Clone, Copy, PartialEq, Eq)]
pub enum Access {
    Reading,
    Writing,
    /// For both. This never waits, also where a pipe stands.
    Updating,
    /// For writing a file that isn't there.
    Creating,
}

/// An open file. It keeps its lock as long as it is open.
pub trait Handle: Read + Write {
    fn status(&self) -> io::Result<Status>;

    /// Locks the file against other programs without waiting. Whether it could.
    fn try_lock(&self) -> io::Result<bool>;

    fn set_mode(&self, mode: u16) -> io::Result<()>;

    /// Lets no crash take what the file holds.
    fn sync(&self) -> io::Result<()>;

    /// The same open file once more, with its lock.
    fn again(&self) -> io::Result<Self>
    where
        Self: Sized;
}

/// The calls of the system on paths.
pub trait System {
    type Handle: Handle + Drop;

    /// What stands at the path, or at what a link there leads to.
    fn status(&mut self, path: &str) -> io::Result<Status>;

    /// What stands at the path itself.
    fn own_status(&mut self, path: &str) -> io::Result<Status>;

    fn open(&mut self, path: &str, access: Access) -> io::Result<Self::Handle>;

    /// The names in the folder.
    fn names(&mut self, alloc: Global, folder: &str) -> io::Result<List<Text>>;

    /// Makes the folder, and those above it that are missing.
    fn make_folder(&mut self, folder: &str) -> io::Result<()>;

    /// Lets no crash take the names in the folder.
    fn sync_folder(&mut self, alloc: Global, folder: &str) -> io::Result<()>;

    /// Gives the file a further name. It fails where anything stands at the path.
    fn link(&mut self, file: &str, path: &str) -> io::Result<()>;

    fn rename(&mut self, from: &str, to: &str) -> io::Result<()>;

    fn remove(&mut self, path: &str) -> io::Result<()>;
}

/// The system of the host.
#[derive(Drop)]
pub struct HostSystem<R> {
    rt: R,
}

impl<R> HostSystem<R> {
    pub fn new(rt: R) -> HostSystem<R>
        ensures { result.rt ≡ rt }
    {
        HostSystem { rt }
    }
}

impl<R: SystemFiles<File = File> + Alloc + Clone + Drop> System for HostSystem<R> {
    type Handle = File;

    fn status(&mut self, path: &str) -> io::Result<Status> {
        Ok(status_in(&fs::metadata(&self.rt, path)?))
    }

    fn own_status(&mut self, path: &str) -> io::Result<Status> {
        Ok(status_in(&fs::symlink_metadata(&self.rt, path)?))
    }

    fn open(&mut self, path: &str, access: Access) -> io::Result<File> {
        let mut options = OpenOptions::new();
        match access {
            Access::Reading => options.read(true),
            Access::Writing => options.write(true),
            Access::Updating => options.read(true).write(true),
            Access::Creating => options.write(true).create_new(true).mode(WRITING_MODE),
        };
        options.open(&self.rt, path)
    }

    fn names(&mut self, alloc: Global, folder: &str) -> io::Result<List<Text>> {
        let mut names = List::new(alloc);
        for entry in fs::read_dir(&self.rt, folder)? {
            let name = Text::from_bytes(alloc, entry?.file_name().as_bytes());
            match name {
                Ok(name) => push(&mut names, name)?,
                Err(_) => return Err(Error::from(ErrorKind::OutOfMemory)),
            }
        }
        Ok(names)
    }

    fn make_folder(&mut self, folder: &str) -> io::Result<()> {
        let mut builder = DirBuilder::new();
        builder.recursive(true).mode(FOLDER_MODE);
        builder.create(&self.rt, folder)
    }

    // With a slash behind it the path names a folder or nothing, so that no pipe is waited for.
    fn sync_folder(&mut self, alloc: Global, folder: &str) -> io::Result<()> {
        let path = format!(in alloc; "{folder}/")?;
        fs::open(&self.rt, path.as_str())?.sync_all()
    }

    fn link(&mut self, file: &str, path: &str) -> io::Result<()> {
        fs::hard_link(&self.rt, file, path)
    }

    fn rename(&mut self, from: &str, to: &str) -> io::Result<()> {
        fs::rename(&self.rt, from, to)
    }

    fn remove(&mut self, path: &str) -> io::Result<()> {
        fs::remove_file(&self.rt, path)
    }
}

impl Handle for File {
    fn status(&self) -> io::Result<Status> {
        Ok(status_in(&self.metadata()?))
    }

    fn try_lock(&self) -> io::Result<bool> {
        match File::try_lock(self) {
            Ok(()) => Ok(true),
            Err(TryLockError::WouldBlock) => Ok(false),
            Err(TryLockError::Error(error)) => Err(error),
        }
    }

    fn set_mode(&self, mode: u16) -> io::Result<()> {
        self.set_permissions(Permissions::from_mode(u32::from(mode)))
    }

    fn sync(&self) -> io::Result<()> {
        self.sync_all()
    }

    fn again(&self) -> io::Result<File> {
        self.try_clone()
    }
}

fn push(names: &mut List<Text>, name: Text) -> io::Result<()> {
    match names.push(name) {
        Ok(()) => Ok(()),
        Err(_) => Err(Error::from(ErrorKind::OutOfMemory)),
    }
}

fn status_in(found: &Metadata) -> Status {
    Status {
        id: FileId {
            device: found.dev(),
            number: found.ino(),
        },
        kind: kind_in(found),
        size: found.len(),
    }
}

fn kind_in(found: &Metadata) -> Kind {
    if found.is_file() {
        Kind::File
    } else if found.is_dir() {
        Kind::Folder
    } else {
        Kind::Other
    }
}
