// The files below a folder.
use crate::paths::{done, failed, is_missing, join, path_of};
use crate::system::{FileId, Kind, System};
use dc_outside::FilesError;
use dc_text::{List, Text, TextMap};
use std::alloc::Global;
use std::io::ErrorKind;

/// The name of the file in a folder by which the folder is locked.
pub const LOCK_NAME: &[u8] = b".lock";

/// The paths of all files at any depth below the folder, relative to it, but for that of its lock. Links are followed; one that
/// leads nowhere is passed over, and so is what is neither a file nor a folder. A folder that is come to by two paths is a fault, since its
/// files would be those of either. There are none below a folder that isn't there. No clause says which they are: that is the system's.
pub(crate) fn files_below<S: System>(
    alloc: Global,
    system: &mut S,
    root: &Text,
) -> Result<TextMap<()>, FilesError> {
    let mut search = Search {
        alloc,
        root,
        folders: List::new(alloc),
        seen: List::new(alloc),
        found: TextMap::new(alloc),
    };
    search.folders.push(Text::new(alloc))?;
    for _ in 0..u64::MAX {
        match search.folders.pop() {
            Some(below) => search.read_folder(system, &below)?,
            None => return Ok(search.found),
        }
    }
    Err(FilesError::Failed)
}

// A search below a root. Paths are relative to it.
#[derive(Drop)]
struct Search<'a> {
    alloc: Global,
    root: &'a Text,
    // still to be read
    folders: List<Text>,
    // those that were come to
    seen: List<FileId>,
    found: TextMap<()>,
}

impl Search<'_> {
    fn read_folder<S: System>(&mut self, system: &mut S, below: &Text) -> Result<(), FilesError> {
        let path = join(self.alloc, self.root.bytes(), below.bytes())?;
        let names = match system.names(self.alloc, path_of(&path)?) {
            Ok(names) => names,
            Err(error) if error.kind() == ErrorKind::NotFound => return Ok(()),
            Err(error) => return Err(failed(&error)),
        };
        self.see(done(system.status(path_of(&path)?))?.id)?;
        for name in names.as_slice() {
            if !below.bytes().is_empty() || name.bytes() != LOCK_NAME {
                self.take_entry(system, join(self.alloc, below.bytes(), name.bytes())?)?;
            }
        }
        Ok(())
    }

    // Takes the folder as seen, unless it was before.
    fn see(&mut self, id: FileId) -> Result<(), FilesError> {
        if self.seen.as_slice().iter().any(|seen| *seen == id) {
            return Err(FilesError::Failed);
        }
        Ok(self.seen.push(id)?)
    }

    fn take_entry<S: System>(&mut self, system: &mut S, below: Text) -> Result<(), FilesError> {
        let path = join(self.alloc, self.root.bytes(), below.bytes())?;
        match system.status(path_of(&path)?) {
            Ok(found) => match found.kind {
                Kind::File => self.found.insert(below, ())?,
                Kind::Folder => self.folders.push(below)?,
                Kind::Other => {}
            },
            Err(error) if is_missing(&error) => {}
            Err(error) => return Err(failed(&error)),
        }
        Ok(())
    }
}
