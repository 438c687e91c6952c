// The folders of the host that changed.
ghost use Rattle.std.specs.Prelude.{◌≡◌, OnErr, OnOk};
ghost use Rattle.std.specs.FinMap as map;
ghost use Rattle.dc_host.specs.Folders.{folder_of, with_folder_of, IsKept, Keeps};

use crate::paths::{failed, is_denied, is_missing};
use crate::system::{Kind, System};
use dc_outside::FilesError;
use dc_text::{Mem, Text, TextMap};
use std::alloc::Global;
use std::marker::Model;
use std::path::Path;

/// The folders that gained or lost a name since they were synced.
#[derive(Drop)]
pub struct ChangedFolders {
    alloc: Global,
    folders: TextMap<()>,
}

impl Model for ChangedFolders {
    ghost use Rattle.dc_text.specs.Maps.{TextSet};
    ghost use Rattle.dc_host.specs.Folders.{folders_code};

    ghost Value = { TextSet };

    ghost coded = { folders_code };

    ghost view = { λ c. c.folders };
}

impl ChangedFolders {
    pub fn new(alloc: Global) -> ChangedFolders
        ensures { result ≡ map.empty }
    {
        ChangedFolders {
            alloc,
            folders: TextMap::new(alloc),
        }
    }

    /// Keeps the folder of the path, which is to change.
    #[tactic(auto, using(crate::proofs::FolderLemmas::is_kept_with, crate::proofs::FolderLemmas::keeps_with, crate::proofs::FolderLemmas::keeps_same, crate::proofs::FolderLemmas::keeps_on, crate::proofs::FolderLemmas::kept_on))]
    pub fn mark(&mut self, path: &str) -> Mem<()>
        ensures ok { OnOk result (self.new ≡ with_folder_of self.old path.now) }
        ensures err { OnErr result (self.new ≡ self.old) }
        ensures kept { OnOk result (IsKept self.new path.now) }
        ensures others { Keeps self.old self.new }
    {
        let folder = Text::from_bytes(self.alloc, folder_of(path).as_bytes())?;
        self.folders.insert(folder, ())
    }

    /// Keeps the folders of both paths.
    #[tactic(auto, using(crate::proofs::FolderLemmas::is_kept_with, crate::proofs::FolderLemmas::keeps_with, crate::proofs::FolderLemmas::keeps_same, crate::proofs::FolderLemmas::keeps_on, crate::proofs::FolderLemmas::kept_on))]
    pub fn mark_both(&mut self, path: &str, other: &str) -> Mem<()>
        ensures kept { OnOk result (IsKept self.new path.now) }
        ensures too { OnOk result (IsKept self.new other.now) }
        ensures others { Keeps self.old self.new }
    {
        self.mark(path)?;
        self.mark(other)
    }

    /// Makes the folder of the path, and those above it, where they are missing. Those are kept in which they are made. Whether
    /// this user may make them.
    pub fn make_folder<S: System>(&mut self, system: &mut S, path: &str) -> Result<bool, FilesError>
        ensures { Keeps self.old self.new }
    {
        let folder = folder_of(path);
        for above in Path::new(folder).ancestors() {
            if above.as_str().is_empty() || is_folder(system, above.as_str()) {
                break;
            }
            self.mark(above.as_str())?;
        }
        match system.make_folder(folder) {
            Ok(()) => Ok(true),
            Err(error) if is_denied(&error) => Ok(false),
            Err(error) => Err(failed(&error)),
        }
    }

    /// Syncs the folder of the path, and all that are kept, since that may be new in one of them. No clause says that it does: that is
    /// the system's.
    pub(crate) fn sync_with<S: System>(
        &self,
        system: &mut S,
        path: &str,
    ) -> Result<(), FilesError> {
        let folder = folder_of(path).as_bytes();
        if !self.folders.contains(folder) {
            sync_folder(self.alloc, system, folder)?;
        }
        self.sync_kept(system)
    }

    /// Syncs the folders, which are then no longer kept. Where one fails, all are.
    pub fn sync<S: System>(&mut self, system: &mut S) -> Result<(), FilesError>
        ensures ok { OnOk result (self.new ≡ map.empty) }
        ensures err { OnErr result (self.new ≡ self.old) }
    {
        self.sync_kept(system)?;
        self.folders = TextMap::new(self.alloc);
        Ok(())
    }

    fn sync_kept<S: System>(&self, system: &mut S) -> Result<(), FilesError> {
        for (folder, _) in self.folders.iter() {
            sync_folder(self.alloc, system, folder)?;
        }
        Ok(())
    }
}

fn is_folder<S: System>(system: &mut S, path: &str) -> bool {
    match system.status(path) {
        Ok(found) => found.kind == Kind::Folder,
        Err(_) => false,
    }
}

// Lets no crash take the names in the folder. One that isn't there has none.
fn sync_folder<S: System>(alloc: Global, system: &mut S, folder: &[u8]) -> Result<(), FilesError> {
    let Ok(folder) = std::str::from_utf8(folder) else {
        return Err(FilesError::Failed);
    };
    match system.sync_folder(alloc, folder) {
        Ok(()) => Ok(()),
        Err(error) if is_missing(&error) => Ok(()),
        Err(error) => Err(failed(&error)),
    }
}

// The folder that holds the entry of the path.
fn folder_of(path: &str) -> &str
    ensures { result.now ≡ folder_of path.now }
{
    match Path::new(path).parent() {
        Some(folder) if !folder.as_str().is_empty() => folder.as_str(),
        _ => ".",
    }
}
