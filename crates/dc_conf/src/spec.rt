// What a database is kept in, and how.
ghost use Rattle.std.specs.Prelude.{◌≡◌, IfOk};

use dc_text::{Copied, Mem, Text};

/// How a database is kept: in one file, in a folder with a file for each item, or in one with a file for each prefix. One isn't kept, and comes
/// and goes through a pipe.
#[derive(Clone, Copy, Debug, PartialEq, Eq)]
pub enum LayerSort {
    File,
    Tree,
    Pack,
    Pipe,
}

/// A database that holds items itself (debconf.conf(5)).
#[derive(Drop)]
pub struct LayerSpec {
    pub name: Text,
    pub sort: LayerSort,
    /// The path of the file or the folder. One that comes through a pipe has none.
    pub place: Text,
    /// What the names of the files in the folder end with. Only a database in a folder has one.
    pub extension: Text,
    /// The permission bits of its files.
    pub mode: u16,
    /// Whether the text before each save is kept beside the file.
    pub backup: bool,
    /// Whether it is read from standard input.
    pub infd: bool,
    /// Whether it is written to standard output.
    pub outfd: bool,
    pub readonly: bool,
    /// Whether a run needs it. One that isn't needed is left out where it can't be read.
    pub required: bool,
    pub accept_name: Option<Text>,
    pub reject_name: Option<Text>,
    pub accept_type: Option<Text>,
    pub reject_type: Option<Text>,
}

impl Copied for LayerSpec {
    fn copied(&self) -> Mem<Self> {
        let name = self.name.copy()?;
        let place = self.place.copy()?;
        let extension = self.extension.copy()?;
        let accept_name = copy_of(&self.accept_name)?;
        let reject_name = copy_of(&self.reject_name)?;
        let accept_type = copy_of(&self.accept_type)?;
        let reject_type = copy_of(&self.reject_type)?;
        Ok(LayerSpec {
            name,
            sort: self.sort,
            place,
            extension,
            mode: self.mode,
            backup: self.backup,
            infd: self.infd,
            outfd: self.outfd,
            readonly: self.readonly,
            required: self.required,
            accept_name,
            reject_name,
            accept_type,
            reject_type,
        })
    }
}

fn copy_of(text: &Option<Text>) -> Mem<Option<Text>>
    ensures { IfOk result (λ copy. copy ≡ text.now) }
{
    match text {
        Some(text) => Ok(Some(text.copy()?)),
        None => Ok(None),
    }
}
