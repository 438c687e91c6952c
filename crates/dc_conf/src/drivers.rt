// The drivers of databases.
ghost use Rattle.std.specs.Prelude.{◌≡◌};

use crate::values::is_word;

/// What keeps a database (debconf.conf(5)).
#[derive(Clone, Copy, Debug, PartialEq, Eq)]
pub enum Driver {
    /// One file holds it.
    File,
    /// A folder holds it, with a file for each item.
    DirTree,
    /// A folder holds it, with a file for each prefix of names.
    PackageDir,
    /// It comes on standard input, and goes out on standard output.
    Pipe,
    /// Other databases hold it, and are asked one after another.
    Stack,
    /// Another database holds it, and what is written to that is written to a second one too.
    Backup,
    /// Another database holds it, and what is done there is told.
    Debug,
}

const DRIVERS: [Driver; 7] = [
    Driver::File,
    Driver::DirTree,
    Driver::PackageDir,
    Driver::Pipe,
    Driver::Stack,
    Driver::Backup,
    Driver::Debug,
];

impl Driver {
    ghost use Rattle.dc_conf.specs.Values.{driver_of, driver_word};

    /// The driver that has this word, read without regard to case, `None` where none has.
    pub fn read(word: &[u8]) -> Option<Self>
        ensures { result ≡ driver_of word.now }
    {
        DRIVERS
            .iter()
            .copied()
            .find(|driver| is_word(word, driver.word()))
    }

    /// The word for the driver, in lower case.
    pub fn word(self) -> &'static [u8]
        ensures { result.now ≡ driver_word self }
    {
        match self {
            Driver::File => b"file",
            Driver::DirTree => b"dirtree",
            Driver::PackageDir => b"packagedir",
            Driver::Pipe => b"pipe",
            Driver::Stack => b"stack",
            Driver::Backup => b"backup",
            Driver::Debug => b"debug",
        }
    }
}
