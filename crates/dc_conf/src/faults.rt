// The faults of configurations.
use dc_text::OutOfMemory;
use thiserror::Error;

/// What is wrong with a line of a configuration.
#[derive(Clone, Copy, Debug, PartialEq, Eq)]
pub enum ConfKind {
    /// The line has no colon.
    NoColon,
    /// The stanza has the field already, or an earlier database has the name.
    Twice,
    /// There are more databases than 256, more than 16 in files, in trees or in packs, or more than one pipe.
    TooMany,
    /// The first stanza has no `Config`.
    NoConfig,
    /// The first stanza has no `Templates`.
    NoTemplates,
    /// The stanza of a database has no `Name`.
    NoName,
    /// The stanza of a database has no `Driver`.
    NoDriver,
    /// No driver has this word.
    UnknownDriver,
    /// A field that the driver needs is missing.
    MissingField,
    /// The value isn't one that its field takes.
    BadValue,
    /// An earlier database is kept in the same place, or one of the two below the other.
    SamePlace,
    /// No database has this name.
    UnknownDatabase,
    /// The database that is named is this one, or reaches it.
    Cycle,
    /// Two databases that must not share one do.
    SharedDatabase,
    /// A database that comes or goes through a pipe is used by a tool that doesn't copy.
    PipeUse,
}

/// A fault, and the line that has it, counted from 1.
#[derive(Clone, Copy, Debug, PartialEq, Eq)]
pub struct Fault {
    pub line: u64,
    pub kind: ConfKind,
}

/// Why a text is no configuration.
#[derive(Clone, Copy, Debug, PartialEq, Eq, Error)]
pub enum ConfError {
    /// The fault that decides: its line, counted from 1, and what it is.
    #[error("bad configuration")]
    Refused { line: u64, kind: ConfKind },
    #[error("out of memory")]
    OutOfMemory,
}

impl From<OutOfMemory> for ConfError {
    ghost use Rattle.std.specs.Prelude.{◌≡◌};
    ghost use Rattle.dc_conf.specs.declared.faults.ConfError.TheVariants.{OutOfMemory};

    ghost from_gives = { λ _ e. e ≡ OutOfMemory };

    fn from(_: OutOfMemory) -> Self {
        ConfError::OutOfMemory
    }
}
