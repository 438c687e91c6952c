// The faults of job texts.
use dc_text::OutOfMemory;
use thiserror::Error;

/// What is wrong with a line of a job text. At one line the first of these decides.
#[derive(Clone, Copy, Debug, PartialEq, Eq)]
pub enum JobKind {
    /// The line has no colon.
    NoColon,
    /// What stands before the colon is no field.
    UnknownField,
    /// The stanza has the field already, or an earlier stanza has the package.
    Twice,
    /// The line begins a stanza behind 256 others.
    TooMany,
    /// The stanza that the line begins has no package.
    NoPackage,
    /// The package is no name.
    BadName,
    /// The line says no templates, or no command.
    EmptyField,
    /// The stanza that the line begins has neither templates nor a command.
    NoWork,
}

/// Why a text has no jobs.
#[derive(Clone, Copy, Debug, PartialEq, Eq, Error)]
pub enum JobError {
    /// The first line with a fault, counted from 1.
    #[error("a bad job")]
    Bad { line: u64, kind: JobKind },
    #[error("out of memory")]
    OutOfMemory,
}

impl From<OutOfMemory> for JobError {
    ghost use Rattle.std.specs.Prelude.{◌≡◌};
    ghost use Rattle.dc_batch.specs.declared.faults.JobError.TheVariants.{OutOfMemory};

    ghost from_gives = { λ _ e. e ≡ OutOfMemory };

    fn from(_: OutOfMemory) -> Self {
        JobError::OutOfMemory
    }
}
