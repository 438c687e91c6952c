// The faults of lines of selections.
use dc_text::{NameRefused, OutOfMemory};
use thiserror::Error;

/// What is wrong with a line of selections. Of one line the first of these decides.
#[derive(Clone, Copy, Debug, PartialEq, Eq)]
pub enum SelectionFault {
    /// The line has fewer than three words.
    TooFew,
    /// The owner or the question is no name.
    BadName,
    /// The type is neither the word of a kind nor `seen`.
    BadType,
    /// The value of the flag `seen` is neither `true` nor `false`.
    BadFlagValue,
}

/// Why a line says nothing that can be done.
#[derive(Clone, Copy, Debug, PartialEq, Eq, Error)]
pub enum SelectionError {
    #[error("a bad line")]
    Bad(SelectionFault),
    #[error("out of memory")]
    OutOfMemory,
}

impl From<OutOfMemory> for SelectionError {
    ghost use Rattle.std.specs.Prelude.{◌≡◌};
    ghost use Rattle.dc_preseed.specs.declared.faults.SelectionError.TheVariants.{OutOfMemory};

    ghost from_gives = { λ _ e. e ≡ OutOfMemory };

    fn from(_: OutOfMemory) -> Self {
        SelectionError::OutOfMemory
    }
}
