// What a session calls for over the wire.
use dc_frontend::Shown;
use dc_text::{List, OutOfMemory, Text};

/// What a session calls for.
#[derive(Drop)]
pub enum WireCall {
    /// A dialogue over the questions, under the title. Where the confmodule can back up, the user may go back.
    Ask {
        title: Text,
        backup: bool,
        shown: List<Shown>,
    },
    /// A line that the user is told.
    Tell(Text),
}

/// Why a line isn't taken.
#[derive(Clone, Copy, Debug, PartialEq, Eq)]
pub enum WireError {
    /// It is unreadable: no call allows it where it stands.
    Bad,
    OutOfMemory,
}

impl From<OutOfMemory> for WireError {
    ghost use Rattle.std.specs.Prelude.{◌≡◌};
    ghost use Rattle.dc_pass.specs.declared.calls.WireError.TheVariants.{OutOfMemory};

    ghost from_gives = { λ _ e. e ≡ OutOfMemory };

    fn from(_: OutOfMemory) -> Self {
        WireError::OutOfMemory
    }
}
