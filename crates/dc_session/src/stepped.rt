// What a line comes to.
ghost use Rattle.std.specs.Prelude.{◌≡◌};
ghost use Rattle.dc_session.specs.Inside.{lifted as lifted_of, step_error as step_error_of, wire_error as wire_error_of};

use dc_outside::LinkError;
use dc_pass::PassError;
use dc_proto::Reply;
use dc_text::{Mem, OutOfMemory};

/// What a line of a confmodule comes to.
#[derive(Drop)]
pub enum Stepped {
    /// It has no reply.
    Silent,
    Replied(Reply),
    /// What has changed so far is to be saved by what stands around the session, and `0 saved` is the reply once that is done.
    Save,
    /// The session ends, and no more lines are read.
    Stopped,
}

/// Why a line came to nothing.
#[derive(Clone, Copy, Debug, PartialEq, Eq)]
pub enum StepError {
    /// Reading from the terminal or the wire, or writing to it, failed.
    Term,
    /// This one of the lines that came on the wire is unreadable, counted from 1 over the run.
    Wire { line: u64 },
    OutOfMemory,
}

impl From<OutOfMemory> for StepError {
    ghost use Rattle.std.specs.Prelude.{◌≡◌};
    ghost use Rattle.dc_session.specs.declared.stepped.StepError.TheVariants.{OutOfMemory};

    ghost from_gives = { λ _ e. e ≡ OutOfMemory };

    fn from(_: OutOfMemory) -> Self {
        StepError::OutOfMemory
    }
}

// What a command comes to that uses no terminal.
pub(crate) fn lifted(done: Mem<Stepped>) -> Result<Stepped, StepError>
    ensures { result ≡ lifted_of done }
{
    match done {
        Ok(stepped) => Ok(stepped),
        Err(_) => Err(StepError::OutOfMemory),
    }
}

// Why a line came to nothing at which a call of the terminal had this answer.
pub(crate) fn step_error(error: LinkError) -> StepError
    ensures { result ≡ step_error_of error }
{
    match error {
        LinkError::Failed => StepError::Term,
        LinkError::OutOfMemory => StepError::OutOfMemory,
    }
}

// And at which a request over the wire had it.
pub(crate) fn wire_error(error: PassError) -> StepError
    ensures { result ≡ wire_error_of error }
{
    match error {
        PassError::Failed => StepError::Term,
        PassError::Bad { line } => StepError::Wire { line },
        PassError::OutOfMemory => StepError::OutOfMemory,
    }
}
