// How often calls of the files weren't done.
ghost use Rattle.std.specs.Prelude.{◌≡◌};
ghost use Rattle.dc_outside.specs.Counts.{Counted};

use dc_outside::FilesError;
use std::marker::Model;

/// How often a call failed, and how often one was refused for want of memory.
#[derive(Drop)]
pub struct CallCounts {
    faults: u64,
    refusals: u64,
}

impl Model for CallCounts {
    ghost use Rattle.dc_outside.specs.Counts.{Counts};
    ghost use Rattle.dc_host.specs.Counting.{counts_code};

    ghost Value = { Counts };

    ghost coded = { counts_code };

    ghost view = { λ c. record { faults = c.faults; refusals = c.refusals } };
}

impl CallCounts {
    /// No call failed yet, and none was refused.
    pub fn new() -> CallCounts
        ensures { result ≡ record { faults = 0; refusals = 0 } }
    {
        CallCounts {
            faults: 0,
            refusals: 0,
        }
    }

    /// Counts a call by its answer.
    pub fn count<T>(&mut self, answer: Result<T, FilesError>) -> Result<T, FilesError>
        ensures answer { result ≡ answer }
        ensures counted { Counted self.old self.new result }
    {
        match &answer {
            Ok(_) => {}
            Err(FilesError::Failed) => self.faults = self.faults.saturating_add(1),
            Err(FilesError::OutOfMemory) => self.refusals = self.refusals.saturating_add(1),
        }
        answer
    }
}
