// The reader of a session's lines.
ghost use Rattle.std.specs.Prelude.{◌≡◌, []};
ghost use Rattle.dc_pass.specs.Reading.{calls, Takes};

use crate::begun::{Begun, Step};
use crate::calls::{WireCall, WireError};
use dc_words::Line;
use std::alloc::Global;
use std::marker::Model;
use std::mem;

/// Reads what a session sends, a line at a time. Contracts see the reader as the lines of a call that isn't whole yet.
#[derive(Drop)]
pub struct RequestReader {
    alloc: Global,
    begun: Begun,
}

impl Model for RequestReader {
    ghost use Rattle.std.specs.Prelude.{◌≡◌, List, true};
    ghost use Rattle.dc_words.specs.declared.stream.Line.{Line};
    ghost use Rattle.dc_pass.specs.Machine.{lines_begun, is_begun};

    ghost Value = { List Line };

    ghost view = { λ r. lines_begun r.begun };

    ghost invariant = { λ r. is_begun r.begun ≡ true };
}

impl RequestReader {
    /// Between requests.
    pub fn new(alloc: Global) -> RequestReader
        ensures { result ≡ [] }
    {
        RequestReader {
            alloc,
            begun: Begun::Nothing,
        }
    }

    /// Takes the next line. `None` comes where it goes on with a request that isn't whole yet, and `Bad` where it is unreadable. Behind
    /// an error the reader stands between requests.
    pub fn take(&mut self, line: Line) -> Result<Option<WireCall>, WireError>
        ensures { Takes calls self.old line result self.new }
    {
        let begun = mem::replace(&mut self.begun, Begun::Nothing);
        match begun.add(self.alloc, line)? {
            Step::Begins(begun) => {
                self.begun = begun;
                Ok(None)
            }
            Step::Completes(call) => Ok(Some(call)),
        }
    }
}
