// A program behind a link: it is started, its output is read and its input written, and it is waited for.
ghost use Rattle.std.specs.Prelude.{◌≡◌, ◌<◌, length};
ghost use Rattle.dc_outside.specs.LinkCalls.{Starts, Waits};
ghost use Rattle.dc_outside.specs.Programs.{IsIdle, IsRunning};

use crate::{Link, LinkError};
use dc_text::{List, Text};

/// A wait for a program failed.
#[derive(Clone, Copy, Debug, PartialEq, Eq)]
pub struct WaitFault;

/// A program behind a link. Once it has ended, another may be started in its place, and the talk on the link goes on. What is told of it
/// stands in the link's record.
pub trait Child: Link {
    /// Starts the program that the first word names, with the further words as its arguments. What it writes is then read
    /// from the link, and it reads what is written to the link.
    fn start(&mut self, words: &List<Text>) -> Result<(), LinkError>
        requires some { 0 < length words.now }
        requires idle { IsIdle (Self.link self.old).program.life }
        ensures { Starts words.now (Self.link self.old) (Self.link self.new) result };

    /// Closes the link to the program, waits for its end, and answers its exit status: 128 where a signal ended it. It takes
    /// no memory. The ended program keeps the talk as it stands then.
    fn wait(&mut self) -> Result<u8, WaitFault>
        requires { IsRunning (Self.link self.old).program.life }
        ensures { Waits (Self.link self.old) (Self.link self.new) result };
}
