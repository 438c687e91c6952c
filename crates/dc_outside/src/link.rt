// A link: bytes come and go on it, and it may fail.
ghost use Rattle.std.specs.Prelude.{◌<◌, length};
ghost use Rattle.dc_outside.specs.State.{LinkState};
ghost use Rattle.dc_outside.specs.LinkCalls.{Reads, Sends, Tells};

use dc_text::{OutOfMemory, Text};

/// A piece of the talk on a link.
#[derive(Drop)]
pub enum Piece {
    Got(Text),
    Sent(Text),
    /// What a write sent before it failed.
    Cut(Text),
    /// A read failed.
    Lost,
}

#[derive(Clone, Copy, Debug, PartialEq, Eq)]
pub enum LinkError {
    Failed,
    OutOfMemory,
}

impl From<OutOfMemory> for LinkError {
    ghost use Rattle.std.specs.Prelude.{◌≡◌};
    ghost use Rattle.dc_outside.specs.declared.link.LinkError.TheVariants.{OutOfMemory};

    ghost from_gives = { λ _ e. e ≡ OutOfMemory };

    fn from(_: OutOfMemory) -> Self {
        LinkError::OutOfMemory
    }
}

/// A link. What its clauses tell of it is one record, of which each call says what it changes.
pub trait Link {
    ghost link: { Self → LinkState };

    /// Puts some bytes at the front of `buf`, and answers their number. 0 is the end of the input.
    fn read_some(&mut self, buf: &mut [u8]) -> Result<usize, LinkError>
        requires { 0 < length buf.old }
        ensures { Reads buf.new (link self.old) (link self.new) result };

    /// Writes all the bytes. After `Failed` a front of them was sent, after `OutOfMemory` none.
    fn write(&mut self, bytes: &[u8]) -> Result<(), LinkError>
        ensures { Sends bytes.now (link self.old) (link self.new) result };
}

/// Tells a text on the link, in one write where there is one. A write that fails is passed over.
pub fn tell<L: Link>(link: &mut L, text: &[u8])
    ensures { Tells text.now (L.link link.old) (L.link link.new) }
{
    if !text.is_empty() {
        let _ = link.write(text);
    }
}
