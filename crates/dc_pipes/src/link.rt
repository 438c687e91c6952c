// A link over a reader and a writer of the host. It tells no talk: what it gives and takes is said of the two.
ghost use Rattle.std.specs.Prelude.{◌≡◌, ◌≤◌, length, IfOk};
ghost use Rattle.std.specs.Io.KnownBytes.{ReadConsumes};
ghost use Rattle.dc_outside.specs.Counts.{Rose, LinkCounted};
ghost use Rattle.dc_pipes.specs.Streams.{WritesAll, host_link};

use crate::streams;
use dc_outside::{Link, LinkError};
use std::io::{Read, Write};

/// A link over a reader and a writer. A read that a signal interrupts is tried again, and what is written is flushed at
/// once.
#[derive(Drop)]
pub struct HostLink<R, W> {
    input: R,
    output: W,
    faults: u64,
}

impl<R: Read, W: Write> HostLink<R, W> {
    /// A link that hasn't failed.
    pub fn new(input: R, output: W) -> HostLink<R, W>
        ensures input { result.input ≡ input }
        ensures output { result.output ≡ output }
        ensures faults { result.faults ≡ 0 }
    {
        HostLink {
            input,
            output,
            faults: 0,
        }
    }

    fn fail<T>(&mut self) -> Result<T, LinkError>
        ensures failed { result ≡ Err LinkError.Failed }
        ensures rose { Rose self.old.faults self.new.faults }
        ensures input { self.new.input ≡ self.old.input }
        ensures output { self.new.output ≡ self.old.output }
    {
        self.faults = self.faults.saturating_add(1);
        Err(LinkError::Failed)
    }
}

impl<R: Read, W: Write> Link for HostLink<R, W> {
    ghost link = { λ h. host_link h.faults };

    fn read_some(&mut self, buf: &mut [u8]) -> Result<usize, LinkError>
        ensures bound { IfOk result (λ count. count ≤ length buf.new) }
        ensures bytes { ReadConsumes (R.remaining self.old.input) (R.remaining self.new.input) result buf.new }
        ensures output { self.new.output ≡ self.old.output }
        ensures counts { LinkCounted (host_link self.old.faults).counts (host_link self.new.faults).counts result }
    {
        match streams::read_some(&mut self.input, buf) {
            Ok(count) => Ok(count),
            Err(_) => self.fail(),
        }
    }

    fn write(&mut self, bytes: &[u8]) -> Result<(), LinkError>
        ensures bytes { WritesAll (W.contents self.old.output) (W.contents self.new.output) result bytes.now }
        ensures input { self.new.input ≡ self.old.input }
        ensures counts { LinkCounted (host_link self.old.faults).counts (host_link self.new.faults).counts result }
    {
        match streams::write_all(&mut self.output, bytes) {
            Ok(()) => Ok(()),
            Err(_) => self.fail(),
        }
    }
}
