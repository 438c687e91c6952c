// A link in memory: its input is known, its cuts and faults are chosen, and it keeps its talk.
ghost use Rattle.std.specs.Prelude.{◌≡◌, ◌≤◌, ◌+◌, ◌-◌, ◌^◌, ◌<◌, [], ◌∷◌, ◌++◌, length, take, drop, min, IfOk, OnOk, OnErr, Ok, is_ok, if◌then◌else◌};
ghost use Rattle.dc_outside.specs.declared.link.Piece.TheVariants.{Got};
ghost use Rattle.dc_outside.specs.Talk.{got, sent};
ghost use Rattle.dc_outside.specs.Counts.{Rose, RefusalRose, LinkCounted};
ghost use Rattle.dc_outside.specs.LinkCalls.{Reads, Sends};
ghost use Rattle.dc_outside.specs.Memory.{link_of, is_among, next_cut, read_pieces, write_pieces, EndsAtNone, FailsWhere, TakesNumber};

use crate::{Link, LinkError, Piece};
use dc_text::{List, Mem, Text};
use std::alloc::Global;
use std::marker::Model;

#[derive(Drop)]
pub struct MemLink {
    alloc: Global,
    input: Vec<u8>,
    taken: usize,
    cuts: Vec<usize>,
    reads: usize,
    failing: Vec<u64>,
    number: u64,
    talk: List<Piece>,
    written: Text,
    faults: u64,
    refusals: u64,
}

impl Model for MemLink {
    ghost use Rattle.std.specs.Prelude.{◌≡◌, ◌≤◌, drop, length};
    ghost use Rattle.dc_outside.specs.Talk.{sent};
    ghost use Rattle.dc_outside.specs.Memory.{MemLinkState};

    ghost Value = { MemLinkState };

    ghost view = { λ m. record {
      talk = m.talk;
      input = drop m.taken m.input.items;
      cuts = drop m.reads m.cuts.items;
      failing = m.failing.items;
      number = m.number;
      counts = record { faults = m.faults; refusals = m.refusals };
    } };

    ghost invariant = { λ m. (m.taken ≤ length m.input.items) × (m.reads ≤ length m.cuts.items) × (m.written ≡ sent m.talk) };
}

impl MemLink {
    /// The k-th read that isn't failing gives at most `cuts[k]` bytes, where 0 counts as 1. Past the end of `cuts` a
    /// read gives as many as the buffer takes. Calls are numbered from 0, and those in `failing` fail, with no byte
    /// moved.
    pub fn new(alloc: Global, input: &[u8], cuts: &[usize], failing: &[u64]) -> Mem<MemLink>
        ensures talk { IfOk result (λ link. link.talk ≡ []) }
        ensures input { IfOk result (λ link. link.input ≡ input.now) }
        ensures cuts { IfOk result (λ link. link.cuts ≡ cuts.now) }
        ensures failing { IfOk result (λ link. link.failing ≡ failing.now) }
        ensures number { IfOk result (λ link. link.number ≡ 0) }
        ensures counts { IfOk result (λ link. link.counts ≡ record { faults = 0; refusals = 0 }) }
    {
        let input = input.to_vec(alloc)?;
        let cuts = cuts.to_vec(alloc)?;
        let failing = failing.to_vec(alloc)?;
        Ok(MemLink {
            alloc,
            input,
            taken: 0,
            cuts,
            reads: 0,
            failing,
            number: 0,
            talk: List::new(alloc),
            written: Text::new(alloc),
            faults: 0,
            refusals: 0,
        })
    }

    /// All that was said.
    pub fn talk(&self) -> &List<Piece>
        ensures { result.now ≡ self.now.talk }
    {
        &self.talk
    }

    /// All bytes that were written.
    pub fn sent(&self) -> &Text
        ensures { result.now ≡ sent self.now.talk }
    {
        &self.written
    }

    // Whether the next call is one that fails.
    pub(crate) fn is_failing(&self) -> bool
        ensures { result ≡ is_among self.now.failing self.now.number }
    {
        self.failing.contains(&self.number)
    }

    // Leaves the number of a call behind.
    pub(crate) fn pass_number(&mut self)
        ensures { self.new ≡ record self.old { number = min (self.old.number + 1) (2 ^ 64 - 1) } }
    {
        self.number = self.number.saturating_add(1);
    }

    // Counts a call that is refused for want of memory.
    pub(crate) fn count_refusal(&mut self)
        ensures rose { RefusalRose self.old.counts self.new.counts }
        ensures rest { self.new ≡ record self.old { counts = self.new.counts } }
    {
        self.refusals = self.refusals.saturating_add(1);
    }

    // Counts a call by its answer.
    fn count<T>(&mut self, answer: Result<T, LinkError>) -> Result<T, LinkError>
        ensures answer { result ≡ answer }
        ensures rest { self.new ≡ record self.old { number = self.new.number; counts = self.new.counts } }
        ensures number { TakesNumber self.old.number self.new.number result }
        ensures counts { LinkCounted self.old.counts self.new.counts result }
    {
        match &answer {
            Ok(_) => self.pass_number(),
            Err(LinkError::Failed) => {
                self.pass_number();
                self.faults = self.faults.saturating_add(1);
            }
            Err(LinkError::OutOfMemory) => self.count_refusal(),
        }
        answer
    }

    // Adds a piece, by which these bytes are sent.
    fn say(&mut self, piece: Piece, bytes: &[u8]) -> Mem<()>
        requires { sent (piece ∷ []) ≡ bytes.now }
        ensures ok { OnOk result (self.new ≡ record self.old { talk = self.old.talk ++ piece ∷ [] }) }
        ensures err { OnErr result (self.new ≡ self.old) }
    {
        self.talk.push(piece)?;
        match self.written.append(bytes) {
            Ok(()) => Ok(()),
            Err(error) => {
                let _ = self.talk.pop();
                Err(error)
            }
        }
    }

    // How many bytes the next read gives to a buffer with that room.
    fn next_count(&self, room: usize) -> usize
        ensures { result ≡ min (next_cut self.now.cuts room) (length self.now.input) }
    {
        let cut = match self.cuts.get(self.reads) {
            Some(cut) => (*cut).max(1).min(room),
            None => room,
        };
        cut.min(self.input.len() - self.taken)
    }

    // Gives the next bytes of the input, as many as the buffer takes.
    fn fill(&mut self, buf: &mut [u8]) -> Mem<()>
        requires { length buf.old ≤ length self.old.input }
        ensures bytes { OnOk result (buf.new ≡ take (length buf.old) self.old.input) }
        ensures ok { OnOk result (self.new ≡ record self.old { talk = self.old.talk ++ Got buf.new ∷ []; input = drop (length buf.old) self.old.input }) }
        ensures err { OnErr result (self.new ≡ self.old) }
    {
        let next = &self.input[self.taken..self.taken + buf.len()];
        let bytes = Text::from_bytes(self.alloc, next)?;
        buf.copy_from_slice(bytes.bytes());
        self.say(Piece::Got(bytes), &[])?;
        self.taken += buf.len();
        Ok(())
    }

    // Leaves the cut of a read behind.
    fn pass_cut(&mut self)
        ensures { self.new ≡ record self.old { cuts = drop 1 self.old.cuts } }
    {
        if self.reads < self.cuts.len() {
            self.reads += 1;
        }
    }

    fn give(&mut self, buf: &mut [u8]) -> Mem<usize>
        ensures count { IfOk result (λ count. count ≡ min (next_cut self.old.cuts (length buf.old)) (length self.old.input)) }
        ensures talk { IfOk result (λ count. self.new.talk ≡ self.old.talk ++ read_pieces (Ok count) buf.new) }
        ensures left { IfOk result (λ count. self.old.input ≡ got (read_pieces (Ok count) buf.new) ++ self.new.input) }
        ensures rest { OnOk result (self.new ≡ record self.old { talk = self.new.talk; input = self.new.input; cuts = drop 1 self.old.cuts }) }
        ensures err { OnErr result (self.new ≡ self.old) }
    {
        let count = self.next_count(buf.len());
        if count != 0 {
            self.fill(&mut buf[..count])?;
        }
        self.pass_cut();
        Ok(count)
    }

    fn receive(&mut self, buf: &mut [u8]) -> Result<usize, LinkError>
        ensures fails { FailsWhere (is_among self.old.failing self.old.number) result }
        ensures count { IfOk result (λ count. count ≡ min (next_cut self.old.cuts (length buf.old)) (length self.old.input)) }
        ensures talk { self.new.talk ≡ self.old.talk ++ read_pieces result buf.new }
        ensures left { self.old.input ≡ got (read_pieces result buf.new) ++ self.new.input }
        ensures cuts { self.new.cuts ≡ (if is_ok result then drop 1 self.old.cuts else self.old.cuts) }
        ensures rest { self.new ≡ record self.old { talk = self.new.talk; input = self.new.input; cuts = self.new.cuts } }
    {
        if self.is_failing() {
            self.say(Piece::Lost, &[])?;
            return Err(LinkError::Failed);
        }
        Ok(self.give(buf)?)
    }

    fn send(&mut self, bytes: &[u8]) -> Result<(), LinkError>
        ensures fails { FailsWhere (is_among self.old.failing self.old.number) result }
        ensures talk { self.new.talk ≡ self.old.talk ++ write_pieces result bytes.now }
        ensures rest { self.new ≡ record self.old { talk = self.new.talk } }
    {
        if self.is_failing() {
            self.say(Piece::Cut(Text::new(self.alloc)), &[])?;
            return Err(LinkError::Failed);
        }
        let kept = Text::from_bytes(self.alloc, bytes)?;
        self.say(Piece::Sent(kept), bytes)?;
        Ok(())
    }
}

impl MemLink {
    // A read, and how it is counted.
    fn read_call(&mut self, buf: &mut [u8]) -> Result<usize, LinkError>
        requires { 0 < length buf.old }
        ensures bound { IfOk result (λ count. count ≤ length buf.new) }
        ensures talk { self.new.talk ≡ self.old.talk ++ read_pieces result buf.new }
        ensures input { self.old.input ≡ got (read_pieces result buf.new) ++ self.new.input }
        ensures end { EndsAtNone result self.new.input }
        ensures counts { LinkCounted self.old.counts self.new.counts result }
        ensures fails { FailsWhere (is_among self.old.failing self.old.number) result }
        ensures count { IfOk result (λ count. count ≡ min (next_cut self.old.cuts (length buf.old)) (length self.old.input)) }
        ensures cuts { self.new.cuts ≡ (if is_ok result then drop 1 self.old.cuts else self.old.cuts) }
        ensures number { TakesNumber self.old.number self.new.number result }
        ensures failing { self.new.failing ≡ self.old.failing }
    {
        let answer = self.receive(buf);
        self.count(answer)
    }

    // A write, and how it is counted.
    fn write_call(&mut self, bytes: &[u8]) -> Result<(), LinkError>
        ensures talk { self.new.talk ≡ self.old.talk ++ write_pieces result bytes.now }
        ensures counts { LinkCounted self.old.counts self.new.counts result }
        ensures fails { FailsWhere (is_among self.old.failing self.old.number) result }
        ensures number { TakesNumber self.old.number self.new.number result }
        ensures rest { self.new ≡ record self.old { talk = self.new.talk; number = self.new.number; counts = self.new.counts } }
    {
        let answer = self.send(bytes);
        self.count(answer)
    }
}

impl Link for MemLink {
    ghost link = { link_of };

    #[tactic(auto, using(crate::proofs::MemoryCalls::reads_in_memory))]
    fn read_some(&mut self, buf: &mut [u8]) -> Result<usize, LinkError>
        requires { 0 < length buf.old }
        ensures reads { Reads buf.new (link_of self.old) (link_of self.new) result }

        ensures fails { FailsWhere (is_among self.old.failing self.old.number) result }
        ensures count { IfOk result (λ count. count ≡ min (next_cut self.old.cuts (length buf.old)) (length self.old.input)) }
        ensures talk { self.new.talk ≡ self.old.talk ++ read_pieces result buf.new }
        ensures cuts { self.new.cuts ≡ (if is_ok result then drop 1 self.old.cuts else self.old.cuts) }
        ensures number { TakesNumber self.old.number self.new.number result }
        ensures failing { self.new.failing ≡ self.old.failing }
    {
        self.read_call(buf)
    }

    #[tactic(auto, using(crate::proofs::MemoryCalls::sends_in_memory))]
    fn write(&mut self, bytes: &[u8]) -> Result<(), LinkError>
        ensures sends { Sends bytes.now (link_of self.old) (link_of self.new) result }

        ensures fails { FailsWhere (is_among self.old.failing self.old.number) result }
        ensures nothing { self.new.talk ≡ self.old.talk ++ write_pieces result bytes.now }
        ensures number { TakesNumber self.old.number self.new.number result }
        ensures rest { self.new ≡ record self.old { talk = self.new.talk; number = self.new.number; counts = self.new.counts } }
    {
        self.write_call(bytes)
    }
}
