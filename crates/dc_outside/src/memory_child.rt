// A program in memory, behind a link in memory: what it writes is known, and so is the status that it ends with.
ghost use Rattle.std.specs.Prelude.{◌≡◌, ◌+◌, ◌-◌, ◌^◌, ◌<◌, ◌++◌, [], length, drop, min, IfOk, OnOk, Some, is_ok, is_err, if◌then◌else◌};
ghost use Rattle.std.specs.Option.{option_copied};
ghost use Rattle.dc_outside.specs.Talk.{sent};
ghost use Rattle.dc_outside.specs.LinkCalls.{Reads, Sends, Starts, Waits};
ghost use Rattle.dc_outside.specs.Programs.{Running, IsIdle, IsRunning, words_of, no_program, FailureRose};
ghost use Rattle.dc_outside.specs.Memory.{child_link_of, is_among, next_cut, read_pieces, write_pieces, FailsWhere, TakesNumber};

use crate::{Child, Link, LinkError, MemLink, Piece, WaitFault};
use dc_text::{List, Mem, Text};
use std::alloc::Global;
use std::marker::Model;
use std::mem;

// How far a program has come, with the words that it was started with.
#[derive(Drop)]
enum Stage {
    Ready,
    Started(List<Text>),
    Over(List<Text>),
}

/// A program in memory, behind a link in memory.
#[derive(Drop)]
pub struct MemChild {
    link: MemLink,
    stage: Stage,
    status: u8,
    failures: u64,
    // How many pieces had been said when the program ended.
    said: usize,
}

impl Model for MemChild {
    ghost use Rattle.std.specs.Prelude.{◌≤◌, length, take};
    ghost use Rattle.dc_outside.specs.Memory.{MemChildState};
    ghost use Rattle.dc_outside.specs.MemoryLife.{life_in};

    ghost Value = { MemChildState };

    ghost view = { λ c. record {
      link = c.link;
      program = record { life = life_in c.stage c.status (take c.said c.link.talk); failures = c.failures };
      status = c.status;
    } };

    ghost invariant = { λ c. c.said ≤ length c.link.talk };
}

impl MemChild {
    /// The program writes the input, and ends with the status. Cuts and failing calls are those of a link in memory, where a
    /// start and a wait have their numbers among the reads and writes: a start that is to fail starts nothing, and a wait that
    /// is to fail leaves the program running. One that is started again writes what is left of the input, and ends with the same status.
    pub fn new(
        alloc: Global,
        input: &[u8],
        cuts: &[usize],
        failing: &[u64],
        status: u8,
    ) -> Mem<MemChild>
        ensures talk { IfOk result (λ child. child.link.talk ≡ []) }
        ensures input { IfOk result (λ child. child.link.input ≡ input.now) }
        ensures cuts { IfOk result (λ child. child.link.cuts ≡ cuts.now) }
        ensures failing { IfOk result (λ child. child.link.failing ≡ failing.now) }
        ensures number { IfOk result (λ child. child.link.number ≡ 0) }
        ensures counts { IfOk result (λ child. child.link.counts ≡ record { faults = 0; refusals = 0 }) }
        ensures program { IfOk result (λ child. child.program ≡ no_program) }
        ensures status { IfOk result (λ child. child.status ≡ status) }
    {
        Ok(MemChild {
            link: MemLink::new(alloc, input, cuts, failing)?,
            stage: Stage::Ready,
            status,
            failures: 0,
            said: 0,
        })
    }

    /// All that was said.
    pub fn talk(&self) -> &List<Piece>
        ensures { result.now ≡ self.now.link.talk }
    {
        self.link.talk()
    }

    /// All bytes that were written to the program.
    pub fn sent(&self) -> &Text
        ensures { result.now ≡ sent self.now.link.talk }
    {
        self.link.sent()
    }

    /// The words that the program was started with last, if it was.
    pub fn words(&self) -> Option<&List<Text>>
        ensures { option_copied result ≡ words_of self.now.program.life }
    {
        match &self.stage {
            Stage::Ready => None,
            Stage::Started(words) | Stage::Over(words) => Some(words),
        }
    }

    // Counts a start or a wait that failed.
    fn count_failure(&mut self)
        ensures rose { FailureRose self.old.program self.new.program }
        ensures rest { self.new ≡ record self.old { program = self.new.program } }
    {
        self.failures = self.failures.saturating_add(1);
    }
}

impl Link for MemChild {
    ghost link = { child_link_of };

    #[tactic(auto, using(crate::proofs::MemoryCalls::child_reads))]
    fn read_some(&mut self, buf: &mut [u8]) -> Result<usize, LinkError>
        requires { 0 < length buf.old }
        ensures reads { Reads buf.new (child_link_of self.old) (child_link_of self.new) result }

        ensures fails { FailsWhere (is_among self.old.link.failing self.old.link.number) result }
        ensures count { IfOk result (λ count. count ≡ min (next_cut self.old.link.cuts (length buf.old)) (length self.old.link.input)) }
        ensures cuts { self.new.link.cuts ≡ (if is_ok result then drop 1 self.old.link.cuts else self.old.link.cuts) }
        ensures number { TakesNumber self.old.link.number self.new.link.number result }
        ensures failing { self.new.link.failing ≡ self.old.link.failing }
        ensures rest { self.new ≡ record self.old { link = self.new.link } }
    {
        self.link.read_some(buf)
    }

    #[tactic(auto, using(crate::proofs::MemoryCalls::child_sends))]
    fn write(&mut self, bytes: &[u8]) -> Result<(), LinkError>
        ensures sends { Sends bytes.now (child_link_of self.old) (child_link_of self.new) result }

        ensures fails { FailsWhere (is_among self.old.link.failing self.old.link.number) result }
        ensures nothing { self.new.link.talk ≡ self.old.link.talk ++ write_pieces result bytes.now }
        ensures cuts { self.new.link.cuts ≡ self.old.link.cuts }
        ensures number { TakesNumber self.old.link.number self.new.link.number result }
        ensures failing { self.new.link.failing ≡ self.old.link.failing }
        ensures rest { self.new ≡ record self.old { link = self.new.link } }
    {
        self.link.write(bytes)
    }
}

impl Child for MemChild {
    fn start(&mut self, words: &List<Text>) -> Result<(), LinkError>
        requires some { 0 < length words.now }
        requires idle { IsIdle self.old.program.life }
        ensures starts { Starts words.now (child_link_of self.old) (child_link_of self.new) result }

        ensures words { OnOk result (self.new.program.life ≡ Running (Some words.now)) }
        ensures fails { FailsWhere (is_among self.old.link.failing self.old.link.number) result }
        ensures number { TakesNumber self.old.link.number self.new.link.number result }
        ensures link { self.new.link ≡ record self.old.link { number = self.new.link.number; counts = self.new.link.counts } }
        ensures status { self.new.status ≡ self.old.status }
    {
        if self.link.is_failing() {
            self.link.pass_number();
            self.count_failure();
            return Err(LinkError::Failed);
        }
        match words.copy() {
            Ok(words) => {
                self.link.pass_number();
                self.stage = Stage::Started(words);
                Ok(())
            }
            Err(_) => {
                self.link.count_refusal();
                Err(LinkError::OutOfMemory)
            }
        }
    }

    fn wait(&mut self) -> Result<u8, WaitFault>
        requires { IsRunning self.old.program.life }
        ensures waits { Waits (child_link_of self.old) (child_link_of self.new) result }

        ensures answer { IfOk result (λ status. status ≡ self.old.status) }
        ensures fails { is_err result ≡ is_among self.old.link.failing self.old.link.number }
        ensures number { self.new.link.number ≡ min (self.old.link.number + 1) (2 ^ 64 - 1) }
        ensures link { self.new.link ≡ record self.old.link { number = self.new.link.number } }
        ensures status { self.new.status ≡ self.old.status }
    {
        let fails = self.link.is_failing();
        self.link.pass_number();
        if fails {
            self.count_failure();
            return Err(WaitFault);
        }
        self.said = self.link.talk().len();
        self.stage = match mem::replace(&mut self.stage, Stage::Ready) {
            Stage::Started(words) => Stage::Over(words),
            other => other,
        };
        Ok(self.status)
    }
}
