// The lines of a terminal.
ghost use Rattle.std.specs.Prelude.{◌≡◌, ◌<◌, [], OnErr, IfOk, length, false};
ghost use Rattle.dc_teletype.specs.TerminalLines.{longest as longest_of, front_of, last_line, CallCounts, ReadsLine, EndsWell};
ghost use Rattle.dc_teletype.specs.Inside.{BringsPiece, Takes};

use dc_outside::{Link, LinkError};
use dc_text::bytes::split_at_byte;
use dc_text::{Mem, Text};
use std::alloc::Global;
use std::marker::Model;
use std::mem;

/// The longest line of a terminal that is one, in bytes.
pub const MAX_LINE: usize = 1_048_576;

// How many bytes are read at once.
const PIECE: usize = 4096;

/// A line of a terminal.
#[derive(Drop)]
pub enum TerminalLine {
    Whole(Text),
    /// The first bytes of a line that is longer than the longest.
    Cut,
}

/// The lines of a terminal, as far as its input came.
#[derive(Drop)]
pub struct TerminalLines {
    alloc: Global,
    // What came and wasn't used.
    held: Text,
    // Whether the input has ended.
    has_ended: bool,
}

impl Model for TerminalLines {
    ghost use Rattle.dc_teletype.specs.TerminalLines.{TypeAhead};

    ghost Value = { TypeAhead };

    ghost view = { λ s. record { held = s.held; has_ended = s.has_ended } };
}

impl TerminalLines {
    /// Nothing came yet.
    pub fn new(alloc: Global) -> TerminalLines
        ensures { result ≡ record { held = []; has_ended = false } }
    {
        TerminalLines {
            alloc,
            held: Text::new(alloc),
            has_ended: false,
        }
    }

    /// The next line, for which no more is read than it takes. Once the input has ended, the rest without a newline is a last line, and
    /// then there is none.
    pub fn next<L: Link>(&mut self, link: &mut L) -> Result<Option<TerminalLine>, LinkError>
        ensures read { ReadsLine (record { link = L.link link.old; ahead = self.old }) (record { link = L.link link.new; ahead = self.new }) result }
        ensures end { EndsWell self.old self.new (L.link link.new).input }
        ensures counts { CallCounts result (L.link link.old).counts (L.link link.new).counts }
        ensures program { (L.link link.new).program ≡ (L.link link.old).program }
    {
        loop {
            match self.take_first()? {
                Some(line) => return Ok(Some(line)),
                None => {}
            }
            if self.has_ended {
                return Ok(self.take_last());
            }
            self.read(link)?;
        }
    }

    // Takes the first line, where enough came to tell.
    #[tactic(auto, using(crate::proofs::LineLemmas::front_whole, crate::proofs::LineLemmas::long_front))]
    fn take_first(&mut self) -> Mem<Option<TerminalLine>>
        ensures taken { IfOk result (λ line. Takes self.old.held line self.new.held) }
        ensures err { OnErr result (self.new.held ≡ self.old.held) }
        ensures end { self.new.has_ended ≡ self.old.has_ended }
    {
        match split_at_byte(self.held.bytes(), b'\n') {
            Some((line, after)) if line.len() <= longest() => {
                let line = Text::from_bytes(self.alloc, line)?;
                self.held = Text::from_bytes(self.alloc, after)?;
                Ok(Some(TerminalLine::Whole(line)))
            }
            Some(_) => self.cut_first(),
            None if self.held.bytes().len() <= longest() => Ok(None),
            None => self.cut_first(),
        }
    }

    // Cuts as many bytes off as a line has at most.
    #[tactic(auto, using(crate::proofs::LineLemmas::front_within))]
    fn cut_first(&mut self) -> Mem<Option<TerminalLine>>
        requires { longest_of < length (front_of self.old.held) }
        ensures taken { IfOk result (λ line. Takes self.old.held line self.new.held) }
        ensures err { OnErr result (self.new.held ≡ self.old.held) }
        ensures end { self.new.has_ended ≡ self.old.has_ended }
    {
        self.held = Text::from_bytes(self.alloc, &self.held.bytes()[longest()..])?;
        Ok(Some(TerminalLine::Cut))
    }

    // Takes the rest as a last line, unless it is empty.
    fn take_last(&mut self) -> Option<TerminalLine>
        ensures line { result ≡ last_line self.old.held }
        ensures none { self.new.held ≡ [] }
        ensures end { self.new.has_ended ≡ self.old.has_ended }
    {
        if self.held.bytes().is_empty() {
            return None;
        }
        let line = mem::replace(&mut self.held, Text::new(self.alloc));
        Some(TerminalLine::Whole(line))
    }

    // Reads a piece, and notes the end of the input.
    fn read<L: Link>(&mut self, link: &mut L) -> Result<(), LinkError>
        ensures brought { BringsPiece (record { link = L.link link.old; ahead = self.old }) (record { link = L.link link.new; ahead = self.new }) result }
        ensures end { EndsWell self.old self.new (L.link link.new).input }
        ensures counts { CallCounts result (L.link link.old).counts (L.link link.new).counts }
        ensures program { (L.link link.new).program ≡ (L.link link.old).program }
    {
        let mut buf = buffer(self.alloc)?;
        let count = link.read_some(buf.as_mut_slice())?;
        if count == 0 {
            self.has_ended = true;
        } else {
            self.held.append(&buf.as_slice()[..count])?;
        }
        Ok(())
    }
}

#[tactic(auto, unfolding(crate::specs::TerminalLines::longest))]
fn longest() -> usize
    ensures { result ≡ longest_of }
{
    MAX_LINE
}

fn buffer(alloc: Global) -> Mem<Vec<u8>>
    ensures { IfOk result (λ buf. length buf.items ≡ PIECE) }
{
    let mut buf = Vec::new(alloc);
    buf.resize(PIECE, 0)?;
    Ok(buf)
}
