// The lines of a stream of bytes that comes in pieces.
ghost use Rattle.std.specs.Prelude.{◌≡◌, ◌≤◌, ◌<◌, ◌+◌, [], ◌∷◌, ◌++◌, length, take, drop, OnOk, OnErr, IfOk, MatchOption, option_to_list};
ghost use Rattle.dc_text.specs.Lines.{text_lines};
ghost use Rattle.dc_words.specs.Stream.{whole_lines, rest_of, line_of, line_of_rest, clip, clipped, StandsFor};

use dc_text::bytes::{place_of, rest_begins};
use dc_text::{Mem, Text};
use std::alloc::Global;
use std::marker::Model;
use std::mem;

/// The longest line that is whole, in bytes. A longer one is `Line::TooLong`.
pub const MAX_LINE: usize = 1_048_576;

/// The longest piece that `Lines::feed` takes, in bytes.
pub const MAX_PIECE: usize = 65_536;

/// A line, without its newline.
#[derive(Drop)]
pub enum Line {
    Whole(Text),
    /// A line of more than `MAX_LINE` bytes.
    TooLong,
}

/// The bytes of a stream that no line has taken yet. Contracts see them as bytes that stand for all that was fed: they
/// have the same lines and the same rest.
#[derive(Drop)]
pub struct Lines {
    alloc: Global,
    held: Vec<u8>,
    taken: usize,
}

impl Model for Lines {
    ghost use Rattle.std.specs.Prelude.{List, ℕ, ◌≤◌, drop, length};

    ghost Value = { List ℕ };

    ghost view = { λ l. drop l.taken l.held.items };

    ghost invariant = { λ l. l.taken ≤ length l.held.items };
}

impl Lines {
    /// Before the first piece.
    pub fn new(alloc: Global) -> Self
        ensures { result ≡ [] }
    {
        Lines {
            alloc,
            held: Vec::new(alloc),
            taken: 0,
        }
    }

    /// Takes the next piece, while no whole line is held.
    pub fn feed(&mut self, piece: &[u8]) -> Mem<()>
        requires small { length piece.now ≤ MAX_PIECE }
        requires no_line { whole_lines self.old ≡ [] }
        ensures fed { OnOk result (StandsFor (self.old ++ piece.now) self.new) }
        ensures err { OnErr result (StandsFor self.old self.new) }
    {
        self.compact();
        self.add(piece)?;
        Ok(())
    }

    fn add(&mut self, piece: &[u8]) -> Mem<()>
        ensures ok { OnOk result (self.new ≡ self.old ++ piece.now) }
        ensures err { OnErr result (self.new ≡ self.old) }
    {
        self.held.extend_from_slice(piece)?;
        Ok(())
    }

    // Forgets the bytes that were taken, and those of the rest that don't matter.
    fn compact(&mut self)
        ensures { self.new ≡ clipped self.old }
    {
        remove_front(&mut self.held, self.taken);
        self.taken = 0;
        clip_to(&mut self.held, MAX_LINE + 1);
    }

    /// Takes the first whole line, if one is held.
    pub fn next(&mut self) -> Mem<Option<Line>>
        ensures line { IfOk result (λ next. MatchOption next
            (whole_lines self.old ≡ [])
            (λ line. whole_lines self.old ≡ line ∷ whole_lines self.new)) }
        ensures rest { rest_of self.new ≡ rest_of self.old }
        ensures shorter { IfOk result (λ next. MatchOption next
            (self.new ≡ self.old)
            (λ line. length self.new < length self.old)) }
        ensures err { OnErr result (self.new ≡ self.old) }
    {
        match newline_at(&self.held[self.taken..]) {
            None => Ok(None),
            Some(len) => {
                let line = line_from(self.alloc, &self.held[self.taken..self.taken + len])?;
                self.taken += len + 1;
                Ok(Some(line))
            }
        }
    }

    /// Takes the rest, which stands behind the last newline, if it isn't empty. All that was held goes, lines that no
    /// `next` took among it.
    pub fn last(&mut self) -> Option<Line>
        ensures line { option_to_list result ≡ line_of_rest (rest_of self.old) }
        ensures empty { self.new ≡ [] }
    {
        let begins = self.taken + rest_begins(&self.held[self.taken..]);
        let mut rest = mem::replace(&mut self.held, Vec::new(self.alloc));
        self.taken = 0;
        remove_front(&mut rest, begins);
        line_of_vec(rest)
    }
}

fn clip_to(bytes: &mut Vec<u8>, most: usize)
    ensures { bytes.new.items ≡ clip bytes.old.items most }
{
    bytes.truncate(most);
}

fn remove_front(bytes: &mut Vec<u8>, count: usize)
    requires { count ≤ length bytes.old.items }
    ensures { bytes.new.items ≡ drop count bytes.old.items }
{
    if count == 0 {
        return;
    }
    let left = bytes.len() - count;
    bytes.copy_within(count.., 0);
    bytes.truncate(left);
}

fn line_of_vec(bytes: Vec<u8>) -> Option<Line>
    ensures { option_to_list result ≡ line_of_rest bytes.items }
{
    if bytes.is_empty() {
        None
    } else if bytes.len() <= MAX_LINE {
        Some(Line::Whole(Text::from_vec(bytes)))
    } else {
        Some(Line::TooLong)
    }
}

// Where the first newline stands, and what it parts.
fn newline_at(bytes: &[u8]) -> Option<usize>
    ensures { MatchOption result (text_lines bytes.now ≡ record { ended = []; rest = bytes.now })
        (λ k. (k < length bytes.now) × (text_lines bytes.now ≡ record {
          ended = take k bytes.now ∷ (text_lines (drop (k + 1) bytes.now)).ended;
          rest = (text_lines (drop (k + 1) bytes.now)).rest;
        })) }
{
    place_of(bytes, b'\n')
}

fn line_from(alloc: Global, bytes: &[u8]) -> Mem<Line>
    ensures { IfOk result (λ line. line ≡ line_of bytes.now) }
{
    if bytes.len() <= MAX_LINE {
        Ok(Line::Whole(Text::from_bytes(alloc, bytes)?))
    } else {
        Ok(Line::TooLong)
    }
}
