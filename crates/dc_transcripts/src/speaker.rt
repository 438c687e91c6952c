// The far end of a link: what it says, in which pieces that comes, and which calls of the link fail.
ghost use Rattle.std.specs.Prelude.{◌≡◌, IfSome};
ghost use Rattle.dc_outside.specs.Programs.{Unstarted};

use dc_outside::{MemChild, MemLink};
use dc_text::Text;
use std::alloc::Global;

#[derive(Drop)]
pub struct Speaker {
    alloc: Global,
    said: Text,
    cuts: Vec<usize>,
    failing: Vec<u64>,
    /// Whether the last line is to have no newline.
    is_open: bool,
}

impl Speaker {
    /// It says nothing.
    pub fn new(alloc: Global) -> Speaker {
        Speaker {
            alloc,
            said: Text::new(alloc),
            cuts: Vec::new(alloc),
            failing: Vec::new(alloc),
            is_open: false,
        }
    }

    /// The text is said so many times, each with its number for `#`.
    pub fn say_often(&mut self, count: u64, text: &Text) -> Option<()> {
        for number in 0..count {
            append_numbered(self.alloc, &mut self.said, text.bytes(), number)?;
        }
        Some(())
    }

    /// The word is said so many times.
    pub fn say_word(&mut self, count: u64, word: &Text) -> Option<()> {
        for _ in 0..count {
            self.said.append(word.bytes()).ok()?;
        }
        Some(())
    }

    /// The bytes of these numbers are said.
    pub fn say_bytes(&mut self, numbers: &[Text]) -> Option<()> {
        for place in 0..numbers.len() {
            let byte = u8::try_from(number_at(numbers, place)?).ok()?;
            self.said.push(byte).ok()?;
        }
        Some(())
    }

    /// No newline ends what is said.
    pub fn leave_open(&mut self) {
        self.is_open = true;
    }

    /// It comes in pieces of these lengths.
    pub fn cut(&mut self, numbers: &[Text]) -> Option<()> {
        for place in 0..numbers.len() {
            self.cuts.push(number_at(numbers, place)? as usize).ok()?;
        }
        Some(())
    }

    /// The calls of these numbers fail.
    pub fn fail(&mut self, numbers: &[Text]) -> Option<()> {
        add_numbers(&mut self.failing, numbers)
    }

    /// It says the text too.
    pub fn say(&mut self, text: &Text) -> Option<()> {
        self.said.append(text.bytes()).ok()
    }

    /// The link on which it speaks.
    pub fn link(&self) -> Option<MemLink> {
        MemLink::new(self.alloc, self.all(), &self.cuts, &self.failing).ok()
    }

    /// The program that speaks so, and ends with the status.
    pub fn program(&self, status: u8) -> Option<MemChild>
        ensures { IfSome result (λ child. child.program.life ≡ Unstarted) }
    {
        MemChild::new(self.alloc, self.all(), &self.cuts, &self.failing, status).ok()
    }

    // All that it says.
    fn all(&self) -> &[u8] {
        match self.said.bytes() {
            [front @ .., b'\n'] if self.is_open => front,
            whole => whole,
        }
    }
}

/// The number at a place of the words.
pub fn number_at(words: &[Text], place: usize) -> Option<u64> {
    let word = words.get(place)?;
    std::str::from_utf8(word.bytes()).ok()?.parse::<u64>().ok()
}

/// Adds the numbers that the words are.
pub fn add_numbers(numbers: &mut Vec<u64>, words: &[Text]) -> Option<()> {
    for place in 0..words.len() {
        numbers.push(number_at(words, place)?).ok()?;
    }
    Some(())
}

/// The bytes, with the number for each `#`.
pub fn append_numbered(alloc: Global, all: &mut Text, bytes: &[u8], number: u64) -> Option<()> {
    for byte in bytes {
        if *byte == b'#' {
            let digits = format!(in alloc; "{number}").ok()?;
            all.append(digits.as_bytes()).ok()?;
        } else {
            all.push(*byte).ok()?;
        }
    }
    Some(())
}
