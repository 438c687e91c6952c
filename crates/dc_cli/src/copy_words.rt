// The words behind `copydb`.
ghost use Rattle.std.specs.Prelude.{◌≡◌, ◌∷◌, [], length, MatchResult, IfOk, true, codes, map as each};
ghost use Rattle.dc_cli.specs.Tools.{Names, IsToolAnswer};
ghost use Rattle.dc_cli.specs.DatabaseWords.{placed_from, plain_of};
ghost use Rattle.dc_cli.specs.DatabaseReading.{nothing_copied, copy_next, is_copy, database_seen, line_seen, line_of, fits};

use crate::database_words::{behind_front, is_option, only, plain_words, values_behind};
use crate::seen::{Seen, see};
use crate::tool::{ConfigLine, CopyWords, PlacedWord, Tool, ToolError, is_name_field};
use dc_text::bytes::split_at_byte;
use dc_text::{List, Mem, Text};
use std::alloc::Global;

// Which words were seen.
#[derive(Clone, Copy)]
pub(crate) struct CopySeen {
    pub source: bool,
    pub dest: bool,
    pub by_name: bool,
    pub by_owner: bool,
    pub config: bool,
}

impl CopySeen {
    // No word was seen.
    fn nothing() -> Self
        ensures { result ≡ nothing_copied }
    {
        CopySeen {
            source: false,
            dest: false,
            by_name: false,
            by_owner: false,
            config: false,
        }
    }

    // Whether both databases are named.
    fn is_copy(self) -> bool
        ensures { result ≡ is_copy self }
    {
        self.source && self.dest
    }

    fn with_database(self) -> Option<CopySeen>
        ensures { result ≡ database_seen self }
    {
        if !self.source {
            Some(CopySeen {
                source: true,
                ..self
            })
        } else if !self.dest {
            Some(CopySeen { dest: true, ..self })
        } else {
            None
        }
    }

    fn with_line(self, line: &[u8]) -> Option<CopySeen>
        ensures { result ≡ line_seen self line.now }
    {
        match split_at_byte(line, b':') {
            Some((field, _)) if self.config || is_name_field(field) => {
                Some(CopySeen {
                    config: true,
                    ..self
                })
            }
            _ => None,
        }
    }
}

impl Seen for CopySeen {
    ghost with_word = { copy_next };

    fn next(self, word: &[u8]) -> Option<CopySeen> {
        if !is_option(word) {
            self.with_database()
        } else if behind_front(word, b"--pattern=").is_some() {
            (!self.by_name).then_some(CopySeen {
                by_name: true,
                ..self
            })
        } else if behind_front(word, b"--owner-pattern=").is_some() {
            (!self.by_owner).then_some(CopySeen {
                by_owner: true,
                ..self
            })
        } else if let Some(line) = behind_front(word, b"--config=") {
            self.with_line(line)
        } else {
            None
        }
    }
}

// The words behind `copydb`.
pub(crate) fn read_copy(alloc: Global, words: &[Text]) -> Result<Tool, ToolError>
    ensures { IsToolAnswer (codes "copydb" ∷ words.now) result }
{
    match see(CopySeen::nothing(), words) {
        Ok(seen) => {
            if seen.is_copy() {
                copy_for(alloc, words)
            } else {
                Err(ToolError::Refused {
                    word: 1 + words.len(),
                })
            }
        }
        Err(place) => Err(ToolError::Refused { word: place }),
    }
}

fn copy_for(alloc: Global, words: &[Text]) -> Result<Tool, ToolError>
    requires { fits nothing_copied 1 words.now ≡ true }
    ensures { MatchResult result (Names (codes "copydb" ∷ words.now)) (λ error. error ≡ ToolError.OutOfMemory) }
{
    let (source, dest) = databases(alloc, words)?;
    let by_name = only(values_behind(alloc, b"--pattern=", words)?);
    let by_owner = only(values_behind(alloc, b"--owner-pattern=", words)?);
    let config = values_behind(alloc, b"--config=", words)?;
    Ok(Tool::CopyDb(CopyWords {
        source,
        dest,
        by_name,
        by_owner,
        config: lines(alloc, config.as_slice())?,
    }))
}

// The first database, and the second.
fn databases(alloc: Global, words: &[Text]) -> Mem<(PlacedWord, PlacedWord)>
    requires { length (plain_of (placed_from 1 words.now)) ≡ 2 }
    ensures { IfOk result (λ both. plain_of (placed_from 1 words.now) ≡ both.0 ∷ both.1 ∷ []) }
{
    let mut plain = plain_words(alloc, words)?;
    let dest = plain.pop().unwrap();
    let source = plain.pop().unwrap();
    Ok((source, dest))
}

// The lines that the values say.
fn lines(alloc: Global, values: &[PlacedWord]) -> Mem<List<ConfigLine>>
    ensures { IfOk result (λ lines. lines ≡ each (λ placed. line_of placed.word) values.now) }
{
    let mut lines = List::new(alloc);
    for value in values {
        lines.push(line(alloc, value.word.bytes())?)?;
    }
    Ok(lines)
}

// The field before the first colon, and the value behind it.
fn line(alloc: Global, text: &[u8]) -> Mem<ConfigLine>
    ensures { IfOk result (λ line. line ≡ line_of text.now) }
{
    let (field, value) = split_at_byte(text, b':').unwrap_or((text, b""));
    Ok(ConfigLine {
        field: Text::from_bytes(alloc, field)?,
        value: Text::from_bytes(alloc, value)?,
    })
}
