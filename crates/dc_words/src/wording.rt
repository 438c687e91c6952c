// The words of a command line.
ghost use Rattle.std.specs.Prelude.{◌≡◌, ◌<◌, ◌++◌, IfOk, length, position};
ghost use Rattle.dc_text.specs.Bytes.{is_space as is_space_of};
ghost use Rattle.dc_words.specs.Words.{plain_words_of, some_word};

use dc_text::bytes::is_space;
use dc_text::{List, Mem, Text};
use std::alloc::Global;

/// The words of a line: the longest runs of bytes other than whitespace.
pub fn plain_words(alloc: Global, line: &[u8]) -> Mem<List<Text>>
    ensures { IfOk result (λ words. words ≡ plain_words_of line.now) }
{
    let mut words = List::new(alloc);
    let mut rest = line;
    while !rest.is_empty() {
        let (word, after) = split_word(rest);
        if !word.is_empty() {
            words.push(Text::from_bytes(alloc, word)?)?;
        }
        rest = after;
    }
    Ok(words)
}

// What stands before the first whitespace, and what stands after it.
fn split_word(line: &[u8]) -> (&[u8], &[u8])
    requires { 0 < length line.now }
    ensures words { plain_words_of line.now ≡ some_word result.0.now ++ plain_words_of result.1.now }
    ensures shorter { length result.1.now < length line.now }
{
    match first_space(line) {
        Some(at) => (&line[..at], &line[at + 1..]),
        None => (line, &line[line.len()..]),
    }
}

fn first_space(bytes: &[u8]) -> Option<usize>
    ensures { result ≡ position is_space_of bytes.now }
{
    bytes.iter().position(|byte| is_space(*byte))
}
