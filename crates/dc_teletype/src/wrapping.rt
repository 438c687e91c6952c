// Text in lines of so many columns.
ghost use Rattle.std.specs.Prelude.{◌≡◌, ◌<◌, ◌∷◌, ◌++◌, List as Listed, ℕ, length, IfOk, OnOk};
ghost use Rattle.dc_words.specs.Words.{some_word};
ghost use Rattle.dc_teletype.specs.Columns.{wrapped, wrapped_line, is_verbatim as is_verbatim_of, paragraph, spaced_words, with_word as with_word_of};
ghost use Rattle.dc_teletype.specs.Inside.{begun as begun_lines};

use crate::columns::{append_shown, columns_of};
use dc_text::bytes::{place_of, split_line};
use dc_text::{List, Mem, Text};
use std::alloc::Global;
use std::mem;

/// The lines of a text in so many columns. A line of the text that is empty, or begins with a space, stays as it is; the words of any
/// other fill lines, and a word that is wider than the columns stands alone. Bytes that aren't UTF-8 are shown as U+FFFD.
pub fn wrap(alloc: Global, text: &[u8], columns: usize) -> Mem<List<Text>>
    ensures { IfOk result (λ lines. lines ≡ wrapped columns text.now) }
{
    let mut shown = Text::new(alloc);
    append_shown(alloc, &mut shown, text)?;
    let mut lines = List::new(alloc);
    let mut rest = shown.bytes();
    while !rest.is_empty() {
        let (line, after) = split_line(rest);
        wrap_line(alloc, &mut lines, line, columns)?;
        rest = after;
    }
    Ok(lines)
}

// Adds the lines of a line of the text.
fn wrap_line(alloc: Global, lines: &mut List<Text>, line: &[u8], columns: usize) -> Mem<()>
    ensures { OnOk result (lines.new ≡ lines.old ++ wrapped_line columns line.now) }
{
    if is_verbatim(line) {
        lines.push(Text::from_bytes(alloc, line)?)
    } else {
        fill_lines(alloc, lines, line, columns)
    }
}

// Whether a line stays as it is.
fn is_verbatim(line: &[u8]) -> bool
    ensures { result ≡ is_verbatim_of line.now }
{
    match line {
        [] => true,
        [first, ..] => *first == b' ',
    }
}

// Adds the words of the line, as lines.
fn fill_lines(alloc: Global, lines: &mut List<Text>, line: &[u8], columns: usize) -> Mem<()>
    ensures { OnOk result (lines.new ≡ lines.old ++ paragraph columns (spaced_words line.now)) }
{
    let mut begun = Text::new(alloc);
    let mut rest = line;
    while !rest.is_empty() {
        let (word, after) = split_word(rest);
        if !word.is_empty() {
            add_word(alloc, lines, &mut begun, word, columns)?;
        }
        rest = after;
    }
    if !begun.bytes().is_empty() {
        lines.push(begun)?;
    }
    Ok(())
}

// Adds a word to the line that was begun, or else adds that line and begins one with the word.
fn add_word(
    alloc: Global,
    lines: &mut List<Text>,
    begun: &mut Text,
    word: &[u8],
    columns: usize,
) -> Mem<()>
    requires { 0 < length word.now }
    ensures { OnOk result ((words : Listed (Listed ℕ))
        → lines.new ++ begun_lines columns begun.new words ≡ lines.old ++ begun_lines columns begun.old (word.now ∷ words)) }
{
    if begun.bytes().is_empty() {
        return begun.append(word);
    }
    let longer = with_word(alloc, begun, word)?;
    if columns_of(alloc, longer.bytes())? <= columns {
        *begun = longer;
        Ok(())
    } else {
        let next = Text::from_bytes(alloc, word)?;
        lines.push(mem::replace(begun, next))
    }
}

// The line with one word more.
fn with_word(alloc: Global, line: &Text, word: &[u8]) -> Mem<Text>
    ensures { IfOk result (λ longer. longer ≡ with_word_of line.now word.now) }
{
    let mut longer = line.copy()?;
    longer.push(b' ')?;
    longer.append(word)?;
    Ok(longer)
}

// What stands before the first space, and what stands after it.
fn split_word(line: &[u8]) -> (&[u8], &[u8])
    requires { 0 < length line.now }
    ensures words { spaced_words line.now ≡ some_word result.0.now ++ spaced_words result.1.now }
    ensures shorter { length result.1.now < length line.now }
{
    match place_of(line, b' ') {
        Some(at) => (&line[..at], &line[at + 1..]),
        None => (line, &line[line.len()..]),
    }
}
