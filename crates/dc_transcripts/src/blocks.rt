// The parts of a page, and their blocks.
ghost use Rattle.std.specs.Prelude.{◌<◌, ◌≤◌, length, IfSome};

use dc_text::bytes::{split_line, without_space};
use dc_text::{List, Text};
use dc_words::plain_words;
use std::alloc::Global;

/// What a line is, by its first bytes.
#[derive(Clone, Copy, Debug, PartialEq, Eq)]
pub enum LineKind {
    /// `#`, or nothing.
    Prose,
    /// `==`
    Chapter,
    /// `=`
    Example,
    Words,
}

/// What the first line of a text is.
pub fn kind_of(text: &[u8]) -> LineKind {
    match text {
        [] | [b'#', ..] | [b'\n', ..] => LineKind::Prose,
        [b'=', b'=', ..] => LineKind::Chapter,
        [b'=', ..] => LineKind::Example,
        _ => LineKind::Words,
    }
}

fn is_title(text: &[u8]) -> bool {
    match text {
        [b'=', ..] => true,
        _ => false,
    }
}

/// The first line with all lines up to the next title, and what stands behind them.
pub fn split_part(page: &[u8]) -> (&[u8], &[u8])
    requires { 0 < length page.now }
    ensures { length result.1.now < length page.now }
{
    let (_, mut rest) = split_line(page);
    while !rest.is_empty() && !is_title(rest) {
        let (_, after) = split_line(rest);
        rest = after;
    }
    (&page[..page.len() - rest.len()], rest)
}

/// A line of words, and the text below it: the lines that begin with `|` or `<`, without that and a space. Other lines have no words.
#[derive(Drop)]
pub struct Block<'p> {
    pub words: List<Text>,
    pub text: Text,
    /// As it stands on the page.
    pub lines: &'p [u8],
}

/// The first block of a part, and what stands behind it.
pub fn read_block<'p>(alloc: Global, part: &'p [u8]) -> Option<(Block<'p>, &'p [u8])>
    requires { 0 < length part.now }
    ensures { IfSome result (λ r. length r.1.now < length part.now) }
{
    let (head, mut rest) = split_line(part);
    let words = match kind_of(head) {
        LineKind::Words => plain_words(alloc, head).ok()?,
        LineKind::Prose | LineKind::Chapter | LineKind::Example => List::new(alloc),
    };
    let mut text = Text::new(alloc);
    while let Some((line, after)) = split_marked(rest) {
        text.append(line).ok()?;
        text.push(b'\n').ok()?;
        rest = after;
    }
    let lines = &part[..part.len() - rest.len()];
    Some((Block { words, text, lines }, rest))
}

// The first line without its mark, and what stands behind it, where it has one.
fn split_marked(text: &[u8]) -> Option<(&[u8], &[u8])>
    ensures { IfSome result (λ r. length r.1.now < length text.now) }
{
    match text {
        [b'|' | b'<', rest @ ..] => {
            if rest.is_empty() {
                return Some((rest, rest));
            }
            let (line, after) = split_line(rest);
            Some((without_space(line), after))
        }
        _ => None,
    }
}
