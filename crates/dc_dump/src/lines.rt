// The lines of questions.
ghost use Rattle.std.specs.Prelude.{◌≡◌, ◌++◌, IfOk, OnOk, false, not, map as each};
ghost use Rattle.std.specs.Io.BufRead.{ends_with_byte};
ghost use Rattle.std.specs.List.{list_all};
ghost use Rattle.dc_text.specs.Ascii.{backslash};
ghost use Rattle.dc_text.specs.Bytes.{is_nil};
ghost use Rattle.dc_text.specs.Lines.{text_of};
ghost use Rattle.dc_dump.specs.AnswerLines.{value_line as value_line_of, line_with as line_with_of, unseen_lines as unseen_lines_of, lines_by, lines_of as lines_of_answer, begins_with_hash as begins_with_hash_of, is_plain as is_plain_of, is_short as is_short_of, is_sayable as is_sayable_of};

use crate::answers::Answer;
use dc_template::Kind;
use dc_text::{List, Mem, Name, Text, show_newlines};
use dc_words::MAX_LINE;
use std::alloc::Global;

// The lines of a question, of which one without a kind has none.
pub(crate) fn lines_of(alloc: Global, name: &Name, answer: &Answer) -> Mem<List<Text>>
    ensures { IfOk result (λ lines. lines ≡ lines_of_answer name.now answer.now) }
{
    match answer.kind {
        None => Ok(List::new(alloc)),
        Some(kind) => lines_of_kind(alloc, name, answer, kind),
    }
}

// The lines of a question of this kind.
fn lines_of_kind(alloc: Global, name: &Name, answer: &Answer, kind: Kind) -> Mem<List<Text>>
    ensures { IfOk result (λ lines. lines ≡ lines_by name.now answer.now kind) }
{
    let mut lines = List::new(alloc);
    add_value_lines(alloc, &mut lines, name, answer, kind)?;
    if !answer.seen {
        add_unseen_line(&mut lines, name, answer.owners.as_slice())?;
    }
    Ok(lines)
}

// Adds a line for each owner.
fn add_value_lines(
    alloc: Global,
    lines: &mut List<Text>,
    name: &Name,
    answer: &Answer,
    kind: Kind,
) -> Mem<()>
    ensures { OnOk result (lines.new ≡ lines.old ++ each (value_line_of name.now kind answer.now.value) answer.now.owners) }
{
    for owner in answer.owners.as_slice() {
        lines.push(value_line(alloc, name, kind, answer.value.bytes(), owner)?)?;
    }
    Ok(())
}

// The line by which a question gets an owner, a kind and a value.
fn value_line(alloc: Global, name: &Name, kind: Kind, value: &[u8], owner: &Name) -> Mem<Text>
    ensures { IfOk result (λ line. line ≡ value_line_of name.now kind value.now owner.now) }
{
    let shown = show_newlines(alloc, value)?;
    line_with(owner, name, kind.word(), shown.bytes())
}

// A line: an owner, a name, a word and a value, parted by spaces.
fn line_with(owner: &Name, name: &Name, word: &[u8], value: &[u8]) -> Mem<Text>
    ensures { IfOk result (λ line. line ≡ line_with_of owner.now name.now word.now value.now) }
{
    let mut line = owner.copy()?.into_text();
    line.push(b' ')?;
    line.append(name.bytes())?;
    line.push(b' ')?;
    line.append(word)?;
    line.push(b' ')?;
    line.append(value)?;
    Ok(line)
}

// Adds the line of the first owner by which a question is not seen any more.
fn add_unseen_line(lines: &mut List<Text>, name: &Name, owners: &[Name]) -> Mem<()>
    ensures { OnOk result (lines.new ≡ lines.old ++ unseen_lines_of name.now false owners.now) }
{
    match owners {
        [] => Ok(()),
        [first, ..] => lines.push(line_with(first, name, b"seen", b"false")?),
    }
}

// Whether a question of these lines can be said.
pub(crate) fn is_sayable(name: &Name, answer: &Answer, lines: &List<Text>) -> bool
    requires { lines.now ≡ lines_of_answer name.now answer.now }
    ensures { result ≡ is_sayable_of name.now answer.now }
{
    answer.kind.is_some() && answer.owners.len() > 0 && is_plain(answer) && are_short(lines)
}

// Whether no line of the question would be a comment, or go on with the next.
fn is_plain(answer: &Answer) -> bool
    ensures { result ≡ is_plain_of answer.now }
{
    are_no_comments(answer.owners.as_slice()) && !ends_with_backslash(answer.value.bytes())
}

fn are_no_comments(owners: &[Name]) -> bool
    ensures { result ≡ list_all (λ owner. not (begins_with_hash_of owner)) owners.now }
{
    owners.iter().all(|owner| !begins_with_hash(owner.bytes()))
}

fn begins_with_hash(bytes: &[u8]) -> bool
    ensures { result ≡ begins_with_hash_of bytes.now }
{
    matches!(bytes, [b'#', ..])
}

fn ends_with_backslash(bytes: &[u8]) -> bool
    ensures { result ≡ ends_with_byte backslash bytes.now }
{
    matches!(bytes, [.., b'\\'])
}

// Whether each of the lines is read whole.
fn are_short(lines: &List<Text>) -> bool
    ensures { result ≡ list_all is_short_of lines.now }
{
    lines
        .as_slice()
        .iter()
        .all(|line| line.bytes().len() <= MAX_LINE)
}

// Adds the lines to a text, each with a newline.
pub(crate) fn append_lines(text: &mut Text, lines: &List<Text>) -> Mem<()>
    ensures { OnOk result (text.new ≡ text.old ++ text_of lines.now) }
{
    for line in lines.as_slice() {
        text.append(line.bytes())?;
        text.push(b'\n')?;
    }
    Ok(())
}
