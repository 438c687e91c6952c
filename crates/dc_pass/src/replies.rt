// The lines of a reply.
ghost use Rattle.std.specs.Prelude.{◌≡◌, ◌∷◌, ◌==◌, ◌&&◌, ◌||◌, [], ℕ, Bool, Some, None, drop, codes, List as Listed, IfOk, OnOk, MatchOption};
ghost use Rattle.std.specs.Str.{bytes_eq};
ghost use Rattle.std.specs.List.{list_any};
ghost use Rattle.std.specs.Option.{option_copied};
ghost use Rattle.dc_text.specs.Bytes.{is_nil};
ghost use Rattle.dc_frontend.specs.declared.shown.Shown.{Shown as ShownOf};
ghost use Rattle.dc_teletype.specs.Keys.{is_one_of as is_one_of_words};
ghost use Rattle.dc_pass.specs.Machine.{Gives};
ghost use Rattle.dc_pass.specs.Hearing.{reply_step, reply_said, left_step, goes_further};
ghost use Rattle.dc_pass.specs.Wire.{is_value as is_value_of, are_joined as are_joined_of, are_further, further as further_of, behind as behind_of};

use crate::calls::WireError;
use crate::lines::{WireLine, read_line};
use dc_frontend::Shown;
use dc_teletype::Answer;
use dc_template::Kind;
use dc_text::{List, Mem, Text};
use dc_words::Line;
use dc_words::choices::join_choices;
use std::alloc::Global;

// What a line of a reply says.
#[derive(Drop)]
pub(crate) enum ReplyStep {
    // The next question is answered.
    Answered(Answer),
    // All questions are answered.
    Done,
    Back,
}

// Reads a line of a reply, where these questions are left. `first` says that the user may go back.
pub(crate) fn read_reply_line(
    alloc: Global,
    first: bool,
    left: &[Shown],
    line: Line,
) -> Result<ReplyStep, WireError>
    ensures { Gives result (reply_step first left.now line) }
{
    match line {
        Line::TooLong => Err(WireError::Bad),
        Line::Whole(bytes) => match read_line(alloc, bytes.bytes())? {
            Some(said) => read_said(alloc, first, left, said),
            None => Err(WireError::Bad),
        },
    }
}

fn read_said(
    alloc: Global,
    first: bool,
    left: &[Shown],
    said: WireLine,
) -> Result<ReplyStep, WireError>
    ensures { Gives result (reply_said first left.now said.word said.text) }
{
    if is_back(first, &said) {
        return Ok(ReplyStep::Back);
    }
    match left {
        [] => read_done(&said),
        [question, ..] => read_answer(alloc, question, said),
    }
}

// Whether the line is `back`, where that may come.
fn is_back(first: bool, said: &WireLine) -> bool
    ensures { result ≡ (first && bytes_eq said.now.word (codes "back") && is_nil said.now.text) }
{
    first && said.word.bytes() == b"back".as_slice() && said.text.bytes().is_empty()
}

// Whether the line is this word alone.
fn is_alone(said: &WireLine, word: &[u8]) -> bool
    ensures { result ≡ (bytes_eq said.now.word word.now && is_nil said.now.text) }
{
    said.word.bytes() == word && said.text.bytes().is_empty()
}

fn read_done(said: &WireLine) -> Result<ReplyStep, WireError>
    ensures { Gives result (left_step [] said.now.word said.now.text) }
{
    if is_alone(said, b"done") {
        Ok(ReplyStep::Done)
    } else {
        Err(WireError::Bad)
    }
}

fn read_answer(alloc: Global, question: &Shown, said: WireLine) -> Result<ReplyStep, WireError>
    ensures { (others : Listed ShownOf) → Gives result (left_step (question.now ∷ others) said.word said.text) }
{
    if is_alone(&said, b"keep") {
        return Ok(ReplyStep::Answered(Answer::Keep));
    }
    let WireLine { word, text } = said;
    if word.bytes() == b"value".as_slice() && is_value(alloc, question, text.bytes())? {
        Ok(ReplyStep::Answered(Answer::Value(text)))
    } else {
        Err(WireError::Bad)
    }
}

// Whether the question can be answered by the value.
fn is_value(alloc: Global, question: &Shown, value: &[u8]) -> Mem<bool>
    ensures { IfOk result (λ is. is ≡ is_value_of question.now.kind question.now.choices value.now) }
{
    match question.kind {
        Kind::Str | Kind::Password => Ok(true),
        Kind::Bool => Ok(value == b"true".as_slice() || value == b"false".as_slice()),
        Kind::Select => Ok(is_one_of(question.choices.as_slice(), value)),
        Kind::Multiselect => are_joined(alloc, question.choices.as_slice(), value),
        _ => Ok(false),
    }
}

fn is_one_of(words: &[Text], word: &[u8]) -> bool
    ensures { result ≡ is_one_of_words words.now word.now }
{
    words.iter().any(|other| other.bytes() == word)
}

// Whether the value is some of the choices, in order, each once, joined.
pub(crate) fn are_joined(alloc: Global, choices: &[Text], value: &[u8]) -> Mem<bool>
    ensures { IfOk result (λ are. are ≡ are_joined_of choices.now value.now) }
{
    if value.is_empty() {
        return Ok(true);
    }
    let mut text = Text::from_bytes(alloc, b", ")?;
    text.append(value)?;
    is_further(alloc, choices, text.bytes())
}

// Whether the text is some of the choices, each with a comma and a space before it. The ways in which choices are found at the front are
// kept as the places where they end, each once.
fn is_further(alloc: Global, choices: &[Text], text: &[u8]) -> Mem<bool>
    ensures { IfOk result (λ are. are ≡ are_further choices.now text.now) }
{
    let mut ways = List::new(alloc);
    ways.push(0)?;
    let mut rest = choices;
    while let [choice, others @ ..] = rest {
        let piece = further(alloc, choice)?;
        ways = with_choice(alloc, &ways, piece.bytes(), text)?;
        rest = others;
    }
    Ok(has_end(ways.as_slice(), text))
}

// The ways with a choice more, which is found or passed over.
fn with_choice(alloc: Global, ways: &List<usize>, piece: &[u8], text: &[u8]) -> Mem<List<usize>>
    ensures { IfOk result (λ more. (rest : Listed (Listed ℕ))
        → list_any (λ at. are_further rest (drop at text.now)) more ≡ list_any (goes_further rest piece.now text.now) ways.now) }
{
    let mut more = List::new(alloc);
    for at in ways.as_slice() {
        add_way(&mut more, *at)?;
        if let Some(after) = place_behind(text, *at, piece) {
            add_way(&mut more, after)?;
        }
    }
    Ok(more)
}

// Adds a way, unless it is there.
fn add_way(ways: &mut List<usize>, at: usize) -> Mem<()>
    ensures { OnOk result ((passes : ℕ → Bool) → list_any passes ways.new ≡ (list_any passes ways.old || passes at)) }
{
    if has_way(ways.as_slice(), at) {
        Ok(())
    } else {
        ways.push(at)
    }
}

fn has_way(ways: &[usize], at: usize) -> bool
    ensures { result ≡ list_any (λ other. other == at) ways.now }
{
    ways.iter().any(|other| *other == at)
}

// Where the piece ends that stands at the place.
fn place_behind(text: &[u8], at: usize, piece: &[u8]) -> Option<usize>
    ensures { MatchOption result (behind_of piece.now (drop at text.now) ≡ None)
        (λ after. behind_of piece.now (drop at text.now) ≡ Some (drop after text.now)) }
{
    match behind(rest_from(text, at), piece) {
        Some(after) => Some(text.len().saturating_sub(after.len())),
        None => None,
    }
}

// What stands behind this front of the bytes, where they have it.
fn behind<'a>(bytes: &'a [u8], front: &[u8]) -> Option<&'a [u8]>
    ensures { option_copied result ≡ behind_of front.now bytes.now }
{
    bytes.strip_prefix(front)
}

// The text from the place on.
fn rest_from(text: &[u8], at: usize) -> &[u8]
    ensures { result.now ≡ drop at text.now }
{
    if at <= text.len() {
        &text[at..]
    } else {
        &text[text.len()..]
    }
}

// Whether a way ends with the text.
fn has_end(ways: &[usize], text: &[u8]) -> bool
    ensures { result ≡ list_any (λ at. is_nil (drop at text.now)) ways.now }
{
    ways.iter().any(|at| is_end(text, *at))
}

fn is_end(text: &[u8], at: usize) -> bool
    ensures { result ≡ is_nil (drop at text.now) }
{
    rest_from(text, at).is_empty()
}

// A choice as it is joined to those before it.
fn further(alloc: Global, choice: &Text) -> Mem<Text>
    ensures { IfOk result (λ piece. piece ≡ further_of choice.now) }
{
    let mut one = List::new(alloc);
    one.push(choice.copy()?)?;
    let joined = join_choices(alloc, &one)?;
    let mut piece = Text::from_bytes(alloc, b", ")?;
    piece.append(joined.bytes())?;
    Ok(piece)
}
