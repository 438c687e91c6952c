// Replies of commands.
ghost use Rattle.std.specs.Prelude.{◌≡◌, ◌++◌, IfOk, [], codes};
ghost use Rattle.dc_text.specs.Names.{is_name};
ghost use Rattle.dc_proto.specs.Replies.{reply as reply_of};
ghost use Rattle.dc_session.specs.Answers.{truth, is_truth};
ghost use Rattle.dc_session.specs.Inside.{IsNamed, TellsRefusal, Tells};
ghost use Rattle.dc_session.specs.Machine.{printed_in, sent_in as sent_as};
ghost use Rattle.dc_session.specs.Refusals.{no_question, no_template, no_field, cant_change, other_template, is_busy, bad_flag_value, bad_template_file};
ghost use Rattle.dc_session.specs.declared.stepped.Stepped.TheVariants.{Replied};

use crate::stepped::Stepped;
use dc_proto::{Reply, print_reply};
use dc_question::QuestionError;
use dc_serve::Response;
use dc_text::{Mem, Name, NameRefused, OutOfMemory, Text};
use std::alloc::Global;

/// What a line comes to as it is sent: a reply as it is printed, in escape mode or in plain mode. That to a save tells that it is done.
pub fn sent_in(alloc: Global, stepped: Stepped, escape: bool) -> Mem<Response>
    ensures { IfOk result (λ did. did ≡ sent_as escape stepped) }
{
    match stepped {
        Stepped::Silent => Ok(Response::Silent),
        Stepped::Stopped => Ok(Response::Stopped),
        Stepped::Save => print(alloc, &Reply::new(alloc, 0, b"saved")?, escape),
        Stepped::Replied(reply) => print(alloc, &reply, escape),
    }
}

// The reply as it is printed.
fn print(alloc: Global, reply: &Reply, escape: bool) -> Mem<Response>
    ensures { IfOk result (λ did. did ≡ printed_in escape reply.now) }
{
    Ok(Response::Replied {
        code: reply.code,
        text: print_reply(alloc, reply, escape)?,
    })
}

/// This is replied.
pub fn says(alloc: Global, code: u8, text: &[u8]) -> Mem<Stepped>
    ensures { IfOk result (λ stepped. stepped ≡ Replied (reply_of code text.now)) }
{
    Ok(Stepped::Replied(Reply::new(alloc, code, text)?))
}

// This is replied, of a text that is owned.
fn says_text(code: u8, text: Text) -> Stepped
    ensures { result ≡ Replied (reply_of code text) }
{
    Stepped::Replied(Reply::of(code, text))
}

// A refusal of code 10 that tells a word, between these texts.
fn refuses(alloc: Global, before: &[u8], word: &[u8], after: &[u8]) -> Mem<Stepped>
    ensures { IfOk result (λ stepped. stepped ≡ Replied (reply_of 10 (before.now ++ (word.now ++ after.now)))) }
{
    let mut text = Text::from_bytes(alloc, before)?;
    text.append(word)?;
    text.append(after)?;
    Ok(says_text(10, text))
}

/// No question has the name.
pub fn missing(alloc: Global, word: &[u8]) -> Mem<Stepped>
    ensures { IfOk result (λ stepped. stepped ≡ Replied (no_question word.now)) }
{
    refuses(alloc, b"", word, b" doesn't exist")
}

fn no_such_template(alloc: Global, word: &[u8]) -> Mem<Stepped>
    ensures { IfOk result (λ stepped. stepped ≡ Replied (no_template word.now)) }
{
    refuses(alloc, b"no template for ", word, b"")
}

/// The question, or its template, can't be changed.
pub fn unchangeable(alloc: Global, word: &[u8]) -> Mem<Stepped>
    ensures { IfOk result (λ stepped. stepped ≡ Replied (cant_change word.now)) }
{
    refuses(alloc, b"", word, b" can't be changed")
}

fn bound_elsewhere(alloc: Global, word: &[u8]) -> Mem<Stepped>
    ensures { IfOk result (λ stepped. stepped ≡ Replied (other_template word.now)) }
{
    refuses(alloc, b"", word, b" has another template")
}

/// The question is prepared to be asked.
pub fn busy(alloc: Global, word: &[u8]) -> Mem<Stepped>
    ensures { IfOk result (λ stepped. stepped ≡ Replied (is_busy word.now)) }
{
    refuses(alloc, b"", word, b" is busy")
}

/// The template has no such field.
pub fn no_such_field(alloc: Global, field: &[u8]) -> Mem<Stepped>
    ensures { IfOk result (λ stepped. stepped ≡ Replied (no_field field.now)) }
{
    refuses(alloc, b"", field, b" doesn't exist")
}

/// The template file has a fault at this line.
pub fn faulty(alloc: Global, line: u64) -> Mem<Stepped>
    ensures { IfOk result (λ stepped. stepped ≡ Replied (bad_template_file line)) }
{
    let number = line.to_string(alloc)?;
    refuses(alloc, b"bad template file, line ", number.as_bytes(), b"")
}

/// A call is refused. A field is told as it was typed.
pub fn refused(alloc: Global, field: &[u8], error: QuestionError) -> Mem<Stepped>
    ensures { TellsRefusal field.now error result }
{
    match error {
        QuestionError::NoQuestion { name } => missing(alloc, name.bytes()),
        QuestionError::NoTemplate { name } => no_such_template(alloc, name.bytes()),
        QuestionError::NoField => no_such_field(alloc, field),
        QuestionError::CantChange { name } => unchangeable(alloc, name.bytes()),
        QuestionError::Twice { name } => bound_elsewhere(alloc, name.bytes()),
        QuestionError::OutOfMemory => Err(OutOfMemory),
    }
}

/// What is read is told, or why it isn't.
pub fn tell(
    alloc: Global,
    code: u8,
    field: &[u8],
    said: Result<Text, QuestionError>,
) -> Mem<Stepped>
    ensures { Tells field.now (reply_of code) said result }
{
    match said {
        Ok(text) => Ok(says_text(code, text)),
        Err(error) => refused(alloc, field, error),
    }
}

/// A field that is none is told, unless the question or its template isn't there.
pub fn tell_no_field(alloc: Global, field: &[u8], said: Result<Text, QuestionError>) -> Mem<Stepped>
    ensures { Tells field.now (λ text. no_field field.now) said result }
{
    match said {
        Ok(_) => no_such_field(alloc, field),
        Err(error) => refused(alloc, field, error),
    }
}

/// A flag is told, or why it isn't.
pub fn tell_flag(alloc: Global, said: Result<bool, QuestionError>) -> Mem<Stepped>
    ensures { Tells [] (λ is. reply_of 0 (truth is)) said result }
{
    match said {
        Ok(is) => says(alloc, 0, shown(is)),
        Err(error) => refused(alloc, b"", error),
    }
}

/// A value that no flag gets is told, unless the question isn't there.
pub fn tell_bad_flag(alloc: Global, said: Result<bool, QuestionError>) -> Mem<Stepped>
    ensures { Tells [] (λ is. bad_flag_value) said result }
{
    match said {
        Ok(_) => says(alloc, 10, b"bad flag value"),
        Err(error) => refused(alloc, b"", error),
    }
}

/// A call that writes is confirmed by this text, or it is told why it isn't done.
pub fn confirm(alloc: Global, text: &[u8], done: Result<(), QuestionError>) -> Mem<Stepped>
    ensures { Tells [] (λ unit. reply_of 0 text.now) done result }
{
    match done {
        Ok(()) => says(alloc, 0, text),
        Err(error) => refused(alloc, b"", error),
    }
}

/// The name that the word is, if it is one.
pub fn named(alloc: Global, word: &Text) -> Mem<Option<Name>>
    ensures { IfOk result (IsNamed word.now) }
{
    match Name::read(alloc, word.bytes()) {
        Ok(name) => Ok(Some(name)),
        Err(NameRefused::Bad) => Ok(None),
        Err(NameRefused::OutOfMemory) => Err(OutOfMemory),
    }
}

fn shown(is: bool) -> &'static [u8]
    ensures { result.now ≡ truth is }
{
    if is { b"true" } else { b"false" }
}

/// Whether the value is the word of a truth.
pub fn is_shown_truth(value: &[u8]) -> bool
    ensures { result ≡ is_truth value.now }
{
    value == b"true".as_slice() || value == b"false".as_slice()
}
