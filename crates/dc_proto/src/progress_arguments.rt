// What the arguments of PROGRESS say.
ghost use Rattle.std.specs.Prelude.{◌≡◌, IfOk, map};
ghost use Rattle.dc_text.specs.Bytes.{lower};
ghost use Rattle.dc_proto.specs.Commands.{progress, progress_start, progress_set, progress_step, progress_info, progress_commands, start_between, read_by};

use crate::arguments::{WRONG_NUMBER, refuse};
use crate::command::{Command, Heard};
use crate::numbers::read_number;
use crate::session_arguments::read_alone;
use dc_text::{Mem, Text};
use std::alloc::Global;

const BAD_NUMBER: &[u8] = b"bad number";

/// PROGRESS word arguments
pub fn read_progress(alloc: Global, arguments: &[Text]) -> Mem<Heard>
    ensures { IfOk result (λ said. said ≡ progress arguments.now) }
{
    match arguments {
        [] => refuse(alloc, WRONG_NUMBER),
        [word, rest @ ..] => read_bar(alloc, word, rest),
    }
}

// The table of the second words, without regard to case.
fn read_bar(alloc: Global, word: &Text, arguments: &[Text]) -> Mem<Heard>
    ensures { IfOk result (λ said. said ≡ read_by progress_commands (map lower word.now) arguments.now) }
{
    let word = Text::lowered(alloc, word.bytes())?;
    let word = word.bytes();
    if word == b"start".as_slice() {
        read_start(alloc, arguments)
    } else if word == b"set".as_slice() {
        read_set(alloc, arguments)
    } else if word == b"step".as_slice() {
        read_step(alloc, arguments)
    } else if word == b"info".as_slice() {
        read_info(alloc, arguments)
    } else if word == b"stop".as_slice() {
        read_alone(alloc, Command::ProgressStop, arguments)
    } else {
        refuse(alloc, b"unsupported command")
    }
}

// PROGRESS START min max question
fn read_start(alloc: Global, arguments: &[Text]) -> Mem<Heard>
    ensures { IfOk result (λ said. said ≡ progress_start arguments.now) }
{
    match arguments {
        [min, max, question] => start(
            alloc,
            read_number(min.bytes()),
            read_number(max.bytes()),
            question,
        ),
        [] => refuse(alloc, WRONG_NUMBER),
        [_] => refuse(alloc, WRONG_NUMBER),
        [_, _] => refuse(alloc, WRONG_NUMBER),
        [_, _, _, _, ..] => refuse(alloc, WRONG_NUMBER),
    }
}

// A bar from one number to another, which isn't below it.
fn start(alloc: Global, min: Option<u32>, max: Option<u32>, question: &Text) -> Mem<Heard>
    ensures { IfOk result (λ said. said ≡ start_between min max question.now) }
{
    match (min, max) {
        (Some(min), Some(max)) if min <= max => Ok(Heard::Known(Command::ProgressStart {
            min,
            max,
            question: question.copy()?,
        })),
        _ => refuse(alloc, BAD_NUMBER),
    }
}

// PROGRESS SET number
fn read_set(alloc: Global, arguments: &[Text]) -> Mem<Heard>
    ensures { IfOk result (λ said. said ≡ progress_set arguments.now) }
{
    match arguments {
        [number] => match read_number(number.bytes()) {
            Some(number) => Ok(Heard::Known(Command::ProgressSet(number))),
            None => refuse(alloc, BAD_NUMBER),
        },
        [] => refuse(alloc, WRONG_NUMBER),
        [_, _, ..] => refuse(alloc, WRONG_NUMBER),
    }
}

// PROGRESS STEP number
fn read_step(alloc: Global, arguments: &[Text]) -> Mem<Heard>
    ensures { IfOk result (λ said. said ≡ progress_step arguments.now) }
{
    match arguments {
        [number] => match read_number(number.bytes()) {
            Some(number) => Ok(Heard::Known(Command::ProgressStep(number))),
            None => refuse(alloc, BAD_NUMBER),
        },
        [] => refuse(alloc, WRONG_NUMBER),
        [_, _, ..] => refuse(alloc, WRONG_NUMBER),
    }
}

// PROGRESS INFO question
fn read_info(alloc: Global, arguments: &[Text]) -> Mem<Heard>
    ensures { IfOk result (λ said. said ≡ progress_info arguments.now) }
{
    match arguments {
        [question] => Ok(Heard::Known(Command::ProgressInfo(question.copy()?))),
        [] => refuse(alloc, WRONG_NUMBER),
        [_, _, ..] => refuse(alloc, WRONG_NUMBER),
    }
}
