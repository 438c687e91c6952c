// What the arguments of each command on the session say.
ghost use Rattle.std.specs.Prelude.{◌≡◌, IfOk};
ghost use Rattle.dc_proto.specs.Commands.{version, capb, set_title, title, input, alone};

use crate::arguments::{WRONG_NUMBER, join, refuse};
use crate::command::{Command, Heard};
use crate::priority::Priority;
use dc_text::{List, Mem, Text};
use std::alloc::Global;

const BAD_PRIORITY: &[u8] = b"bad priority";

/// VERSION [version]
pub fn read_version(alloc: Global, arguments: &[Text]) -> Mem<Heard>
    ensures { IfOk result (λ said. said ≡ version arguments.now) }
{
    match arguments {
        [] => Ok(Heard::Known(Command::Version(None))),
        [number] => Ok(Heard::Known(Command::Version(Some(number.copy()?)))),
        [_, _, ..] => refuse(alloc, WRONG_NUMBER),
    }
}

/// CAPB capabilities
pub fn read_capb(alloc: Global, arguments: &[Text]) -> Mem<Heard>
    ensures { IfOk result (λ said. said ≡ capb arguments.now) }
{
    Ok(Heard::Known(Command::Capb(copy_words(alloc, arguments)?)))
}

/// SETTITLE question
pub fn read_set_title(alloc: Global, arguments: &[Text]) -> Mem<Heard>
    ensures { IfOk result (λ said. said ≡ set_title arguments.now) }
{
    match arguments {
        [question] => Ok(Heard::Known(Command::SetTitle(question.copy()?))),
        [] => refuse(alloc, WRONG_NUMBER),
        [_, _, ..] => refuse(alloc, WRONG_NUMBER),
    }
}

/// TITLE value
pub fn read_title(alloc: Global, arguments: &[Text]) -> Mem<Heard>
    ensures { IfOk result (λ said. said ≡ title arguments.now) }
{
    Ok(Heard::Known(Command::Title(join(alloc, arguments)?)))
}

/// INPUT priority question
pub fn read_input(alloc: Global, arguments: &[Text]) -> Mem<Heard>
    ensures { IfOk result (λ said. said ≡ input arguments.now) }
{
    match arguments {
        [priority, question] => match Priority::read(priority.bytes()) {
            Some(priority) => Ok(Heard::Known(Command::Input {
                priority,
                question: question.copy()?,
            })),
            None => refuse(alloc, BAD_PRIORITY),
        },
        [] => refuse(alloc, WRONG_NUMBER),
        [_] => refuse(alloc, WRONG_NUMBER),
        [_, _, _, ..] => refuse(alloc, WRONG_NUMBER),
    }
}

/// A command without arguments.
pub fn read_alone(alloc: Global, command: Command, arguments: &[Text]) -> Mem<Heard>
    ensures { IfOk result (λ said. said ≡ alone command arguments.now) }
{
    match arguments {
        [] => Ok(Heard::Known(command)),
        [_, ..] => refuse(alloc, WRONG_NUMBER),
    }
}

fn copy_words(alloc: Global, words: &[Text]) -> Mem<List<Text>>
    ensures { IfOk result (λ copies. copies ≡ words.now) }
{
    let mut copies = List::new(alloc);
    for word in words {
        copies.push(word.copy()?)?;
    }
    Ok(copies)
}
