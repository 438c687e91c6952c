// What the arguments of each command on questions say.
ghost use Rattle.std.specs.Prelude.{◌≡◌, ◌∷◌, ◌++◌, IfOk, OnOk};
ghost use Rattle.std.specs.List.{flat_map};
ghost use Rattle.dc_text.specs.Ascii.{space};
ghost use Rattle.dc_proto.specs.Commands.{get, set, reset, subst, fget, fset, metaget, register, unregister, load_template_file, joined_value};
ghost use Rattle.dc_proto.specs.Replies.{reply as reply_of};

use crate::command::{Command, Heard};
use crate::reply::Reply;
use dc_text::{FlagName, Mem, Name, NameRefused, OutOfMemory, Text, VarKey};
use std::alloc::Global;

/// What a wrong number of arguments is refused with.
pub const WRONG_NUMBER: &[u8] = b"wrong number of arguments";

const BAD_NAME: &[u8] = b"bad name";

/// A refusal that the words alone show.
pub fn refuse(alloc: Global, text: &[u8]) -> Mem<Heard>
    ensures { IfOk result (λ said. said ≡ Heard.Refused (reply_of 20 text.now)) }
{
    Ok(Heard::Refused(Reply::new(alloc, 20, text)?))
}

/// GET question
pub fn read_get(alloc: Global, arguments: &[Text]) -> Mem<Heard>
    ensures { IfOk result (λ said. said ≡ get arguments.now) }
{
    match arguments {
        [question] => Ok(Heard::Known(Command::Get(question.copy()?))),
        [] => refuse(alloc, WRONG_NUMBER),
        [_, _, ..] => refuse(alloc, WRONG_NUMBER),
    }
}

/// SET question value
pub fn read_set(alloc: Global, arguments: &[Text]) -> Mem<Heard>
    ensures { IfOk result (λ said. said ≡ set arguments.now) }
{
    match arguments {
        [question, value @ ..] => Ok(Heard::Known(Command::Set {
            question: question.copy()?,
            value: join(alloc, value)?,
        })),
        [] => refuse(alloc, WRONG_NUMBER),
    }
}

/// RESET question
pub fn read_reset(alloc: Global, arguments: &[Text]) -> Mem<Heard>
    ensures { IfOk result (λ said. said ≡ reset arguments.now) }
{
    match arguments {
        [question] => Ok(Heard::Known(Command::Reset(question.copy()?))),
        [] => refuse(alloc, WRONG_NUMBER),
        [_, _, ..] => refuse(alloc, WRONG_NUMBER),
    }
}

/// SUBST question key value
pub fn read_subst(alloc: Global, arguments: &[Text]) -> Mem<Heard>
    ensures { IfOk result (λ said. said ≡ subst arguments.now) }
{
    match arguments {
        [question, key, value @ ..] => match VarKey::read(alloc, key.bytes()) {
            Ok(key) => Ok(Heard::Known(Command::Subst {
                question: question.copy()?,
                key,
                value: join(alloc, value)?,
            })),
            Err(NameRefused::Bad) => refuse(alloc, BAD_NAME),
            Err(NameRefused::OutOfMemory) => Err(OutOfMemory),
        },
        [] => refuse(alloc, WRONG_NUMBER),
        [_] => refuse(alloc, WRONG_NUMBER),
    }
}

/// FGET question flag
pub fn read_fget(alloc: Global, arguments: &[Text]) -> Mem<Heard>
    ensures { IfOk result (λ said. said ≡ fget arguments.now) }
{
    match arguments {
        [question, flag] => match FlagName::read(alloc, flag.bytes()) {
            Ok(flag) => Ok(Heard::Known(Command::Fget {
                question: question.copy()?,
                flag,
            })),
            Err(NameRefused::Bad) => refuse(alloc, BAD_NAME),
            Err(NameRefused::OutOfMemory) => Err(OutOfMemory),
        },
        [] => refuse(alloc, WRONG_NUMBER),
        [_] => refuse(alloc, WRONG_NUMBER),
        [_, _, _, ..] => refuse(alloc, WRONG_NUMBER),
    }
}

/// FSET question flag value
pub fn read_fset(alloc: Global, arguments: &[Text]) -> Mem<Heard>
    ensures { IfOk result (λ said. said ≡ fset arguments.now) }
{
    match arguments {
        [question, flag, value] => match FlagName::read(alloc, flag.bytes()) {
            Ok(flag) => Ok(Heard::Known(Command::Fset {
                question: question.copy()?,
                flag,
                value: value.copy()?,
            })),
            Err(NameRefused::Bad) => refuse(alloc, BAD_NAME),
            Err(NameRefused::OutOfMemory) => Err(OutOfMemory),
        },
        [] => refuse(alloc, WRONG_NUMBER),
        [_] => refuse(alloc, WRONG_NUMBER),
        [_, _] => refuse(alloc, WRONG_NUMBER),
        [_, _, _, _, ..] => refuse(alloc, WRONG_NUMBER),
    }
}

/// METAGET question field
pub fn read_metaget(alloc: Global, arguments: &[Text]) -> Mem<Heard>
    ensures { IfOk result (λ said. said ≡ metaget arguments.now) }
{
    match arguments {
        [question, field] => Ok(Heard::Known(Command::Metaget {
            question: question.copy()?,
            field: field.copy()?,
        })),
        [] => refuse(alloc, WRONG_NUMBER),
        [_] => refuse(alloc, WRONG_NUMBER),
        [_, _, _, ..] => refuse(alloc, WRONG_NUMBER),
    }
}

/// REGISTER template question
pub fn read_register(alloc: Global, arguments: &[Text]) -> Mem<Heard>
    ensures { IfOk result (λ said. said ≡ register arguments.now) }
{
    match arguments {
        [template, question] => match Name::read(alloc, question.bytes()) {
            Ok(question) => Ok(Heard::Known(Command::Register {
                template: template.copy()?,
                question,
            })),
            Err(NameRefused::Bad) => refuse(alloc, BAD_NAME),
            Err(NameRefused::OutOfMemory) => Err(OutOfMemory),
        },
        [] => refuse(alloc, WRONG_NUMBER),
        [_] => refuse(alloc, WRONG_NUMBER),
        [_, _, _, ..] => refuse(alloc, WRONG_NUMBER),
    }
}

/// UNREGISTER question
pub fn read_unregister(alloc: Global, arguments: &[Text]) -> Mem<Heard>
    ensures { IfOk result (λ said. said ≡ unregister arguments.now) }
{
    match arguments {
        [question] => Ok(Heard::Known(Command::Unregister(question.copy()?))),
        [] => refuse(alloc, WRONG_NUMBER),
        [_, _, ..] => refuse(alloc, WRONG_NUMBER),
    }
}

/// X_LOADTEMPLATEFILE path [owner]
pub fn read_load_template_file(alloc: Global, arguments: &[Text]) -> Mem<Heard>
    ensures { IfOk result (λ said. said ≡ load_template_file arguments.now) }
{
    match arguments {
        [path] => Ok(Heard::Known(Command::LoadTemplateFile {
            path: path.copy()?,
            owner: None,
        })),
        [path, owner] => match Name::read(alloc, owner.bytes()) {
            Ok(owner) => Ok(Heard::Known(Command::LoadTemplateFile {
                path: path.copy()?,
                owner: Some(owner),
            })),
            Err(NameRefused::Bad) => refuse(alloc, BAD_NAME),
            Err(NameRefused::OutOfMemory) => Err(OutOfMemory),
        },
        [] => refuse(alloc, WRONG_NUMBER),
        [_, _, _, ..] => refuse(alloc, WRONG_NUMBER),
    }
}

/// The words joined by one space.
pub fn join(alloc: Global, words: &[Text]) -> Mem<Text>
    ensures { IfOk result (λ value. value ≡ joined_value words.now) }
{
    let mut value = Text::new(alloc);
    if let [first, rest @ ..] = words {
        value.append(first.bytes())?;
        append_spaced(&mut value, rest)?;
    }
    Ok(value)
}

// Each word behind a space.
fn append_spaced(value: &mut Text, words: &[Text]) -> Mem<()>
    ensures { OnOk result (value.new ≡ value.old ++ flat_map (λ later. space ∷ later) words.now) }
{
    for word in words {
        value.push(b' ')?;
        value.append(word.bytes())?;
    }
    Ok(())
}
