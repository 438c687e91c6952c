// Command lines.
ghost use Rattle.std.specs.Prelude.{◌≡◌, IfOk, map, drop, codes, false};
ghost use Rattle.std.specs.Str.{bytes_eq};
ghost use Rattle.dc_text.specs.Bytes.{lower};
ghost use Rattle.dc_proto.specs.Commands.{heard, commands, read_by, words_of, is_comment as is_comment_of};

use crate::arguments::{
    read_fget, read_fset, read_get, read_load_template_file, read_metaget, read_register,
    read_reset, read_set, read_subst, read_unregister, refuse,
};
use crate::priority::Priority;
use crate::progress_arguments::read_progress;
use crate::reply::Reply;
use crate::session_arguments::{
    read_alone, read_capb, read_input, read_set_title, read_title, read_version,
};
use dc_text::{FlagName, List, Mem, Name, Text, VarKey};
use dc_words::{plain_words, unescape_words};
use std::alloc::Global;

/// A command (debconf-devel(7)). The word of a question need not be a name: one that isn't names no question.
#[derive(Drop)]
pub enum Command {
    /// Without a version, the protocol's own is asked for.
    Version(Option<Text>),
    Capb(List<Text>),
    SetTitle(Text),
    Title(Text),
    Input {
        priority: Priority,
        question: Text,
    },
    BeginBlock,
    EndBlock,
    Go,
    Clear,
    Stop,
    Get(Text),
    Set {
        question: Text,
        value: Text,
    },
    Reset(Text),
    Subst {
        question: Text,
        key: VarKey,
        value: Text,
    },
    Fget {
        question: Text,
        flag: FlagName,
    },
    Fset {
        question: Text,
        flag: FlagName,
        value: Text,
    },
    /// The word of a field need not be a key: one that isn't names no field.
    Metaget {
        question: Text,
        field: Text,
    },
    /// The word of a template need not be a name: one that isn't names no template.
    Register {
        template: Text,
        question: Name,
    },
    Unregister(Text),
    Purge,
    /// A bar from `min` to `max`, which isn't below it.
    ProgressStart {
        min: u32,
        max: u32,
        question: Text,
    },
    ProgressSet(u32),
    ProgressStep(u32),
    ProgressInfo(Text),
    ProgressStop,
    /// Without an owner the session's is meant.
    LoadTemplateFile {
        path: Text,
        owner: Option<Name>,
    },
    /// What has changed so far is to be saved.
    XSave,
}

/// What a line says.
#[derive(Drop)]
pub enum Heard {
    /// A line without words, or a comment. It has no reply.
    Nothing,
    Known(Command),
    /// A command that its words alone refuse.
    Refused(Reply),
}

/// What the line says, with its words read in escape mode or in plain mode.
pub fn read_command(alloc: Global, line: &[u8], escape: bool) -> Mem<Heard>
    ensures { IfOk result (λ said. said ≡ heard escape line.now) }
{
    if is_comment(line) {
        return Ok(Heard::Nothing);
    }
    let words = words(alloc, line, escape)?;
    match words.as_slice() {
        [] => Ok(Heard::Nothing),
        [word, arguments @ ..] => read_words(alloc, word.bytes(), arguments),
    }
}

fn is_comment(line: &[u8]) -> bool
    ensures { result ≡ is_comment_of line.now }
{
    match line {
        [] => false,
        [first, ..] => *first == b'#',
    }
}

fn words(alloc: Global, line: &[u8], escape: bool) -> Mem<List<Text>>
    ensures { IfOk result (λ words. words ≡ words_of escape line.now) }
{
    if escape {
        unescape_words(alloc, line)
    } else {
        plain_words(alloc, line)
    }
}

// The table of commands, without regard to case. The two that come most often are looked for first.
fn read_words(alloc: Global, word: &[u8], arguments: &[Text]) -> Mem<Heard>
    ensures { IfOk result (λ said. said ≡ read_by commands (map lower word.now) arguments.now) }
{
    if is_word(word, b"get") {
        read_get(alloc, arguments)
    } else if is_word(word, b"set") {
        read_set(alloc, arguments)
    } else {
        read_session_words(alloc, word, arguments)
    }
}

// The commands on the session, and behind them those on questions, for a word that is neither GET nor SET.
fn read_session_words(alloc: Global, word: &[u8], arguments: &[Text]) -> Mem<Heard>
    requires no_get { bytes_eq (map lower word.now) (codes "get") ≡ false }
    requires no_set { bytes_eq (map lower word.now) (codes "set") ≡ false }
    ensures { IfOk result (λ said. said ≡ read_by commands (map lower word.now) arguments.now) }
{
    if is_word(word, b"version") {
        read_version(alloc, arguments)
    } else if is_word(word, b"capb") {
        read_capb(alloc, arguments)
    } else if is_word(word, b"settitle") {
        read_set_title(alloc, arguments)
    } else if is_word(word, b"title") {
        read_title(alloc, arguments)
    } else if is_word(word, b"input") {
        read_input(alloc, arguments)
    } else if is_word(word, b"beginblock") {
        read_alone(alloc, Command::BeginBlock, arguments)
    } else if is_word(word, b"endblock") {
        read_alone(alloc, Command::EndBlock, arguments)
    } else if is_word(word, b"go") {
        read_alone(alloc, Command::Go, arguments)
    } else if is_word(word, b"clear") {
        read_alone(alloc, Command::Clear, arguments)
    } else if is_word(word, b"stop") {
        read_alone(alloc, Command::Stop, arguments)
    } else {
        read_question_words(alloc, word, arguments)
    }
}

// The rows of the table from GET on, for a word that is neither GET nor SET.
fn read_question_words(alloc: Global, word: &[u8], arguments: &[Text]) -> Mem<Heard>
    requires no_get { bytes_eq (map lower word.now) (codes "get") ≡ false }
    requires no_set { bytes_eq (map lower word.now) (codes "set") ≡ false }
    ensures { IfOk result (λ said. said ≡ read_by (drop 10 commands) (map lower word.now) arguments.now) }
{
    if is_word(word, b"reset") {
        read_reset(alloc, arguments)
    } else if is_word(word, b"subst") {
        read_subst(alloc, arguments)
    } else if is_word(word, b"fget") {
        read_fget(alloc, arguments)
    } else if is_word(word, b"fset") {
        read_fset(alloc, arguments)
    } else if is_word(word, b"metaget") {
        read_metaget(alloc, arguments)
    } else if is_word(word, b"register") {
        read_register(alloc, arguments)
    } else if is_word(word, b"unregister") {
        read_unregister(alloc, arguments)
    } else if is_word(word, b"purge") {
        read_alone(alloc, Command::Purge, arguments)
    } else if is_word(word, b"progress") {
        read_progress(alloc, arguments)
    } else if is_word(word, b"x_loadtemplatefile") {
        read_load_template_file(alloc, arguments)
    } else if is_word(word, b"x_save") {
        read_alone(alloc, Command::XSave, arguments)
    } else {
        refuse(alloc, b"unsupported command")
    }
}

// Whether the bytes spell the word, without regard to case.
fn is_word(bytes: &[u8], word: &[u8]) -> bool
    ensures { result ≡ bytes_eq (map lower bytes.now) (map lower word.now) }
{
    bytes.eq_ignore_ascii_case(word)
}
