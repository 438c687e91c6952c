// The tool that words name.
ghost use Rattle.std.specs.Prelude.{◌≡◌, ◌∷◌, MatchResult, true, codes};
ghost use Rattle.std.specs.Str.{bytes_eq};
ghost use Rattle.dc_text.specs.Names.{is_name as is_name_of};
ghost use Rattle.dc_cli.specs.Tools.{IsToolAnswer};

use crate::copy_words::read_copy;
use crate::copying::{copies, read_owner};
use crate::drill_words::read_drill;
use crate::run_words::{begins_with_dash, read_run};
use crate::selection_words::{read_get_selections, read_selections};
use crate::show_words::read_show;
use crate::tool::{Tool, ToolError};
use dc_text::names::is_name;
use dc_text::{List, Text};
use std::alloc::Global;

/// The tool that the words name.
pub fn read_tool(alloc: Global, words: &List<Text>) -> Result<Tool, ToolError>
    ensures { IsToolAnswer words.now result }
{
    match words.as_slice() {
        [] => Err(ToolError::Refused { word: 0 }),
        [tool, rest @ ..] => {
            if is_word(tool, b"communicate") {
                read_communicate(alloc, rest)
            } else if is_word(tool, b"loadtemplate") {
                read_load_template(alloc, rest)
            } else if is_word(tool, b"run") {
                read_run(alloc, rest)
            } else if is_word(tool, b"show") {
                read_show(alloc, rest)
            } else if is_word(tool, b"copydb") {
                read_copy(alloc, rest)
            } else if is_word(tool, b"set-selections") {
                read_selections(rest)
            } else if is_word(tool, b"get-selections") {
                read_get_selections(rest)
            } else if is_word(tool, b"drill") {
                read_drill(rest)
            } else if is_word(tool, b"answer") {
                read_answer(alloc, rest)
            } else {
                Err(ToolError::Refused { word: 0 })
            }
        }
    }
}

// The words behind `communicate`.
fn read_communicate(alloc: Global, words: &[Text]) -> Result<Tool, ToolError>
    ensures { IsToolAnswer (codes "communicate" ∷ words.now) result }
{
    match words {
        [] => communicate_for(alloc, b"unknown"),
        [word, rest @ ..] => {
            if !is_name(word.bytes()) {
                Err(ToolError::Refused { word: 1 })
            } else if !rest.is_empty() {
                Err(ToolError::Refused { word: 2 })
            } else {
                communicate_for(alloc, word.bytes())
            }
        }
    }
}

// The words behind `loadtemplate`.
fn read_load_template(alloc: Global, words: &[Text]) -> Result<Tool, ToolError>
    ensures { IsToolAnswer (codes "loadtemplate" ∷ words.now) result }
{
    match words {
        [] => Err(ToolError::Refused { word: 1 }),
        [word, rest @ ..] => {
            if !is_name(word.bytes()) {
                Err(ToolError::Refused { word: 1 })
            } else if rest.is_empty() {
                Err(ToolError::Refused { word: 2 })
            } else {
                load_template_for(alloc, word.bytes(), rest)
            }
        }
    }
}

// The words behind `answer`.
fn read_answer(alloc: Global, words: &[Text]) -> Result<Tool, ToolError>
    ensures { IsToolAnswer (codes "answer" ∷ words.now) result }
{
    match words {
        [] => Err(ToolError::Refused { word: 1 }),
        [word, ..] => {
            if begins_with_dash(word.bytes()) {
                Err(ToolError::Refused { word: 1 })
            } else {
                answer_with(alloc, words)
            }
        }
    }
}

fn communicate_for(alloc: Global, owner: &[u8]) -> Result<Tool, ToolError>
    requires { is_name_of owner.now ≡ true }
    ensures { MatchResult result (λ tool. tool ≡ Tool.Communicate owner.now) (λ error. error ≡ ToolError.OutOfMemory) }
{
    let owner = read_owner(alloc, owner)?;
    Ok(Tool::Communicate { owner })
}

fn load_template_for(alloc: Global, owner: &[u8], paths: &[Text]) -> Result<Tool, ToolError>
    requires { is_name_of owner.now ≡ true }
    ensures { MatchResult result (λ tool. tool ≡ Tool.LoadTemplate owner.now paths.now) (λ error. error ≡ ToolError.OutOfMemory) }
{
    let owner = read_owner(alloc, owner)?;
    let paths = copies(alloc, paths)?;
    Ok(Tool::LoadTemplate { owner, paths })
}

fn answer_with(alloc: Global, command: &[Text]) -> Result<Tool, ToolError>
    ensures { MatchResult result (λ tool. tool ≡ Tool.Answer command.now) (λ error. error ≡ ToolError.OutOfMemory) }
{
    let command = copies(alloc, command)?;
    Ok(Tool::Answer { command })
}

fn is_word(tool: &Text, word: &[u8]) -> bool
    ensures { result ≡ bytes_eq tool.now word.now }
{
    tool.bytes() == word
}
