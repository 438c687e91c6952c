// The words behind `run`, read an option at a time.
ghost use Rattle.std.specs.Prelude.{◌≡◌, ◌∷◌, MatchResult, true, codes, unwrap_or};
ghost use Rattle.std.specs.Option.{option_copied};
ghost use Rattle.dc_text.specs.Names.{is_name as is_name_of};
ghost use Rattle.dc_cli.specs.Tools.{begins_with_dash as begins_with_dash_of, IsToolAnswer};

use crate::copying::{copies, read_owner};
use crate::run_options::RunOptions;
use crate::tool::{Tool, ToolError};
use dc_text::Text;
use std::alloc::Global;

// The words behind `run`.
pub(crate) fn read_run(alloc: Global, words: &[Text]) -> Result<Tool, ToolError>
    ensures { IsToolAnswer (codes "run" ∷ words.now) result }
{
    let mut options = RunOptions::none();
    let mut rest = words;
    while let [word, behind @ ..] = rest {
        if !begins_with_dash(word.bytes()) {
            return run_for(alloc, options, rest);
        }
        match options.next_option(word, behind) {
            Ok(first) => {
                options = options.with(first.option, first.value);
                rest = first.rest;
            }
            Err(place) => {
                return Err(ToolError::Refused {
                    word: 1 + (words.len() - rest.len()) + place,
                });
            }
        }
    }
    Err(ToolError::Refused {
        word: 1 + words.len(),
    })
}

fn run_for(alloc: Global, options: RunOptions, command: &[Text]) -> Result<Tool, ToolError>
    requires { is_name_of (unwrap_or (option_copied options.owner) (codes "unknown")) ≡ true }
    ensures { MatchResult result (λ tool. tool
        ≡ Tool.Run (unwrap_or (option_copied options.entry.owner) (codes "unknown")) options.entry.frontend options.entry.priority command.now)
        (λ error. error ≡ ToolError.OutOfMemory) }
{
    let owner = read_owner(alloc, options.owner.unwrap_or(b"unknown"))?;
    let command = copies(alloc, command)?;
    Ok(Tool::Run {
        owner,
        frontend: options.frontend,
        priority: options.priority,
        command,
    })
}

pub(crate) fn begins_with_dash(word: &[u8]) -> bool
    ensures { result ≡ begins_with_dash_of word.now }
{
    match word {
        [b'-', ..] => true,
        _ => false,
    }
}
