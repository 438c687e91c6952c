// The words behind `drill`.
ghost use Rattle.std.specs.Prelude.{◌≡◌, ◌∷◌, codes};
ghost use Rattle.dc_cli.specs.SelectionWords.{drill_bounded, drill_count as drill_count_of};
ghost use Rattle.dc_cli.specs.Tools.{IsToolAnswer};

use crate::tool::{Tool, ToolError};
use dc_proto::numbers::read_number;
use dc_text::Text;

/// The greatest number that `drill` takes.
const MOST: u32 = 4_000;

// The words behind `drill`.
pub(crate) fn read_drill(words: &[Text]) -> Result<Tool, ToolError>
    ensures { IsToolAnswer (codes "drill" ∷ words.now) result }
{
    match words {
        [] => Err(ToolError::Refused { word: 1 }),
        [word, rest @ ..] => match drill_count(word.bytes()) {
            None => Err(ToolError::Refused { word: 1 }),
            Some(count) => {
                if rest.is_empty() {
                    Ok(Tool::Drill { count })
                } else {
                    Err(ToolError::Refused { word: 2 })
                }
            }
        },
    }
}

// The number that the word spells, where `drill` takes it.
fn drill_count(word: &[u8]) -> Option<u32>
    ensures { result ≡ drill_count_of word.now }
{
    match word {
        [b'0', ..] => None,
        _ => bounded(read_number(word)),
    }
}

fn bounded(number: Option<u32>) -> Option<u32>
    ensures { result ≡ drill_bounded number }
{
    match number {
        Some(count) if count <= MOST => Some(count),
        _ => None,
    }
}
