// The words behind `set-selections` and `get-selections`.
ghost use Rattle.std.specs.Prelude.{◌≡◌, ◌∷◌, codes};
ghost use Rattle.dc_cli.specs.SelectionWords.{selection_option as selection_option_of};
ghost use Rattle.dc_cli.specs.DatabaseReading.{nothing_selected, selection_next, selection_with};
ghost use Rattle.dc_cli.specs.Tools.{IsToolAnswer};

use crate::seen::{Seen, see};
use crate::tool::{Tool, ToolError};
use dc_text::Text;

/// An option of `set-selections` (debconf-set-selections(1)).
#[derive(Clone, Copy, Debug, PartialEq, Eq)]
pub enum SelectionOption {
    Verbose,
    Check,
    Unseen,
}

// Which options were seen.
#[derive(Clone, Copy)]
pub(crate) struct SelectionSeen {
    pub verbose: bool,
    pub check: bool,
    pub unseen: bool,
}

impl SelectionOption {
    // The option that the word spells.
    fn read(word: &[u8]) -> Option<SelectionOption>
        ensures { result ≡ selection_option_of word.now }
    {
        if word == b"-v".as_slice() || word == b"--verbose".as_slice() {
            Some(SelectionOption::Verbose)
        } else if word == b"-c".as_slice() || word == b"--checkonly".as_slice() {
            Some(SelectionOption::Check)
        } else if word == b"-u".as_slice() || word == b"--unseen".as_slice() {
            Some(SelectionOption::Unseen)
        } else {
            None
        }
    }
}

impl SelectionSeen {
    // No option was seen.
    fn nothing() -> Self
        ensures { result ≡ nothing_selected }
    {
        SelectionSeen {
            verbose: false,
            check: false,
            unseen: false,
        }
    }

    // What is seen with this option, unless it was seen before.
    fn with(self, option: SelectionOption) -> Option<SelectionSeen>
        ensures { result ≡ selection_with self option }
    {
        match option {
            SelectionOption::Verbose => (!self.verbose).then_some(SelectionSeen {
                verbose: true,
                ..self
            }),
            SelectionOption::Check => (!self.check).then_some(SelectionSeen {
                check: true,
                ..self
            }),
            SelectionOption::Unseen => (!self.unseen).then_some(SelectionSeen {
                unseen: true,
                ..self
            }),
        }
    }
}

impl Seen for SelectionSeen {
    ghost with_word = { selection_next };

    fn next(self, word: &[u8]) -> Option<SelectionSeen> {
        self.with(SelectionOption::read(word)?)
    }
}

// The words behind `set-selections`.
pub(crate) fn read_selections(words: &[Text]) -> Result<Tool, ToolError>
    ensures { IsToolAnswer (codes "set-selections" ∷ words.now) result }
{
    match see(SelectionSeen::nothing(), words) {
        Ok(seen) => Ok(Tool::SetSelections {
            verbose: seen.verbose,
            check: seen.check,
            unseen: seen.unseen,
        }),
        Err(place) => Err(ToolError::Refused { word: place }),
    }
}

// The words behind `get-selections`, which takes none.
pub(crate) fn read_get_selections(words: &[Text]) -> Result<Tool, ToolError>
    ensures { IsToolAnswer (codes "get-selections" ∷ words.now) result }
{
    if words.is_empty() {
        Ok(Tool::GetSelections)
    } else {
        Err(ToolError::Refused { word: 1 })
    }
}
