// The words behind `show`.
ghost use Rattle.std.specs.Prelude.{◌≡◌, ◌∷◌, MatchResult, IfOk, true, Some, codes, drop, if◌then◌else◌};
ghost use Rattle.std.specs.List.{list_all};
ghost use Rattle.dc_text.specs.Names.{is_name as is_name_of};
ghost use Rattle.dc_cli.specs.Tools.{Names, IsToolAnswer};
ghost use Rattle.dc_cli.specs.DatabaseWords.{is_package as is_package_of};
ghost use Rattle.dc_cli.specs.DatabaseReading.{after, nothing_shown, show_next, is_show, shown_of, with_database, with_package, with_owners, with_databases};

use crate::copying::read_owner;
use crate::database_words::{behind_front, is_option, only, values_behind};
use crate::seen::{Seen, see};
use crate::tool::{Shown, Tool, ToolError};
use dc_text::names::is_name;
use dc_text::{List, Mem, Name, Text};
use std::alloc::Global;

// What is asked for.
#[derive(Clone, Copy)]
pub(crate) enum Asked {
    Nothing,
    Packages,
    Owners,
    Databases,
}

// Which words were seen.
#[derive(Clone, Copy)]
pub(crate) struct ShowSeen {
    pub database: bool,
    pub asked: Asked,
}

impl ShowSeen {
    // No word was seen.
    fn nothing() -> Self
        ensures { result ≡ nothing_shown }
    {
        ShowSeen {
            database: false,
            asked: Asked::Nothing,
        }
    }

    // Whether something is asked for.
    fn is_show(self) -> bool
        ensures { result ≡ is_show self }
    {
        !matches!(self.asked, Asked::Nothing)
    }

    fn with_database(self) -> Option<ShowSeen>
        ensures { result ≡ with_database self.database self.asked }
    {
        match (self.database, self.asked) {
            (false, Asked::Nothing | Asked::Owners) => Some(ShowSeen {
                database: true,
                ..self
            }),
            _ => None,
        }
    }

    fn with_owners(self) -> Option<ShowSeen>
        ensures { result ≡ with_owners self.database self.asked }
    {
        match self.asked {
            Asked::Nothing => Some(ShowSeen {
                asked: Asked::Owners,
                ..self
            }),
            _ => None,
        }
    }

    fn with_databases(self) -> Option<ShowSeen>
        ensures { result ≡ with_databases self.database self.asked }
    {
        match (self.database, self.asked) {
            (false, Asked::Nothing) => Some(ShowSeen {
                asked: Asked::Databases,
                ..self
            }),
            _ => None,
        }
    }

    fn with_package(self) -> Option<ShowSeen>
        ensures { result ≡ with_package self.database self.asked }
    {
        match self.asked {
            Asked::Nothing | Asked::Packages => Some(ShowSeen {
                asked: Asked::Packages,
                ..self
            }),
            _ => None,
        }
    }
}

impl Seen for ShowSeen {
    ghost with_word = { show_next };

    fn next(self, word: &[u8]) -> Option<ShowSeen> {
        if behind_front(word, b"--db=").is_some() {
            self.with_database()
        } else if word == b"--listowners".as_slice() {
            self.with_owners()
        } else if word == b"--listdbs".as_slice() {
            self.with_databases()
        } else if is_package(word) {
            self.with_package()
        } else {
            None
        }
    }
}

// The words behind `show`.
pub(crate) fn read_show(alloc: Global, words: &[Text]) -> Result<Tool, ToolError>
    ensures { IsToolAnswer (codes "show" ∷ words.now) result }
{
    match see(ShowSeen::nothing(), words) {
        Ok(seen) => {
            if seen.is_show() {
                show_for(alloc, seen, words)
            } else {
                Err(ToolError::Refused {
                    word: 1 + words.len(),
                })
            }
        }
        Err(place) => Err(ToolError::Refused { word: place }),
    }
}

fn show_for(alloc: Global, seen: ShowSeen, words: &[Text]) -> Result<Tool, ToolError>
    requires seen { after show_next (Some nothing_shown) words.now ≡ Some seen }
    requires asked { is_show seen ≡ true }
    ensures { MatchResult result (Names (codes "show" ∷ words.now)) (λ error. error ≡ ToolError.OutOfMemory) }
{
    let database = only(values_behind(alloc, b"--db=", words)?);
    let shown = shown(alloc, seen, words)?;
    Ok(Tool::Show { database, shown })
}

fn shown(alloc: Global, seen: ShowSeen, words: &[Text]) -> Mem<Shown>
    requires seen { after show_next (Some nothing_shown) words.now ≡ Some seen }
    requires asked { is_show seen ≡ true }
    ensures { IfOk result (λ shown. shown ≡ shown_of words.now seen.database seen.asked) }
{
    match seen.asked {
        Asked::Owners => Ok(Shown::Owners),
        Asked::Databases => Ok(Shown::Databases),
        _ => Ok(Shown::Questions(names(alloc, packages(seen, words))?)),
    }
}

// The words of packages, behind that of a database.
fn packages(seen: ShowSeen, words: &[Text]) -> &[Text]
    ensures { result.now ≡ (if seen.database then drop 1 words.now else words.now) }
{
    match words {
        [_, rest @ ..] if seen.database => rest,
        _ => words,
    }
}

fn names(alloc: Global, words: &[Text]) -> Mem<List<Name>>
    requires { list_all is_package_of words.now ≡ true }
    ensures { IfOk result (λ names. names ≡ words.now) }
{
    let mut names = List::new(alloc);
    for word in words {
        names.push(read_owner(alloc, word.bytes())?)?;
    }
    Ok(names)
}

// Whether the word is a name, and no option.
fn is_package(word: &[u8]) -> bool
    ensures { result ≡ is_package_of word.now }
{
    is_name(word) && !is_option(word)
}
