// The tools.
ghost use Rattle.std.specs.Prelude.{◌≡◌};
ghost use Rattle.dc_cli.specs.DatabaseWords.{is_name_field as is_name_field_of};

use dc_frontend::Frontend;
use dc_proto::Priority;
use dc_text::{List, Name, OutOfMemory, Text};

/// A tool, with what its words say.
#[derive(Drop)]
pub enum Tool {
    /// `communicate [OWNER]` serves commands on the link (debconf-communicate(1)).
    Communicate {
        owner: Name,
    },
    /// `loadtemplate OWNER FILE ...` loads the templates of files (debconf-loadtemplate(1)).
    LoadTemplate {
        owner: Name,
        paths: List<Text>,
    },
    /// `run [OPTION ...] COMMAND [ARGUMENT ...]` runs a command as a confmodule (debconf(1)).
    Run {
        owner: Name,
        /// The frontend that is asked for, in place of the one that would be taken otherwise.
        frontend: Option<Frontend>,
        /// The least priority of questions that are to be shown.
        priority: Option<Priority>,
        /// The command, and its arguments behind it.
        command: List<Text>,
    },
    /// `show [--db=DATABASE] ..` prints what a database holds (debconf-show(1)).
    Show {
        /// The database that is asked for, in place of the configured one.
        database: Option<PlacedWord>,
        shown: Shown,
    },
    /// `copydb SOURCE DEST ..` copies items from one database to another (debconf-copydb(1)).
    CopyDb(CopyWords),
    /// `set-selections [OPTION ...]` answers questions before they are asked (debconf-set-selections(1)).
    SetSelections {
        /// Whether each line that is taken is told.
        verbose: bool,
        /// Whether the lines are only read.
        check: bool,
        /// Whether the questions stay unseen.
        unseen: bool,
    },
    /// `get-selections` prints all answers as lines that `set-selections` reads (debconf-get-selections(1)).
    GetSelections,
    /// `drill N` serves so many rounds of commands over databases of its own, and counts.
    Drill {
        count: u32,
    },
    /// `answer COMMAND [ARGUMENT ...]` runs a command, and asks on the terminal what it asks for over its wire (debconf(7), Passthrough).
    Answer {
        /// The command, and its arguments behind it.
        command: List<Text>,
    },
}

/// A word, or the value in it, and the place of the word among the program's, from 0.
#[derive(Drop)]
pub struct PlacedWord {
    pub word: Text,
    pub place: usize,
}

/// What `show` prints.
#[derive(Drop)]
pub enum Shown {
    /// The questions of these owners.
    Questions(List<Name>),
    /// Those who own an item.
    Owners,
    /// The databases of the configuration.
    Databases,
}

/// What the words of `copydb` say.
#[derive(Drop)]
pub struct CopyWords {
    pub source: PlacedWord,
    pub dest: PlacedWord,
    /// The pattern that is found in the names of the items that are copied.
    pub by_name: Option<PlacedWord>,
    /// The pattern that is found in one of their owners.
    pub by_owner: Option<PlacedWord>,
    /// What is added to the configuration.
    pub config: List<ConfigLine>,
}

/// A field of a configuration, and its value.
#[derive(Drop)]
pub struct ConfigLine {
    pub field: Text,
    pub value: Text,
}

/// Why no tool was read.
#[derive(Clone, Copy, Debug, PartialEq, Eq)]
pub enum ToolError {
    /// The place of the first word that no tool takes there, from 0, or the number of words where one is missing.
    Refused { word: usize },
    OutOfMemory,
}

impl From<OutOfMemory> for ToolError {
    ghost use Rattle.std.specs.Prelude.{◌≡◌};
    ghost use Rattle.dc_cli.specs.declared.tool.ToolError.TheVariants.{OutOfMemory};

    ghost from_gives = { λ _ e. e ≡ OutOfMemory };

    fn from(_: OutOfMemory) -> Self {
        ToolError::OutOfMemory
    }
}

/// Whether the field names a database, in letters of either case (debconf.conf(5), `Name`).
pub fn is_name_field(field: &[u8]) -> bool
    ensures { result ≡ is_name_field_of field.now }
{
    field.eq_ignore_ascii_case(b"name")
}
