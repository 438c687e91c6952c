// A job of a run.
use dc_text::{List, Name, Text};

/// What a run does for a package: it loads its templates, and runs its command.
#[derive(Drop)]
pub struct Job {
    pub package: Name,
    /// The path of the template file, if there is one.
    pub templates: Option<Text>,
    /// The words of the command. Without a command there are none.
    pub command: List<Text>,
}
