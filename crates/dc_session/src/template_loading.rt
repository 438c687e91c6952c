// Template files that are loaded into the questions of a desk.
ghost use Rattle.std.specs.Prelude.{◌≡◌};
ghost use Rattle.dc_session.specs.FileLoading.{Takes};
ghost use Rattle.dc_session.specs.Inside.{HasDistinctNames};
ghost use Rattle.dc_session.specs.SessionState.{FilesState, LinkState, ScreenState, session_at_desk};
ghost use Rattle.dc_session.specs.declared.asking.Asking.{Asking};
ghost use Rattle.dc_session.specs.declared.policy.AskPolicy.{AskPolicy};

use crate::session_questions::SessionQuestions;
use crate::template_files::Found;
use dc_question::QuestionError;
use dc_text::{Mem, OutOfMemory};

/// What becomes of a template file.
#[derive(Drop)]
pub enum FileEnd {
    /// Its templates are loaded.
    Loaded,
    /// The read failed.
    Unreadable,
    /// No file is there.
    Missing,
    /// The file's first line with a fault has this number.
    Faulty { line: u64 },
    /// A question has another template, or can't be changed, and nothing is loaded.
    Refused(QuestionError),
}

impl<'s> SessionQuestions<'s> {
    /// Loads the templates that were found, for the desk's owner (debconf-loadtemplate(1)): all of them, or none.
    pub fn take_templates(&mut self, found: &Found) -> Mem<FileEnd>
        requires distinct { HasDistinctNames found.now }
        ensures takes { (files : FilesState) (terminal : ScreenState) (err : LinkState) (policy : AskPolicy) (asking : Asking) → Takes found.now
            (session_at_desk state self.old files terminal err policy asking)
            (session_at_desk state self.new files terminal err policy asking) result }
        ensures owner { self.new.owner.now ≡ self.old.owner.now }
        ensures borrows { self.new.questions.store.ghost_name ≡ self.old.questions.store.ghost_name }
    {
        match found {
            Found::Unreadable => Ok(FileEnd::Unreadable),
            Found::Missing => Ok(FileEnd::Missing),
            Found::Faulty { line } => Ok(FileEnd::Faulty { line: *line }),
            Found::Templates(templates) => {
                let owner = self.owner;
                match self.questions.load_templates(owner, templates) {
                    Ok(()) => Ok(FileEnd::Loaded),
                    Err(QuestionError::OutOfMemory) => Err(OutOfMemory),
                    Err(error) => Ok(FileEnd::Refused(error)),
                }
            }
        }
    }
}
