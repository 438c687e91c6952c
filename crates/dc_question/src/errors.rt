// Why a question isn't read or changed.
use dc_text::{Name, OutOfMemory};

/// Why a call on a question is refused. The name is the question's.
#[derive(Drop)]
pub enum QuestionError {
    /// No question has the name.
    NoQuestion { name: Name },
    /// The question's template isn't there.
    NoTemplate { name: Name },
    /// The template has no such field, in no language.
    NoField,
    /// No layer that may take the change takes it.
    CantChange { name: Name },
    /// The question has another template.
    Twice { name: Name },
    OutOfMemory,
}

impl From<OutOfMemory> for QuestionError {
    ghost use Rattle.std.specs.Prelude.{◌≡◌};
    ghost use Rattle.dc_question.specs.declared.errors.QuestionError.TheVariants.{OutOfMemory};

    ghost from_gives = { λ _ e. e ≡ OutOfMemory };

    fn from(_: OutOfMemory) -> Self {
        QuestionError::OutOfMemory
    }
}
