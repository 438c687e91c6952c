// Lines of selections, as they are done.
ghost use Rattle.std.specs.Prelude.{◌≡◌, true};
ghost use Rattle.dc_conf.specs.Plans.{are_disjoint};
ghost use Rattle.dc_question.specs.Asked.{asked, HasPlans, Leaves, SameBut};
ghost use Rattle.dc_preseed.specs.Lines.{Sets, done_by as done_by_of, line_set, question_in, question_of, selected, selection_set};

use crate::faults::{SelectionError, SelectionFault};
use crate::selections::{Selection, read_selection};
use dc_layer::Layer;
use dc_question::{QuestionError, Questions, seen_flag};
use dc_text::Name;

/// What a line of selections set.
#[derive(Drop)]
pub enum LineDone {
    /// The line says nothing.
    Nothing,
    /// The value of the question.
    ValueSet(Name),
    /// The flag `seen` of the question.
    SeenSet(Name),
}

/// Why a line of selections sets nothing.
#[derive(Clone, Copy, Debug, PartialEq, Eq)]
pub enum LineFault {
    /// The line has fewer than three words.
    TooFew,
    /// The owner or the question is no name.
    BadName,
    /// The type is neither the word of a kind nor `seen`.
    BadType,
    /// The value of the flag `seen` is neither `true` nor `false`.
    BadFlagValue,
    /// No question has the name whose flag is to be set.
    NoQuestion,
    /// No layer that may take the change takes it.
    CantChange,
    OutOfMemory,
}

impl From<SelectionError> for LineFault {
    ghost use Rattle.std.specs.Prelude.{◌≡◌};
    ghost use Rattle.dc_preseed.specs.Lines.{fault_of};

    ghost from_gives = { λ error fault. fault ≡ fault_of error };

    fn from(error: SelectionError) -> Self {
        match error {
            SelectionError::Bad(SelectionFault::TooFew) => LineFault::TooFew,
            SelectionError::Bad(SelectionFault::BadName) => LineFault::BadName,
            SelectionError::Bad(SelectionFault::BadType) => LineFault::BadType,
            SelectionError::Bad(SelectionFault::BadFlagValue) => LineFault::BadFlagValue,
            SelectionError::OutOfMemory => LineFault::OutOfMemory,
        }
    }
}

impl From<QuestionError> for LineFault {
    ghost use Rattle.std.specs.Prelude.{◌≡◌};
    ghost use Rattle.dc_preseed.specs.Lines.{refusal_of};

    ghost from_gives = { λ error fault. fault ≡ refusal_of error };

    fn from(error: QuestionError) -> Self {
        match error {
            QuestionError::NoQuestion { name: _ } => LineFault::NoQuestion,
            QuestionError::OutOfMemory => LineFault::OutOfMemory,
            _ => LineFault::CantChange,
        }
    }
}

/// Does what a line of selections says (debconf-set-selections(1)): it answers a question before it is asked, which is then seen unless
/// that isn't wanted, or sets the flag `seen` of one. With `check` the line is only read, and the answer says what would be set. The first
/// fault of the line comes first, then `NoQuestion` exactly where the flag is one of no question, and else `CantChange` exactly where the
/// store refuses a write.
pub fn set_line(
    questions: &mut Questions<'_>,
    line: &[u8],
    check: bool,
    unseen: bool,
) -> Result<LineDone, LineFault>
    requires over { HasPlans questions.old }
    requires apart { are_disjoint questions.old.context.config questions.old.context.templates ≡ true }
    ensures does { Sets result (line_set (asked state questions.old).store questions.old.context line.now check unseen)
        (asked state questions.old).store (asked state questions.new).store }
    ensures frame { SameBut (question_in line.now) (asked state questions.old) (asked state questions.new) }
    ensures checked { check ≡ true → asked state questions.new ≡ asked state questions.old }
{
    match read_selection(questions.alloc, line)? {
        None => Ok(LineDone::Nothing),
        Some(selection) => set_selection(questions, selection, check, unseen),
    }
}

// Does what a selection says, or only says what it would set.
fn set_selection(
    questions: &mut Questions<'_>,
    selection: Selection,
    check: bool,
    unseen: bool,
) -> Result<LineDone, LineFault>
    requires over { HasPlans questions.old }
    requires apart { are_disjoint questions.old.context.config questions.old.context.templates ≡ true }
    ensures does { Sets result (selection_set (asked state questions.old).store questions.old.context selection check unseen)
        (asked state questions.old).store (asked state questions.new).store }
    ensures frame { SameBut (question_of selection) (asked state questions.old) (asked state questions.new) }
    ensures checked { check ≡ true → asked state questions.new ≡ asked state questions.old }
{
    if check {
        return Ok(done_by(selection));
    }
    select(questions, &selection, unseen)?;
    Ok(done_by(selection))
}

// Does what a selection says.
fn select(
    questions: &mut Questions<'_>,
    selection: &Selection,
    unseen: bool,
) -> Result<(), QuestionError>
    requires over { HasPlans questions.old }
    requires apart { are_disjoint questions.old.context.config questions.old.context.templates ≡ true }
    ensures does { Leaves result (λ store at. selected store at selection.now unseen) (asked state questions.old) (asked state questions.new) }
    ensures frame { SameBut (question_of selection.now) (asked state questions.old) (asked state questions.new) }
{
    match selection {
        Selection::Value {
            owner,
            question,
            kind,
            value,
        } => questions.preseed(owner, question, *kind, value.bytes(), unseen),
        Selection::Seen { question, seen } => {
            let flag = seen_flag(questions.alloc)?;
            questions.set_flag(question, &flag, *seen)
        }
    }
}

// What is set by a selection.
fn done_by(selection: Selection) -> LineDone
    ensures { result ≡ done_by_of selection }
{
    match selection {
        Selection::Value {
            owner: _,
            question,
            kind: _,
            value: _,
        } => LineDone::ValueSet(question),
        Selection::Seen { question, seen: _ } => LineDone::SeenSet(question),
    }
}
