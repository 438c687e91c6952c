// What is said of questions.
ghost use Rattle.std.specs.Prelude.{◌≡◌, ◌∷◌, ◌++◌, [], IfOk, OnOk, not, if◌then◌else◌};
ghost use Rattle.dc_text.specs.Lines.{text_of};
ghost use Rattle.dc_question.specs.Asked.{asked, HasPlans, seen};
ghost use Rattle.dc_dump.specs.AnswerLines.{is_sayable as is_sayable_of, lines_of as lines_of_answer};
ghost use Rattle.dc_text.specs.Maps.{AreDistinct};
ghost use Rattle.dc_dump.specs.SetAgain.{IsHeld, SetsAgain};
ghost use Rattle.dc_dump.specs.Saying.{said_text, left_out as left_out_of, said_of};

use crate::answers::{Answer, question, read_answer};
use crate::lines::{append_lines, is_sayable, lines_of};
use dc_layer::Layer;
use dc_question::Questions;
use dc_text::{List, Mem, Name, Text};
use std::alloc::Global;

/// What is said of questions, and those of which nothing can be said.
#[derive(Drop)]
pub struct Said {
    pub text: Text,
    pub left_out: List<Name>,
}

/// The lines that set-selections reads (debconf-get-selections(1)) of these questions, in order: for each owner a line with the owner, the
/// name, the kind and the value, each newline of which is the pair of a backslash and an n, and where the user hasn't seen the question a line
/// that says so. Passwords are printed as other values are. A question is left out whole where one of its lines wouldn't be read as it is: where
/// it has no kind or no owner, where an owner begins with `#`, the value ends with a backslash, or a line is over `MAX_LINE` bytes. A name that
/// no question has says nothing. Where `set-selections` takes the whole text, it sets the questions again.
pub fn selections(questions: &Questions<'_>, names: &List<Name>) -> Mem<Said>
    requires { HasPlans questions.now }
    ensures said { IfOk result (λ said. said ≡ seen (asked state questions.now) said_of names.now) }
    ensures again { IfOk result (λ said. AreDistinct names.now → SetsAgain (asked state questions.now).store.layers (asked state questions.now).context
        names.now said.text) }
{
    let mut said = Said {
        text: Text::new(questions.alloc),
        left_out: List::new(questions.alloc),
    };
    for name in names.as_slice() {
        say(&mut said, questions, name)?;
    }
    Ok(said)
}

// Adds what is said of a name.
fn say(said: &mut Said, questions: &Questions<'_>, name: &Name) -> Mem<()>
    requires { HasPlans questions.now }
    ensures text { OnOk result (said.new.text ≡ said.old.text ++ seen (asked state questions.now) said_text (name.now ∷ [])) }
    ensures left_out { OnOk result (said.new.left_out ≡ said.old.left_out ++ seen (asked state questions.now) left_out_of (name.now ∷ [])) }
    ensures held { OnOk result (IsHeld (asked state questions.now).store.layers (asked state questions.now).context name.now) }
{
    match question(questions, name) {
        None => Ok(()),
        Some(item) => {
            let _name = name.bytes();
            let answer = read_answer(questions, item)?;
            say_answer(questions.alloc, said, name, &answer)
        }
    }
}

// Adds what is said of a question of this answer.
fn say_answer(alloc: Global, said: &mut Said, name: &Name, answer: &Answer) -> Mem<()>
    ensures text { OnOk result (said.new.text ≡ said.old.text
        ++ text_of (if is_sayable_of name.now answer.now then lines_of_answer name.now answer.now else [])) }
    ensures left_out { OnOk result (said.new.left_out ≡ said.old.left_out
        ++ (if not (is_sayable_of name.now answer.now) then name.now ∷ [] else [])) }
{
    let lines = lines_of(alloc, name, answer)?;
    if is_sayable(name, answer, &lines) {
        append_lines(&mut said.text, &lines)
    } else {
        said.left_out.push(name.copy()?)
    }
}
