//! Laws of what is said: as `set-selections` reads it, and of what it leaves.
ghost use Rattle.std.specs.Prelude.{◌≡◌, List, ℕ, Some, Ok, true, false};
ghost use Rattle.std.specs.List.{AllByRecursion};
ghost use Rattle.dc_text.specs.Lines.{text_of};
ghost use Rattle.dc_text.specs.Maps.{AreDistinct};
ghost use Rattle.dc_text.specs.Names.{is_name};
ghost use Rattle.dc_text.specs.Settled.{newlines_shown};
ghost use Rattle.dc_template.specs.declared.kinds.Kind.{Kind};
ghost use Rattle.dc_layer.specs.State.{LayerState};
ghost use Rattle.dc_question.specs.Questions.{QuestionContext};
ghost use Rattle.dc_preseed.specs.Joining.{AreJoinedIn};
ghost use Rattle.dc_preseed.specs.Selections.{answer};
ghost use Rattle.dc_preseed.specs.declared.selections.Selection.TheVariants.{Value, Seen};
ghost use Rattle.dc_dump.specs.AnswerLines.{begins_with_hash, is_sayable, lines_of, unseen_line, value_line};
ghost use Rattle.dc_dump.specs.Reading.{is_named, StandsAlone, numbered};
ghost use Rattle.dc_dump.specs.Saying.{said_text};
ghost use Rattle.dc_dump.specs.SetAgain.{IsHeld, SetsAgain};
ghost use Rattle.dc_dump.specs.declared.answers.Answer.{Answer};

/// Each line is read again as what it says: that the owner has the question, its kind and its value, or that it isn't seen.
pub fn lines_are_read_again()
    ensures value { (name owner value : List ℕ) (kind : Kind) → is_name name ≡ true → is_name owner ≡ true → begins_with_hash owner ≡ false
        → answer (value_line name kind value owner) ≡ Ok (Some (Value owner name kind (newlines_shown value))) }
    ensures unseen { (name owner : List ℕ) → is_name name ≡ true → is_name owner ≡ true → begins_with_hash owner ≡ false
        → answer (unseen_line name owner) ≡ Ok (Some (Seen name false)) }
{}

/// Each line of a question that can be said stands alone.
pub fn lines_stand_alone()
    ensures { (name : List ℕ) (answer : Answer) → is_named name answer ≡ true → is_sayable name answer ≡ true
        → AllByRecursion StandsAlone (lines_of name answer) }
{}

/// Lines that stand alone are read as they are from their text, in order.
pub fn lines_are_not_joined()
    ensures { (lines : List (List ℕ)) → AllByRecursion StandsAlone lines → AreJoinedIn (text_of lines) (numbered 1 lines) }
{}

/// The text of questions sets them again, where none of them stood and no line is refused: each that can be said gets the owners, the kind, the
/// value and the flag `seen` that it had, unless the pair of a backslash and an `n` stands in its name, no other of the names gets a question,
/// and questions of other names stay.
pub fn what_is_said_is_set_again()
    ensures { (layers : List LayerState) (at : QuestionContext) (names : List (List ℕ)) → AllByRecursion (IsHeld layers at) names → AreDistinct names
        → SetsAgain layers at names (said_text layers at names) }
{}
