//! Laws of dialogues, over the definitions alone.
ghost use Rattle.std.specs.Prelude.{◌≡◌, ℕ, Bool, List, Option, Ok};
ghost use Rattle.dc_frontend.specs.declared.shown.Shown.{Shown};
ghost use Rattle.dc_outside.specs.declared.link.Piece.{Piece};
ghost use Rattle.dc_teletype.specs.declared.teletype.Answer.{Answer};
ghost use Rattle.dc_teletype.specs.declared.teletype.Asked.{Asked};
ghost use Rattle.dc_teletype.specs.declared.teletype.Asked.TheVariants.{Answers};
ghost use Rattle.dc_teletype.specs.Answered.{HaveAnswers};
ghost use Rattle.dc_teletype.specs.Dialogue.{Step, IsDialogue, opening};
ghost use Rattle.dc_teletype.specs.TerminalLines.{TypeAhead};
ghost use Rattle.dc_teletype.specs.Typed.{ToldTerminal, IsAsked, ComesTo, IsUsedUp, dialogue, typed, typed_lines};

/// What is typed determines a dialogue that comes to its end, in whatever pieces the bytes come: all that is said, the answers, and what is
/// left of what is typed. The lines that are typed say what it comes to.
pub fn typed_lines_determine_the_dialogue()
    ensures lines { (backup : Bool) (start : Step) (old new : ToldTerminal) (asked : Asked)
        → IsAsked backup start old new asked → ComesTo (dialogue backup start (typed_lines (typed old))) old new asked }
    ensures rest { (backup : Bool) (start : Step) (old new other left : ToldTerminal) (asked again : Asked)
        → IsAsked backup start old new asked → IsAsked backup start other left again → typed old ≡ typed other → typed new ≡ typed left }
    ensures end { (backup : Bool) (start : Step) (old new : ToldTerminal) (asked : Asked)
        → IsAsked backup start old new asked → IsUsedUp new.ahead new.input }
{}

/// A dialogue that the user doesn't leave by going back gives each question its answer, in order: it keeps its value, or has one that a
/// line says.
pub fn each_question_has_its_answer()
    ensures { (backup : Bool) (title : List ℕ) (questions : List Shown) (old new : TypeAhead)
        (talk new_talk : Option (List Piece)) (input left : Option (List ℕ)) (answers : List Answer)
        → IsDialogue backup (opening title questions) old new talk new_talk input left (Ok (Answers answers))
        → HaveAnswers backup questions answers }
{}
