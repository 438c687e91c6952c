//! Laws of the definitions, which show that they mean what they say.
ghost use Rattle.std.specs.Prelude.{◌≡◌, ◌++◌, ◌↔◌, ◌⊎◌, [], List, ℕ, Bool, true, false, Option, Result, Ok};
ghost use Rattle.std.specs.List.{concat};
ghost use Rattle.dc_text.specs.Bytes.{is_nil};
ghost use Rattle.dc_words.specs.Stream.{lines_by_pieces, rest_by_pieces, line_of_rest};
ghost use Rattle.dc_words.specs.declared.stream.Line.{Line};
ghost use Rattle.dc_store.specs.Plans.{StoreState};
ghost use Rattle.dc_question.specs.Questions.{QuestionContext};
ghost use Rattle.dc_outside.specs.State.{LinkState};
ghost use Rattle.dc_outside.specs.Talk.{got};
ghost use Rattle.dc_serve.specs.Said.{said};
ghost use Rattle.dc_serve.specs.declared.outcome.LinkEnd.{LinkEnd};
ghost use Rattle.dc_text.specs.declared.memory.OutOfMemory.{OutOfMemory};
ghost use Rattle.dc_preseed.specs.Joiner.{Joining, at_start, given, after, all_joined};
ghost use Rattle.dc_preseed.specs.Joining.{AreJoined, AreJoinedIn};
ghost use Rattle.dc_preseed.specs.Lines.{line_set};
ghost use Rattle.dc_preseed.specs.Selecting.{SelectorState, IsSelected, DoesText};
ghost use Rattle.dc_preseed.specs.SelectionExamples.{JoinedLines, Answers, SilentLines, Faults};
ghost use Rattle.dc_preseed.specs.Selections.{Parts, AreParts, parts_of, IsAnswer, answer};
ghost use Rattle.dc_preseed.specs.declared.faults.SelectionError.{SelectionError};
ghost use Rattle.dc_preseed.specs.declared.joining.Joined.{Joined};
ghost use Rattle.dc_preseed.specs.declared.lines.LineDone.{LineDone};
ghost use Rattle.dc_preseed.specs.declared.selections.Selection.{Selection};

/// Lines can be joined in one way, and that is what a joiner gives of them, one after another, and at the end.
pub fn lines_are_joined_in_turn()
    ensures { (lines : List Line) (all : List Joined) → AreJoined 1 lines all ↔ (all ≡ all_joined lines) }
{}

/// The joined lines of a whole text are those that a joiner gives, however the text is cut into pieces.
pub fn joined_lines_are_cut_anyway()
    ensures { (pieces : List (List ℕ)) → AreJoinedIn (concat pieces) (all_joined (lines_by_pieces [] pieces ++ line_of_rest (rest_by_pieces [] pieces))) }
{}

/// What a joiner gave stays, whatever lines come later.
pub fn joined_lines_stay()
    ensures given { (joining : Joining) (lines more : List Line) → given joining (lines ++ more) ≡ given joining lines ++ given (after joining lines) more }
    ensures after { (joining : Joining) (lines more : List Line) → after joining (lines ++ more) ≡ after (after joining lines) more }
{}

/// The parts of a line are its first three words and what stands behind them, and it has no third word where it isn't parted so.
pub fn parts_are_words()
    ensures one { (line : List ℕ) (parts : Parts) → AreParts line parts → parts_of line ≡ parts }
    ensures some { (line : List ℕ) → is_nil (parts_of line).word ≡ false → AreParts line (parts_of line) }
{}

/// A line has one answer, unless memory runs out.
pub fn lines_have_one_answer()
    ensures some { (line : List ℕ) → IsAnswer line (answer line) }
    ensures one { (line : List ℕ) (result : Result (Option Selection) SelectionError) → IsAnswer line result
        → (result ≡ answer line) ⊎ (result ≡ Err SelectionError.OutOfMemory) }
{}

/// A line that is only checked leaves the store as it is, and is answered as the same line is that is done.
pub fn checked_lines_change_nothing()
    ensures same { (store new : StoreState) (at : QuestionContext) (line : List ℕ) (unseen : Bool) (done : LineDone)
        → line_set store at line true unseen ≡ Ok (done, new) → new ≡ store }
    ensures answered { (store new : StoreState) (at : QuestionContext) (line : List ℕ) (unseen : Bool) (done : LineDone)
        → line_set store at line false unseen ≡ Ok (done, new) → line_set store at line true unseen ≡ Ok (done, store) }
{}

/// Selections that are only checked change no table, and the layers tell nothing of them.
pub fn checked_selections_change_nothing()
    ensures tables { (start left : SelectorState) (old new : LinkState) (ended : LinkEnd OutOfMemory) (before code : ℕ)
        → IsSelected start left old new ended before code → start.choices.check ≡ true → left.store.layers ≡ start.store.layers }
    ensures told { (start left : SelectorState) (old new : LinkState) (ended : LinkEnd OutOfMemory) (before code : ℕ)
        → IsSelected start left old new ended before code → start.choices.check ≡ true → start.store.told ≡ [] → left.store ≡ start.store }
{}

/// Nothing is sent on the link that selections come on, so that the code of the last reply stays.
pub fn selections_say_nothing()
    ensures said { (start left : SelectorState) (old new : LinkState) (ended : LinkEnd OutOfMemory) (before code : ℕ)
        → (selected : IsSelected start left old new ended before code) → said selected.serves.run.pieces ≡ [] }
    ensures code { (start left : SelectorState) (old new : LinkState) (ended : LinkEnd OutOfMemory) (before code : ℕ)
        → IsSelected start left old new ended before code → code ≡ before }
{}

/// Where the input of selections ended, the joined lines of all that came were done in turn, however it was cut, and nothing else was.
pub fn selections_do_the_whole_text()
    ensures { (start left : SelectorState) (old new : LinkState) (before code : ℕ) → (selected : IsSelected start left old new LinkEnd.Done before code)
        → start.joining ≡ at_start → start.untold ≡ [] → start.store.told ≡ [] → DoesText (got selected.serves.run.pieces) start left }
{}

/// How some lines are joined, and what some lines say, as it is worked out.
pub fn answers_are_worked_out()
    ensures joined { JoinedLines }
    ensures said { Answers }
    ensures silent { SilentLines }
    ensures faults { Faults }
{}
