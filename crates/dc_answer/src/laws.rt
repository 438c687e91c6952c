//! Laws of the other end of the wire, over the definitions alone.
ghost use Rattle.std.specs.Prelude.{◌≡◌, ◌+◌, ◌∷◌, ◌++◌, ℕ, List, length};
ghost use Rattle.dc_words.specs.declared.stream.Line.{Line};
ghost use Rattle.dc_pass.specs.Passing.{counted};
ghost use Rattle.dc_serve.specs.Execution.{Transition, lines_of, state_after, IsExecution};
ghost use Rattle.dc_serve.specs.declared.machine.Response.{Response};
ghost use Rattle.dc_answer.specs.Alike.{AreAlike, AreTransitionsAlike};
ghost use Rattle.dc_answer.specs.Answering.{AnswererState, IsUnreadable, LosesWireLine, TakesWireLine};
ghost use Rattle.dc_answer.specs.Counting.{TermCounts};
ghost use Rattle.dc_answer.specs.declared.answerer.AnswerBreak.{AnswerBreak};

/// The lines of a session and what is typed determine what is replied, and what is left, in whatever pieces what is typed comes.
pub fn what_comes_determines_the_replies()
    ensures { (start other : AnswererState) (a b : List (Transition AnswererState)) → AreAlike start other
        → IsExecution TakesWireLine start a → IsExecution TakesWireLine other b → lines_of a ≡ lines_of b → AreTransitionsAlike a b }
{}

/// A line that is heeded isn't unreadable, nor is one before it: so a line that ends the reading as unreadable is the first that is, and its
/// number says how many came.
pub fn unreadable_lines_are_the_first()
    ensures taken { (old new other : AnswererState) (line : Line) (did : Response) (number : ℕ)
        → TakesWireLine old line did new → IsUnreadable old line number other → ⊥ }
    ensures before { (start other : AnswererState) (gone later : List (Transition AnswererState)) (one : Transition AnswererState) (number : ℕ)
        → IsExecution TakesWireLine start (gone ++ one ∷ later) → IsUnreadable (state_after start gone) one.line number other → ⊥ }
    ensures number { (start new : AnswererState) (transitions : List (Transition AnswererState)) (line : Line) (number : ℕ)
        → IsExecution TakesWireLine start transitions → IsUnreadable (state_after start transitions) line number new
        → number ≡ counted start.got (length transitions + 1) }
{}

/// A line that is heeded met no fault of the terminal, and one at which the terminal failed counted one there. The program behind the terminal
/// stays.
pub fn faults_of_the_terminal_are_counted()
    ensures taken { (old new : AnswererState) (line : Line) (did : Response) → TakesWireLine old line did new
        → (new.terminal.link.counts ≡ old.terminal.link.counts) × (new.terminal.link.program ≡ old.terminal.link.program) }
    ensures lost { (old new : AnswererState) (line : Line) (error : AnswerBreak) → LosesWireLine old line error new
        → TermCounts error old.terminal.link.counts new.terminal.link.counts × (new.terminal.link.program ≡ old.terminal.link.program) }
{}
