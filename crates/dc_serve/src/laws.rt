//! Laws of runs, over the definitions alone.
ghost use Rattle.std.specs.Prelude.{◌≡◌, List};
ghost use Rattle.dc_words.specs.declared.stream.Line.{Line};
ghost use Rattle.dc_serve.specs.Execution.{Transition, lines_of, IsExecution};
ghost use Rattle.dc_serve.specs.Determined.{IsFunction};

use crate::LineMachine;

/// The lines determine what the machine says and leaves, where its state and a line do.
pub fn lines_determine_the_course<H: LineMachine>()
    ensures { IsFunction H.steps → (start : H.State) (a b : List (Transition H.State))
        → IsExecution H.steps start a → IsExecution H.steps start b → lines_of a ≡ lines_of b → a ≡ b }
{}
