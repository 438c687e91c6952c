//! Laws of the definitions, which show that they mean what they say.
ghost use Rattle.std.specs.Prelude.{◌≡◌, List, ℕ};
ghost use Rattle.dc_cli.specs.Tools.{Names, AreRefusedAt};

use crate::tool::Tool;

/// Words name one tool at most, which says one thing. Words that are refused name none, and are refused at one place.
pub fn words_have_one_answer()
    ensures tool { (words : List (List ℕ)) (tool other : Tool) → Names words tool → Names words other → tool ≡ other }
    ensures refused { (words : List (List ℕ)) (tool : Tool) (place : ℕ) → Names words tool → AreRefusedAt words place → ⊥ }
    ensures place { (words : List (List ℕ)) (place other : ℕ) → AreRefusedAt words place → AreRefusedAt words other → place ≡ other }
{}
