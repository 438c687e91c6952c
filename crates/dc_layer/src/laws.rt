//! Laws of the definitions, which show that they mean what they say.
ghost use Rattle.std.specs.Prelude.{◌≡◌, List, ℕ, Bool, true};
ghost use Rattle.dc_layer.specs.Patterns.{is_plain, is_found, is_at_front, is_at_end, core_of, IsParted};
ghost use Rattle.dc_layer.specs.PatternExamples.{Cores, PlainPatterns, PlainAnswers, OtherAnswers, NoPatterns, RuleAnswers};

/// The answers of some patterns and rules, as they are worked out.
pub fn answers_are_worked_out()
    ensures cores { Cores }
    ensures plain { PlainPatterns }
    ensures answers { PlainAnswers }
    ensures others { OtherAnswers }
    ensures none { NoPatterns }
    ensures rules { RuleAnswers }
{}

/// A plain pattern is found in bytes exactly where they part in three, of which the middle spells its core: nothing stands
/// before that where the pattern has a `^` at its front, and nothing after it where it has a `$` at its end.
pub fn plain_patterns_stand_in_bytes()
    ensures parted { (ignore_case : Bool) (text bytes : List ℕ) → is_plain text ≡ true → is_found ignore_case text bytes ≡ true
        → IsParted ignore_case (is_at_front text) (is_at_end text) (core_of text) bytes }
    ensures found { (ignore_case : Bool) (text bytes : List ℕ) → is_plain text ≡ true
        → IsParted ignore_case (is_at_front text) (is_at_end text) (core_of text) bytes → is_found ignore_case text bytes ≡ true }
{}
