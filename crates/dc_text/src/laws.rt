//! Laws of the definitions, which show that they mean what they say.
ghost use Rattle.std.specs.Prelude.{◌≡◌, ◌++◌, List, ℕ, true, false};
ghost use Rattle.dc_text.specs.Lines.{text_lines, lines_of, text_of, has_newline, HaveNoNewline};
ghost use Rattle.dc_text.specs.Settled.{settled, is_settled, newlines_shown};

/// Settled texts are those that settling leaves, and a settled text that is shown in one line is read again as it was.
pub fn settling_settles()
    ensures settled { (bytes : List ℕ) → is_settled (settled bytes) ≡ true }
    ensures stays { (bytes : List ℕ) → is_settled bytes ≡ true → settled bytes ≡ bytes }
    ensures shown { (bytes : List ℕ) → is_settled bytes ≡ true → settled (newlines_shown bytes) ≡ bytes }
{}

/// The lines of a text, each with its newline, and then the rest are the text, and no newline stands in a line or in the
/// rest. Lines without newlines that are written as a text are the lines of that text.
pub fn lines_are_the_text()
    ensures whole { (text : List ℕ) → text_of (text_lines text).ended ++ (text_lines text).rest ≡ text }
    ensures lines { (text : List ℕ) → HaveNoNewline (text_lines text).ended }
    ensures rest { (text : List ℕ) → has_newline (text_lines text).rest ≡ false }
    ensures again { (lines : List (List ℕ)) → HaveNoNewline lines → lines_of (text_of lines) ≡ lines }
{}
