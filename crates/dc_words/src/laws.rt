//! Laws of the definitions, which show that they mean what they say.
ghost use Rattle.std.specs.Prelude.{◌≡◌, ◌≢◌, ◌∷◌, ◌++◌, [], List, ℕ, Bool, Option, Some, None, map, true, false};
ghost use Rattle.std.specs.List.{list_all};
ghost use Rattle.dc_words.specs.Words.{IsPlainWord, IsPlainWordsOf};
ghost use Rattle.dc_text.specs.Ascii.{backslash, comma, space};
ghost use Rattle.dc_words.specs.declared.stream.Line.{Line};
ghost use Rattle.dc_words.specs.Stream.{whole_lines, rest_of, line_of_rest, all_lines, StandsFor, AreCutAnyway, IsTaken};
ghost use Rattle.dc_words.specs.Choices.{is_gap, spells_next, gap_next, symbols, pieces, choices_of};
ghost use Rattle.dc_words.specs.Escaped.{IsEscapedWordsOf, IsOneWordEscaped};

/// A line is gaps and words in one way, and these are its plain words.
pub fn words_are_one()
    ensures { (line : List ℕ) (words : List (List ℕ)) → IsPlainWordsOf words line }
{}

/// A line is gaps and spelled words in one way, and these are its words in escape mode.
pub fn escaped_words_are_one()
    ensures { (line : List ℕ) (words : List (List ℕ)) → IsEscapedWordsOf words line }
{}

/// Bytes other than whitespace, at least one, are one word once they are escaped, and that word is unescaped as it was.
pub fn escaping_keeps_a_word()
    ensures { (bytes : List ℕ) → IsPlainWord bytes → IsOneWordEscaped bytes }
{}

/// However the bytes of a stream are cut into pieces, their lines and their rest are those of all the bytes.
pub fn lines_are_cut_anyway()
    ensures { (pieces : List (List ℕ)) → AreCutAnyway pieces }
{}

/// What `Lines` was fed, what was taken of it and what it holds: before the first piece, after a piece, after a line, and
/// with the rest at the end.
pub fn lines_are_taken_in_turn()
    ensures new { IsTaken [] [] [] }
    ensures feed { (fed piece held new : List ℕ) (taken : List Line) → IsTaken fed taken held → whole_lines held ≡ []
        → StandsFor (held ++ piece) new → IsTaken (fed ++ piece) taken new }
    ensures next { (fed held new : List ℕ) (taken : List Line) (line : Line) → IsTaken fed taken held
        → whole_lines held ≡ line ∷ whole_lines new → rest_of new ≡ rest_of held → IsTaken fed (taken ++ line ∷ []) new }
    ensures last { (fed held : List ℕ) (taken : List Line) → IsTaken fed taken held → whole_lines held ≡ []
        → taken ++ line_of_rest (rest_of held) ≡ all_lines fed }
{}

/// What bytes of a text of choices say: a backslash before a comma or a space spells that byte, a comma before whitespace
/// parts two choices, and any other byte stands for itself.
pub fn bytes_of_choices_are_told_apart()
    ensures comma_spelled { (skips : Bool) (text : List ℕ) → symbols skips (backslash ∷ comma ∷ text) ≡ Some comma ∷ symbols false text }
    ensures space_spelled { (skips : Bool) (text : List ℕ) → symbols skips (backslash ∷ space ∷ text) ≡ Some space ∷ symbols false text }
    ensures backslash { (skips : Bool) (text : List ℕ) → spells_next text ≡ false → symbols skips (backslash ∷ text) ≡ Some backslash ∷ symbols false text }
    ensures parting { (skips : Bool) (gap text : List ℕ) → gap ≢ [] → list_all is_gap gap ≡ true
        → symbols skips (comma ∷ gap ++ text) ≡ None ∷ symbols true text }
    ensures comma { (skips : Bool) (text : List ℕ) → gap_next text ≡ false → symbols skips (comma ∷ text) ≡ Some comma ∷ symbols false text }
    ensures other { (byte : ℕ) (text : List ℕ) → byte ≢ backslash → byte ≢ comma → symbols false (byte ∷ text) ≡ Some byte ∷ symbols false text }
{}

/// Which choices a text has: none where it is empty, those without its leading whitespace, and of what its bytes say the
/// runs between what parts them, without empty ones.
pub fn choices_stand_between_commas()
    ensures empty { choices_of [] ≡ [] }
    ensures leading { (gap text : List ℕ) → list_all is_gap gap ≡ true → choices_of (gap ++ text) ≡ choices_of text }
    ensures first { (choice : List ℕ) (said : List (Option ℕ)) → choice ≢ [] → pieces (map (λ byte. Some byte) choice ++ None ∷ said) ≡ choice ∷ pieces said }
    ensures only { (choice : List ℕ) → choice ≢ [] → pieces (map (λ byte. Some byte) choice) ≡ choice ∷ [] }
    ensures passed_over { (said : List (Option ℕ)) → pieces (None ∷ said) ≡ pieces said }
    ensures nothing { pieces [] ≡ [] }
{}
