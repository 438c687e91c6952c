//! Laws of the definitions, which show that they mean what they say.
ghost use Rattle.std.specs.Prelude.{◌≡◌, ◌∷◌, ◌++◌, ◌&&◌, ◌==◌, ◌⊎◌, [], List, ℕ, Some, true, false, map as each};
ghost use Rattle.std.specs.List.{AllByRecursion};
ghost use Rattle.dc_text.specs.Ascii.{dollar_sign, backslash, opening_brace, closing_brace};
ghost use Rattle.dc_text.specs.Maps.{AreDistinct, Texts};
ghost use Rattle.dc_template.specs.Kinds.{kind_of, kind_word};
ghost use Rattle.dc_template.specs.Expansion.{opens, closes, variable_or_nothing, expanded};
ghost use Rattle.dc_template.specs.Printed.{canon, names};
ghost use Rattle.dc_template.specs.Stanzas.{Stanza, IsTemplate, IsExtendedText, read_from_rows};
ghost use Rattle.dc_template.specs.Reading.{Reads, IsBad};
ghost use Rattle.dc_template.specs.declared.faults.TemplateKind.{TemplateKind};
ghost use Rattle.dc_template.specs.declared.kinds.Kind.{Kind};

/// A text has one list of templates or one first fault, and not both.
pub fn texts_have_one_answer()
    ensures one_reading { (text : List ℕ) (a b : List Stanza) → Reads text a → Reads text b → a ≡ b }
    ensures one_fault { (text : List ℕ) (m n : ℕ) (j k : TemplateKind) → IsBad text m j → IsBad text n k → (m ≡ n) × (j ≡ k) }
    ensures not_both { (text : List ℕ) (templates : List Stanza) (n : ℕ) (kind : TemplateKind) → Reads text templates → IsBad text n kind → ⊥ }
    ensures some { (text : List ℕ) → ((templates : List Stanza) × Reads text templates) ⊎ ((n : ℕ) × (kind : TemplateKind) × IsBad text n kind) }
{}

/// No two templates of a text have one name.
pub fn names_are_distinct()
    ensures { (text : List ℕ) (templates : List Stanza) → Reads text templates → AreDistinct (each (λ t. t.name) templates) }
{}

/// What is printed of templates with names of their own is read again as the same templates.
pub fn printed_templates_are_read()
    ensures { (templates : List Stanza) → AllByRecursion IsTemplate templates → AreDistinct (names templates) → Reads (canon templates) templates }
{}

/// An extended description is read again from its lines as they stand in a file.
pub fn extended_texts_are_read_again()
    ensures { (text : List ℕ) → IsExtendedText text → read_from_rows text ≡ text }
{}

/// Each kind has a word of its own, and a word with a kind is that kind's.
pub fn kinds_have_words()
    ensures read { (kind : Kind) → kind_of (kind_word kind) ≡ Some kind }
    ensures word { (word : List ℕ) (kind : Kind) → kind_of word ≡ Some kind → kind_word kind ≡ word }
{}

/// What each part of a text is replaced by: a reference by its variable, a reference behind a backslash by itself, a text
/// without a `}` by itself, and any other byte by itself.
pub fn references_are_replaced()
    ensures variable { (variables : Texts (List ℕ)) (key rest : List ℕ) → closes key ≡ false
        → expanded variables (dollar_sign ∷ opening_brace ∷ key ++ closing_brace ∷ rest) ≡ variable_or_nothing variables key ++ expanded variables rest }
    ensures quoted { (variables : Texts (List ℕ)) (key rest : List ℕ) → closes key ≡ false
        → expanded variables (backslash ∷ dollar_sign ∷ opening_brace ∷ key ++ closing_brace ∷ rest)
        ≡ dollar_sign ∷ opening_brace ∷ key ++ closing_brace ∷ expanded variables rest }
    ensures unclosed { (variables : Texts (List ℕ)) (text : List ℕ) → closes text ≡ false → expanded variables text ≡ text }
    ensures other { (variables : Texts (List ℕ)) (byte : ℕ) (rest : List ℕ) → opens (byte ∷ rest) ≡ false → (byte == backslash && opens rest) ≡ false
        → expanded variables (byte ∷ rest) ≡ byte ∷ expanded variables rest }
{}
