// The kinds of questions.
ghost use Rattle.std.specs.Prelude.{◌≡◌};

/// What a question asks for, which the field `type` of its template names (debconf-devel(7)).
#[derive(Clone, Copy, Debug, PartialEq, Eq)]
pub enum Kind {
    Str,
    Bool,
    Select,
    Multiselect,
    Password,
    Note,
    Txt,
    Error,
    Title,
}

impl Kind {
    ghost use Rattle.dc_template.specs.Kinds.{kind_of, kind_word};

    /// The kind that has this word, `None` where none has.
    pub fn read(word: &[u8]) -> Option<Self>
        ensures { result ≡ kind_of word.now }
    {
        match word {
            b"string" => Some(Kind::Str),
            b"boolean" => Some(Kind::Bool),
            b"select" => Some(Kind::Select),
            b"multiselect" => Some(Kind::Multiselect),
            b"password" => Some(Kind::Password),
            b"note" => Some(Kind::Note),
            b"text" => Some(Kind::Txt),
            b"error" => Some(Kind::Error),
            b"title" => Some(Kind::Title),
            _ => None,
        }
    }

    /// The word for the kind, as `string`.
    pub fn word(self) -> &'static [u8]
        ensures { result.now ≡ kind_word self }
    {
        match self {
            Kind::Str => b"string",
            Kind::Bool => b"boolean",
            Kind::Select => b"select",
            Kind::Multiselect => b"multiselect",
            Kind::Password => b"password",
            Kind::Note => b"note",
            Kind::Txt => b"text",
            Kind::Error => b"error",
            Kind::Title => b"title",
        }
    }
}
