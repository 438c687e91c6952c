// The words for frontends.
ghost use Rattle.std.specs.Prelude.{◌≡◌, map as each};
ghost use Rattle.std.specs.List.{list_any};
ghost use Rattle.std.specs.Str.{bytes_eq};
ghost use Rattle.dc_text.specs.Bytes.{lower};
ghost use Rattle.dc_frontend.specs.Frontends.{is_word as is_word_of, asking_words};

/// What asks the user (debconf(7), Frontends).
#[derive(Clone, Copy, Debug, PartialEq, Eq)]
pub enum Frontend {
    /// Nobody is asked.
    Noninteractive,
    /// Questions are asked on a terminal, line by line.
    Teletype,
    /// Another program asks them, which is told over a wire.
    Passthrough,
}

const ASKING_WORDS: [&[u8]; 8] = [
    b"teletype",
    b"dialog",
    b"readline",
    b"gnome",
    b"kde",
    b"web",
    b"text",
    b"editor",
];

impl Frontend {
    ghost use Rattle.std.specs.Prelude.{◌≡◌};
    ghost use Rattle.dc_frontend.specs.Frontends.{frontend_of};

    /// The frontend of a word, read without regard to case: the words of all frontends that ask themselves (debconf(7)) are the teletype's.
    pub fn read(word: &[u8]) -> Option<Frontend>
        ensures { result ≡ frontend_of word.now }
    {
        if is_word(word, b"noninteractive") {
            Some(Frontend::Noninteractive)
        } else if is_word(word, b"passthrough") {
            Some(Frontend::Passthrough)
        } else if asks(word) {
            Some(Frontend::Teletype)
        } else {
            None
        }
    }
}

// Whether a frontend of this word asks.
fn asks(word: &[u8]) -> bool
    ensures { result ≡ list_any (λ asking. is_word_of asking word.now) asking_words }
{
    let words: [&[u8]; 8] = ASKING_WORDS;
    is_one_of(words.as_slice(), word)
}

// Whether the bytes are one of the words, read without regard to case.
fn is_one_of(words: &[&[u8]], bytes: &[u8]) -> bool
    ensures { result ≡ list_any (λ word. bytes_eq (each lower bytes.now) (each lower word.now)) words.now }
{
    words.iter().any(|word| is_word(bytes, word))
}

// Whether the bytes are the word, read without regard to case.
fn is_word(bytes: &[u8], word: &[u8]) -> bool
    ensures { result ≡ bytes_eq (each lower bytes.now) (each lower word.now) }
{
    bytes.eq_ignore_ascii_case(word)
}
