// Words that name databases, and options of which the value stands in the word.
ghost use Rattle.std.specs.Prelude.{◌≡◌, ◌≤◌, ◌∷◌, ◌++◌, [], length, IfOk, OnOk};
ghost use Rattle.std.specs.Option.{option_copied};
ghost use Rattle.dc_cli.specs.DatabaseWords.{behind_front as behind_front_of, is_option as is_option_of};
ghost use Rattle.dc_cli.specs.DatabaseWords.{placed_from, plain_of, values_behind as values_behind_of, IsGivenOnce};

use crate::tool::PlacedWord;
use dc_text::{List, Mem, Text};
use std::alloc::Global;

// What stands behind this front of the word, where it has it.
pub(crate) fn behind_front<'a>(word: &'a [u8], front: &[u8]) -> Option<&'a [u8]>
    ensures { option_copied result ≡ behind_front_of front.now word.now }
{
    word.strip_prefix(front)
}

// Whether the word begins with two dashes.
pub(crate) fn is_option(word: &[u8]) -> bool
    ensures { result ≡ is_option_of word.now }
{
    behind_front(word, b"--").is_some()
}

// What the options with this front give, in order.
pub(crate) fn values_behind(alloc: Global, front: &[u8], words: &[Text]) -> Mem<List<PlacedWord>>
    ensures { IfOk result (λ values. values ≡ values_behind_of front.now (placed_from 1 words.now)) }
{
    let mut values = List::new(alloc);
    let mut rest = words;
    while let [word, behind @ ..] = rest {
        let place = 1 + (words.len() - rest.len());
        if let Some(value) = behind_front(word.bytes(), front) {
            add(alloc, &mut values, value, place)?;
        }
        rest = behind;
    }
    Ok(values)
}

// The words that are no options, in order.
pub(crate) fn plain_words(alloc: Global, words: &[Text]) -> Mem<List<PlacedWord>>
    ensures { IfOk result (λ plain. plain ≡ plain_of (placed_from 1 words.now)) }
{
    let mut plain = List::new(alloc);
    let mut rest = words;
    while let [word, behind @ ..] = rest {
        let place = 1 + (words.len() - rest.len());
        if !is_option(word.bytes()) {
            add(alloc, &mut plain, word.bytes(), place)?;
        }
        rest = behind;
    }
    Ok(plain)
}

// Puts the word with its place at the end.
fn add(alloc: Global, placed: &mut List<PlacedWord>, word: &[u8], place: usize) -> Mem<()>
    ensures { OnOk result (placed.new ≡ placed.old ++ record { word = word.now; place = place } ∷ []) }
{
    let word = Text::from_bytes(alloc, word)?;
    placed.push(PlacedWord { word, place })
}

// The value of an option that is given once at most.
pub(crate) fn only(values: List<PlacedWord>) -> Option<PlacedWord>
    requires { length values ≤ 1 }
    ensures { IsGivenOnce values result }
{
    let mut values = values;
    values.pop()
}
