// Choices beside their numbers and their labels.
ghost use Rattle.std.specs.Prelude.{◌≡◌, decimal, position, IfOk};
ghost use Rattle.std.specs.Str.{bytes_eq};
ghost use Rattle.std.specs.Option.{option_copied};
ghost use Rattle.dc_teletype.specs.Keys.{numerals as numerals_of, is_one_of as is_one_of_words, beside as beside_key, all_beside as all_beside_keys};

use dc_text::{List, Mem, Text};
use itoa::Buffer;
use std::alloc::Global;

/// The numbers from 1 on, as they are written.
#[tactic(auto, using(crate::proofs::KeyLemmas::numeral_more))]
pub fn numerals(alloc: Global, count: usize) -> Mem<List<Text>>
    ensures { IfOk result (λ numerals. numerals ≡ numerals_of count) }
{
    let mut numerals = List::new(alloc);
    let mut last: usize = 0;
    while last < count {
        last += 1;
        numerals.push(numeral(alloc, last)?)?;
    }
    Ok(numerals)
}

// A number, as it is written.
fn numeral(alloc: Global, number: usize) -> Mem<Text>
    ensures { IfOk result (λ text. text ≡ decimal number) }
{
    let mut buffer = Buffer::new();
    Text::from_bytes(alloc, buffer.format(number).as_bytes())
}

/// Whether the word is one of these.
pub fn is_one_of(words: &[Text], word: &[u8]) -> bool
    ensures { result ≡ is_one_of_words words.now word.now }
{
    words.iter().any(|other| other.bytes() == word)
}

/// The item beside the first key that is the word.
pub fn beside<'i>(keys: &[Text], items: &'i [Text], word: &[u8]) -> Option<&'i Text>
    ensures { option_copied result ≡ beside_key keys.now items.now word.now }
{
    match place_of(keys, word) {
        Some(place) => items.get(place),
        None => None,
    }
}

// The place of the first key that is the word.
fn place_of(keys: &[Text], word: &[u8]) -> Option<usize>
    ensures { result ≡ position (λ key. bytes_eq key word.now) keys.now }
{
    keys.iter().position(|key| key.bytes() == word)
}

/// The items beside all keys that are among the words, in order.
pub fn all_beside(alloc: Global, keys: &[Text], items: &[Text], words: &[Text]) -> Mem<List<Text>>
    ensures { IfOk result (λ found. found ≡ all_beside_keys keys.now items.now words.now) }
{
    let mut found = List::new(alloc);
    let mut left = items;
    let mut keys = keys;
    while let [key, other_keys @ ..] = keys
        && let [item, other_items @ ..] = left
    {
        if is_one_of(words, key.bytes()) {
            found.push(item.copy()?)?;
        }
        keys = other_keys;
        left = other_items;
    }
    Ok(found)
}
