// Numbers in command lines.
ghost use Rattle.std.specs.Prelude.{◌≡◌};
ghost use Rattle.std.specs.Char.{is_ascii_digit};
ghost use Rattle.std.specs.List.{list_all};
ghost use Rattle.dc_proto.specs.Numbers.{number_of, is_numeral as is_numeral_of};

use std::str;

const MOST_DIGITS: usize = 10;

/// The number that the word spells: one to ten decimal digits, and at most what 32 bits hold.
pub fn read_number(word: &[u8]) -> Option<u32>
    ensures { result ≡ number_of word.now }
{
    if !is_numeral(word) {
        return None;
    }
    match str::from_utf8(word) {
        Ok(text) => text.parse::<u32>().ok(),
        Err(_) => None,
    }
}

// One to ten digits.
fn is_numeral(word: &[u8]) -> bool
    ensures { result ≡ is_numeral_of word.now }
{
    1 <= word.len() && word.len() <= MOST_DIGITS && are_digits(word)
}

fn are_digits(word: &[u8]) -> bool
    ensures { result ≡ list_all is_ascii_digit word.now }
{
    word.iter().all(|byte| byte.is_ascii_digit())
}
