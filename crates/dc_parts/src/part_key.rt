// Keys of parts, each with its number where it is a usual one.
ghost use Rattle.std.specs.Prelude.{ℕ, List, ◌≡◌, ◌∷◌, ◌<◌, IfSome, length, Some};
ghost use Rattle.dc_text.specs.Maps.{text_cmp};
ghost use Rattle.dc_parts.specs.Packed.{usual_key, number_of};
ghost use Rattle.dc_parts.specs.Usual.{usual_part};

use crate::usual::UsualKey;
use std::cmp::Ordering;

// The order of a key, given as its mark and the rest of it, and a text.
pub(crate) fn compare(mark: u8, key: &[u8], other: &[u8]) -> Ordering
    ensures { result ≡ text_cmp (mark ∷ key.now) other.now }
{
    match other.split_first() {
        None => Ordering::Greater,
        Some((first, rest)) => {
            if mark == *first {
                compare_texts(key, rest)
            } else {
                mark.cmp(first)
            }
        }
    }
}

// The order of two texts. They are short, or differ near their front.
fn compare_texts(text: &[u8], other: &[u8]) -> Ordering
    ensures { result ≡ text_cmp text.now other.now }
{
    let mut rest = text;
    let mut other_rest = other;
    while let Some((behind, other_behind)) = behind_equal(rest, other_rest) {
        rest = behind;
        other_rest = other_behind;
    }
    compare_firsts(rest, other_rest)
}

// What stands behind the first byte of each, where these are the same.
fn behind_equal<'a>(text: &'a [u8], other: &'a [u8]) -> Option<(&'a [u8], &'a [u8])>
    ensures order { IfSome result (λ rests. text_cmp rests.0.now rests.1.now ≡ text_cmp text.now other.now) }
    ensures shorter { IfSome result (λ rests. length rests.0.now < length text.now) }
{
    match (text, other) {
        ([first, rest @ ..], [second, other_rest @ ..]) if first == second => {
            Some((rest, other_rest))
        }
        _ => None,
    }
}

// The order of two texts, of which one is empty or the first bytes mostly differ.
fn compare_firsts(text: &[u8], other: &[u8]) -> Ordering
    ensures { result ≡ text_cmp text.now other.now }
{
    match (text.split_first(), other.split_first()) {
        (None, None) => Ordering::Equal,
        (None, Some(_)) => Ordering::Less,
        (Some(_), None) => Ordering::Greater,
        (Some((first, _)), Some((second, _))) => {
            if first == second {
                text.cmp(other)
            } else {
                first.cmp(second)
            }
        }
    }
}

// The usual key of a number, with its mark in front.
pub(crate) fn usual_key(number: u8) -> &'static [u8]
    ensures { result.now ≡ usual_key number }
{
    match number {
        1 => b"\x00default",
        2 => b"\x00description",
        3 => b"\x00extended_description",
        4 => b"\x00template",
        5 => b"\x00type",
        6 => b"\x00value",
        7 => b"\x02seen",
        _ => b"",
    }
}

// The number of the usual key of this mark, and of this length without it.
fn number_like(mark: u8, count: usize) -> u8
    ensures { (key : List ℕ) (number : ℕ) → length key ≡ count → number_of (mark ∷ key) ≡ Some number → result ≡ number }
{
    match count {
        4 => if mark == 2 { 7 } else { 5 },
        5 => 6,
        7 => 1,
        8 => 4,
        11 => 2,
        20 => 3,
        _ => 0,
    }
}

// The number of a key, if it is a usual one.
fn usual_number(mark: u8, key: &[u8]) -> Option<u8>
    ensures { result ≡ number_of (mark ∷ key.now) }
{
    let number = number_like(mark, key.len());
    if compare(mark, key, usual_key(number)).is_eq() {
        Some(number)
    } else {
        None
    }
}

// The number of a usual field's key.
#[inline(always)]
fn field_number(key: UsualKey) -> u8
    ensures { Some result ≡ number_of (usual_part key) }
{
    match key {
        UsualKey::Default => 1,
        UsualKey::Description => 2,
        UsualKey::ExtendedDescription => 3,
        UsualKey::Template => 4,
        UsualKey::Type => 5,
        UsualKey::Value => 6,
    }
}

/// A key, given as its mark and the rest of it, and its number if it is a usual one.
#[derive(Clone, Copy)]
pub(crate) struct PartKey<'a> {
    pub(crate) mark: u8,
    pub(crate) key: &'a [u8],
    pub(crate) number: Option<u8>,
    ghost numbered: { number ≡ number_of (mark ∷ key.now) },
}

impl<'a> PartKey<'a> {
    /// The key with this mark.
    #[inline(always)]
    pub(crate) fn new(mark: u8, key: &'a [u8]) -> Self
        ensures { result.mark ∷ result.key.now ≡ mark ∷ key.now }
    {
        PartKey {
            mark,
            key,
            number: usual_number(mark, key),
        }
    }

    /// The key of a usual field. No texts are compared.
    #[inline(always)]
    pub(crate) fn usual(key: UsualKey) -> Self
        ensures { result.mark ∷ result.key.now ≡ usual_part key }
    {
        PartKey {
            mark: 0,
            key: key.bytes(),
            number: Some(field_number(key)),
        }
    }
}

// The order of a key and the usual key of a number. Two usual keys are told apart by their numbers, with which they rise.
#[inline(always)]
pub(crate) fn compare_usual(key: PartKey, other: u8) -> Ordering
    requires { other < 8 }
    ensures { result ≡ text_cmp (key.entry.mark ∷ key.entry.key.now) (usual_key other) }
{
    match key.number {
        Some(number) => number.cmp(&other),
        None => compare(key.mark, key.key, usual_key(other)),
    }
}
