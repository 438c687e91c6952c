// Where a key is among packed entries.
ghost use Rattle.std.specs.Prelude.{T, true, ◌≡◌, ◌∷◌, ◌<◌, ◌≤◌, IfOk, is_some, length, take, drop, map as each};
ghost use Rattle.std.specs.Option.{option_copied};
ghost use Rattle.std.specs.FinMap as map;
ghost use Rattle.dc_text.specs.Maps.{text_cmp};
ghost use Rattle.dc_parts.specs.Keys.{whole};
ghost use Rattle.dc_parts.specs.Packed.{packed, length_at, behind_length, text_at, behind_text, key_at, behind_key, HasText, entries_in, IsPacked, IsPlace, IsBehind, before, from, behind, value_at};

use crate::part_key::{PartKey, compare, compare_usual, usual_key};
use dc_text::Mem;
use std::alloc::Global;
use std::cmp::Ordering;

// The length at the front of the bytes, and what stands behind it.
fn split_length(bytes: &[u8]) -> (usize, &[u8])
    requires { HasText bytes.now }
    ensures length { result.0 ≡ length_at bytes.now }
    ensures rest { result.1.now ≡ behind_length bytes.now }
{
    let mut length = 0;
    let mut rest = bytes;
    while let Some((byte, more)) = rest.split_first() {
        if *byte != 255 {
            return (length + *byte as usize, more);
        }
        length += 255;
        rest = more;
    }
    (length, rest)
}

// The text at the front of the bytes, and what stands behind it.
fn split_text(bytes: &[u8]) -> (&[u8], &[u8])
    requires { HasText bytes.now }
    ensures text { result.0.now ≡ text_at bytes.now }
    ensures rest { result.1.now ≡ behind_text bytes.now }
{
    let (length, rest) = split_length(bytes);
    rest.split_at(length)
}

// The key at the front of the bytes, and what stands behind it.
fn split_key(bytes: &[u8]) -> (&[u8], &[u8])
    requires { HasText bytes.now }
    ensures key { result.0.now ≡ key_at bytes.now }
    ensures rest { result.1.now ≡ behind_key bytes.now }
{
    match bytes {
        [0, number, rest @ ..] => (usual_key(*number), rest),
        _ => split_text(bytes),
    }
}

// The first of packed entries, its key and its value, and those behind it.
pub(crate) fn split_entry<'a>(bytes: &'a [u8]) -> (&'a [u8], &'a [u8], &'a [u8])
    requires packed { IsPacked bytes.now }
    requires some { 0 < length bytes.now }
    ensures first { entries_in bytes.now ≡ (result.0.now, result.1.now) ∷ entries_in result.2.now }
    ensures rest { IsPacked result.2.now }
{
    let (key, behind_key) = split_key(bytes);
    let (value, behind) = split_text(behind_key);
    (key, value, behind)
}

// The order of a key and that of the first of packed entries, and what stands behind the latter.
#[inline(always)]
fn compare_front<'a>(key: PartKey, bytes: &'a [u8]) -> (Ordering, &'a [u8])
    requires packed { IsPacked bytes.now }
    requires some { 0 < length bytes.now }
    ensures order { result.0 ≡ text_cmp (whole key.entry) (key_at bytes.now) }
    ensures rest { result.1.now ≡ behind_key bytes.now }
{
    match bytes {
        [0, number, rest @ ..] => (compare_usual(key, *number), rest),
        _ => {
            let (other, rest) = split_text(bytes);
            (compare(key.mark, key.key, other), rest)
        }
    }
}

// The place of a key among packed entries, whether it is there or not.
#[derive(Clone, Copy)]
pub(crate) struct Place<'a> {
    // The entries from the place on.
    from: &'a [u8],
    // Those behind the key.
    behind: &'a [u8],
    // The value of the key, if it is there.
    pub(crate) value: Option<&'a [u8]>,
}

// The place of the key among packed entries.
pub(crate) fn place_of<'a>(bytes: &'a [u8], key: PartKey) -> Place<'a>
    requires { IsPacked bytes.now }
    ensures from { result.from.now ≡ packed (from (whole key.entry) (entries_in bytes.now)) }
    ensures behind { result.behind.now ≡ packed (behind (whole key.entry) (entries_in bytes.now)) }
    ensures value { option_copied result.value ≡ value_at (whole key.entry) (entries_in bytes.now) }
{
    let mut rest = bytes;
    while !rest.is_empty() {
        let (order, behind_key) = compare_front(key, rest);
        let (value, behind) = split_text(behind_key);
        match order {
            Ordering::Less => return Place {
                from: rest,
                behind: rest,
                value: None,
            },
            Ordering::Equal => return Place {
                from: rest,
                behind,
                value: Some(value),
            },
            Ordering::Greater => rest = behind,
        }
    }
    Place {
        from: rest,
        behind: rest,
        value: None,
    }
}

// The same, where mostly no entry is.
fn place_behind<'a>(bytes: &'a [u8], key: PartKey) -> Place<'a>
    requires { IsPacked bytes.now }
    ensures from { result.from.now ≡ packed (from (whole key.entry) (entries_in bytes.now)) }
    ensures behind { result.behind.now ≡ packed (behind (whole key.entry) (entries_in bytes.now)) }
    ensures value { option_copied result.value ≡ value_at (whole key.entry) (entries_in bytes.now) }
{
    if bytes.is_empty() {
        return Place {
            from: bytes,
            behind: bytes,
            value: None,
        };
    }
    place_of(bytes, key)
}

// The same, where an entry begins at the finger, or the end of the bytes is there. Mostly the key comes right behind that entry.
fn place_near<'a>(bytes: &'a [u8], finger: usize, key: PartKey) -> Place<'a>
    requires packed { IsPacked bytes.now }
    requires sorted { T (map.is_sorted text_cmp (entries_in bytes.now)) }
    requires finger { IsPlace finger (entries_in bytes.now) }
    ensures from { result.from.now ≡ packed (from (whole key.entry) (entries_in bytes.now)) }
    ensures behind { result.behind.now ≡ packed (behind (whole key.entry) (entries_in bytes.now)) }
    ensures value { option_copied result.value ≡ value_at (whole key.entry) (entries_in bytes.now) }
{
    let (_, from_finger) = bytes.split_at(finger);
    if !from_finger.is_empty() {
        let (order, behind_key) = compare_front(key, from_finger);
        if let Ordering::Greater = order {
            let (_, behind) = split_text(behind_key);
            return place_behind(behind, key);
        }
    }
    place_of(bytes, key)
}

// Whether a key comes behind all entries, as far as the entry at the finger shows it, which mostly is the last of them.
#[inline(always)]
pub(crate) fn is_behind(bytes: &[u8], finger: usize, key: PartKey) -> bool
    requires packed { IsPacked bytes.now }
    requires sorted { T (map.is_sorted text_cmp (entries_in bytes.now)) }
    requires finger { IsPlace finger (entries_in bytes.now) }
    ensures { result ≡ true → IsBehind (whole key.entry) (entries_in bytes.now) }
{
    let (_, from_finger) = bytes.split_at(finger);
    if from_finger.is_empty() {
        return bytes.is_empty();
    }
    let (order, behind_key) = compare_front(key, from_finger);
    let (_, behind) = split_text(behind_key);
    behind.is_empty() && order.is_gt()
}

// Where the bytes of the entries before a key end, where those of the entries behind it begin, and whether it is there.
#[derive(Clone, Copy)]
pub(crate) struct Span {
    pub(crate) start: usize,
    pub(crate) end: usize,
    pub(crate) is_there: bool,
}

pub(crate) fn span_of(bytes: &[u8], finger: usize, key: PartKey) -> Span
    requires packed { IsPacked bytes.now }
    requires sorted { T (map.is_sorted text_cmp (entries_in bytes.now)) }
    requires finger { IsPlace finger (entries_in bytes.now) }
    ensures start { take result.start bytes.now ≡ packed (before (whole key.entry) (entries_in bytes.now)) }
    ensures end { drop result.end bytes.now ≡ packed (behind (whole key.entry) (entries_in bytes.now)) }
    ensures ordered { result.start ≤ result.end }
    ensures in_range { result.end ≤ length bytes.now }
    ensures is_there { result.is_there ≡ is_some (value_at (whole key.entry) (entries_in bytes.now)) }
{
    let place = place_near(bytes, finger, key);
    Span {
        start: bytes.len() - place.from.len(),
        end: bytes.len() - place.behind.len(),
        is_there: place.value.is_some(),
    }
}

// How many entries are packed.
pub(crate) fn count_of(bytes: &[u8]) -> usize
    requires { IsPacked bytes.now }
    ensures { result ≡ length (entries_in bytes.now) }
{
    let mut count = 0;
    let mut rest = bytes;
    while !rest.is_empty() {
        let (_, behind_key) = split_key(rest);
        let (_, behind) = split_text(behind_key);
        count += 1;
        rest = behind;
    }
    count
}

// Packed entries, of which there are so many, as a list.
pub(crate) fn entries_of<'a>(
    alloc: Global,
    bytes: &'a [u8],
    count: usize,
) -> Mem<Vec<(&'a [u8], &'a [u8])>>
    requires { IsPacked bytes.now }
    ensures { IfOk result (λ es. each (λ e. (e.0.now, e.1.now)) es.items ≡ entries_in bytes.now) }
{
    let mut entries = Vec::with_capacity(alloc, count)?;
    let mut rest = bytes;
    while !rest.is_empty() {
        let (key, behind_key) = split_key(rest);
        let (value, behind) = split_text(behind_key);
        entries.push((key, value))?;
        rest = behind;
    }
    Ok(entries)
}
