// The entries of a table, in order.
ghost use Rattle.std.specs.Prelude.{◌≡◌, ◌<◌, IfOk, IfSome, length, map as each};
ghost use Rattle.std.specs.Int.{to_be_bytes, w64};
ghost use Rattle.std.specs.Slice.Scan.{big_endian};
ghost use Rattle.std.specs.FinMap as map;
ghost use Rattle.dc_text.specs.Maps.{text_cmp};

use dc_item::{Item, TableKey};
use dc_text::Mem;
use indexmap::IndexMap;
use std::alloc::Global;
use std::cmp::Ordering;

/// The entries, in byte order of their keys.
pub(crate) fn in_order<'a>(
    alloc: Global,
    items: &'a IndexMap<TableKey, Item>,
) -> Mem<Vec<(&'a [u8], &'a Item)>>
    ensures { IfOk result (λ order. each (λ e. (e.0.now, e.1.now)) order.items ≡ map.entries (map.from_entries {R = text_cmp} items.now.entries)) }
{
    let mut order = Vec::with_capacity(alloc, items.len())?;
    for (key, item) in items.iter() {
        order.push((key.bytes(), item))?;
    }
    // What was read from a file stands in one run, rising or falling, which the sort takes by one pass.
    order.sort_by(
        |one: &(&[u8], &Item), other: &(&[u8], &Item)| -> Ordering
            ensures { result ≡ text_cmp one.now.0.now other.now.0.now }
        { compare(one.0, other.0) },
    )?;
    Ok(order)
}

// The byte order of the two. Equal fronts are passed over eight bytes at a time.
fn compare(one: &[u8], other: &[u8]) -> Ordering
    ensures { result ≡ text_cmp one.now other.now }
{
    let mut rest = one;
    let mut other_rest = other;
    while let Some((behind, other_behind)) = behind_equal(rest, other_rest) {
        rest = behind;
        other_rest = other_behind;
    }
    order(rest, other_rest)
}

// What stands behind the first eight bytes of each, where these are the same.
fn behind_equal<'a>(one: &'a [u8], other: &'a [u8]) -> Option<(&'a [u8], &'a [u8])>
    ensures order { IfSome result (λ rests. text_cmp rests.0.now rests.1.now ≡ text_cmp one.now other.now) }
    ensures shorter { IfSome result (λ rests. length rests.0.now < length one.now) }
{
    let (front, rest) = one.split_first_chunk::<8>()?;
    let (other_front, other_rest) = other.split_first_chunk::<8>()?;
    if as_number(*front) == as_number(*other_front) {
        Some((rest, other_rest))
    } else {
        None
    }
}

// The byte order of the two, whose first eight bytes mostly differ.
fn order(one: &[u8], other: &[u8]) -> Ordering
    ensures { result ≡ text_cmp one.now other.now }
{
    let Some((front, _)) = one.split_first_chunk::<8>() else {
        return one.cmp(other);
    };
    let Some((other_front, _)) = other.split_first_chunk::<8>() else {
        return one.cmp(other);
    };
    let number = as_number(*front);
    let other_number = as_number(*other_front);
    if number == other_number {
        return one.cmp(other);
    }
    number.cmp(&other_number)
}

// The bytes as one number, the first byte the greatest, which no others make.
fn as_number(bytes: [u8; 8]) -> u64
    ensures number { result ≡ big_endian 0 bytes }
    ensures alone { to_be_bytes w64 result ≡ bytes }
{
    u64::from_be_bytes(bytes)
}
