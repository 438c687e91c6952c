// The marks of an item's parts: the first byte of each key. The parts are printed in the order of their marks.
ghost use Rattle.std.specs.Prelude.{◌≡◌};
ghost use Rattle.dc_item.specs.Sections.{has_mark as has_mark_of, unmarked as unmarked_of};

/// The mark of a field, whose key stands behind it.
pub const FIELDS: u8 = 0;

/// The mark of an owner, whose name stands behind it.
pub const OWNERS: u8 = 1;

/// The mark of a flag, whose name stands behind it.
pub const FLAGS: u8 = 2;

/// The mark of a variable, whose key stands behind it.
pub const VARIABLES: u8 = 3;

/// Whether the key begins with the mark.
pub fn has_mark(mark: u8, key: &[u8]) -> bool
    ensures { result ≡ has_mark_of mark key.now }
{
    match key.split_first() {
        None => false,
        Some((first, _)) => *first == mark,
    }
}

/// The key without its mark.
pub fn unmarked(key: &[u8]) -> &[u8]
    ensures { result.now ≡ unmarked_of key.now }
{
    match key {
        [] => key,
        [_, rest @ ..] => rest,
    }
}
