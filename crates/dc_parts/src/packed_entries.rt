// Packed entries, one after another.
ghost use Rattle.dc_parts.specs.Packed.{IsPacked};

use crate::places::split_entry;

/// Packed entries that are left.
#[derive(Drop)]
pub(crate) struct PackedEntries<'a> {
    bytes: &'a [u8],
    ghost packed: { IsPacked bytes.now },
}

impl<'a> PackedEntries<'a> {
    ghost use Rattle.std.specs.Prelude.{◌≡◌};
    ghost use Rattle.std.specs.Iterator.{YieldsFirstBy};
    ghost use Rattle.dc_parts.specs.Packed.{entries_in};

    /// All entries that are packed in the bytes.
    pub(crate) fn of(bytes: &'a [u8]) -> Self
        requires { IsPacked bytes.now }
        ensures { result.bytes.now ≡ bytes.now }
    {
        PackedEntries { bytes }
    }

    /// The first of those that are left, if there is one, which is left no more.
    pub(crate) fn next(&mut self) -> Option<(&'a [u8], &'a [u8])>
        ensures { YieldsFirstBy (λ e. (e.0.now, e.1.now)) (λ p. entries_in p.bytes.now) self.old result self.new }
    {
        let bytes = self.bytes;
        if bytes.is_empty() {
            return None;
        }
        let (key, value, behind) = split_entry(bytes);
        self.bytes = behind;
        Some((key, value))
    }
}
