// Few entries of a map from texts, packed into one piece of memory.
ghost use Rattle.std.specs.Prelude.{T, ◌≡◌, ◌∷◌, OnErr, IfOk, if◌then◌else◌, map as each};
ghost use Rattle.std.specs.Option.{option_copied};
ghost use Rattle.std.specs.FinMap as map;
ghost use Rattle.dc_text.specs.Maps.{text_cmp};
ghost use Rattle.dc_parts.specs.Packed.{entries_in, IsPacked};

use crate::packed_entries::PackedEntries;
use crate::part_key::PartKey;
use crate::places::{count_of, entries_of, place_of, span_of};
use crate::writing::{cut_out, put_between};
use dc_text::Mem;
use std::alloc::Global;
use std::marker::Model;

/// How many entries are packed at most: to find a key there is to go over those before it.
pub(crate) const FEW: usize = 24;

/// Entries of a map from texts, in byte order of the keys, packed into one piece of memory. To find a key is to go over those
/// before it.
#[derive(Drop)]
pub(crate) struct Packed {
    bytes: Vec<u8>,
}

impl Model for Packed {
    ghost use Rattle.std.specs.Prelude.{T, List, ℕ};
    ghost use Rattle.std.specs.FinMap as map;
    ghost use Rattle.std.specs.Coded.{coded_ℕ, coded_list};
    ghost use Rattle.dc_text.specs.Maps.{text_cmp};
    ghost use Rattle.dc_parts.specs.Packed.{entries_in, IsPacked};

    ghost Value = { map.FinMap text_cmp (List ℕ) };

    ghost coded = { map.code (coded_list coded_ℕ) (coded_list coded_ℕ) };

    ghost view = { λ p. map.from_sorted (entries_in p.bytes.items) };

    ghost invariant = { λ p. IsPacked p.bytes.items × T (map.is_sorted text_cmp (entries_in p.bytes.items)) };
}

impl Packed {
    /// The empty map.
    pub(crate) fn new(alloc: Global) -> Self
        ensures { result ≡ map.empty }
    {
        Packed {
            bytes: Vec::new(alloc),
        }
    }

    /// The entries that are packed in the bytes.
    pub(crate) fn of(bytes: Vec<u8>) -> Self
        requires packed { IsPacked bytes.items }
        requires sorted { T (map.is_sorted text_cmp (entries_in bytes.items)) }
        ensures { result ≡ map.from_sorted (entries_in bytes.items) }
    {
        Packed { bytes }
    }

    /// The value at the key, if there is one.
    pub(crate) fn get(&self, mark: u8, key: &[u8]) -> Option<&[u8]>
        ensures { option_copied result ≡ map.get self.now (mark ∷ key.now) }
    {
        place_of(&self.bytes, PartKey::new(mark, key)).value
    }

    /// Puts the value at the key, in the place of one that stood there, but at a new key only if there are few entries. Answers
    /// whether it did.
    pub(crate) fn insert(&mut self, mark: u8, key: &[u8], value: &[u8]) -> Mem<bool>
        ensures put { IfOk result (λ is_put. self.new ≡ (if is_put then map.insert self.old (mark ∷ key.now) value.now else self.old)) }
        ensures err { OnErr result (self.new ≡ self.old) }
    {
        let part = PartKey::new(mark, key);
        let span = span_of(&self.bytes, 0, part);
        if !span.is_there && self.len() >= FEW {
            return Ok(false);
        }
        put_between(&mut self.bytes, span, part, value)?;
        Ok(true)
    }

    /// Takes the key and its value away, if they are there. It takes no memory.
    pub(crate) fn remove(&mut self, mark: u8, key: &[u8])
        ensures { self.new ≡ map.remove self.old (mark ∷ key.now) }
    {
        let span = span_of(&self.bytes, 0, PartKey::new(mark, key));
        if span.is_there {
            cut_out(&mut self.bytes, span.start, span.end);
        }
    }

    /// The entries, in byte order of their keys. They aren't copied.
    pub(crate) fn iter(&self) -> PackedEntries<'_>
        ensures { entries_in result.bytes.now ≡ map.entries self.now }
    {
        PackedEntries::of(&self.bytes)
    }

    /// The entries, in byte order of their keys.
    pub(crate) fn entries(&self) -> Mem<Vec<(&[u8], &[u8])>>
        ensures { IfOk result (λ es. each (λ e. (e.0.now, e.1.now)) es.items ≡ map.entries self.now) }
    {
        let entries = entries_of(*self.bytes.allocator(), &self.bytes, self.len())?;
        Ok(entries)
    }

    /// How many entries there are. They are counted one by one.
    pub(crate) fn len(&self) -> usize
        ensures { result ≡ map.len self.now }
    {
        count_of(&self.bytes)
    }

    /// The allocator of the bytes.
    pub(crate) fn allocator(&self) -> Global {
        *self.bytes.allocator()
    }

    /// An equal map.
    pub(crate) fn copy(&self) -> Mem<Self>
        ensures { IfOk result (λ copy. copy ≡ self.now) }
    {
        Ok(Packed {
            bytes: self.bytes.clone()?,
        })
    }
}
