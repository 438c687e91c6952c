// Few entries of a map from texts, while they are put together.
ghost use Rattle.std.specs.Prelude.{◌≡◌, ◌<◌, ◌+◌, ◌^◌, OnOk, OnErr, IfOk, if◌then◌else◌, not};
ghost use Rattle.std.specs.FinMap as map;
ghost use Rattle.dc_parts.specs.Keys.{whole};

use crate::packed::Packed;
use crate::part_key::PartKey;
use crate::places::{is_behind, span_of};
use crate::writing::{push_short, put_between, short_key};
use dc_text::Mem;
use std::alloc::Global;
use std::marker::Model;

// How many entries there are when one is put, if its key is there or not.
#[inline(always)]
fn count_with(count: usize, is_there: bool) -> usize
    requires { count < 2 ^ 63 }
    ensures { result ≡ (if is_there then count else count + 1) }
{
    if is_there { count } else { count + 1 }
}

/// Entries of a map from texts, in byte order of the keys, packed into one piece of memory. To put one above that which was put last
/// is to go on behind that.
#[derive(Drop)]
pub(crate) struct PackedBuilder {
    count: usize,
    // Where the entry begins that was put last, or 0.
    finger: usize,
    bytes: Vec<u8>,
}

impl Model for PackedBuilder {
    ghost use Rattle.std.specs.Prelude.{T, List, ℕ, ◌≡◌, length};
    ghost use Rattle.std.specs.FinMap as map;
    ghost use Rattle.std.specs.Coded.{coded_ℕ, coded_list};
    ghost use Rattle.dc_text.specs.Maps.{text_cmp};
    ghost use Rattle.dc_parts.specs.Packed.{entries_in, IsPacked, IsPlace};

    ghost Value = { map.FinMap text_cmp (List ℕ) };

    ghost coded = { map.code (coded_list coded_ℕ) (coded_list coded_ℕ) };

    ghost view = { λ p. map.from_sorted (entries_in p.bytes.items) };

    ghost invariant = { λ p. IsPacked p.bytes.items × T (map.is_sorted text_cmp (entries_in p.bytes.items)) × (p.count ≡ length (entries_in p.bytes.items)) × IsPlace p.finger (entries_in p.bytes.items) };
}

impl PackedBuilder {
    /// The empty map.
    pub(crate) fn new(alloc: Global) -> Self
        ensures { result ≡ map.empty }
    {
        PackedBuilder {
            count: 0,
            finger: 0,
            bytes: Vec::new(alloc),
        }
    }

    /// Puts the value at the key, in the place of one that stood there.
    pub(crate) fn insert(&mut self, key: PartKey, value: &[u8]) -> Mem<()>
        ensures ok { OnOk result (self.new ≡ map.insert self.old (whole key.entry) value.now) }
        ensures err { OnErr result (self.new ≡ self.old) }
    {
        let span = span_of(&self.bytes, self.finger, key);
        put_between(&mut self.bytes, span, key, value)?;
        self.finger = span.start;
        self.count = count_with(self.count, span.is_there);
        Ok(())
    }

    /// Puts the value at a key that isn't there, and answers whether it wasn't. Most keys come behind all others.
    #[inline(always)]
    pub(crate) fn insert_new(&mut self, key: PartKey, value: &[u8]) -> Mem<bool>
        ensures new { IfOk result (λ is_new. is_new ≡ not (map.contains_key self.old (whole key.entry))) }
        ensures put { IfOk result (λ is_new. self.new ≡ (if is_new then map.insert self.old (whole key.entry) value.now else self.old)) }
        ensures err { OnErr result (self.new ≡ self.old) }
    {
        if key.key.len() < 254 && value.len() < 255 && is_behind(&self.bytes, self.finger, key) {
            let start = self.bytes.len();
            push_short(&mut self.bytes, short_key(key), value)?;
            self.finger = start;
            self.count = count_with(self.count, false);
            return Ok(true);
        }
        self.insert_new_near(key, value)
    }

    // The same, wherever the key's place is.
    #[inline(never)]
    fn insert_new_near(&mut self, key: PartKey, value: &[u8]) -> Mem<bool>
        ensures new { IfOk result (λ is_new. is_new ≡ not (map.contains_key self.old (whole key.entry))) }
        ensures put { IfOk result (λ is_new. self.new ≡ (if is_new then map.insert self.old (whole key.entry) value.now else self.old)) }
        ensures err { OnErr result (self.new ≡ self.old) }
    {
        let span = span_of(&self.bytes, self.finger, key);
        if span.is_there {
            return Ok(false);
        }
        put_between(&mut self.bytes, span, key, value)?;
        self.finger = span.start;
        self.count = count_with(self.count, false);
        Ok(true)
    }

    /// The entries, in memory of just their size.
    pub(crate) fn built(&self) -> Mem<Packed>
        ensures { IfOk result (λ packed. packed ≡ self.now) }
    {
        let bytes = self.bytes.clone()?;
        Ok(Packed::of(bytes))
    }

    /// Hands out the entries in memory of just their size, and forgets them. Its own memory stays for others.
    pub(crate) fn take(&mut self) -> Mem<Packed>
        ensures taken { IfOk result (λ taken. taken ≡ self.old) }
        ensures left { OnOk result (self.new ≡ map.empty) }
        ensures err { OnErr result (self.new ≡ self.old) }
    {
        let taken = self.built()?;
        self.count = 0;
        self.finger = 0;
        self.bytes.clear();
        Ok(taken)
    }

    /// How many entries there are.
    pub(crate) fn len(&self) -> usize
        ensures { result ≡ map.len self.now }
    {
        self.count
    }
}
