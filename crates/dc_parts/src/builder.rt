// Maps from texts to texts while they are put together.
ghost use Rattle.std.specs.Prelude.{◌≡◌, ◌∷◌, OnOk, OnErr, IfOk, if◌then◌else◌, not};
ghost use Rattle.std.specs.FinMap as map;
ghost use Rattle.dc_parts.specs.PartMap.{map_built};
ghost use Rattle.dc_parts.specs.Keys.{whole};
ghost use Rattle.dc_parts.specs.Usual.{usual_part};

use crate::many::Many;
use crate::packed::FEW;
use crate::packed_builder::PackedBuilder;
use crate::part_key::PartKey;
use crate::part_map::{PartMap, spread};
use crate::usual::UsualKey;
use dc_text::Mem;
use std::alloc::Global;
use std::marker::Model;

// Where the entries are.
enum Built {
    Few(PackedBuilder),
    Many(Many),
}

// Written out, so that to let a builder go is one step in what is proved of its users.
impl Drop for Built {
    fn drop(self) {
        match self {
            Built::Few(_) => {}
            Built::Many(_) => {}
        }
    }
}

// The entries that were packed, in a sorted vector.
#[inline(never)]
fn spread_built(few: &PackedBuilder) -> Mem<Many>
    ensures { IfOk result (λ many. many ≡ few.now) }
{
    let packed = few.built()?;
    let many = spread(&packed)?;
    Ok(many)
}

/// Texts at keys, each under the mark of its part, while they are put together, mostly in byte order of the keys.
#[derive(Drop)]
pub struct PartMapBuilder {
    alloc: Global,
    kept: Built,
}

impl Model for PartMapBuilder {
    ghost use Rattle.std.specs.Prelude.{List, ℕ};
    ghost use Rattle.std.specs.FinMap as map;
    ghost use Rattle.std.specs.Coded.{coded_ℕ, coded_list};
    ghost use Rattle.dc_text.specs.Maps.{text_cmp};
    ghost use Rattle.dc_parts.specs.PartMap.{map_built};

    ghost Value = { map.FinMap text_cmp (List ℕ) };

    ghost coded = { map.code (coded_list coded_ℕ) (coded_list coded_ℕ) };

    ghost view = { λ b. map_built b.kept };
}

impl PartMapBuilder {
    /// The empty map.
    pub fn new(alloc: Global) -> Self
        ensures { result ≡ map.empty }
    {
        PartMapBuilder {
            alloc,
            kept: Built::Few(PackedBuilder::new(alloc)),
        }
    }

    /// Puts the value at the key, in the place of one that stood there.
    pub fn insert(&mut self, mark: u8, key: &[u8], value: &[u8]) -> Mem<()>
        ensures ok { OnOk result (self.new ≡ map.insert self.old (mark ∷ key.now) value.now) }
        ensures err { OnErr result (self.new ≡ self.old) }
    {
        match &mut self.kept {
            Built::Many(many) => many.insert(mark, key, value)?,
            Built::Few(few) => {
                if few.len() < FEW {
                    few.insert(PartKey::new(mark, key), value)?;
                } else {
                    let mut many = spread_built(few)?;
                    many.insert(mark, key, value)?;
                    self.kept = Built::Many(many);
                }
            }
        }
        Ok(())
    }

    // Puts the value at a key that isn't there, and answers whether it wasn't.
    #[inline(always)]
    fn put_new(&mut self, key: PartKey, value: &[u8]) -> Mem<bool>
        ensures new { IfOk result (λ is_new. is_new ≡ not (map.contains_key self.old (whole key.entry))) }
        ensures put { IfOk result (λ is_new. self.new ≡ (if is_new then map.insert self.old (whole key.entry) value.now else self.old)) }
        ensures err { OnErr result (self.new ≡ self.old) }
    {
        if let Built::Few(few) = &mut self.kept {
            if few.len() < FEW {
                let is_new = few.insert_new(key, value)?;
                return Ok(is_new);
            }
        }
        self.put_new_among_many(key.mark, key.key, value)
    }

    // The same, where there are many entries.
    #[inline(never)]
    fn put_new_among_many(&mut self, mark: u8, key: &[u8], value: &[u8]) -> Mem<bool>
        ensures new { IfOk result (λ is_new. is_new ≡ not (map.contains_key self.old (mark ∷ key.now))) }
        ensures put { IfOk result (λ is_new. self.new ≡ (if is_new then map.insert self.old (mark ∷ key.now) value.now else self.old)) }
        ensures err { OnErr result (self.new ≡ self.old) }
    {
        match &mut self.kept {
            Built::Many(many) => many.insert_new(mark, key, value),
            Built::Few(few) => {
                let mut many = spread_built(few)?;
                let is_new = many.insert_new(mark, key, value)?;
                self.kept = Built::Many(many);
                Ok(is_new)
            }
        }
    }

    /// Puts the value at a key that isn't there, and answers whether it wasn't.
    pub fn insert_new(&mut self, mark: u8, key: &[u8], value: &[u8]) -> Mem<bool>
        ensures new { IfOk result (λ is_new. is_new ≡ not (map.contains_key self.old (mark ∷ key.now))) }
        ensures put { IfOk result (λ is_new. self.new ≡ (if is_new then map.insert self.old (mark ∷ key.now) value.now else self.old)) }
        ensures err { OnErr result (self.new ≡ self.old) }
    {
        self.put_new(PartKey::new(mark, key), value)
    }

    /// Puts the value at a usual field's key that isn't there, and answers whether it wasn't.
    pub fn insert_new_usual(&mut self, key: UsualKey, value: &[u8]) -> Mem<bool>
        ensures new { IfOk result (λ is_new. is_new ≡ not (map.contains_key self.old (usual_part key))) }
        ensures put { IfOk result (λ is_new. self.new ≡ (if is_new then map.insert self.old (usual_part key) value.now else self.old)) }
        ensures err { OnErr result (self.new ≡ self.old) }
    {
        self.put_new(PartKey::usual(key), value)
    }

    /// Hands out the entries, and forgets them. Few of them are handed out in memory of just their size, and the memory in which
    /// they stood stays for others.
    pub fn take(&mut self) -> Mem<PartMap>
        ensures taken { IfOk result (λ taken. taken ≡ self.old) }
        ensures left { OnOk result (self.new ≡ map.empty) }
        ensures err { OnErr result (self.new ≡ self.old) }
    {
        match &mut self.kept {
            Built::Few(few) => {
                let taken = few.take()?;
                Ok(PartMap::of_few(taken))
            }
            Built::Many(many) => {
                let taken = many.take();
                self.kept = Built::Few(PackedBuilder::new(self.alloc));
                Ok(PartMap::of_many(taken))
            }
        }
    }
}
