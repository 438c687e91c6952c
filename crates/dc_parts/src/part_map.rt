// Texts at keys, as the parts of an item.
ghost use Rattle.std.specs.Prelude.{◌≡◌, ◌∷◌, OnOk, OnErr, IfOk, map as each};
ghost use Rattle.std.specs.Option.{option_copied};
ghost use Rattle.std.specs.FinMap as map;
ghost use Rattle.dc_parts.specs.Entries.{entries_left};
ghost use Rattle.dc_parts.specs.PartMap.{map_in};

use crate::entries::{Entries, Left};
use crate::many::Many;
use crate::packed::Packed;
use dc_text::Mem;
use std::alloc::Global;
use std::marker::Model;

// Where the entries are.
enum Kept {
    Few(Packed),
    Many(Many),
}

// Written out, so that to let a map go is one step in what is proved of its users.
impl Drop for Kept {
    fn drop(self) {
        match self {
            Kept::Few(_) => {}
            Kept::Many(_) => {}
        }
    }
}

/// Texts at keys, each under the mark of its part, in byte order. Few of them are packed into one piece of memory.
#[derive(Drop)]
pub struct PartMap {
    kept: Kept,
}

impl Model for PartMap {
    ghost use Rattle.std.specs.Prelude.{List, ℕ};
    ghost use Rattle.std.specs.FinMap as map;
    ghost use Rattle.std.specs.Coded.{coded_ℕ, coded_list};
    ghost use Rattle.dc_text.specs.Maps.{text_cmp};
    ghost use Rattle.dc_parts.specs.PartMap.{map_in};

    ghost Value = { map.FinMap text_cmp (List ℕ) };

    ghost coded = { map.code (coded_list coded_ℕ) (coded_list coded_ℕ) };

    ghost view = { λ m. map_in m.kept };
}

// The packed entries in a sorted vector.
pub(crate) fn spread(few: &Packed) -> Mem<Many>
    ensures { IfOk result (λ many. many ≡ few.now) }
{
    let entries = few.entries()?;
    let many = Many::from_sorted(few.allocator(), &entries)?;
    Ok(many)
}

impl PartMap {
    /// The empty map.
    pub fn new(alloc: Global) -> Self
        ensures { result ≡ map.empty }
    {
        PartMap {
            kept: Kept::Few(Packed::new(alloc)),
        }
    }

    // The map of packed entries.
    pub(crate) fn of_few(few: Packed) -> Self
        ensures { result ≡ few }
    {
        PartMap {
            kept: Kept::Few(few),
        }
    }

    // The map of entries in a sorted vector.
    pub(crate) fn of_many(many: Many) -> Self
        ensures { result ≡ many }
    {
        PartMap {
            kept: Kept::Many(many),
        }
    }

    /// The value at the key, if there is one.
    pub fn get(&self, mark: u8, key: &[u8]) -> Option<&[u8]>
        ensures { option_copied result ≡ map.get self.now (mark ∷ key.now) }
    {
        match &self.kept {
            Kept::Few(few) => few.get(mark, key),
            Kept::Many(many) => many.get(mark, key),
        }
    }

    /// Whether the map has the key.
    pub fn contains(&self, mark: u8, key: &[u8]) -> bool
        ensures { result ≡ map.contains_key self.now (mark ∷ key.now) }
    {
        self.get(mark, key).is_some()
    }

    /// Puts the value at the key, in the place of one that stood there.
    pub fn insert(&mut self, mark: u8, key: &[u8], value: &[u8]) -> Mem<()>
        ensures ok { OnOk result (self.new ≡ map.insert self.old (mark ∷ key.now) value.now) }
        ensures err { OnErr result (self.new ≡ self.old) }
    {
        match &mut self.kept {
            Kept::Many(many) => many.insert(mark, key, value)?,
            Kept::Few(few) => {
                let is_put = few.insert(mark, key, value)?;
                if !is_put {
                    let mut many = spread(few)?;
                    many.insert(mark, key, value)?;
                    self.kept = Kept::Many(many);
                }
            }
        }
        Ok(())
    }

    /// Takes the key and its value away, if they are there. It takes no memory.
    pub fn remove(&mut self, mark: u8, key: &[u8])
        ensures { self.new ≡ map.remove self.old (mark ∷ key.now) }
    {
        match &mut self.kept {
            Kept::Few(few) => few.remove(mark, key),
            Kept::Many(many) => many.remove(mark, key),
        }
    }

    /// The entries, in byte order of their keys, which have their marks in front. It takes no memory.
    pub fn iter(&self) -> Entries<'_>
        ensures { entries_left result ≡ map.entries self.now }
    {
        let left = match &self.kept {
            Kept::Few(few) => Left::Few(few.iter()),
            Kept::Many(many) => Left::Many(many.pairs()),
        };
        Entries { left }
    }

    /// The entries, in byte order of their keys, which have their marks in front.
    pub fn entries(&self) -> Mem<Vec<(&[u8], &[u8])>>
        ensures { IfOk result (λ es. each (λ e. (e.0.now, e.1.now)) es.items ≡ map.entries self.now) }
    {
        match &self.kept {
            Kept::Few(few) => few.entries(),
            Kept::Many(many) => many.entries(),
        }
    }

    /// An equal map.
    pub fn copy(&self) -> Mem<Self>
        ensures { IfOk result (λ copy. copy ≡ self.now) }
    {
        let kept = match &self.kept {
            Kept::Few(few) => Kept::Few(few.copy()?),
            Kept::Many(many) => Kept::Many(many.copy()?),
        };
        Ok(PartMap { kept })
    }
}
