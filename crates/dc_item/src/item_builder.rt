// Items while they are put together.
ghost use Rattle.std.specs.Prelude.{◌≡◌, IfOk, OnOk, OnErr, true, if◌then◌else◌, not};
ghost use Rattle.std.specs.FinMap as map;
ghost use Rattle.dc_text.specs.Maps.{set_of};
ghost use Rattle.dc_text.specs.Names.{is_name, is_flag_name, is_field_key};
ghost use Rattle.dc_text.specs.Settled.{settled, is_settled};
ghost use Rattle.dc_parts.specs.Usual.{usual_name};
ghost use Rattle.dc_item.specs.Item.{no_parts, with_field, with_variable};

use crate::item::Item;
use crate::marks::{FIELDS, FLAGS, OWNERS, VARIABLES};
use dc_parts::{PartMapBuilder, UsualKey};
use dc_text::bytes::split_at_byte;
use dc_text::{FlagName, List, Mem, Name, VarKey, settle};
use std::alloc::Global;
use std::marker::Model;

/// An item while it is put together, as a record is read.
#[derive(Drop)]
pub struct ItemBuilder {
    alloc: Global,
    parts: PartMapBuilder,
}

impl Model for ItemBuilder {
    ghost use Rattle.dc_item.specs.Item.{ItemParts, parts_code};
    ghost use Rattle.dc_item.specs.Sections.{parts_in, IsParts};

    ghost Value = { ItemParts };

    ghost coded = { parts_code };

    ghost view = { λ b. parts_in b.parts };

    ghost invariant = { λ b. IsParts b.parts };
}

impl ItemBuilder {
    /// An item in which nothing stands yet.
    pub fn new(alloc: Global) -> Self
        ensures { result ≡ no_parts }
    {
        ItemBuilder {
            alloc,
            parts: PartMapBuilder::new(alloc),
        }
    }

    /// Puts the field if the item has none with its key, and answers whether it had none.
    pub fn put_new_field(&mut self, key: &[u8], value: &[u8]) -> Mem<bool>
        requires key { is_field_key key.now ≡ true }
        requires value { is_settled value.now ≡ true }
        ensures new { IfOk result (λ is_new. is_new ≡ not (map.contains_key self.old.fields key.now)) }
        ensures put { IfOk result (λ is_new. self.new ≡ (if is_new then with_field self.old key.now value.now else self.old)) }
        ensures err { OnErr result (self.new ≡ self.old) }
    {
        let is_new = self.parts.insert_new(FIELDS, key, value)?;
        Ok(is_new)
    }

    /// Puts the field of a value as it is written, which is settled, if the item has none with its key, and answers whether it had none.
    pub fn put_written_field(&mut self, key: &[u8], written: &[u8]) -> Mem<bool>
        requires { is_field_key key.now ≡ true }
        ensures new { IfOk result (λ is_new. is_new ≡ not (map.contains_key self.old.fields key.now)) }
        ensures put { IfOk result (λ is_new. self.new ≡ (if is_new then with_field self.old key.now (settled written.now) else self.old)) }
        ensures err { OnErr result (self.new ≡ self.old) }
    {
        match split_at_byte(written, b'\\') {
            None => self.put_new_field(key, written),
            Some(_) => {
                let value = settle(self.alloc, written)?;
                self.put_new_field(key, value.bytes())
            }
        }
    }

    /// Puts the usual field if the item has none with its key, and answers whether it had none.
    pub fn put_new_usual_field(&mut self, key: UsualKey, value: &[u8]) -> Mem<bool>
        requires { is_settled value.now ≡ true }
        ensures new { IfOk result (λ is_new. is_new ≡ not (map.contains_key self.old.fields (usual_name key))) }
        ensures put { IfOk result (λ is_new. self.new ≡ (if is_new then with_field self.old (usual_name key) value.now else self.old)) }
        ensures err { OnErr result (self.new ≡ self.old) }
    {
        let is_new = self.parts.insert_new_usual(key, value)?;
        Ok(is_new)
    }

    /// Puts the variable if the item has none with its key, and answers whether it had none.
    pub fn put_new_variable(&mut self, key: &VarKey, value: &[u8]) -> Mem<bool>
        requires { is_settled value.now ≡ true }
        ensures new { IfOk result (λ is_new. is_new ≡ not (map.contains_key self.old.variables key.now)) }
        ensures put { IfOk result (λ is_new. self.new ≡ (if is_new then with_variable self.old key.now value.now else self.old)) }
        ensures err { OnErr result (self.new ≡ self.old) }
    {
        let is_new = self.parts.insert_new(VARIABLES, key.bytes(), value)?;
        Ok(is_new)
    }

    /// Makes the flag of the name true.
    pub fn put_flag(&mut self, flag: &[u8]) -> Mem<()>
        requires { is_flag_name flag.now ≡ true }
        ensures ok { OnOk result (self.new ≡ record self.old { flags = map.insert self.old.flags flag.now tt }) }
        ensures err { OnErr result (self.new ≡ self.old) }
    {
        self.parts.insert(FLAGS, flag, b"")?;
        Ok(())
    }

    /// Makes these the flags that are true, where none is. Where memory runs out, some of them may be.
    pub fn put_flags(&mut self, flags: &List<FlagName>) -> Mem<()>
        requires { self.old.flags ≡ map.empty }
        ensures { OnOk result (self.new ≡ record self.old { flags = set_of flags.now }) }
    {
        let all = flags.as_slice();
        for flag in all {
            self.put_flag(flag.bytes())?;
        }
        Ok(())
    }

    /// Adds the owner of the name, if it isn't there.
    pub fn put_owner(&mut self, owner: &[u8]) -> Mem<()>
        requires { is_name owner.now ≡ true }
        ensures ok { OnOk result (self.new ≡ record self.old { owners = map.insert self.old.owners owner.now tt }) }
        ensures err { OnErr result (self.new ≡ self.old) }
    {
        self.parts.insert(OWNERS, owner, b"")?;
        Ok(())
    }

    /// Makes these the owners, where there are none. Where memory runs out, some of them may be.
    pub fn put_owners(&mut self, owners: &List<Name>) -> Mem<()>
        requires { self.old.owners ≡ map.empty }
        ensures { OnOk result (self.new ≡ record self.old { owners = set_of owners.now }) }
    {
        let all = owners.as_slice();
        for owner in all {
            self.put_owner(owner.bytes())?;
        }
        Ok(())
    }

    /// Makes the item's owners the owners, where there are none. Where memory runs out, some of them may be.
    pub fn put_owners_of(&mut self, item: &Item) -> Mem<()>
        requires { self.old.owners ≡ map.empty }
        ensures { OnOk result (self.new ≡ record self.old { owners = item.now.owners }) }
    {
        for owner in item.owners() {
            self.put_owner(owner)?;
        }
        Ok(())
    }

    /// Hands out the item, in memory of just its size, and leaves nothing but memory for others.
    pub fn take(&mut self) -> Mem<Item>
        ensures taken { IfOk result (λ taken. taken ≡ self.old) }
        ensures left { OnOk result (self.new ≡ no_parts) }
        ensures err { OnErr result (self.new ≡ self.old) }
    {
        let parts = self.parts.take()?;
        Ok(Item::of_parts(self.alloc, parts))
    }
}
