// Items: the fields, flags, variables and owners of questions and templates.
ghost use Rattle.std.specs.Prelude.{◌≡◌, IfOk, IfSome, OnOk, OnErr, true, map as each};
ghost use Rattle.std.specs.FinMap as map;
ghost use Rattle.std.specs.Option.{option_copied};
ghost use Rattle.dc_text.specs.Bytes.{is_nil};
ghost use Rattle.dc_text.specs.Names.{is_name, is_flag_name};
ghost use Rattle.dc_text.specs.Settled.{is_settled};
ghost use Rattle.dc_item.specs.After.{with_flag, without, parts_eq};
ghost use Rattle.dc_item.specs.Item.{no_parts, with_field, with_variable, without_both, IsItem};
ghost use Rattle.dc_item.specs.Owners.{owners_left};
ghost use Rattle.dc_item.specs.Sections.{parts_in, IsParts, under, keys_under, fields_mark, owners_mark, flags_mark, variables_mark};

use crate::marks::{FIELDS, FLAGS, OWNERS, VARIABLES};
use crate::owners::{Owners, are_all_named, names_of};
use crate::same::are_same;
use dc_parts::PartMap;
use dc_text::{FieldKey, FlagName, List, Mem, Name, Settled, VarKey};
use std::alloc::Global;
use std::marker::Model;

/// The value of a question or a template (debconf-devel(7)): fields, the flags that are true, variables and owners. All stand
/// in one map, each at a key that begins with the mark of its part, and at a flag or an owner an empty text.
#[derive(Drop)]
pub struct Item {
    alloc: Global,
    parts: PartMap,
}

impl Model for Item {
    ghost use Rattle.dc_item.specs.Item.{ItemParts, parts_code};
    ghost use Rattle.dc_item.specs.Sections.{parts_in, IsParts};

    ghost Value = { ItemParts };

    ghost coded = { parts_code };

    ghost view = { λ i. parts_in i.parts };

    ghost invariant = { λ i. IsParts i.parts };
}

impl Item {
    /// An item in which nothing stands.
    pub fn new(alloc: Global) -> Self
        ensures { result ≡ no_parts }
    {
        Item {
            alloc,
            parts: PartMap::new(alloc),
        }
    }

    // The item of these parts.
    pub(crate) fn of_parts(alloc: Global, parts: PartMap) -> Self
        requires { IsParts parts }
        ensures { result ≡ parts_in parts }
    {
        Item { alloc, parts }
    }

    /// The value of the field, if the item has it. Keys are in lower case.
    pub fn field(&self, key: &[u8]) -> Option<&[u8]>
        ensures value { option_copied result ≡ map.get self.now.fields key.now }
        ensures settled { IfSome result (λ text. is_settled text.now ≡ true) }
    {
        self.parts.get(FIELDS, key)
    }

    /// Whether the flag is true.
    pub fn flag(&self, flag: &[u8]) -> bool
        ensures { result ≡ map.contains_key self.now.flags flag.now }
    {
        self.parts.contains(FLAGS, flag)
    }

    /// The value of the variable, if the item has it.
    pub fn var(&self, key: &[u8]) -> Option<&[u8]>
        ensures value { option_copied result ≡ map.get self.now.variables key.now }
        ensures settled { IfSome result (λ text. is_settled text.now ≡ true) }
    {
        self.parts.get(VARIABLES, key)
    }

    /// The owners, in byte order. To go over them takes no memory.
    pub fn owners(&self) -> Owners<'_>
        ensures owners { owners_left result ≡ map.keys self.now.owners }
        ensures item { IsItem self.now }
    {
        Owners::among(self.parts.iter())
    }

    /// The names of the owners, in byte order.
    pub fn owner_names(&self) -> Mem<List<Name>>
        ensures { IfOk result (λ names. names ≡ map.keys self.now.owners) }
    {
        names_of(self.alloc, self.owners())
    }

    // All that stands in the item, at keys with their marks, in byte order.
    pub(crate) fn entries(&self) -> Mem<Vec<(&[u8], &[u8])>>
        ensures fields { IfOk result (λ es. under fields_mark (each (λ e. (e.0.now, e.1.now)) es.items) ≡ map.entries self.now.fields) }
        ensures owners { IfOk result (λ es. keys_under owners_mark (each (λ e. (e.0.now, e.1.now)) es.items) ≡ map.keys self.now.owners) }
        ensures flags { IfOk result (λ es. keys_under flags_mark (each (λ e. (e.0.now, e.1.now)) es.items) ≡ map.keys self.now.flags) }
        ensures variables { IfOk result (λ es. under variables_mark (each (λ e. (e.0.now, e.1.now)) es.items) ≡ map.entries self.now.variables) }
        ensures item { IsItem self.now }
    {
        let entries = self.parts.entries()?;
        Ok(entries)
    }

    // Whether all four parts are equal.
    pub(crate) fn is_same(&self, other: &Item) -> Mem<bool>
        ensures { IfOk result (λ is. is ≡ parts_eq self.now other.now) }
    {
        let entries = self.parts.entries()?;
        let others = other.parts.entries()?;
        let is = are_same(&entries, &others);
        Ok(is)
    }

    /// An item that is equal to this one.
    pub fn copy(&self) -> Mem<Self>
        ensures { IfOk result (λ copy. copy ≡ self.now) }
    {
        let parts = self.parts.copy()?;
        Ok(Item {
            alloc: self.alloc,
            parts,
        })
    }

    /// The item without this field and this flag.
    pub fn without(&self, field: &[u8], flag: &[u8]) -> Mem<Item>
        ensures { IfOk result (λ item. item ≡ without_both self.now field.now flag.now) }
    {
        let mut item = self.copy()?;
        item.drop_field(field);
        item.drop_flag(flag);
        Ok(item)
    }

    // Puts the field, in the place of one with its key.
    pub(crate) fn put_field(&mut self, key: &FieldKey, value: &Settled) -> Mem<()>
        ensures ok { OnOk result (self.new ≡ with_field self.old key.now value.now) }
        ensures err { OnErr result (self.new ≡ self.old) }
    {
        self.parts.insert(FIELDS, key.bytes(), value.bytes())?;
        Ok(())
    }

    // Puts the variable, in the place of one with its key.
    pub(crate) fn put_variable(&mut self, key: &VarKey, value: &Settled) -> Mem<()>
        ensures ok { OnOk result (self.new ≡ with_variable self.old key.now value.now) }
        ensures err { OnErr result (self.new ≡ self.old) }
    {
        self.parts.insert(VARIABLES, key.bytes(), value.bytes())?;
        Ok(())
    }

    // Takes the field away, if the item has it.
    pub(crate) fn drop_field(&mut self, key: &[u8])
        ensures { self.new ≡ record self.old { fields = map.remove self.old.fields key.now } }
    {
        self.parts.remove(FIELDS, key);
    }

    // Makes the flag false.
    pub(crate) fn drop_flag(&mut self, flag: &[u8])
        ensures { self.new ≡ record self.old { flags = map.remove self.old.flags flag.now } }
    {
        self.parts.remove(FLAGS, flag);
    }

    // Makes the flag true, or not.
    pub(crate) fn set_flag(&mut self, flag: &FlagName, is_set: bool) -> Mem<()>
        ensures ok { OnOk result (self.new ≡ record self.old { flags = with_flag self.old.flags flag.now is_set }) }
        ensures err { OnErr result (self.new ≡ self.old) }
    {
        if is_set {
            self.put_flag(flag.bytes())?;
        } else {
            self.parts.remove(FLAGS, flag.bytes());
        }
        Ok(())
    }

    // Makes the flag of the name true.
    fn put_flag(&mut self, flag: &[u8]) -> Mem<()>
        requires { is_flag_name flag.now ≡ true }
        ensures ok { OnOk result (self.new ≡ record self.old { flags = map.insert self.old.flags flag.now tt }) }
        ensures err { OnErr result (self.new ≡ self.old) }
    {
        self.parts.insert(FLAGS, flag, b"")?;
        Ok(())
    }

    /// Whether the item has the owner.
    pub fn has_owner(&self, owner: &[u8]) -> bool
        ensures { result ≡ map.contains_key self.now.owners owner.now }
    {
        self.parts.contains(OWNERS, owner)
    }

    // Adds the owner, if it isn't there.
    pub(crate) fn add_owner(&mut self, owner: &Name) -> Mem<()>
        ensures ok { OnOk result (self.new ≡ record self.old { owners = map.insert self.old.owners owner.now tt }) }
        ensures err { OnErr result (self.new ≡ self.old) }
    {
        self.put_owner(owner.bytes())
    }

    // Adds the owner of the name, if it isn't there.
    fn put_owner(&mut self, owner: &[u8]) -> Mem<()>
        requires { is_name owner.now ≡ true }
        ensures ok { OnOk result (self.new ≡ record self.old { owners = map.insert self.old.owners owner.now tt }) }
        ensures err { OnErr result (self.new ≡ self.old) }
    {
        self.parts.insert(OWNERS, owner, b"")?;
        Ok(())
    }

    // Takes the owner away, if the item has it.
    pub(crate) fn drop_owner(&mut self, owner: &[u8])
        ensures { self.new ≡ record self.old { owners = map.remove self.old.owners owner.now } }
    {
        self.parts.remove(OWNERS, owner);
    }

    // Takes away the owners that the list names. It begins at the end, since what stands behind an owner moves.
    pub(crate) fn drop_owners(&mut self, names: &List<Name>)
        ensures { self.new ≡ record self.old { owners = without self.old.owners names.now } }
    {
        let mut rest = names.as_slice();
        while let Some((last, front)) = rest.split_last() {
            self.drop_owner(last.bytes());
            rest = front;
        }
    }

    // Whether the list names all owners.
    pub(crate) fn are_owners_named(&self, names: &List<Name>) -> Mem<bool>
        ensures { IfOk result (λ are. are ≡ is_nil (map.keys (without self.now.owners names.now))) }
    {
        are_all_named(self.alloc, self.owners(), names)
    }
}
