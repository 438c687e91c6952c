// Operations on items, and what they make of them.
ghost use Rattle.std.specs.Prelude.{◌≡◌, IfOk, OnOk, OnErr};
ghost use Rattle.std.specs.Option.{option_copied};
ghost use Rattle.dc_item.specs.After.{asked, after as after_of, after_none, after_at};

use crate::effect::Effect;
use crate::item::Item;
use dc_text::{FieldKey, FlagName, List, Mem, Name, Settled, VarKey};

/// A change of an item.
#[derive(Drop)]
pub enum Op {
    /// The item is this one.
    Put(Item),
    SetField(FieldKey, Settled),
    DropField(FieldKey),
    /// The flag is true, or isn't.
    SetFlag(FlagName, bool),
    SetVar(VarKey, Settled),
    AddOwner(Name),
    /// The owners are those that the list doesn't name. An item that loses its last owner goes.
    DropOwners(List<Name>),
}

/// What an operation makes of an item.
#[derive(Drop)]
pub enum After {
    /// The item stays as it is, or there is still none.
    Same,
    Changed(Item),
    Gone,
}

impl Item {
    /// What the operation makes of the item: `Same` exactly where all parts stay equal, and `Gone` exactly where it takes
    /// owners away and leaves none.
    pub fn after(&self, op: &Op) -> Mem<After>
        ensures { IfOk result (λ made. made ≡ after_of op.now self.now) }
    {
        match self.effect(op)? {
            Effect::Same => Ok(After::Same),
            Effect::Changed => Ok(After::Changed(self.asked(op)?)),
            Effect::Gone => Ok(After::Gone),
        }
    }

    // The item that the operation asks for.
    fn asked(&self, op: &Op) -> Mem<Item>
        ensures { IfOk result (λ item. item ≡ asked op.now self.now) }
    {
        if let Op::Put(item) = op {
            return item.copy();
        }
        let mut item = self.copy()?;
        item.apply(op)?;
        Ok(item)
    }

    /// Makes the item the one that the operation asks for.
    pub fn apply(&mut self, op: &Op) -> Mem<()>
        ensures ok { OnOk result (self.new ≡ asked op.now self.old) }
        ensures err { OnErr result (self.new ≡ self.old) }
    {
        match op {
            Op::Put(item) => *self = item.copy()?,
            Op::SetField(key, value) => self.put_field(key, value)?,
            Op::DropField(key) => self.drop_field(key.bytes()),
            Op::SetFlag(flag, is_set) => self.set_flag(flag, *is_set)?,
            Op::SetVar(key, value) => self.put_variable(key, value)?,
            Op::AddOwner(name) => self.add_owner(name)?,
            Op::DropOwners(names) => self.drop_owners(names),
        }
        Ok(())
    }
}

impl Op {
    /// What the operation makes of the item, or where there is none. Only `Put` makes one.
    pub fn at(&self, item: Option<&Item>) -> Mem<After>
        ensures { IfOk result (λ made. made ≡ after_at self.now (option_copied item.entry)) }
    {
        match item {
            Some(item) => item.after(self),
            None => self.on_none(),
        }
    }

    fn on_none(&self) -> Mem<After>
        ensures { IfOk result (λ made. made ≡ after_none self.now) }
    {
        match self {
            Op::Put(item) => Ok(After::Changed(item.copy()?)),
            _ => Ok(After::Same),
        }
    }
}
