// The store.
ghost use Rattle.std.specs.Prelude.{◌≡◌, Option, Some, Ok, Err, IfOk, OnOk, [], is_some, length, true, false, map as each};
ghost use Rattle.std.specs.Option.{option_copied};
ghost use Rattle.dc_conf.specs.Trees.{shape};
ghost use Rattle.dc_conf.specs.Plans.{IsOver};
ghost use Rattle.dc_store.specs.Plans.{holder, look, look_below, has_below, can_change, would_take, names, owned, write};
ghost use Rattle.dc_store.specs.StoreLaws.{IsSameStoreBut};
ghost use Rattle.dc_store.specs.Views.{store_of};
ghost use Rattle.dc_template.specs.declared.kinds.Kind.{Kind as KindOf};

use crate::acceptance::{can_change_in, would_take_in};
use crate::listing::{names_in, owned_in, owned_names_in};
use crate::search::{has_below_in, holder_in, look_below_in, look_in, places_in, seek_in};
use crate::writing::{write_in, write_on_top};
use dc_conf::plans::Plan;
use dc_item::{Item, Op, in_order};
use dc_layer::Layer;
use dc_template::Kind;
use dc_text::{List, Mem, Name, OutOfMemory, Text};
use std::alloc::Global;

/// The layers of the databases that are used, and the lines that were told. Each plan names layers by their places.
#[derive(Drop)]
pub struct Store {
    pub(crate) alloc: Global,
    pub layers: Vec<Box<dyn Layer>>,
    /// What the plans that tell what is done told, until it is taken.
    pub told: Text,
}

/// Why a store does no write.
#[derive(Clone, Copy, Debug, PartialEq, Eq)]
pub enum StoreError {
    /// No layer that may take the write takes it.
    Refused,
    OutOfMemory,
}

impl From<OutOfMemory> for StoreError {
    ghost use Rattle.std.specs.Prelude.{◌≡◌};
    ghost use Rattle.dc_store.specs.declared.store.StoreError.TheVariants.{OutOfMemory};

    ghost from_gives = { λ _ e. e ≡ OutOfMemory };

    fn from(_: OutOfMemory) -> Self {
        StoreError::OutOfMemory
    }
}

impl Store {
    /// A store of these layers, which told nothing.
    pub fn new(alloc: Global, layers: Vec<Box<dyn Layer>>) -> Store
        ensures layers { result.layers.items ≡ layers.items }
        ensures told { result.told ≡ [] }
    {
        Store {
            alloc,
            layers,
            told: Text::new(alloc),
        }
    }

    /// The topmost place of the plan that has the item.
    pub fn holder(&self, plan: &Plan, name: &Name) -> Option<usize>
        requires { IsOver (shape plan.now) (length self.now.layers.items) }
        ensures { result ≡ holder (store_of state self.now).layers (shape plan.now) name.now }
    {
        holder_in(&self.layers, plan, name)
    }

    /// The item of the topmost place of the plan that has it.
    pub fn look(&self, plan: &Plan, name: &Name) -> Option<&Item>
        requires { IsOver (shape plan.now) (length self.now.layers.items) }
        ensures { option_copied result ≡ look (store_of state self.now).layers (shape plan.now) name.now }
    {
        look_in(&self.layers, plan, name)
    }

    /// The same for bytes that needn't be a name, as where a field names an item.
    pub fn seek(&self, plan: &Plan, name: &[u8]) -> Option<&Item>
        requires { IsOver (shape plan.now) (length self.now.layers.items) }
        ensures { option_copied result ≡ look (store_of state self.now).layers (shape plan.now) name.now }
    {
        seek_in(&self.layers, plan, name)
    }

    /// The item that is seen below the topmost place of the plan that has it.
    pub fn look_below(&self, plan: &Plan, name: &Name) -> Option<&Item>
        requires { IsOver (shape plan.now) (length self.now.layers.items) }
        ensures { option_copied result ≡ look_below (store_of state self.now).layers (shape plan.now) name.now }
    {
        look_below_in(&self.layers, plan, name)
    }

    /// Whether a place of the plan below the holder has an item of this name too.
    pub fn has_below(&self, plan: &Plan, name: &Name) -> bool
        requires { IsOver (shape plan.now) (length self.now.layers.items) }
        ensures { result ≡ has_below (store_of state self.now).layers (shape plan.now) name.now }
    {
        has_below_in(&self.layers, plan, name)
    }

    /// Whether there is an item, and it can be changed where it is or above.
    pub fn can_change(&self, plan: &Plan, name: &Name, kind: Option<Kind>) -> Mem<bool>
        requires { IsOver (shape plan.now) (length self.now.layers.items) }
        ensures { IfOk result (λ is. is ≡ can_change (store_of state self.now).layers (shape plan.now) name.now kind) }
    {
        match can_change_in(&self.layers, plan, name, kind) {
            Ok(is) => Ok(is),
            Err(error) => Err(error),
        }
    }

    /// Whether a write would be taken.
    pub fn would_take(&self, plan: &Plan, name: &Name, kind: Option<Kind>, op: &Op) -> Mem<bool>
        requires { IsOver (shape plan.now) (length self.now.layers.items) }
        ensures { IfOk result (λ is. is ≡ would_take (store_of state self.now).layers (shape plan.now) name.now kind op.now) }
    {
        match would_take_in(&self.layers, plan, name, kind, op) {
            Ok(is) => Ok(is),
            Err(error) => Err(error),
        }
    }

    /// Does an operation on the item of a name, of which the kind may be known. `Refused` comes exactly where the plan refuses, and
    /// then nothing changed and nothing was told.
    pub fn change(
        &mut self,
        plan: &Plan,
        name: &Name,
        kind: Option<Kind>,
        op: &Op,
    ) -> Result<(), StoreError>
        requires { IsOver (shape plan.now) (length self.old.layers.items) }
        ensures ok { OnOk result (write (store_of state self.old) (shape plan.now) name.now kind op.now ≡ Some (store_of state self.new)) }
        ensures refused { result ≡ Err StoreError.Refused → would_take (store_of state self.old).layers (shape plan.now) name.now kind op.now ≡ false }
        ensures unchanged { result ≡ Err StoreError.Refused → store_of state self.new ≡ store_of state self.old }
        ensures frame { IsSameStoreBut name.now (store_of state self.old) (store_of state self.new) }
    {
        match write_in(
            self.alloc,
            &mut self.layers,
            &mut self.told,
            plan,
            name,
            kind,
            op,
        ) {
            Ok(()) => Ok(()),
            Err(error) => Err(error),
        }
    }

    /// Tries an operation on the topmost place of the plan alone, where it isn't under a backup, and answers whether it was done: it makes
    /// no item, and the layer is writable and has one. Then it is the change of an item of any kind. Where it isn't done, nothing changed.
    pub fn change_on_top(&mut self, plan: &Plan, name: &Name, op: &Op) -> Mem<bool>
        requires { IsOver (shape plan.now) (length self.old.layers.items) }
        ensures there { result ≡ Ok true → is_some (look (store_of state self.old).layers (shape plan.now) name.now) ≡ true }
        ensures done { result ≡ Ok true → (kind : Option KindOf)
            → write (store_of state self.old) (shape plan.now) name.now kind op.now ≡ Some (store_of state self.new) }
        ensures not_done { result ≡ Ok false → store_of state self.new ≡ store_of state self.old }
        ensures frame { IsSameStoreBut name.now (store_of state self.old) (store_of state self.new) }
    {
        match write_on_top(self.alloc, &mut self.layers, &mut self.told, plan, name, op) {
            Ok(is_done) => Ok(is_done),
            Err(error) => Err(error),
        }
    }

    /// Each name that a place of the plan has that is asked, once, in byte order.
    pub fn names(&self, plan: &Plan) -> Mem<List<Name>>
        requires { IsOver (shape plan.now) (length self.now.layers.items) }
        ensures { IfOk result (λ list. list ≡ names (store_of state self.now).layers (shape plan.now)) }
    {
        let places = places_in(self.alloc, plan)?;
        let names = names_in(self.alloc, self.layers.as_slice(), places.as_slice())?;
        in_order(self.alloc, names)
    }

    /// Those of the names of which the item that is seen has the owner. Only names that some layer has for the owner are copied.
    pub fn owned(&self, plan: &Plan, owner: &Name) -> Mem<List<Name>>
        requires { IsOver (shape plan.now) (length self.now.layers.items) }
        ensures { IfOk result (λ list. list ≡ owned (store_of state self.now).layers (shape plan.now) owner.now) }
    {
        let places = places_in(self.alloc, plan)?;
        let layers = self.layers.as_slice();
        let listed = owned_names_in(self.alloc, layers, places.as_slice(), owner)?;
        let names = in_order(self.alloc, listed)?;
        owned_in(self.alloc, &self.layers, plan, &names, owner)
    }

    /// Hands out the lines that were told and forgets them.
    pub fn take_told(&mut self) -> Text
        ensures told { result ≡ self.old.told }
        ensures forgotten { self.new.told ≡ [] }
        ensures layers { self.new.layers.items ≡ self.old.layers.items }
    {
        std::mem::replace(&mut self.told, Text::new(self.alloc))
    }
}
