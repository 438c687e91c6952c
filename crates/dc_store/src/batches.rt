// Rows of writes.
ghost use Rattle.std.specs.Prelude.{◌≡◌, ◌∷◌, ◌++◌, [], ◌<◌, Some, None, Ok, Err, IfOk, IfSome, MatchOption, OnOk, OnErr, length, slice_get, true, false, not, map as each};
ghost use Rattle.std.specs.List.{All, list_any};
ghost use Rattle.std.specs.Option.{option_copied};
ghost use Rattle.std.specs.Str.{bytes_eq};
ghost use Rattle.dc_conf.specs.Trees.{shape};
ghost use Rattle.dc_conf.specs.Plans.{IsOver, leaves};
ghost use Rattle.dc_item.specs.declared.op.Op.TheVariants.{Put};
ghost use Rattle.dc_store.specs.Plans.{write as write_of, would_take};
ghost use Rattle.dc_store.specs.Batches.{is_refused, refused_names, first_refused, write_done, all_done, commit, AllDistinct, AreOver, names_of};
ghost use Rattle.dc_layer.specs.State.{LayerState, after_change, refusal};
ghost use Rattle.dc_store.specs.Targets.{IsTarget, AreTargets, LandsAt};
ghost use Rattle.dc_store.specs.StoreLaws.{IsSameStoreBut, IsSameStoreButAll};
ghost use Rattle.dc_store.specs.Views.{store_of};
ghost use Rattle.dc_store.specs.Writes.{change_at, put_target};

use crate::batch::{Batch, ReportedFor, Target, Write};
use crate::boxes::land_in;
use crate::landings::{is_plain, landing_in};
use crate::leaves::is_put_op;
use crate::listing::append;
use crate::store::{Store, StoreError};
use dc_conf::plans::Plan;
use dc_item::{Item, Op};
use dc_layer::Layer;
use dc_template::Kind;
use dc_text::{List, Mem, Name, OutOfMemory};

impl Store {
    /// Does all the writes in order, or none where one of them would be refused. They are on different items. They are taken out of
    /// the row where they are done, and stay in it after a refusal.
    pub fn commit(&mut self, batch: &mut Batch<'_>) -> Result<(), StoreError>
        requires over { AreOver batch.old (length self.old.layers.items) }
        requires distinct { AllDistinct batch.old }
        ensures ok { OnOk result (commit (store_of state self.old) batch.old ≡ Some (store_of state self.new)) }
        ensures refused { result ≡ Err StoreError.Refused → commit (store_of state self.old) batch.old ≡ None }
        ensures unchanged { result ≡ Err StoreError.Refused → store_of state self.new ≡ store_of state self.old }
        ensures stays { result ≡ Err StoreError.Refused → batch.new ≡ batch.old }
        ensures frame { IsSameStoreButAll (names_of batch.old) (store_of state self.old) (store_of state self.new) }
    {
        let Some(targets) = self.targets(batch.as_slice())? else {
            return Err(StoreError::Refused);
        };
        self.do_all(batch.take_all(), targets.as_slice())?;
        Ok(())
    }

    // Where the writes land, or nothing where one of them would be refused.
    fn targets(&self, batch: &[Write<'_>]) -> Mem<Option<Vec<Target>>>
        requires { AreOver batch.now (length self.now.layers.items) }
        ensures refused { result ≡ Ok None → list_any (is_refused (store_of state self.now).layers) batch.now ≡ true }
        ensures taken { IfOk result (λ found. IfSome found (λ _. list_any (is_refused (store_of state self.now).layers) batch.now ≡ false)) }
        ensures targets { IfOk result (λ found. IfSome found (λ targets. AreTargets (store_of state self.now).layers batch.now targets.items)) }
    {
        let mut targets = Vec::with_capacity(self.alloc, batch.len())?;
        for write in batch {
            match self.put_target(write)? {
                Target::Nowhere => return Ok(None),
                put_target => targets.push(put_target)?,
            }
        }
        Ok(Some(targets))
    }

    // Where the write lands.
    fn put_target(&self, write: &Write<'_>) -> Mem<Target>
        requires { IsOver write.now.plan (length self.now.layers.items) }
        ensures { IfOk result (λ found. IsTarget (store_of state self.now).layers write.now found) }
    {
        if is_put_op(&write.op) && is_plain(write.plan) {
            if let Some(place) = self.landing_of(write)? {
                return Ok(Target::At(place));
            }
        }
        if self.refuses(write)? {
            return Ok(Target::Nowhere);
        }
        Ok(Target::Anywhere)
    }

    // The place where an item lands as it is.
    fn landing_of(&self, write: &Write<'_>) -> Mem<Option<usize>>
        requires { IsOver write.now.plan (length self.now.layers.items) }
        ensures { IfOk result (λ place. place ≡ put_target (each state self.now.layers.items) (leaves write.now.plan) write.now.name write.now.kind) }
    {
        match landing_in(&self.layers, write.plan, &write.name, write.kind) {
            Ok(place) => Ok(place),
            Err(error) => Err(error),
        }
    }

    /// The first of the names for which a write of the row would be refused.
    pub fn first_refused<'n>(&self, names: &'n [Name], batch: &[Write<'_>]) -> Mem<Option<&'n Name>>
        requires { AreOver batch.now (length self.now.layers.items) }
        ensures { IfOk result (λ found. option_copied found ≡ first_refused (store_of state self.now).layers names.now batch.now) }
    {
        let held = self.refused_names(batch)?;
        for name in names {
            if is_among(name, held.as_slice()) {
                return Ok(Some(name));
            }
        }
        Ok(None)
    }

    // The names for which a write of the row would be refused.
    fn refused_names(&self, batch: &[Write<'_>]) -> Mem<List<Name>>
        requires { AreOver batch.now (length self.now.layers.items) }
        ensures { IfOk result (λ names. names ≡ refused_names (store_of state self.now).layers batch.now) }
    {
        let mut names = List::new(self.alloc);
        for write in batch {
            if self.refuses(write)? {
                append_names(&mut names, write)?;
            }
        }
        Ok(names)
    }

    fn refuses(&self, write: &Write<'_>) -> Mem<bool>
        requires { IsOver write.now.plan (length self.now.layers.items) }
        ensures { IfOk result (λ is. is ≡ is_refused (store_of state self.now).layers write.now) }
    {
        Ok(!self.would_take(write.plan, &write.name, write.kind, &write.op)?)
    }

    // Does all the writes in order. None of them is refused, and the first of them land where these landings tell.
    fn do_all(&mut self, batch: Vec<Write<'_>>, targets: &[Target]) -> Mem<()>
        requires over { AreOver batch.items (length self.old.layers.items) }
        requires distinct { AllDistinct batch.items }
        requires taken { list_any (is_refused (store_of state self.old).layers) batch.items ≡ false }
        requires targets { AreTargets (store_of state self.old).layers batch.items targets.now }
        ensures ok { OnOk result (all_done (store_of state self.old) batch.entry.items ≡ store_of state self.new) }
        ensures frame { IsSameStoreButAll (names_of batch.entry.items) (store_of state self.old) (store_of state self.new) }
    {
        let mut writes = batch.into_iter();
        let mut rest = targets;
        while let Some(write) = writes.next() {
            let (put_target, more) = first_landing(rest);
            self.do_one(write, put_target)?;
            rest = more;
        }
        Ok(())
    }

    // Does a write that isn't refused, and that lands there if its landing is told.
    fn do_one(&mut self, write: Write<'_>, put_target: Option<Target>) -> Mem<()>
        requires over { IsOver write.plan (length self.old.layers.items) }
        requires taken { is_refused (store_of state self.old).layers write ≡ false }
        requires put_target { IfSome put_target (IsTarget (store_of state self.old).layers write) }
        ensures ok { OnOk result (write_done (store_of state self.old) write.entry ≡ Some (store_of state self.new)) }
        ensures frame { IsSameStoreBut write.entry.name (store_of state self.old) (store_of state self.new) }
    {
        match put_target {
            Some(Target::At(place)) => self.land(place, write),
            _ => self.do_op(write.plan, &write.name, write.kind, &write.op),
        }
    }

    // Does a write that lands at the place. Its item isn't copied.
    fn land(&mut self, place: usize, write: Write<'_>) -> Mem<()>
        requires over { IsOver write.plan (length self.old.layers.items) }
        requires lands { LandsAt (store_of state self.old).layers write place }
        ensures ok { OnOk result (write_done (store_of state self.old) write.entry ≡ Some (store_of state self.new)) }
        ensures frame { IsSameStoreBut write.entry.name (store_of state self.old) (store_of state self.new) }
    {
        let Write {
            plan: _,
            name,
            kind: _,
            op,
            reported_for: _,
        } = write;
        match op {
            Op::Put(item) => {
                self.put_at(place, name, item)?;
                Ok(())
            }
            _ => unreachable!(),
        }
    }

    // Puts an item to the layer at a place, which takes it.
    fn put_at(&mut self, place: usize, name: Name, item: Item) -> Mem<()>
        requires within { place < length self.old.layers.items }
        requires taken { (layer : LayerState) → slice_get (each state self.old.layers.items) place ≡ Some layer → refusal layer name (Put item) ≡ None }
        ensures ok { OnOk result (each state self.new.layers.items ≡ change_at (each state self.old.layers.items) place
            (λ layer. after_change layer name (Put item))) }
        ensures err { OnErr result (each state self.new.layers.items ≡ each state self.old.layers.items) }
        ensures told { self.new.told ≡ self.old.told }
        ensures count { length self.new.layers.items ≡ length self.old.layers.items }
    {
        land_in(self.layers.as_mut_slice(), place, name, item)
    }

    // Does an operation, by a write that isn't refused.
    fn do_op(&mut self, plan: &Plan, name: &Name, kind: Option<Kind>, op: &Op) -> Mem<()>
        requires over { IsOver (shape plan.now) (length self.old.layers.items) }
        requires taken { would_take (store_of state self.old).layers (shape plan.now) name.now kind op.now ≡ true }
        ensures ok { OnOk result (write_of (store_of state self.old) (shape plan.now) name.now kind op.now ≡ Some (store_of state self.new)) }
        ensures frame { IsSameStoreBut name.now (store_of state self.old) (store_of state self.new) }
    {
        match self.change(plan, name, kind, op) {
            Ok(()) => Ok(()),
            Err(StoreError::OutOfMemory) => Err(OutOfMemory),
            Err(StoreError::Refused) => unreachable!(),
        }
    }
}

// The first of the landings, and those behind it.
fn first_landing(targets: &[Target]) -> (Option<Target>, &[Target])
    ensures { MatchOption result.0 ((targets.now ≡ []) × (result.1.now ≡ [])) (λ first. targets.now ≡ first ∷ result.1.now) }
{
    match targets {
        [] => (None, targets),
        [first, rest @ ..] => (Some(*first), rest),
    }
}

// Adds the names for which the write is done at the end.
fn append_names(names: &mut List<Name>, write: &Write<'_>) -> Mem<()>
    ensures { OnOk result (names.new ≡ names.old ++ write.now.reported_for) }
{
    match &write.reported_for {
        ReportedFor::Itself => names.push(write.name.copy()?),
        ReportedFor::Names(others) => append(names, others),
    }
}

fn is_among(name: &Name, names: &[Name]) -> bool
    ensures { result ≡ list_any (bytes_eq name.now) names.now }
{
    names.iter().any(|other| name.bytes() == other.bytes())
}
