// What `copydb` copies.
ghost use Rattle.std.specs.Prelude.{◌≡◌, ◌∷◌, [], IfOk, OnOk, Some, None, Ok, length, option_map, true, false, if◌then◌else◌};
ghost use Rattle.std.specs.Option.{option_copied, option_map_or};
ghost use Rattle.std.specs.FinMap as map;
ghost use Rattle.std.specs.List.{list_any};
ghost use Rattle.dc_conf.specs.Trees.{shape};
ghost use Rattle.dc_conf.specs.Plans.{IsOver, are_disjoint};
ghost use Rattle.dc_store.specs.Batches.{write_done};
ghost use Rattle.dc_store.specs.Plans.{look as look_of, names as names_of};
ghost use Rattle.dc_store.specs.StoreLaws.{IsSameStoreBut, IsSameStoreButAll};
ghost use Rattle.dc_store.specs.Views.{store_in};
ghost use Rattle.dc_question.specs.Readings.{template_of};
ghost use Rattle.dc_tools.specs.Copying.{finds, is_chosen as is_chosen_by, chosen_at as chosen_at_of, kind_copied as kind_copied_of, copy_write as copy_write_of, so_far, after_copy, after_names, IsCopied};

use crate::report::CopyReport;
use dc_conf::plans::Plan;
use dc_item::{Item, Op};
use dc_layer::{Layer, Pattern};
use dc_question::kind;
use dc_store::{Batch, ReportedFor, Store, StoreError, Write};
use dc_template::Kind;
use dc_text::{Mem, Name, OutOfMemory};
use std::alloc::Global;
use std::marker::Model;

// A copy: its source and its destination, where the templates stand, and the patterns for names and for owners.
#[derive(Drop)]
struct CopyTask<'c> {
    alloc: Global,
    source: &'c Plan,
    dest: &'c Plan,
    templates: &'c Plan,
    by_name: Option<&'c Pattern>,
    by_owner: Option<&'c Pattern>,
}

impl<'c> Model for CopyTask<'c> {
    ghost use Rattle.std.specs.Option.{option_copied};
    ghost use Rattle.std.specs.Coded.{codes};
    ghost use Rattle.dc_conf.specs.Trees.{shape};
    ghost use Rattle.dc_store.specs.TreeCodes.{tree_code};
    ghost use Rattle.dc_tools.specs.Copying.{Copying};

    ghost Value = { Copying };

    ghost coded = { Prim.hlevel (codes, tree_code) };

    ghost view = { λ c. record {
      source = shape c.source.now;
      dest = shape c.dest.now;
      templates = shape c.templates.now;
      by_name = option_copied c.by_name;
      by_owner = option_copied c.by_owner;
    } };
}

/// Puts the items of the source into the destination, in byte order of their names, and reports what is told of them: of each what the
/// destination tells, or that it is refused (debconf-copydb(1)). What the store told before stands first. With a pattern for names those
/// are copied in whose name it is found, and with one for owners those in one of whose owners it is. The kind of an item is what its
/// template says, else what it says itself. The two share no layer.
pub fn copy_items(
    store: &mut Store,
    source: &Plan,
    dest: &Plan,
    templates: &Plan,
    names: Option<&Pattern>,
    owners: Option<&Pattern>,
) -> Mem<CopyReport>
    requires source { IsOver (shape source.now) (length store.old.layers.items) }
    requires dest { IsOver (shape dest.now) (length store.old.layers.items) }
    requires templates { IsOver (shape templates.now) (length store.old.layers.items) }
    requires apart { are_disjoint (shape source.now) (shape dest.now) ≡ true }
    ensures copied { IfOk result (IsCopied (record {
      source = shape source.now;
      dest = shape dest.now;
      templates = shape templates.now;
      by_name = option_copied names.entry;
      by_owner = option_copied owners.entry;
    }) (store_in state store.old) (store_in state store.new)) }
    ensures frame { IsSameStoreButAll (names_of (store_in state store.old).layers (shape source.now)) (store_in state store.old) (store_in state store.new) }
{
    let alloc = *store.layers.allocator();
    let listed = store.names(source)?;
    let copy = CopyTask {
        alloc,
        source,
        dest,
        templates,
        by_name: names,
        by_owner: owners,
    };
    let mut report = CopyReport::new(store.take_told());
    copy.copy_all(store, listed.as_slice(), &mut report)?;
    Ok(report)
}

impl<'c> CopyTask<'c> {
    // Copies those of the names that are chosen.
    fn copy_all(&self, store: &mut Store, names: &[Name], report: &mut CopyReport) -> Mem<()>
        requires source { IsOver self.now.source (length store.old.layers.items) }
        requires dest { IsOver self.now.dest (length store.old.layers.items) }
        requires templates { IsOver self.now.templates (length store.old.layers.items) }
        requires apart { are_disjoint self.now.source self.now.dest ≡ true }
        requires untold { store.old.told ≡ [] }
        ensures copied { OnOk result (so_far (store_in state store.new) report.new
            ≡ after_names self.now (so_far (store_in state store.old) report.old) names.now) }
        ensures taken { OnOk result (store.new.told ≡ []) }
        ensures frame { IsSameStoreButAll names.now (store_in state store.old) (store_in state store.new) }
    {
        let mut rest = names;
        while let [name, others @ ..] = rest {
            self.copy_named(store, name, report)?;
            rest = others;
        }
        Ok(())
    }

    // Copies the item of the name, where it is chosen.
    fn copy_named(&self, store: &mut Store, name: &Name, report: &mut CopyReport) -> Mem<()>
        requires source { IsOver self.now.source (length store.old.layers.items) }
        requires dest { IsOver self.now.dest (length store.old.layers.items) }
        requires templates { IsOver self.now.templates (length store.old.layers.items) }
        requires untold { store.old.told ≡ [] }
        ensures copied { OnOk result (so_far (store_in state store.new) report.new
            ≡ after_names self.now (so_far (store_in state store.old) report.old) (name.now ∷ [])) }
        ensures taken { OnOk result (store.new.told ≡ []) }
        ensures frame { IsSameStoreBut name.now (store_in state store.old) (store_in state store.new) }
    {
        match self.chosen_at(store, name)? {
            None => Ok(()),
            Some(item) => self.copy_item(store, name, item, report),
        }
    }

    // Copies the item, and reports what is told of it.
    fn copy_item(
        &self,
        store: &mut Store,
        name: &Name,
        item: Item,
        report: &mut CopyReport,
    ) -> Mem<()>
        requires dest { IsOver self.now.dest (length store.old.layers.items) }
        requires templates { IsOver self.now.templates (length store.old.layers.items) }
        requires untold { store.old.told ≡ [] }
        ensures copied { OnOk result (so_far (store_in state store.new) report.new
            ≡ after_copy self.now (so_far (store_in state store.old) report.old) (name.now, item)) }
        ensures taken { OnOk result (store.new.told ≡ []) }
        ensures frame { IsSameStoreBut name.now (store_in state store.old) (store_in state store.new) }
    {
        match self.put_item(store, name, item)? {
            true => report.tell_put(&store.take_told()),
            false => report.tell_refusal(name),
        }
    }

    // A copy of the item that is seen under the name, where it is chosen.
    fn chosen_at(&self, store: &Store, name: &Name) -> Mem<Option<Item>>
        requires { IsOver self.now.source (length store.now.layers.items) }
        ensures { IfOk result (λ found. option_map (λ item. (name.now, item)) found ≡ chosen_at_of (store_in state store.now).layers self.now name.now) }
    {
        match store.look(self.source, name) {
            None => Ok(None),
            Some(item) => self.copy_if_chosen(name, item),
        }
    }

    // A copy of the item, where it is chosen.
    fn copy_if_chosen(&self, name: &Name, item: &Item) -> Mem<Option<Item>>
        ensures { IfOk result (λ found. found ≡ (if is_chosen_by self.now name.now item.now then Some item.now else None)) }
    {
        if self.is_chosen(name, item)? {
            Ok(Some(item.copy()?))
        } else {
            Ok(None)
        }
    }

    // Whether the patterns that are there are found in the name and in one of the owners.
    fn is_chosen(&self, name: &Name, item: &Item) -> Mem<bool>
        ensures { IfOk result (λ is. is ≡ is_chosen_by self.now name.now item.now) }
    {
        Ok(
            is_found(self.alloc, self.by_name, name.bytes())?
                && is_found_in_owner(self.alloc, self.by_owner, item)?,
        )
    }

    // Puts the item into the destination, and answers whether it was taken.
    fn put_item(&self, store: &mut Store, name: &Name, item: Item) -> Mem<bool>
        requires dest { IsOver self.now.dest (length store.old.layers.items) }
        requires templates { IsOver self.now.templates (length store.old.layers.items) }
        ensures put { result ≡ Ok true → write_done (store_in state store.old) (copy_write_of (store_in state store.old).layers self.now (name.now, item))
            ≡ Some (store_in state store.new) }
        ensures refused { result ≡ Ok false
            → (write_done (store_in state store.old) (copy_write_of (store_in state store.old).layers self.now (name.now, item)) ≡ None)
            × (store_in state store.new ≡ store_in state store.old) }
        ensures frame { IsSameStoreBut name.now (store_in state store.old) (store_in state store.new) }
    {
        let mut batch = self.copy_batch(store, name, item)?;
        match store.commit(&mut batch) {
            Ok(()) => Ok(true),
            Err(StoreError::Refused) => Ok(false),
            Err(StoreError::OutOfMemory) => Err(OutOfMemory),
        }
    }

    // The write that puts the item into the destination, alone. The item isn't copied where it lands.
    fn copy_batch(&self, store: &Store, name: &Name, item: Item) -> Mem<Batch<'c>>
        requires { IsOver self.now.templates (length store.now.layers.items) }
        ensures { IfOk result (λ batch. batch ≡ copy_write_of (store_in state store.now).layers self.now (name.now, item) ∷ []) }
    {
        let mut batch = Batch::with_capacity(self.alloc, 1)?;
        batch.push(self.copy_write(store, name, item)?)?;
        Ok(batch)
    }

    // The write that puts the item into the destination.
    fn copy_write(&self, store: &Store, name: &Name, item: Item) -> Mem<Write<'c>>
        requires { IsOver self.now.templates (length store.now.layers.items) }
        ensures { IfOk result (λ w. w ≡ copy_write_of (store_in state store.now).layers self.now (name.now, item)) }
    {
        Ok(Write {
            plan: self.dest,
            name: name.copy()?,
            kind: self.kind_copied(store, &item),
            op: Op::Put(item),
            reported_for: ReportedFor::Itself,
        })
    }

    // The kind by which the copy of the item is tested: what its template says, else what it says itself.
    fn kind_copied(&self, store: &Store, item: &Item) -> Option<Kind>
        requires { IsOver self.now.templates (length store.now.layers.items) }
        ensures { result ≡ kind_copied_of (store_in state store.now).layers self.now.templates item.now }
    {
        match kind(self.template(store, item)) {
            Some(kind) => Some(kind),
            None => kind(Some(item)),
        }
    }

    // The template of an item.
    fn template<'s>(&self, store: &'s Store, item: &Item) -> Option<&'s Item>
        requires { IsOver self.now.templates (length store.now.layers.items) }
        ensures { option_copied result ≡ template_of (look_of (store_in state store.now).layers self.now.templates) item.now }
    {
        let name = item.field(b"template")?;
        store.seek(self.templates, name)
    }
}

// Whether the pattern, if it is there, is found in the bytes.
fn is_found(alloc: Global, pattern: Option<&Pattern>, bytes: &[u8]) -> Mem<bool>
    ensures { IfOk result (λ is. is ≡ option_map_or (λ p. finds p bytes.now) (option_copied pattern.entry) true) }
{
    match pattern {
        None => Ok(true),
        Some(pattern) => pattern.found(alloc, bytes),
    }
}

// Whether the pattern, if it is there, is found in one of the item's owners.
fn is_found_in_owner(alloc: Global, pattern: Option<&Pattern>, item: &Item) -> Mem<bool>
    ensures { IfOk result (λ is. is ≡ option_map_or (λ p. list_any (finds p) (map.keys item.now.owners)) (option_copied pattern.entry) true) }
{
    match pattern {
        None => Ok(true),
        Some(pattern) => has_owner_with(alloc, pattern, item),
    }
}

fn has_owner_with(alloc: Global, pattern: &Pattern, item: &Item) -> Mem<bool>
    ensures { IfOk result (λ is. is ≡ list_any (finds pattern.now) (map.keys item.now.owners)) }
{
    for owner in item.owners() {
        if pattern.found(alloc, owner)? {
            return Ok(true);
        }
    }
    Ok(false)
}
