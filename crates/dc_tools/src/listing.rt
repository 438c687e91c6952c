// What `show` lists: owners, and databases.
ghost use Rattle.std.specs.Prelude.{◌≡◌, ◌∷◌, ◌++◌, [], IfOk, OnOk, length};
ghost use Rattle.std.specs.FinMap as map;
ghost use Rattle.std.specs.List.{flat_map};
ghost use Rattle.dc_text.specs.Ascii.{newline};
ghost use Rattle.dc_text.specs.Lines.{text_of};
ghost use Rattle.dc_text.specs.Maps.{set_of};
ghost use Rattle.dc_conf.specs.Trees.{shape};
ghost use Rattle.dc_conf.specs.Plans.{IsOver};
ghost use Rattle.dc_store.specs.Views.{store_in};
ghost use Rattle.dc_tools.specs.Listing.{owners_of, with_all, owners_text_of, databases_text_of};

use dc_conf::Conf;
use dc_conf::plans::Plan;
use dc_item::Item;
use dc_layer::Layer;
use dc_store::Store;
use dc_text::{Mem, Name, Text, TextMap};
use std::alloc::Global;

/// Each owner of an item that is seen in the plan, once, in byte order, in a line of its own (debconf-show(1), `--listowners`).
pub fn owners_text(store: &Store, plan: &Plan) -> Mem<Text>
    requires { IsOver (shape plan.now) (length store.now.layers.items) }
    ensures { IfOk result (λ text. text ≡ owners_text_of (store_in state store.now).layers (shape plan.now)) }
{
    let alloc = *store.layers.allocator();
    let names = store.names(plan)?;
    let owners = owners_among(alloc, store, plan, names.as_slice())?;
    lines_of_set(alloc, &owners)
}

// The owners of the items that are seen under the names.
fn owners_among(alloc: Global, store: &Store, plan: &Plan, names: &[Name]) -> Mem<TextMap<()>>
    requires { IsOver (shape plan.now) (length store.now.layers.items) }
    ensures { IfOk result (λ owners. owners ≡ set_of (flat_map (owners_of (store_in state store.now).layers (shape plan.now)) names.now)) }
{
    let mut owners = TextMap::new(alloc);
    for name in names {
        add_owners_at(alloc, &mut owners, store, plan, name)?;
    }
    Ok(owners)
}

// Adds the owners of the item that is seen under the name.
fn add_owners_at(
    alloc: Global,
    owners: &mut TextMap<()>,
    store: &Store,
    plan: &Plan,
    name: &Name,
) -> Mem<()>
    requires { IsOver (shape plan.now) (length store.now.layers.items) }
    ensures { OnOk result (owners.new ≡ with_all owners.old (owners_of (store_in state store.now).layers (shape plan.now) name.now)) }
{
    match store.look(plan, name) {
        None => Ok(()),
        Some(item) => add_owners(alloc, owners, item),
    }
}

// Adds the owners of the item.
fn add_owners(alloc: Global, owners: &mut TextMap<()>, item: &Item) -> Mem<()>
    ensures { OnOk result (owners.new ≡ with_all owners.old (map.keys item.now.owners)) }
{
    for owner in item.owners() {
        add_owner(alloc, owners, owner)?;
    }
    Ok(())
}

// Adds an owner. One that is there already isn't copied.
#[tactic(auto, using(crate::proofs::ListLemmas::insert_there))]
fn add_owner(alloc: Global, owners: &mut TextMap<()>, owner: &[u8]) -> Mem<()>
    ensures { OnOk result (owners.new ≡ map.insert owners.old owner.now tt) }
{
    if owners.contains(owner) {
        return Ok(());
    }
    owners.insert(Text::from_bytes(alloc, owner)?, ())
}

// The members of a set, each in a line of its own.
fn lines_of_set(alloc: Global, set: &TextMap<()>) -> Mem<Text>
    ensures { IfOk result (λ text. text ≡ text_of (map.keys set.now)) }
{
    let mut text = Text::new(alloc);
    for (member, _) in set.iter() {
        append_line(&mut text, member)?;
    }
    Ok(text)
}

/// The name of each database, in the order of the configuration's file, in a line of its own (debconf-show(1), `--listdbs`).
pub fn databases_text(alloc: Global, conf: &Conf) -> Mem<Text>
    ensures { IfOk result (λ text. text ≡ databases_text_of conf.now) }
{
    let mut text = Text::new(alloc);
    for name in conf.databases().as_slice() {
        append_line(&mut text, name.bytes())?;
    }
    Ok(text)
}

fn append_line(text: &mut Text, line: &[u8]) -> Mem<()>
    ensures { OnOk result (text.new ≡ text.old ++ (line.now ++ newline ∷ [])) }
{
    text.append(line)?;
    text.push(b'\n')
}
