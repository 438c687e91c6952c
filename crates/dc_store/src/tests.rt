// Plans that are trees, over layers in memory.
ghost use Rattle.std.specs.Prelude.{◌≡◌, ◌<◌, ℕ, length};
ghost use Rattle.dc_conf.specs.Trees.{shape, shapes};
ghost use Rattle.dc_conf.specs.Plans.{IsOver, AreOver};

use crate::{Store, StoreError};
use dc_conf::plans::{Plan, PlanList};
use dc_conf::{LayerSort, LayerSpec};
use dc_item::{Item, Op, read_records};
use dc_layer::{FileLayer, Layer};
use dc_text::{FieldKey, List, Name, Text, settle};
use std::alloc::Global;
use std::process::Abort;

// How a layer of a test is.
#[derive(Clone, Copy)]
enum Is {
    Open,
    // It takes no change.
    Closed,
    // It takes no name that begins with `a/`.
    Picky,
}

// A layer in a file, which holds the records.
fn layer(rt: &impl Abort, alloc: Global, is: Is, records: &[u8]) -> Box<dyn Layer> {
    let mut layer = FileLayer::blank(alloc);
    let spec = LayerSpec {
        name: Text::new(alloc),
        sort: LayerSort::File,
        place: Text::new(alloc),
        extension: Text::new(alloc),
        mode: 0o600,
        backup: false,
        infd: false,
        outfd: false,
        readonly: matches!(is, Is::Closed),
        required: true,
        accept_name: None,
        reject_name: match is {
            Is::Picky => Some(Text::from_bytes(alloc, b"^a/").expect(rt, "memory")),
            _ => None,
        },
        accept_type: None,
        reject_type: None,
    };
    layer.set_up(spec).expect(rt, "a layer");
    let records = read_records(alloc, records).expect(rt, "records");
    layer.take_all(records);
    Box::new(alloc, layer).expect(rt, "memory")
}

const OLD: &[u8] = b"Name: a/b\nTemplate: a/b\nValue: old\nOwners: p\n";

const NONE: &[u8] = b"";

// A store of these layers: each is how it is said, and has the item or hasn't.
fn store(rt: &impl Abort, alloc: Global, layers: [(Is, &[u8]); 4]) -> Store
    ensures { length result.layers.items ≡ 4 }
{
    let [first, second, third, fourth] = layers;
    let mut list: Vec<Box<dyn Layer>> = Vec::new(alloc);
    list.push(layer(rt, alloc, first.0, first.1))
        .expect(rt, "memory");
    list.push(layer(rt, alloc, second.0, second.1))
        .expect(rt, "memory");
    list.push(layer(rt, alloc, third.0, third.1))
        .expect(rt, "memory");
    list.push(layer(rt, alloc, fourth.0, fourth.1))
        .expect(rt, "memory");
    Store::new(alloc, list)
}

// ---- plans

fn stack(rt: &impl Abort, alloc: Global, first: Plan, second: Plan) -> Plan
    ensures { (count : ℕ) → IsOver (shape first) count → IsOver (shape second) count → IsOver (shape result) count }
{
    let none = Box::new(alloc, PlanList::End).expect(rt, "memory");
    let second = Box::new(alloc, second).expect(rt, "memory");
    let rest = Box::new(alloc, PlanList::More(second, none)).expect(rt, "memory");
    let first = Box::new(alloc, first).expect(rt, "memory");
    Plan::Stack(PlanList::More(first, rest))
}

fn backup(rt: &impl Abort, alloc: Global, first: Plan, second: Plan) -> Plan
    ensures { (count : ℕ) → IsOver (shape first) count → IsOver (shape second) count → IsOver (shape result) count }
{
    let first = Box::new(alloc, first).expect(rt, "memory");
    let second = Box::new(alloc, second).expect(rt, "memory");
    Plan::Backup(first, second)
}

fn debug(rt: &impl Abort, alloc: Global, plan: Plan) -> Plan
    ensures { (count : ℕ) → IsOver (shape plan) count → IsOver (shape result) count }
{
    Plan::Debug(Box::new(alloc, plan).expect(rt, "memory"))
}

// ---- what a write leaves

// Adds the value of an item, or a mark where there is none.
fn add_value(rt: &impl Abort, text: &mut Text, item: Option<&Item>) {
    match item {
        None => text.push(b'-').expect(rt, "memory"),
        Some(item) => {
            let value = item.field(b"value").expect(rt, "a value");
            text.append(value).expect(rt, "memory");
        }
    }
    text.push(b' ').expect(rt, "memory");
}

// The values of the item in all layers, and what was told.
fn left(rt: &impl Abort, alloc: Global, store: &mut Store) -> Text
    requires { length store.old.layers.items ≡ 4 }
{
    let name = Name::read(alloc, b"a/b").expect(rt, "a name");
    let mut text = Text::new(alloc);
    for place in 0usize..4 {
        add_value(rt, &mut text, store.look(&Plan::Leaf(place), &name));
    }
    let told = store.take_told();
    text.append(told.bytes()).expect(rt, "memory");
    text
}

// What `SET a/b new` leaves, or that it is refused.
fn set(rt: &impl Abort, alloc: Global, store: &mut Store, plan: &Plan) -> Text
    requires over { IsOver (shape plan.now) 4 }
    requires count { length store.old.layers.items ≡ 4 }
{
    let name = Name::read(alloc, b"a/b").expect(rt, "a name");
    let key = FieldKey::read(alloc, b"value").expect(rt, "a key");
    let op = Op::SetField(key, settle(alloc, b"new").expect(rt, "memory"));
    change(rt, alloc, store, plan, &name, &op)
}

// What is left once the owner `p` goes.
fn drop_owner(rt: &impl Abort, alloc: Global, store: &mut Store, plan: &Plan) -> Text
    requires over { IsOver (shape plan.now) 4 }
    requires count { length store.old.layers.items ≡ 4 }
{
    let name = Name::read(alloc, b"a/b").expect(rt, "a name");
    let mut owners = List::new(alloc);
    let owner = Name::read(alloc, b"p").expect(rt, "a name");
    owners.push(owner).expect(rt, "memory");
    change(rt, alloc, store, plan, &name, &Op::DropOwners(owners))
}

fn change(
    rt: &impl Abort,
    alloc: Global,
    store: &mut Store,
    plan: &Plan,
    name: &Name,
    op: &Op,
) -> Text
    requires over { IsOver (shape plan.now) 4 }
    requires count { length store.old.layers.items ≡ 4 }
{
    let would = store.would_take(plan, name, None, op).expect(rt, "memory");
    match store.change(plan, name, None, op) {
        Ok(()) => {
            assert!(rt; would);
            left(rt, alloc, store)
        }
        Err(StoreError::Refused) => {
            assert!(rt; !would);
            let mut text = Text::from_bytes(alloc, b"refused: ").expect(rt, "memory");
            text.append(left(rt, alloc, store).bytes())
                .expect(rt, "memory");
            text
        }
        Err(StoreError::OutOfMemory) => rt.abort(),
    }
}

fn same(rt: &impl Abort, text: Text, wanted: &str) {
    assert_eq!(rt; text.bytes(), wanted.as_bytes());
}

// The plan of a stack over the layer at 0 and a stack of this plan and the layer at 2.
fn nested(rt: &impl Abort, alloc: Global, mid: Plan) -> Plan
    requires { IsOver (shape mid) 4 }
    ensures { IsOver (shape result) 4 }
{
    let inner = stack(rt, alloc, mid, Plan::Leaf(2));
    stack(rt, alloc, Plan::Leaf(0), inner)
}

// What `SET a/b new` leaves, where the layer at 2 is closed and has an item, and that at 1 is so.
fn set_nested(rt: &impl Abort, alloc: Global, is: Is, mid: Plan) -> Text
    requires { IsOver (shape mid) 4 }
{
    let layers = [
        (Is::Open, NONE),
        (is, NONE),
        (Is::Closed, OLD),
        (Is::Open, NONE),
    ];
    let mut store = store(rt, alloc, layers);
    let plan = nested(rt, alloc, mid);
    set(rt, alloc, &mut store, &plan)
}

#[test]
fn a_copy_goes_to_the_innermost_stack_that_takes_it(rt: HostRuntime) {
    let text = set_nested(&rt, rt.alloc(), Is::Open, Plan::Leaf(1));
    same(&rt, text, "- new old - ");
    let text = set_nested(&rt, rt.alloc(), Is::Picky, Plan::Leaf(1));
    same(&rt, text, "new - old - ");
}

#[test]
fn a_plan_in_a_stack_tells_and_is_backed_up(rt: HostRuntime) {
    let mid = debug(&rt, rt.alloc(), Plan::Leaf(1));
    let text = set_nested(&rt, rt.alloc(), Is::Open, mid);
    same(&rt, text, "- new old - debug: put a/b\n");
    let mid = backup(&rt, rt.alloc(), Plan::Leaf(1), Plan::Leaf(3));
    let text = set_nested(&rt, rt.alloc(), Is::Open, mid);
    same(&rt, text, "- new old new ");
    let mid = debug(&rt, rt.alloc(), Plan::Leaf(1));
    let text = set_nested(&rt, rt.alloc(), Is::Picky, mid);
    same(&rt, text, "new - old - ");
}

// What `SET a/b new` leaves in a backup of the layer at 0 in that at 1, of which all are told.
fn set_both(rt: &impl Abort, alloc: Global, first: Is, second: Is) -> Text {
    let mut store = store(
        rt,
        alloc,
        [
            (first, OLD),
            (second, NONE),
            (Is::Open, NONE),
            (Is::Open, NONE),
        ],
    );
    let told = debug(rt, alloc, Plan::Leaf(0));
    let also = debug(rt, alloc, Plan::Leaf(1));
    let both = backup(rt, alloc, told, also);
    let plan = debug(rt, alloc, both);
    set(rt, alloc, &mut store, &plan)
}

#[test]
fn a_backup_is_written_after_what_is_taken(rt: HostRuntime) {
    let text = set_both(&rt, rt.alloc(), Is::Open, Is::Open);
    same(
        &rt,
        text,
        "new new - - debug: set-field a/b\ndebug: put a/b\ndebug: set-field a/b\n",
    );
    let text = set_both(&rt, rt.alloc(), Is::Open, Is::Picky);
    same(
        &rt,
        text,
        "new - - - debug: set-field a/b\ndebug: set-field a/b\n",
    );
    let text = set_both(&rt, rt.alloc(), Is::Closed, Is::Open);
    same(&rt, text, "refused: old - - - ");
}

#[test]
fn what_goes_in_the_first_goes_in_the_second(rt: HostRuntime) {
    let layers = [
        (Is::Open, OLD),
        (Is::Open, OLD),
        (Is::Open, NONE),
        (Is::Open, NONE),
    ];
    let mut store = store(&rt, rt.alloc(), layers);
    let plan = backup(&rt, rt.alloc(), Plan::Leaf(0), Plan::Leaf(1));
    let text = drop_owner(&rt, rt.alloc(), &mut store, &plan);
    same(&rt, text, "- - - - ");
}

// What `SET a/b new` leaves in a stack of the layers at 1 and 2, of which that at 2 is closed and has an item.
#[test]
fn flat_stacks_copy_refuse_and_let_go(rt: HostRuntime) {
    let plan = stack(&rt, rt.alloc(), Plan::Leaf(1), Plan::Leaf(2));
    let layers = [
        (Is::Open, NONE),
        (Is::Open, NONE),
        (Is::Closed, OLD),
        (Is::Open, NONE),
    ];
    let mut used = store(&rt, rt.alloc(), layers);
    let text = set(&rt, rt.alloc(), &mut used, &plan);
    same(&rt, text, "- new old - ");
    let layers = [
        (Is::Open, NONE),
        (Is::Picky, NONE),
        (Is::Closed, OLD),
        (Is::Open, NONE),
    ];
    let mut used = store(&rt, rt.alloc(), layers);
    let text = set(&rt, rt.alloc(), &mut used, &plan);
    same(&rt, text, "refused: - - old - ");
    let layers = [
        (Is::Open, NONE),
        (Is::Open, OLD),
        (Is::Closed, OLD),
        (Is::Open, NONE),
    ];
    let mut used = store(&rt, rt.alloc(), layers);
    let text = drop_owner(&rt, rt.alloc(), &mut used, &plan);
    same(&rt, text, "- - old - ");
    let layers = [
        (Is::Open, NONE),
        (Is::Open, NONE),
        (Is::Closed, OLD),
        (Is::Open, NONE),
    ];
    let mut used = store(&rt, rt.alloc(), layers);
    let text = drop_owner(&rt, rt.alloc(), &mut used, &plan);
    same(&rt, text, "refused: - - old - ");
}
