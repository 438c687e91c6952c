// The tools, over layers in memory.
ghost use Rattle.std.specs.Prelude.{◌≡◌, length, true};
ghost use Rattle.dc_conf.specs.Trees.{shape, Leaf, Debug};
ghost use Rattle.dc_conf.specs.Plans.{IsOver, are_disjoint};

use crate::{copy_items, databases_text, owners_text, show_text};
use dc_conf::plans::Plan;
use dc_conf::{LayerSort, LayerSpec, read_conf};
use dc_item::read_records;
use dc_layer::{FileLayer, Layer, Pattern};
use dc_question::Questions;
use dc_store::Store;
use dc_text::{Name, Text};
use std::alloc::Global;
use std::process::Abort;

// A layer in a file, which holds the records, and which rejects names with this pattern.
fn layer(rt: &impl Abort, alloc: Global, rejected: &[u8], records: &[u8]) -> Box<dyn Layer> {
    let mut layer = FileLayer::blank(alloc);
    let spec = LayerSpec {
        name: Text::new(alloc),
        sort: LayerSort::File,
        place: Text::new(alloc),
        extension: Text::new(alloc),
        mode: 0o600,
        backup: false,
        infd: false,
        outfd: false,
        readonly: false,
        required: true,
        accept_name: None,
        reject_name: Some(Text::from_bytes(alloc, rejected).expect(rt, "memory")),
        accept_type: None,
        reject_type: None,
    };
    layer.set_up(spec).expect(rt, "patterns");
    layer.take_all(read_records(alloc, records).expect(rt, "records"));
    Box::new(alloc, layer).expect(rt, "memory")
}

const QUESTIONS: &[u8] =
    b"Name: p/a\nTemplate: p/a\nValue: one\nOwners: p\n\nName: p/empty\nTemplate: p/a\nOwners: p, q\nFlags: seen\n\nName: p/lines\nTemplate: p/a\nValue: two\\nlines\nOwners: p\nFlags: seen\n\nName: p/secret\nTemplate: p/secret\nValue: hush\nOwners: p\n\nName: q/a\nTemplate: q/a\nOwners: q\n";

const TEMPLATES: &[u8] =
    b"Name: p/a\nType: string\nOwners: p/a\n\nName: p/secret\nType: password\nOwners: p/secret\n\nName: q/a\nType: string\nDefault: one\nOwners: q/a\n";

// The questions, their templates, and a layer that rejects some names.
fn store(rt: &impl Abort, alloc: Global) -> Store
    ensures { length result.layers.items ≡ 3 }
{
    let questions = layer(rt, alloc, b"^$", QUESTIONS);
    let templates = layer(rt, alloc, b"^$", TEMPLATES);
    let rejecting = layer(rt, alloc, b"^p/s", b"");
    let mut layers: Vec<Box<dyn Layer>> = Vec::new(alloc);
    layers.push(questions).expect(rt, "memory");
    layers.push(templates).expect(rt, "memory");
    layers.push(rejecting).expect(rt, "memory");
    Store::new(alloc, layers)
}

// What `show` writes of the owner of questions of the plan.
fn shown(
    rt: &impl Abort,
    alloc: Global,
    store: &mut Store,
    plan: &Plan,
    templates: &Plan,
    owner: &str,
) -> Text
    requires plan { IsOver (shape plan.now) (length store.old.layers.items) }
    requires templates { IsOver (shape templates.now) (length store.old.layers.items) }
{
    let owner = Name::read(alloc, owner.as_bytes()).expect(rt, "a name");
    let lang = Text::new(alloc);
    let owned = store.owned(plan, &owner).expect(rt, "memory");
    let questions = Questions::new(alloc, store, plan, templates, &lang);
    show_text(&questions, &owned).expect(rt, "memory")
}

fn shown_at_first(rt: &impl Abort, alloc: Global, owner: &str) -> Text {
    let mut store = store(rt, alloc);
    let plan = Plan::Leaf(0);
    let templates = Plan::Leaf(1);
    shown(rt, alloc, &mut store, &plan, &templates, owner)
}

#[test]
fn questions_are_shown(rt: HostRuntime) {
    for (owner, text) in [
        (
            "p",
            "  p/a: one\n* p/empty:\n* p/lines: two\\nlines\n  p/secret: (password omitted)\n",
        ),
        ("q", "* p/empty:\n  q/a: one\n"),
        ("r", ""),
    ] {
        let shown = shown_at_first(&rt, rt.alloc(), owner);
        assert_eq!(rt; shown.bytes(), text.as_bytes());
    }
}

// Copies, and answers what is told of it, with a mark behind it where an item was refused.
fn told(
    rt: &impl Abort,
    alloc: Global,
    store: &mut Store,
    source: &Plan,
    dest: &Plan,
    templates: &Plan,
    names: Option<&Pattern>,
    owners: Option<&Pattern>,
) -> Text
    requires source { IsOver (shape source.now) (length store.old.layers.items) }
    requires dest { IsOver (shape dest.now) (length store.old.layers.items) }
    requires templates { IsOver (shape templates.now) (length store.old.layers.items) }
    requires apart { are_disjoint (shape source.now) (shape dest.now) ≡ true }
    ensures dest { IsOver (shape dest.now) (length store.new.layers.items) }
    ensures templates { IsOver (shape templates.now) (length store.new.layers.items) }
{
    let report = copy_items(store, source, dest, templates, names, owners).expect(rt, "memory");
    let mut text = Text::new(alloc);
    text.append(report.lines.bytes()).expect(rt, "memory");
    if report.refused {
        text.append(b"!\n").expect(rt, "memory");
    }
    text.append(store.take_told().bytes()).expect(rt, "memory");
    text
}

// What is told of a copy, the owners that stand in the destination then, and what is shown of one.
fn copied(
    rt: &impl Abort,
    alloc: Global,
    names: Option<&Pattern>,
    owners: Option<&Pattern>,
) -> Text {
    let mut store = store(rt, alloc);
    let source = Plan::Leaf(0);
    let templates = Plan::Leaf(1);
    let dest = Plan::Leaf(2);
    let mut text = told(
        rt, alloc, &mut store, &source, &dest, &templates, names, owners,
    );
    let listed = owners_text(&store, &dest).expect(rt, "memory");
    text.append(listed.bytes()).expect(rt, "memory");
    let copies = shown(rt, alloc, &mut store, &dest, &templates, "q");
    text.append(copies.bytes()).expect(rt, "memory");
    text
}

#[test]
fn items_are_copied(rt: HostRuntime) {
    let q = Pattern::build(rt.alloc(), b"^q", false).expect(&rt, "a pattern");
    let upper = Pattern::build(rt.alloc(), b"^Q", false).expect(&rt, "a pattern");
    for (names, owners, text) in [
        (
            None,
            None,
            "p/secret can't be changed\n!\np\nq\n* p/empty:\n  q/a: one\n",
        ),
        (Some(&q), None, "q\n  q/a: one\n"),
        (None, Some(&q), "p\nq\n* p/empty:\n  q/a: one\n"),
        (Some(&q), Some(&q), "q\n  q/a: one\n"),
        (Some(&upper), None, ""),
    ] {
        let copied = copied(&rt, rt.alloc(), names, owners);
        assert_eq!(rt; copied.bytes(), text.as_bytes());
    }
}

// The database at the place, of which it is told what is done.
fn telling(rt: &impl Abort, alloc: Global, place: usize) -> Plan
    ensures { shape result ≡ Debug (Leaf place) }
{
    Plan::Debug(Box::new(alloc, Plan::Leaf(place)).expect(rt, "memory"))
}

#[test]
fn copies_are_told_item_by_item(rt: HostRuntime) {
    let alloc = rt.alloc();
    let mut store = store(&rt, alloc);
    let source = telling(&rt, alloc, 0);
    let dest = telling(&rt, alloc, 2);
    let templates = Plan::Leaf(1);
    let text = told(
        &rt, alloc, &mut store, &source, &dest, &templates, None, None,
    );
    assert_eq!(rt;
        text.bytes(),
        b"debug: put p/a\ndebug: put p/empty\ndebug: put p/lines\np/secret can't be changed\ndebug: put q/a\n!\n".as_slice()
    );
}

const CONF: &[u8] =
    b"Config: configdb\nTemplates: templatedb\n\nName: config\nDriver: File\nMode: 644\nReject-Type: password\nFilename: config.dat\n\nName: passwords\nDriver: File\nMode: 600\nBackup: false\nRequired: false\nAccept-Type: password\nFilename: passwords.dat\n\nName: configdb\nDriver: Stack\nStack: config, passwords\n\nName: templatedb\nDriver: File\nMode: 644\nFilename: templates.dat\n";

#[test]
fn databases_are_listed_in_the_order_of_the_file(rt: HostRuntime) {
    let conf = read_conf(rt.alloc(), CONF).expect(&rt, "a configuration");
    let text = databases_text(rt.alloc(), &conf).expect(&rt, "memory");
    assert_eq!(rt;
        text.bytes(),
        b"config\npasswords\nconfigdb\ntemplatedb\n".as_slice()
    );
}
