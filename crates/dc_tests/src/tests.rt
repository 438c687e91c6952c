// The calls, on values, a store of one layer, and links and files in memory.
ghost use Rattle.std.specs.Prelude.{◌≡◌, length};
ghost use Rattle.dc_conf.specs.Plans.{IsOver};
ghost use Rattle.dc_conf.specs.Trees.{shape};

use dc_conf::{LayerSort, LayerSpec, Plan, ResolveError, Resolved, read_conf};
use dc_item::{After, Entry, Op, read_records};
use dc_layer::{FileLayer, Image, Layer, Pattern};
use dc_outside::{Child, Files, Link, LinkError, MemChild, MemFiles, WaitFault};
use dc_question::Questions;
use dc_save::save_images;
use dc_store::Store;
use dc_template::{print_templates, read_templates};
use dc_text::{FieldKey, List, Text};
use std::alloc::Global;
use std::process::Abort;

fn text(rt: &impl Abort, alloc: Global, bytes: &str) -> Text {
    Text::from_bytes(alloc, bytes.as_bytes()).expect(rt, "memory")
}

const TEMPLATES: &str =
    "\n# first\ntemplate: a \n#\nDescription-de: \u{e4}: \n\tx \n# y\n z\nTYPE:note\nDescription:\n .\n \t\n\nTemplate: b\nType: select\nChoices: ${c}";

// The templates as they are printed, and the words of their kinds.
fn printed(rt: &impl Abort, alloc: Global) -> Text {
    let list = read_templates(alloc, TEMPLATES.as_bytes()).expect(rt, "templates");
    let mut shown = print_templates(alloc, &list).expect(rt, "memory");
    for template in list.as_slice() {
        shown.append(template.kind().word()).expect(rt, "memory");
        shown.push(b'|').expect(rt, "memory");
    }
    shown
}

// The value of the item that a put makes where none is. An owner makes none there.
fn made_of_none(rt: &impl Abort, alloc: Global) -> Text {
    let records = read_records(alloc, b"Name: a\nValue: x\n").expect(rt, "records");
    let mut list = records.into_list(alloc).expect(rt, "memory");
    let entry = list.pop().expect(rt, "a record");
    let owned = Op::AddOwner(entry.name).at(None).expect(rt, "memory");
    assert!(rt; matches!(owned, After::Same));
    match Op::Put(entry.item).at(None).expect(rt, "memory") {
        After::Changed(item) => {
            let value = item.field(b"value").expect(rt, "a value");
            Text::from_bytes(alloc, value).expect(rt, "memory")
        }
        _ => panic!(rt; "no item"),
    }
}

const CONF: &[u8] =
    b"Config: s\nTemplates: templates\n\nName: config\nDriver: File\nFilename: c\n\nName: passwords\nDriver: File\nFilename: p\n\nName: s\nDriver: Stack\nStack: passwords, config\n\nName: templates\nDriver: File\nFilename: t\n";

// The databases that are reached, and the place of each root.
fn shown(rt: &impl Abort, alloc: Global, resolved: &Resolved) -> Text {
    let mut shown = Text::new(alloc);
    for spec in resolved.specs.as_slice() {
        shown.append(spec.name.bytes()).expect(rt, "memory");
        shown.push(b' ').expect(rt, "memory");
    }
    for plan in resolved.plans.as_slice() {
        match plan {
            Plan::Leaf(place) => {
                let place = format!(in alloc; "{place}|").expect(rt, "memory");
                shown.append(place.as_bytes()).expect(rt, "memory");
            }
            _ => panic!(rt; "no leaf"),
        }
    }
    shown
}

fn resolved(rt: &impl Abort, alloc: Global, words: &[&str]) -> Text {
    let conf = read_conf(alloc, CONF).expect(rt, "a configuration");
    let mut roots = List::new(alloc);
    for word in words {
        roots.push(text(rt, alloc, word)).expect(rt, "memory");
    }
    match conf.resolve(alloc, &roots) {
        Ok(resolved) => shown(rt, alloc, &resolved),
        Err(ResolveError::Unknown { root: 1 }) => text(rt, alloc, "unknown"),
        Err(_) => panic!(rt; "refused"),
    }
}

#[test]
fn values_are_made(rt: HostRuntime) {
    for (found, expected) in [
        (
            printed(&rt, rt.alloc()),
            "Template: a\nType: note\nDescription:\n .\nDescription-de: \u{e4}:\n x z\n\nTemplate: b\nType: select\nChoices: ${c}\n\nnote|select|",
        ),
        (made_of_none(&rt, rt.alloc()), "x"),
        (
            resolved(&rt, rt.alloc(), &["templates", "config", "templates"]),
            "config templates 1|0|1|",
        ),
        (resolved(&rt, rt.alloc(), &["passwords"]), "passwords 0|"),
        (
            resolved(&rt, rt.alloc(), &["config", "Config", "x"]),
            "unknown",
        ),
    ] {
        assert_eq!(rt; found.bytes(), expected.as_bytes(), "{expected:?}");
    }
}

fn is_found(
    rt: &impl Abort,
    alloc: Global,
    pattern: &str,
    ignore_case: bool,
    bytes: &[u8],
) -> bool {
    let pattern = Pattern::build(alloc, pattern.as_bytes(), ignore_case).expect(rt, "a pattern");
    pattern.found(alloc, bytes).expect(rt, "memory")
}

#[test]
fn patterns_are_found(rt: HostRuntime) {
    for (pattern, ignore_case, bytes, answer) in [
        ("^Apt$", false, b"apt".as_slice(), false),
        ("^Apt$", false, b"Apt".as_slice(), true),
        ("A.t", false, b"apt".as_slice(), false),
        ("A.t", false, b"Apt".as_slice(), true),
        ("b", true, b"\xff\x00b".as_slice(), true),
        ("[b]", true, b"\xff\x00b".as_slice(), true),
    ] {
        let found = is_found(&rt, rt.alloc(), pattern, ignore_case, bytes);
        assert_eq!(rt; found, answer, "{pattern:?}");
    }
}

fn make_files(rt: &impl Abort, alloc: Global, paths: &[&str]) -> MemFiles {
    let mut entries = Vec::new(alloc);
    for path in paths {
        let entry = (text(rt, alloc, path), Text::new(alloc));
        entries.push(entry).expect(rt, "memory");
    }
    MemFiles::new(alloc, &entries, &[]).expect(rt, "memory")
}

// The paths in the folder, a bar after each.
fn paths_in(rt: &impl Abort, alloc: Global, files: &mut MemFiles, folder: &str) -> Text {
    let folder = text(rt, alloc, folder);
    let mut shown = Text::new(alloc);
    for path in files.list(&folder).expect(rt, "a list").as_slice() {
        shown.append(path.bytes()).expect(rt, "memory");
        shown.push(b'|').expect(rt, "memory");
    }
    shown
}

// Saves an image without a text.
fn remove(rt: &impl Abort, alloc: Global, files: &mut MemFiles, path: &str) {
    let mut images = List::new(alloc);
    let image = Image {
        path: text(rt, alloc, path),
        mode: 0o600,
        bytes: None,
        old: None,
    };
    images.push(image).expect(rt, "memory");
    let mut layers = List::new(alloc);
    layers.push(images).expect(rt, "memory");
    save_images(alloc, files, &layers).ok().expect(rt, "a save");
}

#[test]
fn files_are_listed_and_removed(rt: HostRuntime) {
    let paths = ["d/b", "d", "da/x", "d/a/c", "d/a.x"];
    let mut files = make_files(&rt, rt.alloc(), &paths);
    for (folder, paths) in [("d", "a.x|a/c|b|"), ("d/a", "c|"), ("x", "")] {
        let found = paths_in(&rt, rt.alloc(), &mut files, folder);
        assert_eq!(rt; found.bytes(), paths.as_bytes(), "{folder:?}");
    }
    remove(&rt, rt.alloc(), &mut files, "d/b");
    let found = paths_in(&rt, rt.alloc(), &mut files, "d");
    assert_eq!(rt; found.bytes(), b"a.x|a/c|".as_slice());
}

#[test]
fn a_program_is_read_to_its_end_and_waited_for(rt: HostRuntime) {
    let mut words = List::new(rt.alloc());
    words
        .push(text(&rt, rt.alloc(), "config"))
        .expect(&rt, "memory");
    let mut child = MemChild::new(rt.alloc(), b"a", &[], &[3, 5], 3).expect(&rt, "memory");
    assert_eq!(rt; child.start(&words), Ok(()));
    let mut buf = [0u8; 4];
    assert_eq!(rt; child.read_some(&mut buf), Ok(1));
    assert_eq!(rt; child.read_some(&mut buf), Ok(0));
    assert_eq!(rt; child.read_some(&mut buf), Err(LinkError::Failed));
    assert_eq!(rt; child.read_some(&mut buf), Ok(0));
    assert_eq!(rt; child.wait(), Err(WaitFault));
    assert_eq!(rt; child.wait(), Ok(3));
    assert_eq!(rt; child.start(&words), Ok(()));
    assert_eq!(rt; child.write(b"b"), Ok(()));
    assert_eq!(rt; child.wait(), Ok(3));
}

// A layer in a file, without items.
fn layer(rt: &impl Abort, alloc: Global) -> FileLayer {
    let mut layer = FileLayer::blank(alloc);
    let spec = LayerSpec {
        name: Text::new(alloc),
        sort: LayerSort::File,
        place: Text::new(alloc),
        extension: Text::new(alloc),
        mode: 0o640,
        backup: false,
        infd: false,
        outfd: false,
        readonly: false,
        required: true,
        accept_name: None,
        reject_name: None,
        accept_type: None,
        reject_type: None,
    };
    layer.set_up(spec).expect(rt, "patterns");
    layer
}

// Puts in the item of a record.
fn put(rt: &impl Abort, alloc: Global, store: &mut Store, plan: &Plan, record: &[u8])
    requires { IsOver (shape plan.now) (length store.old.layers.items) }
    ensures { IsOver (shape plan.now) (length store.new.layers.items) }
{
    let records = read_records(alloc, record).expect(rt, "records");
    let mut list = records.into_list(alloc).expect(rt, "memory");
    let Entry {
        name,
        item,
        line: _,
    } = list.pop().expect(rt, "a record");
    let op = Op::Put(item);
    store.change(plan, &name, None, &op).expect(rt, "a change");
}

#[test]
fn a_store_tells_and_its_question_has_a_field(rt: HostRuntime) {
    let alloc = rt.alloc();
    let layer = layer(&rt, rt.alloc());
    let layer: Box<dyn Layer> = Box::new(alloc, layer).expect(&rt, "memory");
    let mut layers: Vec<Box<dyn Layer>> = Vec::new(alloc);
    layers.push(layer).expect(&rt, "memory");
    let mut store = Store::new(alloc, layers);
    let plan = Plan::Debug(Box::new(rt.alloc(), Plan::Leaf(0)).expect(&rt, "memory"));
    let template = b"Name: t\nDescription: Pick ${more}\n".as_slice();
    put(&rt, rt.alloc(), &mut store, &plan, template);
    put(
        &rt,
        rt.alloc(),
        &mut store,
        &plan,
        b"Name: q\nTemplate: t\n",
    );
    let told = store.take_told();
    assert_eq!(rt; told.bytes(), b"debug: put t\ndebug: put q\n".as_slice());
    let names = store.names(&plan).expect(&rt, "memory");
    assert_eq!(rt; names.len(), 2);
    let name = names.get(0).expect(&rt, "a name");
    assert_eq!(rt; store.holder(&plan, name), Some(0));
    let lang = Text::new(alloc);
    let questions = Questions::new(alloc, &mut store, &plan, &plan, &lang);
    let key = FieldKey::read(alloc, b"description").expect(&rt, "memory");
    let field = questions.field(name, &key).ok().expect(&rt, "a field");
    assert_eq!(rt; field.bytes(), b"Pick ${more}".as_slice());
}
