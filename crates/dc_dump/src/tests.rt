// What is said of questions, over layers in memory, and set again where none stood.
ghost use Rattle.std.specs.Prelude.{◌≡◌, true, length};
ghost use Rattle.dc_conf.specs.Plans.{are_disjoint, IsOver};
ghost use Rattle.dc_conf.specs.Trees.{shape};

use crate::answers::Answer;
use crate::lines::{is_sayable, lines_of};
use crate::{Said, selections};
use dc_conf::{LayerSort, LayerSpec, Plan};
use dc_item::read_records;
use dc_layer::{FileLayer, Layer};
use dc_outside::MemLink;
use dc_preseed::{Choices, take_selections};
use dc_question::Questions;
use dc_store::Store;
use dc_template::Kind;
use dc_text::{List, Name, Text};
use std::alloc::Global;
use std::process::Abort;

// A layer in a file, which holds the records.
fn layer(rt: &impl Abort, alloc: Global, records: &[u8]) -> Box<dyn Layer> {
    let mut layer = FileLayer::blank(alloc);
    let spec = LayerSpec {
        name: Text::new(alloc),
        sort: LayerSort::File,
        place: Text::new(alloc),
        extension: Text::new(alloc),
        mode: 0o600,
        backup: false,
        infd: false,
        outfd: false,
        readonly: false,
        required: true,
        accept_name: None,
        reject_name: None,
        accept_type: None,
        reject_type: None,
    };
    layer.set_up(spec).expect(rt, "patterns");
    layer.take_all(read_records(alloc, records).expect(rt, "records"));
    Box::new(alloc, layer).expect(rt, "memory")
}

// A layer of questions, and one of templates.
fn two_layers(
    rt: &impl Abort,
    alloc: Global,
    questions: &[u8],
    templates: &[u8],
) -> Vec<Box<dyn Layer>>
    ensures { length result.items ≡ 2 }
{
    let questions = layer(rt, alloc, questions);
    let templates = layer(rt, alloc, templates);
    let mut layers: Vec<Box<dyn Layer>> = Vec::new(alloc);
    layers.push(questions).expect(rt, "memory");
    layers.push(templates).expect(rt, "memory");
    layers
}

// The plans of the two: one of questions, and one of templates.
fn two_plans() -> (Plan, Plan)
    ensures config { IsOver (shape result.0) 2 }
    ensures templates { IsOver (shape result.1) 2 }
    ensures apart { are_disjoint (shape result.0) (shape result.1) ≡ true }
{
    (Plan::Leaf(0), Plan::Leaf(1))
}

// What is said of the questions of the first of two layers: the text, and behind it each that is left out, with a mark.
fn told(rt: &impl Abort, alloc: Global, layers: Vec<Box<dyn Layer>>) -> Text
    requires { length layers.items ≡ 2 }
{
    let mut store = Store::new(alloc, layers);
    let (config, templates) = two_plans();
    let lang = Text::new(alloc);
    let names = store.names(&config).expect(rt, "memory");
    let questions = Questions::new(alloc, &mut store, &config, &templates, &lang);
    let Said { mut text, left_out } = selections(&questions, &names).expect(rt, "memory");
    for name in left_out.as_slice() {
        text.append(name.bytes()).expect(rt, "memory");
        text.push(b'!').expect(rt, "memory");
    }
    text
}

// What is said once the lines of a text are set where no question stood.
fn told_again(rt: &impl Abort, alloc: Global, text: &[u8]) -> Text {
    let mut layers = two_layers(rt, alloc, b"", b"");
    let mut io = MemLink::new(alloc, text, &[7], &[]).expect(rt, "memory");
    let mut err = MemLink::new(alloc, b"", &[], &[]).expect(rt, "memory");
    let (config, templates) = two_plans();
    let lang = Text::new(alloc);
    let choices = Choices {
        verbose: false,
        check: false,
        unseen: false,
    };
    let selected = take_selections(
        alloc,
        &mut io,
        &mut err,
        &mut layers,
        &config,
        &templates,
        &lang,
        choices,
        0,
    );
    assert!(rt; !selected.refused);
    assert_eq!(rt; layers.len(), 2);
    told(rt, alloc, layers)
}

const KNOWN: &[u8] =
    b"Name: p/a\nType: string\nOwners: p/a\n\nName: p/secret\nType: password\nOwners: p/secret\n\nName: q/a\nType: select\nDefault: one\nOwners: q/a\n";

#[test]
fn questions_are_said_and_set_again(rt: HostRuntime) {
    let alloc = rt.alloc();
    for (records, text, left_out) in [
        (
            "Name: p/a\nTemplate: p/a\nValue: one\nOwners: p\n\nName: p/secret\nTemplate: p/secret\nValue: hush\nOwners: p\n",
            "p p/a string one\np p/a seen false\np p/secret password hush\np p/secret seen false\n",
            "",
        ),
        (
            "Name: p/a\nTemplate: p/a\nValue: x\\\nOwners: p\n",
            "",
            "p/a!",
        ),
        (
            "Name: p/b\nTemplate: p/a\nValue: two\\nlines\\\\nx\nOwners: p, q\nFlags: seen\n\nName: p/c\nTemplate: q/a\nOwners: q, r\n",
            "p p/b string two\\nlines\\\\nx\nq p/b string two\\nlines\\\\nx\nq p/c select one\nr p/c select one\nq p/c seen false\n",
            "",
        ),
        (
            "Name: p/d\nTemplate: p/a\nOwners: p\nFlags: seen\n\nName: p/e\nTemplate: p/none\nOwners: p\n\nName: p/h\nTemplate: p/a\n",
            "p p/d string \n",
            "p/e!p/h!",
        ),
        (
            "Name: p/f\nTemplate: p/a\nOwners: #p, q\n\nName: p/g\nTemplate: p/a\nOwners: p#\nFlags: seen\n",
            "p# p/g string \n",
            "p/f!",
        ),
    ] {
        let layers = two_layers(&rt, alloc, records.as_bytes(), KNOWN);
        let said = told(&rt, alloc, layers);
        let again = told_again(&rt, alloc, text.as_bytes());
        assert_eq!(rt; again.bytes(), text.as_bytes());
        let mut all = again;
        all.append(left_out.as_bytes()).expect(&rt, "memory");
        assert_eq!(rt; said.bytes(), all.bytes());
    }
}

// Whether a question with a value of so many bytes can be said.
fn can_be_said(rt: &impl Abort, alloc: Global, count: usize) -> bool {
    let name = Name::read(alloc, b"p/a").expect(rt, "a name");
    let mut owners = List::new(alloc);
    owners
        .push(Name::read(alloc, b"p").expect(rt, "a name"))
        .expect(rt, "memory");
    let answer = Answer {
        owners,
        kind: Some(Kind::Str),
        value: Text::from_vec(vec![in alloc; b'x'; count].expect(rt, "memory")),
        seen: true,
    };
    let lines = lines_of(alloc, &name, &answer).expect(rt, "memory");
    is_sayable(&name, &answer, &lines)
}

#[test]
fn lines_over_the_limit_are_not_said(rt: HostRuntime) {
    assert!(rt; can_be_said(&rt, rt.alloc(), 1_048_563));
    assert!(rt; !can_be_said(&rt, rt.alloc(), 1_048_564));
}
