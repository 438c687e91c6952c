// The text of the commands, and drills over layers in memory.
ghost use Rattle.std.specs.Prelude.{◌≡◌, length};
ghost use Rattle.dc_conf.specs.Trees.{shape, Leaf, Stack, End, More};

use crate::commands::commands_text;
use crate::drill;
use dc_conf::{LayerSort, LayerSpec, Plan, PlanList};
use dc_frontend::Frontend;
use dc_layer::{FileLayer, Layer};
use dc_session::SessionSetup;
use dc_text::{Name, Text};
use std::alloc::Global;
use std::process::Abort;

const TEN: &[u8] =
    b"REGISTER drill/text drill/q1\nSET drill/q1 v1\nREGISTER drill/text drill/q2\nSET drill/q2 v2\nREGISTER drill/text drill/q3\nSET drill/q3 v3\nFSET drill/q3 seen true\nREGISTER drill/text drill/q4\nSET drill/q4 v4\nREGISTER drill/text drill/q5\nSET drill/q5 v5\nGET drill/q4\nREGISTER drill/text drill/q6\nSET drill/q6 v6\nFSET drill/q6 seen true\nREGISTER drill/text drill/q7\nSET drill/q7 v7\nGET drill/none\nREGISTER drill/text drill/q8\nSET drill/q8 v8\nREGISTER drill/text drill/q9\nSET drill/q9 v9\nFSET drill/q9 seen true\nREGISTER drill/text drill/q10\nSET drill/q10 v10\nGET drill/q9\nUNREGISTER drill/q5\n";

#[test]
fn commands_are_made_up_by_their_number(rt: HostRuntime) {
    let text = commands_text(rt.alloc(), 10).expect(&rt, "memory");
    assert_eq!(rt; text.bytes(), TEN);
}

// A layer in a file, which rejects names with this pattern.
fn layer(rt: &impl Abort, alloc: Global, rejected: &[u8]) -> Box<dyn Layer> {
    let mut layer = FileLayer::blank(alloc);
    let spec = LayerSpec {
        name: Text::new(alloc),
        sort: LayerSort::File,
        place: Text::new(alloc),
        extension: Text::new(alloc),
        mode: 0o600,
        backup: false,
        infd: false,
        outfd: false,
        readonly: false,
        required: false,
        accept_name: None,
        reject_name: Some(Text::from_bytes(alloc, rejected).expect(rt, "memory")),
        accept_type: None,
        reject_type: None,
    };
    layer.set_up(spec).expect(rt, "patterns");
    Box::new(alloc, layer).expect(rt, "memory")
}

// Two layers of questions, of which the first rejects names that end in 2, and one of templates.
fn layers(rt: &impl Abort, alloc: Global) -> Vec<Box<dyn Layer>>
    ensures { length result.items ≡ 3 }
{
    let mut layers: Vec<Box<dyn Layer>> = Vec::new(alloc);
    layers.push(layer(rt, alloc, b"2$")).expect(rt, "memory");
    layers.push(layer(rt, alloc, b"^$")).expect(rt, "memory");
    layers.push(layer(rt, alloc, b"^$")).expect(rt, "memory");
    layers
}

// The first layer above the second.
fn stack(rt: &impl Abort, alloc: Global) -> Plan
    ensures { shape result ≡ Stack (More (Leaf 0) (More (Leaf 1) End)) }
{
    let end = Box::new(alloc, PlanList::End).expect(rt, "memory");
    let second = Box::new(alloc, Plan::Leaf(1)).expect(rt, "memory");
    let rest = Box::new(alloc, PlanList::More(second, end)).expect(rt, "memory");
    let first = Box::new(alloc, Plan::Leaf(0)).expect(rt, "memory");
    Plan::Stack(PlanList::More(first, rest))
}

#[test]
fn numbers_are_told(rt: HostRuntime) {
    let alloc = rt.alloc();
    let config = stack(&rt, alloc);
    let templates = Plan::Leaf(2);
    let lang = Text::new(alloc);
    let owner = Name::read(alloc, b"drill").ok().expect(&rt, "a name");
    let setup = SessionSetup {
        owner: &owner,
        lang: &lang,
        frontend: Some(Frontend::Noninteractive),
        threshold: None,
        nonint_seen: false,
    };
    for (count, text) in [
        (
            0,
            "commands: 0\nok: 0\nrefused: 0\nquestions: 1\nbytes: 53\n",
        ),
        (
            1,
            "commands: 2\nok: 2\nrefused: 0\nquestions: 2\nbytes: 114\n",
        ),
        (
            10,
            "commands: 27\nok: 26\nrefused: 1\nquestions: 10\nbytes: 640\n",
        ),
    ] {
        let mut layers = layers(&rt, alloc);
        let told = drill(alloc, count, &mut layers, &config, &templates, &setup)
            .ok()
            .expect(&rt, "memory");
        assert_eq!(rt; told.bytes(), text.as_bytes());
    }
}
