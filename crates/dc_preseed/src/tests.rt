// Lines of selections: how they are joined, what they say, and what is told of them. What they do over a link is on the page of dc_transcripts.
ghost use Rattle.std.specs.Prelude.{◌≡◌, true, length};
ghost use Rattle.dc_conf.specs.Plans.{are_disjoint, IsOver};
ghost use Rattle.dc_conf.specs.Trees.{shape};

use crate::{
    Choices, Joined, Joiner, Selection, SelectionError, SelectionFault, read_selection,
    take_selections,
};
use dc_conf::{LayerSort, LayerSpec, Plan};
use dc_layer::{FileLayer, Layer};
use dc_outside::MemLink;
use dc_text::Text;
use dc_words::{Line, MAX_LINE};
use std::alloc::Global;
use std::process::Abort;

fn line(rt: &impl Abort, alloc: Global, bytes: &[u8]) -> Line {
    Line::Whole(Text::from_bytes(alloc, bytes).expect(rt, "memory"))
}

// Adds the joined line behind its number.
fn add(rt: &impl Abort, alloc: Global, shown: &mut Text, one: &Joined) {
    let number = format!(in alloc; "{}: ", one.first).expect(rt, "memory");
    shown.append(number.as_bytes()).expect(rt, "memory");
    match &one.whole {
        Line::Whole(text) => shown.append(text.bytes()).expect(rt, "memory"),
        Line::TooLong => shown.append(b"too long").expect(rt, "memory"),
    }
    shown.push(b'\n').expect(rt, "memory");
}

// The joined lines of these lines, each behind its number.
fn joined(rt: &impl Abort, alloc: Global, lines: &[Line]) -> Text {
    let mut joiner = Joiner::new(alloc);
    let mut shown = Text::new(alloc);
    for line in lines {
        if let Some(one) = joiner.take(line).expect(rt, "memory") {
            add(rt, alloc, &mut shown, &one);
        }
    }
    if let Some(one) = joiner.end() {
        add(rt, alloc, &mut shown, &one);
    }
    shown
}

#[test]
fn lines_are_joined_under_the_number_of_the_first(rt: HostRuntime) {
    let alloc = rt.alloc();
    let lines = [
        line(&rt, alloc, b"# comment \\"),
        line(&rt, alloc, b"p p/a string one"),
        line(&rt, alloc, b"p p/b string \\"),
        line(&rt, alloc, b"two words"),
        line(&rt, alloc, b"p p/a \\"),
        Line::TooLong,
        line(&rt, alloc, b"p p/c string \\"),
        line(&rt, alloc, b"#\\"),
    ];
    let shown = joined(&rt, alloc, &lines);
    let want =
        b"1: # comment \\\n2: p p/a string one\n3: p p/b string two words\n5: too long\n7: p p/c string #\n";
    assert_eq!(rt; shown.bytes(), want.as_slice());
}

// So many bytes `x`, and a backslash where the line goes on.
fn long_line(rt: &impl Abort, alloc: Global, count: usize, goes_on: bool) -> Line {
    let mut bytes = vec![in alloc; b'x'; count].expect(rt, "memory");
    if goes_on {
        bytes.push(b'\\').expect(rt, "memory");
    }
    Line::Whole(Text::from_vec(bytes))
}

// How long the joined line of two lines is, and `None` where it is too long.
fn length_of_two(rt: &impl Abort, alloc: Global, first: usize, second: usize) -> Option<usize> {
    let mut joiner = Joiner::new(alloc);
    let begun = joiner
        .take(&long_line(rt, alloc, first, true))
        .expect(rt, "memory");
    assert!(rt; begun.is_none());
    let one = joiner
        .take(&long_line(rt, alloc, second, false))
        .expect(rt, "memory");
    match one.expect(rt, "a line").whole {
        Line::Whole(text) => Some(text.bytes().len()),
        Line::TooLong => None,
    }
}

#[test]
fn what_is_joined_past_the_limit_is_too_long(rt: HostRuntime) {
    let alloc = rt.alloc();
    assert_eq!(rt; length_of_two(&rt, alloc, 599_999, 600_000), None);
    assert_eq!(rt; length_of_two(&rt, alloc, 600_000, 448_576), Some(MAX_LINE));
    assert_eq!(rt; length_of_two(&rt, alloc, 600_000, 448_577), None);
}

#[test]
fn ten_thousand_lines_are_one(rt: HostRuntime) {
    let alloc = rt.alloc();
    let part = line(&rt, alloc, b"0123456789\\");
    let mut joiner = Joiner::new(alloc);
    for _ in 0..10_000 {
        let none = joiner.take(&part).expect(&rt, "memory");
        assert!(rt; none.is_none());
    }
    let one = joiner.end().expect(&rt, "a line");
    assert_eq!(rt; one.first, 1);
    match one.whole {
        Line::Whole(text) => assert_eq!(rt; text.bytes().len(), 100_000),
        Line::TooLong => panic!(rt; "too long"),
    }
    assert!(rt; joiner.end().is_none());
    let next = joiner.take(&line(&rt, alloc, b"p")).expect(&rt, "memory");
    assert_eq!(rt; next.expect(&rt, "a line").first, 10_001);
}

// What the line says, in words.
fn said(rt: &impl Abort, alloc: Global, line: &[u8]) -> Text {
    let mut words = Text::new(alloc);
    match read_selection(alloc, line) {
        Ok(None) => words.append(b"nothing").expect(rt, "memory"),
        Ok(
            Some(
                Selection::Value {
                    owner,
                    question,
                    kind,
                    value,
                },
            ),
        ) => {
            for part in [owner.bytes(), question.bytes(), kind.word(), value.bytes()] {
                words.append(part).expect(rt, "memory");
                words.push(b'|').expect(rt, "memory");
            }
        }
        Ok(Some(Selection::Seen { question, seen })) => {
            words.append(question.bytes()).expect(rt, "memory");
            let flag = if seen {
                b" seen".as_slice()
            } else {
                b" unseen".as_slice()
            };
            words.append(flag).expect(rt, "memory");
        }
        Err(SelectionError::Bad(fault)) => words.append(fault_word(fault)).expect(rt, "memory"),
        Err(SelectionError::OutOfMemory) => panic!(rt; "memory"),
    }
    words
}

fn fault_word(fault: SelectionFault) -> &'static [u8] {
    match fault {
        SelectionFault::TooFew => b"too few words",
        SelectionFault::BadName => b"bad name",
        SelectionFault::BadType => b"bad type",
        SelectionFault::BadFlagValue => b"bad flag value",
    }
}

#[test]
fn lines_say_values_and_flags_or_have_a_fault(rt: HostRuntime) {
    for (line, want) in [
        ("p p/a string one", "p|p/a|string|one|"),
        (" p\tp/b  string  two words\r", "p|p/b|string| two words\r|"),
        ("p p/b password", "p|p/b|password||"),
        ("p p/a seen  false\r", "p/a unseen"),
        ("p p/a seen true", "p/a seen"),
        (" \t", "nothing"),
        ("  # p p/a string one", "nothing"),
        ("p p/c", "too few words"),
        ("p, p/a strin x", "bad name"),
        ("p a//b seen x", "bad name"),
        ("p p/a SEEN x", "bad type"),
        ("p p/a seen 1", "bad flag value"),
    ] {
        let words = said(&rt, rt.alloc(), line.as_bytes());
        assert_eq!(rt; words.bytes(), want.as_bytes(), "at {line}");
    }
}

// A layer in a file, which holds no record.
fn layer(rt: &impl Abort, alloc: Global) -> Box<dyn Layer> {
    let mut layer = FileLayer::blank(alloc);
    let spec = LayerSpec {
        name: Text::new(alloc),
        sort: LayerSort::File,
        place: Text::new(alloc),
        extension: Text::new(alloc),
        mode: 0o600,
        backup: false,
        infd: false,
        outfd: false,
        readonly: false,
        required: true,
        accept_name: None,
        reject_name: None,
        accept_type: None,
        reject_type: None,
    };
    layer.set_up(spec).expect(rt, "patterns");
    Box::new(alloc, layer).expect(rt, "memory")
}

// A layer of questions, and one of templates.
fn two_layers(rt: &impl Abort, alloc: Global) -> Vec<Box<dyn Layer>>
    ensures { length result.items ≡ 2 }
{
    let mut layers: Vec<Box<dyn Layer>> = Vec::new(alloc);
    layers.push(layer(rt, alloc)).expect(rt, "memory");
    layers.push(layer(rt, alloc)).expect(rt, "memory");
    layers
}

// The plans of the two: one of questions, of which it is told what is done, and one of templates.
fn two_plans(rt: &impl Abort, alloc: Global) -> (Plan, Plan)
    ensures config { IsOver (shape result.0) 2 }
    ensures templates { IsOver (shape result.1) 2 }
    ensures apart { are_disjoint (shape result.0) (shape result.1) ≡ true }
{
    let questions = Box::new(alloc, Plan::Leaf(0)).expect(rt, "memory");
    (Plan::Debug(questions), Plan::Leaf(1))
}

#[test]
fn lines_tell_before_the_layers(rt: HostRuntime) {
    let alloc = rt.alloc();
    let mut layers = two_layers(&rt, alloc);
    let (config, templates) = two_plans(&rt, alloc);
    let text = b"p p/a string one\np p/a\np p/a seen \\\nfalse\n";
    let mut io = MemLink::new(alloc, text, &[7], &[]).expect(&rt, "memory");
    let mut err = MemLink::new(alloc, b"", &[], &[]).expect(&rt, "memory");
    let choices = Choices {
        verbose: true,
        check: false,
        unseen: false,
    };
    let selected = take_selections(
        alloc,
        &mut io,
        &mut err,
        &mut layers,
        &config,
        &templates,
        &Text::new(alloc),
        choices,
        0,
    );
    assert!(rt; selected.refused);
    let want =
        b"line 1: p/a\ndebug: put p/a\nline 2: too few words\nline 3: p/a\ndebug: set-flag p/a\n";
    assert_eq!(rt; err.sent().bytes(), want.as_slice());
}
