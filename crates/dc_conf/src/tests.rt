// Configurations of databases within databases: their faults, and the plans of their roots.
use crate::{ConfError, ConfKind, Plan, PlanList, read_conf};
use dc_text::{List, Text};
use std::alloc::Global;
use std::process::Abort;

const HEAD: &[u8] = b"Config: s\nTemplates: t\n\nName: t\nDriver: File\nFilename: t.dat\n";

// The text with two databases of which each may be named, and more lines.
fn text(rt: &impl Abort, alloc: Global, more: &str) -> Text {
    let mut text = Text::from_bytes(alloc, HEAD).expect(rt, "memory");
    text.append(b"\nName: x\nDriver: File\nFilename: x.dat\n")
        .expect(rt, "memory");
    text.append(b"\nName: y\nDriver: File\nFilename: y.dat\n")
        .expect(rt, "memory");
    text.append(more.as_bytes()).expect(rt, "memory");
    text
}

// The line and the kind of the fault that decides, if there is one.
fn fault(rt: &impl Abort, alloc: Global, text: &[u8]) -> Option<(u64, ConfKind)> {
    match read_conf(alloc, text) {
        Ok(_) => None,
        Err(ConfError::Refused { line, kind }) => Some((line, kind)),
        Err(ConfError::OutOfMemory) => panic!(rt; "memory"),
    }
}

#[test]
fn databases_name_databases(rt: HostRuntime) {
    for (more, expected) in [
        // Line 16 is the first of these.
        ("\nName: s\nDriver: Stack\nStack: x, y\n", None),
        (
            "\nName: s\nDriver: Stack\nStack: x, z\n",
            Some((18, ConfKind::UnknownDatabase)),
        ),
        (
            "\nName: s\nDriver: Stack\nStack: x, x\n",
            Some((18, ConfKind::SharedDatabase)),
        ),
        (
            "\nName: s\nDriver: Stack\nStack: x, s\n",
            Some((18, ConfKind::Cycle)),
        ),
        (
            "\nName: s\nDriver: Stack\nStack: x, t\n",
            Some((2, ConfKind::SharedDatabase)),
        ),
        // A stack in a stack, and two that name each other.
        (
            "\nName: s\nDriver: Stack\nStack: r, y\n\nName: r\nDriver: Stack\nStack: x\n",
            None,
        ),
        (
            "\nName: s\nDriver: Stack\nStack: r\n\nName: r\nDriver: Stack\nStack: s\n",
            Some((18, ConfKind::Cycle)),
        ),
        (
            "\nName: s\nDriver: Stack\nStack: r, x\n\nName: r\nDriver: Stack\nStack: x\n",
            Some((18, ConfKind::SharedDatabase)),
        ),
        // A backup.
        ("\nName: s\nDriver: Backup\nDb: x\nBackupdb: y\n", None),
        (
            "\nName: s\nDriver: backup\nDb: x\n",
            Some((16, ConfKind::MissingField)),
        ),
        (
            "\nName: s\nDriver: Backup\nBackupdb: x\n",
            Some((16, ConfKind::MissingField)),
        ),
        (
            "\nName: s\nDriver: Backup\nDb: x\nBackupdb: x\n",
            Some((19, ConfKind::SharedDatabase)),
        ),
        (
            "\nName: s\nDriver: Backup\nDb: s\nBackupdb: x\n",
            Some((18, ConfKind::Cycle)),
        ),
        (
            "\nName: s\nDriver: Backup\nDb: x\nBackupdb: s\n",
            Some((19, ConfKind::Cycle)),
        ),
        (
            "\nName: s\nDriver: Backup\nDb: x\nBackupdb: z\n",
            Some((19, ConfKind::UnknownDatabase)),
        ),
        (
            "\nName: s\nDriver: Backup\nDb: z\nBackupdb: z\n",
            Some((18, ConfKind::UnknownDatabase)),
        ),
        (
            "\nName: s\nDriver: Backup\nDb: r\nBackupdb: x\n\nName: r\nDriver: Debug\nDb: x\n",
            Some((19, ConfKind::SharedDatabase)),
        ),
        (
            "\nName: s\nDriver: Backup\nDb: x\nBackupdb: y\nReadonly: true\n",
            Some((20, ConfKind::BadValue)),
        ),
        // A debug.
        ("\nName: s\nDriver: Debug\nDb: x\nBackupdb: z\n", None),
        (
            "\nName: s\nDriver: Debug\n",
            Some((16, ConfKind::MissingField)),
        ),
        (
            "\nName: s\nDriver: Debug\nDb: s\n",
            Some((18, ConfKind::Cycle)),
        ),
        (
            "\nName: s\nDriver: Debug\nDb: t\n",
            Some((2, ConfKind::SharedDatabase)),
        ),
        // A field that the driver doesn't have names nothing.
        (
            "\nName: s\nDriver: File\nFilename: s.dat\nDb: s\nStack: s\n",
            None,
        ),
    ] {
        let alloc = rt.alloc();
        let text = text(&rt, alloc, more);
        assert_eq!(rt; fault(&rt, alloc, text.bytes()), expected);
    }
}

// The plan as a word: a place, or a letter for what it is and its plans.
#[cycle(put)]
fn put_plan(rt: &impl Abort, word: &mut Text, plan: &Plan) {
    match plan {
        Plan::Leaf(place) => put(rt, word, b'0' + (*place % 10) as u8),
        Plan::Stack(plans) => {
            put(rt, word, b'(');
            put_plans(rt, word, plans);
            put(rt, word, b')');
        }
        Plan::Backup(first, second) => {
            put(rt, word, b'b');
            put_plan(rt, word, first);
            put_plan(rt, word, second);
        }
        Plan::Debug(inner) => {
            put(rt, word, b'd');
            put_plan(rt, word, inner);
        }
    }
}

#[cycle(put)]
fn put_plans(rt: &impl Abort, word: &mut Text, plans: &PlanList) {
    match plans {
        PlanList::End => (),
        PlanList::More(first, rest) => {
            put_plan(rt, word, first);
            put_plans(rt, word, rest);
        }
    }
}

fn put(rt: &impl Abort, word: &mut Text, byte: u8) {
    word.push(byte).expect(rt, "memory");
}

#[test]
fn plans_are_trees(rt: HostRuntime) {
    for (more, count, expected) in [
        ("\nName: s\nDriver: File\nFilename: s.dat\n", 2, "1 0"),
        ("\nName: s\nDriver: Stack\nStack: y x\n", 3, "(21) 0"),
        (
            "\nName: s\nDriver: Stack\nStack: y, r\n\nName: r\nDriver: Stack\nStack: x\n",
            3,
            "(2(1)) 0",
        ),
        (
            "\nName: s\nDriver: Backup\nDb: y\nBackupdb: x\n",
            3,
            "b21 0",
        ),
        (
            "\nName: s\nDriver: Debug\nDb: r\n\nName: r\nDriver: Backup\nDb: q\nBackupdb: y\n\nName: q\nDriver: Stack\nStack: x\n",
            3,
            "db(1)2 0",
        ),
    ] {
        let alloc = rt.alloc();
        let text = text(&rt, alloc, more);
        let conf = read_conf(alloc, text.bytes()).expect(&rt, "a configuration");
        let mut roots = List::new(alloc);
        roots
            .push(conf.config().copy().expect(&rt, "memory"))
            .expect(&rt, "memory");
        roots
            .push(conf.templates().copy().expect(&rt, "memory"))
            .expect(&rt, "memory");
        let resolved = conf.resolve(alloc, &roots).expect(&rt, "plans");
        let mut word = Text::new(alloc);
        for plan in resolved.plans.as_slice() {
            if !word.bytes().is_empty() {
                put(&rt, &mut word, b' ');
            }
            put_plan(&rt, &mut word, plan);
        }
        assert_eq!(rt; word.bytes(), expected.as_bytes());
        assert_eq!(rt; resolved.specs.len(), count);
    }
}

// Where so many databases are too many.
#[test]
fn databases_are_counted(rt: HostRuntime) {
    for (files, stacks, expected) in [
        (16, 1, None),
        (17, 1, Some((69, ConfKind::TooMany))),
        (2, 254, None),
        (2, 255, Some((1029, ConfKind::TooMany))),
    ] {
        let alloc = rt.alloc();
        let text = many(&rt, alloc, files, stacks);
        assert_eq!(rt; fault(&rt, alloc, text.bytes()), expected);
    }
}

// So many databases in files, and so many stacks, each of the second of those.
fn many(rt: &impl Abort, alloc: Global, files: usize, stacks: usize) -> Text {
    let mut text = Text::from_bytes(alloc, b"Config: d000\nTemplates: f000\n").expect(rt, "memory");
    for index in 0..files {
        text.append(b"\n\nName: f").expect(rt, "memory");
        put_number(rt, &mut text, index);
        text.append(b"\nDriver: File\nFilename: f")
            .expect(rt, "memory");
        put_number(rt, &mut text, index);
    }
    for index in 0..stacks {
        text.append(b"\n\nName: d").expect(rt, "memory");
        put_number(rt, &mut text, index);
        text.append(b"\nDriver: Stack\nStack: f001")
            .expect(rt, "memory");
    }
    text
}

fn put_number(rt: &impl Abort, text: &mut Text, number: usize) {
    put(rt, text, b'0' + (number / 100 % 10) as u8);
    put(rt, text, b'0' + (number / 10 % 10) as u8);
    put(rt, text, b'0' + (number % 10) as u8);
}
