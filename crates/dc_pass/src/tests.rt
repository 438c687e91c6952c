// What each end sends, and what is read of it.
use crate::{Pass, PassError, RequestReader, WireCall, WireError, print_answers, print_request};
use dc_frontend::Shown;
use dc_outside::MemLink;
use dc_teletype::{Answer, Asked};
use dc_template::Kind;
use dc_text::{List, Name, Text};
use dc_words::Line;
use std::alloc::Global;
use std::process::Abort;

fn text(rt: &impl Abort, alloc: Global, bytes: &[u8]) -> Text {
    Text::from_bytes(alloc, bytes).expect(rt, "memory")
}

fn texts(rt: &impl Abort, alloc: Global, items: &[&[u8]]) -> List<Text> {
    let mut list = List::new(alloc);
    for item in items {
        list.push(text(rt, alloc, item)).expect(rt, "memory");
    }
    list
}

fn question(
    rt: &impl Abort,
    alloc: Global,
    kind: Kind,
    choices: &[&[u8]],
    labels: &[&[u8]],
    value: &[u8],
) -> Shown {
    Shown {
        name: Name::read(alloc, b"a/n").expect(rt, "a name"),
        kind,
        description: text(rt, alloc, b"N"),
        extended: text(rt, alloc, b"one\ntwo \\n"),
        choices: texts(rt, alloc, choices),
        labels: texts(rt, alloc, labels),
        value: text(rt, alloc, value),
    }
}

// A question of each kind, those to choose from with choices and labels.
fn questions(rt: &impl Abort, alloc: Global) -> List<Shown> {
    let mut list = List::new(alloc);
    for kind in [
        Kind::Str,
        Kind::Bool,
        Kind::Password,
        Kind::Note,
        Kind::Txt,
        Kind::Error,
        Kind::Title,
    ] {
        list.push(question(rt, alloc, kind, &[], &[], b"true"))
            .expect(rt, "memory");
    }
    for kind in [Kind::Select, Kind::Multiselect] {
        let choices = [b"red".as_slice(), b"light, blue"];
        let labels = [b"rot".as_slice(), b"hell blau"];
        list.push(question(
            rt,
            alloc,
            kind,
            choices.as_slice(),
            labels.as_slice(),
            b"red",
        ))
        .expect(rt, "memory");
    }
    list
}

// How the lines of the text are taken: `.` for one that goes on, `A` for a request, `T` for a line that is told, `!` for an unreadable
// one.
fn taken(rt: &impl Abort, alloc: Global, bytes: &[u8]) -> Text {
    let mut reader = RequestReader::new(alloc);
    let mut seen = Text::new(alloc);
    for line in bytes.split(|byte| *byte == b'\n') {
        let mark = match reader.take(Line::Whole(text(rt, alloc, line))) {
            Ok(None) => b'.',
            Ok(Some(WireCall::Tell(_))) => b'T',
            Ok(Some(WireCall::Ask { .. })) => b'A',
            Err(WireError::Bad) => b'!',
            Err(WireError::OutOfMemory) => b'0',
        };
        seen.push(mark).expect(rt, "memory");
    }
    seen
}

// The request that the text is, printed again; without one nothing.
fn printed_again(rt: &impl Abort, alloc: Global, bytes: &[u8]) -> Text {
    let mut reader = RequestReader::new(alloc);
    for line in bytes.split(|byte| *byte == b'\n') {
        let took = reader
            .take(Line::Whole(text(rt, alloc, line)))
            .expect(rt, "a line of a request");
        if let Some(
            WireCall::Ask {
                title,
                backup,
                shown,
            },
        ) = took
        {
            return print_request(alloc, &title, backup, &shown).expect(rt, "memory");
        }
    }
    Text::new(alloc)
}

#[test]
fn each_kind_is_read_as_it_was_printed(rt: HostRuntime) {
    let alloc = rt.alloc();
    let title = text(&rt, alloc, b"T");
    let shown = questions(&rt, alloc);
    let printed = print_request(alloc, &title, false, &shown).expect(&rt, "memory");
    let again = printed_again(&rt, alloc, printed.bytes());
    assert_eq!(rt; again.bytes(), printed.bytes());
}

#[test]
fn lines_are_told_apart(rt: HostRuntime) {
    for (bytes, marks) in [
        (
            b"title\nbackup true\nquestion a/n\nkind string\ndescription N\nextended\nvalue\nask\ntell x".as_slice(),
            b".......AT".as_slice(),
        ),
        (
            b"title T\nbackup false\nquestion a/n\nkind select\ndescription\nextended\nchoice a\nlabel b\nvalue\nquestion a/m\nkind note\ndescription\nextended\nvalue\nask",
            b"..............A",
        ),
        (b"tell\ntell a\\nb\\\\", b"TT"),
        (
            b"title \nzed\n\nask\nvalue x\ntell a\\tb\ntell \\",
            b"!!!!!!!",
        ),
        (b"title\nbackup", b".!"),
        (b"title\ntell x", b".!"),
        (b"title\nbackup true\nask", b"..!"),
        (b"title\nbackup true\nquestion a b", b"..!"),
        (b"title\nbackup true\nquestion a/n\nkind Select", b"...!"),
        (
            b"title\nbackup true\nquestion a/n\nkind select\ndescription\nextended\nchoice a\nvalue",
            b".......!",
        ),
        (
            b"title\nbackup true\nquestion a/n\nkind note\ndescription\nextended\nlabel a",
            b"......!",
        ),
        (
            b"title\nbackup true\nquestion a/n\nkind note\ndescription\nextended\nvalue\nask x",
            b".......!",
        ),
    ] {
        let seen = taken(&rt, rt.alloc(), bytes);
        assert_eq!(rt; seen.bytes(), marks);
    }
}

#[test]
fn answers_are_printed(rt: HostRuntime) {
    let alloc = rt.alloc();
    let mut answers = List::new(alloc);
    answers
        .push(Answer::Value(text(&rt, alloc, b"zed\n")))
        .expect(&rt, "memory");
    answers.push(Answer::Keep).expect(&rt, "memory");
    answers
        .push(Answer::Value(Text::new(alloc)))
        .expect(&rt, "memory");
    let printed = print_answers(alloc, &Asked::Answers(answers)).expect(&rt, "memory");
    assert_eq!(rt;
        printed.bytes(),
        b"value zed\\n\nkeep\nvalue\ndone\n".as_slice()
    );
    let back = print_answers(alloc, &Asked::Back).expect(&rt, "memory");
    assert_eq!(rt; back.bytes(), b"back\n".as_slice());
}

// Whether the value is read of a multiselect with these choices.
#[test]
fn joined_choices_are_told_apart(rt: HostRuntime) {
    for (value, is) in [
        (b"".as_slice(), true),
        (b"a", true),
        (b"b", true),
        (b"a, b", true),
        (b"a, a", true),
        (b"a, b, a", true),
        (b"a, a, b", false),
        (b"a, a, a", false),
        (b"b, a", true),
        (b"b, b", false),
        (b"a,b", false),
        (b"a, ", false),
        (b"c\\, d", true),
        (b"a, c\\, d", true),
        (b"c, d", false),
        (b"b, c\\, d, e", true),
    ] {
        let choices = texts(
            &rt,
            rt.alloc(),
            [b"a".as_slice(), b"b", b"a", b"c, d", b"e"].as_slice(),
        );
        let found = crate::replies::are_joined(rt.alloc(), choices.as_slice(), value).expect(
            &rt, "memory",
        );
        assert_eq!(rt; found, is);
    }
}

// What the other end's lines come to where a string is asked, printed as a reply, or which line is unreadable.
fn heard(rt: &impl Abort, alloc: Global, input: &[u8], backup: bool) -> Text {
    let mut link = MemLink::new(alloc, input, [1].as_slice(), [].as_slice()).expect(rt, "memory");
    let mut pass = Pass::new(alloc);
    let mut shown = List::new(alloc);
    shown
        .push(question(rt, alloc, Kind::Str, &[], &[], b""))
        .expect(rt, "memory");
    match pass.ask(&mut link, &shown, backup, &Text::new(alloc)) {
        Ok(asked) => print_answers(alloc, &asked).expect(rt, "memory"),
        Err(PassError::Bad { line: 1 }) => text(rt, alloc, b"bad 1"),
        Err(PassError::Bad { line: 2 }) => text(rt, alloc, b"bad 2"),
        Err(_) => text(rt, alloc, b"failed"),
    }
}

#[test]
fn replies_are_heard(rt: HostRuntime) {
    for (input, backup, came) in [
        (
            b"value zed\ndone\n".as_slice(),
            true,
            b"value zed\ndone\n".as_slice(),
        ),
        (b"value a\\nb\ndone", true, b"value a\\nb\ndone\n"),
        (b"keep\ndone\n", false, b"keep\ndone\n"),
        (b"back\n", true, b"back\n"),
        (b"back\n", false, b"bad 1"),
        (b"zed\n", true, b"bad 1"),
        (b"done\n", true, b"bad 1"),
        (b"value zed\nback\n", true, b"bad 2"),
        (b"value zed\nkeep\n", true, b"bad 2"),
        (b"value zed\ndon", true, b"bad 2"),
        (b"value zed\n", true, b"keep\ndone\n"),
        (b"", true, b"keep\ndone\n"),
    ] {
        let found = heard(&rt, rt.alloc(), input, backup);
        assert_eq!(rt; found.bytes(), came);
    }
}
