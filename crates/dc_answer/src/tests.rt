// What a session's lines come to on the wire, and on the terminal.
use crate::{AnswerBreak, serve_requests};
use dc_outside::MemLink;
use dc_serve::LinkEnd;
use std::alloc::Global;
use std::process::Abort;

// A link with this input, whose first piece is short, and of whose calls these fail.
fn link(rt: &impl Abort, alloc: Global, input: &[u8], failing: &[u64]) -> MemLink {
    MemLink::new(alloc, input, [3].as_slice(), failing).expect(rt, "memory")
}

// How the serving ended: `.` at the end of the input, a digit for the number of an unreadable line, `T` for the terminal.
fn mark(end: LinkEnd<AnswerBreak>) -> &'static [u8] {
    match end {
        LinkEnd::Done => b".",
        LinkEnd::Broken(AnswerBreak::Wire { line: 1 }) => b"1",
        LinkEnd::Broken(AnswerBreak::Wire { line: 2 }) => b"2",
        LinkEnd::Broken(AnswerBreak::Term) => b"T",
        _ => b"!",
    }
}

const REQUEST: &str =
    "title\nbackup true\nquestion a/n\nkind string\ndescription N\nextended\nvalue\nask\n";

#[test]
fn requests_are_answered(rt: HostRuntime) {
    for (typed, replied) in [
        (b"zed\n".as_slice(), b"value zed\ndone\n".as_slice()),
        (b"<\n", b"back\n"),
        (b"zed", b"value zed\ndone\n"),
    ] {
        let mut wire = link(&rt, rt.alloc(), REQUEST.as_bytes(), [].as_slice());
        let mut terminal = link(&rt, rt.alloc(), typed, [].as_slice());
        let end = serve_requests(rt.alloc(), &mut wire, &mut terminal);
        assert_eq!(rt; mark(end), b".".as_slice());
        assert_eq!(rt; wire.sent().bytes(), replied);
        assert_eq!(rt; terminal.sent().bytes(), b"N \n".as_slice());
    }
}

#[test]
fn lines_are_told_up_to_an_unreadable_one(rt: HostRuntime) {
    for (input, failing, shown, ended) in [
        (
            b"".as_slice(),
            [].as_slice(),
            b"".as_slice(),
            b".".as_slice(),
        ),
        (b"tell a\ntell\n", [].as_slice(), b"a\n\n", b"."),
        (b"tell a\nask\ntell b\n", [].as_slice(), b"a\n", b"2"),
        (b"a\ntell a\n", [].as_slice(), b"", b"1"),
        (b"title\nbackup true\n", [].as_slice(), b"", b"."),
        (b"tell a\ntell b\n", [1].as_slice(), b"a\n", b"T"),
    ] {
        let mut wire = link(&rt, rt.alloc(), input, [].as_slice());
        let mut terminal = link(&rt, rt.alloc(), b"", failing);
        let end = serve_requests(rt.alloc(), &mut wire, &mut terminal);
        assert_eq!(rt; mark(end), ended);
        assert_eq!(rt; wire.sent().bytes(), b"".as_slice());
        assert_eq!(rt; terminal.sent().bytes(), shown);
    }
}
