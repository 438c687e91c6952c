// Job texts, what is read of them, and what is printed again.
use crate::{JobError, JobKind, print_jobs, read_jobs};
use dc_text::Text;
use std::alloc::Global;
use std::process::Abort;

// What is said of a job text: the jobs as they are printed, or the line and the kind of the fault.
fn said(rt: &impl Abort, alloc: Global, text: &[u8]) -> Text {
    match read_jobs(alloc, text) {
        Ok(jobs) => print_jobs(alloc, &jobs).expect(rt, "memory"),
        Err(JobError::Bad { line, kind }) => {
            let shown = format!(in alloc; "line {line}: {kind:?}").expect(rt, "memory");
            Text::from_bytes(alloc, shown.as_bytes()).expect(rt, "memory")
        }
        Err(JobError::OutOfMemory) => panic!(rt; "memory"),
    }
}

const ROWS: [(&[u8], &[u8]); 16] = [
    (b"", b""),
    (
        b"Package: x\nTemplates: x.templates\nConfig: sx\n\nPackage: y\nConfig: sy now\n",
        b"Package: x\nTemplates: x.templates\nConfig: sx\n\nPackage: y\nConfig: sy now\n\n",
    ),
    (
        b"# jobs\n \t\nCONFIG:\tsh  -c\ta:b \r\n#\n package : X/y\r\n\r\n",
        b"Package: X/y\nConfig: sh -c a:b\n\n",
    ),
    (
        b"templates: a b \npackage:p",
        b"Package: p\nTemplates: a b\n\n",
    ),
    (b"Package: x", b"line 1: NoWork"),
    (b"# x\nConfig sx\nPackage: x\n", b"line 2: NoColon"),
    (b"Package: x\nConfig: a\n: z\n", b"line 3: UnknownField"),
    (b" # x\n", b"line 1: NoColon"),
    (b"Package: x\nConfig: a\nconfig: b\n", b"line 3: Twice"),
    (
        b"Package: x\nConfig: a\n\nConfig: b\nPackage: x\n",
        b"line 5: Twice",
    ),
    (
        b"Package: x\nConfig: a\n\nPackage: X\nConfig: b\n",
        b"Package: x\nConfig: a\n\nPackage: X\nConfig: b\n\n",
    ),
    (b"Config: a\nTemplates:\n", b"line 1: NoPackage"),
    (b"Config: a\nPackage: x,y\n", b"line 2: BadName"),
    (b"Package:\n", b"line 1: BadName"),
    (b"Package: x\nTemplates:\nConfig\n", b"line 2: EmptyField"),
    (b"Source: a\n", b"line 1: UnknownField"),
];

#[test]
fn jobs_are_read_and_printed_or_the_first_fault_is_told(rt: HostRuntime) {
    let alloc = rt.alloc();
    for (text, want) in &ROWS {
        let shown = said(&rt, alloc, text);
        assert_eq!(rt; shown.bytes(), *want);
    }
}

// A text of so many jobs, and some bytes more.
fn many(rt: &impl Abort, alloc: Global, count: u32, more: &[u8]) -> Text {
    let mut text = Text::new(alloc);
    for number in 0..count {
        let job = format!(in alloc; "Package: p{number}\nConfig: c {number}\n\n").expect(
            rt, "memory",
        );
        text.append(job.as_bytes()).expect(rt, "memory");
    }
    text.append(more).expect(rt, "memory");
    text
}

#[test]
fn no_more_than_256_jobs_are_read(rt: HostRuntime) {
    let alloc = rt.alloc();
    let most = many(&rt, alloc, 256, b"");
    assert_eq!(rt; said(&rt, alloc, most.bytes()).bytes(), most.bytes());
    let past = many(&rt, alloc, 257, b"");
    assert_eq!(rt;
        said(&rt, alloc, past.bytes()).bytes(),
        b"line 769: TooMany".as_slice()
    );
    let bad = many(&rt, alloc, 256, b"Package: p0");
    assert_eq!(rt;
        said(&rt, alloc, bad.bytes()).bytes(),
        b"line 769: Twice".as_slice()
    );
}

#[test]
fn an_error_says_what_it_is(rt: HostRuntime) {
    let alloc = rt.alloc();
    let bad = JobError::Bad {
        line: 1,
        kind: JobKind::NoWork,
    };
    let shown = format!(in alloc; "{bad}, {}", JobError::OutOfMemory).expect(&rt, "memory");
    assert_eq!(rt; shown.as_str(), "a bad job, out of memory");
}
