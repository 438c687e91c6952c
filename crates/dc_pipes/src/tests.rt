// The links and programs of the host, on pipes and in a folder.
ghost use Rattle.std.specs.Prelude.{◌<◌, length, IfOk};

use crate::child::HostChild;
use crate::link::HostLink;
use dc_outside::{Child, Link, LinkError};
use dc_text::{List, Mem, Text};
use std::alloc::Global;
use std::{env, fs, io};

#[test]
fn a_link_reads_and_writes(rt: HostRuntime) {
    let (input, output) = io::pipe(&rt).ok().expect(&rt, "done");
    let mut link = HostLink::new(input, output);
    let mut buf = [0u8; 3];
    assert_eq!(rt; link.write(b"abcd"), Ok(()));
    assert_eq!(rt; link.read_some(&mut buf), Ok(3));
    assert_eq!(rt; buf.as_slice(), b"abc".as_slice());
    assert_eq!(rt; link.read_some(&mut buf), Ok(1));
}

#[test]
fn a_link_ends_and_fails(rt: HostRuntime) {
    let folder = make_folder(&rt, "link").ok().expect(&rt, "done");
    let path = inside(&rt, &folder, "file").ok().expect(&rt, "done");
    fs::write(&rt, path.as_str(), "").ok().expect(&rt, "done");
    let (input, _) = io::pipe(&rt).ok().expect(&rt, "done");
    let mut link = HostLink::new(input, fs::open(&rt, path.as_str()).ok().expect(&rt, "done"));
    assert_eq!(rt; link.read_some(&mut [0u8; 3]), Ok(0));
    assert_eq!(rt;
        link.write(b"x"),
        Err(LinkError::Failed),
        "a file open for reading"
    );
    fs::remove_dir_all(&rt, folder.as_str())
        .ok()
        .expect(&rt, "done");
}

#[test]
fn standard_error_is_written(rt: HostRuntime) {
    let mut err = HostLink::new(io::empty(), rt.stderr());
    assert_eq!(rt; err.write(b"written to standard error\n"), Ok(()));
    assert_eq!(rt; err.read_some(&mut [0u8; 3]), Ok(0));
}

// An empty folder of this process.
fn make_folder(rt: &HostRuntime, name: &str) -> io::Result<String> {
    let id = std::process::id(rt.process());
    let folder = format!(in rt.alloc(); "{}/dckit-{id}-{name}", env::temp_dir(rt)?.display())?;
    fs::create_dir(rt, folder.as_str())?;
    Ok(folder)
}

// The path of a name in the folder.
fn inside(rt: &HostRuntime, folder: &str, name: &str) -> io::Result<String> {
    Ok(format!(in rt.alloc(); "{folder}/{name}")?)
}

// The words of a program and its arguments.
fn words_of(alloc: Global, program: &str, arguments: &[&str]) -> Mem<List<Text>>
    ensures { IfOk result (λ words. 0 < length words) }
{
    let mut words = List::new(alloc);
    words.push(Text::from_bytes(alloc, program.as_bytes())?)?;
    for argument in arguments {
        words.push(Text::from_bytes(alloc, argument.as_bytes())?)?;
    }
    Ok(words)
}

#[test]
fn a_program_is_answered_and_waited_for(rt: HostRuntime) {
    let script =
        "echo GET a/b; read reply; test \"$reply $DEBIAN_HAS_FRONTEND\" = \"0 yes 1\" && exit 3";
    let words = words_of(rt.alloc(), "sh", &["-c", script])
        .ok()
        .expect(&rt, "memory");
    let mut child = HostChild::new(rt.alloc(), &rt);
    let mut buf = [0u8; 8];
    assert_eq!(rt; child.start(&words), Ok(()));
    assert_eq!(rt; child.read_some(&mut buf), Ok(8));
    assert_eq!(rt; buf.as_slice(), b"GET a/b\n".as_slice());
    assert_eq!(rt; child.write(b"0 yes\n"), Ok(()));
    assert_eq!(rt; child.read_some(&mut buf), Ok(0));
    assert_eq!(rt; child.wait(), Ok(3));
}

#[test]
fn a_program_is_started_behind_another(rt: HostRuntime) {
    let mut child = HostChild::new(rt.alloc(), &rt);
    let first = words_of(rt.alloc(), "sh", &["-c", "echo one; exit 3"])
        .ok()
        .expect(&rt, "memory");
    let mut buf = [0u8; 4];
    assert_eq!(rt; child.start(&first), Ok(()));
    assert_eq!(rt; child.read_some(&mut buf), Ok(4));
    assert_eq!(rt; child.wait(), Ok(3));
    let second = words_of(rt.alloc(), "sh", &["-c", "read word; echo $word"])
        .ok()
        .expect(&rt, "memory");
    assert_eq!(rt; child.start(&second), Ok(()));
    assert_eq!(rt; child.write(b"two\n"), Ok(()));
    assert_eq!(rt; child.read_some(&mut buf), Ok(4));
    assert_eq!(rt; buf.as_slice(), b"two\n".as_slice());
    assert_eq!(rt; child.read_some(&mut buf), Ok(0));
    assert_eq!(rt; child.wait(), Ok(0));
}

#[test]
fn a_program_that_is_not_there_is_not_started(rt: HostRuntime) {
    let words = words_of(rt.alloc(), "/missing/config", &[])
        .ok()
        .expect(&rt, "memory");
    let mut child = HostChild::new(rt.alloc(), &rt);
    assert_eq!(rt; child.start(&words), Err(LinkError::Failed));
    assert_eq!(rt; child.read_some(&mut [0u8; 8]), Err(LinkError::Failed));
}

// It writes until nobody reads, and then a signal ends it.
#[test]
fn a_program_that_reads_nothing_is_not_written_to(rt: HostRuntime) {
    let script = "exec <&-; echo; while echo; do :; done";
    let words = words_of(rt.alloc(), "sh", &["-c", script])
        .ok()
        .expect(&rt, "memory");
    let mut child = HostChild::new(rt.alloc(), &rt);
    assert_eq!(rt; child.start(&words), Ok(()));
    assert_eq!(rt; child.read_some(&mut [0u8; 1]), Ok(1));
    assert_eq!(rt; child.write(b"0\n"), Err(LinkError::Failed));
    assert_eq!(rt; child.wait(), Ok(128));
}
