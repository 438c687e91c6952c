//! The program: the edge to the host, and the call of the run.
#![tactic(auto)]

mod filling;
mod open_to_all;
mod surroundings;

use crate::filling::run_over;
use crate::open_to_all::paths_open_to_all;
use crate::surroundings::{read_settings, read_words};
use dc_host::HostFiles;
use dc_pipes::{HostChild, HostLink, HostOutput};
use dc_text::Mem;
use std::io;
use std::process::ExitCode;

/// The exit status where memory ran out before the run began.
const OUT_OF_MEMORY: u8 = 122;

fn main(rt: HostRuntime) -> ExitCode {
    match run(rt) {
        Ok(status) => ExitCode::from(status),
        Err(_) => ExitCode::from(OUT_OF_MEMORY),
    }
}

fn run(rt: HostRuntime) -> Mem<u8> {
    let alloc = rt.alloc();
    let words = read_words(alloc, &rt)?;
    let settings = read_settings(alloc, &rt)?;
    let open_to_all = paths_open_to_all(alloc, rt, &settings, &words)?;
    let mut io = HostLink::new(rt.stdin(), HostOutput::new(&rt.stdout()));
    let mut err = HostLink::new(io::empty(), HostOutput::new(&rt.stderr()));
    let mut child = HostChild::new(alloc, &rt);
    let mut files = HostFiles::new(alloc, rt, open_to_all);
    run_over(
        alloc, &words, &settings, &mut io, &mut err, &mut child, &mut files,
    )
}
