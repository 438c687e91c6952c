//! Plays the runs that are written on a page: over a link and files in memory, each by the program's own call. It writes the page, and
//! behind each run what was said, how it ended, and what stands then. The head of the page tells the page's language.
#![tactic(auto)]

mod blocks;
mod ends;
mod examples;
mod playing;
mod ran;
mod speaker;
mod stage;
mod telling;

use crate::blocks::{LineKind, kind_of, split_part};
use crate::examples::tell_example;
use dc_text::Text;
use std::alloc::Global;
use std::io::{Read, Write};
use std::process::ExitCode;

fn main(rt: HostRuntime) -> ExitCode {
    match play_page(&rt) {
        Some(()) => ExitCode::SUCCESS,
        None => ExitCode::FAILURE,
    }
}

fn play_page(rt: &HostRuntime) -> Option<()> {
    let alloc = rt.alloc();
    let mut page = Vec::new(alloc);
    rt.stdin().read_to_end(&mut page).ok()?;
    let mut told = Text::new(alloc);
    tell_page(alloc, page.as_slice(), &mut told)?;
    rt.stdout().write_all(told.bytes()).ok()
}

// The page with what comes of its runs. What stands in a chapter before its first example begins each of its examples.
fn tell_page(alloc: Global, page: &[u8], told: &mut Text) -> Option<()> {
    let mut ground: &[u8] = b"";
    let mut rest = page;
    while !rest.is_empty() {
        let (part, after) = split_part(rest);
        match kind_of(part) {
            LineKind::Example => tell_example(alloc, ground, part, told)?,
            LineKind::Chapter | LineKind::Prose | LineKind::Words => {
                ground = part;
                told.append(part).ok()?;
            }
        }
        rest = after;
    }
    Some(())
}
