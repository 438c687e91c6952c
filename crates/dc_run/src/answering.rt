// The tool `answer`: a program is run, and what it asks for over its wire is asked on the terminal.
ghost use Rattle.std.specs.Prelude.{◌≡◌, ◌<◌, length, true};
ghost use Rattle.dc_outside.specs.Programs.{IsIdle, IsRunning};
ghost use Rattle.dc_run.specs.Ends.{answer_end as answer_end_of};
ghost use Rattle.dc_run.specs.Running.{HasAnswered};
ghost use Rattle.dc_run.specs.World.{links_of};

use crate::outcome::{ToolAnswer, ToolEnd};
use crate::serving::end_unstarted;
use dc_answer::{AnswerBreak, serve_requests};
use dc_outside::{Child, Link};
use dc_serve::LinkEnd;
use dc_text::{List, Text};
use std::alloc::Global;

/// Starts the program that the command names, and asks on the link `io` what it asks for over its wire (debconf(7), Frontends). It isn't waited for
/// here. The code of the last reply so far is handed back.
pub fn answer_program<L: Link, C: Child>(
    alloc: Global,
    command: &List<Text>,
    io: &mut L,
    child: &mut C,
    last_code: u8,
) -> ToolAnswer
    requires idle { IsIdle (C.link child.old).program.life }
    requires some { 0 < length command.now }
    ensures answered { HasAnswered command.now (links_of (L.link io.old) (C.link child.old)) (links_of (L.link io.new) (C.link child.new)) last_code result }
    ensures running { result.is_started ≡ true → IsRunning (C.link child.new).program.life }
{
    match child.start(command) {
        Err(error) => ToolAnswer {
            ended: end_unstarted(error),
            is_started: false,
            last_code,
            status: 0,
        },
        Ok(()) => ToolAnswer {
            ended: answer_end(serve_requests(alloc, child, io)),
            is_started: true,
            last_code,
            status: 0,
        },
    }
}

// How the tool ends, by the end of its wire.
fn answer_end(end: LinkEnd<AnswerBreak>) -> ToolEnd
    ensures { result ≡ answer_end_of end }
{
    match end {
        LinkEnd::Done => ToolEnd::Done,
        LinkEnd::LinkFault => ToolEnd::LinkFault,
        LinkEnd::TooLong => ToolEnd::TooLong,
        LinkEnd::OutOfMemory => ToolEnd::OutOfMemory,
        LinkEnd::Broken(AnswerBreak::Wire { line }) => ToolEnd::BadWire { line },
        LinkEnd::Broken(AnswerBreak::Term) => ToolEnd::TermFault,
        LinkEnd::Broken(AnswerBreak::OutOfMemory) => ToolEnd::OutOfMemory,
    }
}
