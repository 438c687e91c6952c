// The other end of the wire, to its end.
ghost use Rattle.std.specs.Prelude.{◌≡◌};
ghost use Rattle.dc_answer.specs.Answering.{IsAnswered};

use crate::answerer::{AnswerBreak, Answerer};
use dc_outside::Link;
use dc_pass::RequestReader;
use dc_serve::{LinkEnd, serve_link};
use dc_teletype::Teletype;
use std::alloc::Global;

/// Serves what a session sends over the wire: its requests are held as dialogues on the terminal, and its lines are written there. Each call is heeded
/// before more is read. Where the input ends within a request, the reading ends.
pub fn serve_requests<L: Link, T: Link>(
    alloc: Global,
    wire: &mut L,
    terminal: &mut T,
) -> LinkEnd<AnswerBreak>
    ensures { IsAnswered (T.link terminal.old) (T.link terminal.new) (L.link wire.old) (L.link wire.new) result }
{
    let mut answerer = Answerer {
        alloc,
        reader: RequestReader::new(alloc),
        got: 0,
        terminal,
        teletype: Teletype::new(alloc),
    };
    let end = serve_link(alloc, wire, &mut answerer, 0).end;
    let Answerer {
        alloc: _,
        reader: _begun,
        got: _,
        terminal: terminal_left,
        teletype: _typed,
    } = answerer;
    let_go(terminal_left);
    end
}

// Nothing more is done with it.
fn let_go<X>(x: &mut X)
    ensures { x.new ≡ x.old }
{}
