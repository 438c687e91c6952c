// A machine that tells on standard error what it is given, behind a link.
ghost use Rattle.std.specs.Prelude.{◌≡◌, ℕ, List, [], IfOk};
ghost use Rattle.std.specs.Borrow.{GName};
ghost use Rattle.dc_serve.specs.LinkRun.{ServesLink};
ghost use Rattle.dc_serve.specs.Telling.{TellerState, IsToTell, Tells as TellsOn, TellsNothing as TellsNothingOn, told_of};

use crate::{Conversation, LineMachine, LinkEnd, Response, serve_link};
use dc_outside::{Link, MemLink};
use dc_text::{Mem, OutOfMemory, Text};
use dc_words::Line;
use std::alloc::Global;

// It replies to each line, and tells it behind that.
#[derive(Drop)]
struct Teller<'e, E: Link> {
    alloc: Global,
    err: &'e mut E,
    untold: Text,
}

impl<'e, E: Link> LineMachine for Teller<'e, E> {
    type Break = OutOfMemory;

    ghost State = { TellerState };

    ghost state = { λ t. record { err = E.link t.err.now; untold = t.untold } };

    ghost handles = { IsToTell };

    ghost steps = { TellsOn };

    ghost aborts = { TellsNothingOn };

    ghost Borrows = { GName };

    ghost borrows = { λ t. t.err.ghost_name };

    fn handle(&mut self, line: &Line) -> Result<Response, OutOfMemory> {
        let text = Text::from_bytes(self.alloc, b"0 ok\n")?;
        self.untold = told(self.alloc, line)?;
        Ok(Response::Replied { code: 0, text })
    }

    fn tell(&mut self) {
        let _ = self.err.write(self.untold.bytes());
        self.untold = Text::new(self.alloc);
    }
}

fn told(alloc: Global, line: &Line) -> Mem<Text>
    ensures { IfOk result (λ told. told ≡ told_of line.now) }
{
    match line {
        Line::TooLong => Text::from_bytes(alloc, b"debug: a long line\n"),
        Line::Whole(text) => {
            let mut told = Text::from_bytes(alloc, b"debug: ")?;
            told.append(text.bytes())?;
            told.append(b"\n")?;
            Ok(told)
        }
    }
}

// Tells the lines of the link on standard error: each in its own transition, behind its reply.
fn tell_lines<L: Link, E: Link>(
    alloc: Global,
    io: &mut L,
    err: &mut E,
    last_code: u8,
) -> Conversation<OutOfMemory>
    ensures { (untold : List ℕ) × ServesLink TellsOn TellsNothingOn (L.link io.old) (L.link io.new)
        (record { err = E.link err.old; untold = [] }) result.end (record { err = E.link err.new; untold = untold }) last_code result.last_code }
{
    let mut teller = Teller {
        alloc,
        err,
        untold: Text::new(alloc),
    };
    let served = serve_link(alloc, io, &mut teller, last_code);
    let Teller {
        alloc: _,
        err,
        untold: _told,
    } = teller;
    let_go(err);
    served
}

// Nothing more is done with it.
fn let_go<X>(x: &mut X)
    ensures { x.new ≡ x.old }
{}

#[test]
fn what_a_command_tells_stands_behind_its_reply(rt: HostRuntime) {
    let mut io = MemLink::new(rt.alloc(), b"a\nb\nc", &[1, 2], &[]).expect(&rt, "memory");
    let mut err = MemLink::new(rt.alloc(), b"", &[], &[]).expect(&rt, "memory");
    let served = tell_lines(rt.alloc(), &mut io, &mut err, 30);
    assert!(rt; matches!(served.end, LinkEnd::Done));
    assert_eq!(rt; served.last_code, 0);
    assert_eq!(rt; io.sent().bytes(), b"0 ok\n0 ok\n0 ok\n".as_slice());
    let told = b"debug: a\ndebug: b\ndebug: c\n".as_slice();
    assert_eq!(rt; err.sent().bytes(), told);
}

#[test]
fn the_last_code_stays_where_no_reply_comes(rt: HostRuntime) {
    let mut io = MemLink::new(rt.alloc(), b"", &[], &[]).expect(&rt, "memory");
    let mut err = MemLink::new(rt.alloc(), b"", &[], &[]).expect(&rt, "memory");
    let served = tell_lines(rt.alloc(), &mut io, &mut err, 30);
    assert!(rt; matches!(served.end, LinkEnd::Done));
    assert_eq!(rt; served.last_code, 30);
}
