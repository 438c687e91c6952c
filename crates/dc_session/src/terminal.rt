// Where a session asks its user: a terminal, or the wire to a program that asks there.
ghost use Rattle.std.specs.Prelude.{◌≡◌};
ghost use Rattle.dc_session.specs.Displays.{OneLine, Dialogue, Request, Shows, where_asked};
ghost use Rattle.dc_session.specs.Inside.{told, done as done_of};
ghost use Rattle.dc_session.specs.SessionState.{terminal_at};

use crate::asking::Asking;
use crate::read_ahead::ReadAhead;
use crate::stepped::{StepError, step_error, wire_error};
use dc_frontend::{Frontend, Shown};
use dc_outside::{Link, LinkError};
use dc_pass::{ask_on_wire, tell_on_wire};
use dc_teletype::Asked;
use dc_text::{List, Text};

impl ReadAhead {
    // Tells the user a line, where one is asked.
    pub(crate) fn tell<T: Link>(
        &mut self,
        frontend: Frontend,
        link: &mut T,
        asking: &Asking,
        line: &Text,
    ) -> Result<(), StepError>
        ensures { Shows asking.now (where_asked frontend (OneLine line.now)) (terminal_at (T.link link.old) self.old)
            (told result) (terminal_at (T.link link.new) self.new) }
    {
        match frontend {
            Frontend::Noninteractive => Ok(()),
            Frontend::Teletype => done(self.teletype.tell(link, line)),
            Frontend::Passthrough => done(tell_on_wire(self.alloc, link, line)),
        }
    }

    // Has the user answer these questions, where one is asked, under what the confmodule said of itself.
    pub(crate) fn ask<T: Link>(
        &mut self,
        frontend: Frontend,
        link: &mut T,
        asking: &Asking,
        questions: &List<Shown>,
    ) -> Result<Asked, StepError>
        ensures { Shows asking.now (where_asked frontend (Dialogue questions.now)) (terminal_at (T.link link.old) self.old)
            result (terminal_at (T.link link.new) self.new) }
    {
        match frontend {
            Frontend::Noninteractive => Ok(Asked::Answers(List::new(self.alloc))),
            Frontend::Teletype => self.ask_typed(link, asking, questions),
            Frontend::Passthrough => self.ask_over(link, asking, questions),
        }
    }

    // Holds the dialogue over these questions on the terminal.
    fn ask_typed<T: Link>(
        &mut self,
        link: &mut T,
        asking: &Asking,
        questions: &List<Shown>,
    ) -> Result<Asked, StepError>
        ensures { Shows asking.now (Dialogue questions.now) (terminal_at (T.link link.old) self.old) result (terminal_at (T.link link.new) self.new) }
    {
        match self
            .teletype
            .ask(link, questions, asking.backup, &asking.title)
        {
            Ok(asked) => Ok(asked),
            Err(error) => Err(step_error(error)),
        }
    }

    // Asks the other program over the wire.
    fn ask_over<T: Link>(
        &mut self,
        link: &mut T,
        asking: &Asking,
        questions: &List<Shown>,
    ) -> Result<Asked, StepError>
        ensures { Shows asking.now (Request questions.now) (terminal_at (T.link link.old) self.old) result (terminal_at (T.link link.new) self.new) }
    {
        match ask_on_wire(
            self.alloc,
            &mut self.teletype.ahead,
            link,
            &mut self.got,
            questions,
            asking.backup,
            &asking.title,
        ) {
            Ok(asked) => Ok(asked),
            Err(error) => Err(wire_error(error)),
        }
    }
}

// What a call that only tells comes to.
fn done(told: Result<(), LinkError>) -> Result<(), StepError>
    ensures { result ≡ done_of told }
{
    match told {
        Ok(()) => Ok(()),
        Err(error) => Err(step_error(error)),
    }
}

/// The terminal of a session that asks nobody: it has no input, and what is written to it is lost.
#[derive(Drop)]
pub struct NoTerminal;

impl Link for NoTerminal {
    ghost use Rattle.dc_session.specs.SessionState.{nowhere};

    ghost link = { λ _. nowhere };

    fn read_some(&mut self, _buf: &mut [u8]) -> Result<usize, LinkError> {
        Ok(0)
    }

    fn write(&mut self, _bytes: &[u8]) -> Result<(), LinkError> {
        Ok(())
    }
}
