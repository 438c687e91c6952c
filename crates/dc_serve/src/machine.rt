// What heeds the lines of a link.
ghost use Rattle.std.specs.Prelude.{◌≡◌, IfOk, IfErr};
ghost use Rattle.dc_words.specs.declared.stream.Line.{Line};
ghost use Rattle.dc_serve.specs.declared.machine.Response.{Response};

use dc_text::Text;
use dc_words::Line;

/// What a line did.
#[derive(Drop)]
pub enum Response {
    Silent,
    /// It has a reply, of this code and sent as these bytes.
    Replied { code: u8, text: Text },
    /// No more lines are heeded.
    Stopped,
}

/// A machine that is given lines, one after another. Contracts speak of what is seen of it, the state of a plain machine.
pub trait LineMachine {
    /// Why a line wasn't heeded to its end.
    type Break: Drop;

    ghost State: { Type 0 };

    ghost state: { Self → State };

    /// A line that comes in the first state does this, and leaves the second, in which what it has to tell isn't told yet.
    ghost handles: { State → Line → Response → State → Type 0 };

    /// A line that comes in the first state does this, and leaves the second: its reply is out, and what it has to tell is told.
    ghost steps: { State → Line → Response → State → Type 0 };

    /// A line that comes in the first state and isn't heeded to its end leaves the second.
    ghost aborts: { State → Line → Self.Break → State → Type 0 };

    ghost Borrows: { Type 0 };

    /// Which values of its maker it works on, through references.
    ghost borrows: { Self → Borrows };

    fn handle(&mut self, line: &Line) -> Result<Response, Self::Break>
        ensures ok { IfOk result (λ did. handles (state self.old) line.now did (state self.new)) }
        ensures err { IfErr result (λ error. aborts (state self.old) line.now error (state self.new)) }
        ensures borrows { borrows self.new ≡ borrows self.old };

    /// Tells what the last line has to tell beside its reply, which is out. So it stands behind that reply, and before all of the next line.
    fn tell(&mut self)
        ensures told { (before : State) (line : Line) (did : Response) → handles before line did (state self.old) → steps before line did (state self.new) }
        ensures borrows { borrows self.new ≡ borrows self.old };
}
