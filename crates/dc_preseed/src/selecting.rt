// Selections that come over a link.
ghost use Rattle.std.specs.Prelude.{◌≡◌, [], Err, Some, IfOk, OnOk, OnErr};
ghost use Rattle.std.specs.Borrow.{GName};
ghost use Rattle.dc_outside.specs.State.{LinkState};
ghost use Rattle.dc_words.specs.declared.stream.Line.TheVariants.{Whole};
ghost use Rattle.dc_preseed.specs.Joiner.{taken};
ghost use Rattle.dc_preseed.specs.Selecting.{SelectorState, HandlesSelection, TakesSelection, LosesJoined, LosesSelection, Keeps, TellsAll, Finishes, FinishesLast, after_joined, after_line, after_taken, borrows_of, done_text, line_text as line_text_of, machine_of, refused_for, selector_of, taken_at_end};

use crate::joining::Joined;
use crate::lines::{LineDone, LineFault, set_line};
use crate::selected::SelectedQuestions;
use dc_layer::Layer;
use dc_outside::{Link, tell};
use dc_question::Questions;
use dc_serve::{LineMachine, LinkEnd, Response};
use dc_text::{Mem, OutOfMemory, Text};
use dc_words::Line;
use itoa::Buffer;
use std::alloc::Global;

/// A machine that does the lines of selections that it is given, and tells of them on standard error.
#[derive(Drop)]
pub struct Selector<'s, 'e, E: Link> {
    pub selections: SelectedQuestions<'s>,
    pub err: &'e mut E,
}

impl<'s, 'e, E: Link> LineMachine for Selector<'s, 'e, E> {
    type Break = OutOfMemory;

    ghost State = { SelectorState };

    ghost state = { machine_of (λ b. (Layer-box b).state b.value) E.link };

    ghost handles = { HandlesSelection };

    ghost steps = { TakesSelection };

    ghost aborts = { LosesSelection };

    ghost Borrows = { GName × GName };

    ghost borrows = { borrows_of };

    fn handle(&mut self, line: &Line) -> Result<Response, OutOfMemory> {
        self.selections.take(line)?;
        Ok(Response::Silent)
    }

    fn tell(&mut self) {
        self.tell_all();
    }
}

impl<'s, 'e, E: Link> Selector<'s, 'e, E> {
    // Tells what there is to tell, as far as standard error takes it: first what the line has to tell, then what the layers told.
    fn tell_all(&mut self)
        ensures told { TellsAll (machine_of state E.link self.old) (machine_of state E.link self.new) }
        ensures borrows { borrows_of self.new ≡ borrows_of self.old }
    {
        let selections = &mut self.selections;
        let told = told_of(&mut selections.questions);
        let none = Text::new(selections.questions.alloc);
        let untold = std::mem::replace(&mut selections.untold, none);
        tell(self.err, untold.bytes());
        tell(self.err, told.bytes());
    }

    /// Finishes selections whose link was served to this end: where the input ended, what still goes on is a line.
    pub(crate) fn finish(&mut self, served: LinkEnd<OutOfMemory>) -> LinkEnd<OutOfMemory>
        ensures finishes { Finishes served (machine_of state E.link self.old) (machine_of state E.link self.new) result }
        ensures borrows { borrows_of self.new ≡ borrows_of self.old }
    {
        match served {
            LinkEnd::Done => self.finish_last(),
            LinkEnd::LinkFault => LinkEnd::LinkFault,
            LinkEnd::TooLong => LinkEnd::TooLong,
            LinkEnd::OutOfMemory => LinkEnd::OutOfMemory,
            LinkEnd::Broken(_) => LinkEnd::OutOfMemory,
        }
    }

    // What still goes on is a line, which is done and told.
    fn finish_last(&mut self) -> LinkEnd<OutOfMemory>
        ensures last { FinishesLast (machine_of state E.link self.old) (machine_of state E.link self.new) result }
        ensures borrows { borrows_of self.new ≡ borrows_of self.old }
    {
        match self.selections.take_last() {
            Ok(()) => {
                self.tell_all();
                LinkEnd::Done
            }
            Err(_) => LinkEnd::OutOfMemory,
        }
    }
}

impl<'s> SelectedQuestions<'s> {
    // Takes the next line, and does the joined line that it ends. What it has to tell is kept.
    fn take(&mut self, line: &Line) -> Mem<()>
        ensures ok { (err : LinkState) → OnOk result (selector_of state self.new err
            ≡ after_taken (selector_of state self.old err) (taken self.old.joiner line.now)) }
        ensures err { (err : LinkState) → OnErr result (LosesJoined (selector_of state self.old err) (taken self.old.joiner line.now).whole
            (selector_of state self.new err)) }
        ensures borrows { self.new.questions.store.ghost_name ≡ self.old.questions.store.ghost_name }
    {
        let joined = self.joiner.take(line)?;
        self.take_joined(joined)
    }

    // The end of the input: what still goes on is a line.
    fn take_last(&mut self) -> Mem<()>
        ensures ok { (err : LinkState) → OnOk result (selector_of state self.new err
            ≡ after_taken (selector_of state self.old err) (taken_at_end self.old.joiner)) }
        ensures err { (err : LinkState) → OnErr result (LosesJoined (selector_of state self.old err) (taken_at_end self.old.joiner).whole
            (selector_of state self.new err)) }
        ensures borrows { self.new.questions.store.ghost_name ≡ self.old.questions.store.ghost_name }
    {
        let joined = self.joiner.end();
        self.take_joined(joined)
    }

    // Does a joined line, where there is one, and keeps what it has to tell.
    fn take_joined(&mut self, joined: Option<Joined>) -> Mem<()>
        ensures ok { (err : LinkState) → OnOk result (selector_of state self.new err ≡ after_joined (selector_of state self.old err) joined) }
        ensures err { (err : LinkState) → OnErr result (LosesJoined (selector_of state self.old err) joined (selector_of state self.new err)) }
        ensures borrows { self.new.questions.store.ghost_name ≡ self.old.questions.store.ghost_name }
    {
        match joined {
            None => {
                self.untold = Text::new(self.questions.alloc);
                Ok(())
            }
            Some(joined) => self.do_joined(&joined),
        }
    }

    // Does a joined line, and keeps what it has to tell.
    fn do_joined(&mut self, joined: &Joined) -> Mem<()>
        ensures ok { (err : LinkState) → OnOk result (selector_of state self.new err
            ≡ after_line (selector_of state self.old err) joined.now.first joined.now.whole) }
        ensures err { (err : LinkState) → OnErr result (LosesJoined (selector_of state self.old err) (Some joined.now) (selector_of state self.new err)) }
        ensures borrows { self.new.questions.store.ghost_name ≡ self.old.questions.store.ghost_name }
    {
        match &joined.whole {
            Line::TooLong => self.refuse(joined.first, b"line too long"),
            Line::Whole(line) => self.do_line(joined.first, line),
        }
    }

    // Does a line of this number.
    fn do_line(&mut self, number: u64, line: &Text) -> Mem<()>
        ensures ok { (err : LinkState) → OnOk result (selector_of state self.new err
            ≡ after_line (selector_of state self.old err) number (Whole line.now)) }
        ensures err { (err : LinkState) → OnErr result (LosesJoined (selector_of state self.old err)
            (Some (record { first = number; whole = Whole line.now })) (selector_of state self.new err)) }
        ensures borrows { self.new.questions.store.ghost_name ≡ self.old.questions.store.ghost_name }
    {
        let choices = self.choices;
        let outcome = set_line(
            &mut self.questions,
            line.bytes(),
            choices.check,
            choices.unseen,
        );
        self.keep(number, outcome)
    }

    // Keeps what there is to tell of a line that came to this.
    fn keep(&mut self, number: u64, outcome: Result<LineDone, LineFault>) -> Mem<()>
        ensures ok { (err : LinkState) → OnOk result (Keeps (selector_of state self.old err) number outcome (selector_of state self.new err)) }
        ensures err { (err : LinkState) → OnErr result (selector_of state self.new err ≡ selector_of state self.old err) }
        ensures borrows { self.new.questions.store.ghost_name ≡ self.old.questions.store.ghost_name }
    {
        match outcome {
            Ok(done) => {
                self.untold = done_line(self.questions.alloc, self.choices.verbose, number, &done)?;
                Ok(())
            }
            Err(fault) => self.refuse_by(number, fault),
        }
    }

    // A line of this number was refused by this fault, unless memory ran out.
    fn refuse_by(&mut self, number: u64, fault: LineFault) -> Mem<()>
        ensures ok { (err : LinkState) → OnOk result (Keeps (selector_of state self.old err) number (Err fault) (selector_of state self.new err)) }
        ensures err { (err : LinkState) → OnErr result (selector_of state self.new err ≡ selector_of state self.old err) }
        ensures borrows { self.new.questions.store.ghost_name ≡ self.old.questions.store.ghost_name }
    {
        match fault {
            LineFault::TooFew => self.refuse(number, b"too few words"),
            LineFault::BadName => self.refuse(number, b"bad name"),
            LineFault::BadType => self.refuse(number, b"bad type"),
            LineFault::BadFlagValue => self.refuse(number, b"bad flag value"),
            LineFault::NoQuestion => self.refuse(number, b"no question"),
            LineFault::CantChange => self.refuse(number, b"can't be changed"),
            LineFault::OutOfMemory => Err(OutOfMemory),
        }
    }

    // A line of this number was refused for this.
    fn refuse(&mut self, number: u64, text: &[u8]) -> Mem<()>
        ensures ok { (err : LinkState) → OnOk result (selector_of state self.new err ≡ refused_for (selector_of state self.old err) number text.now) }
        ensures err { (err : LinkState) → OnErr result (selector_of state self.new err ≡ selector_of state self.old err) }
        ensures borrows { self.new.questions.store.ghost_name ≡ self.old.questions.store.ghost_name }
    {
        self.untold = line_text(self.questions.alloc, number, text)?;
        self.refused = true;
        Ok(())
    }
}

// What is told of a line that was taken.
fn done_line(alloc: Global, verbose: bool, number: u64, done: &LineDone) -> Mem<Text>
    ensures { IfOk result (λ text. text ≡ done_text verbose number done.now) }
{
    match done {
        LineDone::ValueSet(question) | LineDone::SeenSet(question) if verbose => {
            line_text(alloc, number, question.bytes())
        }
        _ => Ok(Text::new(alloc)),
    }
}

// A line about a line of this number.
fn line_text(alloc: Global, number: u64, text: &[u8]) -> Mem<Text>
    ensures { IfOk result (λ line. line ≡ line_text_of number text.now) }
{
    let mut buffer = Buffer::new();
    let mut line = Text::from_bytes(alloc, b"line ")?;
    line.append(buffer.format(number).as_bytes())?;
    line.append(b": ")?;
    line.append(text)?;
    line.push(b'\n')?;
    Ok(line)
}

// What the layers told, which is forgotten then.
fn told_of(questions: &mut Questions<'_>) -> Text
    ensures told { result ≡ questions.old.store.now.told }
    ensures forgotten { questions.new.store.now.told ≡ [] }
    ensures layers { questions.new.store.now.layers.items ≡ questions.old.store.now.layers.items }
    ensures context { questions.new.context ≡ questions.old.context }
    ensures borrows { questions.new.store.ghost_name ≡ questions.old.store.ghost_name }
{
    let store = &mut *questions.store;
    std::mem::replace(&mut store.told, Text::new(questions.alloc))
}
