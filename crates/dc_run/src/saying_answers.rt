// The tool `get-selections`: the answers of all questions, printed.
ghost use Rattle.std.specs.Prelude.{◌≡◌, IfOk, length, map as each};
ghost use Rattle.dc_run.specs.Inside.{HasPrintedAnswers, HasToldUnsaid, PrintsAnswers, context_by};
ghost use Rattle.dc_run.specs.Jobs.{answers_said, told_status};
ghost use Rattle.dc_run.specs.Starting.{AreOver};
ghost use Rattle.dc_store.specs.Views.{store_in};
ghost use Rattle.dc_run.specs.Roots.{shaped};

use crate::outcome::{ToolAnswer, ToolEnd};
use crate::showing::print;
use crate::starting::Roots;
use crate::telling::tell_unsaid;
use dc_dump::{Said, selections};
use dc_layer::Layer;
use dc_outside::Link;
use dc_question::Questions;
use dc_store::Store;
use dc_text::{Mem, Name, Text};
use std::alloc::Global;

/// Prints the lines by which `set-selections` answers all questions again (debconf-get-selections(1)), in one write, for a user of the language.
/// Those that can't be said by such lines are told on `err`, and the status is 1 where there is one. The layers stay as they are. The code of the
/// last reply so far is handed back.
pub fn say_answers<L: Link, E: Link>(
    alloc: Global,
    roots: &Roots,
    lang: &Text,
    io: &mut L,
    err: &mut E,
    used: &mut Vec<Box<dyn Layer>>,
    last_code: u8,
) -> ToolAnswer
    requires { AreOver (shaped roots.now) (length used.old.items) }
    ensures printed { HasPrintedAnswers (answers_said (each state used.old.items) (context_by (shaped roots.now) lang.now))
        (L.link io.old) (L.link io.new) (E.link err.old) (E.link err.new) last_code result }
    ensures layers { each state used.new.items ≡ each state used.old.items }
{
    let mut store = Store::new(alloc, std::mem::replace(used, Vec::new(alloc)));
    let answers = all_answers(alloc, roots, lang, &mut store);
    *used = store.layers;
    print_answers(io, err, answers, last_code)
}

// What is said of all questions.
fn all_answers(alloc: Global, roots: &Roots, lang: &Text, store: &mut Store) -> Mem<Said>
    requires { AreOver (shaped roots.now) (length store.old.layers.items) }
    ensures said { IfOk result (λ said. said ≡ answers_said (store_in state store.old).layers (context_by (shaped roots.now) lang.now)) }
    ensures kept { store.new ≡ store.old }
{
    let names = store.names(&roots.config)?;
    let questions = Questions::new(alloc, store, &roots.config, &roots.templates, lang);
    let said = selections(&questions, &names);
    let Questions {
        alloc: _,
        store: _kept,
        context: _,
    } = questions;
    said
}

// Prints the answers, and tells of those that can't be said.
fn print_answers<L: Link, E: Link>(
    io: &mut L,
    err: &mut E,
    answers: Mem<Said>,
    last_code: u8,
) -> ToolAnswer
    ensures { PrintsAnswers answers (L.link io.old) (L.link io.new) (E.link err.old) (E.link err.new) last_code result }
{
    match answers {
        Err(_) => ToolAnswer {
            ended: ToolEnd::OutOfMemory,
            is_started: false,
            last_code,
            status: 0,
        },
        Ok(Said { text, left_out }) => {
            let ended = print(io, &text);
            tell_printed(err, &ended, left_out.as_slice());
            ToolAnswer {
                ended,
                is_started: false,
                last_code,
                status: status_of_told(left_out.as_slice()),
            }
        }
    }
}

// Tells of what can't be said behind a text that was printed, or that should have been.
fn tell_printed<E: Link>(err: &mut E, ended: &ToolEnd, left_out: &[Name])
    ensures { HasToldUnsaid left_out.now ended.now (told_status left_out.now) (E.link err.old) (E.link err.new) }
{
    if let ToolEnd::OutOfMemory = ended {
        return;
    }
    tell_unsaid(err, left_out)
}

// The status of a tool that tells of these, which is 1 where there is one.
fn status_of_told(names: &[Name]) -> u8
    ensures { result ≡ told_status names.now }
{
    if names.is_empty() { 0 } else { 1 }
}
