// The five numbers.
ghost use Rattle.std.specs.Prelude.{◌≡◌, ◌++◌, ◌∷◌, [], IfOk, OnOk, length};
ghost use Rattle.dc_conf.specs.Plans.{IsOver};
ghost use Rattle.dc_conf.specs.Trees.{shape};
ghost use Rattle.dc_store.specs.Views.{store_in};
ghost use Rattle.dc_text.specs.Lines.{text_of};
ghost use Rattle.dc_drill.specs.Report.{number_line, record_at, records_text as records_text_of, report};

use crate::commands::{append_number, command_count};
use crate::replies::{count_ok, count_refusals};
use dc_conf::Plan;
use dc_item::print_record;
use dc_layer::Layer;
use dc_outside::Piece;
use dc_store::Store;
use dc_text::{Mem, Name, Text};
use std::alloc::Global;

/// The text of the five numbers: of the commands for so many questions, of the replies among this talk, and of the names that the plan has.
pub fn report_text(
    alloc: Global,
    count: u32,
    talk: &[Piece],
    store: &Store,
    plan: &Plan,
) -> Mem<Text>
    requires { IsOver (shape plan.now) (length store.now.layers.items) }
    ensures { IfOk result (λ text. text ≡ report count talk.now (store_in state store.now).layers (shape plan.now)) }
{
    let names = store.names(plan)?;
    let records = records_text(alloc, store, plan, names.as_slice())?;
    let mut text = Text::new(alloc);
    append_line(&mut text, b"commands", command_count(count))?;
    append_line(&mut text, b"ok", count_ok(talk) as u64)?;
    append_line(&mut text, b"refused", count_refusals(talk) as u64)?;
    append_line(&mut text, b"questions", names.len() as u64)?;
    append_line(&mut text, b"bytes", records.bytes().len() as u64)?;
    Ok(text)
}

// Adds a number behind its word.
fn append_line(text: &mut Text, word: &[u8], number: u64) -> Mem<()>
    ensures { OnOk result (text.new ≡ text.old ++ text_of (number_line word.now number ∷ [])) }
{
    text.append(word)?;
    text.append(b": ")?;
    append_number(text, number)?;
    text.push(b'\n')?;
    Ok(())
}

// The printed records of the items that are seen under the names.
fn records_text(alloc: Global, store: &Store, plan: &Plan, names: &[Name]) -> Mem<Text>
    requires { IsOver (shape plan.now) (length store.now.layers.items) }
    ensures { IfOk result (λ text. text ≡ records_text_of (store_in state store.now).layers (shape plan.now) names.now) }
{
    let mut text = Text::new(alloc);
    for name in names {
        append_record(alloc, &mut text, store, plan, name)?;
    }
    Ok(text)
}

// Adds the printed record of the item that is seen under the name.
fn append_record(alloc: Global, text: &mut Text, store: &Store, plan: &Plan, name: &Name) -> Mem<()>
    requires { IsOver (shape plan.now) (length store.now.layers.items) }
    ensures { OnOk result (text.new ≡ text.old ++ text_of (record_at (store_in state store.now).layers (shape plan.now) name.now)) }
{
    match store.look(plan, name) {
        None => Ok(()),
        Some(item) => print_record(alloc, text, name.bytes(), item),
    }
}
