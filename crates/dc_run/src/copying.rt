// The tool `copydb`: items of one database copied into another.
ghost use Rattle.std.specs.Prelude.{◌≡◌, length, map as each, true};
ghost use Rattle.dc_conf.specs.Plans.{IsOver, are_disjoint};
ghost use Rattle.dc_run.specs.Inside.{CopiesOver, HasCopiedOver, TellsCopied, copying_by};
ghost use Rattle.dc_run.specs.Starting.{AreOver, IsCopyOver};
ghost use Rattle.dc_conf.specs.Trees.{shape};
ghost use Rattle.dc_run.specs.Roots.{shaped, shaped_copy};

use crate::outcome::{ToolAnswer, ToolEnd};
use crate::selecting::status_of_refused;
use crate::starting::{CopyRoots, Roots};
use crate::telling::tell_text;
use dc_layer::Layer;
use dc_outside::Link;
use dc_store::Store;
use dc_text::Mem;
use dc_tools::{CopyReport, copy_items};
use std::alloc::Global;

/// Copies items from the one database of the roots into the other (debconf-copydb(1)). Item by item what the layers told of it, or that it was
/// refused, is told on `err`, and the status is 1 where one was refused. The code of the last reply so far is handed back.
pub fn copy_database<E: Link>(
    alloc: Global,
    roots: &Roots,
    err: &mut E,
    used: &mut Vec<Box<dyn Layer>>,
    last_code: u8,
) -> ToolAnswer
    requires roots { AreOver (shaped roots.now) (length used.old.items) }
    requires dest { IsCopyOver (shaped roots.now).copy (shape roots.now.config) (length used.old.items) }
    ensures copies { CopiesOver (shaped roots.now) (each state used.old.items) (each state used.new.items) (E.link err.old) (E.link err.new) last_code result }
{
    match &roots.copy {
        Some(copy) => copy_into(alloc, roots, copy, err, used, last_code),
        None => unreachable!(),
    }
}

fn copy_into<E: Link>(
    alloc: Global,
    roots: &Roots,
    copy: &CopyRoots,
    err: &mut E,
    used: &mut Vec<Box<dyn Layer>>,
    last_code: u8,
) -> ToolAnswer
    requires roots { AreOver (shaped roots.now) (length used.old.items) }
    requires dest { IsOver (shape copy.now.dest) (length used.old.items) }
    requires apart { are_disjoint (shape roots.now.config) (shape copy.now.dest) ≡ true }
    ensures copies { HasCopiedOver (copying_by (shaped roots.now) (shaped_copy copy.now)) (each state used.old.items) (each state used.new.items)
        (E.link err.old) (E.link err.new) last_code result }
{
    let mut store = Store::new(alloc, std::mem::replace(used, Vec::new(alloc)));
    let copied = copy_items(
        &mut store,
        &roots.config,
        &copy.dest,
        &roots.templates,
        copy.by_name.as_ref(),
        copy.by_owner.as_ref(),
    );
    *used = store.layers;
    answer_of(err, copied, last_code)
}

// The answer of a copy whose report is told, or that ran out of memory.
fn answer_of<E: Link>(err: &mut E, copied: Mem<CopyReport>, last_code: u8) -> ToolAnswer
    ensures { TellsCopied copied (E.link err.old) (E.link err.new) last_code result }
{
    match copied {
        Ok(report) => {
            tell_text(err, &report.lines);
            ToolAnswer {
                ended: ToolEnd::Done,
                is_started: false,
                last_code,
                status: status_of_refused(report.refused),
            }
        }
        Err(_) => ToolAnswer {
            ended: ToolEnd::OutOfMemory,
            is_started: false,
            last_code,
            status: 0,
        },
    }
}
