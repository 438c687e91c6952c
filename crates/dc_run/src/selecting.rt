// The tool `set-selections`: questions answered before they are asked.
ghost use Rattle.std.specs.Prelude.{◌≡◌, length, map as each, true};
ghost use Rattle.dc_conf.specs.Plans.{are_disjoint};
ghost use Rattle.dc_run.specs.Inside.{HasTakenOver, context_by};
ghost use Rattle.dc_run.specs.Jobs.{refused_status, selections_end as selections_end_of};
ghost use Rattle.dc_run.specs.Starting.{AreOver};
ghost use Rattle.dc_conf.specs.Trees.{shape};
ghost use Rattle.dc_run.specs.Roots.{shaped};

use crate::outcome::{ToolAnswer, ToolEnd};
use crate::starting::Roots;
use dc_layer::Layer;
use dc_outside::Link;
use dc_preseed::{Choices, take_selections};
use dc_serve::LinkEnd;
use dc_text::{OutOfMemory, Text};
use std::alloc::Global;

/// Takes the selections that come on the link into the layers, for a user of the language (debconf-set-selections(1)). What is to be told of a
/// line is told on `err` before more is read, and the status is 1 where a line was refused. The code of the last reply so far is handed in and back.
pub fn select<L: Link, E: Link>(
    alloc: Global,
    choices: Choices,
    roots: &Roots,
    lang: &Text,
    io: &mut L,
    err: &mut E,
    used: &mut Vec<Box<dyn Layer>>,
    last_code: u8,
) -> ToolAnswer
    requires roots { AreOver (shaped roots.now) (length used.old.items) }
    requires disjoint { are_disjoint (shape roots.now.config) (shape roots.now.templates) ≡ true }
    ensures taken { HasTakenOver choices (context_by (shaped roots.now) lang.now) (each state used.old.items) (each state used.new.items)
        (L.link io.old) (L.link io.new) (E.link err.old) (E.link err.new) last_code result }
{
    let taken = take_selections(
        alloc,
        io,
        err,
        used,
        &roots.config,
        &roots.templates,
        lang,
        choices,
        last_code,
    );
    ToolAnswer {
        ended: selections_end(taken.end),
        is_started: false,
        last_code: taken.last_code,
        status: status_of_refused(taken.refused),
    }
}

// How the tool ends, by the end of its link.
fn selections_end(end: LinkEnd<OutOfMemory>) -> ToolEnd
    ensures { result ≡ selections_end_of end }
{
    match end {
        LinkEnd::Done => ToolEnd::Done,
        LinkEnd::LinkFault => ToolEnd::LinkFault,
        LinkEnd::TooLong => ToolEnd::TooLong,
        LinkEnd::OutOfMemory | LinkEnd::Broken(_) => ToolEnd::OutOfMemory,
    }
}

/// The status of a tool, which is 1 where something was refused.
pub fn status_of_refused(refused: bool) -> u8
    ensures { result ≡ refused_status refused }
{
    if refused { 1 } else { 0 }
}
