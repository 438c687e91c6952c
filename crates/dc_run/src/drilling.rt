// The tool `drill`: many valid commands served, and counted.
ghost use Rattle.std.specs.Prelude.{◌≡◌, length, map as each, true};
ghost use Rattle.dc_conf.specs.Plans.{are_disjoint};
ghost use Rattle.dc_run.specs.Inside.{DrillsOver, HasDrilledOver};
ghost use Rattle.dc_run.specs.Starting.{AreOver};
ghost use Rattle.dc_conf.specs.Trees.{shape};
ghost use Rattle.dc_run.specs.Roots.{shaped};

use crate::outcome::{ToolAnswer, ToolEnd};
use crate::settings::Settings;
use crate::showing::print;
use crate::starting::{Roots, chosen};
use dc_drill::drill;
use dc_frontend::Frontend;
use dc_layer::Layer;
use dc_outside::Link;
use dc_serve::LinkEnd;
use dc_session::{SessionSetup, StepError};
use dc_text::{Name, Text};
use std::alloc::Global;

/// Serves the commands for so many questions to a session over the layers, and prints its numbers in one write. The code of the last reply so far
/// is handed back.
pub fn drill_layers<L: Link>(
    alloc: Global,
    count: u32,
    roots: &Roots,
    settings: &Settings,
    io: &mut L,
    used: &mut Vec<Box<dyn Layer>>,
    last_code: u8,
) -> ToolAnswer
    requires roots { AreOver (shaped roots.now) (length used.old.items) }
    requires disjoint { are_disjoint (shape roots.now.config) (shape roots.now.templates) ≡ true }
    ensures drilled { HasDrilledOver count (shaped roots.now) settings.now (each state used.old.items) (each state used.new.items)
        (L.link io.old) (L.link io.new) last_code result }
{
    let ended = match text_drilled(alloc, count, roots, settings, used) {
        Ok(text) => print(io, &text),
        Err(_) => ToolEnd::OutOfMemory,
    };
    ToolAnswer {
        ended,
        is_started: false,
        last_code,
        status: 0,
    }
}

// The text of the numbers.
fn text_drilled(
    alloc: Global,
    count: u32,
    roots: &Roots,
    settings: &Settings,
    used: &mut Vec<Box<dyn Layer>>,
) -> Result<Text, LinkEnd<StepError>>
    requires roots { AreOver (shaped roots.now) (length used.old.items) }
    requires disjoint { are_disjoint (shape roots.now.config) (shape roots.now.templates) ≡ true }
    ensures { DrillsOver count (shaped roots.now) settings.now (each state used.old.items) (each state used.new.items) result }
{
    let Ok(owner) = Name::read(alloc, b"drill") else {
        return Err(LinkEnd::OutOfMemory);
    };
    let setup = SessionSetup {
        owner: &owner,
        lang: &settings.lang,
        frontend: Some(Frontend::Noninteractive),
        threshold: chosen(settings, roots),
        nonint_seen: settings.nonint_seen,
    };
    drill(alloc, count, used, &roots.config, &roots.templates, &setup)
}
