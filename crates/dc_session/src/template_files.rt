// Template files.
ghost use Rattle.std.specs.Prelude.{◌≡◌, IfOk, OnOk, OnErr};
ghost use Rattle.dc_session.specs.Inside.{SaysTemplates, HasDistinctNames};
ghost use Rattle.dc_session.specs.TemplateFiles.{Finds, FindsNoMemory};

use dc_outside::{Files, FilesError};
use dc_template::{Template, TemplateError, read_templates};
use dc_text::{List, Mem, OutOfMemory, Text};
use std::alloc::Global;

/// What is found where a template file is looked for.
#[derive(Drop)]
pub enum Found {
    /// The read failed.
    Unreadable,
    /// No file is there.
    Missing,
    /// The file's first line with a fault has this number.
    Faulty { line: u64 },
    /// The file's templates, in order.
    Templates(List<Template>),
}

/// Reads the template file at the path (debconf-loadtemplate(1)). No two of the templates that are found have the same name.
pub fn find_templates<F: Files>(alloc: Global, files: &mut F, path: &Text) -> Mem<Found>
    ensures ok { IfOk result (λ found. Finds path.now (F.files files.old) found (F.files files.new)) }
    ensures err { OnErr result (FindsNoMemory path.now (F.files files.old) (F.files files.new)) }
    ensures distinct { IfOk result HasDistinctNames }
{
    match files.read(path) {
        Ok(None) => Ok(Found::Missing),
        Ok(Some(text)) => templates_in(alloc, &text),
        Err(FilesError::Failed) => Ok(Found::Unreadable),
        Err(FilesError::OutOfMemory) => Err(OutOfMemory),
    }
}

// The templates of a text, or its first fault.
fn templates_in(alloc: Global, text: &Text) -> Mem<Found>
    ensures says { IfOk result (SaysTemplates text.now) }
    ensures distinct { IfOk result HasDistinctNames }
{
    match read_templates(alloc, text.bytes()) {
        Ok(templates) => Ok(Found::Templates(templates)),
        Err(TemplateError::Bad { line, kind: _ }) => Ok(Found::Faulty { line }),
        Err(TemplateError::OutOfMemory) => Err(OutOfMemory),
    }
}
