// Ends, in words.
use dc_run::{End, Outcome, PatternAt};
use dc_text::Text;
use std::alloc::Global;

// What an end carries beside its name.
#[derive(Clone, Copy)]
enum Carried<'e> {
    Nothing,
    Place(&'static str, u64),
    Path(&'e Text),
    Line(&'e Text, u64),
}

fn carried_by(at: &PatternAt) -> Carried<'_> {
    match at {
        PatternAt::Database(place) => Carried::Place("database", *place as u64),
        PatternAt::Word(place) => Carried::Place("word", *place as u64),
    }
}

fn end_parts(end: &End) -> (&'static str, Carried<'_>) {
    match end {
        End::Done => ("done", Carried::Nothing),
        End::Usage { word } => ("usage", Carried::Place("word", *word as u64)),
        End::ConfRefused { line, kind: _ } => ("configuration", Carried::Place("line", *line)),
        End::BadPattern { at } => ("bad pattern", carried_by(at)),
        End::PatternTooLarge { at } => ("large pattern", carried_by(at)),
        End::Damaged { path, line } => ("damaged", Carried::Line(path, *line)),
        End::FilesFault { path } => ("files", Carried::Path(path)),
        End::LinkFault => ("link", Carried::Nothing),
        End::TermFault => ("terminal", Carried::Nothing),
        End::ChildFault => ("child", Carried::Nothing),
        End::TooLong => ("too long", Carried::Nothing),
        End::OutOfMemory => ("memory", Carried::Nothing),
        End::BadWire { line } => ("wire", Carried::Place("line", *line)),
    }
}

/// The end with what it carries, and the status.
pub fn append_end(alloc: Global, told: &mut Text, outcome: &Outcome) -> Option<()> {
    let (name, carried) = end_parts(&outcome.end);
    told.append(b"end: ").ok()?;
    told.append(name.as_bytes()).ok()?;
    match carried {
        Carried::Nothing => {}
        Carried::Place(what, number) => append_place(alloc, told, what, number)?,
        Carried::Path(path) => append_path(told, path)?,
        Carried::Line(path, number) => {
            append_path(told, path)?;
            append_place(alloc, told, "line", number)?;
        }
    }
    let status = format!(in alloc; ", status {}\n", outcome.status).ok()?;
    told.append(status.as_bytes()).ok()
}

fn append_place(alloc: Global, told: &mut Text, what: &str, number: u64) -> Option<()> {
    let place = format!(in alloc; ", {what} {number}").ok()?;
    told.append(place.as_bytes()).ok()
}

fn append_path(told: &mut Text, path: &Text) -> Option<()> {
    told.append(b", ").ok()?;
    told.append(path.bytes()).ok()
}
