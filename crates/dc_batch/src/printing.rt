// The printed text of jobs.
ghost use Rattle.std.specs.Prelude.{◌≡◌, ◌∷◌, ◌++◌, ℕ, [], List as Listed, IfOk, OnOk};
ghost use Rattle.std.specs.List.{flat_map};
ghost use Rattle.dc_text.specs.Ascii.{space};
ghost use Rattle.dc_text.specs.Lines.{text_of};
ghost use Rattle.dc_batch.specs.Printed.{canon, job_lines, templates_lines, command_lines, joined};
ghost use Rattle.dc_batch.specs.Reading.{Reads};

use crate::job::Job;
use dc_text::{List, Mem, Text};
use std::alloc::Global;

/// The jobs as a text: a stanza each, with its fields in the order Package, Templates and Config. Of jobs that can be read,
/// `read_jobs` reads the same from it.
pub fn print_jobs(alloc: Global, jobs: &List<Job>) -> Mem<Text>
    ensures printed { IfOk result (λ text. text ≡ canon jobs.now) }
    ensures again { IfOk result (λ text. (other : Listed ℕ) → Reads other jobs.now → Reads text jobs.now) }
{
    let mut out = Text::new(alloc);
    for job in jobs.as_slice() {
        print_job(alloc, &mut out, job)?;
    }
    Ok(out)
}

fn print_job(alloc: Global, out: &mut Text, job: &Job) -> Mem<()>
    ensures { OnOk result (out.new ≡ out.old ++ text_of (job_lines job.now)) }
{
    print_line(out, b"Package: ", job.package.bytes())?;
    print_templates(out, &job.templates)?;
    print_command(alloc, out, job.command.as_slice())?;
    out.push(b'\n')
}

// Prints the line of a field.
fn print_line(out: &mut Text, field: &[u8], value: &[u8]) -> Mem<()>
    ensures { OnOk result (out.new ≡ out.old ++ text_of ((field.now ++ value.now) ∷ [])) }
{
    out.append(field)?;
    out.append(value)?;
    out.push(b'\n')
}

fn print_templates(out: &mut Text, templates: &Option<Text>) -> Mem<()>
    ensures { OnOk result (out.new ≡ out.old ++ text_of (templates_lines templates.now)) }
{
    match templates {
        Some(path) => print_line(out, b"Templates: ", path.bytes()),
        None => Ok(()),
    }
}

fn print_command(alloc: Global, out: &mut Text, command: &[Text]) -> Mem<()>
    ensures { OnOk result (out.new ≡ out.old ++ text_of (command_lines command.now)) }
{
    if command.is_empty() {
        return Ok(());
    }
    let line = join(alloc, command)?;
    print_line(out, b"Config: ", line.bytes())
}

// The words joined by one space.
fn join(alloc: Global, words: &[Text]) -> Mem<Text>
    ensures { IfOk result (λ line. line ≡ joined words.now) }
{
    let mut line = Text::new(alloc);
    if let [first, rest @ ..] = words {
        line.append(first.bytes())?;
        append_spaced(&mut line, rest)?;
    }
    Ok(line)
}

// Appends each word behind a space.
fn append_spaced(line: &mut Text, words: &[Text]) -> Mem<()>
    ensures { OnOk result (line.new ≡ line.old ++ flat_map (λ word. space ∷ word) words.now) }
{
    for word in words {
        line.push(b' ')?;
        line.append(word.bytes())?;
    }
    Ok(())
}
