// The jobs of a text.
ghost use Rattle.std.specs.Prelude.{◌≡◌, ◌<◌, ◌||◌, ◌∷◌, false, true, IfOk, OnOk, MatchResult, Ok, None};
ghost use Rattle.dc_text.specs.Faults.{run};
ghost use Rattle.dc_text.specs.Names.{is_name as is_name_of};
ghost use Rattle.dc_batch.specs.Forms.{forms, lines_in};
ghost use Rattle.dc_batch.specs.JobFaults.{until_blank};
ghost use Rattle.dc_batch.specs.Jobs.{has_field as has_field_of, jobs_in};
ghost use Rattle.dc_batch.specs.Reading.{IsAnswer};

use crate::draft::Draft;
use crate::faults::{JobError, JobKind};
use crate::forms::{Field, Form, Line, read_lines};
use crate::job::Job;
use dc_text::names::is_name;
use dc_text::{List, Mem, Text};
use std::alloc::Global;

/// How many jobs a text has at most.
const MOST_JOBS: u32 = 256;

/// The jobs of a text, in order: one for each stanza. Where a line has a fault, the error is the first such line, and at that line
/// the first of its faults in the order of `JobKind`.
pub fn read_jobs(alloc: Global, bytes: &[u8]) -> Result<List<Job>, JobError>
    ensures { IsAnswer bytes.now result }
{
    let lines = read_lines(alloc, bytes)?;
    let reader = take_lines(alloc, lines.as_slice())?;
    let jobs = reader.finish(alloc)?;
    Ok(jobs)
}

/// What the lines so far say.
#[derive(Drop)]
pub struct Reader {
    /// The jobs of the stanzas that are ended.
    pub jobs: List<Job>,
    /// How many stanzas are begun.
    pub begun: u32,
    /// Whether the last of them isn't ended.
    pub is_open: bool,
    /// Its fields.
    pub draft: Draft,
}

ghost use Rattle.dc_batch.specs.Machine.{at_start, step, Fails};

// What all lines say, or the first fault.
fn take_lines(alloc: Global, lines: &[Line]) -> Result<Reader, JobError>
    ensures { MatchResult result (λ reader. run step lines.now at_start ≡ Ok reader) (λ error. Fails error (run step lines.now at_start)) }
{
    let mut reader = Reader::new(alloc);
    let mut rest = lines;
    while let [line, after @ ..] = rest {
        if let Some(kind) = reader.take(alloc, &line.form, after)? {
            return Err(JobError::Bad {
                line: line.number,
                kind,
            });
        }
        rest = after;
    }
    Ok(reader)
}

impl Reader {
    ghost use Rattle.dc_batch.specs.Machine.{fault_seen, field_fault, noted, noted_field, opened, closed, is_taken as is_taken_of};

    fn new(alloc: Global) -> Self
        ensures { result ≡ at_start }
    {
        Reader {
            jobs: List::new(alloc),
            begun: 0,
            is_open: false,
            draft: Draft::new(),
        }
    }

    // Takes a line before these lines, unless it has a fault.
    fn take(&mut self, alloc: Global, form: &Form, after: &[Line]) -> Mem<Option<JobKind>>
        ensures fault { IfOk result (λ fault. fault ≡ fault_seen self.old form.now (forms after.now)) }
        ensures noted { IfOk result (λ fault. fault ≡ None → self.new ≡ noted self.old form.now) }
    {
        match form {
            Form::Blank => {
                self.close(alloc)?;
                Ok(None)
            }
            Form::Colonless => Ok(Some(JobKind::NoColon)),
            Form::Unknown => Ok(Some(JobKind::UnknownField)),
            Form::Sets(field, value) => self.take_field(alloc, *field, value, after),
        }
    }

    // Takes the line of a field before these lines, unless it has a fault.
    fn take_field(
        &mut self,
        alloc: Global,
        field: Field,
        value: &Text,
        after: &[Line],
    ) -> Mem<Option<JobKind>>
        ensures fault { IfOk result (λ fault. fault ≡ field_fault self.old field value.now (forms after.now)) }
        ensures noted { IfOk result (λ fault. fault ≡ None → self.new ≡ noted_field self.old field value.now) }
    {
        let fault = self.fault(field, value.bytes(), after);
        if fault.is_none() {
            self.note(alloc, field, value.bytes())?;
        }
        Ok(fault)
    }

    // The fault of the line of a field before these lines, if it has one.
    fn fault(&self, field: Field, value: &[u8], after: &[Line]) -> Option<JobKind>
        ensures { result ≡ field_fault self.now field value.now (forms after.now) }
    {
        let is_package = field == Field::Package;
        let begins = !self.is_open;
        if self.draft.is_set(field) || (is_package && self.is_taken(value)) {
            Some(JobKind::Twice)
        } else if begins && MOST_JOBS <= self.begun {
            Some(JobKind::TooMany)
        } else if begins && !(is_package || has_field(after, Field::Package)) {
            Some(JobKind::NoPackage)
        } else if is_package && !is_name(value) {
            Some(JobKind::BadName)
        } else if !is_package && value.is_empty() {
            Some(JobKind::EmptyField)
        } else if begins && is_package && !has_work(after) {
            Some(JobKind::NoWork)
        } else {
            None
        }
    }

    // Whether a job is that of the package.
    fn is_taken(&self, name: &[u8]) -> bool
        ensures { result ≡ is_taken_of self.now.jobs name.now }
    {
        self.jobs
            .as_slice()
            .iter()
            .any(|job| name == job.package.bytes())
    }

    // Notes the value of a field.
    fn note(&mut self, alloc: Global, field: Field, value: &[u8]) -> Mem<()>
        requires room { self.old.is_open ≡ false → self.old.begun < 256 }
        requires name { field ≡ Field.Package → is_name_of value.now ≡ true }
        ensures { OnOk result (self.new ≡ noted_field self.old field value.now) }
    {
        self.open();
        self.draft.set(alloc, field, value)
    }

    // Begins a stanza, unless one is begun.
    fn open(&mut self)
        requires { self.old.is_open ≡ false → self.old.begun < 256 }
        ensures { self.new ≡ opened self.old }
    {
        if !self.is_open {
            self.is_open = true;
            self.begun += 1;
        }
    }

    // Ends the stanza.
    fn close(&mut self, alloc: Global) -> Mem<()>
        ensures { OnOk result (self.new ≡ closed self.old) }
    {
        let draft = std::mem::replace(&mut self.draft, Draft::new());
        self.is_open = false;
        match draft.into_job(alloc) {
            Some(job) => self.jobs.push(job),
            None => Ok(()),
        }
    }

    // The jobs, where no line comes.
    fn finish(self, alloc: Global) -> Mem<List<Job>>
        ensures { IfOk result (λ jobs. jobs ≡ (closed self).jobs) }
    {
        let mut reader = self;
        reader.close(alloc)?;
        Ok(reader.jobs)
    }
}

// Whether a line of the stanza that these lines go on sets the field.
fn has_field(lines: &[Line], field: Field) -> bool
    ensures { result ≡ has_field_of field (until_blank (forms lines.now)) }
{
    let mut rest = lines;
    while let [line, after @ ..] = rest {
        if line.form.is_blank() {
            return false;
        }
        if line.form.sets(field) {
            return true;
        }
        rest = after;
    }
    false
}

ghost use Rattle.dc_batch.specs.JobFaults.{has_work as has_work_of};

// Whether the stanza that these lines go on has templates or a command.
fn has_work(lines: &[Line]) -> bool
    ensures { result ≡ has_work_of (until_blank (forms lines.now)) }
{
    has_field(lines, Field::Templates) || has_field(lines, Field::Config)
}
