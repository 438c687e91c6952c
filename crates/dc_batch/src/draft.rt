// A stanza that isn't ended.
ghost use Rattle.std.specs.Prelude.{◌≡◌, OnOk, true};
ghost use Rattle.dc_text.specs.Names.{is_name};
ghost use Rattle.dc_batch.specs.declared.forms.Field.{Field as FieldOf};
ghost use Rattle.dc_batch.specs.Machine.{no_fields, is_set as is_set_of, with_field, job_from};

use crate::forms::Field;
use crate::job::Job;
use dc_text::{List, Mem, Name, NameRefused, OutOfMemory, Text};
use dc_words::plain_words;
use std::alloc::Global;

/// The fields that the stanza has so far.
#[derive(Drop)]
pub struct Draft {
    /// The package.
    pub name: Option<Name>,
    pub templates: Option<Text>,
    pub command: Option<List<Text>>,
}

impl Draft {
    pub fn new() -> Self
        ensures { result ≡ no_fields }
    {
        Draft {
            name: None,
            templates: None,
            command: None,
        }
    }

    /// Whether the stanza has the field.
    pub fn is_set(&self, field: Field) -> bool
        ensures { result ≡ is_set_of self.now field }
    {
        match field {
            Field::Package => self.name.is_some(),
            Field::Templates => self.templates.is_some(),
            Field::Config => self.command.is_some(),
        }
    }

    /// Sets the field. A package is a name.
    pub fn set(&mut self, alloc: Global, field: Field, value: &[u8]) -> Mem<()>
        requires { field ≡ Field.Package → is_name value.now ≡ true }
        ensures { OnOk result (self.new ≡ with_field self.old field value.now) }
    {
        match field {
            Field::Package => self.name = Some(known_name(alloc, value)?),
            Field::Templates => self.templates = Some(Text::from_bytes(alloc, value)?),
            Field::Config => self.command = Some(plain_words(alloc, value)?),
        }
        Ok(())
    }

    /// The job of the stanza, where it has a package.
    pub fn into_job(self, alloc: Global) -> Option<Job>
        ensures { result ≡ job_from self }
    {
        let Draft {
            name,
            templates,
            command,
        } = self;
        match name {
            Some(package) => Some(Job {
                package,
                templates,
                command: words_or_none(alloc, command),
            }),
            None => None,
        }
    }
}

ghost use Rattle.std.specs.Prelude.{IfOk, unwrap_or, []};

// The name that bytes which are known to be one are.
fn known_name(alloc: Global, bytes: &[u8]) -> Mem<Name>
    requires { is_name bytes.now ≡ true }
    ensures { IfOk result (λ name. name ≡ bytes.now) }
{
    match Name::read(alloc, bytes) {
        Ok(name) => Ok(name),
        Err(NameRefused::OutOfMemory) => Err(OutOfMemory),
        Err(NameRefused::Bad) => unreachable!(),
    }
}

fn words_or_none(alloc: Global, words: Option<List<Text>>) -> List<Text>
    ensures { result ≡ unwrap_or words [] }
{
    match words {
        Some(words) => words,
        None => List::new(alloc),
    }
}
