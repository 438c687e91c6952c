// Which line of a template file has the first fault.
ghost use Rattle.std.specs.Prelude.{◌≡◌, ◌&&◌, IfOk, MatchResult, List as Listed, is_none, None, Ok};
ghost use Rattle.std.specs.List.{list_any};
ghost use Rattle.std.specs.Str.{bytes_eq};
ghost use Rattle.dc_text.specs.Faults.{run};
ghost use Rattle.dc_template.specs.Kinds.{kind_of};
ghost use Rattle.dc_template.specs.Forms.{forms, type_word};
ghost use Rattle.dc_template.specs.declared.forms.Form.{Form as FormOf};
ghost use Rattle.dc_template.specs.declared.forms.Row.{Row as RowOf};
ghost use Rattle.dc_template.specs.TemplateFaults.{until_blank, sets_type as sets_type_of, is_blank_form};

use crate::faults::{TemplateError, TemplateKind};
use crate::forms::{Form, Line, is_description};
use crate::kinds::Kind;
use crate::seen::{FewSeen, ManySeen};
use dc_text::{FieldKey, Mem, Name, Text};
use std::alloc::Global;

/// What was seen of the lines so far.
#[derive(Drop)]
pub struct Seen<'a> {
    /// The names of the Template lines.
    pub names: ManySeen<'a>,
    /// The keys in the stanza.
    pub keys: FewSeen<'a>,
    /// Whether a line of the stanza was seen.
    pub is_open: bool,
    /// Whether an indented line would belong to a description.
    pub describes: bool,
}

impl<'a> Seen<'a> {
    ghost use Rattle.dc_template.specs.Machine.{at_start, fault_seen, noted};

    fn new(alloc: Global) -> Self
        ensures { result ≡ at_start }
    {
        Seen {
            names: ManySeen::new(alloc),
            keys: FewSeen::new(alloc),
            is_open: false,
            describes: false,
        }
    }

    // Takes a line before these lines, unless it has a fault.
    fn take(&mut self, form: &'a Form, after: &[Line]) -> Mem<Option<TemplateKind>>
        ensures fault { IfOk result (λ fault. fault ≡ fault_seen self.old form.now (forms after.now)) }
        ensures noted { IfOk result (λ fault. fault ≡ None → self.new ≡ noted self.old form.now) }
    {
        match form {
            Form::Blank => {
                self.keys.clear();
                self.is_open = false;
                self.describes = false;
                Ok(None)
            }
            Form::Indented(_) => Ok(self.fault_of_indented()),
            Form::Colonless => Ok(Some(TemplateKind::NoColon)),
            Form::Unkeyed => Ok(Some(TemplateKind::BadKey)),
            Form::Unnamed => Ok(Some(TemplateKind::BadName)),
            Form::Heads(name) => self.take_name(name, after),
            Form::Sets(key, value) => self.take_key(key, value),
        }
    }

    // The fault of an indented line, if it has one.
    fn fault_of_indented(&self) -> Option<TemplateKind>
        ensures { (row : RowOf) (after : Listed FormOf) → result ≡ fault_seen self.now (Form.Indented row) after }
    {
        if !self.is_open {
            Some(TemplateKind::NoTemplate)
        } else if self.describes {
            None
        } else {
            Some(TemplateKind::StrayIndent)
        }
    }

    // Takes a Template line before these lines, unless it has a fault.
    fn take_name(&mut self, name: &'a Name, after: &[Line]) -> Mem<Option<TemplateKind>>
        ensures fault { IfOk result (λ fault. fault ≡ fault_seen self.old (Form.Heads name.now) (forms after.now)) }
        ensures noted { IfOk result (λ fault. fault ≡ None → self.new ≡ noted self.old (Form.Heads name.now)) }
    {
        if self.is_open {
            return Ok(Some(TemplateKind::Twice));
        }
        if !has_type(after) {
            return Ok(Some(TemplateKind::NoType));
        }
        if !self.names.add(name.bytes())? {
            return Ok(Some(TemplateKind::Twice));
        }
        self.is_open = true;
        self.describes = false;
        Ok(None)
    }

    // Takes a line that sets a field, unless it has a fault.
    fn take_key(&mut self, key: &'a FieldKey, value: &Text) -> Mem<Option<TemplateKind>>
        ensures fault { (after : Listed FormOf) → IfOk result (λ fault. fault ≡ fault_seen self.old (Form.Sets key.now value.now) after) }
        ensures noted { IfOk result (λ fault. fault ≡ None → self.new ≡ noted self.old (Form.Sets key.now value.now)) }
    {
        if !self.is_open {
            return Ok(Some(TemplateKind::NoTemplate));
        }
        if is_bad_type(key, value) {
            return Ok(Some(TemplateKind::BadType));
        }
        if !self.keys.add(key.bytes())? {
            return Ok(Some(TemplateKind::Twice));
        }
        self.describes = is_description(key.bytes());
        Ok(None)
    }
}

// Whether the stanza that these lines go on has a `type`.
fn has_type(after: &[Line]) -> bool
    ensures { result ≡ list_any sets_type_of (until_blank (forms after.now)) }
{
    let mut rest = after;
    while let [line, tail @ ..] = rest {
        if is_blank(&line.form) {
            return false;
        }
        if sets_type(&line.form) {
            return true;
        }
        rest = tail;
    }
    false
}

/// Whether a line is blank.
pub fn is_blank(form: &Form) -> bool
    ensures { result ≡ is_blank_form form.now }
{
    match form {
        Form::Blank => true,
        _ => false,
    }
}

fn sets_type(form: &Form) -> bool
    ensures { result ≡ sets_type_of form.now }
{
    match form {
        Form::Sets(key, _) => is_type(key),
        _ => false,
    }
}

/// Whether the key is `type`.
pub fn is_type(key: &FieldKey) -> bool
    ensures { result ≡ bytes_eq key.now type_word }
{
    matches!(key.bytes(), b"type")
}

fn is_bad_type(key: &FieldKey, value: &Text) -> bool
    ensures { result ≡ (bytes_eq key.now type_word && is_none (kind_of value.now)) }
{
    is_type(key) && Kind::read(value.bytes()).is_none()
}

ghost use Rattle.dc_template.specs.Machine.{step, at_start, Fails};
ghost use Rattle.dc_template.specs.declared.checking.Seen.{Seen as SeenSoFar};

/// Whether each line stands where it does. Otherwise the error is the first fault.
pub fn check<'a>(alloc: Global, lines: &'a [Line]) -> Result<(), TemplateError>
    ensures { MatchResult result
        (λ _. (seen : SeenSoFar) × (run step lines.now at_start ≡ Ok seen))
        (λ error. Fails error (run step lines.now at_start)) }
{
    let mut seen = Seen::new(alloc);
    let mut rest = lines;
    while let [line, after @ ..] = rest {
        if let Some(kind) = seen.take(&line.form, after)? {
            return Err(TemplateError::Bad {
                line: line.number,
                kind,
            });
        }
        rest = after;
    }
    Ok(())
}
