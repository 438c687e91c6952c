// Commands that read and change questions.
ghost use Rattle.std.specs.Prelude.{◌≡◌, [], IfOk, unwrap_or};
ghost use Rattle.dc_proto.specs.Replies.{reply};
ghost use Rattle.dc_proto.specs.declared.command.Command.TheVariants as command;
ghost use Rattle.dc_question.specs.Ownership.{purged};
ghost use Rattle.dc_store.specs.Plans.{owned as owned_of};
ghost use Rattle.dc_session.specs.Answers.{reply_write, loading, nothing, load_names, names_on, told_code as told_code_in};
ghost use Rattle.dc_session.specs.Inside.{Comes, HasDistinctNames, ReadsField};
ghost use Rattle.dc_session.specs.Machine.{Does};
ghost use Rattle.dc_session.specs.SessionState.{borrows_of};

use crate::name_set::first_among;
use crate::replies::{
    busy, confirm, faulty, is_shown_truth, missing, named, says, tell, tell_bad_flag, tell_flag,
    tell_no_field,
};
use crate::session::Session;
use crate::stepped::Stepped;
use crate::template_files::{Found, find_templates};
use dc_outside::{Files, Link};
use dc_serve::LineMachine;
use dc_text::{FieldKey, FlagName, List, Mem, Name, NameRefused, OutOfMemory, Text, VarKey};

impl<'s, 'f, 't, 'h, 'e, F: Files, T: Link, E: Link> Session<'s, 'f, 't, 'h, 'e, F, T, E> {
    pub(crate) fn get(&self, word: &Text) -> Mem<Stepped>
        ensures { Does (command.Get word.now) (⟦<Self as LineMachine>⟧.state self.now) (⟦<Self as LineMachine>⟧.state self.now) result }
    {
        let Some(name) = named(self.alloc, word)? else {
            return missing(self.alloc, word.bytes());
        };
        tell(
            self.alloc,
            self.told_code(),
            b"",
            self.desk.questions.value(&name),
        )
    }

    pub(crate) fn fget(&self, word: &Text, flag: &FlagName) -> Mem<Stepped>
        ensures { Does (command.Fget word.now flag.now) (⟦<Self as LineMachine>⟧.state self.now) (⟦<Self as LineMachine>⟧.state self.now) result }
    {
        let Some(name) = named(self.alloc, word)? else {
            return missing(self.alloc, word.bytes());
        };
        tell_flag(self.alloc, self.desk.questions.flag(&name, flag))
    }

    pub(crate) fn metaget(&self, word: &Text, field: &Text) -> Mem<Stepped>
        ensures { Does (command.Metaget word.now field.now) (⟦<Self as LineMachine>⟧.state self.now) (⟦<Self as LineMachine>⟧.state self.now) result }
    {
        let Some(name) = named(self.alloc, word)? else {
            return missing(self.alloc, word.bytes());
        };
        self.field(&name, field)
    }

    // A field of the question's template. The refusal of one that is none comes after those of the question and of its template.
    fn field(&self, name: &Name, field: &Text) -> Mem<Stepped>
        ensures { ReadsField (⟦<Self as LineMachine>⟧.state self.now) field.now name.now result }
    {
        match FieldKey::read(self.alloc, field.bytes()) {
            Ok(key) => tell(
                self.alloc,
                self.told_code(),
                field.bytes(),
                self.desk.questions.expanded(name, &key),
            ),
            Err(NameRefused::Bad) => {
                let key = FieldKey::known(self.alloc, b"type")?;
                tell_no_field(
                    self.alloc,
                    field.bytes(),
                    self.desk.questions.expanded(name, &key),
                )
            }
            Err(NameRefused::OutOfMemory) => Err(OutOfMemory),
        }
    }

    pub(crate) fn set(&mut self, word: &Text, value: &Text) -> Mem<Stepped>
        ensures does { Does (command.Set word.now value.now) (⟦<Self as LineMachine>⟧.state self.old) (⟦<Self as LineMachine>⟧.state self.new) result }
        ensures borrows { borrows_of self.new ≡ borrows_of self.old }
    {
        let Some(name) = named(self.alloc, word)? else {
            return missing(self.alloc, word.bytes());
        };
        let desk = &mut self.desk;
        let done = desk.questions.set(&name, value.bytes());
        confirm(self.alloc, b"value set", done)
    }

    pub(crate) fn reset(&mut self, word: &Text) -> Mem<Stepped>
        ensures does { Does (command.Reset word.now) (⟦<Self as LineMachine>⟧.state self.old) (⟦<Self as LineMachine>⟧.state self.new) result }
        ensures borrows { borrows_of self.new ≡ borrows_of self.old }
    {
        let Some(name) = named(self.alloc, word)? else {
            return missing(self.alloc, word.bytes());
        };
        let desk = &mut self.desk;
        let done = desk.questions.reset(&name);
        confirm(self.alloc, b"", done)
    }

    pub(crate) fn subst(&mut self, word: &Text, key: &VarKey, value: &Text) -> Mem<Stepped>
        ensures does { Does (command.Subst word.now key.now value.now) (⟦<Self as LineMachine>⟧.state self.old)
            (⟦<Self as LineMachine>⟧.state self.new) result }
        ensures borrows { borrows_of self.new ≡ borrows_of self.old }
    {
        let Some(name) = named(self.alloc, word)? else {
            return missing(self.alloc, word.bytes());
        };
        let desk = &mut self.desk;
        let done = desk.questions.subst(&name, key, value.bytes());
        confirm(self.alloc, b"", done)
    }

    pub(crate) fn fset(&mut self, word: &Text, flag: &FlagName, value: &Text) -> Mem<Stepped>
        ensures does { Does (command.Fset word.now flag.now value.now) (⟦<Self as LineMachine>⟧.state self.old)
            (⟦<Self as LineMachine>⟧.state self.new) result }
        ensures borrows { borrows_of self.new ≡ borrows_of self.old }
    {
        let Some(name) = named(self.alloc, word)? else {
            return missing(self.alloc, word.bytes());
        };
        if !is_shown_truth(value.bytes()) {
            return tell_bad_flag(self.alloc, self.desk.questions.flag(&name, flag));
        }
        let is = value.bytes() == b"true".as_slice();
        let desk = &mut self.desk;
        let done = desk.questions.set_flag(&name, flag, is);
        confirm(self.alloc, value.bytes(), done)
    }

    pub(crate) fn register(&mut self, template: &Text, name: &Name) -> Mem<Stepped>
        ensures does { Does (command.Register template.now name.now) (⟦<Self as LineMachine>⟧.state self.old) (⟦<Self as LineMachine>⟧.state self.new) result }
        ensures borrows { borrows_of self.new ≡ borrows_of self.old }
    {
        let desk = &mut self.desk;
        let done = desk.questions.register(template.bytes(), name, desk.owner);
        confirm(self.alloc, b"", done)
    }

    pub(crate) fn unregister(&mut self, word: &Text) -> Mem<Stepped>
        ensures does { Does (command.Unregister word.now) (⟦<Self as LineMachine>⟧.state self.old) (⟦<Self as LineMachine>⟧.state self.new) result }
        ensures borrows { borrows_of self.new ≡ borrows_of self.old }
    {
        let Some(name) = named(self.alloc, word)? else {
            return missing(self.alloc, word.bytes());
        };
        if !self.desk.questions.exists(&name) {
            return missing(self.alloc, name.bytes());
        }
        if self.asking.prepared.contains(&name) {
            return busy(self.alloc, name.bytes());
        }
        let desk = &mut self.desk;
        let done = desk.questions.unregister(&name, desk.owner);
        confirm(self.alloc, b"", done)
    }

    pub(crate) fn purge(&mut self) -> Mem<Stepped>
        ensures does { Does command.Purge (⟦<Self as LineMachine>⟧.state self.old) (⟦<Self as LineMachine>⟧.state self.new) result }
        ensures borrows { borrows_of self.new ≡ borrows_of self.old }
    {
        let owned = self.owned()?;
        match first_among(&self.asking.prepared, owned.as_slice()) {
            Some(name) => busy(self.alloc, name.bytes()),
            None => self.purge_owned(),
        }
    }

    // The questions of the session's owner.
    fn owned(&self) -> Mem<List<Name>>
        ensures { IfOk result (λ names. names ≡ owned_of (⟦<Self as LineMachine>⟧.state self.now).store.layers
            (⟦<Self as LineMachine>⟧.state self.now).at.config (⟦<Self as LineMachine>⟧.state self.now).owner) }
    {
        self.desk.questions.owned(self.desk.owner)
    }

    // The owner leaves all its questions, none of which is prepared.
    fn purge_owned(&mut self) -> Mem<Stepped>
        ensures comes { Comes (reply_write (⟦<Self as LineMachine>⟧.state self.old) (reply 0 [])
            (purged (⟦<Self as LineMachine>⟧.state self.old).store (⟦<Self as LineMachine>⟧.state self.old).at
            (⟦<Self as LineMachine>⟧.state self.old).owner)) (names_on (⟦<Self as LineMachine>⟧.state self.old) command.Purge nothing)
            (⟦<Self as LineMachine>⟧.state self.old) (⟦<Self as LineMachine>⟧.state self.new) result }
        ensures borrows { borrows_of self.new ≡ borrows_of self.old }
    {
        let desk = &mut self.desk;
        let done = desk.questions.purge(desk.owner);
        confirm(self.alloc, b"", done)
    }

    // The code of a text that was asked for, which has one of its own in escape mode.
    fn told_code(&self) -> u8
        ensures { result ≡ told_code_in (⟦<Self as LineMachine>⟧.state self.now).asking.escape }
    {
        if self.asking.escape { 1 } else { 0 }
    }

    // What a template file holds is loaded, for the owner or for the session's.
    pub(crate) fn load(&mut self, path: &Text, owner: &Option<Name>) -> Mem<Stepped>
        ensures does { Does (command.LoadTemplateFile path.now owner.now) (⟦<Self as LineMachine>⟧.state self.old)
            (⟦<Self as LineMachine>⟧.state self.new) result }
        ensures borrows { borrows_of self.new ≡ borrows_of self.old }
    {
        let owner = owner_or(owner, self.desk.owner);
        match find_templates(self.alloc, self.files, path) {
            Ok(found) => self.take_found(owner, &found),
            Err(_) => Err(OutOfMemory),
        }
    }

    // The templates that were found are loaded, or it is told why there are none.
    fn take_found(&mut self, owner: &Name, found: &Found) -> Mem<Stepped>
        requires { HasDistinctNames found.now }
        ensures comes { Comes (loading (⟦<Self as LineMachine>⟧.state self.old) owner.now found.now)
            (load_names (⟦<Self as LineMachine>⟧.state self.old) owner.now found.now) (⟦<Self as LineMachine>⟧.state self.old)
            (⟦<Self as LineMachine>⟧.state self.new) result }
        ensures borrows { borrows_of self.new ≡ borrows_of self.old }
    {
        match found {
            Found::Unreadable => says(self.alloc, 100, b"read fault"),
            Found::Missing => says(self.alloc, 10, b"no such template file"),
            Found::Faulty { line } => faulty(self.alloc, *line),
            Found::Templates(templates) => {
                let desk = &mut self.desk;
                let done = desk.questions.load_templates(owner, templates);
                confirm(self.alloc, b"", done)
            }
        }
    }
}

// The owner that was named, else this one.
fn owner_or<'n>(named: &'n Option<Name>, own: &'n Name) -> &'n Name
    ensures { result.now ≡ unwrap_or named.now own.now }
{
    match named {
        None => own,
        Some(owner) => owner,
    }
}
