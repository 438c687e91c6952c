// What questions answer.
ghost use Rattle.std.specs.Prelude.{◌≡◌, IfOk, IfSome};
ghost use Rattle.std.specs.Option.{option_copied};
ghost use Rattle.dc_item.specs.Item.{IsItem};
ghost use Rattle.dc_question.specs.Asked.{asked, HasPlans, seen};
ghost use Rattle.dc_question.specs.Questions.{question as question_of, template as template_of};
ghost use Rattle.dc_dump.specs.Saying.{answer_of};

use dc_item::Item;
use dc_layer::Layer;
use dc_question::{Questions, kind, value};
use dc_template::Kind;
use dc_text::{List, Mem, Name, Text};

/// What is set of a question: its owners in byte order, its kind and its value, and whether the user has seen it.
#[derive(Drop)]
pub struct Answer {
    pub owners: List<Name>,
    pub kind: Option<Kind>,
    pub value: Text,
    pub seen: bool,
}

// The item of a question.
pub(crate) fn question<'q>(questions: &'q Questions, name: &Name) -> Option<&'q Item>
    requires { HasPlans questions.now }
    ensures { option_copied result ≡ seen (asked state questions.now) question_of name.now }
{
    questions.store.look(questions.context.config, name)
}

// The template of an item.
fn template<'q>(questions: &'q Questions, item: &Item) -> Option<&'q Item>
    requires { HasPlans questions.now }
    ensures value { option_copied result ≡ seen (asked state questions.now) template_of item.now }
    ensures item { IfSome result (λ template. IsItem template.now) }
{
    let name = item.field(b"template")?;
    let template = questions.store.seek(questions.context.templates, name)?;
    let _owners = template.owners();
    Some(template)
}

// The answer of a question of this item.
pub(crate) fn read_answer(questions: &Questions, item: &Item) -> Mem<Answer>
    requires { HasPlans questions.now }
    ensures answer { IfOk result (λ answer. answer ≡ seen (asked state questions.now) answer_of item.now) }
    ensures item { IsItem item.now }
    ensures template { IfSome (seen (asked state questions.now) template_of item.now) IsItem }
{
    let _owners = item.owners();
    let template = template(questions, item);
    let lang = questions.context.lang.bytes();
    Ok(Answer {
        owners: item.owner_names()?,
        kind: kind(template),
        value: value(questions.alloc, lang, item, template)?,
        seen: item.flag(b"seen"),
    })
}
