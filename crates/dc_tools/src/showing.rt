// What `show` writes of questions.
ghost use Rattle.std.specs.Prelude.{◌≡◌, ◌∷◌, ◌++◌, [], IfOk, OnOk};
ghost use Rattle.std.specs.Option.{option_copied};
ghost use Rattle.dc_text.specs.Ascii.{newline};
ghost use Rattle.dc_question.specs.Asked.{asked, HasPlans, seen};
ghost use Rattle.dc_question.specs.Questions.{question as question_of, template as template_of};
ghost use Rattle.dc_question.specs.Readings.{kind_by, value_of};
ghost use Rattle.dc_tools.specs.Showing.{is_password as is_password_of, mark as mark_of, shown_value, shown_answer, item_line, show_text_of};

use dc_item::Item;
use dc_layer::Layer;
use dc_question::{Questions, kind, value};
use dc_template::Kind;
use dc_text::{List, Mem, Name, Text, show_newlines};
use std::alloc::Global;

/// A line for each of the questions (debconf-show(1)): a star where the user has seen it, its name, and its value, each newline of which is
/// written as the pair of a backslash and an n. The value of a password is left out. A name that no question has gives no line.
pub fn show_text(questions: &Questions, owned: &List<Name>) -> Mem<Text>
    requires { HasPlans questions.now }
    ensures { IfOk result (λ text. text ≡ seen (asked state questions.now) show_text_of owned.now) }
{
    let mut text = Text::new(questions.alloc);
    for name in owned.as_slice() {
        append_question(&mut text, questions, name)?;
    }
    Ok(text)
}

// Adds the line of a name, where a question has it.
fn append_question(text: &mut Text, questions: &Questions, name: &Name) -> Mem<()>
    requires { HasPlans questions.now }
    ensures { OnOk result (text.new ≡ text.old ++ seen (asked state questions.now) show_text_of (name.now ∷ [])) }
{
    match question(questions, name) {
        None => Ok(()),
        Some(item) => {
            let template = template(questions, item);
            append_line(
                questions.alloc,
                text,
                language(questions),
                name,
                item,
                template,
            )
        }
    }
}

// The user's language.
fn language<'q>(questions: &'q Questions) -> &'q [u8]
    ensures { result.now ≡ questions.now.context.lang }
{
    questions.context.lang.bytes()
}

// The item of a question.
fn question<'q>(questions: &'q Questions, name: &Name) -> Option<&'q Item>
    requires { HasPlans questions.now }
    ensures { option_copied result ≡ seen (asked state questions.now) question_of name.now }
{
    questions.store.look(questions.context.config, name)
}

// The template of an item.
fn template<'q>(questions: &'q Questions, item: &Item) -> Option<&'q Item>
    requires { HasPlans questions.now }
    ensures { option_copied result ≡ seen (asked state questions.now) template_of item.now }
{
    let name = item.field(b"template")?;
    questions.store.seek(questions.context.templates, name)
}

// Adds the line of a question.
fn append_line(
    alloc: Global,
    text: &mut Text,
    lang: &[u8],
    name: &Name,
    item: &Item,
    template: Option<&Item>,
) -> Mem<()>
    ensures { OnOk result (text.new ≡ text.old ++ (item_line lang.now name.now item.now (option_copied template.entry) ++ newline ∷ [])) }
{
    text.append(mark(item.flag(b"seen")))?;
    text.append(name.bytes())?;
    text.push(b':')?;
    append_answer(alloc, text, lang, item, template)?;
    text.push(b'\n')
}

// The mark in front of a question.
fn mark(seen: bool) -> &'static [u8]
    ensures { result.now ≡ mark_of seen }
{
    match seen {
        true => b"* ",
        false => b"  ",
    }
}

// Adds what stands behind the name.
fn append_answer(
    alloc: Global,
    text: &mut Text,
    lang: &[u8],
    item: &Item,
    template: Option<&Item>,
) -> Mem<()>
    ensures { OnOk result (text.new ≡ text.old
        ++ shown_answer (kind_by (option_copied template.entry)) (value_of lang.now item.now (option_copied template.entry))) }
{
    if is_password(kind(template)) {
        return text.append(b" (password omitted)");
    }
    let value = value(alloc, lang, item, template)?;
    append_value(alloc, text, value.bytes())
}

fn is_password(kind: Option<Kind>) -> bool
    ensures { result ≡ is_password_of kind }
{
    matches!(kind, Some(Kind::Password))
}

// Adds a value in one line.
fn append_value(alloc: Global, text: &mut Text, value: &[u8]) -> Mem<()>
    ensures { OnOk result (text.new ≡ text.old ++ shown_value value.now) }
{
    if value.is_empty() {
        return Ok(());
    }
    let shown = show_newlines(alloc, value)?;
    text.push(b' ')?;
    text.append(shown.bytes())
}
