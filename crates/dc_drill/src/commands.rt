// The commands of a drill.
ghost use Rattle.std.specs.Prelude.{◌≡◌, ◌≤◌, ◌<◌, ◌++◌, ◌∷◌, [], ℕ, List, IfOk, OnOk, codes, decimal, length};
ghost use Rattle.dc_text.specs.Lines.{text_of};
ghost use Rattle.dc_drill.specs.Commands.{about, at_each, drill_input, drill_lines, get_none_line, lines_at, question_of, set_line};

use dc_text::{Mem, Text};
use itoa::Buffer;
use std::alloc::Global;

/// The text of the commands for so many questions.
pub fn commands_text(alloc: Global, count: u32) -> Mem<Text>
    ensures { IfOk result (λ text. text ≡ drill_input count) }
{
    let mut text = Text::new(alloc);
    for before in 0..count {
        append_commands(&mut text, before + 1)?;
    }
    Ok(text)
}

// Adds the commands of a number.
fn append_commands(text: &mut Text, number: u32) -> Mem<()>
    ensures { OnOk result (text.new ≡ text.old ++ text_of (lines_at number)) }
{
    append_about(text, b"REGISTER drill/text ", number, b"")?;
    append_set_line(text, number)?;
    append_at_each(text, 3, number, b"FSET ", number, b" seen true")?;
    append_at_each(text, 5, number, b"GET ", number.saturating_sub(1), b"")?;
    append_get_none_line(text, number)?;
    append_at_each(text, 10, number, b"UNREGISTER ", number / 2, b"")?;
    Ok(())
}

// Adds a command about the question of a number, between these words.
fn append_about(text: &mut Text, front: &[u8], number: u32, back: &[u8]) -> Mem<()>
    ensures { OnOk result (text.new ≡ text.old ++ text_of (about front.now number back.now ∷ [])) }
{
    text.append(front)?;
    append_question(text, number)?;
    text.append(back)?;
    text.push(b'\n')?;
    Ok(())
}

// Adds the name of the question of a number.
#[tactic(auto, unfolding(crate::specs::Commands::question_of))]
fn append_question(text: &mut Text, number: u32) -> Mem<()>
    ensures { OnOk result (text.new ≡ text.old ++ question_of number) }
{
    text.append(b"drill/q")?;
    append_number(text, u64::from(number))
}

pub(crate) fn append_number(text: &mut Text, number: u64) -> Mem<()>
    ensures { OnOk result (text.new ≡ text.old ++ decimal number) }
{
    let mut buffer = Buffer::new();
    text.append(buffer.format(number).as_bytes())
}

fn append_set_line(text: &mut Text, number: u32) -> Mem<()>
    ensures { OnOk result (text.new ≡ text.old ++ text_of (set_line number ∷ [])) }
{
    text.append(b"SET ")?;
    append_question(text, number)?;
    append_set_value(text, number)?;
    text.push(b'\n')?;
    Ok(())
}

fn append_set_value(text: &mut Text, number: u32) -> Mem<()>
    ensures { OnOk result (text.new ≡ text.old ++ (codes " v" ++ decimal number)) }
{
    text.append(b" v")?;
    append_number(text, u64::from(number))
}

// Adds a command about the question of another number, where the step divides the number.
fn append_at_each(
    text: &mut Text,
    step: u32,
    number: u32,
    front: &[u8],
    other: u32,
    back: &[u8],
) -> Mem<()>
    requires { 0 < step }
    ensures { OnOk result (text.new ≡ text.old ++ text_of (at_each step number (about front.now other back.now))) }
{
    if number % step == 0 {
        append_about(text, front, other, back)?;
    }
    Ok(())
}

fn append_get_none_line(text: &mut Text, number: u32) -> Mem<()>
    ensures { OnOk result (text.new ≡ text.old ++ text_of (at_each 7 number get_none_line)) }
{
    if number % 7 == 0 {
        text.append(b"GET drill/none\n")?;
    }
    Ok(())
}

/// How many the commands for so many questions are.
pub fn command_count(count: u32) -> u64
    ensures { result ≡ length (drill_lines count) }
{
    let mut sum = 0;
    for before in 0..count {
        sum += count_at(before + 1);
    }
    sum
}

// How many the commands of a number are.
fn count_at(number: u32) -> u64
    ensures count { result ≡ length (lines_at number) }
    ensures few { result ≤ 6 }
{
    2 + one_at_each(3, number)
        + one_at_each(5, number)
        + one_at_each(7, number)
        + one_at_each(10, number)
}

// 1 where the step divides the number, else 0.
fn one_at_each(step: u32, number: u32) -> u64
    requires { 0 < step }
    ensures count { (line : List ℕ) → result ≡ length (at_each step number line) }
    ensures few { result ≤ 1 }
{
    if number % step == 0 { 1 } else { 0 }
}
