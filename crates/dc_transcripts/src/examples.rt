// An example, played once, or once for each of some numbers.
ghost use Rattle.std.specs.Prelude.{◌≤◌, length};

use crate::blocks::read_block;
use crate::speaker::{append_numbered, number_at};
use crate::stage::Stage;
use dc_text::{List, Text};
use std::alloc::Global;

/// The numbers for which an example is played.
#[derive(Clone, Copy)]
struct Each {
    first: u64,
    last: u64,
}

/// Whether blocks are told with what comes of them.
#[derive(Clone, Copy, PartialEq, Eq)]
enum Echo {
    Told,
    Untold,
}

/// Adds the example, with what comes of it behind each block, or at its end for each number.
pub fn tell_example(alloc: Global, ground: &[u8], part: &[u8], told: &mut Text) -> Option<()> {
    match find_each(alloc, part)? {
        None => {
            let played = play(alloc, ground, part, 0, Echo::Told)?;
            told.append(played.bytes()).ok()
        }
        Some(each) => {
            told.append(without_blank_end(part)).ok()?;
            tell_each(alloc, ground, part, each, told)?;
            told.push(b'\n').ok()
        }
    }
}

// Numbers in a row of which the same comes are told once.
fn tell_each(alloc: Global, ground: &[u8], part: &[u8], each: Each, told: &mut Text) -> Option<()> {
    let mut begun = each.first;
    let mut shown = play(alloc, ground, part, each.first, Echo::Untold)?;
    for number in each.first..each.last {
        let next = play(alloc, ground, part, number + 1, Echo::Untold)?;
        if next.bytes() != shown.bytes() {
            tell_numbers(alloc, begun, number, &shown, told)?;
            begun = number + 1;
            shown = next;
        }
    }
    tell_numbers(alloc, begun, each.last, &shown, told)
}

fn tell_numbers(alloc: Global, from: u64, to: u64, shown: &Text, told: &mut Text) -> Option<()> {
    let head = if from == to {
        format!(in alloc; "with {from}:\n")
    } else {
        format!(in alloc; "with {from} to {to}:\n")
    };
    told.append(head.ok()?.as_bytes()).ok()?;
    told.append(shown.bytes()).ok()
}

// The numbers of the part's block `each FIRST LAST WORD ..`, if it has one.
fn find_each(alloc: Global, part: &[u8]) -> Option<Option<Each>> {
    let mut rest = part;
    while !rest.is_empty() {
        let (block, after) = read_block(alloc, rest)?;
        let words = block.words.as_slice();
        if is_each(words) {
            let first = number_at(words, 1)?;
            let last = number_at(words, 2)?;
            return Some(Some(Each { first, last }));
        }
        rest = after;
    }
    Some(None)
}

fn is_each(words: &[Text]) -> bool {
    match words {
        [name, _, _, _, ..] => name.bytes() == b"each".as_slice(),
        _ => false,
    }
}

// What comes of the part with that number, over what stands on the ground.
fn play(alloc: Global, ground: &[u8], part: &[u8], number: u64, echo: Echo) -> Option<Text> {
    let mut stage = Stage::new(alloc)?;
    let mut told = Text::new(alloc);
    play_part(alloc, &mut stage, ground, number, Echo::Untold, &mut told)?;
    play_part(alloc, &mut stage, part, number, echo, &mut told)?;
    Some(told)
}

// Has the stage do what each block says.
fn play_part(
    alloc: Global,
    stage: &mut Stage,
    part: &[u8],
    number: u64,
    echo: Echo,
    told: &mut Text,
) -> Option<()> {
    let mut rest = part;
    while !rest.is_empty() {
        let (block, after) = read_block(alloc, rest)?;
        if echo == Echo::Told {
            told.append(block.lines).ok()?;
        }
        let words = played_words(alloc, block.words.as_slice(), number)?;
        if stage.take(words.as_slice(), &block.text, told).is_none() {
            told.append(b"?? this isn't understood, or there is no memory for it\n")
                .ok()?;
        }
        rest = after;
    }
    Some(())
}

// The words, or those behind `each FIRST LAST` with the number for each `#`.
fn played_words(alloc: Global, words: &[Text], number: u64) -> Option<List<Text>> {
    let mut played = List::new(alloc);
    match words {
        [_, _, _, varied @ ..] if is_each(words) => {
            for word in varied {
                let mut numbered = Text::new(alloc);
                append_numbered(alloc, &mut numbered, word.bytes(), number)?;
                played.push(numbered).ok()?;
            }
        }
        _ => {
            for word in words {
                played.push(word.copy().ok()?).ok()?;
            }
        }
    }
    Some(played)
}

// The part without the last of the newlines at its end, where it has two.
fn without_blank_end(part: &[u8]) -> &[u8] {
    match part {
        [front @ .., b'\n', b'\n'] => &part[..front.len() + 1],
        _ => part,
    }
}
