// A table beside plain lists, and its links.
use super::SlotTable;
use crate::owner_lists::tests::{held, link_count};
use crate::slot_vector::tests::{are_linked, counts, next_touched, number_of};
use dc_text::{List, Name};
use std::alloc::Global;

// Does the step that the letter tells: it puts, takes, touches, clears what is touched, joins or leaves. It answers the old value.
fn step(
    table: &mut SlotTable<u32>,
    letter: u8,
    name: &Name,
    owner: &Name,
    value: u32,
) -> Option<Option<u32>> {
    match letter {
        b'p' => return table.put(name, value).ok(),
        b't' => return Some(table.take(name)),
        b'u' => table.touch(name).ok()?,
        b'c' => table.clear_touched(),
        b'j' => table.join_owner(name, owner).ok()?,
        _ => table.leave_owner(name, owner),
    }
    Some(None)
}

fn name(alloc: Global, bytes: &[u8]) -> Option<Name> {
    Name::read(alloc, bytes).ok()
}

// A table after the steps, each a letter and a name of one letter, with a space between two. All is about one owner.
fn table_after(alloc: Global, steps: &[u8]) -> Option<SlotTable<u32>> {
    let mut table = SlotTable::new(alloc);
    let owner = name(alloc, b"o")?;
    for words in steps.split(|byte| *byte == b' ') {
        if let [letter, bytes @ ..] = words {
            let name = name(alloc, bytes)?;
            step(&mut table, *letter, &name, &owner, 1)?;
        }
    }
    Some(table)
}

// Writes the name behind a space.
fn push_name(text: &mut Vec<u8>, name: &[u8]) -> Option<()> {
    text.push(b' ').ok()?;
    text.extend_from_slice(name).ok()
}

fn touched(alloc: Global, table: &SlotTable<u32>) -> Option<Vec<u8>> {
    let mut text = Vec::new(alloc);
    for name in table.touched() {
        push_name(&mut text, name.bytes())?;
    }
    Some(text)
}

fn owned(alloc: Global, table: &SlotTable<u32>, owner: &Name) -> Option<Vec<u8>> {
    let mut text = Vec::new(alloc);
    for name in table.owned(owner) {
        push_name(&mut text, name.bytes())?;
    }
    Some(text)
}

fn in_order(alloc: Global, table: &SlotTable<u32>) -> Option<Vec<u8>> {
    let mut text = Vec::new(alloc);
    let names = table.names_in_order().ok()?;
    for name in names.as_slice() {
        push_name(&mut text, name.bytes())?;
    }
    Some(text)
}

// The touched names, those with a value, and those of the owner.
fn shown(alloc: Global, steps: &[u8]) -> Option<Vec<u8>> {
    let table = table_after(alloc, steps)?;
    let owner = name(alloc, b"o")?;
    let mut text = touched(alloc, &table)?;
    text.push(b',').ok()?;
    text.extend_from_slice(in_order(alloc, &table)?.as_slice())
        .ok()?;
    text.push(b',').ok()?;
    text.extend_from_slice(owned(alloc, &table, &owner)?.as_slice())
        .ok()?;
    Some(text)
}

#[test]
fn names_stay_touched_and_owned_without_a_value(rt: HostRuntime) {
    for (steps, text) in [
        ("pb pa ub ua ub jb ja tb", " b a, a, b a"),
        ("pa ta pb jb tb jb pc", ", c, b"),
        ("pa ta pb jb tb jb pc lb", ", c,"),
        ("pa pb pc ua uc ub ta cx", ", b c,"),
        ("ja jb jc lb jb la", ",, c b"),
    ] {
        let found = shown(rt.alloc(), steps.as_bytes()).expect(&rt, "ample memory");
        assert_eq!(&rt; found.as_slice(), text.as_bytes(), "{steps}");
    }
}

// The touched slot behind that of b, the slots of the owner's links, and those of a and b.
fn links(alloc: Global, steps: &[u8]) -> Option<(Option<usize>, Vec<usize>, usize, usize)> {
    let table = table_after(alloc, steps)?;
    let owner = name(alloc, b"o")?;
    let of_b = number_of(&table.slots, b"b")?;
    let of_a = number_of(&table.slots, b"a")?;
    let held = held(alloc, &table.owners, &owner).ok()?;
    Some((next_touched(&table.slots, of_b), held, of_a, of_b))
}

#[test]
fn slots_are_linked(rt: HostRuntime) {
    let (next, held, of_a, of_b) = links(rt.alloc(), b"pb pa ub ua ub jb ja tb").expect(
        &rt,
        "ample memory",
    );
    assert_eq!(&rt; next, Some(of_a));
    assert_eq!(&rt; held.as_slice(), [of_b, of_a].as_slice());
}

// How many slots are used, the number of the next, and how many links there are.
fn uses(alloc: Global, steps: &[u8]) -> Option<(usize, usize, usize)> {
    let table = table_after(alloc, steps)?;
    let (used, next) = counts(&table.slots);
    Some((used, next, link_count(&table.owners)))
}

#[test]
fn an_unused_slot_is_taken_again(rt: HostRuntime) {
    for (steps, counts) in [
        ("pa ta pb jb tb jb pc", (2, 2, 1)),
        ("pa ta pb jb tb jb pc lb", (1, 0, 0)),
        ("ua ub uc cx", (0, 2, 0)),
    ] {
        let found = uses(rt.alloc(), steps.as_bytes()).expect(&rt, "ample memory");
        assert_eq!(&rt; found, counts, "{steps}");
    }
}

// What a table holds, by the places of its names among all names, in the order in which it came.
#[derive(Drop)]
struct Plain {
    values: Vec<(usize, u32)>,
    touched: Vec<usize>,
    owned: Vec<(usize, usize)>,
}

impl Plain {
    fn value(&self, place: usize) -> Option<u32> {
        for (at, value) in &self.values {
            if *at == place {
                return Some(*value);
            }
        }
        None
    }

    fn take(&mut self, place: usize) -> Option<u32> {
        let value = self.value(place);
        self.values.retain(|entry| entry.0 != place);
        value
    }

    fn put(&mut self, place: usize, value: u32) -> Option<Option<u32>> {
        let old = self.take(place);
        self.values.push((place, value)).ok()?;
        Some(old)
    }

    fn touch(&mut self, place: usize) -> Option<()> {
        if self.touched.contains(&place) {
            return Some(());
        }
        self.touched.push(place).ok()
    }

    fn join(&mut self, place: usize, owner: usize) -> Option<()> {
        if self.owned.contains(&(owner, place)) {
            return Some(());
        }
        self.owned.push((owner, place)).ok()
    }

    // The same step.
    fn step(&mut self, letter: u8, place: usize, owner: usize, value: u32) -> Option<Option<u32>> {
        match letter {
            b'p' => return self.put(place, value),
            b't' => return Some(self.take(place)),
            b'u' => self.touch(place)?,
            b'c' => self.touched.clear(),
            b'j' => self.join(place, owner)?,
            _ => self.owned.retain(|entry| *entry != (owner, place)),
        }
        Some(None)
    }

    // The names at the places that are touched.
    fn touched(&self, alloc: Global, names: &List<Name>) -> Option<Vec<u8>> {
        let mut text = Vec::new(alloc);
        for place in &self.touched {
            push_name(&mut text, names.get(*place)?.bytes())?;
        }
        Some(text)
    }

    fn owned(&self, alloc: Global, names: &List<Name>, owner: usize) -> Option<Vec<u8>> {
        let mut text = Vec::new(alloc);
        for (of, place) in &self.owned {
            if *of == owner {
                push_name(&mut text, names.get(*place)?.bytes())?;
            }
        }
        Some(text)
    }

    fn in_order(&self, alloc: Global, names: &List<Name>) -> Option<Vec<u8>> {
        let mut text = Vec::new(alloc);
        for place in 0..names.len() {
            if self.value(place).is_some() {
                push_name(&mut text, names.get(place)?.bytes())?;
            }
        }
        Some(text)
    }
}

// Whether both have the same at the name and the owner, and the table's links are whole.
fn are_alike(
    alloc: Global,
    table: &SlotTable<u32>,
    plain: &Plain,
    names: &List<Name>,
    place: usize,
) -> Option<bool> {
    let name = names.get(place)?;
    let same_value = table.get(name).copied() == plain.value(place);
    let same_touched = touched(alloc, table)? == plain.touched(alloc, names)?;
    let same_owned = owned(alloc, table, name)? == plain.owned(alloc, names, place)?;
    let same_order = in_order(alloc, table)? == plain.in_order(alloc, names)?;
    let whole = are_linked(&table.slots) && link_count(&table.owners) == plain.owned.len();
    Some(same_value && same_touched && same_owned && same_order && whole)
}

fn names(alloc: Global) -> Option<List<Name>> {
    let mut names = List::new(alloc);
    for bytes in ["a", "a/b", "b", "c", "d", "e/f", "g", "h"] {
        names.push(name(alloc, bytes.as_bytes())?).ok()?;
    }
    Some(names)
}

// The step of a random number: one in 64 clears.
fn letter_of(random: u32) -> u8 {
    match random >> 24 {
        0..=59 => b'p',
        60..=119 => b't',
        120..=159 => b'u',
        160..=163 => b'c',
        164..=209 => b'j',
        _ => b'l',
    }
}

// Does the step of the random number on both, and says whether they are alike then.
fn both_step(
    alloc: Global,
    table: &mut SlotTable<u32>,
    plain: &mut Plain,
    names: &List<Name>,
    random: u32,
) -> Option<bool> {
    let letter = letter_of(random);
    let place = (random >> 8) as usize % 8;
    let owner = (random >> 16) as usize % 8;
    let old = step(table, letter, names.get(place)?, names.get(owner)?, random)?;
    let plain_old = plain.step(letter, place, owner, random)?;
    Some(
        old == plain_old
            && are_alike(alloc, table, plain, names, place)?
            && are_alike(alloc, table, plain, names, owner)?,
    )
}

// How many random steps were done until a table and plain lists differed.
fn steps_alike(alloc: Global, steps: usize) -> Option<usize> {
    let names = names(alloc)?;
    let mut table = SlotTable::new(alloc);
    let mut plain = Plain {
        values: Vec::new(alloc),
        touched: Vec::new(alloc),
        owned: Vec::new(alloc),
    };
    let mut random = 20_261_201u32;
    for done in 0..steps {
        random = random.wrapping_mul(1_664_525).wrapping_add(1_013_904_223);
        if !both_step(alloc, &mut table, &mut plain, &names, random)? {
            return Some(done);
        }
    }
    Some(steps)
}

#[test]
fn operations_are_those_of_plain_lists(rt: HostRuntime) {
    assert_eq!(&rt;
        steps_alike(rt.alloc(), 10_000).expect(&rt, "ample memory"),
        10_000
    );
}
