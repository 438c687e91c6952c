// How entries are packed and written among others.
ghost use Rattle.std.specs.Prelude.{◌≡◌, ◌++◌, ◌∷◌, ◌<◌, ◌≤◌, ◌+◌, ◌-◌, [], OnOk, OnErr, length, take, drop, vec_capacity};
ghost use Rattle.dc_parts.specs.Keys.{whole};
ghost use Rattle.dc_parts.specs.Packed.{packed_length, packed_key, IsBegunBy};
ghost use Rattle.dc_parts.specs.Writing.{packed_entry, short_entry, spliced};

use crate::part_key::PartKey;
use crate::places::Span;
use dc_text::Mem;

// How many bytes most items take.
const USUAL_ROOM: usize = 120;

// Puts a length behind the bytes. Where memory runs out, part of it may stand there.
fn push_length(bytes: &mut Vec<u8>, count: usize) -> Mem<()>
    ensures ok { OnOk result (bytes.new.items ≡ bytes.old.items ++ packed_length count) }
    ensures err { OnErr result (IsBegunBy bytes.old.items bytes.new.items) }
{
    for _ in 0..count / 255 {
        bytes.push(255)?;
    }
    bytes.push((count % 255) as u8)?;
    Ok(())
}

// How many bytes an entry takes, for a key and a value of so many bytes.
fn room_for(key: usize, value: usize) -> usize {
    let texts = key.saturating_add(value);
    texts.saturating_add(texts / 255).saturating_add(3)
}

// How much room is made behind so many bytes for an entry that takes so many: at first as much as most items take, so that one
// that grows entry by entry isn't moved for each.
fn room_behind(count: usize, entry: usize) -> usize
    ensures { entry ≤ result }
{
    if count == 0 {
        entry.max(USUAL_ROOM)
    } else {
        entry
    }
}

// A key of fewer than 255 bytes as it is packed: its first two bytes, and the rest of them.
#[derive(Clone, Copy)]
pub(crate) struct ShortKey<'a> {
    pub(crate) first: u8,
    pub(crate) second: u8,
    pub(crate) rest: &'a [u8],
}

#[inline(always)]
pub(crate) fn short_key<'a>(key: PartKey<'a>) -> ShortKey<'a>
    requires { length key.key.now < 254 }
    ensures packed { result.first ∷ result.second ∷ result.rest.now ≡ packed_key (whole key.entry) }
    ensures short { length result.rest.now < 254 }
{
    match key.number {
        Some(number) => ShortKey {
            first: 0,
            second: number,
            rest: b"",
        },
        None => ShortKey {
            first: (key.key.len() + 1) as u8,
            second: key.mark,
            rest: key.key,
        },
    }
}

// Puts a text behind the bytes, which have room for it. Often it is empty: what a usual key leaves, or the value of an owner or a flag.
#[inline(always)]
fn append_reserved(bytes: &mut Vec<u8>, text: &[u8])
    requires room { length bytes.old.items + length text.now ≤ vec_capacity bytes.old }
    ensures items { bytes.new.items ≡ bytes.old.items ++ text.now }
    ensures capacity { vec_capacity bytes.old ≤ vec_capacity bytes.new }
{
    if text.is_empty() {
        return;
    }
    match bytes.extend_from_slice(text) {
        Ok(()) => {}
        Err(_) => unreachable!(),
    }
}

// Puts an entry of which each length takes one byte behind the bytes, as those of most do.
#[inline(always)]
pub(crate) fn push_short(bytes: &mut Vec<u8>, key: ShortKey, value: &[u8]) -> Mem<()>
    requires key { length key.rest.now < 254 }
    requires value { length value.now < 255 }
    ensures ok { OnOk result (bytes.new.items ≡ bytes.old.items ++ short_entry key.entry value.now) }
    ensures err { OnErr result (bytes.new.items ≡ bytes.old.items) }
{
    bytes.reserve(room_behind(bytes.len(), key.rest.len() + value.len() + 3))?;
    bytes.push_reserved(key.first);
    bytes.push_reserved(key.second);
    append_reserved(bytes, key.rest);
    bytes.push_reserved(value.len() as u8);
    append_reserved(bytes, value);
    Ok(())
}

// Writes a key behind the bytes. Where memory runs out, part of it may stand there.
fn write_key(bytes: &mut Vec<u8>, key: PartKey) -> Mem<()>
    ensures ok { OnOk result (bytes.new.items ≡ bytes.old.items ++ packed_key (whole key.entry)) }
    ensures err { OnErr result (IsBegunBy bytes.old.items bytes.new.items) }
{
    match key.number {
        Some(number) => bytes.extend_from_slice(&[0, number])?,
        None => {
            push_length(bytes, key.key.len() + 1)?;
            bytes.push(key.mark)?;
            bytes.extend_from_slice(key.key)?;
        }
    }
    Ok(())
}

// Writes an entry behind the bytes. Where memory runs out, part of it may stand there.
fn write_entry(bytes: &mut Vec<u8>, key: PartKey, value: &[u8]) -> Mem<()>
    ensures ok { OnOk result (bytes.new.items ≡ bytes.old.items ++ packed_entry (whole key.entry) value.now) }
    ensures err { OnErr result (IsBegunBy bytes.old.items bytes.new.items) }
{
    write_key(bytes, key)?;
    push_length(bytes, value.len())?;
    bytes.extend_from_slice(value)?;
    Ok(())
}

// Puts the bytes from the start to the end behind all once more.
fn push_again(bytes: &mut Vec<u8>, start: usize, end: usize) -> Mem<()>
    requires ordered { start ≤ end }
    requires in_range { end ≤ length bytes.old.items }
    ensures ok { OnOk result (bytes.new.items ≡ bytes.old.items ++ take (end - start) (drop start bytes.old.items)) }
    ensures err { OnErr result (bytes.new.items ≡ bytes.old.items) }
{
    let len = bytes.len();
    bytes.resize(len + (end - start), 0)?;
    bytes.copy_within(start..end, len);
    Ok(())
}

// Writes an entry behind the bytes, and behind that again what stands from the end on. Where memory runs out, part of it may stand
// there.
fn write_with_rest(bytes: &mut Vec<u8>, end: usize, key: PartKey, value: &[u8]) -> Mem<()>
    requires in_range { end ≤ length bytes.old.items }
    ensures ok { OnOk result (bytes.new.items ≡ bytes.old.items ++ (packed_entry (whole key.entry) value.now ++ drop end bytes.old.items)) }
    ensures err { OnErr result (IsBegunBy bytes.old.items bytes.new.items) }
{
    let len = bytes.len();
    write_entry(bytes, key, value)?;
    if end < len {
        push_again(bytes, end, len)?;
    }
    Ok(())
}

// Takes the bytes from the start to the end out, if there are any.
pub(crate) fn cut_out(bytes: &mut Vec<u8>, start: usize, end: usize)
    requires ordered { start ≤ end }
    requires in_range { end ≤ length bytes.old.items }
    ensures { bytes.new.items ≡ take start bytes.old.items ++ drop end bytes.old.items }
{
    if start < end {
        let rest = bytes.len() - end;
        bytes.copy_within(end.., start);
        bytes.truncate(start + rest);
    }
}

// Writes a text over so many bytes from a place on.
fn write_at(bytes: &mut Vec<u8>, at: usize, text: &[u8])
    requires { at + length text.now ≤ length bytes.old.items }
    ensures { bytes.new.items ≡ take at bytes.old.items ++ (text.now ++ drop (at + length text.now) bytes.old.items) }
{
    bytes[at..at + text.len()].copy_from_slice(text);
}

// Puts an entry of which each length takes one byte in the place of the bytes from the start to the end, which are no fewer than it
// takes. It takes no memory.
fn put_within(bytes: &mut Vec<u8>, span: Span, key: ShortKey, value: &[u8])
    requires value { length value.now < 255 }
    requires fits { span.start + length key.rest.now + length value.now + 3 ≤ span.end }
    requires in_range { span.end ≤ length bytes.old.items }
    ensures { bytes.new.items ≡ spliced span.start span.end (short_entry key.entry value.now) bytes.old.items }
{
    let at_rest = span.start + 2;
    let at_length = at_rest + key.rest.len();
    let at_value = at_length + 1;
    write_at(bytes, span.start, &[key.first, key.second]);
    write_at(bytes, at_rest, key.rest);
    write_at(bytes, at_length, &[value.len() as u8]);
    write_at(bytes, at_value, value);
    cut_out(bytes, at_value + value.len(), span.end);
}

// Makes room for so many more bytes before those from the end on. What stands in that room is of no account.
fn open_gap(bytes: &mut Vec<u8>, end: usize, more: usize) -> Mem<()>
    requires in_range { end ≤ length bytes.old.items }
    requires few { more ≤ 512 }
    ensures front { OnOk result (take end bytes.new.items ≡ take end bytes.old.items) }
    ensures rest { OnOk result (drop (end + more) bytes.new.items ≡ drop end bytes.old.items) }
    ensures count { OnOk result (length bytes.new.items ≡ length bytes.old.items + more) }
    ensures err { OnErr result (bytes.new.items ≡ bytes.old.items) }
{
    let len = bytes.len();
    if len - end <= more {
        return repeat_behind(bytes, end, end + more);
    }
    bytes.resize(len + more, 0)?;
    bytes.copy_within(end..len, end + more);
    Ok(())
}

// Puts what stands from the end on once more, from a place that is behind all of it.
fn repeat_behind(bytes: &mut Vec<u8>, end: usize, to: usize) -> Mem<()>
    requires in_range { end ≤ length bytes.old.items }
    requires behind { length bytes.old.items ≤ to }
    requires few { to ≤ length bytes.old.items + 512 }
    ensures front { OnOk result (take end bytes.new.items ≡ take end bytes.old.items) }
    ensures rest { OnOk result (drop to bytes.new.items ≡ drop end bytes.old.items) }
    ensures count { OnOk result (length bytes.new.items + end ≡ length bytes.old.items + to) }
    ensures err { OnErr result (bytes.new.items ≡ bytes.old.items) }
{
    let len = bytes.len();
    bytes.reserve(to - end)?;
    match bytes.resize(to, 0) {
        Ok(()) => {}
        Err(_) => unreachable!(),
    }
    match bytes.extend_from_within(end..len) {
        Ok(()) => Ok(()),
        Err(_) => unreachable!(),
    }
}

// Puts an entry of which each length takes one byte in the place of the bytes from the start to the end: what stands behind them moves
// once.
fn put_short(bytes: &mut Vec<u8>, span: Span, key: ShortKey, value: &[u8]) -> Mem<()>
    requires key { length key.rest.now < 254 }
    requires value { length value.now < 255 }
    requires ordered { span.start ≤ span.end }
    requires in_range { span.end ≤ length bytes.old.items }
    ensures ok { OnOk result (bytes.new.items ≡ spliced span.start span.end (short_entry key.entry value.now) bytes.old.items) }
    ensures err { OnErr result (bytes.new.items ≡ bytes.old.items) }
{
    let end = span.start + key.rest.len() + value.len() + 3;
    if end <= span.end {
        put_within(bytes, span, key, value);
        return Ok(());
    }
    open_gap(bytes, span.end, end - span.end)?;
    let wider = Span {
        start: span.start,
        end,
        is_there: span.is_there,
    };
    put_within(bytes, wider, key, value);
    Ok(())
}

// Puts an entry between the bytes before the start and those from the end on. A long one is written behind all, and what it takes the
// place of is cut out.
pub(crate) fn put_between(bytes: &mut Vec<u8>, span: Span, key: PartKey, value: &[u8]) -> Mem<()>
    requires ordered { span.start ≤ span.end }
    requires in_range { span.end ≤ length bytes.old.items }
    ensures ok { OnOk result (bytes.new.items ≡ spliced span.start span.end (packed_entry (whole key.entry) value.now) bytes.old.items) }
    ensures err { OnErr result (bytes.new.items ≡ bytes.old.items) }
{
    let before = bytes.len();
    if key.key.len() < 254 && value.len() < 255 {
        let key = short_key(key);
        return if span.start < before {
            put_short(bytes, span, key, value)
        } else {
            push_short(bytes, key, value)
        };
    }
    let room = room_for(key.key.len(), value.len()).saturating_add(before - span.end);
    bytes.reserve(room_behind(before, room))?;
    match write_with_rest(bytes, span.end, key, value) {
        Ok(()) => {
            cut_out(bytes, span.start, before);
            Ok(())
        }
        Err(error) => {
            bytes.truncate(before);
            Err(error)
        }
    }
}
