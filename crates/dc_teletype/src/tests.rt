// Texts in few columns, as a table.
use crate::wrap;
use dc_text::Text;
use std::alloc::Global;

// The lines, each behind a bar.
fn wrapped(alloc: Global, text: &[u8], columns: usize) -> Option<Text> {
    let lines = wrap(alloc, text, columns).ok()?;
    let mut shown = Text::new(alloc);
    for line in lines.as_slice() {
        shown.push(b'|').ok()?;
        shown.append(line.bytes()).ok()?;
    }
    Some(shown)
}

#[test]
fn texts_are_wrapped(rt: HostRuntime) {
    for (text, columns, lines) in [
        (b"a b c".as_slice(), 1, "|a|b|c"),
        (b"a b c", 2, "|a|b|c"),
        (b"a b c", 3, "|a b|c"),
        (b"abcdef g hijkl m", 3, "|abcdef|g|hijkl|m"),
        (b"a b", 0, "|a|b"),
        ("日本 語".as_bytes(), 5, "|日本|語"),
        ("日本 語".as_bytes(), 7, "|日本 語"),
        ("e\u{301}e\u{301} x".as_bytes(), 4, "|e\u{301}e\u{301} x"),
        (b"\xff\xfe x", 4, "|\u{fffd}\u{fffd} x"),
    ] {
        let found = wrapped(rt.alloc(), text, columns).expect(&rt, "ample memory");
        assert_eq!(rt; found.bytes(), lines.as_bytes(), "{columns}");
    }
}
