// Plain patterns, which no regex is built for (debconf.conf(5)).
ghost use Rattle.std.specs.Prelude.{◌≡◌, take};
ghost use Rattle.std.specs.Str.{bytes_eq};
ghost use Rattle.dc_layer.specs.Patterns.{is_plain as is_plain_of, is_plain_byte as is_plain_byte_of, is_at_front as is_at_front_of, is_at_end as is_at_end_of, without_front as without_front_of, without_end as without_end_of, core_of, spelled, stands as stands_of, stands_somewhere as stands_somewhere_of, is_found_plainly as is_found_plainly_of};

/// Whether the pattern is plain: without one `^` at its front and one `$` at its end, it has only letters, digits, `/`, `-`,
/// `_` and `:`.
pub(crate) fn is_plain(text: &[u8]) -> bool
    ensures { result ≡ is_plain_of text.now }
{
    core(text).iter().all(|byte| is_plain_byte(*byte))
}

fn is_plain_byte(byte: u8) -> bool
    ensures { result ≡ is_plain_byte_of byte }
{
    byte.is_ascii_alphanumeric() || byte == b'/' || byte == b'-' || byte == b'_' || byte == b':'
}

fn is_at_front(text: &[u8]) -> bool
    ensures { result ≡ is_at_front_of text.now }
{
    match text {
        [] => false,
        [first, ..] => *first == b'^',
    }
}

fn is_at_end(text: &[u8]) -> bool
    ensures { result ≡ is_at_end_of text.now }
{
    text.ends_with(b"$")
}

// What is sought.
fn core(text: &[u8]) -> &[u8]
    ensures { result.now ≡ core_of text.now }
{
    without_end(without_front(text))
}

fn without_front(text: &[u8]) -> &[u8]
    ensures { result.now ≡ without_front_of text.now }
{
    match text {
        [b'^', rest @ ..] => rest,
        _ => text,
    }
}

fn without_end(text: &[u8]) -> &[u8]
    ensures { result.now ≡ without_end_of text.now }
{
    if text.ends_with(b"$") {
        &text[..text.len() - 1]
    } else {
        text
    }
}

/// Whether the plain pattern is found in the bytes.
pub(crate) fn is_found_plainly(text: &[u8], ignore_case: bool, bytes: &[u8]) -> bool
    ensures { result ≡ is_found_plainly_of ignore_case text.now bytes.now }
{
    let core = core(text);
    let at_end = is_at_end(text);
    if is_at_front(text) {
        stands(core, at_end, ignore_case, bytes)
    } else {
        stands_somewhere(core, at_end, ignore_case, bytes)
    }
}

fn stands_somewhere(core: &[u8], at_end: bool, ignore_case: bool, bytes: &[u8]) -> bool
    ensures { result ≡ stands_somewhere_of ignore_case at_end core.now bytes.now }
{
    let mut rest = bytes;
    while !stands(core, at_end, ignore_case, rest) {
        let [_, tail @ ..] = rest else {
            return false;
        };
        rest = tail;
    }
    true
}

// Whether the core stands at the front of the bytes, or is all of them where it must stand at their end.
fn stands(core: &[u8], at_end: bool, ignore_case: bool, bytes: &[u8]) -> bool
    ensures { result ≡ stands_of ignore_case at_end core.now bytes.now }
{
    let part = if at_end {
        bytes
    } else {
        front_of(bytes, core.len())
    };
    is_spelled_as(part, core, ignore_case)
}

// So many bytes from the front, or all where there are fewer.
fn front_of(bytes: &[u8], count: usize) -> &[u8]
    ensures { result.now ≡ take count bytes.now }
{
    if count <= bytes.len() {
        &bytes[..count]
    } else {
        bytes
    }
}

fn is_spelled_as(bytes: &[u8], word: &[u8], ignore_case: bool) -> bool
    ensures { result ≡ bytes_eq (spelled ignore_case bytes.now) (spelled ignore_case word.now) }
{
    if ignore_case {
        bytes.eq_ignore_ascii_case(word)
    } else {
        bytes == word
    }
}
