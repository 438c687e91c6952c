// The words and the environment of the program.
ghost use Rattle.std.specs.Io.{WritesAtMost};

use dc_run::Settings;
use dc_text::{List, Mem, OutOfMemory, Text};
use std::alloc::Global;
use std::env::{Env, FillError};

/// Where a value of the surroundings stands.
enum Place<'a> {
    /// The word at the place, of which that at 0 is the program's name.
    Word(usize),
    /// The environment variable of the name.
    Variable(&'a str),
}

impl Drop for Place<'_> {
    fn drop(self) {
        match self {
            Place::Word(_) => {}
            Place::Variable(_) => {}
        }
    }
}

// Puts the value into the front of the buffer.
fn fill<R: Env>(env: &R, place: &Place, buf: &mut [u8]) -> Result<usize, FillError>
    ensures { WritesAtMost result buf.new }
{
    match place {
        Place::Word(number) => env.arg(*number, buf),
        Place::Variable(name) => env.var(name, buf),
    }
}

// The value at the place, if there is one.
fn value<R: Env>(alloc: Global, env: &R, place: &Place) -> Mem<Option<Text>> {
    let mut buf = vec![in alloc; 0u8; 256]?;
    for _ in 0..40u8 {
        match fill(env, place, buf.as_mut_slice()) {
            Ok(count) => return Ok(Some(Text::from_bytes(alloc, &buf[..count])?)),
            Err(FillError::NotPresent) => return Ok(None),
            Err(FillError::TooLong) => {
                let size = buf.len().saturating_mul(2);
                buf.resize(size, 0)?;
            }
        }
    }
    Err(OutOfMemory)
}

/// The words behind the program's name.
pub fn read_words<R: Env>(alloc: Global, env: &R) -> Mem<List<Text>> {
    let mut words = List::new(alloc);
    for number in 1..usize::MAX {
        match value(alloc, env, &Place::Word(number))? {
            None => return Ok(words),
            Some(word) => words.push(word)?,
        }
    }
    Ok(words)
}

/// The settings: `DEBCONF_SYSTEMRC`, else `/etc/debconf.conf`; `DEBIAN_FRONTEND`; `DEBIAN_PRIORITY`; the first of
/// `LC_ALL`, `LC_MESSAGES` and `LANG` that isn't empty; and whether `DEBCONF_NONINTERACTIVE_SEEN` is `true`.
pub fn read_settings<R: Env>(alloc: Global, env: &R) -> Mem<Settings> {
    let conf_path = match value(alloc, env, &Place::Variable("DEBCONF_SYSTEMRC"))? {
        Some(path) => path,
        None => Text::from_bytes(alloc, b"/etc/debconf.conf")?,
    };
    let seen = value(alloc, env, &Place::Variable("DEBCONF_NONINTERACTIVE_SEEN"))?;
    Ok(Settings {
        conf_path,
        frontend: value(alloc, env, &Place::Variable("DEBIAN_FRONTEND"))?,
        priority: value(alloc, env, &Place::Variable("DEBIAN_PRIORITY"))?,
        lang: read_language(alloc, env)?,
        nonint_seen: is_true(&seen),
    })
}

fn is_true(value: &Option<Text>) -> bool {
    match value {
        None => false,
        Some(text) => text.bytes() == b"true".as_slice(),
    }
}

fn read_language<R: Env>(alloc: Global, env: &R) -> Mem<Text> {
    for name in ["LC_ALL", "LC_MESSAGES", "LANG"] {
        if let Some(language) = value(alloc, env, &Place::Variable(name))? {
            if !language.bytes().is_empty() {
                return Ok(language);
            }
        }
    }
    Ok(Text::new(alloc))
}
