// Patterns that names and kinds of questions are held against.
ghost use Rattle.std.specs.Prelude.{◌≡◌, true, false, is_some, IfOk, OnOk};
ghost use Rattle.regex.specs.Bytes.{regex_pattern};
ghost use Rattle.regex.specs.Patterns.{find};
ghost use Rattle.dc_layer.specs.Patterns.{is_plain as is_plain_of, is_pattern, is_found, HasItsRegex};

use crate::plain::{is_found_plainly, is_plain};
use dc_text::{Mem, OutOfMemory, Text};
use regex::bytes::Regex;
use regex::{Error, RegexBuilder};
use std::alloc::Global;
use std::marker::Model;

/// Why a pattern isn't built.
#[derive(Clone, Copy, Debug, PartialEq, Eq)]
pub enum PatternError {
    /// The text is no pattern.
    Bad,
    /// What is built of the pattern would take too much room.
    TooLarge,
    OutOfMemory,
}

impl From<OutOfMemory> for PatternError {
    ghost use Rattle.std.specs.Prelude.{◌≡◌};
    ghost use Rattle.dc_layer.specs.declared.pattern.PatternError.TheVariants.{OutOfMemory};

    ghost from_gives = { λ _ e. e ≡ OutOfMemory };

    fn from(_: OutOfMemory) -> Self {
        PatternError::OutOfMemory
    }
}

/// A pattern (debconf.conf(5)): a plain one, which stands for its own bytes, or a regular expression.
#[derive(Drop)]
pub struct Pattern {
    text: Text,
    ignore_case: bool,
    /// What a pattern that isn't plain is built to.
    regex: Option<Regex>,
}

impl Model for Pattern {
    ghost use Rattle.dc_layer.specs.Patterns.{Sought, HasItsRegex};

    ghost Value = { Sought };

    ghost view = { λ p. record { text = p.text; ignore_case = p.ignore_case } };

    ghost invariant = { λ p. HasItsRegex p.ignore_case p.text p.regex };
}

impl Pattern {
    /// Builds the pattern that the text is. `Bad` comes only where it is none, and a plain pattern is never refused.
    pub fn build(alloc: Global, text: &[u8], ignore_case: bool) -> Result<Self, PatternError>
        ensures value { IfOk result (λ pattern. pattern ≡ record { text = text.now; ignore_case = ignore_case }) }
        ensures ok { OnOk result (is_pattern ignore_case text.now ≡ true) }
        ensures bad { result ≡ Err PatternError.Bad → is_pattern ignore_case text.now ≡ false }
        ensures too_large { result ≡ Err PatternError.TooLarge → (is_plain_of text.now ≡ false)
            × (is_pattern ignore_case text.now ≡ true) }
    {
        let regex = regex_for(alloc, text, ignore_case)?;
        let text = Text::from_bytes(alloc, text)?;
        Ok(Pattern {
            text,
            ignore_case,
            regex,
        })
    }

    /// Whether the pattern is found in the bytes.
    pub fn found(&self, alloc: Global, bytes: &[u8]) -> Mem<bool>
        ensures { IfOk result (λ yes. yes ≡ is_found self.now.ignore_case self.now.text bytes.now) }
    {
        match &self.regex {
            None => Ok(is_found_plainly(self.text.bytes(), self.ignore_case, bytes)),
            Some(regex) => matches_in(alloc, regex, bytes),
        }
    }
}

// The regex that is read in the text, where it isn't a plain pattern.
fn regex_for(alloc: Global, text: &[u8], ignore_case: bool) -> Result<Option<Regex>, PatternError>
    ensures ok { IfOk result (HasItsRegex ignore_case text.now) }
    ensures bad { result ≡ Err PatternError.Bad → is_pattern ignore_case text.now ≡ false }
    ensures too_large { result ≡ Err PatternError.TooLarge → (is_plain_of text.now ≡ false)
        × (is_pattern ignore_case text.now ≡ true) }
{
    if is_plain(text) {
        return Ok(None);
    }
    let Ok(text) = std::str::from_utf8(text) else {
        return Err(PatternError::Bad);
    };
    let builder = RegexBuilder::new(text).case_insensitive(ignore_case);
    match builder.build_bytes(alloc) {
        Ok(regex) => Ok(Some(regex)),
        Err(Error::Syntax(_)) => Err(PatternError::Bad),
        Err(Error::CompiledTooBig) => Err(PatternError::TooLarge),
        Err(Error::OutOfMemory) => Err(PatternError::OutOfMemory),
        Err(Error::Internal) => unreachable!(),
    }
}

fn matches_in(alloc: Global, regex: &Regex, bytes: &[u8]) -> Mem<bool>
    ensures { IfOk result (λ yes. yes ≡ is_some (find (regex_pattern regex.now) bytes.now 0)) }
{
    let mut matcher = regex.matcher(alloc)?;
    Ok(matcher.is_match(bytes))
}
