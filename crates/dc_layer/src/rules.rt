// Which items a database accepts.
ghost use Rattle.std.specs.Prelude.{◌≡◌, true, false, IfOk, IfErr, OnOk};
ghost use Rattle.dc_layer.specs.Patterns.{is_plain, is_pattern};
ghost use Rattle.dc_layer.specs.Rules.{passes as passes_of, passes_kind as passes_kind_of, is_found_or, text_in, IgnoresCase, accepts as accepts_of, is_absent_or, are_patterns, are_plain, IsRefusedBy};

use crate::pattern::{Pattern, PatternError};
use dc_conf::spec::LayerSpec;
use dc_template::Kind;
use dc_text::{Mem, Name, Text};
use std::alloc::Global;
use std::marker::Model;

/// Which items a database accepts (debconf.conf(5)): its patterns for names and for types, each of which may be absent. They
/// ignore case.
#[derive(Drop)]
pub struct LayerRules {
    accept_name: Option<Pattern>,
    reject_name: Option<Pattern>,
    accept_type: Option<Pattern>,
    reject_type: Option<Pattern>,
}

impl Model for LayerRules {
    ghost use Rattle.std.specs.Prelude.{◌≡◌};
    ghost use Rattle.dc_layer.specs.Rules.{Rules, text_in, IgnoresCase};

    ghost Value = { Rules };

    ghost view = { λ r. record {
      accept_name = text_in r.accept_name;
      reject_name = text_in r.reject_name;
      accept_type = text_in r.accept_type;
      reject_type = text_in r.reject_type;
    } };

    ghost invariant = { λ r. IgnoresCase r.accept_name × IgnoresCase r.reject_name
        × IgnoresCase r.accept_type × IgnoresCase r.reject_type };
}

impl LayerRules {
    ghost use Rattle.dc_layer.specs.Rules.{rules_of};

    /// Builds the patterns of the database, in the order of their fields. The first that can't be built decides: it is `Bad` only where
    /// it is no pattern.
    pub fn build(alloc: Global, spec: &LayerSpec) -> Result<Self, PatternError>
        ensures value { IfOk result (λ rules. rules ≡ rules_of spec.now) }
        ensures ok { OnOk result (are_patterns (rules_of spec.now) ≡ true) }
        ensures bad { result ≡ Err PatternError.Bad → are_patterns (rules_of spec.now) ≡ false }
        ensures too_large { result ≡ Err PatternError.TooLarge → are_plain (rules_of spec.now) ≡ false }
        ensures first { IfErr result (IsRefusedBy (rules_of spec.now)) }
    {
        let accept_name = pattern_in(alloc, &spec.accept_name)?;
        let reject_name = pattern_in(alloc, &spec.reject_name)?;
        let accept_type = pattern_in(alloc, &spec.accept_type)?;
        let reject_type = pattern_in(alloc, &spec.reject_type)?;
        Ok(LayerRules {
            accept_name,
            reject_name,
            accept_type,
            reject_type,
        })
    }

    /// Whether an item with this name and this kind, if it has one, is accepted.
    pub fn accepts(&self, alloc: Global, name: &Name, kind: Option<Kind>) -> Mem<bool>
        ensures { IfOk result (λ yes. yes ≡ accepts_of self.now name.now kind) }
    {
        Ok(self.accepts_name(alloc, name)? && self.accepts_kind(alloc, kind)?)
    }

    fn accepts_name(&self, alloc: Global, name: &Name) -> Mem<bool>
        ensures { IfOk result (λ yes. yes ≡ passes_of self.now.accept_name self.now.reject_name name.now) }
    {
        passes(alloc, &self.accept_name, &self.reject_name, name.bytes())
    }

    // The patterns for types pass where there is no kind.
    fn accepts_kind(&self, alloc: Global, kind: Option<Kind>) -> Mem<bool>
        ensures { IfOk result (λ yes. yes ≡ passes_kind_of self.now kind) }
    {
        match kind {
            None => Ok(true),
            Some(kind) => passes(alloc, &self.accept_type, &self.reject_type, kind.word()),
        }
    }
}

fn pattern_in(alloc: Global, text: &Option<Text>) -> Result<Option<Pattern>, PatternError>
    ensures value { IfOk result (λ pattern. text_in pattern ≡ text.now) }
    ensures case { IfOk result IgnoresCase }
    ensures ok { OnOk result (is_absent_or (is_pattern true) text.now ≡ true) }
    ensures bad { result ≡ Err PatternError.Bad → is_absent_or (is_pattern true) text.now ≡ false }
    ensures too_large { result ≡ Err PatternError.TooLarge → is_absent_or is_plain text.now ≡ false }
{
    match text {
        Some(text) => Ok(Some(Pattern::build(alloc, text.bytes(), true)?)),
        None => Ok(None),
    }
}

// The accept pattern that is there is found, and the reject pattern that is there isn't.
fn passes(
    alloc: Global,
    accept: &Option<Pattern>,
    reject: &Option<Pattern>,
    bytes: &[u8],
) -> Mem<bool>
    requires accept { IgnoresCase accept.now }
    requires reject { IgnoresCase reject.now }
    ensures { IfOk result (λ yes. yes ≡ passes_of (text_in accept.now) (text_in reject.now) bytes.now) }
{
    Ok(is_found_in(alloc, accept, bytes, true)? && !is_found_in(alloc, reject, bytes, false)?)
}

// Whether the pattern is found, or this answer where it is absent.
fn is_found_in(alloc: Global, pattern: &Option<Pattern>, bytes: &[u8], absent: bool) -> Mem<bool>
    requires { IgnoresCase pattern.now }
    ensures { IfOk result (λ yes. yes ≡ is_found_or absent (text_in pattern.now) bytes.now) }
{
    match pattern {
        Some(pattern) => pattern.found(alloc, bytes),
        None => Ok(absent),
    }
}
