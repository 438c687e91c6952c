// What a layer is set up with.
ghost use Rattle.std.specs.Prelude.{◌≡◌, Err, true, false, IfOk, OnOk};
ghost use Rattle.dc_layer.specs.Rules.{accepts, rules_of, are_patterns, are_plain};

use crate::pattern::PatternError;
use crate::rules::LayerRules;
use dc_conf::spec::LayerSpec;
use dc_template::Kind;
use dc_text::{Mem, Name};
use std::alloc::Global;
use std::marker::Model;

/// A spec with the rules that it says. The rules are large, so they stand apart.
#[derive(Drop)]
pub struct SetUp {
    spec: LayerSpec,
    rules: Box<LayerRules>,
}

impl Model for SetUp {
    ghost use Rattle.std.specs.Prelude.{◌≡◌};
    ghost use Rattle.dc_conf.specs.declared.spec.LayerSpec.{LayerSpec};
    ghost use Rattle.dc_layer.specs.Rules.{rules_of};

    ghost Value = { LayerSpec };

    ghost view = { λ s. s.spec };

    ghost invariant = { λ s. s.rules.value ≡ rules_of s.spec };
}

impl SetUp {
    /// The spec, with its patterns built.
    pub fn build(alloc: Global, spec: LayerSpec) -> Result<Self, PatternError>
        ensures value { IfOk result (λ made. made ≡ spec) }
        ensures built { OnOk result (are_patterns (rules_of spec) ≡ true) }
        ensures bad { result ≡ Err PatternError.Bad → are_patterns (rules_of spec) ≡ false }
        ensures too_large { result ≡ Err PatternError.TooLarge → are_plain (rules_of spec) ≡ false }
    {
        match LayerRules::build(alloc, &spec) {
            Ok(rules) => match Box::new(alloc, rules) {
                Ok(rules) => Ok(SetUp { spec, rules }),
                Err(_) => Err(PatternError::OutOfMemory),
            },
            Err(error) => Err(error),
        }
    }

    /// What the configuration says of the layer (debconf.conf(5)).
    pub fn spec(&self) -> &LayerSpec
        ensures { result.now ≡ self.now }
    {
        &self.spec
    }

    /// Whether the rules take an item of this name and kind.
    pub fn accepts(&self, alloc: Global, name: &Name, kind: Option<Kind>) -> Mem<bool>
        ensures { IfOk result (λ is. is ≡ accepts (rules_of self.now) name.now kind) }
    {
        self.rules.accepts(alloc, name, kind)
    }
}
