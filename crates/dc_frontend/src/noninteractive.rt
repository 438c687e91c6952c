// What is settled where nobody is asked.
ghost use Rattle.std.specs.Prelude.{◌≡◌};
ghost use Rattle.std.specs.List.{list_any};
ghost use Rattle.std.specs.Str.{bytes_eq};

use crate::shown::Shown;
use dc_template::Kind;
use dc_text::Text;

/// The frontend that asks nobody (debconf(7), Frontends).
pub struct Noninteractive;

impl Noninteractive {
    ghost use Rattle.std.specs.Prelude.{◌≡◌};
    ghost use Rattle.std.specs.Option.{option_copied};
    ghost use Rattle.dc_frontend.specs.Settling.{settled_choice};

    /// The value that the question gets in place of its own: the first choice of a select whose value is none of its choices.
    pub fn settle(shown: &Shown) -> Option<&Text>
        ensures { option_copied result ≡ settled_choice shown.now }
    {
        match shown.kind {
            Kind::Select if !is_choice(shown) => shown.choices.get(0),
            _ => None,
        }
    }
}

// Whether the value is one of the choices.
fn is_choice(shown: &Shown) -> bool
    ensures { result ≡ list_any (λ choice. bytes_eq choice shown.now.value) shown.now.choices }
{
    let value = shown.value.bytes();
    shown
        .choices
        .as_slice()
        .iter()
        .any(|choice| choice.bytes() == value)
}
