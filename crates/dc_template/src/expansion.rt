// Variables in the text of a field.
ghost use Rattle.std.specs.Prelude.{◌≡◌, ◌∷◌, ◌++◌, [], ℕ, List, OnOk, IfOk, false};
ghost use Rattle.std.specs.FinMap as map;
ghost use Rattle.std.specs.Option.{option_copied};
ghost use Rattle.dc_text.specs.Maps.{Texts};
ghost use Rattle.dc_template.specs.Expansion.{opens as opens_of, closes, variable_or_nothing, expanded};

use dc_text::bytes::split_at_byte;
use dc_text::{Mem, Text};
use std::alloc::Global;

/// What texts may refer to as `${K}`.
pub trait Variables {
    ghost values: { Self → Texts (List ℕ) };

    /// The value of the variable, if it is set.
    fn value(&self, key: &[u8]) -> Option<&[u8]>
        ensures { option_copied result ≡ map.get (values self.now) key.now };
}

/// The text with its references replaced, from left to right: `${K}` by the variable K, or by nothing where it is unset,
/// and `\${K}` by `${K}`. K reaches to the next `}`; without one the bytes stay. What is put in isn't read again.
pub fn expand<V: Variables>(alloc: Global, text: &[u8], variables: &V) -> Mem<Text>
    ensures { IfOk result (λ out. out ≡ expanded (V.values variables.now) text.now) }
{
    let mut out = Text::new(alloc);
    let mut rest = text;
    while let Some((front, after)) = split_at_byte(rest, b'}') {
        append_expanded(&mut out, front, variables)?;
        rest = after;
    }
    out.append(rest)?;
    Ok(out)
}

// Appends what a text without a `}` is replaced by where a `}` follows it.
fn append_expanded<V: Variables>(out: &mut Text, front: &[u8], variables: &V) -> Mem<()>
    requires { closes front.now ≡ false }
    ensures { OnOk result (out.new ≡ out.old ++ expanded (V.values variables.now) (front.now ++ 125 ∷ [])) }
{
    let mut rest = front;
    while let [first, tail @ ..] = rest {
        if opens(rest) {
            return append_value(out, &rest[2..], variables);
        }
        if *first == b'\\' && opens(tail) {
            out.append(tail)?;
            break;
        }
        out.push(*first)?;
        rest = tail;
    }
    out.push(b'}')
}

// Appends the value of a variable, where it is set.
fn append_value<V: Variables>(out: &mut Text, key: &[u8], variables: &V) -> Mem<()>
    ensures { OnOk result (out.new ≡ out.old ++ variable_or_nothing (V.values variables.now) key.now) }
{
    match variables.value(key) {
        Some(value) => out.append(value),
        None => Ok(()),
    }
}

// Whether the bytes begin with `${`.
fn opens(bytes: &[u8]) -> bool
    ensures { result ≡ opens_of bytes.now }
{
    match bytes {
        [first, next, ..] => *first == b'$' && *next == b'{',
        _ => false,
    }
}
