// The fields of a stanza.
ghost use Rattle.std.specs.Prelude.{◌≡◌};
ghost use Rattle.std.specs.Option.{option_copied};

use dc_text::Text;

/// What a line says: its number, its key in lower case and its value.
#[derive(Drop)]
pub struct Field {
    pub line: u64,
    pub key: Text,
    pub value: Text,
}

ghost use Rattle.dc_conf.specs.Stanzas.{field_at as field_at_of, first_line as first_line_of};
ghost use Rattle.dc_conf.specs.ConfFaults.{is_there as is_there_in, value_at as value_in, line_at as line_in};

/// The field with this key, if the stanza has it.
pub fn field_at<'a>(stanza: &'a [Field], key: &[u8]) -> Option<&'a Field>
    ensures { option_copied result ≡ field_at_of key.now stanza.now }
{
    stanza.iter().find(|field| field.key.bytes() == key)
}

pub fn is_there(stanza: &[Field], key: &[u8]) -> bool
    ensures { result ≡ is_there_in key.now stanza.now }
{
    field_at(stanza, key).is_some()
}

/// The line on which the stanza begins, and 1 where there is no stanza.
pub fn first_line(stanza: &[Field]) -> u64
    ensures { result ≡ first_line_of stanza.now }
{
    match stanza {
        [] => 1,
        [field, ..] => field.line,
    }
}

/// The value of the field, empty where it isn't there.
pub fn value_at<'a>(stanza: &'a [Field], key: &[u8]) -> &'a [u8]
    ensures { result.now ≡ value_in key.now stanza.now }
{
    match field_at(stanza, key) {
        Some(field) => field.value.bytes(),
        None => b"",
    }
}

/// The line of the field, 0 where it isn't there.
pub fn line_at(stanza: &[Field], key: &[u8]) -> u64
    ensures { result ≡ line_in key.now stanza.now }
{
    match field_at(stanza, key) {
        Some(field) => field.line,
        None => 0,
    }
}
