// Which values the fields of a database take, and which fields it needs.
ghost use Rattle.std.specs.Prelude.{◌≡◌, [], ◌∷◌, codes};
ghost use Rattle.std.specs.Option.{option_map_or};
ghost use Rattle.dc_conf.specs.Values.{optional, is_mode as is_mode_of, driver_rules, folder_rules, layer_rules, no_layer_rules, pattern_rules, rules_of};
ghost use Rattle.dc_conf.specs.ConfFaults.{is_bad as is_bad_by, lacks_field as lacks_field_of};
ghost use Rattle.dc_conf.specs.declared.drivers.Driver.TheVariants as driver;

use crate::drivers::Driver;
use crate::fields::{Field, is_there};
use crate::values::{
    has_names, is_boolean, is_database_name, is_directory, is_extension, is_format, is_mode,
    is_path, is_pipe_end, is_utf8,
};

/// Whether a field that the driver needs is missing.
pub fn lacks_field(driver: Option<Driver>, stanza: &[Field]) -> bool
    ensures { result ≡ lacks_field_of (rules_of driver) stanza.now }
{
    match driver {
        Some(Driver::File) => !is_there(stanza, b"filename"),
        Some(Driver::DirTree | Driver::PackageDir) => !is_there(stanza, b"directory"),
        Some(Driver::Stack) => !is_there(stanza, b"stack"),
        Some(Driver::Backup) => !is_there(stanza, b"db") || !is_there(stanza, b"backupdb"),
        Some(Driver::Debug) => !is_there(stanza, b"db"),
        Some(Driver::Pipe) | None => false,
    }
}

/// Whether the field of a database with this driver doesn't take its value.
pub fn is_bad(driver: Option<Driver>, field: &Field) -> bool
    ensures { result ≡ is_bad_by (rules_of driver) field.now }
{
    let key = field.key.bytes();
    let value = field.value.bytes();
    (b"name".as_slice() == key && !is_database_name(value))
        || (b"format".as_slice() == key && !is_format(value))
        || is_bad_for(driver, field)
}

// The same by the fields that the driver alone has.
fn is_bad_for(driver: Option<Driver>, field: &Field) -> bool
    ensures { result ≡ is_bad_by (option_map_or driver_rules driver []) field.now }
{
    match driver {
        Some(Driver::File) => is_bad_in_file(field),
        Some(Driver::DirTree) => is_bad_in_folder(field) || is_bad_in_layer(field),
        Some(Driver::PackageDir) => {
            is_bad_in_folder(field) || is_bad_mode(field) || is_bad_in_layer(field)
        }
        Some(Driver::Pipe) => is_bad_in_pipe(field),
        Some(Driver::Stack) => is_bad_in_stack(field),
        Some(Driver::Backup | Driver::Debug) => is_of_layer(field),
        None => false,
    }
}

fn is_bad_in_file(field: &Field) -> bool
    ensures { result ≡ is_bad_by (driver_rules driver.File) field.now }
{
    let key = field.key.bytes();
    let value = field.value.bytes();
    (b"filename".as_slice() == key && !is_path(value))
        || is_bad_mode(field)
        || (b"backup".as_slice() == key && !is_boolean(value))
        || is_bad_in_layer(field)
}

fn is_bad_mode(field: &Field) -> bool
    ensures { result ≡ is_bad_by (optional (codes "mode") is_mode_of ∷ []) field.now }
{
    b"mode".as_slice() == field.key.bytes() && !is_mode(field.value.bytes())
}

fn is_bad_in_folder(field: &Field) -> bool
    ensures { result ≡ is_bad_by folder_rules field.now }
{
    let key = field.key.bytes();
    let value = field.value.bytes();
    (b"directory".as_slice() == key && !is_directory(value))
        || (b"extension".as_slice() == key && !is_extension(value))
}

fn is_bad_in_pipe(field: &Field) -> bool
    ensures { result ≡ is_bad_by (driver_rules driver.Pipe) field.now }
{
    let key = field.key.bytes();
    let value = field.value.bytes();
    (b"infd".as_slice() == key && !is_pipe_end(b"0", value))
        || (b"outfd".as_slice() == key && !is_pipe_end(b"1", value))
        || is_bad_in_layer(field)
}

fn is_bad_in_stack(field: &Field) -> bool
    ensures { result ≡ is_bad_by (driver_rules driver.Stack) field.now }
{
    (b"stack".as_slice() == field.key.bytes() && !has_names(field.value.bytes()))
        || is_of_layer(field)
}

// A field that only a database that holds items itself may have.
fn is_of_layer(field: &Field) -> bool
    ensures { result ≡ is_bad_by no_layer_rules field.now }
{
    let key = field.key.bytes();
    b"required".as_slice() == key
        || b"readonly".as_slice() == key
        || b"accept-name".as_slice() == key
        || b"reject-name".as_slice() == key
        || b"accept-type".as_slice() == key
        || b"reject-type".as_slice() == key
}

fn is_bad_in_layer(field: &Field) -> bool
    ensures { result ≡ is_bad_by layer_rules field.now }
{
    let key = field.key.bytes();
    let value = field.value.bytes();
    (b"required".as_slice() == key && !is_boolean(value))
        || (b"readonly".as_slice() == key && !is_boolean(value))
        || is_bad_pattern(field)
}

fn is_bad_pattern(field: &Field) -> bool
    ensures { result ≡ is_bad_by pattern_rules field.now }
{
    let key = field.key.bytes();
    let value = field.value.bytes();
    (b"accept-name".as_slice() == key && !is_utf8(value))
        || (b"reject-name".as_slice() == key && !is_utf8(value))
        || (b"accept-type".as_slice() == key && !is_utf8(value))
        || (b"reject-type".as_slice() == key && !is_utf8(value))
}
