// The reader of records, which takes one line after another.
ghost use Rattle.std.specs.Prelude.{◌≡◌, IfOk, OnOk, None, Some, true, false, not, if◌then◌else◌, codes, map as each};
ghost use Rattle.std.specs.List.{list_all};
ghost use Rattle.std.specs.Str.{bytes_eq};
ghost use Rattle.std.specs.FinMap as map;
ghost use Rattle.dc_text.specs.Bytes.{lower};
ghost use Rattle.dc_text.specs.Maps.{set_of};
ghost use Rattle.dc_text.specs.Names.{is_name as is_name_of, is_flag_name as is_flag_name_of, is_field_key as is_field_key_of};
ghost use Rattle.dc_text.specs.Settled.{settled};
ghost use Rattle.dc_parts.specs.Usual.{usual_name};
ghost use Rattle.dc_item.specs.Item.{no_parts, with_field, with_variable};
ghost use Rattle.dc_item.specs.Grammar.{line_said, pieces, headed_line, indented_line, name_line, owners_line, flags_line, variables_line, field_line, variable_line, Name as NameLine};
ghost use Rattle.dc_item.specs.Heads.{head_said};
ghost use Rattle.dc_item.specs.Plain.{PlainIf};

use crate::item_builder::ItemBuilder;
use crate::reading::{Head, flags_in, is_word, names_in, usual_head};
use crate::records_read::Records;
use dc_parts::UsualKey;
use dc_text::bytes::{is_blank, is_indented, split_at_byte, trim, without_space};
use dc_text::keys::is_flag_name;
use dc_text::names::is_name;
use dc_text::{FieldKey, Mem, Name, NameRefused, OutOfMemory, VarKey, settle};
use std::alloc::Global;

/// A record of which some lines were read.
#[derive(Drop)]
pub struct Open {
    pub name: Name,
    pub item: ItemBuilder,
    pub line: u64,
    pub has_owners: bool,
    pub has_flags: bool,
    pub has_variables: bool,
    /// Whether the last line was the Variables line or a variable's.
    pub in_variables: bool,
}

impl Open {
    ghost use Rattle.dc_item.specs.Reader.{added, begun, IsOpen};

    // Begins with an item in which nothing stands.
    fn new(name: Name, item: ItemBuilder, line: u64) -> Self
        requires { item ≡ no_parts }
        ensures { result ≡ begun name line }
    {
        Open {
            name,
            item,
            line,
            has_owners: false,
            has_flags: false,
            has_variables: false,
            in_variables: false,
        }
    }

    // Takes a line with this head, and answers whether it stands.
    fn add_usual(&mut self, alloc: Global, head: Head, rest: &[u8], is_plain: bool) -> Mem<bool>
        requires is_open { IsOpen self.old }
        requires plain { PlainIf is_plain rest.now }
        ensures { IfOk result (λ stands. added self.old (head_said head rest.now) ≡ (if stands then Some self.new else None)) }
    {
        match head {
            Head::Name => Ok(false),
            Head::Owners => self.add_owners(alloc, rest),
            Head::Flags => self.add_flags(alloc, rest),
            Head::Variables => Ok(self.begin_variables(rest)),
            Head::Field(key) => self.add_usual_field(alloc, key, rest, is_plain),
        }
    }

    // Takes a line with this word before its colon, other than a Name line, and answers whether it stands.
    fn add_headed(&mut self, alloc: Global, word: &[u8], rest: &[u8], is_plain: bool) -> Mem<bool>
        requires further { bytes_eq (each lower word.now) (codes "name") ≡ false }
        requires is_open { IsOpen self.old }
        requires plain { PlainIf is_plain rest.now }
        ensures { IfOk result (λ stands. added self.old (headed_line (each lower word.now) rest.now) ≡ (if stands then Some self.new else None)) }
    {
        if is_word(word, b"owners") {
            self.add_owners(alloc, rest)
        } else if is_word(word, b"flags") {
            self.add_flags(alloc, rest)
        } else if is_word(word, b"variables") {
            Ok(self.begin_variables(rest))
        } else {
            self.add_field(alloc, word, rest, is_plain)
        }
    }

    fn add_owners(&mut self, alloc: Global, rest: &[u8]) -> Mem<bool>
        requires { IsOpen self.old }
        ensures { IfOk result (λ stands. added self.old (owners_line rest.now) ≡ (if stands then Some self.new else None)) }
    {
        if self.has_owners {
            return Ok(false);
        }
        if !put_owners(&mut self.item, alloc, rest)? {
            return Ok(false);
        }
        self.has_owners = true;
        self.in_variables = false;
        Ok(true)
    }

    fn add_flags(&mut self, alloc: Global, rest: &[u8]) -> Mem<bool>
        requires { IsOpen self.old }
        ensures { IfOk result (λ stands. added self.old (flags_line rest.now) ≡ (if stands then Some self.new else None)) }
    {
        if self.has_flags {
            return Ok(false);
        }
        if !put_flags(&mut self.item, alloc, rest)? {
            return Ok(false);
        }
        self.has_flags = true;
        self.in_variables = false;
        Ok(true)
    }

    fn begin_variables(&mut self, rest: &[u8]) -> bool
        ensures { added self.old (variables_line rest.now) ≡ (if result then Some self.new else None) }
    {
        if self.has_variables || !is_blank(rest) {
            return false;
        }
        self.has_variables = true;
        self.in_variables = true;
        true
    }

    fn add_field(&mut self, alloc: Global, word: &[u8], rest: &[u8], is_plain: bool) -> Mem<bool>
        requires { PlainIf is_plain rest.now }
        ensures { IfOk result (λ stands. added self.old (field_line (each lower word.now) rest.now) ≡ (if stands then Some self.new else None)) }
    {
        match FieldKey::read(alloc, word) {
            Ok(key) => self.add_keyed(alloc, key.bytes(), rest, is_plain),
            Err(NameRefused::Bad) => Ok(false),
            Err(NameRefused::OutOfMemory) => Err(OutOfMemory),
        }
    }

    // Takes a line of the field with this key, and answers whether it stands.
    fn add_keyed(&mut self, alloc: Global, key: &[u8], rest: &[u8], is_plain: bool) -> Mem<bool>
        requires key { is_field_key_of key.now ≡ true }
        requires plain { PlainIf is_plain rest.now }
        ensures { IfOk result (λ stands. added self.old (field_line key.now rest.now) ≡ (if stands then Some self.new else None)) }
    {
        if !put_field(&mut self.item, alloc, key, without_space(rest), is_plain)? {
            return Ok(false);
        }
        self.in_variables = false;
        Ok(true)
    }

    // Takes a line of the usual field with this key, and answers whether it stands.
    fn add_usual_field(
        &mut self,
        alloc: Global,
        key: UsualKey,
        rest: &[u8],
        is_plain: bool,
    ) -> Mem<bool>
        requires { PlainIf is_plain rest.now }
        ensures { IfOk result (λ stands. added self.old (field_line (usual_name key) rest.now) ≡ (if stands then Some self.new else None)) }
    {
        if !put_usual_field(&mut self.item, alloc, key, without_space(rest), is_plain)? {
            return Ok(false);
        }
        self.in_variables = false;
        Ok(true)
    }

    // Takes a line that is indented, and answers whether it stands.
    fn add_indented(&mut self, alloc: Global, line: &[u8], is_plain: bool) -> Mem<bool>
        requires { PlainIf is_plain line.now }
        ensures { IfOk result (λ stands. added self.old (indented_line line.now) ≡ (if stands then Some self.new else None)) }
    {
        match split_at_byte(line, b'=') {
            None => Ok(false),
            Some((key, rest)) => self.add_variable(alloc, trim(key), rest, is_plain),
        }
    }

    fn add_variable(&mut self, alloc: Global, key: &[u8], rest: &[u8], is_plain: bool) -> Mem<bool>
        requires { PlainIf is_plain rest.now }
        ensures { IfOk result (λ stands. added self.old (variable_line key.now rest.now) ≡ (if stands then Some self.new else None)) }
    {
        if !self.in_variables {
            return Ok(false);
        }
        match VarKey::read(alloc, key) {
            Ok(key) => put_variable(&mut self.item, alloc, &key, without_space(rest), is_plain),
            Err(NameRefused::Bad) => Ok(false),
            Err(NameRefused::OutOfMemory) => Err(OutOfMemory),
        }
    }
}

// Makes the names between commas the owners of an item that has none, and answers whether all are names. Most lists have one,
// which is put in as it stands.
fn put_owners(item: &mut ItemBuilder, alloc: Global, text: &[u8]) -> Mem<bool>
    requires { item.old.owners ≡ map.empty }
    ensures good { IfOk result (λ good. good ≡ list_all is_name_of (pieces text.now)) }
    ensures put { IfOk result (λ good. item.new ≡ (if good then record item.old { owners = set_of (pieces text.now) } else item.old)) }
{
    let one = trim(text);
    if is_name(one) {
        item.put_owner(one)?;
        return Ok(true);
    }
    match names_in(alloc, text) {
        Ok(names) => {
            item.put_owners(&names)?;
            Ok(true)
        }
        Err(NameRefused::Bad) => Ok(false),
        Err(NameRefused::OutOfMemory) => Err(OutOfMemory),
    }
}

// Makes the flags between commas the flags of an item that has none, and answers whether all are names of flags. Most lists
// have one, which is put in as it stands.
fn put_flags(item: &mut ItemBuilder, alloc: Global, text: &[u8]) -> Mem<bool>
    requires { item.old.flags ≡ map.empty }
    ensures good { IfOk result (λ good. good ≡ list_all is_flag_name_of (pieces text.now)) }
    ensures put { IfOk result (λ good. item.new ≡ (if good then record item.old { flags = set_of (pieces text.now) } else item.old)) }
{
    let one = trim(text);
    if is_flag_name(one) {
        item.put_flag(one)?;
        return Ok(true);
    }
    match flags_in(alloc, text) {
        Ok(flags) => {
            item.put_flags(&flags)?;
            Ok(true)
        }
        Err(NameRefused::Bad) => Ok(false),
        Err(NameRefused::OutOfMemory) => Err(OutOfMemory),
    }
}

// Puts the field, its value settled, if the item has none with its key, and answers whether it had none. Most values have no
// backslash, and are settled as they stand.
fn put_field(
    item: &mut ItemBuilder,
    alloc: Global,
    key: &[u8],
    value: &[u8],
    is_plain: bool,
) -> Mem<bool>
    requires key { is_field_key_of key.now ≡ true }
    requires plain { PlainIf is_plain value.now }
    ensures new { IfOk result (λ is_new. is_new ≡ not (map.contains_key item.old.fields key.now)) }
    ensures put { IfOk result (λ is_new. item.new ≡ (if is_new then with_field item.old key.now (settled value.now) else item.old)) }
{
    if is_plain {
        return item.put_new_field(key, value);
    }
    item.put_new_field(key, settle(alloc, value)?.bytes())
}

// Puts the usual field, its value settled, if the item has none with its key, and answers whether it had none.
fn put_usual_field(
    item: &mut ItemBuilder,
    alloc: Global,
    key: UsualKey,
    value: &[u8],
    is_plain: bool,
) -> Mem<bool>
    requires { PlainIf is_plain value.now }
    ensures new { IfOk result (λ is_new. is_new ≡ not (map.contains_key item.old.fields (usual_name key))) }
    ensures put { IfOk result (λ is_new. item.new ≡ (if is_new then with_field item.old (usual_name key) (settled value.now) else item.old)) }
{
    if is_plain {
        return item.put_new_usual_field(key, value);
    }
    item.put_new_usual_field(key, settle(alloc, value)?.bytes())
}

// Puts the variable, its value settled, if the item has none with its key, and answers whether it had none.
fn put_variable(
    item: &mut ItemBuilder,
    alloc: Global,
    key: &VarKey,
    value: &[u8],
    is_plain: bool,
) -> Mem<bool>
    requires { PlainIf is_plain value.now }
    ensures new { IfOk result (λ is_new. is_new ≡ not (map.contains_key item.old.variables key.now)) }
    ensures put { IfOk result (λ is_new. item.new ≡ (if is_new then with_variable item.old key.now (settled value.now) else item.old)) }
{
    if is_plain {
        return item.put_new_variable(key, value);
    }
    item.put_new_variable(key, settle(alloc, value)?.bytes())
}

/// The records of the lines that were read.
#[derive(Drop)]
pub struct Reader {
    pub done: Records,
    pub current: Option<Open>,
}

impl Reader {
    ghost use Rattle.dc_item.specs.Reader.{step, continued, closed, at_start, IsReading};

    /// Before the first line.
    pub fn new(alloc: Global) -> Self
        ensures { result ≡ at_start }
    {
        Reader {
            done: Records::new(alloc),
            current: None,
        }
    }

    /// Takes the next line, which has this number, and answers whether it stands. A plain line has no backslash.
    pub fn take(&mut self, alloc: Global, number: u64, line: &[u8], is_plain: bool) -> Mem<bool>
        requires is_reading { IsReading self.old }
        requires plain { PlainIf is_plain line.now }
        ensures { IfOk result (λ stands. step self.old number (line_said line.now) ≡ (if stands then Some self.new else None)) }
    {
        match usual_head(line) {
            Some((head, rest)) => self.take_usual(alloc, number, head, rest, is_plain),
            None => self.take_other(alloc, number, line, is_plain),
        }
    }

    // Takes a line with this head.
    fn take_usual(
        &mut self,
        alloc: Global,
        number: u64,
        head: Head,
        rest: &[u8],
        is_plain: bool,
    ) -> Mem<bool>
        requires is_reading { IsReading self.old }
        requires plain { PlainIf is_plain rest.now }
        ensures { IfOk result (λ stands. step self.old number (head_said head rest.now) ≡ (if stands then Some self.new else None)) }
    {
        match head {
            Head::Name => self.take_name(alloc, number, rest),
            _ => self.add_usual(alloc, head, rest, is_plain),
        }
    }

    // Takes a line whatever it begins with.
    fn take_other(&mut self, alloc: Global, number: u64, line: &[u8], is_plain: bool) -> Mem<bool>
        requires is_reading { IsReading self.old }
        requires plain { PlainIf is_plain line.now }
        ensures { IfOk result (λ stands. step self.old number (line_said line.now) ≡ (if stands then Some self.new else None)) }
    {
        if is_blank(line) {
            self.close()?;
            return Ok(true);
        }
        if is_indented(line) {
            return self.add_indented(alloc, line, is_plain);
        }
        match split_at_byte(line, b':') {
            None => Ok(false),
            Some((word, rest)) => self.take_headed(alloc, number, word, rest, is_plain),
        }
    }

    fn take_headed(
        &mut self,
        alloc: Global,
        number: u64,
        word: &[u8],
        rest: &[u8],
        is_plain: bool,
    ) -> Mem<bool>
        requires is_reading { IsReading self.old }
        requires plain { PlainIf is_plain rest.now }
        ensures { IfOk result (λ stands. step self.old number (headed_line (each lower word.now) rest.now) ≡ (if stands then Some self.new else None)) }
    {
        if is_word(word, b"name") {
            self.take_name(alloc, number, rest)
        } else {
            self.add_headed(alloc, word, rest, is_plain)
        }
    }

    fn take_name(&mut self, alloc: Global, number: u64, rest: &[u8]) -> Mem<bool>
        ensures { IfOk result (λ stands. step self.old number (name_line rest.now) ≡ (if stands then Some self.new else None)) }
    {
        match Name::read(alloc, trim(rest)) {
            Ok(name) => Ok(self.begin(number, name)),
            Err(NameRefused::Bad) => Ok(false),
            Err(NameRefused::OutOfMemory) => Err(OutOfMemory),
        }
    }

    // Begins a record of the name, and answers whether one begins here.
    fn begin(&mut self, number: u64, name: Name) -> bool
        ensures { step self.old number (NameLine name) ≡ (if result then Some self.new else None) }
    {
        if self.current.is_some() || self.done.has(name.bytes()) {
            return false;
        }
        let item = self.done.spare_item();
        self.current = Some(Open::new(name, item, number));
        true
    }

    // Gives a line with this head to the record that is open.
    fn add_usual(&mut self, alloc: Global, head: Head, rest: &[u8], is_plain: bool) -> Mem<bool>
        requires is_reading { IsReading self.old }
        requires plain { PlainIf is_plain rest.now }
        ensures { IfOk result (λ stands. continued self.old (head_said head rest.now) ≡ (if stands then Some self.new else None)) }
    {
        match &mut self.current {
            None => Ok(false),
            Some(open) => open.add_usual(alloc, head, rest, is_plain),
        }
    }

    // Gives a line with this word before its colon, other than a Name line, to the record that is open.
    fn add_headed(&mut self, alloc: Global, word: &[u8], rest: &[u8], is_plain: bool) -> Mem<bool>
        requires further { bytes_eq (each lower word.now) (codes "name") ≡ false }
        requires is_reading { IsReading self.old }
        requires plain { PlainIf is_plain rest.now }
        ensures { IfOk result (λ stands. continued self.old (headed_line (each lower word.now) rest.now) ≡ (if stands then Some self.new else None)) }
    {
        match &mut self.current {
            None => Ok(false),
            Some(open) => open.add_headed(alloc, word, rest, is_plain),
        }
    }

    // Gives a line that is indented to the record that is open.
    fn add_indented(&mut self, alloc: Global, line: &[u8], is_plain: bool) -> Mem<bool>
        requires { PlainIf is_plain line.now }
        ensures { IfOk result (λ stands. continued self.old (indented_line line.now) ≡ (if stands then Some self.new else None)) }
    {
        match &mut self.current {
            None => Ok(false),
            Some(open) => open.add_indented(alloc, line, is_plain),
        }
    }

    /// Ends the record that is open.
    pub fn close(&mut self) -> Mem<()>
        requires { IsReading self.old }
        ensures { OnOk result (self.new ≡ closed self.old) }
    {
        if let Some(open) = self.current.take() {
            let Open {
                name,
                item,
                line,
                has_owners: _,
                has_flags: _,
                has_variables: _,
                in_variables: _,
            } = open;
            self.done.push(name, item, line)?;
        }
        Ok(())
    }
}
