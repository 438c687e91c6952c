// Reading parts of what one line of a database text says.
ghost use Rattle.std.specs.Prelude.{◌≡◌, ◌++◌, ◌<◌, ◌==◌, IfOk, IfSome, OnOk, true, false, map as each, length};
ghost use Rattle.std.specs.List.{list_all};
ghost use Rattle.std.specs.Str.{bytes_eq};
ghost use Rattle.dc_text.specs.Bytes.{lower};
ghost use Rattle.dc_text.specs.Lines.{unless_empty};
ghost use Rattle.dc_text.specs.Names.{is_name, is_flag_name};
ghost use Rattle.dc_item.specs.Grammar.{pieces};
ghost use Rattle.dc_item.specs.Heads.{front_of};

use dc_parts::UsualKey;
use dc_text::bytes::{split_at_byte, trim};
use dc_text::{FlagName, List, Name, NameRefused};
use std::alloc::Global;

/// Whether the bytes spell the word, without regard to case.
pub fn is_word(bytes: &[u8], word: &[u8]) -> bool
    ensures { result ≡ bytes_eq (each lower bytes.now) (each lower word.now) }
{
    bytes.eq_ignore_ascii_case(word)
}

/// A word before the colon that most lines have, as it is printed.
#[derive(Clone, Copy)]
pub enum Head {
    Name,
    Owners,
    Flags,
    Variables,
    /// The key of a field, of which the first letter is printed in upper case.
    Field(UsualKey),
}

/// The head that the line begins with and what stands behind its colon, if it is one of those that most lines have. What tells
/// them apart is looked at first, and one alone is compared.
pub fn usual_head(line: &[u8]) -> Option<(Head, &[u8])>
    ensures { IfSome result (λ r. line.now ≡ front_of r.0 ++ r.1.now) }
{
    match line {
        [b'N', ..] => behind(line, Head::Name, b"Name:"),
        [b'O', ..] => behind(line, Head::Owners, b"Owners:"),
        [b'F', ..] => behind(line, Head::Flags, b"Flags:"),
        [b'V', _, b'r', ..] => behind(line, Head::Variables, b"Variables:"),
        [b'V', ..] => behind(line, Head::Field(UsualKey::Value), b"Value:"),
        [b'T', b'y', ..] => behind(line, Head::Field(UsualKey::Type), b"Type:"),
        [b'T', ..] => behind(line, Head::Field(UsualKey::Template), b"Template:"),
        [b'D', _, b'f', ..] => behind(line, Head::Field(UsualKey::Default), b"Default:"),
        [b'D', ..] => behind(line, Head::Field(UsualKey::Description), b"Description:"),
        [b'E', ..] => behind(
            line,
            Head::Field(UsualKey::ExtendedDescription),
            b"Extended_description:",
        ),
        _ => None,
    }
}

// The head and what stands behind it, if the line begins with it, as it is printed.
#[inline(always)]
fn behind<'a>(line: &'a [u8], head: Head, printed: &[u8]) -> Option<(Head, &'a [u8])>
    requires { printed.now ≡ front_of head }
    ensures { IfSome result (λ r. line.now ≡ front_of r.0 ++ r.1.now) }
{
    if line.len() < printed.len() {
        return None;
    }
    for at in 0..printed.len() {
        if line[at] != printed[at] {
            return None;
        }
    }
    Some((head, &line[printed.len()..]))
}

/// The names between commas. `Bad` comes exactly where one of them is no name.
pub fn names_in(alloc: Global, text: &[u8]) -> Result<List<Name>, NameRefused>
    ensures value { IfOk result (λ names. names ≡ pieces text.now) }
    ensures ok { OnOk result (list_all is_name (pieces text.now) ≡ true) }
    ensures bad { result ≡ Err NameRefused.Bad → list_all is_name (pieces text.now) ≡ false }
{
    let mut names = List::new(alloc);
    let mut rest = text;
    while !rest.is_empty() {
        let (piece, after) = split_piece(rest);
        if !piece.is_empty() {
            names.push(Name::read(alloc, piece)?)?;
        }
        rest = after;
    }
    Ok(names)
}

/// The flags between commas. `Bad` comes exactly where one of them is no name of a flag.
pub fn flags_in(alloc: Global, text: &[u8]) -> Result<List<FlagName>, NameRefused>
    ensures value { IfOk result (λ flags. flags ≡ pieces text.now) }
    ensures ok { OnOk result (list_all is_flag_name (pieces text.now) ≡ true) }
    ensures bad { result ≡ Err NameRefused.Bad → list_all is_flag_name (pieces text.now) ≡ false }
{
    let mut flags = List::new(alloc);
    let mut rest = text;
    while !rest.is_empty() {
        let (piece, after) = split_piece(rest);
        if !piece.is_empty() {
            flags.push(FlagName::read(alloc, piece)?)?;
        }
        rest = after;
    }
    Ok(flags)
}

// What stands before the first comma, trimmed, and what stands after it.
fn split_piece(text: &[u8]) -> (&[u8], &[u8])
    requires { 0 < length text.now }
    ensures pieces { pieces text.now ≡ unless_empty result.0.now ++ pieces result.1.now }
    ensures shorter { length result.1.now < length text.now }
{
    match split_at_byte(text, b',') {
        Some((piece, after)) => (trim(piece), after),
        None => (trim(text), &text[text.len()..]),
    }
}
