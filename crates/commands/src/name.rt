//! Names as they are shown.
ghost use Rattle.std.specs.Prelude.{◌≡◌, ◌++◌, IfOk, OnOk, string_bytes, true};
ghost use Rattle.std.specs.Char.Escape.{escape_ascii, escape_default};
ghost use Rattle.std.specs.List.{list_any};
ghost use Rattle.std.specs.Str.{chars};
ghost use Rattle.commands.specs.Names.{begins_quoted, escaped, file_name, file_text, is_plain, needs_quotes, quoted};
ghost use Rattle.commands.specs.Names.{quoted_octets, shown_name, shown_text};

use std::alloc::{AllocError, Global};

/// A name as lines say it: as it is or, where it is empty, isn't UTF-8 or has a control character, `"` or `\`, in
/// quotes and escaped.
pub fn shown_name(alloc: Global, name: &[u8]) -> Result<String, AllocError>
    ensures { IfOk result (λ text. string_bytes text ≡ shown_name name.now) }
{
    match std::str::from_utf8(name) {
        Ok(text) => shown_text(alloc, text),
        Err(_) => octets_text(alloc, name),
    }
}

/// Appends a name as lines say it. One that stands as it is asks for no more memory than that.
pub fn push_shown_name(alloc: Global, text: &mut Vec<u8>, name: &[u8]) -> Result<(), AllocError>
    ensures { OnOk result (text.new.items ≡ text.old.items ++ shown_name name.now) }
{
    if stands_as_it_is(name) {
        return text.extend_from_slice(name);
    }
    let shown = shown_name(alloc, name)?;
    text.extend_from_slice(shown.as_bytes())
}

/// Whether lines say a name as it is.
fn stands_as_it_is(name: &[u8]) -> bool
    ensures { result ≡ true → shown_name name.now ≡ name.now }
{
    match std::str::from_utf8(name) {
        Ok(text) => is_plain(text),
        Err(_) => false,
    }
}

/// A name as JSON says it, which escapes by itself: in quotes and escaped only where it isn't UTF-8, or begins with a
/// quote as if it were such a one.
pub fn file_name(alloc: Global, name: &[u8]) -> Result<String, AllocError>
    ensures { IfOk result (λ text. string_bytes text ≡ file_name name.now) }
{
    match std::str::from_utf8(name) {
        Ok(text) => file_text(alloc, text),
        Err(_) => octets_text(alloc, name),
    }
}

/// A name in JSON that is UTF-8.
fn file_text(alloc: Global, name: &str) -> Result<String, AllocError>
    ensures { IfOk result (λ text. string_bytes text ≡ file_text name.now) }
{
    if !begins_quoted(name.as_bytes()) {
        return String::from_str(alloc, name);
    }
    let mut text = String::new(alloc);
    push_quoted(&mut text, name)?;
    Ok(text)
}

/// Whether its first character is `"`.
fn begins_quoted(name: &[u8]) -> bool
    ensures { result ≡ begins_quoted name.now }
{
    match name {
        [first, ..] => *first == 34,
        [] => false,
    }
}

/// A name that is UTF-8.
fn shown_text(alloc: Global, name: &str) -> Result<String, AllocError>
    ensures { IfOk result (λ text. string_bytes text ≡ shown_text name.now) }
{
    if is_plain(name) {
        return String::from_str(alloc, name);
    }
    let mut text = String::new(alloc);
    push_quoted(&mut text, name)?;
    Ok(text)
}

/// Whether a text is shown as it is.
fn is_plain(text: &str) -> bool
    ensures { result ≡ is_plain text.now }
{
    if text.is_empty() {
        return false;
    }
    !has_quoted(text)
}

/// Whether there is a character in it that is shown in quotes alone.
fn has_quoted(text: &str) -> bool
    ensures { result ≡ list_any needs_quotes (chars text.now) }
{
    text.chars().any(|c| needs_quotes(c))
}

/// Whether no text with this character is shown as it is.
fn needs_quotes(c: char) -> bool
    ensures { result ≡ needs_quotes c }
{
    c.is_control() || c == '"' || c == '\\'
}

/// Appends a text in quotes, with what isn't printable ASCII escaped.
pub fn push_quoted(text: &mut String, name: &str) -> Result<(), AllocError>
    ensures { OnOk result (string_bytes text.new ≡ string_bytes text.old ++ quoted name.now) }
{
    text.push_str("\"")?;
    push_escapes(text, name)?;
    text.push_str("\"")
}

/// Appends a text, with quotes and what isn't printable ASCII escaped.
pub fn push_escapes(text: &mut String, word: &str) -> Result<(), AllocError>
    ensures { OnOk result (string_bytes text.new ≡ string_bytes text.old ++ escaped word.now) }
{
    for c in word.chars() {
        push_escaped(text, c)?;
    }
    Ok(())
}

/// Appends a character, or its escape where it isn't printable ASCII.
fn push_escaped(text: &mut String, c: char) -> Result<(), AllocError>
    ensures { OnOk result (string_bytes text.new ≡ string_bytes text.old ++ escape_default c) }
{
    for shown in c.escape_default() {
        text.push(shown)?;
    }
    Ok(())
}

/// Octets in quotes, with what isn't printable ASCII escaped.
fn octets_text(alloc: Global, octets: &[u8]) -> Result<String, AllocError>
    ensures { IfOk result (λ text. string_bytes text ≡ quoted_octets octets.now) }
{
    let mut text = String::from_str(alloc, "\"")?;
    for octet in octets {
        push_escaped_octet(&mut text, *octet)?;
    }
    text.push_str("\"")?;
    Ok(text)
}

/// Appends the character of an octet, or its escape where that isn't printable ASCII.
fn push_escaped_octet(text: &mut String, octet: u8) -> Result<(), AllocError>
    ensures { OnOk result (string_bytes text.new ≡ string_bytes text.old ++ escape_ascii octet) }
{
    for shown in octet.escape_ascii() {
        text.push(char::from(shown))?;
    }
    Ok(())
}
