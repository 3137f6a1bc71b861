//! Labelled words, wrapped at 100 columns after an indent of 8.
ghost use Rattle.std.specs.Prelude.{◌≡◌, ◌++◌, OnOk, string_bytes};
ghost use Rattle.reports.specs.Wraps.{ascii, labelled_line, word_length, wrapped};

use std::alloc::AllocError;

/// How many columns the words have.
const COLUMNS: usize = 92;

/// A label of 8 columns, and the words after it; nothing where there are none.
#[tactic(auto, unfolding(crate::specs::Wraps::labelled_line))]
pub(crate) fn push_labelled(text: &mut String, label: &str, words: &str) -> Result<(), AllocError>
    ensures { OnOk result (string_bytes text.new ≡ string_bytes text.old
        ++ labelled_line label.now words.now) }
{
    if words.is_empty() {
        return Ok(());
    }
    text.push_str(label)?;
    push_wrapped(text, words.as_bytes())?;
    text.push_str("\n")
}

/// Words, a line broken at the last blank before its end.
fn push_wrapped(text: &mut String, words: &[u8]) -> Result<(), AllocError>
    ensures { OnOk result (string_bytes text.new ≡ string_bytes text.old
        ++ wrapped 92 words.now) }
{
    let mut room = COLUMNS;
    let mut left = words;
    while let [octet, rest @ ..] = left {
        if *octet == b' ' && room <= word_length(rest) {
            text.push_str("\n        ")?;
            room = COLUMNS;
        } else {
            push_ascii(text, *octet)?;
            room = room.saturating_sub(1);
        }
        left = rest;
    }
    Ok(())
}

/// How many octets come before the first blank.
fn word_length(octets: &[u8]) -> usize
    ensures { result ≡ word_length octets.now }
{
    let mut length = 0;
    let mut left = octets;
    while let [octet, rest @ ..] = left {
        if *octet == b' ' {
            return length;
        }
        length += 1;
        left = rest;
    }
    length
}

/// A character of ASCII; a question mark for what is none.
fn push_ascii(text: &mut String, octet: u8) -> Result<(), AllocError>
    ensures { OnOk result (string_bytes text.new ≡ string_bytes text.old ++ ascii octet) }
{
    if octet < 128 {
        text.push(char::from(octet))
    } else {
        text.push_str("?")
    }
}
