//! What is shown of a line that is refused.
ghost use Rattle.std.specs.Prelude.{◌≡◌, ◌++◌, IfOk, OnOk, false, map, option_map, string_bytes};
ghost use Rattle.std.specs.List.{list_any};
ghost use Rattle.clap.specs.Words.{kind_of};
ghost use Rattle.pkder.specs.CommandLines.{ShowsOwn, advice_for_command as command_advice};
ghost use Rattle.pkder.specs.CommandLines.{advice_for_kind as kind_advice, advice_for_option as option_advice};
ghost use Rattle.pkder.specs.CommandLines.{advised_line, are_of_same, bad_value_line, command_advised, controls_line};
ghost use Rattle.pkder.specs.CommandLines.{has_control, invalid_value_line, no_kind_line, option_advised, shown, tip};

use clap::Error;
use clap::error::ErrorKind;
use commands::name::{push_escapes, push_quoted};
use pk_documents::kind::WORDS;
use std::alloc::{AllocError, Global};

/// A value that its option doesn't have.
#[derive(Clone, Copy)]
pub struct BadValue<'a> {
    /// Empty where no kind is named.
    pub option: &'a str,
    pub value: &'a str,
    /// What the option has for values.
    pub wanted: &'a str,
    /// What to type in its place; empty where that is all.
    pub advice: &'a str,
}

impl BadValue<'_> {
    pub fn text(self, alloc: Global) -> Result<String, AllocError>
        ensures { IfOk result (λ text. string_bytes text ≡ bad_value_line self.entry) }
    {
        if self.option.is_empty() {
            return no_kind_text(alloc);
        }
        self.invalid_text(alloc)
    }

    fn invalid_text(self, alloc: Global) -> Result<String, AllocError>
        ensures { IfOk result (λ text. string_bytes text ≡ invalid_value_line self.entry) }
    {
        let mut text = String::from_str(alloc, "error: invalid value '")?;
        push_shown(&mut text, self.value)?;
        text.push_str("' for '")?;
        text.push_str(self.option)?;
        text.push_str("': ")?;
        text.push_str(self.wanted)?;
        text.push_str(" is wanted\n\n")?;
        push_tip(&mut text, self.advice)?;
        text.push_str("For more information, try '--help'.\n")?;
        Ok(text)
    }
}

/// Why clap refuses the words: where one has control characters, which ones have; where one belongs to another
/// program, what to type in its place; else clap's own text.
pub fn refusal_text(alloc: Global, words: &[String], error: &Error) -> Result<String, AllocError>
    ensures { IfOk result (λ text. ShowsOwn (kind_of error.now) (map string_bytes words.now)
        (string_bytes text)) }
{
    if have_controls(words) {
        return controls_text(alloc, words);
    }
    if let Some(text) = command_text(alloc, words)? {
        return Ok(text);
    }
    if let Some(text) = option_text(alloc, words)? {
        return Ok(text);
    }
    match error.kind() {
        ErrorKind::MissingRequiredArgument => missing_text(alloc, words, error),
        _ => error.to_string(alloc),
    }
}

/// What is missing: a kind; of `same`, whose words may want a file, in clap's own text.
fn missing_text(alloc: Global, words: &[String], error: &Error) -> Result<String, AllocError>
    ensures { IfOk result (λ text. are_of_same (map string_bytes words.now) ≡ false
        → string_bytes text ≡ no_kind_line) }
{
    if are_of_same(words) {
        error.to_string(alloc)
    } else {
        no_kind_text(alloc)
    }
}

/// That a kind is missing, and which ones there are.
fn no_kind_text(alloc: Global) -> Result<String, AllocError>
    ensures { IfOk result (λ text. string_bytes text ≡ no_kind_line) }
{
    let mut text = String::from_str(alloc, "error: no kind is named: --kind is ")?;
    text.push_str(WORDS)?;
    text.push_str("\n\n")?;
    push_tip(&mut text, "pkder check --kind key FILE")?;
    text.push_str("For more information, try '--help'.\n")?;
    Ok(text)
}

/// Whether the command is `same`.
fn are_of_same(words: &[String]) -> bool
    ensures { result ≡ are_of_same (map string_bytes words.now) }
{
    match words {
        [_, word, ..] => word.as_str() == "same",
        _ => false,
    }
}

/// What to type in the place of a command that is none.
fn command_text(alloc: Global, words: &[String]) -> Result<Option<String>, AllocError>
    ensures { IfOk result (λ text. option_map string_bytes text
        ≡ command_advised (map string_bytes words.now)) }
{
    let [_, word, ..] = words else {
        return Ok(None);
    };
    match advice_for_command(word.as_str()) {
        Some(advice) => Ok(Some(advised_text(alloc, word.as_str(), advice)?)),
        None => Ok(None),
    }
}

/// What to type in the place of the first word that is an option of another program.
fn option_text(alloc: Global, words: &[String]) -> Result<Option<String>, AllocError>
    ensures { IfOk result (λ text. option_map string_bytes text
        ≡ option_advised (map string_bytes words.now)) }
{
    for word in words {
        if let Some(advice) = advice_for_option(word.as_str()) {
            return Ok(Some(advised_text(alloc, word.as_str(), advice)?));
        }
    }
    Ok(None)
}

/// The line of a word in whose place something else is typed.
fn advised_text(alloc: Global, word: &str, advice: &str) -> Result<String, AllocError>
    ensures { IfOk result (λ text. string_bytes text ≡ advised_line word.now advice.now) }
{
    let mut text = String::from_str(alloc, "error: '")?;
    text.push_str(word)?;
    text.push_str("' is not taken\n\n")?;
    push_tip(&mut text, advice)?;
    text.push_str("For more information, try '--help'.\n")?;
    Ok(text)
}

/// Appends what to type, where there is something.
fn push_tip(text: &mut String, advice: &str) -> Result<(), AllocError>
    ensures { OnOk result (string_bytes text.new ≡ string_bytes text.old ++ tip advice.now) }
{
    if advice.is_empty() {
        return Ok(());
    }
    text.push_str("  tip: ")?;
    text.push_str(advice)?;
    text.push_str("\n\n")
}

fn advice_for_command(word: &str) -> Option<&'static str>
    ensures { option_map (λ advice. advice.now) result ≡ command_advice word.now }
{
    if word == "verify" {
        Some("no signature is verified; 'signed' writes what it covers")
    } else if word == "diff" || word == "compare" {
        Some("pkder same --kind key FILE OTHER")
    } else if word == "version" {
        Some("pkder --version")
    } else {
        None
    }
}

fn advice_for_option(word: &str) -> Option<&'static str>
    ensures { option_map (λ advice. advice.now) result ≡ option_advice word.now }
{
    if word == "-in" || (word == "--in" || word == "--infile") {
        Some("files are named without an option: pkder check --kind key FILE")
    } else if word == "-inform" || (word == "-outform" || word == "--inform") {
        Some("BER and DER are read alike, and DER is written, with no option")
    } else if word == "-out" || (word == "-o" || word == "--output") {
        Some("normalise and signed have --to NEW-FILE")
    } else if word == "-v" {
        Some("pkder --version")
    } else {
        None
    }
}

pub fn advice_for_kind(value: &str) -> &'static str
    ensures { result.now ≡ kind_advice value.now }
{
    if value == "pem" || value == "PEM" {
        "PEM is not read: decode its base64; the kind is what its BEGIN line says"
    } else if value == "private" {
        "key, or ec for BEGIN EC PRIVATE KEY"
    } else {
        ""
    }
}

/// Whether one of the words has a control character.
fn have_controls(words: &[String]) -> bool
    ensures { result ≡ list_any (λ word. has_control (string_bytes word)) words.now }
{
    words.iter().any(|word| is_controlling(word.as_str()))
}

/// Whether a word has a control character.
fn is_controlling(word: &str) -> bool
    ensures { result ≡ has_control word.now }
{
    word.chars().any(|c| c.is_control())
}

/// Says which words have control characters, without writing them as they are.
fn controls_text(alloc: Global, words: &[String]) -> Result<String, AllocError>
    ensures { IfOk result (λ text. string_bytes text ≡ controls_line (map string_bytes words.now)) }
{
    let mut text = String::from_str(alloc, "error: a word has control characters:")?;
    for word in words {
        if is_controlling(word.as_str()) {
            text.push_str(" ")?;
            push_quoted(&mut text, word.as_str())?;
        }
    }
    text.push_str("\n")?;
    Ok(text)
}

/// Appends a value, escaped where it has control characters.
fn push_shown(text: &mut String, value: &str) -> Result<(), AllocError>
    ensures { OnOk result (string_bytes text.new ≡ string_bytes text.old ++ shown value.now) }
{
    if is_controlling(value) {
        push_escapes(text, value)
    } else {
        text.push_str(value)
    }
}
