//! Two documents that a line has compared.
ghost use Rattle.std.specs.Prelude.{◌≡◌, ◌&&◌, IfErr, MatchResult, Some, [], map};
ghost use Rattle.clap.specs.Words.{found_of, rows_of};
ghost use Rattle.pkder.specs.CommandLines.{BadComparison, BadKinds, BadOther, BadPair, BadQuestion, BadTaken};
ghost use Rattle.pkder.specs.CommandLines.{ReadsComparison, ReadsPair, is_of_keys, key_kind as key_kind_of};
ghost use Rattle.pkder.specs.CommandLines.{kinds_given, kinds_of, other_taken, question_of};
ghost use Rattle.pkder.specs.CommandLines.{taken_kind as taken_kind_of};

use crate::line::{is_flagged, read_limits, value};
use crate::refusal::{BadValue, advice_for_kind};
use clap::ArgMatches;
use commands::question::{Comparison, Question};
use comparison::same::Style;
use pk_documents::kind::{KEY_WORDS, Kind, WORDS};

/// Two documents to compare.
#[derive(Debug, Drop)]
pub struct Pair<'a> {
    pub comparison: Comparison,
    /// The name of the first one.
    pub first: &'a str,
    /// The name of the other one.
    pub second: &'a str,
}

/// What the options of `same` ask for.
pub fn read_pair<'a>(options: &ArgMatches<'a>) -> Result<Pair<'a>, BadValue<'a>>
    ensures means { MatchResult result (ReadsPair (rows_of (found_of options.now)))
        (λ _. (pair : _) → ReadsPair (rows_of (found_of options.now)) pair → ⊥) }
    ensures refused { IfErr result (BadPair (rows_of (found_of options.now))) }
{
    let comparison = read_comparison(options)?;
    let first = value(options, "first");
    let second = value(options, "second");
    if first == "-" && second == "-" {
        return Err(BadValue {
            option: "FILE",
            value: "-",
            wanted: "standard input at most once",
            advice: "",
        });
    }
    Ok(Pair {
        comparison,
        first,
        second,
    })
}

/// What is asked of the documents, and what they are.
fn read_comparison<'a>(options: &ArgMatches<'a>) -> Result<Comparison, BadValue<'a>>
    ensures means { MatchResult result (ReadsComparison (rows_of (found_of options.now)))
        (λ _. (comparison : _) → ReadsComparison (rows_of (found_of options.now)) comparison → ⊥) }
    ensures refused { IfErr result (BadComparison (rows_of (found_of options.now))) }
{
    let limits = read_limits(options)?;
    let question = read_question(options)?;
    let (kind, other_kind) = read_kinds(options)?;
    Ok(Comparison {
        question,
        kind,
        other_kind,
        limits,
    })
}

/// What is asked of the documents.
fn read_question<'a>(options: &ArgMatches<'a>) -> Result<Question, BadValue<'a>>
    ensures { MatchResult result (λ question. question_of (rows_of (found_of options.now)) ≡ Some question)
        (BadQuestion (rows_of (found_of options.now))) }
{
    let json = is_flagged(options, "json");
    if !is_flagged(options, "key") {
        return Ok(Question::Document(if json { Style::Json } else { Style::Text }));
    }
    if json {
        return Err(BadValue {
            option: "same --key",
            value: "--json",
            wanted: "an answer in lines",
            advice: "",
        });
    }
    Ok(Question::Key)
}

/// The kinds of both documents.
fn read_kinds<'a>(options: &ArgMatches<'a>) -> Result<(Kind, Kind), BadValue<'a>>
    ensures { MatchResult result
        (λ kinds. kinds_of (is_of_keys (rows_of (found_of options.now)))
        (kinds_given (rows_of (found_of options.now))) ≡ Some kinds)
        (BadKinds (is_of_keys (rows_of (found_of options.now)))
        (kinds_given (rows_of (found_of options.now)))) }
{
    let key = is_flagged(options, "key");
    match options.get_strs("kind") {
        Some(given) => kinds_among(key, given),
        None => kinds_among(key, &[]),
    }
}

/// The kinds that are given.
fn kinds_among<'a>(key: bool, given: &[&'a str]) -> Result<(Kind, Kind), BadValue<'a>>
    ensures { MatchResult result
        (λ kinds. kinds_of key (map (λ text. text.now) given.now) ≡ Some kinds)
        (BadKinds key (map (λ text. text.now) given.now)) }
{
    match given {
        [] => {
            let kind = taken_kind(key, "")?;
            Ok((kind, kind))
        }
        [text] => {
            let kind = taken_kind(key, text)?;
            Ok((kind, kind))
        }
        [text, other, others @ ..] => {
            let kind = taken_kind(key, text)?;
            let other_kind = other_kind(key, other, others)?;
            Ok((kind, other_kind))
        }
    }
}

/// The second kind that is given, where more ones come after it.
fn other_kind<'a>(key: bool, text: &'a str, others: &[&'a str]) -> Result<Kind, BadValue<'a>>
    ensures { MatchResult result
        (λ kind. other_taken key text.entry.now (map (λ text. text.now) others.now) ≡ Some kind)
        (BadOther key text.entry.now (map (λ text. text.now) others.now)) }
{
    if key && others.is_empty() {
        return taken_kind(key, text);
    }
    Err(BadValue {
        option: "--kind <KIND>",
        value: text,
        wanted: "one kind, or two with --key",
        advice: "",
    })
}

/// The kind of this name, where documents, or private keys, may be of it.
fn taken_kind<'a>(key: bool, text: &'a str) -> Result<Kind, BadValue<'a>>
    ensures { MatchResult result (λ kind. taken_kind_of key text.entry.now ≡ Some kind)
        (BadTaken key text.entry.now) }
{
    let named = Kind::named(text);
    if key {
        return key_kind(named).ok_or(BadValue {
            option: "--kind <KIND>",
            value: text,
            wanted: KEY_WORDS,
            advice: "",
        });
    }
    named.ok_or(BadValue {
        option: "--kind <KIND>",
        value: text,
        wanted: WORDS,
        advice: advice_for_kind(text),
    })
}

/// The kind, if it is one of private keys.
fn key_kind(kind: Option<Kind>) -> Option<Kind>
    ensures { result ≡ key_kind_of kind }
{
    match kind {
        Some(kind) if kind.is_key() => Some(kind),
        _ => None,
    }
}
