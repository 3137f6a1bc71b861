//! What a command line asks for.
ghost use Rattle.std.specs.Prelude.{◌≡◌, ◌≤◌, ℕ, IfErr, IfOk, MatchOption, MatchResult, None, Some, codes, map};
ghost use Rattle.std.specs.Prelude.{option_map, string_bytes};
ghost use Rattle.clap.specs.Words.{first_of, found_of, kind_of, rows_of, subcommand_rows_of};
ghost use Rattle.pk_documents.specs.KindRows.{kind_named};
ghost use Rattle.pkder.specs.CommandLines.{Invokes, InvokesNothing, BadAction, BadInvocation, BadOrder, BadKind};
ghost use Rattle.pkder.specs.CommandLines.{BadAny, BadKindOf, BadLimit, BadNamedKind, BadPart, BadPlaces};
ghost use Rattle.pkder.specs.CommandLines.{BadProfile, BadRefuse, BadRequest, BadTask};
ghost use Rattle.pkder.specs.CommandLines.{DoesAction, ReadsNotedProfile, ReadsNoting, ReadsProfile, ReadsRefuse};
ghost use Rattle.pkder.specs.CommandLines.{is_for_tls, noted_profile, profile_by, refuse_by, refuses};
ghost use Rattle.pkder.specs.CommandLines.{IsFaultOf, IsNumber, Means, MeansInvocation, MeansBy, MeansNothing};
ghost use Rattle.pkder.specs.CommandLines.{MeansTask, ReadsForm, ReadsKind, ReadsLimits, ReadsNamedKind, ReadsPlaces};
ghost use Rattle.pkder.specs.CommandLines.{asks_reasons, kind_option};
ghost use Rattle.pkder.specs.CommandLines.{has_second_dash as has_dash_again, is_given, names_of, part_name};
ghost use Rattle.pkder.specs.CommandLines.{value_of};
ghost use Rattle.pkder.specs.declared.line.LineFault.TheVariants.{Memory};
ghost use Rattle.pk_documents.specs.declared.kind.Kind.TheVariants as kinds;

use crate::command::command_for;
use crate::help::REASONS;
use crate::pair::{Pair, read_pair};
use crate::refusal::{BadValue, advice_for_kind, refusal_text};
use clap::error::ErrorKind;
use clap::{ArgMatches, Error};
use commands::task::{Action, Noting, Refuse, Task};
use explain::profile::Profile;
use explain::received::RequestPart;
use explain::written::Form;
use pk_documents::kind::{Kind, WORDS};
use pk_documents::request_part::Part;
use std::alloc::{AllocError, Global};
use tlv_core::limits::Limits;

/// What a line asks for.
#[derive(Debug, Drop)]
pub enum Invocation<'a> {
    /// Something to do with each document.
    Each(Order<'a>),
    /// Two documents to compare.
    Both(Pair<'a>),
}

/// What is done with documents, and which ones.
#[derive(Debug, Drop)]
pub struct Order<'a> {
    /// What is done with each document.
    pub task: Task,
    /// The names of the documents' files, in order.
    pub names: Vec<&'a str>,
    /// The file that has more names.
    pub list: Option<&'a str>,
    /// The file that what is written goes into.
    pub to: Option<&'a str>,
    /// Whether a last line says how many documents count as what.
    pub sums: bool,
    /// Whether each name is of documents one behind another.
    pub each: bool,
}

/// Why a line asks for nothing that can be done.
#[derive(Debug, Drop)]
pub enum LineFault {
    /// The line is refused, with a text that says why.
    Line(String),
    /// Help or the version was asked for: a text.
    Help(String),
    /// A growth of memory was refused.
    Memory,
}

impl From<AllocError> for LineFault {
    ghost from_gives = { λ _ fault. fault ≡ Memory };

    fn from(_error: AllocError) -> LineFault {
        LineFault::Memory
    }
}

/// What the line means, the program's name being the first word.
pub fn invocation_of<'a>(alloc: Global, words: &'a [String]) -> Result<Invocation<'a>, LineFault>
    ensures { MatchResult result (Invokes (map string_bytes words.entry.now))
        (InvokesNothing (map string_bytes words.entry.now)) }
{
    if are_for_reasons(words) {
        return Err(LineFault::Help(REASONS.to_string(alloc)?));
    }
    let command = command_for(alloc, words)?;
    match command.try_get_matches_from(words) {
        Ok(matches) => matched(alloc, &matches),
        Err(error) => Err(fault_of(alloc, words, &error)?),
    }
}

/// Whether the words are `help reasons`, after the program's name.
fn are_for_reasons(words: &[String]) -> bool
    ensures { result ≡ asks_reasons (map string_bytes words.now) }
{
    match words {
        [_, help, topic] => help.as_str() == "help" && topic.as_str() == "reasons",
        _ => false,
    }
}

/// What a line that clap doesn't take asks for.
fn fault_of(alloc: Global, words: &[String], error: &Error) -> Result<LineFault, AllocError>
    ensures { IfOk result (IsFaultOf (kind_of error.now) (map string_bytes words.now)) }
{
    match error.kind() {
        ErrorKind::OutOfMemory => Ok(LineFault::Memory),
        ErrorKind::DisplayHelp | ErrorKind::DisplayVersion => {
            Ok(LineFault::Help(error.to_string(alloc)?))
        }
        _ => Ok(LineFault::Line(refusal_text(alloc, words, error)?)),
    }
}

/// What a line that clap takes asks for.
fn matched<'a>(alloc: Global, matches: &ArgMatches<'a>) -> Result<Invocation<'a>, LineFault>
    ensures { MatchResult result (MeansBy (subcommand_rows_of matches.now))
        (MeansNothing (subcommand_rows_of matches.now)) }
{
    let Some((name, options)) = matches.subcommand() else {
        return Err(LineFault::Line("error: a command is wanted\n".to_string(alloc)?));
    };
    let names = read_names(alloc, options)?;
    match read_invocation(name, options, names) {
        Ok(invocation) => Ok(invocation),
        Err(bad) => Err(LineFault::Line(bad.text(alloc)?)),
    }
}

/// What a command asks for, by the values of its options, of which these are names of files.
fn read_invocation<'a>(
    name: &'a str,
    options: &ArgMatches<'a>,
    names: Vec<&'a str>,
) -> Result<Invocation<'a>, BadValue<'a>>
    requires { map (λ name. name.now) names.items ≡ names_of (rows_of (found_of options.now)) }
    ensures means { MatchResult result (MeansInvocation name.entry.now (rows_of (found_of options.now)))
        (λ _. (invocation : _) → MeansInvocation name.entry.now (rows_of (found_of options.now)) invocation → ⊥) }
    ensures refused { IfErr result (BadInvocation name.entry.now (rows_of (found_of options.now))) }
{
    if name == "same" {
        return match read_pair(options) {
            Ok(pair) => Ok(Invocation::Both(pair)),
            Err(bad) => Err(bad),
        };
    }
    match read_order(name, options, names) {
        Ok(order) => Ok(Invocation::Each(order)),
        Err(bad) => Err(bad),
    }
}

/// The names of files, in their order.
fn read_names<'a>(alloc: Global, options: &ArgMatches<'a>) -> Result<Vec<&'a str>, AllocError>
    ensures { IfOk result (λ names. map (λ name. name.now) names.items
        ≡ names_of (rows_of (found_of options.now))) }
{
    let mut names = Vec::new(alloc);
    if let Some(given) = options.get_strs("file") {
        names.extend_from_slice(given)?;
    }
    Ok(names)
}

/// What a command is to do with files of these names, by the values of its options.
fn read_order<'a>(
    name: &'a str,
    options: &ArgMatches<'a>,
    names: Vec<&'a str>,
) -> Result<Order<'a>, BadValue<'a>>
    requires { map (λ name. name.now) names.items ≡ names_of (rows_of (found_of options.now)) }
    ensures means { MatchResult result (Means name.entry.now (rows_of (found_of options.now)))
        (λ _. (order : _) → Means name.entry.now (rows_of (found_of options.now)) order → ⊥) }
    ensures refused { IfErr result (BadOrder name.entry.now (rows_of (found_of options.now))) }
{
    let task = read_task(name, options)?;
    if has_second_dash(names.as_slice(), value(options, "files0-from") == "-") {
        return Err(BadValue {
            option: "FILE",
            value: "-",
            wanted: "standard input at most once",
            advice: "",
        });
    }
    let each = is_flagged(options, "each");
    let list = options.get_str("files0-from");
    if each && list.is_some() {
        return Err(BadValue {
            option: "--each",
            value: "--files0-from",
            wanted: "one of the two",
            advice: "xargs -0 pkder check --any --each < FILE",
        });
    }
    Ok(Order {
        task,
        names,
        list,
        to: options.get_str("to"),
        sums: is_flagged(options, "sum"),
        each,
    })
}

/// Whether one of the names is a dash, and before it another one, or there was one already.
fn has_second_dash(names: &[&str], already: bool) -> bool
    ensures { result ≡ has_dash_again already (map (λ name. name.now) names.now) }
{
    let mut has_dash = already;
    for name in names {
        if *name == "-" {
            if has_dash {
                return true;
            }
            has_dash = true;
        }
    }
    false
}

/// The task of a command by the values of its options.
fn read_task<'a>(name: &'a str, options: &ArgMatches<'a>) -> Result<Task, BadValue<'a>>
    ensures means { MatchResult result (MeansTask name.entry.now (rows_of (found_of options.now)))
        (λ _. (task : _) → MeansTask name.entry.now (rows_of (found_of options.now)) task → ⊥) }
    ensures refused { IfErr result (BadTask name.entry.now (rows_of (found_of options.now))) }
{
    let limits = read_limits(options)?;
    let action = read_action(name, options)?;
    let kind = read_kind(action, options)?;
    Ok(Task {
        action,
        kind,
        limits,
    })
}

/// The limits that the options set.
pub fn read_limits<'a>(options: &ArgMatches<'a>) -> Result<Limits, BadValue<'a>>
    ensures reads { MatchResult result (ReadsLimits (rows_of (found_of options.now)))
        (λ _. (limits : _) → ReadsLimits (rows_of (found_of options.now)) limits → ⊥) }
    ensures refused { IfErr result (BadLimit (rows_of (found_of options.now))) }
{
    let depth_text = value(options, "depth");
    let Some(depth) = number_up_to(depth_text, 64) else {
        return Err(BadValue {
            option: "--depth <N>",
            value: depth_text,
            wanted: "a number from 1 to 64",
            advice: "",
        });
    };
    let octets_text = value(options, "octets");
    let Some(octets) = number_up_to(octets_text, 2_147_483_647) else {
        return Err(BadValue {
            option: "--octets <N>",
            value: octets_text,
            wanted: "a number from 1 to 2147483647",
            advice: "",
        });
    };
    match Limits::new(depth as u8, octets) {
        Some(limits) => Ok(limits),
        None => unreachable!(),
    }
}

/// What the command of this name does.
fn read_action<'a>(name: &'a str, options: &ArgMatches<'a>) -> Result<Action, BadValue<'a>>
    ensures { MatchResult result (DoesAction name.entry.now (rows_of (found_of options.now)))
        (BadAction name.entry.now (rows_of (found_of options.now))) }
{
    if name == "check" {
        return read_check(options);
    }
    if name == "explain" {
        return read_explain(options);
    }
    if name == "show" {
        return Ok(Action::Show {
            json: is_flagged(options, "json"),
        });
    }
    if name == "normalise" {
        return Ok(Action::Normalise);
    }
    if name == "signed" {
        return Ok(Action::Signed(read_part(options)?));
    }
    Err(BadValue {
        option: "COMMAND",
        value: name,
        wanted: "check, explain, show, same, normalise or signed",
        advice: "",
    })
}

/// What `check` does.
fn read_check<'a>(options: &ArgMatches<'a>) -> Result<Action, BadValue<'a>>
    ensures { MatchResult result (DoesAction (codes "check") (rows_of (found_of options.now)))
        (BadAction (codes "check") (rows_of (found_of options.now))) }
{
    let noting = read_noting(options)?;
    Ok(check_action(options, noting))
}

/// The same, by how it writes and ends: it writes notes where they are asked for.
fn check_action(options: &ArgMatches<'_>, noting: Noting) -> Action
    requires { ReadsNoting (rows_of (found_of options.now)) noting }
    ensures { DoesAction (codes "check") (rows_of (found_of options.now)) result }
{
    if is_flagged(options, "notes") || refuses(noting.refuse) || is_for_tls(noting.profile) {
        return Action::Note(noting);
    }
    Action::Check {
        json: noting.json,
        quiet: noting.quiet,
        places: noting.places,
    }
}

/// Whether there are notes that no document is to have.
fn refuses(refuse: Refuse) -> bool
    ensures { result ≡ refuses refuse }
{
    match refuse {
        Refuse::Nothing => false,
        Refuse::Must => true,
    }
}

/// Whether notes are asked for by the profile.
fn is_for_tls(profile: Profile) -> bool
    ensures { result ≡ is_for_tls profile }
{
    match profile {
        Profile::General => false,
        Profile::Tls => true,
    }
}

/// How `check` writes, and how it ends.
fn read_noting<'a>(options: &ArgMatches<'a>) -> Result<Noting, BadValue<'a>>
    ensures { MatchResult result (ReadsNoting (rows_of (found_of options.now)))
        (BadAction (codes "check") (rows_of (found_of options.now))) }
{
    let places = read_places(options)?;
    let refuse = read_refuse(options)?;
    let profile = read_noted_profile(options)?;
    Ok(Noting {
        json: is_flagged(options, "json"),
        quiet: is_flagged(options, "quiet"),
        places,
        profile,
        refuse,
    })
}

/// The notes that no document is to have.
fn read_refuse<'a>(options: &ArgMatches<'a>) -> Result<Refuse, BadValue<'a>>
    ensures { MatchResult result (ReadsRefuse (rows_of (found_of options.now)))
        (BadRefuse (rows_of (found_of options.now))) }
{
    match refuse_by(given(options, "refuse")) {
        Some(refuse) => Ok(refuse),
        None => Err(BadValue {
            option: "--refuse <LEVEL>",
            value: value(options, "refuse"),
            wanted: "must or tls",
            advice: "",
        }),
    }
}

/// The notes that no document is to have, by the value of their option.
#[tactic(auto, unfolding(crate::specs::CommandLines::refuse_by))]
fn refuse_by(word: Option<&str>) -> Option<Refuse>
    ensures { result ≡ refuse_by (option_map (λ word. word.now) word.entry) }
{
    let Some(word) = word else {
        return Some(Refuse::Nothing);
    };
    if word == "must" || word == "tls" {
        Some(Refuse::Must)
    } else {
        None
    }
}

/// The profile of a check, which `--refuse` may say, too.
fn read_noted_profile<'a>(options: &ArgMatches<'a>) -> Result<Profile, BadValue<'a>>
    ensures { MatchResult result (ReadsNotedProfile (rows_of (found_of options.now)))
        (BadProfile (rows_of (found_of options.now))) }
{
    let named = read_profile(options)?;
    Ok(noted_profile(value(options, "refuse"), named))
}

/// The profile of a check by the value of `--refuse`, where this one is named.
fn noted_profile(refused: &str, named: Profile) -> Profile
    ensures { result ≡ noted_profile refused.now named }
{
    if refused == "tls" {
        return Profile::Tls;
    }
    named
}

/// The profile that is named.
fn read_profile<'a>(options: &ArgMatches<'a>) -> Result<Profile, BadValue<'a>>
    ensures { MatchResult result (ReadsProfile (rows_of (found_of options.now)))
        (BadProfile (rows_of (found_of options.now))) }
{
    match profile_by(given(options, "profile")) {
        Some(profile) => Ok(profile),
        None => Err(BadValue {
            option: "--profile <PROFILE>",
            value: value(options, "profile"),
            wanted: "tls",
            advice: "",
        }),
    }
}

/// The profile by the value of its option.
#[tactic(auto, unfolding(crate::specs::CommandLines::profile_by))]
fn profile_by(word: Option<&str>) -> Option<Profile>
    ensures { result ≡ profile_by (option_map (λ word. word.now) word.entry) }
{
    let Some(word) = word else {
        return Some(Profile::General);
    };
    if word == "tls" {
        Some(Profile::Tls)
    } else {
        None
    }
}

/// The kind that is named, or that it is to be found.
fn read_kind<'a>(action: Action, options: &ArgMatches<'a>) -> Result<Option<Kind>, BadValue<'a>>
    ensures { MatchResult result (ReadsKind action (rows_of (found_of options.now)))
        (BadKindOf action (rows_of (found_of options.now))) }
{
    if is_flagged(options, "any") {
        return match no_named_kind(options) {
            Ok(()) => Ok(None),
            Err(bad) => Err(bad),
        };
    }
    match read_named_kind(action, options) {
        Ok(kind) => Ok(Some(kind)),
        Err(bad) => Err(bad),
    }
}

/// That no kind is named, where it is to be found.
fn no_named_kind<'a>(options: &ArgMatches<'a>) -> Result<(), BadValue<'a>>
    ensures { MatchResult result
        (λ _. first_of (codes "kind") (rows_of (found_of options.now)) ≡ None)
        (BadAny (rows_of (found_of options.now))) }
{
    match given(options, "kind") {
        None => Ok(()),
        Some(_) => Err(BadValue {
            option: "--any",
            value: "--kind",
            wanted: "one of the two",
            advice: "",
        }),
    }
}

/// The kind that is named, where the action takes it.
fn read_named_kind<'a>(action: Action, options: &ArgMatches<'a>) -> Result<Kind, BadValue<'a>>
    ensures { MatchResult result (ReadsNamedKind action (rows_of (found_of options.now)))
        (BadNamedKind action (rows_of (found_of options.now))) }
{
    match action {
        Action::Signed(_) => read_request(options),
        _ => read_any_kind(options),
    }
}

/// The kind that is named.
fn read_any_kind<'a>(options: &ArgMatches<'a>) -> Result<Kind, BadValue<'a>>
    ensures { MatchResult result
        (λ kind. kind_named (value_of (codes "kind") (rows_of (found_of options.now))) ≡ Some kind)
        (BadKind (rows_of (found_of options.now))) }
{
    let text = value(options, "kind");
    Kind::named(text).ok_or(BadValue {
        option: kind_option(text),
        value: text,
        wanted: WORDS,
        advice: advice_for_kind(text),
    })
}

/// The option of a kind; nothing where no kind is named.
fn kind_option(text: &str) -> &'static str
    ensures { result.now ≡ kind_option text.now }
{
    if text.is_empty() { "" } else { "--kind <KIND>" }
}

/// The kind that is named, where it is that of requests.
fn read_request<'a>(options: &ArgMatches<'a>) -> Result<Kind, BadValue<'a>>
    ensures { MatchResult result
        (λ kind. (kind_named (value_of (codes "kind") (rows_of (found_of options.now))) ≡ Some kind)
        × (kind ≡ kinds.Request))
        (BadRequest (rows_of (found_of options.now))) }
{
    let text = value(options, "kind");
    match Kind::named(text) {
        Some(Kind::Request) => Ok(Kind::Request),
        _ => Err(BadValue {
            option: "--kind <KIND>",
            value: text,
            wanted: Kind::Request.row().word,
            advice: "",
        }),
    }
}

/// The part that is named.
fn read_part<'a>(options: &ArgMatches<'a>) -> Result<RequestPart, BadValue<'a>>
    ensures { MatchResult result
        (λ part. value_of (codes "part") (rows_of (found_of options.now)) ≡ part_name part)
        (BadPart (rows_of (found_of options.now))) }
{
    let text = value(options, "part");
    part_named(text).ok_or(BadValue {
        option: "--part <PART>",
        value: text,
        wanted: "info, algorithm, key, signature or received",
        advice: "",
    })
}

/// What `explain` does.
fn read_explain<'a>(options: &ArgMatches<'a>) -> Result<Action, BadValue<'a>>
    ensures { MatchResult result (DoesAction (codes "explain") (rows_of (found_of options.now)))
        (BadAction (codes "explain") (rows_of (found_of options.now))) }
{
    let form = read_form(options)?;
    Ok(Action::Explain(form))
}

/// The form that the options ask for.
fn read_form<'a>(options: &ArgMatches<'a>) -> Result<Form, BadValue<'a>>
    ensures { MatchResult result (ReadsForm (rows_of (found_of options.now)))
        (BadAction (codes "explain") (rows_of (found_of options.now))) }
{
    let places = read_places(options)?;
    let profile = read_profile(options)?;
    Ok(Form {
        json: is_flagged(options, "json"),
        brief: is_flagged(options, "brief"),
        all: is_flagged(options, "all"),
        places,
        profile,
    })
}

/// How many places that aren't in DER are shown.
fn read_places<'a>(options: &ArgMatches<'a>) -> Result<u64, BadValue<'a>>
    ensures { MatchResult result (ReadsPlaces (rows_of (found_of options.now)))
        (BadPlaces (rows_of (found_of options.now))) }
{
    let text = value(options, "places");
    match number_up_to(text, 2_147_483_647) {
        Some(places) => Ok(u64::from(places)),
        None => Err(BadValue {
            option: "--places <N>",
            value: text,
            wanted: "a number from 1 to 2147483647",
            advice: "",
        }),
    }
}

/// Whether a flag is given.
pub fn is_flagged(options: &ArgMatches<'_>, id: &str) -> bool
    ensures { result ≡ is_given id.now (rows_of (found_of options.now)) }
{
    value(options, id) == "true"
}

/// The value of an option, where there is one.
fn given<'a>(options: &ArgMatches<'a>, id: &str) -> Option<&'a str>
    ensures { option_map (λ text. text.now) result ≡ first_of id.now (rows_of (found_of options.now)) }
{
    options.get_str(id)
}

/// The value of an option, given or standing for it; no text where there is none.
pub fn value<'a>(options: &ArgMatches<'a>, id: &str) -> &'a str
    ensures { result.now ≡ value_of id.now (rows_of (found_of options.now)) }
{
    options.get_str(id).unwrap_or("")
}

/// The part of this name.
fn part_named(name: &str) -> Option<RequestPart>
    ensures { MatchOption result ((part : _) → name.now ≡ part_name part → ⊥)
        (λ part. name.now ≡ part_name part) }
{
    if name == "info" {
        Some(RequestPart::Written(Part::Info))
    } else if name == "algorithm" {
        Some(RequestPart::Written(Part::Algorithm))
    } else if name == "key" {
        Some(RequestPart::Written(Part::Key))
    } else if name == "signature" {
        Some(RequestPart::Written(Part::Signature))
    } else if name == "received" {
        Some(RequestPart::Received)
    } else {
        None
    }
}

/// The number from 1 to `most` that a text says.
fn number_up_to(text: &str, most: u32) -> Option<u32>
    ensures { MatchOption result ((n : ℕ) → IsNumber text.now n → 1 ≤ n → n ≤ most → ⊥)
        (λ n. IsNumber text.now n × (1 ≤ n) × (n ≤ most)) }
{
    match text.parse::<u32>() {
        Ok(number) => {
            if number >= 1 && number <= most {
                Some(number)
            } else {
                None
            }
        }
        Err(_) => None,
    }
}
