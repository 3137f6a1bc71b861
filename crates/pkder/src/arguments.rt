//! The commands of the program, with their options and the files that they name.
ghost use Rattle.std.specs.Prelude.{◌≡◌, map};
ghost use Rattle.pkder.specs.CommandLines.{commands};
ghost use Rattle.pkder.specs.Tables.{shape_in};

use crate::help::{self, Topic};
use clap::ArgAction;

/// An option of a command, or a file that it names.
#[derive(Clone, Copy)]
pub struct Argument {
    /// What its value is read by; of an option its word, too.
    pub id: &'static str,
    pub is_option: bool,
    /// The option's letter.
    pub letter: Option<char>,
    /// What help calls its value, where it has one.
    pub values: &'static [&'static str],
    /// The value that stands for one that isn't given.
    pub defaults: &'static [&'static str],
    /// Whether it has to be given.
    pub required: bool,
    /// What a use of it does.
    pub action: ArgAction,
    pub help: &'static str,
}

/// A command.
#[derive(Clone, Copy)]
pub struct Subcommand {
    pub name: &'static str,
    pub about: &'static str,
    /// What help says after the options.
    pub topic: Topic,
    pub arguments: &'static [Argument],
}

/// All commands.
pub fn subcommands() -> &'static [Subcommand]
    ensures { map shape_in result.now ≡ commands }
{
    SUBCOMMANDS
}

const SUBCOMMANDS: &[Subcommand] = &[
    Subcommand {
        name: "check",
        about: "say whether it is in DER, or the first place where it is not",
        topic: Topic::Check,
        arguments: &[
            OPTIONAL_KIND,
            ANY,
            DEPTH,
            OCTETS,
            QUIET,
            NOTES,
            REFUSE,
            PROFILE,
            JSON,
            PLACES,
            LIST,
            SUM,
            EACH,
            NAMES,
        ],
    },
    Subcommand {
        name: "explain",
        about: "say where and why it is refused or not in DER, with its elements",
        topic: Topic::Explain,
        arguments: &[
            OPTIONAL_KIND,
            ANY,
            DEPTH,
            OCTETS,
            ALL,
            BRIEF,
            PROFILE,
            JSON,
            PLACES,
            LIST,
            SUM,
            EACH,
            NAMES,
        ],
    },
    Subcommand {
        name: "show",
        about: "say what it is, in lines; of private octets the number alone",
        topic: Topic::Show,
        arguments: &[
            OPTIONAL_KIND,
            ANY,
            DEPTH,
            OCTETS,
            JSON,
            LIST,
            SUM,
            EACH,
            NAMES,
        ],
    },
    Subcommand {
        name: "same",
        about: "say whether two are the same document, or what differs",
        topic: Topic::Same,
        arguments: &[KINDS, DEPTH, OCTETS, KEY, ONE_JSON, FIRST, SECOND],
    },
    Subcommand {
        name: "normalise",
        about: "write its DER text, which is its one DER encoding",
        topic: Topic::Normalise,
        arguments: &[KIND, DEPTH, OCTETS, TO, NAME],
    },
    Subcommand {
        name: "signed",
        about: "write a part of a request: what its signature covers, or another",
        topic: Topic::Signed,
        arguments: &[PART, REQUEST, DEPTH, OCTETS, TO, NAME],
    },
];

/// An option with a value, which each other one is but for what it says.
const OPTION: Argument = Argument {
    id: "",
    is_option: true,
    letter: None,
    values: &[],
    defaults: &[],
    required: false,
    action: ArgAction::Set,
    help: "",
};

const FLAG: Argument = Argument {
    action: ArgAction::SetTrue,
    ..OPTION
};

const KIND: Argument = Argument {
    id: "kind",
    letter: Some('k'),
    values: &["KIND"],
    required: true,
    help: "what it is: key, ec, request, public, encrypted\nor package",
    ..OPTION
};

/// The kind of a command that finds it by itself with `--any`.
const OPTIONAL_KIND: Argument = Argument {
    required: false,
    ..KIND
};

/// The kind of a command that reads requests alone.
const REQUEST: Argument = Argument {
    defaults: &["request"],
    required: false,
    help: "what it is: a request",
    ..KIND
};

/// The kind of two documents, or with `--key` the kinds of both.
const KINDS: Argument = Argument {
    action: ArgAction::Append,
    ..KIND
};

const ANY: Argument = Argument {
    id: "any",
    help: "find out which kind it is, if it is one",
    ..FLAG
};

const DEPTH: Argument = Argument {
    id: "depth",
    values: &["N"],
    defaults: &["32"],
    help: "the greatest depth of nesting, 1 to 64",
    ..OPTION
};

const OCTETS: Argument = Argument {
    id: "octets",
    values: &["N"],
    defaults: &["1048576"],
    help: "the greatest number of octets of the document and\nof its DER text, 1 to 2147483647",
    ..OPTION
};

const QUIET: Argument = Argument {
    id: "quiet",
    help: "write only what is not in DER",
    ..FLAG
};

const NOTES: Argument = Argument {
    id: "notes",
    help: "write notes on what other standards say against it",
    ..FLAG
};

const REFUSE: Argument = Argument {
    id: "refuse",
    values: &["LEVEL"],
    help: "write notes, and end with status 5 where one has\nthe level must; tls names the profile: must or tls",
    ..OPTION
};

const PROFILE: Argument = Argument {
    id: "profile",
    values: &["PROFILE"],
    help: help::PROFILE,
    ..OPTION
};

const ALL: Argument = Argument {
    id: "all",
    help: "list all elements, however many there are",
    ..FLAG
};

const BRIEF: Argument = Argument {
    id: "brief",
    help: "say it briefly, for whoever sent the file",
    ..FLAG
};

const JSON: Argument = Argument {
    id: "json",
    help: "write an object of JSON for each document",
    ..FLAG
};

const ONE_JSON: Argument = Argument {
    help: "write an object of JSON",
    ..JSON
};

const PLACES: Argument = Argument {
    id: "places",
    values: &["N"],
    defaults: &["100"],
    help: "list at most so many places that are not in DER,\n1 to 2147483647",
    ..OPTION
};

const KEY: Argument = Argument {
    id: "key",
    help: "say whether they hold the same private key",
    ..FLAG
};

const PART: Argument = Argument {
    id: "part",
    values: &["PART"],
    defaults: &["info"],
    help: "the part: info, algorithm, key, signature\nor received",
    ..OPTION
};

/// A file that has more names.
const LIST: Argument = Argument {
    id: "files0-from",
    values: &["FILE"],
    help: "read names from it, each ended by an octet 0",
    ..OPTION
};

const SUM: Argument = Argument {
    id: "sum",
    help: "say last, on standard error, how many documents\nare in DER, not in DER, refused and unread",
    ..FLAG
};

const EACH: Argument = Argument {
    id: "each",
    help: "go through documents one behind another",
    ..FLAG
};

const TO: Argument = Argument {
    id: "to",
    values: &["FILE"],
    help: "write into it, whole or not at all",
    ..OPTION
};

/// The name of one file.
const NAME: Argument = Argument {
    id: "file",
    is_option: false,
    values: &["FILE"],
    help: "what is read; -, or no FILE, is standard input",
    ..OPTION
};

/// The names of any number of files.
const NAMES: Argument = Argument {
    action: ArgAction::Append,
    ..NAME
};

const FIRST: Argument = Argument {
    id: "first",
    required: true,
    help: "what is read; - is standard input",
    ..NAME
};

const SECOND: Argument = Argument {
    id: "second",
    values: &["OTHER"],
    help: "what it is compared with; - is standard input",
    ..FIRST
};
