//! What the program does with the words of its line.
ghost use Rattle.std.specs.Prelude.{◌≡◌, ◌&&◌, false, is_none, map, string_bytes};
ghost use Rattle.std.specs.Option.{option_map};
ghost use Rattle.commands.specs.Judgements.{sources_of};
ghost use Rattle.commands.specs.Standards.{IsReadable, seen};
ghost use Rattle.pkder.specs.Responses.{Does, Follows, Responds, SaysFault, first_name, is_binary};

use crate::line::{Invocation, LineFault, Order, invocation_of};
use commands::closing::{complain, finish};
use commands::convert::{Places, convert};
use commands::flush::Flush;
use commands::judge::{Documents, judge};
use commands::new_file::NewFiles;
use commands::opener::Opener;
use commands::outcome::Outcome;
use commands::pair::compare_named;
use commands::question::PairNames;
use commands::standard::Standard;
use commands::streams::say;
use commands::task::Action;
use pk_documents::document::{Document, Valued};
use std::alloc::Global;
use tlv_core::source::Source;
use tlv_core::target::Target;

const BINARY: &str = "\
error: what is written is binary, and standard output is a terminal

  tip: --to NEW-FILE; with --to - it is written all the same

For more information, try '--help'.
";

/// What a program has beside its streams.
#[derive(Drop)]
pub struct System<O, M> {
    pub opener: O,
    pub files: M,
    /// Whether standard output is a terminal.
    pub is_terminal: bool,
}

/// Does what the line asks for, the program's name being the first word, and answers the exit status.
pub fn respond<R: Source + Drop, W: Flush, E: Target, O: Opener, M: NewFiles>(
    alloc: Global,
    words: &[String],
    standard: &mut Standard<R, W, E>,
    system: &System<O, M>,
) -> u8
    requires readable { IsReadable R.has_failed standard.old.input }
    requires writable { W.has_failed standard.old.output ≡ false }
    ensures { Responds ⟦<Document as Valued>⟧.value (sources_of R.has_failed R.remaining O.Document.has_failed
        O.Document.remaining (O.known system.now.opener) (O.refuses system.now.opener)) M.File.made
        (M.refuses system.now.files)
        system.now.is_terminal (map string_bytes words.entry.now)
        (seen R.remaining W.contents W.has_failed W.is_flushed E.contents E.has_failed standard.old)
        (seen R.remaining W.contents W.has_failed W.is_flushed E.contents E.has_failed standard.new)
        result }
{
    match invocation_of(alloc, words) {
        Ok(invocation) => perform(alloc, &invocation, standard, system),
        Err(fault) => show_fault(&fault, standard),
    }
}

/// Does what a line asks for.
fn perform<R: Source + Drop, W: Flush, E: Target, O: Opener, M: NewFiles>(
    alloc: Global,
    invocation: &Invocation<'_>,
    standard: &mut Standard<R, W, E>,
    system: &System<O, M>,
) -> u8
    requires readable { IsReadable R.has_failed standard.old.input }
    requires writable { W.has_failed standard.old.output ≡ false }
    ensures { Does ⟦<Document as Valued>⟧.value (sources_of R.has_failed R.remaining O.Document.has_failed
        O.Document.remaining (O.known system.now.opener) (O.refuses system.now.opener)) M.File.made
        (M.refuses system.now.files)
        system.now.is_terminal invocation.now
        (seen R.remaining W.contents W.has_failed W.is_flushed E.contents E.has_failed standard.old)
        (seen R.remaining W.contents W.has_failed W.is_flushed E.contents E.has_failed standard.new)
        result }
{
    match invocation {
        Invocation::Each(order) => follow(alloc, order, standard, system),
        Invocation::Both(pair) => {
            let names = PairNames {
                first: pair.first,
                second: pair.second,
            };
            compare_named(alloc, &pair.comparison, names, standard, &system.opener)
        }
    }
}

/// Does what is to be done with each document.
fn follow<R: Source + Drop, W: Flush, E: Target, O: Opener, M: NewFiles>(
    alloc: Global,
    order: &Order<'_>,
    standard: &mut Standard<R, W, E>,
    system: &System<O, M>,
) -> u8
    requires readable { IsReadable R.has_failed standard.old.input }
    requires writable { W.has_failed standard.old.output ≡ false }
    ensures { Follows ⟦<Document as Valued>⟧.value (sources_of R.has_failed R.remaining O.Document.has_failed
        O.Document.remaining (O.known system.now.opener) (O.refuses system.now.opener)) M.File.made
        (M.refuses system.now.files)
        system.now.is_terminal order.now
        (is_binary order.now.task.action) (is_none order.now.to && system.now.is_terminal)
        (seen R.remaining W.contents W.has_failed W.is_flushed E.contents E.has_failed standard.old)
        (seen R.remaining W.contents W.has_failed W.is_flushed E.contents E.has_failed standard.new)
        result }
{
    let names = order.names.as_slice();
    if !is_binary(order.task.action) {
        let documents = Documents {
            names,
            list: order.list,
            each: order.each,
            sums: order.sums,
        };
        return judge(alloc, &order.task, documents, standard, &system.opener);
    }
    if order.to.is_none() && system.is_terminal {
        return complain(BINARY, &mut standard.errors);
    }
    let places = Places {
        from: first_name(names),
        to: order.to,
    };
    convert(
        alloc,
        &order.task,
        places,
        standard,
        &system.opener,
        &system.files,
    )
}

/// The first of these names, if there is one.
fn first_name<'a>(names: &[&'a str]) -> Option<&'a str>
    ensures { option_map (λ r. r.now) result ≡ first_name (map (λ r. r.now) names.now) }
{
    match names {
        [name, ..] => Some(*name),
        [] => None,
    }
}

/// Whether what an action writes is no text.
fn is_binary(action: Action) -> bool
    ensures { result ≡ is_binary action }
{
    matches!(action, Action::Normalise | Action::Signed(_))
}

/// Writes why nothing is done, or the text of help, and answers the exit status.
fn show_fault<R: Source + Drop, W: Flush, E: Target>(
    fault: &LineFault,
    standard: &mut Standard<R, W, E>,
) -> u8
    requires writable { W.has_failed standard.old.output ≡ false }
    ensures { SaysFault fault.now
        (seen R.remaining W.contents W.has_failed W.is_flushed E.contents E.has_failed standard.old)
        (seen R.remaining W.contents W.has_failed W.is_flushed E.contents E.has_failed standard.new)
        result }
{
    match fault {
        LineFault::Line(text) => complain(text.as_str(), &mut standard.errors),
        LineFault::Help(text) => {
            let outcome = say(text.as_str(), &mut standard.output);
            finish(&outcome, &mut standard.errors)
        }
        LineFault::Memory => finish(&Outcome::Memory, &mut standard.errors),
    }
}
