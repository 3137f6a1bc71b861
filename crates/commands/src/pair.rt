//! Two documents that are compared by their names, of which one may be standard input.
ghost use Rattle.std.specs.Prelude.{◌≡◌, false};
ghost use Rattle.std.specs.Option.{option_map};
ghost use Rattle.commands.specs.Endings.{WritesLine};
ghost use Rattle.commands.specs.Files.{line_after};
ghost use Rattle.commands.specs.Lines.{name_of_line};
ghost use Rattle.commands.specs.Names.{shown_name};
ghost use Rattle.commands.specs.Outcomes.{words_of};
ghost use Rattle.commands.specs.Pairs.{ComparesBoth, ComparesNamed, ComparesWith};
ghost use Rattle.commands.specs.Standards.{IsReadable, seen};
ghost use Rattle.commands.specs.declared.outcome.Outcome.TheVariants.{ReadFailed};

use crate::closing::{finish, finish_named, finish_pair};
use crate::compare::answer_pair;
use crate::files::Came;
use crate::flush::Flush;
use crate::lines::NamedLine;
use crate::opener::Opener;
use crate::outcome::Outcome;
use crate::question::{Comparison, PairNames};
use crate::standard::{Standard, is_dash};
use pk_documents::document::{Document, Valued};
use std::alloc::Global;
use tlv_core::source::Source;
use tlv_core::target::Target;

/// The names of two documents as they are given, and the memory for a line that begins with either.
#[derive(Drop)]
struct NamedPair<'a> {
    names: PairNames<'a>,
    first: NamedLine,
    second: NamedLine,
    ghost first_shown: { name_of_line first ≡ shown_name names.first.now },
    ghost second_shown: { name_of_line second ≡ shown_name names.second.now },
}

/// Says what two documents are to each other on standard output, or on standard error why it doesn't, and answers the
/// exit status.
pub fn compare_named<R: Source + Drop, W: Flush, E: Target, O: Opener>(
    alloc: Global,
    comparison: &Comparison,
    names: PairNames<'_>,
    standard: &mut Standard<R, W, E>,
    opener: &O,
) -> u8
    requires readable { IsReadable R.has_failed standard.old.input }
    requires writable { W.has_failed standard.old.output ≡ false }
    ensures { ComparesNamed ⟦<Document as Valued>⟧.value (O.known opener.now)
        (O.refuses opener.now) comparison.now names.entry.first.now names.entry.second.now
        (seen R.remaining W.contents W.has_failed W.is_flushed E.contents E.has_failed
        standard.old)
        (seen R.remaining W.contents W.has_failed W.is_flushed E.contents E.has_failed
        standard.new) result }
{
    let Ok(first) = NamedLine::new(alloc, names.first.as_bytes()) else {
        return finish(&Outcome::Memory, &mut standard.errors);
    };
    let Ok(second) = NamedLine::new(alloc, names.second.as_bytes()) else {
        return finish(&Outcome::Memory, &mut standard.errors);
    };
    let named = NamedPair {
        names,
        first,
        second,
    };
    if is_dash(names.first) {
        return match standard.input.take() {
            Some(mut src) => compare_with(alloc, comparison, named, &mut src, standard, opener),
            None => finish_taken(named.first, &mut standard.errors),
        };
    }
    match opener.open(alloc, names.first.as_bytes()) {
        Ok(mut src) => compare_with(alloc, comparison, named, &mut src, standard, opener),
        Err(why) => finish_named(named.first, &Came::Unopened(why), &mut standard.errors),
    }
}

/// The same of a first document whose octets are known of a source.
fn compare_with<S: Source, R: Source + Drop, W: Flush, E: Target, O: Opener>(
    alloc: Global,
    comparison: &Comparison,
    named: NamedPair<'_>,
    first: &mut S,
    standard: &mut Standard<R, W, E>,
    opener: &O,
) -> u8
    requires first_readable { S.has_failed first.old ≡ false }
    requires readable { IsReadable R.has_failed standard.old.input }
    requires writable { W.has_failed standard.old.output ≡ false }
    ensures { ComparesWith ⟦<Document as Valued>⟧.value (O.known opener.now)
        (O.refuses opener.now) comparison.now named.entry.names.first.now
        named.entry.names.second.now
        (S.remaining first.old) (option_map R.remaining standard.old.input)
        (seen R.remaining W.contents W.has_failed W.is_flushed E.contents E.has_failed
        standard.old)
        (seen R.remaining W.contents W.has_failed W.is_flushed E.contents E.has_failed
        standard.new) result }
{
    if is_dash(named.names.second) {
        return match standard.input.take() {
            Some(mut second) => {
                compare_both(alloc, comparison, named, first, &mut second, standard)
            }
            None => finish_taken(named.second, &mut standard.errors),
        };
    }
    match opener.open(alloc, named.names.second.as_bytes()) {
        Ok(mut second) => compare_both(alloc, comparison, named, first, &mut second, standard),
        Err(why) => finish_named(named.second, &Came::Unopened(why), &mut standard.errors),
    }
}

/// The same of two documents whose octets are known of sources.
fn compare_both<S: Source, T: Source, R: Source + Drop, W: Flush, E: Target>(
    alloc: Global,
    comparison: &Comparison,
    named: NamedPair<'_>,
    first: &mut S,
    second: &mut T,
    standard: &mut Standard<R, W, E>,
) -> u8
    requires first_readable { S.has_failed first.old ≡ false }
    requires second_readable { T.has_failed second.old ≡ false }
    requires writable { W.has_failed standard.old.output ≡ false }
    ensures { ComparesBoth ⟦<Document as Valued>⟧.value comparison.now named.entry.names.first.now
        named.entry.names.second.now (S.remaining first.old) (T.remaining second.old)
        (seen R.remaining W.contents W.has_failed W.is_flushed E.contents E.has_failed
        standard.old)
        (seen R.remaining W.contents W.has_failed W.is_flushed E.contents E.has_failed
        standard.new) result }
{
    let output = &mut standard.output;
    let compared = answer_pair(alloc, first, second, output, comparison, named.names);
    finish_pair(named.first, named.second, &compared, &mut standard.errors)
}

/// Writes that standard input is read already, after the name of what is wanted of it, and answers the status.
pub fn finish_taken<W: Target>(named: NamedLine, dst: &mut W) -> u8
    ensures line { WritesLine (line_after (name_of_line named) (words_of (ReadFailed 0)))
        (W.contents dst.old) (W.contents dst.new) (W.has_failed dst.new) }
    ensures status { result ≡ 3 }
{
    finish_named(named, &Came::Ran(Outcome::ReadFailed(0)), dst)
}
