//! What ends a run: its line for standard error, and its status.
ghost use Rattle.std.specs.Prelude.{◌≡◌, ◌<◌, length};
ghost use Rattle.commands.specs.Comparisons.{compared_status};
ghost use Rattle.commands.specs.Endings.{WritesLine, line_of_compared};
ghost use Rattle.commands.specs.Files.{line_after, line_of_end, status_of_came, status_of_end, words_of_came};
ghost use Rattle.commands.specs.Lines.{name_of_line};
ghost use Rattle.commands.specs.NameLists.{fault_of};
ghost use Rattle.commands.specs.Outcomes.{line_of, status_of};

use crate::files::{Came, FilesEnd, came_status, files_status, words_of_came};
use crate::lines::NamedLine;
use crate::names::NamesFault;
use crate::outcome::{Outcome, outcome_line, status};
use crate::question::{Compared, compared_status};
use asn_documents::value::write_octets;
use tlv_core::target::Target;

/// Writes a line, unless the target has failed.
pub fn write_line<W: Target>(line: &[u8], dst: &mut W)
    ensures { WritesLine line.now (W.contents dst.old) (W.contents dst.new) (W.has_failed dst.new) }
{
    if !dst.failed() {
        let _ = write_octets(line, dst);
    }
}

/// Writes the line of an outcome, if it has one, and answers its status.
pub fn finish<W: Target>(outcome: &Outcome, dst: &mut W) -> u8
    ensures line { WritesLine (line_of outcome.now) (W.contents dst.old) (W.contents dst.new)
        (W.has_failed dst.new) }
    ensures status { result ≡ status_of outcome.now }
{
    let line = outcome_line(outcome);
    write_line(line.as_str().as_bytes(), dst);
    status(outcome)
}

/// Writes the line of a document after its name, if it has one, and answers the status of what came of it.
pub fn finish_named<W: Target>(named: NamedLine, came: &Came, dst: &mut W) -> u8
    ensures line { WritesLine (line_after (name_of_line named) (words_of_came came.now))
        (W.contents dst.old) (W.contents dst.new) (W.has_failed dst.new) }
    ensures status { result ≡ status_of_came came.now }
{
    let line = named.line(words_of_came(came).as_str());
    write_line(line.as_bytes(), dst);
    came_status(came)
}

/// Writes why a run over the names of a list, which has a name, too, ended before the last one, and answers its status.
pub fn finish_files<W: Target>(list: NamedLine, end: &FilesEnd, dst: &mut W) -> u8
    ensures line { WritesLine (line_of_end (name_of_line list) end.now) (W.contents dst.old)
        (W.contents dst.new) (W.has_failed dst.new) }
    ensures status { result ≡ status_of_end end.now }
{
    match end {
        FilesEnd::Through(_) => {
            finish(&Outcome::Done, dst);
        }
        FilesEnd::NoName(fault) => {
            let line = list.line(why_no_name(*fault));
            write_line(line.as_bytes(), dst);
        }
        FilesEnd::WriteFailed(after) => {
            finish(&Outcome::WriteFailed(*after), dst);
        }
        FilesEnd::Memory => {
            finish(&Outcome::Memory, dst);
        }
    }
    files_status(end)
}

/// Why the next name doesn't come, in words, which are short.
fn why_no_name(fault: NamesFault) -> &'static str
    ensures words { result.now ≡ fault_of fault }
    ensures short { length result.now < 128 }
{
    fault.why()
}

/// Writes why nothing is shown of two documents, which have names, and answers the status.
pub fn finish_pair<W: Target>(
    first: NamedLine,
    second: NamedLine,
    compared: &Compared,
    dst: &mut W,
) -> u8
    ensures line { WritesLine
        (line_of_compared (name_of_line first) (name_of_line second) compared.now)
        (W.contents dst.old) (W.contents dst.new) (W.has_failed dst.new) }
    ensures status { result ≡ compared_status compared.now }
{
    match compared {
        Compared::Answered(_) => {
            finish(&Outcome::Done, dst);
        }
        Compared::FirstFailed(at) => {
            finish_named(first, &Came::Ran(Outcome::ReadFailed(*at)), dst);
        }
        Compared::SecondFailed(at) => {
            finish_named(second, &Came::Ran(Outcome::ReadFailed(*at)), dst);
        }
        Compared::WriteFailed(after) => {
            finish(&Outcome::WriteFailed(*after), dst);
        }
        Compared::Memory => {
            finish(&Outcome::Memory, dst);
        }
    }
    compared_status(compared)
}

/// Writes why a line is refused, and answers the status of such a line.
pub fn complain<W: Target>(text: &str, dst: &mut W) -> u8
    ensures line { WritesLine text.now (W.contents dst.old) (W.contents dst.new)
        (W.has_failed dst.new) }
    ensures status { result ≡ 4 }
{
    write_line(text.as_bytes(), dst);
    4
}
