//! One task over one input.
ghost use Rattle.std.specs.Prelude.{◌≡◌, Bool, MatchResult, false, string_bytes};
ghost use Rattle.std.specs.Option.{option_map};
ghost use Rattle.asn_elements.specs.Whole.{IsFailedRead};
ghost use Rattle.asn_documents.specs.WrittenValues.{WritesText};
ghost use Rattle.pk_documents.specs.Kinds.{type_of};
ghost use Rattle.pk_documents.specs.RequestParts.{part_of};
ghost use Rattle.pk_documents.specs.declared.kind.Kind.TheVariants as kinds;
ghost use Rattle.commands.specs.Replies.{DueOfValue, FailedBy, IsSilent, Replied, RepliedBy, RepliedNoting};
ghost use Rattle.commands.specs.Replies.{RepliedReceived, RepliedSigning, RepliedTo, RepliedWith, WroteText};
ghost use Rattle.commands.specs.Replies.{unread_outcome};
ghost use Rattle.commands.specs.Replies.{written_outcome};

use crate::any::run_on_any;
use crate::block_target::{BlockTarget, Start, new_block};
use crate::input::read_all;
use crate::outcome::{Ending, Outcome};
use crate::reply::{
    Reply, check_line, check_report, explain_report, note_lines, note_report, show_lines,
    show_report,
};
use crate::task::{Action, KindTask, Noting, Task};
use asn_documents::value::write_octets;
use asn_documents::whole::read_whole_input;
use asn_elements::der_text::DerText;
use explain::received::{RequestPart, received};
use pk_documents::document::{Document, Valued};
use pk_documents::kind::Kind;
use pk_documents::normalise::{NormaliseError, normalise_whole_document};
use pk_documents::request_part::{Part, write_part};
use pkcs10::request::CertificationRequest;
use std::alloc::{AllocError, Global};
use std::marker::{Brand, PhantomData};
use tlv_core::fault::ReadError;
use tlv_core::limits::Limits;
use tlv_core::sink::WriteError;
use tlv_core::source::Source;
use tlv_core::target::Target;

/// Reads one document, which has to be all of the input, and only then writes what the task asks for. JSON says which
/// file it was, if it has a name.
pub fn run<R: Source, W: Target>(
    alloc: Global,
    src: &mut R,
    dst: &mut W,
    task: &Task,
    file: Option<&str>,
) -> Ending
    requires readable { R.has_failed src.old ≡ false }
    requires writable { W.has_failed dst.old ≡ false }
    ensures replied { Replied ⟦<Document as Valued>⟧.value task.now
        (option_map (λ r. r.now) file.entry) result.outcome result.kind (R.remaining src.old)
        (R.remaining src.new) (W.contents dst.old) (W.contents dst.new) }
    // Nothing is written of what isn't all of the input.
    ensures unwritten { IsSilent result.outcome → dst.new ≡ dst.old }
    // A failed read or write is answered where the source or the target failed, and nowhere else.
    ensures failed { FailedBy result.outcome (R.has_failed src.new) (W.has_failed dst.new) }
{
    match task.kind {
        Some(kind) => Ending {
            outcome: run_on_kind(alloc, src, dst, &task_on(task, kind), file),
            kind: Some(kind),
        },
        None => run_on_any(alloc, src, dst, task, file),
    }
}

/// The task where its documents are of this kind.
fn task_on(task: &Task, kind: Kind) -> KindTask
    ensures action { result.action ≡ task.now.action }
    ensures kind { result.kind ≡ kind }
    ensures limits { result.limits ≡ task.now.limits }
{
    KindTask {
        action: task.action,
        kind,
        limits: task.limits,
    }
}

/// Does a task with a document of a kind.
pub(crate) fn run_on_kind<R: Source, W: Target>(
    alloc: Global,
    src: &mut R,
    dst: &mut W,
    task: &KindTask,
    file: Option<&str>,
) -> Outcome
    requires readable { R.has_failed src.old ≡ false }
    requires writable { W.has_failed dst.old ≡ false }
    ensures replied { RepliedBy ⟦<Document as Valued>⟧.value task.now.action
        (option_map (λ r. r.now) file.entry) task.now.kind task.now.limits result (R.remaining src.old)
        (R.remaining src.new) (W.contents dst.old) (W.contents dst.new) }
    ensures unwritten { IsSilent result → dst.new ≡ dst.old }
    ensures failed { FailedBy result (R.has_failed src.new) (W.has_failed dst.new) }
{
    match task.action {
        Action::Show { json: false } => write_reply(show_lines(alloc, src, task), dst),
        Action::Show { json: true } => write_reply(show_report(alloc, src, task, file), dst),
        Action::Check {
            json: false,
            quiet,
            ..
        } => write_reply(check_line(alloc, src, task, quiet), dst),
        Action::Check {
            json: true,
            quiet,
            places,
        } => {
            let reply = check_report(alloc, src, task, file, quiet, places);
            write_reply(reply, dst)
        }
        Action::Note(noting) => note(alloc, src, dst, task, file, noting),
        Action::Explain(form) => write_reply(explain_report(alloc, src, task, file, form), dst),
        Action::Normalise => normalise(alloc, src, dst, task),
        Action::Signed(part) => extract(alloc, src, dst, part, task.limits),
    }
}

/// Writes what a check says, and notes.
fn note<R: Source, W: Target>(
    alloc: Global,
    src: &mut R,
    dst: &mut W,
    task: &KindTask,
    file: Option<&str>,
    noting: Noting,
) -> Outcome
    requires readable { R.has_failed src.old ≡ false }
    requires writable { W.has_failed dst.old ≡ false }
    ensures replied { RepliedNoting noting.json noting (option_map (λ r. r.now) file.entry)
        task.now.limits task.now.kind result (R.remaining src.old) (R.remaining src.new)
        (W.contents dst.old) (W.contents dst.new) }
    ensures unwritten { IsSilent result → dst.new ≡ dst.old }
    ensures failed { FailedBy result (R.has_failed src.new) (W.has_failed dst.new) }
{
    if noting.json {
        return write_reply(note_report(alloc, src, task, file, noting), dst);
    }
    write_reply(note_lines(alloc, src, task, noting), dst)
}

/// Writes a text that there is, and answers how the run ends.
fn write_reply<W: Target>(reply: Result<Reply, ReadError>, dst: &mut W) -> Outcome
    requires writable { W.has_failed dst.old ≡ false }
    ensures wrote { WroteText (λ it. string_bytes it.text) (λ it. it.whole)
        (λ error. unread_outcome error) reply result (W.contents dst.old) (W.contents dst.new)
        (W.has_failed dst.new) (dst.new ≡ dst.old) }
    ensures unwritten { IsSilent result → dst.new ≡ dst.old }
    ensures failed { (source : Bool)
        → MatchResult reply (λ _. source ≡ false) (IsFailedRead source)
        → FailedBy result source (W.has_failed dst.new) }
{
    match reply {
        Ok(reply) => written(write_octets(reply.text.as_bytes(), dst), reply.whole),
        Err(error) => unread(&error),
    }
}

/// Writes the document's DER text.
fn normalise<R: Source, W: Target>(
    alloc: Global,
    src: &mut R,
    dst: &mut W,
    task: &KindTask,
) -> Outcome
    requires readable { R.has_failed src.old ≡ false }
    requires writable { W.has_failed dst.old ≡ false }
    ensures replied { RepliedTo task.now.limits (type_of task.now.kind) result
        (R.remaining src.old) (R.remaining src.new) (W.contents dst.old) (W.contents dst.new) }
    ensures unwritten { IsSilent result → dst.new ≡ dst.old }
    ensures failed { FailedBy result (R.has_failed src.new) (W.has_failed dst.new) }
{
    match new_block(alloc) {
        Ok(block) => normalise_in_blocks::<R, W, Brand>(alloc, src, dst, block, task).0,
        Err(_) => Outcome::Memory,
    }
}

/// Writes the document's DER text in blocks, and gives the target back.
fn normalise_in_blocks<'a, R: Source, W: Target, K: Start>(
    alloc: Global,
    src: &mut R,
    dst: &'a mut W,
    block: Vec<u8>,
    task: &KindTask,
) -> (Outcome, &'a mut W)
    requires readable { R.has_failed src.old ≡ false }
    requires writable { W.has_failed dst.now ≡ false }
    requires name { dst.ghost_name ≡ K.name }
    requires before { W.contents dst.now ≡ K.before }
    ensures same { result.1.ghost_name ≡ dst.entry.ghost_name }
    ensures replied { RepliedTo task.now.limits (type_of task.now.kind) result.0
        (R.remaining src.old) (R.remaining src.new) (W.contents dst.entry.now)
        (W.contents result.1.now) }
    ensures unwritten { IsSilent result.0 → result.1.now ≡ dst.entry.now }
    ensures failed { FailedBy result.0 (R.has_failed src.new) (W.has_failed result.1.now) }
{
    let mut blocks: BlockTarget<'a, W, K> = BlockTarget {
        target: dst,
        block,
        begin: 0,
        end: 0,
        start: PhantomData,
    };
    match normalise_whole_document(alloc, src, &mut blocks, task.kind, task.limits) {
        Ok((_taken, count)) => {
            let count = blocks.close(Ok(count));
            (written(count, Outcome::Done), blocks.into_target())
        }
        Err(NormaliseError::Write(error)) => {
            let count = blocks.close(Err(error));
            (written(count, Outcome::Done), blocks.into_target())
        }
        Err(NormaliseError::Read(error)) => (unread(&error), blocks.into_target()),
    }
}

/// Writes a part of a request.
fn extract<R: Source, W: Target>(
    alloc: Global,
    src: &mut R,
    dst: &mut W,
    part: RequestPart,
    limits: Limits,
) -> Outcome
    requires readable { R.has_failed src.old ≡ false }
    requires writable { W.has_failed dst.old ≡ false }
    ensures replied { RepliedSigning part limits result (R.remaining src.old)
        (R.remaining src.new) (W.contents dst.old) (W.contents dst.new) }
    ensures unwritten { IsSilent result → dst.new ≡ dst.old }
    ensures failed { FailedBy result (R.has_failed src.new) (W.has_failed dst.new) }
{
    match part {
        RequestPart::Written(part) => extract_written(alloc, src, dst, part, limits),
        RequestPart::Received => extract_received(alloc, src, dst, limits),
    }
}

/// Writes the octets of certificationRequestInfo as they came. All of the input is taken first, or one octet more than
/// the limit.
fn extract_received<R: Source, W: Target>(
    alloc: Global,
    src: &mut R,
    dst: &mut W,
    limits: Limits,
) -> Outcome
    requires readable { R.has_failed src.old ≡ false }
    requires writable { W.has_failed dst.old ≡ false }
    ensures replied { RepliedReceived limits result (R.remaining src.old) (R.remaining src.new)
        (W.contents dst.old) (W.contents dst.new) }
    ensures unwritten { IsSilent result → dst.new ≡ dst.old }
    ensures failed { FailedBy result (R.has_failed src.new) (W.has_failed dst.new) }
{
    match read_all(alloc, src, limits.octets() as usize + 1) {
        Ok(octets) => write_received(received(alloc, octets.as_slice(), limits), dst),
        Err(error) => unread(&error),
    }
}

/// Writes octets that there are, and answers how the run ends.
fn write_received<W: Target>(octets: Result<&[u8], ReadError>, dst: &mut W) -> Outcome
    requires { W.has_failed dst.old ≡ false }
    ensures { WroteText (λ octets. octets.now) (λ _. Outcome.Done) (λ error. unread_outcome error)
        octets.entry result (W.contents dst.old) (W.contents dst.new) (W.has_failed dst.new)
        (dst.new ≡ dst.old) }
{
    match octets {
        Ok(octets) => written(write_octets(octets, dst), Outcome::Done),
        Err(error) => unread(&error),
    }
}

/// Writes a part of a request that is written of what the request says.
fn extract_written<R: Source, W: Target>(
    alloc: Global,
    src: &mut R,
    dst: &mut W,
    part: Part,
    limits: Limits,
) -> Outcome
    requires readable { R.has_failed src.old ≡ false }
    requires writable { W.has_failed dst.old ≡ false }
    ensures replied { RepliedWith limits (type_of kinds.Request)
        (DueOfValue limits (type_of kinds.Request) (part_of part) (R.remaining src.old)
        (R.remaining src.new)) result
        (R.remaining src.old) (R.remaining src.new) (W.contents dst.old) (W.contents dst.new) }
    ensures unwritten { IsSilent result → dst.new ≡ dst.old }
    ensures failed { FailedBy result (R.has_failed src.new) (W.has_failed dst.new) }
{
    match read_whole_input::<R, CertificationRequest>(alloc, src, limits) {
        Ok((request, _taken)) => write_part_text(new_block(alloc), &request, part, dst),
        Err(error) => unread(&error),
    }
}

/// Writes a part of a request, where there was memory for a block.
fn write_part_text<W: Target>(
    block: Result<Vec<u8>, AllocError>,
    request: &CertificationRequest,
    part: Part,
    dst: &mut W,
) -> Outcome
    requires { W.has_failed dst.old ≡ false }
    ensures { WroteText (λ _. part_of part (⟦<CertificationRequest as DerText>⟧.value request.now))
        (λ _. Outcome.Done) (λ _. Outcome.Memory) block result (W.contents dst.old)
        (W.contents dst.new) (W.has_failed dst.new) (dst.new ≡ dst.old) }
{
    match block {
        Ok(block) => {
            let (count, _dst) = write_part_in_blocks::<W, Brand>(request, part, dst, block);
            written(count, Outcome::Done)
        }
        Err(_) => Outcome::Memory,
    }
}

/// Writes a part of a request in blocks, and gives the target back.
fn write_part_in_blocks<'a, W: Target, K: Start>(
    request: &CertificationRequest,
    part: Part,
    dst: &'a mut W,
    block: Vec<u8>,
) -> (Result<u64, WriteError>, &'a mut W)
    requires writable { W.has_failed dst.now ≡ false }
    requires name { dst.ghost_name ≡ K.name }
    requires before { W.contents dst.now ≡ K.before }
    ensures same { result.1.ghost_name ≡ dst.entry.ghost_name }
    ensures writes { WritesText (part_of part (⟦<CertificationRequest as DerText>⟧.value request.now))
        (W.contents dst.entry.now) (W.contents result.1.now) (W.has_failed result.1.now) result.0 }
{
    let mut blocks: BlockTarget<'a, W, K> = BlockTarget {
        target: dst,
        block,
        begin: 0,
        end: 0,
        start: PhantomData,
    };
    let come = write_part(request, part, &mut blocks);
    (blocks.close(come), blocks.into_target())
}

/// How a run ends that writes what is due: as `whole` where all of it is out.
pub fn written(count: Result<u64, WriteError>, whole: Outcome) -> Outcome
    ensures { result ≡ written_outcome count whole }
{
    match count {
        Ok(_) => whole,
        Err(error) => Outcome::WriteFailed(error.written),
    }
}

/// The outcome of a document that was not read.
pub(crate) fn unread(error: &ReadError) -> Outcome
    ensures { result ≡ unread_outcome error.now }
{
    match error {
        ReadError::Fault(fault) => Outcome::Fault(*fault),
        ReadError::Read { at } => Outcome::ReadFailed(*at),
        ReadError::Memory => Outcome::Memory,
    }
}
