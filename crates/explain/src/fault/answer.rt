//! What `check` answers to a document.
ghost use Rattle.std.specs.Prelude.{◌≡◌, IfOk};
ghost use Rattle.explain.specs.Answers.{IsAnswer, sound_at};
ghost use Rattle.pk_documents.specs.Kinds.{type_of};

use pk_documents::check::check_whole_document;
use pk_documents::kind::Kind;
use reports::report::Answer;
use std::alloc::{AllocError, Global};
use tlv_core::fault::ReadError;
use tlv_core::limits::Limits;

/// The answer of `check` to the octets, of which all have to be one document.
pub(crate) fn answer_of(
    alloc: Global,
    octets: &[u8],
    kind: Kind,
    limits: Limits,
) -> Result<Answer, AllocError>
    ensures { IfOk result (λ answer. IsAnswer limits (type_of kind) octets.now answer) }
{
    let mut source = octets;
    match check_whole_document(alloc, &mut source, kind, limits) {
        Ok((_taken, place)) => Ok(sound(place)),
        Err(ReadError::Fault(fault)) => Ok(Answer::Refused(fault)),
        Err(ReadError::Read { at: _ }) => unreachable!(),
        Err(ReadError::Memory) => Err(AllocError),
    }
}

/// The answer to a document, by the first place where it isn't in DER.
fn sound(place: Option<u64>) -> Answer
    ensures { result ≡ sound_at place }
{
    match place {
        None => Answer::Der,
        Some(at) => Answer::NotDer(at),
    }
}
