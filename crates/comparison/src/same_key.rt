//! Whether two documents hold one private key, as it is written.
ghost use Rattle.std.specs.Prelude.{◌≡◌, ◌⊎◌, ◌++◌, IfOk, codes, string_bytes};
ghost use Rattle.reports.specs.Texts.{line_feed};
ghost use Rattle.comparison.specs.Texts.{refused_text};
ghost use Rattle.std.specs.Option.{option_map};
ghost use Rattle.comparison.specs.KeySameness.{AreCompared, AreRefusedKeys, IsKeyReading, fault_of, key_line};
ghost use Rattle.comparison.specs.Parts.{document_parts, parts_seen};
ghost use Rattle.comparison.specs.Verdicts.{named_by, reason_of, reason_of_both, verdict_of};
ghost use Rattle.pkix_shapes.specs.Identifiers.{usual};

use crate::parts::{KeyParts, document_parts};
use crate::reading::is_any;
use crate::same::TwoDocuments;
use crate::text::{DocumentNames, refused_text};
use crate::verdict::{KeySameness, is_unnamed, verdict};
use pk_documents::document::{Document, Valued, read_whole_document};
use pk_documents::kind::Kind;
use pkix_shapes::identifiers::identifier_of;
use std::alloc::{AllocError, Global};
use tlv_core::fault::{Fault, ReadError};
use tlv_core::limits::Limits;

/// What octets are that have to be one document.
#[derive(Drop)]
pub(crate) enum KeyReading {
    Accepted(Document),
    Refused(Fault),
}

/// Whether two slices, each of which has to be one whole document of its kind, hold one private key, and the same as it
/// is written. For kinds `key` and `ec`; documents of other kinds aren't compared.
///
/// Equal means one key. Unequal means other octets: nothing is computed, and no public key is held against its private
/// one.
pub fn same_key_text(
    alloc: Global,
    documents: TwoDocuments<'_>,
    names: DocumentNames<'_>,
    kind: Kind,
    other_kind: Kind,
    limits: Limits,
) -> Result<(String, KeySameness), AllocError>
    ensures { IfOk result (λ written.
        AreCompared ⟦<Document as Valued>⟧.value limits kind other_kind
        documents.entry.first.now documents.entry.second.now
        (string_bytes written.0) written.1
        ⊎ AreRefusedKeys ⟦<Document as Valued>⟧.value limits kind other_kind
        names.entry.first.now names.entry.second.now
        documents.entry.first.now documents.entry.second.now
        (string_bytes written.0) written.1) }
{
    let reading = read(alloc, documents.first, kind, limits)?;
    let other = read(alloc, documents.second, other_kind, limits)?;
    let fault = reading.fault();
    let other_fault = other.fault();
    if is_any(fault, other_fault) {
        return refused(alloc, names, fault, other_fault);
    }
    let KeyReading::Accepted(document) = reading else {
        unreachable!()
    };
    let KeyReading::Accepted(other) = other else {
        unreachable!()
    };
    compared(alloc, &document, &other)
}

impl KeyReading {
    /// Why it is refused, if it is.
    fn fault(&self) -> Option<Fault>
        ensures { result ≡ fault_of self.now }
    {
        match self {
            KeyReading::Accepted(_) => None,
            KeyReading::Refused(fault) => Some(*fault),
        }
    }
}

/// Reads octets that have to be one document of the kind, all of them.
fn read(alloc: Global, octets: &[u8], kind: Kind, limits: Limits) -> Result<KeyReading, AllocError>
    ensures { IfOk result
        (λ reading. IsKeyReading ⟦<Document as Valued>⟧.value limits kind octets.now reading) }
{
    let mut source = octets;
    match read_whole_document(alloc, &mut source, kind, limits) {
        Ok((document, _taken)) => Ok(KeyReading::Accepted(document)),
        Err(ReadError::Fault(fault)) => Ok(KeyReading::Refused(fault)),
        Err(ReadError::Read { at: _ }) => unreachable!(),
        Err(ReadError::Memory) => Err(AllocError),
    }
}

/// The answer where a document is refused, or both.
fn refused(
    alloc: Global,
    names: DocumentNames<'_>,
    fault: Option<Fault>,
    other: Option<Fault>,
) -> Result<(String, KeySameness), AllocError>
    ensures lines { IfOk result (λ written. string_bytes written.0
        ≡ refused_text names.entry.first.now names.entry.second.now fault other) }
    ensures answer { IfOk result (λ written. written.1 ≡ KeySameness.Refused fault other) }
{
    let text = refused_text(alloc, names, fault, other)?;
    Ok((text, KeySameness::Refused(fault, other)))
}

/// The answer for two documents that are accepted.
fn compared(
    alloc: Global,
    document: &Document,
    other: &Document,
) -> Result<(String, KeySameness), AllocError>
    ensures answer { IfOk result (λ written. written.1
        ≡ verdict_of (document_parts document.now) (document_parts other.now)) }
    ensures line { IfOk result (λ written. string_bytes written.0
        ≡ key_line document.now other.now written.1) }
{
    let parts = document_parts(document);
    let others = document_parts(other);
    let answer = verdict(parts, others);
    let text = match answer {
        KeySameness::Same => String::from_str(alloc, "the same key\n")?,
        KeySameness::Another => String::from_str(alloc, "another key\n")?,
        KeySameness::NotCompared => not_compared_text(alloc, parts, others)?,
        KeySameness::Refused(_, _) => String::from_str(alloc, "\n")?,
    };
    Ok((text, answer))
}

/// Why two keys aren't compared.
fn not_compared_text(
    alloc: Global,
    parts: Option<KeyParts<'_>>,
    others: Option<KeyParts<'_>>,
) -> Result<String, AllocError>
    ensures { IfOk result (λ text. string_bytes text ≡ codes "not compared: "
        ++ reason_of_both (option_map parts_seen parts.entry) (option_map parts_seen others.entry)
        ++ line_feed) }
{
    let mut text = String::from_str(alloc, "not compared: ")?;
    let reason = reason_text(alloc, parts)?;
    if reason.as_str().is_empty() {
        let reason = reason_text(alloc, others)?;
        text.push_str(reason.as_str())?;
    } else {
        text.push_str(reason.as_str())?;
    }
    text.push_str("\n")?;
    Ok(text)
}

/// Why a key isn't compared; nothing where it is.
fn reason_text(alloc: Global, parts: Option<KeyParts<'_>>) -> Result<String, AllocError>
    ensures { IfOk result (λ text. string_bytes text ≡ reason_of (option_map parts_seen parts.entry)) }
{
    match parts {
        None => String::from_str(alloc, "no private key"),
        Some(KeyParts::Carried(algorithm)) => carried_text(alloc, algorithm),
        Some(KeyParts::Scalar(algorithm, curve, _)) => {
            String::from_str(
                alloc,
                if is_unnamed(algorithm, curve) {
                    "no curve is named"
                } else {
                    ""
                },
            )
        }
        Some(KeyParts::Rsa(_, _)) => Ok(String::new(alloc)),
    }
}

/// That the octets under an algorithm are carried.
fn carried_text(alloc: Global, algorithm: &[u8]) -> Result<String, AllocError>
    ensures { IfOk result (λ text. string_bytes text
        ≡ named_by (usual algorithm.now) ++ codes " is carried") }
{
    let mut text = String::from_str(alloc, algorithm_name(algorithm))?;
    text.push_str(" is carried")?;
    Ok(text)
}

/// An algorithm by its usual name.
fn algorithm_name(algorithm: &[u8]) -> &'static str
    ensures { result.now ≡ named_by (usual algorithm.now) }
{
    match identifier_of(algorithm) {
        Some(identifier) => identifier.name,
        None => "its algorithm",
    }
}
