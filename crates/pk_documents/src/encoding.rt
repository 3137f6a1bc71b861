//! The DER encoding of a document that is in memory.
ghost use Rattle.std.specs.Prelude.{◌≡◌, ◌⊎◌, IfOk, List, MatchResult, Option, Some, [], length, true, ℕ};
ghost use Rattle.tlv_core.specs.declared.fault.ReadError.TheVariants.{Fault as unread};
ghost use Rattle.x690.specs.Values.{Value};
ghost use Rattle.asn_documents.specs.Checked.{Unchecked};
ghost use Rattle.asn_documents.specs.Normalised.{NormalisedAs};
ghost use Rattle.asn_documents.specs.WholeInputs.{Followed};
ghost use Rattle.pk_documents.specs.Encodings.{IsEncoding, octets_of};
ghost use Rattle.pk_documents.specs.Kinds.{type_of};

use crate::kind::Kind;
use crate::normalise::{NormaliseError, normalise_whole_document};
use asn_documents::in_der::are_in_der;
use asn_elements::boxed::Boxed;
use pkcs8::encrypted_key::EncryptedKey;
use pkcs8::key_package::KeyPackage;
use pkcs8::one_asymmetric_key::OneAsymmetricKey;
use pkcs10::request::CertificationRequest;
use pkix_values::public_key::SubjectPublicKeyInfo;
use private_keys::ec_private_key::EcPrivateKey;
use std::alloc::{AllocError, Global};
use tlv_core::fault::{Fault, ReadError};
use tlv_core::limits::Limits;
use tlv_core::target::ToWrite;

/// The DER encoding of a document.
#[derive(Drop)]
pub enum Encoding<'a> {
    /// The document's own octets, which are in DER.
    Given(&'a [u8]),
    Made(Vec<u8>),
}

impl Encoding<'_> {
    pub fn octets(&self) -> &[u8]
        ensures { result.now ≡ octets_of self.now }
    {
        match self {
            Encoding::Given(octets) => octets,
            Encoding::Made(octets) => octets.as_slice(),
        }
    }
}

/// The DER encoding of octets that have to be one document, all of them, or the fault that they are refused for. Where
/// they are judged to be in DER it is they themselves, and no memory is taken.
pub fn encoding_of<'a>(
    alloc: Global,
    octets: &'a [u8],
    kind: Kind,
    limits: Limits,
) -> Result<Result<Encoding<'a>, Fault>, AllocError>
    ensures { IfOk result (λ answer. MatchResult answer
        (λ encoding. IsEncoding limits (type_of kind) octets.now (octets_of encoding))
        (λ fault. (after : Option (List ℕ))
        × (Unchecked limits (type_of kind) (unread fault) (Some octets.now) after
        ⊎ Followed limits (type_of kind) (unread fault) (Some octets.now) after))) }
{
    if is_in_der(octets, kind, limits) {
        return Ok(Ok(Encoding::Given(octets)));
    }
    // (most documents are as long as their DER encodings)
    let room = Vec::with_capacity(alloc, octets.len())?;
    let mut source = octets;
    let mut target = ToWrite::new(room);
    match normalise_whole_document(alloc, &mut source, &mut target, kind, limits) {
        Ok(_) => Ok(Ok(Encoding::Made(target.into_inner()))),
        Err(NormaliseError::Read(ReadError::Fault(fault))) => Ok(Err(fault)),
        Err(NormaliseError::Read(ReadError::Read { at: _ })) => unreachable!(),
        Err(NormaliseError::Read(ReadError::Memory)) => Err(AllocError),
        Err(NormaliseError::Write(_)) => Err(AllocError),
    }
}

/// Whether octets are judged to be one document in DER, all of them. `false` says nothing of them.
#[tactic(auto, using(crate::proofs::LawfulKinds::lawful_types))]
fn is_in_der(octets: &[u8], kind: Kind, limits: Limits) -> bool
    ensures { result ≡ true → (value : Value)
        × NormalisedAs limits (type_of kind) value (Some octets.now) (Some []) (Some [])
        (Some octets.now) (length octets.now) (length octets.now) }
{
    match kind {
        Kind::Key => are_in_der::<Boxed<OneAsymmetricKey>>(octets, limits),
        Kind::Ec => are_in_der::<EcPrivateKey>(octets, limits),
        Kind::Request => are_in_der::<CertificationRequest>(octets, limits),
        Kind::Public => are_in_der::<SubjectPublicKeyInfo>(octets, limits),
        Kind::Encrypted => are_in_der::<EncryptedKey>(octets, limits),
        Kind::Package => are_in_der::<KeyPackage>(octets, limits),
    }
}
