//! Whether a document is in DER.
ghost use Rattle.std.specs.Prelude.{◌≡◌, ◌⊎◌, IfOk, MatchResult, false};
ghost use Rattle.std.specs.Io.KnownBytes.{IsAtEnd};
ghost use Rattle.x690.specs.Values.{Value};
ghost use Rattle.asn_elements.specs.Whole.{IsFailedRead};
ghost use Rattle.asn_documents.specs.Checked.{CheckedAs, Unchecked};
ghost use Rattle.asn_documents.specs.WholeInputs.{Followed};
ghost use Rattle.pk_documents.specs.Kinds.{type_of};

use crate::kind::Kind;
use asn_documents::check::check_value;
use asn_documents::whole::check_whole;
use asn_elements::boxed::Boxed;
use pkcs8::encrypted_key::EncryptedKey;
use pkcs8::key_package::KeyPackage;
use pkcs8::one_asymmetric_key::OneAsymmetricKey;
use pkcs10::request::CertificationRequest;
use pkix_values::public_key::SubjectPublicKeyInfo;
use private_keys::ec_private_key::EcPrivateKey;
use std::alloc::Global;
use tlv_core::fault::ReadError;
use tlv_core::limits::Limits;
use tlv_core::source::Source;

/// Reads one document, and answers the number of octets taken and the first place where they differ from its DER text:
/// `None` where they are in DER. The octets are kept as they come; not one octet past the document is taken.
#[tactic(auto, using(crate::proofs::LawfulKinds::lawful_types))]
pub fn check<R: Source>(
    alloc: Global,
    src: &mut R,
    kind: Kind,
    limits: Limits,
) -> Result<(u64, Option<u64>), ReadError>
    requires { R.has_failed src.old ≡ false }
    ensures checked { MatchResult result (λ counts. (value : Value)
        × CheckedAs limits (type_of kind) value (R.remaining src.old) (R.remaining src.new)
        counts.0 counts.1)
        (λ error. Unchecked limits (type_of kind) error (R.remaining src.old)
        (R.remaining src.new)) }
    // A failed read is answered where the source failed, and nowhere else.
    ensures read { MatchResult result (λ _. R.has_failed src.new ≡ false)
        (IsFailedRead (R.has_failed src.new)) }
    ensures frame { R.frame src.new ≡ R.frame src.old }
{
    match kind {
        // (a key is the largest of them: in a box it is handed up as a pointer)
        Kind::Key => check_value::<R, Boxed<OneAsymmetricKey>>(alloc, src, limits),
        Kind::Ec => check_value::<R, EcPrivateKey>(alloc, src, limits),
        Kind::Request => check_value::<R, CertificationRequest>(alloc, src, limits),
        Kind::Public => check_value::<R, SubjectPublicKeyInfo>(alloc, src, limits),
        Kind::Encrypted => check_value::<R, EncryptedKey>(alloc, src, limits),
        Kind::Package => check_value::<R, KeyPackage>(alloc, src, limits),
    }
}

/// `check` where the document has to be all of the input: one octet more is asked for.
///
/// Faults: those of `check`; `Trailing` at the first octet after the document, whether it is in DER or not.
#[tactic(auto, using(crate::proofs::LawfulKinds::lawful_types))]
pub fn check_whole_document<R: Source>(
    alloc: Global,
    src: &mut R,
    kind: Kind,
    limits: Limits,
) -> Result<(u64, Option<u64>), ReadError>
    requires { R.has_failed src.old ≡ false }
    ensures checked { MatchResult result (λ counts. (value : Value)
        × CheckedAs limits (type_of kind) value (R.remaining src.old) (R.remaining src.new)
        counts.0 counts.1)
        (λ error. Unchecked limits (type_of kind) error (R.remaining src.old) (R.remaining src.new)
        ⊎ Followed limits (type_of kind) error (R.remaining src.old) (R.remaining src.new)) }
    ensures ends { IfOk result (λ _. IsAtEnd (R.remaining src.new)) }
    // A failed read is answered where the source failed, and nowhere else.
    ensures read { MatchResult result (λ _. R.has_failed src.new ≡ false)
        (IsFailedRead (R.has_failed src.new)) }
    ensures frame { R.frame src.new ≡ R.frame src.old }
{
    match kind {
        Kind::Key => check_whole::<R, Boxed<OneAsymmetricKey>>(alloc, src, limits),
        Kind::Ec => check_whole::<R, EcPrivateKey>(alloc, src, limits),
        Kind::Request => check_whole::<R, CertificationRequest>(alloc, src, limits),
        Kind::Public => check_whole::<R, SubjectPublicKeyInfo>(alloc, src, limits),
        Kind::Encrypted => check_whole::<R, EncryptedKey>(alloc, src, limits),
        Kind::Package => check_whole::<R, KeyPackage>(alloc, src, limits),
    }
}
