//! One document in, its DER text out.
ghost use Rattle.std.specs.Prelude.{◌≡◌, IfErr, IfOk, false};
ghost use Rattle.std.specs.Io.KnownBytes.{IsAtEnd};
ghost use Rattle.x690.specs.Values.{Value};
ghost use Rattle.asn_documents.specs.Normalised.{Failures, IsRead, NormalisedAs, RefusedAs};
ghost use Rattle.asn_documents.specs.WholeInputs.{RefusedWhole};
ghost use Rattle.pk_documents.specs.Kinds.{type_of};

use crate::kind::Kind;
pub use asn_documents::normalise::NormaliseError;
use asn_documents::normalise::normalise_value;
use asn_documents::whole::normalise_whole;
use asn_elements::boxed::Boxed;
use pkcs8::encrypted_key::EncryptedKey;
use pkcs8::key_package::KeyPackage;
use pkcs8::one_asymmetric_key::OneAsymmetricKey;
use pkcs10::request::CertificationRequest;
use pkix_values::public_key::SubjectPublicKeyInfo;
use private_keys::ec_private_key::EcPrivateKey;
use std::alloc::Global;
use tlv_core::limits::Limits;
use tlv_core::source::Source;
use tlv_core::target::Target;

/// Reads one document and writes its DER text; answers the octets taken and the octets written. No memory is taken but
/// for the document.
#[tactic(auto, using(crate::proofs::LawfulKinds::lawful_types))]
pub fn normalise<R: Source, W: Target>(
    alloc: Global,
    src: &mut R,
    dst: &mut W,
    kind: Kind,
    limits: Limits,
) -> Result<(u64, u64), NormaliseError>
    requires readable { R.has_failed src.old ≡ false }
    requires writable { W.has_failed dst.old ≡ false }
    // The octets taken spell one value, and its DER text was written: see the record's fields.
    ensures normalised { IfOk result (λ counts. (value : Value)
        × NormalisedAs limits (type_of kind) value (R.remaining src.old) (R.remaining src.new)
        (W.contents dst.old) (W.contents dst.new) counts.0 counts.1) }
    ensures refused { IfErr result (λ error. RefusedAs limits (type_of kind) error
        (R.remaining src.old) (R.remaining src.new) (W.contents dst.old) (W.contents dst.new)) }
    // Nothing is written of what wasn't read.
    ensures unwritten { IfErr result (λ error. IsRead error → dst.new ≡ dst.old) }
    // A failed read or write is answered where the source or the target failed, and nowhere else.
    ensures failed { Failures result (R.has_failed src.new) (W.has_failed dst.new) }
    ensures frame { R.frame src.new ≡ R.frame src.old }
{
    match kind {
        // (a key is the largest of them: in a box it is handed up as a pointer)
        Kind::Key => normalise_value::<R, W, Boxed<OneAsymmetricKey>>(alloc, src, dst, limits),
        Kind::Ec => normalise_value::<R, W, EcPrivateKey>(alloc, src, dst, limits),
        Kind::Request => normalise_value::<R, W, CertificationRequest>(alloc, src, dst, limits),
        Kind::Public => normalise_value::<R, W, SubjectPublicKeyInfo>(alloc, src, dst, limits),
        Kind::Encrypted => normalise_value::<R, W, EncryptedKey>(alloc, src, dst, limits),
        Kind::Package => normalise_value::<R, W, KeyPackage>(alloc, src, dst, limits),
    }
}

/// `normalise` where the document has to be all of the input: one octet more is asked for, and only then something is
/// written.
#[tactic(auto, using(crate::proofs::LawfulKinds::lawful_types))]
pub fn normalise_whole_document<R: Source, W: Target>(
    alloc: Global,
    src: &mut R,
    dst: &mut W,
    kind: Kind,
    limits: Limits,
) -> Result<(u64, u64), NormaliseError>
    requires readable { R.has_failed src.old ≡ false }
    requires writable { W.has_failed dst.old ≡ false }
    ensures normalised { IfOk result (λ counts. (value : Value)
        × NormalisedAs limits (type_of kind) value (R.remaining src.old) (R.remaining src.new)
        (W.contents dst.old) (W.contents dst.new) counts.0 counts.1) }
    ensures ends { IfOk result (λ _. IsAtEnd (R.remaining src.new)) }
    ensures refused { IfErr result (λ error. RefusedWhole limits (type_of kind) error
        (R.remaining src.old) (R.remaining src.new) (W.contents dst.old) (W.contents dst.new)) }
    // Nothing is written of what isn't all of the input.
    ensures unwritten { IfErr result (λ error. IsRead error → dst.new ≡ dst.old) }
    ensures failed { Failures result (R.has_failed src.new) (W.has_failed dst.new) }
    ensures frame { R.frame src.new ≡ R.frame src.old }
{
    match kind {
        Kind::Key => normalise_whole::<R, W, Boxed<OneAsymmetricKey>>(alloc, src, dst, limits),
        Kind::Ec => normalise_whole::<R, W, EcPrivateKey>(alloc, src, dst, limits),
        Kind::Request => normalise_whole::<R, W, CertificationRequest>(alloc, src, dst, limits),
        Kind::Public => normalise_whole::<R, W, SubjectPublicKeyInfo>(alloc, src, dst, limits),
        Kind::Encrypted => normalise_whole::<R, W, EncryptedKey>(alloc, src, dst, limits),
        Kind::Package => normalise_whole::<R, W, KeyPackage>(alloc, src, dst, limits),
    }
}
