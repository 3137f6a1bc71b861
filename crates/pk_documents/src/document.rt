//! One document of a kind: what it is, read from any source, written to any target.
ghost use Rattle.std.specs.Prelude.{◌≡◌, ◌↔◌, ◌⊎◌, IfOk, IsTrue, MatchResult, false};
ghost use Rattle.std.specs.Io.KnownBytes.{IsAtEnd};
ghost use Rattle.x690.specs.DerTexts.{der};
ghost use Rattle.x690.specs.Premises.{Lawful};
ghost use Rattle.x690.specs.TypeTerms.{TypeTerm};
ghost use Rattle.x690.specs.Values.{Same, Value};
ghost use Rattle.asn_elements.specs.Whole.{IsFailedRead};
ghost use Rattle.asn_documents.specs.Checked.{Unchecked};
ghost use Rattle.asn_documents.specs.ReadValues.{ReadsValue};
ghost use Rattle.asn_documents.specs.WholeInputs.{Followed};
ghost use Rattle.asn_documents.specs.WrittenValues.{WritesText};
ghost use Rattle.pk_documents.specs.Documents.{kind_of, value_by};
ghost use Rattle.pk_documents.specs.Kinds.{type_of};
ghost use Rattle.pk_documents.specs.declared.kind.Kind.TheVariants as kinds;
ghost use Rattle.pkix_definitions.proofs.LawfulTypes.{ec_key, encrypted_key, key, key_package, public_key_info};
ghost use Rattle.pkix_definitions.proofs.LawfulTypes.{request};

use crate::kind::Kind;
use asn_documents::value::{read_value, write_value};
use asn_documents::whole::read_whole_input;
use asn_elements::der_text::DerText;
use asn_elements::element::Element;
use pkcs8::encrypted_key::EncryptedKey;
use pkcs8::key_package::KeyPackage;
use pkcs8::one_asymmetric_key::OneAsymmetricKey;
use pkcs10::request::CertificationRequest;
use pkix_values::public_key::SubjectPublicKeyInfo;
use private_keys::ec_private_key::EcPrivateKey;
use std::alloc::Global;
use tlv_core::fault::ReadError;
use tlv_core::limits::Limits;
use tlv_core::sink::WriteError;
use tlv_core::source::Source;
use tlv_core::target::Target;

/// What is a value.
pub trait Valued {
    /// The value.
    ghost value: { Self → Value };
}

/// A document, with its value.
#[derive(Drop)]
pub enum Document {
    /// A private key.
    Key(OneAsymmetricKey),
    /// An EC private key by itself.
    Ec(EcPrivateKey),
    /// A certification request.
    Request(CertificationRequest),
    /// A public key.
    Public(SubjectPublicKeyInfo),
    /// An encrypted private key.
    Encrypted(EncryptedKey),
    /// Private keys, at least one.
    Package(KeyPackage),
}

impl Valued for Document {
    ghost value = { λ document. value_by ⟦<OneAsymmetricKey as DerText>⟧.value
        ⟦<EcPrivateKey as DerText>⟧.value ⟦<CertificationRequest as DerText>⟧.value
        ⟦<SubjectPublicKeyInfo as DerText>⟧.value ⟦<EncryptedKey as DerText>⟧.value
        ⟦<KeyPackage as DerText>⟧.value document };
}

impl Document {
    /// What it is.
    pub fn kind(&self) -> Kind
        ensures { result ≡ kind_of self.now }
    {
        match self {
            Document::Key(_) => Kind::Key,
            Document::Ec(_) => Kind::Ec,
            Document::Request(_) => Kind::Request,
            Document::Public(_) => Kind::Public,
            Document::Encrypted(_) => Kind::Encrypted,
            Document::Package(_) => Kind::Package,
        }
    }

    /// Whether the two are of one kind, and the same.
    pub fn same(&self, other: &Document) -> bool
        ensures { IsTrue result ↔ ((kind_of self.now ≡ kind_of other.now)
            × Same (⟦<Document as Valued>⟧.value self.now)
            (⟦<Document as Valued>⟧.value other.now)) }
    {
        match (self, other) {
            (Document::Key(key), Document::Key(other)) => key.same(other),
            (Document::Ec(key), Document::Ec(other)) => key.same(other),
            (Document::Request(request), Document::Request(other)) => request.same(other),
            (Document::Public(key), Document::Public(other)) => key.same(other),
            (Document::Encrypted(key), Document::Encrypted(other)) => key.same(other),
            (Document::Package(keys), Document::Package(other)) => keys.same(other),
            _ => false,
        }
    }
}

/// A type that the documents of a kind are of. (It isn't an `Element` by itself: the toolchain states no `impl` of a
/// trait above another one for a SEQUENCE of certain fields, as long as these own memory.)
trait DocumentOf {
    ghost use Rattle.pk_documents.specs.declared.kind.Kind.{Kind};

    /// The kind.
    ghost kind: { Kind };

    /// Its type, and what one of it stands for.
    ghost term: { TypeTerm };

    ghost stands_for: { Self → Value };

    /// The document that it is.
    fn document(self) -> Document
        ensures value { ⟦<Document as Valued>⟧.value result ≡ stands_for self }
        ensures kind { kind_of result ≡ kind };

    /// Its rules are as the laws ask.
    ghost lawful: { Lawful term };
}

impl DocumentOf for OneAsymmetricKey {
    ghost kind = { kinds.Key };

    ghost term = { ⟦<OneAsymmetricKey as Element>⟧.type_term };

    ghost stands_for = { ⟦<OneAsymmetricKey as DerText>⟧.value };

    ghost lawful = { key };

    fn document(self) -> Document {
        Document::Key(self)
    }
}

impl DocumentOf for EcPrivateKey {
    ghost kind = { kinds.Ec };

    ghost term = { ⟦<EcPrivateKey as Element>⟧.type_term };

    ghost stands_for = { ⟦<EcPrivateKey as DerText>⟧.value };

    ghost lawful = { ec_key };

    fn document(self) -> Document {
        Document::Ec(self)
    }
}

impl DocumentOf for CertificationRequest {
    ghost kind = { kinds.Request };

    ghost term = { ⟦<CertificationRequest as Element>⟧.type_term };

    ghost stands_for = { ⟦<CertificationRequest as DerText>⟧.value };

    ghost lawful = { request };

    fn document(self) -> Document {
        Document::Request(self)
    }
}

impl DocumentOf for SubjectPublicKeyInfo {
    ghost kind = { kinds.Public };

    ghost term = { ⟦<SubjectPublicKeyInfo as Element>⟧.type_term };

    ghost stands_for = { ⟦<SubjectPublicKeyInfo as DerText>⟧.value };

    ghost lawful = { public_key_info };

    fn document(self) -> Document {
        Document::Public(self)
    }
}

impl DocumentOf for EncryptedKey {
    ghost kind = { kinds.Encrypted };

    ghost term = { ⟦<EncryptedKey as Element>⟧.type_term };

    ghost stands_for = { ⟦<EncryptedKey as DerText>⟧.value };

    ghost lawful = { encrypted_key };

    fn document(self) -> Document {
        Document::Encrypted(self)
    }
}

impl DocumentOf for KeyPackage {
    ghost kind = { kinds.Package };

    ghost term = { ⟦<KeyPackage as Element>⟧.type_term };

    ghost stands_for = { ⟦<KeyPackage as DerText>⟧.value };

    ghost lawful = { key_package };

    fn document(self) -> Document {
        Document::Package(self)
    }
}

/// Reads one document, and answers it with the number of octets taken; not one octet past it is taken.
///
/// Faults: the first one that the octets have as a document of the kind, and last of all `TextTooLong` at place 0,
/// where the DER text of the document is longer than the limit of octets.
pub fn read_document<R: Source>(
    alloc: Global,
    src: &mut R,
    kind: Kind,
    limits: Limits,
) -> Result<(Document, u64), ReadError>
    requires { R.has_failed src.old ≡ false }
    // What was taken spells the document; a fault is the answer to the octets told, which begin with no spelling; where
    // a read failed, the octets before are too few.
    ensures reads { MatchResult result (λ read. ReadsValue limits (type_of kind)
        (⟦<Document as Valued>⟧.value read.0) (R.remaining src.old) (R.remaining src.new) read.1)
        (λ error. Unchecked limits (type_of kind) error (R.remaining src.old)
        (R.remaining src.new)) }
    ensures kind { IfOk result (λ read. kind_of read.0 ≡ kind) }
    // A failed read is answered where the source failed, and nowhere else.
    ensures read { MatchResult result (λ _. R.has_failed src.new ≡ false)
        (IsFailedRead (R.has_failed src.new)) }
    ensures frame { R.frame src.new ≡ R.frame src.old }
{
    match kind {
        Kind::Key => read_as::<R, OneAsymmetricKey>(alloc, src, limits),
        Kind::Ec => read_as::<R, EcPrivateKey>(alloc, src, limits),
        Kind::Request => read_as::<R, CertificationRequest>(alloc, src, limits),
        Kind::Public => read_as::<R, SubjectPublicKeyInfo>(alloc, src, limits),
        Kind::Encrypted => read_as::<R, EncryptedKey>(alloc, src, limits),
        Kind::Package => read_as::<R, KeyPackage>(alloc, src, limits),
    }
}

/// `read_document` where the document has to be all of the input: one octet more is asked for.
///
/// Faults: those of `read_document`; `Trailing` at the first octet after the document.
pub fn read_whole_document<R: Source>(
    alloc: Global,
    src: &mut R,
    kind: Kind,
    limits: Limits,
) -> Result<(Document, u64), ReadError>
    requires { R.has_failed src.old ≡ false }
    ensures reads { MatchResult result (λ read. ReadsValue limits (type_of kind)
        (⟦<Document as Valued>⟧.value read.0) (R.remaining src.old) (R.remaining src.new) read.1)
        (λ error. Unchecked limits (type_of kind) error (R.remaining src.old) (R.remaining src.new)
        ⊎ Followed limits (type_of kind) error (R.remaining src.old) (R.remaining src.new)) }
    ensures ends { IfOk result (λ _. IsAtEnd (R.remaining src.new)) }
    ensures kind { IfOk result (λ read. kind_of read.0 ≡ kind) }
    // A failed read is answered where the source failed, and nowhere else.
    ensures read { MatchResult result (λ _. R.has_failed src.new ≡ false)
        (IsFailedRead (R.has_failed src.new)) }
    ensures frame { R.frame src.new ≡ R.frame src.old }
{
    match kind {
        Kind::Key => read_whole_as::<R, OneAsymmetricKey>(alloc, src, limits),
        Kind::Ec => read_whole_as::<R, EcPrivateKey>(alloc, src, limits),
        Kind::Request => read_whole_as::<R, CertificationRequest>(alloc, src, limits),
        Kind::Public => read_whole_as::<R, SubjectPublicKeyInfo>(alloc, src, limits),
        Kind::Encrypted => read_whole_as::<R, EncryptedKey>(alloc, src, limits),
        Kind::Package => read_whole_as::<R, KeyPackage>(alloc, src, limits),
    }
}

/// Writes the DER text of a document, and answers its length in octets. No memory is taken.
///
/// Where the writer fails, the first octets of the text are out, as many as the error tells.
pub fn write_document<W: Target>(document: &Document, dst: &mut W) -> Result<u64, WriteError>
    requires { W.has_failed dst.old ≡ false }
    ensures { WritesText (der (⟦<Document as Valued>⟧.value document.now)) (W.contents dst.old)
        (W.contents dst.new) (W.has_failed dst.new) result }
{
    match document {
        Document::Key(key) => write_value(key, dst),
        Document::Ec(key) => write_value(key, dst),
        Document::Request(request) => write_value(request, dst),
        Document::Public(key) => write_value(key, dst),
        Document::Encrypted(key) => write_value(key, dst),
        Document::Package(keys) => write_value(keys, dst),
    }
}

fn read_as<R: Source, T: DocumentOf + Element>(
    alloc: Global,
    src: &mut R,
    limits: Limits,
) -> Result<(Document, u64), ReadError>
    requires live { R.has_failed src.old ≡ false }
    requires term { T.Element.type_term ≡ T.DocumentOf.term }
    requires stands_for { (x : T) → T.DerText.value x ≡ T.DocumentOf.stands_for x }
    ensures reads { MatchResult result (λ read. ReadsValue limits T.Element.type_term
        (⟦<Document as Valued>⟧.value read.0) (R.remaining src.old) (R.remaining src.new) read.1)
        (λ error. Unchecked limits T.Element.type_term error (R.remaining src.old)
        (R.remaining src.new)) }
    ensures kind { IfOk result (λ read. kind_of read.0 ≡ T.DocumentOf.kind) }
    ensures read { MatchResult result (λ _. R.has_failed src.new ≡ false)
        (IsFailedRead (R.has_failed src.new)) }
    ensures frame { R.frame src.new ≡ R.frame src.old }
{
    let (value, taken) = match read_value::<R, T>(alloc, src, limits) {
        Ok(read) => read,
        Err(error) => return Err(error),
    };
    Ok((value.document(), taken))
}

fn read_whole_as<R: Source, T: DocumentOf + Element>(
    alloc: Global,
    src: &mut R,
    limits: Limits,
) -> Result<(Document, u64), ReadError>
    requires live { R.has_failed src.old ≡ false }
    requires term { T.Element.type_term ≡ T.DocumentOf.term }
    requires stands_for { (x : T) → T.DerText.value x ≡ T.DocumentOf.stands_for x }
    ensures reads { MatchResult result (λ read. ReadsValue limits T.Element.type_term
        (⟦<Document as Valued>⟧.value read.0) (R.remaining src.old) (R.remaining src.new) read.1)
        (λ error. Unchecked limits T.Element.type_term error (R.remaining src.old) (R.remaining src.new)
        ⊎ Followed limits T.Element.type_term error (R.remaining src.old) (R.remaining src.new)) }
    ensures ends { IfOk result (λ _. IsAtEnd (R.remaining src.new)) }
    ensures kind { IfOk result (λ read. kind_of read.0 ≡ T.DocumentOf.kind) }
    ensures read { MatchResult result (λ _. R.has_failed src.new ≡ false)
        (IsFailedRead (R.has_failed src.new)) }
    ensures frame { R.frame src.new ≡ R.frame src.old }
{
    let (value, taken) = match read_whole_input::<R, T>(alloc, src, limits) {
        Ok(read) => read,
        Err(error) => return Err(error),
    };
    Ok((value.document(), taken))
}
