//! What a report says of a document. Its texts are made of this and of nothing else, so what isn't here no text shows.
//! A place is a number of octets from the start of the file, but where it is said to be inside `privateKey`.
use asn_names::element::Step;
use pkix_shapes::identifiers::Identifier;
use pkix_shapes::shape::{Fields, Shape};
use tlv_core::fault::Fault;
use tlv_core::reason::Reason;
use tlv_core::tag::Tag;

/// The kind of a document, by the words of the program and of the standard.
#[derive(Clone, Copy)]
pub struct KindWords {
    /// As `--kind` has it.
    pub word: &'static str,
    /// The name of its type in ASN.1.
    pub type_name: &'static str,
}

/// What `check` answers.
#[derive(Clone, Copy)]
pub enum Answer {
    Der,
    /// It is sound, and not in DER from this place on.
    NotDer(u64),
    Refused(Fault),
}

/// What length octets say, and how many octets the header has.
#[derive(Clone, Copy)]
pub struct Length {
    /// The octets of the header, identifier and length.
    pub header: u64,
    /// The octets of the contents that they announce. `None` of the indefinite form.
    pub contents: Option<u64>,
}

/// What is shown of contents.
#[derive(Drop)]
pub enum Value {
    /// Of a container, and of what was not read whole: nothing.
    Nothing,
    /// Private: nothing, and not their number either.
    NotShown,
    /// Their number alone.
    Size(u64),
    /// Of a BIT STRING: the number of octets after the first, and of unused bits; of a subjectPublicKey the first one
    /// of these octets, too, where there is one.
    Bits(u64, u8, Option<u8>),
    Null,
    Boolean(bool),
    /// An INTEGER of up to four contents octets that isn't negative.
    Number(u64),
    /// An object identifier that has a usual name.
    Named(&'static Identifier),
    /// Another one, by its arcs in decimal.
    Arcs(String),
    /// A character string, by its octets.
    Characters(Vec<u8>),
    /// The contents octets of what is in an extension.
    Octets(Vec<u8>),
}

/// What octets are that a field carries, as one element of their type and nothing else. (A line has it in place of the
/// `Judgement`, which has room for a fault inside.)
#[derive(Clone, Copy)]
pub enum Carried {
    /// A value, in DER.
    Der,
    /// A value, but not in DER.
    NotDer,
    /// No value, by the fault at this place in them.
    Refused(u64, Reason),
}

/// Why an element isn't in DER (X.690 clauses 10 and 11).
#[derive(Clone, Copy)]
pub enum Cause {
    /// A definite length that isn't in the fewest octets (10.1).
    LongLength,
    /// The indefinite form (10.1).
    IndefiniteLength,
    /// A string in segments (10.2).
    Segments,
    /// A BOOLEAN that is TRUE by another octet than FF (11.1).
    True,
    /// Unused bits that aren't 0 (11.2.1).
    UnusedBits,
    /// A default value that is written out (11.5).
    Default,
    /// Members of a SET OF that aren't in order (11.6).
    Order,
}

/// A line of the listing: an element. Of one that is `Outside` and `NotShown` its place alone is shown.
#[derive(Drop)]
pub struct Line {
    pub at: u64,
    /// The place inside `privateKey`, of what is inside it.
    pub inside: Option<u64>,
    /// How many elements are around it, those around `privateKey` too.
    pub depth: u64,
    /// The number of the line of the element around it, from 0.
    pub around: u64,
    pub step: Step,
    pub type_name: &'static str,
    pub tag: Tag,
    pub constructed: bool,
    /// The first cause why it isn't in DER. (It fills what `constructed` leaves of its eight octets.)
    pub cause: Option<Cause>,
    /// `None` where it isn't shown.
    pub length: Option<Length>,
    /// The place where it ends. `None` where it doesn't, and where that isn't shown.
    pub end: Option<u64>,
    pub value: Value,
    /// Of the value of an extension whose type is known: what its contents are as one of that type.
    pub carries: Option<Carried>,
}

/// What is due where a document is refused.
#[derive(Clone, Copy)]
pub enum Due {
    /// It isn't a matter of type.
    Unsaid,
    /// One of these fields.
    Fields(&'static Fields),
    /// A value of this type.
    Type(&'static Shape),
}

/// An element that is shown of by its header.
#[derive(Clone, Copy)]
pub struct Found {
    pub at: u64,
    pub tag: Tag,
    pub constructed: bool,
    /// `None` where it isn't shown.
    pub length: Option<Length>,
}

/// A container that a fault is about, by its path from the outermost element.
#[derive(Drop)]
pub struct FaultContainer {
    pub path: Vec<Step>,
    pub at: u64,
    /// The place where it ends, of definite length.
    pub end: Option<u64>,
}

/// What is shown of a fault.
#[derive(Drop)]
pub struct Diagnosis {
    /// The place of the fault in the file, also of what is inside `privateKey`. `None` where it has none there.
    pub file_at: Option<u64>,
    /// The path from the outermost element to the field that is refused, or in which something is missing.
    pub path: Vec<Step>,
    /// The number of the line that the fault is at, where it is listed.
    pub line: Option<u64>,
    pub due: Due,
    /// What is there, where it may be shown.
    pub found: Option<Found>,
    /// Of PastEnd: the container whose end the element passes. Of Missing: the one that has ended.
    pub container: Option<FaultContainer>,
    /// Of Truncated and PastEnd: how many octets the element's announced contents have too many.
    pub over: Option<u64>,
    /// Of Trailing: how many octets follow, where that is shown.
    pub more: Option<u64>,
}

/// What the file may be instead: a guess.
#[derive(Clone, Copy)]
pub enum Guess {
    Unknown,
    Empty,
    /// PEM with this label, empty where it isn't a usual one (RFC 7468).
    Pem(&'static str),
    /// The same behind other text.
    PemBehind(&'static str),
    /// PEM that is encrypted as RFC 1421 section 4.6 has it.
    EncryptedPem(&'static str),
    /// A document of this kind, sound.
    Kind(KindWords),
    /// RSAPrivateKey, RSAPublicKey (RFC 8017 A.1.1, A.1.2).
    RsaPrivateKey,
    RsaPublicKey,
    /// A private key of DSA, as OpenSSL wrote it before PKCS #8.
    DsaPrivateKey,
    /// Certificate (RFC 5280 section 4.1).
    Certificate,
    /// PFX (RFC 7292 section 4).
    Pkcs12,
    /// Hexadecimal figures; base64 or base64url without a label (RFC 4648).
    Hexadecimal,
    Base64,
    /// Hexadecimal figures with the places in front, as xxd writes them.
    Dump,
    /// A text in UTF-16; HTML or XML; JSON.
    Utf16,
    Markup,
    Json,
    /// A JWK or a set of them (RFC 7517).
    PrivateJwk,
    PublicJwk,
    /// An RSA key in XML (W3C XML Signature section 4.5.2.2, and as .NET adds the private numbers).
    PrivateRsaXml,
    PublicRsaXml,
    /// A key store of Java, of its own formats.
    JavaKeyStore,
    /// OpenSSH's own format of private keys, decoded; a public key in a line, as SSH has it.
    OpenSshKey,
    SshPublicKey,
    /// A private key of PuTTY or ssh.com; a public key in lines (RFC 4716).
    PuttyKey,
    Ssh2PublicKey,
    /// Octets that were taken for text: each from 80 on written as UTF-8; each of these lost; 0d before each 0a.
    Recoded,
    Replaced,
    TextLines,
}

/// What the octets after a document are.
#[derive(Clone, Copy)]
pub enum After {
    /// It isn't refused for them.
    Unsaid,
    /// 0a alone; 0d 0a alone.
    LineFeed,
    CrLf,
    /// 00 and nothing else.
    Zeros,
    /// Others, where no document of the kind has a private key: the document that they look like.
    Document(Guess),
    /// Others, where one may have.
    NotShown,
}

/// What other standards forbid and pkder carries.
#[derive(Clone, Copy)]
pub enum Remark {
    /// The point of a named curve hasn't the octets of one (RFC 5480 section 2.2): there are so many.
    PointSize(u64),
    /// The point of a curve has unused bits.
    PointBits,
    /// Its first octet is this one, which none of its length has (RFC 5480 section 2.2).
    PointHybrid(u8),
    /// id-ecPublicKey without a named curve (RFC 5480 section 2.1.1).
    NoNamedCurve,
    /// An extension that is there before (RFC 5280 section 4.2).
    ExtensionTwice,
    /// What the extension of this name contains is a value of its type, and not in DER (RFC 5280 section 4.2).
    ExtensionNotDer(Option<&'static Identifier>),
    /// It is a keyUsage whose last bits are 0, which DER leaves out (X.690 11.2.2).
    ExtensionZeroBits(Option<&'static Identifier>),
    /// It is no value of its type, by the fault at this place in it.
    ExtensionRefused(Option<&'static Identifier>, u64, Reason),
    /// An attribute that is there before (RFC 2986 section 4.1).
    AttributeTwice,
    /// An attribute of a single value that has so many (RFC 2985 section 5.4).
    SeveralValues(u64),
    /// A key of another length than its algorithm has (RFC 9881, 9935, 9909): so many octets, and so many are due.
    KeySize(u64, u64),
    /// Parameters beside an algorithm that has none (the same).
    NeedlessParameters,
    /// About a key and what is in it.
    Key(KeyRemark),
    /// About a name.
    Name(NameRemark),
    /// About what the extensions of a request say, or lack.
    Extension(ExtensionRemark),
    /// About an algorithm.
    Algorithm(AlgorithmRemark),
    /// About the value of an attribute in a name.
    Attribute(AttributeRemark),
    /// About what a certificate of a TLS server may not have.
    Tls(TlsRemark),
}

/// What is remarked on a key.
#[derive(Clone, Copy)]
pub enum KeyRemark {
    /// What subjectPublicKey contains is an RSAPublicKey, and not in DER (RFC 3279 section 2.3.1).
    NotDer,
    /// It is no RSAPublicKey, by the fault at this place in it.
    Refused(u64, Reason),
    /// A modulus of RSA below 0, or an even one (RFC 8017 section 3.1).
    NegativeModulus,
    EvenModulus,
    /// A modulus of so many bits, fewer than 2048 (NIST SP 800-131A).
    ShortModulus(u64),
    /// A public exponent of RSA that isn't odd, or is below 3 (RFC 8017 section 3.1).
    Exponent,
    /// A curve of so many bits, fewer than 224 (NIST SP 800-131A).
    SmallCurve(u64),
}

/// What is remarked on a name, of a subject or in an extension.
#[derive(Clone, Copy)]
pub enum NameRemark {
    /// An IP address in subjectAltName that has so many octets (RFC 5280 section 4.2.1.6).
    AddressLength(u64),
    /// A DNS name there that isn't in the preferred name syntax (the same).
    DnsSyntax,
    /// One whose wildcard isn't the whole first label (RFC 9525 section 6.3).
    Wildcard,
    /// A PrintableString with a character that isn't one of its own (X.680 41.4).
    PrintableString,
    /// A character that controls or formats text.
    Hidden,
    /// An rfc822Name there that is no mailbox (RFC 5280 section 4.2.1.6).
    MailSyntax,
    /// A uniformResourceIdentifier there without a scheme, or with nothing after it (the same).
    UriSyntax,
    /// A DNS name there that is an address of IP version 4, for which there is iPAddress (the same).
    AddressAsDns,
    /// A name there that is there before.
    Twice,
}

/// What is remarked on the value of an attribute in a name.
#[derive(Clone, Copy)]
pub enum AttributeRemark {
    /// A countryName that isn't a PrintableString of two characters (RFC 5280 appendix A.1).
    Country,
    /// An emailAddress that isn't an IA5String (the same).
    EmailType,
    /// A value of another type than its attribute has (the same, and section 4.1.2.4).
    OtherType,
    /// A value of so many characters, where its attribute has so many at most (the same).
    Long(u64, u64),
    /// A value in which a reader sees nothing.
    Blank,
}

/// What is remarked on what the attributes and extensions of a request say, or lack.
#[derive(Clone, Copy)]
pub enum ExtensionRemark {
    /// A keyUsage of which no bit is 1 (RFC 5280 section 4.2.1.3).
    NoUsage,
    /// The usage keyCertSign, where no basicConstraints has cA TRUE (the same).
    SignWithoutCa,
    /// A pathLenConstraint, where none has cA TRUE (RFC 5280 section 4.2.1.9).
    PathWithoutCa,
    /// Microsoft's attribute in place of extensionRequest (RFC 2985 section 5.4.2).
    OldRequest,
    /// A subject without an attribute, where no extension is a subjectAltName (RFC 5280 section 4.1.2.6).
    EmptySubject,
    /// No field attributes, which may be empty and may not be absent (RFC 2986 section 4.1).
    NoAttributes,
}

/// What is remarked on an algorithm.
#[derive(Clone, Copy)]
pub enum AlgorithmRemark {
    /// A signature with SHA-1 (NIST SP 800-131A).
    Sha1,
    /// One with MD5 (RFC 6151 section 2).
    Md5,
    /// One with MD2 or MD4.
    OldDigest,
    /// rsaEncryption without parameters, or with others than NULL (RFC 8017 appendix A.1, RFC 3279 section 2.3.1).
    NoNull,
    /// A signature that the key in the request can't make (RFC 2986 section 3).
    AnotherKey,
}

/// What is remarked on what the Baseline Requirements of the CA/Browser Forum say of certificates for TLS servers.
#[derive(Clone, Copy)]
pub enum TlsRemark {
    /// A modulus of RSA of so many bits, fewer than 2048 or not divided by 8 (section 6.1.5).
    ModulusBits(u64),
    /// A public exponent of RSA that isn't from 65537 up to 2^256 - 1 (section 6.1.6).
    Exponent,
    /// A curve that isn't P-256, P-384 or P-521 (section 6.1.5).
    Curve,
    /// A key that is neither rsaEncryption nor id-ecPublicKey (section 7.1.3.1).
    KeyAlgorithm,
    /// A commonName that isn't one of the names in subjectAltName (section 7.1.4.3).
    CommonName,
    /// A DNS name of one label, or under one that isn't in the public DNS (section 7.1.2.7.12).
    InternalName,
    /// An IP address that isn't one of the Internet's (the same).
    ReservedAddress,
    /// The usage anyExtendedKeyUsage (section 7.1.2.7.10).
    AnyUsage,
    /// A subjectAltName that isn't critical, where the subject is empty (RFC 5280 section 4.2.1.6).
    NamesNotCritical,
}

/// A remark, and the number of the line that it is about.
#[derive(Clone, Copy)]
pub struct Note {
    pub line: u64,
    pub remark: Remark,
}

/// What is reported of a document.
#[derive(Drop)]
pub struct Report {
    pub kind: KindWords,
    /// How many octets the file has; one more than the limit where it has more than that.
    pub octets: u64,
    /// Where the outermost element ends by its length, whether the file reaches so far or not.
    pub announced: Option<u64>,
    pub answer: Answer,
    pub lines: Vec<Line>,
    /// Of a document that is refused.
    pub diagnosis: Option<Diagnosis>,
    pub guess: Guess,
    pub after: After,
    /// Of a document that is accepted.
    pub notes: Vec<Note>,
    /// The same: how many bits the first modulus of an RSA key in it has.
    pub modulus: Option<u64>,
}
