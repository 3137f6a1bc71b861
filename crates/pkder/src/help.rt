//! What help says after the options.

/// A command, as far as help has a text of it.
#[derive(Clone, Copy)]
pub enum Topic {
    Check,
    Explain,
    Show,
    Same,
    Normalise,
    Signed,
}

impl Topic {
    /// What help says of it after its options.
    pub fn text(self) -> &'static str {
        match self {
            Topic::Check => CHECK,
            Topic::Explain => EXPLAIN,
            Topic::Show => SHOW,
            Topic::Same => SAME,
            Topic::Normalise => NORMALISE,
            Topic::Signed => SIGNED,
        }
    }
}

pub const PROGRAM: &str = "\
Kinds, by the line that their PEM files begin with:
  key        BEGIN PRIVATE KEY: PKCS #8, RFC 5958 (or pkcs8)
  ec         BEGIN EC PRIVATE KEY: RFC 5915 (or sec1)
  request    BEGIN CERTIFICATE REQUEST, BEGIN NEW CERTIFICATE REQUEST:
             PKCS #10, RFC 2986 (or csr, pkcs10)
  public     BEGIN PUBLIC KEY: SubjectPublicKeyInfo, RFC 5280 (or spki)
  encrypted  BEGIN ENCRYPTED PRIVATE KEY: RFC 5958, and not decrypted
  package    none: AsymmetricKeyPackage, RFC 5958, private keys in a row
PEM itself is not read: decode what stands between its two lines from base64.

Exit statuses, of several files the greatest:
  0  done; of check and explain: in DER; of same: the same
  1  of check and explain: not in DER; of same: not the same
  2  refused: 'fault at PLACE: REASON', the place an octet counted from 0
  3  reading or writing failed, or memory ran out
  4  the command line is refused
  5  of check --refuse: a note has the level must

Say what a request is, and what a reason means:
  pkder show --kind request request.der
  pkder help reasons";

/// What the option `--profile` does.
pub const PROFILE: &str = "\
with the notes of what a certificate of a TLS
server may not have (Baseline Requirements of the
CA/Browser Forum): tls";

const CHECK: &str = "\
It says 'DER', 'not DER at PLACE' (status 1) or 'fault at PLACE: REASON'
(status 2), of a file after its name. Kinds and statuses: pkder help.

With --any in the place of --kind the kind that accepts it stands in front, as
'request: DER'. Where no kind does, it is 'none of these' (status 2), and after
that the likely kind, which the first elements name, with its fault.

With --notes lines 'note LEVEL CODE PATH: WORDS' come after that, of what is
not refused: LEVEL is must where another standard forbids what stands at PATH,
and should where one advises against it. With --refuse must the status is 5
where there is a note of that level. With --profile tls there are notes as
with --notes, and those for TLS servers after them.

  pkder check --kind request --refuse must request.der
  pkder check --kind request --refuse tls request.der";

const EXPLAIN: &str = "\
The report has no octets of private keys and no values of attributes. It is
written of a document that is refused, too. Kinds and statuses: pkder help.

  pkder explain --kind request request.der
  pkder explain --kind request --profile tls request.der";

const SHOW: &str = "\
It shows all that is in the document but private octets, as the
challengePassword of a request. Kinds and statuses: pkder help.

  pkder show --kind request request.der";

const SAME: &str = "\
It says 'the same document', or 'another document:' (status 1) and the fields
that differ, with what each has there; of what is private the number of octets
alone. A document that is refused (status 2) is never the same as another.

With --key it says of kinds key and ec whether they hold the same private key:
its algorithm, curve and private octets, or the modulus and publicExponent of
RSA. A second --kind is that of OTHER. Not the same means other octets: nothing
is computed, and no public key is held against its private one.

  pkder same --kind request request.der new.der
  pkder same --key --kind key --kind ec key.der ec.der";

const NORMALISE: &str = "\
It is binary, and private where the document is: send it to a file, and never
by > into the one that is read. Kinds and statuses: pkder help.

  pkder normalise --kind key key.der > new.der";

const SIGNED: &str = "\
Parts of a request (RFC 2986 section 4), all of them binary:
  info       what the signature covers: certificationRequestInfo in DER
  algorithm  signatureAlgorithm in DER
  key        subjectPKInfo in DER, the public key
  signature  the octets of the signature, without the number of unused bits
  received   certificationRequestInfo as it came, which some signers sign
No signature is verified. Statuses: pkder help.

  pkder signed --part signature request.der > signature";

/// What `help reasons` says. Its lines are those of the man page, which tools/pages/advice_words.py sees.
pub const REASONS: &str = "\
What the reason means in 'fault at PLACE: REASON'. PLACE is an octet counted
from 0: where the element begins that is refused, or where the field should
begin (Missing), or where the octets or the document end (Truncated, Trailing).

  BadBits      a BIT STRING without its first octet, or with wrong unused bits
  BadBoolean   a BOOLEAN that hasn't just one octet
  BadEnd       an octet 00 where an element should begin
  BadInteger   a number of no octets, or with a needless octet at its front
  BadLength    a length FF, or an indefinite one of something primitive
  BadNull      a NULL that has octets
  BadOid       an invalid object identifier
  BadTag       an identifier that no element has
  BadText      a UTF8String that isn't UTF-8
  Curve        two curves that differ are named
  EmptySet     a SET of no members that has to have one
  Extra        an element after the last field
  Inner        what is inside privateKey isn't the key of the algorithm
  KeyLength    a key that hasn't the length of its curve
  LeftOut      a type that isn't read where any type may stand
  Missing      the end of an element where a field is due
  Parameters   parameters that the algorithm may not have, or no named curve
  PastEnd      an element that ends after the one that it is in
  TextTooLong  a DER text of more octets than --octets
  TooDeep      more nesting than --depth
  TooLong      more octets than --octets
  Trailing     octets after the document
  Truncated    the end of the input within the document
  Version      a version that the kind doesn't have
  VersionRule  a version that doesn't go with the fields
  WrongForm    primitive in place of constructed, or the other way round
  WrongTag     another type than is due; at 0 often PEM, or another kind

What causes each, and what to do about it: pkder explain --kind KIND FILE
";
