//! What a file looks like that isn't what was asked for, and what to do with it.
ghost use Rattle.std.specs.Prelude.{◌≡◌, ◌++◌, OnOk, map, string_bytes};
ghost use Rattle.reports.specs.Guesses.{act_name, act_words, guess_act, guess_name, guess_said, guess_words, is_among};
ghost use Rattle.reports.specs.Guesses.{form_act, key_act, labelled, labelled_behind};
ghost use Rattle.reports.specs.Guesses.{is_lost_kind, is_lost_label, other_act, pem_act, private_act, lost_or};

use crate::report::Guess;
use std::alloc::AllocError;

/// Labels of private keys that are of no kind (common tools).
pub const PRIVATE_LABELS: &[&str] = &[
    "RSA PRIVATE KEY",
    "DSA PRIVATE KEY",
    "OPENSSH PRIVATE KEY",
    "SM2 PRIVATE KEY",
];

/// Labels of certificates (RFC 7468 section 5.1, and OpenSSL's).
pub const CERTIFICATE_LABELS: &[&str] = &["CERTIFICATE", "X509 CERTIFICATE", "TRUSTED CERTIFICATE"];

/// The label of RSAPublicKey (RFC 8017 A.1.1).
pub const PUBLIC_LABELS: &[&str] = &["RSA PUBLIC KEY"];

/// Labels of what pkder doesn't read, and nothing makes a kind of (RFC 7468 sections 6 to 9, RFC 9580 section 6.2).
pub const UNREAD_LABELS: &[&str] = &[
    "X509 CRL",
    "PKCS7",
    "CMS",
    "ATTRIBUTE CERTIFICATE",
    "EC PARAMETERS",
    "DH PARAMETERS",
    "DSA PARAMETERS",
    "TSS2 PRIVATE KEY",
    "PGP PRIVATE KEY BLOCK",
    "PGP PUBLIC KEY BLOCK",
    "PGP MESSAGE",
];

/// What the file looks like.
#[tactic(auto, unfolding(crate::specs::Guesses::guess_said))]
pub(crate) fn push_guess(text: &mut String, guess: Guess) -> Result<(), AllocError>
    ensures { OnOk result (string_bytes text.new ≡ string_bytes text.old ++ guess_said guess) }
{
    text.push_str(guess_words(guess))?;
    text.push_str(guess_name(guess))
}

/// What the file looks like, but for the label or the kind.
#[tactic(auto, unfolding(crate::specs::Guesses::guess_words))]
fn guess_words(guess: Guess) -> &'static str
    ensures { result.now ≡ guess_words guess }
{
    match guess {
        Guess::Unknown => "",
        Guess::Empty => "the file is empty",
        Guess::Pem(label) => labelled(label),
        Guess::PemBehind(label) => labelled_behind(label),
        Guess::EncryptedPem(_) => "this is PEM, encrypted in an old form",
        Guess::Kind(_) => "this is a document of kind ",
        Guess::RsaPrivateKey => "this is an RSAPrivateKey (PKCS #1)",
        Guess::RsaPublicKey => "this is an RSAPublicKey (PKCS #1)",
        Guess::DsaPrivateKey => "this is a DSA private key in its old form",
        Guess::Certificate => "this is a certificate",
        Guess::Pkcs12 => "this is a PKCS #12 file",
        Guess::Hexadecimal => "this is hexadecimal",
        Guess::Base64 => "this is base64",
        Guess::Dump => "this is a dump by xxd",
        Guess::Utf16 => "this is a text in UTF-16",
        Guess::Markup => "this is HTML or XML",
        Guess::Json => "this is JSON",
        Guess::PrivateJwk => "this is a private key as JSON has it (JWK)",
        Guess::PublicJwk => "this is a public key as JSON has it (JWK)",
        Guess::PrivateRsaXml => "this is a private key of RSA in XML",
        Guess::PublicRsaXml => "this is a public key of RSA in XML",
        Guess::JavaKeyStore => "this is a key store of Java (JKS or JCEKS)",
        Guess::OpenSshKey => "this is a private key in OpenSSH's own format",
        Guess::SshPublicKey => "this is a public key as SSH has it",
        Guess::PuttyKey => "this is a private key of PuTTY or ssh.com",
        Guess::Ssh2PublicKey => "this is a public key in lines of SSH2 (RFC 4716)",
        Guess::Recoded => "octets that were taken for text: those from 80 on were written as UTF-8",
        Guess::Replaced => "octets that were taken for text: those from 80 on are lost",
        Guess::TextLines => "octets that were taken for text: before each 0a stands a 0d",
    }
}

/// PEM of this label, where it is a usual one.
fn labelled(label: &str) -> &'static str
    ensures { result.now ≡ labelled label.now }
{
    if label.is_empty() {
        "this is PEM, with a label that isn't a usual one"
    } else {
        "this is PEM, labelled "
    }
}

/// The same behind other text.
fn labelled_behind(label: &str) -> &'static str
    ensures { result.now ≡ labelled_behind label.now }
{
    if label.is_empty() {
        "this is PEM behind other text, with a label that isn't a usual one"
    } else {
        "this is PEM behind other text, labelled "
    }
}

/// The label of PEM, or the word of a kind.
#[tactic(auto, unfolding(crate::specs::Guesses::guess_name))]
fn guess_name(guess: Guess) -> &'static str
    ensures { result.now ≡ guess_name guess }
{
    match guess {
        Guess::Pem(label) | Guess::PemBehind(label) => label,
        Guess::Kind(kind) => kind.word,
        _ => "",
    }
}

/// What to do with a file that looks so, where a document of this kind was wanted.
#[tactic(auto, unfolding(crate::specs::Guesses::guess_act))]
pub(crate) fn push_guess_act(text: &mut String, kind: &str, guess: Guess) -> Result<(), AllocError>
    ensures { OnOk result (string_bytes text.new ≡ string_bytes text.old ++ guess_act kind.now guess) }
{
    text.push_str(act_words(kind, guess))?;
    text.push_str(act_name(kind, guess))
}

/// But for the word of another kind.
fn act_words(kind: &str, guess: Guess) -> &'static str
    ensures { result.now ≡ act_words kind.now guess }
{
    match guess {
        Guess::Pem(label) | Guess::PemBehind(label) => pem_act(kind, label),
        Guess::EncryptedPem(label) => lost_or(
            is_lost_label(kind, label),
            "openssl pkcs8 -topk8 -in FILE -outform DER asks for its password, and makes it kind \
                encrypted",
        ),
        Guess::Kind(other) => lost_or(is_lost_kind(kind, other.word), "read it with --kind "),
        Guess::Certificate if kind == "request" => "send the request that it was made of",
        _ => other_act(kind, guess),
    }
}

/// The word of another kind, which it is to be read as.
fn act_name(kind: &str, guess: Guess) -> &'static str
    ensures { result.now ≡ act_name kind.now guess }
{
    match guess {
        Guess::Kind(other) => {
            if is_lost_kind(kind, other.word) {
                ""
            } else {
                other.word
            }
        }
        _ => "",
    }
}

/// But for PEM and other kinds.
#[tactic(auto, unfolding(crate::specs::Guesses::other_act))]
fn other_act(kind: &str, guess: Guess) -> &'static str
    ensures { result.now ≡ other_act kind.now guess }
{
    match guess {
        Guess::RsaPrivateKey
        | Guess::DsaPrivateKey
        | Guess::PrivateJwk
        | Guess::PrivateRsaXml
        | Guess::OpenSshKey
        | Guess::PuttyKey => lost_or(kind == "request", key_act(guess)),
        _ => form_act(guess),
    }
}

/// With a private key of another form.
#[tactic(auto, unfolding(crate::specs::Guesses::key_act))]
fn key_act(guess: Guess) -> &'static str
    ensures { result.now ≡ key_act guess }
{
    match guess {
        Guess::RsaPrivateKey | Guess::DsaPrivateKey =>
            "openssl pkcs8 -topk8 -nocrypt -inform DER -in FILE -outform DER makes it PKCS #8",
        Guess::PrivateJwk => {
            "node -p 'crypto.createPrivateKey({key: JSON.parse(fs.readFileSync(\"FILE\")), format: \"jwk\"})\
                .export({type: \"pkcs8\", format: \"pem\"})' writes it in PEM; jq '.keys[0]' FILE \
                writes the first of a set of them"
        }
        Guess::PrivateRsaXml =>
            "have it written in PEM by a program that reads this form, as .NET and phpseclib do",
        Guess::OpenSshKey => "take the file that begins with -----BEGIN",
        Guess::PuttyKey => {
            "puttygen FILE -O private-openssh -o NEW writes it in PEM; go on by the first line of that"
        }
        _ => "",
    }
}

/// What goes by what the file looks like alone.
#[tactic(auto, unfolding(crate::specs::Guesses::form_act))]
fn form_act(guess: Guess) -> &'static str
    ensures { result.now ≡ form_act guess }
{
    match guess {
        Guess::Empty => "fetch it again",
        Guess::RsaPublicKey => {
            "openssl rsa -RSAPublicKey_in -inform DER -in FILE -pubout -outform DER makes it kind public"
        }
        Guess::Certificate =>
            "openssl x509 -inform DER -in FILE -pubkey -noout writes its public key",
        Guess::Pkcs12 => {
            "openssl pkcs12 -nodes -nocerts -in FILE writes its private key, with -legacy that of an \
                old file"
        }
        Guess::Hexadecimal => "xxd -r -p FILE writes its octets",
        Guess::Dump => "xxd -r FILE writes its octets",
        Guess::Base64 => {
            "tr _- /+ < FILE | base64 -d writes its octets; where padding is left out, as base64url \
                does, it ends with 'invalid input' after them"
        }
        Guess::Utf16 => "iconv -f UTF-16 -t UTF-8 FILE writes it in UTF-8; read that",
        Guess::Markup => "fetch the file itself: this is a page, often one of an error or a login",
        Guess::Json =>
            "jq -r .NAME FILE writes the text of a field: take the one that has the document",
        Guess::JavaKeyStore => {
            "keytool -importkeystore -srckeystore FILE -destkeystore NEW -deststoretype PKCS12 makes \
                it PKCS #12"
        }
        Guess::PublicJwk => {
            "node -p 'crypto.createPublicKey({key: JSON.parse(fs.readFileSync(\"FILE\")), format: \"jwk\"})\
                .export({type: \"spki\", format: \"pem\"})' writes it in PEM; jq '.keys[0]' FILE \
                writes the first of a set of them"
        }
        Guess::PublicRsaXml =>
            "have it written in PEM by a program that reads this form, as .NET and phpseclib do",
        Guess::SshPublicKey => {
            "ssh-keygen -e -m PKCS8 -f FILE writes PEM of kind public, of RSA, DSA and ECDSA keys; of \
                Ed25519 keys the manual's from_ssh writes kind public"
        }
        Guess::Ssh2PublicKey =>
            "ssh-keygen -i -f FILE > NEW writes it in a line as SSH has it; go on with that",
        Guess::Recoded => {
            "fetch it again, as binary or in PEM; iconv -f UTF-8 -t LATIN1 FILE gives the octets back, \
                where nothing else was done to them"
        }
        Guess::Replaced | Guess::TextLines => "fetch it again, as binary or in PEM",
        _ => "",
    }
}

/// What to do with PEM of this label.
fn pem_act(kind: &str, label: &str) -> &'static str
    ensures { result.now ≡ pem_act kind.now label.now }
{
    if is_lost_label(kind, label) {
        lost_or(true, "")
    } else if is_among(label, PRIVATE_LABELS) {
        private_act(label)
    } else if is_among(label, CERTIFICATE_LABELS) {
        if kind == "request" {
            "send the request that it was made of"
        } else {
            "openssl x509 -in FILE -noout -pubkey writes its public key, in PEM"
        }
    } else if is_among(label, PUBLIC_LABELS) {
        "openssl rsa -RSAPublicKey_in -in FILE -pubout -outform DER makes it kind public"
    } else if is_among(label, UNREAD_LABELS) {
        "pkder reads no documents of this label"
    } else if label.is_empty() {
        "decode its base64, as the manual says under Getting the octets, and try each kind"
    } else {
        "decode its base64, as the manual says under Getting the octets"
    }
}

/// With a private key that is of no kind.
fn private_act(label: &str) -> &'static str
    ensures { result.now ≡ private_act label.now }
{
    if label == "OPENSSH PRIVATE KEY" {
        "ssh-keygen -p -m PKCS8 -f COPY writes PEM of kind key over the copy, of RSA and ECDSA keys; \
            of Ed25519 keys the manual's from_openssh writes kind key"
    } else if label == "SM2 PRIVATE KEY" {
        "decode its base64, as the manual says under Getting the octets, and read it with --kind ec"
    } else {
        "openssl pkcs8 -topk8 -nocrypt -in FILE -outform DER makes it kind key"
    }
}

/// Where a private key came in place of a request, what that means; else this.
fn lost_or(is_lost: bool, act: &'static str) -> &'static str
    ensures { result.now ≡ lost_or is_lost act.now }
{
    if is_lost {
        "this is a private key, and no request. A key that was sent counts as lost: make a new one, \
            and send the request of that"
    } else {
        act
    }
}

/// Whether a request was wanted, and this is the word of a kind that has private keys as they are.
fn is_lost_kind(kind: &str, other: &str) -> bool
    ensures { result ≡ is_lost_kind kind.now other.now }
{
    kind == "request" && (other == "key" || other == "ec" || other == "package")
}

/// The same of the label of PEM.
fn is_lost_label(kind: &str, label: &str) -> bool
    ensures { result ≡ is_lost_label kind.now label.now }
{
    kind == "request"
        && (label == "PRIVATE KEY" || label == "EC PRIVATE KEY" || is_among(label, PRIVATE_LABELS))
}

pub fn is_among(label: &str, labels: &'static [&'static str]) -> bool
    ensures { result ≡ is_among (map (λ r. r.now) labels.now) label.now }
{
    match labels {
        [] => false,
        [first, later @ ..] => *first == label || is_among(label, later),
    }
}
