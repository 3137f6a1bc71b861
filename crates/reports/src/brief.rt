//! The answer for whoever sent a file: one to three sentences, without places. Where it is refused they go by what the
//! file looks like, else by whether a line of a PEM text is missing or stands twice, else by the reason.
ghost use Rattle.std.specs.Prelude.{◌≡◌, ◌++◌, IfOk, OnOk, string_bytes};
ghost use Rattle.reports.specs.Briefs.{accepted_said, accepted_words, asked_words, brief_line, brief_said, file_form};
ghost use Rattle.reports.specs.Briefs.{form_end, form_said, form_words, guess_brief, harm_at, harm_inside, harm_of};
ghost use Rattle.reports.specs.Briefs.{harm_said, instead_act, instead_said, instead_words, is_due};
ghost use Rattle.reports.specs.Briefs.{is_key_label, is_sent, is_short, key_form, key_of, kept_words, kind_form};
ghost use Rattle.reports.specs.Briefs.{line_brief, lines_brief};
ghost use Rattle.reports.specs.Briefs.{lost_words, notes_words, once_more, pem_form, plain_words, public_act};
ghost use Rattle.reports.specs.Briefs.{refused_brief, request_act, sent_end, sent_words, sound_words, thing_labelled};
ghost use Rattle.reports.specs.Briefs.{thing_of, thing_of_kind, thing_words, way_words, wrong_tag_harm};

use crate::afters::line_end;
use crate::guesses::{CERTIFICATE_LABELS, PRIVATE_LABELS, PUBLIC_LABELS, UNREAD_LABELS, is_among};
use crate::hints::is_lines;
use crate::notes::has_must;
use crate::report::{Answer, Guess, Note, Report};
use std::alloc::{AllocError, Global};
use tlv_core::fault::Fault;
use tlv_core::reason::Reason;

/// What a file is, as whoever sent it knows it.
#[derive(Clone, Copy)]
enum Thing {
    PrivateKey,
    EncryptedKey,
    KeyPackage,
    /// Files of keys and certificates: PKCS #12, and Java's own.
    Pkcs12,
    KeyStore,
    PublicKey,
    Request,
    Certificate,
    /// A text or octets of which no more is known.
    Unknown,
}

/// What is wrong with a file that looks like nothing else.
#[derive(Clone, Copy)]
enum Harm {
    CutOff,
    More,
    TooLong,
    TooDeep,
    /// Something in it is of a type that pkder doesn't read.
    Unread,
    AnotherKind,
    /// A curve is written out, or the file is damaged.
    WrittenOut,
    Damaged,
    /// By the program that wrote it.
    Writer,
    /// A text in it isn't in UTF-8.
    Text,
    TwoCurves,
}

/// The answer for whoever sent the file, as a line.
pub fn brief_text(alloc: Global, report: &Report) -> Result<String, AllocError>
    ensures { IfOk result (λ text. string_bytes text ≡ brief_line report.now) }
{
    let mut text = brief_words(alloc, report)?;
    text.push_str("\n")?;
    Ok(text)
}

/// The same without a line feed.
pub(crate) fn brief_words(alloc: Global, report: &Report) -> Result<String, AllocError>
    ensures { IfOk result (λ text. string_bytes text ≡ brief_said report.now) }
{
    let mut text = String::new(alloc);
    let kind = report.kind.word;
    match report.answer {
        Answer::Der => push_accepted(&mut text, kind, true, &report.notes)?,
        Answer::NotDer(_) => push_accepted(&mut text, kind, false, &report.notes)?,
        Answer::Refused(fault) => push_refused(&mut text, report, fault)?,
    }
    Ok(text)
}

#[tactic(auto, unfolding(crate::specs::Briefs::accepted_said))]
fn push_accepted(
    text: &mut String,
    kind: &str,
    is_der: bool,
    notes: &[Note],
) -> Result<(), AllocError>
    ensures { OnOk result (string_bytes text.new ≡ string_bytes text.old
        ++ accepted_said kind.now is_der notes.now) }
{
    text.push_str(accepted_words(kind, is_der))?;
    text.push_str(way_words(is_der))?;
    text.push_str(notes_words(notes))
}

/// What it is.
fn accepted_words(kind: &str, is_der: bool) -> &'static str
    ensures { result.now ≡ accepted_words kind.now is_der }
{
    if is_der {
        sound_words(kind)
    } else {
        plain_words(kind)
    }
}

fn sound_words(kind: &str) -> &'static str
    ensures { result.now ≡ sound_words kind.now }
{
    if kind == "request" {
        "This is a sound certification request (CSR)."
    } else if kind == "public" {
        "This is a sound public key."
    } else if kind == "encrypted" {
        "This is an encrypted private key, sound as far as can be told without its password."
    } else if kind == "package" {
        "This is a sound package of private keys."
    } else {
        "This is a sound private key."
    }
}

fn plain_words(kind: &str) -> &'static str
    ensures { result.now ≡ plain_words kind.now }
{
    if kind == "request" {
        "This is a certification request (CSR)."
    } else if kind == "public" {
        "This is a public key."
    } else if kind == "encrypted" {
        "This is an encrypted private key."
    } else if kind == "package" {
        "This is a package of private keys."
    } else {
        "This is a private key."
    }
}

/// In which way it is written.
fn way_words(is_der: bool) -> &'static str
    ensures { result.now ≡ way_words is_der }
{
    if is_der {
        ""
    } else {
        " It is sound, but written in another way than DER, which some programs refuse."
    }
}

/// Whether other standards forbid what is in it.
fn notes_words(notes: &[Note]) -> &'static str
    ensures { result.now ≡ notes_words notes.now }
{
    if has_must(notes) {
        " Other standards forbid what is in it: see the notes."
    } else {
        ""
    }
}

#[tactic(auto, unfolding(crate::specs::Briefs::refused_brief))]
fn push_refused(text: &mut String, report: &Report, fault: Fault) -> Result<(), AllocError>
    ensures { OnOk result (string_bytes text.new ≡ string_bytes text.old
        ++ refused_brief report.now fault) }
{
    match report.guess {
        Guess::Unknown => push_fault(text, report, fault),
        guess => push_guess_brief(text, report.kind.word, guess),
    }
}

/// By a line of a PEM text; else by the reason.
fn push_fault(text: &mut String, report: &Report, fault: Fault) -> Result<(), AllocError>
    ensures { OnOk result (string_bytes text.new ≡ string_bytes text.old
        ++ line_brief report.now fault) }
{
    let kind = report.kind.word;
    let line = lines_brief(kind, report.octets, line_end(report));
    if line.is_empty() {
        let is_short = is_short(report.octets, report.announced);
        push_harm(text, kind, harm_of(kind, fault, is_short))
    } else {
        text.push_str(line)
    }
}

/// Whether a line of a PEM text is missing, or stands twice.
fn lines_brief(kind: &str, octets: u64, announced: Option<u64>) -> &'static str
    ensures { result.now ≡ lines_brief kind.now octets announced }
{
    let Some(announced) = announced else {
        return "";
    };
    if octets < announced && is_lines(announced - octets) {
        return lost_words(kind);
    }
    if announced < octets && is_lines(octets - announced) {
        return once_more(kind);
    }
    ""
}

fn lost_words(kind: &str) -> &'static str
    ensures { result.now ≡ lost_words kind.now }
{
    if is_sent(kind) {
        "A line of its PEM text is missing: send it again, whole."
    } else {
        "A line of its PEM text is missing: fetch it again, whole."
    }
}

fn once_more(kind: &str) -> &'static str
    ensures { result.now ≡ once_more kind.now }
{
    if is_sent(kind) {
        "A line of its PEM text stands twice: send it again."
    } else {
        "A line of its PEM text stands twice: fetch it again."
    }
}

/// Whether the file has fewer octets than it says.
fn is_short(octets: u64, announced: Option<u64>) -> bool
    ensures { result ≡ is_short octets announced }
{
    match announced {
        Some(announced) => octets < announced,
        None => false,
    }
}

/// Whether documents of the kind are sent to others; a private key stays with its owner.
fn is_sent(kind: &str) -> bool
    ensures { result ≡ is_sent kind.now }
{
    kind == "request" || kind == "public"
}

fn harm_of(kind: &str, fault: Fault, is_short: bool) -> Harm
    ensures { result ≡ harm_of kind.now fault is_short }
{
    match fault.inside {
        Some((_, why)) => harm_inside(why),
        None => harm_at(kind, fault.at, fault.why, is_short),
    }
}

/// By the place in the file.
#[tactic(auto, unfolding(crate::specs::Briefs::harm_at))]
fn harm_at(kind: &str, at: u64, why: Reason, is_short: bool) -> Harm
    ensures { result ≡ harm_at kind.now at why is_short }
{
    match why {
        Reason::Truncated => Harm::CutOff,
        Reason::PastEnd => if is_short {
            Harm::CutOff
        } else {
            Harm::Damaged
        },
        Reason::WrongTag => wrong_tag_harm(kind, at),
        Reason::Trailing => Harm::More,
        Reason::TooLong | Reason::TextTooLong => Harm::TooLong,
        Reason::TooDeep => Harm::TooDeep,
        Reason::LeftOut => Harm::Unread,
        Reason::BadText => Harm::Text,
        Reason::Curve => Harm::TwoCurves,
        Reason::Version
        | Reason::VersionRule
        | Reason::Parameters
        | Reason::KeyLength
        | Reason::BadInteger
        | Reason::BadBits
        | Reason::EmptySet => Harm::Writer,
        _ => Harm::Damaged,
    }
}

/// Where another type was due: of an ECPrivateKey a curve by its name, after the key.
fn wrong_tag_harm(kind: &str, at: u64) -> Harm
    ensures { result ≡ wrong_tag_harm kind.now at }
{
    if at < 14 {
        Harm::AnotherKind
    } else if kind == "ec" {
        Harm::WrittenOut
    } else {
        Harm::Damaged
    }
}

/// Inside `privateKey`, where the file is whole.
#[tactic(auto, unfolding(crate::specs::Briefs::harm_inside))]
fn harm_inside(why: Reason) -> Harm
    ensures { result ≡ harm_inside why }
{
    match why {
        Reason::Version
        | Reason::VersionRule
        | Reason::Parameters
        | Reason::KeyLength
        | Reason::BadInteger
        | Reason::BadBits
        | Reason::TooLong
        | Reason::Trailing => Harm::Writer,
        Reason::TooDeep => Harm::TooDeep,
        Reason::Curve => Harm::TwoCurves,
        _ => Harm::Damaged,
    }
}

/// What is wrong, and what to do.
fn push_harm(text: &mut String, kind: &str, harm: Harm) -> Result<(), AllocError>
    ensures { OnOk result (string_bytes text.new ≡ string_bytes text.old ++ harm_said kind.now harm) }
{
    if is_sent(kind) {
        text.push_str(sent_words(harm))?;
        text.push_str(sent_end(kind, harm))
    } else {
        text.push_str(kept_words(harm))
    }
}

/// With what is sent to others.
#[tactic(auto, unfolding(crate::specs::Briefs::sent_words))]
fn sent_words(harm: Harm) -> &'static str
    ensures { result.now ≡ sent_words harm }
{
    match harm {
        Harm::CutOff => "It is cut off: send it again, whole.",
        Harm::More => {
            "Something follows after its end, such as a line feed of an editor or a second file: send \
                it alone."
        }
        Harm::TooLong =>
            "It is longer than is allowed here, or damaged: send it again, or ask for a larger limit.",
        Harm::TooDeep =>
            "It is nested deeper than is allowed here: if you know why, ask for a larger limit.",
        Harm::Unread => "It has something in it that pkder doesn't read, and so can't judge.",
        Harm::AnotherKind =>
            "This is another kind of file than was asked for, or its beginning is damaged: ",
        Harm::WrittenOut =>
            "A curve in it may be written out, which has to be named; else it is damaged.",
        Harm::Damaged =>
            "It is damaged: send it again, and if that is refused too, make a new one.",
        Harm::Writer => {
            "The program that wrote it made a mistake: make a new one, by a newer version of it or by \
                another program."
        }
        Harm::Text => "A text in it isn't in UTF-8: make a new one, with its text in UTF-8.",
        Harm::TwoCurves => "It names two curves that differ: never use it.",
    }
}

/// What is to be sent in place of a file of another kind.
fn sent_end(kind: &str, harm: Harm) -> &'static str
    ensures { result.now ≡ sent_end kind.now harm }
{
    match harm {
        Harm::AnotherKind => asked_words(kind),
        _ => "",
    }
}

/// What is to be sent.
fn asked_words(kind: &str) -> &'static str
    ensures { result.now ≡ asked_words kind.now }
{
    if kind == "request" {
        "send the certification request (CSR)."
    } else {
        "send the public key."
    }
}

/// With a private key, which stays with its owner.
#[tactic(auto, unfolding(crate::specs::Briefs::kept_words))]
fn kept_words(harm: Harm) -> &'static str
    ensures { result.now ≡ kept_words harm }
{
    match harm {
        Harm::CutOff => "It is cut off: fetch it again, whole.",
        Harm::More => {
            "Something follows after its end, such as a line feed of an editor or a second file: look \
                at it before you cut it off."
        }
        Harm::TooLong => {
            "It is longer than is allowed here, or damaged: fetch it again, or raise the limit \
                (--octets)."
        }
        Harm::TooDeep =>
            "It is nested deeper than is allowed here: raise the limit (--depth), if you know the file.",
        Harm::Unread => "It has something in it that pkder doesn't read, and so can't judge.",
        Harm::AnotherKind =>
            "This is another kind of file than was asked for, or its beginning is damaged.",
        Harm::WrittenOut => {
            "A curve in it may be written out: openssl ec -param_enc named_curve names it. Else it is \
                damaged, and not to be used."
        }
        Harm::Damaged => "It is damaged: fetch it again, and if that is refused too, don't use it.",
        Harm::Writer => "The program that wrote it made a mistake: have it written anew.",
        Harm::Text => "A text in it isn't in UTF-8: have it written anew, with its text in UTF-8.",
        Harm::TwoCurves => "It names two curves that differ: never use it.",
    }
}

/// What the file is, where something else was asked for, or another form.
#[tactic(auto, unfolding(crate::specs::Briefs::guess_brief))]
fn push_guess_brief(text: &mut String, kind: &str, guess: Guess) -> Result<(), AllocError>
    ensures { OnOk result (string_bytes text.new ≡ string_bytes text.old
        ++ guess_brief kind.now guess) }
{
    let thing = thing_of(guess);
    if is_due(kind, thing) {
        push_form(text, kind, guess)
    } else {
        push_instead(text, kind, thing)
    }
}

#[tactic(auto, unfolding(crate::specs::Briefs::thing_of))]
fn thing_of(guess: Guess) -> Thing
    ensures { result ≡ thing_of guess }
{
    match guess {
        Guess::Pem(label) | Guess::PemBehind(label) => thing_labelled(label),
        Guess::EncryptedPem(label) => {
            if is_key_label(label) {
                Thing::EncryptedKey
            } else {
                Thing::Unknown
            }
        }
        Guess::Kind(kind) => thing_of_kind(kind.word),
        Guess::Certificate => Thing::Certificate,
        Guess::Pkcs12 => Thing::Pkcs12,
        Guess::JavaKeyStore => Thing::KeyStore,
        _ => key_of(guess),
    }
}

/// A key of a form that no kind has.
fn key_of(guess: Guess) -> Thing
    ensures { result ≡ key_of guess }
{
    match guess {
        Guess::RsaPrivateKey
        | Guess::DsaPrivateKey
        | Guess::PrivateJwk
        | Guess::PrivateRsaXml
        | Guess::OpenSshKey
        | Guess::PuttyKey => Thing::PrivateKey,
        Guess::RsaPublicKey
        | Guess::PublicJwk
        | Guess::PublicRsaXml
        | Guess::SshPublicKey
        | Guess::Ssh2PublicKey => Thing::PublicKey,
        _ => Thing::Unknown,
    }
}

/// By the label of PEM.
fn thing_labelled(label: &str) -> Thing
    ensures { result ≡ thing_labelled label.now }
{
    if is_key_label(label) {
        Thing::PrivateKey
    } else if label == "ENCRYPTED PRIVATE KEY" {
        Thing::EncryptedKey
    } else if label == "CERTIFICATE REQUEST" || label == "NEW CERTIFICATE REQUEST" {
        Thing::Request
    } else if label == "PUBLIC KEY" || is_among(label, PUBLIC_LABELS) {
        Thing::PublicKey
    } else if is_among(label, CERTIFICATE_LABELS) {
        Thing::Certificate
    } else {
        Thing::Unknown
    }
}

/// Whether it is the label of private keys as they are.
fn is_key_label(label: &str) -> bool
    ensures { result ≡ is_key_label label.now }
{
    label == "PRIVATE KEY" || label == "EC PRIVATE KEY" || is_among(label, PRIVATE_LABELS)
}

fn thing_of_kind(kind: &str) -> Thing
    ensures { result ≡ thing_of_kind kind.now }
{
    if kind == "request" {
        Thing::Request
    } else if kind == "public" {
        Thing::PublicKey
    } else if kind == "encrypted" {
        Thing::EncryptedKey
    } else if kind == "package" {
        Thing::KeyPackage
    } else {
        Thing::PrivateKey
    }
}

/// Whether it may be what was asked for, in another form.
fn is_due(kind: &str, thing: Thing) -> bool
    ensures { result ≡ is_due kind.now thing }
{
    match thing {
        Thing::PrivateKey
        | Thing::EncryptedKey
        | Thing::KeyPackage
        | Thing::Pkcs12
        | Thing::KeyStore => !is_sent(kind),
        Thing::PublicKey => kind == "public",
        Thing::Request => kind == "request",
        Thing::Certificate => false,
        Thing::Unknown => true,
    }
}

/// What the file is in place of what was asked for, and what to do.
#[tactic(auto, unfolding(crate::specs::Briefs::instead_said))]
fn push_instead(text: &mut String, kind: &str, thing: Thing) -> Result<(), AllocError>
    ensures { OnOk result (string_bytes text.new ≡ string_bytes text.old
        ++ instead_said kind.now thing) }
{
    text.push_str(thing_words(thing))?;
    text.push_str(instead_words(kind))?;
    text.push_str(instead_act(kind, thing))
}

#[tactic(auto, unfolding(crate::specs::Briefs::thing_words))]
fn thing_words(thing: Thing) -> &'static str
    ensures { result.now ≡ thing_words thing }
{
    match thing {
        Thing::PrivateKey => "This is a private key",
        Thing::EncryptedKey => "This is an encrypted private key",
        Thing::KeyPackage => "This is a package of private keys",
        Thing::Pkcs12 => "This is a file of keys and certificates (PKCS #12)",
        Thing::KeyStore => "This is a file of keys and certificates (a key store of Java)",
        Thing::PublicKey => "This is a public key",
        Thing::Request => "This is a certification request (CSR)",
        Thing::Certificate => "This is a certificate",
        Thing::Unknown => "This is something else",
    }
}

/// What it is not.
fn instead_words(kind: &str) -> &'static str
    ensures { result.now ≡ instead_words kind.now }
{
    if kind == "request" {
        ", and not a request"
    } else if kind == "public" {
        ", and not a public key"
    } else {
        ", and not a private key"
    }
}

fn instead_act(kind: &str, thing: Thing) -> &'static str
    ensures { result.now ≡ instead_act kind.now thing }
{
    if kind == "request" {
        request_act(thing)
    } else if kind == "public" {
        public_act(thing)
    } else {
        "."
    }
}

/// In place of a request.
#[tactic(auto, unfolding(crate::specs::Briefs::request_act))]
fn request_act(thing: Thing) -> &'static str
    ensures { result.now ≡ request_act thing }
{
    match thing {
        Thing::PrivateKey =>
            ". A key that was sent counts as lost: make a new one, and send its request.",
        Thing::KeyPackage =>
            ". Keys that were sent count as lost: make new ones, and send their requests.",
        Thing::EncryptedKey | Thing::Pkcs12 | Thing::KeyStore => {
            ". A key that was sent counts as lost if its password went with it or can be guessed: make \
                a new one then. Send its request alone."
        }
        Thing::PublicKey => ": send the request that has this key in it.",
        Thing::Certificate => ": send the request that it was made of.",
        Thing::Request | Thing::Unknown => ".",
    }
}

/// In place of a public key.
#[tactic(auto, unfolding(crate::specs::Briefs::public_act))]
fn public_act(thing: Thing) -> &'static str
    ensures { result.now ≡ public_act thing }
{
    match thing {
        Thing::PrivateKey =>
            ". A key that was sent counts as lost: make a new one, and send its public key.",
        Thing::KeyPackage =>
            ". Keys that were sent count as lost: make new ones, and send their public keys.",
        Thing::EncryptedKey | Thing::Pkcs12 | Thing::KeyStore => {
            ". A key that was sent counts as lost if its password went with it or can be guessed: make \
                a new one then. Send its public key alone."
        }
        Thing::Request | Thing::Certificate => ": send the public key that is in it.",
        Thing::PublicKey | Thing::Unknown => ".",
    }
}

/// The form that what was asked for came in.
#[tactic(auto, unfolding(crate::specs::Briefs::form_said))]
fn push_form(text: &mut String, kind: &str, guess: Guess) -> Result<(), AllocError>
    ensures { OnOk result (string_bytes text.new ≡ string_bytes text.old ++ form_said kind.now guess) }
{
    text.push_str(form_words(guess))?;
    text.push_str(form_end(kind, guess))
}

/// But for what goes by whether such documents are sent.
#[tactic(auto, unfolding(crate::specs::Briefs::form_words))]
fn form_words(guess: Guess) -> &'static str
    ensures { result.now ≡ form_words guess }
{
    match guess {
        Guess::Pem(label) | Guess::PemBehind(label) => pem_form(label),
        Guess::Kind(kind) => kind_form(kind.word),
        _ => file_form(guess),
    }
}

/// Of PEM with this label.
fn pem_form(label: &str) -> &'static str
    ensures { result.now ≡ pem_form label.now }
{
    if label == "OPENSSH PRIVATE KEY" {
        "This is a private key in OpenSSH's own form: of RSA and ECDSA keys ssh-keygen -p -m PKCS8 \
            writes PKCS #8 over a copy."
    } else if label == "SM2 PRIVATE KEY" {
        "This is a private key as PEM text: decode it to its binary form (DER), and read it with \
            --kind ec."
    } else if is_among(label, PRIVATE_LABELS) {
        "This is a private key in an older form, as PEM text: openssl pkcs8 -topk8 -nocrypt makes it PKCS #8."
    } else if is_among(label, PUBLIC_LABELS) {
        "This is a public key in an older form, as PEM text: openssl rsa -RSAPublicKey_in -pubout \
            writes the usual one."
    } else if is_among(label, UNREAD_LABELS) {
        "This is PEM text of something that pkder doesn't read."
    } else if label.is_empty() {
        "This is PEM text with a label that isn't a usual one: decode it to its binary form (DER) first."
    } else {
        "This is PEM text: decode it to its binary form (DER) first."
    }
}

/// Of a private key of this kind, where another was asked for.
fn kind_form(kind: &str) -> &'static str
    ensures { result.now ≡ kind_form kind.now }
{
    if kind == "ec" {
        "This is a private key in another form than was asked for: read it with --kind ec."
    } else if kind == "encrypted" {
        "This is an encrypted private key: read it with --kind encrypted."
    } else if kind == "package" {
        "This is a package of private keys: read it with --kind package."
    } else {
        "This is a private key in another form than was asked for: read it with --kind key."
    }
}

/// Of what is neither PEM nor of a kind.
#[tactic(auto, unfolding(crate::specs::Briefs::file_form))]
fn file_form(guess: Guess) -> &'static str
    ensures { result.now ≡ file_form guess }
{
    match guess {
        Guess::Empty => "The file is empty: ",
        Guess::EncryptedPem(_) => {
            "This is PEM text, encrypted in an old form: openssl pkcs8 -topk8 asks for its password, \
                and writes it in a newer one."
        }
        Guess::Certificate => "This is a certificate.",
        Guess::Pkcs12 => {
            "This is a file of keys and certificates (PKCS #12): openssl pkcs12 -nodes -nocerts writes \
                its private key."
        }
        Guess::Hexadecimal =>
            "This is text in hexadecimal figures: make it binary first, as xxd -r -p does.",
        Guess::Dump =>
            "This is a dump, hexadecimal figures with places in front: make it binary first, as xxd -r does.",
        Guess::Base64 =>
            "This is base64 text without a label: decode it to its binary form (DER) first.",
        Guess::Utf16 => "This is text in UTF-16: save it as text in UTF-8.",
        Guess::Markup =>
            "This is a page of HTML or XML, often one of an error or a login: fetch the file itself.",
        Guess::Json => "This is JSON: take the document out of the field that has it.",
        Guess::JavaKeyStore => {
            "This is a file of keys and certificates (a key store of Java): keytool -importkeystore \
                makes it PKCS #12."
        }
        Guess::Recoded => "The octets were taken for text: ",
        Guess::Replaced => "The octets were taken for text, and some of them are lost: ",
        Guess::TextLines => "The octets were taken for text (each 0a has a 0d before it): ",
        _ => key_form(guess),
    }
}

/// Of a key of a form that no kind has.
#[tactic(auto, unfolding(crate::specs::Briefs::key_form))]
fn key_form(guess: Guess) -> &'static str
    ensures { result.now ≡ key_form guess }
{
    match guess {
        Guess::RsaPrivateKey => {
            "This is an RSA private key in an older form (PKCS #1): openssl pkcs8 -topk8 -nocrypt makes it \
                PKCS #8."
        }
        Guess::DsaPrivateKey =>
            "This is a DSA private key in an older form: openssl pkcs8 -topk8 -nocrypt makes it PKCS #8.",
        Guess::RsaPublicKey => {
            "This is an RSA public key in an older form (PKCS #1): openssl rsa -RSAPublicKey_in \
                -pubout writes the usual one."
        }
        Guess::PrivateJwk =>
            "This is a private key as JSON has it (JWK): crypto.createPrivateKey of Node.js reads it.",
        Guess::PublicJwk =>
            "This is a public key as JSON has it (JWK): crypto.createPublicKey of Node.js reads it.",
        Guess::PrivateRsaXml => "This is a private key of RSA in XML: have it written as PEM.",
        Guess::PublicRsaXml => "This is a public key of RSA in XML: have it written as PEM.",
        Guess::OpenSshKey => {
            "This is a private key in OpenSSH's own form, without its label: take the file that begins \
                with -----BEGIN."
        }
        Guess::SshPublicKey => {
            "This is a public key as SSH has it: of RSA and ECDSA keys ssh-keygen -e -m PKCS8 writes \
                it as PEM."
        }
        Guess::PuttyKey =>
            "This is a private key of PuTTY or ssh.com: puttygen -O private-openssh writes it as PEM.",
        Guess::Ssh2PublicKey =>
            "This is a public key in lines of SSH2 (RFC 4716): ssh-keygen -i writes it in one line.",
        _ => "",
    }
}

/// How to have it again.
fn form_end(kind: &str, guess: Guess) -> &'static str
    ensures { result.now ≡ form_end kind.now guess }
{
    match guess {
        Guess::Empty => if is_sent(kind) {
            "send it again."
        } else {
            "fetch it again."
        },
        Guess::Recoded | Guess::Replaced | Guess::TextLines => {
            if is_sent(kind) {
                "send it again, as binary or as PEM."
            } else {
                "fetch it again, as binary or as PEM."
            }
        }
        _ => "",
    }
}
