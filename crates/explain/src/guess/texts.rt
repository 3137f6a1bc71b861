//! What a file is whose octets stand for others, or were taken for a text: by how they begin.
ghost use Rattle.std.specs.Prelude.{false, map, take, true, ◌≡◌};
ghost use Rattle.std.specs.List.{list_all};
ghost use Rattle.std.specs.Option.{option_map};
ghost use Rattle.explain.specs.TextGuesses.{after_line, begin_with, guess_by_beginning, guess_by_text, has_lines};
ghost use Rattle.explain.specs.TextGuesses.{has_zeros, is_base64, is_blank, is_encrypted, is_hexadecimal};
ghost use Rattle.explain.specs.TextGuesses.{is_key_store, is_labelled, is_printable, is_recoded, is_ssh_key};
ghost use Rattle.explain.specs.TextGuesses.{is_text_from, is_utf16, label_among, label_of, or_label, other_label};
ghost use Rattle.explain.specs.TextGuesses.{pem_guess, pem_label, text_in, without_blanks};
ghost use Rattle.explain.specs.TextGuesses.{block_from, block_in, has_word, head_of, is_block, is_new_after};
ghost use Rattle.explain.specs.TextGuesses.{guess_by_letters, guess_by_sign, is_of_use, is_putty_key, json_guess};
ghost use Rattle.explain.specs.TextGuesses.{markup_guess};

use pk_documents::kind::{KINDS, Kind};
use reports::guesses::{
    CERTIFICATE_LABELS, PRIVATE_LABELS, PUBLIC_LABELS, UNREAD_LABELS, is_among,
};
use reports::report::Guess;

/// What is at the start of a text, and no part of it: a byte order mark (RFC 3629 section 6), and blanks.
pub(crate) fn text_in(octets: &[u8]) -> &[u8]
    ensures { result.now ≡ text_in octets.now }
{
    match octets.strip_prefix(b"\xEF\xBB\xBF") {
        Some(text) => without_blanks(text),
        None => without_blanks(octets),
    }
}

fn without_blanks(octets: &[u8]) -> &[u8]
    ensures { result.now ≡ without_blanks octets.now }
{
    let mut left = octets;
    while let [octet, rest @ ..] = left {
        if !is_blank(*octet) {
            return left;
        }
        left = rest;
    }
    left
}

fn is_blank(octet: u8) -> bool
    ensures { result ≡ is_blank octet }
{
    match octet {
        b' ' | b'\t' | b'\r' | b'\n' => true,
        _ => false,
    }
}

/// The label of a PEM text (RFC 7468 section 3), empty where it isn't a known one.
pub(crate) fn pem_label(text: &[u8]) -> Option<&'static str>
    ensures { option_map (λ r. r.now) result ≡ pem_label text.now }
{
    match text.strip_prefix(b"-----BEGIN ") {
        Some(after) => Some(label_of(after, &KINDS)),
        None => None,
    }
}

/// The label with which the text begins, of these kinds or else of what is of no kind.
fn label_of(text: &[u8], kinds: &[Kind]) -> &'static str
    ensures { result.now ≡ label_of kinds.now text.now }
{
    match kinds {
        [] => other_label(text),
        [kind, later @ ..] => {
            let label = label_among(text, kind.row().labels);
            if label.is_empty() {
                label_of(text, later)
            } else {
                label
            }
        }
    }
}

/// The label with which the text begins, of what is of no kind.
fn other_label(text: &[u8]) -> &'static str
    ensures { result.now ≡ other_label text.now }
{
    let private = label_among(text, PRIVATE_LABELS);
    let or_certificate = or_among(private, text, CERTIFICATE_LABELS);
    let or_public = or_among(or_certificate, text, PUBLIC_LABELS);
    or_among(or_public, text, UNREAD_LABELS)
}

/// A label that was found, or else one of these.
fn or_among(found: &'static str, text: &[u8], labels: &'static [&'static str]) -> &'static str
    ensures { result.now ≡ or_label found.now (label_among (map (λ r. r.now) labels.now) text.now) }
{
    if found.is_empty() {
        label_among(text, labels)
    } else {
        found
    }
}

/// The first of the labels with which the text begins.
fn label_among(text: &[u8], labels: &'static [&'static str]) -> &'static str
    ensures { result.now ≡ label_among (map (λ r. r.now) labels.now) text.now }
{
    match labels {
        [] => "",
        [label, later @ ..] => {
            if is_labelled(text, label) {
                label
            } else {
                label_among(text, later)
            }
        }
    }
}

/// Whether the text begins with the label, and five hyphens follow it.
fn is_labelled(text: &[u8], label: &str) -> bool
    ensures { result ≡ is_labelled label.now text.now }
{
    match text.strip_prefix(label.as_bytes()) {
        Some(rest) => rest.strip_prefix(b"-----").is_some(),
        None => false,
    }
}

/// The text in a file, up to 16,384 octets of it: what is said of it goes by words that are known.
#[tactic(auto, unfolding(crate::specs::TextGuesses::head_of))]
pub(crate) fn head_of(octets: &[u8]) -> &[u8]
    ensures { result.now ≡ head_of octets.now }
{
    up_to(16384, text_in(octets))
}

/// The first so many octets, where there are more.
fn up_to(most: usize, octets: &[u8]) -> &[u8]
    ensures { result.now ≡ take most octets.now }
{
    &octets[..most.min(octets.len())]
}

/// From a PEM text on: of several the first whose label is of use, else the first.
pub(crate) fn block_in(text: &[u8]) -> &[u8]
    ensures { result.now ≡ block_in text.now }
{
    let block = block_from(text, false);
    if block.is_empty() {
        block_from(text, true)
    } else {
        block
    }
}

/// From the first such PEM text at the beginning of a line on, but for blanks.
fn block_from(text: &[u8], any: bool) -> &[u8]
    ensures { result.now ≡ block_from any true text.now }
{
    let mut left = text;
    let mut is_new = true;
    while let [octet, rest @ ..] = left {
        if is_new && is_block(left, any) {
            return left;
        }
        is_new = is_new_after(is_new, *octet);
        left = rest;
    }
    left
}

/// Whether a line begins after this octet, or goes on with blanks alone.
#[tactic(auto, unfolding(crate::specs::TextGuesses::is_new_after))]
fn is_new_after(is_new: bool, octet: u8) -> bool
    ensures { result ≡ is_new_after is_new octet }
{
    octet == b'\n' || octet == b'\r' || is_new && is_blank(octet)
}

/// Whether it is a PEM text of any label, or of one that is of use.
#[tactic(auto, unfolding(crate::specs::TextGuesses::is_block))]
fn is_block(text: &[u8], any: bool) -> bool
    ensures { result ≡ is_block any text.now }
{
    match pem_label(text) {
        Some(label) => any || is_of_use(label),
        None => false,
    }
}

/// Whether PEM of this label leads to a document of a kind.
fn is_of_use(label: &str) -> bool
    ensures { result ≡ is_of_use label.now }
{
    !label.is_empty() && !is_among(label, CERTIFICATE_LABELS) && !is_among(label, UNREAD_LABELS)
}

/// PEM with this label, in the clear or encrypted, at the start of the text or behind it.
pub(crate) fn pem_guess(text: &[u8], block: &[u8], label: &'static str) -> Guess
    ensures { result ≡ pem_guess label.entry block.now text.now }
{
    if is_encrypted(block) {
        Guess::EncryptedPem(label)
    } else if block.len() == text.len() {
        Guess::Pem(label)
    } else {
        Guess::PemBehind(label)
    }
}

/// Whether the second line of a PEM text says that it is encrypted (RFC 1421 section 4.6.1.1).
fn is_encrypted(text: &[u8]) -> bool
    ensures { result ≡ is_encrypted text.now }
{
    after_line(text).strip_prefix(b"Proc-Type:").is_some()
}

fn after_line(text: &[u8]) -> &[u8]
    ensures { result.now ≡ after_line text.now }
{
    let mut left = text;
    while let [octet, rest @ ..] = left {
        left = rest;
        if *octet == b'\n' {
            return left;
        }
    }
    left
}

/// What a text is that isn't PEM, by its first 16 octets: of what comes after them, which may be private, known words
/// alone are looked for.
#[tactic(auto, unfolding(crate::specs::TextGuesses::guess_by_text))]
pub(crate) fn guess_by_text(octets: &[u8]) -> Guess
    ensures { result ≡ guess_by_text octets.now }
{
    if octets.is_empty() {
        Guess::Empty
    } else if begin_with(octets, b"00000000: ") {
        Guess::Dump
    } else {
        guess_by_letters(octets)
    }
}

/// By the first 16 octets.
fn guess_by_letters(octets: &[u8]) -> Guess
    ensures { result ≡ guess_by_letters octets.now }
{
    let first = &octets[..octets.len().min(16)];
    if are_all_hexadecimal(first) {
        Guess::Hexadecimal
    } else if begin_with(octets, b"M") && are_all_base64(first) {
        Guess::Base64
    } else {
        guess_by_beginning(octets)
    }
}

/// By octets that nothing else begins with.
#[tactic(auto, unfolding(crate::specs::TextGuesses::guess_by_beginning))]
fn guess_by_beginning(octets: &[u8]) -> Guess
    ensures { result ≡ guess_by_beginning octets.now }
{
    if is_utf16(octets) {
        Guess::Utf16
    } else if is_key_store(octets) {
        Guess::JavaKeyStore
    } else if begin_with(octets, b"openssh-key-v1") {
        Guess::OpenSshKey
    } else if is_ssh_key(octets) {
        Guess::SshPublicKey
    } else if is_putty_key(octets) {
        Guess::PuttyKey
    } else if begin_with(octets, b"---- BEGIN SSH2 PUBLIC KEY") {
        Guess::Ssh2PublicKey
    } else if is_recoded(octets) {
        Guess::Recoded
    } else if begin_with(octets, b"\x30\xEF\xBF\xBD") {
        Guess::Replaced
    } else {
        guess_by_sign(head_of(octets))
    }
}

/// By the first sign of a text.
fn guess_by_sign(text: &[u8]) -> Guess
    ensures { result ≡ guess_by_sign text.now }
{
    if is_text_from(text, b'<') {
        markup_guess(text)
    } else if is_text_from(text, b'{') {
        json_guess(text)
    } else {
        Guess::Unknown
    }
}

/// HTML or XML: an RSA key, private where it has a private exponent (XML Signature section 4.5.2.2), or another text.
fn markup_guess(text: &[u8]) -> Guess
    ensures { result ≡ markup_guess text.now }
{
    if !has_word(text, b"<RSAKey") {
        Guess::Markup
    } else if has_word(text, b"<D>") {
        Guess::PrivateRsaXml
    } else {
        Guess::PublicRsaXml
    }
}

/// JSON: a JWK, private where it has a member d (RFC 7517 section 4.1, RFC 7518 section 6), or another text.
fn json_guess(text: &[u8]) -> Guess
    ensures { result ≡ json_guess text.now }
{
    if !has_word(text, b"\"kty\"") {
        Guess::Json
    } else if has_word(text, b"\"d\"") {
        Guess::PrivateJwk
    } else {
        Guess::PublicJwk
    }
}

/// Whether the word stands somewhere in the text.
fn has_word(text: &[u8], word: &[u8]) -> bool
    ensures { result ≡ has_word word.now text.now }
{
    let mut left = text;
    while let [_, rest @ ..] = left {
        if begin_with(left, word) {
            return true;
        }
        left = rest;
    }
    false
}

/// The magic numbers of JKS and JCEKS.
fn is_key_store(octets: &[u8]) -> bool
    ensures { result ≡ is_key_store octets.now }
{
    begin_with(octets, b"\xFE\xED\xFE\xED") || begin_with(octets, b"\xCE\xCE\xCE\xCE")
}

/// A public key in a line (RFC 4253 section 6.6, RFC 5656 section 3.1, RFC 8709 section 4).
fn is_ssh_key(octets: &[u8]) -> bool
    ensures { result ≡ is_ssh_key octets.now }
{
    begin_with(octets, b"ssh-rsa AAAA")
        || begin_with(octets, b"ssh-dss AAAA")
        || begin_with(octets, b"ssh-ed25519 AAAA")
        || begin_with(octets, b"ecdsa-sha2-nistp")
}

/// A private key of PuTTY, or of ssh.com.
fn is_putty_key(octets: &[u8]) -> bool
    ensures { result ≡ is_putty_key octets.now }
{
    begin_with(octets, b"PuTTY-User-Key-File-")
        || begin_with(octets, b"---- BEGIN SSH2 ENCRYPTED PRIVATE KEY")
}

/// The header of a SEQUENCE whose first length octet was written as UTF-8 has it.
fn is_recoded(octets: &[u8]) -> bool
    ensures { result ≡ is_recoded octets.now }
{
    begin_with(octets, b"\x30\xC2\x81")
        || begin_with(octets, b"\x30\xC2\x82")
        || begin_with(octets, b"\x30\xC2\x83")
}

fn begin_with(octets: &[u8], prefix: &[u8]) -> bool
    ensures { result ≡ begin_with prefix.now octets.now }
{
    octets.strip_prefix(prefix).is_some()
}

/// Whether they are a text in UTF-16, whose first signs are in ASCII: a byte order mark, and 00 after or before each of
/// them.
fn is_utf16(octets: &[u8]) -> bool
    ensures { result ≡ is_utf16 octets.now }
{
    if octets.len() < 8 {
        return false;
    }
    let signs = &octets[2..octets.len().min(16)];
    begin_with(octets, b"\xFF\xFE") && has_zeros(signs, false)
        || begin_with(octets, b"\xFE\xFF") && has_zeros(signs, true)
}

/// Whether each second octet is 00, of which the first is due or not.
fn has_zeros(octets: &[u8], is_due: bool) -> bool
    ensures { result ≡ has_zeros is_due octets.now }
{
    match octets {
        [] => true,
        [octet, later @ ..] => (!is_due || *octet == 0) && has_zeros(later, !is_due),
    }
}

/// Whether the text begins with this sign, and its first 16 octets are printable.
fn is_text_from(text: &[u8], sign: u8) -> bool
    ensures { result ≡ is_text_from sign text.now }
{
    begin_with(text, &[sign]) && are_all_printable(&text[..text.len().min(16)])
}

fn are_all_printable(octets: &[u8]) -> bool
    ensures { result ≡ list_all is_printable octets.now }
{
    octets.iter().all(|octet| is_printable(*octet))
}

/// A letter, figure or sign of ASCII, or a blank.
fn is_printable(octet: u8) -> bool
    ensures { result ≡ is_printable octet }
{
    match octet {
        b' '..=b'~' | b'\t' | b'\r' | b'\n' => true,
        _ => false,
    }
}

/// Whether all octets are hexadecimal figures, or are between such.
fn are_all_hexadecimal(octets: &[u8]) -> bool
    ensures { result ≡ list_all is_hexadecimal octets.now }
{
    octets.iter().all(|octet| is_hexadecimal(*octet))
}

fn is_hexadecimal(octet: u8) -> bool
    ensures { result ≡ is_hexadecimal octet }
{
    match octet {
        b'0'..=b'9' | b'A'..=b'F' | b'a'..=b'f' | b':' | b' ' | b'\t' | b'\r' | b'\n' => true,
        _ => false,
    }
}

/// Whether all octets are of base64 or base64url (RFC 4648 sections 4, 5) or white space.
fn are_all_base64(octets: &[u8]) -> bool
    ensures { result ≡ list_all is_base64 octets.now }
{
    octets.iter().all(|octet| is_base64(*octet))
}

fn is_base64(octet: u8) -> bool
    ensures { result ≡ is_base64 octet }
{
    match octet {
        b'A'..=b'Z' | b'a'..=b'z' | b'0'..=b'9' | b'+' | b'/' | b'-' | b'_' | b'=' => true,
        b' ' | b'\t' | b'\r' | b'\n' => true,
        _ => false,
    }
}

/// Whether octets were taken for a text on their way: before each line feed stands a carriage return, and there are two
/// line feeds or more.
pub(crate) fn has_lines(octets: &[u8]) -> bool
    ensures { result ≡ has_lines octets.now }
{
    let mut left = octets;
    let mut previous = 0;
    let mut one = false;
    let mut two = false;
    while let [octet, rest @ ..] = left {
        if *octet == b'\n' {
            if previous != b'\r' {
                return false;
            }
            two = one;
            one = true;
        }
        previous = *octet;
        left = rest;
    }
    two
}
