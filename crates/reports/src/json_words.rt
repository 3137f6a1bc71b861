//! Words of JSON that stay as they are, whatever the words of the text become.
ghost use Rattle.std.specs.Prelude.{◌≡◌};
ghost use Rattle.reports.specs.JsonWords.{cause_word, class_word, guess_word};

use crate::report::{Cause, Guess};
use tlv_core::tag::Class;

pub(crate) fn word_of_class(class: Class) -> &'static str
    ensures { result.now ≡ class_word class }
{
    match class {
        Class::Universal => "universal",
        Class::Application => "application",
        Class::Context => "context",
        Class::Private => "private",
    }
}

pub(crate) fn word_of_cause(cause: Cause) -> &'static str
    ensures { result.now ≡ cause_word cause }
{
    match cause {
        Cause::LongLength => "long_length",
        Cause::IndefiniteLength => "indefinite_length",
        Cause::Segments => "segments",
        Cause::True => "true",
        Cause::UnusedBits => "unused_bits",
        Cause::Default => "default",
        Cause::Order => "order",
    }
}

/// Empty where nothing is known.
pub(crate) fn word_of_guess(guess: Guess) -> &'static str
    ensures { result.now ≡ guess_word guess }
{
    match guess {
        Guess::Unknown => "",
        Guess::Empty => "empty",
        Guess::Pem(_) => "pem",
        Guess::PemBehind(_) => "pem_behind",
        Guess::EncryptedPem(_) => "encrypted_pem",
        Guess::Kind(kind) => kind.word,
        Guess::RsaPrivateKey => "rsa_private_key",
        Guess::RsaPublicKey => "rsa_public_key",
        Guess::DsaPrivateKey => "dsa_private_key",
        Guess::Certificate => "certificate",
        Guess::Pkcs12 => "pkcs12",
        Guess::Hexadecimal => "hexadecimal",
        Guess::Base64 => "base64",
        Guess::Dump => "dump",
        Guess::Utf16 => "utf16",
        Guess::Markup => "markup",
        Guess::Json => "json",
        Guess::PrivateJwk => "jwk_private",
        Guess::PublicJwk => "jwk",
        Guess::PrivateRsaXml => "xml_private_key",
        Guess::PublicRsaXml => "xml_key",
        Guess::JavaKeyStore => "java_key_store",
        Guess::OpenSshKey => "openssh_key",
        Guess::SshPublicKey => "ssh_public_key",
        Guess::PuttyKey => "putty_key",
        Guess::Ssh2PublicKey => "ssh2_public_key",
        Guess::Recoded => "recoded",
        Guess::Replaced => "replaced",
        Guess::TextLines => "text_lines",
    }
}
