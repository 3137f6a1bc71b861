//! How long the modulus is of a key of RSA that a document contains.
ghost use Rattle.std.specs.Prelude.{◌≡◌};
ghost use Rattle.std.specs.Option.{option_map};
ghost use Rattle.explain.specs.Moduli.{bits_of, modulus_by, modulus_in, modulus_of, positive_bits};

use crate::document::inside::Inside;
use crate::document::values::{contents_of, is_field};
use asn_names::element::NamedElement;
use reports::keys::{integer_bits, is_below_zero};
use reports::report::Answer;

/// How many bits the first modulus has that stands in these, of a document that is accepted. It is public, also in a
/// private key (RFC 8017 section 3.2).
pub(crate) fn modulus_by(answer: Answer, insides: &[Inside]) -> Option<u64>
    ensures { result ≡ modulus_by answer insides.now }
{
    match answer {
        Answer::Der | Answer::NotDer(_) => modulus_of(insides),
        Answer::Refused(_) => None,
    }
}

fn modulus_of(insides: &[Inside]) -> Option<u64>
    ensures { result ≡ modulus_of insides.now }
{
    let mut left = insides;
    while let [inside, rest @ ..] = left {
        let bits = modulus_in(inside.octets.as_slice(), inside.named.elements.as_slice());
        if bits.is_some() {
            return bits;
        }
        left = rest;
    }
    None
}

/// The bits of the first modulus among elements.
fn modulus_in(octets: &[u8], elements: &[NamedElement]) -> Option<u64>
    ensures { result ≡ modulus_in octets.now elements.now }
{
    let mut left = elements;
    while let [element, rest @ ..] = left {
        if is_field(element.step, "modulus") {
            return bits_of(contents_of(octets, element));
        }
        left = rest;
    }
    None
}

/// How many bits the contents of an INTEGER have, where that is there and isn't negative.
fn bits_of(contents: Option<&[u8]>) -> Option<u64>
    ensures { result ≡ bits_of (option_map (λ r. r.now) contents.entry) }
{
    match contents {
        Some(contents) => positive_bits(contents),
        None => None,
    }
}

fn positive_bits(contents: &[u8]) -> Option<u64>
    ensures { result ≡ positive_bits contents.now }
{
    if is_below_zero(contents) {
        return None;
    }
    Some(integer_bits(contents))
}
