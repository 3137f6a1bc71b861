//! What a document is by its first headers.
ghost use Rattle.std.specs.Prelude.{◌≡◌, bytes_eq};
ghost use Rattle.std.specs.Option.{option_map};
ghost use Rattle.explain.specs.Heads.{are_numbers, begins_with, code_of, code_of_event, guess_by_outline};
ghost use Rattle.explain.specs.Heads.{has_contents, is_certificate, is_content_info, is_exponent, is_integer, is_pfx};
ghost use Rattle.explain.specs.Heads.{are_first_integers, are_five_integers, are_integers, are_last_integers};
ghost use Rattle.explain.specs.Heads.{end_in_integers, is_dsa_private_key, is_end};
ghost use Rattle.explain.specs.Heads.{is_rsa_private_key, is_rsa_public_key};

use crate::document::values::octets_between;
use ber_outline::event::Event;
use reports::report::Guess;
use tlv_core::tag::{Class, Tag};

/// The numbers of universal tags (X.680 8.4).
const INTEGER: u32 = 2;

const OBJECT_IDENTIFIER: u32 = 6;

const SEQUENCE: u32 = 16;

/// [0], as a certificate begins with its version; and any other tag.
const EXPLICIT_0: u32 = 100;

const OTHER_TAG: u32 = 101;

/// What a document is by the first events of its outline.
pub(crate) fn guess_by_outline(octets: &[u8], events: &[Event]) -> Guess
    ensures { result ≡ guess_by_outline octets.now events.now }
{
    if is_rsa_private_key(octets, events) {
        Guess::RsaPrivateKey
    } else if is_dsa_private_key(octets, events) {
        Guess::DsaPrivateKey
    } else if is_rsa_public_key(octets, events) {
        Guess::RsaPublicKey
    } else if is_certificate(events) {
        Guess::Certificate
    } else if is_pfx(octets, events) {
        Guess::Pkcs12
    } else {
        Guess::Unknown
    }
}

/// RSAPrivateKey (RFC 8017 A.1.2): version 0, a modulus, and a usual exponent.
fn is_rsa_private_key(octets: &[u8], events: &[Event]) -> bool
    ensures { result ≡ is_rsa_private_key octets.now events.now }
{
    begins_with(octets, events, &[0]) && are_numbers(octets, events.get(2), events.get(3))
}

/// A private key of DSA in its old form: version 0 and five numbers, p, q, g and the two keys.
#[tactic(auto, unfolding(crate::specs::Heads::is_dsa_private_key))]
fn is_dsa_private_key(octets: &[u8], events: &[Event]) -> bool
    ensures { result ≡ is_dsa_private_key octets.now events.now }
{
    begins_with(octets, events, &[0]) && are_five_integers(events)
}

/// Whether five numbers are what follows the version, and all.
fn are_five_integers(events: &[Event]) -> bool
    ensures { result ≡ are_five_integers events.now }
{
    are_first_integers(events) && are_last_integers(events)
}

fn are_first_integers(events: &[Event]) -> bool
    ensures { result ≡ are_first_integers events.now }
{
    are_integers(events.get(2), events.get(3), events.get(4))
}

fn are_last_integers(events: &[Event]) -> bool
    ensures { result ≡ are_last_integers events.now }
{
    end_in_integers(events.get(5), events.get(6), events.get(7))
}

fn end_in_integers(fourth: Option<&Event>, fifth: Option<&Event>, end: Option<&Event>) -> bool
    ensures { result ≡ end_in_integers (option_map (λ r. r.now) fourth.entry)
        (option_map (λ r. r.now) fifth.entry) (option_map (λ r. r.now) end.entry) }
{
    code_of_event(fourth) == INTEGER && code_of_event(fifth) == INTEGER && is_end(end)
}

fn are_integers(first: Option<&Event>, second: Option<&Event>, third: Option<&Event>) -> bool
    ensures { result ≡ are_integers (option_map (λ r. r.now) first.entry)
        (option_map (λ r. r.now) second.entry) (option_map (λ r. r.now) third.entry) }
{
    code_of_event(first) == INTEGER
        && code_of_event(second) == INTEGER
        && code_of_event(third) == INTEGER
}

/// Whether the contents of the SEQUENCE end there.
fn is_end(event: Option<&Event>) -> bool
    ensures { result ≡ is_end (option_map (λ r. r.now) event.entry) }
{
    match event {
        Some(Event::End(_)) => true,
        _ => false,
    }
}

/// RSAPublicKey (RFC 8017 A.1.1): a modulus, and a usual exponent.
fn is_rsa_public_key(octets: &[u8], events: &[Event]) -> bool
    ensures { result ≡ is_rsa_public_key octets.now events.now }
{
    are_numbers(octets, events.get(1), events.get(2))
}

/// Whether elements are a modulus and a usual public exponent: 65537 or 3.
fn are_numbers(octets: &[u8], modulus: Option<&Event>, exponent: Option<&Event>) -> bool
    ensures { result ≡ are_numbers octets.now (option_map (λ r. r.now) modulus.entry)
        (option_map (λ r. r.now) exponent.entry) }
{
    code_of_event(modulus) == INTEGER && is_exponent(octets, exponent)
}

fn is_exponent(octets: &[u8], event: Option<&Event>) -> bool
    ensures { result ≡ is_exponent octets.now (option_map (λ r. r.now) event.entry) }
{
    is_integer(octets, event, &[1, 0, 1]) || is_integer(octets, event, &[3])
}

/// Certificate (RFC 5280 section 4.1): what is signed begins with its version, [0].
fn is_certificate(events: &[Event]) -> bool
    ensures { result ≡ is_certificate events.now }
{
    code_of_event(events.get(1)) == SEQUENCE && code_of_event(events.get(2)) == EXPLICIT_0
}

/// PFX (RFC 7292 section 4): version 3, and a ContentInfo, which begins with its type.
fn is_pfx(octets: &[u8], events: &[Event]) -> bool
    ensures { result ≡ is_pfx octets.now events.now }
{
    begins_with(octets, events, &[3]) && is_content_info(events.get(2), events.get(3))
}

fn is_content_info(sequence: Option<&Event>, first: Option<&Event>) -> bool
    ensures { result ≡ is_content_info (option_map (λ r. r.now) sequence.entry)
        (option_map (λ r. r.now) first.entry) }
{
    code_of_event(sequence) == SEQUENCE && code_of_event(first) == OBJECT_IDENTIFIER
}

/// Whether the first member is an INTEGER of these contents.
fn begins_with(octets: &[u8], events: &[Event], contents: &[u8]) -> bool
    ensures { result ≡ begins_with octets.now events.now contents.now }
{
    is_integer(octets, events.get(1), contents)
}

/// Whether an element is an INTEGER of these contents.
fn is_integer(octets: &[u8], event: Option<&Event>, contents: &[u8]) -> bool
    ensures { result
        ≡ is_integer octets.now (option_map (λ r. r.now) event.entry) contents.now }
{
    code_of_event(event) == INTEGER && has_contents(octets, event, contents)
}

/// Whether an element is primitive and has these contents.
fn has_contents(octets: &[u8], event: Option<&Event>, contents: &[u8]) -> bool
    ensures { result ≡ has_contents octets.now (option_map (λ r. r.now) event.entry) contents.now }
{
    match event {
        Some(Event::Primitive(_, begin, end)) => match octets_between(octets, *begin, *end) {
            Some(own) => own == contents,
            None => false,
        },
        _ => false,
    }
}

/// The tag of an element that begins, as one number; 0 of none.
fn code_of_event(event: Option<&Event>) -> u32
    ensures { result ≡ code_of_event (option_map (λ r. r.now) event.entry) }
{
    match event {
        Some(Event::Primitive(header, _, _)) => code_of(header.tag),
        Some(Event::Begin(header, _)) => code_of(header.tag),
        _ => 0,
    }
}

/// A tag as one number.
fn code_of(tag: Tag) -> u32
    ensures { result ≡ code_of tag }
{
    match tag.class() {
        Class::Universal if tag.number() < 31 => tag.number(),
        Class::Context if tag.number() == 0 => EXPLICIT_0,
        _ => OTHER_TAG,
    }
}
