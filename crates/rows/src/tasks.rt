//! Which task is done on which type.
use crate::allowed::Allowed;
use crate::answer::Answer;
use crate::contained::{ContainedInteger, ContainedLetter, ContainedTwice, Letter};
use crate::documents::{DocumentOf, ElementOf, Room, request_written, whole_octets};
use crate::fields::{Described, fields, same};
use crate::flagged::Flagged;
use crate::making::{compared, made};
use crate::normalising::{CheckedOf, NormalisedOf, normalised_into};
use crate::note::Note;
use crate::reading::{Of, Reader, Reading, SomeOf, TextOf, checked, once};
use crate::samples::Sample;
use crate::sequences::{IntegerAndBoolean, LineOf};
use crate::whole::{NormalisedWholeOf, WholeOf, checked_whole};
use crate::words::{Way, Words, words_of};
use crate::{calls, identifiers, sources, targets};
use asn_elements::bits::Bits;
use asn_elements::boolean::Bool;
use asn_elements::element::Element;
use asn_elements::implicit::Implicit;
use asn_elements::integer::Int;
use asn_elements::null::Null;
use asn_elements::octets::Octets;
use asn_elements::text::Text;
use asn_fields::sequence::{DefaultFalse, Optional, Required};
use asn_fields::tagged::Tagged;
use asn_lists::list::List;
use asn_lists::set_of::SetOf;
use asn_open_values::any::Any;
use pkcs8::encrypted_key::EncryptedKey;
use pkcs10::info::CertificationRequestInfo;
use pkcs10::request::CertificationRequest;
use pkix_values::algorithm::AlgorithmIdentifier;
use pkix_values::attribute::Attribute;
use pkix_values::extension::Extension;
use pkix_values::name::{Name, NameItem, Rdn};
use pkix_values::public_key::SubjectPublicKeyInfo;
use pkix_values::request_attribute::RequestAttribute;
use pkix_values::set_of_some::SetOfSome;
use pkix_values::version::Version;
use private_keys::curve_key::CurveKey;
use private_keys::ec_private_key::EcPrivateKey;
use private_keys::other_prime_info::OtherPrimeInfo;
use private_keys::rsa_private_key::RsaPrivateKey;
use std::alloc::Global;
use tlv_core::oid::Oid;

/// A task on a type and its octets; `followed` goes on after them.
#[derive(Clone, Copy)]
pub struct Task<'a> {
    pub words: Words<'a>,
    pub octets: &'a [u8],
    pub followed: &'a [u8],
}

/// The answer to a line and the octets after it; `followed` goes on after them.
pub fn answered(alloc: Global, line: &str, octets: &[u8], followed: &[u8]) -> Answer {
    let mut words = line.split_whitespace();
    Answer::either(match words.next() {
        Some("calls") => calls::answered(alloc, &mut words, octets),
        Some("arcs") => identifiers::made(alloc, &mut words),
        Some("contents") => identifiers::read(alloc, octets),
        Some("compare") if !line.ends_with("integer-set") => {
            identifiers::compared(alloc, &mut words, octets)
        }
        Some("source") => sources::answered(alloc, &mut words, octets),
        Some("target") => targets::answered(alloc, &mut words, octets),
        _ => Err(answered_of_type(alloc, line, octets, followed)),
    })
}

/// The answer to a task on a type.
fn answered_of_type<'a>(
    alloc: Global,
    line: &'a str,
    octets: &'a [u8],
    followed: &'a [u8],
) -> Answer {
    match words_of(line) {
        Some(words) => on_type(
            alloc,
            &Task {
                words,
                octets,
                followed,
            },
        ),
        None => Answer::Unknown,
    }
}

fn on_type(alloc: Global, task: &Task<'_>) -> Answer {
    let words = &task.words;
    match words.task {
        "make" => made(alloc, words.name, task.octets, words.is_checked()),
        "compare" if words.name == "integer-set" => compared(alloc, task.octets),
        "signed" if words.name == "request" => request(alloc, task, false),
        "written" if words.name == "request" => request(alloc, task, true),
        _ if words.name == "sample" => on_sample(alloc, task),
        _ => of_own_type(alloc, task),
    }
}

/// What is done with a value of a type of the rows' own, or of one of those below.
fn of_own_type(alloc: Global, task: &Task<'_>) -> Answer {
    match task.words.name {
        "note" => plain::<Note>(alloc, task),
        "flagged" => plain::<Flagged>(alloc, task),
        "allowed" => plain::<Allowed>(alloc, task),
        "letter" => plain::<Letter>(alloc, task),
        "contained-integer" => plain::<ContainedInteger>(alloc, task),
        "contained-twice" => plain::<ContainedTwice>(alloc, task),
        "contained-letter" => plain::<ContainedLetter>(alloc, task),
        "integer-and-boolean" => read_fields::<(Required<Int>, Required<Bool>)>(alloc, task),
        "integer-and-optional-boolean" => read_fields::<(Required<Int>, Optional<Bool>)>(
            alloc, task,
        ),
        "integer-and-boolean-or-false" => read_fields::<(Required<Int>, DefaultFalse)>(alloc, task),
        _ => of_plain_type(alloc, task),
    }
}

/// What is done with a value of a type of ASN.1, or of one of those below.
fn of_plain_type(alloc: Global, task: &Task<'_>) -> Answer {
    match task.words.name {
        "boolean" => plain::<Bool>(alloc, task),
        "integer" => plain::<Int>(alloc, task),
        "null" => plain::<Null>(alloc, task),
        "identifier" => plain::<Oid>(alloc, task),
        "bit-string" => plain::<Bits>(alloc, task),
        "octet-string" => plain::<Octets>(alloc, task),
        "integers" => plain::<List<Int>>(alloc, task),
        "some-integers" => read_by::<SomeOf<Int>>(alloc, task),
        "character-string-set" => plain::<SetOf<Text>>(alloc, task),
        "octet-string-sets" => plain::<SetOf<SetOf<Octets>>>(alloc, task),
        "tagged-0-identifier" => plain::<Tagged<0, Oid>>(alloc, task),
        "implicit-1-bit-string" => plain::<Implicit<1, Bits>>(alloc, task),
        "some-integer-set" => plain::<SetOfSome<Int>>(alloc, task),
        "character-string" => described::<Text>(alloc, task),
        "integer-set" => described::<SetOf<Int>>(alloc, task),
        "implicit-0-integer-set" => described::<Implicit<0, SetOf<Int>>>(alloc, task),
        "open-value" => described::<Any>(alloc, task),
        _ => of_type(alloc, task),
    }
}

/// What is done with a value of a type of the RFCs.
fn of_type(alloc: Global, task: &Task<'_>) -> Answer {
    match task.words.name {
        "version-0-1" => described::<Version<0, 1>>(alloc, task),
        "version-126-255" => described::<Version<126, 255>>(alloc, task),
        "algorithm" => described::<AlgorithmIdentifier>(alloc, task),
        "name-item" => described::<NameItem>(alloc, task),
        "name-part" => described::<Rdn>(alloc, task),
        "name" => described::<Name>(alloc, task),
        "public-key" => described::<SubjectPublicKeyInfo>(alloc, task),
        "attribute" => described::<Attribute>(alloc, task),
        "request-attribute" => described::<RequestAttribute>(alloc, task),
        "extension" => plain::<Extension>(alloc, task),
        "request-info" => described::<CertificationRequestInfo>(alloc, task),
        "request" => described::<CertificationRequest>(alloc, task),
        "ec-key" => described::<EcPrivateKey>(alloc, task),
        "curve-key" => described::<CurveKey>(alloc, task),
        "encrypted-key" => described::<EncryptedKey>(alloc, task),
        "other-prime" => described::<OtherPrimeInfo>(alloc, task),
        "rsa-key" => described::<RsaPrivateKey>(alloc, task),
        _ => Answer::Unknown,
    }
}

/// A value of the type, by itself, as a document, as an element or as all of the octets.
fn plain<T: Element>(alloc: Global, task: &Task<'_>) -> Answer {
    match task.words.task {
        "document" => told_of::<DocumentOf<T>>(alloc, task, false),
        "element" => told_of::<ElementOf<T>>(alloc, task, false),
        "whole" => whole_octets::<T>(alloc, task.octets, task.words.limits),
        _ => read_by::<Of<T>>(alloc, task),
    }
}

/// A value of the type, whether two are the same, or what the field readers of one answer.
fn described<T: Described + Element>(alloc: Global, task: &Task<'_>) -> Answer {
    match task.words.task {
        "same" => same::<T>(alloc, task.octets, task.words.limits),
        "fields" => fields::<T>(alloc, task.octets, task.words.limits),
        _ => plain::<T>(alloc, task),
    }
}

/// A value that is read so.
fn read_by<K: Reader>(alloc: Global, task: &Task<'_>) -> Answer {
    let limits = task.words.limits;
    match (task.words.task, task.words.way) {
        ("read", Way::Checked) => checked::<TextOf<K>>(alloc, task.octets, task.followed, limits),
        ("read", Way::Once) => once::<K>(alloc, task.octets, limits, false),
        ("read", Way::Again) => once::<K>(alloc, task.octets, limits, true),
        _ => Answer::Unknown,
    }
}

/// What is done with a sample: all that can be done with a value of a type that is as the laws ask.
fn on_sample(alloc: Global, task: &Task<'_>) -> Answer {
    let words = &task.words;
    match words.task {
        "normalise" => told_of::<NormalisedOf<Sample>>(alloc, task, false),
        "check" => told_of::<CheckedOf<Sample>>(alloc, task, false),
        "whole" => told_of::<WholeOf<Sample>>(alloc, task, true),
        "normalise-whole" => told_of::<NormalisedWholeOf<Sample>>(alloc, task, true),
        "normalise-into" if words.piece > 0 => {
            let room = Room {
                room: words.room,
                piece: words.piece,
            };
            normalised_into::<Sample>(alloc, task.octets, words.limits, room)
        }
        _ => plain::<Sample>(alloc, task),
    }
}

/// What a reading tells, of octets with others after them or of all of its input.
fn told_of<K: Reading>(alloc: Global, task: &Task<'_>, is_whole: bool) -> Answer {
    let limits = task.words.limits;
    match task.words.way {
        Way::Checked if is_whole => checked_whole::<K>(alloc, task.octets, task.followed, limits),
        Way::Checked => checked::<K>(alloc, task.octets, task.followed, limits),
        _ => {
            let mut source = task.octets;
            K::told(alloc, &mut source, limits).answer
        }
    }
}

/// The fields of a SEQUENCE.
fn read_fields<F: IntegerAndBoolean>(alloc: Global, task: &Task<'_>) -> Answer {
    match task.words.task {
        "fields" => checked::<LineOf<F>>(alloc, task.octets, task.followed, task.words.limits),
        _ => Answer::Unknown,
    }
}

fn request(alloc: Global, task: &Task<'_>, is_whole: bool) -> Answer {
    let words = &task.words;
    if words.piece == 0 {
        return Answer::Unknown;
    }
    let room = Room {
        room: words.room,
        piece: words.piece,
    };
    request_written(alloc, task.octets, words.limits, room, is_whole)
}
