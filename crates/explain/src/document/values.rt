//! What contents say, and whether a report shows it.
ghost use Rattle.std.specs.Prelude.{◌≡◌, ◌==◌, IfOk, cond, length};
ghost use Rattle.std.specs.Option.{option_map};
ghost use Rattle.explain.specs.Contents.{between, contents_in};
ghost use Rattle.explain.specs.Public.{Says, ShowsAll, ShowsContents, ShowsOwn, is_field, is_public, sort_of};
ghost use Rattle.explain.specs.Public.{number_of, sort_of_leaf, sort_of_number};

use asn_names::element::{NamedElement, Step};
use pkix_shapes::identifiers::identifier_of;
use pkix_shapes::shape::{Contents, Shape};
use reports::report::Value;
use std::alloc::{AllocError, Global};
use tlv_core::oid::{Oid, OidError};
use tlv_core::tag::{Class, Tag};
use tlv_core::text::push_oid;

/// What the contents of a primitive element are.
#[derive(Clone, Copy, PartialEq, Eq)]
pub(crate) enum Sort {
    Boolean,
    Integer,
    Null,
    Identifier,
    Bits,
    /// The BIT STRING subjectPublicKey, of a request or of a public key.
    PublicKey,
    Characters,
    Octets,
}

/// What the contents of an element are, by its type; by its tag where that is open.
pub(crate) fn sort_of(element: &NamedElement) -> Sort
    ensures { result ≡ sort_of element.now }
{
    match element.shape {
        Some(Shape::Leaf(_, contents)) => sort_of_leaf(element.step, *contents),
        Some(Shape::Open) => sort_of_tag(element.header.tag),
        _ => Sort::Octets,
    }
}

fn sort_of_leaf(step: Step, contents: Contents) -> Sort
    ensures { result ≡ sort_of_leaf step contents }
{
    match contents {
        Contents::Boolean => Sort::Boolean,
        Contents::Integer => Sort::Integer,
        Contents::Null => Sort::Null,
        Contents::ObjectIdentifier => Sort::Identifier,
        Contents::BitString if is_field(step, "subjectPublicKey") => Sort::PublicKey,
        Contents::BitString => Sort::Bits,
        Contents::OctetString => Sort::Octets,
        Contents::Utf8String | Contents::Text => Sort::Characters,
    }
}

/// By the universal tags of X.680 8.4.
fn sort_of_tag(tag: Tag) -> Sort
    ensures { result ≡ cond (tag.class == 0) (sort_of_number tag.number) Sort.Octets }
{
    if tag.class() != Class::Universal {
        return Sort::Octets;
    }
    sort_of_number(tag.number())
}

fn sort_of_number(number: u32) -> Sort
    ensures { result ≡ sort_of_number number }
{
    match number {
        1 => Sort::Boolean,
        2 | 10 => Sort::Integer,
        3 => Sort::Bits,
        5 => Sort::Null,
        6 => Sort::Identifier,
        12 | 18..=28 | 30 => Sort::Characters,
        _ => Sort::Octets,
    }
}

/// Whether contents of this sort are shown in an element that isn't private: all but keys, signatures and strings that
/// aren't a subject's.
pub(crate) fn is_public(sort: Sort, step: Step) -> bool
    ensures { result ≡ is_public sort step }
{
    match sort {
        Sort::Null
        | Sort::Identifier
        | Sort::Integer
        | Sort::Boolean
        | Sort::Bits
        | Sort::PublicKey => true,
        Sort::Characters => is_field(step, "value"),
        Sort::Octets => false,
    }
}

/// Whether an element is the field of this name.
pub(crate) fn is_field(step: Step, name: &str) -> bool
    ensures { result ≡ is_field step name.now }
{
    match step {
        Step::Field(own) => own == name,
        _ => false,
    }
}

/// What is shown of the contents of a primitive element that is whole: all of what is in the value of an extension,
/// else their number alone, where they aren't public.
pub(crate) fn listed_value(
    alloc: Global,
    is_carried: bool,
    element: &NamedElement,
    contents: &[u8],
) -> Result<Value, AllocError>
    ensures { IfOk result (λ value. ShowsContents is_carried element.now contents.now value) }
{
    if is_carried {
        return whole_value(alloc, sort_of(element), contents);
    }
    own_value(alloc, element, contents)
}

fn own_value(alloc: Global, element: &NamedElement, contents: &[u8]) -> Result<Value, AllocError>
    ensures { IfOk result (λ value. ShowsOwn element.now contents.now value) }
{
    let sort = sort_of(element);
    if element.private || !is_public(sort, element.step) {
        return Ok(size_alone(contents));
    }
    value_of(alloc, sort, contents)
}

/// All that contents say, by their octets where no words have it.
fn whole_value(alloc: Global, sort: Sort, contents: &[u8]) -> Result<Value, AllocError>
    ensures { IfOk result (λ value. ShowsAll sort contents.now value) }
{
    match sort {
        Sort::Bits | Sort::PublicKey | Sort::Octets => {
            Ok(Value::Octets(contents.to_vec(alloc)?))
        }
        Sort::Integer => whole_integer(alloc, contents),
        Sort::Null | Sort::Boolean | Sort::Characters | Sort::Identifier => {
            value_of(alloc, sort, contents)
        }
    }
}

fn whole_integer(alloc: Global, contents: &[u8]) -> Result<Value, AllocError>
    ensures { IfOk result (λ value. ShowsAll Sort.Integer contents.now value) }
{
    match short_integer(contents) {
        Some(number) => Ok(Value::Number(number)),
        None => Ok(Value::Octets(contents.to_vec(alloc)?)),
    }
}

/// What public contents say: their number alone, where they aren't short, or aren't what they have to be.
fn value_of(alloc: Global, sort: Sort, contents: &[u8]) -> Result<Value, AllocError>
    ensures { IfOk result (λ value. Says sort contents.now value) }
{
    match sort {
        Sort::Boolean => Ok(boolean_value(contents)),
        Sort::Integer => Ok(integer_value(contents)),
        Sort::Null => Ok(null_value(contents)),
        Sort::Identifier => identifier_value(alloc, contents),
        Sort::Bits => Ok(bits_value(contents)),
        Sort::PublicKey => Ok(key_value(contents)),
        Sort::Characters => Ok(Value::Characters(contents.to_vec(alloc)?)),
        Sort::Octets => Ok(size_alone(contents)),
    }
}

fn size_alone(contents: &[u8]) -> Value
    ensures { result ≡ Value.Size (length contents.now) }
{
    Value::Size(contents.len() as u64)
}

fn boolean_value(contents: &[u8]) -> Value
    ensures { Says Sort.Boolean contents.now result }
{
    match contents {
        [octet] => Value::Boolean(*octet != 0),
        _ => size_alone(contents),
    }
}

fn integer_value(contents: &[u8]) -> Value
    ensures { Says Sort.Integer contents.now result }
{
    match short_integer(contents) {
        Some(number) => Value::Number(number),
        None => size_alone(contents),
    }
}

/// The number that an INTEGER of up to four contents octets is which isn't negative.
fn short_integer(contents: &[u8]) -> Option<u64>
    ensures { result ≡ number_of contents.now }
{
    match contents {
        [0, b, ..] if *b < 128 => None,
        [a] if *a < 128 => Some(u64::from(*a)),
        [a, b] if *a < 128 => Some(u64::from(*a) * 256 + u64::from(*b)),
        [a, b, c] if *a < 128 => Some((u64::from(*a) * 256 + u64::from(*b)) * 256 + u64::from(*c)),
        [a, b, c, d] if *a < 128 => {
            Some(
                ((u64::from(*a) * 256 + u64::from(*b)) * 256 + u64::from(*c)) * 256 + u64::from(*d),
            )
        }
        _ => None,
    }
}

fn null_value(contents: &[u8]) -> Value
    ensures { Says Sort.Null contents.now result }
{
    match contents {
        [] => Value::Null,
        _ => size_alone(contents),
    }
}

fn bits_value(contents: &[u8]) -> Value
    ensures { Says Sort.Bits contents.now result }
{
    match contents {
        [unused, rest @ ..] if *unused < 8 => Value::Bits(rest.len() as u64, *unused, None),
        _ => size_alone(contents),
    }
}

/// Of a public key the first octet is shown, too, which says the form of a point (RFC 5480 section 2.2).
fn key_value(contents: &[u8]) -> Value
    ensures { Says Sort.PublicKey contents.now result }
{
    match contents {
        [unused, rest @ ..] if *unused < 8 => {
            Value::Bits(rest.len() as u64, *unused, rest.first().copied())
        }
        _ => size_alone(contents),
    }
}

/// An object identifier by its name, or by its arcs.
fn identifier_value(alloc: Global, contents: &[u8]) -> Result<Value, AllocError>
    ensures { IfOk result (λ value. Says Sort.Identifier contents.now value) }
{
    if let Some(known) = identifier_of(contents) {
        return Ok(Value::Named(known));
    }
    match Oid::from_contents(alloc, contents) {
        Ok(id) => {
            let mut arcs = String::new(alloc);
            push_oid(&mut arcs, &id)?;
            Ok(Value::Arcs(arcs))
        }
        Err(OidError::Bad) => Ok(size_alone(contents)),
        Err(OidError::Memory) => Err(AllocError),
    }
}

/// The contents octets of a primitive element that is whole.
pub(crate) fn contents_of<'a>(octets: &'a [u8], element: &NamedElement) -> Option<&'a [u8]>
    ensures { option_map (λ r. r.now) result ≡ contents_in octets.now element.now }
{
    if element.header.constructed {
        return None;
    }
    match (element.begin, element.end) {
        (Some(begin), Some(end)) => octets_between(octets, begin, end),
        _ => None,
    }
}

/// The octets between two places, where they are there.
pub(crate) fn octets_between(octets: &[u8], begin: u64, end: u64) -> Option<&[u8]>
    ensures { option_map (λ r. r.now) result ≡ between octets.now (Some begin) (Some end) }
{
    if begin <= end && end <= octets.len() as u64 {
        Some(&octets[begin as usize..end as usize])
    } else {
        None
    }
}
