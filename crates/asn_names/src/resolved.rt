//! The type of an element, no longer named, chosen or marked.
ghost use Rattle.std.specs.Prelude.{◌≡◌, map};
ghost use Rattle.x690.specs.Lists.{one_of};
ghost use Rattle.asn_names.specs.Resolving.{contents, from_member, leaf_at, resolved};

use crate::element::NamedElement;
use pkix_shapes::shape::Shape;
use tlv_core::tag::Tag;

/// What a type comes to.
#[derive(Clone, Copy)]
pub(crate) struct Resolved {
    /// Its innermost name.
    pub type_name: Option<&'static str>,
    /// Whether it is marked as private.
    pub private: bool,
    pub shape: &'static Shape,
}

/// What comes before an element.
#[derive(Clone, Copy)]
pub(crate) struct Before<'a> {
    pub document: &'a [u8],
    /// How many containers are open around it.
    pub depth: u64,
    /// The elements before it in the innermost one of these.
    pub elements: &'a [NamedElement],
}

/// What the type comes to for an element of this tag, by what comes before it. The name and the mark are those around
/// the type.
pub(crate) fn resolve(
    before: Before<'_>,
    tag: Tag,
    named: Option<&'static str>,
    private: bool,
    shape: &'static Shape,
) -> Resolved
    ensures { result ≡ resolved (λ path. leaf_at before.entry.document.now before.entry.depth path
        before.entry.elements.now) tag named.entry private shape.entry.ref_ptr shape.entry.now }
{
    match shape {
        Shape::Named(name, inner) => resolve(before, tag, Some(name), private, inner),
        Shape::Private(inner) => resolve(before, tag, named, true, inner),
        Shape::Choice(first, second) => {
            if first.fits(tag) {
                resolve(before, tag, named, private, first)
            } else {
                resolve(before, tag, named, private, second)
            }
        }
        Shape::DefinedBy(path, identifiers, first, second) => {
            let leaf = leaf_at(before.document, before.depth, path, before.elements);
            if is_one_of(leaf, identifiers) {
                resolve(before, tag, named, private, first)
            } else {
                resolve(before, tag, named, private, second)
            }
        }
        _ => Resolved {
            type_name: named,
            private,
            shape,
        },
    }
}

/// Whether the octets are one of these.
fn is_one_of(octets: &[u8], others: &[&[u8]]) -> bool
    ensures { result ≡ one_of octets.now (map (λ r. r.now) others.now) }
{
    match others {
        [] => false,
        [other, after @ ..] => octets == *other || is_one_of(octets, after),
    }
}

/// The contents of the leaf at a path among elements of this depth; none where it isn't there.
fn leaf_at<'a>(document: &'a [u8], depth: u64, path: &[u32], elements: &[NamedElement]) -> &'a [u8]
    ensures { result.now ≡ leaf_at document.now depth path.now elements.now }
{
    let [number, after @ ..] = path else {
        return &document[..0];
    };
    let [found, inside @ ..] = from_member(depth, *number, elements) else {
        return &document[..0];
    };
    if after.is_empty() {
        return contents(document, found);
    }
    leaf_at(document, depth.saturating_add(1), after, inside)
}

/// The elements from that of this number on, counted among those of the depth, up to a lesser depth.
fn from_member(depth: u64, number: u32, elements: &[NamedElement]) -> &[NamedElement]
    ensures { result.now ≡ from_member depth number elements.now }
{
    let mut left = number;
    let mut rest = elements;
    while let [element, after @ ..] = rest {
        if element.header.depth < depth {
            return &rest[..0];
        }
        if element.header.depth == depth {
            if left == 0 {
                return rest;
            }
            left -= 1;
        }
        rest = after;
    }
    rest
}

/// The contents octets of a primitive element that is whole.
fn contents<'a>(document: &'a [u8], element: &NamedElement) -> &'a [u8]
    ensures { result.now ≡ contents document.now element.now }
{
    let (Some(begin), Some(end)) = (element.begin, element.end) else {
        return &document[..0];
    };
    if element.header.constructed || begin > end || end > document.len() as u64 {
        return &document[..0];
    }
    &document[begin as usize..end as usize]
}
