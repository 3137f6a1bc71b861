// The order of SET OF (X.690 11.6). No DER text begins another one, so it is the plain order of the members' texts.
ghost use Rattle.std.specs.Prelude.{◌≡◌, ◌==◌, ◌↔◌, ◌<◌, ◌^◌, IfOk, IsOk, IsPermutation, IsSorted, IsTrue, length};
ghost use Rattle.std.specs.Prelude.{map, true};
ghost use Rattle.std.proofs.Common.{rules};
ghost use Rattle.std.specs.Cmp.{partial_order_from_own_ties};
ghost use Rattle.std.specs.Cmp.Rules.{comparing};
ghost use Rattle.std.specs.Cmp.Lexicographic.{pointwise, slice_cmp};
ghost use Rattle.std.specs.Ordering.{as_partial_cmp, nat_cmp, on};
ghost use Rattle.x690.specs.DerTexts.{der, texts_of};
ghost use Rattle.asn_elements.specs.Members.{ascends};

use crate::row::{starts_of, texts};
use asn_elements::der_text::DerText;
use asn_elements::texts::ascend;
use std::alloc::{AllocError, Global};
use std::cmp::Ordering;

/// A member while it is put in order, with its text, which stands among those of all members: an allocation for each
/// would take more memory than a small member.
#[derive(Drop)]
struct Keyed<'a, T: DerText> {
    item: T,
    text: &'a [u8],
    ghost own: { text.now ≡ der (T.value item) },
}

impl<'a, T: DerText> PartialEq for Keyed<'a, T> {
    ghost eq = { on (λ k. k.text.now) (pointwise ◌==◌) };

    ghost laws = { Prim.search (comparing, rules) };

    fn eq(&self, other: &Keyed<'a, T>) -> bool {
        self.text == other.text
    }
}

impl<'a, T: DerText> Eq for Keyed<'a, T> {
    ghost laws = { Prim.search (comparing, rules) };
}

impl<'a, T: DerText> Ord for Keyed<'a, T> {
    ghost cmp = { on (λ k. k.text.now) (slice_cmp nat_cmp) };

    ghost total = { Prim.search (comparing, rules) };

    ghost matches_partial_cmp = { Prim.search (comparing, rules) };

    ghost matches_eq = { Prim.search (comparing, rules) };

    fn cmp(&self, other: &Keyed<'a, T>) -> Ordering {
        self.text.cmp(other.text)
    }
}

impl<'a, T: DerText> PartialOrd for Keyed<'a, T> {
    ghost partial_cmp = { as_partial_cmp (on (λ k. k.text.now) (slice_cmp nat_cmp)) };

    ghost laws = { partial_order_from_own_ties (Prim.search (comparing, rules))
        (Prim.search (comparing, rules)) };

    fn partial_cmp(&self, other: &Keyed<'a, T>) -> Option<Ordering> {
        Some(self.cmp(other))
    }
}

/// Whether the items, whose texts stand one after another in `octets`, are in order. The places where the texts begin
/// are given back before the items are put in order.
fn is_in_order<T: DerText>(alloc: Global, items: &[T], octets: &[u8]) -> Result<bool, AllocError>
    requires texts { octets.now ≡ texts_of (map T.value items.now) }
    requires small { length octets.now < 2 ^ 63 }
    ensures { IfOk result (λ answer. IsTrue answer
        ↔ IsSorted (slice_cmp nat_cmp) (map der (map T.value items.now))) }
{
    let (starts, _) = starts_of(alloc, items, 0)?;
    Ok(ascend(octets, &starts))
}

/// The items with their keys, where their texts stand one after another in `octets`.
fn add_keys<'a, T: DerText>(
    alloc: Global,
    items: Vec<T>,
    octets: &'a [u8],
) -> Result<Vec<Keyed<'a, T>>, AllocError>
    requires { octets.now ≡ texts_of (map T.value items.items) }
    ensures { IfOk result (λ keys. map (λ k. k.item) keys.items ≡ items.items) }
{
    let mut keys = Vec::with_capacity(alloc, items.len())?;
    let mut rest = octets;
    for item in items {
        let (text, others) = rest.split_at(item.size() as usize);
        keys.push(Keyed { item, text })?;
        rest = others;
    }
    Ok(keys)
}

/// The items without their keys.
fn drop_keys<'a, T: DerText>(alloc: Global, keys: Vec<Keyed<'a, T>>) -> Result<Vec<T>, AllocError>
    ensures { IfOk result (λ items. items.items ≡ map (λ k. k.item) keys.entry.items) }
{
    let mut items = Vec::with_capacity(alloc, keys.len())?;
    for key in keys {
        items.push(key.item)?;
    }
    Ok(items)
}

/// The items in the order of their texts; equal ones stay, each as often as it stands.
pub fn in_order<T: DerText>(alloc: Global, items: Vec<T>) -> Result<Vec<T>, AllocError>
    requires { length (texts_of (map T.value items.items)) < 2 ^ 63 }
    ensures same { IfOk result (λ sorted. IsPermutation items.items sorted.items) }
    ensures in_order { IfOk result (λ sorted. ascends (map der (map T.value sorted.items)) ≡ true) }
    // (memory is asked for where there is something to put in order)
    ensures few { length items.items < 2 → IsOk result }
{
    let mut exact = items;
    // A vector that grew may have room for twice as many.
    exact.shrink_to_fit();
    if exact.len() < 2 {
        return Ok(exact);
    }
    let octets = texts(alloc, &exact)?;
    // In DER they stand so already.
    if is_in_order(alloc, &exact, &octets)? {
        return Ok(exact);
    }
    let mut keys = add_keys(alloc, exact, &octets)?;
    keys.sort_unstable();
    let sorted = drop_keys(alloc, keys)?;
    Ok(sorted)
}
