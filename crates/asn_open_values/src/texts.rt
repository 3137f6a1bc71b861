// The texts of a SET OF's members, as octets, in the order of SET OF (X.690 11.6).
ghost use Rattle.std.specs.Prelude.{◌≡◌, List, IfOk, IsSorted, Ok, map};
ghost use Rattle.std.specs.Cmp.Lexicographic.{slice_cmp};
ghost use Rattle.std.specs.Ordering.{nat_cmp};
ghost use Rattle.x690.specs.DerTexts.{arrange, der};
ghost use Rattle.x690.specs.Lists.{join};
ghost use Rattle.x690.specs.Values.{Value};
ghost use Rattle.asn_elements.specs.Members.{StandIn};

use asn_elements::texts::{ascend, text_at};
use std::alloc::{AllocError, Global};

/// The texts, each for itself.
fn cut<'a>(alloc: Global, octets: &'a [u8], starts: &[u64]) -> Result<Vec<&'a [u8]>, AllocError>
    requires { (values : List Value) × StandIn values octets.now starts.now }
    ensures { IfOk result (λ texts. (values : List Value) → StandIn values octets.now starts.now
        → map (λ t. t.now) texts.items ≡ map der values) }
{
    let mut texts = Vec::with_capacity(alloc, starts.len())?;
    for i in 0..starts.len() {
        texts.push(text_at(octets, starts, i))?;
    }
    Ok(texts)
}

/// The texts one after another, in a vector with this capacity.
fn joined(alloc: Global, capacity: usize, texts: &[&[u8]]) -> Result<Vec<u8>, AllocError>
    ensures { IfOk result (λ octets. octets.items ≡ join (map (λ t. t.now) texts.now)) }
{
    let mut octets = Vec::with_capacity(alloc, capacity)?;
    for text in texts {
        octets.extend_from_slice(text)?;
    }
    Ok(octets)
}

/// The texts that stand one after another in `octets`, each beginning at one of `starts`, in the order of SET OF; equal
/// ones stay. No DER text begins another one, so the plain order of octets, in which nothing is padded, is that order.
pub fn in_order(alloc: Global, octets: Vec<u8>, starts: &[u64]) -> Result<Vec<u8>, AllocError>
    requires { (values : List Value) × StandIn values octets.items starts.now }
    ensures sorted { IfOk result (λ sorted. (values : List Value)
        → StandIn values octets.items starts.now
        → sorted.items ≡ join (arrange (map der values))) }
    // (memory is asked for where they aren't in order)
    ensures still { (values : List Value) → StandIn values octets.items starts.now
        → IsSorted (slice_cmp nat_cmp) (map der values) → result ≡ Ok octets }
{
    // In DER they stand so already.
    if ascend(&octets, starts) {
        return Ok(octets);
    }
    let mut texts = cut(alloc, &octets, starts)?;
    texts.sort_unstable();
    joined(alloc, octets.len(), &texts)
}
