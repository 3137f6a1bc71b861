//! Object identifiers (X.690 8.19).
ghost use Rattle.std.specs.Prelude.{◌≡◌, ◌↔◌, ◌<◌, ◌≤◌, ◌^◌, ℕ, List, IfOk, IfSome, IsNone, IsTrue, ◌∷◌, drop};
ghost use Rattle.std.specs.Prelude.{flat_map, length, min, slice_get};
ghost use Rattle.tlv_core.specs.Identifier.{base128};
ghost use Rattle.tlv_core.specs.ObjectIdentifier.{ObjectIdentifierOctets, IsObjectIdentifier, LaterOctets};
ghost use Rattle.tlv_core.specs.declared.oid.OidError.TheVariants.{Bad, Memory};

use crate::subidentifier::{first_subidentifier, push_subidentifier, subidentifier_size};
use std::alloc::{AllocError, AllocFailed, Global};
use std::marker::Model;
use thiserror::Error;

/// Why there is no object identifier.
#[derive(Clone, Copy, Debug, PartialEq, Eq, Error)]
pub enum OidError {
    /// The arcs or octets are those of no object identifier whose subidentifiers are below 2^128.
    #[error("not an object identifier")]
    Bad,
    /// A growth of memory was refused.
    #[error("out of memory")]
    Memory,
}

impl From<AllocError> for OidError {
    ghost from_gives = { λ _ error. error ≡ Memory };

    fn from(_error: AllocError) -> OidError {
        OidError::Memory
    }
}

impl<T: Drop> From<AllocFailed<T>> for OidError {
    ghost from_gives = { λ _ error. error ≡ Memory };

    fn from(_error: AllocFailed<T>) -> OidError {
        OidError::Memory
    }
}

/// An object identifier: the octets of its contents. Its arcs are told from them by a walk.
#[derive(Drop)]
pub struct Oid {
    contents: Vec<u8>,
}

impl Model for Oid {
    ghost use Rattle.std.specs.Prelude.{List, ℕ};
    ghost use Rattle.tlv_core.specs.ObjectIdentifier.{IsObjectIdentifier};

    ghost Value = { List ℕ };

    ghost view = { λ oid. oid.contents.items };

    ghost invariant = { λ oid. IsObjectIdentifier oid.contents.items };
}

/// The arcs of an object identifier after the first two: a place to go on from, so that all are told in one walk.
#[derive(Drop)]
pub struct LaterArcs<'a> {
    rest: &'a [u8],
}

impl LaterArcs<'_> {
    ghost use Rattle.tlv_core.specs.LaterArcs.{StillToCome, octets_left};

    /// The next arc, which the place is then after; `None` where there is no other one, now or later.
    pub fn next(&mut self) -> Option<u128>
        ensures arc { (arcs : List ℕ) → StillToCome arcs self.old
            → (result ≡ slice_get arcs 0) × StillToCome (drop 1 arcs) self.new }
        ensures shorter { IfSome result (λ _. length (octets_left self.new)
            < length (octets_left self.old)) }
    {
        let Some((arc, used)) = first_subidentifier(self.rest) else {
            return None;
        };
        self.rest = &self.rest[used..];
        Some(arc)
    }
}

impl Oid {
    ghost use Rattle.tlv_core.specs.LaterArcs.{StillToCome};

    /// The object identifier with these arcs. `Bad` where there is none.
    pub fn from_arcs(alloc: Global, arcs: &[u128]) -> Result<Oid, OidError>
        ensures made { IfOk result (λ oid. ObjectIdentifierOctets arcs.now oid) }
        ensures bad { (result ≡ Err Bad) ↔ ((octets : List ℕ)
            → ObjectIdentifierOctets arcs.now octets → ⊥) }
    {
        let Some(first) = leading_subidentifier(arcs) else {
            return Err(OidError::Bad);
        };
        let mut contents = Vec::new(alloc);
        push_subidentifier(&mut contents, first)?;
        for arc in &arcs[2..] {
            push_subidentifier(&mut contents, *arc)?;
        }
        Ok(Oid { contents })
    }

    /// The object identifier with these contents. `Bad` where there is none.
    pub fn from_contents(alloc: Global, octets: &[u8]) -> Result<Oid, OidError>
        ensures made { IfOk result (λ oid. (oid ≡ octets.now) × IsObjectIdentifier oid) }
        ensures bad { (result ≡ Err Bad) ↔ (IsObjectIdentifier octets.now → ⊥) }
    {
        if !is_object_identifier(octets) {
            return Err(OidError::Bad);
        }
        let contents = octets.to_vec(alloc)?;
        Ok(Oid { contents })
    }

    /// The object identifier with these contents, which were judged before: no memory is taken.
    pub fn from_checked(contents: Vec<u8>) -> Oid
        requires { IsObjectIdentifier contents.items }
        ensures { result ≡ contents.items }
    {
        Oid { contents }
    }

    /// The octets of the contents.
    pub fn contents(&self) -> &[u8]
        ensures value { result.now ≡ self.now }
        ensures is { IsObjectIdentifier self.now }
        ensures short { length self.now < 2 ^ 63 }
    {
        &self.contents
    }

    /// The first two arcs, which one subidentifier tells, and the place of the later ones. To walk all arcs takes time
    /// for each octet of the contents once.
    pub fn arcs(&self) -> (u128, u128, LaterArcs<'_>)
        ensures all { (arcs : List ℕ) → ObjectIdentifierOctets arcs self.now
            → (arcs ≡ result.0 ∷ result.1 ∷ drop 2 arcs) × StillToCome (drop 2 arcs) result.2 }
        ensures is { IsObjectIdentifier self.now }
    {
        let (first, second, rest) = leading_arcs(self.contents());
        (first, second, LaterArcs { rest })
    }

    /// The number of arcs, 2 or more. They are counted at each call.
    pub fn arc_count(&self) -> usize
        ensures count { (arcs : List ℕ) → ObjectIdentifierOctets arcs self.now
            → result ≡ length arcs }
        ensures is { IsObjectIdentifier self.now }
    {
        let (_, _, rest) = leading_arcs(self.contents());
        let (passed, _) = pass_arcs(rest, usize::MAX);
        2 + passed
    }

    /// The arc at this place, counted from 0. Each call walks to it from the first one: `arcs` tells all in one walk.
    pub fn arc(&self, i: usize) -> Option<u128>
        ensures value { (arcs : List ℕ) → ObjectIdentifierOctets arcs self.now
            → result ≡ slice_get arcs i }
        ensures is { IsObjectIdentifier self.now }
    {
        let (first, second, later) = leading_arcs(self.contents());
        if i == 0 {
            return Some(first);
        }
        if i == 1 {
            return Some(second);
        }
        let (_, rest) = pass_arcs(later, i - 2);
        let mut place = LaterArcs { rest };
        place.next()
    }

    /// Whether the two have the same arcs, and so the same contents.
    pub fn same(&self, other: &Oid) -> bool
        ensures { IsTrue result ↔ (self.now ≡ other.now) }
    {
        self.contents == other.contents
    }
}

/// The subidentifier of the first two arcs, where all arcs are those of an object identifier.
fn leading_subidentifier(arcs: &[u128]) -> Option<u128>
    ensures some { IfSome result (λ first. ObjectIdentifierOctets arcs.now
        (flat_map base128 (first ∷ drop 2 arcs.now))) }
    ensures none { IsNone result → (octets : List ℕ) → ObjectIdentifierOctets arcs.now octets → ⊥ }
{
    if arcs.len() < 2 || arcs[0] > 2 {
        return None;
    }
    let last = if arcs[0] < 2 { 39 } else { u128::MAX };
    if arcs[1] > last {
        return None;
    }
    arcs[1].checked_add(40 * arcs[0])
}

/// Whether the octets are the contents of an object identifier (X.690 8.19) whose subidentifiers are below 2^128.
pub fn is_object_identifier(octets: &[u8]) -> bool
    ensures { IsTrue result ↔ IsObjectIdentifier octets.now }
{
    let first = subidentifier_size(octets);
    if first == 0 {
        return false;
    }
    let mut rest = &octets[first..];
    while !rest.is_empty() {
        let next = subidentifier_size(rest);
        if next == 0 {
            return false;
        }
        rest = &rest[next..];
    }
    true
}

/// The first two arcs of the object identifier with these contents, and the octets of the later ones.
fn leading_arcs(octets: &[u8]) -> (u128, u128, &[u8])
    requires { IsObjectIdentifier octets.now }
    ensures all { (arcs : List ℕ) → ObjectIdentifierOctets arcs octets.now
        → (arcs ≡ result.0 ∷ result.1 ∷ drop 2 arcs) × LaterOctets (drop 2 arcs) result.2.now }
    ensures within { length result.2.now ≤ length octets.now }
{
    let Some((first, used)) = first_subidentifier(octets) else {
        unreachable!()
    };
    let lead = (first / 40).min(2);
    (lead, first - 40 * lead, &octets[used..])
}

/// Passes as many of the later arcs as are asked for, or all: their number, and the octets after them.
fn pass_arcs(octets: &[u8], most: usize) -> (usize, &[u8])
    ensures arcs { (arcs : List ℕ) → LaterOctets arcs octets.now
        → (result.0 ≡ min most (length arcs)) × LaterOctets (drop result.0 arcs) result.1.now }
    ensures within { result.0 ≤ length octets.now }
{
    let mut rest = octets;
    let mut passed = 0;
    while passed < most {
        let Some((_, used)) = first_subidentifier(rest) else {
            return (passed, rest);
        };
        rest = &rest[used..];
        passed += 1;
    }
    (passed, rest)
}
