//! Subidentifiers below 2^128 (X.690 8.19.2).
ghost use Rattle.std.specs.Prelude.{◌≡◌, ◌+◌, ◌^◌, ◌<◌, ◌≤◌, ◌++◌, ℕ, List, IfOk, IfSome, IsNone, length, take};
ghost use Rattle.tlv_core.specs.Identifier.{base128, leading_base128};

use std::alloc::AllocError;

/// The number whose base-128 digits the octets begin with, and how many digits it has.
pub(crate) fn first_subidentifier(octets: &[u8]) -> Option<(u128, usize)>
    ensures some { IfSome result (λ found. 0 < found.1) }
    ensures within { IfSome result (λ found. found.1 ≤ length octets.now) }
    ensures below { IfSome result (λ found. found.0 < 2 ^ 128) }
    ensures digits { IfSome result (λ found. take found.1 octets.now ≡ base128 found.0) }
    ensures none { IsNone result → (n : ℕ) (rest : List ℕ) → n < 2 ^ 128
        → octets.now ≡ base128 n ++ rest → ⊥ }
{
    let mut number: u64 = 0;
    for (i, octet) in octets.iter().enumerate() {
        if number == 0 && *octet == 128 {
            return None;
        }
        if number >= 1 << 57 {
            return wide_subidentifier(octets);
        }
        number = number * 128 + u64::from(*octet % 128);
        if *octet < 128 {
            return Some((u128::from(number), i + 1));
        }
    }
    None
}

/// The same, in numbers of 128 bits.
#[cold]
fn wide_subidentifier(octets: &[u8]) -> Option<(u128, usize)>
    ensures some { IfSome result (λ found. 0 < found.1) }
    ensures within { IfSome result (λ found. found.1 ≤ length octets.now) }
    ensures below { IfSome result (λ found. found.0 < 2 ^ 128) }
    ensures digits { IfSome result (λ found. take found.1 octets.now ≡ base128 found.0) }
    ensures none { IsNone result → (n : ℕ) (rest : List ℕ) → n < 2 ^ 128
        → octets.now ≡ base128 n ++ rest → ⊥ }
{
    let mut number: u128 = 0;
    for (i, octet) in octets.iter().enumerate() {
        if *octet == 128 && number == 0 {
            return None;
        }
        if number >= 1 << 121 {
            return None;
        }
        number = number * 128 + u128::from(*octet % 128);
        if *octet < 128 {
            return Some((number, i + 1));
        }
    }
    None
}

/// How many octets the first subidentifier has: 0 where none stands there. Most have one, two or three.
#[inline(always)]
pub(crate) fn subidentifier_size(octets: &[u8]) -> usize
    ensures within { result ≤ length octets.now }
    ensures some { 0 < result → (n : ℕ) × (n < 2 ^ 128) × (take result octets.now ≡ base128 n) }
    ensures none { result ≡ 0 → (n : ℕ) (rest : List ℕ) → n < 2 ^ 128
        → octets.now ≡ base128 n ++ rest → ⊥ }
{
    if octets.is_empty() {
        return 0;
    }
    let first = octets[0];
    if first < 128 {
        return 1;
    }
    if first > 128 && octets.len() > 1 {
        if octets[1] < 128 {
            return 2;
        }
        if octets.len() > 2 && octets[2] < 128 {
            return 3;
        }
    }
    match first_subidentifier(octets) {
        Some((_, size)) => size,
        None => 0,
    }
}

/// Puts the base-128 digits of the number after the octets, each with bit 8 set.
fn push_leading_base128(octets: &mut Vec<u8>, number: u128) -> Result<(), AllocError>
    ensures { IfOk result (λ _. octets.new.items ≡ octets.old.items
        ++ leading_base128 number number) }
{
    if number > 0 {
        push_leading_base128(octets, number / 128)?;
        octets.push((128 + number % 128) as u8)?;
    }
    Ok(())
}

/// Puts the base-128 digits of the number after the octets.
pub(crate) fn push_subidentifier(octets: &mut Vec<u8>, number: u128) -> Result<(), AllocError>
    ensures { IfOk result (λ _. octets.new.items ≡ octets.old.items ++ base128 number) }
{
    push_leading_base128(octets, number / 128)?;
    octets.push((number % 128) as u8)?;
    Ok(())
}
