//! The syntax of names in subjectAltName: mailboxes, URIs, and addresses among DNS names (RFC 5280 section 4.2.1.6).
ghost use Rattle.std.specs.Prelude.{◌≡◌};
ghost use Rattle.explain.specs.GeneralNames.{after_last, before_domain, goes_on, has_scheme, is_apart};
ghost use Rattle.explain.specs.GeneralNames.{is_letter, is_local_part, is_mail_domain, is_mailbox, is_scheme_octet};
ghost use Rattle.explain.specs.GeneralNames.{are_four, has_apart, is_ipv4_address, numbers_after, numbers_start};

use crate::notes::hosts::{is_domain_name, is_let_dig};

/// A number of an address has at most so many digits.
const MOST_DIGITS: u64 = 3;

/// Between its four numbers there are so many dots.
const DOTS: u64 = 3;

/// Decimal numbers with dots between, as far as they are read.
#[derive(Clone, Copy)]
struct DottedNumbers {
    dots: u64,
    /// Those of the last number.
    digits: u64,
}

/// A mailbox is a local part, `@`, and a domain or an address in brackets (RFC 5321 section 4.1.2).
pub(crate) fn is_mailbox(name: &[u8]) -> bool
    ensures { result ≡ is_mailbox name.now }
{
    let domain = after_last(b'@', name);
    is_local_part(before_domain(name, domain)) && is_mail_domain(domain)
}

/// What follows the last octet that is this one; all of it where there is none.
pub(crate) fn after_last(mark: u8, name: &[u8]) -> &[u8]
    ensures { result.now ≡ after_last mark name.now name.now }
{
    let mut found = name;
    let mut left = name;
    while let [octet, rest @ ..] = left {
        if *octet == mark {
            found = rest;
        }
        left = rest;
    }
    found
}

/// What is before the octet in front of a domain: nothing, where the domain is all.
fn before_domain<'a>(name: &'a [u8], domain: &[u8]) -> &'a [u8]
    ensures { result.now ≡ before_domain name.now domain.now }
{
    &name[..name.len().saturating_sub(domain.len()).saturating_sub(1)]
}

/// A local part has an octet at least; a blank, `<` and `>` in quotes alone.
fn is_local_part(local: &[u8]) -> bool
    ensures { result ≡ is_local_part local.now }
{
    match local {
        [] => false,
        [b'"', ..] => true,
        _ => !has_apart(local),
    }
}

fn has_apart(local: &[u8]) -> bool
    ensures { result ≡ has_apart local.now }
{
    local.iter().any(|octet| is_apart(*octet))
}

/// Whether it sets a mailbox apart from words around it.
fn is_apart(octet: u8) -> bool
    ensures { result ≡ is_apart octet }
{
    octet == b' ' || octet == b'<' || octet == b'>'
}

fn is_mail_domain(domain: &[u8]) -> bool
    ensures { result ≡ is_mail_domain domain.now }
{
    match domain {
        [b'[', ..] => true,
        _ => is_domain_name(domain),
    }
}

/// Whether a scheme (RFC 3986 section 3.1), a colon and an octet are first.
pub(crate) fn has_scheme(uri: &[u8]) -> bool
    ensures { result ≡ has_scheme uri.now }
{
    match uri {
        [first, rest @ ..] => is_letter(*first) && goes_on(rest),
        [] => false,
    }
}

fn is_letter(octet: u8) -> bool
    ensures { result ≡ is_letter octet }
{
    (octet >= b'A' && octet <= b'Z') || (octet >= b'a' && octet <= b'z')
}

/// Whether octets of a scheme are first, then a colon and an octet.
fn goes_on(octets: &[u8]) -> bool
    ensures { result ≡ goes_on octets.now }
{
    let mut left = octets;
    while let [octet, rest @ ..] = left {
        if *octet == b':' {
            return !rest.is_empty();
        }
        if !is_scheme_octet(*octet) {
            return false;
        }
        left = rest;
    }
    false
}

fn is_scheme_octet(octet: u8) -> bool
    ensures { result ≡ is_scheme_octet octet }
{
    is_let_dig(octet) || octet == b'+' || octet == b'-' || octet == b'.'
}

/// Whether a DNS name is an address of IP version 4: four decimal numbers of up to three digits, with dots between.
pub(crate) fn is_ipv4_address(name: &[u8]) -> bool
    ensures { result ≡ is_ipv4_address name.now }
{
    let mut numbers = numbers_start();
    let mut left = name;
    while let [octet, rest @ ..] = left {
        let Some(next) = numbers_after(numbers, *octet) else {
            return false;
        };
        numbers = next;
        left = rest;
    }
    are_four(numbers)
}

fn numbers_start() -> DottedNumbers
    ensures { result ≡ numbers_start }
{
    DottedNumbers { dots: 0, digits: 0 }
}

/// The numbers after an octet more.
fn numbers_after(numbers: DottedNumbers, octet: u8) -> Option<DottedNumbers>
    ensures { result ≡ numbers_after numbers octet }
{
    if octet == b'.' && numbers.digits > 0 && numbers.dots < DOTS {
        return Some(DottedNumbers {
            dots: numbers.dots + 1,
            digits: 0,
        });
    }
    if octet < b'0' || octet > b'9' || numbers.digits >= MOST_DIGITS {
        return None;
    }
    Some(DottedNumbers {
        dots: numbers.dots,
        digits: numbers.digits + 1,
    })
}

fn are_four(numbers: DottedNumbers) -> bool
    ensures { result ≡ are_four numbers }
{
    numbers.dots == DOTS && numbers.digits > 0
}
