//! Names and addresses that aren't on the Internet.
ghost use Rattle.std.specs.Prelude.{◌≡◌};
ghost use Rattle.std.specs.List.{list_any};
ghost use Rattle.explain.specs.Reach.{is_document_sixteen, is_host_itself, is_internal, is_label, is_of_documents};
ghost use Rattle.explain.specs.Reach.{is_own_sixteen, is_reserved, is_reserved_first, is_reserved_four};
ghost use Rattle.explain.specs.Reach.{is_reserved_pair, is_reserved_sixteen, own_labels, small, special_labels};

use crate::notes::general_names::after_last;

/// Whether a name isn't in the public DNS: it is one label, or its last label is one under which there are no names.
pub(crate) fn is_internal(name: &[u8]) -> bool
    ensures { result ≡ is_internal name.now }
{
    let last = after_last(b'.', name);
    last.len() == name.len() || is_special(last) || is_own(last)
}

/// Whether it is a label under which the public DNS has no names (RFC 6761 section 6, RFC 6762 section 3).
fn is_special(label: &[u8]) -> bool
    ensures { result ≡ list_any (is_label label.now) special_labels }
{
    is_label(label, "test")
        || is_label(label, "example")
        || is_label(label, "invalid")
        || is_label(label, "localhost")
        || is_label(label, "local")
}

/// Whether it is one of networks of one's own, under which it has none either (RFC 6762 appendix G).
fn is_own(label: &[u8]) -> bool
    ensures { result ≡ list_any (is_label label.now) own_labels }
{
    is_label(label, "intranet")
        || is_label(label, "internal")
        || is_label(label, "private")
        || is_label(label, "corp")
        || is_label(label, "home")
        || is_label(label, "lan")
}

/// Whether a label is this word, in small letters or large ones (RFC 1034 section 3.1).
fn is_label(label: &[u8], word: &str) -> bool
    ensures { result ≡ is_label label.now word.now }
{
    let mut left = label;
    let mut letters = word.as_bytes();
    while let [octet, rest @ ..] = left {
        let [letter, more @ ..] = letters else {
            return false;
        };
        if small(*octet) != *letter {
            return false;
        }
        left = rest;
        letters = more;
    }
    letters.is_empty()
}

/// The small letter of a large one of ASCII, else the octet.
fn small(octet: u8) -> u8
    ensures { result ≡ small octet }
{
    if octet >= b'A' && octet <= b'Z' {
        octet + 32
    } else {
        octet
    }
}

/// Whether an address isn't one of the Internet's (RFC 6890 sections 2.2.2, 2.2.3).
pub(crate) fn is_reserved(address: &[u8]) -> bool
    ensures { result ≡ is_reserved address.now }
{
    match address {
        [first, second, third, _] => is_reserved_four(*first, *second, *third),
        [first, second, third, fourth, _, ..] => {
            address.len() == 16
                && (is_own_sixteen(*first, *second)
                    || is_document_sixteen(*first, *second, *third, *fourth)
                    || is_host_itself(address))
        }
        _ => false,
    }
}

/// Whether an address of IP version 4 isn't, by its first three octets.
fn is_reserved_four(first: u8, second: u8, third: u8) -> bool
    ensures { result ≡ is_reserved_four first second third }
{
    is_reserved_first(first)
        || is_reserved_pair(first, second)
        || is_of_documents(first, second, third)
}

/// 0.0.0.0/8, 10.0.0.0/8, 127.0.0.0/8, 240.0.0.0/4.
fn is_reserved_first(first: u8) -> bool
    ensures { result ≡ is_reserved_first first }
{
    first == 0 || first == 10 || first == 127 || first >= 240
}

/// 100.64.0.0/10, 169.254.0.0/16, 172.16.0.0/12, 192.168.0.0/16, 198.18.0.0/15.
fn is_reserved_pair(first: u8, second: u8) -> bool
    ensures { result ≡ is_reserved_pair first second }
{
    (first == 100 && second / 64 == 1)
        || (first == 169 && second == 254)
        || (first == 172 && second / 16 == 1)
        || (first == 192 && second == 168)
        || (first == 198 && second / 2 == 9)
}

/// 192.0.2.0/24, 198.51.100.0/24, 203.0.113.0/24, for documents.
fn is_of_documents(first: u8, second: u8, third: u8) -> bool
    ensures { result ≡ is_of_documents first second third }
{
    (first == 192 && second == 0 && third == 2)
        || (first == 198 && second == 51 && third == 100)
        || (first == 203 && second == 0 && third == 113)
}

/// fc00::/7, fe80::/10.
fn is_own_sixteen(first: u8, second: u8) -> bool
    ensures { result ≡ is_own_sixteen first second }
{
    first / 2 == 126 || (first == 254 && second / 64 == 2)
}

/// 2001:db8::/32, for documents.
fn is_document_sixteen(first: u8, second: u8, third: u8, fourth: u8) -> bool
    ensures { result ≡ is_document_sixteen first second third fourth }
{
    first == 32 && second == 1 && third == 13 && fourth == 184
}

/// `::` and `::1`: the last octet is 1 at most, and those before it are 0.
fn is_host_itself(address: &[u8]) -> bool
    ensures { result ≡ is_host_itself address.now }
{
    let mut left = address;
    while let [octet, rest @ ..] = left {
        if rest.is_empty() {
            return *octet <= 1;
        }
        if *octet != 0 {
            return false;
        }
        left = rest;
    }
    false
}
