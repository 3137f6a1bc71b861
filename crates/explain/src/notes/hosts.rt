//! The names of hosts: whether one has the preferred name syntax.
ghost use Rattle.std.specs.Prelude.{◌≡◌};
ghost use Rattle.explain.specs.HostNames.{after_wildcard, are_labels, has_star, is_domain_name, is_host_name};
ghost use Rattle.explain.specs.HostNames.{is_let_dig, is_whole, label_after, label_start};

/// A label has at most so many octets (RFC 1034 section 3.1).
const LABEL_OCTETS: u64 = 63;

/// A name has at most so many, without the octet of its root (the same: 255 with the octets of lengths).
const NAME_OCTETS: usize = 253;

/// A label, as far as it is read.
#[derive(Clone, Copy)]
struct Label {
    octets: u64,
    ends_in_hyphen: bool,
}

/// Whether it is a name in the preferred name syntax (RFC 1034 section 3.5, RFC 1123 section 2.1). Its first label
/// may be a `*` alone.
pub(crate) fn is_host_name(name: &[u8]) -> bool
    ensures { result ≡ is_host_name name.now }
{
    name.len() <= NAME_OCTETS && are_labels(after_wildcard(name))
}

/// Whether it is one without a wildcard.
pub(crate) fn is_domain_name(name: &[u8]) -> bool
    ensures { result ≡ is_domain_name name.now }
{
    name.len() <= NAME_OCTETS && are_labels(name)
}

/// What follows a first label that is a `*` alone (RFC 9525 section 6.3).
fn after_wildcard(name: &[u8]) -> &[u8]
    ensures { result.now ≡ after_wildcard name.now }
{
    match name {
        [b'*'] => &[],
        [b'*', b'.', rest @ ..] => rest,
        _ => name,
    }
}

/// Whether a `*` is elsewhere.
pub(crate) fn has_star(name: &[u8]) -> bool
    ensures { result ≡ has_star name.now }
{
    after_wildcard(name).iter().any(|octet| *octet == b'*')
}

fn are_labels(name: &[u8]) -> bool
    ensures { result ≡ are_labels label_start name.now }
{
    let mut label = label_start();
    let mut left = name;
    while let [octet, rest @ ..] = left {
        let Some(next) = label_after(label, *octet) else {
            return false;
        };
        label = next;
        left = rest;
    }
    is_whole(label)
}

fn label_start() -> Label
    ensures { result ≡ label_start }
{
    Label {
        octets: 0,
        ends_in_hyphen: false,
    }
}

/// A label after an octet more: after a dot the next one.
fn label_after(label: Label, octet: u8) -> Option<Label>
    ensures { result ≡ label_after label octet }
{
    if octet == b'.' {
        return if is_whole(label) {
            Some(label_start())
        } else {
            None
        };
    }
    if label.octets >= LABEL_OCTETS {
        return None;
    }
    if is_let_dig(octet) || (octet == b'-' && label.octets > 0) {
        return Some(Label {
            octets: label.octets + 1,
            ends_in_hyphen: octet == b'-',
        });
    }
    None
}

/// Whether a label may end here.
fn is_whole(label: Label) -> bool
    ensures { result ≡ is_whole label }
{
    label.octets > 0 && !label.ends_in_hyphen
}

/// Whether it is a letter or a digit.
pub(crate) fn is_let_dig(octet: u8) -> bool
    ensures { result ≡ is_let_dig octet }
{
    (octet >= b'A' && octet <= b'Z')
        || (octet >= b'a' && octet <= b'z')
        || (octet >= b'0' && octet <= b'9')
}
