//! The length that a header announces (X.690 8.1.3).
ghost use Rattle.std.specs.Prelude.{◌≡◌, ◌<◌, ◌≤◌, ◌^◌, drop, length};
ghost use Rattle.tlv_core.specs.Length.{big_endian as number_of};
ghost use Rattle.ber_outline.specs.Announced.{announced, below_2_to_32};

/// What length octets announce.
#[derive(Clone, Copy)]
pub struct Announced {
    /// The place after them, where the contents begin.
    pub contents: u64,
    /// The number of contents octets, below 2^32. `None` of the indefinite form.
    pub length: Option<u64>,
}

/// What the length octets at a place of the document announce.
pub(crate) fn announced_length(document: &[u8], place: usize) -> Option<Announced>
    requires { place ≤ length document.now }
    ensures { result ≡ announced place (drop place document.now) }
{
    let octets = &document[place..];
    if octets.is_empty() {
        return None;
    }
    let first = octets[0];
    let contents = place as u64 + 1;
    if first < 128 {
        return Some(Announced {
            contents,
            length: Some(u64::from(first)),
        });
    }
    if first == 128 {
        return Some(Announced {
            contents,
            length: None,
        });
    }
    let after = &octets[1..];
    let count = usize::from(first) - 128;
    if first == 255 || after.len() < count {
        return None;
    }
    match big_endian(0, &after[..count]) {
        Some(number) => Some(Announced {
            contents: contents + count as u64,
            length: Some(number),
        }),
        None => None,
    }
}

/// The big-endian number of octets, `high` standing before them, where it is below 2^32.
fn big_endian(high: u64, octets: &[u8]) -> Option<u64>
    requires { high < 2 ^ 32 }
    ensures { result ≡ below_2_to_32 (number_of high octets.now) }
{
    if octets.is_empty() {
        return Some(high);
    }
    let number = high * 256 + u64::from(octets[0]);
    if number >= 1 << 32 {
        return None;
    }
    big_endian(number, &octets[1..])
}
