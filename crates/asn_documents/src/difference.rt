//! Where octets differ from the DER text of a value.
ghost use Rattle.std.specs.Prelude.{◌≡◌, ◌≤◌, ◌≢◌, ◌<◌, ◌^◌, ℕ, [], Some, IsSome, true, false, length, slice_get};
ghost use Rattle.std.specs.Prelude.{drop, take};
ghost use Rattle.x690.specs.DerTexts.{der};
ghost use Rattle.asn_documents.specs.Differences.{Differs};

use crate::value::write_text;
use asn_elements::der_text::DerText;
use tlv_core::source::Failed;
use tlv_core::target::Target;

/// Compares what is written with octets, up to the first octet that differs; it is taken, and no more.
#[derive(Drop)]
struct Comparing<'a> {
    octets: &'a [u8],
    at: usize,
    other: Option<u8>,
    failed: bool,
    ghost within: { at ≤ length octets.now },
    ghost differs: { (o : ℕ) → other ≡ Some o → slice_get octets.now at ≡ Some o → ⊥ },
    ghost halted: { failed ≡ true → IsSome other },
}

impl<'a> Comparing<'a> {
    ghost use Rattle.asn_documents.specs.Comparisons.{written, compared_with, has_halted};

    fn new(octets: &'a [u8]) -> Comparing<'a>
        ensures none { written result ≡ [] }
        ensures with { compared_with result ≡ octets.now }
        ensures fresh { has_halted result ≡ false }
    {
        Comparing {
            octets,
            at: 0,
            other: None,
            failed: false,
        }
    }
}

impl Target for Comparing<'_> {
    ghost use Rattle.asn_documents.specs.Comparisons.{told, has_halted};

    ghost contents = { λ target. Some (told target) };

    ghost has_failed = { λ target. has_halted target };

    fn write(&mut self, piece: &[u8]) -> Result<usize, Failed> {
        if piece.is_empty() {
            return Ok(0);
        }
        if self.other.is_some() {
            self.failed = true;
            return Err(Failed);
        }
        let count = alike(behind(self.octets, self.at), piece);
        if count > 0 {
            self.at += count;
            return Ok(count);
        }
        self.other = Some(piece[0]);
        Ok(1)
    }

    fn failed(&self) -> bool {
        self.failed
    }
}

/// The octets from a place on.
fn behind(octets: &[u8], at: usize) -> &[u8]
    requires { at ≤ length octets.now }
    ensures { result.now ≡ drop at octets.now }
{
    &octets[at..]
}

/// As many octets as the two begin with alike.
fn alike(octets: &[u8], piece: &[u8]) -> usize
    ensures within { result ≤ length octets.now }
    ensures in_piece { result ≤ length piece.now }
    ensures same { take result octets.now ≡ take result piece.now }
    ensures first { result < length piece.now
        → slice_get octets.now result ≢ slice_get piece.now result }
{
    let most = octets.len().min(piece.len());
    // Slices are compared many octets at a time; only where they differ the place is looked for.
    if octets[..most] == piece[..most] {
        return most;
    }
    for i in 0..most {
        if octets[i] != piece[i] {
            return i;
        }
    }
    most
}

/// The first place where the octets differ from the DER text of the value; `None` where they are it. No memory is
/// taken.
pub fn first_difference<T: DerText>(value: &T, octets: &[u8]) -> Option<u64>
    ensures { Differs octets.now (der (T.value value.now)) result }
{
    let _size = value.size();
    difference_from_text(value, octets)
}

/// The same, where the text is known to have fewer than 2^64 octets: its length isn't asked for.
pub(crate) fn difference_from_text<T: DerText>(value: &T, octets: &[u8]) -> Option<u64>
    requires { length (der (T.value value.now)) < 2 ^ 64 }
    ensures { Differs octets.now (der (T.value value.now)) result }
{
    let mut comparing = Comparing::new(octets);
    let _ = write_text(value, &mut comparing);
    if comparing.other.is_some() {
        return Some(comparing.at as u64);
    }
    if comparing.at < octets.len() {
        return Some(comparing.at as u64);
    }
    None
}
