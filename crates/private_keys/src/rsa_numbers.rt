//! The INTEGERs of an RSAPrivateKey (RFC 8017 A.1.2), in one piece of memory.
//!
//! All of them are a type of its own, so that what stands above rests on one list and not on eight fields.
ghost use Rattle.std.specs.Prelude.{◌≡◌, ◌<◌, ◌≤◌, ◌∷◌, [], ℕ, IfSome, length, slice_get, slice_index, true};
ghost use Rattle.std.specs.Option.{option_map};
ghost use Rattle.x690.specs.Contents.{IsInteger};
ghost use Rattle.x690.specs.DerTexts.{texts_of};
ghost use Rattle.x690.specs.ReadContents.{is_integer_contents};
ghost use Rattle.x690.specs.Values.{leaf_at};
ghost use Rattle.asn_fields.specs.Listings.{through};
ghost use Rattle.private_keys.specs.RsaNumbers.{eight, number_in, values_in};

use crate::number_reading::append_integer;
use asn_elements::integer::Int;
use asn_fields::fields::Next;
use asn_fields::sequence::{FieldsText, IndependentFields, Required};
use ber_pull::pull::Pull;
use std::alloc::Global;
use tlv_core::fault::ReadError;
use tlv_core::limits::Limits;
use tlv_core::sink::{Sink, WriteError};
use tlv_core::source::Source;
use tlv_core::target::Target;

/// modulus, publicExponent, privateExponent, prime1, prime2, exponent1, exponent2, coefficient: the DER encodings one
/// after another, and the places where the contents of each begin and end.
#[derive(Drop)]
pub struct Numbers {
    text: Vec<u8>,
    begins: [usize; 8],
    ends: [usize; 8],
    ghost stand: { text.items ≡ texts_of (values_in text.items begins ends 8) },
    ghost within: { (i : ℕ) → i < 8 → (slice_index begins i ≤ slice_index ends i)
        × (slice_index ends i ≤ length text.items) },
    ghost integers: { (i : ℕ) → i < 8
        → is_integer_contents (number_in text.items begins ends i) ≡ true },
}

impl Numbers {
    ghost use Rattle.private_keys.specs.RsaKeys.{numbers_of};

    /// The contents of the number at this place, counted from 0.
    pub fn get(&self, i: usize) -> Option<&[u8]>
        ensures value { option_map (λ r. r.now) result ≡ slice_get (numbers_of self.now) i }
        ensures is { IfSome result (λ r. IsInteger r.now) }
        ensures stands { IfSome result (λ r.
            leaf_at (i ∷ []) (⟦<Numbers as FieldsText>⟧.values self.now) ≡ r.now) }
    {
        if i < 8 {
            Some(&self.text[self.begins[i]..self.ends[i]])
        } else {
            None
        }
    }
}

impl FieldsText for Numbers {
    ghost values = { λ n. values_in n.text.items n.begins n.ends 8 };

    ghost listing = { through (λ n. number_in n.text.items n.begins n.ends) eight };

    fn size(&self) -> u64 {
        self.text.len() as u64
    }

    fn put<W: Target>(&self, sink: &mut Sink<'_, W>) -> Result<(), WriteError> {
        sink.put(&self.text)
    }

    fn octet(&self, i: u64) -> Option<u8> {
        if i < self.text.len() as u64 {
            Some(self.text[i as usize])
        } else {
            None
        }
    }
}

/// Eight INTEGERs one after another, as they are judged.
type Eight = (Four, Four);

type Four = (Two, Two);

type Two = (Required<Int>, Required<Int>);

impl IndependentFields for Numbers {
    fn read<R: Source>(
        alloc: Global,
        pull: &mut Pull<'_, R>,
        next: &mut Next,
    ) -> Result<Numbers, ReadError> {
        let mut room = Vec::new(alloc);
        let mut text = Vec::new(alloc);
        let mut begins = [0; 8];
        let mut ends = [0; 8];
        for i in 0..8 {
            begins[i] = append_integer(alloc, pull, next, &mut room, &mut text)?;
            ends[i] = text.len();
        }
        Ok(Numbers { text, begins, ends })
    }

    fn judge(octets: &[u8], limits: Limits, left: u8) -> Option<&[u8]> {
        let rest = <Eight as IndependentFields>::judge(octets, limits, left)?;
        Some(rest)
    }
}
