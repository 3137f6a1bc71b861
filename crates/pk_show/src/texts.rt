//! Octets and bits in text.
ghost use Rattle.std.specs.Prelude.{◌≡◌, ◌++◌, OnOk, string_bytes};
ghost use Rattle.asn_elements.specs.Leaves.{bit_string_of};
ghost use Rattle.pk_show.specs.Texts.{bits_text, hex_text};

use asn_elements::bits::Bits;
use std::alloc::{AllocError, Global};
use tlv_core::text::push_number;

/// Octets in hexadecimal digits, lower case; a hyphen where there are none.
pub(crate) fn push_hex(alloc: Global, text: &mut String, octets: &[u8]) -> Result<(), AllocError>
    ensures { OnOk result (string_bytes text.new ≡ string_bytes text.old ++ hex_text octets.now) }
{
    match octets {
        [] => text.push_str("-"),
        [_, ..] => {
            let digits = hex::encode(alloc, octets)?;
            text.push_str(digits.as_str())
        }
    }
}

/// The octets of a bit string, and how many bits of the last one are unused.
#[tactic(auto, unfolding(crate::specs::Texts::bits_text))]
pub(crate) fn push_bits(alloc: Global, text: &mut String, bits: &Bits) -> Result<(), AllocError>
    ensures { OnOk result (string_bytes text.new ≡ string_bytes text.old
        ++ bits_text (bit_string_of bits.now)) }
{
    push_hex(alloc, text, bits.octets())?;
    text.push_str(" (")?;
    push_number(text, u128::from(bits.unused()))?;
    text.push_str(" unused)")
}
