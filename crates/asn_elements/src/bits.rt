//! BIT STRING (X.690 8.6, 11.2).
ghost use Rattle.x690_laws.proofs.TextsTellApart.{leaf_one_text};
ghost use Rattle.std.specs.Prelude.{◌≡◌, ◌<◌, ◌≤◌, ◌∷◌, drop, get_or, length};
ghost use Rattle.x690_laws.proofs.TypesClosed.{leaf_closed};
ghost use Rattle.x690_laws.proofs.TypesOfOneTag.{leaf_fits};
ghost use Rattle.x690.specs.Layouts.{universal};
ghost use Rattle.x690.specs.Contents.{BitString};
ghost use Rattle.x690.specs.TypeTerms.{LeafType};
ghost use Rattle.x690.specs.Values.{Leaf};
ghost use Rattle.asn_elements.specs.BitStrings.{IsDerBits};

use crate::der_text::DerText;
use crate::element::Element;
use crate::implicit::{ImplicitElement, ImplicitText};
use crate::in_der::{leaf_in_der, universal_leaf_in_der};
use crate::leaf::{leaf_octet, leaf_size, put_leaf};
use crate::leaf_reading::{SimpleType, read_leaf_as};
use crate::tags::{is_same_tag, universal_tag};
use ber_pull::pull::Pull;
use std::alloc::Global;
use tlv_core::fault::ReadError;
use tlv_core::limits::Limits;
use tlv_core::sink::{Sink, WriteError};
use tlv_core::source::Source;
use tlv_core::tag::Tag;
use tlv_core::target::Target;

/// A BIT STRING.
#[derive(Drop)]
pub struct Bits {
    /// The number of unused bits, and after it the octets, in which these bits are 0.
    contents: Vec<u8>,
    ghost some: { 0 < length contents.items },
    ghost whole: { IsDerBits contents.items },
}

impl Bits {
    ghost use Rattle.asn_elements.specs.Leaves.{bit_string_of};

    /// The number of unused bits in the last octet (X.690 8.6.2.2), 0 where there is none: the bits are 8 times as many
    /// as the octets, but for these.
    pub fn unused(&self) -> u8
        ensures value { result ≡ get_or (bit_string_of self.now) 0 0 }
        ensures few { result ≤ 7 }
        ensures whole { IsDerBits (bit_string_of self.now) }
    {
        self.contents[0]
    }

    /// The octets of the bits, the first bit leading; unused bits are 0 (X.690 8.6.2.1, 11.2.1).
    pub fn octets(&self) -> &[u8]
        ensures octets { result.now ≡ drop 1 (bit_string_of self.now) }
        ensures contents { bit_string_of self.now
            ≡ get_or (bit_string_of self.now) 0 0 ∷ result.now }
        ensures whole { IsDerBits (bit_string_of self.now) }
    {
        &self.contents[1..]
    }
}

impl DerText for Bits {
    ghost use Rattle.asn_elements.specs.Leaves.{bit_string_of};

    ghost value = { λ bits. Leaf (universal 3) (bit_string_of bits) };

    ghost one_text = { λ x y. leaf_one_text (universal 3) (universal 3) (bit_string_of x)
        (bit_string_of y) };

    fn size(&self) -> u64 {
        self.size_as(universal_tag(3))
    }

    fn put<W: Target>(&self, sink: &mut Sink<'_, W>) -> Result<(), WriteError> {
        self.put_as(sink, universal_tag(3))
    }

    fn octet(&self, i: u64) -> Option<u8> {
        self.octet_as(i, universal_tag(3))
    }
}

impl ImplicitText for Bits {
    ghost use Rattle.asn_elements.specs.Leaves.{bit_string_of};

    ghost value_as = { λ own bits. Leaf own (bit_string_of bits) };

    ghost one_text_as = { λ own x y. leaf_one_text own own (bit_string_of x) (bit_string_of y) };

    fn size_as(&self, tag: Tag) -> u64 {
        leaf_size(tag, &self.contents)
    }

    fn put_as<W: Target>(&self, sink: &mut Sink<'_, W>, tag: Tag) -> Result<(), WriteError> {
        put_leaf(tag, &self.contents, sink)
    }

    fn octet_as(&self, i: u64, tag: Tag) -> Option<u8> {
        leaf_octet(tag, &self.contents, i)
    }
}

impl Element for Bits {
    ghost type_term = { LeafType (universal 3) BitString };

    ghost closed = { leaf_closed (universal 3) BitString };

    #[tactic(auto, unfolding(x690::specs::TypeTerms::fits_tag))]
    fn fits(tag: Tag) -> bool {
        is_same_tag(universal_tag(3), tag)
    }

    fn read<R: Source>(alloc: Global, pull: &mut Pull<'_, R>) -> Result<Bits, ReadError> {
        Bits::read_as(alloc, pull, universal_tag(3))
    }

    fn judge(octets: &[u8], _limits: Limits, _left: u8) -> Option<&[u8]> {
        universal_leaf_in_der(octets, 3, SimpleType::BitString)
    }
}

impl ImplicitElement for Bits {
    ghost type_as = { λ own. LeafType own BitString };

    ghost fits_own = { leaf_fits BitString };

    ghost closed_as = { λ own. leaf_closed own BitString };

    fn read_as<R: Source>(
        alloc: Global,
        pull: &mut Pull<'_, R>,
        tag: Tag,
    ) -> Result<Bits, ReadError> {
        let contents = read_leaf_as(alloc, pull, tag, SimpleType::BitString)?;
        Ok(Bits { contents })
    }

    fn judge_as(octets: &[u8], _limits: Limits, _left: u8, tag: Tag) -> Option<&[u8]> {
        leaf_in_der(octets, tag, SimpleType::BitString)
    }
}
