//! OCTET STRING (X.690 8.7).
ghost use Rattle.x690_laws.proofs.TextsTellApart.{leaf_one_text};
ghost use Rattle.std.specs.Prelude.{◌≡◌, ◌↔◌, ◌<◌, ◌^◌, Err, IfOk, length};
ghost use Rattle.asn_elements.specs.declared.build.BuildError.TheVariants.{Bad, TooBig};
ghost use Rattle.x690_laws.proofs.TypesClosed.{leaf_closed};
ghost use Rattle.x690.specs.DerTexts.{der};
ghost use Rattle.x690.specs.Layouts.{universal};
ghost use Rattle.x690.specs.Contents.{OctetString};
ghost use Rattle.x690.specs.TypeTerms.{LeafType};
ghost use Rattle.x690.specs.Values.{Leaf};

use crate::build::BuildError;
use crate::der_text::DerText;
use crate::element::Element;
use crate::in_der::universal_leaf_in_der;
use crate::leaf::{is_long_leaf, leaf_octet, leaf_size, put_leaf};
use crate::leaf_reading::{SimpleType, read_leaf_as};
use crate::tags::{is_same_tag, universal_tag};
use ber_pull::pull::Pull;
use std::alloc::Global;
use tlv_core::fault::ReadError;
use tlv_core::limits::Limits;
use tlv_core::sink::{Sink, WriteError};
use tlv_core::source::Source;
use tlv_core::tag::Tag;
use tlv_core::target::Target;

/// An OCTET STRING.
#[derive(Drop)]
pub struct Octets {
    octets: Vec<u8>,
}

impl Octets {
    ghost use Rattle.asn_elements.specs.Leaves.{octets_of};

    /// The OCTET STRING of these octets.
    ///
    /// Errors: `TooBig` where the text would be longer than 2^40 octets, `Memory`.
    pub fn from_slice(alloc: Global, octets: &[u8]) -> Result<Octets, BuildError>
        ensures made { IfOk result (λ o. octets_of o ≡ octets.now) }
        ensures too_big { (result ≡ Err TooBig)
            ↔ (2 ^ 40 < length (der (Leaf (universal 4) octets.now))) }
        ensures never_bad { result ≡ Err Bad → ⊥ }
    {
        if is_long_leaf(universal_tag(4), octets) {
            return Err(BuildError::TooBig);
        }
        let octets = octets.to_vec(alloc)?;
        Ok(Octets { octets })
    }

    /// The octets.
    pub fn octets(&self) -> &[u8]
        ensures { result.now ≡ octets_of self.now }
    {
        &self.octets
    }
}

impl DerText for Octets {
    ghost use Rattle.asn_elements.specs.Leaves.{octets_of};

    ghost value = { λ o. Leaf (universal 4) (octets_of o) };

    ghost one_text = { λ x y.
        leaf_one_text (universal 4) (universal 4) (octets_of x) (octets_of y) };

    fn size(&self) -> u64 {
        leaf_size(universal_tag(4), &self.octets)
    }

    fn put<W: Target>(&self, sink: &mut Sink<'_, W>) -> Result<(), WriteError> {
        put_leaf(universal_tag(4), &self.octets, sink)
    }

    fn octet(&self, i: u64) -> Option<u8> {
        leaf_octet(universal_tag(4), &self.octets, i)
    }
}

impl Element for Octets {
    ghost type_term = { LeafType (universal 4) OctetString };

    ghost closed = { leaf_closed (universal 4) OctetString };

    #[tactic(auto, unfolding(x690::specs::TypeTerms::fits_tag))]
    fn fits(tag: Tag) -> bool {
        is_same_tag(universal_tag(4), tag)
    }

    fn read<R: Source>(alloc: Global, pull: &mut Pull<'_, R>) -> Result<Octets, ReadError> {
        let octets = read_leaf_as(alloc, pull, universal_tag(4), SimpleType::OctetString)?;
        Ok(Octets { octets })
    }

    fn judge(octets: &[u8], _limits: Limits, _left: u8) -> Option<&[u8]> {
        universal_leaf_in_der(octets, 4, SimpleType::OctetString)
    }
}
