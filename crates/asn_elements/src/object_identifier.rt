//! OBJECT IDENTIFIER (X.690 8.19); the type is `tlv_core`'s `Oid`.
ghost use Rattle.x690_laws.proofs.TextsTellApart.{leaf_one_text};
ghost use Rattle.x690_laws.proofs.TypesClosed.{leaf_closed};
ghost use Rattle.x690.specs.Contents.{ObjectIdentifier};
ghost use Rattle.x690.specs.Layouts.{universal};
ghost use Rattle.x690.specs.TypeTerms.{LeafType};
ghost use Rattle.x690.specs.Values.{Leaf};

use crate::der_text::DerText;
use crate::element::Element;
use crate::in_der::universal_leaf_in_der;
use crate::leaf::{leaf_octet, leaf_size, put_leaf};
use crate::leaf_reading::{SimpleType, read_leaf_as};
use crate::tags::{is_same_tag, universal_tag};
use ber_pull::pull::Pull;
use std::alloc::Global;
use tlv_core::fault::ReadError;
use tlv_core::limits::Limits;
use tlv_core::oid::Oid;
use tlv_core::sink::{Sink, WriteError};
use tlv_core::source::Source;
use tlv_core::tag::Tag;
use tlv_core::target::Target;

impl DerText for Oid {
    ghost value = { λ oid. Leaf (universal 6) oid };

    ghost one_text = { λ x y. leaf_one_text (universal 6) (universal 6) x y };

    fn size(&self) -> u64 {
        leaf_size(universal_tag(6), self.contents())
    }

    fn put<W: Target>(&self, sink: &mut Sink<'_, W>) -> Result<(), WriteError> {
        put_leaf(universal_tag(6), self.contents(), sink)
    }

    fn octet(&self, i: u64) -> Option<u8> {
        leaf_octet(universal_tag(6), self.contents(), i)
    }
}

impl Element for Oid {
    ghost type_term = { LeafType (universal 6) ObjectIdentifier };

    ghost closed = { leaf_closed (universal 6) ObjectIdentifier };

    #[tactic(auto, unfolding(x690::specs::TypeTerms::fits_tag))]
    fn fits(tag: Tag) -> bool {
        is_same_tag(universal_tag(6), tag)
    }

    fn read<R: Source>(alloc: Global, pull: &mut Pull<'_, R>) -> Result<Oid, ReadError> {
        let contents = read_leaf_as(alloc, pull, universal_tag(6), SimpleType::ObjectIdentifier)?;
        Ok(Oid::from_checked(contents))
    }

    fn judge(octets: &[u8], _limits: Limits, _left: u8) -> Option<&[u8]> {
        universal_leaf_in_der(octets, 6, SimpleType::ObjectIdentifier)
    }
}
