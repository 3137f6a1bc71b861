//! BOOLEAN (X.690 8.2, 11.1).
ghost use Rattle.x690_laws.proofs.TextsTellApart.{leaf_one_text};
ghost use Rattle.std.specs.Prelude.{◌≡◌, ◌∷◌, [], cond};
ghost use Rattle.x690_laws.proofs.TypesClosed.{leaf_closed};
ghost use Rattle.x690.specs.Layouts.{universal};
ghost use Rattle.x690.specs.Contents.{Boolean};
ghost use Rattle.x690.specs.TypeTerms.{LeafType};
ghost use Rattle.x690.specs.Values.{Leaf};

use crate::der_text::DerText;
use crate::element::Element;
use crate::in_der::universal_leaf_in_der;
use crate::leaf::{leaf_octet, leaf_size, put_leaf};
use crate::leaf_reading::{SimpleType, read_leaf_as};
use crate::tags::{is_same_tag, universal_tag};
use ber_pull::pull::Pull;
use std::alloc::Global;
use tlv_core::fault::ReadError;
use tlv_core::limits::Limits;
use tlv_core::sink::{Sink, WriteError};
use tlv_core::source::Source;
use tlv_core::tag::Tag;
use tlv_core::target::Target;

/// A BOOLEAN.
#[derive(Clone, Copy, Debug, PartialEq, Eq)]
pub struct Bool {
    value: bool,
}

impl Bool {
    ghost use Rattle.asn_elements.specs.Leaves.{truth};

    /// Whether it is TRUE.
    pub fn value(&self) -> bool
        ensures { result ≡ truth self.now }
    {
        self.value
    }

    /// Its contents: FF for TRUE, 00 for FALSE (X.690 8.2.2, 11.1).
    fn contents(&self) -> [u8; 1]
        ensures { result ≡ cond (truth self.now) 255 0 ∷ [] }
    {
        [if self.value { 255 } else { 0 }]
    }
}

impl DerText for Bool {
    ghost use Rattle.asn_elements.specs.Leaves.{truth};

    ghost value = { λ b. Leaf (universal 1) (cond (truth b) 255 0 ∷ []) };

    ghost one_text = { λ x y. leaf_one_text (universal 1) (universal 1) (cond (truth x) 255 0 ∷ [])
        (cond (truth y) 255 0 ∷ []) };

    fn size(&self) -> u64 {
        leaf_size(universal_tag(1), &self.contents())
    }

    fn put<W: Target>(&self, sink: &mut Sink<'_, W>) -> Result<(), WriteError> {
        put_leaf(universal_tag(1), &self.contents(), sink)
    }

    fn octet(&self, i: u64) -> Option<u8> {
        leaf_octet(universal_tag(1), &self.contents(), i)
    }
}

impl Element for Bool {
    ghost type_term = { LeafType (universal 1) Boolean };

    ghost closed = { leaf_closed (universal 1) Boolean };

    #[tactic(auto, unfolding(x690::specs::TypeTerms::fits_tag))]
    fn fits(tag: Tag) -> bool {
        is_same_tag(universal_tag(1), tag)
    }

    fn read<R: Source>(alloc: Global, pull: &mut Pull<'_, R>) -> Result<Bool, ReadError> {
        let contents = read_leaf_as(alloc, pull, universal_tag(1), SimpleType::Boolean)?;
        let value = contents[0] != 0;
        Ok(Bool { value })
    }

    fn judge(octets: &[u8], _limits: Limits, _left: u8) -> Option<&[u8]> {
        universal_leaf_in_der(octets, 1, SimpleType::Boolean)
    }
}
