//! Open values: elements of any type, read by their tags alone.
//!
//! Universal tags say their types (X.680 8.4); elements of other classes keep their octets where they are primitive,
//! and their elements in order where they are constructed. An open value is kept as its DER text, so that writing and
//! comparing it is a matter of octets; an OBJECT IDENTIFIER by its contents alone.
ghost use Rattle.std.proofs.Common.{ap, sym, ◌∙◌};
ghost use Rattle.x690_laws.proofs.ValuesOfTrees.{same_of};
ghost use Rattle.std.specs.Prelude.{◌≡◌};
ghost use Rattle.std.specs.Option.{option_map};
ghost use Rattle.x690.specs.DerTexts.{der};
ghost use Rattle.x690.specs.TypeTerms.{OpenType};
ghost use Rattle.x690_laws.proofs.TypesClosed.{open_closed};
ghost use Rattle.asn_open_values.specs.TextValues.{identifier_in, open_value};
ghost use Rattle.asn_open_values.specs.KeptValues.{identifier_kept, text_kept};

use crate::in_der::judge_open;
use crate::open_value::append_open;
use asn_elements::der_text::DerText;
use asn_elements::element::Element;
use asn_elements::leaf_reading::{SimpleType, read_leaf_into};
use asn_elements::tags::{is_same_tag, universal_tag};
use ber_pull::pull::Pull;
use std::alloc::Global;
use tlv_core::fault::ReadError;
use tlv_core::limits::Limits;
use tlv_core::oid::Oid;
use tlv_core::sink::{Sink, WriteError};
use tlv_core::source::Source;
use tlv_core::tag::Tag;
use tlv_core::target::Target;

/// What is kept of an open value.
#[derive(Drop)]
enum KeptContents {
    Identifier(Oid),
    /// The DER text of a value that is no OBJECT IDENTIFIER.
    Text(Vec<u8>),
}

/// An open value.
#[derive(Drop)]
pub struct Any {
    kept: KeptContents,
    ghost whole: { der (open_value (text_kept kept)) ≡ text_kept kept },
    ghost identified: { identifier_kept kept ≡ identifier_in (open_value (text_kept kept)) },
}

impl Any {
    ghost use Rattle.asn_open_values.specs.OpenValues.{open_value_of};

    /// The OBJECT IDENTIFIER that it is, if it is one.
    pub fn oid(&self) -> Option<&Oid>
        ensures { option_map (λ r. r.now) result ≡ identifier_in (open_value_of self.now) }
    {
        match &self.kept {
            KeptContents::Identifier(oid) => Some(oid),
            KeptContents::Text(_) => None,
        }
    }
}

impl DerText for Any {
    ghost use Rattle.asn_open_values.specs.OpenValues.{open_value_of};

    ghost value = { open_value_of };

    ghost one_text = { λ x y e. same_of (open_value_of x) (open_value_of y)
        (ap open_value (sym x.whole ∙ e ∙ y.whole)) };

    fn size(&self) -> u64 {
        match &self.kept {
            KeptContents::Identifier(oid) => oid.size(),
            KeptContents::Text(text) => text.len() as u64,
        }
    }

    fn put<W: Target>(&self, sink: &mut Sink<'_, W>) -> Result<(), WriteError> {
        match &self.kept {
            KeptContents::Identifier(oid) => oid.put(sink),
            KeptContents::Text(text) => sink.put(text),
        }
    }

    fn octet(&self, i: u64) -> Option<u8> {
        match &self.kept {
            KeptContents::Identifier(oid) => oid.octet(i),
            KeptContents::Text(text) => {
                if i < text.len() as u64 {
                    Some(text[i as usize])
                } else {
                    None
                }
            }
        }
    }
}

impl Element for Any {
    ghost type_term = { OpenType };

    ghost closed = { open_closed };

    #[tactic(auto, unfolding(x690::specs::TypeTerms::fits_tag))]
    fn fits(_tag: Tag) -> bool {
        true
    }

    fn read<R: Source>(alloc: Global, pull: &mut Pull<'_, R>) -> Result<Any, ReadError> {
        let Some((tag, constructed)) = pull.next_tag()? else {
            unreachable!()
        };
        let mut room = Vec::new(alloc);
        if is_same_tag(universal_tag(6), tag) {
            read_leaf_into(alloc, pull, SimpleType::ObjectIdentifier, &mut room)?;
            return Ok(Any {
                kept: KeptContents::Identifier(Oid::from_checked(room)),
            });
        }
        let mut text = Vec::new(alloc);
        append_open(alloc, pull, &mut room, &mut text, tag, constructed)?;
        Ok(Any {
            kept: KeptContents::Text(text),
        })
    }

    fn judge(octets: &[u8], _limits: Limits, left: u8) -> Option<&[u8]> {
        judge_open(octets, left)
    }
}
