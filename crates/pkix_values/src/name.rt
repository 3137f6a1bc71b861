//! Names of RFC 5280 section 4.1.2.4.
ghost use Rattle.std.proofs.lemmas.Bool.{ltb-true};
ghost use Rattle.std.specs.Prelude.{◌≡◌, refl};
ghost use Rattle.pkix_definitions.specs.DocumentTypes.{Name as NameType, NameItem as NameItemType};
ghost use Rattle.asn_fields.specs.Listings.{through};
ghost use Rattle.pkix_definitions.proofs.ClosedTypes.{name_closed};
ghost use Rattle.pkix_definitions.proofs.Sequences.{name_item_is};

use crate::set_of_some::SetOfSome;
use asn_elements::der_text::DerText;
use asn_elements::element::Element;
use asn_fields::fields::Next;
use asn_fields::sequence::{FieldsText, FirstFields, Required, Sequence, SequenceFields};
use asn_lists::list::List;
use asn_open_values::any::Any;
use ber_pull::pull::Pull;
use std::alloc::Global;
use tlv_core::fault::ReadError;
use tlv_core::limits::Limits;
use tlv_core::oid::Oid;
use tlv_core::sink::{Sink, WriteError};
use tlv_core::source::Source;
use tlv_core::tag::Tag;
use tlv_core::target::Target;

/// type, value.
type Listed = (Required<Oid>, Required<Any>);

/// type, value.
#[derive(Drop)]
pub struct NameItemFields(Listed);

impl NameItemFields {
    ghost use Rattle.pkix_values.specs.Names.{item_type_of, item_value_of};

    /// What it tells.
    pub fn id(&self) -> &Oid
        ensures { result.now ≡ item_type_of self.now }
    {
        &self.0.0.0
    }

    /// What is told.
    pub fn value(&self) -> &Any
        ensures { result.now ≡ item_value_of self.now }
    {
        &self.0.1.0
    }
}

impl FieldsText for NameItemFields {
    ghost values = { λ fields. ⟦<Listed as FieldsText>⟧.values fields.0 };

    ghost listing = { through (λ fields. fields.0) ⟦<Listed as FieldsText>⟧.listing };

    fn size(&self) -> u64 {
        self.0.size()
    }

    fn put<W: Target>(&self, sink: &mut Sink<'_, W>) -> Result<(), WriteError> {
        self.0.put(sink)
    }

    fn octet(&self, i: u64) -> Option<u8> {
        self.0.octet(i)
    }
}

impl FirstFields for NameItemFields {
    fn read_first<R: Source>(
        alloc: Global,
        pull: &mut Pull<'_, R>,
        next: &mut Next,
    ) -> Result<NameItemFields, ReadError> {
        match <Listed as FirstFields>::read_first(alloc, pull, next) {
            Ok(listed) => Ok(NameItemFields(listed)),
            Err(error) => Err(error),
        }
    }

    fn judge_first(octets: &[u8], limits: Limits, left: u8) -> Option<&[u8]> {
        let rest = <Listed as FirstFields>::judge_first(octets, limits, left)?;
        Some(rest)
    }
}

impl SequenceFields for NameItemFields {
    ghost type_term = { NameItemType };

    ghost listed = { name_item_is };

    ghost parted = { refl };

    ghost few = { ltb-true _ _ refl };
}

/// AttributeTypeAndValue: one item of a name, as a country or an organization.
pub type NameItem = Sequence<NameItemFields>;

/// RelativeDistinguishedName: items that tell it together.
pub type Rdn = SetOfSome<NameItem>;

/// A name, from the root on.
#[derive(Drop)]
pub struct Name {
    rdns: List<Rdn>,
}

impl Name {
    ghost use Rattle.pkix_values.specs.Names.{rdns_of};

    /// Its parts, from the root on.
    pub fn rdns(&self) -> &List<Rdn>
        ensures { result.now ≡ rdns_of self.now }
    {
        &self.rdns
    }
}

impl DerText for Name {
    ghost use Rattle.pkix_values.specs.Names.{rdns_of};

    ghost value = { λ x. ⟦<List<SetOfSome<NameItem>> as DerText>⟧.value (rdns_of x) };

    ghost one_text = { λ x y. ⟦<List<SetOfSome<NameItem>> as DerText>⟧.one_text (rdns_of x)
        (rdns_of y) };

    fn size(&self) -> u64 {
        self.rdns.size()
    }

    fn put<W: Target>(&self, sink: &mut Sink<'_, W>) -> Result<(), WriteError> {
        self.rdns.put(sink)
    }

    fn octet(&self, i: u64) -> Option<u8> {
        self.rdns.octet(i)
    }
}

#[tactic(auto, unfolding(pkix_definitions::specs::DocumentTypes::Name, pkix_definitions::specs::DocumentTypes::NameItem))]
impl Element for Name {
    ghost type_term = { NameType };

    ghost closed = { name_closed };

    fn fits(tag: Tag) -> bool {
        List::<Rdn>::fits(tag)
    }

    fn read<R: Source>(alloc: Global, pull: &mut Pull<'_, R>) -> Result<Name, ReadError> {
        let rdns = List::read(alloc, pull)?;
        Ok(Name { rdns })
    }

    fn judge(octets: &[u8], limits: Limits, left: u8) -> Option<&[u8]> {
        let rest = List::<Rdn>::judge(octets, limits, left)?;
        Some(rest)
    }
}
