//! AsymmetricKeyPackage of RFC 5958 section 2.
ghost use Rattle.std.specs.Prelude.{◌≡◌, ◌<◌, length};
ghost use Rattle.asn_lists.specs.Containers.{list_items};
ghost use Rattle.pkix_definitions.proofs.ClosedTypes.{key_package_closed};
ghost use Rattle.pkix_definitions.specs.DocumentTypes.{AsymmetricKeyPackage};

use crate::one_asymmetric_key::OneAsymmetricKey;
use asn_elements::der_text::DerText;
use asn_elements::element::Element;
use asn_lists::list::List;
use asn_lists::list_of_some::ListOfSome;
use ber_pull::pull::Pull;
use std::alloc::Global;
use tlv_core::fault::ReadError;
use tlv_core::limits::Limits;
use tlv_core::sink::{Sink, WriteError};
use tlv_core::source::Source;
use tlv_core::tag::Tag;
use tlv_core::target::Target;

/// Private keys, at least one.
#[derive(Drop)]
pub struct KeyPackage(ListOfSome<OneAsymmetricKey>);

impl KeyPackage {
    ghost use Rattle.pkcs8.specs.KeyPackages.{keys_of};

    /// The keys, in order.
    pub fn keys(&self) -> &List<OneAsymmetricKey>
        ensures value { result.now ≡ keys_of self.now }
        ensures some { 0 < length (list_items result.now) }
    {
        self.0.items()
    }
}

impl DerText for KeyPackage {
    ghost value = { λ x. ⟦<ListOfSome<OneAsymmetricKey> as DerText>⟧.value x.0 };

    ghost one_text = { λ x y. ⟦<ListOfSome<OneAsymmetricKey> as DerText>⟧.one_text x.0 y.0 };

    fn size(&self) -> u64 {
        self.0.size()
    }

    fn put<W: Target>(&self, sink: &mut Sink<'_, W>) -> Result<(), WriteError> {
        self.0.put(sink)
    }

    fn octet(&self, i: u64) -> Option<u8> {
        self.0.octet(i)
    }
}

#[tactic(auto, unfolding(pkix_definitions::specs::DocumentTypes::AsymmetricKeyPackage))]
impl Element for KeyPackage {
    ghost type_term = { AsymmetricKeyPackage };

    ghost closed = { key_package_closed };

    fn fits(tag: Tag) -> bool {
        ListOfSome::<OneAsymmetricKey>::fits(tag)
    }

    fn read<R: Source>(alloc: Global, pull: &mut Pull<'_, R>) -> Result<KeyPackage, ReadError> {
        Ok(KeyPackage(ListOfSome::<OneAsymmetricKey>::read(alloc, pull)?))
    }

    fn judge(octets: &[u8], limits: Limits, left: u8) -> Option<&[u8]> {
        let rest = ListOfSome::<OneAsymmetricKey>::judge(octets, limits, left)?;
        Some(rest)
    }
}
