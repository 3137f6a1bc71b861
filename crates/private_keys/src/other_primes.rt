//! otherPrimeInfos of an RSAPrivateKey (RFC 8017 A.1.2), after its version and the numbers of two primes.
ghost use Rattle.std.specs.Prelude.{◌≡◌, ◌∷◌, [], length};
ghost use Rattle.tlv_core.specs.declared.reason.Reason.TheVariants as why;
ghost use Rattle.pkix_definitions.specs.DocumentTypes.{other_prime_infos};
ghost use Rattle.pkix_definitions.proofs.LawfulTypes.{rule_honest};
ghost use Rattle.x690.specs.Layouts.{universal};
ghost use Rattle.asn_lists.specs.Containers.{list_items};
ghost use Rattle.private_keys.specs.RsaKeys.{infos};

use crate::other_prime_info::OtherPrimeInfo;
use crate::rsa_numbers::Numbers;
use asn_elements::in_der::element_in_der;
use asn_elements::tags::universal_tag;
use asn_fields::defined_by::{DefinedBy, Defines};
use asn_fields::dependent::{DependentElement, Independent};
use asn_fields::either::Either;
use asn_fields::refused::{Refused, RefusedTag};
use asn_fields::sequence::Required;
use asn_lists::list_of_some::ListOfSome;
use ber_pull::pull::Pull;
use pkix_values::version::{Version, names_version_0};
use std::alloc::Global;
use tlv_core::fault::ReadError;
use tlv_core::limits::Limits;
use tlv_core::reason::Reason;
use tlv_core::sink::{Sink, WriteError};
use tlv_core::source::Source;
use tlv_core::tag::Tag;
use tlv_core::target::Target;

/// What stands before otherPrimeInfos.
pub type VersionAndNumbers = (Required<Version<0, 1>>, Numbers);

/// Nothing may stand after the numbers of a key of version 0.
#[derive(Drop)]
pub struct PrimesUnderVersion0;

impl RefusedTag for PrimesUnderVersion0 {
    ghost own = { universal 16 };

    ghost why = { why.VersionRule };

    ghost honest = { rule_honest };

    fn tag() -> Tag {
        universal_tag(16)
    }

    fn reason() -> Reason {
        Reason::VersionRule
    }
}

impl Defines<VersionAndNumbers> for PrimesUnderVersion0 {
    ghost path = { 0 ∷ [] };

    ghost octets = { (0 ∷ []) ∷ [] };

    #[tactic(auto, unfolding(x690::specs::Values::leaf_at))]
    fn is_first(earlier: &VersionAndNumbers) -> bool {
        earlier.0.0.number() == 0
    }

    fn is_first_in_der(earlier: &[u8]) -> Option<bool> {
        let (version, _) = element_in_der(earlier, universal_tag(2), false)?;
        Some(names_version_0(version))
    }
}

/// What may stand after the numbers: nothing under version 0, else at least one prime.
type Infos = DefinedBy<
    Independent<Refused<PrimesUnderVersion0>>,
    Independent<ListOfSome<OtherPrimeInfo>>,
    PrimesUnderVersion0,
>;

/// The primes after the first two, at least one, under version 1.
#[derive(Drop)]
pub struct OtherPrimes(Infos);

impl OtherPrimes {
    /// How many there are.
    pub fn count(&self) -> usize
        ensures { result ≡ length (infos (λ list. list_items list.0.items) self.now.0.value) }
    {
        match self.0.value() {
            Either::First(_) => 0,
            Either::Second(list) => list.0.items().len(),
        }
    }
}

impl DependentElement<VersionAndNumbers> for OtherPrimes {
    ghost type_term = { other_prime_infos };

    ghost value = { λ x. ⟦<Infos as DependentElement<VersionAndNumbers>>⟧.value x.0 };

    ghost suits = { λ vs x. ⟦<Infos as DependentElement<VersionAndNumbers>>⟧.suits vs x.0 };

    ghost one_text = { λ vs ws x y. ⟦<Infos as DependentElement<VersionAndNumbers>>⟧.one_text vs ws
        x.0 y.0 };

    fn fits(tag: Tag) -> bool {
        <Infos as DependentElement<VersionAndNumbers>>::fits(tag)
    }

    fn read<R: Source>(
        alloc: Global,
        pull: &mut Pull<'_, R>,
        earlier: &VersionAndNumbers,
    ) -> Result<OtherPrimes, ReadError> {
        Ok(OtherPrimes(<Infos as DependentElement<VersionAndNumbers>>::read(alloc, pull, earlier)?))
    }

    fn judge<'a>(earlier: &[u8], octets: &'a [u8], limits: Limits, left: u8) -> Option<&'a [u8]> {
        let rest = <Infos as DependentElement<VersionAndNumbers>>::judge(
            earlier, octets, limits, left,
        )?;
        Some(rest)
    }

    fn size(&self) -> u64 {
        <Infos as DependentElement<VersionAndNumbers>>::size(&self.0)
    }

    fn put<W: Target>(&self, sink: &mut Sink<'_, W>) -> Result<(), WriteError> {
        <Infos as DependentElement<VersionAndNumbers>>::put(&self.0, sink)
    }

    fn octet(&self, i: u64) -> Option<u8> {
        <Infos as DependentElement<VersionAndNumbers>>::octet(&self.0, i)
    }
}
