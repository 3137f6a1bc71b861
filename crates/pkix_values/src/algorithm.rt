//! AlgorithmIdentifier of RFC 5280 section 4.1.1.2.
ghost use Rattle.std.proofs.lemmas.Bool.{ltb-true};
ghost use Rattle.std.specs.Prelude.{◌≡◌, ◌∷◌, [], IfSome, List, None, refl, true, ℕ};
ghost use Rattle.std.specs.Option.{option_map};
ghost use Rattle.pkix_definitions.specs.DocumentTypes.{AlgorithmIdentifier as AlgorithmIdentifierType};
ghost use Rattle.pkix_definitions.proofs.ClosedTypes.{algorithm_closed};
ghost use Rattle.pkix_definitions.specs.Identifiers.{rfc8410_algorithms};
ghost use Rattle.x690.specs.Layouts.{universal};
ghost use Rattle.x690.specs.Lists.{one_of};
ghost use Rattle.x690.specs.TypeTerms.{EndOfFields, SequenceType};
ghost use Rattle.asn_fields.specs.Listings.{through};
ghost use Rattle.pkix_definitions.specs.Rules.{parameters_rule};
ghost use Rattle.x690.specs.Values.{Value, leaf_at};
ghost use Rattle.asn_elements.specs.InDer.{BeginsWithText};
ghost use Rattle.pkix_definitions.proofs.Fairs.{fair_parameters};
ghost use Rattle.pkix_values.specs.Forms.{honest_parameters};

use crate::identifiers::public_key_length;
use asn_elements::der_text::DerText;
use asn_elements::element::Element;
use asn_elements::in_der::element_in_der;
use asn_elements::tags::universal_tag;
use asn_fields::fields::Next;
use asn_fields::ruled_sequence::{RuledFields, RuledSequence};
use asn_fields::sequence::{FieldsText, FirstFields, Optional, Required, SequenceFields};
use asn_open_values::any::Any;
use ber_pull::pull::Pull;
use pkix_definitions::identifiers::rfc8410_length;
use std::alloc::Global;
use tlv_core::fault::ReadError;
use tlv_core::limits::Limits;
use tlv_core::oid::Oid;
use tlv_core::reason::Reason;
use tlv_core::sink::{Sink, WriteError};
use tlv_core::source::Source;
use tlv_core::tag::Tag;
use tlv_core::target::Target;

/// algorithm, parameters.
type Listed = (Required<Oid>, Optional<Any>);

/// algorithm, parameters.
#[derive(Drop)]
pub struct AlgorithmFields(Listed);

impl AlgorithmFields {
    fn algorithm(&self) -> &Oid
        ensures { result.now ≡ self.now.0.0.0 }
    {
        &self.0.0.0
    }

    fn parameters(&self) -> &Option<Any>
        ensures { result.now ≡ self.now.0.1.0 }
    {
        &self.0.1.0
    }
}

impl FieldsText for AlgorithmFields {
    ghost values = { λ fields. ⟦<Listed as FieldsText>⟧.values fields.0 };

    ghost listing = { through (λ fields. fields.0) ⟦<Listed as FieldsText>⟧.listing };

    fn size(&self) -> u64 {
        self.0.size()
    }

    fn put<W: Target>(&self, sink: &mut Sink<'_, W>) -> Result<(), WriteError> {
        self.0.put(sink)
    }

    fn octet(&self, i: u64) -> Option<u8> {
        self.0.octet(i)
    }
}

impl FirstFields for AlgorithmFields {
    fn read_first<R: Source>(
        alloc: Global,
        pull: &mut Pull<'_, R>,
        next: &mut Next,
    ) -> Result<AlgorithmFields, ReadError> {
        match <Listed as FirstFields>::read_first(alloc, pull, next) {
            Ok(listed) => Ok(AlgorithmFields(listed)),
            Err(error) => Err(error),
        }
    }

    fn judge_first(octets: &[u8], limits: Limits, left: u8) -> Option<&[u8]> {
        let rest = <Listed as FirstFields>::judge_first(octets, limits, left)?;
        Some(rest)
    }
}

impl SequenceFields for AlgorithmFields {
    ghost type_term = { SequenceType (universal 16) (⟦<Listed as FieldsText>⟧.listing.types EndOfFields) };

    ghost listed = { refl };

    ghost parted = { refl };

    ghost few = { ltb-true _ _ refl };
}

/// The algorithms of RFC 8410 have no parameters (its section 3).
impl RuledFields for AlgorithmFields {
    ghost rule = { parameters_rule };

    ghost fair = { fair_parameters };

    ghost honest = { honest_parameters };

    ghost alone = { λ earlier. refl };

    fn judge(&self) -> Option<Reason> {
        if self.parameters().is_some() && public_key_length(self.algorithm()).is_some() {
            Some(Reason::Parameters)
        } else {
            None
        }
    }

    fn pass_in_der(octets: &[u8]) -> bool {
        let Some((algorithm, behind)) = element_in_der(octets, universal_tag(6), false) else {
            return false;
        };
        if behind.is_empty() {
            return true;
        }
        rfc8410_length(algorithm).is_none()
    }
}

/// An algorithm, and what it depends on.
#[derive(Drop)]
pub struct AlgorithmIdentifier(RuledSequence<AlgorithmFields>);

impl AlgorithmIdentifier {
    ghost use Rattle.pkix_values.specs.Algorithms.{algorithm_of, parameters_of};

    /// Which one it is.
    pub fn algorithm(&self) -> &Oid
        ensures { result.now ≡ algorithm_of self.now }
    {
        self.0.value().algorithm()
    }

    /// What it depends on. The algorithms of RFC 8410 have no parameters.
    pub fn parameters(&self) -> Option<&Any>
        ensures value { option_map (λ r. r.now) result ≡ parameters_of self.now }
        ensures bare { one_of (algorithm_of self.now) rfc8410_algorithms ≡ true → result ≡ None }
    {
        self.0.value().parameters().as_ref()
    }
}

/// What begins with the name of an algorithm.
pub trait NamesAlgorithm: Element {
    /// Which one it is.
    fn algorithm(&self) -> &Oid
        ensures { result.now ≡ leaf_at (0 ∷ 0 ∷ []) (Self.value self.now ∷ []) };

    /// Which one it is, of what octets begin with, in DER; `None` says nothing of them.
    fn algorithm_in_der(octets: &[u8]) -> Option<&[u8]>
        ensures { IfSome result (λ algorithm. (limit : ℕ) (value : Value) (rest : List ℕ)
            → BeginsWithText limit Self.Element.type_term [] value octets.now rest
            → leaf_at (0 ∷ 0 ∷ []) (value ∷ []) ≡ algorithm.now) };
}

impl NamesAlgorithm for AlgorithmIdentifier {
    #[tactic(auto, unfolding(x690::specs::Values::leaf_at))]
    fn algorithm(&self) -> &Oid {
        AlgorithmIdentifier::algorithm(self)
    }

    fn algorithm_in_der(octets: &[u8]) -> Option<&[u8]> {
        let (contents, _) = element_in_der(octets, universal_tag(16), true)?;
        let (algorithm, _) = element_in_der(contents, universal_tag(6), false)?;
        Some(algorithm)
    }
}

impl DerText for AlgorithmIdentifier {
    ghost value = { λ x. ⟦<RuledSequence<AlgorithmFields> as DerText>⟧.value x.0 };

    ghost one_text = { λ x y. ⟦<RuledSequence<AlgorithmFields> as DerText>⟧.one_text
        x.0 y.0 };

    fn size(&self) -> u64 {
        self.0.size()
    }

    fn put<W: Target>(&self, sink: &mut Sink<'_, W>) -> Result<(), WriteError> {
        self.0.put(sink)
    }

    fn octet(&self, i: u64) -> Option<u8> {
        self.0.octet(i)
    }
}

#[tactic(auto, unfolding(pkix_definitions::specs::DocumentTypes::AlgorithmIdentifier))]
impl Element for AlgorithmIdentifier {
    ghost type_term = { AlgorithmIdentifierType };

    ghost closed = { algorithm_closed };

    fn fits(tag: Tag) -> bool {
        RuledSequence::<AlgorithmFields>::fits(tag)
    }

    fn read<R: Source>(
        alloc: Global,
        pull: &mut Pull<'_, R>,
    ) -> Result<AlgorithmIdentifier, ReadError> {
        Ok(AlgorithmIdentifier(RuledSequence::<AlgorithmFields>::read(alloc, pull)?))
    }

    fn judge(octets: &[u8], limits: Limits, left: u8) -> Option<&[u8]> {
        let rest = RuledSequence::<AlgorithmFields>::judge(octets, limits, left)?;
        Some(rest)
    }
}
