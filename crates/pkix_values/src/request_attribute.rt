//! Attributes of certification requests (RFC 2986 section 4.1, RFC 2985 section 5.4.2).
ghost use Rattle.std.proofs.lemmas.Bool.{ltb-true};
ghost use Rattle.std.specs.Prelude.{◌≡◌, ◌∷◌, [], IfSome, List as Lists, not, refl, ℕ};
ghost use Rattle.std.specs.Option.{is_some, option_map};
ghost use Rattle.pkix_definitions.specs.DocumentTypes.{RequestAttribute as RequestAttributeType};
ghost use Rattle.pkix_definitions.specs.Identifiers.{extension_request};
ghost use Rattle.x690.specs.Lists.{one_of};
ghost use Rattle.x690.specs.Values.{Value, leaf_at};
ghost use Rattle.asn_elements.specs.InDer.{BeginsWithText};
ghost use Rattle.asn_fields.specs.Listings.{through};
ghost use Rattle.pkix_definitions.proofs.Sequences.{request_attribute_is};

use crate::extension::Extension;
use crate::identifiers::{is_extension_request, names_extensions};
use crate::set_of_some::SetOfSome;
use asn_elements::element::Element;
use asn_elements::in_der::element_in_der;
use asn_elements::tags::universal_tag;
use asn_fields::defined_by::{DefinedBy, Defines};
use asn_fields::dependent::{Dependent, Independent};
use asn_fields::either::Either;
use asn_fields::fields::Next;
use asn_fields::sequence::{FieldsText, FirstFields, Required, Sequence, SequenceFields};
use asn_lists::list::List;
use asn_lists::set_of::SetOf;
use asn_open_values::any::Any;
use ber_pull::pull::Pull;
use std::alloc::Global;
use tlv_core::fault::ReadError;
use tlv_core::limits::Limits;
use tlv_core::oid::Oid;
use tlv_core::sink::{Sink, WriteError};
use tlv_core::source::Source;
use tlv_core::target::Target;

/// Under extensionRequest the values are lists of extensions.
#[derive(Drop)]
pub struct ByType;

/// What is an OBJECT IDENTIFIER.
pub trait IsOid: Element {
    /// It.
    fn oid(&self) -> &Oid
        ensures { leaf_at (0 ∷ []) (Self.value self.now ∷ []) ≡ result.now };

    /// Its contents, of what octets begin with, in DER; `None` says nothing of them.
    fn oid_in_der(octets: &[u8]) -> Option<&[u8]>
        ensures { IfSome result (λ oid. (limit : ℕ) (value : Value) (rest : Lists ℕ)
            → BeginsWithText limit Self.Element.type_term [] value octets.now rest
            → leaf_at (0 ∷ []) (value ∷ []) ≡ oid.now) };
}

impl IsOid for Oid {
    #[tactic(auto, unfolding(x690::specs::Values::leaf_at))]
    fn oid(&self) -> &Oid {
        self
    }

    fn oid_in_der(octets: &[u8]) -> Option<&[u8]> {
        let (contents, _) = element_in_der(octets, universal_tag(6), false)?;
        Some(contents)
    }
}

impl<T: IsOid> Defines<Required<T>> for ByType {
    ghost path = { 0 ∷ [] };

    ghost octets = { extension_request ∷ [] };

    fn is_first(earlier: &Required<T>) -> bool {
        is_extension_request(earlier.0.oid())
    }

    fn is_first_in_der(earlier: &[u8]) -> Option<bool> {
        let oid = T::oid_in_der(earlier)?;
        Some(names_extensions(oid))
    }
}

/// type, values.
type Listed = Dependent<
    Required<Oid>,
    DefinedBy<Independent<SetOfSome<List<Extension>>>, Independent<SetOfSome<Any>>, ByType>,
>;

/// type, values, which are lists of extensions under extensionRequest.
#[derive(Drop)]
pub struct RequestAttributeFields(Listed);

impl RequestAttributeFields {
    ghost use Rattle.pkix_values.specs.RequestAttributes.{extensions_of, plain_values_of, request_attribute_type_of};

    /// Its type.
    pub fn id(&self) -> &Oid
        ensures { result.now ≡ request_attribute_type_of self.now }
    {
        &self.0.earlier().0
    }

    /// The lists of extensions of extensionRequest.
    #[tactic(auto, unfolding(x690::specs::Values::leaf_at))]
    pub fn extensions(&self) -> Option<&SetOf<List<Extension>>>
        ensures value { option_map (λ r. r.now) result ≡ extensions_of self.now }
        ensures by_type { is_some result ≡ one_of (request_attribute_type_of self.now)
            (extension_request ∷ []) }
    {
        match self.0.field().value() {
            Either::First(lists) => Some(lists.0.items()),
            Either::Second(_) => None,
        }
    }

    /// The values of an attribute of any other type.
    #[tactic(auto, unfolding(x690::specs::Values::leaf_at))]
    pub fn plain(&self) -> Option<&SetOf<Any>>
        ensures value { option_map (λ r. r.now) result ≡ plain_values_of self.now }
        ensures by_type { is_some result ≡ not
            (one_of (request_attribute_type_of self.now) (extension_request ∷ [])) }
    {
        match self.0.field().value() {
            Either::First(_) => None,
            Either::Second(values) => Some(values.0.items()),
        }
    }
}

impl FieldsText for RequestAttributeFields {
    ghost values = { λ fields. ⟦<Listed as FieldsText>⟧.values fields.0 };

    ghost listing = { through (λ fields. fields.0) ⟦<Listed as FieldsText>⟧.listing };

    fn size(&self) -> u64 {
        self.0.size()
    }

    fn put<W: Target>(&self, sink: &mut Sink<'_, W>) -> Result<(), WriteError> {
        self.0.put(sink)
    }

    fn octet(&self, i: u64) -> Option<u8> {
        self.0.octet(i)
    }
}

impl FirstFields for RequestAttributeFields {
    fn read_first<R: Source>(
        alloc: Global,
        pull: &mut Pull<'_, R>,
        next: &mut Next,
    ) -> Result<RequestAttributeFields, ReadError> {
        match <Listed as FirstFields>::read_first(alloc, pull, next) {
            Ok(listed) => Ok(RequestAttributeFields(listed)),
            Err(error) => Err(error),
        }
    }

    fn judge_first(octets: &[u8], limits: Limits, left: u8) -> Option<&[u8]> {
        let rest = <Listed as FirstFields>::judge_first(octets, limits, left)?;
        Some(rest)
    }
}

impl SequenceFields for RequestAttributeFields {
    ghost type_term = { RequestAttributeType };

    ghost listed = { request_attribute_is };

    ghost parted = { refl };

    ghost few = { ltb-true _ _ refl };
}

/// An attribute of a certification request: extensionRequest, which has lists of extensions, or any other one.
pub type RequestAttribute = Sequence<RequestAttributeFields>;
