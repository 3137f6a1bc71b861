//! Fields that may be absent, and whose type or rule goes by those before them.
ghost use Rattle.std.specs.Prelude.{◌≡◌, ◌++◌, ◌<◌, IfSome, List, [], false, true};
ghost use Rattle.std.specs.Option.{option_copied, option_map};
ghost use Rattle.x690.specs.Fitting.{next_fits};
ghost use Rattle.x690.specs.Layouts.{RawTree};
ghost use Rattle.asn_fields.specs.FieldReadings.{with_field};
ghost use Rattle.asn_fields.specs.Dependents.{suits_where_there};
ghost use Rattle.asn_fields.specs.FieldsInDer.{MayStand};
ghost use Rattle.asn_fields.specs.Listings.{through};
ghost use Rattle.asn_fields.specs.DependentLaws.{optional_dependent};

use crate::dependent::{DependentElement, Written, optional_dependent};
use crate::field_list::{FieldsText, FirstFields};
use crate::next::Next;
use asn_elements::tags::tag_of_identifier;
use ber_pull::pull::Pull;
use std::alloc::Global;
use tlv_core::fault::ReadError;
use tlv_core::limits::Limits;
use tlv_core::sink::{Sink, WriteError};
use tlv_core::source::Source;
use tlv_core::target::Target;

/// Whether the field may stand where these octets are, by its tag; `None` where its identifier has more octets than
/// one.
#[inline(always)]
fn begins_as_dependent<A: FieldsText, F: DependentElement<A>>(octets: &[u8]) -> Option<bool>
    ensures { IfSome result (λ begins. begins ≡ false → (trees : List RawTree)
        → MayStand trees octets.now → next_fits F.type_term trees ≡ false) }
{
    let [first, ..] = octets else {
        return Some(false);
    };
    let tag = tag_of_identifier(*first)?;
    Some(F::fits(tag))
}

/// The fields `A`, and one after them that may be absent and depends on them.
#[derive(Drop)]
pub struct OptionalDependent<A: FieldsText, F: DependentElement<A>> {
    earlier: A,
    field: Option<F>,
    ghost suits: { suits_where_there (F.suits (A.values earlier)) field ≡ true },
}

impl<A: FieldsText, F: DependentElement<A>> OptionalDependent<A, F> {
    /// The earlier fields.
    pub fn earlier(&self) -> &A
        ensures { result.now ≡ self.now.earlier }
    {
        &self.earlier
    }

    /// The field.
    pub fn field(&self) -> &Option<F>
        ensures value { result.now ≡ self.now.field }
        ensures suits { suits_where_there (F.suits (A.values self.now.earlier)) result.now ≡ true }
    {
        &self.field
    }

    fn written(&self) -> Written<'_, A, F>
        ensures earlier { result.earlier.now ≡ self.now.earlier }
        ensures field { option_copied result.field ≡ self.now.field }
    {
        Written {
            earlier: &self.earlier,
            field: self.field.as_ref(),
        }
    }
}

impl<A: FieldsText, F: DependentElement<A>> FieldsText for OptionalDependent<A, F> {
    ghost values = { λ d. A.values d.earlier ++ with_field (option_map F.value d.field) [] };

    ghost listing = { through (λ d. (d.earlier, d.field, d.suits))
        (optional_dependent A.listing F.value F.type_term F.suits F.one_text) };

    fn size(&self) -> u64 {
        self.written().size()
    }

    fn put<W: Target>(&self, sink: &mut Sink<'_, W>) -> Result<(), WriteError> {
        self.written().put(sink)
    }

    fn octet(&self, i: u64) -> Option<u8> {
        self.written().octet(i)
    }
}

impl<A: FirstFields, F: DependentElement<A>> FirstFields for OptionalDependent<A, F> {
    fn read_first<R: Source>(
        alloc: Global,
        pull: &mut Pull<'_, R>,
        next: &mut Next,
    ) -> Result<OptionalDependent<A, F>, ReadError> {
        let earlier = A::read_first(alloc, pull, next)?;
        let field = optional_dependent::<R, A, F>(alloc, pull, next, &earlier)?;
        Ok(OptionalDependent { earlier, field })
    }

    fn judge_first(octets: &[u8], limits: Limits, left: u8) -> Option<&[u8]> {
        let behind = A::judge_first(octets, limits, left)?;
        if !begins_as_dependent::<A, F>(behind)? {
            return Some(behind);
        }
        let rest = F::judge(octets, behind, limits, left)?;
        Some(rest)
    }
}
