//! Fields whose type or rule goes by those before them.
//!
//! `Dependent<A, F>` are the fields `A` and one after them, `F`, that is due; in `OptionalDependent<A, F>` it may be
//! absent. `F` is put together of `Independent`, an element of any type, `DefinedBy`, one of two by a leaf of the
//! fields before it, `RuledBehind` and `RuledContaining`, with a rule that looks at these fields, and `Refused`.
ghost use Rattle.std.specs.Prelude.{◌≡◌, ◌+◌, ◌++◌, ◌<◌, ◌^◌, ◌∷◌, Bool as Truth, IfOk, IfSome, IsSome, List, None};
ghost use Rattle.std.specs.Prelude.{Ok, OnOk, Some, [], false, length, slice_get, true, ℕ};
ghost use Rattle.std.specs.Option.{option_copied};
ghost use Rattle.tlv_core.specs.Sinks.{count, Puts};
ghost use Rattle.x690.specs.DerTexts.{der, texts_of};
ghost use Rattle.x690.specs.TypeTerms.{TypeTerm, fits_tag};
ghost use Rattle.x690.specs.Values.{Value, value_tag};
ghost use Rattle.ber_pull.specs.View.{standing, AsksNoMemory, Unmoved, Uses, Frame};
ghost use Rattle.asn_elements.specs.InDer.{StandsInDer};
ghost use Rattle.asn_fields.specs.Apart.{may_begin};
ghost use Rattle.asn_fields.specs.Fields.{IsInside, LeavesWithin, StaysInside, stands_next};
ghost use Rattle.asn_fields.specs.Dependents.{AnswersBehind, RequiredBehind, OneTextBehind, OptionalBehind};
ghost use Rattle.asn_fields.specs.Dependents.{TakesBehind, suits_where_there, value_where_there};
ghost use Rattle.asn_fields.specs.FieldsInDer.{AreFields};
ghost use Rattle.asn_fields.specs.Listings.{nothing, through};
ghost use Rattle.asn_fields.specs.DependentLaws.{dependent};

use crate::field_list::{FieldsText, FirstFields};
use crate::next::{Next, ahead};
use asn_elements::element::Element;
use ber_pull::pull::Pull;
use std::alloc::Global;
use tlv_core::fault::ReadError;
use tlv_core::limits::Limits;
use tlv_core::reason::Reason;
use tlv_core::sink::{Sink, WriteError};
use tlv_core::source::Source;
use tlv_core::tag::Tag;
use tlv_core::target::Target;

/// An element whose type or rule goes by the fields before it, `A`.
pub trait DependentElement<A: FieldsText>: Sized + Drop {
    /// Its type.
    ghost type_term: { TypeTerm };

    /// What it stands for.
    ghost value: { Self → Value };

    /// Whether it is of the type after fields of these values.
    ghost suits: { List Value → Self → Truth };

    /// After the same fields, two that have one text are the same.
    ghost one_text: { OneTextBehind value suits };

    /// Whether a value of the type may begin with this tag.
    fn fits(tag: Tag) -> bool
        ensures { result ≡ fits_tag type_term tag };

    /// Reads the element that `next_tag` has given, as the plain reading of the type does after the earlier fields.
    fn read<R: Source>(
        alloc: Global,
        pull: &mut Pull<'_, R>,
        earlier: &A,
    ) -> Result<Self, ReadError>
        requires { (standing pull.old).error ≡ None → IsSome (standing pull.old).given }
        ensures frame { Frame pull.old pull.new result }
        ensures reads { AnswersBehind pull.old pull.new type_term
            (A.values earlier.now) Self.value result }
        ensures suits { IfOk result (λ x. Self.suits (A.values earlier.now) x ≡ true) }
        ensures stands { OnOk result (Uses pull.old pull.new) };

    /// What stands after the element, where octets begin with it and it is in DER as it stands, after fields that
    /// `earlier` begins with; with no more than `left` containers in each other. `None` says nothing of the octets.
    fn judge<'a>(earlier: &[u8], octets: &'a [u8], limits: Limits, left: u8) -> Option<&'a [u8]>
        ensures { IfSome result (λ rest. (fields : List Value) (behind : List ℕ)
            → AreFields limits.depth A.listing.types fields earlier.now behind
            → (value : Value)
            × StandsInDer limits.depth left type_term fields value octets.now rest.now) }
    {
        None
    }

    /// The length of its text, in octets.
    fn size(&self) -> u64
        ensures { result ≡ length (der (value self.now)) };

    /// Writes its text.
    fn put<W: Target>(&self, sink: &mut Sink<'_, W>) -> Result<(), WriteError>
        requires { count sink.old + length (der (value self.now)) < 2 ^ 64 }
        ensures { Puts (der (value self.now)) sink.old sink.new result };

    /// Octet `i` of its text.
    fn octet(&self, i: u64) -> Option<u8>
        ensures { result ≡ slice_get (der (value self.now)) i };
}

/// The fields before an element that no other field bears on.
#[derive(Drop)]
pub struct NoFields;

impl FieldsText for NoFields {
    ghost values = { λ none. [] };

    ghost listing = { nothing };

    fn size(&self) -> u64 {
        0
    }

    fn put<W: Target>(&self, sink: &mut Sink<'_, W>) -> Result<(), WriteError> {
        sink.put(&[])
    }

    fn octet(&self, _i: u64) -> Option<u8> {
        None
    }
}

/// An element of a type that no other field bears on.
#[derive(Drop)]
pub struct Independent<T: Drop>(pub T);

impl<A: FieldsText, T: Element> DependentElement<A> for Independent<T> {
    ghost type_term = { T.type_term };

    ghost value = { λ x. T.value x.0 };

    ghost suits = { λ vs x. true };

    ghost one_text = { λ vs ws x y same h k. T.one_text x.0 y.0 };

    fn fits(tag: Tag) -> bool {
        T::fits(tag)
    }

    fn read<R: Source>(
        alloc: Global,
        pull: &mut Pull<'_, R>,
        earlier: &A,
    ) -> Result<Independent<T>, ReadError> {
        let _ = earlier;
        let value = T::read(alloc, pull)?;
        Ok(Independent(value))
    }

    fn judge<'a>(_earlier: &[u8], octets: &'a [u8], limits: Limits, left: u8) -> Option<&'a [u8]> {
        let rest = T::judge(octets, limits, left)?;
        Some(rest)
    }

    fn size(&self) -> u64 {
        self.0.size()
    }

    fn put<W: Target>(&self, sink: &mut Sink<'_, W>) -> Result<(), WriteError> {
        self.0.put(sink)
    }

    fn octet(&self, i: u64) -> Option<u8> {
        self.0.octet(i)
    }
}

/// A field that is due after these, by itself: what stands after it is looked at by `ahead`.
///
/// Faults: `Missing` at the end of the container, `WrongTag` at another element; those of the field.
#[inline(always)]
pub(crate) fn take_dependent<R: Source, A: FieldsText, F: DependentElement<A>>(
    alloc: Global,
    pull: &mut Pull<'_, R>,
    next: Next,
    earlier: &A,
) -> Result<F, ReadError>
    requires fine { (standing pull.old).error ≡ None }
    requires inside { IsInside pull.old next }
    ensures frame { Frame pull.old pull.new result }
    ensures reads { TakesBehind pull.old pull.new next F.type_term
        (A.values earlier.now) F.value result }
    ensures suits { IfOk result (λ field. F.suits (A.values earlier.now) field ≡ true) }
    ensures short { IfOk result (λ field. length (der (F.value field)) < 2 ^ 32) }
    ensures begins { IfOk result (λ field.
        may_begin F.type_term (value_tag (F.value field)) ≡ true) }
    ensures stands { OnOk result (LeavesWithin pull.old pull.new next) }
    ensures memory { stands_next F.type_term next ≡ false → AsksNoMemory pull.old result }
{
    let fits = match next.tag {
        Some((tag, _)) => F::fits(tag),
        None => return Err(pull.refuse(next.at, Reason::Missing, None)),
    };
    if !fits {
        return Err(pull.refuse(next.at, Reason::WrongTag, None));
    }
    F::read(alloc, pull, earlier)
}

/// A field that is due after these.
///
/// Faults: `Missing` at the end of the container, `WrongTag` at another element; those of the field, and of
/// `Pull::next_tag` after it.
#[inline(always)]
pub fn due_dependent<R: Source, A: FieldsText, F: DependentElement<A>>(
    alloc: Global,
    pull: &mut Pull<'_, R>,
    next: &mut Next,
    earlier: &A,
) -> Result<F, ReadError>
    requires fine { (standing pull.old).error ≡ None }
    requires inside { IsInside pull.old next.old }
    ensures frame { Frame pull.old pull.new result }
    ensures reads { RequiredBehind pull.old pull.new next.old next.new F.type_term
        (A.values earlier.now) F.value result }
    ensures suits { IfOk result (λ field. F.suits (A.values earlier.now) field ≡ true) }
    ensures short { IfOk result (λ field. length (der (F.value field)) < 2 ^ 32) }
    ensures begins { IfOk result (λ field.
        may_begin F.type_term (value_tag (F.value field)) ≡ true) }
    ensures stands { OnOk result (StaysInside pull.old pull.new next.old next.new) }
    ensures memory { stands_next F.type_term next.old ≡ false → AsksNoMemory pull.old result }
{
    let field = take_dependent::<R, A, F>(alloc, pull, *next, earlier)?;
    *next = ahead(pull)?;
    Ok(field)
}

/// A field after these that may be absent.
///
/// Faults: those of the field where it stands here, and of `Pull::next_tag` after it.
#[inline(always)]
pub fn optional_dependent<R: Source, A: FieldsText, F: DependentElement<A>>(
    alloc: Global,
    pull: &mut Pull<'_, R>,
    next: &mut Next,
    earlier: &A,
) -> Result<Option<F>, ReadError>
    requires fine { (standing pull.old).error ≡ None }
    requires inside { IsInside pull.old next.old }
    ensures frame { Frame pull.old pull.new result }
    ensures reads { OptionalBehind pull.old pull.new next.old next.new F.type_term
        (A.values earlier.now) F.value result }
    ensures suits { IfOk result (λ field. suits_where_there (F.suits (A.values earlier.now)) field
        ≡ true) }
    ensures short { IfOk result (λ field. IfSome field (λ f. length (der (F.value f)) < 2 ^ 32)) }
    ensures begins { IfOk result (λ field. IfSome field
        (λ f. may_begin F.type_term (value_tag (F.value f)) ≡ true)) }
    ensures stands { OnOk result (StaysInside pull.old pull.new next.old next.new) }
    ensures absent { stands_next F.type_term next.old ≡ false
        → (result ≡ Ok None) × Unmoved pull.old pull.new × (next.new ≡ next.old) }
{
    let fits = match next.tag {
        Some((tag, _)) => F::fits(tag),
        None => return Ok(None),
    };
    if !fits {
        return Ok(None);
    }
    let field = F::read(alloc, pull, earlier)?;
    *next = ahead(pull)?;
    Ok(Some(field))
}

/// The fields `A`, and one after them that is due and depends on them.
#[derive(Drop)]
pub struct Dependent<A: FieldsText, F: DependentElement<A>> {
    earlier: A,
    field: F,
    ghost suits: { F.suits (A.values earlier) field ≡ true },
}

impl<A: FieldsText, F: DependentElement<A>> Dependent<A, F> {
    /// The earlier fields.
    pub fn earlier(&self) -> &A
        ensures { result.now ≡ self.now.earlier }
    {
        &self.earlier
    }

    /// The field.
    pub fn field(&self) -> &F
        ensures value { result.now ≡ self.now.field }
        ensures suits { F.suits (A.values self.now.earlier) result.now ≡ true }
    {
        &self.field
    }

    fn written(&self) -> Written<'_, A, F>
        ensures earlier { result.earlier.now ≡ self.now.earlier }
        ensures field { option_copied result.field ≡ Some self.now.field }
    {
        Written {
            earlier: &self.earlier,
            field: Some(&self.field),
        }
    }
}

/// The fields `A`, and the one after them that depends on them where it is there, as they are written.
#[derive(Drop)]
pub(crate) struct Written<'a, A: FieldsText, F: DependentElement<A>> {
    pub(crate) earlier: &'a A,
    pub(crate) field: Option<&'a F>,
}

impl<'a, A: FieldsText, F: DependentElement<A>> Written<'a, A, F> {
    /// The length of the text of the field.
    fn field_size(&self) -> u64
        ensures { result ≡ length (texts_of (value_where_there F.value self.now.field)) }
    {
        match self.field {
            Some(field) => field.size(),
            None => 0,
        }
    }

    /// Writes the text of the field.
    fn put_field<W: Target>(&self, sink: &mut Sink<'_, W>) -> Result<(), WriteError>
        requires { count sink.old + length (texts_of (value_where_there F.value self.now.field)) < 2 ^ 64 }
        ensures { Puts (texts_of (value_where_there F.value self.now.field)) sink.old sink.new result }
    {
        match self.field {
            Some(field) => field.put(sink),
            None => sink.put(&[]),
        }
    }

    /// Octet `i` of the text of the field.
    fn field_octet(&self, i: u64) -> Option<u8>
        ensures { result ≡ slice_get (texts_of (value_where_there F.value self.now.field)) i }
    {
        match self.field {
            Some(field) => field.octet(i),
            None => None,
        }
    }

    /// The length of their texts.
    pub(crate) fn size(&self) -> u64
        requires { length (texts_of (A.values self.now.earlier.now
            ++ value_where_there F.value self.now.field)) < 2 ^ 63 }
        ensures { result ≡ length (texts_of (A.values self.now.earlier.now
            ++ value_where_there F.value self.now.field)) }
    {
        self.earlier.size() + self.field_size()
    }

    /// Writes their texts.
    pub(crate) fn put<W: Target>(&self, sink: &mut Sink<'_, W>) -> Result<(), WriteError>
        requires { count sink.old + length (texts_of (A.values self.now.earlier.now
            ++ value_where_there F.value self.now.field)) < 2 ^ 64 }
        ensures { Puts (texts_of (A.values self.now.earlier.now
            ++ value_where_there F.value self.now.field)) sink.old sink.new result }
    {
        self.earlier.put(sink)?;
        self.put_field(sink)
    }

    /// Octet `i` of their texts.
    pub(crate) fn octet(&self, i: u64) -> Option<u8>
        requires { length (texts_of (A.values self.now.earlier.now
            ++ value_where_there F.value self.now.field)) < 2 ^ 63 }
        ensures { result ≡ slice_get (texts_of (A.values self.now.earlier.now
            ++ value_where_there F.value self.now.field)) i }
    {
        let size = self.earlier.size();
        if i < size {
            self.earlier.octet(i)
        } else {
            self.field_octet(i - size)
        }
    }
}

impl<A: FieldsText, F: DependentElement<A>> FieldsText for Dependent<A, F> {
    ghost values = { λ d. A.values d.earlier ++ (F.value d.field ∷ []) };

    ghost listing = { through (λ d. (d.earlier, d.field, d.suits))
        (dependent A.listing F.value F.type_term F.suits F.one_text) };

    fn size(&self) -> u64 {
        self.written().size()
    }

    fn put<W: Target>(&self, sink: &mut Sink<'_, W>) -> Result<(), WriteError> {
        self.written().put(sink)
    }

    fn octet(&self, i: u64) -> Option<u8> {
        self.written().octet(i)
    }
}

impl<A: FirstFields, F: DependentElement<A>> FirstFields for Dependent<A, F> {
    fn read_first<R: Source>(
        alloc: Global,
        pull: &mut Pull<'_, R>,
        next: &mut Next,
    ) -> Result<Dependent<A, F>, ReadError> {
        let earlier = A::read_first(alloc, pull, next)?;
        let field = due_dependent::<R, A, F>(alloc, pull, next, &earlier)?;
        Ok(Dependent { earlier, field })
    }

    fn judge_first(octets: &[u8], limits: Limits, left: u8) -> Option<&[u8]> {
        let behind = A::judge_first(octets, limits, left)?;
        let rest = F::judge(octets, behind, limits, left)?;
        Some(rest)
    }
}
