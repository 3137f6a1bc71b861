//! What a list of fields is, in the order of the ASN.1 (X.690 8.9): `(A, B)` is `A` in front of `B`, and more of them
//! are pairs in pairs, `(A, (B, C))`.
ghost use Rattle.std.specs.Prelude.{◌≡◌, ◌+◌, ◌++◌, ◌*◌, ◌^◌, ◌<◌, ◌≤◌, IfOk, IfSome, List, None, OnOk, length};
ghost use Rattle.std.specs.Prelude.{slice_get, true};
ghost use Rattle.tlv_core.specs.Sinks.{count, Puts};
ghost use Rattle.x690.specs.DerTexts.{texts_of};
ghost use Rattle.x690.specs.Values.{Value};
ghost use Rattle.ber_pull.specs.View.{standing, Frame};
ghost use Rattle.asn_fields.specs.Fields.{IsInside, StaysInside};
ghost use Rattle.asn_fields.specs.BegunSequence.{ReadsFields, ReadsFirst};
ghost use Rattle.asn_fields.specs.FieldsInDer.{FieldsBegin, FirstFieldsBegin};
ghost use Rattle.asn_fields.specs.ApartLaws.{both};
ghost use Rattle.asn_fields.specs.Listings.{Listing};

use crate::next::Next;
use ber_pull::pull::Pull;
use std::alloc::Global;
use tlv_core::fault::ReadError;
use tlv_core::limits::Limits;
use tlv_core::sink::{Sink, WriteError};
use tlv_core::source::Source;
use tlv_core::target::Target;

/// Fields one after another, and their types.
pub trait FieldsText: Sized + Drop {
    /// The values of those that are there.
    ghost values: { Self → List Value };

    /// Their types, how many there are at most, that each begins as its type may, and that their texts tell them.
    ghost listing: { Listing values };

    /// The length of their texts.
    fn size(&self) -> u64
        requires { length (texts_of (values self.now)) < 2 ^ 63 }
        ensures { result ≡ length (texts_of (values self.now)) };

    /// Writes their texts.
    fn put<W: Target>(&self, sink: &mut Sink<'_, W>) -> Result<(), WriteError>
        requires { count sink.old + length (texts_of (values self.now)) < 2 ^ 64 }
        ensures { Puts (texts_of (values self.now)) sink.old sink.new result };

    /// Octet `i` of their texts.
    fn octet(&self, i: u64) -> Option<u8>
        requires { length (texts_of (values self.now)) < 2 ^ 63 }
        ensures { result ≡ slice_get (texts_of (values self.now)) i };
}

/// Fields that are read as their types say, whatever stands before them.
pub trait IndependentFields: FieldsText {
    /// Reads them where they stand next, as the plain reading does.
    fn read<R: Source>(
        alloc: Global,
        pull: &mut Pull<'_, R>,
        next: &mut Next,
    ) -> Result<Self, ReadError>
        requires fine { (standing pull.old).error ≡ None }
        requires inside { IsInside pull.old next.old }
        ensures frame { Frame pull.old pull.new result }
        ensures reads { ReadsFields pull.old pull.new next.old next.new Self.listing.types Self.values
            result }
        ensures short { IfOk result (λ fields. length (texts_of (Self.values fields))
            ≤ Self.listing.most * 2 ^ 32) }
        ensures known { IfOk result (λ fields. Self.listing.known fields ≡ true) }
        ensures stands { OnOk result (StaysInside pull.old pull.new next.old next.new) };

    /// What stands after them, where octets begin with them and they are in DER as they stand, with no more than `left`
    /// containers in each other. `None` says nothing of the octets.
    fn judge(octets: &[u8], limits: Limits, left: u8) -> Option<&[u8]>
        ensures { IfSome result (λ rest. FieldsBegin limits.depth left Self.listing.types octets.now
            rest.now) }
    {
        None
    }
}

/// The first fields of a SEQUENCE: those before a field are known where it is read.
pub trait FirstFields: FieldsText {
    /// Reads them at the begin of the container, as the plain reading does.
    fn read_first<R: Source>(
        alloc: Global,
        pull: &mut Pull<'_, R>,
        next: &mut Next,
    ) -> Result<Self, ReadError>
        requires fine { (standing pull.old).error ≡ None }
        requires inside { IsInside pull.old next.old }
        ensures frame { Frame pull.old pull.new result }
        ensures reads { ReadsFirst pull.old pull.new next.old next.new Self.listing.types Self.values
            result }
        ensures short { IfOk result (λ fields. length (texts_of (Self.values fields))
            ≤ Self.listing.most * 2 ^ 32) }
        ensures known { IfOk result (λ fields. Self.listing.known fields ≡ true) }
        ensures stands { OnOk result (StaysInside pull.old pull.new next.old next.new) };

    /// What stands after them, as `judge` of independent fields says it.
    fn judge_first(octets: &[u8], limits: Limits, left: u8) -> Option<&[u8]>
        ensures { IfSome result (λ rest. FirstFieldsBegin limits.depth left Self.listing.types
            octets.now rest.now) }
    {
        None
    }
}

impl<A: FieldsText, B: FieldsText> FieldsText for (A, B) {
    ghost values = { λ both. A.values both.0 ++ B.values both.1 };

    ghost listing = { both A.listing B.listing };

    fn size(&self) -> u64 {
        let (first, rest) = self;
        first.size() + rest.size()
    }

    fn put<W: Target>(&self, sink: &mut Sink<'_, W>) -> Result<(), WriteError> {
        let (first, rest) = self;
        first.put(sink)?;
        rest.put(sink)
    }

    fn octet(&self, i: u64) -> Option<u8> {
        let (first, rest) = self;
        let size = first.size();
        if i < size {
            first.octet(i)
        } else {
            rest.octet(i - size)
        }
    }
}

impl<A: IndependentFields, B: IndependentFields> IndependentFields for (A, B) {
    fn read<R: Source>(
        alloc: Global,
        pull: &mut Pull<'_, R>,
        next: &mut Next,
    ) -> Result<(A, B), ReadError> {
        let first = A::read(alloc, pull, next)?;
        let rest = B::read(alloc, pull, next)?;
        Ok((first, rest))
    }

    fn judge(octets: &[u8], limits: Limits, left: u8) -> Option<&[u8]> {
        let behind = A::judge(octets, limits, left)?;
        let rest = B::judge(behind, limits, left)?;
        Some(rest)
    }
}

impl<A: FirstFields, B: IndependentFields> FirstFields for (A, B) {
    fn read_first<R: Source>(
        alloc: Global,
        pull: &mut Pull<'_, R>,
        next: &mut Next,
    ) -> Result<(A, B), ReadError> {
        let first = A::read_first(alloc, pull, next)?;
        let rest = B::read(alloc, pull, next)?;
        Ok((first, rest))
    }

    fn judge_first(octets: &[u8], limits: Limits, left: u8) -> Option<&[u8]> {
        let behind = A::judge_first(octets, limits, left)?;
        let rest = B::judge(behind, limits, left)?;
        Some(rest)
    }
}
