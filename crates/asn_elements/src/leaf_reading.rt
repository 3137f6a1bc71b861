// Reading leaves.
ghost use Rattle.std.specs.Str.{IsUtf8};
ghost use Rattle.std.specs.Prelude.{◌≡◌, ◌↔◌, ◌∷◌, [], None, Some, IfOk, IfErr, IsSome, IsTrue, OnOk, ◌<◌};
ghost use Rattle.std.specs.Prelude.{length, true};
ghost use Rattle.tlv_core.specs.Identifier.{Tag as Identified};
ghost use Rattle.tlv_core.specs.declared.reason.Reason.TheVariants.{Inner, WrongTag};
ghost use Rattle.x690.specs.ReadContents as reading;
ghost use Rattle.x690.specs.Contents.{BitString, bit_contents};
ghost use Rattle.x690.specs.Layouts.{same_tag};
ghost use Rattle.x690.specs.Points.{fault};
ghost use Rattle.x690.specs.Reading.{Done, Reading, require};
ghost use Rattle.x690.specs.TypeTerms.{LeafType};
ghost use Rattle.x690.specs.Values.{Leaf, Value};
ghost use Rattle.ber_pull.specs.Hears.{heard, heard_error};
ghost use Rattle.ber_pull.specs.View.{standing, AsksNoMemory, Repeats, Answers, Uses, Unmoved, Frame};
ghost use Rattle.ber_pull.specs.declared.state.Given.{Given};
ghost use Rattle.asn_elements.specs.BitStrings.{IsDerBits};
ghost use Rattle.asn_elements.specs.Reading.{AnswersValue, HasContents, kind_of, read_given, read_given_leaf};
ghost use Rattle.asn_elements.specs.Reading.{string_kind};

use crate::integer::is_integer;
use crate::tags::is_same_tag;
use ber_pull::bits::{is_bit_segment, without_last_bits};
use ber_pull::pull::Pull;
use simdutf8::basic::from_utf8;
use std::alloc::Global;
use tlv_core::fault::ReadError;
use tlv_core::oid::is_object_identifier;
use tlv_core::reason::Reason;
use tlv_core::source::Source;
use tlv_core::tag::Tag;

/// The kinds of leaves.
#[derive(Clone, Copy)]
pub enum SimpleType {
    Boolean,
    Integer,
    Null,
    ObjectIdentifier,
    BitString,
    OctetString,
    Utf8String,
}

/// The place of the element that is given, which has to have this tag: else `WrongTag`.
#[inline(always)]
pub fn expect_tag<R: Source>(pull: &mut Pull<'_, R>, own: Tag) -> Result<u64, ReadError>
    requires { (standing pull.old).error ≡ None → IsSome (standing pull.old).given }
    ensures frame { Frame pull.old pull.new result }
    ensures repeats { Repeats pull.old pull.new result }
    ensures reads { (g : Given) → (standing pull.old).error ≡ None
        → (standing pull.old).given ≡ Some g
        → Answers pull.old pull.new
        (require (same_tag own g.tag) (fault g.at WrongTag) (Done (tt {0})))
        (heard (λ _. tt {0}) result) }
    ensures stops { (g : Given) → (standing pull.old).error ≡ None
        → (standing pull.old).given ≡ Some g
        → IfErr result (λ e. (p : Reading Value)
        → Answers pull.old pull.new (require (same_tag own g.tag) (fault g.at WrongTag) p)
        (heard_error e)) }
    ensures is { (g : Given) → (standing pull.old).error ≡ None → (standing pull.old).given ≡ Some g
        → IfOk result (λ at. (at ≡ g.at) × (same_tag own g.tag ≡ true)) }
    ensures same { OnOk result (Unmoved pull.old pull.new) }
    ensures fine { OnOk result ((standing pull.old).error ≡ None) }
    ensures memory { AsksNoMemory pull.old result }
{
    let at = pull.at();
    let Some((tag, _)) = pull.next_tag()? else {
        unreachable!()
    };
    if !is_same_tag(own, tag) {
        return Err(pull.refuse(at, Reason::WrongTag, None));
    }
    Ok(at)
}

/// Whether the octets are UTF-8. (`simdutf8::is_utf8` takes a whole block of a short string.)
fn is_text(octets: &[u8]) -> bool
    ensures { IsTrue result ↔ IsUtf8 octets.now }
{
    from_utf8(octets).is_ok()
}

/// Whether the octets are those of a string.
fn is_string(utf8: bool, octets: &[u8]) -> bool
    ensures { result ≡ reading.is_contents (string_kind utf8) octets.now }
{
    !utf8 || is_text(octets)
}

/// Whether the octets are the contents of a primitive leaf of the kind.
#[inline(always)]
pub(crate) fn is_contents(kind: SimpleType, contents: &[u8]) -> bool
    ensures { result ≡ reading.is_contents (kind_of kind) contents.now }
{
    match kind {
        SimpleType::Boolean => contents.len() == 1,
        SimpleType::Integer => is_integer(contents),
        SimpleType::Null => contents.is_empty(),
        SimpleType::ObjectIdentifier => is_object_identifier(contents),
        SimpleType::BitString => is_bit_segment(contents),
        SimpleType::OctetString => is_string(false, contents),
        SimpleType::Utf8String => is_string(true, contents),
    }
}

/// Why octets that aren't contents of the kind are refused.
fn bad_contents(kind: SimpleType) -> Reason
    ensures bad { result ≡ reading.bad_contents (kind_of kind) }
    ensures plain { result ≡ Inner → ⊥ }
{
    match kind {
        SimpleType::Boolean => Reason::BadBoolean,
        SimpleType::Integer => Reason::BadInteger,
        SimpleType::Null => Reason::BadNull,
        SimpleType::ObjectIdentifier => Reason::BadOid,
        SimpleType::BitString => Reason::BadBits,
        SimpleType::OctetString | SimpleType::Utf8String => Reason::BadText,
    }
}

/// Sets the unused bits after the contents of a BIT STRING to 0 (X.690 11.2.1).
fn clear_bits(contents: &mut Vec<u8>)
    requires { reading.is_bit_segment contents.old.items ≡ true }
    ensures { contents.new.items ≡ bit_contents (contents.old.items ∷ []) }
{
    let last = contents.len() - 1;
    if last > 0 {
        contents[last] = without_last_bits(contents[last], contents[0]);
    }
}

/// Makes the contents those of DER: TRUE is FF, and unused bits are 0 (X.690 11.1, 11.2.1).
#[inline(always)]
fn make_der(kind: SimpleType, contents: &mut Vec<u8>)
    requires fit { reading.is_contents (kind_of kind) contents.old.items ≡ true }
    ensures der { contents.new.items ≡ reading.der_contents (kind_of kind) contents.old.items }
    ensures contents { HasContents kind contents.new.items }
{
    match kind {
        SimpleType::Boolean if contents[0] != 0 => contents[0] = 255,
        SimpleType::BitString => clear_bits(contents),
        _ => {}
    }
}

/// The DER contents of the leaf that is given, which is primitive or of a kind that always is, in place of what the
/// vector holds.
#[inline(always)]
fn read_primitive_leaf<R: Source>(
    pull: &mut Pull<'_, R>,
    kind: SimpleType,
    contents: &mut Vec<u8>,
) -> Result<(), ReadError>
    requires primitive { (g : Given) → (standing pull.old).given ≡ Some g → g.constructed ≡ true
        → reading.segment_tag (kind_of kind) ≡ None }
    requires given { (standing pull.old).error ≡ None → IsSome (standing pull.old).given }
    ensures frame { Frame pull.old pull.new result }
    ensures repeats { Repeats pull.old pull.new result }
    ensures reads { (own : Identified) (g : Given) → (standing pull.old).error ≡ None
        → (standing pull.old).given ≡ Some g
        → Answers pull.old pull.new (read_given_leaf (kind_of kind) own (standing pull.old) g)
        (heard (λ _. Leaf own contents.new.items) result) }
    ensures contents { OnOk result (HasContents kind contents.new.items) }
    ensures stands { OnOk result (Uses pull.old pull.new) }
{
    let at = pull.at();
    pull.primitive_into(contents)?;
    if !is_contents(kind, contents) {
        return Err(pull.refuse(at, bad_contents(kind), None));
    }
    make_der(kind, contents);
    Ok(())
}

/// The DER contents of the BIT STRING that is given: the number of unused bits, and the octets.
fn read_bits_leaf<R: Source>(alloc: Global, pull: &mut Pull<'_, R>) -> Result<Vec<u8>, ReadError>
    requires { (standing pull.old).error ≡ None → IsSome (standing pull.old).given }
    ensures frame { Frame pull.old pull.new result }
    ensures repeats { Repeats pull.old pull.new result }
    ensures reads { (own : Identified) (g : Given) → (standing pull.old).error ≡ None
        → (standing pull.old).given ≡ Some g
        → Answers pull.old pull.new (read_given_leaf BitString own (standing pull.old) g)
        (heard (λ v. Leaf own v.items) result) }
    ensures some { IfOk result (λ v. 0 < length v.items) }
    ensures bits { IfOk result (λ v. IsDerBits v.items) }
    ensures stands { OnOk result (Uses pull.old pull.new) }
{
    let (unused, mut octets) = pull.bits(alloc)?;
    match octets.insert(0, unused) {
        Ok(()) => Ok(octets),
        Err(_) => Err(pull.no_memory()),
    }
}

/// The octets of the string that is given, which are UTF-8 where they have to be, in place of what the vector holds.
fn read_octets_leaf<R: Source>(
    alloc: Global,
    pull: &mut Pull<'_, R>,
    utf8: bool,
    contents: &mut Vec<u8>,
) -> Result<(), ReadError>
    requires { (standing pull.old).error ≡ None → IsSome (standing pull.old).given }
    ensures frame { Frame pull.old pull.new result }
    ensures repeats { Repeats pull.old pull.new result }
    ensures reads { (own : Identified) (g : Given) → (standing pull.old).error ≡ None
        → (standing pull.old).given ≡ Some g
        → Answers pull.old pull.new
        (read_given_leaf (string_kind utf8) own (standing pull.old) g)
        (heard (λ _. Leaf own contents.new.items) result) }
    ensures contents { OnOk result (reading.is_contents (string_kind utf8) contents.new.items
        ≡ true) }
    ensures stands { OnOk result (Uses pull.old pull.new) }
{
    let at = pull.at();
    pull.octets_into(alloc, contents)?;
    if !is_string(utf8, contents) {
        return Err(pull.refuse(at, Reason::BadText, None));
    }
    Ok(())
}

/// The DER contents of the leaf that is given, whatever its tag, in place of what the vector holds.
#[inline(always)]
pub fn read_leaf_into<R: Source>(
    alloc: Global,
    pull: &mut Pull<'_, R>,
    kind: SimpleType,
    contents: &mut Vec<u8>,
) -> Result<(), ReadError>
    requires { (standing pull.old).error ≡ None → IsSome (standing pull.old).given }
    ensures frame { Frame pull.old pull.new result }
    ensures repeats { Repeats pull.old pull.new result }
    ensures reads { (own : Identified) (g : Given) → (standing pull.old).error ≡ None
        → (standing pull.old).given ≡ Some g
        → Answers pull.old pull.new (read_given_leaf (kind_of kind) own (standing pull.old) g)
        (heard (λ _. Leaf own contents.new.items) result) }
    ensures contents { OnOk result (HasContents kind contents.new.items) }
    ensures stands { OnOk result (Uses pull.old pull.new) }
{
    if pull.is_primitive() {
        return read_primitive_leaf(pull, kind, contents);
    }
    match kind {
        SimpleType::BitString => *contents = read_bits_leaf(alloc, pull)?,
        SimpleType::OctetString => read_octets_leaf(alloc, pull, false, contents)?,
        SimpleType::Utf8String => read_octets_leaf(alloc, pull, true, contents)?,
        SimpleType::Boolean
        | SimpleType::Integer
        | SimpleType::Null
        | SimpleType::ObjectIdentifier => read_primitive_leaf(pull, kind, contents)?,
    }
    Ok(())
}

/// The DER contents of the leaf that is given, of this tag and kind.
#[inline(always)]
pub fn read_leaf_as<R: Source>(
    alloc: Global,
    pull: &mut Pull<'_, R>,
    own: Tag,
    kind: SimpleType,
) -> Result<Vec<u8>, ReadError>
    requires { (standing pull.old).error ≡ None → IsSome (standing pull.old).given }
    ensures frame { Frame pull.old pull.new result }
    ensures repeats { Repeats pull.old pull.new result }
    ensures reads { (g : Given) → (standing pull.old).error ≡ None
        → (standing pull.old).given ≡ Some g
        → AnswersValue pull.old pull.new
        (read_given (LeafType own (kind_of kind)) (standing pull.old) g)
        (λ v. Leaf own v.items) result }
    ensures contents { IfOk result (λ v. HasContents kind v.items) }
    ensures stands { OnOk result (Uses pull.old pull.new) }
{
    expect_tag(pull, own)?;
    let mut contents = Vec::new(alloc);
    read_leaf_into(alloc, pull, kind, &mut contents)?;
    Ok(contents)
}
