//! Reading an element whose type is data, kept as its DER text (X.690 8, 10, 11).
//!
//! The texts of members and of fields are put after what is there at once, with room for a header of two octets in
//! front; those of a SET OF stand apart until they are in order (11.6).
ghost use Rattle.std.specs.Prelude.{◌≡◌, ◌++◌, ◌+◌, ◌∷◌, ◌≤◌, List, [], ℕ, None, Some, IfErr, IfOk, IsSome, OnOk};
ghost use Rattle.std.specs.Prelude.{length, true};
ghost use Rattle.tlv_core.specs.declared.fault.ReadError.TheVariants.{Memory};
ghost use Rattle.tlv_core.specs.declared.reason.Reason.TheVariants.{WrongTag};
ghost use Rattle.x690.specs.Layouts.{same_tag};
ghost use Rattle.x690.specs.Points.{fault};
ghost use Rattle.x690.specs.Reading.{Reading, require};
ghost use Rattle.x690.specs.ReadTypes.{read_fields};
ghost use Rattle.x690.specs.TypeTerms.{ChoiceType, LeafType, OpenType, SequenceOfType, SequenceType, SetOfType};
ghost use Rattle.x690.specs.Values.{Value};
ghost use Rattle.ber_pull.specs.Hears.{heard_error};
ghost use Rattle.ber_pull.specs.Standing.{failed_with};
ghost use Rattle.ber_pull.specs.View.{standing, source, Repeats, Answers, Unmoved, Uses, Frame};
ghost use Rattle.ber_pull.specs.declared.state.Given.{Given};
ghost use Rattle.asn_elements.specs.Framing.{framed};
ghost use Rattle.asn_elements.specs.Reading.{kind_of as simple_kind, read_given, read_given_members};
ghost use Rattle.asn_fields.specs.Fields.{IsInside, LeavesContainer, StaysInside, next_of, stands_next};
ghost use Rattle.asn_open_values.specs.OpenTexts.{AnswersText, StandBehind};
ghost use Rattle.pkix_shapes.specs.Plain.{are_plain, is_leaf, is_plain};
ghost use Rattle.pkix_shapes.specs.Terms.{fields_of, kind_of, leaf_tag, tag_of, term_of};
ghost use Rattle.asn_names.specs.Shaped.{AnswersDefault, AnswersDue, AnswersFields, AnswersMembers};

use asn_elements::keep::keep;
use asn_elements::leaf_reading::{SimpleType, read_leaf_into};
use asn_fields::fields::{Next, ahead, begin, end};
use asn_open_values::open_value::{append_element, append_open, arranged, set_header};
use ber_pull::pull::Pull;
use pkix_shapes::shape::{Contents, Fields, Shape, ShapeTag};
use std::alloc::Global;
use tlv_core::fault::ReadError;
use tlv_core::reason::Reason;
use tlv_core::source::Source;
use tlv_core::tag::Tag;

/// The members of a list or of a set.
#[derive(Clone, Copy)]
pub(crate) struct Members {
    pub shape: &'static Shape,
    pub least: u32,
    pub in_set: bool,
}

/// Where the members of a container end, and how many fewer they are than the least number.
#[derive(Clone, Copy)]
pub(crate) struct MembersEnd {
    pub at: u64,
    pub missing: u32,
}

/// A field that is a leaf, with the contents of its DEFAULT.
#[derive(Clone, Copy)]
pub(crate) struct DefaultLeaf {
    pub own: ShapeTag,
    pub contents: Contents,
    pub default: &'static [u8],
}

/// The leaf that a type is, with this default.
fn leaf_of(shape: &Shape, default: &'static [u8]) -> DefaultLeaf
    requires { is_leaf shape.now ≡ true }
    ensures typed { term_of shape.now ≡ LeafType (tag_of result.own) (kind_of result.contents) }
    ensures tagged { leaf_tag shape.now ≡ tag_of result.own }
    ensures same { result.default.now ≡ default.now }
{
    match shape {
        Shape::Leaf(own, contents) => DefaultLeaf {
            own: *own,
            contents: *contents,
            default,
        },
        Shape::Named(_, shape) | Shape::Private(shape) => leaf_of(shape, default),
        Shape::Open | Shape::ListOf(..) | Shape::SetOf(..) | Shape::Sequence(..) => unreachable!(),
        Shape::Containing(..) | Shape::Refused(_) | Shape::DefinedBy(..) => unreachable!(),
        Shape::Choice(..) => unreachable!(),
    }
}

/// The kind of leaf with these contents.
fn simple_type(contents: Contents) -> SimpleType
    ensures { simple_kind result ≡ kind_of contents }
{
    match contents {
        Contents::Boolean => SimpleType::Boolean,
        Contents::Integer => SimpleType::Integer,
        Contents::Null => SimpleType::Null,
        Contents::ObjectIdentifier => SimpleType::ObjectIdentifier,
        Contents::BitString => SimpleType::BitString,
        Contents::OctetString | Contents::Text => SimpleType::OctetString,
        Contents::Utf8String => SimpleType::Utf8String,
    }
}

/// The tag of the element that is given, which has to be the one of its type: else `WrongTag`.
fn expect_own<R: Source>(pull: &mut Pull<'_, R>, own: ShapeTag) -> Result<Tag, ReadError>
    requires { (standing pull.old).error ≡ None → IsSome (standing pull.old).given }
    ensures frame { Frame pull.old pull.new result }
    ensures repeats { Repeats pull.old pull.new result }
    ensures stops { (g : Given) → (standing pull.old).error ≡ None
        → (standing pull.old).given ≡ Some g
        → IfErr result (λ e. (p : Reading Value)
        → Answers pull.old pull.new
        (require (same_tag (tag_of own) g.tag) (fault g.at WrongTag) p) (heard_error e)) }
    ensures is { (g : Given) → (standing pull.old).error ≡ None → (standing pull.old).given ≡ Some g
        → IfOk result (λ _. same_tag (tag_of own) g.tag ≡ true) }
    ensures own { IfOk result (λ tag. tag ≡ tag_of own) }
    ensures same { OnOk result (Unmoved pull.old pull.new) }
    ensures fine { OnOk result ((standing pull.old).error ≡ None) }
{
    let at = pull.at();
    let Some((tag, _)) = pull.next_tag()? else {
        unreachable!()
    };
    if !own.is(tag) {
        return Err(pull.refuse(at, Reason::WrongTag, None));
    }
    Ok(tag)
}

/// Puts room for a header of two octets after what is there.
fn leave_room<R: Source>(pull: &mut Pull<'_, R>, text: &mut Vec<u8>) -> Result<(), ReadError>
    requires { (standing pull.old).error ≡ None }
    ensures frame { Frame pull.old pull.new result }
    ensures put { OnOk result (text.new.items ≡ text.old.items ++ (0 ∷ 0 ∷ [])) }
    ensures still { OnOk result (pull.new ≡ pull.old) }
    ensures stops { IfErr result (λ e. (e ≡ Memory) × (source pull.new ≡ source pull.old)
        × (standing pull.new ≡ failed_with e (standing pull.old))) }
{
    match text.extend_from_slice(&[0, 0]) {
        Ok(()) => Ok(()),
        Err(_) => Err(pull.no_memory()),
    }
}

/// Puts the header of a constructed element where room was left for it.
fn put_header<R: Source>(
    pull: &mut Pull<'_, R>,
    text: &mut Vec<u8>,
    start: usize,
    tag: Tag,
) -> Result<(), ReadError>
    requires fine { (standing pull.old).error ≡ None }
    requires room { start + 2 ≤ length text.old.items }
    ensures frame { Frame pull.old pull.new result }
    ensures put { OnOk result ((before room contents : List ℕ) → length before ≡ start
        → length room ≡ 2 → text.old.items ≡ before ++ (room ++ contents)
        → text.new.items ≡ before ++ framed tag contents) }
    ensures still { OnOk result (pull.new ≡ pull.old) }
    ensures stops { IfErr result (λ e. (e ≡ Memory) × (source pull.new ≡ source pull.old)
        × (standing pull.new ≡ failed_with e (standing pull.old))) }
{
    match set_header(text, start, tag) {
        Ok(()) => Ok(()),
        Err(_) => Err(pull.no_memory()),
    }
}

/// Appends the text of the leaf that is given, of this tag and with such contents.
fn append_leaf<R: Source>(
    alloc: Global,
    pull: &mut Pull<'_, R>,
    room: &mut Vec<u8>,
    text: &mut Vec<u8>,
    own: ShapeTag,
    contents: Contents,
) -> Result<(), ReadError>
    requires { (standing pull.old).error ≡ None → IsSome (standing pull.old).given }
    ensures frame { Frame pull.old pull.new result }
    ensures repeats { Repeats pull.old pull.new result }
    ensures reads { (g : Given) → (standing pull.old).error ≡ None
        → (standing pull.old).given ≡ Some g
        → AnswersText pull.old pull.new
        (read_given (LeafType (tag_of own) (kind_of contents)) (standing pull.old) g)
        text.old.items text.new.items result }
    ensures stands { OnOk result (Uses pull.old pull.new) }
{
    let tag = expect_own(pull, own)?;
    read_leaf_into(alloc, pull, simple_type(contents), room)?;
    append_element(pull, text, tag, false, room)
}

/// Appends the text of the element that is given, of any type.
fn append_any<R: Source>(
    alloc: Global,
    pull: &mut Pull<'_, R>,
    room: &mut Vec<u8>,
    text: &mut Vec<u8>,
) -> Result<(), ReadError>
    requires { (standing pull.old).error ≡ None → IsSome (standing pull.old).given }
    ensures frame { Frame pull.old pull.new result }
    ensures repeats { Repeats pull.old pull.new result }
    ensures reads { (g : Given) → (standing pull.old).error ≡ None
        → (standing pull.old).given ≡ Some g
        → AnswersText pull.old pull.new (read_given OpenType (standing pull.old) g) text.old.items
        text.new.items result }
    ensures stands { OnOk result (Uses pull.old pull.new) }
{
    let Some((tag, constructed)) = pull.next_tag()? else {
        unreachable!()
    };
    append_open(alloc, pull, room, text, tag, constructed)
}

/// Appends the texts of the members of the container that is given; of a set, where each begins goes into `starts`.
#[cycle(shaped)]
fn append_members<R: Source>(
    alloc: Global,
    pull: &mut Pull<'_, R>,
    room: &mut Vec<u8>,
    text: &mut Vec<u8>,
    starts: &mut Vec<u64>,
    members: Members,
) -> Result<MembersEnd, ReadError>
    requires given { (standing pull.old).error ≡ None → IsSome (standing pull.old).given }
    requires none { starts.old.items ≡ [] }
    requires plain { is_plain members.shape.now ≡ true }
    ensures frame { Frame pull.old pull.new result }
    ensures repeats { Repeats pull.old pull.new result }
    ensures reads { (g : Given) → (standing pull.old).error ≡ None
        → (standing pull.old).given ≡ Some g
        → AnswersMembers pull.old pull.new
        (read_given_members (term_of members.shape.now) (standing pull.old) g) members
        text.old.items text.new.items starts.new.items result }
    ensures texts { OnOk result ((values : List Value)
        × StandBehind members.in_set values text.old.items text.new.items starts.new.items) }
    ensures stands { OnOk result (Uses pull.old pull.new) }
{
    pull.enter()?;
    let mut at = pull.at();
    let mut missing = members.least;
    while let Some(_next) = pull.next_tag()? {
        let start = text.len() as u64;
        append_shaped(alloc, pull, room, text, members.shape)?;
        missing = missing.saturating_sub(1);
        at = pull.at();
        if members.in_set {
            keep(pull, starts, start)?;
        }
    }
    pull.leave()?;
    Ok(MembersEnd { at, missing })
}

/// Appends the text of the SEQUENCE OF that is given.
#[cycle(shaped)]
fn append_list<R: Source>(
    alloc: Global,
    pull: &mut Pull<'_, R>,
    room: &mut Vec<u8>,
    text: &mut Vec<u8>,
    own: ShapeTag,
    members: Members,
) -> Result<(), ReadError>
    requires given { (standing pull.old).error ≡ None → IsSome (standing pull.old).given }
    requires plain { is_plain members.shape.now ≡ true }
    ensures frame { Frame pull.old pull.new result }
    ensures repeats { Repeats pull.old pull.new result }
    ensures reads { (g : Given) → (standing pull.old).error ≡ None
        → (standing pull.old).given ≡ Some g
        → AnswersText pull.old pull.new
        (read_given (SequenceOfType (tag_of own) members.least (term_of members.shape.now))
        (standing pull.old) g)
        text.old.items text.new.items result }
    ensures stands { OnOk result (Uses pull.old pull.new) }
{
    let tag = expect_own(pull, own)?;
    let start = text.len();
    leave_room(pull, text)?;
    let mut starts = Vec::new(alloc);
    let end = append_members(alloc, pull, room, text, &mut starts, members)?;
    if end.missing > 0 {
        return Err(pull.refuse(end.at, Reason::Missing, None));
    }
    put_header(pull, text, start, tag)
}

/// Appends the text of the SET OF that is given.
#[cycle(shaped)]
fn append_set<R: Source>(
    alloc: Global,
    pull: &mut Pull<'_, R>,
    room: &mut Vec<u8>,
    text: &mut Vec<u8>,
    own: ShapeTag,
    members: Members,
) -> Result<(), ReadError>
    requires given { (standing pull.old).error ≡ None → IsSome (standing pull.old).given }
    requires plain { is_plain members.shape.now ≡ true }
    requires set { members.in_set ≡ true }
    ensures frame { Frame pull.old pull.new result }
    ensures repeats { Repeats pull.old pull.new result }
    ensures reads { (g : Given) → (standing pull.old).error ≡ None
        → (standing pull.old).given ≡ Some g
        → AnswersText pull.old pull.new
        (read_given (SetOfType (tag_of own) members.least (term_of members.shape.now))
        (standing pull.old) g)
        text.old.items text.new.items result }
    ensures stands { OnOk result (Uses pull.old pull.new) }
{
    let at = pull.at();
    let tag = expect_own(pull, own)?;
    let mut octets = Vec::new(alloc);
    let mut starts = Vec::new(alloc);
    let end = append_members(alloc, pull, room, &mut octets, &mut starts, members)?;
    if end.missing > 0 {
        return Err(pull.refuse(at, Reason::EmptySet, None));
    }
    let contents = arranged(alloc, pull, octets, &starts)?;
    append_element(pull, text, tag, true, &contents)
}

/// Whether an element stands next that may begin as one of the type.
fn stands(shape: &Shape, next: &Next) -> bool
    ensures { result ≡ stands_next (term_of shape.now) next.now }
{
    match next.tag {
        Some((tag, _)) => shape.fits(tag),
        None => false,
    }
}

/// Appends the text of a field that is due; `next` is then what stands after it.
#[cycle(shaped)]
fn append_due<R: Source>(
    alloc: Global,
    pull: &mut Pull<'_, R>,
    room: &mut Vec<u8>,
    text: &mut Vec<u8>,
    shape: &'static Shape,
    next: &mut Next,
) -> Result<(), ReadError>
    requires fine { (standing pull.old).error ≡ None }
    requires inside { IsInside pull.old next.old }
    requires plain { is_plain shape.now ≡ true }
    ensures frame { Frame pull.old pull.new result }
    ensures reads { AnswersDue pull.old pull.new next.old next.new (term_of shape.now)
        text.old.items text.new.items result }
    ensures stands { OnOk result (StaysInside pull.old pull.new next.old next.new) }
{
    let Some((tag, _)) = next.tag else {
        return Err(pull.refuse(next.at, Reason::Missing, None));
    };
    if !shape.fits(tag) {
        return Err(pull.refuse(next.at, Reason::WrongTag, None));
    }
    append_shaped(alloc, pull, room, text, shape)?;
    *next = ahead(pull)?;
    Ok(())
}

/// Appends the text of a leaf that may be absent, where it is there and isn't its default (X.690 11.5); `next` is then
/// what stands after it.
fn append_default<R: Source>(
    alloc: Global,
    pull: &mut Pull<'_, R>,
    room: &mut Vec<u8>,
    text: &mut Vec<u8>,
    leaf: DefaultLeaf,
    next: &mut Next,
) -> Result<(), ReadError>
    requires fine { (standing pull.old).error ≡ None }
    requires inside { IsInside pull.old next.old }
    ensures frame { Frame pull.old pull.new result }
    ensures reads { AnswersDefault pull.old pull.new next.old next.new leaf text.old.items
        text.new.items result }
    ensures stands { OnOk result (StaysInside pull.old pull.new next.old next.new) }
{
    let Some((tag, _)) = next.tag else {
        return Ok(());
    };
    if !leaf.own.is(tag) {
        return Ok(());
    }
    read_leaf_into(alloc, pull, simple_type(leaf.contents), room)?;
    *next = ahead(pull)?;
    if room.as_slice() == leaf.default {
        return Ok(());
    }
    append_element(pull, text, tag, false, room)
}

/// Appends the texts of the fields from here on, up to the end of their container.
#[cycle(shaped)]
fn append_fields<R: Source>(
    alloc: Global,
    pull: &mut Pull<'_, R>,
    room: &mut Vec<u8>,
    text: &mut Vec<u8>,
    fields: &'static Fields,
    next: &mut Next,
) -> Result<(), ReadError>
    requires fine { (standing pull.old).error ≡ None }
    requires inside { IsInside pull.old next.old }
    requires plain { are_plain fields.now ≡ true }
    ensures frame { Frame pull.old pull.new result }
    ensures reads { (earlier : List Value) → AnswersFields pull.old pull.new next.old
        (λ limits inside. read_fields limits (fields_of fields.now) earlier inside
        (next_of next.old))
        text.old.items text.new.items result }
    ensures stands { OnOk result (LeavesContainer pull.old pull.new next.old) }
{
    match fields {
        Fields::End => end(pull, *next),
        Fields::Required(_, shape, after) => {
            append_due(alloc, pull, room, text, shape, next)?;
            append_fields(alloc, pull, room, text, after, next)
        }
        Fields::Optional(_, shape, after) => {
            if !stands(shape, next) {
                return append_fields(alloc, pull, room, text, after, next);
            }
            append_due(alloc, pull, room, text, shape, next)?;
            append_fields(alloc, pull, room, text, after, next)
        }
        Fields::Default(_, default, shape, after) => {
            let leaf = leaf_of(shape, default);
            append_default(alloc, pull, room, text, leaf, next)?;
            append_fields(alloc, pull, room, text, after, next)
        }
    }
}

/// Appends the text of the SEQUENCE that is given, of these fields and no others.
#[cycle(shaped)]
fn append_sequence<R: Source>(
    alloc: Global,
    pull: &mut Pull<'_, R>,
    room: &mut Vec<u8>,
    text: &mut Vec<u8>,
    own: ShapeTag,
    fields: &'static Fields,
) -> Result<(), ReadError>
    requires given { (standing pull.old).error ≡ None → IsSome (standing pull.old).given }
    requires plain { are_plain fields.now ≡ true }
    ensures frame { Frame pull.old pull.new result }
    ensures repeats { Repeats pull.old pull.new result }
    ensures reads { (g : Given) → (standing pull.old).error ≡ None
        → (standing pull.old).given ≡ Some g
        → AnswersText pull.old pull.new
        (read_given (SequenceType (tag_of own) (fields_of fields.now)) (standing pull.old) g)
        text.old.items text.new.items result }
    ensures stands { OnOk result (Uses pull.old pull.new) }
{
    let tag = expect_own(pull, own)?;
    let start = text.len();
    leave_room(pull, text)?;
    let mut next = begin(pull, tag)?;
    append_fields(alloc, pull, room, text, fields, &mut next)?;
    put_header(pull, text, start, tag)
}

/// Appends the text of the element that is given, of the type that its tag chooses.
#[cycle(shaped)]
fn append_choice<R: Source>(
    alloc: Global,
    pull: &mut Pull<'_, R>,
    room: &mut Vec<u8>,
    text: &mut Vec<u8>,
    first: &'static Shape,
    second: &'static Shape,
) -> Result<(), ReadError>
    requires given { (standing pull.old).error ≡ None → IsSome (standing pull.old).given }
    requires first { is_plain first.now ≡ true }
    requires second { is_plain second.now ≡ true }
    ensures frame { Frame pull.old pull.new result }
    ensures repeats { Repeats pull.old pull.new result }
    ensures reads { (g : Given) → (standing pull.old).error ≡ None
        → (standing pull.old).given ≡ Some g
        → AnswersText pull.old pull.new
        (read_given (ChoiceType (term_of first.now) (term_of second.now)) (standing pull.old) g)
        text.old.items text.new.items result }
    ensures stands { OnOk result (Uses pull.old pull.new) }
{
    let Some((tag, _)) = pull.next_tag()? else {
        unreachable!()
    };
    if first.fits(tag) {
        append_shaped(alloc, pull, room, text, first)
    } else {
        append_shaped(alloc, pull, room, text, second)
    }
}

/// Appends the text of the element that is given, as one of the type. Contents of leaves are read in `room`, which is
/// used again for each.
///
/// Faults: the first one of the element as one of the type, with its place.
#[cycle(shaped)]
pub fn append_shaped<R: Source>(
    alloc: Global,
    pull: &mut Pull<'_, R>,
    room: &mut Vec<u8>,
    text: &mut Vec<u8>,
    shape: &'static Shape,
) -> Result<(), ReadError>
    requires given { (standing pull.old).error ≡ None → IsSome (standing pull.old).given }
    requires plain { is_plain shape.now ≡ true }
    ensures frame { Frame pull.old pull.new result }
    ensures repeats { Repeats pull.old pull.new result }
    ensures reads { (g : Given) → (standing pull.old).error ≡ None
        → (standing pull.old).given ≡ Some g
        → AnswersText pull.old pull.new (read_given (term_of shape.now) (standing pull.old) g)
        text.old.items text.new.items result }
    ensures stands { OnOk result (Uses pull.old pull.new) }
{
    match shape {
        Shape::Leaf(own, contents) => append_leaf(alloc, pull, room, text, *own, *contents),
        Shape::Open => append_any(alloc, pull, room, text),
        Shape::ListOf(own, least, shape) => {
            let members = Members {
                shape,
                least: *least,
                in_set: false,
            };
            append_list(alloc, pull, room, text, *own, members)
        }
        Shape::SetOf(own, least, shape) => {
            let members = Members {
                shape,
                least: *least,
                in_set: true,
            };
            append_set(alloc, pull, room, text, *own, members)
        }
        Shape::Sequence(own, fields) => append_sequence(alloc, pull, room, text, *own, fields),
        Shape::Choice(first, second) => append_choice(alloc, pull, room, text, first, second),
        Shape::Named(_, shape) | Shape::Private(shape) => append_shaped(
            alloc, pull, room, text, shape,
        ),
        Shape::Containing(..) | Shape::Refused(_) | Shape::DefinedBy(..) => unreachable!(),
    }
}
