//! Reading open values (X.690; profile): elements that stand where any type may, kept as their text in DER. What it is
//! made of serves readers of other types whose values are kept so.
ghost use Rattle.std.specs.Prelude.{◌≡◌, ◌++◌, ◌+◌, ◌<◌, ◌≤◌, List, [], ℕ, None, Ok, Some, IfErr, IfOk, IsSome, OnOk};
ghost use Rattle.std.specs.Prelude.{false, true, length, suc};
ghost use Rattle.tlv_core.specs.Header.{der_header};
ghost use Rattle.tlv_core.specs.Identifier.{Tag as Identified};
ghost use Rattle.tlv_core.specs.declared.fault.ReadError.TheVariants.{Memory};
ghost use Rattle.x690.specs.DerTexts.{der};
ghost use Rattle.x690.specs.Values.{Leaf, SetOf, Value, values_of};
ghost use Rattle.ber_pull.specs.Hears.{heard};
ghost use Rattle.ber_pull.specs.Standing.{failed_with};
ghost use Rattle.ber_pull.specs.View.{standing, source, Repeats, Answers, Uses, Frame};
ghost use Rattle.ber_pull.specs.declared.state.Given.{Given};
ghost use Rattle.asn_elements.specs.Framing.{framed};
ghost use Rattle.asn_elements.specs.Members.{StandIn};
ghost use Rattle.asn_open_values.specs.OpenTexts.{AnswersText, AnswersTexts, IsNext, StandBehind};
ghost use Rattle.asn_open_values.specs.OpenTexts.{read_given_container, read_given_contents, read_given_open};
ghost use Rattle.asn_open_values.specs.OpenTexts.{read_given_open_members};

use crate::open_form::{OpenForm, open_form};
use crate::texts::in_order;
use asn_elements::keep::keep;
use asn_elements::leaf_reading::read_leaf_into;
use ber_pull::pull::Pull;
use std::alloc::{AllocError, Global};
use tlv_core::der::{header, short_header};
use tlv_core::fault::ReadError;
use tlv_core::reason::Reason;
use tlv_core::source::Source;
use tlv_core::tag::Tag;

/// Header and contents after what is there.
#[inline(always)]
fn push_element(
    text: &mut Vec<u8>,
    tag: Tag,
    constructed: bool,
    contents: &[u8],
) -> Result<(), AllocError>
    ensures { OnOk result (text.new.items ≡ text.old.items
        ++ (der_header tag constructed (length contents.now) ++ contents.now)) }
{
    let length = contents.len() as u64;
    // (one growth for both: after a tag below 31 stand five octets of length at most)
    text.reserve(contents.len() + 6)?;
    match short_header(tag, constructed, length) {
        Some(octets) => text.extend_from_slice(&octets)?,
        None => text.extend_from_slice(header(tag, constructed, length).octets())?,
    }
    text.extend_from_slice(contents)
}

/// Header and contents after what is there; the reader fails where it finds no memory.
#[inline(always)]
pub fn append_element<R: Source>(
    pull: &mut Pull<'_, R>,
    text: &mut Vec<u8>,
    tag: Tag,
    constructed: bool,
    contents: &[u8],
) -> Result<(), ReadError>
    requires { (standing pull.old).error ≡ None }
    ensures frame { Frame pull.old pull.new result }
    ensures put { OnOk result (text.new.items ≡ text.old.items
        ++ (der_header tag constructed (length contents.now) ++ contents.now)) }
    ensures still { OnOk result (pull.new ≡ pull.old) }
    ensures stops { IfErr result (λ e. (e ≡ Memory) × (source pull.new ≡ source pull.old)
        × (standing pull.new ≡ failed_with e (standing pull.old))) }
{
    match push_element(text, tag, constructed, contents) {
        Ok(()) => Ok(()),
        Err(_) => Err(pull.no_memory()),
    }
}

/// The DER contents of the leaf that is given, whatever its tag, in place of what the vector holds; of a form that has
/// no kind its octets as they are.
#[inline(always)]
fn read_contents<R: Source>(
    alloc: Global,
    pull: &mut Pull<'_, R>,
    form: OpenForm,
    contents: &mut Vec<u8>,
) -> Result<(), ReadError>
    requires { (standing pull.old).error ≡ None → IsSome (standing pull.old).given }
    ensures frame { Frame pull.old pull.new result }
    ensures repeats { Repeats pull.old pull.new result }
    ensures reads { (own : Identified) (g : Given) → (standing pull.old).error ≡ None
        → (standing pull.old).given ≡ Some g
        → Answers pull.old pull.new (read_given_contents form own (standing pull.old) g)
        (heard (λ _. Leaf own contents.new.items) result) }
    ensures stands { OnOk result (Uses pull.old pull.new) }
{
    match form {
        OpenForm::Leaf(kind) => read_leaf_into(alloc, pull, kind, contents),
        OpenForm::Sequence | OpenForm::SetOf | OpenForm::Plain | OpenForm::Refused => {
            pull.primitive_into(contents)
        }
    }
}

/// Appends the text of the leaf that is given.
#[inline(always)]
fn append_leaf<R: Source>(
    alloc: Global,
    pull: &mut Pull<'_, R>,
    room: &mut Vec<u8>,
    text: &mut Vec<u8>,
    tag: Tag,
    form: OpenForm,
) -> Result<(), ReadError>
    requires { (standing pull.old).error ≡ None → IsSome (standing pull.old).given }
    ensures frame { Frame pull.old pull.new result }
    ensures repeats { Repeats pull.old pull.new result }
    ensures reads { (g : Given) → (standing pull.old).error ≡ None
        → (standing pull.old).given ≡ Some g
        → AnswersText pull.old pull.new
        (read_given_contents form tag (standing pull.old) g) text.old.items text.new.items result }
    ensures stands { OnOk result (Uses pull.old pull.new) }
{
    read_contents(alloc, pull, form, room)?;
    append_element(pull, text, tag, false, room)
}

/// The texts of the members of a SET, in the order of SET OF (X.690 11.6).
pub fn arranged<R: Source>(
    alloc: Global,
    pull: &mut Pull<'_, R>,
    octets: Vec<u8>,
    starts: &[u64],
) -> Result<Vec<u8>, ReadError>
    requires fine { (standing pull.old).error ≡ None }
    requires texts { (values : List Value) × StandIn values octets.items starts.now }
    ensures frame { Frame pull.old pull.new result }
    ensures is { IfOk result (λ contents. (values : List Value) (tag : Identified)
        → StandIn values octets.items starts.now
        → der (SetOf tag (values_of values)) ≡ framed tag contents.items) }
    ensures still { OnOk result (pull.new ≡ pull.old) }
    ensures stops { IfErr result (λ e. (e ≡ Memory) × (source pull.new ≡ source pull.old)
        × (standing pull.new ≡ failed_with e (standing pull.old))) }
{
    match in_order(alloc, octets, starts) {
        Ok(sorted) => Ok(sorted),
        Err(_) => Err(pull.no_memory()),
    }
}

/// The header of a constructed element in place of the two octets at `start`, in front of the contents after them.
pub fn set_header(text: &mut Vec<u8>, start: usize, tag: Tag) -> Result<(), AllocError>
    requires { start + 2 ≤ length text.old.items }
    ensures { OnOk result ((before room contents : List ℕ) → length before ≡ start → length room ≡ 2
        → text.old.items ≡ before ++ (room ++ contents)
        → text.new.items ≡ before ++ framed tag contents) }
{
    let behind = start + 2;
    match short_header(tag, true, (text.len() - behind) as u64) {
        Some(octets) => {
            text[start] = octets[0];
            text[start + 1] = octets[1];
            Ok(())
        }
        None => {
            let contents = text.split_off(behind)?;
            text.truncate(start);
            push_element(text, tag, true, &contents)
        }
    }
}

/// Appends the texts of the members of the container that is given; of a SET, where each begins goes into `starts`.
#[cycle(open)]
fn append_members<R: Source>(
    alloc: Global,
    pull: &mut Pull<'_, R>,
    room: &mut Vec<u8>,
    text: &mut Vec<u8>,
    starts: &mut Vec<u64>,
    is_set: bool,
) -> Result<(), ReadError>
    requires given { (standing pull.old).error ≡ None → IsSome (standing pull.old).given }
    requires none { starts.old.items ≡ [] }
    ensures frame { Frame pull.old pull.new result }
    ensures repeats { Repeats pull.old pull.new result }
    ensures reads { (deep : ℕ) (g : Given) → (standing pull.old).error ≡ None
        → (standing pull.old).given ≡ Some g
        → (standing pull.old).limits.depth ≤ suc deep + length (standing pull.old).containers
        → AnswersTexts pull.old pull.new (read_given_open_members deep (standing pull.old) g)
        is_set text.old.items text.new.items starts.new.items result }
    ensures texts { OnOk result ((values : List Value)
        × StandBehind is_set values text.old.items text.new.items starts.new.items) }
    ensures stands { OnOk result (Uses pull.old pull.new) }
{
    pull.enter()?;
    while let Some((tag, constructed)) = pull.next_tag()? {
        let start = text.len() as u64;
        append_open(alloc, pull, room, text, tag, constructed)?;
        if is_set {
            keep(pull, starts, start)?;
        }
    }
    pull.leave()?;
    Ok(())
}

/// Appends the text of the SET that is given.
#[cycle(open)]
fn append_set<R: Source>(
    alloc: Global,
    pull: &mut Pull<'_, R>,
    room: &mut Vec<u8>,
    text: &mut Vec<u8>,
    tag: Tag,
) -> Result<(), ReadError>
    requires { (standing pull.old).error ≡ None → IsSome (standing pull.old).given }
    ensures frame { Frame pull.old pull.new result }
    ensures repeats { Repeats pull.old pull.new result }
    ensures reads { (deep : ℕ) (g : Given) → (standing pull.old).error ≡ None
        → (standing pull.old).given ≡ Some g
        → (standing pull.old).limits.depth ≤ suc deep + length (standing pull.old).containers
        → AnswersText pull.old pull.new
        (read_given_container deep true tag (standing pull.old) g) text.old.items
        text.new.items result }
    ensures stands { OnOk result (Uses pull.old pull.new) }
{
    let mut octets = Vec::new(alloc);
    let mut starts = Vec::new(alloc);
    append_members(alloc, pull, room, &mut octets, &mut starts, true)?;
    let contents = arranged(alloc, pull, octets, &starts)?;
    append_element(pull, text, tag, true, &contents)
}

/// Appends the text of the container that is given, whose members stay in their order. They are put after `text` at
/// once, with room for a header of two octets in front.
#[cycle(open)]
fn append_sequence<R: Source>(
    alloc: Global,
    pull: &mut Pull<'_, R>,
    room: &mut Vec<u8>,
    text: &mut Vec<u8>,
    tag: Tag,
) -> Result<(), ReadError>
    requires { (standing pull.old).error ≡ None → IsSome (standing pull.old).given }
    ensures frame { Frame pull.old pull.new result }
    ensures repeats { Repeats pull.old pull.new result }
    ensures reads { (deep : ℕ) (g : Given) → (standing pull.old).error ≡ None
        → (standing pull.old).given ≡ Some g
        → (standing pull.old).limits.depth ≤ suc deep + length (standing pull.old).containers
        → AnswersText pull.old pull.new
        (read_given_container deep false tag (standing pull.old) g) text.old.items
        text.new.items result }
    ensures stands { OnOk result (Uses pull.old pull.new) }
{
    let start = text.len();
    let mut starts = Vec::new(alloc);
    if text.extend_from_slice(&[0, 0]).is_err() {
        return Err(pull.no_memory());
    }
    append_members(alloc, pull, room, text, &mut starts, false)?;
    match set_header(text, start, tag) {
        Ok(()) => Ok(()),
        Err(_) => Err(pull.no_memory()),
    }
}

/// Appends the text of the open value that is given, of this tag and form. Contents of leaves are read in `room`, which
/// is used again for each.
///
/// Faults, at the identifier: `LeftOut` of a universal tag that isn't read; those of a leaf and its contents, of
/// `Pull::enter`, and of members.
#[cycle(open)]
pub fn append_open<R: Source>(
    alloc: Global,
    pull: &mut Pull<'_, R>,
    room: &mut Vec<u8>,
    text: &mut Vec<u8>,
    tag: Tag,
    constructed: bool,
) -> Result<(), ReadError>
    requires given { (standing pull.old).error ≡ None → IsSome (standing pull.old).given }
    requires next { (standing pull.old).error ≡ None → IsNext tag constructed (standing pull.old) }
    ensures frame { Frame pull.old pull.new result }
    ensures repeats { Repeats pull.old pull.new result }
    ensures reads { (deep : ℕ) (g : Given) → (standing pull.old).error ≡ None
        → (standing pull.old).given ≡ Some g
        → (standing pull.old).limits.depth ≤ deep + length (standing pull.old).containers
        → AnswersText pull.old pull.new
        (read_given_open deep (standing pull.old) g) text.old.items text.new.items result }
    ensures stands { OnOk result (Uses pull.old pull.new) }
{
    let form = open_form(tag);
    match form {
        OpenForm::Refused => {
            let at = pull.at();
            Err(pull.refuse(at, Reason::LeftOut, None))
        }
        OpenForm::Leaf(_) => append_leaf(alloc, pull, room, text, tag, form),
        OpenForm::Sequence => append_sequence(alloc, pull, room, text, tag),
        OpenForm::SetOf => append_set(alloc, pull, room, text, tag),
        OpenForm::Plain if constructed => append_sequence(alloc, pull, room, text, tag),
        OpenForm::Plain => append_leaf(alloc, pull, room, text, tag, form),
    }
}
