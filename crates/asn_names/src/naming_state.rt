//! Naming, one step after another: an element begins, or a container ends.
ghost use Rattle.std.specs.Prelude.{[], ◌≡◌, ◌+◌, ◌++◌, ◌∷◌, IfOk, OnOk, drop, reverse};
ghost use Rattle.asn_names.specs.NamingSteps.{began, begins_as, begins_at, begins_outside, ended, ended_at};
ghost use Rattle.asn_names.specs.NamingSteps.{is_private, is_refused, listed, state_of, taken, typed_as, unplaced};
ghost use Rattle.asn_names.specs.NamingSteps.{with_after, with_opened};

use crate::element::{Level, Mismatch, NamedElement, Step};
use crate::level::{Place, level_of, may_close, outermost, place_in};
use crate::resolved::{Before, resolve};
use ber_outline::event::ElementHeader;
use pkix_shapes::shape::Shape;
use std::alloc::AllocError;
use std::slice::from_ref;
use tlv_core::tag::Tag;

/// What is known between two steps.
#[derive(Drop)]
pub(crate) struct NamingState {
    /// The elements until now.
    pub elements: Vec<NamedElement>,
    /// The open containers by their numbers, the innermost last, and what is due in each.
    pub containers: Vec<(u64, Level)>,
}

/// An element that begins: its header, and where its contents begin and end, as far as that is known.
#[derive(Clone, Copy)]
pub(crate) struct Beginning {
    pub header: ElementHeader,
    pub begin: Option<u64>,
    pub end: Option<u64>,
    /// Whether it is open from here on.
    pub opens: bool,
}

/// What is at a place: the number of the container around it, the place if it has one, and what else is due.
#[derive(Clone, Copy)]
pub(crate) struct Taken {
    pub around: u64,
    pub place: Option<Place>,
    pub due: Mismatch,
}

/// The type of an element, as its place has it.
#[derive(Clone, Copy)]
pub(crate) struct Typed {
    pub type_name: Option<&'static str>,
    pub shape: Option<&'static Shape>,
    pub private: bool,
}

/// An element begins. Where it has no place it is the last one, and the answer is what is due there.
pub(crate) fn begin_element(
    naming: &mut NamingState,
    document: &[u8],
    root: &'static Shape,
    beginning: &Beginning,
) -> Result<Option<Mismatch>, AllocError>
    ensures { IfOk result (λ mismatch. (state_of naming.new, mismatch)
        ≡ began document.now root.entry beginning.now (state_of naming.old)) }
{
    let taken = take_place(&mut naming.containers, root, beginning.header.tag);
    match &taken.place {
        Some(place) => begin_at(naming, document, beginning, &taken, place),
        None => begin_outside(naming, beginning, &taken),
    }
}

/// An element begins that has no place.
fn begin_outside(
    naming: &mut NamingState,
    beginning: &Beginning,
    taken: &Taken,
) -> Result<Option<Mismatch>, AllocError>
    ensures { IfOk result (λ mismatch. (state_of naming.new, mismatch)
        ≡ begins_outside beginning.now taken.now (state_of naming.old)) }
{
    let element = unplaced(taken.around, beginning);
    push_element(&mut naming.elements, &element)?;
    Ok(Some(taken.due))
}

/// An element begins at its place, unless its type may not be there.
fn begin_at(
    naming: &mut NamingState,
    document: &[u8],
    beginning: &Beginning,
    taken: &Taken,
    place: &Place,
) -> Result<Option<Mismatch>, AllocError>
    ensures { IfOk result (λ mismatch. (state_of naming.new, mismatch)
        ≡ begins_at document.now beginning.now taken.now place.now (state_of naming.old)) }
{
    let header = beginning.header;
    let typed = typed_as(
        &naming.elements,
        document,
        taken.around,
        header,
        place.shape,
    );
    if is_refused(typed.shape) {
        return begin_outside(naming, beginning, taken);
    }
    begin_as(naming, beginning, taken.around, place, &typed)?;
    Ok(None)
}

/// An element of this type begins at its place.
fn begin_as(
    naming: &mut NamingState,
    beginning: &Beginning,
    around: u64,
    place: &Place,
    typed: &Typed,
) -> Result<(), AllocError>
    ensures { OnOk result (state_of naming.new
        ≡ begins_as beginning.now around place.now typed.now (state_of naming.old)) }
{
    let number = naming.elements.len() as u64;
    keep_open(&mut naming.containers, around, place.after)?;
    let level = level_of(beginning.header.tag, typed.shape);
    open_inside(&mut naming.containers, beginning.opens, number, level)?;
    let element = listed(around, place.step, typed, beginning);
    push_element(&mut naming.elements, &element)
}

/// One element more.
fn push_element(elements: &mut Vec<NamedElement>, element: &NamedElement) -> Result<(), AllocError>
    ensures { OnOk result (elements.new.items ≡ elements.old.items ++ element.now ∷ []) }
{
    // (`push` takes the element by value, which the toolchain has no rule for)
    elements.extend_from_slice(from_ref(element))
}

/// The container of this number is open, if it opens.
fn open_inside(
    containers: &mut Vec<(u64, Level)>,
    opens: bool,
    number: u64,
    level: Level,
) -> Result<(), AllocError>
    ensures { OnOk result (reverse containers.new.items
        ≡ with_opened opens number level (reverse containers.old.items)) }
{
    if opens {
        push_open(containers, number, level)
    } else {
        Ok(())
    }
}

/// The container around an element stays open, where there is one, and this is due in it.
fn keep_open(
    containers: &mut Vec<(u64, Level)>,
    around: u64,
    after: Option<Level>,
) -> Result<(), AllocError>
    ensures { OnOk result (reverse containers.new.items
        ≡ with_after around after (reverse containers.old.items)) }
{
    match after {
        Some(level) => push_open(containers, around, level),
        None => Ok(()),
    }
}

/// The container of this number is open.
#[tactic(auto, using(crate::proofs::Lists::reverse_last))]
fn push_open(
    containers: &mut Vec<(u64, Level)>,
    number: u64,
    level: Level,
) -> Result<(), AllocError>
    ensures { OnOk result (reverse containers.new.items ≡ (number, level) ∷ reverse containers.old.items) }
{
    match containers.push((number, level)) {
        Ok(()) => Ok(()),
        Err(_) => Err(AllocError),
    }
}

/// The innermost open container ends. Where something is still due in it the answer says so.
#[tactic(auto, using(crate::proofs::Lists::reverse_last))]
pub(crate) fn end_container(naming: &mut NamingState, at: u64) -> Option<Mismatch>
    ensures { (state_of naming.new, result) ≡ ended at (state_of naming.old) }
{
    let (number, level) = naming.containers.pop()?;
    end_element(&mut naming.elements, number, at);
    if may_close(level) {
        None
    } else {
        Some(Mismatch::Missing(number, level))
    }
}

/// The element of this number ends there.
fn end_element(elements: &mut Vec<NamedElement>, number: u64, at: u64)
    ensures { elements.new.items ≡ ended_at number at elements.old.items }
{
    let number = number as usize;
    if number < elements.len() {
        elements[number].end = Some(at);
    }
}

/// The place of the next element, in the innermost open container, which is no longer among the open ones.
#[tactic(auto, using(crate::proofs::Lists::reverse_last))]
fn take_place(containers: &mut Vec<(u64, Level)>, root: &'static Shape, tag: Tag) -> Taken
    ensures place { result ≡ taken (reverse containers.old.items) root.entry tag }
    ensures outer { reverse containers.new.items ≡ drop 1 (reverse containers.old.items) }
{
    match containers.pop() {
        Some((around, level)) => Taken {
            around,
            place: place_in(level, tag),
            due: Mismatch::Unplaced(around, level),
        },
        None => Taken {
            around: 0,
            place: outermost(root, tag),
            due: Mismatch::Outermost,
        },
    }
}

/// The type of an element that is in the container of this number.
fn typed_as(
    elements: &[NamedElement],
    document: &[u8],
    around: u64,
    header: ElementHeader,
    shape: Option<&'static Shape>,
) -> Typed
    ensures { result ≡ typed_as document.now elements.now around header shape.entry }
{
    let private = is_private(elements, around);
    let Some(shape) = shape else {
        return Typed {
            type_name: None,
            shape: None,
            private,
        };
    };
    let before = Before {
        document,
        depth: header.depth,
        elements: after(elements, around),
    };
    let resolved = resolve(before, header.tag, None, private, shape);
    Typed {
        type_name: resolved.type_name,
        shape: Some(resolved.shape),
        private: resolved.private,
    }
}

/// Whether the element of this number is private.
fn is_private(elements: &[NamedElement], number: u64) -> bool
    ensures { result ≡ is_private elements.now number }
{
    match elements.get(number as usize) {
        Some(element) => element.private,
        None => false,
    }
}

/// The elements after that of this number.
fn after(elements: &[NamedElement], number: u64) -> &[NamedElement]
    ensures { result.now ≡ drop (number + 1) elements.now }
{
    let number = number as usize;
    if number < elements.len() {
        &elements[number + 1..]
    } else {
        &elements[..0]
    }
}

/// Whether it is the type of what may not stand.
fn is_refused(shape: Option<&'static Shape>) -> bool
    ensures { result ≡ is_refused shape.entry }
{
    match shape {
        Some(Shape::Refused(_)) => true,
        _ => false,
    }
}

/// An element at its place.
fn listed(around: u64, step: Step, typed: &Typed, beginning: &Beginning) -> NamedElement
    ensures { result ≡ listed around step typed.now beginning.now }
{
    NamedElement {
        header: beginning.header,
        begin: beginning.begin,
        end: beginning.end,
        around,
        step,
        type_name: typed.type_name,
        shape: typed.shape,
        private: typed.private,
    }
}

/// An element that has no place. What it is nobody knows, so it is private.
fn unplaced(around: u64, beginning: &Beginning) -> NamedElement
    ensures { result ≡ unplaced around beginning.now }
{
    let typed = Typed {
        type_name: None,
        shape: None,
        private: true,
    };
    listed(around, Step::Outside, &typed, beginning)
}
