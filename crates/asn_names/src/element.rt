//! An element of a document, with its place in the type.
use ber_outline::event::ElementHeader;
use pkix_shapes::shape::{Fields, Shape};

/// How an element is reached from the one around it. Numbers count from 0.
#[derive(Clone, Copy)]
pub enum Step {
    /// The outermost element.
    Outermost,
    /// A field of a SEQUENCE, by its name in ASN.1; that under an explicit tag has none.
    Field(&'static str),
    /// A member of a list, of a set, or of an open value.
    Member(u64),
    /// A segment of a string (X.690 8.6.4, 8.7.3).
    Segment(u64),
    /// It has no place in the type.
    Outside,
}

/// An element, by its header, its contents and its place in the type.
#[derive(Clone, Copy)]
pub struct NamedElement {
    pub header: ElementHeader,
    /// The place where its contents begin. `None` where its length octets don't say that.
    pub begin: Option<u64>,
    /// The place where they end. `None` where reading stops before that.
    pub end: Option<u64>,
    /// The number of the element around it in the list of all, from 0. The outermost one has its own.
    pub around: u64,
    pub step: Step,
    /// The name of its type in ASN.1, where it has one.
    pub type_name: Option<&'static str>,
    /// Its type, no longer named, chosen or marked. `None` of a segment, and of what has no place in the type.
    pub shape: Option<&'static Shape>,
    /// Whether its contents are private, by its type or by that of an element around it.
    pub private: bool,
}

/// What is due next in an open container.
#[derive(Clone, Copy)]
pub enum Level {
    /// One of these fields.
    Fields(&'static Fields),
    /// A member of this type; there have to be so many, and there are so many.
    Members(&'static Shape, u32, u64),
    /// A segment; there are so many.
    Segments(u64),
}

/// where the document stops matching its type.
#[derive(Clone, Copy)]
pub enum Mismatch {
    /// Nowhere: the outermost element is whole, and each element has its place.
    Nowhere,
    /// The outermost element isn't of the type.
    Outermost,
    /// The last element of the list has no place in the container of this number, where this is due.
    Unplaced(u64, Level),
    /// The container of this number has ended, and this is still due.
    Missing(u64, Level),
    /// Reading has stopped; this is the innermost open container, if there is one.
    Stopped(Option<(u64, Level)>),
}
