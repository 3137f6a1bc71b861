//! What an outline says. A place in a document is the number of octets that come before it.
use crate::announced::Announced;
use tlv_core::fault::Fault;
use tlv_core::tag::Tag;

/// The header of an element (X.690 8.1.2, 8.1.3).
#[derive(Clone, Copy)]
pub struct ElementHeader {
    /// The place where its identifier begins.
    pub at: u64,
    pub tag: Tag,
    /// Whether its form is constructed, else primitive.
    pub constructed: bool,
    /// How many containers are open around it: 0 of the outermost element.
    pub depth: u64,
    /// What its length octets announce, whether so many contents octets are there or not. `None` where they aren't
    /// whole, or none that the standard allows, or announce 2^32 octets or more.
    pub announced: Option<Announced>,
}

/// What comes next in a document.
#[derive(Clone, Copy)]
pub enum Event {
    /// A primitive element, and the places where its contents begin and end.
    Primitive(ElementHeader, u64, u64),
    /// A constructed element, and the place where its contents begin. It is open up to its `End`.
    Begin(ElementHeader, u64),
    /// The place where the contents of the innermost open element end.
    End(u64),
}

/// Why an outline ends before its outermost element does.
#[derive(Clone, Copy)]
pub struct Stop {
    /// The first fault in headers or lengths.
    pub fault: Fault,
    /// The element whose length or contents are at fault. `None` where the fault is in an identifier, or in
    /// end-of-contents octets.
    pub element: Option<ElementHeader>,
}
