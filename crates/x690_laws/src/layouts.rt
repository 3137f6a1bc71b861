//! The laws on layouts, and on the lengths in them.
ghost use Rattle.x690_laws.specs.LayoutLaws.{NoneBeginsAnother, ShortestLengths};

/// Where the octets that lay out one tree begin the octets that lay out another one, the octets are the same, and so
/// are the trees (X.690 8.1).
pub fn no_layout_begins_another()
    ensures { NoneBeginsAnother }
{}

/// The length octets of DER spell the length, and no others that do are fewer (X.690 10.1).
pub fn a_length_is_spelled_shortest()
    ensures { ShortestLengths }
{}
