//! Laws on the lengths of DER texts.
//!
//! They hold of every type, open values, strings in segments, defaults and octet strings that contain an element
//! included, however deep these nest, and of every layout. A header of DER is at most one octet longer than a definite
//! header that spells the same tag, and at most two longer than an indefinite one with its end-of-contents octets,
//! below 2^32 octets of contents; what makes up for it are the identifier and length octets that are there anyway. So
//! no bound on the depth or on the nesting of octet strings is needed.
ghost use Rattle.x690_laws.specs.GrowthLaws.{Growth, GrowthByHalf, GrowthByTwo, HalfIsReached, ReadTexts, TakenTexts};

/// Where fewer than 2^60 octets lay out a tree of a type that says a value, the DER text of the value is at most 5
/// times as long as they are.
pub fn the_text_is_at_most_five_times_as_long()
    ensures { Growth }
{}

/// It is at most twice as long.
pub fn the_text_is_at_most_twice_as_long()
    ensures { GrowthByTwo }
{}

/// It is at most half as long again, where each of them is below 256, as octets are.
pub fn the_text_is_at_most_half_as_long_again()
    ensures { GrowthByHalf }
{}

/// No smaller factor holds: the bit string `23 00`, which has no segments, is `03 01 00` in DER.
pub fn a_text_is_half_as_long_again()
    ensures { HalfIsReached }
{}

/// What is taken within a limit of fewer than 2^31 octets has a DER text at most twice as long as the octets that were
/// taken, and shorter than 2^32 octets.
pub fn what_is_taken_has_a_short_text()
    ensures { TakenTexts }
{}

/// So has what the plain reading gives: an element, a document (before its text is held against the limit), and what
/// stands after an identifier.
pub fn what_is_read_has_a_short_text()
    ensures { ReadTexts }
{}
