//! The laws on the trees and values of a type, for every type term.
ghost use Rattle.x690_laws.specs.TypeLaws.{OneValue, TextSpells, OneText, OneTextOfTrees, StringsAreLawful};

/// The values that a tree of a type says are the same.
pub fn a_tree_says_one_value()
    ensures { OneValue }
{}

/// What spells a value may be replaced by the value's DER text: it spells the value within the same limits.
pub fn the_text_spells_the_value()
    ensures { TextSpells }
{}

/// Values of a type that are spelled, and have one DER text, are the same.
pub fn one_text_is_one_value()
    ensures { OneText }
{}

/// So are the values of trees of a type, within any limits or none: their one text has to be shorter than 2^64 octets.
pub fn one_text_is_one_value_of_trees()
    ensures { OneTextOfTrees }
{}

/// The type of all character strings and times has no rule, and no alternative is mistaken for another one.
pub fn strings_are_lawful()
    ensures { StringsAreLawful }
{}
