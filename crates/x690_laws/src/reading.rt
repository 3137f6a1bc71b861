//! The laws on the plain reading of an element that has to stand at a place, for every type term.
ghost use Rattle.x690_laws.specs.ReadingLaws.{ReadIsTaken, TakenIsRead, FaultTakesNothing, OneTaken, MoreOctets};
ghost use Rattle.x690_laws.specs.ReadingLaws.{TruncatedAtTheEnd, InsideOfFaults, BehindIsTaken, TakenIsBehind};

/// What the plain reading takes, an element takes by the definitions of layout and fit: no more octets, and this value.
pub fn what_is_read_is_taken()
    ensures { ReadIsTaken }
{}

/// Where an element takes octets by the definitions, the plain reading takes as many, and gives a value that is the
/// same.
pub fn what_is_taken_is_read()
    ensures { TakenIsRead }
{}

/// Where the plain reading finds a fault, no element takes anything by the definitions.
pub fn a_fault_takes_nothing()
    ensures { FaultTakesNothing }
{}

/// Elements that take octets at one place take as many, and say values that are the same.
pub fn one_element_is_taken()
    ensures { OneTaken }
{}

/// Octets after those that were needed change no value and no fault; the one fault that they may change is that the
/// octets end, where they end.
pub fn more_octets_change_nothing()
    ensures { MoreOctets }
{}

/// A fault whose reason is Truncated stands where the octets end, with nothing inside.
pub fn truncated_stands_at_the_end()
    ensures { TruncatedAtTheEnd }
{}

/// What is inside a fault is there exactly where its reason is Inner.
pub fn inside_is_there_for_inner()
    ensures { InsideOfFaults }
{}

/// Where an identifier stands and the plain reading of a type takes what is after it, the element takes these octets,
/// from its identifier on, and says this value.
pub fn what_is_read_behind_an_identifier_is_taken()
    ensures { BehindIsTaken }
{}

/// Where an identifier stands and its element takes octets by the definitions, the plain reading takes as many after
/// the identifier, and gives a value that is the same.
pub fn what_is_taken_is_read_behind_its_identifier()
    ensures { TakenIsBehind }
{}
