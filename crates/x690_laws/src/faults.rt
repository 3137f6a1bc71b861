//! The laws on the fault grammar, for every type term.
ghost use Rattle.x690_laws.specs.FaultLaws.{FaultStops, StopIsFault, OneFault, BehindStops};

/// The fault that the plain reading finds stops the element by the fault grammar.
pub fn a_fault_stops_the_element()
    ensures { FaultStops }
{}

/// A fault that stops the element by the fault grammar is the one that the plain reading finds.
pub fn what_stops_is_the_fault()
    ensures { StopIsFault }
{}

/// The fault grammar stops an element by one fault at most, and by none where the element takes its octets.
pub fn there_is_one_fault()
    ensures { OneFault }
{}

/// After an identifier that stands, the plain reading of a type finds exactly the fault that stops the element by the
/// fault grammar.
pub fn faults_behind_an_identifier_are_those_of_the_grammar()
    ensures { BehindStops }
{}
