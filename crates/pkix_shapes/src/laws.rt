//! Laws on the fields that elements belong to, and on the path to an element at fault.
ghost use Rattle.pkix_shapes.specs.FaultPaths.{FaultPathsStop};
ghost use Rattle.pkix_shapes.specs.DueLaws.{DueLaws};
ghost use Rattle.pkix_shapes.specs.PlaceLaws.{FaultsAreInside};
ghost use Rattle.pkix_shapes.specs.PathLaws.{OnePath};

/// The field that an element belongs to goes by the type, its rules apart, and each step from field to field is one of
/// the fault grammar.
pub fn fields_follow_the_fault_grammar()
    ensures { DueLaws }
{}

/// The path to an element at fault is a path of the fault grammar: the whole stops with that fault, and no other.
pub fn fault_paths_lead_to_the_fault()
    ensures { FaultPathsStop }
{}

/// A fault of an element stands where the element begins, or after that.
pub fn faults_are_inside()
    ensures { FaultsAreInside }
{}

/// Of two paths to what is at fault in an element, one goes on from the other, so that the longest one is alone.
pub fn the_path_is_one()
    ensures { OnePath }
{}
