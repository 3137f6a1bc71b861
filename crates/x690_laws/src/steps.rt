//! The laws on single steps of the plain reading, which the contracts of a reader's calls cite.
ghost use Rattle.x690_laws.specs.StepLaws.{ContainerSteps, NextSteps, PrimitiveSteps, StringSteps};

/// What is read next at a place is what the definitions say: an element stands there, the container ends there, or it
/// stops in its identifier.
pub fn what_is_read_next_stands()
    ensures { NextSteps }
{}

/// A container is entered exactly where it opens by the definitions, and stops where these say so.
pub fn what_is_entered_opens()
    ensures { ContainerSteps }
{}

/// The contents of a primitive element are read exactly where they stand by the definitions, and stop where these say
/// so.
pub fn what_is_read_of_a_primitive_element_stands()
    ensures { PrimitiveSteps }
{}

/// The segments of a string are read exactly where they stand one after another up to its end, and a string stops
/// where the definitions say so.
pub fn what_is_read_of_a_string_are_its_segments()
    ensures { StringSteps }
{}
