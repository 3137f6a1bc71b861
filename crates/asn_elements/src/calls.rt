//! A law on the calls of a `Pull`.
ghost use Rattle.asn_elements.specs.CallLaws.{CallSteps};

/// The readings that the contracts of `next_tag`, `enter`, `leave`, `primitive`, `octets` and `bits` cite are single
/// steps of the plain reading, at the reader's point; `leave` is the step of `next_tag`, with no element wanted. What
/// these take and where they stop by the definitions is told by the laws of `x690_laws::steps`.
pub fn calls_are_single_steps()
    ensures { CallSteps }
{}
