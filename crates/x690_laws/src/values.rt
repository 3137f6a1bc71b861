//! The laws on values and their DER texts, for all values.
ghost use Rattle.x690_laws.specs.ValueLaws.{Equivalence, Arrangement, EqualityByOrder, SameHaveOneText};

/// Being the same is an equivalence.
pub fn same_is_an_equivalence()
    ensures { Equivalence }
{}

/// The order of SET OF (X.690 11.6) is total and transitive. No DER text begins another one, so texts that tie are
/// equal. On DER texts it is the plain order of octets, in which nothing is padded. There is one list of a SET OF's
/// texts that ascends, and the DER text has its members in this order.
pub fn set_of_has_one_arrangement()
    ensures { Arrangement }
{}

/// To be equal by the order of SET OF (X.690 11.6), neither of two texts being less than the other, is an equivalence
/// on all lists of octets. On DER texts it is being equal, by the law above.
pub fn equality_by_the_order_is_an_equivalence()
    ensures { EqualityByOrder }
{}

/// Values that are the same have one DER text.
pub fn same_values_have_one_text()
    ensures { SameHaveOneText }
{}
