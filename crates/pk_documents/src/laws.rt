//! Laws on the kinds, and on the parts of requests.
ghost use Rattle.pk_documents.specs.KindRows.{NumbersAreOfKinds, NumbersCount, WordsAreListed, WordsAreOfKinds};
ghost use Rattle.pk_documents.specs.Kinds.{KindsAreApart, KindsAreLawful};
ghost use Rattle.pk_documents.specs.RequestParts.{PartsStandInTheText};

/// A word means the kind that has it in the table, and no other one.
pub fn words_are_of_kinds()
    ensures { WordsAreOfKinds }
{}

/// A number means the kind that has it in the table, and no other one.
pub fn numbers_are_of_kinds()
    ensures { NumbersAreOfKinds }
{}

/// The numbers count the kinds, from 1 on.
pub fn numbers_count()
    ensures { NumbersCount }
{}

/// The texts that list words have those of the table, in its order.
pub fn words_are_listed()
    ensures { WordsAreListed }
{}

/// The type of each kind is as the laws ask: what is said of normalising and of checking a document holds of every one.
pub fn kinds_are_lawful()
    ensures { KindsAreLawful }
{}

/// No octets are of two kinds, whatever the limits: those that begin with a document of one kind begin with none of
/// another.
pub fn kinds_are_apart()
    ensures { KindsAreApart }
{}

/// What `write_part` writes of a request stands in the request's own DER text, octet after octet.
pub fn parts_stand_in_the_text()
    ensures { PartsStandInTheText }
{}
