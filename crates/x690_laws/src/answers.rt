//! The laws on the answer to a whole document.
ghost use Rattle.x690_laws.specs.AnswerLaws.{OneAnswer, SpellingIsAnswered, RefusedIsSpelledByNone, NeededOctets};
ghost use Rattle.x690_laws.specs.AnswerLaws.{InsideOfAnswers, TextAnswersItself, TextsTellValues};

/// The plain reading's answer is an answer by the definitions: octets that spell a value, or the fault that stops the
/// document. There is no other one: not a second value or count, not a second fault, not both.
pub fn there_is_one_answer()
    ensures { OneAnswer }
{}

/// Where octets begin with those that spell a value, the answer is its DER text and their number.
pub fn a_spelling_is_answered()
    ensures { SpellingIsAnswered }
{}

/// Where the answer is a fault, the octets begin with no spelling of any value.
pub fn what_is_refused_is_spelled_by_none()
    ensures { RefusedIsSpelledByNone }
{}

/// The answer to the first octets is the answer to all, unless it is that they are truncated, which stands at their
/// end.
pub fn octets_that_are_not_needed_change_nothing()
    ensures { NeededOctets }
{}

/// What is inside the fault of an answer is there exactly where its reason is Inner.
pub fn inside_is_there_for_inner()
    ensures { InsideOfAnswers }
{}

/// The answer to a DER text that was answered is this text and all of its octets: what is normalised twice is
/// normalised once.
pub fn a_text_answers_itself()
    ensures { TextAnswersItself }
{}

/// Two documents of a type have equal DER texts exactly where their values are the same, a SET OF as a multiset.
pub fn texts_tell_values_apart()
    ensures { TextsTellValues }
{}
