//! Expressions, answers and conditions that break no rule have a meaning.

ghost use Rattle.laws_complete.specs.Expressions.{AnswersGiven, ConditionsGiven, ConstantsGiven, ListsGiven, PlacedGiven, TermsGiven};

/// An expression in which no rule is broken has a term (Z.104: expressions).
pub fn terms_given()
    ensures { TermsGiven }
{}

/// At a place of a sort it fits the place (Z.104: expressions).
pub fn placed_given()
    ensures { PlacedGiven }
{}

/// Values behind a name fit their places, each with its term (Z.102: output, create, set, reset).
pub fn lists_given()
    ensures { ListsGiven }
{}

/// An answer of a decision has its values, and can be compared so with the question's (Z.102: decision).
pub fn answers_given()
    ensures { AnswersGiven }
{}

/// A constant expression has a value (Z.104: expressions).
pub fn constants_given()
    ensures { ConstantsGiven }
{}

/// Each condition that the stimuli of a process ask has a term (Z.102: continuous signal, enabling condition).
pub fn conditions_given()
    ensures { ConditionsGiven }
{}
