//! What holds of the definitions, as functions that do nothing.

ghost use Rattle.build_tables.specs.Agreeing.{StatesAreEnabling};

/// Each condition that a state of a text puts to a signal stands among its enabling conditions, and none that it puts
/// to an asterisk stands with a signal that it names.
pub fn states_are_enabling()
    ensures { StatesAreEnabling }
{}
