//! What a line and a text of a script say, and that it is one, as functions that do nothing.

ghost use Rattle.sdl_script.specs.One.{NoFault, OneLine, OneMeaning, OneRefusal, OneSaying, OneScript, OneSpelling};

/// A line spells one time, with one signal or with none.
pub fn one_spelling()
    ensures { OneSpelling }
{}

/// A spelling means one signal in a system, if it means any.
pub fn one_meaning()
    ensures { OneMeaning }
{}

/// A text parts into lines in one way, and a line says one thing in a system, or nothing: so a text says one script, if
/// it says any.
pub fn one_script()
    ensures line { OneLine }
    ensures saying { OneSaying }
    ensures script { OneScript }
{}

/// A text that says a script, as `read_script` reads one, has no fault for which one is refused. Of lack of memory
/// nothing is said.
pub fn no_fault()
    ensures { NoFault }
{}

/// A text is refused in one way: for one fault, in one line. Of lack of memory nothing is said.
pub fn one_refusal()
    ensures { OneRefusal }
{}
