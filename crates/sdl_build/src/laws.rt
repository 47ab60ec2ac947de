//! What holds of the definitions, as functions that do nothing.

ghost use Rattle.sdl_build.specs.Laws.{ProcessesCanRun};

/// Each process of a system that is what a specification says can be run: its text has a behaviour, the process means
/// each that it has, and its tables agree with one another.
pub fn processes_can_run()
    ensures { ProcessesCanRun }
{}
