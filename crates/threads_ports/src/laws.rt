//! What follows for the owners of a run's ports, as a function that does nothing.

ghost use Rattle.threads_ports.specs.Owners.{AreGivenOnce};

/// By what `Owners::give` answers and leaves, the owner of a port is given out once: no later call gives one of its
/// number, whatever else is given out between.
pub fn gives_once()
    ensures { AreGivenOnce }
{}
