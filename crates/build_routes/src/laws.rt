//! What holds of paths, as functions that do nothing.

ghost use Rattle.build_routes.specs.Laws.{NoneReceivesItsOwn, ReturnsByChannels};

/// A signal comes back to its sender only where a channel of the text carries it: implied channels alone lead from no
/// agent back to itself.
pub fn returns_by_channels()
    ensures { ReturnsByChannels }
{}

/// So the table has no process as a receiver of its own signal where no channel of the text carries it.
pub fn none_receives_its_own()
    ensures { NoneReceivesItsOwn }
{}
