//! What is noted of a step for the one order of all.

ghost use Rattle.std.specs.Prelude.{◌≡◌, ◌<◌, ◌≤◌, IsTrue, false, length};
ghost use Rattle.threads_shared.specs.Noting.{IsNoted, IsNotedEnd, IsNotedStep, IsUnnoted};

use crate::own::Own;
use crate::shared::{Seated, Shared};
use sdl_interp::Stepped;
use std::sync::Wait;
use threads_ports::Run;

/// What comes of a step for the run: who has ended lives no more; and where the course of the run is kept, a step that
/// is recorded is noted in the course of its instance: how many entries are drawn from its port by then, and which
/// versions of the roster the step has seen and made. `told` is how many events the record had before the step. That
/// this is called once for each step is the caller's condition.
pub fn note_stepped<'s, 'p, J: Run, R: Wait + Copy>(
    shared: &Shared<'_, 's, 'p, J, R>,
    own: &mut Own<J>,
    seated: &mut Seated<'s, 'p, J, R>,
    stepped: Stepped,
    told: usize,
)
    ensures off { shared.now.keeps_course ≡ false → seated.new.value ≡ seated.old.value }
    ensures noted { IsTrue shared.now.keeps_course
        → IsNoted stepped told own.old.versions own.new.versions seated.old.value seated.new.value }
    ensures own { own.new ≡ record own.old { versions = own.new.versions } }
    ensures rest { seated.new.value ≡ record seated.old.value { course = seated.new.value.course } }
{
    match stepped {
        Stepped::Moved => note_step(shared, own, seated),
        Stepped::Idle => {}
        Stepped::Ended { .. } => end_instance(shared, own, seated, told),
    }
}

/// Notes a step in the course of its instance, where the course of the run is kept.
fn note_step<'s, 'p, J: Run, R: Wait + Copy>(
    shared: &Shared<'_, 's, 'p, J, R>,
    own: &mut Own<J>,
    seated: &mut Seated<'s, 'p, J, R>,
)
    ensures off { shared.now.keeps_course ≡ false → seated.new.value ≡ seated.old.value }
    ensures noted { IsTrue shared.now.keeps_course
        → IsNotedStep own.old.versions own.new.versions seated.old.value seated.new.value }
    ensures own { own.new ≡ record own.old { versions = own.new.versions } }
    ensures rest { seated.new.value ≡ record seated.old.value { course = seated.new.value.course } }
{
    if !shared.keeps_course {
        return;
    }
    seated.note_step(&mut own.versions);
}

/// An instance has come to its end, and lives no more. The step by which it ended is noted with the version of the
/// roster since. If its record has no event behind the first `told`, it had ended before, and no step is noted.
fn end_instance<'s, 'p, J: Run, R: Wait + Copy>(
    shared: &Shared<'_, 's, 'p, J, R>,
    own: &mut Own<J>,
    seated: &mut Seated<'s, 'p, J, R>,
    told: usize,
)
    ensures off { shared.now.keeps_course ≡ false → seated.new.value ≡ seated.old.value }
    ensures noted { IsTrue shared.now.keeps_course → told < length seated.old.value.instance.events
        → IsNotedEnd own.old.versions own.new.versions seated.old.value seated.new.value }
    ensures ended { length seated.old.value.instance.events ≤ told
        → IsUnnoted own.old.versions own.new.versions seated.old.value seated.new.value }
    ensures own { own.new ≡ record own.old { versions = own.new.versions } }
    ensures rest { seated.new.value ≡ record seated.old.value { course = seated.new.value.course } }
{
    let who = seated.who();
    let version = shared.tables.end(shared.rt, who.process, who.pid);
    if seated.trace().len() <= told {
        return;
    }
    own.note_version(version);
    note_step(shared, own, seated);
}
