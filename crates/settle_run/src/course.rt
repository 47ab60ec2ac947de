//! What is kept of a run for the order of all.

ghost use Rattle.std.specs.Prelude.{◌≡◌, IfOk, IfSome, IsTrue, None, Some, false, map};
ghost use Rattle.std.specs.List.{AllZip};
ghost use Rattle.settle_run.specs.Course.{HasDrawnOf, HasPutsOf, HasVersionsOf, rows_of};
ghost use Rattle.threads_ports.specs.Peers.{senders_into};

use port_model::{Course, CourseLog, SenderInto};
use settle_checks::{Counted, Fixed};
use std::alloc::{AllocError, Global};
use std::sync::Wait;
use threads_ports::{Peers, Run};
use threads_shared::Shared;

/// The senders of all places, where the course of the run is kept; else none. Refused for lack of memory.
pub fn senders_of<J: Run, R: Wait + Copy>(
    shared: &Shared<'_, '_, '_, J, R>,
    places: &[Peers<J>],
) -> Result<Vec<Vec<SenderInto>>, AllocError>
    ensures { IsTrue shared.now.keeps_course → IfOk result (λ rows. rows_of rows.items ≡ map senders_into places.now) }
{
    if shared.keeps_course {
        return all_senders(shared.alloc, places);
    }
    Ok(Vec::new(shared.alloc))
}

/// The senders of all places.
fn all_senders<J: Run>(
    alloc: Global,
    places: &[Peers<J>],
) -> Result<Vec<Vec<SenderInto>>, AllocError>
    ensures { IfOk result (λ rows. rows_of rows.items ≡ map senders_into places.now) }
{
    let mut rows = Vec::with_capacity(alloc, places.len())?;
    for peers in places {
        rows.push(peers.senders_into(alloc)?)?;
    }
    Ok(rows)
}

/// Who put what was drawn from each port, where the course of the run is kept. None: it isn't kept of all. Refused for
/// lack of memory.
pub fn puts_of<J: Run, K: Fixed, R: Wait + Copy>(
    shared: &Shared<'_, '_, '_, J, R>,
    counted: Vec<Counted<'_, J, K, R>>,
) -> Result<Option<Vec<Vec<u32>>>, AllocError>
    ensures off { shared.now.keeps_course ≡ false → IfOk result (λ kept. kept ≡ None) }
    ensures puts { IfOk result (λ kept. IfSome kept (λ rows.
        AllZip (HasPutsOf K.puts K.owners) counted.entry.items rows.items)) }
{
    if shared.keeps_course {
        return all_puts(shared.alloc, counted);
    }
    Ok(None)
}

/// Who put what was drawn from each port. None: it isn't kept of all.
fn all_puts<J: Run, K: Fixed, R: Wait + Copy>(
    alloc: Global,
    counted: Vec<Counted<'_, J, K, R>>,
) -> Result<Option<Vec<Vec<u32>>>, AllocError>
    ensures { IfOk result (λ kept. IfSome kept (λ rows.
        AllZip (HasPutsOf K.puts K.owners) counted.entry.items rows.items)) }
{
    let mut rows = Vec::with_capacity(alloc, counted.len())?;
    for one in counted {
        one.is_counted();
        let Some(puts) = one.into_puts() else {
            return Ok(None);
        };
        rows.push(puts)?;
    }
    Ok(Some(rows))
}

/// The course of a run of which it is kept who put what was drawn from each port: that, the senders of all places, and
/// what was noted of each record. None: something isn't kept of all. Refused for lack of memory.
pub fn course_of(
    alloc: Global,
    puts: Option<Vec<Vec<u32>>>,
    senders: Vec<Vec<SenderInto>>,
    logs: Vec<CourseLog>,
) -> Result<Option<Course>, AllocError>
    ensures puts { IfOk result (λ kept. IfSome kept (λ course. puts ≡ Some course.puts)) }
    ensures senders { IfOk result (λ kept. IfSome kept (λ course. course.senders ≡ senders)) }
    ensures drawn { IfOk result (λ kept. IfSome kept (λ course.
        AllZip HasDrawnOf logs.items course.drawn.items)) }
    ensures versions { IfOk result (λ kept. IfSome kept (λ course.
        AllZip HasVersionsOf logs.items course.versions.items)) }
{
    let Some(puts) = puts else {
        return Ok(None);
    };
    let Some(Noted { drawn, versions }) = noted_in(alloc, logs)? else {
        return Ok(None);
    };
    Ok(Some(Course {
        puts,
        drawn,
        versions,
        senders,
    }))
}

/// The columns of what was noted while the run went on.
#[derive(Drop)]
struct Noted {
    drawn: Vec<Vec<u32>>,
    versions: Vec<Vec<u32>>,
}

/// What was noted of each record. None: it isn't kept of all.
fn noted_in(alloc: Global, logs: Vec<CourseLog>) -> Result<Option<Noted>, AllocError>
    ensures drawn { IfOk result (λ kept. IfSome kept (λ noted.
        AllZip HasDrawnOf logs.items noted.drawn.items)) }
    ensures versions { IfOk result (λ kept. IfSome kept (λ noted.
        AllZip HasVersionsOf logs.items noted.versions.items)) }
{
    let mut drawn = Vec::with_capacity(alloc, logs.len())?;
    let mut versions = Vec::with_capacity(alloc, logs.len())?;
    for log in logs {
        let Some(counts) = log.drawn.into_list() else {
            return Ok(None);
        };
        let Some(seen) = log.versions.into_list() else {
            return Ok(None);
        };
        drawn.push(counts)?;
        versions.push(seen)?;
    }
    Ok(Some(Noted { drawn, versions }))
}
