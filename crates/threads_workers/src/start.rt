//! The instances with which a run begins.

use port_model::{Pid, Values};
use sdl_system::{Process, ProcessId};
use std::alloc::AllocError;
use std::sync::Wait;
use threads_ports::{NumberSeat, Run};
use threads_shared::making::Made;
use threads_shared::{Shared, making};

/// Makes the instances with which the system begins, in the order of the text, and queues them. Refused for lack of
/// memory.
pub fn begin<J: Run, R: Wait + Copy>(
    shared: &Shared<'_, '_, '_, J, R>,
    seat: &mut NumberSeat<J>,
) -> Result<(), AllocError> {
    for (place, process) in shared.system.processes().iter().enumerate() {
        let Ok(number) = u32::try_from(place) else {
            return Err(AllocError);
        };
        begin_all(shared, seat, ProcessId(number), process)?;
    }
    Ok(())
}

/// Those of one process.
fn begin_all<J: Run, R: Wait + Copy>(
    shared: &Shared<'_, '_, '_, J, R>,
    seat: &mut NumberSeat<J>,
    id: ProcessId,
    process: &Process,
) -> Result<(), AllocError> {
    for _ in 0..process.initial {
        let none = Values::none(shared.alloc);
        let Made { ticket, version: _ } = making::make(shared, seat, id, Pid::Null, none)?;
        let Some(ticket) = ticket else {
            return Err(AllocError);
        };
        // No worker sleeps yet, so nobody is to be unparked.
        let _ = shared.queue(ticket)?;
    }
    Ok(())
}
