//! What is suspicious in a specification.

use crate::failure::Failure;
use crate::message::Message;
use crate::opened::{Kept, Opened};
use crate::reading::names_of;
use sdl_command_line::Task;
use sdl_engine::{Outcome, Source, TextFault, Texts, suspicions_of};
use sdl_report::write_text;

/// Says on standard error what is suspicious in a specification that is accepted, if that is asked for. It answers
/// whether anything is. Lack of memory is let go if nobody counts warnings.
pub fn warn(
    rt: &HostRuntime,
    task: &Task,
    source: &Source<Kept, Opened>,
    outcome: Outcome,
) -> Result<bool, Failure> {
    if !task.warns() || !matches!(outcome, Outcome::Whole | Outcome::Cut) {
        return Ok(false);
    }
    match suspicions(rt, task, source) {
        Ok(text) => {
            if task.explain {
                let _ = write_text(&mut Message::new(rt), &text);
            }
            Ok(!text.is_empty())
        }
        Err(_) if !task.denies_warnings => Ok(false),
        Err(failure) => Err(failure),
    }
}

/// What is suspicious in the specification that was read.
fn suspicions(
    rt: &HostRuntime,
    task: &Task,
    source: &Source<Kept, Opened>,
) -> Result<Vec<u8>, Failure> {
    let Some(read) = &source.text.read else {
        return Err(Failure::Text(TextFault::Memory));
    };
    let texts = Texts {
        text: read.clone()?,
        script: None,
    };
    Ok(suspicions_of(rt.alloc(), &texts, &names_of(task))?)
}
