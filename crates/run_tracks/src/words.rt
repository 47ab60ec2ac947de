//! What is kept of one instance.

ghost use Rattle.std.specs.Prelude.{◌≡◌, IfNone, IfSome};
ghost use Rattle.run_tracks.specs.Words.{AreWordsOf, IsWithout};

use port_model::{Course, SenderInto};

/// What is kept of one instance of a run.
#[derive(Clone, Copy)]
pub struct Words<'r> {
    /// Of each entry of its port, in the order in which they were put, the number that its sender has there.
    pub puts: &'r [u32],
    /// Of each of its steps how many entries were drawn after it.
    pub drawn: &'r [u32],
    /// The versions of the roster that its events saw or made.
    pub versions: &'r [u32],
    /// Into which ports it puts.
    pub senders: &'r [SenderInto],
}

/// The words of the instance of which the record has this place. None: nothing is kept of it.
pub fn words_of(course: &Course, place: usize) -> Option<Words<'_>>
    ensures words { IfSome result (AreWordsOf course.now place) }
    ensures none { IfNone result (IsWithout course.now place) }
{
    // The environment has the first row of the senders, and no other: nothing else is kept of it.
    let row = place.checked_add(1)?;
    Some(Words {
        puts: course.puts.get(place)?,
        drawn: course.drawn.get(place)?,
        versions: course.versions.get(place)?,
        senders: course.senders.get(row)?,
    })
}
