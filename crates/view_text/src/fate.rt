//! What became of the signals that nobody took.

ghost use Rattle.std.specs.Prelude.{◌≡◌};
ghost use Rattle.view_text.specs.Fate.{fate_of, fate_word, is_living};

use sdl_system::Target;
use view_timeline::{Link, Timeline};

/// What became of a signal that nobody took.
#[derive(Clone, Copy, PartialEq, Eq)]
pub enum Fate {
    /// It waits in the port of an instance that lives on.
    Waits,
    /// Its receiver didn't live, or has ended.
    Gone,
}

impl Fate {
    /// The word for it in all texts.
    pub fn word(self) -> &'static str
        ensures { result.now ≡ fate_word self }
    {
        match self {
            Fate::Waits => "waits",
            Fate::Gone => "gone",
        }
    }
}

/// What became of an output with this link, if nobody took it.
pub fn fate_of(told: &Timeline, target: Target, link: Link) -> Option<Fate>
    ensures { result ≡ fate_of told.now target link }
{
    match link {
        Link::Plain | Link::Arrow(_) => None,
        Link::Gone => Some(Fate::Gone),
        Link::Waits if is_living(told, target) => Some(Fate::Waits),
        Link::Waits => Some(Fate::Gone),
    }
}

/// Whether an output went to an instance that lives on.
fn is_living(told: &Timeline, target: Target) -> bool
    ensures { result ≡ is_living told.now target }
{
    match target {
        Target::Instance(number) => told.living.contains(&number),
        Target::Env | Target::Null | Target::Nobody => false,
    }
}
