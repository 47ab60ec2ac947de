//! What the tree keeps of a single token: its spelling and its place.

ghost use Rattle.std.specs.Prelude.{◌≡◌, string_bytes};
ghost use Rattle.sdl_tree.specs.Spells.Parts.{sort_of};

use crate::mark::Case;
use sdl_lex::Place;

/// A name as the text spells it, and where it stands.
#[derive(Debug, Drop)]
pub struct Name {
    pub text: String,
    pub place: Place,
}

/// The name of a sort. `PId` is another spelling of `Pid`.
#[derive(Drop)]
pub struct SortName {
    pub spelled: Name,
}

impl SortName {
    /// The sort's one name: `Pid` for `PId`.
    pub fn text(&self) -> &str
        ensures { result.now ≡ sort_of (string_bytes self.now.spelled.text) }
    {
        let spelled = self.spelled.text.as_str();
        if spelled == "PId" { "Pid" } else { spelled }
    }
}

/// A number, with its digits as the text has them.
#[derive(Drop)]
pub struct Number {
    pub value: i64,
    pub digits: Name,
}

/// A keyword or a mark as the text has it: its spelling, and where it stands.
#[derive(Clone, Copy, PartialEq, Eq)]
pub struct Spelling {
    pub case: Case,
    pub place: Place,
}
