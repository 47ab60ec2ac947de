//! The words of a text, process by process.

ghost use Rattle.std.specs.Prelude.{◌≡◌, ◌≤◌, ◌+◌, drop, length};
ghost use Rattle.std.specs.List.{prefix_len};
ghost use Rattle.sdl_warnings.specs.Processes.{goes_on};

use crate::words::is_mark;
use parse_expressions::PlacedWord;
use sdl_tree::Mark;

/// Where the process ends in which a word is: the place of its `endprocess`, or how many words there are.
pub fn process_end(words: &[PlacedWord<'_>], from: usize) -> usize
    requires { from ≤ length words.now }
    ensures end { result ≡ from + prefix_len goes_on (drop from words.now) }
    ensures within { result ≤ length words.now }
{
    let mut end = from;
    while end < words.len() && goes_on(words[end]) {
        end += 1;
    }
    end
}

/// Whether a process goes on with this word.
fn goes_on(word: PlacedWord<'_>) -> bool
    ensures { result ≡ goes_on word.entry }
{
    !is_mark(word, Mark::EndProcess)
}
