//! A list of words that is kept beside what happens.

ghost use Rattle.std.specs.Prelude.{◌≡◌, [], ◌∷◌, None, Some, length, option_map};
ghost use Rattle.port_model.specs.KeptWords.{emptied, Notes, NotesAll};

use std::alloc::Global;
use std::marker::Model;

/// How many words a list has at most.
const MOST_WORDS: usize = 0xFFFF_FFFF;

/// A list of words that is kept where somebody wants it, and as far as there is memory for it. Without memory, and
/// after 2^32 - 1 words, it is given up, and there is none from then on. So nobody who notes a word fails for it.
#[derive(Drop)]
pub struct KeptWords {
    words: Option<Vec<u32>>,
}

impl Model for KeptWords {
    ghost use Rattle.std.specs.Prelude.{◌<◌, ◌^◌, ℕ, IfSome, List, Option, option_map, vec_len};

    ghost Value = { Option (List ℕ) };

    ghost view = { λ kept. option_map (λ list. list.items) kept.words };

    ghost invariant = { λ kept. IfSome kept.words (λ list. vec_len list < 2 ^ 32) };
}

impl KeptWords {
    /// No list is kept.
    pub fn off() -> Self
        ensures { result ≡ None }
    {
        KeptWords { words: None }
    }

    /// A list without a word. Takes no memory.
    pub fn new(alloc: Global) -> Self
        ensures { result ≡ Some [] }
    {
        KeptWords {
            words: Some(Vec::new(alloc)),
        }
    }

    /// Notes a word behind all others, if a list is kept.
    #[inline(always)]
    pub fn note(&mut self, word: u32)
        ensures { Notes self.old word self.new }
    {
        let Some(list) = &mut self.words else {
            return;
        };
        if list.len() >= MOST_WORDS || list.push(word).is_err() {
            self.words = None;
        }
    }

    /// Moves all words of another list behind those of this one. Where one of the two isn't kept, this one isn't from
    /// then on.
    pub fn note_all(&mut self, words: &mut KeptWords)
        ensures noted { NotesAll self.old words.old self.new }
        ensures moved { words.new ≡ emptied words.old }
    {
        let kept = match (&mut self.words, &words.words) {
            (Some(list), Some(more)) => list.extend_from_slice(more).is_ok()
                && list.len() <= MOST_WORDS,
            _ => false,
        };
        if !kept {
            self.words = None;
        }
        if let Some(more) = &mut words.words {
            more.clear();
        }
    }

    /// How many words are kept. None: no list is.
    pub fn count(&self) -> Option<u32>
        ensures { result ≡ option_map length self.now }
    {
        match &self.words {
            None => None,
            Some(list) => Some(list.len() as u32),
        }
    }

    /// The list, if it is kept.
    pub fn into_list(self) -> Option<Vec<u32>>
        ensures { option_map (λ list. list.items) result ≡ self }
    {
        self.words
    }
}
