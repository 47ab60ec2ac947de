//! The names of one name space, and what they stand for in a scope.

ghost use Rattle.std.specs.Prelude.{◌≡◌, ◌==◌, ◌++◌, ℕ, List, [], ◌∷◌, length, map, is_some, OnErr, OnOk, string_bytes};
ghost use Rattle.indexmap.specs.IndexMap.{get_by};
ghost use Rattle.std.specs.Str.{bytes_eq};
ghost use Rattle.build_names.specs.Names.{first_of, first_outward, names_in};
ghost use Rattle.sdl_tree.specs.Views.{name_value};

use crate::faults::{Faults, Rule, Token};
use indexmap::IndexMap;
use sdl_tree::Name;
use std::alloc::{AllocError, Global};
use std::marker::Model;

/// The names of one name space in one scope, in the order of the text, each with what it stands for. Where a name is
/// declared twice, its first declaration counts.
pub struct Names<'t, T: Copy> {
    entries: Vec<(&'t str, T)>,
    first: IndexMap<&'t str, T>,
}

/// Written out, so that it is proved here, and not anew in each crate that drops names.
impl<'t, T: Copy> Drop for Names<'t, T> {
    fn drop(self) {
        let Names {
            entries: _,
            first: _,
        } = self;
    }
}

impl<'t, T: Copy> Model for Names<'t, T> {
    ghost Value = { List (List ℕ × T) };

    ghost view = { λ names. map (λ entry. (entry.0.now, entry.1)) names.entries.items };

    ghost invariant = { λ names. (text : List ℕ) → get_by (λ key. bytes_eq text key.now) names.first
        ≡ first_of (map (λ entry. (entry.0.now, entry.1)) names.entries.items) text };
}

impl<'t, T: Copy> Names<'t, T> {
    ghost use Rattle.build_names.specs.Faults.{Notes, fault_if};
    ghost use Rattle.build_names.specs.declared.faults.fault.Rule.TheVariants.{Duplicate};

    /// No names yet.
    pub fn new(alloc: Global) -> Self
        ensures { result ≡ [] }
    {
        Names {
            entries: Vec::new(alloc),
            first: IndexMap::new(alloc),
        }
    }

    /// How many names were declared, each as often as it was.
    pub fn len(&self) -> usize
        ensures { result ≡ length self.now }
    {
        self.entries.len()
    }

    /// Whether no name was declared.
    pub fn is_empty(&self) -> bool
        ensures { result ≡ (length self.now == 0) }
    {
        self.entries.is_empty()
    }

    /// Looks up a name. Its first declaration counts.
    pub fn get(&self, text: &str) -> Option<T>
        ensures { result ≡ first_of self.now text.now }
    {
        self.first.get(text).copied()
    }

    /// Adds a name, which counts if it is new. After an error the names are as they were.
    fn add(&mut self, text: &'t str, what: T) -> Result<(), AllocError>
        ensures ok { OnOk result (self.new ≡ self.old ++ (text.now, what) ∷ []) }
        ensures err { OnErr result (self.new ≡ self.old) }
    {
        self.entries.reserve(1)?;
        if !self.first.contains_key(text) {
            self.first.insert(text, what)?;
        }
        self.entries.push((text, what))?;
        Ok(())
    }

    /// Declares a name. One that is declared already is noted as a Duplicate. After an error the names and the faults
    /// are as they were.
    pub fn declare(
        &mut self,
        name: &'t Name,
        what: T,
        faults: &mut Faults<'t>,
    ) -> Result<(), AllocError>
        ensures declared { OnOk result (self.new ≡ self.old ++ (string_bytes name.now.text, what) ∷ []) }
        ensures noted { OnOk result (Notes faults.old faults.new
            (fault_if (is_some (first_of self.old (string_bytes name.now.text))) Duplicate (name_value name.now))) }
        ensures err { OnErr result (self.new ≡ self.old) }
        ensures err_faults { OnErr result (faults.new ≡ faults.old) }
    {
        let is_known = self.first.contains_key(name.text.as_str());
        self.add(name.text.as_str(), what)?;
        if is_known {
            faults.note(Rule::Duplicate, Token::of_name(name));
        }
        Ok(())
    }
}

/// The scopes round a place in the text, each with its names of one name space.
#[derive(Copy)]
pub struct Outward<'a, 't, T: Copy> {
    /// The process, in one.
    pub process: Option<&'a Names<'t, T>>,
    /// The block, in one.
    pub block: Option<&'a Names<'t, T>>,
    pub system: &'a Names<'t, T>,
}

impl<'a, 't, T: Copy> Clone for Outward<'a, 't, T> {
    fn clone(&self) -> Result<Self, AllocError> {
        Ok(*self)
    }
}

impl<'a, 't, T: Copy> Outward<'a, 't, T> {
    /// Looks up a name. The innermost scope that declares it counts.
    pub fn get(&self, text: &str) -> Option<T>
        ensures { result ≡ first_outward (names_in self.now.process) (names_in self.now.block)
            self.now.system.now text.now }
    {
        get_in(self.process, text)
            .or(get_in(self.block, text))
            .or(self.system.get(text))
    }
}

/// Looks up a name in a scope, if there is one.
fn get_in<T: Copy>(names: Option<&Names<'_, T>>, text: &str) -> Option<T>
    ensures { result ≡ first_of (names_in names.entry) text.now }
{
    match names {
        None => None,
        Some(names) => names.get(text),
    }
}
