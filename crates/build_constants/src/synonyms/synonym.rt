//! The definition of a synonym.

ghost use Rattle.std.specs.Prelude.{◌≡◌, IfOk, OnOk};
ghost use Rattle.build_names.specs.Faults.{Notes};
ghost use Rattle.build_constants.specs.SettledSynonyms.{constant_with, named_by, synonym_faults};

use crate::synonyms::named::add_named;
use build_expressions::{AgentMeaning, Constant, Scope, SignalMeaning, ValueEntry, constant};
use build_names::{Faults, Outward};
use sdl_system::Sort;
use sdl_tree::Expression;
use std::alloc::{AllocError, Global};

/// The definition of a synonym, with the names that are seen there.
#[derive(Clone, Copy)]
pub struct Synonym<'a, 's, 't> {
    /// Variables, formal parameters and synonyms.
    pub values: Outward<'a, 't, ValueEntry>,
    /// Signals and timers.
    pub signals: Outward<'a, 't, SignalMeaning<'s>>,
    /// Processes and blocks.
    pub agents: Outward<'a, 't, AgentMeaning<'s>>,
    /// None where the name of its sort is no sort's.
    pub sort: Option<Sort>,
    pub expression: &'t Expression,
}

impl<'a, 's, 't> Synonym<'a, 's, 't> {
    /// Finds its constant, with these constants of the synonyms. Notes the faults in its expression.
    pub(crate) fn constant(
        &self,
        alloc: Global,
        constants: &'a [Constant],
        faults: &mut Faults<'t>,
    ) -> Result<Constant, AllocError>
        ensures constant { IfOk result (λ constant. constant ≡ constant_with constants.now self.now) }
        ensures noted { OnOk result (Notes faults.old faults.new (synonym_faults constants.now self.now)) }
    {
        let scope = Scope {
            values: self.values,
            constants,
            signals: self.signals,
            agents: self.agents,
        };
        constant(alloc, &scope, self.expression, self.sort, faults)
    }

    /// The numbers of the synonyms that it names, each as often as it does.
    pub(crate) fn named(&self, alloc: Global) -> Result<Vec<usize>, AllocError>
        ensures { IfOk result (λ numbers. numbers.items ≡ named_by self.now) }
    {
        let mut numbers = Vec::new(alloc);
        add_named(&self.values, self.expression, &mut numbers)?;
        Ok(numbers)
    }
}
