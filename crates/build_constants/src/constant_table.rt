//! All that constant expressions of a specification come to.

ghost use Rattle.std.specs.Prelude.{◌≡◌, IfOk};
ghost use Rattle.build_definitions.specs.Definitions.{rows_of};
ghost use Rattle.build_constants.specs.ConstantTable.{all_counts, all_durations, all_initials, constant_table_faults};
ghost use Rattle.build_constants.specs.Synonyms.{AreSynonymConstants};
ghost use Rattle.build_names.specs.Faults.{Notes};

use crate::counts::InstanceCounts;
use crate::durations::durations_of;
use crate::initials::initials_of;
use crate::limit::note_limit;
use crate::process_counts::counts_of;
use crate::settled_synonyms::constants_of;
use build_definitions::{Definitions, SymbolTable};
use build_expressions::Constant;
use build_names::Faults;
use std::alloc::{AllocError, Global};

/// The constants to which the constant expressions of a specification come.
pub struct ConstantTable {
    /// The constant of each synonym, by its number.
    pub constants: Vec<Constant>,
    /// The numbers of instances of each process, by its number. None where a rule is broken in them.
    pub counts: Vec<Option<InstanceCounts>>,
    /// The initial value of each variable, by its place among all variables, formal parameters and synonyms.
    pub initials: Vec<Option<Constant>>,
    /// The default duration of each timer in ticks, by its number among signals and timers.
    pub durations: Vec<Option<i64>>,
}

/// Written out, so that it is proved here, and not anew in each crate that drops one.
impl Drop for ConstantTable {
    fn drop(self) {
        let ConstantTable {
            constants: _,
            counts: _,
            initials: _,
            durations: _,
        } = self;
    }
}

impl ConstantTable {
    /// The constants of a specification with these definitions and names.
    ///
    /// Noted are the faults of each expression as a constant in the sort of its place, `BadCount` at counts that don't
    /// fit each other, and `Limit` at the first process with which there are more than 1,000 instances at the start.
    pub fn of<'t>(
        alloc: Global,
        definitions: &Definitions<'t>,
        symbols: &SymbolTable<'_, 't>,
        faults: &mut Faults<'t>,
    ) -> Result<Self, AllocError>
        ensures constants { IfOk result (λ constant_table.
            AreSynonymConstants (rows_of definitions.now) symbols.now constant_table.constants.items) }
        ensures counts { IfOk result (λ constant_table. constant_table.counts.items
            ≡ all_counts (rows_of definitions.now) symbols.now constant_table.constants.items) }
        ensures initials { IfOk result (λ constant_table. constant_table.initials.items
            ≡ all_initials (rows_of definitions.now) symbols.now constant_table.constants.items) }
        ensures durations { IfOk result (λ constant_table. constant_table.durations.items
            ≡ all_durations (rows_of definitions.now) symbols.now constant_table.constants.items) }
        ensures noted { IfOk result (λ constant_table. Notes faults.old faults.new
            (constant_table_faults (rows_of definitions.now) symbols.now constant_table.constants.items)) }
    {
        let constants = constants_of(alloc, definitions, symbols, faults)?;
        let counts = counts_of(alloc, definitions, symbols, &constants, faults)?;
        note_limit(&definitions.processes, &counts, faults);
        let initials = initials_of(alloc, definitions, symbols, &constants, faults)?;
        let durations = durations_of(alloc, definitions, symbols, &constants, faults)?;
        Ok(ConstantTable {
            constants,
            counts,
            initials,
            durations,
        })
    }
}
