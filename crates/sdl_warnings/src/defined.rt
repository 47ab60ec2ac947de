//! The signals, signal lists and synonyms that a specification defines.

ghost use Rattle.std.specs.Prelude.{◌≡◌, ◌++◌, [], ◌∷◌, IfOk, OnOk, map};
ghost use Rattle.std.specs.List.{flat_map};
ghost use Rattle.sdl_tree.specs.Tree as tree;
ghost use Rattle.sdl_tree.specs.Views.{block_part_value, definition_value, local_value, name_value, process_value, signal_value, synonym_value, tree_value};
ghost use Rattle.sdl_warnings.specs.Defined.{defined, known, of_block_part, of_local, of_shared, of_signals, of_synonyms, one};

use crate::suspicion::Suspicion;
use sdl_lex::Place;
use sdl_tree::{
    BlockPart, Definition, LocalDefinition, Name, ProcessDefinition, SignalDefinition,
    SynonymDefinitions, SystemDefinition, Tree,
};
use std::alloc::{AllocError, Global};

/// A name that is defined, where that is, and what it is if nobody uses it.
#[derive(Clone, Copy)]
pub struct Defined<'t> {
    pub name: &'t str,
    pub place: Place,
    pub unused: Suspicion,
}

/// The signals, signal lists and synonyms of a specification.
#[derive(Drop)]
pub struct Names<'t> {
    pub all: Vec<Defined<'t>>,
}

impl<'t> Names<'t> {
    /// Those of a tree.
    pub fn of(alloc: Global, tree: &'t Tree) -> Result<Names<'t>, AllocError>
        ensures { IfOk result (λ names. known names ≡ defined (tree_value tree.now)) }
    {
        let mut names = Names {
            all: Vec::new(alloc),
        };
        for definition in &tree.definitions {
            match definition {
                SystemDefinition::Shared(shared) => names.add_shared(shared)?,
                SystemDefinition::Block(block) => names.add_block(&block.definitions)?,
            }
        }
        Ok(names)
    }

    fn add_block(&mut self, parts: &'t [BlockPart]) -> Result<(), AllocError>
        ensures { OnOk result (known self.new ≡ known self.old ++ flat_map of_block_part (map block_part_value parts.now)) }
    {
        for part in parts {
            if let BlockPart::Shared(shared) = part {
                self.add_shared(shared)?;
            }
        }
        Ok(())
    }

    fn add_shared(&mut self, definition: &'t Definition) -> Result<(), AllocError>
        ensures { OnOk result (known self.new ≡ known self.old ++ of_shared (definition_value definition.now)) }
    {
        match definition {
            Definition::Signals(signals) => self.add_signals(signals),
            Definition::SignalList(list) => self.add(&list.name, Suspicion::UnusedSignalList),
            Definition::Synonyms(synonyms) => self.add_synonyms(synonyms),
            Definition::Channel(_) => Ok(()),
            Definition::Process(process) => self.add_process(process),
        }
    }

    fn add_process(&mut self, process: &'t ProcessDefinition) -> Result<(), AllocError>
        ensures { OnOk result (known self.new ≡ known self.old ++ of_shared (tree.Process (process_value process.now))) }
    {
        for definition in &process.definitions {
            self.add_local(definition)?;
        }
        Ok(())
    }

    fn add_local(&mut self, definition: &'t LocalDefinition) -> Result<(), AllocError>
        ensures { OnOk result (known self.new ≡ known self.old ++ of_local (local_value definition.now)) }
    {
        match definition {
            LocalDefinition::Signals(signals) => self.add_signals(signals),
            LocalDefinition::SignalList(list) => self.add(&list.name, Suspicion::UnusedSignalList),
            LocalDefinition::Synonyms(synonyms) => self.add_synonyms(synonyms),
            LocalDefinition::SignalSet(_)
            | LocalDefinition::Variables(_)
            | LocalDefinition::Timers(_) => Ok(()),
        }
    }

    fn add_signals(&mut self, signals: &'t [SignalDefinition]) -> Result<(), AllocError>
        ensures { OnOk result (known self.new ≡ known self.old ++ of_signals (map signal_value signals.now)) }
    {
        for signal in signals {
            self.add(&signal.name, Suspicion::UnusedSignal)?;
        }
        Ok(())
    }

    fn add_synonyms(&mut self, synonyms: &'t SynonymDefinitions) -> Result<(), AllocError>
        ensures { OnOk result (known self.new
            ≡ known self.old ++ of_synonyms (map synonym_value synonyms.now.synonyms.items)) }
    {
        for synonym in &synonyms.synonyms {
            self.add(&synonym.name, Suspicion::UnusedSynonym)?;
        }
        Ok(())
    }

    fn add(&mut self, name: &'t Name, unused: Suspicion) -> Result<(), AllocError>
        ensures { OnOk result (known self.new ≡ known self.old ++ one unused (name_value name.now) ∷ []) }
    {
        self.all.push(Defined {
            name: name.text.as_str(),
            place: name.place,
            unused,
        })?;
        Ok(())
    }
}
