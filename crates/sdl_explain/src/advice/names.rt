//! What the names of a specification stand for in a scope.

use build_definitions::{
    Agent, AgentEntry, Definitions, ProcessEntry, SignalEntry, SignalKind, ValueName,
};
use build_expressions::ValueEntry;
use build_names::ScopeId;
use std::alloc::{AllocError, Global};

/// The names that are seen in a scope: its own, and those of the scopes around it.
#[derive(Drop)]
pub struct Names<'d, 't> {
    pub tables: &'d Definitions<'t>,
    /// The scopes that are seen, from the innermost on.
    pub scopes: Vec<ScopeId>,
}

impl<'d, 't> Names<'d, 't> {
    /// The names that are seen in a scope.
    pub fn seen_in(
        alloc: Global,
        tables: &'d Definitions<'t>,
        scope: ScopeId,
    ) -> Result<Names<'d, 't>, AllocError> {
        let path = tables.path_of(scope);
        let mut scopes = Vec::new(alloc);
        if let Some(process) = path.process {
            scopes.push(ScopeId::Process(process))?;
        }
        if let Some(block) = path.block {
            scopes.push(ScopeId::Block(block))?;
        }
        scopes.push(ScopeId::System)?;
        Ok(Names { tables, scopes })
    }

    /// Whether what is defined in a scope is seen.
    pub fn sees(&self, scope: ScopeId) -> bool {
        self.scopes.iter().any(|seen| *seen == scope)
    }

    /// The variable, parameter or synonym of a name.
    pub fn value(&self, name: &str) -> Option<ValueName<'t>> {
        for scope in &self.scopes {
            if let Some(found) = value_in(&self.tables.values, *scope, name) {
                return Some(found);
            }
        }
        None
    }

    /// The signal or timer of a name.
    pub fn signal(&self, name: &str) -> Option<&'d SignalEntry<'t>> {
        for scope in &self.scopes {
            if let Some(found) = signal_in(&self.tables.signals, *scope, name) {
                return Some(found);
            }
        }
        None
    }

    /// Whether a signal list has a name.
    pub fn has_list(&self, name: &str) -> bool {
        let lists = &self.tables.lists;
        lists.iter().any(|list| self.sees(list.scope) && list.definition.name.text.as_str() == name)
    }

    /// The block or process of a name.
    pub fn agent(&self, name: &str) -> Option<AgentEntry<'t>> {
        for scope in &self.scopes {
            if let Some(found) = agent_in(&self.tables.agents, *scope, name) {
                return Some(found);
            }
        }
        None
    }

    /// The process of a name.
    pub fn process(&self, name: &str) -> Option<&'d ProcessEntry<'t>> {
        match self.agent(name)?.agent {
            Agent::Process(number) => self.tables.processes.get(number.0 as usize),
            Agent::Block(_) => None,
        }
    }

    /// What a name stands for, with its article; None if it stands for nothing.
    pub fn meaning(&self, name: &str) -> Option<&'static str> {
        if let Some(entry) = self.signal(name) {
            return Some(match entry.kind {
                SignalKind::Signal => "a signal",
                SignalKind::Timer { .. } => "a timer",
            });
        }
        if let Some(value) = self.value(name) {
            return Some(match value.entry {
                ValueEntry::Variable { .. } => "a variable",
                ValueEntry::Synonym { .. } => "a synonym",
            });
        }
        match self.agent(name)?.agent {
            Agent::Process(_) => Some("a process"),
            Agent::Block(_) => Some("a block"),
        }
    }
}

fn value_in<'t>(values: &[ValueName<'t>], scope: ScopeId, name: &str) -> Option<ValueName<'t>> {
    for value in values {
        if value.scope == scope && value.name.text.as_str() == name {
            return Some(*value);
        }
    }
    None
}

fn signal_in<'d, 't>(
    signals: &'d [SignalEntry<'t>],
    scope: ScopeId,
    name: &str,
) -> Option<&'d SignalEntry<'t>> {
    for signal in signals {
        if signal.scope == scope && signal.name.text.as_str() == name {
            return Some(signal);
        }
    }
    None
}

fn agent_in<'t>(agents: &[AgentEntry<'t>], scope: ScopeId, name: &str) -> Option<AgentEntry<'t>> {
    for agent in agents {
        if agent.scope == scope && agent.name.text.as_str() == name {
            return Some(*agent);
        }
    }
    None
}
