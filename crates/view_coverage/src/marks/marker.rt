//! Marks in a tree.

use sdl_lex::Place;
use sdl_tree::{
    Action, ActionStatement, AnswerPart, Assignment, BlockPart, BodyPart, Case, Definition,
    Expression, LocalDefinition, Name, Number, ProcessDefinition, SortName, Spelling, Stimulus,
    SystemDefinition, Transition, Tree, VariableGroup,
};
use std::alloc::{AllocError, Global};

/// The variable of the marks. A name in a text begins with a letter.
const PASSED: &str = "_passed";

/// Where all words of a mark are: no fault is told of them.
const NOWHERE: Place = Place { line: 1, column: 1 };

/// Gives each process one variable more, its last, and puts a mark at the head of each part of each decision: the
/// number of the part is assigned to the variable. The parts count from 0, in the order of the text. Returns how many
/// there are.
///
/// After an error some of the marks are there.
pub fn mark(alloc: Global, tree: &mut Tree) -> Result<i64, AllocError> {
    let mut marker = Marker { next: 0 };
    for definition in &mut tree.definitions {
        match definition {
            SystemDefinition::Shared(shared) => marker.definition(alloc, shared)?,
            SystemDefinition::Block(block) => marker.block(alloc, &mut block.definitions)?,
        }
    }
    Ok(marker.next)
}

/// Numbers the parts of decisions.
#[derive(Drop)]
struct Marker {
    next: i64,
}

impl Marker {
    fn block(&mut self, alloc: Global, parts: &mut Vec<BlockPart>) -> Result<(), AllocError> {
        for part in parts {
            if let BlockPart::Shared(shared) = part {
                self.definition(alloc, shared)?;
            }
        }
        Ok(())
    }

    fn definition(&mut self, alloc: Global, definition: &mut Definition) -> Result<(), AllocError> {
        match definition {
            Definition::Process(process) => self.process(alloc, process),
            _ => Ok(()),
        }
    }

    fn process(
        &mut self,
        alloc: Global,
        process: &mut ProcessDefinition,
    ) -> Result<(), AllocError> {
        process.definitions.push(variable(alloc)?)?;
        self.transition(alloc, &mut process.start.transition)?;
        for part in &mut process.body {
            self.body_part(alloc, part)?;
        }
        Ok(())
    }

    fn body_part(&mut self, alloc: Global, part: &mut BodyPart) -> Result<(), AllocError> {
        match part {
            BodyPart::State(part) => self.stimuli(alloc, &mut part.stimuli),
            BodyPart::FreeAction(action) => self.transition(alloc, &mut action.transition),
        }
    }

    fn stimuli(&mut self, alloc: Global, stimuli: &mut Vec<Stimulus>) -> Result<(), AllocError> {
        for stimulus in stimuli {
            match stimulus {
                Stimulus::Input(part) => self.transition(alloc, &mut part.transition)?,
                Stimulus::Priority(part) => self.transition(alloc, &mut part.transition)?,
                Stimulus::Save(_) => {}
                Stimulus::Continuous(part) => self.transition(alloc, &mut part.transition)?,
            }
        }
        Ok(())
    }

    #[cycle(transition)]
    fn transition(&mut self, alloc: Global, transition: &mut Transition) -> Result<(), AllocError> {
        self.statements(alloc, &mut transition.actions)
    }

    #[cycle(transition)]
    fn statements(
        &mut self,
        alloc: Global,
        statements: &mut Vec<ActionStatement>,
    ) -> Result<(), AllocError> {
        for index in 0..statements.len() {
            self.statement(alloc, &mut statements[index])?;
        }
        Ok(())
    }

    #[cycle(transition)]
    fn statement(
        &mut self,
        alloc: Global,
        statement: &mut ActionStatement,
    ) -> Result<(), AllocError> {
        self.action(alloc, &mut statement.action)
    }

    #[cycle(transition)]
    fn action(&mut self, alloc: Global, action: &mut Action) -> Result<(), AllocError> {
        if let Action::Decision {
            parts,
            otherwise,
            ..
        } = action
        {
            self.answer_parts(alloc, parts)?;
            self.otherwise(alloc, otherwise)?;
        }
        Ok(())
    }

    #[cycle(transition)]
    fn answer_parts(
        &mut self,
        alloc: Global,
        parts: &mut Vec<AnswerPart>,
    ) -> Result<(), AllocError> {
        for index in 0..parts.len() {
            self.answer_part(alloc, &mut parts[index])?;
        }
        Ok(())
    }

    #[cycle(transition)]
    fn answer_part(&mut self, alloc: Global, part: &mut AnswerPart) -> Result<(), AllocError> {
        self.part(alloc, &mut part.transition)
    }

    #[cycle(transition)]
    fn otherwise(
        &mut self,
        alloc: Global,
        otherwise: &mut Option<Transition>,
    ) -> Result<(), AllocError> {
        match otherwise {
            None => Ok(()),
            Some(transition) => self.part(alloc, transition),
        }
    }

    /// Marks a part of a decision, and the parts in it, which have later numbers.
    #[cycle(transition)]
    fn part(&mut self, alloc: Global, transition: &mut Transition) -> Result<(), AllocError> {
        let number = self.next;
        self.next = number.checked_add(1).ok_or(AllocError)?;
        self.transition(alloc, transition)?;
        transition.actions.insert(0, statement_of(alloc, number)?)?;
        Ok(())
    }
}

/// The variable of the marks of a process.
fn variable(alloc: Global) -> Result<LocalDefinition, AllocError> {
    let mut names = Vec::new(alloc);
    names.push(name(alloc, PASSED)?)?;
    let mut groups = Vec::new(alloc);
    groups.push(VariableGroup {
        names,
        sort: SortName {
            spelled: name(alloc, "Integer")?,
        },
        initial: None,
    })?;
    Ok(LocalDefinition::Variables(groups))
}

/// The mark with this number.
fn statement_of(alloc: Global, number: i64) -> Result<ActionStatement, AllocError> {
    let value = Expression::Number(Number {
        value: number,
        digits: name(alloc, "0")?,
    });
    let mut assignments = Vec::new(alloc);
    assignments.push(Assignment {
        variable: name(alloc, PASSED)?,
        value,
    })?;
    Ok(ActionStatement {
        label: None,
        action: Action::Task {
            word: Spelling {
                case: Case::Lower,
                place: NOWHERE,
            },
            assignments,
        },
    })
}

fn name(alloc: Global, text: &str) -> Result<Name, AllocError> {
    Ok(Name {
        text: String::from_str(alloc, text)?,
        place: NOWHERE,
    })
}
