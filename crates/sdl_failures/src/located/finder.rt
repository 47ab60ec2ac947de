//! The statement of a node.

ghost use Rattle.std.specs.Prelude.{◌≡◌, IfSome, Option, Some, slice_get};
ghost use Rattle.sdl_failures.specs.Sites.{IsSiteOf};

use crate::located::site::Site;
use sdl_system::{NodeId, Process};
use sdl_tree::{
    Action, ActionStatement, AnswerPart, BodyPart, ProcessDefinition, Stimulus, Transition,
};

/// The statement that is a node of a process, which has this definition.
pub fn site_of<'t>(
    definition: &'t ProcessDefinition,
    process: &Process,
    number: NodeId,
) -> Option<Site<'t>>
    ensures { IfSome result (IsSiteOf process.now number) }
{
    let node = process.node(number)?;
    let mut finder = Finder { left: number.0 };
    let site = finder.process(definition)?;
    if site.has_kind(&node.statement) {
        Some(site)
    } else {
        None
    }
}

/// Goes to a node in the order in which the nodes are numbered: of a transition what ends it, and then its actions from
/// the last to the first; of a decision first its parts, in the order of the text.
#[derive(Drop)]
struct Finder {
    /// So many nodes come before it.
    left: u32,
}

impl Finder {
    fn process<'t>(&mut self, definition: &'t ProcessDefinition) -> Option<Site<'t>> {
        let found = self.transition(&definition.start.transition);
        if found.is_some() {
            return found;
        }
        for part in &definition.body {
            let found = self.body_part(part);
            if found.is_some() {
                return found;
            }
        }
        None
    }

    fn body_part<'t>(&mut self, part: &'t BodyPart) -> Option<Site<'t>> {
        match part {
            BodyPart::State(part) => self.stimuli(&part.stimuli),
            BodyPart::FreeAction(action) => self.transition(&action.transition),
        }
    }

    fn stimuli<'t>(&mut self, stimuli: &'t [Stimulus]) -> Option<Site<'t>> {
        for stimulus in stimuli {
            let found = match stimulus {
                Stimulus::Input(part) => self.transition(&part.transition),
                Stimulus::Priority(part) => self.transition(&part.transition),
                Stimulus::Save(_) => None,
                Stimulus::Continuous(part) => self.transition(&part.transition),
            };
            if found.is_some() {
                return found;
            }
        }
        None
    }

    #[cycle(transition)]
    fn transition<'t>(&mut self, transition: &'t Transition) -> Option<Site<'t>> {
        if let Some(ending) = &transition.terminator
            && self.is_there()
        {
            return Some(Site::End(&ending.terminator));
        }
        self.actions(&transition.actions)
    }

    /// From the last to the first.
    #[cycle(transition)]
    fn actions<'t>(&mut self, actions: &'t [ActionStatement]) -> Option<Site<'t>> {
        let mut left = actions.len();
        while left > 0 {
            left -= 1;
            let found = self.step(&actions[left]);
            if found.is_some() {
                return found;
            }
        }
        None
    }

    #[cycle(transition)]
    fn step<'t>(&mut self, step: &'t ActionStatement) -> Option<Site<'t>> {
        self.action(&step.action)
    }

    #[cycle(transition)]
    fn action<'t>(&mut self, action: &'t Action) -> Option<Site<'t>> {
        if let Action::Decision {
            parts,
            otherwise,
            ..
        } = action
        {
            let found = self.answers(parts);
            if found.is_some() {
                return found;
            }
            let found = self.otherwise(otherwise);
            if found.is_some() {
                return found;
            }
        }
        if self.is_there() {
            Some(Site::Action(action))
        } else {
            None
        }
    }

    #[cycle(transition)]
    fn answers<'t>(&mut self, parts: &'t [AnswerPart]) -> Option<Site<'t>> {
        for index in 0..parts.len() {
            let found = self.answer(&parts[index]);
            if found.is_some() {
                return found;
            }
        }
        None
    }

    #[cycle(transition)]
    fn answer<'t>(&mut self, part: &'t AnswerPart) -> Option<Site<'t>> {
        self.transition(&part.transition)
    }

    #[cycle(transition)]
    fn otherwise<'t>(&mut self, otherwise: &'t Option<Transition>) -> Option<Site<'t>> {
        match otherwise {
            None => None,
            Some(transition) => self.transition(transition),
        }
    }

    /// Whether it is the next node; else that is passed.
    fn is_there(&mut self) -> bool {
        if self.left == 0 {
            return true;
        }
        self.left -= 1;
        false
    }
}
