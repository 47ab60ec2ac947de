//! Words of a specification, counted against a limit.

ghost use Rattle.std.specs.Prelude.{◌∷◌, [], flat_map, map, option_map};
ghost use Rattle.sdl_tree.specs.Tree as tree;
ghost use Rattle.sdl_tree.specs.Views.{action_value, answer_part_value, body_part_value, ending_value, fpar_value, names_value, process_value, statement_value, stimulus_value, transition_value};
ghost use Rattle.build_limits.specs.Limits.{action_statements, actions_statements, body_statements, ending_statements, otherwise_statements, parameter_names, parts_statements, process_statements, stimulus_statements, transition_statements};

use build_names::{Faults, Rule, Token};
use sdl_tree::{
    Action, ActionStatement, AnswerPart, BodyPart, FormalParameters, Mark, Name, ProcessDefinition,
    Spelling, Stimulus, Terminator, TerminatorStatement, Transition,
};

/// How a count of words stands against its limit.
#[derive(Clone, Copy)]
pub enum Count<'t> {
    /// So many more may come.
    Left(usize),
    /// The first word past the limit.
    Past(Token<'t>),
}

impl<'t> Count<'t> {
    ghost use Rattle.build_limits.specs.Counted.{Counts, count_of, past_limit};
    ghost use Rattle.build_names.specs.Faults.{Notes, limit_at, token_word, mark_word};

    /// Notes the word past the limit, if there is one.
    pub fn note(self, faults: &mut Faults<'t>)
        ensures { Notes faults.old faults.new (limit_at (past_limit (count_of self.entry))) }
    {
        if let Count::Past(token) = self {
            faults.note(Rule::Limit, token);
        }
    }

    /// Counts a word.
    fn word(&mut self, token: Token<'t>)
        ensures { Counts self.old self.new (token_word token.entry ∷ []) }
    {
        *self = match *self {
            Count::Left(0) => Count::Past(token),
            Count::Left(left) => Count::Left(left - 1),
            Count::Past(first) => Count::Past(first),
        };
    }

    /// Counts the formal parameters of a process.
    pub fn parameters(&mut self, parameters: &'t Option<FormalParameters>)
        ensures { Counts self.old self.new (parameter_names (option_map fpar_value parameters.now)) }
    {
        if let Some(formal) = parameters {
            for group in &formal.groups {
                self.names(&group.names);
            }
        }
    }

    fn names(&mut self, names: &'t [Name])
        ensures { Counts self.old self.new (names_value names.now) }
    {
        for name in names {
            self.word(Token::of_name(name));
        }
    }

    /// Counts the statements of a process.
    pub fn process(&mut self, process: &ProcessDefinition)
        ensures { Counts self.old self.new (process_statements (process_value process.now)) }
    {
        self.transition(&process.start.transition);
        self.body(&process.body);
    }

    fn body(&mut self, parts: &[BodyPart])
        ensures { Counts self.old self.new (flat_map body_statements (map body_part_value parts.now)) }
    {
        for part in parts {
            self.body_part(part);
        }
    }

    fn body_part(&mut self, part: &BodyPart)
        ensures { Counts self.old self.new (body_statements (body_part_value part.now)) }
    {
        match part {
            BodyPart::State(part) => self.stimuli(&part.stimuli),
            BodyPart::FreeAction(action) => self.transition(&action.transition),
        }
    }

    fn stimuli(&mut self, stimuli: &[Stimulus])
        ensures { Counts self.old self.new (flat_map stimulus_statements (map stimulus_value stimuli.now)) }
    {
        for stimulus in stimuli {
            self.stimulus(stimulus);
        }
    }

    fn stimulus(&mut self, stimulus: &Stimulus)
        ensures { Counts self.old self.new (stimulus_statements (stimulus_value stimulus.now)) }
    {
        match stimulus {
            Stimulus::Input(part) => self.transition(&part.transition),
            Stimulus::Priority(part) => self.transition(&part.transition),
            Stimulus::Save(_) => {}
            Stimulus::Continuous(part) => self.transition(&part.transition),
        }
    }

    #[cycle(transition)]
    fn transition(&mut self, transition: &Transition)
        ensures { Counts self.old self.new (transition_statements (transition_value transition.now)) }
    {
        self.statements(&transition.actions);
        self.ending(&transition.terminator);
    }

    #[cycle(transition)]
    fn statements(&mut self, statements: &[ActionStatement])
        ensures { Counts self.old self.new
            (actions_statements (tree.actions_of (map statement_value statements.now))) }
    {
        for statement in statements {
            self.action(&statement.action);
        }
    }

    #[cycle(transition)]
    fn action(&mut self, action: &Action)
        ensures { Counts self.old self.new (action_statements (action_value action.now)) }
    {
        match action {
            Action::Task { word, .. } => self.mark(Mark::Task, *word),
            Action::Output { word, .. } => self.mark(Mark::Output, *word),
            Action::Set { word, .. } => self.mark(Mark::Set, *word),
            Action::Reset { word, .. } => self.mark(Mark::Reset, *word),
            Action::Create { word, .. } => self.mark(Mark::Create, *word),
            Action::Decision {
                word,
                parts,
                otherwise,
                ..
            } => {
                self.mark(Mark::Decision, *word);
                self.answer_parts(parts);
                self.otherwise(otherwise);
            }
        }
    }

    #[cycle(transition)]
    fn answer_parts(&mut self, parts: &[AnswerPart])
        ensures { Counts self.old self.new (parts_statements (tree.parts_of (map answer_part_value parts.now))) }
    {
        for part in parts {
            self.answer_part(part);
        }
    }

    #[cycle(transition)]
    fn answer_part(&mut self, part: &AnswerPart)
        ensures { Counts self.old self.new (transition_statements (answer_part_value part.now).transition) }
    {
        self.transition(&part.transition);
    }

    #[cycle(transition)]
    fn otherwise(&mut self, otherwise: &Option<Transition>)
        ensures { Counts self.old self.new
            (otherwise_statements (tree.else_of (option_map transition_value otherwise.now))) }
    {
        if let Some(transition) = otherwise {
            self.transition(transition);
        }
    }

    fn ending(&mut self, ending: &Option<TerminatorStatement>)
        ensures { Counts self.old self.new (ending_statements (option_map ending_value ending.now)) }
    {
        if let Some(
            TerminatorStatement {
                terminator: Terminator::Join { word, .. },
                ..
            },
        ) = ending
        {
            self.mark(Mark::Join, *word);
        }
    }

    fn mark(&mut self, mark: Mark, word: Spelling)
        ensures { Counts self.old self.new (mark_word mark word ∷ []) }
    {
        self.word(Token::of_mark(mark, word));
    }
}
