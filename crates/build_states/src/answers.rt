//! What a state says of each signal.

ghost use Rattle.std.specs.Prelude.{◌≡◌, ◌||◌, OnOk};
ghost use Rattle.std.specs.List.{list_any};
ghost use Rattle.build_names.specs.Faults.{Notes, fault_if};
ghost use Rattle.build_names.specs.declared.faults.fault.Rule.TheVariants.{TwiceInState};
ghost use Rattle.build_states.specs.Answered.{answers_value};
ghost use Rattle.build_states.specs.Listed.{mention_value, mentions_listed, response_value};
ghost use Rattle.build_states.specs.States.{is_again, is_answered, no_answers, twice_faults, with_answer, with_mention, with_mentions, with_subjects};

use crate::named::Named;
use crate::stimuli::{Mention, Response, Subject};
use build_names::{Faults, Rule};
use std::alloc::{AllocError, Global};

/// The answers of a state to signals.
#[derive(Drop)]
pub struct Answers<'m> {
    /// The responses to those that it names.
    pub named: Named<'m>,
    /// The response to the others of the valid input set, if an asterisk stands.
    pub rest: Option<&'m Response>,
}

impl<'m> Answers<'m> {
    /// No answers.
    pub(crate) fn new(alloc: Global) -> Self
        ensures { answers_value result ≡ no_answers }
    {
        Answers {
            named: Named::new(alloc),
            rest: None,
        }
    }

    /// Adds what is said of signals where they are mentioned. Noted is `TwiceInState` at each name, list or asterisk
    /// that speaks of what is mentioned before.
    pub(crate) fn add_mentions<'t>(
        &mut self,
        mentions: &'m [Mention<'t>],
        faults: &mut Faults<'t>,
    ) -> Result<(), AllocError>
        ensures added { OnOk result (answers_value self.new
            ≡ with_mentions (answers_value self.old) (mentions_listed mentions.now)) }
        ensures noted { OnOk result (Notes faults.old faults.new
            (twice_faults (answers_value self.old) (mentions_listed mentions.now))) }
    {
        for mention in mentions {
            self.add_mention(mention, faults)?;
        }
        Ok(())
    }

    fn add_mention<'t>(
        &mut self,
        mention: &'m Mention<'t>,
        faults: &mut Faults<'t>,
    ) -> Result<(), AllocError>
        ensures added { OnOk result (answers_value self.new
            ≡ with_mention (answers_value self.old) (mention_value mention.now)) }
        ensures noted { OnOk result (Notes faults.old faults.new
            (fault_if (is_again (answers_value self.old) (mention_value mention.now)) TwiceInState
            (mention_value mention.now).word)) }
    {
        if self.is_again(&mention.subjects) {
            faults.note(Rule::TwiceInState, mention.token);
        }
        self.add_subjects(&mention.subjects, &mention.response)
    }

    /// Whether one of these is mentioned before.
    fn is_again(&self, subjects: &[Subject]) -> bool
        ensures { result ≡ list_any (is_answered (answers_value self.now)) subjects.now }
    {
        let mut again = false;
        for subject in subjects {
            again = either(again, self.is_answered(*subject));
        }
        again
    }

    fn is_answered(&self, subject: Subject) -> bool
        ensures { result ≡ is_answered (answers_value self.now) subject }
    {
        match subject {
            Subject::Signal(number) => self.named.get(number).is_some(),
            Subject::Rest => self.rest.is_some(),
        }
    }

    fn add_subjects(
        &mut self,
        subjects: &[Subject],
        response: &'m Response,
    ) -> Result<(), AllocError>
        ensures { OnOk result (answers_value self.new
            ≡ with_subjects (answers_value self.old) (response_value response.now) subjects.now) }
    {
        for subject in subjects {
            self.add(*subject, response)?;
        }
        Ok(())
    }

    fn add(&mut self, subject: Subject, response: &'m Response) -> Result<(), AllocError>
        ensures { OnOk result (answers_value self.new
            ≡ with_answer (answers_value self.old) (response_value response.now) subject) }
    {
        match subject {
            Subject::Signal(number) => self.named.add(number, response)?,
            Subject::Rest => self.rest = self.rest.or(Some(response)),
        }
        Ok(())
    }
}

/// One or the other.
fn either(first: bool, second: bool) -> bool
    ensures { result ≡ (first || second) }
{
    first || second
}
