//! What names of signals and of signal lists speak of.

ghost use Rattle.std.specs.Prelude.{◌≡◌, IfOk, map, option_map};
ghost use Rattle.build_expressions.specs.Scope.{signal_meaning};
ghost use Rattle.build_states.specs.Context.{signals_listed};
ghost use Rattle.build_states.specs.Mentions.{parameters_of, subjects_in, subjects_of};
ghost use Rattle.build_states.specs.declared.stimuli.subject.Subject.TheVariants.{Signal};

use crate::stimuli::subject::Subject;
use build_expressions::SignalMeaning;
use port_model::SignalId;
use sdl_system::Sort;
use std::alloc::{AllocError, Global};

/// The sorts of the parameters; none are known where the name means nothing.
pub fn parameters<'s>(meaning: Option<SignalMeaning<'s>>) -> &'s [Option<Sort>]
    ensures { result.now ≡ parameters_of (option_map signal_meaning meaning.entry) }
{
    match meaning {
        None => &[],
        Some(SignalMeaning::Signal { sorts, .. }) => sorts,
        Some(SignalMeaning::Timer { sorts, .. }) => sorts,
    }
}

/// The signal or timer, if the name means one.
pub fn subjects(
    alloc: Global,
    meaning: Option<SignalMeaning<'_>>,
) -> Result<Vec<Subject>, AllocError>
    ensures { IfOk result (λ subjects. subjects.items ≡ subjects_of (option_map signal_meaning meaning.entry)) }
{
    let mut subjects = Vec::new(alloc);
    match meaning {
        None => {}
        Some(SignalMeaning::Signal { number, .. }) => subjects.push(Subject::Signal(number))?,
        Some(SignalMeaning::Timer { number, .. }) => subjects.push(Subject::Signal(number))?,
    }
    Ok(subjects)
}

/// The signals of a list, if the name is one's.
pub fn list_subjects(
    alloc: Global,
    signals: Option<&[SignalId]>,
) -> Result<Vec<Subject>, AllocError>
    ensures { IfOk result (λ subjects. subjects.items ≡ subjects_in (option_map signals_listed signals.entry)) }
{
    match signals {
        None => Ok(Vec::new(alloc)),
        Some(signals) => all_subjects(alloc, signals),
    }
}

fn all_subjects(alloc: Global, signals: &[SignalId]) -> Result<Vec<Subject>, AllocError>
    ensures { IfOk result (λ subjects. subjects.items ≡ map Signal signals.now) }
{
    let mut subjects = Vec::new(alloc);
    for signal in signals {
        subjects.push(Subject::Signal(*signal))?;
    }
    Ok(subjects)
}
