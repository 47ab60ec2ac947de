//! Inputs, and what they say of their signals.

ghost use Rattle.std.specs.Prelude.{◌≡◌, ◌++◌, ◌∷◌, [], IfOk, OnOk, map, option_map};
ghost use Rattle.build_names.specs.Faults.{Notes};
ghost use Rattle.build_states.specs.Context.{context_of};
ghost use Rattle.build_expressions.specs.Scope.{signal_meaning};
ghost use Rattle.build_states.specs.Faulty.{input_faults, inputs_faults, list_faults, named_faults};
ghost use Rattle.build_states.specs.Listed.{mention_value, mentions_listed, response_value};
ghost use Rattle.build_states.specs.Mentions.{input_mention, inputs_mentions, list_mentions, rest_mention};
ghost use Rattle.build_states.specs.declared.stimuli.subject.Subject.TheVariants.{Rest};
ghost use Rattle.sdl_tree.specs.Views.{input_value, inputs_value};

use crate::stimuli::context::Context;
use crate::stimuli::mention::{Manner, Mention, Response};
use crate::stimuli::signals::{parameters, subjects};
use crate::stimuli::subject::Subject;
use crate::stimuli::transition::TransitionId;
use crate::stimuli::variables::read_variables;
use build_expressions::SignalMeaning;
use build_names::{Faults, Rule, Token};
use sdl_tree::{Input, Inputs, Mark, Spelling};
use std::alloc::{AllocError, Global};

/// Adds what the signals of an input do, or its asterisk.
pub fn add_inputs<'t>(
    alloc: Global,
    context: &Context<'_, '_, 't>,
    manner: Manner,
    begin: TransitionId,
    inputs: &'t Inputs,
    mentions: &mut Vec<Mention<'t>>,
    faults: &mut Faults<'t>,
) -> Result<(), AllocError>
    ensures read { OnOk result (mentions_listed mentions.new.items ≡ mentions_listed mentions.old.items
        ++ inputs_mentions (context_of context.now) manner begin (inputs_value inputs.now)) }
    ensures noted { OnOk result (Notes faults.old faults.new
        (inputs_faults (context_of context.now) (inputs_value inputs.now))) }
{
    match inputs {
        Inputs::Listed(inputs) => {
            add_list(alloc, context, manner, begin, inputs, mentions, faults)
        }
        Inputs::All(asterisk) => {
            let response = manner.received(begin, Vec::new(alloc));
            add_rest(alloc, *asterisk, response, mentions)
        }
    }
}

/// Adds what the signals of a list of inputs do.
pub fn add_list<'t>(
    alloc: Global,
    context: &Context<'_, '_, 't>,
    manner: Manner,
    begin: TransitionId,
    inputs: &'t [Input],
    mentions: &mut Vec<Mention<'t>>,
    faults: &mut Faults<'t>,
) -> Result<(), AllocError>
    ensures read { OnOk result (mentions_listed mentions.new.items ≡ mentions_listed mentions.old.items
        ++ list_mentions (context_of context.now) manner begin (map input_value inputs.now)) }
    ensures noted { OnOk result (Notes faults.old faults.new
        (list_faults (context_of context.now) (map input_value inputs.now))) }
{
    for input in inputs {
        add_input(alloc, context, manner, begin, input, mentions, faults)?;
    }
    Ok(())
}

fn add_input<'t>(
    alloc: Global,
    context: &Context<'_, '_, 't>,
    manner: Manner,
    begin: TransitionId,
    input: &'t Input,
    mentions: &mut Vec<Mention<'t>>,
    faults: &mut Faults<'t>,
) -> Result<(), AllocError>
    ensures read { OnOk result (mentions_listed mentions.new.items ≡ mentions_listed mentions.old.items
        ++ input_mention (context_of context.now) manner begin (input_value input.now) ∷ []) }
    ensures noted { OnOk result (Notes faults.old faults.new
        (input_faults (context_of context.now) (input_value input.now))) }
{
    let mention = read_input(alloc, context, manner, begin, input, faults)?;
    mentions.push(mention)?;
    Ok(())
}

fn read_input<'t>(
    alloc: Global,
    context: &Context<'_, '_, 't>,
    manner: Manner,
    begin: TransitionId,
    input: &'t Input,
    faults: &mut Faults<'t>,
) -> Result<Mention<'t>, AllocError>
    ensures read { IfOk result (λ mention. mention_value mention
        ≡ input_mention (context_of context.now) manner begin (input_value input.now)) }
    ensures noted { OnOk result (Notes faults.old faults.new
        (input_faults (context_of context.now) (input_value input.now))) }
{
    let meaning = context.scope.signal(&input.signal.text);
    note_signal(meaning, input, faults);
    let places = parameters(meaning);
    let variables = read_variables(alloc, &context.scope, places, &input.variables, faults)?;
    Ok(Mention {
        token: Token::of_name(&input.signal),
        subjects: subjects(alloc, meaning)?,
        response: manner.received(begin, variables),
    })
}

/// Notes a name that is no signal's and no timer's as `Unknown`, and one with more places for variables than
/// parameters as `Sort`.
fn note_signal<'t>(meaning: Option<SignalMeaning<'_>>, input: &'t Input, faults: &mut Faults<'t>)
    ensures { Notes faults.old faults.new
        (named_faults (input_value input.now) (option_map signal_meaning meaning.entry)) }
{
    let name = Token::of_name(&input.signal);
    match meaning {
        None => faults.note(Rule::Unknown, name),
        Some(_) => {
            if parameters(meaning).len() < input.variables.len() {
                faults.note(Rule::Sort, name);
            }
        }
    }
}

/// Adds an asterisk, and what is done with the signals that the state doesn't name.
pub fn add_rest<'t>(
    alloc: Global,
    asterisk: Spelling,
    response: Response,
    mentions: &mut Vec<Mention<'t>>,
) -> Result<(), AllocError>
    ensures { OnOk result (mentions_listed mentions.new.items ≡ mentions_listed mentions.old.items
        ++ rest_mention asterisk (response_value response) ∷ []) }
{
    mentions.push(Mention {
        token: Token::of_mark(Mark::Asterisk, asterisk),
        subjects: rest(alloc)?,
        response,
    })?;
    Ok(())
}

fn rest(alloc: Global) -> Result<Vec<Subject>, AllocError>
    ensures { IfOk result (λ subjects. subjects.items ≡ Rest ∷ []) }
{
    let mut subjects = Vec::new(alloc);
    subjects.push(Subject::Rest)?;
    Ok(subjects)
}
