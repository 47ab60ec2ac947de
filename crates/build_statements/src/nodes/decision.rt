//! Questions and their answers (Z.102: decision).

ghost use Rattle.std.specs.Prelude.{◌≡◌, map, option_map, IfOk, OnOk};
ghost use Rattle.build_statements.specs.Contexts.{context_of};
ghost use Rattle.build_statements.specs.Decided.{IsDecisionOrNone, branch_of};
ghost use Rattle.build_statements.specs.Faulty.{answers_faults};
ghost use Rattle.build_statements.specs.Statements.{answers_in, kind_in};
ghost use Rattle.build_names.specs.Faults.{Notes};
ghost use Rattle.build_expressions.specs.Resolved.{typed_of};
ghost use Rattle.build_expressions.specs.Typing.{term_in};
ghost use Rattle.sdl_system.specs.Term.{term_of};
ghost use Rattle.sdl_tree.specs.Views.{answer_value};

use crate::context::Context;
use crate::list::all_there;
use build_expressions::{OperandSort, Typed, resolve_answer};
use build_names::Faults;
use sdl_system::{Branch, Decision, Expression, Statement, Way};
use sdl_tree::Answer;
use std::alloc::{AllocError, Global};

/// The kind of the values of a question.
pub fn kind_of(question: &Option<Typed>) -> Option<OperandSort>
    ensures { result ≡ kind_in (option_map typed_of question.now) }
{
    match question {
        None => None,
        Some(typed) => Some(typed.kind),
    }
}

/// The answers that lead to one part of a decision. Their faults are noted.
pub fn resolve_answers<'t>(
    alloc: Global,
    context: &Context<'_, '_, 't>,
    question: Option<OperandSort>,
    answers: &'t [Answer],
    faults: &mut Faults<'t>,
) -> Result<Option<Vec<sdl_system::Answer>>, AllocError>
    ensures answers { IfOk result (λ found. option_map (λ list. list.items) found
        ≡ answers_in (context_of context.now) question (map answer_value answers.now)) }
    ensures noted { OnOk result (Notes faults.old faults.new
        (answers_faults (context_of context.now) question (map answer_value answers.now))) }
{
    let mut found = Vec::new(alloc);
    for answer in answers {
        found.push(resolve_answer(alloc, &context.scope, question, answer, faults)?)?;
    }
    all_there(alloc, found)
}

/// The question itself, where it has a term.
pub fn question_of(asked: Option<Typed>) -> Option<Expression>
    ensures { option_map term_of result ≡ term_in (option_map typed_of asked) }
{
    asked?.expression
}

/// The answers with where they lead.
pub fn branch(answers: Option<Vec<sdl_system::Answer>>, way: Way) -> Option<Branch>
    ensures { result ≡ option_map (branch_of way) answers }
{
    match answers {
        None => None,
        Some(answers) => Some(Branch { answers, way }),
    }
}

/// The decision, where its question and all its branches are there; else nothing.
pub fn decision(
    question: Option<Expression>,
    branches: Option<Vec<Branch>>,
    otherwise: Option<Way>,
) -> Option<Statement>
    ensures { IsDecisionOrNone (option_map term_of question)
        (option_map (λ list. list.items) branches) otherwise result }
{
    match (question, branches) {
        (Some(question), Some(branches)) => Some(Statement::Decision(Decision {
            question,
            branches,
            otherwise,
        })),
        _ => None,
    }
}
