//! Advice on something whose sort doesn't fit its place.

mod operator;
mod parameter;
mod value;

use crate::advice::misfit::operator::{operator_advice, sign_advice};
use crate::advice::misfit::parameter::{
    alone_advice, applied_advice, received_advice, taking_advice,
};
use crate::advice::misfit::value::value_advice;
use crate::advice::names::Names;
use crate::site::{Kind, What};
use build_expressions::ValueEntry;
use explain_syntax::Advice;
use sdl_tree::Name;
use std::alloc::{AllocError, Global};

/// Gives the advice on what is at a place, if its sort doesn't fit. None: it fits, or its sort isn't known.
pub fn misfit_advice(
    alloc: Global,
    names: &Names<'_, '_>,
    word: &str,
    what: What<'_>,
) -> Result<Option<Advice>, AllocError> {
    match what {
        What::Name(name, Kind::Constant) => variable_advice(alloc, names, name, VARIABLE),
        What::Name(name, Kind::Answer) => variable_advice(alloc, names, name, ANSWER),
        What::Name(_, _) => Ok(None),
        What::Value(value, given) => value_advice(alloc, names, word, value, given),
        What::Operator(chain, number) => operator_advice(alloc, names, word, chain, number),
        What::Sign(operator, operand) => sign_advice(alloc, names, operator, operand),
        What::Applied { name, kind, values } => applied_advice(alloc, names, name, kind, values),
        What::Received { name, places } => received_advice(alloc, names, name, places),
        What::Taking {
            variable,
            signal,
            number,
        } => taking_advice(alloc, names, variable, signal, number),
        What::SetAlone(timer) => alone_advice(alloc, names, timer),
    }
}

/// Of a variable in a constant.
fn variable_advice(
    alloc: Global,
    names: &Names<'_, '_>,
    name: &Name,
    sentence: &str,
) -> Result<Option<Advice>, AllocError> {
    let word = name.text.as_str();
    match names.value(word) {
        Some(value) if is_variable(value.entry) => {
            Ok(Some(Advice::about(alloc, word, sentence)?))
        }
        _ => Ok(None),
    }
}

const VARIABLE: &str =
    "is a variable, and a constant has to stand here: it is known before any instance is made. Name a synonym, or give \
     the value by a task after the start.";

const ANSWER: &str =
    "is a variable, and an answer is a constant. Ask for a Boolean instead: `decision n = m; (true): stop; (false): \
     nextstate -; enddecision;`.";

fn is_variable(entry: ValueEntry) -> bool {
    match entry {
        ValueEntry::Variable { .. } => true,
        ValueEntry::Synonym { .. } => false,
    }
}
