//! The first word of what stands in a tree.

use sdl_lex::Place;
use sdl_tree::{Action, Expression, Terminator};

/// The place at which an expression begins.
pub fn place_of(expression: &Expression) -> Place {
    match expression {
        Expression::Number(number) => number.digits.place,
        Expression::Name(name) => name.place,
        Expression::Keyword { word, .. } => word.place,
        Expression::Active { word, .. } => word.place,
        Expression::Parenthesized { parenthesis, .. } => parenthesis.place,
        Expression::Unary { word, .. } => word.place,
        Expression::Chain(chain) => place_of(&chain.first),
    }
}

/// The place of the word of an action.
pub fn action_place(action: &Action) -> Place {
    match action {
        Action::Task { word, .. }
        | Action::Output { word, .. }
        | Action::Set { word, .. }
        | Action::Reset { word, .. }
        | Action::Create { word, .. }
        | Action::Decision { word, .. } => word.place,
    }
}

/// The place of the word of what ends a transition.
pub fn end_place(end: &Terminator) -> Place {
    match end {
        Terminator::NextState { word, .. }
        | Terminator::Stop { word }
        | Terminator::Join { word, .. } => word.place,
    }
}
