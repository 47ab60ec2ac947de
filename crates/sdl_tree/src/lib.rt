//! The tree of a specification in SDL/PR, as public data, and the definitions of which text spells which tree.
//!
//! `specs/` has the grammar of the language (Z.106) as a relation between words and trees: `Words` says what each
//! token of a text means, how it is spelled and where it stands, `Views` which tree of the grammar a public tree is,
//! `Spells` which words spell which tree, `Erased` what a tree is but for places and spellings, and `Canonical` which
//! words such a tree is written with. The canonical words of a tree spell it.
#![tactic(auto)]

mod behaviour;
mod definitions;
mod expressions;
mod keyword;
pub mod laws;
mod mark;
mod name;

pub use behaviour::{
    Action, ActionStatement, Answer, AnswerPart, Assignment, BodyPart, ContinuousSignal,
    Destination, EnablingCondition, FreeAction, Input, InputPart, Inputs, NextState, PriorityInput,
    ResetGroup, SavePart, Saved, SetClause, Start, StatePart, States, Stimulus, Terminator,
    TerminatorStatement, Transition,
};
pub use definitions::{
    BlockDefinition, BlockPart, Bound, ChannelConnection, ChannelDefinition, ChannelEnd,
    ChannelPath, Counts, Definition, FormalParameters, LocalDefinition, ParameterGroup,
    ProcessDefinition, SignalDefinition, SignalListDefinition, SignalListItem, SignalSet,
    SynonymDefinition, SynonymDefinitions, SystemDefinition, TimerDefinition, TimerDefinitions,
    Tree, VariableGroup,
};
pub use expressions::{Applied, Chain, Expression, KeywordValue, Link, Operator, UnaryOperator};
pub use keyword::{Keyword, is_reserved, keyword_of, left_out, sign_of};
pub use mark::{Case, Mark};
pub use name::{Name, Number, SortName, Spelling};
