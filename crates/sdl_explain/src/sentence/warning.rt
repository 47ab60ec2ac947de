//! The sentences that tell a human what is suspicious.

use sdl_warnings::{Behaviour, Suspicion};

/// The name of a warning about a word, and its sentence.
pub fn warning_sentence(suspicion: Suspicion, word: &str) -> (&'static str, &'static str) {
    match suspicion {
        Suspicion::UnreachedState => (
            "UnreachedState",
            "no `nextstate` leads to this state, so nothing is ever taken in it.",
        ),
        Suspicion::UnusedSignal => (
            "UnusedSignal",
            "nobody sends this signal, nobody takes it, and no channel carries it.",
        ),
        Suspicion::UnusedSignalList => ("UnusedSignalList", "nobody uses this signal list."),
        Suspicion::UnusedSynonym => ("UnusedSynonym", "nobody uses this synonym."),
        Suspicion::UnusedVariable => ("UnusedVariable", "this process never uses this variable."),
        Suspicion::UnusedTimer => (
            "UnusedTimer",
            "this process never sets this timer, and never takes it.",
        ),
        Suspicion::UnsetVariable => (
            "UnsetVariable",
            "no input and no task gives this variable a first value. An instance that reads it fails.",
        ),
        Suspicion::UnusedLabel if is_else(word) => ("UnusedLabel", NO_ELSE),
        Suspicion::UnusedLabel => ("UnusedLabel", "no `join` leads to this label."),
        Suspicion::ConstantTime => (
            "ConstantTime",
            "`set` has the time at which the timer is due, and not how long it runs. For that write `now +` before it.",
        ),
        Suspicion::Behaviour(behaviour) => behaviour_sentence(behaviour),
    }
}

/// Whether a label is a word that other languages have for the last part of a choice.
fn is_else(word: &str) -> bool {
    word.eq_ignore_ascii_case("otherwise") || word.eq_ignore_ascii_case("default")
}

const NO_ELSE: &str =
    "no `join` leads to this label. If it is to be the part of a decision for all other values, write `else:`.";

fn behaviour_sentence(behaviour: Behaviour) -> (&'static str, &'static str) {
    match behaviour {
        Behaviour::UnheardSignal => (
            "UnheardSignal",
            "outputs send this signal, but no input and no save has it, and no channel carries it to the environment.",
        ),
        Behaviour::UnsentSignal => (
            "UnsentSignal",
            "inputs take this signal, but no output sends it, and no channel carries it from the environment.",
        ),
        Behaviour::EndlessLoop => (
            "EndlessLoop",
            "nothing leads out between the label and this `join`, so a transition that comes here never ends, and fails.",
        ),
        Behaviour::Overlap => (
            "Overlap",
            "an earlier answer of this decision has such a value, too. The first one in the text is taken.",
        ),
        Behaviour::EmptyRange => (
            "EmptyRange",
            "no value is in this range, since its first one is greater than its last.",
        ),
        Behaviour::MissingAnswer => (
            "MissingAnswer",
            "one Boolean value has an answer, and the other has none. If it comes, the instance fails: write `else:`.",
        ),
    }
}
