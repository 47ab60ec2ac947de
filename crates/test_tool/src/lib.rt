//! Tests of what no single text can show. Of the whole tool: readers and writers that fail, lines that need no memory,
//! what a human is told of a refusal, which words of a command line choose what, charts of runs, what runs covered, what
//! is expected of them, and runs on worker threads. Of its crates for texts: that a canonical text is read as the same
//! tree again, that each beginning of a text is refused by one line, and their calls.
//!
//! They stand above all other crates, so that none of these is proved a second time for its tests. Texts with what is
//! written of them are cases of `conformance`.
#![tactic(auto)]

#[cfg(test)]
mod again;
#[cfg(test)]
mod charts;
#[cfg(test)]
mod command_line;
#[cfg(test)]
mod command_tips;
#[cfg(test)]
mod coverage;
#[cfg(test)]
mod covered;
#[cfg(test)]
mod devices;
#[cfg(test)]
mod ends;
#[cfg(test)]
mod engine;
#[cfg(test)]
mod expected;
#[cfg(test)]
mod explains;
#[cfg(test)]
mod failures;
#[cfg(test)]
mod files;
#[cfg(test)]
mod orders;
#[cfg(test)]
mod own_script;
#[cfg(test)]
mod prefixes;
#[cfg(test)]
mod specifications;
#[cfg(test)]
mod threads;
#[cfg(test)]
mod tokens;
#[cfg(test)]
mod words;
