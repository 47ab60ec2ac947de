//! Timers that nobody uses, and timers that are set to a time that is always the same.

ghost use Rattle.std.specs.Prelude.{◌≡◌, ◌++◌, ◌||◌, ◌&&◌, IfOk, OnOk, map, not};
ghost use Rattle.sdl_warnings.specs.Heads.{head_value, nowhere};
ghost use Rattle.sdl_warnings.specs.Missing.{unused_timers};
ghost use Rattle.sdl_warnings.specs.Processes.{of_timers};
ghost use Rattle.sdl_warnings.specs.Sets.{has};
ghost use Rattle.sdl_warnings.specs.Times.{constant_from, constant_times, ended, gone_on, is_constant_word, is_operator, next};
ghost use Rattle.sdl_warnings.specs.declared.timers.Time.TheVariants as time;

use crate::heads::{Head, Spot, heads};
use crate::missing::add_missing;
use crate::name_set::NameSet;
use crate::suspicion::{Suspicion, Warning};
use crate::unused::repeated;
use crate::words::{is_mark, is_number, name_of};
use parse_expressions::PlacedWord;
use sdl_lex::Place;
use sdl_tree::Mark;
use std::alloc::{AllocError, Global};

/// Adds what is suspicious in the timers of the process with these words, in a text that defines these constants.
pub fn add_timers(
    alloc: Global,
    found: &mut Vec<Warning>,
    constants: &[Head<'_>],
    words: &[PlacedWord<'_>],
) -> Result<(), AllocError>
    ensures { OnOk result (found.new.items ≡ found.old.items ++ of_timers (map head_value constants.now) words.now) }
{
    add_unused_timers(alloc, found, words)?;
    add_times(alloc, found, constants, words)
}

/// Adds the timers that are nowhere else in the process with these words.
fn add_unused_timers(
    alloc: Global,
    found: &mut Vec<Warning>,
    words: &[PlacedWord<'_>],
) -> Result<(), AllocError>
    ensures { OnOk result (found.new.items ≡ found.old.items ++ unused_timers words.now) }
{
    let timers = heads(alloc, words, Mark::Timer)?;
    let again = repeated(alloc, words)?;
    add_missing(found, Suspicion::UnusedTimer, &timers, &again)
}

/// Adds the times of `set` that are numbers, constants and operators alone.
fn add_times(
    alloc: Global,
    found: &mut Vec<Warning>,
    constants: &[Head<'_>],
    words: &[PlacedWord<'_>],
) -> Result<(), AllocError>
    ensures { OnOk result (found.new.items ≡ found.old.items ++ constant_times (map head_value constants.now) words.now) }
{
    let own = heads(alloc, words, Mark::Dcl)?;
    let passed = heads(alloc, words, Mark::Fpar)?;
    let constants = NameSet::of(alloc, constants)?;
    let variables = NameSet::of(alloc, &own)?;
    let parameters = NameSet::of(alloc, &passed)?;
    let names = Constants {
        constants,
        variables,
        parameters,
    };
    names.add_times(found, words)
}

/// The names of constants, and those of variables and parameters, which hide some.
#[derive(Drop)]
struct Constants<'c, 't> {
    constants: NameSet<'c>,
    variables: NameSet<'t>,
    parameters: NameSet<'t>,
}

impl Constants<'_, '_> {
    fn add_times(
        &self,
        found: &mut Vec<Warning>,
        words: &[PlacedWord<'_>],
    ) -> Result<(), AllocError>
        ensures { OnOk result (found.new.items ≡ found.old.items
            ++ constant_from
            (λ text. has self.now.constants text
            && not (has self.now.variables text || has self.now.parameters text))
            nowhere time.Other words.now) }
    {
        let mut spot = Spot::NOWHERE;
        let mut time = Time::Other;
        for word in words {
            add_ended(found, spot, time, *word)?;
            time = time.next(spot, *word, self.is_in_constant(*word));
            spot = spot.after(Mark::Set, *word);
        }
        Ok(())
    }

    /// Whether a word may be in a constant expression.
    fn is_in_constant(&self, word: PlacedWord<'_>) -> bool
        ensures { result ≡ is_constant_word
            (λ text. has self.now.constants text
            && not (has self.now.variables text || has self.now.parameters text)) word.entry }
    {
        if is_operator(word) {
            return true;
        }
        match name_of(word) {
            Some(name) => self.is_constant(name),
            None => is_number(word),
        }
    }

    fn is_constant(&self, name: &str) -> bool
        ensures { result ≡ (has self.now.constants name.now
            && not (has self.now.variables name.now || has self.now.parameters name.now)) }
    {
        self.constants.has(name) && !(self.variables.has(name) || self.parameters.has(name))
    }
}

/// How far the time of a timer is read.
#[derive(Clone, Copy)]
pub enum Time {
    /// It begins with the next word.
    Opens,
    /// It is constant so far, and begins there.
    Constant(Place),
    /// It isn't constant, or no time is read.
    Other,
}

impl Time {
    /// What it is after a word, which may be in a constant expression or not.
    fn next(self, spot: Spot, word: PlacedWord<'_>, goes_on: bool) -> Time
        ensures { result ≡ next goes_on spot self word.entry }
    {
        if spot.is_outside() && is_mark(word, Mark::Open) {
            Time::Opens
        } else if goes_on {
            self.gone_on(word.place)
        } else {
            Time::Other
        }
    }

    /// What it is after a word at this place that may be in a constant expression.
    fn gone_on(self, place: Place) -> Time
        ensures { result ≡ gone_on place self }
    {
        match self {
            Time::Opens => Time::Constant(place),
            Time::Constant(first) => Time::Constant(first),
            Time::Other => Time::Other,
        }
    }
}

/// Adds the time that ends before a word, if it is constant.
fn add_ended(
    found: &mut Vec<Warning>,
    spot: Spot,
    time: Time,
    word: PlacedWord<'_>,
) -> Result<(), AllocError>
    ensures { OnOk result (found.new.items ≡ found.old.items ++ ended spot time word.entry) }
{
    if let Time::Constant(place) = time {
        if is_mark(word, Mark::Comma) && spot.depth == 1 {
            found.push(Warning {
                suspicion: Suspicion::ConstantTime,
                place,
            })?;
        }
    }
    Ok(())
}

/// Whether a word is an operator on numbers, or a parenthesis.
fn is_operator(word: PlacedWord<'_>) -> bool
    ensures { result ≡ is_operator word.entry }
{
    is_mark(word, Mark::Plus)
        || is_mark(word, Mark::Minus)
        || is_mark(word, Mark::Asterisk)
        || is_mark(word, Mark::Slash)
        || is_mark(word, Mark::Open)
        || is_mark(word, Mark::Close)
}
