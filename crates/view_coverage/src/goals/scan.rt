//! Going over the words of a specification, from decision to decision.

use crate::goals::goal::AnswerGoal;
use build_definitions::next_number;
use parse_expressions::{PlacedWord, Word};
use sdl_lex::{Place, Token};
use sdl_system::ProcessId;
use sdl_tree::Mark;
use std::alloc::{AllocError, Global};
use std::str;

/// A scan over the words of a specification that has a system.
#[derive(Drop)]
pub struct Scan {
    pub found: Vec<AnswerGoal>,
    /// How many processes began so far.
    processes: u32,
    /// The decisions that have not come to their end.
    open: Vec<OpenDecision>,
    /// Whether a statement or an answer may begin here.
    may_begin: bool,
    /// The parenthesis of answers, if the scan is in one.
    inside: Option<Parenthesis>,
}

/// A decision that has not come to its end.
#[derive(Clone, Copy)]
struct OpenDecision {
    /// Where it begins.
    place: Place,
    /// How many parts it has so far.
    parts: u32,
}

/// A parenthesis of answers.
#[derive(Drop)]
struct Parenthesis {
    goal: AnswerGoal,
    /// How many parentheses are open in it, itself among them.
    depth: usize,
    /// Where its last token ends.
    end: usize,
}

impl Scan {
    pub fn new(alloc: Global) -> Self {
        Scan {
            found: Vec::new(alloc),
            processes: 0,
            open: Vec::new(alloc),
            may_begin: false,
            inside: None,
        }
    }

    /// Goes on by a word, which is this token of the text.
    pub fn advance(
        &mut self,
        alloc: Global,
        text: &[u8],
        word: PlacedWord<'_>,
        token: Token,
    ) -> Result<(), AllocError> {
        let mark = mark_of(word);
        match self.inside.take() {
            Some(parenthesis) => self.go_on(parenthesis, text, mark, token),
            None => self.look(alloc, text, word.place, mark, token),
        }
    }

    /// Looks at a word outside of answers.
    fn look(
        &mut self,
        alloc: Global,
        text: &[u8],
        place: Place,
        mark: Option<Mark>,
        token: Token,
    ) -> Result<(), AllocError> {
        let may_begin = self.may_begin;
        self.may_begin = mark == Some(Mark::Semicolon) || mark == Some(Mark::Colon);
        match mark {
            Some(Mark::Process) => self.processes = next_number(self.processes)?,
            Some(Mark::Decision) => self.begin_decision(place)?,
            Some(Mark::EndDecision) => self.end_decision(),
            Some(Mark::Else) => self.add_else(alloc, place)?,
            Some(Mark::Open) if may_begin => self.begin_answers(alloc, text, place, token)?,
            _ => {}
        }
        Ok(())
    }

    fn begin_decision(&mut self, place: Place) -> Result<(), AllocError> {
        self.open.push(OpenDecision { place, parts: 0 })?;
        Ok(())
    }

    fn end_decision(&mut self) {
        let _ended = self.open.pop();
    }

    /// Adds the `else` of the innermost decision.
    fn add_else(&mut self, alloc: Global, place: Place) -> Result<(), AllocError> {
        if let Some(goal) = self.goal_at(alloc, place)? {
            let mut goal = goal;
            goal.answers.push_str("else")?;
            self.found.push(goal)?;
        }
        Ok(())
    }

    /// Begins the answers of the innermost decision.
    fn begin_answers(
        &mut self,
        alloc: Global,
        text: &[u8],
        place: Place,
        token: Token,
    ) -> Result<(), AllocError> {
        if let Some(goal) = self.goal_at(alloc, place)? {
            let parenthesis = Parenthesis {
                goal,
                depth: 0,
                end: token.start,
            };
            self.go_on(parenthesis, text, Some(Mark::Open), token)?;
        }
        Ok(())
    }

    /// A part of the innermost decision, without answers so far.
    fn goal_at(&mut self, alloc: Global, place: Place) -> Result<Option<AnswerGoal>, AllocError> {
        let Some(open) = self.open.last_mut() else {
            return Ok(None);
        };
        let branch = open.parts;
        open.parts = next_number(branch)?;
        Ok(Some(AnswerGoal {
            process: ProcessId(self.processes.saturating_sub(1)),
            place,
            decision: open.place,
            branch,
            answers: String::new(alloc),
        }))
    }

    /// Goes on in answers.
    fn go_on(
        &mut self,
        parenthesis: Parenthesis,
        text: &[u8],
        mark: Option<Mark>,
        token: Token,
    ) -> Result<(), AllocError> {
        let mut parenthesis = parenthesis;
        parenthesis.add(text, token)?;
        match mark {
            Some(Mark::Open) => parenthesis.depth = parenthesis.depth.saturating_add(1),
            Some(Mark::Close) => parenthesis.depth = parenthesis.depth.saturating_sub(1),
            _ => {}
        }
        if parenthesis.depth == 0 {
            self.found.push(parenthesis.goal)?;
        } else {
            self.inside = Some(parenthesis);
        }
        Ok(())
    }
}

impl Parenthesis {
    /// Adds a token, after a blank if there is a gap before it.
    fn add(&mut self, text: &[u8], token: Token) -> Result<(), AllocError> {
        if self.end < token.start {
            self.goal.answers.push(' ')?;
        }
        self.end = token.end;
        self.goal.answers.push_str(spelled(text, token))
    }
}

/// A token as the text has it.
fn spelled(text: &[u8], token: Token) -> &str {
    match text.get(token.start..token.end) {
        Some(bytes) => str::from_utf8(bytes).unwrap_or("?"),
        None => "?",
    }
}

fn mark_of(word: PlacedWord<'_>) -> Option<Mark> {
    match word.word {
        Word::Fixed(mark, _) => Some(mark),
        _ => None,
    }
}
