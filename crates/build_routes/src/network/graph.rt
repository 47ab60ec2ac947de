//! A graph whose steps are open to the signals of a list or to all, and which signals flow where in it.
//!
//! Signals are looked at 64 at a time, as the bits of a mask. A node is looked at again only when a signal has come to
//! it since, so that a flow costs a few steps for each step of the graph, and at most 64.

ghost use Rattle.std.specs.Prelude.{◌≡◌, ℕ, ◌<◌, ◌≤◌, ◌↔◌, get_or, length, IfOk, OnOk};
ghost use Rattle.std.specs.List.{Contains};
ghost use Rattle.std.specs.Vec.{vec_len};
ghost use Rattle.build_routes.specs.Mask.{Bit, Has, Lets};
ghost use Rattle.build_routes.specs.Graph.{Flows, IsClosed, Leads, row};
ghost use Rattle.build_routes.specs.Passing.{ComesBy, Passes};

use crate::network::list::ListId;
use crate::network::mask::{joined, mask_at};
use std::alloc::{AllocError, Global};

/// A step to another node.
#[derive(Clone, Copy, PartialEq, Eq)]
pub struct Step {
    pub to: usize,
    /// The list whose signals alone may pass, if there is one.
    pub only: Option<ListId>,
}

/// The steps that lead on from a node.
#[derive(Drop)]
struct Row {
    steps: Vec<Step>,
}

/// For each node the steps that lead on from it.
#[derive(Drop)]
pub struct Graph {
    rows: Vec<Row>,
    ghost closed: { IsClosed rows.items },
}

impl Graph {
    ghost use Rattle.build_routes.specs.Graph.{Adds};
    ghost use Rattle.build_routes.specs.Rows.{rows_of};

    /// The graph without a step.
    pub fn new(alloc: Global) -> Self
        ensures { (n : ℕ) (step : Step) → Leads (rows_of result) n step → ⊥ }
    {
        Graph {
            rows: Vec::new(alloc),
        }
    }

    /// Adds a step that leads on from a node.
    pub fn add(&mut self, alloc: Global, from: usize, step: Step) -> Result<(), AllocError>
        ensures { OnOk result (Adds (λ n s. (n ≡ from) × (s ≡ step)) (rows_of self.old) (rows_of self.new)) }
    {
        self.cover(alloc, from)?;
        self.cover(alloc, step.to)?;
        self.rows[from].steps.push(step)?;
        Ok(())
    }

    /// Makes a node part of the graph.
    fn cover(&mut self, alloc: Global, node: usize) -> Result<(), AllocError>
        ensures same { (n : ℕ) → row self.new.rows.items n ≡ row self.old.rows.items n }
        ensures grown { vec_len self.old.rows ≤ vec_len self.new.rows }
        ensures covered { OnOk result (node < vec_len self.new.rows) }
    {
        while self.rows.len() <= node {
            self.rows.push(Row {
                steps: Vec::new(alloc),
            })?;
        }
        Ok(())
    }

    /// Computes the mask that flows to each node. `start` has the mask that begins at each, `column` that of each list.
    pub fn flow(
        &self,
        alloc: Global,
        column: &[u64],
        start: Vec<u64>,
    ) -> Result<Vec<u64>, AllocError>
        ensures { IfOk result (λ reached. (n k : ℕ) →
            Has reached.items n k ↔ Flows (rows_of self.now) column.now start.items k n) }
    {
        let mut waiting = begun(alloc, &start)?;
        let mut reached = padded(start, self.rows.len())?;
        while let Some(node) = waiting.pop() {
            if node < self.rows.len() {
                let from = mask_at(&reached, node);
                let steps = &self.rows[node].steps;
                pass_all(steps, from, column, &mut reached, &mut waiting)?;
            }
        }
        Ok(reached)
    }
}

/// The nodes at which something begins.
fn begun(alloc: Global, start: &[u64]) -> Result<Vec<usize>, AllocError>
    ensures { IfOk result (λ nodes. (n k : ℕ) → Has start.now n k → Contains nodes.items n) }
{
    let mut nodes = Vec::new(alloc);
    for (node, mask) in start.iter().enumerate() {
        if *mask != 0 {
            nodes.push(node)?;
        }
    }
    Ok(nodes)
}

/// At least so many masks, the new ones without a signal.
fn padded(masks: Vec<u64>, size: usize) -> Result<Vec<u64>, AllocError>
    ensures size { IfOk result (λ padded. size ≤ length padded.items) }
    ensures same { IfOk result (λ padded. (n : ℕ) → get_or padded.items n 0 ≡ get_or masks.items n 0) }
{
    let mut padded = masks;
    while padded.len() < size {
        padded.push(0)?;
    }
    Ok(padded)
}

/// Passes on by each of these steps what has come to their begin.
fn pass_all(
    steps: &[Step],
    from: u64,
    column: &[u64],
    reached: &mut [u64],
    waiting: &mut Vec<usize>,
) -> Result<(), AllocError>
    requires { (step : Step) → Contains steps.now step → step.to < length reached.old }
    ensures { OnOk result (Passes (λ n k. (step : Step) × Contains steps.now step × ComesBy from column.now step n k)
        reached.old reached.new waiting.old.items waiting.new.items) }
{
    for step in steps {
        pass(*step, from, column, reached, waiting)?;
    }
    Ok(())
}

/// Passes on by this step what has come to its begin.
fn pass(
    step: Step,
    from: u64,
    column: &[u64],
    reached: &mut [u64],
    waiting: &mut Vec<usize>,
) -> Result<(), AllocError>
    requires { step.to < length reached.old }
    ensures { OnOk result (Passes (ComesBy from column.now step)
        reached.old reached.new waiting.old.items waiting.new.items) }
{
    let old = reached[step.to];
    let new = joined(old, let_through(from, step.only, column));
    if new != old {
        waiting.push(step.to)?;
        reached[step.to] = new;
    }
    Ok(())
}

/// Gives the part of a mask that a step lets pass.
fn let_through(from: u64, only: Option<ListId>, column: &[u64]) -> u64
    ensures { (k : ℕ) → Bit result k ↔ (Bit from k × Lets column.now only k) }
{
    match only {
        None => from,
        Some(list) => from & mask_at(column, list.0 as usize),
    }
}
