//! The first line in which two texts differ.

ghost use Rattle.std.specs.Prelude.{◌≡◌, ◌↔◌, ◌≤◌, length, IfOk, IsNone};

use crate::lines::{line_end, line_ends};
use crate::quoted::Quoted;
use std::alloc::{AllocError, Global};
use std::fmt;

/// A line of the wanted text and the line of the told one that stands in its place, each with its end, if it has one.
#[derive(Drop)]
pub struct LinePair {
    /// Counted from 1.
    pub number: usize,
    pub want: Vec<u8>,
    pub told: Vec<u8>,
}

impl fmt::Display for LinePair {
    fn fmt<W: fmt::Write>(&self, f: &mut fmt::Formatter<W>) -> fmt::Result {
        let number = self.number;
        let want = Quoted(self.want.as_slice());
        let told = Quoted(self.told.as_slice());
        write!(f, "line {number}\n  want: {want}\n  told: {told}")
    }
}

/// The first line in which two texts differ.
pub fn first_difference(
    alloc: Global,
    want: &[u8],
    told: &[u8],
) -> Result<Option<LinePair>, AllocError>
    ensures { IfOk result (λ pair. IsNone pair ↔ (want.now ≡ told.now)) }
{
    if want == told {
        return Ok(None);
    }
    let same = same_bytes(want, told);
    let start = line_start(&want[..same]);
    Ok(Some(LinePair {
        number: 1 + line_ends(&want[..same]),
        want: Vec::from_slice(alloc, whole_first_line(&want[start..]))?,
        told: Vec::from_slice(alloc, whole_first_line(&told[start..]))?,
    }))
}

/// How many bytes two texts have in common at their beginning.
fn same_bytes(want: &[u8], told: &[u8]) -> usize
    ensures want { result ≤ length want.now }
    ensures told { result ≤ length told.now }
{
    want.iter()
        .zip(told.iter())
        .take_while(|(a, b)| **a == **b)
        .count()
}

/// Where the last line of a text begins.
fn line_start(text: &[u8]) -> usize
    ensures { result ≤ length text.now }
{
    match text.iter().rposition(|byte| *byte == b'\n') {
        Some(at) => at + 1,
        None => 0,
    }
}

/// The first line with its end.
fn whole_first_line(text: &[u8]) -> &[u8] {
    match line_end(text) {
        Some(at) => &text[..at + 1],
        None => text,
    }
}
