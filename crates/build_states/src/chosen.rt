//! Which parts belong to a state, by where its name stands.

ghost use Rattle.std.specs.Prelude.{◌≡◌, ◌++◌, IfOk, OnOk};
ghost use Rattle.std.specs.List.{between};
ghost use Rattle.build_states.specs.Outlined.{chosen, own_part};

use crate::outline::Turn;
use std::alloc::{AllocError, Global};

/// The parts of a state, in the order of the text: those with an asterisk and those that name it, without those that
/// leave it out.
pub fn chosen(alloc: Global, stars: &[usize], turns: &[Turn]) -> Result<Vec<usize>, AllocError>
    ensures { IfOk result (λ parts. parts.items ≡ chosen (record { stars = stars.now; turns = turns.now })) }
{
    let mut parts = Vec::new(alloc);
    let mut from = 0;
    for turn in turns {
        parts.extend_from_slice(stars_between(stars, from, turn.until))?;
        add_own(&mut parts, turn)?;
        from = turn.from;
    }
    parts.extend_from_slice(stars_between(stars, from, stars.len()))?;
    Ok(parts)
}

/// Those of the parts with an asterisk that stand there.
fn stars_between(stars: &[usize], from: usize, until: usize) -> &[usize]
    ensures { result.now ≡ between from until stars.now }
{
    let until = until.min(stars.len());
    if from < until {
        &stars[from..until]
    } else {
        &[]
    }
}

/// Adds a part that names the state.
fn add_own(parts: &mut Vec<usize>, turn: &Turn) -> Result<(), AllocError>
    ensures { OnOk result (parts.new.items ≡ parts.old.items ++ own_part turn.now) }
{
    if !turn.is_left_out {
        parts.push(turn.part)?;
    }
    Ok(())
}
