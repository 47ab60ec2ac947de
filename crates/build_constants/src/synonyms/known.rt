//! Synonyms, settled one after the other.

ghost use Rattle.std.specs.Prelude.{◌≡◌, ◌<◌, ◌||◌, true, false, Some, map, length, slice_get, slice_set, IfOk, OnOk};
ghost use Rattle.build_constants.specs.Known.{AreStuck, IsKnown, are_settled, count_open, is_settled_at};
ghost use Rattle.build_constants.specs.SettledSynonyms.{AreConstants, named_by};
ghost use Rattle.build_constants.specs.declared.synonyms.synonym.Synonym as the_synonym;

use crate::synonyms::order::order;
use crate::synonyms::synonym::Synonym;
use build_expressions::Constant;
use build_names::Faults;
use std::alloc::{AllocError, Global};

/// The constants of the synonyms that are known so far, and which of them are settled.
#[derive(Drop)]
pub struct Known {
    pub constants: Vec<Constant>,
    pub settled: Vec<bool>,
}

/// None is settled yet.
pub fn none_settled(alloc: Global, synonyms: &[Synonym<'_, '_, '_>]) -> Result<Known, AllocError>
    ensures { IfOk result (λ known. IsKnown synonyms.now known.constants.items known.settled.items) }
{
    let count = synonyms.len();
    let constants = vec![in alloc; Constant::NoValue; count]?;
    let settled = vec![in alloc; false; count]?;
    Ok(Known { constants, settled })
}

impl Known {
    /// Whether the synonym of this number is settled.
    fn is_settled(&self, number: usize) -> bool
        ensures { result ≡ is_settled_at self.now.settled.items number }
    {
        match self.settled.get(number) {
            Some(settled) => *settled,
            None => false,
        }
    }

    /// Whether all of these are.
    fn are_settled(&self, numbers: &[usize]) -> bool
        ensures { result ≡ are_settled self.now.settled.items numbers.now }
    {
        for number in numbers {
            if !self.is_settled(*number) {
                return false;
            }
        }
        true
    }

    /// Keeps what a synonym comes to.
    fn put(&mut self, number: usize, constant: Constant)
        requires in_table { number < length self.old.constants.items }
        requires within { number < length self.old.settled.items }
        ensures constants { self.new.constants.items ≡ slice_set self.old.constants.items number constant }
        ensures settled { self.new.settled.items ≡ slice_set self.old.settled.items number true }
    {
        self.constants[number] = constant;
        self.settled[number] = true;
    }
}

/// Settles the synonym of this number, where all that it names are settled and it isn't yet, and says whether it has.
pub fn settle(
    alloc: Global,
    synonyms: &[Synonym<'_, '_, '_>],
    named: &[Vec<usize>],
    number: usize,
    known: &mut Known,
) -> Result<bool, AllocError>
    requires named { map (λ numbers. numbers.items) named.now ≡ map named_by synonyms.now }
    requires known { IsKnown synonyms.now known.old.constants.items known.old.settled.items }

    ensures known { OnOk result (IsKnown synonyms.now known.new.constants.items known.new.settled.items) }
    ensures fewer { IfOk result (λ settled. settled ≡ true →
        count_open known.new.settled.items < count_open known.old.settled.items) }
    ensures same { IfOk result (λ settled. settled ≡ false → known.new.settled.items ≡ known.old.settled.items) }
    ensures stuck { IfOk result (λ settled. settled ≡ false → (synonym : the_synonym.Synonym) →
        slice_get synonyms.now number ≡ Some synonym → is_settled_at known.old.settled.items number ≡ false →
        are_settled known.old.settled.items (named_by synonym) ≡ false) }
{
    if number >= synonyms.len() || number >= named.len() {
        return Ok(false);
    }
    if known.is_settled(number) || !known.are_settled(&named[number]) {
        return Ok(false);
    }
    let constant = synonyms[number].constant(alloc, &known.constants, &mut Faults::new())?;
    known.put(number, constant);
    Ok(true)
}

/// Settles those of these numbers, in this order.
fn settle_each(
    alloc: Global,
    synonyms: &[Synonym<'_, '_, '_>],
    named: &[Vec<usize>],
    numbers: &[usize],
    known: &mut Known,
) -> Result<(), AllocError>
    requires named { map (λ numbers. numbers.items) named.now ≡ map named_by synonyms.now }
    requires known { IsKnown synonyms.now known.old.constants.items known.old.settled.items }
    ensures { OnOk result (IsKnown synonyms.now known.new.constants.items known.new.settled.items) }
{
    for number in numbers {
        settle(alloc, synonyms, named, *number, known)?;
    }
    Ok(())
}

/// Settles each in turn, in the order of the text, and says whether it has settled any.
fn settle_round(
    alloc: Global,
    synonyms: &[Synonym<'_, '_, '_>],
    named: &[Vec<usize>],
    known: &mut Known,
) -> Result<bool, AllocError>
    requires named { map (λ numbers. numbers.items) named.now ≡ map named_by synonyms.now }
    requires known { IsKnown synonyms.now known.old.constants.items known.old.settled.items }

    ensures known { OnOk result (IsKnown synonyms.now known.new.constants.items known.new.settled.items) }
    ensures fewer { IfOk result (λ any. any ≡ true →
        count_open known.new.settled.items < count_open known.old.settled.items) }
    ensures stuck { IfOk result (λ any. any ≡ false →
        AreStuck synonyms.now known.new.settled.items (length synonyms.now)) }
{
    let mut any = false;
    for number in 0..synonyms.len() {
        let settled = settle(alloc, synonyms, named, number, known)?;
        any = either(any, settled);
    }
    Ok(any)
}

fn either(first: bool, second: bool) -> bool
    ensures { result ≡ (first || second) }
{
    first || second
}

/// Settles all that settle. The order in which they are tried first is the quick one; the rounds behind it go on until
/// nothing changes, so that what is found doesn't rest on that order.
pub fn settle_all(
    alloc: Global,
    synonyms: &[Synonym<'_, '_, '_>],
    named: &[Vec<usize>],
) -> Result<Vec<Constant>, AllocError>
    requires { map (λ numbers. numbers.items) named.now ≡ map named_by synonyms.now }
    ensures { IfOk result (λ constants. AreConstants synonyms.now constants.items) }
{
    let mut known = none_settled(alloc, synonyms)?;
    let numbers = order(alloc, named)?;
    settle_each(alloc, synonyms, named, &numbers, &mut known)?;
    'rounds: loop {
        let any = settle_round(alloc, synonyms, named, &mut known)?;
        if !any {
            return Ok(known.constants);
        }
    }
}
