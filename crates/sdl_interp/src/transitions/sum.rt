//! Sums of two integers that are known (Z.104: expressions), as most tasks assign them.

ghost use Rattle.std.specs.Prelude.{◌≡◌, IfSome, Ok, Some};
ghost use Rattle.port_model.specs.Port.{PortState};
ghost use Rattle.port_model.specs.declared.values.value.Value.TheVariants.{Int};
ghost use Rattle.run_record.specs.Environment.{environment};
ghost use Rattle.run_record.specs.Value.{at_place, given, value_of};
ghost use Rattle.run_record.specs.declared.evaluation.identity.Identity as identity;
ghost use Rattle.sdl_system.specs.Operation.{applied};
ghost use Rattle.sdl_system.specs.System.{SystemValue};
ghost use Rattle.sdl_system.specs.Term.{term_of, term_of_chain};
ghost use Rattle.sdl_system.specs.declared.sort.Sort.TheVariants.{Integer};

use port_model::Value;
use run_record::Store;
use sdl_system::{Arithmetic, Chain, Expression, NumberSort, Operation, Sort};

/// The sum or the difference of two integers, each a literal or a variable with a value, at an Integer place. None: it
/// is another place or another expression, or the number is past 64 bits.
#[inline(always)]
pub fn sum_at(sort: Option<Sort>, expression: &Expression, store: &Store) -> Option<Value>
    ensures { (system : SystemValue) (who : identity.Identity) (port : PortState)
        → IfSome result (λ value.
        at_place sort (value_of (environment system who store.now port) (term_of expression.now)) ≡ Ok value) }
{
    match sort {
        Some(Sort::Integer) => sum_of(expression, store),
        _ => None,
    }
}

#[inline(always)]
fn sum_of(expression: &Expression, store: &Store) -> Option<Value>
    ensures { (system : SystemValue) (who : identity.Identity) (port : PortState)
        → IfSome result (λ value. at_place (Some Integer)
        (value_of (environment system who store.now port) (term_of expression.now)) ≡ Ok value) }
{
    match expression {
        Expression::Chain(chain) => sum_in(chain, store),
        _ => None,
    }
}

#[inline(always)]
fn sum_in(chain: &Chain, store: &Store) -> Option<Value>
    ensures { (system : SystemValue) (who : identity.Identity) (port : PortState)
        → IfSome result (λ value. at_place (Some Integer)
        (value_of (environment system who store.now port) (term_of_chain chain.now)) ≡ Ok value) }
{
    if chain.rest.len() != 1 {
        return None;
    }
    let link = &chain.rest[0];
    let left = store.integer(&chain.first)?;
    let right = store.integer(&link.operand)?;
    sum(link.operation, left, right)
}

/// The sum or the difference of two integers. None: it is another operation, or the number is past 64 bits.
#[inline(always)]
fn sum(operation: Operation, left: i64, right: i64) -> Option<Value>
    ensures { let meant = given (applied operation (Int left) (Int right)) in
        IfSome result (λ value. at_place (Some Integer) meant ≡ Ok value) }
{
    let number = match operation {
        Operation::Arithmetic(Arithmetic::Plus, NumberSort::Integer) => left.checked_add(right)?,
        Operation::Arithmetic(Arithmetic::Minus, NumberSort::Integer) => left.checked_sub(right)?,
        _ => return None,
    };
    Some(Value::Int(number))
}
