//! The evaluation of expressions (Z.104: expressions).

ghost use Rattle.std.specs.Prelude.{◌≡◌, Ok, IfErr, IfOk, IfSome, map, true};
ghost use Rattle.port_model.specs.declared.values.value.Value.TheVariants.{Int};
ghost use Rattle.sdl_system.specs.Operation.{applied, compared};
ghost use Rattle.sdl_system.specs.Term.{operand_of, term_of, term_of_chain};
ghost use Rattle.run_record.specs.Knowledge.{environment_of};
ghost use Rattle.run_record.specs.Memory.{FailsAs, list_wants_memory, wants_memory};
ghost use Rattle.run_record.specs.Variables.{value_in};
ghost use Rattle.run_record.specs.Value.{accessed, at_place, given, key_at, operated, placed, time_value, truth_at, value_of, values_at};

use crate::evaluation::knowledge::Knowledge;
use crate::evaluation::store::Store;
use crate::failure::Failure;
use port_model::{Inbox, SignalId, Ticks, TimerKey, Value, Values};
use sdl_system::{
    Arithmetic, Chain, Comparison, Expression, Link, NumberSort, Operation, Sort, VariableId,
    in_sort, truth_of,
};
use std::alloc::Global;

/// Evaluates an expression for an instance of the system. Errors: `Overflow` for a number or a time past 64 bits,
/// `ZeroDivisor`, `Undefined` for a variable that was never assigned, `NotNatural` for a negative value of a timer
/// whose parameter is a Natural; of several failures the first from the left. `Memory` only if the expression asks for
/// a timer with values.
#[cycle(evaluation)]
#[inline(always)]
pub fn evaluate<P: Inbox>(
    alloc: Global,
    expression: &Expression,
    knowledge: &Knowledge<'_, P>,
) -> Result<Value, Failure>
    ensures ok { IfOk result (λ value. value_of (environment_of knowledge.now) (term_of expression.now) ≡ Ok value) }
    ensures err { let here = environment_of knowledge.now in
        let term = term_of expression.now in
        IfErr result (λ why. FailsAs (wants_memory term) (value_of here term) why) }
{
    if let Some(value) = knowledge.known(expression) {
        return Ok(value);
    }
    match expression {
        Expression::Chain(chain) => evaluate_chain(alloc, chain, knowledge),
        _ => evaluate_any(alloc, expression, knowledge),
    }
}

/// The same, in a frame that only some expressions need. Literals and variables, as most operands are, come to their
/// values without it.
#[cycle(evaluation)]
#[inline(never)]
fn evaluate_any<P: Inbox>(
    alloc: Global,
    expression: &Expression,
    knowledge: &Knowledge<'_, P>,
) -> Result<Value, Failure>
    ensures ok { IfOk result (λ value. value_of (environment_of knowledge.now) (term_of expression.now) ≡ Ok value) }
    ensures err { let here = environment_of knowledge.now in
        let term = term_of expression.now in
        IfErr result (λ why. FailsAs (wants_memory term) (value_of here term) why) }
{
    match expression {
        Expression::Value(value) => Ok(*value),
        Expression::Variable(variable) => read(knowledge.store(), *variable),
        Expression::Now => time_value(knowledge.store().time),
        Expression::Pid(word) => Ok(Value::Pid(knowledge.pid_of(*word))),
        Expression::Active { timer, values } => {
            let key = evaluate_key(alloc, *timer, values, knowledge)?;
            Ok(Value::Bool(knowledge.active(&key)))
        }
        Expression::Unary { operation, operand } => {
            let operand = evaluate(alloc, operand, knowledge)?;
            Ok(operation.apply(operand)?)
        }
        Expression::Chain(chain) => evaluate_chain(alloc, chain, knowledge),
    }
}

/// The operands from left to right. Most chains are of two operands that are known.
#[cycle(evaluation)]
#[inline(always)]
fn evaluate_chain<P: Inbox>(
    alloc: Global,
    chain: &Chain,
    knowledge: &Knowledge<'_, P>,
) -> Result<Value, Failure>
    ensures ok { IfOk result (λ value. value_of (environment_of knowledge.now) (term_of_chain chain.now) ≡ Ok value) }
    ensures err { let here = environment_of knowledge.now in
        let term = term_of_chain chain.now in
        IfErr result (λ why. FailsAs (wants_memory term) (value_of here term) why) }
{
    if let Some(value) = evaluate_integers(chain, knowledge) {
        return Ok(value);
    }
    match evaluate_pair(chain, knowledge) {
        Some(answer) => answer,
        None => evaluate_links(alloc, chain, knowledge),
    }
}

/// Evaluates a sum, a difference or a comparison of two integers that are known, as most chains are. None: it is another
/// chain, or the number is past 64 bits.
#[inline(always)]
fn evaluate_integers<P: Inbox>(chain: &Chain, knowledge: &Knowledge<'_, P>) -> Option<Value>
    ensures { IfSome result (λ value. value_of (environment_of knowledge.now) (term_of_chain chain.now) ≡ Ok value) }
{
    if chain.rest.len() != 1 {
        return None;
    }
    let link = &chain.rest[0];
    let left = knowledge.integer(&chain.first)?;
    let right = knowledge.integer(&link.operand)?;
    of_integers(link.operation, left, right)
}

/// What an operation gives of two integers. None: it is no sum, difference or comparison, or the number is past 64 bits.
#[inline(always)]
fn of_integers(operation: Operation, left: i64, right: i64) -> Option<Value>
    ensures { IfSome result (λ value. given (applied operation (Int left) (Int right)) ≡ Ok value) }
{
    match operation {
        Operation::Arithmetic(Arithmetic::Plus, NumberSort::Integer) => {
            Some(Value::Int(left.checked_add(right)?))
        }
        Operation::Arithmetic(Arithmetic::Minus, NumberSort::Integer) => {
            Some(Value::Int(left.checked_sub(right)?))
        }
        Operation::Comparison(comparison) => {
            Some(Value::Bool(compare_integers(comparison, left, right)))
        }
        _ => None,
    }
}

/// Whether two integers stand so to one another.
#[inline(always)]
fn compare_integers(comparison: Comparison, left: i64, right: i64) -> bool
    ensures { result ≡ compared comparison (Int left) (Int right) }
{
    match comparison {
        Comparison::Equal => left == right,
        Comparison::NotEqual => left != right,
        Comparison::Less => left < right,
        Comparison::LessOrEqual => left <= right,
        Comparison::Greater => left > right,
        Comparison::GreaterOrEqual => left >= right,
    }
}

/// Evaluates a chain of two operands that are known. None: it is another chain.
#[inline(always)]
fn evaluate_pair<P: Inbox>(
    chain: &Chain,
    knowledge: &Knowledge<'_, P>,
) -> Option<Result<Value, Failure>>
    ensures { IfSome result (λ answer. value_of (environment_of knowledge.now) (term_of_chain chain.now) ≡ answer) }
{
    if chain.rest.len() != 1 {
        return None;
    }
    let link = &chain.rest[0];
    let left = knowledge.known(&chain.first)?;
    let right = knowledge.known(&link.operand)?;
    match link.operation.apply(left, right) {
        Ok(value) => Some(Ok(value)),
        Err(why) => Some(Err(Failure::from(why))),
    }
}

/// The operands one after the other.
#[cycle(evaluation)]
#[inline(never)]
fn evaluate_links<P: Inbox>(
    alloc: Global,
    chain: &Chain,
    knowledge: &Knowledge<'_, P>,
) -> Result<Value, Failure>
    ensures ok { IfOk result (λ value. value_of (environment_of knowledge.now) (term_of_chain chain.now) ≡ Ok value) }
    ensures err { let here = environment_of knowledge.now in
        let term = term_of_chain chain.now in
        IfErr result (λ why. FailsAs (wants_memory term) (value_of here term) why) }
{
    let mut value = evaluate(alloc, &chain.first, knowledge)?;
    for link in &chain.rest {
        value = evaluate_link(alloc, value, link, knowledge)?;
    }
    Ok(value)
}

/// One more operation on the value of what stands before it.
#[cycle(evaluation)]
#[inline(always)]
fn evaluate_link<P: Inbox>(
    alloc: Global,
    left: Value,
    link: &Link,
    knowledge: &Knowledge<'_, P>,
) -> Result<Value, Failure>
    ensures ok { let here = environment_of knowledge.now in
        let right = operand_of link.now in
        IfOk result (λ value. operated right.operation (Ok left) (value_of here right.term) ≡ Ok value) }
    ensures err { let here = environment_of knowledge.now in
        let right = operand_of link.now in
        let meant = operated right.operation (Ok left) (value_of here right.term) in
        IfErr result (λ why. FailsAs (wants_memory right.term) meant why) }
{
    let right = evaluate(alloc, &link.operand, knowledge)?;
    Ok(link.operation.apply(left, right)?)
}

/// Evaluates an expression at a place of a sort: a number takes the sort of its place. If there is no such place it
/// stays what it is. Errors: those of `evaluate`, and then `NotNatural` for a negative value at a Natural place.
#[inline(always)]
pub fn evaluate_at<P: Inbox>(
    alloc: Global,
    expression: &Expression,
    sort: Option<Sort>,
    knowledge: &Knowledge<'_, P>,
) -> Result<Value, Failure>
    ensures ok { let here = environment_of knowledge.now in
        IfOk result (λ value. at_place sort (value_of here (term_of expression.now)) ≡ Ok value) }
    ensures err { let here = environment_of knowledge.now in
        let term = term_of expression.now in
        IfErr result (λ why. FailsAs (wants_memory term) (at_place sort (value_of here term)) why) }
{
    let value = evaluate(alloc, expression, knowledge)?;
    place(value, sort)
}

/// Evaluates several expressions at places of these sorts, from left to right. A value without a place stays what it
/// is. Errors: the first failure, that of an expression or of its place. `Memory` only if there are values.
#[cycle(evaluation)]
#[inline(always)]
pub fn evaluate_all<P: Inbox>(
    alloc: Global,
    expressions: &[Expression],
    sorts: &[Sort],
    knowledge: &Knowledge<'_, P>,
) -> Result<Values, Failure>
    ensures ok { let here = environment_of knowledge.now in
        IfOk result (λ values. values_at here sorts.now (map term_of expressions.now) ≡ Ok values) }
    ensures err { let here = environment_of knowledge.now in
        let terms = map term_of expressions.now in
        IfErr result (λ why. FailsAs (list_wants_memory terms) (values_at here sorts.now terms) why) }
{
    let mut values = Values::none(alloc);
    for (index, expression) in expressions.iter().enumerate() {
        let value = evaluate(alloc, expression, knowledge)?;
        let value = place(value, sorts.get(index).copied())?;
        if let Err(_) = values.push(value) {
            return Err(Failure::Memory);
        }
    }
    Ok(values)
}

/// The key of a timer with these values, each at its place. Errors: those of `evaluate_all`.
#[cycle(evaluation)]
#[inline(never)]
pub fn evaluate_key<P: Inbox>(
    alloc: Global,
    timer: SignalId,
    values: &[Expression],
    knowledge: &Knowledge<'_, P>,
) -> Result<TimerKey, Failure>
    ensures ok { let here = environment_of knowledge.now in
        IfOk result (λ key. key_at here timer (map term_of values.now) ≡ Ok key) }
    ensures err { let here = environment_of knowledge.now in
        let terms = map term_of values.now in
        IfErr result (λ why. FailsAs (list_wants_memory terms) (key_at here timer terms) why) }
{
    let sorts = knowledge.sorts_of(timer);
    let values = evaluate_all(alloc, values, sorts, knowledge)?;
    Ok(TimerKey {
        name: timer,
        values,
    })
}

/// Whether a condition is true. Errors: those of `evaluate`.
pub fn is_true<P: Inbox>(
    alloc: Global,
    condition: &Expression,
    knowledge: &Knowledge<'_, P>,
) -> Result<bool, Failure>
    ensures ok { IfOk result (λ truth. truth_at (environment_of knowledge.now) (term_of condition.now) ≡ Ok truth) }
    ensures err { let here = environment_of knowledge.now in
        let term = term_of condition.now in
        IfErr result (λ why. FailsAs (wants_memory term) (truth_at here term) why) }
{
    let value = evaluate(alloc, condition, knowledge)?;
    Ok(truth_of(value))
}

/// A value at a place of a sort; where there is no such place it stays what it is. Refused with `NotNatural` for a
/// negative value at a Natural place.
pub fn place(value: Value, sort: Option<Sort>) -> Result<Value, Failure>
    ensures { result ≡ placed sort value }
{
    match sort {
        None => Ok(value),
        Some(sort) => in_sort(value, sort).ok_or(Failure::NotNatural),
    }
}

/// A time as a value.
fn time_value(time: Ticks) -> Result<Value, Failure>
    ensures { result ≡ time_value time }
{
    match i64::try_from(time.get()) {
        Ok(number) => Ok(Value::Time(number)),
        Err(_) => Err(Failure::Overflow),
    }
}

/// The value of a variable; one that was never assigned has none.
fn read(store: &Store, variable: VariableId) -> Result<Value, Failure>
    ensures { result ≡ accessed (value_in store.now.variables variable) }
{
    store.variables.get(variable).ok_or(Failure::Undefined)
}
