//! Expressions.

ghost use Rattle.std.specs.Prelude.{◌≡◌, ◌-◌, ◌≤◌, map, option_map, IfOk};
ghost use Rattle.sdl_tree.specs.Spells.Expressions as grammar;
ghost use Rattle.sdl_tree.specs.Views.{expr_value, link_value, name_value};
ghost use Rattle.parse_expressions.specs.Expressions as spec;
ghost use Rattle.parse_expressions.specs.Reading.{in_parentheses, mark_at};
ghost use Rattle.parse_expressions.specs.Reads.{Reads};

use crate::cursor::Cursor;
use crate::fault::{Fault, Wanted};
use crate::lists::{Perhaps, Production, in_parentheses, repeated};
use crate::place::{At, LOOSEST};
use sdl_tree::{
    Chain, Expression, KeywordValue, Link, Mark, Name, Operator, Spelling, UnaryOperator,
};
use std::alloc::{AllocError, Global};

impl Production<Expression> for At {
    ghost use Rattle.sdl_tree.specs.Tree.{Expr};
    ghost use Rattle.sdl_tree.specs.Views.{expr_value};
    ghost use Rattle.parse_expressions.specs.Expressions.{level, readers};

    ghost Node = { Expr };

    ghost value = { expr_value };

    ghost reads = { λ at. level (readers at.depth) at.loose };
}

impl Perhaps<Link> for At {
    ghost use Rattle.std.specs.Prelude.{◌-◌};
    ghost use Rattle.sdl_tree.specs.Tree as plain;
    ghost use Rattle.sdl_tree.specs.Views.{link_value};
    ghost use Rattle.parse_expressions.specs.Expressions.{level, link, readers};

    ghost Node = { plain.Link };

    ghost value = { link_value };

    ghost reads = { λ at. link (level (readers at.depth) (at.loose - 1)) at.loose };
}

/// `expr`, in which `depth` parentheses may stand inside each other.
pub fn expression(
    alloc: Global,
    cursor: &mut Cursor<'_, '_>,
    depth: usize,
) -> Result<Expression, Fault>
    requires { depth ≤ 64 }
    ensures { Reads expr_value (spec.expr depth cursor.old) result cursor.new }
{
    let loose = LOOSEST;
    level(alloc, cursor, At { depth, loose })
}

/// An expression whose operators have at most the looseness of the place. Operators of less looseness are read first:
/// what they make is the first operand of the looser ones.
#[cycle(nesting)]
#[tactic(auto, using(crate::proofs::LevelLemmas::climbing))]
pub fn level(alloc: Global, cursor: &mut Cursor<'_, '_>, at: At) -> Result<Expression, Fault>
    requires shallow { at.depth ≤ 64 }
    requires loosest { at.loose ≤ 7 }
    ensures { Reads expr_value (spec.level (spec.readers at.depth) at.loose cursor.old) result cursor.new }
{
    let depth = at.depth;
    if at.loose == 0 {
        return primary(alloc, cursor, depth);
    }
    let mut read = signed(alloc, cursor, depth)?;
    for loose in 2..at.loose + 1 {
        let Some(operator) = next_operator(cursor) else {
            return Ok(read);
        };
        if looseness(operator) != loose {
            continue;
        }
        let rest = repeated(alloc, cursor, At { depth, loose }, link)?;
        read = chain(alloc, read, rest)?;
    }
    Ok(read)
}

/// An operator of the place's looseness and the operand behind it, if such an operator stands next.
#[cycle(nesting)]
#[tactic(auto, unfolding(crate::specs::Expressions::link))]
pub fn link(alloc: Global, cursor: &mut Cursor<'_, '_>, at: At) -> Result<Option<Link>, Fault>
    requires shallow { at.depth ≤ 64 }
    requires binary { 2 ≤ at.loose }
    requires loosest { at.loose ≤ 7 }
    ensures { Reads (option_map link_value)
        (spec.link (spec.level (spec.readers at.depth) (at.loose - 1)) at.loose cursor.old) result cursor.new }
{
    let depth = at.depth;
    let loose = at.loose - 1;
    let Some(operator) = operator_at(cursor, at.loose) else {
        return Ok(None);
    };
    let word = cursor.expect(operator.mark())?;
    let operand = level(alloc, cursor, At { depth, loose })?;
    Ok(Some(Link {
        operator,
        word,
        operand,
    }))
}

/// Operands with the operators between them, or one operand alone.
#[tactic(auto, using(crate::proofs::LevelLemmas::alone, crate::proofs::LevelLemmas::chained))]
fn chain(alloc: Global, first: Expression, rest: Vec<Link>) -> Result<Expression, AllocError>
    ensures { IfOk result (λ e. expr_value e ≡ spec.chain_with (expr_value first) (map link_value rest.items)) }
{
    if rest.is_empty() {
        return Ok(first);
    }
    Ok(Expression::Chain(Box::new(alloc, Chain { first, rest })?))
}

/// `["-" | "not"] primary`
#[cycle(nesting)]
#[tactic(auto, unfolding(crate::specs::Expressions::signed))]
fn signed(alloc: Global, cursor: &mut Cursor<'_, '_>, depth: usize) -> Result<Expression, Fault>
    requires { depth ≤ 64 }
    ensures { Reads expr_value (spec.signed (spec.readers depth) cursor.old) result cursor.new }
{
    let Some(operator) = unary_at(cursor) else {
        return primary(alloc, cursor, depth);
    };
    let word = cursor.expect(operator.mark())?;
    let operand = primary(alloc, cursor, depth)?;
    Ok(Expression::Unary {
        operator,
        word,
        operand: Box::new(alloc, operand)?,
    })
}

/// `primary = NUMBER | "true" | "false" | "null" | NAME | "now" | "self" | "parent" | "offspring" | "sender"
/// | "active" "(" NAME [args] ")" | "(" expr ")"`
#[cycle(nesting)]
#[tactic(auto, unfolding(crate::specs::Expressions::primary))]
fn primary(alloc: Global, cursor: &mut Cursor<'_, '_>, depth: usize) -> Result<Expression, Fault>
    requires { depth ≤ 64 }
    ensures { Reads expr_value (spec.primary (spec.readers depth) cursor.old) result cursor.new }
{
    if cursor.sees_name() {
        return Ok(Expression::Name(cursor.name(alloc)?));
    }
    if cursor.sees_number() {
        return Ok(Expression::Number(cursor.number(alloc)?));
    }
    if let Some(value) = value_at(cursor) {
        let word = cursor.expect(value.mark())?;
        return Ok(Expression::Keyword { value, word });
    }
    if cursor.sees(Mark::Open) {
        return parenthesized(alloc, cursor, depth);
    }
    if cursor.sees(Mark::Active) {
        return active(alloc, cursor, depth);
    }
    Err(Fault::Expected(Wanted::Expression))
}

/// `"(" expr ")"`, where as many parentheses may stand inside each other.
#[cycle(nesting)]
#[tactic(auto, using(crate::proofs::LevelLemmas::nesting))]
fn parenthesized(
    alloc: Global,
    cursor: &mut Cursor<'_, '_>,
    depth: usize,
) -> Result<Expression, Fault>
    requires { depth ≤ 64 }
    ensures { Reads expr_value ((spec.readers depth).paren cursor.old) result cursor.new }
{
    if depth == 0 {
        return Err(Fault::TooDeep);
    }
    between_parentheses(alloc, cursor, depth - 1)
}

/// `"(" expr ")"`, where as many parentheses may stand inside these.
#[cycle(nesting)]
#[tactic(auto, unfolding(crate::specs::Expressions::paren_of))]
fn between_parentheses(
    alloc: Global,
    cursor: &mut Cursor<'_, '_>,
    depth: usize,
) -> Result<Expression, Fault>
    requires { depth ≤ 64 }
    ensures { Reads expr_value (spec.paren_of (spec.expr depth) cursor.old) result cursor.new }
{
    let loose = LOOSEST;
    let parenthesis = cursor.expect(Mark::Open)?;
    let inner = level(alloc, cursor, At { depth, loose })?;
    cursor.expect(Mark::Close)?;
    Ok(Expression::Parenthesized {
        parenthesis,
        inner: Box::new(alloc, inner)?,
    })
}

/// `"active" "(" NAME [args] ")"`, where as many parentheses may stand inside each other.
#[cycle(nesting)]
#[tactic(auto, using(crate::proofs::LevelLemmas::nesting))]
fn active(alloc: Global, cursor: &mut Cursor<'_, '_>, depth: usize) -> Result<Expression, Fault>
    requires { depth ≤ 64 }
    ensures { Reads expr_value ((spec.readers depth).active cursor.old) result cursor.new }
{
    if depth == 0 {
        return deep_active(cursor);
    }
    active_timer(alloc, cursor, depth - 1)
}

/// `"active"`, where its parenthesis would stand inside too many.
#[tactic(auto, unfolding(crate::specs::Expressions::deep_active))]
fn deep_active(cursor: &mut Cursor<'_, '_>) -> Result<Expression, Fault>
    ensures { Reads expr_value (spec.deep_active cursor.old) result cursor.new }
{
    cursor.expect(Mark::Active)?;
    if cursor.sees(Mark::Open) {
        Err(Fault::TooDeep)
    } else {
        Err(Fault::Expected(Wanted::Mark(Mark::Open)))
    }
}

/// `"active" "(" NAME [args] ")"`, where as many parentheses may stand inside its own.
#[cycle(nesting)]
#[tactic(auto, unfolding(crate::specs::Expressions::active_of))]
fn active_timer(
    alloc: Global,
    cursor: &mut Cursor<'_, '_>,
    depth: usize,
) -> Result<Expression, Fault>
    requires { depth ≤ 64 }
    ensures { Reads expr_value (spec.active_of (spec.readers depth).args cursor.old) result cursor.new }
{
    let word = cursor.expect(Mark::Active)?;
    cursor.expect(Mark::Open)?;
    let timer = cursor.name(alloc)?;
    let values = inner_arguments(alloc, cursor, depth)?;
    cursor.expect(Mark::Close)?;
    Ok(active_with(word, timer, values))
}

/// The node, made apart so that its view stands in a contract.
fn active_with(word: Spelling, timer: Name, values: Vec<Expression>) -> Expression
    ensures { expr_value result ≡ spec.active_with (word, (name_value timer, map expr_value values.items)) }
{
    Expression::Active {
        word,
        timer,
        values,
    }
}

/// `[args]` inside `active`, where the parentheses count.
#[cycle(nesting)]
#[tactic(auto, using(crate::proofs::LevelLemmas::nesting))]
fn inner_arguments(
    alloc: Global,
    cursor: &mut Cursor<'_, '_>,
    depth: usize,
) -> Result<Vec<Expression>, Fault>
    requires { depth ≤ 64 }
    ensures { Reads (λ es. map expr_value es.items) ((spec.readers depth).args cursor.old) result cursor.new }
{
    if depth > 0 {
        let loose = LOOSEST;
        let depth = depth - 1;
        return in_parentheses(alloc, cursor, At { depth, loose }, level);
    }
    if cursor.sees(Mark::Open) {
        Err(Fault::TooDeep)
    } else {
        Ok(Vec::new(alloc))
    }
}

/// `[args]`, where `args = "(" expr {"," expr} ")"`.
pub fn arguments(
    alloc: Global,
    cursor: &mut Cursor<'_, '_>,
    depth: usize,
) -> Result<Vec<Expression>, Fault>
    requires { depth ≤ 64 }
    ensures { Reads (λ es. map expr_value es.items) (in_parentheses (spec.expr depth) cursor.old) result cursor.new }
{
    let loose = LOOSEST;
    in_parentheses(alloc, cursor, At { depth, loose }, level)
}

/// The operator of this looseness that stands next, if one does.
#[tactic(auto, unfolding(crate::specs::Expressions::operator_at))]
pub fn operator_at(cursor: &Cursor<'_, '_>, loose: usize) -> Option<Operator>
    ensures { result ≡ spec.operator_at loose cursor.now }
{
    let operator = next_operator(cursor)?;
    if looseness(operator) == loose {
        Some(operator)
    } else {
        None
    }
}

/// The operator between two operands that stands next, if one does.
fn next_operator(cursor: &Cursor<'_, '_>) -> Option<Operator>
    ensures { result ≡ spec.by_mark spec.operator_of (mark_at cursor.now) }
{
    let mark = cursor.mark()?;
    operator_of(mark)
}

/// The operator before an operand that stands next, if one does.
#[tactic(auto, unfolding(crate::specs::Expressions::unary_at))]
fn unary_at(cursor: &Cursor<'_, '_>) -> Option<UnaryOperator>
    ensures { result ≡ spec.unary_at cursor.now }
{
    let mark = cursor.mark()?;
    unary_of(mark)
}

/// The operand of one keyword that stands next, if one does.
#[tactic(auto, unfolding(crate::specs::Expressions::value_at))]
fn value_at(cursor: &Cursor<'_, '_>) -> Option<KeywordValue>
    ensures { result ≡ spec.value_at cursor.now }
{
    let mark = cursor.mark()?;
    value_of(mark)
}

/// The operator before an operand that this mark is, if it is one.
fn unary_of(mark: Mark) -> Option<UnaryOperator>
    ensures { result ≡ spec.unary_of mark }
{
    match mark {
        Mark::Minus => Some(UnaryOperator::Minus),
        Mark::Not => Some(UnaryOperator::Not),
        _ => None,
    }
}

/// The operator between two operands that this mark is, if it is one.
fn operator_of(mark: Mark) -> Option<Operator>
    ensures { result ≡ spec.operator_of mark }
{
    match mark {
        Mark::Implies => Some(Operator::Implies),
        Mark::Or => Some(Operator::Or),
        Mark::Xor => Some(Operator::Xor),
        Mark::And => Some(Operator::And),
        Mark::Equal => Some(Operator::Equal),
        Mark::NotEqual => Some(Operator::NotEqual),
        Mark::Less => Some(Operator::Less),
        Mark::LessOrEqual => Some(Operator::LessOrEqual),
        Mark::Greater => Some(Operator::Greater),
        Mark::GreaterOrEqual => Some(Operator::GreaterOrEqual),
        Mark::Plus => Some(Operator::Plus),
        Mark::Minus => Some(Operator::Minus),
        Mark::Asterisk => Some(Operator::Times),
        Mark::Slash => Some(Operator::Divide),
        Mark::Mod => Some(Operator::Mod),
        Mark::Rem => Some(Operator::Rem),
        _ => None,
    }
}

/// How weakly an operator binds: operators of less looseness group first (Z.106).
fn looseness(operator: Operator) -> usize
    ensures { result ≡ grammar.looseness operator }
{
    match operator {
        Operator::Implies => 7,
        Operator::Or | Operator::Xor => 6,
        Operator::And => 5,
        Operator::Equal
        | Operator::NotEqual
        | Operator::Less
        | Operator::LessOrEqual
        | Operator::Greater
        | Operator::GreaterOrEqual => 4,
        Operator::Plus | Operator::Minus => 3,
        Operator::Times | Operator::Divide | Operator::Mod | Operator::Rem => 2,
    }
}

/// The operand that is this mark alone, if there is one.
fn value_of(mark: Mark) -> Option<KeywordValue>
    ensures { result ≡ spec.value_of mark }
{
    match mark {
        Mark::True => Some(KeywordValue::True),
        Mark::False => Some(KeywordValue::False),
        Mark::Null => Some(KeywordValue::Null),
        Mark::Now => Some(KeywordValue::Now),
        Mark::SelfPid => Some(KeywordValue::SelfPid),
        Mark::Parent => Some(KeywordValue::Parent),
        Mark::Offspring => Some(KeywordValue::Offspring),
        Mark::Sender => Some(KeywordValue::Sender),
        _ => None,
    }
}
