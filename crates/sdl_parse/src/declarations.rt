//! Formal parameters and variables.

ghost use Rattle.std.specs.Prelude.{◌≤◌, map, option_map};
ghost use Rattle.sdl_tree.specs.Views.{expr_value, fpar_value, parameters_value, variables_value};
ghost use Rattle.sdl_parse.specs.Declarations as spec;
ghost use Rattle.parse_expressions.specs.Reads.{Reads};

use crate::place::Defining;
use parse_expressions::expressions::expression;
use parse_expressions::parts::{end, names, sort};
use parse_expressions::place::At;
use parse_expressions::{Cursor, Fault, Production, separated};
use sdl_tree::{Expression, FormalParameters, Mark, ParameterGroup, VariableGroup};
use std::alloc::Global;

impl Production<ParameterGroup> for Defining {
    ghost use Rattle.sdl_tree.specs.Tree as tree;
    ghost use Rattle.sdl_tree.specs.Views.{parameters_value};
    ghost use Rattle.sdl_parse.specs.Declarations.{parameters};

    ghost Node = { tree.ParameterGroup };

    ghost value = { parameters_value };

    ghost reads = { λ _. parameters };
}

impl Production<VariableGroup> for Defining {
    ghost use Rattle.sdl_tree.specs.Tree as tree;
    ghost use Rattle.sdl_tree.specs.Views.{variables_value};
    ghost use Rattle.sdl_parse.specs.Declarations.{variables};

    ghost Node = { tree.VariableGroup };

    ghost value = { variables_value };

    ghost reads = { λ at. variables at.depth };
}

/// `["fpar" vars end]`, where no variable has an initial value.
#[tactic(auto, unfolding(crate::specs::Declarations::fpar))]
pub fn fpar(alloc: Global, cursor: &mut Cursor<'_, '_>) -> Result<Option<FormalParameters>, Fault>
    ensures { Reads (option_map fpar_value) (spec.some_fpar cursor.old) result cursor.new }
{
    if !cursor.sees(Mark::Fpar) {
        return Ok(None);
    }
    let word = cursor.expect(Mark::Fpar)?;
    let groups = separated(alloc, cursor, Defining::OUTERMOST, parameters)?;
    end(cursor)?;
    Ok(Some(FormalParameters { word, groups }))
}

/// `NAME {"," NAME} NAME`
#[tactic(auto, unfolding(crate::specs::Declarations::parameters))]
fn parameters(
    alloc: Global,
    cursor: &mut Cursor<'_, '_>,
    _at: Defining,
) -> Result<ParameterGroup, Fault>
    ensures { Reads parameters_value (spec.parameters cursor.old) result cursor.new }
{
    let names = names(alloc, cursor)?;
    let sort = sort(alloc, cursor, At::OUTERMOST)?;
    Ok(ParameterGroup { names, sort })
}

/// `"dcl" vars end`, where `vars = NAME {"," NAME} NAME [":=" expr] ["," vars]`
#[tactic(auto, unfolding(crate::specs::Declarations::dcl))]
pub fn dcl(
    alloc: Global,
    cursor: &mut Cursor<'_, '_>,
    depth: usize,
) -> Result<Vec<VariableGroup>, Fault>
    requires { depth ≤ 64 }
    ensures { Reads (λ gs. map variables_value gs.items) (spec.dcl depth cursor.old) result cursor.new }
{
    cursor.expect(Mark::Dcl)?;
    let groups = separated(alloc, cursor, Defining { depth }, variables)?;
    end(cursor)?;
    Ok(groups)
}

/// `NAME {"," NAME} NAME [":=" expr]`
#[tactic(auto, unfolding(crate::specs::Declarations::variables))]
fn variables(
    alloc: Global,
    cursor: &mut Cursor<'_, '_>,
    at: Defining,
) -> Result<VariableGroup, Fault>
    requires { at.depth ≤ 64 }
    ensures { Reads variables_value (spec.variables at.depth cursor.old) result cursor.new }
{
    let names = names(alloc, cursor)?;
    let sort = sort(alloc, cursor, At::OUTERMOST)?;
    let initial = initial(alloc, cursor, at.depth)?;
    Ok(VariableGroup {
        names,
        sort,
        initial,
    })
}

/// `[":=" expr]`
pub fn initial(
    alloc: Global,
    cursor: &mut Cursor<'_, '_>,
    depth: usize,
) -> Result<Option<Expression>, Fault>
    requires { depth ≤ 64 }
    ensures { Reads (option_map expr_value) (spec.initial depth cursor.old) result cursor.new }
{
    if !cursor.sees(Mark::Assign) {
        return Ok(None);
    }
    cursor.expect(Mark::Assign)?;
    Ok(Some(expression(alloc, cursor, depth)?))
}
