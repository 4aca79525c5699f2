// The limits of this project.

ghost use Rattle.std.specs.Prelude.{◌≡◌, ◌++◌, map, option_map, Some, None};
ghost use Rattle.c_typed.specs.Table.{Stands, type_in, ListStands, types_in, structs_in};
ghost use Rattle.c_typed.specs.Layouts.{layouts};
ghost use Rattle.c_typed.specs.DefinitionViews.{program_of, ProgramStands, function_in, FunctionsStand, TypesStand, global_in, GlobalsStand, literal_of};
ghost use Rattle.c_typed.specs.StatementViews.{local_in, LocalsStand, start_in, StartStands, stmt_in, StmtStands};
ghost use Rattle.c_typed.specs.StatementViews.{block_in, BlockStands, switch_in, SwitchStands};
ghost use Rattle.c_types_expressions.specs.Passes.{named_type, AllNamedStand};
ghost use Rattle.c_types.specs.Limits as rules;
ghost use Rattle.c_types.specs.Measures.{measured, above_in, excess_in, size_of_statics, excess_of};

use c_rules::is_before;
use c_typed::{
    BlockItem, CType, ForStart, FunctionDef, GlobalDef, LiteralDef, LocalDef, Parameters, Program,
    Shape, Stmt, SwitchItem, TypeTable,
};
use c_types_expressions::NamedType;
use run_theory::Pos;

/// A limit, as it is printed where it is exceeded.
#[derive(Clone, Copy, Debug, PartialEq, Eq)]
pub enum Limit {
    /// Functions defined: 4,096.
    L1,
    /// Parameters of one function type: 64.
    L2,
    /// Slots of one type: 1,024.
    L3,
    /// Bytes of one type: 1,048,576.
    L4,
    /// The frame of one function, its parameters and the locals of all its blocks, each rounded up to 8 bytes: 1,048,576
    /// bytes.
    L5,
    /// Variables outside functions and literals in all, each rounded up to 8 bytes: 1,073,741,824 bytes.
    L6,
}

/// A limit that is exceeded, and by what: L1 and L6 by the total, the others by the first in the text that is greater. A
/// count stands still at the greatest number of 64 bits.
#[derive(Clone, Copy, Debug, PartialEq, Eq)]
pub struct LimitErr {
    pub which: Limit,
    pub count: u64,
}

/// The first limit, in their order, that a program exceeds, which names these types.
pub fn check_limits(program: &Program, named: &[NamedType]) -> Option<LimitErr>
    requires program { ProgramStands program.now }
    requires named { AllNamedStand program.now.types named.now }
    ensures { result ≡ rules.exceeded (program_of program.now) (map (named_type program.now.types) named.now) }
{
    let types = &program.types;
    let functions = program.functions.as_slice();
    exceeds(Limit::L1, above(4_096, functions.len() as u64))
        .or(exceeds(
            Limit::L2,
            first_excess(types, Measure::Parameters, 64, named),
        ))
        .or(exceeds(Limit::L3, first_excess(types, Measure::Slots, 1_024, named)))
        .or(exceeds(
            Limit::L4,
            first_excess(types, Measure::Size, 1_048_576, named),
        ))
        .or(exceeds(Limit::L5, first_frame(types, 1_048_576, functions)))
        .or(exceeds(Limit::L6, above(1_073_741_824, static_size(program))))
}

fn exceeds(which: Limit, count: Option<u64>) -> Option<LimitErr>
    ensures { result ≡ rules.exceeds which count None }
{
    match count {
        Some(count) => Some(LimitErr { which, count }),
        None => None,
    }
}

fn above(greatest: u64, count: u64) -> Option<u64>
    ensures { result ≡ rules.above greatest count }
{
    if count > greatest { Some(count) } else { None }
}

// ---- types

/// What is measured of a type.
#[derive(Clone, Copy, Debug, PartialEq, Eq)]
enum Measure {
    Parameters,
    Slots,
    Size,
}

impl Measure {
    fn of(self, types: &TypeTable, c_type: CType) -> u64
        requires { Stands types.now c_type }
        ensures { result ≡ measured (layouts (structs_in types.now)) self (type_in types.now c_type) }
    {
        match self {
            Measure::Slots => types.slots(c_type),
            Measure::Size => types.size_of(c_type),
            Measure::Parameters => match types.shape(c_type) {
                Shape::Function { parameters, .. } => count_parameters(types, parameters),
                _ => 0,
            },
        }
    }
}

fn count_parameters(types: &TypeTable, parameters: Parameters) -> u64
    requires { ListStands types.now parameters }
    ensures { result ≡ rules.count_types (types_in types.now parameters) }
{
    let mut count = 0u64;
    let mut rest = parameters;
    while let Some((_, others)) = types.first_parameter(rest) {
        count = count.saturating_add(1);
        rest = others;
    }
    count
}

/// The first type in the text, or part of one, that is greater: the outermost first.
fn first_excess(
    types: &TypeTable,
    measure: Measure,
    greatest: u64,
    named: &[NamedType],
) -> Option<u64>
    requires { AllNamedStand types.now named.now }
    ensures { result ≡ excess_in types.now measure greatest named.now }
{
    let mut first: Option<(Pos, u64)> = None;
    for one in named {
        if let Some(count) = part_above(types, measure, greatest, one.c_type) {
            first = Some(earlier(first, one.place, count));
        }
    }
    first.map(|(_, count)| count)
}

/// The earlier of two in the text.
fn earlier(first: Option<(Pos, u64)>, place: Pos, count: u64) -> (Pos, u64)
    ensures { Some (excess_of result) ≡ rules.earlier (option_map excess_of first) (record { place = place; count = count }) }
{
    match first {
        Some((before, other)) if !is_before(place, before) => (before, other),
        _ => (place, count),
    }
}

/// The first part of a type that is greater.
#[cycle(parts)]
fn part_above(types: &TypeTable, measure: Measure, greatest: u64, c_type: CType) -> Option<u64>
    requires { Stands types.now c_type }
    ensures { result ≡ above_in types.now measure greatest (rules.parts (type_in types.now c_type)) }
{
    let mut rest = c_type;
    loop {
        let count = measure.of(types, rest);
        if count > greatest {
            return Some(count);
        }
        rest = match types.shape(rest) {
            Shape::Pointer(target) => target,
            Shape::Array { element, .. } => element,
            Shape::Function { result, parameters } => {
                return function_above(types, measure, greatest, result, parameters);
            }
            _ => return None,
        };
    }
}

/// The first part of a function's result and parameters that is greater.
#[cycle(parts)]
fn function_above(
    types: &TypeTable,
    measure: Measure,
    greatest: u64,
    returned: CType,
    parameters: Parameters,
) -> Option<u64>
    requires returned { Stands types.now returned }
    requires parameters { ListStands types.now parameters }
    ensures { result ≡ above_in types.now measure greatest (rules.parts (type_in types.now returned) ++ rules.parts_of_each (types_in types.now parameters)) }
{
    if let Some(count) = part_above(types, measure, greatest, returned) {
        return Some(count);
    }
    let mut rest = parameters;
    while let Some((first, others)) = types.first_parameter(rest) {
        if let Some(count) = part_above(types, measure, greatest, first) {
            return Some(count);
        }
        rest = others;
    }
    None
}

// ---- frames

/// The size of an object of a type, rounded up to 8 bytes.
fn rounded(types: &TypeTable, c_type: CType) -> u64
    requires { Stands types.now c_type }
    ensures { result ≡ rules.rounded (layouts (structs_in types.now)) (type_in types.now c_type) }
{
    (types.size_of(c_type) + 7) / 8 * 8
}

/// The first frame that is greater.
fn first_frame(types: &TypeTable, greatest: u64, functions: &[FunctionDef]) -> Option<u64>
    requires { FunctionsStand types.now functions.now }
    ensures { result ≡ rules.first_above greatest (rules.frames (layouts (structs_in types.now)) (map (function_in types.now) functions.now)) }
{
    for function in functions {
        let size = types_size(types, function.parameters.as_slice()).saturating_add(block_size(
            types,
            function.body.as_slice(),
        ));
        if size > greatest {
            return Some(size);
        }
    }
    None
}

fn types_size(types: &TypeTable, list: &[CType]) -> u64
    requires { TypesStand types.now list.now }
    ensures { result ≡ rules.types_size (layouts (structs_in types.now)) (map (type_in types.now) list.now) }
{
    let mut size = 0u64;
    for c_type in list {
        size = size.saturating_add(rounded(types, *c_type));
    }
    size
}

fn locals_size(types: &TypeTable, locals: &[LocalDef]) -> u64
    requires { LocalsStand types.now locals.now }
    ensures { result ≡ rules.locals_size (layouts (structs_in types.now)) (map (local_in types.now) locals.now) }
{
    let mut size = 0u64;
    for local in locals {
        size = size.saturating_add(rounded(types, local.c_type));
    }
    size
}

fn start_size(types: &TypeTable, start: &ForStart) -> u64
    requires { StartStands types.now start.now }
    ensures { result ≡ rules.start_size (layouts (structs_in types.now)) (start_in types.now start.now) }
{
    match start {
        ForStart::Locals(locals) => locals_size(types, locals.as_slice()),
        _ => 0,
    }
}

#[cycle(size)]
fn block_size(types: &TypeTable, items: &[BlockItem]) -> u64
    requires { BlockStands types.now items.now }
    ensures { result ≡ rules.block_size (layouts (structs_in types.now)) (block_in types.now items.now) }
{
    let mut size = 0u64;
    for item in items {
        size = size.saturating_add(match item {
            BlockItem::Local(local) => rounded(types, local.c_type),
            BlockItem::Statement(stmt) => stmt_size(types, stmt),
        });
    }
    size
}

#[cycle(size)]
fn switch_size(types: &TypeTable, items: &[SwitchItem]) -> u64
    requires { SwitchStands types.now items.now }
    ensures { result ≡ rules.switch_size (layouts (structs_in types.now)) (switch_in types.now items.now) }
{
    let mut size = 0u64;
    for item in items {
        if let SwitchItem::Statement(stmt) = item {
            size = size.saturating_add(stmt_size(types, stmt));
        }
    }
    size
}

#[cycle(size)]
fn stmt_size(types: &TypeTable, stmt: &Stmt) -> u64
    requires { StmtStands types.now stmt.now }
    ensures { result ≡ rules.stmt_size (layouts (structs_in types.now)) (stmt_in types.now stmt.now) }
{
    match stmt {
        Stmt::Block(items) => block_size(types, items.as_slice()),
        Stmt::If { then, .. } => stmt_size(types, then),
        Stmt::IfElse {
            then,
            otherwise,
            ..
        } => stmt_size(types, then).saturating_add(stmt_size(types, otherwise)),
        Stmt::While { body, .. } => stmt_size(types, body),
        Stmt::DoWhile { body, .. } => stmt_size(types, body),
        Stmt::For { start, body, .. } => {
            start_size(types, start).saturating_add(stmt_size(types, body))
        }
        Stmt::Switch { items, .. } => switch_size(types, items.as_slice()),
        _ => 0,
    }
}

// ---- globals and literals

/// The size of all variables outside functions and all literals.
fn static_size(program: &Program) -> u64
    requires { GlobalsStand program.now.types program.now.globals.items }
    ensures { result ≡ size_of_statics program.now }
{
    globals_size(&program.types, program.globals.as_slice()).saturating_add(literals_size(
        program.literals.as_slice(),
    ))
}

fn globals_size(types: &TypeTable, globals: &[GlobalDef]) -> u64
    requires { GlobalsStand types.now globals.now }
    ensures { result ≡ rules.globals_size (layouts (structs_in types.now)) (map (global_in types.now) globals.now) }
{
    let mut size = 0u64;
    for global in globals {
        size = size.saturating_add(rounded(types, global.c_type));
    }
    size
}

fn literals_size(literals: &[LiteralDef]) -> u64
    ensures { result ≡ rules.literals_size (map literal_of literals.now) }
{
    let mut size = 0u64;
    for literal in literals {
        let bytes = literal.bytes.as_slice().len() as u64 + 1;
        size = size.saturating_add((bytes + 7) / 8 * 8);
    }
    size
}
