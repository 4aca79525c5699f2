// Constants, literals, and expressions in parentheses (C17 6.5.1).

ghost use Rattle.std.specs.Prelude.{◌≡◌, IfOk, Some};
ghost use Rattle.c_syntax.specs.Trees as Trees;
ghost use Rattle.c_typed.specs.Table.{Interned};
ghost use Rattle.c_rules.specs.Known as known;
ghost use Rattle.c_rules.specs.Expressions as rules;
ghost use Rattle.c_types_state.specs.Finding.{Finds, IsExpr, ExprStands, expr_in, AllStand, each_in, TypedStands, typed_in};
ghost use Rattle.c_types_state.specs.NameTables.{scope_of};
ghost use Rattle.c_types_expressions.specs.Forms.{grouped_known, null_known};

use c_num::IntType;
use c_rules::Constness;
use c_typed::{ByteString, CType, Designator, Object, Static, Value};
use c_types_state::{Address, Checker, Known, Operand, TypedExpr, read_place};
use run_theory::Pos;
use std::alloc::{AllocError, Global};

/// A constant of an integer type, with a value of it (C17 6.4.4).
pub(crate) fn constant(alloc: Global, int_type: IntType, number: i128) -> Result<Known, AllocError>
    ensures { IfOk result (λ made. (table : Interned) → IsExpr table made (rules.integer_constant int_type number)) }
{
    let constness = Constness::Constant(number);
    let constant = Value::Constant {
        int_type,
        value: number,
    };
    Ok(Operand::integer(int_type, constness, Box::new(alloc, constant)?).into_known())
}

/// A literal: an array of its bytes and a zero (C17 6.4.5 paragraph 6).
pub(crate) fn literal(checker: &mut Checker, bytes: &[u8], place: Pos) -> Result<Known, AllocError>
    ensures { IfOk result (λ made. Finds IsExpr (rules.expr (scope_of checker.old) (Trees.Literal bytes.now place)) checker.old checker.new (Some made)) }
{
    let alloc = checker.alloc();
    let length = bytes.len() as u64 + 1;
    let c_type = checker.array_of(CType::integer(IntType::Char), length)?;
    let object = Object::Literal {
        place,
        bytes: ByteString::from_slice(alloc, bytes)?,
        c_type,
    };
    Ok(Known {
        c_type,
        typed: TypedExpr::Object(Box::new(alloc, object)?),
        constness: Constness::NotConstant,
        is_null: false,
        address: Address::Element {
            root: Static::Literal(place),
            parts: Vec::new(alloc),
            c_type,
            count: 1,
            index: 0,
        },
    })
}

/// `NULL` (C17 7.19)
pub(crate) fn null(checker: &mut Checker) -> Result<Known, AllocError>
    ensures { IfOk result (λ made. Finds IsExpr (known.give null_known) checker.old checker.new (Some made)) }
{
    let alloc = checker.alloc();
    Ok(Known {
        c_type: checker.pointer_to(CType::VOID)?,
        typed: TypedExpr::Value(Box::new(alloc, Value::NullPointer)?),
        constness: Constness::NotConstant,
        is_null: true,
        address: Address::Null,
    })
}

/// The same in parentheses; its own first token stands there.
pub(crate) fn grouped(
    alloc: Global,
    place: Pos,
    part: Option<Known>,
) -> Result<Option<Known>, AllocError>
    ensures stands { IfOk result (λ made. (table : Interned) → AllStand ExprStands table part → AllStand ExprStands table made) }
    ensures grouped { IfOk result (λ made. (table : Interned) → each_in expr_in table made ≡ grouped_known place (each_in expr_in table part)) }
{
    let Some(known) = part else {
        return Ok(None);
    };
    let Known {
        c_type,
        typed,
        constness,
        is_null,
        address,
    } = known;
    Ok(Some(Known {
        c_type,
        typed: grouped_typed(alloc, place, typed)?,
        constness,
        is_null,
        address,
    }))
}

/// A typed tree in parentheses.
fn grouped_typed(alloc: Global, place: Pos, typed: TypedExpr) -> Result<TypedExpr, AllocError>
    ensures stands { IfOk result (λ made. (table : Interned) → TypedStands table typed → TypedStands table made) }
    ensures grouped { IfOk result (λ made. (table : Interned) → typed_in table made ≡ known.grouped place (typed_in table typed)) }
{
    match typed {
        TypedExpr::Value(value) => Ok(TypedExpr::Value(Box::new(alloc, Value::Grouped(value))?)),
        TypedExpr::Object(inner) => {
            let place = read_place(place, &inner);
            Ok(TypedExpr::Object(Box::new(alloc, Object::Grouped { place, inner })?))
        }
        TypedExpr::Function(function) => {
            let function = Box::new(alloc, Designator::Grouped(function))?;
            Ok(TypedExpr::Function(function))
        }
        TypedExpr::Library { function, groups } => {
            let groups = groups.checked_add(1).ok_or(AllocError)?;
            Ok(TypedExpr::Library { function, groups })
        }
    }
}
