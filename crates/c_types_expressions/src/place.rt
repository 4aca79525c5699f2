// Places of expressions.

ghost use Rattle.std.specs.Prelude.{◌≡◌};
ghost use Rattle.c_syntax.specs.Views.{expr_tree};
ghost use Rattle.c_rules.specs.Expressions as rules;

use c_syntax::Expr;
use run_theory::Pos;

/// The place of an expression's first token.
pub fn place_of(expr: &Expr) -> Pos
    ensures { result ≡ rules.place_of (expr_tree expr.now) }
{
    match expr {
        Expr::Named(name) => name.place,
        Expr::Integer { place, .. }
        | Expr::Character { place, .. }
        | Expr::Literal { place, .. }
        | Expr::Null { place }
        | Expr::EndOfFile { place }
        | Expr::Parenthesized { place, .. }
        | Expr::Prefix { place, .. }
        | Expr::SizeofExpr { place, .. }
        | Expr::SizeofType { place, .. }
        | Expr::Cast { place, .. } => *place,
        Expr::Index { array, .. } => place_of(array),
        Expr::Call { function, .. } => place_of(function),
        Expr::Member { object, .. } => place_of(object),
        Expr::PointerMember { pointer, .. } => place_of(pointer),
        Expr::PostIncrement { operand } => place_of(operand),
        Expr::PostDecrement { operand } => place_of(operand),
        Expr::Binary { left, .. } => place_of(left),
        Expr::Conditional { condition, .. } => place_of(condition),
        Expr::Assign { object, .. } => place_of(object),
    }
}
