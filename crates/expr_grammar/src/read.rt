//! Reads an expression.
ghost use Rattle.std.specs.Prelude.{◌≡◌, ◌↔◌, ℕ, Some, Ok, Err, IfOk};
ghost use Rattle.expressions.specs.declared.expression.Expr.{Expr};
ghost use Rattle.expressions.specs.Spelling.{IsValidExpression, Spells};
ghost use Rattle.expressions.specs.ExpressionFaults.{fault};
ghost use Rattle.expr_grammar.specs.declared.fault.ExprFault.{ExprFault};
ghost use Rattle.expr_grammar.specs.Answers.{Answers, told};
ghost use Rattle.expr_grammar.specs.Spelled.{spelled as expression_of};
ghost use Rattle.std.specs.Result.{result_ok};

use crate::at::read_at;
use crate::cron::read_cron;
use crate::fault::ExprFault;
use crate::form::inside;
use crate::rate::read_rate;
use expressions::Expr;

/// Reads an expression (EventBridge Scheduler User Guide, "Schedule types"). The text is gone over
/// once, from left to right; it may have any bytes and any length, and no memory is taken.
///
/// Fails where the text spells no expression, with its first fault in the order of [`ExprFault`].
pub fn read_expr(text: &[u8]) -> Result<Expr, ExprFault>
    // The expression exactly where the text spells it, else exactly the first fault at its place.
    ensures spelled { (e : Expr) → (result ≡ Ok e) ↔ Spells text.now e }
    ensures faulty { (f : ExprFault) → (result ≡ Err f) ↔ (fault text.now ≡ Some (told f)) }
    // As a function of the text: the expression, or none.
    ensures whole { result_ok result ≡ expression_of text.now }
    // What is read may be printed.
    ensures valid { IfOk result IsValidExpression }
    // No text spells two expressions.
    ensures once { (a b : Expr) → Spells text.now a → Spells text.now b → a ≡ b }
{
    read_form(text)
}

/// Reads an expression by its opening.
fn read_form(text: &[u8]) -> Result<Expr, ExprFault>
    ensures { Answers result (fault text.now) (Spells text.now) }
{
    if let Some(inner) = inside(b"at(", text) {
        return read_at(inner);
    }
    if let Some(inner) = inside(b"rate(", text) {
        return read_rate(inner);
    }
    if let Some(inner) = inside(b"cron(", text) {
        return read_cron(inner);
    }
    Err(ExprFault::SHAPE)
}
