//! Prints an expression in its canonical spelling.
ghost use Rattle.std.specs.Prelude.{◌≡◌, ◌++◌, IfOk, OnOk};
ghost use Rattle.expressions.specs.Canonical.{canonical};
ghost use Rattle.expressions.specs.Spelling.{IsValidExpression, Spells};

use crate::print_at::put_at;
use crate::print_cron::put_cron;
use crate::print_rate::put_rate;
use expressions::Expr;
use std::alloc::{AllocError, Global};

/// The canonical spelling of an expression (EventBridge Scheduler User Guide, "Schedule types"): single
/// spaces, the singular unit for a count of 1 alone, numbers with no leading zero and no names, a set
/// as `*` where it is full and else as its maximal runs in ascending order.
///
/// The expression is one that some text spells, as each that `read_expr` answers. The text is read as
/// the same expression. Fails for want of memory alone.
pub fn print_expr(alloc: Global, expr: &Expr) -> Result<Vec<u8>, AllocError>
    requires { IsValidExpression expr.now }
    ensures text { IfOk result (λ text. text.items ≡ canonical expr.now) }
    ensures spells { IfOk result (λ text. Spells text.items expr.now) }
{
    let mut text = Vec::new(alloc);
    put_expr(&mut text, alloc, expr)?;
    Ok(text)
}

#[tactic(auto, unfolding(expressions::specs::Canonical::canonical))]
fn put_expr(text: &mut Vec<u8>, alloc: Global, expr: &Expr) -> Result<(), AllocError>
    ensures { OnOk result (text.new.items ≡ text.old.items ++ canonical expr.now) }
{
    match expr {
        Expr::At(civil) => put_at(text, civil),
        Expr::Rate { count, unit } => put_rate(text, alloc, *count, *unit),
        Expr::Cron(sets) => put_cron(text, alloc, sets),
    }
}
