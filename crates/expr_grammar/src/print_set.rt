//! Prints the values of a cron's field as their maximal runs.
ghost use Rattle.std.specs.Prelude.{◌≡◌, ℕ, ◌≤◌, List, ◌++◌, codes, if◌then◌else◌, IfOk, OnOk};
ghost use Rattle.expressions.specs.Canonical.{run_text, set_text};
ghost use Rattle.expressions.specs.CronItems as cron;
ghost use Rattle.expr_grammar.specs.Items.{field_of};
ghost use Rattle.expr_grammar.specs.ValueSets.{AreRunsOf, IsPrinted, IsSetOf, holds, run_at};

use crate::field::{Field, greatest, least};
use crate::print_number::put_number;
use crate::value_set::{ValueSet, begins_run, is_full, run_end};
use std::alloc::{AllocError, Global};

/// Appends the values of a field: `*` where it has them all, and else its maximal runs.
#[tactic(auto, unfolding(expressions::specs::Canonical::set_text))]
pub(crate) fn put_set(
    text: &mut Vec<u8>,
    alloc: Global,
    field: Field,
    set: ValueSet,
) -> Result<(), AllocError>
    requires { IsSetOf (field_of field) set }
    ensures { OnOk result (text.new.items ≡ text.old.items ++ set_text (field_of field) (holds set)) }
{
    if is_full(field, set) {
        text.push(b'*')?;
        return Ok(());
    }
    put_runs(text, alloc, field, set)?;
    Ok(())
}

/// Appends the maximal runs of a set, in ascending order with a comma between each two.
fn put_runs(
    text: &mut Vec<u8>,
    alloc: Global,
    field: Field,
    set: ValueSet,
) -> Result<(), AllocError>
    requires { IsSetOf (field_of field) set }
    ensures { OnOk result (AreRunsOf (field_of field) (holds set) text.old.items text.new.items) }
{
    let mut is_first = true;
    for value in least(field)..greatest(field) + 1 {
        is_first = put_run_at(text, alloc, field, set, value, is_first)?;
    }
    Ok(())
}

/// Appends the run that begins at a value, if one does. Answers whether none is printed so far.
fn put_run_at(
    text: &mut Vec<u8>,
    alloc: Global,
    field: Field,
    set: ValueSet,
    value: u16,
    is_first: bool,
) -> Result<bool, AllocError>
    requires set { IsSetOf (field_of field) set }
    requires low { cron.least (field_of field) ≤ value }
    requires high { value ≤ cron.greatest (field_of field) }
    ensures { IfOk result (λ first. (before : List ℕ) (done : List (ℕ × ℕ)) → IsPrinted before text.old.items is_first done →
        IsPrinted before text.new.items first (done ++ run_at (field_of field) (holds set) value)) }
{
    if !begins_run(field, set, value) {
        return Ok(is_first);
    }
    put_comma_unless(text, is_first)?;
    put_run(text, alloc, value, run_end(field, set, value))?;
    Ok(false)
}

fn put_comma_unless(text: &mut Vec<u8>, is_first: bool) -> Result<(), AllocError>
    ensures { OnOk result (text.new.items ≡ text.old.items ++ (if is_first then codes "" else codes ",")) }
{
    if !is_first {
        text.push(b',')?;
    }
    Ok(())
}

/// Appends a run: its value, or its first and last value.
fn put_run(text: &mut Vec<u8>, alloc: Global, first: u16, last: u16) -> Result<(), AllocError>
    ensures { OnOk result (text.new.items ≡ text.old.items ++ run_text (first, last)) }
{
    if first == last {
        put_number(text, alloc, first as u32)?;
        return Ok(());
    }
    put_number(text, alloc, first as u32)?;
    text.push(b'-')?;
    put_number(text, alloc, last as u32)?;
    Ok(())
}
