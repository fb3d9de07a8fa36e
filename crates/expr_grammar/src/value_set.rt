//! The values of a field that an expression picks, and their runs.
ghost use Rattle.std.specs.Prelude.{◌≡◌, ℕ, ◌≤◌, ◌<◌, ◌+◌, ◌-◌};
ghost use Rattle.expressions.specs.Canonical.{all_pass, begins_run, run_end};
ghost use Rattle.expressions.specs.CronItems as cron;
ghost use Rattle.expressions.specs.Years.{first_year, upper_year};
ghost use Rattle.expr_grammar.specs.declared.value_set.ValueSet.TheVariants as sets;
ghost use Rattle.expr_grammar.specs.Items.{field_of};
ghost use Rattle.expr_grammar.specs.ValueSets.{CanHold, IsSetOf, holds};

use crate::field::{Field, greatest, least};
use expressions::{FIRST_YEAR, UPPER_YEAR};

/// The values of a cron's field that an expression picks.
#[derive(Clone, Copy)]
pub(crate) enum ValueSet {
    /// Bit v is the value v.
    Values(u64),
    /// Bit i of `low`, then of `high`, is the year 1970 + i, 1970 + 128 + i.
    Years { low: u128, high: u128 },
}

/// Whether a value is in the set.
pub(crate) fn holds(set: ValueSet, value: u16) -> bool
    requires { CanHold set value }
    ensures { result ≡ holds set value }
{
    match set {
        ValueSet::Values(bits) => (bits >> value) & 1 == 1,
        ValueSet::Years { low, high } => holds_year(low, high, value),
    }
}

fn holds_year(low: u128, high: u128, year: u16) -> bool
    requires first { first_year ≤ year }
    requires last { year < upper_year + 128 }
    ensures { result ≡ holds (sets.Years low high) year }
{
    if year < UPPER_YEAR {
        (low >> (year - FIRST_YEAR)) & 1 == 1
    } else {
        (high >> (year - UPPER_YEAR)) & 1 == 1
    }
}

/// Whether the set has each value of the field.
#[tactic(auto, using(crate::proofs::ValueSetLaws::can_hold, crate::proofs::PrintLaws::full_more, crate::proofs::PrintLaws::full_stops, crate::proofs::PrintLaws::full_end))]
pub(crate) fn is_full(field: Field, set: ValueSet) -> bool
    requires { IsSetOf (field_of field) set }
    ensures { result ≡ all_pass (holds set) (cron.least (field_of field)) (cron.greatest (field_of field) + 1 - cron.least (field_of field)) }
{
    for value in least(field)..greatest(field) + 1 {
        if !holds(set, value) {
            return false;
        }
    }
    true
}

/// Whether a maximal run of the set's values begins at a value of the field.
#[tactic(auto, using(crate::proofs::ValueSetLaws::can_hold))]
pub(crate) fn begins_run(field: Field, set: ValueSet, value: u16) -> bool
    requires set { IsSetOf (field_of field) set }
    requires low { cron.least (field_of field) ≤ value }
    requires high { value ≤ cron.greatest (field_of field) }
    ensures { result ≡ begins_run (holds set) (cron.least (field_of field)) value }
{
    holds(set, value) && (value == least(field) || !holds(set, value - 1))
}

/// The last value of the run of a value of the field that the set has.
#[tactic(auto, using(crate::proofs::ValueSetLaws::can_hold))]
pub(crate) fn run_end(field: Field, set: ValueSet, value: u16) -> u16
    requires set { IsSetOf (field_of field) set }
    requires low { cron.least (field_of field) ≤ value }
    requires high { value ≤ cron.greatest (field_of field) }
    ensures { result ≡ run_end (holds set) value (cron.greatest (field_of field) - value) }
{
    let greatest = greatest(field);
    for next in value + 1..greatest + 1 {
        if !holds(set, next) {
            return next - 1;
        }
    }
    greatest
}
