//! The fields of a cron and their values.
ghost use Rattle.std.specs.Prelude.{◌≡◌};
ghost use Rattle.expressions.specs.CronItems as cron;
ghost use Rattle.expr_grammar.specs.Items.{field_of};

use expressions::{FIRST_YEAR, LAST_YEAR};

/// The fields of a cron, in their order.
#[derive(Debug, Clone, Copy, PartialEq, Eq)]
pub(crate) enum Field {
    Minutes,
    Hours,
    DayOfMonth,
    Month,
    DayOfWeek,
    Year,
}

/// The least value of a field.
pub(crate) fn least(field: Field) -> u16
    ensures { result ≡ cron.least (field_of field) }
{
    match field {
        Field::Minutes | Field::Hours => 0,
        Field::DayOfMonth | Field::Month | Field::DayOfWeek => 1,
        Field::Year => FIRST_YEAR,
    }
}

/// The greatest value of a field.
pub(crate) fn greatest(field: Field) -> u16
    ensures { result ≡ cron.greatest (field_of field) }
{
    match field {
        Field::Minutes => 59,
        Field::Hours => 23,
        Field::DayOfMonth => 31,
        Field::Month => 12,
        Field::DayOfWeek => 7,
        Field::Year => LAST_YEAR,
    }
}

/// Whether a number is a value of the field.
pub(crate) fn is_value(field: Field, value: u16) -> bool
    ensures { result ≡ cron.is_value (field_of field) value }
{
    least(field) <= value && value <= greatest(field)
}
