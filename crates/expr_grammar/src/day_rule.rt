//! The day rule of the two day fields of a cron.
ghost use Rattle.std.specs.Prelude.{◌≡◌};
ghost use Rattle.expr_grammar.specs.Items.{HasSmallRule};
ghost use Rattle.expr_grammar.specs.Answers.{Answers};
ghost use Rattle.expr_grammar.specs.Cron.{first_of, month_rule_by, opens_no_rule, rule_by, rules_fault, week_rule_by};

use crate::fault::ExprFault;
use crate::item::Item;
use crate::items::Items;
use expressions::DayRule;

/// The rule of two day fields, of which exactly one gives no rule.
pub(crate) fn day_rule(days: Items, week: Items, week_at: usize) -> Result<DayRule, ExprFault>
    requires days { HasSmallRule 32 days }
    requires week { HasSmallRule 8 week }
    ensures { Answers result (rules_fault (opens_no_rule (first_of days)) (opens_no_rule (first_of week)) week_at)
        (λ rule. rule ≡ rule_by days week) }
{
    let no_day = gives_no_rule(days);
    let no_week = gives_no_rule(week);
    if !no_day && !no_week {
        return Err(ExprFault::both_days(week_at));
    }
    if no_day && no_week {
        return Err(ExprFault::no_days(week_at));
    }
    if no_week {
        Ok(month_rule(days))
    } else {
        Ok(week_rule(week))
    }
}

fn gives_no_rule(items: Items) -> bool
    ensures { result ≡ opens_no_rule (first_of items) }
{
    match items.first {
        Some(Item::NoRule) => true,
        _ => false,
    }
}

fn month_rule(items: Items) -> DayRule
    requires { HasSmallRule 32 items }
    ensures { result ≡ month_rule_by (first_of items) items.low }
{
    match items.first {
        Some(Item::LastDay) => DayRule::LastDay,
        Some(Item::NearWeekday(day)) => DayRule::NearWeekday(day as u8),
        _ => DayRule::OfMonth(items.low as u32),
    }
}

fn week_rule(items: Items) -> DayRule
    requires { HasSmallRule 8 items }
    ensures { result ≡ week_rule_by (first_of items) items.low }
{
    match items.first {
        Some(Item::LastOf(day)) => DayRule::LastOf(day as u8),
        Some(Item::Nth(day, nth)) => DayRule::Nth {
            day: day as u8,
            nth: nth as u8,
        },
        _ => DayRule::OfWeek(items.low as u8),
    }
}
