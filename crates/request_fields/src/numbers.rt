//! The members of a JSON object that are whole numbers, without fraction and exponent.
ghost use Rattle.std.specs.Prelude.{◌≡◌, ◌≤◌, IfSome};
ghost use Rattle.serde_json.specs.View.{view};
ghost use Rattle.plain_words.specs.declared.limits.TheConstants.{LONGEST_WINDOW, MOST_RETRIES, LEAST_AGE, LONGEST_AGE};
ghost use Rattle.request_fields.specs.Rows as row;

use crate::members::given;
use sched_plain::{LEAST_AGE, LONGEST_AGE, LONGEST_WINDOW, MOST_RETRIES};
use serde_json::Value;

/// A whole number from one to another.
fn whole(value: &Value, least: u64, most: u64) -> Option<u64>
    ensures value { result ≡ row.whole least most (view value.now) }
    ensures within { IfSome result (λ number. number ≤ most) }
{
    match value.as_u64() {
        Some(number) if least <= number && number <= most => Some(number),
        _ => None,
    }
}

/// A whole number from one to another.
pub(crate) fn whole_at(object: &Value, name: &str, least: u64, most: u64) -> Option<Option<u64>>
    ensures value { result ≡ row.member_by (row.whole least most) name.now (view object.now) }
    ensures within { IfSome result (λ found. IfSome found (λ number. number ≤ most)) }
{
    match given(object, name) {
        Some(value) => Some(whole(value, least, most)),
        None => None,
    }
}

/// The minutes of a flexible window.
pub(crate) fn minutes_at(object: &Value, name: &str) -> Option<Option<u16>>
    ensures { result ≡ row.member_by (row.whole 1 LONGEST_WINDOW) name.now (view object.now) }
{
    match whole_at(object, name, 1, LONGEST_WINDOW as u64) {
        Some(Some(minutes)) => Some(Some(minutes as u16)),
        Some(None) => Some(None),
        None => None,
    }
}

/// How often an occurrence is tried again.
pub(crate) fn retries_at(object: &Value, name: &str) -> Option<Option<u8>>
    ensures { result ≡ row.member_by (row.whole 0 MOST_RETRIES) name.now (view object.now) }
{
    match whole_at(object, name, 0, MOST_RETRIES as u64) {
        Some(Some(retries)) => Some(Some(retries as u8)),
        Some(None) => Some(None),
        None => None,
    }
}

/// The seconds after which an occurrence is given up.
pub(crate) fn age_at(object: &Value, name: &str) -> Option<Option<u32>>
    ensures { result ≡ row.member_by (row.whole LEAST_AGE LONGEST_AGE) name.now (view object.now) }
{
    match whole_at(object, name, LEAST_AGE as u64, LONGEST_AGE as u64) {
        Some(Some(age)) => Some(Some(age as u32)),
        Some(None) => Some(None),
        None => None,
    }
}
