//! The content of a schedule, read from bytes.
ghost use Rattle.std.specs.Prelude.{◌≡◌, ◌≤◌, ◌↔◌, IsTrue, IfSome, codes};
ghost use Rattle.expressions.specs.Spelling.{Spells};
ghost use Rattle.plain_words.specs.Moments.{last_moment};
ghost use Rattle.sched_plain.specs.Validity.{IsContent, IsText, IfThere, character_count};

use expr_grammar::read_expr;
use sched_plain::{Expr, LAST_MOMENT, LEAST_AGE, Policy, Schedule, Text, ZoneName};
use std::alloc::Global;

/// What the tests vary of a content.
#[derive(Clone, Copy)]
pub struct Given<'a> {
    pub text: &'a [u8],
    pub start: Option<u64>,
    pub finish: Option<u64>,
    pub enabled: bool,
}

/// A content that is valid. None where the text spells nothing, and where there is no memory.
pub fn content_of(alloc: Global, given: Given) -> Option<Schedule>
    ensures { IfSome result IsContent }
{
    let expr = expr_of(given.text)?;
    let zone = utc(alloc)?;
    let description = text_of(alloc, b"", 0, 512)?;
    let text = text_of(alloc, given.text, 1, 256)?;
    let target = text_of(alloc, b"arn:aws:lambda:us-east-1:1:function:f", 1, 1600)?;
    let role = text_of(alloc, b"arn:aws:iam::1:role/r", 1, 1600)?;
    Some(Schedule {
        description,
        text,
        expr,
        zone,
        start: date_of(given.start),
        finish: date_of(given.finish),
        enabled: given.enabled,
        delete_after: false,
        window: 0,
        policy: Policy {
            retries: 0,
            age: LEAST_AGE,
        },
        target,
        role,
        queue: None,
        input: None,
    })
}

/// What a text spells.
fn expr_of(text: &[u8]) -> Option<Expr>
    ensures { IfSome result (Spells text.now) }
{
    match read_expr(text) {
        Ok(expr) => Some(expr),
        Err(_) => None,
    }
}

/// A date that is a moment: the last one where it would lie behind all.
fn date_of(date: Option<u64>) -> Option<u64>
    ensures { IfThere (λ i. i ≤ last_moment) result }
{
    match date {
        Some(date) => Some(date.min(LAST_MOMENT)),
        None => None,
    }
}

/// The zone that is built in.
fn utc(alloc: Global) -> Option<ZoneName>
    ensures { IfSome result (λ zone. zone ≡ codes "UTC") }
{
    match ZoneName::read(alloc, b"UTC") {
        Ok(zone) => Some(zone),
        Err(_) => None,
    }
}

/// A text of at least and at most so many characters.
fn text_of(alloc: Global, bytes: &[u8], least: usize, most: usize) -> Option<Text>
    ensures within { IfSome result (IsText least most) }
    ensures value { IfSome result (λ text. text ≡ bytes.now) }
{
    match Text::read(alloc, bytes) {
        Ok(text) => if is_text(text.as_str(), least, most) {
            Some(text)
        } else {
            None
        },
        Err(_) => None,
    }
}

/// Whether a text has at least and at most so many characters.
fn is_text(text: &str, least: usize, most: usize) -> bool
    ensures { IsTrue result ↔ IsText least most text.now }
{
    let count = character_count(text);
    least <= count && count <= most
}

/// How many characters a text has: its bytes but for those that continue a character.
fn character_count(text: &str) -> usize
    ensures { result ≡ character_count text.now }
{
    text.as_bytes()
        .iter()
        .filter(|byte| !(128 <= **byte && **byte < 192))
        .count()
}
