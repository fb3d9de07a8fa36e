//! Reads a cron: its six words, and the sets that they give.
ghost use Rattle.std.specs.Prelude.{◌≡◌, ◌+◌, ◌^◌, ◌<◌, [], ◌∷◌, codes, length, IfSome, MatchOption};
ghost use Rattle.plain_words.specs.Lists.{first_some};
ghost use Rattle.expressions.specs.Spelling.{Spells};
ghost use Rattle.expressions.specs.ExpressionFaults.{cron_fault, days_fault, shape_fault, words_fault};
ghost use Rattle.expr_grammar.specs.Answers.{Answers, enclosed};
ghost use Rattle.expr_grammar.specs.Cron.{AllRead, EachRead, ReadAs, WordsSpell, faults_of, sets_by, words_of};
ghost use Rattle.expr_grammar.specs.Items.{field_of};
ghost use Rattle.expr_grammar.specs.WordsLeft.{left, piece_of};

use crate::cron_field::read_field;
use crate::day_rule::day_rule;
use crate::fault::ExprFault;
use crate::field::Field;
use crate::form::has_bare_ends;
use crate::items::Items;
use crate::words::{Piece, Words, next_word};
use expressions::{CronSets, DayRule, Expr};

/// How many bytes stand before what `cron(` and `)` enclose.
const OPENING: usize = 5;

/// Reads what `cron(` and `)` enclose.
#[tactic(auto, using(crate::proofs::CronLaws::cron_spelled))]
pub(crate) fn read_cron(inner: &[u8]) -> Result<Expr, ExprFault>
    requires { 5 + length inner.now < 2 ^ 64 }
    ensures { Answers result (words_fault cron_fault 5 inner.now) (Spells (enclosed (codes "cron(") inner.now)) }
{
    if !has_bare_ends(inner) {
        return Err(ExprFault::SHAPE);
    }
    match read_words(Words {
        rest: inner,
        at: OPENING,
    }) {
        Ok(sets) => Ok(Expr::Cron(sets)),
        Err(fault) => Err(fault),
    }
}

/// Reads the six words of a cron.
fn read_words(words: Words) -> Result<CronSets, ExprFault>
    requires { words.at + length words.rest.now < 2 ^ 64 }
    ensures { Answers result (cron_fault (left words.entry)) (WordsSpell (left words.entry)) }
{
    match six_fields(words) {
        None => Err(ExprFault::SHAPE),
        Some(fields) => sets_of(fields),
    }
}

/// The sets of six fields, or their first fault.
fn sets_of(fields: Fields) -> Result<CronSets, ExprFault>
    requires { EachRead fields }
    ensures { Answers result (cron_fault (words_of fields.entry)) (WordsSpell (words_of fields.entry)) }
{
    match all_items(fields) {
        Ok(all) => sets_of_items(fields, all),
        Err(fault) => Err(fault),
    }
}

/// The sets of the items of six fields, or the fault of the day fields.
fn sets_of_items(fields: Fields, all: AllItems) -> Result<CronSets, ExprFault>
    requires { AllRead fields all }
    ensures { Answers result (days_fault (piece_of fields.entry.days.word) (piece_of fields.entry.week.word)) (WordsSpell (words_of fields.entry)) }
{
    match day_rule(all.days, all.week, fields.week.word.at) {
        Ok(rule) => Ok(sets_by(all, rule)),
        Err(fault) => Err(fault),
    }
}

fn sets_by(all: AllItems, days: DayRule) -> CronSets
    requires minutes { all.minutes.low < 2 ^ 64 }
    requires hours { all.hours.low < 2 ^ 32 }
    requires months { all.months.low < 2 ^ 16 }
    ensures { result ≡ sets_by all days }
{
    CronSets {
        minutes: all.minutes.low as u64,
        hours: all.hours.low as u32,
        days,
        months: all.months.low as u16,
        years_low: all.years.low,
        years_high: all.years.high,
    }
}

/// A field of a cron with what is read of it.
#[derive(Clone, Copy)]
pub(crate) struct FieldRead<'a> {
    pub(crate) word: Piece<'a>,
    pub(crate) items: Result<Items, ExprFault>,
}

/// The six fields of a cron, each read.
#[derive(Clone, Copy)]
pub(crate) struct Fields<'a> {
    pub(crate) minutes: FieldRead<'a>,
    pub(crate) hours: FieldRead<'a>,
    pub(crate) days: FieldRead<'a>,
    pub(crate) months: FieldRead<'a>,
    pub(crate) week: FieldRead<'a>,
    pub(crate) years: FieldRead<'a>,
}

/// What is kept of the items of the six fields.
#[derive(Clone, Copy)]
pub(crate) struct AllItems {
    pub(crate) minutes: Items,
    pub(crate) hours: Items,
    pub(crate) days: Items,
    pub(crate) months: Items,
    pub(crate) week: Items,
    pub(crate) years: Items,
}

/// The items of all fields, or the fault of the first field that has one.
fn all_items(fields: Fields) -> Result<AllItems, ExprFault>
    requires { EachRead fields }
    ensures { Answers result (first_some (faults_of fields.entry)) (AllRead fields.entry) }
{
    let minutes = fields.minutes.items?;
    let hours = fields.hours.items?;
    let days = fields.days.items?;
    let months = fields.months.items?;
    let week = fields.week.items?;
    let years = fields.years.items?;
    Ok(AllItems {
        minutes,
        hours,
        days,
        months,
        week,
        years,
    })
}

/// Reads the fields as the words come. Whether there are six is known only behind the last, and
/// counts before what is wrong in one of them.
fn six_fields<'a>(words: Words<'a>) -> Option<Fields<'a>>
    requires { words.at + length words.rest.now < 2 ^ 64 }
    ensures words { MatchOption result (cron_fault (left words.entry) ≡ shape_fault) (λ fields. left words.entry ≡ words_of fields) }
    ensures read { IfSome result EachRead }
{
    let (minutes, words) = next_field(Field::Minutes, words)?;
    let (hours, words) = next_field(Field::Hours, words)?;
    let (days, words) = next_field(Field::DayOfMonth, words)?;
    let (months, words) = next_field(Field::Month, words)?;
    let (week, words) = next_field(Field::DayOfWeek, words)?;
    let (years, words) = next_field(Field::Year, words)?;
    match next_word(words) {
        Some(_) => None,
        None => Some(Fields {
            minutes,
            hours,
            days,
            months,
            week,
            years,
        }),
    }
}

/// Takes the next word and reads it as this field.
fn next_field<'a>(field: Field, words: Words<'a>) -> Option<(FieldRead<'a>, Words<'a>)>
    requires { words.at + length words.rest.now < 2 ^ 64 }
    ensures words { MatchOption result (left words.entry ≡ []) (λ next. left words.entry ≡ piece_of next.0.word ∷ left next.1) }
    ensures room { IfSome result (λ next. next.1.at + length next.1.rest.now < 2 ^ 64) }
    ensures read { IfSome result (λ next. ReadAs (field_of field) next.0) }
{
    match next_word(words) {
        None => None,
        Some((word, words)) => {
            let items = read_field(field, word);
            Some((FieldRead { word, items }, words))
        }
    }
}
