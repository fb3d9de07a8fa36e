//! What is answered.
ghost use Rattle.std.specs.Prelude.{◌≡◌, ◌≤◌, IfOk, IfErr};
ghost use Rattle.expressions.specs.Spelling.{IsValidExpression};
ghost use Rattle.expr_grammar.specs.Answers.{told};
ghost use Rattle.next_command.specs.Answering.{IsListed, AnswersFound, AnswersIn, IsAnswer, IsUnanswered};
ghost use Rattle.next_command.specs.Answers.{asks, fault_text};
ghost use Rattle.next_command.specs.Finding.{HasRisen};
ghost use Rattle.next_command.specs.Lines.{line};

use crate::instant_lines::put_lines;
use crate::zone_found::{FindFault, ZoneFound, find_zone};
use expr_grammar::{ExprFault, print_expr, read_expr};
use expressions::Expr;
use plain_words::{LAST_MOMENT, Moment, ZoneName};
use std::alloc::{AllocError, Global};
use zone_occ::{Zone, ZoneFiles, occurrences, valid_is_searchable};

/// What is answered, as a text of whole lines.
#[derive(Debug, Drop)]
pub(crate) enum NextAnswer {
    /// The canonical spelling and the instants.
    Instants(Vec<u8>),
    /// Why there are none to tell.
    Refusal(Vec<u8>),
}

/// The line of a text's first fault.
fn text_of_fault(alloc: Global, fault: ExprFault) -> Result<Vec<u8>, AllocError>
    ensures { IfOk result (λ text. text.items ≡ line (fault_text (told fault))) }
{
    let mut text = Vec::new(alloc);
    text.extend_from_slice(b"expression ")?;
    text.extend_from_slice(fault.number.to_string(alloc)?.as_bytes())?;
    text.extend_from_slice(b" at ")?;
    text.extend_from_slice(fault.at.to_string(alloc)?.as_bytes())?;
    text.push(b'\n')?;
    Ok(text)
}

/// The spelling of an expression, and its first instants in a zone from a moment on, where a rate begins.
fn text_of_instants(
    alloc: Global,
    expression: &Expr,
    zone: &Zone,
    from: u64,
    count: u16,
) -> Result<Vec<u8>, AllocError>
    requires valid { IsValidExpression expression.now }
    requires some { 1 ≤ count }
    ensures { IfOk result (λ text. IsListed expression.now zone.now from count text.items) }
{
    valid_is_searchable();
    let mut text = print_expr(alloc, expression)?;
    text.push(b'\n')?;
    let first = occurrences(alloc, expression, zone, from, from, LAST_MOMENT, count)?;
    put_lines(&mut text, alloc, first.instants.as_slice())?;
    Ok(text)
}

/// A text as a line.
fn text_of_line(alloc: Global, text: &str) -> Result<Vec<u8>, AllocError>
    ensures { IfOk result (λ it. it.items ≡ line text.now) }
{
    let mut it = Vec::new(alloc);
    it.extend_from_slice(text.as_bytes())?;
    it.push(b'\n')?;
    Ok(it)
}

/// The answer where this was found of the zone.
fn answer_found(
    alloc: Global,
    expression: &Expr,
    found: &ZoneFound,
    from: u64,
    count: u16,
) -> Result<NextAnswer, AllocError>
    requires valid { IsValidExpression expression.now }
    requires some { 1 ≤ count }
    ensures { IfOk result (AnswersFound expression.now found.now from count) }
{
    match found {
        ZoneFound::Zone(zone) => Ok(NextAnswer::Instants(text_of_instants(
            alloc, expression, zone, from, count,
        )?)),
        ZoneFound::Absent => Ok(NextAnswer::Refusal(text_of_line(alloc, "zone absent")?)),
        ZoneFound::NotAZone => Ok(NextAnswer::Refusal(text_of_line(alloc, "not a zone")?)),
    }
}

/// The answer where the text spells this expression.
fn answer_of<Z: ZoneFiles>(
    alloc: Global,
    expression: &Expr,
    zone: &ZoneName,
    from: Moment,
    count: u16,
    zones: &mut Z,
) -> Result<NextAnswer, FindFault>
    requires valid { IsValidExpression expression.now }
    requires some { 1 ≤ count }
    ensures answered { IfOk result (AnswersIn (Z.told zones.old) expression.now zone.now from.0 count) }
    ensures risen { IfErr result (HasRisen (Z.faults zones.old) (Z.faults zones.new)) }
    ensures told { Z.told zones.new ≡ Z.told zones.old }
    ensures later { Z.faults zones.old ≤ Z.faults zones.new }
{
    match find_zone(alloc, zone, zones) {
        Ok(found) => match answer_found(alloc, expression, &found, from.0, count) {
            Ok(answer) => Ok(answer),
            Err(_) => Err(FindFault::OutOfMemory),
        },
        Err(fault) => Err(fault),
    }
}

/// The answer to a question.
pub(crate) fn answer<Z: ZoneFiles>(
    alloc: Global,
    expression: &[u8],
    zone: &ZoneName,
    from: Moment,
    count: u16,
    zones: &mut Z,
) -> Result<NextAnswer, FindFault>
    requires some { 1 ≤ count }
    ensures answered { IfOk result (IsAnswer (Z.told zones.old) (asks expression.now zone.now from.0 count)) }
    ensures unanswered { IfErr result (IsUnanswered expression.now) }
    ensures risen { IfErr result (HasRisen (Z.faults zones.old) (Z.faults zones.new)) }
    ensures told { Z.told zones.new ≡ Z.told zones.old }
    ensures later { Z.faults zones.old ≤ Z.faults zones.new }
{
    match read_expr(expression) {
        Ok(spelled) => answer_of(alloc, &spelled, zone, from, count, zones),
        Err(fault) => match text_of_fault(alloc, fault) {
            Ok(text) => Ok(NextAnswer::Refusal(text)),
            Err(_) => Err(FindFault::OutOfMemory),
        },
    }
}
