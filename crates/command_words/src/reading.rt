//! Reads the words of the program.
ghost use Rattle.std.specs.Prelude.{◌≡◌, map, IfOk};
ghost use Rattle.std.specs.List.{list_any};
ghost use Rattle.command_words.specs.Shapes.{AllPlain};
ghost use Rattle.command_words.specs.Commands.{command_of, drill_by, drill_of, is_flag, named, next_by, next_in, next_of, without_words, zone_named};

use crate::command::Command;
use crate::number::number_between;
use crate::shape::{takes_four, takes_none, takes_one};
use plain_words::{LAST_MOMENT, Moment, NameFault, Text, ZoneName};
use std::alloc::{AllocError, Global};

/// The most schedules of a drill.
const MOST_DRILLED: u64 = 1000;
/// The most instants that are told at once.
const MOST_INSTANTS: u64 = 1000;

/// Whether a word begins with `-`.
fn is_flag(word: &str) -> bool
    ensures { result ≡ is_flag word.now }
{
    word.as_bytes().first() == Some(&b'-')
}

fn has_flag(words: &[&str]) -> bool
    ensures { result ≡ list_any (λ word. is_flag word.now) words.now }
{
    words.iter().any(|word| is_flag(word))
}

fn alone(alloc: Global, command: Command, words: &[&str]) -> Result<Option<Command>, AllocError>
    requires { AllPlain (map (λ word. word.now) words.now) }
    ensures { IfOk result (λ found. found ≡ without_words command (map (λ word. word.now) words.now)) }
{
    if takes_none(alloc, words)? {
        Ok(Some(command))
    } else {
        Ok(None)
    }
}

fn drill_by(word: &str) -> Option<Command>
    ensures { result ≡ drill_by word.now }
{
    let schedules = number_between(word, 1, MOST_DRILLED)?;
    Some(Command::Drill { schedules })
}

fn drill(alloc: Global, words: &[&str]) -> Result<Option<Command>, AllocError>
    requires { AllPlain (map (λ word. word.now) words.now) }
    ensures { IfOk result (λ found. found ≡ drill_of (map (λ word. word.now) words.now)) }
{
    if takes_one(alloc, words)? {
        Ok(drill_by(words[0]))
    } else {
        Ok(None)
    }
}

fn text_of(alloc: Global, word: &str) -> Result<Text, AllocError>
    ensures { IfOk result (λ text. text ≡ word.now) }
{
    Ok(Text::from_string(String::from_str(alloc, word)?))
}

/// The zone's name that a word is.
fn zone_of(alloc: Global, word: &str) -> Result<Option<ZoneName>, AllocError>
    ensures { IfOk result (λ zone. zone ≡ zone_named word.now) }
{
    match ZoneName::read(alloc, word.as_bytes()) {
        Ok(zone) => Ok(Some(zone)),
        Err(NameFault::OutOfMemory) => Err(AllocError),
        Err(_) => Ok(None),
    }
}

fn next_in(
    alloc: Global,
    expression: &str,
    zone: ZoneName,
    from: &str,
    count: &str,
) -> Result<Option<Command>, AllocError>
    ensures { IfOk result (λ found. found ≡ next_in expression.now zone from.now count.now) }
{
    let Some(from) = number_between(from, 0, LAST_MOMENT) else {
        return Ok(None);
    };
    let Some(count) = number_between(count, 1, MOST_INSTANTS) else {
        return Ok(None);
    };
    Ok(Some(Command::Next {
        expression: text_of(alloc, expression)?,
        zone,
        from: Moment(from),
        count,
    }))
}

fn next_by(
    alloc: Global,
    expression: &str,
    zone: &str,
    from: &str,
    count: &str,
) -> Result<Option<Command>, AllocError>
    ensures { IfOk result (λ found. found ≡ next_by expression.now zone.now from.now count.now) }
{
    match zone_of(alloc, zone)? {
        Some(zone) => next_in(alloc, expression, zone, from, count),
        None => Ok(None),
    }
}

fn next(alloc: Global, words: &[&str]) -> Result<Option<Command>, AllocError>
    requires { AllPlain (map (λ word. word.now) words.now) }
    ensures { IfOk result (λ found. found ≡ next_of (map (λ word. word.now) words.now)) }
{
    if takes_four(alloc, words)? {
        next_by(alloc, words[0], words[1], words[2], words[3])
    } else {
        Ok(None)
    }
}

fn named(alloc: Global, name: &str, words: &[&str]) -> Result<Option<Command>, AllocError>
    requires { AllPlain (map (λ word. word.now) words.now) }
    ensures { IfOk result (λ found. found ≡ named name.now (map (λ word. word.now) words.now)) }
{
    match name {
        "init" => alone(alloc, Command::Init, words),
        "batch" => alone(alloc, Command::Batch, words),
        "report" => alone(alloc, Command::Report, words),
        "check" => alone(alloc, Command::Check, words),
        "next" => next(alloc, words),
        "drill" => drill(alloc, words),
        _ => Ok(None),
    }
}

/// The command that the words are: a command's name and exactly its words, none of which begins with `-`; none where
/// they are no command. Fails for want of memory alone.
pub fn read_command(alloc: Global, words: &[&str]) -> Result<Option<Command>, AllocError>
    ensures { IfOk result (λ found. found ≡ command_of (map (λ word. word.now) words.now)) }
{
    if has_flag(words) {
        return Ok(None);
    }
    match words.split_first() {
        Some((name, rest)) => named(alloc, name, rest),
        None => Ok(None),
    }
}
