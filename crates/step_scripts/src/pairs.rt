//! The pairs of an Enter, in words.

use crate::words::{Words, cut, number};
use plain_words::{LAST_MOMENT, LONGEST_WINDOW, MOST_PAIRS};
use policy_rules::chosen;
use sched_plain::{Pair, Pairs};
use std::alloc::{AllocError, Global};

/// The most words of pairs in a line.
const MOST_WORDS: usize = 1024;

/// Adds so many pairs, so many seconds apart, each chosen at its instant.
fn push_run(pairs: &mut Pairs, from: u64, period: u64, count: u64) -> Result<(), AllocError> {
    for k in 0..count.min(MOST_PAIRS as u64 + 1) {
        let instant = from.saturating_add(period.saturating_mul(k));
        pairs.push(Pair {
            instant,
            chosen: instant,
        })?;
    }
    Ok(())
}

/// Adds what a word says: `INSTANT`, `INSTANT:CHOSEN`, or `FROM+PERIODxCOUNT`. Whether it says one.
fn push_word(pairs: &mut Pairs, word: &str) -> Result<Option<()>, AllocError> {
    let (from, run) = cut(word, "+");
    if !run.is_empty() {
        return push_run_of(pairs, from, run);
    }
    let (instant, chosen) = cut(word, ":");
    let Some(instant) = number(instant) else {
        return Ok(None);
    };
    let chosen = number(chosen).unwrap_or(instant);
    pairs.push(Pair { instant, chosen })?;
    Ok(Some(()))
}

fn push_run_of(pairs: &mut Pairs, from: &str, run: &str) -> Result<Option<()>, AllocError> {
    let (period, count) = cut(run, "x");
    match (number(from), number(period), number(count)) {
        (Some(from), Some(period), Some(count)) => {
            push_run(pairs, from, period, count)?;
            Ok(Some(()))
        }
        _ => Ok(None),
    }
}

/// The pairs that the words left say. None where one says none.
pub(crate) fn pairs_of(alloc: Global, words: &mut Words) -> Result<Option<Pairs>, AllocError> {
    let mut pairs = Pairs::new(alloc);
    for _ in 0..MOST_WORDS {
        let word = words.next();
        if word.is_empty() {
            return Ok(Some(pairs));
        }
        if push_word(&mut pairs, word)?.is_none() {
            return Ok(None);
        }
    }
    Ok(None)
}

/// The pairs of these instants, each chosen by a word within a window of so many minutes.
pub(crate) fn chosen_pairs(
    alloc: Global,
    instants: &[u64],
    window: u16,
    word: u64,
) -> Result<Pairs, AllocError> {
    let mut pairs = Pairs::new(alloc);
    for instant in instants {
        pairs.push(Pair {
            instant: *instant,
            chosen: chosen_at(*instant, window, word),
        })?;
    }
    Ok(pairs)
}

/// The moment that a word chooses for an instant.
fn chosen_at(instant: u64, window: u16, word: u64) -> u64 {
    if instant > LAST_MOMENT || window > LONGEST_WINDOW {
        return instant;
    }
    chosen(instant, window, word)
}
