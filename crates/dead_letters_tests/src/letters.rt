use dead_letters::DeadLetters;
use sched_plain::{Letter, Outcome, Text};
use std::alloc::{AllocError, Global};
use std::test::Fail;

fn text_of(alloc: Global, text: &str) -> Result<Text, AllocError> {
    Ok(Text::from_string(String::from_str(alloc, text)?))
}

fn letter_at(instant: u64) -> Letter {
    Letter {
        inc: 1,
        instant,
        reason: Outcome::Attempts,
    }
}

/// Adds a letter behind all others of its queue.
fn post(letters: &mut DeadLetters, queue: &Text, instant: u64) -> Result<(), AllocError> {
    letters.reserve(queue, 1)?;
    letters.add(queue, letter_at(instant));
    Ok(())
}

#[test]
fn keeps_two_queues_apart(rt: HostRuntime) -> Result<(), Fail> {
    let alloc = rt.alloc();
    let dead = text_of(alloc, "arn:aws:sqs:local:000000000000:dead")?;
    let lost = text_of(alloc, "arn:aws:sqs:local:000000000000:lost")?;
    let none = text_of(alloc, "arn:aws:sqs:local:000000000000:none")?;
    let mut letters = DeadLetters::new(alloc);
    post(&mut letters, &lost, 10)?;
    post(&mut letters, &dead, 20)?;
    post(&mut letters, &lost, 30)?;
    post(&mut letters, &dead, 5)?;
    let page = letters.letters(&lost, 0, 100)?;
    assert_eq!(rt; page.as_slice(), [letter_at(10), letter_at(30)].as_slice());
    let page = letters.letters(&dead, 0, 100)?;
    assert_eq!(rt; page.as_slice(), [letter_at(20), letter_at(5)].as_slice());
    assert!(rt; letters.letters(&none, 0, 100)?.is_empty());
    Ok(())
}

#[test]
fn shows_a_page_from_any_letter_on(rt: HostRuntime) -> Result<(), Fail> {
    let alloc = rt.alloc();
    let dead = text_of(alloc, "dead")?;
    let mut letters = DeadLetters::new(alloc);
    for instant in 0..120 {
        post(&mut letters, &dead, instant)?;
    }
    let page = letters.letters(&dead, 0, 1)?;
    assert_eq!(rt; page.as_slice(), [letter_at(0)].as_slice());
    let page = letters.letters(&dead, 117, 100)?;
    assert_eq!(rt;
        page.as_slice(),
        [letter_at(117), letter_at(118), letter_at(119)].as_slice()
    );
    let page = letters.letters(&dead, 20, 100)?;
    assert_eq!(rt; page.len(), 100);
    assert!(rt; letters.letters(&dead, 120, 100)?.is_empty());
    assert!(rt; letters.letters(&dead, u64::MAX, 1)?.is_empty());
    Ok(())
}

#[test]
fn room_for_several_letters_is_made_at_once(rt: HostRuntime) -> Result<(), Fail> {
    let alloc = rt.alloc();
    let dead = text_of(alloc, "dead")?;
    let mut letters = DeadLetters::new(alloc);
    letters.reserve(&dead, 2)?;
    letters.add(&dead, letter_at(1));
    letters.add(&dead, letter_at(1));
    let page = letters.letters(&dead, 0, 100)?;
    assert_eq!(rt; page.as_slice(), [letter_at(1), letter_at(1)].as_slice());
    Ok(())
}

#[test]
fn counts_the_letters_of_all_queues(rt: HostRuntime) -> Result<(), Fail> {
    let alloc = rt.alloc();
    let dead = text_of(alloc, "dead")?;
    let lost = text_of(alloc, "lost")?;
    let mut letters = DeadLetters::new(alloc);
    assert_eq!(rt; letters.count(), 0);
    letters.reserve(&lost, 7)?;
    assert_eq!(rt; letters.count(), 0);
    post(&mut letters, &dead, 20)?;
    post(&mut letters, &lost, 10)?;
    post(&mut letters, &dead, 20)?;
    assert_eq!(rt; letters.count(), 3);
    Ok(())
}
