use policy_rules::{Clock, ListClock, ListPicker, PcgPicker, Picker};
use sched_plain::TryCopy;
use std::process::Abort;
use std::test::Fail;

/// Asserts the next words of a picker.
fn expect_words<P: Picker>(rt: &impl Abort, picker: &mut P, wanted: &[u64]) {
    for word in wanted {
        assert_eq!(rt; picker.word(), *word);
    }
}

/// Asserts the next readings of a clock.
fn expect_readings<C: Clock>(rt: &impl Abort, clock: &mut C, wanted: &[u64]) {
    for reading in wanted {
        assert_eq!(rt; clock.moment(), *reading);
    }
}

#[test]
fn words_of_a_list(rt: HostRuntime) -> Result<(), Fail> {
    let mut picker = ListPicker::new(vec![in rt.alloc(); 901, 7]?);
    expect_words(&rt, &mut picker, &[901]);
    let mut copy = picker.copy()?;
    expect_words(&rt, &mut picker, &[7, 0, 0]);
    assert_eq!(rt; picker.given(), 4);
    expect_words(&rt, &mut copy, &[7, 0]);
    assert_eq!(rt; copy.given(), 3);
    Ok(())
}

#[test]
fn readings_of_a_list(rt: HostRuntime) -> Result<(), Fail> {
    let mut clock = ListClock::new(vec![in rt.alloc(); 100, 60]?);
    expect_readings(&rt, &mut clock, &[100]);
    let mut copy = clock.copy()?;
    expect_readings(&rt, &mut clock, &[60, 60, 60]);
    assert_eq!(rt; clock.given(), 4);
    expect_readings(&rt, &mut copy, &[60, 60]);
    assert_eq!(rt; copy.given(), 3);
    let mut silent = ListClock::new(Vec::new(rt.alloc()));
    expect_readings(&rt, &mut silent, &[0, 0]);
    Ok(())
}

/// The words of Rust's `rand_pcg`, by a program of its own: the first of seed 0 stands in that crate's tests.
#[test]
fn words_of_a_seed(rt: HostRuntime) {
    let first = [
        2_354_861_276_966_075_475,
        6_411_218_084_291_373_563,
        13_092_586_260_176_364_081,
    ];
    expect_words(&rt, &mut PcgPicker::new(0), &first);
    let second = [
        17_842_509_543_156_554_284,
        2_977_952_250_180_009_255,
        7_355_330_146_482_342_628,
    ];
    expect_words(&rt, &mut PcgPicker::new(1_767_225_600), &second);
}
