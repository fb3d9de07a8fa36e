use crate::crowd::{eight, two};
use crate::log::{Log, write};
use std::test::Fail;
use turn_desk::Desk;

#[test]
fn two_threads_of_three_turns(rt: HostRuntime) -> Result<(), Fail> {
    let Ok((desk, seat)) = Desk::new(rt.alloc(), Log::new(rt.alloc())) else {
        panic!(rt; "no memory")
    };
    let mut seat = two(&rt, &desk, seat, 1, 3);
    let log = desk.enter(&rt, &mut seat).keep();
    assert_eq!(rt; log.names.len(), 6);
    assert_eq!(rt; log.turns_of(1), 3);
    assert_eq!(rt; log.turns_of(2), 3);
    Ok(())
}

#[test]
fn eight_threads_of_a_thousand_turns(rt: HostRuntime) -> Result<(), Fail> {
    let Ok((desk, seat)) = Desk::new(rt.alloc(), Log::new(rt.alloc())) else {
        panic!(rt; "no memory")
    };
    let mut seat = eight(&rt, &desk, seat, 0, 1000);
    let log = desk.enter(&rt, &mut seat).keep();
    assert_eq!(rt; log.names.len(), 8000);
    for name in 0..8 {
        assert_eq!(rt; log.turns_of(name), 1000);
    }
    Ok(())
}

#[test]
fn a_value_comes_back_turn_after_turn(rt: HostRuntime) -> Result<(), Fail> {
    let Ok((desk, mut seat)) = Desk::new(rt.alloc(), Log::new(rt.alloc())) else {
        panic!(rt; "no memory")
    };
    write(&rt, &desk, &mut seat, 7);
    let (mut seat, mut other) = desk.split(seat);
    write(&rt, &desk, &mut other, 9);
    write(&rt, &desk, &mut seat, 8);
    let mut seat = desk.join(other, seat);
    let log = desk.enter(&rt, &mut seat).keep();
    assert!(rt; log.names.as_slice() == [7, 9, 8].as_slice());
    Ok(())
}
