use drill_plan::{schedule_of, status, sweep_moment, window_word};
use expr_grammar::read_expr;
use plain_words::{Moment, Name};
use std::test::Fail;

#[test]
fn the_four_kinds_in_turn(rt: HostRuntime) -> Result<(), Fail> {
    let alloc = rt.alloc();
    let first = schedule_of(alloc, 0)?;
    assert_eq!(rt; first.name.as_str(), "s00000");
    assert_eq!(rt; first.expression.as_str(), "rate(1 minutes)");
    assert_eq!(rt; first.window, 0);
    let second = schedule_of(alloc, 41)?;
    assert_eq!(rt; second.name.as_str(), "s00041");
    assert_eq!(rt; second.expression.as_str(), "cron(0/15 * * * ? *)");
    assert_eq!(rt; second.window, 0);
    let third = schedule_of(alloc, 998)?;
    assert_eq!(rt; third.name.as_str(), "s00998");
    assert_eq!(rt; third.expression.as_str(), "at(1970-01-01T08:00:00)");
    assert_eq!(rt; third.window, 0);
    let fourth = schedule_of(alloc, 999)?;
    assert_eq!(rt; fourth.name.as_str(), "s00999");
    assert_eq!(rt; fourth.expression.as_str(), "rate(1 hours)");
    assert_eq!(rt; fourth.window, 10);
    assert_eq!(rt;
        schedule_of(alloc, 20)?.expression.as_str(),
        "rate(7 minutes)"
    );
    Ok(())
}

#[test]
fn each_schedule_can_be_created(rt: HostRuntime) -> Result<(), Fail> {
    let alloc = rt.alloc();
    for number in 0..1000 {
        let schedule = schedule_of(alloc, number)?;
        assert!(rt; read_expr(schedule.expression.as_bytes()).is_ok());
        assert!(rt; Name::read(alloc, schedule.name.as_bytes()).is_ok());
    }
    Ok(())
}

#[test]
fn a_fifth_of_the_attempts_is_to_be_repeated(rt: HostRuntime) -> Result<(), Fail> {
    assert_eq!(rt; status(1, 0, 1), 200);
    assert_eq!(rt; status(1, 180, 1), 503);
    assert_eq!(rt; status(1, 239, 1), 503);
    assert_eq!(rt; status(1, 240, 1), 200);
    assert_eq!(rt; status(2, 120, 1), 503);
    assert_eq!(rt; status(2, 120, 2), 200);
    Ok(())
}

#[test]
fn moments_and_words(rt: HostRuntime) -> Result<(), Fail> {
    assert!(rt; sweep_moment(1) == Moment(60));
    assert!(rt; sweep_moment(1000) == Moment(60000));
    assert_eq!(rt; window_word(1), 37);
    assert_eq!(rt; window_word(1000), 37000);
    Ok(())
}
