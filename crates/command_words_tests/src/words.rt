use command_words::{Command, read_command};
use plain_words::Moment;
use std::alloc::{AllocError, Global};
use std::test::Fail;

/// Whether the words are no command.
fn are_none(alloc: Global, words: &[&str]) -> Result<bool, AllocError> {
    match read_command(alloc, words)? {
        None => Ok(true),
        Some(_) => Ok(false),
    }
}

/// The number of schedules of a drill, 0 where the words ask for none.
fn drilled(alloc: Global, words: &[&str]) -> Result<u64, AllocError> {
    match read_command(alloc, words)? {
        Some(Command::Drill { schedules }) => Ok(schedules),
        _ => Ok(0),
    }
}

#[test]
fn commands_without_words(rt: HostRuntime) -> Result<(), Fail> {
    let alloc = rt.alloc();
    assert!(rt; matches!(read_command(alloc, &["init"])?, Some(Command::Init)));
    assert!(rt; matches!(read_command(alloc, &["batch"])?, Some(Command::Batch)));
    assert!(rt; matches!(read_command(alloc, &["report"])?, Some(Command::Report)));
    assert!(rt; matches!(read_command(alloc, &["check"])?, Some(Command::Check)));
    assert!(rt; are_none(alloc, &["report", "x"])?);
    assert!(rt; are_none(alloc, &["init", ""])?);
    Ok(())
}

#[test]
fn words_that_are_no_command(rt: HostRuntime) -> Result<(), Fail> {
    let alloc = rt.alloc();
    assert!(rt; are_none(alloc, &[])?);
    assert!(rt; are_none(alloc, &[""])?);
    assert!(rt; are_none(alloc, &["--help"])?);
    assert!(rt; are_none(alloc, &["init", "--help"])?);
    assert!(rt; are_none(alloc, &["report", "-"])?);
    assert!(rt; are_none(alloc, &["--", "init"])?);
    assert!(rt; are_none(alloc, &["Init"])?);
    assert!(rt; are_none(alloc, &["serve"])?);
    assert!(rt; are_none(alloc, &["help"])?);
    Ok(())
}

#[test]
fn sizes_of_a_drill(rt: HostRuntime) -> Result<(), Fail> {
    let alloc = rt.alloc();
    assert_eq!(rt; drilled(alloc, &["drill", "1"])?, 1);
    assert_eq!(rt; drilled(alloc, &["drill", "40"])?, 40);
    assert_eq!(rt; drilled(alloc, &["drill", "1000"])?, 1000);
    assert!(rt; are_none(alloc, &["drill"])?);
    assert!(rt; are_none(alloc, &["drill", "0"])?);
    assert!(rt; are_none(alloc, &["drill", "01"])?);
    assert!(rt; are_none(alloc, &["drill", "+1"])?);
    assert!(rt; are_none(alloc, &["drill", "-1"])?);
    assert!(rt; are_none(alloc, &["drill", ""])?);
    assert!(rt; are_none(alloc, &["drill", "1001"])?);
    assert!(rt; are_none(alloc, &["drill", "18446744073709551617"])?);
    assert!(rt; are_none(alloc, &["drill", "1 "])?);
    assert!(rt; are_none(alloc, &["drill", "1", "2"])?);
    Ok(())
}

#[test]
fn instants_of_an_expression(rt: HostRuntime) -> Result<(), Fail> {
    let alloc = rt.alloc();
    let words = [
        "next",
        "rate(1 hour)",
        "America/New_York",
        "7258118399",
        "1000",
    ];
    let Some(
        Command::Next {
            expression,
            zone,
            from,
            count,
        },
    ) = read_command(alloc, &words)?
    else {
        panic!(rt; "no command");
    };
    assert_eq!(rt; expression.as_str(), "rate(1 hour)");
    assert_eq!(rt; zone.as_str(), "America/New_York");
    assert!(rt; from == Moment(7258118399));
    assert_eq!(rt; count, 1000);
    Ok(())
}

#[test]
fn the_expression_may_be_any_word(rt: HostRuntime) -> Result<(), Fail> {
    let alloc = rt.alloc();
    assert!(rt; !are_none(alloc, &["next", "", "UTC", "0", "1"])?);
    assert!(rt; !are_none(alloc, &["next", "cron(", "UTC", "0", "1"])?);
    assert!(rt; are_none(alloc, &["next", "rate(1 hour)", "UTC", "0", "0"])?);
    assert!(rt; are_none(alloc, &["next", "rate(1 hour)", "UTC", "0", "1001"])?);
    assert!(rt; are_none(alloc, &["next", "rate(1 hour)", "UTC", "7258118400", "1"])?);
    assert!(rt; are_none(alloc, &["next", "rate(1 hour)", "/UTC", "0", "1"])?);
    assert!(rt; are_none(alloc, &["next", "rate(1 hour)", "", "0", "1"])?);
    assert!(rt; are_none(alloc, &["next", "rate(1 hour)", "UTC", "0"])?);
    assert!(rt; are_none(alloc, &["next", "rate(1 hour)", "UTC", "0", "1", "2"])?);
    Ok(())
}
