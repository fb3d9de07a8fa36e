use sched_plain::{
    Civil, Expr, Moment, Name, Policy, Schedule, Step, Text, Token, TryCopy, Write, ZoneName,
};
use std::alloc::{AllocError, Global};
use std::test::Fail;

fn text_of(alloc: Global, text: &str) -> Result<Text, AllocError> {
    Ok(Text::from_string(String::from_str(alloc, text)?))
}

fn content_of(alloc: Global, zone: ZoneName, input: &str) -> Result<Schedule, AllocError> {
    Ok(Schedule {
        description: text_of(alloc, "")?,
        text: text_of(alloc, "at(1970-01-01T00:16:40)")?,
        expr: Expr::At(Civil {
            year: 1970,
            month: 1,
            day: 1,
            hour: 0,
            minute: 16,
            second: 40,
        }),
        zone,
        start: None,
        finish: Some(5),
        enabled: true,
        delete_after: false,
        window: 0,
        policy: Policy {
            retries: 0,
            age: 86_400,
        },
        target: text_of(alloc, "http://127.0.0.1:9000/hook")?,
        role: text_of(alloc, "r")?,
        queue: None,
        input: Some(text_of(alloc, input)?),
    })
}

#[test]
fn copies_and_compares_writes(rt: HostRuntime) -> Result<(), Fail> {
    let alloc = rt.alloc();
    let zone = ZoneName::read(alloc, b"UTC").ok().expect(&rt, "a zone");
    let group = Name::read(alloc, b"default").ok().expect(&rt, "a name");
    let name = Name::read(alloc, b"once").ok().expect(&rt, "a name");
    let token = Token::read(alloc, b"t").ok().expect(&rt, "a token");
    let content = content_of(alloc, zone.copy()?, "1")?;
    let other = content_of(alloc, zone, "2")?;
    assert!(rt; content.is_same(&content));
    assert!(rt; !content.is_same(&other));
    let write = Write::CreateSchedule {
        group: group.copy()?,
        name: name.copy()?,
        token: Some(token),
        content,
    };
    assert!(rt; write.is_same(&write.copy()?));
    let update = Write::UpdateSchedule {
        group,
        name,
        token: None,
        content: other,
    };
    assert!(rt; !write.is_same(&update));
    let step = Step::Change {
        at: Moment(900),
        write,
    };
    let Step::Change { at, .. } = step.copy()? else {
        panic!(rt; "a copy of another kind");
    };
    assert_eq!(rt; at, Moment(900));
    Ok(())
}
