//! Requests that break a rule: each of the rules, and that the first one decides.
use crate::runs::{Exchange, NOTHING, Outside, add_answer, add_request, check, check_exchange};
use crate::texts::written_out;
use std::alloc::{AllocError, Global};
use std::test::Fail;

const REFUSED: &str = r#"x GET /schedules
    400 1 {"Message":"rule 2: X-Moment"}
0 HEAD /schedules
    404 1 {"Message":"rule 3: /schedules"}
0 GET /schedules/?MaxResults=2
    404 1 {"Message":"rule 3: /schedules/"}
0 GET /0123456789012345678901234567890123456789012345678901234567890123456789
    404 1 {"Message":"rule 3: /012345678901234567890123456789012345678901234567890123456789012"}
0 GET /schedules?MaxResults=1&State=x&State=y&MaxResults=2
    400 1 {"Message":"rule 4: State"}
0 POST /schedules/a []
    400 1 {"Message":"rule 5: body"}
0 POST /schedules/~ {"Target":{"EcsParameters":null},"Zed":null}
    400 1 {"Message":"rule 6: Zed"}
0 POST /schedules/~ {"Target":{"EcsParameters":null}}
    400 1 {"Message":"rule 6: Target.EcsParameters"}
0 POST /schedules/~ {<off>,<target>}
    400 1 {"Message":"rule 7: Name"}
0 POST /schedules/a
    400 1 {"Message":"rule 7: ScheduleExpression"}
0 POST /schedules/a {<off>,"ScheduleExpression":"rate(1 hour)","StartDate":100,"EndDate":99,<target>}
    400 1 {"Message":"rule 7: EndDate"}
0 GET /executions/1
    400 1 {"Message":"rule 7: Id"}
0 GET /dead-letters
    400 1 {"Message":"rule 7: Queue"}
0 POST /schedule-groups/g {"ClientToken":"t"}
    200 2 {"ScheduleGroupArn":"<arn>:schedule-group/g"}
0 POST /schedule-groups/g {"ClientToken":"t"}
    200 2 {"ScheduleGroupArn":"<arn>:schedule-group/g"}
0 POST /schedules/a {"ClientToken":"t",<off>,"GroupName":"h",<at>,<target>}
    409 2 {"Message":"rule 8: step 2"}
0 DELETE /schedule-groups/g?clientToken=t
    409 2 {"Message":"rule 8: step 2"}
0 POST /schedules/a {"ClientToken":"u",<off>,"GroupName":"h",<at>,<target>}
    404 2 {"Message":"rule 9: h"}
0 POST /schedule-groups/g
    409 2 {"Message":"rule 9: g"}
0 DELETE /schedule-groups/default
    400 2 {"Message":"rule 9: default"}
0 GET /schedule-groups/h
    404 2 {"Message":"rule 9: h"}
0 GET /schedules?ScheduleGroup=h
    404 2 {"Message":"rule 9: h"}
0 GET /schedules/a
    404 2 {"Message":"rule 10: default/a"}
0 PUT /schedules/a {<off>,"GroupName":"g",<at>,"ScheduleExpressionTimezone":"Nowhere",<target>}
    404 2 {"Message":"rule 10: g/a"}
0 DELETE /schedules/a?clientToken=u
    404 2 {"Message":"rule 10: default/a"}
0 GET /executions/0000000100000000000003e8
    404 2 {"Message":"rule 10: 0000000100000000000003e8"}
0 POST /schedules/a {"ClientToken":"u",<off>,<at>,"ScheduleExpressionTimezone":"Nowhere",<target>}
    400 2 {"Message":"rule 12: zone"}
0 POST /schedules/a {"ClientToken":"u",<off>,<at>,"ScheduleExpressionTimezone":"Broken",<target>}
    400 2 {"Message":"rule 12: zone"}
0 POST /schedules/a {"ClientToken":"u",<off>,<at>,<target>}
    200 3 {"ScheduleArn":"<arn>:schedule/default/a"}
0 POST /schedules/a {<off>,<at>,"ScheduleExpressionTimezone":"Nowhere",<target>}
    409 3 {"Message":"rule 10: default/a"}
0 PUT /schedules/a {<off>,<at>,"ScheduleExpressionTimezone":"Nowhere",<target>}
    400 3 {"Message":"rule 12: zone"}"#;

/// A refused write keeps no token: `u` is free until a creation is accepted.
#[test]
fn the_first_broken_rule_decides(rt: HostRuntime) -> Result<(), Fail> {
    let outside = Outside {
        zones: "Broken x",
        ..NOTHING
    };
    check(&rt, rt.alloc(), outside, REFUSED, "")?;
    Ok(())
}

const NAMES: &str =
    r#"0 POST /schedules/nnnnnnnnnnnnnnnnnnnnnnnnnnnnnnnnnnnnnnnnnnnnnnnnnnnnnnnnnnnnnnnn {<off>,<at>,<target>}
    200 2 {"ScheduleArn":"<arn>:schedule/default/nnnnnnnnnnnnnnnnnnnnnnnnnnnnnnnnnnnnnnnnnnnnnnnnnnnnnnnnnnnnnnnn"}
0 POST /schedules/nnnnnnnnnnnnnnnnnnnnnnnnnnnnnnnnnnnnnnnnnnnnnnnnnnnnnnnnnnnnnnnnn {<off>,<at>,<target>}
    400 2 {"Message":"rule 7: Name"}"#;

#[test]
fn a_name_has_at_most_64_letters(rt: HostRuntime) -> Result<(), Fail> {
    check(&rt, rt.alloc(), NOTHING, NAMES, "")?;
    Ok(())
}

/// Adds the creation of a schedule or a group, which is the n-th step, and its answer.
fn add_creation(
    alloc: Global,
    exchange: &mut Exchange,
    request: &str,
    n: u64,
    shown: &str,
) -> Result<(), AllocError> {
    add_request(alloc, exchange, request)?;
    let answer = format!(in alloc; "200 {n} {shown}")?;
    add_answer(alloc, exchange, answer.as_str())
}

/// The creation of so many groups.
fn many_groups(alloc: Global, groups: u64) -> Result<Exchange, AllocError> {
    let mut exchange = Exchange::new(alloc);
    for n in 0..groups {
        let request = format!(in alloc; "0 POST /schedule-groups/g{n}")?;
        let shown = format!(in alloc;
            "{{\"ScheduleGroupArn\":\"arn:aws:scheduler:local:000000000000:schedule-group/g{n}\"}}"
        )?;
        add_creation(
            alloc,
            &mut exchange,
            request.as_str(),
            n.saturating_add(2),
            shown.as_str(),
        )?;
    }
    Ok(exchange)
}

/// The group `default` is one of them.
#[test]
fn there_are_at_most_500_groups(rt: HostRuntime) -> Result<(), Fail> {
    let alloc = rt.alloc();
    let mut exchange = many_groups(alloc, 499)?;
    add_request(alloc, &mut exchange, "0 POST /schedule-groups/more")?;
    add_answer(
        alloc,
        &mut exchange,
        "402 500 {\"Message\":\"rule 11: 500\"}",
    )?;
    check_exchange(&rt, alloc, NOTHING, exchange, "")?;
    Ok(())
}

/// The creation of so many schedules.
fn many_schedules(alloc: Global, schedules: u64) -> Result<Exchange, AllocError> {
    let body = written_out(alloc, "<once>")?;
    let mut exchange = Exchange::new(alloc);
    for n in 0..schedules {
        let request = format!(in alloc; "0 POST /schedules/s{n} {body}")?;
        let shown = format!(in alloc;
            "{{\"ScheduleArn\":\"arn:aws:scheduler:local:000000000000:schedule/default/s{n}\"}}"
        )?;
        add_creation(
            alloc,
            &mut exchange,
            request.as_str(),
            n.saturating_add(2),
            shown.as_str(),
        )?;
    }
    Ok(exchange)
}

/// The one that is too many is refused before its zone is asked for.
#[test]
fn there_are_at_most_10_000_schedules(rt: HostRuntime) -> Result<(), Fail> {
    let alloc = rt.alloc();
    let mut exchange = many_schedules(alloc, 10_000)?;
    let last = written_out(
        alloc,
        "0 POST /schedules/more {<off>,<at>,\"ScheduleExpressionTimezone\":\"Nowhere\",<target>}",
    )?;
    add_request(alloc, &mut exchange, last.as_str())?;
    add_answer(
        alloc,
        &mut exchange,
        "402 10001 {\"Message\":\"rule 11: 10000\"}",
    )?;
    check_exchange(&rt, alloc, NOTHING, exchange, "")?;
    Ok(())
}
