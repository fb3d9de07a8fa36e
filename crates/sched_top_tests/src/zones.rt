//! Time zones: how their bytes are had, and the occurrences where a clock is put forward or back.
use crate::runs::{NOTHING, Outside, answered, check, exchange_of, named_zone};
use policy_rules::ListPicker;
use std::test::Fail;
use target_link::ScriptLink;
use zone_occ::MapZones;

/// The zone of New York, as a rule: its clock is put forward on 8 March 2026 and back on 1 November.
const NEW_YORK: Outside = Outside {
    zones: "America/New_York EST5EDT,M3.2.0,M11.1.0",
    ..NOTHING
};

const ASKED_AGAIN: &str =
    r#"900 POST /schedules/once {<off>,<at>,"ScheduleExpressionTimezone":"America/New_York",<target>}
    500 - {"Message":"zones"}
900 POST /schedules/once {<off>,<at>,"ScheduleExpressionTimezone":"America/New_York",<target>}
    200 3 {"ScheduleArn":"<arn>:schedule/default/once"}
900 POST /schedules/twice {<off>,<at>,"ScheduleExpressionTimezone":"America/New_York",<target>}
    200 4 {"ScheduleArn":"<arn>:schedule/default/twice"}
900 POST /schedules/plain {<off>,<at>,"ScheduleExpressionTimezone":"UTC",<target>}
    200 5 {"ScheduleArn":"<arn>:schedule/default/plain"}"#;

/// The first call fails; the third would too, but a zone that is known is not asked for.
#[test]
fn a_failed_zone_may_be_asked_for_again(rt: HostRuntime) -> Result<(), Fail> {
    let outside = Outside {
        failing: &[1, 3],
        ..NEW_YORK
    };
    check(&rt, rt.alloc(), outside, ASKED_AGAIN, "")?;
    Ok(())
}

const PUT_FORWARD: &str =
    r#"1772841600 POST /schedules/night {<off>,"ScheduleExpression":"cron(30 2 * * ? *)","ScheduleExpressionTimezone":"America/New_York",<target>}
    200 3 {"ScheduleArn":"<arn>:schedule/default/night"}
1772868599 POST /sweep
    200 27 {"Moment":1772868599}
1772868600 POST /sweep
    200 54 {"Moment":1772868600}
1772955000 POST /sweep
    200 78 {"Moment":1772955000}
1773037799 POST /sweep
    200 102 {"Moment":1773037799}
1773037800 POST /sweep
    200 129 {"Moment":1773037800}"#;

const NIGHTS: &str = "000000010000000069abd3f8 1 default/night 2026-03-07T07:30:00Z
000000010000000069ae68e8 1 default/night 2026-03-09T06:30:00Z";

/// The eighth has no 02:30.
#[test]
fn a_time_that_is_skipped_is_none(rt: HostRuntime) -> Result<(), Fail> {
    let outside = Outside {
        replies: "200 200",
        ..NEW_YORK
    };
    check(&rt, rt.alloc(), outside, PUT_FORWARD, NIGHTS)?;
    Ok(())
}

const PUT_BACK: &str =
    r#"1793491200 POST /schedules/night {<off>,"ScheduleExpression":"cron(30 1 * * ? *)","ScheduleExpressionTimezone":"America/New_York",<target>}
    200 3 {"ScheduleArn":"<arn>:schedule/default/night"}
1793511000 POST /sweep
    200 30 {"Moment":1793511000}
1793514600 POST /sweep
    200 54 {"Moment":1793514600}
1793601000 POST /sweep
    200 81 {"Moment":1793601000}"#;

const NIGHTS_OF_FALL: &str = "00000001000000006ae6ce58 1 default/night 2026-11-01T05:30:00Z
00000001000000006ae82de8 1 default/night 2026-11-02T06:30:00Z";

/// The hour that comes twice runs once, when it comes first.
#[test]
fn a_time_that_comes_twice_is_one(rt: HostRuntime) -> Result<(), Fail> {
    let outside = Outside {
        replies: "200 200",
        ..NEW_YORK
    };
    check(&rt, rt.alloc(), outside, PUT_BACK, NIGHTS_OF_FALL)?;
    Ok(())
}

const TOO_LONG: &str =
    r#"900 POST /schedules/once {<off>,<at>,"ScheduleExpressionTimezone":"Long",<target>}
    400 1 {"Message":"rule 12: zone"}
900 GET /schedules/once
    404 1 {"Message":"rule 10: default/once"}"#;

/// A zone has at most 65,536 bytes.
#[test]
fn a_zone_may_be_too_long(rt: HostRuntime) -> Result<(), Fail> {
    let alloc = rt.alloc();
    let mut bytes = Vec::new(alloc);
    bytes.resize(65_537, b'U')?;
    let mut zones = Vec::new(alloc);
    zones.push(named_zone(&rt, alloc, "Long", bytes))?;
    let zones = MapZones::new(zones, Vec::new(alloc));
    let picker = ListPicker::new(Vec::new(alloc));
    let link = ScriptLink::new(alloc, Vec::new(alloc));
    let exchange = exchange_of(alloc, TOO_LONG)?;
    answered(&rt, alloc, exchange, zones, picker, link)?;
    Ok(())
}
