//! StartDate and EndDate.
use crate::samples::{BODY, check_table};

const STARTS: &str = r#""StartDate":null | start: None
"StartDate":0 | start: Some(0)
"StartDate":7258118399 | start: Some(7258118399)
"StartDate":7258118400 | 400 rule 7: "StartDate"
"StartDate":18446744073709551616 | 400 rule 7: "StartDate"
"StartDate":-1 | 400 rule 7: "StartDate"
"StartDate":-0 | 400 rule 7: "StartDate"
"StartDate":1.0 | 400 rule 7: "StartDate"
"StartDate":1e3 | 400 rule 7: "StartDate"
"StartDate":"0" | 400 rule 7: "StartDate"
"StartDate":false | 400 rule 7: "StartDate"
"StartDate":[0] | 400 rule 7: "StartDate"
"StartDate":{} | 400 rule 7: "StartDate""#;

const ENDS: &str = r#""EndDate":null | finish: None
"EndDate":0 | finish: Some(0)
"EndDate":7258118399 | finish: Some(7258118399)
"EndDate":7258118400 | 400 rule 7: "EndDate"
"EndDate":-0 | 400 rule 7: "EndDate"
"EndDate":1.0 | 400 rule 7: "EndDate"
"EndDate":1e3 | 400 rule 7: "EndDate"
"EndDate":"1" | 400 rule 7: "EndDate""#;

const BOTH: &str = r#""StartDate":7,"EndDate":7 | start: Some(7), finish: Some(7)
"StartDate":7,"EndDate":6 | 400 rule 7: "EndDate"
"StartDate":null,"EndDate":6 | start: None, finish: Some(6)
"StartDate":7,"EndDate":null | start: Some(7), finish: None
"StartDate":-1,"EndDate":-1 | 400 rule 7: "StartDate"
"StartDate":7,"EndDate":6,"ScheduleExpression":"cron(0 9 * * ? *)" | 400 rule 7: "EndDate"
"StartDate":7,"EndDate":7,"ScheduleExpression":"cron(0 9 * * ? *)" | start: Some(7), finish: Some(7)
"StartDate":7,"EndDate":6,"ScheduleExpression":"at(1970-01-01T00:16:40)" | start: Some(7), finish: Some(6)
"StartDate":7,"EndDate":7258118400,"ScheduleExpression":"at(1970-01-01T00:16:40)" | 400 rule 7: "EndDate""#;

#[test]
fn a_start_is_a_moment(rt: HostRuntime) {
    check_table(&rt, rt.alloc(), &BODY, STARTS);
}

#[test]
fn an_end_is_a_moment(rt: HostRuntime) {
    check_table(&rt, rt.alloc(), &BODY, ENDS);
}

#[test]
fn an_end_is_not_below_a_start_but_for_an_at(rt: HostRuntime) {
    check_table(&rt, rt.alloc(), &BODY, BOTH);
}
