//! The fields of the body that are texts.
use crate::samples::{BODY, check_long, check_table};

const DESCRIPTIONS: &str = r#""Description":"" | description: Text { text: "" }
"Description":null | description: Text { text: "" }
"Description":"x" | description: Text { text: "x" }
"Description":"\u0000\ud83d\ude00" | description: Text { text: "\0😀" }
"Description":7 | 400 rule 7: "Description"
"Description":true | 400 rule 7: "Description"
"Description":["x"] | 400 rule 7: "Description"
"Description":{} | 400 rule 7: "Description""#;

const EXPRESSIONS: &str =
    r#""ScheduleExpression":"at(1970-01-01T00:16:40)" | expr: At(Civil { year: 1970, month: 1, day: 1, hour: 0, minute: 16, second: 40 })
"ScheduleExpression":"rate(1  hours)" | text: Text { text: "rate(1  hours)" }, expr: Rate { count: 1, unit: Hour }
"ScheduleExpression":"cron(0 9 * * ? *)" | expr: Cron(
"ScheduleExpression":null | 400 rule 7: "ScheduleExpression"
"ScheduleExpression":"" | 400 rule 7: "ScheduleExpression"
"ScheduleExpression":"rate(0 hours)" | 400 rule 7: "ScheduleExpression"
"ScheduleExpression":" rate(1 hour)" | 400 rule 7: "ScheduleExpression"
"ScheduleExpression":"at(2100-02-29T00:00:00)" | 400 rule 7: "ScheduleExpression"
"ScheduleExpression":"cron(0 9 * * * *)" | 400 rule 7: "ScheduleExpression"
"ScheduleExpression":3600 | 400 rule 7: "ScheduleExpression"
"ScheduleExpression":{} | 400 rule 7: "ScheduleExpression""#;

const ZONES: &str = r#""ScheduleExpressionTimezone":null | zone: ZoneName { text: "UTC" }
"ScheduleExpressionTimezone":"Etc/GMT+9" | "Etc/GMT+9"
"ScheduleExpressionTimezone":"a" | "a"
"ScheduleExpressionTimezone":"" | 400 rule 7: "ScheduleExpressionTimezone"
"ScheduleExpressionTimezone":"/UTC" | 400 rule 7: "ScheduleExpressionTimezone"
"ScheduleExpressionTimezone":"a//b" | 400 rule 7: "ScheduleExpressionTimezone"
"ScheduleExpressionTimezone":"a.b" | 400 rule 7: "ScheduleExpressionTimezone"
"ScheduleExpressionTimezone":0 | 400 rule 7: "ScheduleExpressionTimezone""#;

const STATES: &str = r#""State":null | enabled: true
"State":"ENABLED" | enabled: true
"State":"DISABLED" | enabled: false
"State":"enabled" | 400 rule 7: "State"
"State":"" | 400 rule 7: "State"
"State":true | 400 rule 7: "State""#;

const ACTIONS: &str = r#""ActionAfterCompletion":null | delete_after: false
"ActionAfterCompletion":"NONE" | delete_after: false
"ActionAfterCompletion":"DELETE" | delete_after: true
"ActionAfterCompletion":"DELETE " | 400 rule 7: "ActionAfterCompletion"
"ActionAfterCompletion":[] | 400 rule 7: "ActionAfterCompletion""#;

#[test]
fn a_description_has_at_most_512_characters(rt: HostRuntime) {
    let ends = (r#""Description":""#, r#"""#);
    check_table(&rt, rt.alloc(), &BODY, DESCRIPTIONS);
    check_long(&rt, rt.alloc(), &BODY, ends, "x", 512, "text: \"xxx");
    check_long(&rt, rt.alloc(), &BODY, ends, "😀", 512, "text: \"😀");
    check_long(&rt, rt.alloc(), &BODY, ends, "x", 513, "7: \"Description\"");
    check_long(&rt, rt.alloc(), &BODY, ends, "😀", 513, "7: \"Description\"");
}

#[test]
fn an_expression_has_at_most_256_characters(rt: HostRuntime) {
    let ends = (r#""ScheduleExpression":"rate(1"#, r#"hour)""#);
    check_table(&rt, rt.alloc(), &BODY, EXPRESSIONS);
    check_long(&rt, rt.alloc(), &BODY, ends, " ", 245, "expr: Rate");
    check_long(
        &rt,
        rt.alloc(),
        &BODY,
        ends,
        " ",
        246,
        "7: \"ScheduleExpression\"",
    );
}

#[test]
fn a_zone_has_at_most_50_bytes(rt: HostRuntime) {
    let ends = (r#""ScheduleExpressionTimezone":""#, r#"""#);
    let wanted = "7: \"ScheduleExpressionTimezone\"";
    check_table(&rt, rt.alloc(), &BODY, ZONES);
    check_long(&rt, rt.alloc(), &BODY, ends, "z", 50, "\"zzz");
    check_long(&rt, rt.alloc(), &BODY, ends, "z", 51, wanted);
}

#[test]
fn a_state_is_one_of_two_words(rt: HostRuntime) {
    check_table(&rt, rt.alloc(), &BODY, STATES);
}

#[test]
fn an_action_is_one_of_two_words(rt: HostRuntime) {
    check_table(&rt, rt.alloc(), &BODY, ACTIONS);
}
