//! Lists: how many rows, which, and from where on.
use crate::samples::{check_long, check_table};

const COUNTS: &str = r#"GET /schedules?MaxResults=2 | max: 2 }
GET /schedules?MaxResults=1 | max: 1 }
GET /schedules?MaxResults=100 | max: 100 }
GET /schedules?MaxResults=007 | max: 7 }
GET /schedules?MaxResults=%31%30 | max: 10 }
GET /schedules?MaxResults=0 | 400 rule 7: "MaxResults"
GET /schedules?MaxResults=101 | 400 rule 7: "MaxResults"
GET /schedules?MaxResults=256 | 400 rule 7: "MaxResults"
GET /schedules?MaxResults=0001 | 400 rule 7: "MaxResults"
GET /schedules?MaxResults= | 400 rule 7: "MaxResults"
GET /schedules?MaxResults=-1 | 400 rule 7: "MaxResults"
GET /schedules?MaxResults=+1 | 400 rule 7: "MaxResults"
GET /schedules?MaxResults=1.0 | 400 rule 7: "MaxResults"
GET /schedules?MaxResults=1e1 | 400 rule 7: "MaxResults"
GET /schedules?MaxResults=x | 400 rule 7: "MaxResults"
GET /schedule-groups?MaxResults=100 | max: 100 }
GET /schedule-groups?MaxResults=101 | 400 rule 7: "MaxResults"
GET /dead-letters?Queue=q&MaxResults=100 | max: 100 }
GET /dead-letters?Queue=q&MaxResults=101 | 400 rule 7: "MaxResults""#;

const FROM: &str =
    r#"GET /schedules?MaxResults=2&NextToken=default/b | after: Some((Name { text: "default" }, Name { text: "b" })), max: 2 }
GET /schedules?NextToken=default%2Fb | after: Some((Name { text: "default" }, Name { text: "b" }))
GET /schedules?NextToken=b | 400 rule 7: "NextToken"
GET /schedules?NextToken= | 400 rule 7: "NextToken"
GET /schedules?NextToken=/b | 400 rule 7: "NextToken"
GET /schedules?NextToken=a/ | 400 rule 7: "NextToken"
GET /schedules?NextToken=a/b/c | 400 rule 7: "NextToken"
GET /schedules?NextToken=a/b%00 | 400 rule 7: "NextToken"
GET /schedule-groups?NextToken=b | after: Some(Name { text: "b" })
GET /schedule-groups?NextToken=a/b | 400 rule 7: "NextToken"
GET /schedule-groups?NextToken= | 400 rule 7: "NextToken""#;

const WHICH: &str =
    r#"GET /schedules?NamePrefix=a.-_Z9&ScheduleGroup=g&State=ENABLED | group: Some(Name { text: "g" }), prefix: Text { text: "a.-_Z9" }, enabled: Some(true), after: None
GET /schedules?State=DISABLED | enabled: Some(false)
GET /schedules?State=enabled | 400 rule 7: "State"
GET /schedules?State= | 400 rule 7: "State"
GET /schedules?ScheduleGroup= | 400 rule 7: "ScheduleGroup"
GET /schedules?ScheduleGroup=a/b | 400 rule 7: "ScheduleGroup"
GET /schedules?NamePrefix= | 400 rule 7: "NamePrefix"
GET /schedules?NamePrefix=* | 400 rule 7: "NamePrefix"
GET /schedule-groups?NamePrefix=a | prefix: Text { text: "a" }
GET /schedule-groups?NamePrefix= | 400 rule 7: "NamePrefix"
GET /schedule-groups?State=x&ScheduleGroup=/ | Read(Groups {"#;

const LETTERS: &str =
    r#"GET /dead-letters?Queue=arn:aws:sqs:a:b:c&After=7&MaxResults=3 | Read(Letters { queue: Text { text: "arn:aws:sqs:a:b:c" }, after: 7, max: 3 })
GET /dead-letters?Queue=%F0%9F%98%80+x&After=0 | Read(Letters { queue: Text { text: "😀 x" }, after: 0, max: 100 })
GET /dead-letters?Queue=q&After=9999999999999999999 | after: 9999999999999999999,
GET /dead-letters?Queue=q&After=0000000000000000012 | after: 12,
GET /dead-letters?Queue=q&After=00000000000000000000 | 400 rule 7: "After"
GET /dead-letters?Queue=q&After=10000000000000000000 | 400 rule 7: "After"
GET /dead-letters?Queue=q&After= | 400 rule 7: "After"
GET /dead-letters?Queue=q&After=-1 | 400 rule 7: "After"
GET /dead-letters | 400 rule 7: "Queue"
GET /dead-letters?queue=q | 400 rule 7: "Queue"
GET /dead-letters?Queue= | 400 rule 7: "Queue""#;

/// Two names at fault each: the one that is looked at first is named.
const ORDER: &str = r#"GET /schedules?NamePrefix=&MaxResults= | 400 rule 7: "MaxResults"
GET /schedules?NextToken=&NamePrefix= | 400 rule 7: "NamePrefix"
GET /schedules?ScheduleGroup=&NextToken= | 400 rule 7: "NextToken"
GET /schedules?State=&ScheduleGroup= | 400 rule 7: "ScheduleGroup"
GET /schedule-groups?NamePrefix=&MaxResults= | 400 rule 7: "MaxResults"
GET /schedule-groups?NextToken=&NamePrefix= | 400 rule 7: "NamePrefix"
GET /dead-letters?After=&Queue= | 400 rule 7: "Queue"
GET /dead-letters?Queue=q&MaxResults=&After= | 400 rule 7: "After""#;

#[test]
fn a_list_has_1_to_100_rows(rt: HostRuntime) {
    check_table(&rt, rt.alloc(), COUNTS);
}

#[test]
fn a_token_names_the_row_before(rt: HostRuntime) {
    check_table(&rt, rt.alloc(), FROM);
    check_long(
        &rt,
        rt.alloc(),
        "GET /schedules?NextToken=g/",
        "n",
        64,
        "text: \"nnn",
    );
    check_long(
        &rt,
        rt.alloc(),
        "GET /schedules?NextToken=g/",
        "n",
        65,
        "7: \"NextToken\"",
    );
}

#[test]
fn a_list_may_be_of_some(rt: HostRuntime) {
    check_table(&rt, rt.alloc(), WHICH);
    check_long(
        &rt,
        rt.alloc(),
        "GET /schedules?NamePrefix=",
        "n",
        64,
        "text: \"nnn",
    );
    check_long(
        &rt,
        rt.alloc(),
        "GET /schedules?NamePrefix=",
        "n",
        65,
        "7: \"NamePrefix\"",
    );
}

#[test]
fn letters_are_those_of_a_queue(rt: HostRuntime) {
    check_table(&rt, rt.alloc(), LETTERS);
    check_long(
        &rt,
        rt.alloc(),
        "GET /dead-letters?Queue=",
        "q",
        1_600,
        "text: \"qqq",
    );
    check_long(
        &rt,
        rt.alloc(),
        "GET /dead-letters?Queue=",
        "%c3%a9",
        1_600,
        "text: \"é",
    );
    check_long(
        &rt,
        rt.alloc(),
        "GET /dead-letters?Queue=",
        "q",
        1_601,
        "7: \"Queue\"",
    );
}

#[test]
fn the_first_name_at_fault_is_named(rt: HostRuntime) {
    check_table(&rt, rt.alloc(), ORDER);
}
