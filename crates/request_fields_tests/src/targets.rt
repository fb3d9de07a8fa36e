//! The target: its arn, its role, its queue and its input.
use crate::samples::{BODY, TARGET, check_long, check_table};

const OBJECTS: &str = r#""Target":null | 400 rule 7: "Target"
"Target":"http://localhost/" | 400 rule 7: "Target"
"Target":[] | 400 rule 7: "Target"
"Target":{} | 400 rule 7: "Target.Arn"
"Target":{"Arn":"http://localhost/"} | 400 rule 7: "Target.RoleArn"
"Target":{"RoleArn":"r"} | 400 rule 7: "Target.Arn"
"Target":{"RoleArn":"r","Arn":"http://localhost/"} | target: Text { text: "http://localhost/" }, role: Text { text: "r" }, queue: None, input: None"#;

const ARNS: &str = r#""Arn":"http://[::1]:80/a?b=c" | target: Text { text: "http://[::1]:80/a?b=c" }
"Arn":null | 400 rule 7: "Target.Arn"
"Arn":"" | 400 rule 7: "Target.Arn"
"Arn":9000 | 400 rule 7: "Target.Arn"
"Arn":"localhost" | 400 rule 7: "Target.Arn"
"Arn":"https://localhost/" | 400 rule 7: "Target.Arn"
"Arn":"http://127.0.0.2/" | 400 rule 7: "Target.Arn"
"Arn":"http://user@localhost/" | 400 rule 7: "Target.Arn"
"Arn":"http://:word@localhost/" | 400 rule 7: "Target.Arn"
"Arn":"http://localhost/#part" | 400 rule 7: "Target.Arn"
"Arn":"arn:aws:lambda:us-east-1:123456789012:function:f" | 400 rule 7: "Target.Arn""#;

const ROLES: &str =
    r#""RoleArn":"arn:aws:iam::123456789012:role/sched" | role: Text { text: "arn:aws:iam::123456789012:role/sched" }
"RoleArn":null | 400 rule 7: "Target.RoleArn"
"RoleArn":"" | 400 rule 7: "Target.RoleArn"
"RoleArn":["r"] | 400 rule 7: "Target.RoleArn""#;

const QUEUES: &str = r#""DeadLetterConfig":null | queue: None
"DeadLetterConfig":{} | queue: None
"DeadLetterConfig":{"Arn":null} | queue: None
"DeadLetterConfig":{"Arn":"arn:aws:sqs:local:000000000000:dead"} | queue: Some(Text { text: "arn:aws:sqs:local:000000000000:dead" })
"DeadLetterConfig":{"Arn":"arn:aws:sqs:a:-:_"} | queue: Some(Text { text: "arn:aws:sqs:a:-:_" })
"DeadLetterConfig":"arn:aws:sqs:a:b:c" | 400 rule 7: "Target.DeadLetterConfig"
"DeadLetterConfig":[] | 400 rule 7: "Target.DeadLetterConfig"
"DeadLetterConfig":{"Arn":""} | 400 rule 7: "Target.DeadLetterConfig.Arn"
"DeadLetterConfig":{"Arn":0} | 400 rule 7: "Target.DeadLetterConfig.Arn"
"DeadLetterConfig":{"Arn":"arn:aws:sqs:a:b"} | 400 rule 7: "Target.DeadLetterConfig.Arn"
"DeadLetterConfig":{"Arn":"arn:aws:sqs::b:c"} | 400 rule 7: "Target.DeadLetterConfig.Arn"
"DeadLetterConfig":{"Arn":"arn:aws:sqs:a::c"} | 400 rule 7: "Target.DeadLetterConfig.Arn"
"DeadLetterConfig":{"Arn":"arn:aws:sqs:a:b:"} | 400 rule 7: "Target.DeadLetterConfig.Arn"
"DeadLetterConfig":{"Arn":"arn:aws:sqs:a:b:c:d"} | 400 rule 7: "Target.DeadLetterConfig.Arn"
"DeadLetterConfig":{"Arn":"arn:aws:sqs:a:b:c.fifo"} | 400 rule 7: "Target.DeadLetterConfig.Arn"
"DeadLetterConfig":{"Arn":"arn:aws:sns:a:b:c"} | 400 rule 7: "Target.DeadLetterConfig.Arn"
"DeadLetterConfig":{"Arn":"ARN:aws:sqs:a:b:c"} | 400 rule 7: "Target.DeadLetterConfig.Arn""#;

const INPUTS: &str = r#""Input":null | input: None
"Input":"x" | input: Some(Text { text: "x" })
"Input":"{\"n\":1}" | input: Some(Text { text: "{\"n\":1}" })
"Input":"" | 400 rule 7: "Target.Input"
"Input":1 | 400 rule 7: "Target.Input"
"Input":{"n":1} | 400 rule 7: "Target.Input""#;

#[test]
fn a_target_is_an_object(rt: HostRuntime) {
    check_table(&rt, rt.alloc(), &BODY, OBJECTS);
}

#[test]
fn an_arn_is_an_address_of_at_most_1600_characters(rt: HostRuntime) {
    let ends = (r#""Arn":"http://localhost/"#, r#"""#);
    check_table(&rt, rt.alloc(), &TARGET, ARNS);
    check_long(&rt, rt.alloc(), &TARGET, ends, "a", 1_583, "/aaa");
    check_long(&rt, rt.alloc(), &TARGET, ends, "😀", 1_583, "/😀");
    check_long(
        &rt,
        rt.alloc(),
        &TARGET,
        ends,
        "a",
        1_584,
        "7: \"Target.Arn\"",
    );
    check_long(
        &rt,
        rt.alloc(),
        &TARGET,
        ends,
        "😀",
        1_584,
        "7: \"Target.Arn\"",
    );
}

#[test]
fn a_role_has_at_most_1600_characters(rt: HostRuntime) {
    let ends = (r#""RoleArn":""#, r#"""#);
    check_table(&rt, rt.alloc(), &TARGET, ROLES);
    check_long(&rt, rt.alloc(), &TARGET, ends, "a", 1_600, "\"aaa");
    check_long(&rt, rt.alloc(), &TARGET, ends, "😀", 1_600, "\"😀");
    check_long(
        &rt,
        rt.alloc(),
        &TARGET,
        ends,
        "a",
        1_601,
        "7: \"Target.RoleArn\"",
    );
    check_long(
        &rt,
        rt.alloc(),
        &TARGET,
        ends,
        "😀",
        1_601,
        "7: \"Target.RoleArn\"",
    );
}

#[test]
fn a_queue_has_a_region_an_account_and_a_name(rt: HostRuntime) {
    let ends = (r#""DeadLetterConfig":{"Arn":"arn:aws:sqs:a:b:"#, r#""}"#);
    let wanted = "7: \"Target.DeadLetterConfig.Arn\"";
    check_table(&rt, rt.alloc(), &TARGET, QUEUES);
    check_long(&rt, rt.alloc(), &TARGET, ends, "q", 1_584, "a:b:qqq");
    check_long(&rt, rt.alloc(), &TARGET, ends, "q", 1_585, wanted);
}

#[test]
fn an_input_has_at_most_65536_bytes(rt: HostRuntime) {
    let ends = (r#""Input":""#, r#"""#);
    check_table(&rt, rt.alloc(), &TARGET, INPUTS);
    check_long(&rt, rt.alloc(), &TARGET, ends, "x", 65_536, "\"xxx");
    check_long(&rt, rt.alloc(), &TARGET, ends, "😀", 16_384, "\"😀");
    check_long(
        &rt,
        rt.alloc(),
        &TARGET,
        ends,
        "x",
        65_537,
        "7: \"Target.Input\"",
    );
    check_long(
        &rt,
        rt.alloc(),
        &TARGET,
        ends,
        "😀",
        16_385,
        "7: \"Target.Input\"",
    );
}
