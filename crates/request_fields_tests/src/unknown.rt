//! Members that no table has: the first by its bytes, outer objects before inner ones.
use crate::samples::{BODY, TARGET, check_table};

const OUTER: &str = r#""Zed":0 | 400 rule 6: "Zed"
"Zed":null | 400 rule 6: "Zed"
"":0 | 400 rule 6: ""
"b":0,"Zed":0,"a":0 | 400 rule 6: "Zed"
"b":0,"a":0,"é":0 | 400 rule 6: "a"
"state":"ENABLED" | 400 rule 6: "state"
"\u005aed":0 | 400 rule 6: "Zed"
"Name":"once" | 400 rule 6: "Name"
"Tags":[] | 400 rule 6: "Tags"
"Tags":null | 400 rule 6: "Tags"
"KmsKeyArn":"k" | 400 rule 6: "KmsKeyArn"
"Tags":[],"KmsKeyArn":"k" | 400 rule 6: "KmsKeyArn""#;

const INNER: &str =
    r#""FlexibleTimeWindow":{"Mode":"OFF","Zed":null} | 400 rule 6: "FlexibleTimeWindow.Zed"
"FlexibleTimeWindow":{"mode":"OFF","Mode":0} | 400 rule 6: "FlexibleTimeWindow.mode"
"FlexibleTimeWindow":{"b":0,"a":0},"Target":{"A":0} | 400 rule 6: "FlexibleTimeWindow.a"
"FlexibleTimeWindow":{"Zed":0},"Target":{"A":0} | 400 rule 6: "FlexibleTimeWindow.Zed"
"FlexibleTimeWindow":{"Zed":0},"Zed":0 | 400 rule 6: "Zed"
"Target":{"A":0},"Zed":0 | 400 rule 6: "Zed"
"Target":{"Zed":0,"RetryPolicy":{"A":0}} | 400 rule 6: "Target.Zed"
"Target":{"Zed":0},"Target":null | 400 rule 7: "Target"
"Target":[{"Zed":0}] | 400 rule 7: "Target"
"State":{"Zed":0} | 400 rule 7: "State""#;

const INMOST: &str = r#""EcsParameters":{} | 400 rule 6: "Target.EcsParameters"
"EcsParameters":null | 400 rule 6: "Target.EcsParameters"
"SqsParameters":{},"EcsParameters":{} | 400 rule 6: "Target.EcsParameters"
"DeadLetterConfig":{"X":0},"RetryPolicy":{"A":0} | 400 rule 6: "Target.DeadLetterConfig.X"
"DeadLetterConfig":{"Arn":0},"RetryPolicy":{"A":null} | 400 rule 6: "Target.RetryPolicy.A"
"DeadLetterConfig":{"Arn":null,"arn":null} | 400 rule 6: "Target.DeadLetterConfig.arn"
"RetryPolicy":{"MaximumRetryAttempts":999,"B":0,"A":0} | 400 rule 6: "Target.RetryPolicy.A"
"RetryPolicy":[{"A":0}] | 400 rule 7: "Target.RetryPolicy""#;

#[test]
fn an_unknown_member_of_the_body(rt: HostRuntime) {
    check_table(&rt, rt.alloc(), &BODY, OUTER);
}

#[test]
fn an_unknown_member_of_an_object_in_it(rt: HostRuntime) {
    check_table(&rt, rt.alloc(), &BODY, INNER);
}

#[test]
fn an_unknown_member_in_the_target(rt: HostRuntime) {
    check_table(&rt, rt.alloc(), &TARGET, INMOST);
}
