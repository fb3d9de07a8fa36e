//! The run of docs/HTTP.md that has an example of each route, as it is pasted there.
use crate::runs::{Exchange, NOTHING, check_exchange};
use crate::texts::answers_text;
use std::test::Fail;

/// The requests. A line break behind a body is an empty line before the next head.
const REQUESTS: &[u8] = br#"POST /schedule-groups/team HTTP/1.1
X-Moment: 100
Content-Length: 24

{"ClientToken":"team-1"}
GET /schedule-groups/team HTTP/1.1

GET /schedule-groups?MaxResults=1 HTTP/1.1

POST /schedules/report HTTP/1.1
Content-Length: 269

{"FlexibleTimeWindow":{"Mode":"OFF"},"GroupName":"team","ScheduleExpression":"at(1970-01-01T00:16:40)","Target":{"Arn":"http://127.0.0.1:9000/hook","DeadLetterConfig":{"Arn":"arn:aws:sqs:local:000000000000:dead"},"RetryPolicy":{"MaximumRetryAttempts":3},"RoleArn":"r"}}
PUT /schedules/report HTTP/1.1
X-Moment: 200
Content-Length: 295

{"Description":"told once","FlexibleTimeWindow":{"Mode":"OFF"},"GroupName":"team","ScheduleExpression":"at(1970-01-01T00:16:40)","Target":{"Arn":"http://127.0.0.1:9000/hook","DeadLetterConfig":{"Arn":"arn:aws:sqs:local:000000000000:dead"},"RetryPolicy":{"MaximumRetryAttempts":0},"RoleArn":"r"}}
GET /schedules/report?groupName=team HTTP/1.1

GET /schedules?ScheduleGroup=team&State=ENABLED HTTP/1.1

POST /sweep HTTP/1.1
X-Moment: 1000

GET /executions/0000000100000000000003e8 HTTP/1.1

GET /dead-letters?Queue=arn:aws:sqs:local:000000000000:dead HTTP/1.1

DELETE /schedules/report?groupName=team&clientToken=team-2 HTTP/1.1

DELETE /schedule-groups/team HTTP/1.1

"#;

const ANSWERS: &str = r#"200 2 {"ScheduleGroupArn":"<arn>:schedule-group/team"}
200 2 {"Arn":"<arn>:schedule-group/team","CreationDate":100,"LastModificationDate":100,"Name":"team","State":"ACTIVE"}
200 2 {"NextToken":"default","ScheduleGroups":[{"Arn":"<arn>:schedule-group/default","CreationDate":0,"LastModificationDate":0,"Name":"default","State":"ACTIVE"}]}
200 3 {"ScheduleArn":"<arn>:schedule/team/report"}
200 4 {"ScheduleArn":"<arn>:schedule/team/report"}
200 4 {"ActionAfterCompletion":"NONE","Arn":"<arn>:schedule/team/report","CreationDate":100,"Description":"told once","FlexibleTimeWindow":{"Mode":"OFF"},"GroupName":"team","LastModificationDate":200,"Name":"report","ScheduleExpression":"at(1970-01-01T00:16:40)","ScheduleExpressionTimezone":"UTC","State":"ENABLED","Target":{"Arn":"http://127.0.0.1:9000/hook","DeadLetterConfig":{"Arn":"arn:aws:sqs:local:000000000000:dead"},"RetryPolicy":{"MaximumEventAgeInSeconds":86400,"MaximumRetryAttempts":0},"RoleArn":"r"}}
200 4 {"Schedules":[{"Arn":"<arn>:schedule/team/report","CreationDate":100,"GroupName":"team","LastModificationDate":200,"Name":"report","State":"ENABLED","Target":{"Arn":"http://127.0.0.1:9000/hook"}}]}
200 32 {"Moment":1000}
200 32 {"Attempts":[{"Begun":1000,"Number":1,"Verdict":"Retry"}],"Chosen":1000,"ExecutionId":"0000000100000000000003e8","Instant":1000,"Outcome":"Attempts","ScheduleArn":"<arn>:schedule/team/report"}
200 32 {"Letters":[{"ExecutionId":"0000000100000000000003e8","Number":1,"Reason":"Attempts","ScheduleArn":"<arn>:schedule/team/report"}]}
200 33
200 34"#;

/// Nobody listens at the target's port.
#[test]
fn the_examples_run(rt: HostRuntime) -> Result<(), Fail> {
    let alloc = rt.alloc();
    let output = answers_text(alloc, ANSWERS)?;
    let exchange = Exchange {
        input: REQUESTS.to_vec(alloc)?,
        output: output.as_bytes().to_vec(alloc)?,
    };
    let attempt = "0000000100000000000003e8 1 team/report 1970-01-01T00:16:40Z";
    check_exchange(&rt, alloc, NOTHING, exchange, attempt)?;
    Ok(())
}
