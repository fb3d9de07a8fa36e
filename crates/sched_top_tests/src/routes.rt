//! Each route once, with its whole answer; lists by pages; and the moments at which requests are served.
use crate::runs::{NOTHING, Outside, check};
use std::test::Fail;

const ROUTES: &str = r#"100 POST /schedule-groups/team {"ClientToken":"t-1"}
    200 2 {"ScheduleGroupArn":"<arn>:schedule-group/team"}
100 GET /schedule-groups/team
    200 2 {"Arn":"<arn>:schedule-group/team","CreationDate":100,"LastModificationDate":100,"Name":"team","State":"ACTIVE"}
100 GET /schedule-groups
    200 2 {"ScheduleGroups":[{"Arn":"<arn>:schedule-group/default","CreationDate":0,"LastModificationDate":0,"Name":"default","State":"ACTIVE"},{"Arn":"<arn>:schedule-group/team","CreationDate":100,"LastModificationDate":100,"Name":"team","State":"ACTIVE"}]}
100 POST /schedules/full {"ActionAfterCompletion":"DELETE","ClientToken":"t-2","Description":"an \"hour\"","EndDate":4000,"FlexibleTimeWindow":{"MaximumWindowInMinutes":15,"Mode":"FLEXIBLE"},"GroupName":"team","ScheduleExpression":"rate(1  hours)","ScheduleExpressionTimezone":"America/New_York","StartDate":400,"State":"ENABLED","Target":{"Arn":"<hook>","DeadLetterConfig":{"Arn":"<dead>"},"Input":"{\"n\":1}","RetryPolicy":{"MaximumEventAgeInSeconds":60,"MaximumRetryAttempts":2},"RoleArn":"r"}}
    200 4 {"ScheduleArn":"<arn>:schedule/team/full"}
100 GET /schedules/full?groupName=team
    200 4 {"ActionAfterCompletion":"DELETE","Arn":"<arn>:schedule/team/full","CreationDate":100,"Description":"an \"hour\"","EndDate":4000,"FlexibleTimeWindow":{"MaximumWindowInMinutes":15,"Mode":"FLEXIBLE"},"GroupName":"team","LastModificationDate":100,"Name":"full","ScheduleExpression":"rate(1  hours)","ScheduleExpressionTimezone":"America/New_York","StartDate":400,"State":"ENABLED","Target":{"Arn":"<hook>","DeadLetterConfig":{"Arn":"<dead>"},"Input":"{\"n\":1}","RetryPolicy":{"MaximumEventAgeInSeconds":60,"MaximumRetryAttempts":2},"RoleArn":"r"}}
200 PUT /schedules/full {"ClientToken":"t-3",<off>,"GroupName":"team",<at>,<target>}
    200 5 {"ScheduleArn":"<arn>:schedule/team/full"}
200 PUT /schedules/full {"ClientToken":"t-3",<off>,"GroupName":"team",<at>,<target>}
    200 5 {"ScheduleArn":"<arn>:schedule/team/full"}
200 GET /schedules/full?groupName=team
    200 5 {"ActionAfterCompletion":"NONE","Arn":"<arn>:schedule/team/full","CreationDate":100,"FlexibleTimeWindow":{"Mode":"OFF"},"GroupName":"team","LastModificationDate":200,"Name":"full","ScheduleExpression":"at(1970-01-01T00:16:40)","ScheduleExpressionTimezone":"UTC","State":"ENABLED","Target":{"Arn":"<hook>","RetryPolicy":{"MaximumEventAgeInSeconds":86400,"MaximumRetryAttempts":185},"RoleArn":"r"}}
200 GET /schedules
    200 5 {"Schedules":[{"Arn":"<arn>:schedule/team/full","CreationDate":100,"GroupName":"team","LastModificationDate":200,"Name":"full","State":"ENABLED","Target":{"Arn":"<hook>"}}]}
1000 POST /sweep
    200 32 {"Moment":1000}
1000 GET /executions/0000000100000000000003e8
    200 32 {"Attempts":[{"Begun":1000,"Number":1,"Verdict":"Done"}],"Chosen":1000,"ExecutionId":"0000000100000000000003e8","Instant":1000,"Outcome":"Done","ScheduleArn":"<arn>:schedule/team/full"}
1000 GET /dead-letters?Queue=<dead>
    200 32 {"Letters":[]}
1000 DELETE /schedules/full?groupName=team&clientToken=t-4
    200 33
1000 DELETE /schedules/full?groupName=team&clientToken=t-4
    200 33
1000 DELETE /schedule-groups/team?clientToken=t-5
    200 34
1000 DELETE /schedule-groups/team?clientToken=t-5
    200 34
1000 GET /schedules/full?groupName=team
    404 34 {"Message":"rule 9: team"}"#;

#[test]
fn each_route_is_served(rt: HostRuntime) -> Result<(), Fail> {
    let outside = Outside {
        replies: "200",
        zones: "America/New_York EST5EDT,M3.2.0,M11.1.0",
        ..NOTHING
    };
    let attempt = "0000000100000000000003e8 1 team/full 1970-01-01T00:16:40Z";
    check(&rt, rt.alloc(), outside, ROUTES, attempt)?;
    Ok(())
}

const PAGES: &str = r#"0 POST /schedules/b {<off>,<at>,"State":"DISABLED",<target>}
    200 2 {"ScheduleArn":"<arn>:schedule/default/b"}
0 POST /schedules/a {<off>,<at>,<target>}
    200 3 {"ScheduleArn":"<arn>:schedule/default/a"}
0 POST /schedules/c {<off>,<at>,<target>}
    200 4 {"ScheduleArn":"<arn>:schedule/default/c"}
0 GET /schedules?MaxResults=2
    200 4 {"NextToken":"default/b","Schedules":[{"Arn":"<arn>:schedule/default/a","CreationDate":0,"GroupName":"default","LastModificationDate":0,"Name":"a","State":"ENABLED","Target":{"Arn":"<hook>"}},{"Arn":"<arn>:schedule/default/b","CreationDate":0,"GroupName":"default","LastModificationDate":0,"Name":"b","State":"DISABLED","Target":{"Arn":"<hook>"}}]}
0 GET /schedules?MaxResults=2&NextToken=default/b
    200 4 {"Schedules":[{"Arn":"<arn>:schedule/default/c","CreationDate":0,"GroupName":"default","LastModificationDate":0,"Name":"c","State":"ENABLED","Target":{"Arn":"<hook>"}}]}
0 GET /schedules?MaxResults=0
    400 4 {"Message":"rule 7: MaxResults"}
0 GET /schedule-groups
    200 4 {"ScheduleGroups":[{"Arn":"<arn>:schedule-group/default","CreationDate":0,"LastModificationDate":0,"Name":"default","State":"ACTIVE"}]}
0 GET /schedules?State=DISABLED&NamePrefix=b&ScheduleGroup=default
    200 4 {"Schedules":[{"Arn":"<arn>:schedule/default/b","CreationDate":0,"GroupName":"default","LastModificationDate":0,"Name":"b","State":"DISABLED","Target":{"Arn":"<hook>"}}]}
0 POST /schedule-groups/a
    200 5 {"ScheduleGroupArn":"<arn>:schedule-group/a"}
0 GET /schedule-groups?MaxResults=1
    200 5 {"NextToken":"a","ScheduleGroups":[{"Arn":"<arn>:schedule-group/a","CreationDate":0,"LastModificationDate":0,"Name":"a","State":"ACTIVE"}]}
0 GET /schedule-groups?MaxResults=1&NextToken=a&unknown=1&unknown=2
    200 5 {"ScheduleGroups":[{"Arn":"<arn>:schedule-group/default","CreationDate":0,"LastModificationDate":0,"Name":"default","State":"ACTIVE"}]}"#;

#[test]
fn lists_come_in_pages(rt: HostRuntime) -> Result<(), Fail> {
    check(&rt, rt.alloc(), NOTHING, PAGES, "")?;
    Ok(())
}

const MOMENTS: &str = r#"500 GET /nowhere
    404 1 {"Message":"rule 3: /nowhere"}
7258118400 GET /schedules
    400 1 {"Message":"rule 2: X-Moment"}
- POST /schedule-groups/a
    200 2 {"ScheduleGroupArn":"<arn>:schedule-group/a"}
100 POST /schedule-groups/b
    200 3 {"ScheduleGroupArn":"<arn>:schedule-group/b"}
0000000600 POST /schedule-groups/a
    409 3 {"Message":"rule 9: a"}
- POST /schedule-groups/c
    200 4 {"ScheduleGroupArn":"<arn>:schedule-group/c"}
- GET /schedule-groups?NamePrefix=a
    200 4 {"ScheduleGroups":[{"Arn":"<arn>:schedule-group/a","CreationDate":500,"LastModificationDate":500,"Name":"a","State":"ACTIVE"}]}
- GET /schedule-groups/b
    200 4 {"Arn":"<arn>:schedule-group/b","CreationDate":500,"LastModificationDate":500,"Name":"b","State":"ACTIVE"}
- GET /schedule-groups/c
    200 4 {"Arn":"<arn>:schedule-group/c","CreationDate":600,"LastModificationDate":600,"Name":"c","State":"ACTIVE"}
7258118399 POST /sweep
    200 28 {"Moment":7258118399}"#;

/// A moment counts also where its request is refused, but where it is no moment.
#[test]
fn a_request_is_served_at_the_latest_moment(rt: HostRuntime) -> Result<(), Fail> {
    check(&rt, rt.alloc(), NOTHING, MOMENTS, "")?;
    Ok(())
}
