//! What is read of a book: each page asks behind steps that it tells.
use crate::playing::played;

/// One schedule, one group; what is not there is refused, the group first.
const ONE: &str = "0 boot
? GET /schedules/a -> 404 rule 10: default/a
? GET /schedules/a?groupName=g -> 404 rule 9: g
? GET /schedule-groups/g -> 404 rule 9: g
90 group g
100 create a; at(1970-01-01T00:16:40); group g; retries 3; age 60
? GET /schedule-groups/g -> {\"Arn\":\"arn:aws:scheduler:local:000000000000:schedule-group/g\",\"CreationDate\":90,\"LastModificationDate\":90,\"Name\":\"g\",\"State\":\"ACTIVE\"}
? GET /schedules/a -> 404 rule 10: default/a
? GET /schedules/a?groupName=g -> {\"ActionAfterCompletion\":\"NONE\",\"Arn\":\"arn:aws:scheduler:local:000000000000:schedule/g/a\",\"CreationDate\":100,\"FlexibleTimeWindow\":{\"Mode\":\"OFF\"},\"GroupName\":\"g\",\"LastModificationDate\":100,\"Name\":\"a\",\"ScheduleExpression\":\"at(1970-01-01T00:16:40)\",\"ScheduleExpressionTimezone\":\"UTC\",\"State\":\"ENABLED\",\"Target\":{\"Arn\":\"http://127.0.0.1:9000/hook\",\"RetryPolicy\":{\"MaximumEventAgeInSeconds\":60,\"MaximumRetryAttempts\":3},\"RoleArn\":\"arn:aws:iam::1:role/r\"}}
200 update a; at(1970-01-01T00:16:41); group g; disabled
? GET /schedules/a?groupName=g -> {\"ActionAfterCompletion\":\"NONE\",\"Arn\":\"arn:aws:scheduler:local:000000000000:schedule/g/a\",\"CreationDate\":100,\"FlexibleTimeWindow\":{\"Mode\":\"OFF\"},\"GroupName\":\"g\",\"LastModificationDate\":200,\"Name\":\"a\",\"ScheduleExpression\":\"at(1970-01-01T00:16:41)\",\"ScheduleExpressionTimezone\":\"UTC\",\"State\":\"DISABLED\",\"Target\":{\"Arn\":\"http://127.0.0.1:9000/hook\",\"RetryPolicy\":{\"MaximumEventAgeInSeconds\":86400,\"MaximumRetryAttempts\":185},\"RoleArn\":\"arn:aws:iam::1:role/r\"}}
300 delete a g
? GET /schedules/a?groupName=g -> 404 rule 10: g/a
";

/// Pages of schedules and groups: the rows that are asked for, and whether more follow.
const LISTS: &str = "0 boot
? GET /schedules -> {\"Schedules\":[]}
? GET /schedules?ScheduleGroup=g -> 404 rule 9: g
0 group g
? GET /schedules?ScheduleGroup=g -> {\"Schedules\":[]}
0 create b; at(1970-01-01T00:16:40)
1 create a; at(1970-01-01T00:16:40); disabled
2 create a; at(1970-01-01T00:16:40); group g
? GET /schedules?MaxResults=2 -> {\"NextToken\":\"default/b\",\"Schedules\":[{\"Arn\":\"arn:aws:scheduler:local:000000000000:schedule/default/a\",\"CreationDate\":1,\"GroupName\":\"default\",\"LastModificationDate\":1,\"Name\":\"a\",\"State\":\"DISABLED\",\"Target\":{\"Arn\":\"http://127.0.0.1:9000/hook\"}},{\"Arn\":\"arn:aws:scheduler:local:000000000000:schedule/default/b\",\"CreationDate\":0,\"GroupName\":\"default\",\"LastModificationDate\":0,\"Name\":\"b\",\"State\":\"ENABLED\",\"Target\":{\"Arn\":\"http://127.0.0.1:9000/hook\"}}]}
? GET /schedules?MaxResults=2&NextToken=default/b -> {\"Schedules\":[{\"Arn\":\"arn:aws:scheduler:local:000000000000:schedule/g/a\",\"CreationDate\":2,\"GroupName\":\"g\",\"LastModificationDate\":2,\"Name\":\"a\",\"State\":\"ENABLED\",\"Target\":{\"Arn\":\"http://127.0.0.1:9000/hook\"}}]}
? GET /schedules?NamePrefix=b&MaxResults=1 -> {\"Schedules\":[{\"Arn\":\"arn:aws:scheduler:local:000000000000:schedule/default/b\",\"CreationDate\":0,\"GroupName\":\"default\",\"LastModificationDate\":0,\"Name\":\"b\",\"State\":\"ENABLED\",\"Target\":{\"Arn\":\"http://127.0.0.1:9000/hook\"}}]}
? GET /schedules?State=DISABLED -> {\"Schedules\":[{\"Arn\":\"arn:aws:scheduler:local:000000000000:schedule/default/a\",\"CreationDate\":1,\"GroupName\":\"default\",\"LastModificationDate\":1,\"Name\":\"a\",\"State\":\"DISABLED\",\"Target\":{\"Arn\":\"http://127.0.0.1:9000/hook\"}}]}
? GET /schedules?NextToken=g/a -> {\"Schedules\":[]}
? GET /schedule-groups?MaxResults=1 -> {\"NextToken\":\"default\",\"ScheduleGroups\":[{\"Arn\":\"arn:aws:scheduler:local:000000000000:schedule-group/default\",\"CreationDate\":0,\"LastModificationDate\":0,\"Name\":\"default\",\"State\":\"ACTIVE\"}]}
? GET /schedule-groups?NextToken=default -> {\"ScheduleGroups\":[{\"Arn\":\"arn:aws:scheduler:local:000000000000:schedule-group/g\",\"CreationDate\":0,\"LastModificationDate\":0,\"Name\":\"g\",\"State\":\"ACTIVE\"}]}
";

/// An occurrence: never entered, entered, with an attempt that is live, lost, or ended.
const OCCURRENCES: &str = "0 boot
900 create a; at(1970-01-01T00:16:40); retries 3
? GET /executions/0000000100000000000003e8 -> 404 rule 10: 0000000100000000000003e8
1000 enter 1 1000
? GET /executions/0000000100000000000003e8 -> {\"Attempts\":[],\"Chosen\":1000,\"ExecutionId\":\"0000000100000000000003e8\",\"Instant\":1000,\"Outcome\":\"Undecided\",\"ScheduleArn\":\"arn:aws:scheduler:local:000000000000:schedule/default/a\"}
1000 lease 1 0 1
1000 begin 1 1000 1 1
? GET /executions/0000000100000000000003e8 -> {\"Attempts\":[{\"Begun\":1000,\"Number\":1,\"Verdict\":\"Live\"}],\"Chosen\":1000,\"ExecutionId\":\"0000000100000000000003e8\",\"Instant\":1000,\"Outcome\":\"Undecided\",\"ScheduleArn\":\"arn:aws:scheduler:local:000000000000:schedule/default/a\"}
1000 lease 1 0 2
1001 begin 1 1000 2 2
1001 end 1 1000 2 500
1003 begin 1 1000 3 2
1003 end 1 1000 3 200
? GET /executions/0000000100000000000003e8 -> {\"Attempts\":[{\"Begun\":1000,\"Number\":1,\"Verdict\":\"Lost\"},{\"Begun\":1001,\"Number\":2,\"Verdict\":\"Retry\"},{\"Begun\":1003,\"Number\":3,\"Verdict\":\"Done\"}],\"Chosen\":1000,\"ExecutionId\":\"0000000100000000000003e8\",\"Instant\":1000,\"Outcome\":\"Done\",\"ScheduleArn\":\"arn:aws:scheduler:local:000000000000:schedule/default/a\"}
? GET /executions/0000000200000000000003e8 -> 404 rule 10: 0000000200000000000003e8
";

/// Letters of a queue, from the first on, behind one, and behind the last one.
const LETTERS: &str = "0 boot
900 create a; at(1970-01-01T00:16:40); retries 0; queue arn:aws:sqs:local:0:dead
900 create b; at(1970-01-01T00:16:40); retries 0; queue arn:aws:sqs:local:0:dead
1000 sweep 0 404 -> Swept { enters: 2, closes: 0, attempts: 2, completes: 0 }
? GET /dead-letters?Queue=arn:aws:sqs:local:0:dead -> {\"Letters\":[{\"ExecutionId\":\"0000000100000000000003e8\",\"Number\":1,\"Reason\":\"Final\",\"ScheduleArn\":\"arn:aws:scheduler:local:000000000000:schedule/default/a\"},{\"ExecutionId\":\"0000000200000000000003e8\",\"Number\":2,\"Reason\":\"Final\",\"ScheduleArn\":\"arn:aws:scheduler:local:000000000000:schedule/default/b\"}]}
? GET /dead-letters?Queue=arn:aws:sqs:local:0:dead&After=1 -> {\"Letters\":[{\"ExecutionId\":\"0000000200000000000003e8\",\"Number\":2,\"Reason\":\"Final\",\"ScheduleArn\":\"arn:aws:scheduler:local:000000000000:schedule/default/b\"}]}
? GET /dead-letters?Queue=arn:aws:sqs:local:0:dead&After=2 -> {\"Letters\":[]}
? GET /dead-letters?Queue=arn:aws:sqs:local:0:other -> {\"Letters\":[]}
? counts 1000 -> Counts { moment: 1000, steps: 33, schedules: 2, groups: 1, entries: 2, done: 0, finals: 2, attempts: 0, age: 0, cancelled: 0, waiting: 0, due: 0, live: 0, exhausted: 0, letters: 2 }
";

/// Each page, by what it shows.
const PAGES: [(&str, &str); 4] = [
    ("one", ONE),
    ("lists", LISTS),
    ("occurrences", OCCURRENCES),
    ("letters", LETTERS),
];

#[test]
fn replies_to_reads(rt: HostRuntime) {
    for (name, page) in PAGES {
        assert_eq!(rt; played(&rt, rt.alloc(), page).as_str(), page, "{name}");
    }
}
