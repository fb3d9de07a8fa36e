//! Whole runs: sweeps of all shards with the steps that they add, and two workers at one shard.
use crate::playing::played;

/// A schedule that never occurs and ends by its deletion is completed by a sweep.
const COMPLETED: &str = "0 boot
0 create a; cron(0 0 29 2 ? 2026-2027); delete
0 sweep -> Swept { enters: 0, closes: 0, attempts: 0, completes: 1 }
? length -> 27
? named 1 -> default a
? content 1 0 -> cron(0 0 29 2 ? 2026-2027)
? content 1 1 -> None
0 update a; rate(1 hours) -> Row(Missing)
";

/// An update at the moment of a creation waits for the occurrence of that moment, and covers none of it.
const UPDATED: &str = "0 boot
1000 create a; rate(1 hours)
? length -> 2
? wanted 1 999 -> []
? wanted 1 4599 -> [1000]
? wanted 1 4600 -> [1000, 4600]
1000 update a; rate(1 hours) -> Unentered { inc: 1, instant: 1000 }
1000 enter 1 1000
1000 update a; rate(1 hours)
? length -> 4
? wanted 1 4600 -> [4600]
1000 sweep -> Swept { enters: 0, closes: 0, attempts: 1, completes: 0 }
? length -> 30
? entry 1 1000 -> Some(Entry { chosen: 1000, used: 1, last: Ended { at: 1000 }, outcome: Some(Done) })
? entry 1 4600 -> None
? wanted 1 4600 -> [4600]
";

/// A word chooses the moment in a window.
const CHOSEN: &str = "0 boot
900 create a; at(1970-01-01T00:16:40); window 15
1000 sweep 901 -> Swept { enters: 1, closes: 0, attempts: 0, completes: 0 }
? length -> 27
? entry 1 1000 -> Some(Entry { chosen: 1001, used: 0, last: NoAttempt, outcome: None })
1001 sweep -> Swept { enters: 0, closes: 0, attempts: 1, completes: 0 }
? length -> 53
? entry 1 1000 -> Some(Entry { chosen: 1001, used: 1, last: Ended { at: 1001 }, outcome: Some(Done) })
";

/// Lost requests are tried again as often as is allowed.
const TRIED_AGAIN: &str = "0 boot
900 create a; at(1970-01-01T00:16:40); retries 2; queue arn:aws:sqs:local:000000000000:dead
1000 sweep 0 0 -> Swept { enters: 1, closes: 0, attempts: 1, completes: 0 }
? length -> 29
1001 sweep 0 0 -> Swept { enters: 0, closes: 0, attempts: 1, completes: 0 }
? length -> 55
1003 sweep 0 0 -> Swept { enters: 0, closes: 1, attempts: 1, completes: 0 }
? length -> 82
? entry 1 1000 -> Some(Entry { chosen: 1000, used: 3, last: Ended { at: 1003 }, outcome: Some(Attempts) })
? letters arn:aws:sqs:local:000000000000:dead -> letters [1 1 1000 Attempts]
";

/// An entry is given up where its next attempt would come behind its age.
const TOO_OLD: &str = "0 boot
900 create a; at(1970-01-01T00:16:40); retries 185; age 60; queue arn:aws:sqs:local:000000000000:dead
1000 sweep 0 0 -> Swept { enters: 1, closes: 0, attempts: 1, completes: 0 }
1001 sweep 0 0 -> Swept { enters: 0, closes: 0, attempts: 1, completes: 0 }
1003 sweep 0 0 -> Swept { enters: 0, closes: 0, attempts: 1, completes: 0 }
1007 sweep 0 0 -> Swept { enters: 0, closes: 0, attempts: 1, completes: 0 }
1015 sweep 0 0 -> Swept { enters: 0, closes: 0, attempts: 1, completes: 0 }
1031 sweep 0 0 -> Swept { enters: 0, closes: 1, attempts: 1, completes: 0 }
? length -> 160
? entry 1 1000 -> Some(Entry { chosen: 1000, used: 6, last: Ended { at: 1031 }, outcome: Some(Age) })
? letters arn:aws:sqs:local:000000000000:dead -> letters [1 1 1000 Age]
";

/// What passed while the service was stopped is entered at the next sweep, and closed where it is too old by then.
const STOPPED: &str = "0 boot
0 create a; rate(1 hours)
0 boot
172800 sweep -> Swept { enters: 1, closes: 24, attempts: 25, completes: 0 }
? length -> 102
? moment -> 172800
? entry 1 82800 -> Some(Entry { chosen: 82800, used: 0, last: NoAttempt, outcome: Some(Age) })
? entry 1 86400 -> Some(Entry { chosen: 86400, used: 1, last: Ended { at: 172800 }, outcome: Some(Done) })
? entry 1 172800 -> Some(Entry { chosen: 172800, used: 1, last: Ended { at: 172800 }, outcome: Some(Done) })
? wanted 1 172800 -> []
? counts 172800 -> Counts { moment: 172800, steps: 102, schedules: 1, groups: 1, entries: 49, done: 25, finals: 0, attempts: 0, age: 24, cancelled: 0, waiting: 0, due: 0, live: 0, exhausted: 0, letters: 0 }
";

/// Two workers at one shard: the attempt of the first is lost where the second takes it.
const TAKEN: &str = "0 boot
50 create a; at(1970-01-01T00:01:40)
100 lease 1 1 1
100 enter 1 100
100 begin 1 100 1 1
? holder 1 -> Holder { worker: 1, epoch: 1, until: 160 }
? live 1 -> 1
159 lease 1 2 2 -> Held { worker: 1, until: 160 }
160 lease 1 2 2
? live 1 -> 0
160 begin 1 100 2 2 -> Standing(Waiting { until: 161 })
161 end 1 100 1 200 -> NotLive
161 begin 1 100 2 1 -> Stale { epoch: 2 }
161 begin 1 100 2 2
161 end 1 100 2 200
? entry 1 100 -> Some(Entry { chosen: 100, used: 2, last: Ended { at: 161 }, outcome: Some(Done) })
";

/// A final reply decides the entry.
const FINAL: &str = "0 boot
900 create a; at(1970-01-01T00:16:40); retries 2; queue arn:aws:sqs:local:000000000000:dead
1000 sweep 0 404 -> Swept { enters: 1, closes: 0, attempts: 1, completes: 0 }
? length -> 29
? entry 1 1000 -> Some(Entry { chosen: 1000, used: 1, last: Ended { at: 1000 }, outcome: Some(Final) })
? letters arn:aws:sqs:local:000000000000:dead -> letters [1 1 1000 Final]
1001 sweep -> Swept { enters: 0, closes: 0, attempts: 0, completes: 0 }
";

/// With its group a schedule is deleted, and its open entries are cancelled.
const CANCELLED: &str = "0 boot
900 group g
900 create x; at(1970-01-01T00:16:40); window 15; group g; queue arn:aws:sqs:local:000000000000:dead
1000 sweep 600 -> Swept { enters: 1, closes: 0, attempts: 0, completes: 0 }
? length -> 28
? entry 1 1000 -> Some(Entry { chosen: 1600, used: 0, last: NoAttempt, outcome: None })
1200 ungroup g
? length -> 29
? entry 1 1000 -> Some(Entry { chosen: 1600, used: 0, last: NoAttempt, outcome: Some(Cancelled) })
1200 create x; rate(1 hours); group g -> Row(NoGroup)
1600 sweep -> Swept { enters: 0, closes: 0, attempts: 0, completes: 0 }
? letters arn:aws:sqs:local:000000000000:dead -> letters
";

/// A Boot loses the attempt in the air, which counts; and each swept shard is unswept by it.
const LOST: &str = "0 boot
900 create a; at(1970-01-01T00:16:40); retries 0
900 create b; at(1970-01-01T00:16:40); retries 1
900 swept 7
? swept 7 -> Some(Moment(900))
1000 enter 1 1000
1000 enter 2 1000
1000 lease 1 7 1
1000 lease 2 7 1
1000 begin 1 1000 1 1
1000 begin 2 1000 1 1
? live -> 2
1000 boot
? live -> 0
? swept 7 -> None
? holder 1 -> Holder { worker: 7, epoch: 1, until: 0 }
1000 end 1 1000 1 200 -> NotLive
? work 1 1000 -> Close { inc: 1, instant: 1000, reason: Attempts }
? counts 1000 -> Counts { moment: 1000, steps: 11, schedules: 2, groups: 1, entries: 2, done: 0, finals: 0, attempts: 0, age: 0, cancelled: 0, waiting: 1, due: 0, live: 0, exhausted: 1, letters: 0 }
? work 2 1000 -> Settled
? work 2 1001 -> Begin { inc: 2, instant: 1000 }
1001 sweep -> Swept { enters: 0, closes: 1, attempts: 1, completes: 0 }
? entry 1 1000 -> Some(Entry { chosen: 1000, used: 1, last: Lost { at: 1000 }, outcome: Some(Attempts) })
? entry 2 1000 -> Some(Entry { chosen: 1000, used: 2, last: Ended { at: 1001 }, outcome: Some(Done) })
";

/// The attempt of a deleted schedule is still in the air, and its end leaves the outcome.
const DELETED: &str = "0 boot
900 create a; at(1970-01-01T00:16:40)
1000 lease 1 7 1
1000 enter 1 1000
1000 begin 1 1000 1 1
1000 delete a
? entry 1 1000 -> Some(Entry { chosen: 1000, used: 1, last: Live { at: 1000 }, outcome: Some(Cancelled) })
? live -> 1
? work 1 1000 -> Settled
1000 end 1 1000 1 200
? live -> 0
? entry 1 1000 -> Some(Entry { chosen: 1000, used: 1, last: Ended { at: 1000 }, outcome: Some(Cancelled) })
";

/// Each run, by what it shows.
const RUNS: [(&str, &str); 11] = [
    ("completed", COMPLETED),
    ("updated", UPDATED),
    ("chosen", CHOSEN),
    ("tried again", TRIED_AGAIN),
    ("too old", TOO_OLD),
    ("stopped", STOPPED),
    ("taken", TAKEN),
    ("final", FINAL),
    ("cancelled", CANCELLED),
    ("lost", LOST),
    ("deleted", DELETED),
];

#[test]
fn whole_runs(rt: HostRuntime) {
    for (name, page) in RUNS {
        assert_eq!(rt; played(&rt, rt.alloc(), page).as_str(), page, "{name}");
    }
}
