//! Steps that may not follow, each with the first rule that it breaks and its values.
use crate::playing::played;

/// Moments never fall, and a Boot has that of the step before it. A name gets bytes once, and they are a zone.
const ZONES: &str = "1 boot -> MomentBack { last: Moment(0) }
0 boot
0 zone UTC EST5EDT,M3.2.0,M11.1.0 -> ZoneKnown
0 zone UTC nonsense -> ZoneKnown
0 zone Mars/Base nonsense -> BadZone
1000 zone America/New_York EST5EDT,M3.2.0,M11.1.0
1000 zone America/New_York EST5EDT,M3.2.0,M11.1.0 -> ZoneKnown
999 zone America/New_York nonsense -> MomentBack { last: Moment(1000) }
999 swept 0 -> MomentBack { last: Moment(1000) }
1001 boot -> MomentBack { last: Moment(1000) }
1000 boot
";

/// A write: its zone, then the schedules and groups, then its token, then what is unentered.
const CHANGES: &str = "0 boot
900 group g t
900 create c; rate(1 hours); zone Europe/Paris; group nowhere; token t -> ZoneUnknown
900 create c; rate(1 hours); group nowhere; token t -> Row(NoGroup)
900 update c; rate(1 hours) -> Row(Missing)
900 delete c -> Row(Missing)
900 delete c nowhere -> Row(NoGroup)
900 ungroup default -> Row(DefaultGroup)
900 ungroup nowhere -> Row(NoGroup)
900 group g t -> Row(GroupExists)
900 group h t -> TokenKept { step: 2 }
900 create a; rate(1 hours); token t -> TokenKept { step: 2 }
900 create a; rate(1 hours); group g; token u
900 create a; rate(2 hours); group g; token u -> Row(Exists)
900 create b; rate(1 minutes); group g
900 update a; rate(2 hours); group g; token u -> TokenKept { step: 3 }
900 update a; rate(2 hours); group g -> Unentered { inc: 1, instant: 900 }
900 delete b g -> Unentered { inc: 2, instant: 900 }
900 ungroup g -> Unentered { inc: 1, instant: 900 }
900 enter 1 900
900 ungroup g -> Unentered { inc: 2, instant: 900 }
900 enter 2 900
960 ungroup g -> Unentered { inc: 2, instant: 960 }
900 delete b g v
900 create b; rate(1 minutes); token v -> TokenKept { step: 7 }
960 ungroup g
960 create a; rate(1 hours); group g -> Row(NoGroup)
";

/// The pairs of an Enter are the next occurrences, each chosen in its window.
const ENTERS: &str = "0 boot
0 create a; cron(* * * * ? *); window 15
0 create b; rate(1 minutes)
59 enter 1 0 60 -> NotNext { instant: 60 }
59 enter 3 0 -> NotNext { instant: 0 }
60 enter 2 60 -> NotNext { instant: 60 }
60 enter 2 0 60:61 -> OutsideWindow { instant: 60 }
15360 enter 1 60+60x256 -> NotNext { instant: 60 }
15360 enter 1 0 60 180 -> NotNext { instant: 180 }
15360 enter 1 0 60 120:1020 -> OutsideWindow { instant: 120 }
15360 enter 1 0 60:960 180 -> NotNext { instant: 180 }
15360 enter 1 0+60x256
? wanted 1 15360 -> [15360]
15360 enter 1 15300 15360 -> NotNext { instant: 15300 }
15360 enter 1 15360:16260 -> OutsideWindow { instant: 15360 }
15360 enter 1 15360:16259
? wanted 1 15360 -> []
15360 enter 2 0+60x255
? wanted 2 15360 -> [15300, 15360]
";

/// A lease: by the taker, or by whoever comes where no other holds the shard.
const LEASES: &str = "0 boot
0 lease 0 7 0 -> Stale { epoch: 0 }
0 lease 0 7 2 -> Stale { epoch: 0 }
0 release 0 7 0 -> Stale { epoch: 0 }
0 lease 0 7 1
0 lease 0 8 2 -> Held { worker: 7, until: 60 }
59 lease 0 8 2 -> Held { worker: 7, until: 60 }
59 lease 0 8 1 -> Stale { epoch: 1 }
59 lease 0 7 1
? holder 0 -> Holder { worker: 7, epoch: 1, until: 119 }
60 lease 0 8 2 -> Held { worker: 7, until: 119 }
60 lease 0 8 3 -> Stale { epoch: 1 }
60 lease 0 7 2
60 release 0 7 1 -> Stale { epoch: 2 }
60 release 0 8 2 -> Stale { epoch: 2 }
60 release 0 7 2
? holder 0 -> Holder { worker: 7, epoch: 2, until: 0 }
60 release 0 7 2
60 lease 0 8 3
? holder 0 -> Holder { worker: 8, epoch: 3, until: 120 }
? holder 1 -> Holder { worker: 0, epoch: 0, until: 0 }
";

/// An attempt: of an entry, under the shard's epoch, that is due, with the next number.
const ATTEMPTS: &str = "0 boot
900 create a; at(1970-01-01T00:16:40); retries 1
1000 lease 1 7 1
1000 begin 1 1000 1 1 -> Unentered { inc: 1, instant: 1000 }
1000 close 1 1000 age -> Unentered { inc: 1, instant: 1000 }
1000 end 1 1000 1 200 -> NotLive
1000 swept 1 -> Work(Enter { inc: 1 })
1000 enter 1 1000
1000 begin 1 1000 1 2 -> Stale { epoch: 1 }
1000 begin 1 1000 2 1 -> Number { used: 0 }
1000 close 1 1000 attempts -> Standing(Due)
1000 swept 1 -> Work(Begin { inc: 1, instant: 1000 })
1000 begin 1 1000 1 1
1000 begin 1 1000 2 1 -> Standing(Live)
1000 close 1 1000 attempts -> Standing(Live)
1000 swept 1 -> Work(Live { inc: 1, instant: 1000 })
1000 end 1 1000 2 200 -> NotLive
1000 end 1 1000 1 503
1000 end 1 1000 1 503 -> NotLive
1000 begin 1 1000 2 1 -> Standing(Waiting { until: 1001 })
1001 begin 1 1000 3 1 -> Number { used: 1 }
1001 begin 1 1000 2 1
1001 end 1 1000 2 0
1001 begin 1 1000 3 1 -> Standing(Exhausted(Attempts))
1001 swept 1 -> Work(Close { inc: 1, instant: 1000, reason: Attempts })
1001 close 1 1000 age -> Standing(Exhausted(Attempts))
1001 close 1 1000 attempts
1001 close 1 1000 attempts -> Standing(Decided(Attempts))
1001 begin 1 1000 3 1 -> Standing(Decided(Attempts))
1001 swept 1
";

/// An entry is given up one second behind its age.
const AGES: &str = "0 boot
900 create a; at(1970-01-01T00:16:40); age 60
1000 lease 1 7 1
1000 enter 1 1000
1060 close 1 1000 age -> Standing(Due)
1061 begin 1 1000 1 1 -> Standing(Exhausted(Age))
1061 swept 1 -> Work(Close { inc: 1, instant: 1000, reason: Age })
1061 close 1 1000 attempts -> Standing(Exhausted(Age))
1061 close 1 1000 age
? entry 1 1000 -> Some(Entry { chosen: 1000, used: 0, last: NoAttempt, outcome: Some(Age) })
1061 swept 1
";

/// A schedule is completed where it is enabled, ends by its deletion, and has nothing left to do or to come.
const COMPLETIONS: &str = "0 boot
900 create a; at(1970-01-01T00:16:40); delete
900 complete 2 -> NotComplete
999 complete 1 -> NotComplete
1000 complete 1 -> NotComplete
1000 enter 1 1000
1000 complete 1 -> NotComplete
1000 lease 1 7 1
1000 begin 1 1000 1 1
1000 complete 1 -> NotComplete
1000 end 1 1000 1 200
? work 1 999 -> Settled
? work 1 1000 -> Complete { inc: 1 }
1000 swept 1 -> Work(Complete { inc: 1 })
1000 complete 1
1000 complete 1 -> NotComplete
? named 1 -> default a
? named 2 -> None
1000 swept 1
1000 create b; rate(1 hours); delete; disabled
? work 2 9000 -> Settled
1000 complete 2 -> NotComplete
1000 create c; at(1970-01-01T00:00:01); delete
? work 3 999 -> Complete { inc: 3 }
1000 create d; at(1970-01-01T00:00:01)
? work 4 1000 -> Settled
1000 complete 4 -> NotComplete
";

/// Each page, by what it shows.
const PAGES: [(&str, &str); 7] = [
    ("zones", ZONES),
    ("changes", CHANGES),
    ("enters", ENTERS),
    ("leases", LEASES),
    ("attempts", ATTEMPTS),
    ("ages", AGES),
    ("completions", COMPLETIONS),
];

#[test]
fn broken_steps(rt: HostRuntime) {
    for (name, page) in PAGES {
        assert_eq!(rt; played(&rt, rt.alloc(), page).as_str(), page, "{name}");
    }
}
