//! What is to be done with a write: each page asks before the write is made.
use crate::playing::played;

/// Groups, then schedules; a token that is kept decides before both.
const REFUSED: &str = "0 boot
? plan 0 group default -> 409 rule 9: default
? plan 0 ungroup default -> 400 rule 9: default
? plan 0 ungroup g -> 404 rule 9: g
? plan 0 create a; rate(1 hours); group g -> 404 rule 9: g
? plan 0 update a; rate(1 hours); group g -> 404 rule 9: g
? plan 0 delete a g -> 404 rule 9: g
? plan 0 update a; rate(1 hours) -> 404 rule 10: default/a
? plan 0 delete a -> 404 rule 10: default/a
? plan 0 group g t -> ready at 0
0 group g t
? plan 0 group g t -> {\"ScheduleGroupArn\":\"arn:aws:scheduler:local:000000000000:schedule-group/g\"}
? plan 0 group g u -> 409 rule 9: g
? plan 0 group h t -> 409 rule 8: step 2
? plan 0 ungroup nowhere t -> 409 rule 8: step 2
? plan 0 create a; rate(1 hours); group g; token v -> ready at 0
0 create a; rate(1 hours); group g; token v
? plan 0 create a; rate(1 hours); group g; token v -> {\"ScheduleArn\":\"arn:aws:scheduler:local:000000000000:schedule/g/a\"}
? plan 0 create a; rate(2 hours); group g; token v -> 409 rule 8: step 3
? plan 0 create a; rate(2 hours); group g; token w -> 409 rule 10: g/a
";

/// The same write again is answered as before, also where what it made is gone.
const AGAIN: &str = "0 boot
1000 create a; at(1970-01-01T00:00:00); token t
1000 delete a default u
? plan 1000 create a; at(1970-01-01T00:00:00); token t -> {\"ScheduleArn\":\"arn:aws:scheduler:local:000000000000:schedule/default/a\"}
? plan 1000 delete a default u -> {}
? plan 1000 delete a default v -> 404 rule 10: default/a
? plan 1000 create a; at(1970-01-01T00:00:00); token u -> 409 rule 8: step 3
";

/// A zone without bytes is asked for behind all refusals and before what is behind.
const ZONES: &str = "0 boot
? plan 900 create a; rate(1 hours); zone America/New_York -> needs America/New_York
? plan 900 create a; rate(1 hours); zone America/New_York; group g -> 404 rule 9: g
900 create a; rate(1 hours)
? plan 900 create a; rate(1 hours); zone America/New_York -> 409 rule 10: default/a
? plan 900 update a; rate(1 hours); zone America/New_York -> needs America/New_York
900 zone America/New_York EST5EDT,M3.2.0,M11.1.0
? plan 900 update a; rate(1 hours); zone America/New_York -> catch up 1
900 enter 1 900
? plan 900 update a; rate(1 hours); zone America/New_York -> ready at 900
";

/// What a write touches has entries up to the moment: the least incarnation that has not comes first.
const BEHIND: &str = "0 boot
900 group g
900 create a; rate(1 hours); group g
900 create b; rate(1 minutes); group g
? plan 899 ungroup g -> ready at 899
? plan 900 ungroup g -> catch up 1
? plan 900 delete b g -> catch up 2
900 enter 1 900
? plan 900 ungroup g -> catch up 2
900 enter 2 900
? plan 900 ungroup g -> ready at 900
? plan 960 ungroup g -> catch up 2
";

/// Each page, by what it shows.
const PAGES: [(&str, &str); 4] = [
    ("refused", REFUSED),
    ("again", AGAIN),
    ("zones", ZONES),
    ("behind", BEHIND),
];

#[test]
fn plans_of_writes(rt: HostRuntime) {
    for (name, page) in PAGES {
        assert_eq!(rt; played(&rt, rt.alloc(), page).as_str(), page, "{name}");
    }
}
