//! What occurs: in a zone that has a gap and a fold, between dates, and across revisions.
use crate::playing::played;

/// In New York 02:30 is left out on 2026-03-08, and 01:30 comes twice on 2026-11-01, where the earlier one counts.
const SIDES: &str = "0 boot
1772841600 zone America/New_York EST5EDT,M3.2.0,M11.1.0
1772841600 create gap; cron(30 2 * * ? *); zone America/New_York
? wanted 1 1773100799 -> [1772868600, 1773037800]
1772841600 create never; at(2026-03-08T02:30:00); zone America/New_York
? wanted 2 7258118399 -> []
1793491200 create fold; cron(30 1 * * ? *); zone America/New_York
? wanted 3 1793663999 -> [1793511000, 1793601000]
1793511000 enter 3 1793511000
? wanted 3 1793663999 -> [1793601000]
";

/// A rate counts from its start, or from its creation, and up to its end.
const DATED: &str = "0 boot
1000 create a; rate(1 hours); start 2000; end 9200
? wanted 1 20000 -> [2000, 5600, 9200]
1000 create b; rate(1 hours); end 8199
? wanted 2 20000 -> [1000, 4600]
1000 create c; at(1970-01-01T00:16:39)
? wanted 3 20000 -> []
1000 create d; at(1970-01-01T00:16:40)
? wanted 4 20000 -> [1000]
";

/// A DISABLED revision occurs never; a rate keeps its creation as its anchor across updates; an entry keeps the window of the
/// revision that covers its instant.
const REVISED: &str = "0 boot
1000 create a; rate(1 hours); disabled
? wanted 1 10000 -> []
5000 update a; rate(1 hours)
? wanted 1 10000 -> [8200]
? content 1 5000 -> rate(1 hours)
8200 update a; rate(2 hours); window 15 -> Unentered { inc: 1, instant: 8200 }
8200 enter 1 8200:8201 -> OutsideWindow { instant: 8200 }
8200 enter 1 8200
8200 update a; rate(2 hours); window 15
? content 1 8200 -> rate(1 hours)
? content 1 8201 -> rate(2 hours)
? wanted 1 20000 -> [15400]
15400 enter 1 15400:16299
15400 update a; rate(2 hours); disabled
? wanted 1 100000 -> []
? entry 1 15400 -> Some(Entry { chosen: 16299, used: 0, last: NoAttempt, outcome: None })
16299 sweep -> Swept { enters: 0, closes: 0, attempts: 2, completes: 0 }
16299 delete a
16299 create a; rate(1 hours)
? named 2 -> default a
? wanted 2 16299 -> [16299]
? wanted 1 100000 -> []
";

/// Each page, by what it shows.
const PAGES: [(&str, &str); 3] = [("sides", SIDES), ("dated", DATED), ("revised", REVISED)];

#[test]
fn occurrences(rt: HostRuntime) {
    for (name, page) in PAGES {
        assert_eq!(rt; played(&rt, rt.alloc(), page).as_str(), page, "{name}");
    }
}
