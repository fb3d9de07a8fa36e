//! As many schedules and groups as there may be, and one more: planned, and offered.
use crate::playing::played;
use std::alloc::{AllocError, Global};
use std::process::Abort;

/// Beside 10,000 schedules. A name that is taken is told first, and what does not add one is not refused.
const BESIDE_SCHEDULES: &str = "? plan 0 create a; rate(1 hours) -> 402 rule 11: 10000
? plan 0 create s1; rate(1 hours) -> 409 rule 10: default/s1
? plan 0 update s1; rate(1 hours) -> ready at 0
0 create a; rate(1 hours) -> Row(TooMany { count: 10000 })
0 delete s1
? plan 0 create a; rate(1 hours) -> ready at 0
";

/// Beside 500 groups, of which one was there from the start.
const BESIDE_GROUPS: &str = "? plan 0 group a -> 402 rule 11: 500
? plan 0 group g1 -> 409 rule 9: g1
? plan 0 create a; rate(1 hours); group g1 -> ready at 0
0 group a -> Row(TooMany { count: 500 })
0 ungroup g1
? plan 0 group a -> ready at 0
";

/// A page that creates so many, their numbers behind these words, and then goes on.
fn page_of(
    alloc: Global,
    count: u32,
    creates: &str,
    content: &str,
    goes_on: &str,
) -> Result<String, AllocError> {
    let mut page = String::from_str(alloc, "0 boot\n")?;
    for number in 0..count {
        page.push_str(creates)?;
        page.push_str(number.to_string(alloc)?.as_str())?;
        page.push_str(content)?;
    }
    page.push_str(goes_on)?;
    Ok(page)
}

/// The page comes back as it stands.
fn check(rt: &impl Abort, alloc: Global, page: &str) {
    assert_eq!(rt; played(rt, alloc, page).as_str(), page);
}

#[test]
fn ten_thousand_schedules_and_no_more(rt: HostRuntime) {
    let at = "; at(2100-01-01T00:00:00)\n";
    let page = page_of(rt.alloc(), 10_000, "0 create s", at, BESIDE_SCHEDULES);
    check(
        &rt,
        rt.alloc(),
        page.expect(&rt, "memory for a page").as_str(),
    );
}

#[test]
fn five_hundred_groups_and_no_more(rt: HostRuntime) {
    let page = page_of(rt.alloc(), 499, "0 group g", "\n", BESIDE_GROUPS);
    check(
        &rt,
        rt.alloc(),
        page.expect(&rt, "memory for a page").as_str(),
    );
}
