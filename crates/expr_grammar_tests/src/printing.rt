use expr_grammar::{print_expr, read_expr};
use std::alloc::{AllocError, Global};
use std::test::Fail;

/// What a text spells, printed; nothing where it spells nothing.
fn printed(alloc: Global, text: &[u8]) -> Result<Vec<u8>, AllocError> {
    match read_expr(text) {
        Ok(expr) => print_expr(alloc, &expr),
        Err(_) => Ok(Vec::new(alloc)),
    }
}

/// Texts, and what is printed of them.
const PRINTED: &[(&str, &str)] = &[
    ("at(1970-01-01T00:00:00)", "at(1970-01-01T00:00:00)"),
    ("at(2000-02-29T12:34:56)", "at(2000-02-29T12:34:56)"),
    ("at(2096-02-29T00:00:01)", "at(2096-02-29T00:00:01)"),
    ("at(2104-02-29T09:08:07)", "at(2104-02-29T09:08:07)"),
    ("at(2199-12-31T23:59:59)", "at(2199-12-31T23:59:59)"),
    ("rate(1 minutes)", "rate(1 minute)"),
    ("rate(1 hours)", "rate(1 hour)"),
    ("rate(1 days)", "rate(1 day)"),
    ("rate(2 hour)", "rate(2 hours)"),
    ("rate(12   minute)", "rate(12 minutes)"),
    ("rate(345 day)", "rate(345 days)"),
    ("rate(6789 minutes)", "rate(6789 minutes)"),
    ("rate(10000 hour)", "rate(10000 hours)"),
    ("rate(999999 days)", "rate(999999 days)"),
    ("cron(30 2 * * ? *)", "cron(30 2 * * ? *)"),
    ("cron(30   1  * * ? *)", "cron(30 1 * * ? *)"),
    ("cron(0 9 1W AUG ? 2026)", "cron(0 9 1W 8 ? 2026)"),
    ("cron(0 9 31w MAY ? 2026)", "cron(0 9 31W 5 ? 2026)"),
    ("cron(0 9 30W FEB ? *)", "cron(0 9 30W 2 ? *)"),
    ("cron(0 9 ? JAN 3#2 2026)", "cron(0 9 ? 1 3#2 2026)"),
    ("cron(0 9 ? 1 6L 2026)", "cron(0 9 ? 1 6L 2026)"),
    ("cron(0 0 29 2 ? 2026-2027)", "cron(0 0 29 2 ? 2026-2027)"),
    ("cron(0-59 0-23 1-31 1-12 ? 1970-2199)", "cron(* * * * ? *)"),
    ("cron(*/1 0/1 1/1 */1 ? 1970/1)", "cron(* * * * ? *)"),
    ("cron(* * ? * 1-7 *)", "cron(* * ? * * *)"),
    (
        "cron(*/7 * * * ? *)",
        "cron(0,7,14,21,28,35,42,49,56 * * * ? *)",
    ),
    (
        "cron(0/5 * * * ? *)",
        "cron(0,5,10,15,20,25,30,35,40,45,50,55 * * * ? *)",
    ),
    ("cron(50/4 * * * ? *)", "cron(50,54,58 * * * ? *)"),
    ("cron(1-9/4 * * * ? *)", "cron(1,5,9 * * * ? *)"),
    ("cron(*/59 * * * ? *)", "cron(0,59 * * * ? *)"),
    ("cron(59/999 * * * ? *)", "cron(59 * * * ? *)"),
    (
        "cron(58-59,0-1,30,2 * * * ? *)",
        "cron(0-2,30,58-59 * * * ? *)",
    ),
    ("cron(5-5,00,03-04 * * * ? *)", "cron(0,3-5 * * * ? *)"),
    ("cron(0-58 * * * ? *)", "cron(0-58 * * * ? *)"),
    ("cron(1-59 * * * ? *)", "cron(1-59 * * * ? *)"),
    ("cron(0 */5 * * ? *)", "cron(0 0,5,10,15,20 * * ? *)"),
    ("cron(0 20/2 * * ? *)", "cron(0 20,22 * * ? *)"),
    ("cron(0 3-21/9 * * ? *)", "cron(0 3,12,21 * * ? *)"),
    ("cron(0 23,22,0 * * ? *)", "cron(0 0,22-23 * * ? *)"),
    ("cron(0 9 */10 * ? *)", "cron(0 9 1,11,21,31 * ? *)"),
    ("cron(0 9 28/2 * ? *)", "cron(0 9 28,30 * ? *)"),
    ("cron(0 9 5-25/10 * ? *)", "cron(0 9 5,15,25 * ? *)"),
    ("cron(0 9 1-31/31 * ? *)", "cron(0 9 1 * ? *)"),
    ("cron(0 9 31,30,1 * ? *)", "cron(0 9 1,30-31 * ? *)"),
    ("cron(0 9 l * ? *)", "cron(0 9 L * ? *)"),
    ("cron(0 9 01w * ? *)", "cron(0 9 1W * ? *)"),
    ("cron(0 9 1 */5 ? *)", "cron(0 9 1 1,6,11 ? *)"),
    ("cron(0 9 1 10/1 ? *)", "cron(0 9 1 10-12 ? *)"),
    ("cron(0 9 1 2-11/3 ? *)", "cron(0 9 1 2,5,8,11 ? *)"),
    ("cron(0 9 1 dec,jAn-Mar,12 ? *)", "cron(0 9 1 1-3,12 ? *)"),
    ("cron(0 9 ? * MON-FRI *)", "cron(0 9 ? * 2-6 *)"),
    ("cron(0 9 ? * sat,SuN *)", "cron(0 9 ? * 1,7 *)"),
    ("cron(0 9 ? * l *)", "cron(0 9 ? * 7 *)"),
    ("cron(0 9 ? * fRil *)", "cron(0 9 ? * 6L *)"),
    ("cron(0 9 ? * 07#5 *)", "cron(0 9 ? * 7#5 *)"),
    ("cron(0 9 ? * sun#1 *)", "cron(0 9 ? * 1#1 *)"),
    (
        "cron(0 9 1 1 ? */50)",
        "cron(0 9 1 1 ? 1970,2020,2070,2120,2170)",
    ),
    (
        "cron(0 9 1 1 ? 2190/3)",
        "cron(0 9 1 1 ? 2190,2193,2196,2199)",
    ),
    (
        "cron(0 9 1 1 ? 1971-2198/100)",
        "cron(0 9 1 1 ? 1971,2071,2171)",
    ),
    ("cron(0 9 1 1 ? 2098,2097)", "cron(0 9 1 1 ? 2097-2098)"),
    ("cron(0 9 1 1 ? 2097)", "cron(0 9 1 1 ? 2097)"),
    ("cron(0 9 1 1 ? 2098)", "cron(0 9 1 1 ? 2098)"),
    (
        "cron(0 9 1 1 ? 2096-2099,2095,2101)",
        "cron(0 9 1 1 ? 2095-2099,2101)",
    ),
    ("cron(0 9 1 1 ? 2199,1970)", "cron(0 9 1 1 ? 1970,2199)"),
    ("cron(0 9 1 1 ? 1971-2199)", "cron(0 9 1 1 ? 1971-2199)"),
    ("cron(0 9 1 1 ? 1970-2198)", "cron(0 9 1 1 ? 1970-2198)"),
];

#[test]
fn texts_are_printed_in_one_way(rt: HostRuntime) -> Result<(), Fail> {
    for (text, canonical) in PRINTED {
        let printed = printed(rt.alloc(), text.as_bytes())?;
        assert_eq!(rt; str::from_utf8(&printed)?, *canonical);
        assert_eq!(rt; read_expr(canonical.as_bytes()), read_expr(text.as_bytes()));
    }
    Ok(())
}
