use expr_grammar::{ExprFault, read_expr};
use expressions::{Civil, CronSets, DayRule, Expr, Unit};

const ALL_MINUTES: u64 = (1 << 60) - 1;

const ALL_HOURS: u32 = (1 << 24) - 1;

const ALL_DAYS: u32 = u32::MAX - 1;

const ALL_MONTHS: u16 = (1 << 13) - 2;

const ALL_YEARS_HIGH: u128 = (1 << 102) - 1;

const YEAR_2026: u128 = 1 << 56;

/// Each minute of each day.
const ALWAYS: CronSets = CronSets {
    minutes: ALL_MINUTES,
    hours: ALL_HOURS,
    days: DayRule::OfMonth(ALL_DAYS),
    months: ALL_MONTHS,
    years_low: u128::MAX,
    years_high: ALL_YEARS_HIGH,
};

/// 09:00 in 2026.
const NINE: CronSets = CronSets {
    minutes: 1,
    hours: 1 << 9,
    days: DayRule::OfMonth(ALL_DAYS),
    months: ALL_MONTHS,
    years_low: YEAR_2026,
    years_high: 0,
};

const CRONS: &[(&[u8], CronSets)] = &[
    (b"cron(* * * * ? *)", ALWAYS),
    (
        b"cron(30 2 * * ? *)",
        CronSets {
            minutes: 1 << 30,
            hours: 1 << 2,
            ..ALWAYS
        },
    ),
    (
        b"cron(30   1  * * ? *)",
        CronSets {
            minutes: 1 << 30,
            hours: 1 << 1,
            ..ALWAYS
        },
    ),
    (
        b"cron(0 9 1W AUG ? 2026)",
        CronSets {
            days: DayRule::NearWeekday(1),
            months: 1 << 8,
            ..NINE
        },
    ),
    (
        b"cron(0 9 31w MAY ? 2026)",
        CronSets {
            days: DayRule::NearWeekday(31),
            months: 1 << 5,
            ..NINE
        },
    ),
    (
        b"cron(0 9 ? JAN 3#2 2026)",
        CronSets {
            days: DayRule::Nth { day: 3, nth: 2 },
            months: 1 << 1,
            ..NINE
        },
    ),
    (
        b"cron(0 9 ? 1 6L 2026)",
        CronSets {
            days: DayRule::LastOf(6),
            months: 1 << 1,
            ..NINE
        },
    ),
    (
        b"cron(0 9 ? 1 fRil 2026)",
        CronSets {
            days: DayRule::LastOf(6),
            months: 1 << 1,
            ..NINE
        },
    ),
    (
        b"cron(0 9 ? 1 sat#5 2026)",
        CronSets {
            days: DayRule::Nth { day: 7, nth: 5 },
            months: 1 << 1,
            ..NINE
        },
    ),
    (
        b"cron(0 9 L 1 ? 2026)",
        CronSets {
            days: DayRule::LastDay,
            months: 1 << 1,
            ..NINE
        },
    ),
    (
        b"cron(0 9 ? 1 L 2026)",
        CronSets {
            days: DayRule::OfWeek(1 << 7),
            months: 1 << 1,
            ..NINE
        },
    ),
    (
        b"cron(0 9 ? 1 l 2026)",
        CronSets {
            days: DayRule::OfWeek(1 << 7),
            months: 1 << 1,
            ..NINE
        },
    ),
    (
        b"cron(0 9 ? * MON-FRI 2026)",
        CronSets {
            days: DayRule::OfWeek(0b111_1100),
            ..NINE
        },
    ),
    (
        b"cron(0 9 ? * sun,WeD,7 2026)",
        CronSets {
            days: DayRule::OfWeek(0b1001_0010),
            ..NINE
        },
    ),
    (
        b"cron(0 9 ? * * 2026)",
        CronSets {
            days: DayRule::OfWeek(0b1111_1110),
            ..NINE
        },
    ),
    (
        b"cron(0/5 9 * * ? 2026)",
        CronSets {
            minutes: 0x84_2108_4210_8421,
            ..NINE
        },
    ),
    (
        b"cron(*/59 9 * * ? 2026)",
        CronSets {
            minutes: 1 | 1 << 59,
            ..NINE
        },
    ),
    (
        b"cron(59/999 9 * * ? 2026)",
        CronSets {
            minutes: 1 << 59,
            ..NINE
        },
    ),
    (
        b"cron(00,03-05,5-5 09 * * ? 2026)",
        CronSets {
            minutes: 0b11_1001,
            ..NINE
        },
    ),
    (
        b"cron(10-20/7 9 * * ? 2026)",
        CronSets {
            minutes: 1 << 10 | 1 << 17,
            ..NINE
        },
    ),
    (
        b"cron(0 */12 * * ? 2026)",
        CronSets {
            hours: 1 | 1 << 12,
            ..NINE
        },
    ),
    (
        b"cron(0 22/1 * * ? 2026)",
        CronSets {
            hours: 1 << 22 | 1 << 23,
            ..NINE
        },
    ),
    (
        b"cron(0 9 1-31/31 * ? 2026)",
        CronSets {
            days: DayRule::OfMonth(1 << 1),
            ..NINE
        },
    ),
    (
        b"cron(0 9 1,31 jan-Feb,12 ? 2026)",
        CronSets {
            days: DayRule::OfMonth(1 << 1 | 1 << 31),
            months: 1 << 1 | 1 << 2 | 1 << 12,
            ..NINE
        },
    ),
    (
        b"cron(0 9 * */6 ? 2026)",
        CronSets {
            months: 1 << 1 | 1 << 7,
            ..NINE
        },
    ),
    (
        b"cron(0 9 * * ? 1970,2199)",
        CronSets {
            years_low: 1,
            years_high: 1 << 101,
            ..NINE
        },
    ),
    (
        b"cron(0 9 * * ? 2097-2098)",
        CronSets {
            years_low: 1 << 127,
            years_high: 1,
            ..NINE
        },
    ),
    (
        b"cron(0 9 * * ? 2026/100)",
        CronSets {
            years_low: YEAR_2026,
            years_high: 1 << 28,
            ..NINE
        },
    ),
];

const FAULTS: &[(&[u8], u8, usize)] = &[
    (b"", 1, 0),
    (b"at(", 1, 0),
    (b"At(2026-01-01T00:00:00)", 1, 0),
    (b" at(2026-01-01T00:00:00)", 1, 0),
    (b"at(2026-01-01T00:00:00) ", 1, 0),
    (b"at(2026-1-01T00:00:00)", 1, 0),
    (b"at(2026-01-01t00:00:00)", 1, 0),
    (b"at(2026-01-01T00:00:0x)", 1, 0),
    (b"at(1969-12-31T23:59:59)", 3, 3),
    (b"at(2200-01-01T00:00:00)", 3, 3),
    (b"at(2026-00-01T00:00:00)", 3, 8),
    (b"at(2026-13-41T00:00:00)", 3, 8),
    (b"at(2026-04-31T00:00:00)", 3, 11),
    (b"at(2026-02-29T00:00:00)", 3, 11),
    (b"at(2100-02-29T00:00:00)", 3, 11),
    (b"at(1970-02-29T00:00:00)", 3, 11),
    (b"at(2198-02-29T00:00:00)", 3, 11),
    (b"at(2096-02-30T00:00:00)", 3, 11),
    (b"at(2026-01-00T00:00:00)", 3, 11),
    (b"at(2026-01-01T24:60:60)", 3, 14),
    (b"at(2026-01-01T23:60:60)", 3, 17),
    (b"at(2026-01-01T23:59:60)", 3, 20),
    (b"rate()", 1, 0),
    (b"rate(1)", 1, 0),
    (b"rate(1 day", 1, 0),
    (b"rate( 1 day)", 1, 0),
    (b"rate(1 day )", 1, 0),
    (b"rate(1\tday)", 1, 0),
    (b"rate(1 day day)", 1, 0),
    (b"Rate(1 day)", 1, 0),
    (b"rate(0 x)", 3, 5),
    (b"rate(00 minutes)", 2, 5),
    (b"rate(01 minutes)", 2, 5),
    (b"rate(1234567 minutes)", 2, 5),
    (b"rate(0000000 minutes)", 2, 5),
    (b"rate(0 days)", 3, 5),
    (b"rate(-1 minutes)", 2, 5),
    (b"rate(1 Day)", 2, 7),
    (b"rate(10  fortnights)", 2, 9),
    (b"rate(1 day))", 2, 7),
    (b"cron()", 1, 0),
    (b"cron(* * * * ?)", 1, 0),
    (b"cron(* * * * ? * *)", 1, 0),
    (b"cron(x * * * ?)", 1, 0),
    (b"cron(* * * * ? * )", 1, 0),
    (b"cron( * * * * ? *)", 1, 0),
    (b"cron(*\t* * * ? *)", 1, 0),
    (b"cron(60 * * * ? *)", 3, 5),
    (b"cron(1,60,x * * * ? *)", 3, 7),
    (b"cron(1,x,60 * * * ? *)", 2, 7),
    (b"cron(1,2,60 * * * ? *)", 3, 9),
    (b"cron(1,2,x * * * ? *)", 2, 9),
    (b"cron(60,1,2 * * * ? *)", 3, 5),
    (b"cron(x,1,2 * * * ? *)", 2, 5),
    (b"cron(1, * * * ? *)", 2, 7),
    (b"cron(,1 * * * ? *)", 2, 5),
    (b"cron(1,,2 * * * ? *)", 2, 7),
    (b"cron(99-x * * * ? *)", 2, 5),
    (b"cron(*/0 * * * ? *)", 3, 5),
    (b"cron(*/1000 * * * ? *)", 2, 5),
    (b"cron(1/2/3 * * * ? *)", 2, 5),
    (b"cron(1-2-3 * * * ? *)", 2, 5),
    (b"cron(1/2-3 * * * ? *)", 2, 5),
    (b"cron(000 * * * ? *)", 2, 5),
    (b"cron(+1 * * * ? *)", 2, 5),
    (b"cron(20-10 * * * ? *)", 3, 5),
    (b"cron(? * * * ? *)", 2, 5),
    (b"cron(L * * * ? *)", 2, 5),
    (b"cron(* 24 * * ? *)", 3, 7),
    (b"cron(* * 0 * ? *)", 3, 9),
    (b"cron(* * 32 * ? *)", 3, 9),
    (b"cron(* * 0W * ? *)", 3, 9),
    (b"cron(* * 32W * ? *)", 3, 9),
    (b"cron(* * W * ? *)", 2, 9),
    (b"cron(* * LW * ? *)", 2, 9),
    (b"cron(* * 1,L x ? *)", 4, 9),
    (b"cron(* * ?,1 * ? *)", 4, 9),
    (b"cron(* * 1,L,2 * ? *)", 4, 9),
    (b"cron(* * 1,2,31W * ? *)", 4, 9),
    (b"cron(* * 1W,15W * ? *)", 4, 9),
    (b"cron(* * 1W,x * ? *)", 2, 12),
    (b"cron(* * * 13 ? *)", 3, 11),
    (b"cron(* * * DEC-JAN ? *)", 3, 11),
    (b"cron(* * * JANUARY ? *)", 2, 11),
    (b"cron(* * * MON ? *)", 2, 11),
    (b"cron(* * ? * 0 *)", 3, 13),
    (b"cron(* * ? * 8 *)", 3, 13),
    (b"cron(* * ? * FRI-MON *)", 3, 13),
    (b"cron(* * ? * */2 *)", 2, 13),
    (b"cron(* * ? * 1-5/2 *)", 2, 13),
    (b"cron(* * ? * 8L *)", 3, 13),
    (b"cron(* * ? * 3#6 *)", 3, 13),
    (b"cron(* * ? * 3#0 *)", 3, 13),
    (b"cron(* * ? * 8#1 *)", 3, 13),
    (b"cron(* * ? * 3#12 *)", 2, 13),
    (b"cron(* * ? * 3# *)", 2, 13),
    (b"cron(* * ? * 3#1#1 *)", 2, 13),
    (b"cron(* * ? * 2,L *)", 4, 13),
    (b"cron(* * ? * L,2,3 *)", 4, 13),
    (b"cron(* * ? * 2,3L,4 *)", 4, 13),
    (b"cron(* * ? * 2,3,? 1969)", 4, 13),
    (b"cron(0 9 ? * 3#1,6#3 *)", 4, 13),
    (b"cron(* * ? * 2L,8 *)", 3, 16),
    (b"cron(* * * * ? 1969)", 3, 15),
    (b"cron(* * * * ? 2200)", 3, 15),
    (b"cron(* * * * ? 26)", 2, 15),
    (b"cron(* * * * ? 2026-2025)", 3, 15),
    (b"cron(* * * * ? 2026,?)", 2, 20),
    (b"cron(* * * * ? 2026,2027,2200)", 3, 25),
    (b"cron(* * * * ? 2026,1969,x)", 3, 20),
    (b"cron(0 9 * * * *)", 5, 13),
    (b"cron(0 9 ? * ? *)", 6, 13),
    (b"cron(0 9 * * * 1969)", 3, 15),
    (b"cron(0 9 ? * ? x)", 2, 15),
    (b"cron(0  9  *  *  1  *)", 5, 17),
    (b"cron(\xff * * * ? *)", 2, 5),
];

#[test]
fn crons_are_read(rt: HostRuntime) {
    for (text, sets) in CRONS {
        assert_eq!(rt; read_expr(text), Ok(Expr::Cron(*sets)));
    }
}

#[test]
fn faults_are_first_at_their_place(rt: HostRuntime) {
    for (text, number, at) in FAULTS {
        let fault = ExprFault {
            number: *number,
            at: *at,
        };
        assert_eq!(rt; read_expr(text), Err(fault));
    }
}

#[test]
fn rates_are_read(rt: HostRuntime) {
    let rate = |count: u32, unit: Unit| Ok(Expr::Rate { count, unit });
    assert_eq!(rt; read_expr(b"rate(1 days)"), rate(1, Unit::Day));
    assert_eq!(rt; read_expr(b"rate(1 day)"), rate(1, Unit::Day));
    assert_eq!(rt; read_expr(b"rate(12   hour)"), rate(12, Unit::Hour));
    assert_eq!(rt;
        read_expr(b"rate(999999 minutes)"),
        rate(999_999, Unit::Minute)
    );
    assert_eq!(rt;
        read_expr(b"rate(100000 minute)"),
        rate(100_000, Unit::Minute)
    );
}

#[test]
fn instants_are_read(rt: HostRuntime) {
    let leap = Civil {
        year: 2096,
        month: 2,
        day: 29,
        hour: 23,
        minute: 59,
        second: 8,
    };
    assert_eq!(rt; read_expr(b"at(2096-02-29T23:59:08)"), Ok(Expr::At(leap)));
    let first = Civil {
        year: 1970,
        month: 1,
        day: 1,
        hour: 0,
        minute: 0,
        second: 0,
    };
    assert_eq!(rt; read_expr(b"at(1970-01-01T00:00:00)"), Ok(Expr::At(first)));
}

#[test]
fn long_texts_are_read(rt: HostRuntime) {
    let mut text = [b' '; 10_000];
    assert_eq!(rt; read_expr(&text), Err(ExprFault { number: 1, at: 0 }));
    for (place, byte) in b"rate(7".iter().enumerate() {
        text[place] = *byte;
    }
    for (place, byte) in b"days)".iter().enumerate() {
        text[9_995 + place] = *byte;
    }
    assert_eq!(rt;
        read_expr(&text),
        Ok(Expr::Rate {
            count: 7,
            unit: Unit::Day
        })
    );
}
