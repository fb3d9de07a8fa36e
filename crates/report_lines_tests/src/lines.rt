use report_lines::{Finding, check_line, report};
use sched_plain::Counts;
use std::test::Fail;

const NOTHING: Counts = Counts {
    moment: 0,
    steps: 0,
    schedules: 0,
    groups: 0,
    entries: 0,
    done: 0,
    finals: 0,
    attempts: 0,
    age: 0,
    cancelled: 0,
    waiting: 0,
    due: 0,
    live: 0,
    exhausted: 0,
    letters: 0,
};

#[test]
fn an_hourly_schedule_after_two_days(rt: HostRuntime) -> Result<(), Fail> {
    let counts = Counts {
        moment: 172800,
        steps: 102,
        schedules: 1,
        groups: 1,
        entries: 49,
        done: 25,
        age: 24,
        ..NOTHING
    };
    let lines =
        b"moment 172800\nsteps 102\nschedules 1\ngroups 1\nentries 49\ndone 25\nfinal 0\nattempts 0\nage 24\ncancelled 0\nwaiting 0\ndue 0\nlive 0\nexhausted 0\nletters 0\n";
    assert_eq!(rt; report(rt.alloc(), &counts)?.as_slice(), lines.as_slice());
    Ok(())
}

#[test]
fn each_count_has_its_line(rt: HostRuntime) -> Result<(), Fail> {
    let counts = Counts {
        moment: 7258118399,
        steps: u64::MAX,
        schedules: 3,
        groups: 4,
        entries: 5,
        done: 6,
        finals: 7,
        attempts: 8,
        age: 9,
        cancelled: 10,
        waiting: 11,
        due: 12,
        live: 13,
        exhausted: 14,
        letters: 15,
    };
    let lines =
        b"moment 7258118399\nsteps 18446744073709551615\nschedules 3\ngroups 4\nentries 5\ndone 6\nfinal 7\nattempts 8\nage 9\ncancelled 10\nwaiting 11\ndue 12\nlive 13\nexhausted 14\nletters 15\n";
    assert_eq!(rt; report(rt.alloc(), &counts)?.as_slice(), lines.as_slice());
    Ok(())
}

#[test]
fn what_a_look_at_a_file_found(rt: HostRuntime) -> Result<(), Fail> {
    let alloc = rt.alloc();
    let legal = check_line(alloc, Finding::Legal { steps: 27404 })?;
    assert_eq!(rt; legal.as_slice(), b"legal 27404 steps\n".as_slice());
    let empty = check_line(alloc, Finding::Legal { steps: 0 })?;
    assert_eq!(rt; empty.as_slice(), b"legal 0 steps\n".as_slice());
    let foreign = check_line(alloc, Finding::NotAJournal { at: 0 })?;
    assert_eq!(rt; foreign.as_slice(), b"not a journal at 0\n".as_slice());
    let damaged = check_line(alloc, Finding::Damaged { at: 16 })?;
    assert_eq!(rt; damaged.as_slice(), b"damaged at 16\n".as_slice());
    Ok(())
}
