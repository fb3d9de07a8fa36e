//! The moment that X-Moment headers tell.
use crate::samples::{fault_text, request_of};
use request_calls::moment_of;
use sched_plain::Blob;
use std::alloc::Global;
use std::process::Abort;

/// Values of X-Moment, a comma between two, and what they tell.
const VALUES: &str = r#"0 | Some(0)
7 | Some(7)
0000000900 | Some(900)
7258118399 | Some(7258118399)
 | 400 rule 2: "X-Moment"
7258118400 | 400 rule 2: "X-Moment"
9999999999 | 400 rule 2: "X-Moment"
00000000900 | 400 rule 2: "X-Moment"
+7 | 400 rule 2: "X-Moment"
-7 | 400 rule 2: "X-Moment"
7. | 400 rule 2: "X-Moment"
7 7 | 400 rule 2: "X-Moment"
٧ | 400 rule 2: "X-Moment"
7,7 | 400 rule 2: "X-Moment"
7,x | 400 rule 2: "X-Moment"
7,8,9 | 400 rule 2: "X-Moment""#;

/// What headers with these values tell.
fn told(rt: &impl Abort, alloc: Global, values: &str) -> String {
    let mut request = request_of(rt, alloc, "POST", "/sweep", b"");
    for value in values.split(",") {
        let value = value.as_bytes().to_vec(alloc).expect(rt, "memory");
        request
            .moments
            .push(Blob::from_vec(value))
            .expect(rt, "memory");
    }
    let told = match moment_of(alloc, &request) {
        Ok(moment) => format!(in alloc; "{moment:?}"),
        Err(fault) => fault_text(alloc, &fault),
    };
    told.expect(rt, "memory for what is told")
}

fn check_line(rt: &impl Abort, alloc: Global, line: &str) {
    let (values, wanted) = line.split_once(" | ").expect(rt, "a line has two columns");
    let told = told(rt, alloc, values);
    assert_eq!(rt; told.as_str(), wanted);
}

#[test]
fn one_header_tells_a_moment(rt: HostRuntime) {
    for line in VALUES.lines() {
        check_line(&rt, rt.alloc(), line);
    }
}

#[test]
fn no_header_tells_nothing(rt: HostRuntime) {
    let request = request_of(&rt, rt.alloc(), "POST", "/sweep", b"");
    let told = moment_of(rt.alloc(), &request)
        .ok()
        .expect(&rt, "no refusal");
    assert_eq!(rt; told, None);
}
