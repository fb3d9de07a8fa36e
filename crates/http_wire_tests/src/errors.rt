//! The responses of errors, as they are written out.
use http_wire::{memory_response, write_error};

const CONFLICT: &str =
    "HTTP/1.1 409 Conflict\r\nContent-Type: application/json\r\nContent-Length: 35\r\nx-amzn-ErrorType: ConflictException\r\nX-History: 30\r\n\r\n{\"Message\":\"rule 10: default/once\"}";

const ZONES: &str =
    "HTTP/1.1 500 Internal Server Error\r\nContent-Type: application/json\r\nContent-Length: 19\r\nx-amzn-ErrorType: InternalServerException\r\n\r\n{\"Message\":\"zones\"}";

#[test]
fn a_refusal_tells_the_history(rt: HostRuntime) {
    let body = b"{\"Message\":\"rule 10: default/once\"}";
    let text = write_error(rt.alloc(), 409, body, Some(30)).expect(&rt, "memory");
    assert_eq!(rt; text.as_slice(), CONFLICT.as_bytes());
}

#[test]
fn a_fault_tells_none(rt: HostRuntime) {
    let body = b"{\"Message\":\"zones\"}";
    let text = write_error(rt.alloc(), 500, body, None).expect(&rt, "memory");
    assert_eq!(rt; text.as_slice(), ZONES.as_bytes());
}

#[test]
fn want_of_memory_is_answered_like_any_error(rt: HostRuntime) {
    let body = b"{\"Message\":\"memory\"}";
    let text = write_error(rt.alloc(), 503, body, None).expect(&rt, "memory");
    assert_eq!(rt; text.as_slice(), memory_response());
}
