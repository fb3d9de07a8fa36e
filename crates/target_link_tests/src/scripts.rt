use plain_words::{Blob, TryCopy};
use std::alloc::{AllocError, Global};
use std::process::Abort;
use std::test::Fail;
use target_link::{Address, Heard, Link, LoopHost, ScriptLink, Sent};

const TO: Address = Address {
    host: LoopHost::Name,
    port: 80,
};

/// A request, for how many bytes of its reply there is room, and what is to come back for it.
type Case = (&'static [u8], usize, Option<&'static [u8]>);

/// What comes back by a script of a reply, a loss and a longer reply, and behind its end.
const CASES: [Case; 5] = [
    (b"one", 5, Some(b"first")),
    (b"two", 5, None),
    (b"3", 2, Some(b"th")),
    (b"", 5, None),
    (b"later", 5, None),
];

fn reply_of(alloc: Global, bytes: &[u8]) -> Result<Heard, AllocError> {
    Ok(Heard::Reply(Blob::from_vec(bytes.to_vec(alloc)?)))
}

fn script(alloc: Global) -> Result<Vec<Heard>, AllocError> {
    let mut answers = Vec::with_capacity(alloc, 3)?;
    answers.push(reply_of(alloc, b"first")?)?;
    answers.push(Heard::Loss)?;
    answers.push(reply_of(alloc, b"third")?)?;
    Ok(answers)
}

/// Sends a request, and compares what comes back for it.
fn send_and_compare(rt: &impl Abort, link: &mut ScriptLink, case: Case) -> Result<(), AllocError> {
    let (request, room, wanted) = case;
    let mut reply = [0u8; 5];
    let reply = &mut reply[..room.min(5)];
    link.ready(1, request.len())?;
    match link.send(TO, request, reply) {
        Ok(length) => assert!(rt; Some(&reply[..length]) == wanted),
        Err(_) => assert!(rt; wanted.is_none()),
    }
    Ok(())
}

fn is_answer(answer: &Heard, wanted: Option<&[u8]>) -> bool {
    match answer {
        Heard::Reply(bytes) => match wanted {
            Some(wanted) => bytes.as_bytes() == wanted,
            None => false,
        },
        Heard::Loss => wanted.is_none(),
    }
}

/// A link tells what it was handed, and so does a copy of that.
fn compare_told(rt: &impl Abort, sent: &Sent, case: Case) -> Result<(), AllocError> {
    let (request, room, wanted) = case;
    let sent = sent.copy()?;
    assert_eq!(rt; sent.to, TO);
    assert_eq!(rt; sent.request.as_bytes(), request);
    assert_eq!(rt; sent.room, room);
    assert!(rt; is_answer(&sent.heard, wanted));
    Ok(())
}

#[test]
fn a_script_is_followed_and_told(rt: HostRuntime) -> Result<(), Fail> {
    let mut link = ScriptLink::new(rt.alloc(), script(rt.alloc())?);
    for case in CASES {
        send_and_compare(&rt, &mut link, case)?;
    }
    assert_eq!(rt; link.losses(), 3);
    assert_eq!(rt; link.sent().len(), 5);
    for (sent, case) in link.sent().iter().zip(CASES) {
        compare_told(&rt, sent, case)?;
    }
    Ok(())
}
