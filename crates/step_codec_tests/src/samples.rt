//! A payload of each kind of step, and of each kind of write.
use crate::parts::Part::{self, Date, Eight, Four, One, Pieces, S1, S2, S4, Two};
use sched_plain::LAST_MOMENT;

pub const BOOT: [Part<'static>; 2] = [One(1), Eight(1000)];

pub const ZONE: [Part<'static>; 4] = [One(2), Eight(1000), S1("Europe/Paris"), S4("TZif2")];

/// A creation with every text, that ends but has no start.
pub const CREATION: [Part<'static>; 20] = [
    One(3),
    Eight(1000),
    One(1),
    S1("token-1"),
    S1("default"),
    S1("report"),
    S2("once an hour, é"),
    S2(EXPRESSION),
    S1("Europe/Paris"),
    Date(None),
    Date(Some(2000)),
    One(1),
    One(0),
    Two(15),
    One(185),
    Four(86_400),
    S2("http://127.0.0.1:9000/hook"),
    S2("arn:aws:iam::000000000000:role/r"),
    S2("arn:aws:sqs:local:000000000000:dead"),
    S4("{}"),
];

/// The expression of the creation and of the update.
pub const EXPRESSION: &str = "rate(2 hours)";

/// An update without the texts that may be left out, that starts but has no end.
pub const UPDATE: [Part<'static>; 20] = [
    One(3),
    Eight(1000),
    One(2),
    S1(""),
    S1("g"),
    S1("a"),
    S2(""),
    S2(EXPRESSION),
    S1("UTC"),
    Date(Some(1500)),
    Date(None),
    One(0),
    One(1),
    Two(0),
    One(0),
    Four(60),
    S2("t"),
    S2("r"),
    S2(""),
    S4(""),
];

pub const DELETION: [Part<'static>; 6] = [One(3), Eight(1000), One(3), S1("t"), S1("g"), S1("a")];

pub const GROUP_CREATION: [Part<'static>; 6] = [
    One(3),
    Eight(1000),
    One(4),
    S1("t"),
    S1("g"),
    S1(""),
];

pub const GROUP_DELETION: [Part<'static>; 6] = [
    One(3),
    Eight(1000),
    One(5),
    S1(""),
    S1("g"),
    S1(""),
];

pub const ENTER: [Part<'static>; 8] = [
    One(4),
    Eight(1000),
    Four(1),
    Two(2),
    Eight(1060),
    Four(0),
    Eight(1120),
    Four(600),
];

pub const LEASE: [Part<'static>; 6] = [One(5), Eight(1000), One(6), Four(9), Eight(3), Eight(1060)];

/// A lease at the last moment, which ends behind it.
pub const LAST_LEASE: [Part<'static>; 6] = [
    One(5),
    Eight(LAST_MOMENT),
    One(6),
    Four(9),
    Eight(3),
    Eight(7_258_118_459),
];

pub const RELEASE: [Part<'static>; 5] = [One(6), Eight(1000), One(6), Four(9), Eight(3)];

pub const BEGIN: [Part<'static>; 6] = [One(7), Eight(1000), Four(1), Eight(900), Two(2), Eight(3)];

pub const END: [Part<'static>; 7] = [
    One(8),
    Eight(1000),
    Four(1),
    Eight(900),
    Two(2),
    One(3),
    Two(503),
];

pub const CLOSE: [Part<'static>; 5] = [One(9), Eight(1000), Four(1), Eight(900), One(2)];

pub const COMPLETE: [Part<'static>; 3] = [One(10), Eight(1000), Four(1)];

pub const SWEPT: [Part<'static>; 3] = [One(11), Eight(1000), One(6)];

/// A creation whose texts are as long as they may be, but for its expression.
pub const LARGEST: [Part<'static>; 20] = [
    One(3),
    Eight(LAST_MOMENT),
    One(1),
    Pieces(1, "t", 64),
    Pieces(1, "g", 64),
    Pieces(1, "n", 64),
    Pieces(2, "\u{1F600}", 512),
    S2(EXPRESSION),
    Pieces(1, "z", 50),
    Date(Some(0)),
    Date(Some(LAST_MOMENT)),
    One(1),
    One(1),
    Two(1440),
    One(185),
    Four(86_400),
    Pieces(2, "\u{1F600}", 1600),
    Pieces(2, "\u{1F600}", 1600),
    Pieces(2, "\u{1F600}", 1600),
    Pieces(4, "x", 65_536),
];

/// The changes, a payload for each kind of write.
pub const CHANGES: [&[Part<'static>]; 5] = [
    &CREATION,
    &UPDATE,
    &DELETION,
    &GROUP_CREATION,
    &GROUP_DELETION,
];

/// The other kinds of step.
pub const OTHERS: [&[Part<'static>]; 11] = [
    &BOOT,
    &ZONE,
    &ENTER,
    &LEASE,
    &LAST_LEASE,
    &RELEASE,
    &BEGIN,
    &END,
    &CLOSE,
    &COMPLETE,
    &SWEPT,
];
