//! What a seat knows. Contracts and proofs alone speak of these: no value of them is ever made.
use std::collections::LinkedList;

/// Three numbers of a value.
pub struct Gauge {
    /// How many calls to the world outside failed so far.
    pub faults: u64,
    /// A bound that no turn changes.
    pub limit: u64,
    /// The moment that the value has reached.
    pub moment: u64,
}

/// A value as a turn finds it.
pub struct Reading<E> {
    pub entries: LinkedList<E>,
    pub gauge: Gauge,
}

/// A turn that was left: how long the list was, and the gauge, as it began and as it ended.
pub struct TurnTaken {
    pub from: u64,
    pub before: Gauge,
    pub to: u64,
    pub after: Gauge,
}

/// What the turns of a seat have shown and done.
pub struct Known<E> {
    /// A beginning of the list of entries.
    pub seen: LinkedList<E>,
    /// How many faults there were then.
    pub faults: u64,
    /// The limit of the desk's value.
    pub limit: u64,
    /// The entries that the seat's own turns added, each with its place in the list, counted from 0.
    pub own: LinkedList<(u64, E)>,
    /// The seat's own turns, the oldest first.
    pub turns: LinkedList<TurnTaken>,
}

/// Where a seat stands in its turn, a ticket drawn being the number of the turn.
pub enum View<E> {
    /// It has no turn and waits for none.
    Free(Known<E>),
    /// What another seat knew was put beside, and is yet to be compared.
    Beside(Known<E>, Known<E>),
    /// It drew a ticket.
    Waits(Known<E>, u64),
    /// Its turn has come.
    Called(Known<E>, u64),
    /// It has the value, as it found it.
    Took(Known<E>, u64, Reading<E>),
    /// It still has the value, and has told how long the list now is.
    Told(Known<E>, u64),
    /// The value is back.
    Returned(Known<E>, u64),
    /// It was joined to another seat.
    Gone,
}
