/// An attempt that was begun. It cannot be let go: it is spent when the attempt is ended, or is abandoned.
#[derive(Debug, PartialEq, Eq)]
pub struct Ticket {
    pub inc: u32,
    /// The instant of the occurrence, in seconds since 1970 UTC.
    pub instant: u64,
    /// The attempts of an occurrence count from 1.
    pub number: u16,
    /// The epoch of the shard under which it was begun.
    pub epoch: u64,
}

/// Spends a ticket, and changes nothing: its attempt stays live until its shard is taken anew.
pub fn abandon(ticket: Ticket) {
    let Ticket {
        inc: _,
        instant: _,
        number: _,
        epoch: _,
    } = ticket;
}
