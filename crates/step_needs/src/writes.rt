ghost use Rattle.step_needs.specs.Writes.{ChangesFind, DatesFit, TokensFit};

/// A Change that may follow finds that the schedules and groups allow its write, the zone of its content known, its token
/// new, and fewer incarnations than there may be where it creates one.
///
/// A theorem and no work: the call does nothing.
pub fn changes_find_their_parts()
    ensures { ChangesFind }
{}

/// With a place on the shelf for its token, where a write has one, a new token has the room that is asked for; with a place
/// in both tables of dates so has a creation.
///
/// A theorem and no work: the call does nothing.
pub fn room_is_all_that_is_left()
    ensures tokens { TokensFit }
    ensures dates { DatesFit }
{}
