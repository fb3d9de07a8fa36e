ghost use Rattle.step_needs.specs.Entries.{BeginsFind, ClosesFind, EndsFind};

use live_attempts::live_attempts_are_aloft;

/// A Begin that may follow finds the entry of its occurrence due and its number the next one, in an incarnation that is
/// there and at an instant that has come.
///
/// A theorem and no work: the call does nothing.
pub fn begins_find_their_parts()
    ensures { BeginsFind }
{}

/// An End that may follow finds the attempt of its number live, and an attempt of its occurrence in the air, in an
/// incarnation that is there.
///
/// A theorem and no work: the call does nothing.
pub fn ends_find_their_parts()
    ensures { EndsFind }
{
    live_attempts_are_aloft();
}

/// A Close that may follow finds the entry of its occurrence open and with no attempt in the air, in an incarnation that is
/// there.
///
/// A theorem and no work: the call does nothing.
pub fn closes_find_their_parts()
    ensures { ClosesFind }
{}
