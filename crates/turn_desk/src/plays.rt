//! The steps on a desk's table: what each tells its seat.
ghost use Rattle.turn_desk.specs.Knowing.{newcomer};
ghost use Rattle.turn_desk.specs.Turns.{knowledge, drew, looked, took, told, gave, passed, compared};
ghost use Rattle.turn_desk.specs.declared.known.View.TheVariants.{Free, Beside, Gone};

use crate::known::View;
use crate::recorded::Recorded;
use atomic_table::{Join, Play, Split};

/// The next ticket becomes the seat's.
pub(crate) struct Draw;

impl<T: Recorded> Play<Option<T>, View<T::Entry>> for Draw {
    ghost then = { drew T.entries T.gauge };
}

/// Whether the seat's turn has come.
pub(crate) struct Look;

impl<T: Recorded> Play<Option<T>, View<T::Entry>> for Look {
    ghost then = { looked T.entries T.gauge };
}

/// The value leaves the slot.
pub(crate) struct Take;

impl<T: Recorded> Play<Option<T>, View<T::Entry>> for Take {
    ghost then = { took T.entries T.gauge };
}

/// The length of the list is told.
pub(crate) struct Tally;

impl<T: Recorded> Play<Option<T>, View<T::Entry>> for Tally {
    ghost then = { told T.entries T.gauge };
}

/// The value goes back to the slot.
pub(crate) struct Return;

impl<T: Recorded> Play<Option<T>, View<T::Entry>> for Return {
    ghost then = { gave T.entries T.gauge };
}

/// The next ticket is served.
pub(crate) struct Pass;

impl<T: Recorded> Play<Option<T>, View<T::Entry>> for Pass {
    ghost then = { passed T.entries T.gauge };
}

/// The second half of a join.
pub(crate) struct Compare;

impl<T: Recorded> Play<Option<T>, View<T::Entry>> for Compare {
    ghost then = { compared T.entries T.gauge };
}

/// A seat is split off, which has done nothing.
pub(crate) struct Fork;

impl<E> Split<View<E>> for Fork {
    ghost left = { λ v. v };

    ghost right = { λ v. Free (newcomer (knowledge v)) };
}

/// What another seat knew is put beside what this one knows.
pub(crate) struct Gather;

impl<E> Join<View<E>> for Gather {
    ghost both = { λ v w. Beside (knowledge v) (knowledge w) };

    ghost spent = { Gone };
}
