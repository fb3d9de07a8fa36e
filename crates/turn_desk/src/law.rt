//! The table of a desk.
use crate::known::View;
use crate::recorded::Recorded;
use atomic_table::{Seat, Shared, Table, TableRule};
use std::alloc::Global;
use std::marker::PhantomData;
use std::snapshot::Snapshot;

/// The rule of the table; the key is the first value.
pub struct Law<T> {
    of: PhantomData<T>,
}

impl<T: Recorded> TableRule<Option<T>, View<T::Entry>, Snapshot<T>> for Law<T> {
    ghost use Rattle.turn_desk.specs.Turns.{Rule};
    ghost use Rattle.turn_desk.specs.Knowing.{knows_value};
    ghost use Rattle.turn_desk.specs.declared.known.View.TheVariants.{Free};

    ghost holds = { λ _. Rule T.entries T.gauge };

    ghost first = { λ key. Free (knows_value (T.entries key.value) (T.gauge key.value)) };
}

pub(crate) type Board<T> = Table<
    Option<T>,
    View<<T as Recorded>::Entry>,
    Snapshot<T>,
    Law<T>,
    Global,
>;

pub(crate) type Place<T> = Seat<Option<T>, View<<T as Recorded>::Entry>>;
