ghost use Rattle.next_dates.specs.NextLaws.{
  CurrentIsLast,
  NextComes,
  NextInTime,
  NextIsLeast,
  NothingToCome,
  UnenteredFromNext,
  UnenteredOfLast,
};

/// In a legal history the next instant of an incarnation tells, for each moment, the first occurrence up to it that has
/// no entry: it is that, where it has come. It is the least occurrence that the entries do not reach, and no later than
/// the last moment. What has no entry are the occurrences of the incarnation's last item alone, from the next instant on,
/// and that item is its current content, where it lives.
///
/// A theorem and no work: the call does nothing.
pub fn next_instants_are_exact()
    ensures comes { NextComes }
    ensures least { NextIsLeast }
    ensures in_time { NextInTime }
    ensures of_last { UnenteredOfLast }
    ensures from_next { UnenteredFromNext }
    ensures nothing { NothingToCome }
    ensures current { CurrentIsLast }
{}
