ghost use Rattle.sweep_laws.specs.FollowLaws.{
  EntersFollow,
  ClosesFollow,
  BeginsFollow,
  EndsFollow,
  CompletesFollow,
  SweptsFollow,
  TakingsFollow,
  ReleasesFollow,
};

/// Each step that a sweep offers may follow the history that it is offered for, legal or not, where the moment does not
/// fall: what the work of the shard asks for, the End of an attempt behind its Begin, Swept where nothing is left, and the
/// taking and giving back of a shard.
///
/// A theorem and no work: the call does nothing.
pub fn offered_steps_may_follow()
    ensures enters { EntersFollow }
    ensures closes { ClosesFollow }
    ensures begins { BeginsFollow }
    ensures ends { EndsFollow }
    ensures completes { CompletesFollow }
    ensures swept { SweptsFollow }
    ensures takes { TakingsFollow }
    ensures releases { ReleasesFollow }
{}
