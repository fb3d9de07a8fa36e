ghost use Rattle.policy_rules.specs.ExampleRows.{Choosing, Waiting, Standing, Leasing, Giving};

/// What the rules say of examples that are written out, so that a reader can try them: moments in a window, waits,
/// entries at their bounds, two workers at one shard, lists behind their ends.
///
/// A theorem and no work: the call does nothing.
pub fn rules_on_examples()
    ensures windows { Choosing }
    ensures delays { Waiting }
    ensures standings { Standing }
    ensures leases { Leasing }
    ensures lists { Giving }
{}
