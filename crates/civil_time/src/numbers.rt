ghost use Rattle.civil_time.specs.Numbers.{HasOneOfEach};

/// No two civil seconds have one number of seconds, so that `civil_at` and `second_of` undo one
/// another.
///
/// A theorem and no work: the call does nothing.
pub fn one_civil_second_each()
    ensures { HasOneOfEach }
{}
