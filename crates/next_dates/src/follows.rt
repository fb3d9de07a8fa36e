ghost use Rattle.next_dates.specs.StepLaws.{NextCreated, NextEnded, NextEntered, NextRenewed, NextStays};

/// In a legal history the next instant of an incarnation stays at every step but a Change that creates or touches it and
/// an Enter of it. After a creation, a new content and an Enter it is the first instant of one item from a moment on, and
/// there is none after an end.
///
/// A theorem and no work: the call does nothing.
pub fn steps_change_the_next_instant()
    ensures stays { NextStays }
    ensures created { NextCreated }
    ensures renewed { NextRenewed }
    ensures ended { NextEnded }
    ensures entered { NextEntered }
{}
