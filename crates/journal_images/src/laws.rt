ghost use Rattle.journal_images.specs.Laws.{Begins, Grows, Fails, Rests, StandBetween};

use disk_port::Disk;

/// The images of a disk stand between two histories before the first call, behind each call of a journal on it, and so from the
/// start on.
///
/// A theorem and no work: the call does nothing.
pub fn images_stand_between<D: Disk>()
    ensures begins { Begins D.moment D.image_since D.faults }
    ensures grows { Grows D.moment D.image_since D.faults }
    ensures fails { Fails D.moment D.image_since D.faults }
    ensures rests { Rests D.image D.moment D.image_since D.faults }
    ensures between { StandBetween D.image D.moment D.image_since D.faults }
{}
