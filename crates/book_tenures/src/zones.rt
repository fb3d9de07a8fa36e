ghost use Rattle.std.specs.Prelude.{◌≡◌, ◌≤◌, ◌<◌, ◌^◌};
ghost use Rattle.sched_plain.specs.declared.step.Step.TheVariants as steps;
ghost use Rattle.zone_shelf.specs.Places.{HasRoom};
ghost use Rattle.book_parts.specs.Stands.{Takes};

use book_parts::Parts;
use next_dates::steps_change_the_next_instant;
use plain_words::{Blob, ZoneName};
use sched_plain::{LAST_MOMENT, Moment};
use work_order::steps_change_the_finished_date;

/// A zone gets its bytes. It uses up the room that was made for them.
pub fn zone(parts: &mut Parts, at: Moment, name: ZoneName, bytes: Blob)
    requires place { HasRoom parts.old.zones name bytes }
    requires forward { parts.old.moment ≤ at.0 }
    requires last { at.0 ≤ LAST_MOMENT }
    requires room { parts.old.steps < 2 ^ 62 }
    ensures { Takes parts.old parts.new (steps.Zone at name bytes) }
{
    steps_change_the_next_instant();
    steps_change_the_finished_date();
    parts.moment = at;
    parts.steps += 1;
    parts.zones.add(name, bytes);
}
