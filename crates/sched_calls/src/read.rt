ghost use Rattle.std.specs.Prelude.{◌≡◌, IfOk};

use sched_plain::{Name, Text, TryCopy, copy_option};
use std::alloc::AllocError;

/// A call that only asks.
#[derive(Debug, Drop)]
pub enum Read {
    Schedule {
        group: Name,
        name: Name,
    },
    Group {
        name: Name,
    },
    /// The schedules behind `after`, at most `max`, whose names begin with the prefix.
    Schedules {
        group: Option<Name>,
        prefix: Text,
        enabled: Option<bool>,
        after: Option<(Name, Name)>,
        max: u8,
    },
    /// The groups behind `after`, at most `max`, whose names begin with the prefix.
    Groups {
        prefix: Text,
        after: Option<Name>,
        max: u8,
    },
    /// One occurrence of an incarnation.
    Execution {
        inc: u32,
        instant: u64,
    },
    /// The dead letters of a queue behind the first `after`, at most `max`.
    Letters {
        queue: Text,
        after: u64,
        max: u8,
    },
}

fn copy_place(place: &Option<(Name, Name)>) -> Result<Option<(Name, Name)>, AllocError>
    ensures { IfOk result (λ copy. copy ≡ place.now) }
{
    match place {
        None => Ok(None),
        Some((group, name)) => Ok(Some((group.copy()?, name.copy()?))),
    }
}

impl TryCopy for Read {
    fn copy(&self) -> Result<Read, AllocError> {
        match self {
            Read::Schedule { group, name } => Ok(Read::Schedule {
                group: group.copy()?,
                name: name.copy()?,
            }),
            Read::Group { name } => Ok(Read::Group { name: name.copy()? }),
            Read::Schedules {
                group,
                prefix,
                enabled,
                after,
                max,
            } => Ok(Read::Schedules {
                group: copy_option(group)?,
                prefix: prefix.copy()?,
                enabled: *enabled,
                after: copy_place(after)?,
                max: *max,
            }),
            Read::Groups { prefix, after, max } => Ok(Read::Groups {
                prefix: prefix.copy()?,
                after: copy_option(after)?,
                max: *max,
            }),
            Read::Execution { inc, instant } => Ok(Read::Execution {
                inc: *inc,
                instant: *instant,
            }),
            Read::Letters { queue, after, max } => Ok(Read::Letters {
                queue: queue.copy()?,
                after: *after,
                max: *max,
            }),
        }
    }
}
