//! Time zones: which bytes are one, which instant a civil second is in it, and the instants of an
//! expression: the next one, and the first ones of a span, none left out.
//!
//! A zone is read exactly where its bytes are a zone file (TZif, RFC 9636) or a POSIX rule; what is
//! read and how the clock runs by it are `jiff`'s, restated in `specs/` over the text of the zone. A
//! civil second in a gap has no instant, and one in a fold has the earlier of two. Not promised is
//! that the clock of a zone shows a civil second again at its instant, nor that instants rise with
//! civil seconds: a rule may have moments that overlap.
#![tactic(auto)]

mod batch;
mod calendar;
mod conversion;
mod folder_zones;
mod map_zones;
mod minutes;
mod next;
mod offset_bounds;
mod scan;
mod searchable;
mod window;
mod zone;
mod zone_files;

pub use batch::{Batch, Instants, occurrences};
pub use calendar::calendar_of_zones;
pub use conversion::conv;
pub use folder_zones::FolderZones;
pub use map_zones::MapZones;
pub use next::next_after;
pub use searchable::valid_is_searchable;
pub use zone::{Zone, ZoneFault};
pub use zone_files::{LONGEST_ANSWER, NamedZone, ZoneAnswer, ZoneCallFault, ZoneFiles};
