//! The numbers of a drill: when it sweeps, what its target answers, which words it draws.
ghost use Rattle.std.specs.Prelude.{◌≡◌, ◌≤◌, ◌<◌, ◌*◌, ◌^◌};
ghost use Rattle.drill_plan.specs.Plan.{status_of, sweep_moment, window_word};

use plain_words::Moment;

/// How often a drill sweeps. The sweeps count from 1.
pub const SWEEPS: u64 = 1000;

/// The moment of a sweep: a minute goes by from one to the next.
pub fn sweep_moment(sweep: u64) -> Moment
    requires { sweep ≤ SWEEPS }
    ensures { result ≡ sweep_moment sweep }
{
    Moment(60 * sweep)
}

/// The status that a drill's target answers to an attempt: 503, which asks for a retry, to a fifth of all attempts, and
/// 200 to the others. It depends on the schedule's incarnation, the minute of the occurrence and the attempt's number.
pub fn status(inc: u32, instant: u64, number: u16) -> u16
    ensures { result ≡ status_of inc instant number }
{
    if (inc as u64 + instant / 60 + number as u64) % 5 == 0 {
        503
    } else {
        200
    }
}

/// The word of a place, from 1, among those by which a drill's picker chooses within windows; it goes round at 2^64.
pub fn window_word(place: u64) -> u64
    ensures { result ≡ window_word place }
{
    place.wrapping_mul(37)
}
