ghost use Rattle.std.specs.Prelude.{◌≡◌, ◌≤◌};
ghost use Rattle.sched_plain.specs.Standing.{delay};

/// The longest wait between two attempts, in seconds.
const LONGEST_DELAY: u64 = 900;

/// The last attempt after which the wait is twice the one before: 512 seconds.
const LAST_DOUBLED: u16 = 10;

/// How long to wait after attempt `number`, counted from 1, in seconds: 1 after the first, then twice the wait before,
/// at most a quarter of an hour.
pub fn delay(number: u16) -> u64
    ensures value { result ≡ delay number }
    ensures bound { result ≤ LONGEST_DELAY }
{
    if number > LAST_DOUBLED {
        return LONGEST_DELAY;
    }
    let doubled: u64 = 1 << (number.saturating_sub(1));
    doubled.min(LONGEST_DELAY)
}
