ghost use Rattle.std.specs.Prelude.{◌≡◌, ◌≤◌, ◌<◌, ◌+◌, ◌/◌, ◌%◌, pos};
ghost use Rattle.target_link.specs.Time.{day_of, day_text, clock_text, time_text, two_digits};

use jiff_core::civil::Date;
use plain_words::LAST_MOMENT;

/// The seconds of a day.
const DAY_SECONDS: u64 = 86_400;

/// The bytes of a time, yyyy-mm-ddThh:mm:ssZ.
pub const TIME_LENGTH: usize = 20;

/// The UTC time of an instant as yyyy-mm-ddThh:mm:ssZ (RFC 3339).
pub fn time_text(instant: u64) -> [u8; TIME_LENGTH]
    requires { instant ≤ LAST_MOMENT }
    ensures { result ≡ time_text instant }
{
    let date = date_of((instant / DAY_SECONDS) as u32);
    let second = (instant % DAY_SECONDS) as u32;
    let [y0, y1] = two_digits((date.year / 100) as u32);
    let [y2, y3] = two_digits((date.year % 100) as u32);
    let [m0, m1] = two_digits(date.month as u32);
    let [d0, d1] = two_digits(date.day as u32);
    let [h0, h1] = two_digits(second / 3600);
    let [n0, n1] = two_digits(second / 60 % 60);
    let [s0, s1] = two_digits(second % 60);
    [
        y0, y1, y2, y3, b'-', m0, m1, b'-', d0, d1, b'T', h0, h1, b':', n0, n1, b':', s0, s1, b'Z',
    ]
}

fn two_digits(n: u32) -> [u8; 2]
    requires { n < 100 }
    ensures { result ≡ two_digits n }
{
    [b'0' + (n / 10) as u8, b'0' + (n % 10) as u8]
}

/// The day that comes so many days after 1970-01-01.
fn date_of(days: u32) -> Date
    requires { days ≤ LAST_MOMENT / DAY_SECONDS }
    ensures year { result.year ≡ pos (day_of days).year }
    ensures month { result.month ≡ (day_of days).month }
    ensures day { result.day ≡ (day_of days).day }
{
    Date::from_unix_epoch_day(i64::from(days)).unwrap()
}
