ghost use Rattle.std.specs.Prelude.{◌≡◌, ◌+◌};
ghost use Rattle.cron_search.specs.CivilTime.{IsCivilSecond, civil_second};

use expressions::Civil;

/// The second after the start of a minute.
pub fn just_after(minute: Civil) -> Civil
    requires real { IsCivilSecond minute }
    requires whole { minute.second ≡ 0 }
    ensures real { IsCivilSecond result }
    ensures value { civil_second result ≡ civil_second minute + 1 }
{
    Civil {
        year: minute.year,
        month: minute.month,
        day: minute.day,
        hour: minute.hour,
        minute: minute.minute,
        second: 1,
    }
}
