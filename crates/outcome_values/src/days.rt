// Days apart, and a day that may be absent.
ghost use Rattle.std.specs.Prelude.{◌≡◌, ◌-◌};
ghost use Rattle.outcome_rules.specs.Values.{is_recorded, day_value};

use dates::StudyDay;

// 0 where `to` is the earlier.
pub(crate) fn days_between(from: StudyDay, to: StudyDay) -> u32
    ensures { result ≡ to.0 - from.0 }
{
    to.0.saturating_sub(from.0)
}

pub fn is_recorded(day: Option<StudyDay>) -> bool
    ensures { result ≡ is_recorded (day_value day) }
{
    day.is_some()
}
